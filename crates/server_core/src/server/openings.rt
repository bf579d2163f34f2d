//! Links that come: connections, and uplinks that join.
ghost use Rattle.std.specs.Prelude.{◌≡◌, ◌∷◌, [], ◌<◌, IfOk, OnOk, ◌++◌};
ghost use Rattle.aprs_history.specs.Trace.{Trace, AtListener, ByUplink, Opened, Unjoined};
ghost use Rattle.aprs_history.specs.Setting.{kind_at};
ghost use Rattle.uplinks_peers.specs.Uplinks.{acts_at, uplinks_after};
ghost use Rattle.uplinks_peers.specs.declared.uplinks.UpEvent.TheVariants as up;
ghost use Rattle.aprs_history.specs.declared.verdicts.Admission.TheVariants as Admission;
ghost use Rattle.aprs_history.specs.History.{admission, admitted, joined_admission};
ghost use Rattle.aprs_history.specs.Texts.{first_line};
ghost use Rattle.served_links.specs.Links.{Rises, clients_in, numbers};
ghost use Rattle.server_core.specs.LinkSteps.{admitted_in, joined_outcome};
ghost use Rattle.server_core.specs.Meaning.{setting_of};
ghost use Rattle.server_core.specs.Steps.{SameRest, Walks};
ghost use Rattle.server_core.specs.Telling.{Tells};

use super::State;
use crate::conf::{code_of, is_client_kind, most_clients, served_by, server_of};
use aprs_base::{Addr, JournalLine, Line, Memory};
use aprs_history::{Admission, LinkKind};
use line_verdict::{banner_line, uplink_line};
use std::alloc::Global;

/// What becomes of a link to an uplink, which was being dialled or wasn't.
fn joined_outcome(uplink: u16, asked: bool) -> Admission
    ensures { result ≡ joined_outcome uplink asked }
{
    if asked {
        Admission::Served(LinkKind::Uplink(uplink))
    } else {
        Admission::NotAsked
    }
}

impl State {
    /// What becomes of a connection on that listener.
    fn admission(&self, listener: u16) -> Admission
        ensures value { result ≡ admitted self.now.conf.max_clients (clients_in self.now.seen.links) (kind_at (setting_of self.now.conf) listener) }
        ensures rising { Rises 0 (numbers self.now.seen.links) self.now.seen.greatest }
    {
        match served_by(&self.conf, listener) {
            Some(kind) if is_client_kind(kind) => {
                if self.links.count_clients() < most_clients(&self.conf) {
                    Admission::Served(LinkKind::Client(kind))
                } else {
                    Admission::TurnedAway
                }
            }
            _ => Admission::NoPort,
        }
    }

    /// A link comes: it is served, or it isn't.
    fn admit(
        &mut self,
        alloc: Global,
        admission: Admission,
        number: u32,
        from: Addr,
    ) -> Result<(), Memory>
        requires { self.old.seen.greatest < number }
        ensures { OnOk result (self.new ≡ record self.old { seen = admitted_in (setting_of self.old.conf) admission number from self.old.seen }) }
    {
        match admission {
            Admission::Served(kind) => self.serve(alloc, kind, number, from),
            Admission::TurnedAway => self.turn_away(number),
            Admission::NotAsked => self.turn_away(number),
            Admission::NoPort => {
                self.pass_over(number);
                Ok(())
            }
        }
    }

    /// A link is served.
    fn serve(
        &mut self,
        alloc: Global,
        kind: LinkKind,
        number: u32,
        from: Addr,
    ) -> Result<(), Memory>
        requires { self.old.seen.greatest < number }
        ensures { OnOk result (self.new ≡ record self.old { seen = admitted_in (setting_of self.old.conf) (Admission.Served kind) number from self.old.seen }) }
    {
        let first = self.first_line(alloc, kind)?;
        self.links
            .open(alloc, number, kind, from, self.moment, first)?;
        self.greatest = number;
        Ok(())
    }

    /// A link isn't served, and is closed as the round ends.
    fn turn_away(&mut self, number: u32) -> Result<(), Memory>
        requires { self.old.seen.greatest < number }
        ensures { OnOk result (self.new ≡ record self.old { seen = record self.old.seen { greatest = number; turned = self.old.seen.turned ++ number ∷ [] } }) }
    {
        self.turned.push(number)?;
        self.greatest = number;
        Ok(())
    }

    /// A link comes where none is served.
    fn pass_over(&mut self, number: u32)
        requires { self.old.seen.greatest < number }
        ensures { self.new ≡ record self.old { seen = record self.old.seen { greatest = number } } }
    {
        self.greatest = number;
    }

    /// What the text of a link begins with.
    fn first_line(&self, alloc: Global, kind: LinkKind) -> Result<Line, Memory>
        ensures { IfOk result (λ line. line ≡ (first_line (setting_of self.now.conf) kind).line) }
    {
        match kind {
            LinkKind::Client(_) => Ok(banner_line()),
            LinkKind::Uplink(_) => uplink_line(alloc, server_of(&self.conf), code_of(&self.conf)),
        }
    }

    /// A link was opened on a listener.
    pub(super) fn open(
        &mut self,
        alloc: Global,
        listener: u16,
        number: u32,
        from: Addr,
        lines: &mut Vec<JournalLine>,
    ) -> Result<(), Memory>
        requires { self.old.seen.greatest < number }
        ensures walks { (t : Trace) → Walks self.old t
            → OnOk result (Walks self.new (Opened (AtListener listener) (admission (setting_of self.old.conf) t listener) number from ∷ t)) }
        ensures tells { (t : Trace) → Walks self.old t
            → OnOk result (Tells (setting_of self.old.conf) t (Opened (AtListener listener) (admission (setting_of self.old.conf) t listener) number from ∷ t) lines.old.items lines.new.items) }
        ensures conf { OnOk result (self.new.conf ≡ self.old.conf) }
        ensures greatest { OnOk result (self.new.seen.greatest ≡ number) }
        ensures stopped { OnOk result (self.new.seen.stopped ≡ self.old.seen.stopped) }
    {
        let admission = self.admission(listener);
        self.tell_opened(listener, number, admission, lines)?;
        self.admit(alloc, admission, number, from)
    }

    /// Whether an uplink that has joined was being dialled.
    fn ask(&mut self, uplink: u16, number: u32) -> bool
        ensures rising { Rises 0 (numbers self.old.seen.links) self.old.seen.greatest }
        ensures asked { result ≡ (acts_at (up.Joined uplink number) self.old.seen.moment self.old.seen.reach.uplinks).login }
        ensures joins { self.new ≡ record self.old {
          seen = record self.old.seen { reach = record self.old.seen.reach { uplinks = uplinks_after (up.Joined uplink number) self.old.seen.moment self.old.seen.reach.uplinks } };
        } }
    {
        self.reach.join(uplink, number, self.moment)
    }

    /// An uplink has joined.
    pub(super) fn join(
        &mut self,
        alloc: Global,
        uplink: u16,
        number: u32,
        at: Addr,
    ) -> Result<(), Memory>
        requires { self.old.seen.greatest < number }
        ensures walks { (t : Trace) → Walks self.old t
            → OnOk result (Walks self.new (Opened (ByUplink uplink) (joined_admission (setting_of self.old.conf) t uplink number) number at ∷ t)) }
        ensures conf { OnOk result (self.new.conf ≡ self.old.conf) }
        ensures greatest { OnOk result (self.new.seen.greatest ≡ number) }
        ensures stopped { OnOk result (self.new.seen.stopped ≡ self.old.seen.stopped) }
    {
        let asked = self.ask(uplink, number);
        self.admit(alloc, joined_outcome(uplink, asked), number, at)
    }

    /// A dial came to nothing.
    pub(super) fn unjoin(&mut self, uplink: u16)
        ensures walks { (t : Trace) → Walks self.old t → Walks self.new (Unjoined uplink ∷ t) }
        ensures rest { SameRest self.old self.new }
    {
        self.reach.unjoin(uplink, self.moment);
    }
}
