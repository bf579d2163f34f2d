//! What a tick brings: the moment, the date, a dial.
ghost use Rattle.std.specs.Prelude.{◌≡◌, ◌≤◌, ◌∷◌, List, OnOk};
ghost use Rattle.aprs_base.specs.PacketSeen.{PacketSeen};
ghost use Rattle.station_table.specs.Last.{HasExactly};
ghost use Rattle.station_table.specs.Stations.{young};
ghost use Rattle.aprs_history.specs.Trace.{Trace, Looked, Ticked};
ghost use Rattle.aprs_history.specs.History.{dated, with_tick};
ghost use Rattle.server_core.specs.LinkSteps.{passed};
ghost use Rattle.server_core.specs.Meaning.{setting_of};
ghost use Rattle.server_core.specs.Steps.{SameRest, Walks};
ghost use Rattle.server_core.specs.Telling.{Tells};

use super::State;
use crate::conf::server_of;
use aprs_base::{JournalLine, Memory};
use line_verdict::comment_of;
use std::alloc::Global;
use std::sync::Arc;

/// The greatest moment: the last second of the year 9999.
const LAST_MOMENT: u64 = 253_402_300_799;

/// The seconds between two comment lines.
const COMMENT_SECONDS: u64 = 20;

impl State {
    /// The moment has risen: what is too old by now is let go.
    fn pass(&mut self, now: u64) -> Result<(), Memory>
        requires { self.old.seen.moment ≤ now }
        ensures seen { OnOk result (self.new ≡ record self.old { seen = passed now self.old.seen }) }
        ensures sights { OnOk result ((packets : List PacketSeen) → HasExactly self.old.seen.moment self.old.seen.stations packets → HasExactly now (young now self.old.seen.stations) packets) }
    {
        self.links.forget(now)?;
        self.moment = now;
        self.window.expire(now);
        self.stations.expire(now);
        self.heard.expire(now);
        Ok(())
    }

    /// The moment goes on. Within one second nothing grows older.
    fn go_on(&mut self, moment: u64) -> Result<(), Memory>
        ensures walks { (t : Trace) → Walks self.old t → OnOk result (Walks self.new (Ticked moment ∷ t)) }
        ensures rest { OnOk result (SameRest self.old self.new) }
    {
        let now = moment.min(LAST_MOMENT);
        if self.moment < now {
            self.pass(now)
        } else {
            Ok(())
        }
    }

    /// The clients are told the date, where the moment has passed a border since.
    fn send_date(&mut self, alloc: Global, before: u64) -> Result<(), Memory>
        ensures walks { (t : Trace) → Walks self.old t → OnOk result (Walks self.new (dated before t)) }
        ensures rest { OnOk result (SameRest self.old self.new) }
    {
        if before / COMMENT_SECONDS < self.moment / COMMENT_SECONDS {
            let line = Arc::new(alloc, comment_of(server_of(&self.conf), self.moment))?;
            self.links.tell_all(line)?;
        }
        Ok(())
    }

    /// The time has come to look whether an uplink is to be dialled.
    fn look(&mut self)
        ensures walks { (t : Trace) → Walks self.old t → Walks self.new (Looked ∷ t) }
        ensures rest { SameRest self.old self.new }
    {
        self.reach.look(self.moment);
    }

    /// The moment goes on, the links that are late end, the clients are told the date, and an uplink may be dialled.
    pub(super) fn tick(
        &mut self,
        alloc: Global,
        moment: u64,
        lines: &mut Vec<JournalLine>,
    ) -> Result<(), Memory>
        ensures walks { (t : Trace) → Walks self.old t → OnOk result (Walks self.new (with_tick (setting_of self.old.conf) moment t)) }
        ensures tells { (t : Trace) → Walks self.old t → OnOk result (Tells (setting_of self.old.conf) t (with_tick (setting_of self.old.conf) moment t) lines.old.items lines.new.items) }
        ensures rest { OnOk result (SameRest self.old self.new) }
    {
        let before = self.moment;
        self.go_on(moment)?;
        self.end_late(alloc, lines)?;
        self.send_date(alloc, before)?;
        self.look();
        Ok(())
    }
}
