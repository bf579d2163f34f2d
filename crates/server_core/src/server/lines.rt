//! The bytes that links bring, and their lines.
ghost use Rattle.std.specs.Prelude.{◌≡◌, ◌∷◌, ◌++◌, [], IsTrue, IfOk, OnOk, false};
ghost use Rattle.aprs_history.specs.Trace.{Trace, Brought, is_live};
ghost use Rattle.aprs_history.specs.Links.{brought_by};
ghost use Rattle.aprs_base.specs.Cuts.{cuts_by};
ghost use Rattle.aprs_base.specs.declared.cutting.Cut.TheVariants as Cut;
ghost use Rattle.aprs_base.specs.declared.packets.Source.TheVariants as Source;
ghost use Rattle.aprs_history.specs.Counts.{is_accepted};
ghost use Rattle.aprs_history.specs.Verdicts.{login_verdict, verdict_of};
ghost use Rattle.aprs_history.specs.History.{with_bytes_of};
ghost use Rattle.line_verdict.specs.Fit.{IsFit};
ghost use Rattle.line_verdict.specs.Voices.{comment_verdict};
ghost use Rattle.login_pass.specs.Login.{login_of};
ghost use Rattle.server_core.specs.Meaning.{setting_of};
ghost use Rattle.server_core.specs.Steps.{SameRest, Walks, scene_at, with_port, with_verdict};
ghost use Rattle.server_core.specs.Telling.{Tells, said_lines};

use super::State;
use super::verdicts::Objection;
use aprs_base::{Cut, JournalLine, Line, Memory, Source};
use aprs_history::Verdict;
use line_verdict::{Voice, is_comment_line, judge_comment};
use login_pass::downlink;
use std::alloc::Global;

impl State {
    /// A link's line that is no packet has this verdict, which is told and done. A login asks for its lines at that port.
    fn take_verdict(
        &mut self,
        alloc: Global,
        number: u32,
        verdict: Verdict,
        port: Option<u16>,
        lines: &mut Vec<JournalLine>,
    ) -> Result<(), Memory>
        requires fit { IsFit verdict }
        requires other { is_accepted verdict ≡ false }
        ensures core { OnOk result (self.new ≡ with_port (Source.Link number) port verdict self.old) }
        ensures lines { OnOk result (lines.new.items ≡ lines.old.items ++ said_lines self.old (Source.Link number) verdict) }
    {
        let from = Source::Link(number);
        self.tell_said(&from, &verdict, lines)?;
        match verdict {
            Verdict::PassedOver => Ok(()),
            Verdict::Refused(refusal) => self.refuse(alloc, &from, refusal),
            Verdict::LoggedIn(session, answer) => {
                self.log_in(alloc, number, session, port, answer)
            },
            Verdict::Filtered(answer) => self.answer(alloc, number, answer),
            Verdict::Accepted(..) => unreachable!(),
        }
    }

    /// What the link of that number said, which is to be a login. It is rare, and a verdict is large: by itself it leaves no room
    /// for one to be cleared at each packet.
    #[inline(never)]
    fn take_login(
        &mut self,
        alloc: Global,
        number: u32,
        filters: bool,
        line: &Line,
        lines: &mut Vec<JournalLine>,
    ) -> Result<(), Memory>
        ensures core { OnOk result (self.new ≡ with_verdict (Source.Link number) (Cut.Line line.now) (login_verdict self.old.conf.server filters line.now (login_of line.now)) self.old) }
        ensures lines { OnOk result (lines.new.items ≡ lines.old.items ++ said_lines self.old (Source.Link number) (login_verdict self.old.conf.server filters line.now (login_of line.now))) }
    {
        let verdict = self.judge_login(alloc, filters, line)?;
        self.take_verdict(alloc, number, verdict, downlink(line), lines)
    }

    /// What the link of that number said, which is a comment or a command.
    #[inline(never)]
    fn take_comment(
        &mut self,
        alloc: Global,
        number: u32,
        voice: &Voice,
        line: &Line,
        lines: &mut Vec<JournalLine>,
    ) -> Result<(), Memory>
        ensures core { OnOk result (self.new ≡ with_verdict (Source.Link number) (Cut.Line line.now) (comment_verdict voice.now line.now) self.old) }
        ensures lines { OnOk result (lines.new.items ≡ lines.old.items ++ said_lines self.old (Source.Link number) (comment_verdict voice.now line.now)) }
    {
        let verdict = judge_comment(alloc, voice, line)?;
        self.take_verdict(alloc, number, verdict, None, lines)
    }

    /// A line of the link of that number: it is judged by who speaks there, and what comes of it is told and done.
    fn take_line(
        &mut self,
        alloc: Global,
        number: u32,
        cut: &Cut,
        lines: &mut Vec<JournalLine>,
    ) -> Result<(), Memory>
        ensures core { OnOk result (self.new ≡ with_verdict (Source.Link number) cut.now (verdict_of (scene_at self.old number) cut.now) self.old) }
        ensures lines { OnOk result (lines.new.items ≡ lines.old.items ++ said_lines self.old (Source.Link number) (verdict_of (scene_at self.old number) cut.now)) }
    {
        let from = Source::Link(number);
        let line = match cut {
            Cut::Long => return self.object(alloc, &from, Objection::Long, lines),
            Cut::Line(line) => line,
        };
        let voice = self.voice(number);
        if is_comment_line(line) {
            return self.take_comment(alloc, number, &voice, line, lines);
        }
        match &voice {
            Voice::Nameless { filters } => self.take_login(alloc, number, *filters, line, lines),
            Voice::Reader => self.object(alloc, &from, Objection::ReadOnly, lines),
            Voice::Client { origin, .. } | Voice::Carrier(origin) => {
                self.take_packet(alloc, from, origin, line, lines)
            }
        }
    }

    /// Bytes came on a link: the lines that they end.
    fn cut_bytes(&mut self, alloc: Global, number: u32, bytes: &[u8]) -> Result<Vec<Cut>, Memory>
        ensures live { (t : Trace) → Walks self.old t → IsTrue (is_live t number) → OnOk result (Walks self.new (Brought number bytes.now ∷ t)) }
        ensures cuts { (t : Trace) → Walks self.old t → IsTrue (is_live t number) → IfOk result (λ cuts. cuts.items ≡ cuts_by (brought_by t number) bytes.now) }
        ensures dead { (t : Trace) → Walks self.old t → is_live t number ≡ false → IfOk result (λ cuts. (cuts.items ≡ []) × Walks self.new t) }
        ensures rest { OnOk result (SameRest self.old self.new) }
    {
        self.reach.hear_at(&self.links, number, self.moment);
        self.links.bring(alloc, number, self.moment, bytes)
    }

    /// Bytes came on a link: they are cut, and each line is taken.
    pub(super) fn take_bytes(
        &mut self,
        alloc: Global,
        number: u32,
        bytes: &[u8],
        lines: &mut Vec<JournalLine>,
    ) -> Result<(), Memory>
        ensures walks { (t : Trace) → Walks self.old t → OnOk result (Walks self.new (with_bytes_of (setting_of self.old.conf) number bytes.now t)) }
        ensures tells { (t : Trace) → Walks self.old t → OnOk result (Tells (setting_of self.old.conf) t (with_bytes_of (setting_of self.old.conf) number bytes.now t) lines.old.items lines.new.items) }
        ensures rest { OnOk result (SameRest self.old self.new) }
    {
        let cuts = self.cut_bytes(alloc, number, bytes)?;
        for cut in &cuts {
            self.take_line(alloc, number, cut, lines)?;
        }
        Ok(())
    }
}
