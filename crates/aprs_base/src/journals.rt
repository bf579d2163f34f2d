//! Journals, to which the server tells what its operators are to know.
ghost use Rattle.std.specs.Prelude.{◌≡◌};
ghost use Rattle.std.specs.Option.{option_map};
ghost use Rattle.aprs_base.specs.Journals.{AfterLine, JournalLineSeen, JournalShown};

use crate::texts::Failed;
use arrayvec::ArrayVec;
use std::marker::Model;

/// What a line of a journal is about.
#[derive(Clone, Copy, PartialEq, Eq)]
pub enum Kind {
    /// A line, login, filter or datagram was refused.
    Refusal,
    /// A packet was dropped by the q construct rule, so that it goes round no loop.
    Loop,
    /// A link opened, logged in or ended.
    Session,
}

/// A line for the journals.
#[derive(Drop)]
pub struct JournalLine {
    pub kind: Kind,
    /// In seconds since 1970.
    pub moment: u64,
    /// What follows the moment and its blank, without LF.
    pub text: ArrayVec<u8, 48>,
}

impl Model for JournalLine {
    ghost use Rattle.aprs_base.specs.Journals.{JournalLineSeen};

    ghost Value = { JournalLineSeen };

    ghost view = { λ l. record { kind = l.kind; moment = l.moment; text = l.text.items } };

    ghost inverse = { λ l. record { kind = l.kind; moment = l.moment; text = record { items = l.text } } };
}

/// A journal, which wants lines of some kinds; these never change. Its count of faults is one more after a line that failed and
/// the same after any other, and stays at the greatest u64.
pub trait Journal: Drop {
    ghost journal_shown: { Self → JournalShown };

    /// Whether lines of this kind are to be told to it.
    fn wants(&self, kind: Kind) -> bool
        ensures { result ≡ (journal_shown self.now).wants kind };

    /// Appends the moment in digits, a blank, the text and LF. `Failed` counts. Where the journal tells how many lines are left,
    /// it comes exactly where none is; then nothing was appended.
    fn line(&mut self, kind: Kind, moment: u64, text: &[u8]) -> Result<(), Failed>
        ensures { AfterLine (journal_shown self.old) (journal_shown self.new) (record { kind = kind; moment = moment; text = text.now }) result };

    /// Its text, where it tells that.
    fn kept(&self) -> Option<&[u8]>
        ensures { option_map (λ b. b.now) result ≡ (journal_shown self.now).told };
}

/// A place for a journal, and how many lines it took, which stays at the greatest u64.
#[derive(Drop)]
pub enum Slot {
    Live {
        journal: Box<dyn Journal>,
        lines: u64,
    },
    /// The journal has failed, and is let go.
    Dead {
        lines: u64,
    },
}
