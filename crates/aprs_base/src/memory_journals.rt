//! Journals in memory, for tests and rows.
ghost use Rattle.std.specs.Prelude.{◌≡◌, ◌↔◌, ◌⊎◌, ◌++◌, ◌<◌, ℕ, Some, None, [], IfOk, IsErr, length};
ghost use Rattle.std.specs.Option.{option_map};
ghost use Rattle.aprs_base.specs.Journals.{AfterLine, journal_text};
ghost use Rattle.aprs_base.specs.MemJournals.{JournalCount, JournalText, after_count, after_line, count_shown, is_among, text_shown};

use crate::journals::{Journal, Kind};
use crate::texts::{Failed, Memory};
use itoa::Buffer;
use std::alloc::Global;
use std::marker::Model;

/// A journal in memory, which tells its text.
#[derive(Drop)]
pub struct MemJournal {
    text: Vec<u8>,
    kinds: u8,
    fail_at: Option<u64>,
    room: usize,
    calls: u64,
    faults: u64,
}

impl Model for MemJournal {
    ghost use Rattle.std.specs.Prelude.{◌≤◌, length};
    ghost use Rattle.std.specs.Vec.{vec_capacity};
    ghost use Rattle.aprs_base.specs.MemJournals.{JournalText};

    ghost Value = { JournalText };

    ghost view = { λ j. record { text = j.text.items; kinds = j.kinds; fail_at = j.fail_at; room = j.room; calls = j.calls; faults = j.faults } };

    ghost invariant = { λ j. (length j.text.items ≤ j.room) × (j.room ≤ vec_capacity j.text) };
}

/// Whether a number of kinds, a sum of 1 for `Refusal`, 2 for `Loop` and 4 for `Session`, has this kind.
fn is_one_of(kinds: u8, kind: Kind) -> bool
    ensures { result ≡ is_among kinds kind }
{
    match kind {
        Kind::Refusal => kinds & 1 == 1,
        Kind::Loop => (kinds >> 1) & 1 == 1,
        Kind::Session => (kinds >> 2) & 1 == 1,
    }
}

impl MemJournal {
    /// An empty journal for the kinds that `kinds` is the sum of: 1 for `Refusal`, 2 for `Loop`, 4 for `Session`.
    /// It fails the line before which `fail_at` calls were made, and each with which its text would have more than `room` bytes.
    /// It takes its memory at once.
    pub fn new(
        alloc: Global,
        kinds: u8,
        fail_at: Option<u64>,
        room: usize,
    ) -> Result<MemJournal, Memory>
        ensures { IfOk result (λ j. j ≡ record { text = []; kinds = kinds; fail_at = fail_at; room = room; calls = 0; faults = 0 }) }
    {
        let text = Vec::with_capacity(alloc, room)?;
        Ok(MemJournal {
            text,
            kinds,
            fail_at,
            room,
            calls: 0,
            faults: 0,
        })
    }
}

impl Journal for MemJournal {
    ghost journal_shown = { text_shown };

    fn wants(&self, kind: Kind) -> bool
        ensures { result ≡ is_among self.now.kinds kind }
    {
        is_one_of(self.kinds, kind)
    }

    fn line(&mut self, kind: Kind, moment: u64, text: &[u8]) -> Result<(), Failed>
        ensures line { AfterLine (text_shown self.old) (text_shown self.new) (record { kind = kind; moment = moment; text = text.now }) result }
        ensures failed { IsErr result ↔ ((self.old.fail_at ≡ Some self.old.calls) ⊎ (self.old.room < length (self.old.text ++ journal_text (record { kind = kind; moment = moment; text = text.now })))) }
        ensures exact { self.new ≡ after_line self.old (record { kind = kind; moment = moment; text = text.now }) result }
    {
        let calls = self.calls;
        self.calls = calls.saturating_add(1);
        let mut buffer = Buffer::new();
        let digits = buffer.format(moment).as_bytes();
        let length = digits.len() + text.len() + 2;
        if self.fail_at == Some(calls) || self.room - self.text.len() < length {
            self.faults = self.faults.saturating_add(1);
            return Err(Failed);
        }
        self.text.extend_from_slice(digits).unwrap();
        self.text.push(b' ').unwrap();
        self.text.extend_from_slice(text).unwrap();
        self.text.push(b'\n').unwrap();
        Ok(())
    }

    fn kept(&self) -> Option<&[u8]>
        ensures { option_map (λ b. b.now) result ≡ Some self.now.text }
    {
        Some(self.text.as_slice())
    }
}

/// A journal that only counts: it takes some lines more, and tells how many.
#[derive(Drop)]
pub struct CountJournal {
    kinds: u8,
    left: u64,
    faults: u64,
}

impl Model for CountJournal {
    ghost use Rattle.aprs_base.specs.MemJournals.{JournalCount};

    ghost Value = { JournalCount };

    ghost view = { λ j. record { kinds = j.kinds; left = j.left; faults = j.faults } };
}

impl CountJournal {
    /// A journal that takes `left` lines, for the kinds that `kinds` is the sum of: 1 for `Refusal`, 2 for `Loop`, 4 for `Session`.
    pub fn new(kinds: u8, left: u64) -> CountJournal
        ensures { result ≡ record { kinds = kinds; left = left; faults = 0 } }
    {
        CountJournal {
            kinds,
            left,
            faults: 0,
        }
    }
}

impl Journal for CountJournal {
    ghost journal_shown = { count_shown };

    fn wants(&self, kind: Kind) -> bool
        ensures { result ≡ is_among self.now.kinds kind }
    {
        is_one_of(self.kinds, kind)
    }

    fn line(&mut self, kind: Kind, moment: u64, text: &[u8]) -> Result<(), Failed>
        ensures line { AfterLine (count_shown self.old) (count_shown self.new) (record { kind = kind; moment = moment; text = text.now }) result }
        ensures failed { IsErr result ↔ (self.old.left ≡ 0) }
        ensures exact { self.new ≡ after_count self.old result }
    {
        if self.left == 0 {
            self.faults = self.faults.saturating_add(1);
            return Err(Failed);
        }
        self.left -= 1;
        Ok(())
    }

    fn kept(&self) -> Option<&[u8]>
        ensures { option_map (λ b. b.now) result ≡ None }
    {
        None
    }
}
