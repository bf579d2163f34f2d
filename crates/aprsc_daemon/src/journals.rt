//! The journals of the system, and how lines are told to the journals in slots.
ghost use Rattle.std.specs.Prelude.{◌≡◌, ◌≤◌, ◌++◌, ◌∷◌, [], None, OnOk};
ghost use Rattle.std.specs.Fmt.{decimal};
ghost use Rattle.std.specs.Io.KnownBytes.{Appends};
ghost use Rattle.std.specs.List.{AllZip};
ghost use Rattle.std.specs.Str.{byte};
ghost use Rattle.aprs_base.specs.Slots.{TakesLine, TakesLines};
ghost use Rattle.aprsc_daemon.specs.Telling.{is_for_standard_error, is_for_the_file};

use aprs_base::{Failed, Journal, JournalLine, Kind, Slot};
use arrayvec::ArrayVec;
use itoa::Buffer;
use std::fs::{self, OpenOptions};
use std::io::{self, Eprint, Write};

/// The slot takes the line where its journal wants it, and is dead where that fails.
fn tell(slot: &mut Slot, line: &JournalLine)
    ensures { TakesLine journal_shown slot.old line.now slot.new }
{
    let Slot::Live { journal, lines } = slot else {
        return;
    };
    if !journal.wants(line.kind) {
        return;
    }
    let count = *lines;
    match journal.line(line.kind, line.moment, line.text.as_slice()) {
        Ok(()) => *lines = count.saturating_add(1),
        Err(Failed) => *slot = Slot::Dead { lines: count },
    }
}

/// The slot takes the lines in order, as far as its journal doesn't fail.
fn tell_lines(slot: &mut Slot, lines: &[JournalLine])
    ensures { TakesLines journal_shown lines.now slot.old slot.new }
{
    for line in lines {
        tell(slot, line);
    }
}

/// Each slot takes the lines in order, as far as its journal doesn't fail.
pub fn tell_all(journals: &mut Vec<Slot>, lines: &[JournalLine])
    ensures { AllZip (TakesLines journal_shown lines.now) journals.old.items journals.new.items }
{
    for slot in journals.iter_mut() {
        tell_lines(slot, lines);
    }
}

/// Writes the moment, a blank, the text and LF, by one call where the text has a usual length.
fn write_line<W: Write>(out: &mut W, moment: u64, text: &[u8]) -> io::Result<()>
    ensures { OnOk result (Appends (W.contents out.old) (W.contents out.new) (decimal moment ++ (byte " " ∷ (text.now ++ byte "\n" ∷ [])))) }
{
    let mut buffer = Buffer::new();
    let mut line = ArrayVec::<u8, 128>::new();
    line.try_extend_from_slice(buffer.format(moment).as_bytes())
        .unwrap();
    line.push(b' ');
    if text.len() > 100 {
        out.write_all(line.as_slice())?;
        out.write_all(text)?;
        return out.write_all(b"\n");
    }
    line.try_extend_from_slice(text).unwrap();
    line.push(b'\n');
    out.write_all(line.as_slice())
}

/// The standard error of the system as a journal for loops and sessions, and how often it failed.
#[derive(Drop)]
pub struct ErrorJournal<R: Eprint + Drop> {
    rt: R,
    faults: u64,
}

impl<R: Eprint + Drop> ErrorJournal<R> {
    pub fn new(rt: R) -> ErrorJournal<R>
        ensures { result ≡ record { rt = rt; faults = 0 } }
    {
        ErrorJournal { rt, faults: 0 }
    }
}

impl<R: Eprint + Drop> Journal for ErrorJournal<R> {
    ghost journal_shown = { λ j. record { wants = is_for_standard_error; told = None; left = None; faults = j.faults } };

    fn wants(&self, kind: Kind) -> bool {
        match kind {
            Kind::Refusal => false,
            Kind::Loop | Kind::Session => true,
        }
    }

    fn line(&mut self, _kind: Kind, moment: u64, text: &[u8]) -> Result<(), Failed> {
        if eprintln!(self.rt; "{moment} {}", text.escape_ascii()).is_err() {
            self.faults = self.faults.saturating_add(1);
            return Err(Failed);
        }
        Ok(())
    }

    fn kept(&self) -> Option<&[u8]> {
        None
    }
}

/// The file `aprsc.log` in the working folder as a journal for all kinds, and how often it failed. It is opened at the
/// first line, and each line is appended to what it holds.
#[derive(Drop)]
pub struct FileJournal<R: fs::Files + Drop> {
    rt: R,
    file: Option<R::File>,
    faults: u64,
}

impl<R: fs::Files + Drop> FileJournal<R> {
    pub fn new(rt: R) -> FileJournal<R>
        ensures { result ≡ record { rt = rt; file = None; faults = 0 } }
    {
        FileJournal {
            rt,
            file: None,
            faults: 0,
        }
    }

    /// Appends the line to the file, which is opened where it isn't yet.
    fn append(&mut self, moment: u64, text: &[u8]) -> io::Result<()>
        ensures { self.new.faults ≡ self.old.faults }
    {
        if let Some(file) = &mut self.file {
            return write_line(file, moment, text);
        }
        let mut file = OpenOptions::new()
            .append(true)
            .create(true)
            .open(&self.rt, "aprsc.log")?;
        let written = write_line(&mut file, moment, text);
        self.file = Some(file);
        written
    }
}

impl<R: fs::Files + Drop> Journal for FileJournal<R> {
    ghost journal_shown = { λ j. record { wants = is_for_the_file; told = None; left = None; faults = j.faults } };

    fn wants(&self, _kind: Kind) -> bool {
        true
    }

    fn line(&mut self, _kind: Kind, moment: u64, text: &[u8]) -> Result<(), Failed> {
        if self.append(moment, text).is_err() {
            self.faults = self.faults.saturating_add(1);
            return Err(Failed);
        }
        Ok(())
    }

    fn kept(&self) -> Option<&[u8]> {
        None
    }
}
