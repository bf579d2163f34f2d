//! Journals in memory, which are told the lines of a server's journal.
ghost use Rattle.std.specs.Prelude.{◌≡◌};

use crate::fields::{Answer, Fault, Fields, escaped, said};
use aprs_base::{CountJournal, Journal, Kind, MemJournal, Slot};
use std::alloc::Global;

/// A journal that keeps its text, or one that counts.
#[derive(Drop)]
pub enum Told {
    Text(MemJournal),
    Count(CountJournal),
}

/// What a journal is told: a kind, a moment and a text.
#[derive(Drop)]
struct Entry {
    kind: Kind,
    moment: u64,
    text: Vec<u8>,
}

const KINDS: [(&str, Kind); 3] = [
    ("refusal", Kind::Refusal),
    ("loop", Kind::Loop),
    ("session", Kind::Session),
];

fn read_entry(fields: &mut Fields) -> Result<Entry, Fault> {
    let kind = fields.named(KINDS.as_slice())?;
    let moment = fields.number();
    let text = fields.rest_bytes()?;
    Ok(Entry { kind, moment, text })
}

/// The kinds that are wanted.
fn kinds(alloc: Global, refusals: bool, loops: bool, sessions: bool) -> Answer {
    let refusals = if refusals { "refusal" } else { "-" };
    let loops = if loops { "loop" } else { "-" };
    let sessions = if sessions { "session" } else { "-" };
    Ok(format!(in alloc; "{refusals} {loops} {sessions}")?)
}

fn outcome(taken: bool) -> &'static str {
    if taken { "taken" } else { "failed" }
}

fn kept(alloc: Global, text: Option<&[u8]>) -> Answer {
    match text {
        Some(text) => escaped(alloc, text),
        None => said(alloc, "none"),
    }
}

/// The journal of a slot is told the same twice: the kinds that it wants, what it answers, and what it keeps.
fn tell_slot(alloc: Global, slot: &mut Slot, entry: &Entry) -> Answer {
    let Slot::Live { journal, .. } = slot else {
        return Err(Fault::Unknown);
    };
    let refusals = journal.wants(Kind::Refusal);
    let loops = journal.wants(Kind::Loop);
    let sessions = journal.wants(Kind::Session);
    let first = journal.line(entry.kind, entry.moment, entry.text.as_slice());
    let second = journal.line(entry.kind, entry.moment, entry.text.as_slice());
    let wanted = kinds(alloc, refusals, loops, sessions)?;
    let kept = kept(alloc, journal.kept())?;
    let first = outcome(first.is_ok());
    let second = outcome(second.is_ok());
    Ok(format!(in alloc; "{wanted}, {first}, {second}, {kept}")?)
}

/// What a journal wants, what it answers to a line, or what it keeps.
fn step<J: Journal>(journal: &mut J, word: &str, fields: &mut Fields) -> Answer {
    match word {
        "new" => {
            let refusals = journal.wants(Kind::Refusal);
            let loops = journal.wants(Kind::Loop);
            kinds(fields.alloc, refusals, loops, journal.wants(Kind::Session))
        }
        "line" => {
            let entry = read_entry(fields)?;
            let answer = journal.line(entry.kind, entry.moment, entry.text.as_slice());
            said(fields.alloc, outcome(answer.is_ok()))
        }
        _ => Err(Fault::Unknown),
    }
}

impl Told {
    pub fn new(fields: &mut Fields) -> Result<Told, Fault> {
        match fields.word() {
            "text" => Ok(Told::Text(MemJournal::new(
                fields.alloc,
                fields.number(),
                fields.perhaps(),
                fields.number(),
            )?)),
            "count" => Ok(Told::Count(CountJournal::new(fields.number(), fields.number()))),
            _ => Err(Fault::Unknown),
        }
    }

    fn kept(&self, alloc: Global) -> Answer {
        match self {
            Told::Text(journal) => kept(alloc, journal.kept()),
            Told::Count(journal) => kept(alloc, journal.kept()),
        }
    }

    /// It lies in a slot.
    fn tell_in_slot(self, fields: &mut Fields) -> Answer {
        let alloc = fields.alloc;
        let entry = &read_entry(fields)?;
        let lines = 0;
        match self {
            Told::Text(journal) => {
                let journal = Box::new(alloc, journal)?;
                tell_slot(alloc, &mut Slot::Live { journal, lines }, entry)
            }
            Told::Count(journal) => {
                let journal = Box::new(alloc, journal)?;
                tell_slot(alloc, &mut Slot::Live { journal, lines }, entry)
            }
        }
    }

    pub fn answer(&mut self, fields: &mut Fields) -> Answer {
        let word = fields.word();
        match word {
            "slot" => return Told::new(fields)?.tell_in_slot(fields),
            "kept" => return self.kept(fields.alloc),
            "new" => *self = Told::new(fields)?,
            _ => {}
        }
        match self {
            Told::Text(journal) => step(journal, word, fields),
            Told::Count(journal) => step(journal, word, fields),
        }
    }
}
