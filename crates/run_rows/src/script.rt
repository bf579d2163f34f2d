//! Scripts: what comes, and what the outside does.

use crate::asking::words_of;
use crate::events::{add_events, number, push, repeat};
use aprs_base::{Event, Take};
use row_texts::{RowError, is_row, read_bytes, split_word};
use std::alloc::Global;
use std::fs::{self, Files};

/// A journal for these kinds.
#[derive(Clone, Copy)]
pub enum JournalRow {
    /// In memory, with room for so many bytes, and perhaps failing the line before which so many were told.
    Keeping {
        kinds: u8,
        room: usize,
        fail_at: Option<u64>,
    },
    /// Taking so many lines.
    Counting {
        kinds: u8,
        left: u64,
    },
}

/// A text of a link, each beginning of which is to be tried.
#[derive(Drop)]
pub struct Prefixes {
    pub link: u32,
    pub text: Vec<u8>,
}

/// The text that a run is to write, and the file that holds it.
#[derive(Drop)]
pub struct Report {
    pub name: String,
    pub text: Vec<u8>,
}

/// The calls that fail, by how many were made before.
#[derive(Drop)]
pub struct Fails {
    pub listen: Option<u64>,
    pub next: Option<u64>,
    pub read: Vec<u64>,
    pub sink: Vec<u64>,
}

#[derive(Drop)]
pub struct Script {
    pub words: Vec<String>,
    /// The name of the file, and the configuration or the network's script that it holds.
    pub name: String,
    pub conf: Vec<u8>,
    pub events: Vec<Event>,
    pub takes: Vec<Take>,
    pub fails: Fails,
    /// How many bytes the sink takes in a call.
    pub most: usize,
    pub journals: Vec<JournalRow>,
    /// Whether only the lengths of what links took are told.
    pub short: bool,
    /// Whether the run is tried again with each call of `next` failing.
    pub each_next: bool,
    pub prefixes: Option<Prefixes>,
    pub report: Option<Report>,
}

impl Script {
    pub fn new(alloc: Global) -> Result<Script, RowError> {
        Ok(Script {
            words: words_of(alloc, "-c c")?,
            name: String::from_str(alloc, "c")?,
            conf: Vec::new(alloc),
            events: Vec::new(alloc),
            takes: Vec::new(alloc),
            fails: Fails {
                listen: None,
                next: None,
                read: Vec::new(alloc),
                sink: Vec::new(alloc),
            },
            most: 1000,
            journals: Vec::new(alloc),
            short: false,
            each_next: false,
            prefixes: None,
            report: None,
        })
    }
}

fn take_of(row: &str) -> Result<Take, RowError> {
    match split_word(row) {
        ("all", _) => Ok(Take::All),
        ("gone", _) => Ok(Take::Gone),
        ("most", count) => Ok(Take::Most(count.parse()?)),
        _ => Err(RowError::Word),
    }
}

fn add_failure(fails: &mut Fails, row: &str) -> Result<(), RowError> {
    let (call, count) = split_word(row);
    let count = count.parse()?;
    match call {
        "listen" => fails.listen = Some(count),
        "next" => fails.next = Some(count),
        "read" => push(&mut fails.read, count)?,
        "sink" => push(&mut fails.sink, count)?,
        _ => return Err(RowError::Word),
    }
    Ok(())
}

fn journal_of(word: &str, row: &str) -> Result<JournalRow, RowError> {
    let (kinds, rest) = number(row)?;
    match word {
        "journal" => Ok(JournalRow::Keeping {
            kinds,
            room: rest.parse()?,
            fail_at: None,
        }),
        "failing" => Ok(JournalRow::Keeping {
            kinds,
            room: 65_536,
            fail_at: Some(rest.parse()?),
        }),
        _ => Ok(JournalRow::Counting {
            kinds,
            left: rest.parse()?,
        }),
    }
}

fn prefixes_of(alloc: Global, row: &str) -> Result<Prefixes, RowError> {
    let (link, text) = number(row)?;
    let text = read_bytes(alloc, text)?;
    Ok(Prefixes { link, text })
}

fn report_of<R: AllocGlobal + Files>(rt: &R, name: &str) -> Result<Report, RowError> {
    Ok(Report {
        name: String::from_str(rt.alloc(), name)?,
        text: fs::read(rt, name).map_err(|_| RowError::Word)?,
    })
}

/// Adds a line to the configuration.
fn add_conf(alloc: Global, conf: &mut Vec<u8>, line: &str) -> Result<(), RowError> {
    conf.extend_from_slice(read_bytes(alloc, line)?.as_slice())?;
    push(conf, b'\n')
}

/// Adds what a row says.
fn add<R: AllocGlobal + Files>(rt: &R, script: &mut Script, row: &str) -> Result<(), RowError> {
    let alloc = rt.alloc();
    let (word, rest) = split_word(row);
    match word {
        "file" => script.conf = fs::read(rt, rest).map_err(|_| RowError::Word)?,
        "conf" => add_conf(alloc, &mut script.conf, rest)?,
        "report" => script.report = Some(report_of(rt, rest)?),
        "name" => script.name = String::from_str(alloc, rest)?,
        "words" => script.words = words_of(alloc, rest)?,
        "takes" => push(&mut script.takes, take_of(rest)?)?,
        "fails" => add_failure(&mut script.fails, rest)?,
        "most" => script.most = rest.parse()?,
        "journal" | "failing" | "counting" => {
            push(&mut script.journals, journal_of(word, rest)?)?;
        }
        "short" => script.short = true,
        "each" => script.each_next = true,
        "prefixes" => script.prefixes = Some(prefixes_of(alloc, rest)?),
        "repeat" => repeat(alloc, &mut script.events, rest)?,
        _ => add_events(alloc, &mut script.events, row)?,
    }
    Ok(())
}

/// Adds what a line says, where it is a row.
pub fn add_line<R: AllocGlobal + Files>(
    rt: &R,
    script: &mut Script,
    line: &str,
) -> Result<(), RowError> {
    if is_row(line) {
        add(rt, script, line)
    } else {
        Ok(())
    }
}
