//! Runs of scripts.

use crate::events::push;
use crate::faults::{tell_each_next, tell_prefixes};
use crate::script::{JournalRow, Script, add_line};
use crate::telling::{Row, tell};
use aprs_base::{
    Addr, CountJournal, Happening, ListenSpec, MemFile, MemFiles, MemJournal, MemSink, MemWire,
    OpenGate, Slot, Text, UplinkSpec, copy_event,
};
use aprsc_daemon::aprsc;
use row_texts::RowError;
use std::alloc::Global;
use std::fs::Files;
use std::hash::RandomState;
use std::io;
use std::marker::Sync;
use std::sync::Wait;
use std::thread::Threads;

/// What a journal took.
#[derive(Drop)]
pub struct Kept {
    pub lines: u64,
    pub is_dead: bool,
    pub text: Vec<u8>,
}

/// What a run left.
#[derive(Drop)]
pub struct Left {
    pub status: u8,
    pub text: Vec<u8>,
    pub done: Vec<Happening>,
    pub listened: Vec<ListenSpec>,
    pub dialled: Vec<UplinkSpec>,
    pub cast_to: Vec<Addr>,
    pub journals: Vec<Kept>,
}

fn kept_of(alloc: Global, slot: &Slot) -> Result<Kept, RowError> {
    let (lines, text) = match slot {
        Slot::Dead { lines } => (*lines, None),
        Slot::Live { journal, lines } => (*lines, Some(journal.kept().unwrap_or(b""))),
    };
    Ok(Kept {
        lines,
        is_dead: text.is_none(),
        text: text.unwrap_or(b"").to_vec(alloc)?,
    })
}

fn files_of(alloc: Global, script: &Script) -> Result<MemFiles, RowError> {
    let file = MemFile {
        name: Text::new(script.name.as_bytes().to_vec(alloc)?),
        bytes: Text::new(script.conf.clone()?),
    };
    let mut files = Vec::new(alloc);
    push(&mut files, file)?;
    Ok(MemFiles::new(files, script.fails.read.clone()?))
}

fn wire_of(alloc: Global, script: &Script, fail_next: Option<u64>) -> Result<MemWire, RowError> {
    let mut events = Vec::with_capacity(alloc, script.events.len())?;
    for event in &script.events {
        push(&mut events, copy_event(event))?;
    }
    MemWire::new(
        alloc,
        events,
        script.takes.clone()?,
        script.fails.listen,
        fail_next,
    )
    .map_err(|_| RowError::Word)
}

/// Serves a script, whose calls of `next` fail so.
pub fn run<R: AllocGlobal + Threads + Sync + Wait>(
    rt: &R,
    hasher: &RandomState,
    script: &Script,
    fail_next: Option<u64>,
    mut journals: Vec<Slot>,
) -> Result<Left, RowError> {
    let alloc = rt.alloc();
    let mut files = files_of(alloc, script)?;
    let mut wire = wire_of(alloc, script, fail_next)?;
    let mut sink = MemSink::new(alloc, script.fails.sink.clone()?, script.most);
    let status = aprsc(
        rt,
        alloc,
        script.words.as_slice(),
        &mut files,
        &mut wire,
        &mut sink,
        hasher,
        &mut journals,
        &OpenGate,
    );
    let mut kept = Vec::new(alloc);
    for slot in &journals {
        push(&mut kept, kept_of(alloc, slot)?)?;
    }
    Ok(Left {
        status,
        text: sink.text,
        done: wire.done,
        listened: wire.listened,
        dialled: wire.dialled,
        cast_to: wire.cast_to,
        journals: kept,
    })
}

/// Want of memory, for which this stands in place of another error.
pub fn no_memory<E: Drop>(_: E) -> io::Error {
    io::Error::from(io::ErrorKind::OutOfMemory)
}

/// Runs a script, and tells its rows with what happened. The journals are made here, since a function can't hand out what it
/// has boxed.
fn serve<R: AllocGlobal + Print + Threads + Sync + Wait>(
    rt: &R,
    hasher: &RandomState,
    script: &mut Script,
    rows: &[Row],
    skipped: usize,
) -> io::Result<()> {
    let alloc = rt.alloc();
    let mut journals = Vec::new(alloc);
    for row in &script.journals {
        let slot = match *row {
            JournalRow::Keeping {
                kinds,
                room,
                fail_at,
            } => {
                let journal = MemJournal::new(alloc, kinds, fail_at, room).map_err(no_memory)?;
                Slot::Live {
                    journal: Box::new(alloc, journal)?,
                    lines: 0,
                }
            }
            JournalRow::Counting { kinds, left } => Slot::Live {
                journal: Box::new(alloc, CountJournal::new(kinds, left))?,
                lines: 0,
            },
        };
        journals.push(slot)?;
    }
    match run(rt, hasher, script, script.fails.next, journals) {
        Ok(left) => {
            tell(rt, script, rows, skipped, &left)?;
            if script.each_next {
                tell_each_next(rt, hasher, script, &left)?;
            }
            match script.prefixes.take() {
                Some(prefixes) => tell_prefixes(rt, hasher, script, &prefixes),
                None => Ok(()),
            }
        }
        Err(RowError::Memory(error)) => Err(io::Error::from(error)),
        Err(_) => println!(rt; "    error: links out of order"),
    }
}

/// Runs the rows of a paragraph after those of its base.
pub fn play<R: AllocGlobal + Files + Print + Threads + Sync + Wait>(
    rt: &R,
    hasher: &RandomState,
    base: &str,
    rows: &str,
) -> io::Result<()> {
    let alloc = rt.alloc();
    let mut script = Script::new(alloc).map_err(no_memory)?;
    for line in base.lines() {
        // What is wrong with it was told where it stands.
        let _ = add_line(rt, &mut script, line);
    }
    let skipped = script.events.len();
    let mut told = Vec::new(alloc);
    for text in rows.lines() {
        let fault = add_line(rt, &mut script, text).err();
        let events = script.events.len();
        told.push(Row {
            text,
            events,
            fault,
        })?;
    }
    serve(rt, hasher, &mut script, told.as_slice(), skipped)
}
