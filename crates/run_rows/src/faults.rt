//! Runs that are tried again with each call of `next` failing, and with each beginning of what a link says.

use crate::events::{push, say};
use crate::running::{Left, no_memory, run};
use crate::script::{Prefixes, Script};
use crate::telling::all_taken;
use aprs_base::{Event, Happening, MemJournal, Slot};
use row_texts::RowError;
use std::alloc::{AllocError, Global};
use std::hash::RandomState;
use std::io;
use std::marker::Sync;
use std::sync::Wait;
use std::thread::Threads;

/// Tells whether what a run left is all that stands in the full run before the call that failed.
fn tell_beginning<R: Print>(
    rt: &R,
    call: u64,
    left: &Left,
    before: Option<&[Happening]>,
) -> io::Result<()> {
    let same = before == Some(left.done.as_slice());
    let told = if same { "as above until it" } else { "others" };
    let count = left.done.len();
    let status = left.status;
    println!(rt; "    next {call} fails: {count} happenings, {told}, status {status}")
}

/// Runs the script again with each call of `next` failing.
pub fn tell_each_next<R: AllocGlobal + Print + Threads + Sync + Wait>(
    rt: &R,
    hasher: &RandomState,
    script: &Script,
    full: &Left,
) -> io::Result<()> {
    let mut call = 0u64;
    for (place, happening) in full.done.iter().enumerate() {
        if let Happening::Event(_) = happening {
            let journals = Vec::new(rt.alloc());
            let left = run(rt, hasher, script, Some(call), journals).map_err(no_memory)?;
            tell_beginning(rt, call, &left, full.done.get(..place))?;
            call = call.saturating_add(1);
        }
    }
    Ok(())
}

/// Puts a beginning of the text behind the events, and the end of the link.
fn add_prefix(
    script: &mut Script,
    before: usize,
    prefixes: &Prefixes,
    length: usize,
) -> Result<(), RowError> {
    let text = prefixes.text.as_slice();
    script.events.truncate(before);
    say(
        &mut script.events,
        prefixes.link,
        text.get(..length).unwrap_or(text),
        text.len(),
    )?;
    push(&mut script.events, Event::Ended(prefixes.link))
}

/// What links took in a run, and how many lines its journals took.
fn outcome(alloc: Global, script: &Script, left: &Left) -> Result<String, AllocError> {
    let mut told = format!(in alloc; "status {}", left.status)?;
    for line in &all_taken(alloc, script, left)? {
        write!(told, ", {line}")?;
    }
    for journal in &left.journals {
        write!(told, ", {} lines of a journal", journal.lines)?;
    }
    Ok(told)
}

/// Runs the script again with each beginning of the text, and tells what comes of it where that changes.
pub fn tell_prefixes<R: AllocGlobal + Print + Threads + Sync + Wait>(
    rt: &R,
    hasher: &RandomState,
    script: &mut Script,
    prefixes: &Prefixes,
) -> io::Result<()> {
    let alloc = rt.alloc();
    let before = script.events.len();
    let mut last = String::new(alloc);
    for length in 0..=prefixes.text.len() {
        add_prefix(script, before, prefixes, length).map_err(no_memory)?;
        let journal = MemJournal::new(alloc, 7, None, 65_536).map_err(no_memory)?;
        let mut journals = Vec::new(alloc);
        journals.push(Slot::Live {
            journal: Box::new(alloc, journal)?,
            lines: 0,
        })?;
        let left = run(rt, hasher, script, None, journals).map_err(no_memory)?;
        let told = outcome(alloc, script, &left)?;
        if told.as_str() != last.as_str() {
            println!(rt; "    from {length} bytes: {told}")?;
            last = told;
        }
    }
    Ok(())
}
