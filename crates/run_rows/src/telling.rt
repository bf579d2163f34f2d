//! What is printed of a run.

use crate::running::{Kept, Left};
use crate::script::Script;
use aprs_base::{Addr, Event, Happening, ListenSpec, Sent, UplinkSpec};
use row_texts::{RowError, write_bytes};
use std::alloc::{AllocError, Global};
use std::io;

/// A row, with how many events there are up to it, and what is wrong with it.
#[derive(Drop)]
pub struct Row<'a> {
    pub text: &'a str,
    pub events: usize,
    pub fault: Option<RowError>,
}

/// A longer text is told by its length and a hash.
const WHOLE: usize = 2000;

/// The hash FNV-1a of 32 bits, gone on with these bytes.
fn hashed(hash: u32, bytes: &[u8]) -> u32 {
    let mut hash = hash;
    for byte in bytes {
        hash = (hash ^ u32::from(*byte)).wrapping_mul(16_777_619);
    }
    hash
}

/// The hash of no bytes.
const NONE_HASHED: u32 = 2_166_136_261;

fn text_of(alloc: Global, bytes: &[u8]) -> Result<String, AllocError> {
    if bytes.len() <= WHOLE {
        return write_bytes(alloc, bytes);
    }
    let length = bytes.len();
    format!(in alloc; "{length} bytes of hash {:08x}", hashed(NONE_HASHED, bytes))
}

fn address(alloc: Global, at: Addr) -> Result<String, AllocError> {
    let [a, b, c, d] = at.ip;
    format!(in alloc; "{a}.{b}.{c}.{d}:{}", at.port)
}

fn listen(alloc: Global, number: u16, spec: Option<&ListenSpec>) -> Result<String, AllocError> {
    let Some(spec) = spec else {
        return format!(in alloc; "listen {number}");
    };
    let at = address(alloc, spec.at)?;
    format!(in alloc; "listen {number} {:?} {at}", spec.kind)
}

fn dialled(alloc: Global, number: u16, spec: Option<&UplinkSpec>) -> Result<String, AllocError> {
    let Some(spec) = spec else {
        return format!(in alloc; "dialled {number}");
    };
    let host = write_bytes(alloc, spec.host.as_slice())?;
    format!(in alloc; "dialled {number} {host} {}", spec.port)
}

fn cast(alloc: Global, peer: u16, bytes: &[u8], to: Option<&Addr>) -> Result<String, AllocError> {
    let text = text_of(alloc, bytes)?;
    let Some(to) = to else {
        return format!(in alloc; "cast {peer} {text}");
    };
    let to = address(alloc, *to)?;
    format!(in alloc; "cast {peer} to {to} {text}")
}

fn sent(alloc: Global, link: u32, bytes: &[u8], outcome: Sent) -> Result<String, AllocError> {
    let text = text_of(alloc, bytes)?;
    match outcome {
        Sent::Took(count) if count == bytes.len() => format!(in alloc; "sent {link} all {text}"),
        Sent::Took(count) => format!(in alloc; "sent {link} {count} {text}"),
        Sent::Gone => format!(in alloc; "sent {link} gone {text}"),
    }
}

/// The acts of a run, as lines: those before the first event, those between it and the second, and so on.
fn acts_of(alloc: Global, left: &Left) -> Result<Vec<Vec<String>>, AllocError> {
    let mut listens = left.listened.iter();
    let mut dials = left.dialled.iter();
    let mut casts = left.cast_to.iter();
    let mut all = Vec::new(alloc);
    let mut acts = Vec::new(alloc);
    for happening in &left.done {
        let act = match happening {
            Happening::Event(_) => {
                all.push(acts)?;
                acts = Vec::new(alloc);
                continue;
            }
            Happening::Listen(number) => listen(alloc, *number, listens.next())?,
            Happening::Sent(link, text, outcome) => sent(alloc, *link, text.as_bytes(), *outcome)?,
            Happening::Closed(link) => format!(in alloc; "closed {link}")?,
            Happening::Dialled(number) => dialled(alloc, *number, dials.next())?,
            Happening::Cast(peer, text) => cast(alloc, *peer, text.as_bytes(), casts.next())?,
        };
        acts.push(act)?;
    }
    all.push(acts)?;
    Ok(all)
}

fn tell_acts<R: Print>(rt: &R, acts: &[String]) -> io::Result<()> {
    for act in acts {
        println!(rt; "    {act}")?;
    }
    Ok(())
}

/// Tells a row, and what is wrong with it.
fn tell_text<R: Print>(rt: &R, row: &Row) -> io::Result<()> {
    println!(rt; "{}", row.text)?;
    match &row.fault {
        Some(fault) => println!(rt; "    error: {fault}"),
        None => Ok(()),
    }
}

/// Tells a row, and the acts after those that are told, up to so many groups.
fn tell_row<R: Print>(
    rt: &R,
    row: &Row,
    acts: &[Vec<String>],
    told: usize,
    upto: usize,
) -> io::Result<()> {
    tell_text(rt, row)?;
    if upto > told && upto > acts.len() {
        println!(rt; "    never came")?;
    }
    for group in acts.iter().take(upto).skip(told) {
        tell_acts(rt, group.as_slice())?;
    }
    Ok(())
}

/// Tells what came of the stop that the wire gives past the last event.
fn tell_stop<R: Print>(rt: &R, acts: &[String]) -> io::Result<()> {
    print!(rt; "    stop")?;
    for act in acts {
        print!(rt; ", {act}")?;
    }
    println!(rt; "")
}

/// Tells the rows with their acts. So many groups of acts are told already.
fn tell_rows<R: Print>(
    rt: &R,
    rows: &[Row],
    acts: &[Vec<String>],
    before: usize,
) -> io::Result<()> {
    let mut told = before;
    for row in rows {
        let upto = groups_of(row.events);
        if told == 0 && upto > 0 {
            tell_first(rt, acts)?;
            told = 1;
        }
        tell_row(rt, row, acts, told, upto)?;
        told = told.max(upto);
    }
    if told == 0 {
        tell_first(rt, acts)?;
        told = 1;
    }
    match acts.get(told) {
        Some(stop) => tell_stop(rt, stop.as_slice()),
        None => Ok(()),
    }
}

/// How many groups of acts there are until the one after so many events, and none before the first event.
fn groups_of(events: usize) -> usize {
    if events == 0 {
        0
    } else {
        events.saturating_add(1)
    }
}

/// Tells the acts before the first event.
fn tell_first<R: Print>(rt: &R, acts: &[Vec<String>]) -> io::Result<()> {
    match acts.first() {
        Some(first) => tell_acts(rt, first.as_slice()),
        None => Ok(()),
    }
}

/// How much a link took in all.
fn taken(alloc: Global, link: u32, done: &[Happening]) -> Result<String, AllocError> {
    let mut count = 0u64;
    let mut hash = NONE_HASHED;
    for happening in done {
        if let Happening::Sent(number, text, Sent::Took(taken)) = happening {
            if *number == link {
                let bytes = text.as_bytes().get(..*taken).unwrap_or(text.as_bytes());
                count = count.saturating_add(bytes.len() as u64);
                hash = hashed(hash, bytes);
            }
        }
    }
    format!(in alloc; "link {link} took {count} bytes of hash {hash:08x}")
}

/// How much each link took, a line for each.
pub fn all_taken(alloc: Global, script: &Script, left: &Left) -> Result<Vec<String>, AllocError> {
    let mut lines = Vec::new(alloc);
    for event in &script.events {
        match event {
            Event::Opened { link, .. } | Event::Joined { link, .. } => {
                lines.push(taken(alloc, *link, left.done.as_slice())?)?;
            }
            _ => {}
        }
    }
    Ok(lines)
}

/// Tells the rows, and then what each link took.
fn tell_short<R: AllocGlobal + Print>(
    rt: &R,
    script: &Script,
    rows: &[Row],
    left: &Left,
) -> io::Result<()> {
    for row in rows {
        tell_text(rt, row)?;
    }
    let lines = all_taken(rt.alloc(), script, left)?;
    tell_acts(rt, lines.as_slice())
}

/// Tells how many lines a journal took, and those that it keeps.
fn tell_journal<R: AllocGlobal + Print>(rt: &R, journal: &Kept) -> io::Result<()> {
    let how = if journal.is_dead { "dead after" } else { "of" };
    let count = journal.lines;
    println!(rt; "    journal {how} {count} lines")?;
    for line in journal.text.as_slice().split(|byte| *byte == b'\n') {
        if !line.is_empty() {
            println!(rt; "        {}", write_bytes(rt.alloc(), line)?)?;
        }
    }
    Ok(())
}

/// The text that a run wrote, or the file that holds it.
fn written(alloc: Global, script: &Script, left: &Left) -> Result<String, AllocError> {
    match &script.report {
        Some(report) if report.text.as_slice() == left.text.as_slice() => {
            format!(in alloc; "as in {}", report.name)
        }
        _ => text_of(alloc, left.text.as_slice()),
    }
}

/// Tells what a run left. So many events are told already.
pub fn tell<R: AllocGlobal + Print>(
    rt: &R,
    script: &Script,
    rows: &[Row],
    skipped: usize,
    left: &Left,
) -> io::Result<()> {
    if script.short {
        tell_short(rt, script, rows, left)?;
    } else {
        let acts = acts_of(rt.alloc(), left)?;
        tell_rows(rt, rows, acts.as_slice(), groups_of(skipped))?;
    }
    println!(rt; "    status {}", left.status)?;
    if !left.text.is_empty() {
        println!(rt; "    text {}", written(rt.alloc(), script, left)?)?;
    }
    for journal in &left.journals {
        tell_journal(rt, journal)?;
    }
    Ok(())
}
