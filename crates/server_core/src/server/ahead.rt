//! The lines that a round's events bring, before any of them is walked.
ghost use Rattle.std.specs.Prelude.{◌≡◌, OnOk};

use super::State;
use super::datagrams::cut_datagram;
use aprs_base::{Cut, Cutter, Event, Line, Memory};
use indexmap::IndexMap;
use served_links::Served;
use std::alloc::Global;
use std::hash::RandomState;
use std::marker::Sync;
use std::thread::Threads;

/// The cutters of links, as what they brought of a round so far leaves them. One that holds what its link holds isn't kept.
type Cutters = IndexMap<u32, Cutter, RandomState>;

/// Whether the link of that number holds the same.
fn is_held(links: &Served, number: u32, cutter: &Cutter) -> bool {
    match links.cutter_at(number) {
        Some(held) => held == *cutter,
        None => false,
    }
}

/// Appends what the bytes of that link complete, behind what it holds and what it brought before them in the round.
fn cut_on(
    alloc: Global,
    cutters: &mut Cutters,
    links: &Served,
    number: u32,
    bytes: &[u8],
    cuts: &mut Vec<Cut>,
) -> Result<(), Memory> {
    match cutters.get_mut(&number) {
        Some(cutter) => cutter.feed(alloc, bytes, cuts),
        None => {
            let mut cutter = links.cutter_at(number).unwrap_or(Cutter::new());
            cutter.feed(alloc, bytes, cuts)?;
            if !is_held(links, number, &cutter) {
                cutters.insert(number, cutter)?;
            }
            Ok(())
        }
    }
}

/// Takes the lines out of what was cut, and appends them.
fn move_lines(cuts: &mut Vec<Cut>, lines: &mut Vec<Line>) -> Result<(), Memory> {
    for cut in cuts.drain(..) {
        match cut {
            Cut::Line(line) => lines.push(line)?,
            Cut::Long => {}
        }
    }
    Ok(())
}

/// The lines that the events bring, in order, those too that nobody reads.
fn lines_of(
    alloc: Global,
    hasher: RandomState,
    links: &Served,
    events: &[Event],
) -> Result<Vec<Line>, Memory> {
    let mut lines = Vec::with_capacity(alloc, events.len())?;
    let mut cuts = Vec::new(alloc);
    let mut cutters = IndexMap::with_hasher(alloc, hasher);
    for event in events {
        match event {
            Event::Bytes(link, chunk) => {
                cut_on(alloc, &mut cutters, links, *link, chunk.bytes(), &mut cuts)?;
            }
            Event::Datagram { bytes, .. } => {
                cuts.append(&mut cut_datagram(alloc, bytes.bytes())?)?;
            }
            _ => {}
        }
        move_lines(&mut cuts, &mut lines)?;
    }
    Ok(lines)
}

/// With fewer bytes a round has no more lines than one thread parses, and each is parsed as soon where it is met. No round of the
/// system's sockets has so many.
const MANY_BYTES: usize = 50_000;

/// How many bytes it brings.
fn bytes_in(event: &Event) -> usize {
    match event {
        Event::Bytes(_, chunk) => chunk.bytes().len(),
        Event::Datagram { bytes, .. } => bytes.bytes().len(),
        _ => 0,
    }
}

/// Whether the events bring so many lines that it pays to parse them side by side.
fn bring_many(events: &[Event]) -> bool {
    let mut bytes = 0usize;
    for event in events {
        bytes = bytes.saturating_add(bytes_in(event));
    }
    bytes >= MANY_BYTES
}

impl State {
    /// Where the events bring many lines, these are parsed, side by side.
    pub(super) fn look_ahead<R: Threads + Sync>(
        &mut self,
        rt: &R,
        alloc: Global,
        events: &[Event],
    ) -> Result<(), Memory>
        ensures { OnOk result (self.new ≡ self.old) }
    {
        if !bring_many(events) {
            return Ok(());
        }
        let lines = lines_of(alloc, self.hasher, &self.links, events)?;
        self.ahead.parse(rt, alloc, lines)
    }
}
