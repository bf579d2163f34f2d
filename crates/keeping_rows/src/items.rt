//! What comes to links.
ghost use Rattle.std.specs.Prelude.{IfOk};
ghost use Rattle.std.specs.List.Sorted.{IsStrictlyIncreasing};
ghost use Rattle.worker_match.specs.Items.{item_seen};
ghost use Rattle.worker_match.specs.Walk.{IsOrdered};

use crate::fields::{Fault, Fields};
use aprs_base::{Body, Call, Line, Memory, Packet, Parts, Place, Source};
use arrayvec::ArrayVec;
use filter_eval::Friends;
use std::alloc::Global;
use std::sync::Arc;
use worker_match::{Feed, Item};

/// The calls of so many terms, which were seen nowhere.
pub fn nowhere(terms: usize) -> Friends {
    let mut at = ArrayVec::new();
    for _ in 0..terms {
        if !at.is_full() {
            at.push(None);
        }
    }
    Friends { at }
}

pub const FEEDS: [(&str, Feed); 5] = [
    ("nothing", Feed::Nothing),
    ("full", Feed::Full),
    ("up", Feed::Up),
    ("dupe", Feed::Dupe),
    ("filter", Feed::Filter),
];

const COPIES: [(&str, bool); 2] = [("copy", true), ("new", false)];

const PLACES: [(&str, bool); 2] = [("here", true), ("elsewhere", false)];

/// A position that came from that link.
fn position(from: u32, source: Call, line: Arc<Line>) -> Result<Packet, Fault> {
    let place = Place {
        lat: 60_000_000,
        lon: 25_000_000,
        table: b'/',
        code: b'-',
        used: 19,
    };
    Ok(Packet {
        from: Source::Link(from),
        moment: 1000,
        parts: Parts {
            source,
            dest: Call::read(b"APRS").ok_or(Fault::Unknown)?,
            vias: ArrayVec::new(),
            body: ArrayVec::new(),
        },
        body: Body {
            class: 1,
            place: Some(place),
            name: None,
            live: false,
            to: None,
        },
        line,
    })
}

fn numbers(alloc: Global, number: Option<u32>) -> Result<Vec<u32>, Memory>
    ensures { IfOk result (λ numbers. IsStrictlyIncreasing numbers.items) }
{
    let mut numbers = Vec::new(alloc);
    if let Some(number) = number {
        numbers.push(number)?;
    }
    Ok(numbers)
}

/// A packet: its link and its source, whether it is a refused duplicate, whether it was submitted here, which link the message
/// rule names, and its line.
fn read_packet(fields: &mut Fields) -> Result<Item, Fault>
    ensures { IfOk result (λ item. IsOrdered (item_seen item)) }
{
    let from = fields.number();
    let source = fields.call();
    let dupe = fields.named(COPIES.as_slice())?;
    let submitted = fields.named(PLACES.as_slice())?;
    let extra = numbers(fields.alloc, fields.perhaps())?;
    let packet = position(from, source, fields.shared_line()?)?;
    let packet = Arc::new(fields.alloc, packet)?;
    Ok(Item::Packet {
        packet,
        dupe,
        submitted,
        known: None,
        gate: false,
        extra,
    })
}

/// That link has no feed any more.
fn quiet(alloc: Global, link: u32) -> Result<Item, Fault>
    ensures { IfOk result (λ item. IsOrdered (item_seen item)) }
{
    Ok(Item::Session {
        link,
        feed: Feed::Nothing,
        me: None,
        filter: None,
        friends: Box::new(alloc, nowhere(0))?,
        mine: None,
    })
}

/// What comes, by its word.
pub fn read_item(fields: &mut Fields) -> Result<Item, Fault>
    ensures { IfOk result (λ item. IsOrdered (item_seen item)) }
{
    match fields.word() {
        "text" => Ok(Item::Text {
            link: fields.number(),
            line: fields.shared_line()?,
        }),
        "all" => Ok(Item::All {
            line: fields.shared_line()?,
        }),
        "end" => Ok(Item::End {
            link: fields.number(),
        }),
        "quiet" => quiet(fields.alloc, fields.number()),
        "packet" => read_packet(fields),
        _ => Err(Fault::Unknown),
    }
}
