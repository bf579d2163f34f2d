//! A block of packets as one run of lines, for links that take all packets.
ghost use Rattle.std.specs.Prelude.{◌≡◌, ◌<◌, ◌≤◌, ◌==◌, ◌++◌, IfOk, OnErr, OnOk, length};
ghost use Rattle.std.specs.Arc.{arc_value};
ghost use Rattle.std.specs.List.{list_any};
ghost use Rattle.filter_eval.specs.Passes.{is_some_and};
ghost use Rattle.worker_match.specs.Runs.{IsRunOf, added, empty_run, fresh, mark, sent_by, suits, suits_others};
ghost use Rattle.worker_match.specs.Seen.{Came, came_all};

use crate::links::LinkFeed;
use crate::offers::Offer;
use aprs_base::{Call, Line, Memory, Source};
use link_queue::Batch;
use std::alloc::Global;
use std::marker::Model;
use std::sync::Arc;

/// Packets: the lines of those that aren't refused duplicates, the links that they came from, and the marks of their sources.
#[derive(Drop)]
pub(crate) struct Run {
    pub batch: Arc<Batch>,
    senders: Vec<u32>,
    marks: Vec<u64>,
}

impl Model for Run {
    ghost use Rattle.std.specs.Arc.{arc_value};
    ghost use Rattle.worker_match.specs.Runs.{RunSeen};

    ghost Value = { RunSeen };

    ghost view = { λ r. record { lines = arc_value r.batch; senders = r.senders.items; marks = r.marks.items } };
}

impl Run {
    /// Whether the link takes just the lines that others sent: it takes all packets, and none of these has its login's mark,
    /// so that none tells where it is.
    pub fn suits_others(&self, link: &LinkFeed) -> bool
        ensures { result ≡ suits_others link.now self.now }
    {
        link.is_plain() && !self.has_mark_of(&link.me)
    }

    /// Whether it takes just these lines: none of them came from it.
    pub fn suits(&self, link: &LinkFeed) -> bool
        ensures { result ≡ suits link.now self.now }
    {
        self.suits_others(link) && !is_among(link.link, self.senders.as_slice())
    }

    /// Whether one of the packets has the login's mark.
    fn has_mark_of(&self, me: &Option<Call>) -> bool
        ensures { result ≡ is_some_and (λ own. list_any (λ other. mark own == other) self.now.marks) me.now }
    {
        match me {
            Some(own) => is_marked(mark(own.bytes()), self.marks.as_slice()),
            None => false,
        }
    }
}

/// All are looked at, since it is mostly none of them: so several are compared at once.
fn is_among(number: u32, numbers: &[u32]) -> bool
    ensures { result ≡ list_any (λ other. number == other) numbers.now }
{
    let mut found = false;
    for other in numbers {
        found |= number == *other;
    }
    found
}

/// Whether a mark is among these: several are compared at once.
fn is_marked(mark: u64, marks: &[u64]) -> bool
    ensures { result ≡ list_any (λ other. mark == other) marks.now }
{
    let mut found = false;
    for other in marks {
        found |= mark == *other;
    }
    found
}

/// Equal calls have equal marks.
fn mark(call: &[u8]) -> u64
    ensures { result ≡ mark call.now }
{
    let mut so_far = 0u64;
    for byte in call {
        so_far = so_far.wrapping_mul(31).wrapping_add(u64::from(*byte));
    }
    so_far
}

/// A run that packets are added to.
#[derive(Drop)]
struct Draft {
    batch: Batch,
    senders: Vec<u32>,
    marks: Vec<u64>,
}

impl Model for Draft {
    ghost use Rattle.worker_match.specs.Runs.{RunSeen};

    ghost Value = { RunSeen };

    ghost view = { λ d. record { lines = d.batch; senders = d.senders.items; marks = d.marks.items } };
}

impl Draft {
    fn new(alloc: Global) -> Draft
        ensures { result ≡ empty_run }
    {
        Draft {
            batch: Batch::new(alloc),
            senders: Vec::new(alloc),
            marks: Vec::new(alloc),
        }
    }

    /// Adds a packet. After `Memory` nothing is said of the draft.
    fn add(&mut self, offer: &Offer) -> Result<(), Memory>
        requires { length self.old.lines < 1000 }
        ensures { OnOk result (self.new ≡ added (Came offer.now) self.old) }
    {
        let packet = offer.packet;
        add_line(&mut self.batch, offer.dupe, &packet.line)?;
        add_sender(&mut self.senders, &packet.from)?;
        self.marks.push(mark(packet.parts.source.bytes()))?;
        Ok(())
    }

    fn share(self, alloc: Global) -> Result<Run, Memory>
        ensures { IfOk result (λ run. run ≡ self) }
    {
        Ok(Run {
            batch: Arc::new(alloc, self.batch)?,
            senders: self.senders,
            marks: self.marks,
        })
    }
}

/// A refused duplicate isn't added.
fn add_line(batch: &mut Batch, dupe: bool, line: &Line) -> Result<(), Memory>
    requires { length batch.old < 1000 }
    ensures ok { OnOk result (batch.new ≡ batch.old ++ fresh dupe line.now) }
    ensures err { OnErr result (batch.new ≡ batch.old) }
{
    if dupe { Ok(()) } else { batch.push(line) }
}

fn add_sender(senders: &mut Vec<u32>, from: &Source) -> Result<(), Memory>
    ensures ok { OnOk result (senders.new.items ≡ senders.old.items ++ sent_by from.now) }
    ensures err { OnErr result (senders.new.items ≡ senders.old.items) }
{
    match from {
        Source::Link(number) => senders.push(*number)?,
        Source::Submit(_) | Source::Peer(_) => {}
    }
    Ok(())
}

/// Packets as one run.
pub(crate) fn run_of(alloc: Global, offers: &[Offer]) -> Result<Run, Memory>
    requires { length offers.now ≤ 1000 }
    ensures { IfOk result (λ run. IsRunOf (came_all offers.now) run) }
{
    let mut draft = Draft::new(alloc);
    for offer in offers {
        draft.add(offer)?;
    }
    draft.share(alloc)
}
