//! The walk of many links over the same items, by several workers.
ghost use Rattle.std.specs.Prelude.{◌≡◌, ◌+◌, ◌*◌, ◌/◌, ◌≤◌, All, IfOk, IfSome, OnOk, length, map, max, min};
ghost use Rattle.std.specs.Thread.{IsSync};
ghost use Rattle.worker_match.specs.Items.{items_seen};
ghost use Rattle.worker_match.specs.Runs.{IsRunOf};
ghost use Rattle.worker_match.specs.Seen.{came_all};
ghost use Rattle.worker_match.specs.Walk.{IsOrdered, walked};

use crate::along::{take_others, walk_along};
use crate::items::Item;
use crate::links::LinkFeed;
use crate::offers::{Offer, offers_of};
use crate::runs::{Run, run_of};
use aprs_base::{Gate, Memory};
use std::alloc::Global;
use std::thread::{Threads, join_mut};

/// All links of a part meet so many items before they meet the next ones: what a walk touches of these stays near the processor.
const BLOCK: usize = 64;

/// The most items of a block.
const MOST: usize = 1000;

/// Blocks are as large as may be where the items are packets alone, and for each link that meets them one by one so many take
/// them as a run.
const FEW: usize = 8;

/// A run of a block is made where the block has so many items, and so many links of a part may want their lines.
const LEAST: usize = 4;

/// How parts are walked.
#[derive(Clone, Copy)]
pub(crate) struct Course {
    /// Other parts are walked at the same time. Then each link takes what it wants from a run of its own part, so that no two
    /// processors count who shares a line. A run stays as long as one of its lines is wanted, so else only links that take most of it do.
    pub apart: bool,
}

impl Course {
    /// Whether a run pays for the link.
    fn needs_run(self, link: &LinkFeed) -> bool {
        link.is_plain() || (self.apart && link.is_eager())
    }
}

/// Each link meets the items in their order. The links are split into at most `workers` parts, which are walked at the same
/// time, each between its entering and its leaving the gate. After `Memory` nothing is said of the links.
pub fn spread<R: Threads + Sync, G: Gate + Sync>(
    rt: &R,
    links: &mut [LinkFeed],
    items: &[Item],
    workers: u32,
    gate: &G,
) -> Result<(), Memory>
    requires workers { (1 ≤ workers) × (workers ≤ 64) }
    requires ordered { All IsOrdered (items_seen items.now) }
    ensures { OnOk result (links.new ≡ map (walked (items_seen items.now)) links.old) }
{
    let parts = most_parts(links.len(), workers);
    let course = Course { apart: parts > 1 };
    split(rt, links, items, parts, 0, course, gate)
}

/// No more parts than workers, and none without a link where there are links.
fn most_parts(links: usize, workers: u32) -> u32
    requires { 1 ≤ workers }
    ensures { result ≡ min workers (max links 1) }
{
    match u32::try_from(links) {
        Ok(links) => workers.min(links.max(1)),
        Err(_) => workers,
    }
}

/// How many links the first `parts` of the workers' parts have: their share, rounded down.
fn front_size(links: usize, parts: u32, workers: u32) -> usize
    requires { (1 ≤ workers) × (workers ≤ 64) × (parts ≤ workers) }
    ensures exact { result ≡ links * parts / workers }
    ensures within { result ≤ links }
{
    let (parts, workers) = (parts as usize, workers as usize);
    links / workers * parts + links % workers * parts / workers
}

/// The parts from `part` on, one for each worker.
fn split<R: Threads + Sync, G: Gate + Sync>(
    rt: &R,
    links: &mut [LinkFeed],
    items: &[Item],
    workers: u32,
    part: u32,
    course: Course,
    gate: &G,
) -> Result<(), Memory>
    requires workers { (1 ≤ workers) × (part + workers ≤ 64) }
    requires ordered { All IsOrdered (items_seen items.now) }
    ensures { OnOk result (links.new ≡ map (walked (items_seen items.now)) links.old) }
{
    if workers == 1 {
        return pass(links, items, part, course, gate);
    }
    let less = workers / 2;
    let more = workers - less;
    let size = front_size(links.len(), less, workers);
    let (front, back) = links.split_at_mut(size);
    let (first, second) = join_mut(
        rt,
        &mut || -> Result<(), Memory>
            requires { IsSync R.row × IsSync G.row × (1 ≤ less) × (part + less ≤ 64) × All IsOrdered (items_seen items.now) }
            ensures { OnOk result (front.exit.now ≡ map (walked (items_seen items.entry.now)) front.entry.now) }
        { split(rt, front, items, less, part, course, gate) },
        &mut || -> Result<(), Memory>
            requires { IsSync R.row × IsSync G.row × (1 ≤ more) × (part + less + more ≤ 64) × All IsOrdered (items_seen items.now) }
            ensures { OnOk result (back.exit.now ≡ map (walked (items_seen items.entry.now)) back.entry.now) }
        { split(rt, back, items, more, part + less, course, gate) },
    );
    first?;
    second
}

/// One part, through the gate.
fn pass<G: Gate>(
    links: &mut [LinkFeed],
    items: &[Item],
    part: u32,
    course: Course,
    gate: &G,
) -> Result<(), Memory>
    requires { All IsOrdered (items_seen items.now) }
    ensures { OnOk result (links.new ≡ map (walked (items_seen items.now)) links.old) }
{
    gate.enter(part);
    let done = walk(links, items, course);
    gate.leave(part);
    done
}

/// Each link meets the items in their order, a block of them after another.
pub(crate) fn walk(links: &mut [LinkFeed], items: &[Item], course: Course) -> Result<(), Memory>
    requires { All IsOrdered (items_seen items.now) }
    ensures { OnOk result (links.new ≡ map (walked (items_seen items.now)) links.old) }
{
    let size = block_size(links, items);
    let mut rest = items;
    while !rest.is_empty() {
        let (block, later) = rest.split_at(rest.len().min(size));
        walk_block(links, block, course)?;
        rest = later;
    }
    Ok(())
}

/// How many items a block has. A run is one text to all who take it, and is the better the longer it is.
fn block_size(links: &[LinkFeed], items: &[Item]) -> usize
    ensures { (1 ≤ result) × (result ≤ 1000) }
{
    if items.len() <= BLOCK {
        return BLOCK;
    }
    let plain = links.iter().filter(|link| link.is_plain()).count();
    let eager = links.iter().filter(|link| link.is_eager()).count();
    let packets = items.iter().all(|item| matches!(item, Item::Packet { .. }));
    if packets && eager.saturating_sub(plain) <= plain / FEW {
        MOST
    } else {
        BLOCK
    }
}

/// Each link meets the items in their order.
fn walk_block(links: &mut [LinkFeed], items: &[Item], course: Course) -> Result<(), Memory>
    requires few { length items.now ≤ 1000 }
    requires ordered { All IsOrdered (items_seen items.now) }
    ensures { OnOk result (links.new ≡ map (walked (items_seen items.now)) links.old) }
{
    match offers_of(items)? {
        Some(offers) => walk_packets(links, *offers.allocator(), offers.as_slice(), course),
        None => walk_items(links, items),
    }
}

/// The links meet the items, one link after another.
fn walk_items(links: &mut [LinkFeed], items: &[Item]) -> Result<(), Memory>
    requires { All IsOrdered (items_seen items.now) }
    ensures { OnOk result (links.new ≡ map (walked (items_seen items.now)) links.old) }
{
    for link in links.iter_mut() {
        walk_link(link, items)?;
    }
    Ok(())
}

/// The links meet the packets, of which a run is made where that pays.
fn walk_packets(
    links: &mut [LinkFeed],
    alloc: Global,
    offers: &[Offer],
    course: Course,
) -> Result<(), Memory>
    requires few { length offers.now ≤ 1000 }
    requires ordered { All IsOrdered (came_all offers.now) }
    ensures { OnOk result (links.new ≡ map (walked (came_all offers.now)) links.old) }
{
    let run = run_for(links, alloc, offers, course)?;
    walk_links(links, offers, &run, course)
}

/// The links meet the packets, one link after another: where these are one run, a link may take that.
fn walk_links(
    links: &mut [LinkFeed],
    offers: &[Offer],
    run: &Option<Run>,
    course: Course,
) -> Result<(), Memory>
    requires ordered { All IsOrdered (came_all offers.now) }
    requires run { IfSome run.now (λ run. IsRunOf (came_all offers.now) run) }
    ensures { OnOk result (links.new ≡ map (walked (came_all offers.now)) links.old) }
{
    for link in links.iter_mut() {
        meet_packets(link, offers, run, course)?;
    }
    Ok(())
}

/// The packets as one run, where that pays.
fn run_for(
    links: &[LinkFeed],
    alloc: Global,
    offers: &[Offer],
    course: Course,
) -> Result<Option<Run>, Memory>
    requires { length offers.now ≤ 1000 }
    ensures { IfOk result (λ run. IfSome run (λ run. IsRunOf (came_all offers.now) run)) }
{
    if offers.len() < LEAST || links.iter().filter(|link| course.needs_run(link)).count() < LEAST {
        return Ok(None);
    }
    Ok(Some(run_of(alloc, offers)?))
}

/// One link meets the packets, or takes their run's lines where that comes to the same.
fn meet_packets(
    link: &mut LinkFeed,
    offers: &[Offer],
    run: &Option<Run>,
    course: Course,
) -> Result<(), Memory>
    requires ordered { All IsOrdered (came_all offers.now) }
    requires run { IfSome run.now (λ run. IsRunOf (came_all offers.now) run) }
    ensures { OnOk result (link.new ≡ walked (came_all offers.now) link.old) }
{
    match run {
        Some(run) if run.suits(link) => link.take_run(&run.batch),
        Some(run) if run.suits_others(link) => take_others(link, offers, run),
        Some(run) if course.apart => walk_along(link, offers, run),
        _ => walk_offers(link, offers),
    }
}

/// One link meets the packets, as long as it lives and isn't over.
fn walk_offers(link: &mut LinkFeed, offers: &[Offer]) -> Result<(), Memory>
    requires { All IsOrdered (came_all offers.now) }
    ensures { OnOk result (link.new ≡ walked (came_all offers.now) link.old) }
{
    for offer in offers {
        if !link.is_open() {
            return Ok(());
        }
        link.meet_packet(offer)?;
    }
    Ok(())
}

/// One link meets the items, as long as it lives and isn't over.
fn walk_link(link: &mut LinkFeed, items: &[Item]) -> Result<(), Memory>
    requires { All IsOrdered (items_seen items.now) }
    ensures { OnOk result (link.new ≡ walked (items_seen items.now) link.old) }
{
    for item in items {
        if !link.is_open() {
            return Ok(());
        }
        link.take(item)?;
    }
    Ok(())
}
