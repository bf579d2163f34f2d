//! The pairs that are joined, and the bytes on their way.
ghost use Rattle.std.specs.Prelude.{◌≡◌, ◌-◌, None, OnOk, Some, map};
ghost use Rattle.std.specs.Option.{option_map};
ghost use Rattle.net_history.specs.Network.{changed_at, end_beyond, is_end, is_of_pair, number_of};
ghost use Rattle.net_schedule.specs.Asked.{way_at};
ghost use Rattle.net_schedule.specs.Running.{all_with_taken, beyond, is_joined_by, joined_of, joins_of, way_parted_at, with_taken};

use aprs_base::Memory;
use std::marker::Model;

/// A link of a server, by its place among those that were made there.
#[derive(Clone, Copy)]
pub(crate) struct LinkEnd {
    server: u16,
    place: u32,
}

impl Model for LinkEnd {
    ghost use Rattle.std.specs.Prelude.{◌<◌};
    ghost use Rattle.net_history.specs.Network.{End};

    ghost Value = { End };

    ghost view = { λ e. record { server = e.server; place = e.place } };

    ghost invariant = { λ e. e.place < 4294967295 };

    ghost inverse = { λ e. record { server = e.server; place = e.place } };
}

impl LinkEnd {
    /// The link of that number.
    pub(crate) fn new(server: u16, link: u32) -> LinkEnd
        ensures { result ≡ record { server = server; place = link - 1 } }
    {
        LinkEnd {
            server,
            place: link.saturating_sub(1),
        }
    }

    pub(crate) fn server(self) -> u16
        ensures { result ≡ self.server }
    {
        self.server
    }

    /// The number of the link.
    pub(crate) fn number(self) -> u32
        ensures { result ≡ number_of self }
    {
        self.place + 1
    }

    /// Whether it is the link of that number at that server.
    fn is(self, server: u16, link: u32) -> bool
        ensures { result ≡ is_end server link self }
    {
        self.server == server && self.number() == link
    }
}

/// A pair that is joined: its ends, and the bytes on their way from the low one to the high one, and back.
#[derive(Drop)]
pub(crate) struct Way {
    pub(crate) low: LinkEnd,
    pub(crate) high: LinkEnd,
    pub(crate) up: Vec<u8>,
    pub(crate) down: Vec<u8>,
}

impl Model for Way {
    ghost use Rattle.net_schedule.specs.Running.{WayKept};

    ghost Value = { WayKept };

    ghost view = { λ w. record { low = w.low; high = w.high; up = w.up.items; down = w.down.items } };
}

/// Whether a pair is joined by that link.
fn is_of_pair(way: &Way, server: u16, link: u32) -> bool
    ensures { result ≡ is_of_pair server link (joined_of way.now) }
{
    way.low.is(server, link) || way.high.is(server, link)
}

/// The link took these bytes: where it is an end of the pair, they are on their way.
fn take_at(way: &mut Way, server: u16, link: u32, bytes: &[u8]) -> Result<(), Memory>
    ensures { OnOk result (way.new ≡ with_taken server link bytes.now way.old) }
{
    if way.low.is(server, link) {
        way.up.extend_from_slice(bytes)?;
    }
    if way.high.is(server, link) {
        way.down.extend_from_slice(bytes)?;
    }
    Ok(())
}

fn take_one(way: &mut Option<Way>, server: u16, link: u32, bytes: &[u8]) -> Result<(), Memory>
    ensures { OnOk result (way.new ≡ option_map (with_taken server link bytes.now) way.old) }
{
    match way {
        Some(way) => take_at(way, server, link, bytes),
        None => Ok(()),
    }
}

/// The link took these bytes.
pub(crate) fn take(
    ways: &mut [Option<Way>],
    server: u16,
    link: u32,
    bytes: &[u8],
) -> Result<(), Memory>
    ensures { OnOk result (ways.new ≡ all_with_taken server link bytes.now ways.old) }
{
    for way in ways.iter_mut() {
        take_one(way, server, link, bytes)?;
    }
    Ok(())
}

/// The end beyond that link, where the pair is joined by it.
fn beyond(way: &Option<Way>, server: u16, link: u32) -> Option<LinkEnd>
    ensures { result ≡ beyond server link way.now }
{
    let way = way.as_ref()?;
    if way.low.is(server, link) {
        return Some(way.high);
    }
    if way.high.is(server, link) {
        return Some(way.low);
    }
    None
}

/// The end beyond that link, where a pair is joined by it.
pub(crate) fn end_beyond(ways: &[Option<Way>], server: u16, link: u32) -> Option<LinkEnd>
    ensures { result ≡ end_beyond server link (joins_of ways.now) }
{
    for way in ways {
        if let Some(end) = beyond(way, server, link) {
            return Some(end);
        }
    }
    None
}

/// Whether that pair is joined by that link.
fn is_joined_by(way: &Option<Way>, server: u16, link: u32) -> bool
    ensures { result ≡ is_joined_by server link way.now }
{
    match way {
        Some(way) => is_of_pair(way, server, link),
        None => false,
    }
}

fn part_one(way: &mut Option<Way>, server: u16, link: u32)
    ensures { way.new ≡ way_parted_at server link way.old }
{
    if is_joined_by(way, server, link) {
        *way = None;
    }
}

/// No pair is joined by that link any more: what was on its way is lost.
pub(crate) fn part(ways: &mut [Option<Way>], server: u16, link: u32)
    ensures { ways.new ≡ map (way_parted_at server link) ways.old }
{
    for way in ways.iter_mut() {
        part_one(way, server, link);
    }
}

/// The pair of that number is joined so from now on.
#[tactic(auto, using(crate::proofs::ListLemmas::past_changed, crate::proofs::ListLemmas::set_changed))]
pub(crate) fn put(ways: &mut [Option<Way>], number: u16, way: Way)
    ensures { ways.new ≡ changed_at (λ before. Some way) number ways.old }
{
    let place = usize::from(number);
    if place < ways.len() {
        ways[place] = Some(way);
    }
}

/// The pair of that number is joined no more.
#[tactic(auto, using(crate::proofs::ListLemmas::past_changed, crate::proofs::ListLemmas::set_changed))]
pub(crate) fn take_out(ways: &mut [Option<Way>], number: u16) -> Option<Way>
    ensures was { result ≡ way_at number ways.old }
    ensures none { ways.new ≡ changed_at (λ before. None) number ways.old }
{
    let place = usize::from(number);
    if place >= ways.len() {
        return None;
    }
    ways[place].take()
}
