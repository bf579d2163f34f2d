//! Which packets a term fits, and which a filter passes.
ghost use Rattle.std.specs.Prelude.{◌≡◌, IsTrue};
ghost use Rattle.std.specs.List.{list_any, zip};
ghost use Rattle.filter_lang.specs.Terms.{is_distance, is_in_range};
ghost use Rattle.filter_eval.specs.Passes.{comes_by, fits, fresh_place, has_class, is_excluding, is_near, is_passing, passes_of, place_or, term_fits};

use crate::names::{begins_with_one, matches_one, matches_word};
use crate::paths::{has_letter, matches_entry, matches_used};
use crate::places::{is_by, is_inside, is_near, is_shown};
use crate::seen::{Friends, Seen, fresh_place};
use aprs_base::{Body, Packet, Place};
use aprs_body::class::{MESSAGE, POSITION};
use filter_lang::{FilterSet, Marks, Term, What};
use std::marker::Model;

/// What is known of stations where a packet is tested. Most terms ask for no place, so what is too old is left out only
/// where one asks.
#[derive(Drop)]
struct Sight<'a> {
    /// The packet's moment.
    moment: u64,
    /// Where the link's login was last seen.
    login: &'a Option<Seen>,
    /// Where the packet's source was last seen.
    known: &'a Option<Seen>,
    /// Whether the packet's source is a gate.
    gate: bool,
}

impl<'a> Model for Sight<'a> {
    ghost use Rattle.filter_eval.specs.Passes.{Sight, sight_at};

    ghost Value = { Sight };

    ghost view = { λ s. sight_at s.moment s.login.now s.known.now s.gate };
}

impl<'a> Sight<'a> {
    /// Where the link's login was last seen.
    fn mine(&self) -> Option<Place>
        ensures { result ≡ self.now.mine }
    {
        fresh_place(self.moment, *self.login)
    }

    /// Where the packet's source was last seen.
    fn source(&self) -> Option<Place>
        ensures { result ≡ self.now.source }
    {
        fresh_place(self.moment, *self.known)
    }
}

fn has_class(body: &Body, mask: u16) -> bool
    ensures { result ≡ has_class body.now.class mask }
{
    body.class & mask != 0
}

/// Whether the packet has a construct of these letters, or, where `gates` is true, is a position and its source a gate.
fn comes_by(packet: &Packet, gate: bool, letters: &Marks, gates: bool) -> bool
    ensures { result ≡ comes_by packet.now gate letters.now gates }
{
    has_letter(letters, &packet.parts) || (gates && has_class(&packet.body, POSITION) && gate)
}

/// Whether the packet's place, or else where its source was last seen, is within `km` kilometres of where the call that a
/// term names was last seen. The room of each place is cleared at every call, so what holds one has a function of its own.
#[inline(never)]
fn is_source_near(packet: &Packet, sight: &Sight, friend: &Option<Seen>, km: u32) -> bool
    requires { IsTrue (is_distance km) }
    ensures { result ≡ is_near (fresh_place packet.now.moment friend.now) km (place_or packet.now.body.place sight.now.source) }
{
    let friend = fresh_place(packet.moment, *friend);
    is_near(&friend, km, &packet.body.place.or(sight.source()))
}

/// Whether the packet's place is within `km` kilometres of where the call that a term names was last seen.
#[inline(never)]
fn is_near_friend(packet: &Packet, friend: &Option<Seen>, km: u32) -> bool
    requires { IsTrue (is_distance km) }
    ensures { result ≡ is_near (fresh_place packet.now.moment friend.now) km packet.now.body.place }
{
    let friend = fresh_place(packet.moment, *friend);
    is_near(&friend, km, &packet.body.place)
}

/// Whether the packet's place is within `km` kilometres of where the link's login was last seen.
#[inline(never)]
fn is_near_mine(packet: &Packet, sight: &Sight, km: u32) -> bool
    requires { IsTrue (is_distance km) }
    ensures { result ≡ is_near sight.now.mine km packet.now.body.place }
{
    is_near(&sight.mine(), km, &packet.body.place)
}

/// Whether the packet is what a term asks for, with where the call that the term names was last seen.
#[tactic(auto, unfolding(crate::specs::Passes::fits))]
fn fits(packet: &Packet, sight: &Sight, friend: &Option<Seen>, what: &What) -> bool
    requires { IsTrue (is_in_range what.now) }
    ensures { result ≡ fits packet.now sight.now (fresh_place packet.now.moment friend.now) what.now }
{
    let body = &packet.body;
    let parts = &packet.parts;
    match what {
        What::Range { lat, lon, km } => is_by(*lat, *lon, *km, &body.place),
        What::Prefix(names) => begins_with_one(names, parts.source.bytes()),
        What::Buddy(names) => matches_one(names, parts.source.bytes()),
        What::Object(names) => matches_word(names, &body.name),
        What::Class { mask } => has_class(body, *mask),
        What::ClassNear { mask, km, .. } => {
            has_class(body, *mask) && is_source_near(packet, sight, friend, *km)
        }
        What::Symbol { pri, alt, over } => is_shown(pri, alt, over, body.place),
        What::Digi(names) => matches_used(names, parts),
        What::Entry(names) => matches_entry(names, parts),
        What::Group(names) => has_class(body, MESSAGE) && matches_word(names, &body.to),
        What::Dest(names) => matches_one(names, parts.dest.bytes()),
        What::Friend { km, .. } => is_near_friend(packet, friend, *km),
        What::Mine { km } => is_near_mine(packet, sight, *km),
        What::Area {
            north,
            west,
            south,
            east,
        } => is_inside(*north, *west, *south, *east, body.place),
        What::Construct { letters, gates } => comes_by(packet, sight.gate, letters, *gates),
    }
}

/// Whether the packet is what this term asks for, with where the call that it names was last seen.
fn term_fits(packet: &Packet, sight: &Sight, term: &Term, friend: &Option<Seen>) -> bool
    ensures { result ≡ term_fits packet.now sight.now (term.now, friend.now) }
{
    fits(packet, sight, friend, &term.what)
}

/// Whether an ordinary term fits.
fn is_passed(packet: &Packet, sight: &Sight, terms: &[Term], friends: &[Option<Seen>]) -> bool
    ensures { result ≡ list_any (is_passing packet.now sight.now) (zip terms.now friends.now) }
{
    let mut pairs = terms.iter().zip(friends);
    pairs.any(|(term, friend)| !term.exclude && term_fits(packet, sight, term, friend))
}

/// Whether an excluding term fits.
fn is_excluded(packet: &Packet, sight: &Sight, terms: &[Term], friends: &[Option<Seen>]) -> bool
    ensures { result ≡ list_any (is_excluding packet.now sight.now) (zip terms.now friends.now) }
{
    let mut pairs = terms.iter().zip(friends);
    pairs.any(|(term, friend)| term.exclude && term_fits(packet, sight, term, friend))
}

/// Whether a filter passes a packet: an ordinary term fits, and no excluding term does. What was seen two days or longer
/// before the packet's moment counts as not seen. A packet without a construct has no element before or right after it.
///
/// - `friends`: for each term, where the call that it names was last seen. A term beyond the last friend is passed over.
/// - `mine`: where the link's login was last seen.
/// - `known`: where the packet's source was last seen.
/// - `gate`: whether the packet's source is a gate.
#[tactic(auto, unfolding(crate::specs::Passes::passes_of))]
pub fn passes(
    filter: &FilterSet,
    packet: &Packet,
    friends: &Friends,
    mine: Option<Seen>,
    known: Option<Seen>,
    gate: bool,
) -> bool
    ensures { result ≡ passes_of filter.now packet.now friends.now mine known gate }
{
    let sight = Sight {
        moment: packet.moment,
        login: &mine,
        known: &known,
        gate,
    };
    let terms = filter.terms.as_slice();
    let friends = friends.at.as_slice();
    is_passed(packet, &sight, terms, friends) && !is_excluded(packet, &sight, terms, friends)
}
