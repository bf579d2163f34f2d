//! What each kind of term asks, read from its fields.
ghost use Rattle.std.specs.Prelude.{◌≡◌, ◌≤◌, ℕ, List, IsTrue, IfSome, IfOk, option_map, option_copied};
ghost use Rattle.filter_lang.specs.Parts.{fields_of};
ghost use Rattle.filter_lang.specs.Terms.{is_in_range};
ghost use Rattle.filter_lang.specs.Grammar.{area_of, call_of, class_of, construct_if, construct_of, friend_of, is_gates, mine_of, named_of, near_of, other_of, range_of, symbol_if, symbol_of};

use crate::names::{names, without_stars};
use crate::numbers::{degrees, kilometres};
use crate::parts::{cut, four, one, three, two};
use crate::sets::{all_letters, letters, mask, symbols};
use crate::terms::What;
use aprs_base::Call;
use std::alloc::{AllocError, Global};

const LATITUDES: u32 = 90_000_000;

const LONGITUDES: u32 = 180_000_000;

/// `r/lat/lon/km`.
#[tactic(auto, unfolding(crate::specs::Grammar::range_of))]
fn range(fields: &[u8]) -> Option<What>
    ensures value { result ≡ range_of (fields_of fields.now) }
    ensures ranges { IfSome result (λ w. IsTrue (is_in_range w)) }
{
    let (lat, lon, km) = three(fields)?;
    let lat = degrees(LATITUDES, lat)?;
    let lon = degrees(LONGITUDES, lon)?;
    let km = kilometres(km)?;
    Some(What::Range { lat, lon, km })
}

/// `a/latN/lonW/latS/lonE`.
#[tactic(auto, unfolding(crate::specs::Grammar::area_of))]
fn area(fields: &[u8]) -> Option<What>
    ensures value { result ≡ area_of (fields_of fields.now) }
    ensures ranges { IfSome result (λ w. IsTrue (is_in_range w)) }
{
    let (north, west, south, east) = four(fields)?;
    let north = degrees(LATITUDES, north)?;
    let west = degrees(LONGITUDES, west)?;
    let south = degrees(LATITUDES, south)?;
    let east = degrees(LONGITUDES, east)?;
    Some(What::Area {
        north,
        west,
        south,
        east,
    })
}

fn call(field: &[u8]) -> Option<Call>
    ensures { result ≡ call_of field.now }
{
    Call::read(field)
}

/// `call/km`.
#[tactic(auto, unfolding(crate::specs::Grammar::near_of))]
fn near(fields: &[u8]) -> Option<(Call, u32)>
    ensures value { result ≡ near_of (fields_of fields.now) }
    ensures ranges { IfSome result (λ x. x.1 ≤ 99999) }
{
    let (name, km) = two(fields)?;
    let call = call(name)?;
    let km = kilometres(km)?;
    Some((call, km))
}

/// `f/call/km`.
#[tactic(auto, unfolding(crate::specs::Grammar::friend_of))]
fn friend(fields: &[u8]) -> Option<What>
    ensures value { result ≡ friend_of (fields_of fields.now) }
    ensures ranges { IfSome result (λ w. IsTrue (is_in_range w)) }
{
    let (call, km) = near(fields)?;
    Some(What::Friend { call, km })
}

/// `m/km`.
#[tactic(auto, unfolding(crate::specs::Grammar::mine_of))]
fn mine(fields: &[u8]) -> Option<What>
    ensures value { result ≡ mine_of (fields_of fields.now) }
    ensures ranges { IfSome result (λ w. IsTrue (is_in_range w)) }
{
    let km = kilometres(one(fields)?)?;
    Some(What::Mine { km })
}

/// `t/letters` and `t/letters/call/km`.
#[tactic(auto, unfolding(crate::specs::Grammar::class_of))]
fn class(fields: &[u8]) -> Option<What>
    ensures value { result ≡ class_of (fields_of fields.now) }
    ensures ranges { IfSome result (λ w. IsTrue (is_in_range w)) }
{
    let (letters, rest) = cut(fields);
    let mask = mask(letters)?;
    let Some(rest) = rest else {
        return Some(What::Class { mask });
    };
    let (call, km) = near(rest)?;
    Some(What::ClassNear { mask, call, km })
}

/// Three sets of a symbol, of which not all are empty.
#[tactic(auto, unfolding(crate::specs::Grammar::symbol_if))]
fn symbol_sets(pri: &[u8], alt: &[u8], over: &[u8]) -> Option<What>
    ensures value { result ≡ symbol_if pri.now alt.now over.now }
    ensures ranges { IfSome result (λ w. IsTrue (is_in_range w)) }
{
    if pri.is_empty() && alt.is_empty() && over.is_empty() {
        return None;
    }
    let pri = symbols(pri)?;
    let alt = symbols(alt)?;
    let over = symbols(over)?;
    Some(What::Symbol { pri, alt, over })
}

/// `s/pri/alt/over`, of which the last fields may be missing.
#[tactic(auto, unfolding(crate::specs::Grammar::symbol_of))]
fn symbol(fields: &[u8]) -> Option<What>
    ensures value { result ≡ symbol_of (fields_of fields.now) }
    ensures ranges { IfSome result (λ w. IsTrue (is_in_range w)) }
{
    let (pri, rest) = cut(fields);
    let Some(rest) = rest else {
        return symbol_sets(pri, &[], &[]);
    };
    let (alt, rest) = cut(rest);
    let Some(rest) = rest else {
        return symbol_sets(pri, alt, &[]);
    };
    symbol_sets(pri, alt, one(rest)?)
}

/// Construct letters, of which some are wanted but for gates.
#[tactic(auto, unfolding(crate::specs::Grammar::construct_if))]
fn construct_sets(field: &[u8], gates: bool) -> Option<What>
    ensures value { result ≡ construct_if field.now gates }
    ensures ranges { IfSome result (λ w. IsTrue (is_in_range w)) }
{
    if !all_letters(field) || (field.is_empty() && !gates) {
        return None;
    }
    Some(What::Construct {
        letters: letters(field),
        gates,
    })
}

fn is_gates_field(field: &[u8]) -> bool
    ensures { result ≡ is_gates field.now }
{
    matches!(field, [b'I'])
}

/// `q/letters` and `q/letters/I`.
#[tactic(auto, unfolding(crate::specs::Grammar::construct_of))]
fn construct(fields: &[u8]) -> Option<What>
    ensures value { result ≡ construct_of (fields_of fields.now) }
    ensures ranges { IfSome result (λ w. IsTrue (is_in_range w)) }
{
    let (letters, rest) = cut(fields);
    let Some(rest) = rest else {
        return construct_sets(letters, false);
    };
    if !is_gates_field(one(rest)?) {
        return None;
    }
    construct_sets(letters, true)
}

/// The terms of names.
#[tactic(auto, unfolding(crate::specs::Grammar::named_of))]
fn named(alloc: Global, letter: u8, fields: &[u8]) -> Result<Option<What>, AllocError>
    ensures value { IfOk result (λ w. w ≡ named_of letter (fields_of fields.now)) }
    ensures ranges { IfOk result (λ o. IfSome o (λ w. IsTrue (is_in_range w))) }
{
    let Some(names) = names(alloc, fields)? else {
        return Ok(None);
    };
    Ok(match letter {
        b'p' => Some(What::Prefix(without_stars(names))),
        b'b' => Some(What::Buddy(names)),
        b'o' => Some(What::Object(names)),
        b'd' => Some(What::Digi(names)),
        b'e' => Some(What::Entry(names)),
        b'g' => Some(What::Group(names)),
        b'u' => Some(What::Dest(names)),
        _ => None,
    })
}

/// What a term of this lower-case letter asks.
#[tactic(auto, unfolding(crate::specs::Grammar::other_of))]
pub fn kind(alloc: Global, letter: u8, fields: &[u8]) -> Result<Option<What>, AllocError>
    ensures value { IfOk result (λ w. w ≡ other_of letter (fields_of fields.now)) }
    ensures ranges { IfOk result (λ o. IfSome o (λ w. IsTrue (is_in_range w))) }
{
    match letter {
        b'r' => Ok(range(fields)),
        b'a' => Ok(area(fields)),
        b'f' => Ok(friend(fields)),
        b'm' => Ok(mine(fields)),
        b't' => Ok(class(fields)),
        b's' => Ok(symbol(fields)),
        b'q' => Ok(construct(fields)),
        _ => named(alloc, letter, fields),
    }
}
