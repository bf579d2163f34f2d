//! The path of a packet, around its construct.
ghost use Rattle.std.specs.Prelude.{◌≡◌, List, option_copied};
ghost use Rattle.std.specs.List.{list_any};
ghost use Rattle.filter_eval.specs.Passes.{before_construct, call_at, entry_of, is_some_and, letter_of, matches_one, matches_via, used_match};
ghost use Rattle.filter_lang.specs.Seen.{NameSeen};
ghost use Rattle.filter_lang.specs.Sets.{has};

use crate::names::matches_one;
use aprs_base::{Parts, Via};
use filter_lang::{Marks, Names};
use tnc2_line::construct;

/// The elements before the construct, or none where there is no construct.
fn before_construct(parts: &Parts) -> &[Via]
    ensures { result.now ≡ before_construct parts.now }
{
    match construct(parts) {
        Some(place) => &parts.vias.as_slice()[..usize::from(place)],
        None => &[],
    }
}

/// The elements up to the last that has `*`.
fn used(vias: &[Via]) -> &[Via]
    ensures { (names : List NameSeen) → list_any (matches_via names) result.now ≡ used_match names vias.now }
{
    let mut rest = vias;
    while let Some((last, front)) = rest.split_last() {
        if last.star {
            break;
        }
        rest = front;
    }
    rest
}

fn matches_any(names: &Names, vias: &[Via]) -> bool
    ensures { result ≡ list_any (matches_via names.now) vias.now }
{
    vias.iter().any(|via| matches_one(names, via.call.bytes()))
}

/// Whether an element before the construct matches that was used.
pub fn matches_used(names: &Names, parts: &Parts) -> bool
    ensures { result ≡ used_match names.now (before_construct parts.now) }
{
    matches_any(names, used(before_construct(parts)))
}

/// The call at a place of the path, counted from 0.
fn call_at(parts: &Parts, place: usize) -> Option<&[u8]>
    ensures { option_copied result ≡ call_at parts.now place }
{
    match parts.vias.get(place) {
        Some(via) => Some(via.call.bytes()),
        None => None,
    }
}

/// Whether the call right after the construct matches.
pub fn matches_entry(names: &Names, parts: &Parts) -> bool
    ensures { result ≡ is_some_and (matches_one names.now) (entry_of parts.now) }
{
    let Some(place) = construct(parts) else {
        return false;
    };
    match call_at(parts, usize::from(place) + 1) {
        Some(call) => matches_one(names, call),
        None => false,
    }
}

/// Whether the construct's letter is one of these.
pub fn has_letter(letters: &Marks, parts: &Parts) -> bool
    ensures { result ≡ is_some_and (has letters.now) (letter_of parts.now) }
{
    let Some(place) = construct(parts) else {
        return false;
    };
    match call_at(parts, usize::from(place)) {
        Some([_, _, letter, ..]) => letters.contains(*letter),
        _ => false,
    }
}
