//! How many verified links have logged in with each call.
ghost use Rattle.std.specs.Prelude.{◌≡◌, ◌∷◌, ◌+◌, ◌^◌, ◌<◌, ℕ, [], List, OnErr, OnOk, Some, filter};
ghost use Rattle.std.specs.Map.{lookup};
ghost use Rattle.q_construct.specs.Rule.{same};
ghost use Rattle.served_links.specs.Counts.{IsCounted, count_in, having, leaves, one_among};
ghost use Rattle.served_links.specs.Links.{list_of};

use crate::link::LinkSession;
use aprs_base::{Call, Memory, copy_call};
use indexmap::IndexMap;
use std::hash::RandomState;

/// How many verified links have logged in with each call. A call that none has isn't there.
pub(crate) type Counts = IndexMap<Call, usize, RandomState>;

/// How many have logged in with the call.
pub(crate) fn count_of(counts: &Counts, call: &Call) -> usize
    ensures { result ≡ count_in call.now counts.now.entries }
{
    match counts.get(call) {
        Some(count) => *count,
        None => 0,
    }
}

/// One more has logged in with the call. `Memory` changes nothing.
fn raise_call(counts: &mut Counts, call: &Call) -> Result<(), Memory>
    requires { (n : ℕ) → lookup (same call.now) counts.old.entries ≡ Some n → n + 1 < 2 ^ 64 }
    ensures ok { OnOk result ((other : List ℕ) (n : ℕ) → IsCounted other n counts.old.entries → IsCounted other (n + one_among other (call.now ∷ [])) counts.new.entries) }
    ensures err { OnErr result (counts.new.entries ≡ counts.old.entries) }
{
    match counts.get_mut(call) {
        Some(count) => *count += 1,
        None => {
            counts.insert(copy_call(call), 1)?;
        }
    }
    Ok(())
}

/// One that had logged in with the call has no more.
fn lower_call(counts: &mut Counts, call: &Call)
    ensures { (other : List ℕ) (n : ℕ) → IsCounted other (n + one_among other (call.now ∷ [])) counts.old.entries → IsCounted other n counts.new.entries }
{
    if count_of(counts, call) < 2 {
        counts.swap_remove(call);
    } else if let Some(count) = counts.get_mut(call) {
        *count -= 1;
    }
}

/// A link has this login, where it is one. `Memory` changes nothing.
pub(crate) fn raise(counts: &mut Counts, login: Option<Call>) -> Result<(), Memory>
    requires { (call : List ℕ) (n : ℕ) → lookup (same call) counts.old.entries ≡ Some n → n + 1 < 2 ^ 64 }
    ensures ok { OnOk result ((other : List ℕ) (n : ℕ) → IsCounted other n counts.old.entries → IsCounted other (n + one_among other (list_of login)) counts.new.entries) }
    ensures err { OnErr result (counts.new.entries ≡ counts.old.entries) }
{
    match login {
        Some(call) => raise_call(counts, &call),
        None => Ok(()),
    }
}

/// A link that had this login, where it is one, has it no more.
pub(crate) fn lower(counts: &mut Counts, login: Option<Call>)
    ensures { (other : List ℕ) (n : ℕ) → IsCounted other (n + one_among other (list_of login)) counts.old.entries → IsCounted other n counts.new.entries }
{
    match login {
        Some(call) => lower_call(counts, &call),
        None => {}
    }
}

/// The links of these numbers count no more.
pub(crate) fn lower_these(counts: &mut Counts, links: &[LinkSession], numbers: &[u32])
    ensures { (other : List ℕ) (n : ℕ) → IsCounted other (n + having other (filter (leaves numbers.now) links.now)) counts.old.entries → IsCounted other n counts.new.entries }
{
    for link in links {
        if !link.is_none_of(numbers) {
            lower(counts, link.verified_call());
        }
    }
}
