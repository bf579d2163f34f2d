//! For each link the calls that it has.
ghost use Rattle.std.specs.Prelude.{◌≡◌, ℕ, List, ◌&&◌, not, filter, length, nat_lt, ◌∷◌, [], IfOk, OnOk, OnErr};
ghost use Rattle.std.specs.List.{list_any};
ghost use Rattle.indexmap.specs.IndexMap.{hasher_of};
ghost use Rattle.indexmap.specs.IndexSet.{insert_key};
ghost use Rattle.filter_eval.specs.Passes.{is_text};
ghost use Rattle.heard_routing.specs.Listed.{Unlists, UnlistsEach, has_call, still_listed, with_listing};

use crate::links::Entry;
use crate::table::{Table, has};
use aprs_base::{Call, Memory, copy_call};
use indexmap::{IndexMap, IndexSet};
use std::alloc::Global;
use std::hash::RandomState;
use std::marker::Model;

/// Calls, each once.
#[derive(Drop)]
pub struct Calls {
    calls: IndexSet<Call, RandomState>,
}

impl Model for Calls {
    ghost use Rattle.std.specs.Prelude.{ℕ, List};

    ghost Value = { List (List ℕ) };

    ghost view = { λ c. c.calls.keys };
}

/// For each link the calls that it has.
pub type Listed = IndexMap<u32, Calls, RandomState>;

fn keep_had(calls: &mut IndexSet<Call, RandomState>, table: &Table, link: u32)
    ensures { calls.new.keys ≡ filter (has_call table.now.entries link) calls.old.keys }
{
    calls.retain(|call| has(table, link, call));
}

impl Calls {
    fn one(alloc: Global, hasher: &RandomState, call: &Call) -> Result<Calls, Memory>
        ensures { IfOk result (λ calls. calls ≡ call.now ∷ []) }
    {
        let mut calls = IndexSet::with_hasher(alloc, *hasher);
        calls.insert(copy_call(call))?;
        Ok(Calls { calls })
    }

    fn insert(&mut self, call: &Call) -> Result<(), Memory>
        ensures ok { OnOk result (self.new ≡ insert_key is_text self.old call.now) }
        ensures err { OnErr result (self.new ≡ self.old) }
    {
        self.calls.insert(copy_call(call))?;
        Ok(())
    }

    fn remove(&mut self, call: &Call)
        ensures { (text : List ℕ) → list_any (is_text text) self.new ≡ (not (is_text call.now text) && list_any (is_text text) self.old) }
    {
        self.calls.swap_remove(call);
    }

    /// Keeps the calls that the link has. Says whether one is left.
    fn keep_had(&mut self, table: &Table, link: u32) -> bool
        ensures kept { self.new ≡ filter (has_call table.now.entries link) self.old }
        ensures left { result ≡ nat_lt 0 (length self.new) }
    {
        keep_had(&mut self.calls, table, link);
        !self.calls.is_empty()
    }

    /// The calls.
    pub fn as_slice(&self) -> &[Call]
        ensures { result.now ≡ self.now }
    {
        self.calls.as_slice()
    }
}

/// Lists the call among those of the link. A new list has the hasher of all.
pub fn list(listed: &mut Listed, alloc: Global, link: u32, call: &Call) -> Result<(), Memory>
    ensures ok { OnOk result (listed.new.entries ≡ with_listing link call.now listed.old.entries) }
    ensures err { OnErr result (listed.new.entries ≡ listed.old.entries) }
    ensures hasher { hasher_of listed.new ≡ hasher_of listed.old }
{
    match listed.get_mut(&link) {
        Some(calls) => calls.insert(call)?,
        None => {
            let calls = Calls::one(alloc, listed.hasher(), call)?;
            listed.insert(link, calls)?;
        }
    }
    Ok(())
}

/// Takes the call from those of the link.
pub fn unlist(listed: &mut Listed, link: u32, call: &Call)
    ensures unlisted { Unlists link call.now listed.old.entries listed.new.entries }
    ensures hasher { hasher_of listed.new ≡ hasher_of listed.old }
{
    if let Some(calls) = listed.get_mut(&link) {
        calls.remove(call);
    }
}

/// Takes the call from those of each of the links.
pub fn unlist_each(listed: &mut Listed, links: &[Entry], call: &Call)
    ensures unlisted { UnlistsEach links.now call.now listed.old.entries listed.new.entries }
    ensures hasher { hasher_of listed.new ≡ hasher_of listed.old }
{
    for entry in links {
        unlist(listed, entry.0, call);
    }
}

/// Keeps the calls that links have.
pub fn keep_listed(listed: &mut Listed, table: &Table)
    ensures kept { listed.new.entries ≡ still_listed table.now.entries listed.old.entries }
    ensures hasher { hasher_of listed.new ≡ hasher_of listed.old }
{
    listed.retain(
        |link: &u32, calls: &mut Calls| -> bool
            ensures { (calls.new ≡ filter (has_call table.entry.now.entries link.now) calls.old) × (result ≡ nat_lt 0 (length calls.new)) }
        { calls.keep_had(table, *link) },
    );
}
