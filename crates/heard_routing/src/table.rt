//! For each call the links that have it.
ghost use Rattle.std.specs.Prelude.{◌≡◌, false, IsTrue, ◌++◌, ◌∷◌, [], filter, length, nat_lt, OnOk, OnErr};
ghost use Rattle.std.specs.List.{list_all};
ghost use Rattle.indexmap.specs.IndexMap.{hasher_of, insert_entry};
ghost use Rattle.filter_eval.specs.Passes.{is_text};
ghost use Rattle.heard_routing.specs.Entries.{links_of, with_moment};
ghost use Rattle.heard_routing.specs.Heard.{is_recent_entry, is_recent_group, links_with, recent_groups, without_links};
ghost use Rattle.heard_routing.specs.Listed.{has_call, without_each, without_one};

use crate::links::{Entry, Links};
use aprs_base::{Call, Memory, copy_call};
use indexmap::IndexMap;
use std::alloc::Global;
use std::hash::RandomState;

/// For each call the links that have it.
pub type Table = IndexMap<Call, Links, RandomState>;

/// Whether the link has the call.
pub fn has(table: &Table, link: u32, call: &Call) -> bool
    ensures { result ≡ has_call table.now.entries link call.now }
{
    match table.get(call) {
        Some(links) => links.has(link),
        None => false,
    }
}

/// The links that have the call, with their moments.
pub fn links_of<'a>(table: &'a Table, call: &Call) -> &'a [Entry]
    ensures { result.now ≡ links_of call.now table.now.entries }
{
    match table.get(call) {
        Some(links) => links.as_slice(),
        None => &[],
    }
}

/// Adds a call that is new, with one link.
fn start(
    table: &mut Table,
    alloc: Global,
    link: u32,
    call: &Call,
    moment: u64,
) -> Result<(), Memory>
    ensures ok { OnOk result (table.new.entries ≡ insert_entry is_text table.old.entries call.now ((link, moment) ∷ [])) }
    ensures err { OnErr result (table.new.entries ≡ table.old.entries) }
    ensures hasher { hasher_of table.new ≡ hasher_of table.old }
{
    let links = Links::one(alloc, link, moment)?;
    table.insert(copy_call(call), links)?;
    Ok(())
}

/// Sets the moment of the link and the call, where the link has the call. Says whether it has.
pub fn touch(table: &mut Table, link: u32, call: &Call, moment: u64) -> bool
    ensures had { result ≡ has_call table.old.entries link call.now }
    ensures set { IsTrue result → table.new.entries ≡ with_moment link call.now moment table.old.entries }
    ensures same { result ≡ false → table.new.entries ≡ table.old.entries }
    ensures hasher { hasher_of table.new ≡ hasher_of table.old }
{
    match table.get_mut(call) {
        Some(links) => links.touch(link, moment),
        None => false,
    }
}

/// Sets the moment of the link and the call. A call that is new goes last.
pub fn set(
    table: &mut Table,
    alloc: Global,
    link: u32,
    call: &Call,
    moment: u64,
) -> Result<(), Memory>
    ensures ok { OnOk result (table.new.entries ≡ with_moment link call.now moment table.old.entries) }
    ensures err { OnErr result (table.new.entries ≡ table.old.entries) }
    ensures hasher { hasher_of table.new ≡ hasher_of table.old }
{
    match table.get_mut(call) {
        Some(links) => links.set(link, moment),
        None => start(table, alloc, link, call, moment),
    }
}

/// Whether each call has a link, and none from longer than `age` before `now`; both in seconds.
pub fn is_recent(table: &Table, now: u64, age: u64) -> bool
    ensures { result ≡ list_all (is_recent_group age now) table.now.entries }
{
    table.values().all(|links| links.are_recent(now, age))
}

/// Keeps what is at most `age` old at `now`; both in seconds. A call that no link has is dropped.
pub fn keep_recent(table: &mut Table, now: u64, age: u64)
    ensures kept { table.new.entries ≡ recent_groups age now table.old.entries }
    ensures hasher { hasher_of table.new ≡ hasher_of table.old }
{
    table.retain(
        |_call: &Call, links: &mut Links| -> bool
            ensures { (links.new ≡ filter (is_recent_entry age now) links.old) × (result ≡ nat_lt 0 (length links.new)) }
        { links.keep_recent(now, age) },
    );
}

/// Appends to `out` the links that have the call at most `age` before `now`; both in seconds.
pub fn append_recent(
    table: &Table,
    alloc: Global,
    call: &Call,
    now: u64,
    age: u64,
    out: &mut Vec<u32>,
) -> Result<(), Memory>
    ensures ok { OnOk result (out.new.items ≡ out.old.items ++ links_with age call.now now table.now.entries) }
    ensures err { OnErr result (out.new.items ≡ out.old.items) }
{
    match table.get(call) {
        Some(links) => links.append_recent(alloc, now, age, out),
        None => Ok(()),
    }
}

/// Removes all links of the call.
pub fn clear(table: &mut Table, call: &Call)
    ensures cleared { table.new.entries ≡ without_links call.now table.old.entries }
    ensures hasher { hasher_of table.new ≡ hasher_of table.old }
{
    if let Some(links) = table.get_mut(call) {
        links.clear();
    }
}

/// Removes the link of the call.
fn remove_one(table: &mut Table, link: u32, call: &Call)
    ensures removed { table.new.entries ≡ without_one link call.now table.old.entries }
    ensures hasher { hasher_of table.new ≡ hasher_of table.old }
{
    if let Some(links) = table.get_mut(call) {
        links.remove(link);
    }
}

/// Removes the link of each of the calls.
pub fn remove_each(table: &mut Table, link: u32, calls: &[Call])
    ensures removed { table.new.entries ≡ without_each link calls.now table.old.entries }
    ensures hasher { hasher_of table.new ≡ hasher_of table.old }
{
    for call in calls {
        remove_one(table, link, call);
    }
}
