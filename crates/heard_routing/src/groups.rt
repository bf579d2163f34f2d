//! Calls with the links that have them, found by the call and by the link.
ghost use Rattle.std.specs.Prelude.{◌≡◌, ◌++◌, length, nat_lt, OnOk, OnErr};
ghost use Rattle.indexmap.specs.IndexMap.{hasher_of};
ghost use Rattle.heard_routing.specs.Entries.{HasEachOnce, is_another, links_of, no_groups, with_moment};
ghost use Rattle.heard_routing.specs.Heard.{IsRisingListOf, has_recent, kept_links, links_with, recent_groups, without_links};
ghost use Rattle.heard_routing.specs.Listed.{ListsAll, ListsExactly};

use crate::listed::{Listed, keep_listed, list, unlist, unlist_each};
use crate::table;
use crate::table::{Table, append_recent, is_recent, keep_recent, links_of, remove_each, touch};
use aprs_base::{Call, Memory};
use indexmap::IndexMap;
use std::alloc::Global;
use std::hash::RandomState;
use std::marker::Model;

/// Sets the moment of the link and the call, which is listed with it. A call that is new goes last.
fn set(
    table: &mut Table,
    listed: &mut Listed,
    alloc: Global,
    link: u32,
    call: &Call,
    moment: u64,
) -> Result<(), Memory>
    ensures ok { OnOk result (table.new.entries ≡ with_moment link call.now moment table.old.entries) }
    ensures err { OnErr result (table.new.entries ≡ table.old.entries) }
    ensures lists { ListsExactly listed.old.entries table.old.entries → ListsExactly listed.new.entries table.new.entries }
    ensures hashers { (hasher_of table.new ≡ hasher_of table.old) × (hasher_of listed.new ≡ hasher_of listed.old) }
{
    if touch(table, link, call, moment) {
        return Ok(());
    }
    list(listed, alloc, link, call)?;
    match table::set(table, alloc, link, call, moment) {
        Ok(()) => Ok(()),
        Err(error) => {
            unlist(listed, link, call);
            Err(error)
        }
    }
}

/// Removes all links of the call.
fn clear(table: &mut Table, listed: &mut Listed, call: &Call)
    ensures cleared { table.new.entries ≡ without_links call.now table.old.entries }
    ensures lists { ListsExactly listed.old.entries table.old.entries → ListsExactly listed.new.entries table.new.entries }
    ensures hashers { (hasher_of table.new ≡ hasher_of table.old) × (hasher_of listed.new ≡ hasher_of listed.old) }
{
    unlist_each(listed, links_of(table, call), call);
    table::clear(table, call);
}

/// Removes the link of all calls, which are listed.
fn forget(table: &mut Table, listed: &mut Listed, link: u32)
    ensures kept { HasEachOnce table.old.entries → ListsAll listed.old.entries table.old.entries → table.new.entries ≡ kept_links (is_another link) table.old.entries }
    ensures lists { HasEachOnce table.old.entries → ListsExactly listed.old.entries table.old.entries → ListsExactly listed.new.entries table.new.entries }
    ensures hashers { (hasher_of table.new ≡ hasher_of table.old) × (hasher_of listed.new ≡ hasher_of listed.old) }
{
    if let Some(calls) = listed.swap_remove(&link) {
        remove_each(table, link, calls.as_slice());
    }
}

/// Keeps what is at most `age` old at `now`; both in seconds. Where nothing goes, the lists need no walk.
fn expire(table: &mut Table, listed: &mut Listed, now: u64, age: u64)
    ensures kept { table.new.entries ≡ recent_groups age now table.old.entries }
    ensures lists { HasEachOnce table.old.entries → ListsExactly listed.old.entries table.old.entries → ListsExactly listed.new.entries table.new.entries }
    ensures hashers { (hasher_of table.new ≡ hasher_of table.old) × (hasher_of listed.new ≡ hasher_of listed.old) }
{
    if is_recent(table, now, age) {
        return;
    }
    keep_recent(table, now, age);
    keep_listed(listed, table);
}

/// Calls with the links that have them, found by the call and by the link.
#[derive(Drop)]
pub struct Groups {
    by_call: Table,
    by_link: Listed,
}

impl Model for Groups {
    ghost use Rattle.std.specs.Prelude.{◌≡◌};
    ghost use Rattle.indexmap.specs.IndexMap.{hasher_of};
    ghost use Rattle.heard_routing.specs.Entries.{GroupsSeen, HasEachOnce};
    ghost use Rattle.heard_routing.specs.Listed.{ListsExactly};

    ghost Value = { GroupsSeen };

    ghost view = { λ g. record { groups = g.by_call.entries; hasher = hasher_of g.by_call } };

    ghost invariant = { λ g. HasEachOnce g.by_call.entries × ListsExactly g.by_link.entries g.by_call.entries × (hasher_of g.by_link ≡ hasher_of g.by_call) };
}

impl Groups {
    /// No call is there. Each map has a copy of the hasher.
    pub fn new(alloc: Global, hasher: &RandomState) -> Groups
        ensures { result ≡ no_groups hasher.now }
    {
        Groups {
            by_call: IndexMap::with_hasher(alloc, *hasher),
            by_link: IndexMap::with_hasher(alloc, *hasher),
        }
    }

    /// Sets the moment of the link and the call. A call that is new goes last.
    pub fn set(&mut self, alloc: Global, link: u32, call: &Call, moment: u64) -> Result<(), Memory>
        ensures ok { OnOk result (self.new ≡ record self.old { groups = with_moment link call.now moment self.old.groups }) }
        ensures err { OnErr result (self.new ≡ self.old) }
    {
        set(
            &mut self.by_call,
            &mut self.by_link,
            alloc,
            link,
            call,
            moment,
        )
    }

    /// Whether any link has the call.
    pub fn has_links(&self, call: &Call) -> bool
        ensures { result ≡ nat_lt 0 (length (links_of call.now self.now.groups)) }
    {
        !links_of(&self.by_call, call).is_empty()
    }

    /// Appends to `out` the links that have the call at most `age` before `now`, rising; both in seconds.
    pub fn append_recent(
        &self,
        alloc: Global,
        call: &Call,
        now: u64,
        age: u64,
        out: &mut Vec<u32>,
    ) -> Result<(), Memory>
        ensures ok { OnOk result (out.new.items ≡ out.old.items ++ links_with age call.now now self.now.groups) }
        ensures links { IsRisingListOf (links_with age call.now now self.now.groups) (has_recent age now self.now.groups call.now) }
        ensures err { OnErr result (out.new.items ≡ out.old.items) }
    {
        append_recent(&self.by_call, alloc, call, now, age, out)
    }

    /// Removes all links of the call.
    pub fn clear(&mut self, call: &Call)
        ensures { self.new ≡ record self.old { groups = without_links call.now self.old.groups } }
    {
        clear(&mut self.by_call, &mut self.by_link, call);
    }

    /// Removes the link of all calls.
    pub fn forget(&mut self, link: u32)
        ensures { self.new ≡ record self.old { groups = kept_links (is_another link) self.old.groups } }
    {
        forget(&mut self.by_call, &mut self.by_link, link);
    }

    /// Keeps what is at most `age` old at `now`; both in seconds.
    pub fn expire(&mut self, now: u64, age: u64)
        ensures kept { self.new ≡ record self.old { groups = recent_groups age now self.old.groups } }
        ensures once { HasEachOnce self.old.groups }
    {
        expire(&mut self.by_call, &mut self.by_link, now, age);
    }
}
