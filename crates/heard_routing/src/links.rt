//! The links that have a call, in rising order, with a moment of each.
ghost use Rattle.std.specs.Prelude.{◌≡◌, false, IsTrue, ◌&&◌, ◌≤◌, ◌<◌, ◌++◌, ◌∷◌, [], is_some, length, filter, nat_eq, nat_lt, slice_get, IfOk, OnOk, OnErr};
ghost use Rattle.std.specs.List.{list_all};
ghost use Rattle.std.specs.Map.{keys_of, lookup};
ghost use Rattle.filter_eval.specs.Passes.{is_some_and};
ghost use Rattle.heard_routing.specs.Entries.{Rises, is_another, is_below, is_of, with_link};
ghost use Rattle.heard_routing.specs.Heard.{is_recent, is_recent_entry};

use aprs_base::Memory;
use std::alloc::Global;
use std::marker::Model;

/// A link and a moment, in seconds.
pub type Entry = (u32, u64);

/// How many of the links are lower, which is where the link belongs.
fn place_of(entries: &[Entry], link: u32) -> usize
    ensures place { Rises entries.now → result ≡ length (filter (is_below link) entries.now) }
    ensures within { result ≤ length entries.now }
{
    entries.partition_point(|entry| entry.0 < link)
}

fn is_at(entries: &[Entry], place: usize, link: u32) -> bool
    ensures { result ≡ is_some_and (is_of link) (slice_get entries.now place) }
{
    match entries.get(place) {
        Some(entry) => link == entry.0,
        None => false,
    }
}

/// Whether the link is among them.
fn has(entries: &[Entry], link: u32) -> bool
    ensures { Rises entries.now → result ≡ is_some (lookup (nat_eq link) entries.now) }
{
    is_at(entries, place_of(entries, link), link)
}

/// Sets the moment of the link where it is among them. Says whether it is.
fn touch(entries: &mut Vec<Entry>, link: u32, moment: u64) -> bool
    ensures there { Rises entries.old.items → result ≡ is_some (lookup (nat_eq link) entries.old.items) }
    ensures set { Rises entries.old.items → IsTrue result → entries.new.items ≡ with_link link moment entries.old.items }
    ensures same { result ≡ false → entries.new.items ≡ entries.old.items }
{
    let place = place_of(entries.as_slice(), link);
    if is_at(entries.as_slice(), place, link) {
        entries[place] = (link, moment);
        return true;
    }
    false
}

/// Sets the moment of the link. A link that is new goes between those that are lower and those that are higher.
fn set(entries: &mut Vec<Entry>, link: u32, moment: u64) -> Result<(), Memory>
    ensures ok { Rises entries.old.items → OnOk result (entries.new.items ≡ with_link link moment entries.old.items) }
    ensures err { OnErr result (entries.new.items ≡ entries.old.items) }
{
    if !touch(entries, link, moment) {
        let place = place_of(entries.as_slice(), link);
        entries.insert(place, (link, moment))?;
    }
    Ok(())
}

/// Whether the moment is at most `age` before `now`; all in seconds.
fn is_recent(moment: u64, now: u64, age: u64) -> bool
    ensures { result ≡ is_recent age now moment }
{
    now.saturating_sub(moment) <= age
}

fn recent_links(alloc: Global, entries: &[Entry], now: u64, age: u64) -> Result<Vec<u32>, Memory>
    ensures { IfOk result (λ links. links.items ≡ keys_of (filter (is_recent_entry age now) entries.now)) }
{
    let links = entries
        .iter()
        .filter(|entry| is_recent(entry.1, now, age))
        .map(|entry| entry.0)
        .collect(alloc)?;
    Ok(links)
}

fn are_recent(entries: &[Entry], now: u64, age: u64) -> bool
    ensures { result ≡ list_all (is_recent_entry age now) entries.now }
{
    entries.iter().all(|entry| is_recent(entry.1, now, age))
}

fn keep_recent(entries: &mut Vec<Entry>, now: u64, age: u64)
    ensures { entries.new.items ≡ filter (is_recent_entry age now) entries.old.items }
{
    entries.retain(|entry| is_recent(entry.1, now, age));
}

fn remove(entries: &mut Vec<Entry>, link: u32)
    ensures { entries.new.items ≡ filter (is_another link) entries.old.items }
{
    entries.retain(|entry| link != entry.0);
}

/// The links that have a call, rising, with a moment of each.
#[derive(Drop)]
pub struct Links {
    entries: Vec<Entry>,
}

impl Model for Links {
    ghost use Rattle.std.specs.Prelude.{List};
    ghost use Rattle.heard_routing.specs.Entries.{Entry, Rises};

    ghost Value = { List Entry };

    ghost view = { λ links. links.entries.items };

    ghost invariant = { λ links. Rises links.entries.items };
}

impl Links {
    /// One link.
    pub fn one(alloc: Global, link: u32, moment: u64) -> Result<Links, Memory>
        ensures { IfOk result (λ links. links ≡ (link, moment) ∷ []) }
    {
        let mut entries = Vec::new(alloc);
        entries.push((link, moment))?;
        Ok(Links { entries })
    }

    /// Whether the link is among them.
    pub fn has(&self, link: u32) -> bool
        ensures { result ≡ is_some (lookup (nat_eq link) self.now) }
    {
        has(self.entries.as_slice(), link)
    }

    /// The links with their moments.
    pub fn as_slice(&self) -> &[Entry]
        ensures { result.now ≡ self.now }
    {
        self.entries.as_slice()
    }

    /// Sets the moment of the link where it is among them. Says whether it is.
    pub fn touch(&mut self, link: u32, moment: u64) -> bool
        ensures there { result ≡ is_some (lookup (nat_eq link) self.old) }
        ensures set { IsTrue result → self.new ≡ with_link link moment self.old }
        ensures same { result ≡ false → self.new ≡ self.old }
    {
        touch(&mut self.entries, link, moment)
    }

    /// Sets the moment of the link, which may be new.
    pub fn set(&mut self, link: u32, moment: u64) -> Result<(), Memory>
        ensures ok { OnOk result (self.new ≡ with_link link moment self.old) }
        ensures err { OnErr result (self.new ≡ self.old) }
    {
        set(&mut self.entries, link, moment)
    }

    /// Whether there is a link, and each is at most `age` old at `now`; both in seconds.
    pub fn are_recent(&self, now: u64, age: u64) -> bool
        ensures { result ≡ (nat_lt 0 (length self.now) && list_all (is_recent_entry age now) self.now) }
    {
        !self.entries.is_empty() && are_recent(self.entries.as_slice(), now, age)
    }

    /// Removes the link.
    pub fn remove(&mut self, link: u32)
        ensures { self.new ≡ filter (is_another link) self.old }
    {
        remove(&mut self.entries, link);
    }

    /// Removes all links.
    pub fn clear(&mut self)
        ensures { self.new ≡ [] }
    {
        self.entries.clear();
    }

    /// Keeps what is at most `age` old at `now`; both in seconds. Says whether a link is left.
    pub fn keep_recent(&mut self, now: u64, age: u64) -> bool
        ensures kept { self.new ≡ filter (is_recent_entry age now) self.old }
        ensures left { result ≡ nat_lt 0 (length self.new) }
    {
        keep_recent(&mut self.entries, now, age);
        !self.entries.is_empty()
    }

    /// Appends to `out` the links whose moments are at most `age` before `now`; both in seconds.
    pub fn append_recent(
        &self,
        alloc: Global,
        now: u64,
        age: u64,
        out: &mut Vec<u32>,
    ) -> Result<(), Memory>
        ensures ok { OnOk result (out.new.items ≡ out.old.items ++ keys_of (filter (is_recent_entry age now) self.now)) }
        ensures err { OnErr result (out.new.items ≡ out.old.items) }
    {
        let mut links = recent_links(alloc, self.entries.as_slice(), now, age)?;
        out.append(&mut links)?;
        Ok(())
    }
}
