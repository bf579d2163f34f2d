//! The window in which a packet is told from its copies.
ghost use Rattle.std.specs.Prelude.{ℕ, List, ◌≡◌, ◌≤◌, ◌*◌, None, IfOk, OnOk, OnErr, ◌++◌, ◌∷◌, [], filter, IsTrue};
ghost use Rattle.std.specs.List.{list_all, list_any};
ghost use Rattle.std.specs.Map.{lookup};
ghost use Rattle.dupe_window.specs.Digests.{IsDigestedBy};
ghost use Rattle.dupe_window.specs.Keys.{Key, is_same_key};
ghost use Rattle.dupe_window.specs.Windows.{AreInside, IsInOrder, IsOnce, IsUpTo, empty_window, expired, if_inside, is_inside, is_inside_pair, is_up_to, kept_at, kept_pairs, seen_at, with_new};

use crate::keys::{Digested, Key};
use crate::pairs::{Pairs, is_inside};
use aprs_base::Memory;
use std::alloc::Global;
use std::hash::RandomState;
use std::marker::Model;
use std::mem::swap;

/// Packets by their keys, and when they came. They are in two maps, so that none is moved as time goes by: those of late, and
/// older ones. Of the older ones those count that are inside the window at `last`, the latest moment at which any were forgotten.
#[derive(Drop)]
pub struct Window {
    older: Pairs,
    late: Pairs,
    seconds: u32,
    last: u64,
}

impl Model for Window {
    ghost use Rattle.std.specs.Prelude.{◌≡◌, ◌*◌, IsTrue};
    ghost use Rattle.std.specs.List.{list_all};
    ghost use Rattle.dupe_window.specs.Windows.{IsInOrder, IsOnce, WindowSeen, is_inside_pair, kept_pairs};

    ghost Value = { WindowSeen };

    ghost view = { λ w. record { pairs = kept_pairs w.seconds w.last w.older.pairs w.late.pairs; seconds = w.seconds } };

    ghost invariant = { λ w. IsInOrder w.older.pairs × IsInOrder w.late.pairs × IsTrue (list_all (is_inside_pair (2 * w.seconds) w.last) w.older.pairs) × IsOnce (kept_pairs w.seconds w.last w.older.pairs w.late.pairs) × (w.older.hasher ≡ w.late.hasher) };
}

/// The moment, where it is inside the window.
fn if_inside(seconds: u32, now: u64, kept: Option<u64>) -> Option<u64>
    ensures { result ≡ if_inside seconds now kept }
{
    kept.filter(|moment| is_inside(u64::from(seconds), now, *moment))
}

/// The moment that is kept with a key, in a packet of late or in an older one that counts. No key is in both, and most copies come soon.
fn kept_at(older: &Pairs, late: &Pairs, seconds: u32, last: u64, key: &Digested) -> Option<u64>
    requires order { IsInOrder older.now.pairs }
    requires once { IsOnce (kept_pairs seconds last older.now.pairs late.now.pairs) }
    requires older { IsDigestedBy older.now.hasher key.now }
    requires late { IsDigestedBy late.now.hasher key.now }
    ensures { result ≡ lookup (is_same_key key.now.key) (kept_pairs seconds last older.now.pairs late.now.pairs) }
{
    match late.moment_of(key) {
        Some(moment) => Some(moment),
        None => if_inside(seconds, last, older.moment_of(key)),
    }
}

/// Keeps a key that is new with the moment at which it came.
fn put(pairs: &mut Pairs, key: &Digested, now: u64) -> Result<(), Memory>
    requires digested { IsDigestedBy pairs.old.hasher key.now }
    requires new { lookup (is_same_key key.now.key) pairs.old.pairs ≡ None }
    requires later { IsTrue (list_all (is_up_to now) pairs.old.pairs) }
    requires order { IsInOrder pairs.old.pairs }
    ensures ok { OnOk result (pairs.new ≡ record pairs.old { pairs = pairs.old.pairs ++ (key.now.key, now) ∷ [] }) }
    ensures err { OnErr result (pairs.new ≡ pairs.old) }
    ensures order { IsInOrder pairs.new.pairs }
    ensures once { (before : List (Key × ℕ)) → IsOnce (before ++ pairs.old.pairs) → lookup (is_same_key key.now.key) (before ++ pairs.old.pairs) ≡ None → IsOnce (before ++ pairs.new.pairs) }
{
    pairs.push(key, now)?;
    Ok(())
}

/// Whether all are inside the window. As the moments rise, the first tells it.
fn all_inside(pairs: &Pairs, seconds: u64, now: u64) -> bool
    requires order { IsInOrder pairs.now.pairs }
    ensures { result ≡ list_all (is_inside_pair seconds now) pairs.now.pairs }
{
    match pairs.first() {
        Some(moment) => is_inside(seconds, now, moment),
        None => true,
    }
}

/// Whether any is inside the window. As the moments rise, the last tells it.
fn any_inside(pairs: &Pairs, seconds: u64, now: u64) -> bool
    requires order { IsInOrder pairs.now.pairs }
    ensures { result ≡ list_any (is_inside_pair seconds now) pairs.now.pairs }
{
    match pairs.last() {
        Some(moment) => is_inside(seconds, now, moment),
        None => false,
    }
}

/// Keeps only what is inside the window.
fn keep_inside(pairs: &mut Pairs, seconds: u32, now: u64)
    requires order { IsInOrder pairs.old.pairs }
    ensures kept { pairs.new ≡ record pairs.old { pairs = filter (is_inside_pair seconds now) pairs.old.pairs } }
    ensures order { IsInOrder pairs.new.pairs }
{
    pairs.keep_inside(seconds, now);
}

/// Lets go of what is no more inside the window, once some are past twice its seconds.
fn drop_old(pairs: &mut Pairs, seconds: u32, now: u64)
    requires order { IsInOrder pairs.old.pairs }
    ensures kept { filter (is_inside_pair seconds now) pairs.new.pairs ≡ filter (is_inside_pair seconds now) pairs.old.pairs }
    ensures inside { IsTrue (list_all (is_inside_pair (2 * seconds) now) pairs.new.pairs) }
    ensures order { IsInOrder pairs.new.pairs }
    ensures hasher { pairs.new.hasher ≡ pairs.old.hasher }
{
    if !all_inside(pairs, 2 * u64::from(seconds), now) {
        keep_inside(pairs, seconds, now);
    }
}

/// Makes older packets of those of late.
fn turn(older: &mut Pairs, late: &mut Pairs)
    requires order { IsInOrder late.old.pairs }
    ensures older { older.new ≡ late.old }
    ensures late { late.new ≡ record older.old { pairs = [] } }
    ensures order { IsInOrder late.new.pairs }
{
    older.clear();
    swap(older, late);
}

/// Forgets what came of late and is no more inside the window. Where no older packet counts any more, those of late take their place
/// as they are; only where moments went back they are gone through.
fn forget_late(older: &mut Pairs, late: &mut Pairs, seconds: u32, last: u64, now: u64)
    requires reached { now ≤ last }
    requires older { IsInOrder older.old.pairs }
    requires late { IsInOrder late.old.pairs }
    requires hasher { older.old.hasher ≡ late.old.hasher }
    ensures kept { kept_pairs seconds last older.new.pairs late.new.pairs ≡ kept_pairs seconds last older.old.pairs (filter (is_inside_pair seconds now) late.old.pairs) }
    ensures older { IsInOrder older.new.pairs }
    ensures late { IsInOrder late.new.pairs }
    ensures hasher { older.new.hasher ≡ late.new.hasher }
{
    if all_inside(late, u64::from(seconds), now) {
        return;
    }
    if last == now && !any_inside(older, u64::from(seconds), now) {
        turn(older, late);
    } else {
        keep_inside(late, seconds, now);
    }
}

/// Forgets what is no more inside the window at `now`, where `last` is the latest moment at which any were forgotten.
fn forget(older: &mut Pairs, late: &mut Pairs, seconds: u32, last: u64, now: u64)
    requires reached { now ≤ last }
    requires older { IsInOrder older.old.pairs }
    requires late { IsInOrder late.old.pairs }
    requires hasher { older.old.hasher ≡ late.old.hasher }
    ensures kept { kept_pairs seconds last older.new.pairs late.new.pairs ≡ kept_pairs seconds last older.old.pairs (filter (is_inside_pair seconds now) late.old.pairs) }
    ensures inside { IsTrue (list_all (is_inside_pair (2 * seconds) last) older.new.pairs) }
    ensures older { IsInOrder older.new.pairs }
    ensures late { IsInOrder late.new.pairs }
    ensures hasher { older.new.hasher ≡ late.new.hasher }
{
    forget_late(older, late, seconds, last, now);
    drop_old(older, seconds, last);
}

impl Window {
    /// A window that lasts so many seconds, with no packet in it.
    pub fn new(alloc: Global, hasher: RandomState, seconds: u32) -> Window
        ensures { result ≡ empty_window seconds }
    {
        Window {
            older: Pairs::new(alloc, hasher),
            late: Pairs::new(alloc, hasher),
            seconds,
            last: 0,
        }
    }

    /// When the packet came, where that is less than the window's seconds ago.
    pub fn seen(&self, key: &Key, now: u64) -> Option<u64>
        ensures { result ≡ seen_at now key.now self.now }
    {
        let key = self.late.digested(key);
        let kept = kept_at(&self.older, &self.late, self.seconds, self.last, &key);
        if_inside(self.seconds, now, kept)
    }

    /// Keeps a packet that is new with the moment at which it came. Of a copy it says when the packet came that is kept. For want of
    /// memory nothing changes.
    pub fn note(&mut self, key: &Key, now: u64) -> Result<Option<u64>, Memory>
        requires inside { AreInside now self.old }
        requires later { IsUpTo now self.old }
        ensures seen { IfOk result (λ seen. seen ≡ seen_at now key.now self.old) }
        ensures ok { OnOk result (self.new ≡ with_new key.now now self.old) }
        ensures err { OnErr result (self.new ≡ self.old) }
    {
        let key = self.late.digested(key);
        let kept = kept_at(&self.older, &self.late, self.seconds, self.last, &key);
        if kept.is_none() {
            put(&mut self.late, &key, now)?;
        }
        Ok(kept)
    }

    /// Forgets what is no more inside the window.
    pub fn expire(&mut self, now: u64)
        ensures { self.new ≡ expired now self.old }
    {
        let last = self.last.max(now);
        forget(&mut self.older, &mut self.late, self.seconds, last, now);
        self.last = last;
    }
}
