//! Keys with their moments, in the order in which they came.
ghost use Rattle.std.specs.Prelude.{◌≡◌, ◌-◌, None, OnOk, OnErr, ◌++◌, ◌∷◌, [], filter, slice_get, length};
ghost use Rattle.std.specs.Map.{lookup};
ghost use Rattle.std.specs.Option.{option_map};
ghost use Rattle.dupe_window.specs.Digests.{IsDigestedBy, digested_by};
ghost use Rattle.dupe_window.specs.Keys.{is_same_key};
ghost use Rattle.dupe_window.specs.Windows.{is_inside, is_inside_pair, moment_in};

use crate::keys::{Digested, KeptKey, Key};
use aprs_base::Memory;
use indexmap::IndexMap;
use std::alloc::Global;
use std::hash::RandomState;
use std::marker::Model;

/// Keys with their moments. A key is kept as one text of no more than its length, and with its digest.
#[derive(Drop)]
pub struct Pairs {
    texts: IndexMap<KeptKey, u64>,
    hasher: RandomState,
}

impl Model for Pairs {
    ghost use Rattle.dupe_window.specs.Digests.{AreDigestedBy, PairsSeen, unpacked_pairs};

    ghost Value = { PairsSeen };

    ghost view = { λ p. record { pairs = unpacked_pairs p.texts.entries; hasher = p.hasher } };

    ghost invariant = { λ p. AreDigestedBy p.hasher p.texts.entries };
}

/// Whether that moment was less than so many seconds ago.
pub fn is_inside(seconds: u64, now: u64, moment: u64) -> bool
    ensures { result ≡ is_inside seconds now moment }
{
    now.saturating_sub(moment) < seconds
}

impl Pairs {
    /// No pairs.
    pub fn new(alloc: Global, hasher: RandomState) -> Pairs
        ensures { result ≡ record { pairs = []; hasher = hasher } }
    {
        Pairs {
            texts: IndexMap::new(alloc),
            hasher,
        }
    }

    /// The key with its digest, as keys are kept here.
    pub fn digested<'a>(&self, key: &'a Key) -> Digested<'a>
        ensures { result ≡ digested_by self.now.hasher key.now }
    {
        Digested::of(&self.hasher, key)
    }

    /// The moment that is kept with a key.
    pub fn moment_of(&self, key: &Digested) -> Option<u64>
        requires { IsDigestedBy self.now.hasher key.now }
        ensures { result ≡ lookup (is_same_key key.now.key) self.now.pairs }
    {
        // While none is kept no table is gone through.
        if self.texts.is_empty() {
            return None;
        }
        self.texts.get(key).copied()
    }

    /// The first moment.
    pub fn first(&self) -> Option<u64>
        ensures { result ≡ option_map moment_in (slice_get self.now.pairs 0) }
    {
        match self.texts.first() {
            Some((_, moment)) => Some(*moment),
            None => None,
        }
    }

    /// The last moment.
    pub fn last(&self) -> Option<u64>
        ensures { result ≡ option_map moment_in (slice_get self.now.pairs (length self.now.pairs - 1)) }
    {
        match self.texts.last() {
            Some((_, moment)) => Some(*moment),
            None => None,
        }
    }

    /// Keeps a key that is new with the moment at which it came.
    pub fn push(&mut self, key: &Digested, now: u64) -> Result<(), Memory>
        requires digested { IsDigestedBy self.old.hasher key.now }
        requires new { lookup (is_same_key key.now.key) self.old.pairs ≡ None }
        ensures ok { OnOk result (self.new ≡ record self.old { pairs = self.old.pairs ++ (key.now.key, now) ∷ [] }) }
        ensures err { OnErr result (self.new ≡ self.old) }
    {
        let text = KeptKey::copied(*self.texts.allocator(), key)?;
        self.texts.insert(text, now)?;
        Ok(())
    }

    /// Keeps only what is inside the window.
    pub fn keep_inside(&mut self, seconds: u32, now: u64)
        ensures { self.new ≡ record self.old { pairs = filter (is_inside_pair seconds now) self.old.pairs } }
    {
        let seconds = u64::from(seconds);
        self.texts
            .retain(|_, moment| is_inside(seconds, now, *moment));
    }

    /// Lets go of all.
    pub fn clear(&mut self)
        ensures { self.new ≡ record self.old { pairs = [] } }
    {
        self.texts.clear();
    }
}
