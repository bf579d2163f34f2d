//! What makes two packets the same.
ghost use Rattle.std.specs.Prelude.{◌≡◌, ◌≤◌, length, IfOk};
ghost use Rattle.std.specs.List.{suffix_len};
ghost use Rattle.aprs_base.specs.Bytes.{base_of, is_blank};
ghost use Rattle.dupe_window.specs.Digests.{digested_by, text_of};
ghost use Rattle.dupe_window.specs.Keys.{key_of, without_last_blanks};
ghost use Rattle.dupe_window.specs.Packed.{packed};

use aprs_base::{Call, Memory, Parts, first_place, trailing_blanks};
use arrayvec::ArrayVec;
use indexmap::Equivalent;
use std::alloc::Global;
use std::hash::{BuildHasher, Hash, Hasher, RandomState};
use std::marker::Model;

/// What the copies of a packet have in common: its source, its destination without the SSID, and its body without the blanks
/// at its end. The way that it took is no part of it. It is kept as one text.
#[derive(PartialEq, Eq, Drop)]
pub struct Key {
    text: ArrayVec<u8, 530>,
}

impl Model for Key {
    ghost use Rattle.std.specs.Prelude.{◌≡◌};
    ghost use Rattle.dupe_window.specs.Keys.{Key};
    ghost use Rattle.dupe_window.specs.Packed.{packed, unpacked};

    ghost Value = { Key };

    ghost view = { λ k. unpacked k.text.items };

    ghost invariant = { λ k. packed (unpacked k.text.items) ≡ k.text.items };

    ghost inverse = { λ k. record { text = record { items = packed k } } };
}

/// The text without the blanks at its end.
fn without_blanks(text: &[u8]) -> &[u8]
    ensures value { result.now ≡ without_last_blanks text.now }
    ensures within { length result.now ≤ length text.now }
{
    &text[..text.len().saturating_sub(trailing_blanks(text))]
}

/// The call without its SSID.
fn base_of(call: &Call) -> &[u8]
    ensures value { result.now ≡ base_of call.now }
    ensures short { length result.now ≤ 9 }
{
    let text = call.bytes();
    &text[..first_place(b'-', text)]
}

/// The text of the key of a packet with these parts.
fn text_of(parts: &Parts) -> ArrayVec<u8, 530>
    ensures { result.items ≡ packed (key_of parts.now) }
{
    let source = parts.source.bytes();
    let dest = base_of(&parts.dest);
    let body = without_blanks(parts.body.as_slice());
    let mut text = ArrayVec::new();
    text.push(source.len() as u8);
    text.push(dest.len() as u8);
    text.try_extend_from_slice(source).unwrap();
    text.try_extend_from_slice(dest).unwrap();
    text.try_extend_from_slice(body).unwrap();
    text
}

impl Key {
    /// The key of a packet with these parts.
    pub fn of(parts: &Parts) -> Key
        ensures { result ≡ key_of parts.now }
    {
        Key {
            text: text_of(parts),
        }
    }

    /// The bytes of its text.
    pub(crate) fn bytes(&self) -> &[u8]
        ensures { result.now ≡ packed self.now }
    {
        self.text.as_slice()
    }
}

/// Its text is hashed at once. Byte by byte it took longer than all else that a table does.
impl Hash for Key {
    ghost use Rattle.std.specs.Prelude.{◌∷◌, []};
    ghost use Rattle.std.proofs.Common.{ap};
    ghost use Rattle.std.specs.Cmp.Lexicographic.{bytes_decides};
    ghost use Rattle.dupe_window.specs.Packed.{packed};

    ghost hash_input = { λ k. packed k ∷ [] };

    ghost respects_eq = { λ x y same. ap (λ text. text ∷ []) ((bytes_decides (packed x) (packed y)).0 same) };

    fn hash<H: Hasher>(&self, state: &mut H) {
        state.write(self.bytes());
    }
}

/// A key with its digest, from which a map tells where the key is.
#[derive(Drop)]
pub struct Digested<'a> {
    key: &'a Key,
    digest: u64,
}

impl<'a> Model for Digested<'a> {
    ghost use Rattle.dupe_window.specs.Digests.{DigestedKey};

    ghost Value = { DigestedKey };

    ghost view = { λ d. record { key = d.key.now; digest = d.digest } };
}

impl<'a> Digested<'a> {
    /// The key with its digest. Only who knows the hasher's random keys can tell which texts have the same.
    pub fn of(hasher: &RandomState, key: &'a Key) -> Digested<'a>
        ensures { result ≡ digested_by hasher.now key.now }
    {
        Digested {
            key,
            digest: hasher.hash_one(key),
        }
    }
}

impl<'a> PartialEq for Digested<'a> {
    ghost use Rattle.std.specs.Cmp.Rules.{comparing};
    ghost use Rattle.std.proofs.Common.{rules};
    ghost use Rattle.dupe_window.specs.Digests.{is_same_digested};

    ghost eq = { is_same_digested };

    ghost laws = { Prim.search (comparing, rules) };

    fn eq(&self, other: &Digested<'a>) -> bool {
        self.digest == other.digest && *self.key == *other.key
    }
}

impl<'a> Eq for Digested<'a> {
    ghost use Rattle.std.specs.Cmp.Rules.{comparing};
    ghost use Rattle.std.proofs.Common.{rules};

    ghost laws = { Prim.search (comparing, rules) };
}

/// Its digest is hashed alone.
impl<'a> Hash for Digested<'a> {
    ghost use Rattle.std.specs.Hash as fed;
    ghost use Rattle.std.specs.Cmp.Rules.{hashing};
    ghost use Rattle.std.proofs.Common.{rules};

    ghost hash_input = { λ d. fed.u64 d.digest };

    ghost respects_eq = { Prim.search (hashing, rules) };

    fn hash<H: Hasher>(&self, state: &mut H) {
        state.write_u64(self.digest);
    }
}

/// A key that is kept: its text, in no more room than that needs, and its digest.
#[derive(Drop)]
pub struct KeptKey {
    text: Vec<u8>,
    digest: u64,
}

impl Model for KeptKey {
    ghost use Rattle.dupe_window.specs.Digests.{DigestedText};

    ghost Value = { DigestedText };

    ghost view = { λ k. record { text = k.text.items; digest = k.digest } };
}

impl KeptKey {
    /// A copy of a key with its digest.
    pub fn copied(alloc: Global, key: &Digested) -> Result<KeptKey, Memory>
        ensures { IfOk result (λ kept. kept ≡ text_of key.now) }
    {
        let text = key.key.bytes().to_vec(alloc)?;
        Ok(KeptKey {
            text,
            digest: key.digest,
        })
    }
}

impl PartialEq for KeptKey {
    ghost use Rattle.std.specs.Cmp.Rules.{comparing};
    ghost use Rattle.std.proofs.Common.{rules};
    ghost use Rattle.dupe_window.specs.Digests.{is_same_text};

    ghost eq = { is_same_text };

    ghost laws = { Prim.search (comparing, rules) };

    fn eq(&self, other: &KeptKey) -> bool {
        self.digest == other.digest && self.text.as_slice() == other.text.as_slice()
    }
}

impl Eq for KeptKey {
    ghost use Rattle.std.specs.Cmp.Rules.{comparing};
    ghost use Rattle.std.proofs.Common.{rules};

    ghost laws = { Prim.search (comparing, rules) };
}

impl Hash for KeptKey {
    ghost use Rattle.std.specs.Hash as fed;
    ghost use Rattle.std.specs.Cmp.Rules.{hashing};
    ghost use Rattle.std.proofs.Common.{rules};

    ghost hash_input = { λ k. fed.u64 k.digest };

    ghost respects_eq = { Prim.search (hashing, rules) };

    fn hash<H: Hasher>(&self, state: &mut H) {
        state.write_u64(self.digest);
    }
}

impl<'a> Equivalent<KeptKey> for &Digested<'a> {
    ghost use Rattle.std.specs.Cmp.{and_equiv, on_equiv};
    ghost use Rattle.std.specs.Hash as fed;
    ghost use Rattle.std.proofs.Common.{ap};
    ghost use Rattle.std.proofs.lemmas.Bool.{and_parts, eqb-true};
    ghost use Rattle.std.proofs.lemmas.Cmp.{nat_eq_equiv, nat_list_eq_equiv};
    ghost use Rattle.dupe_window.specs.Digests.{is_same_text, text_of};

    ghost equivalent = { λ q k. is_same_text (text_of q.now) k };

    ghost respects_hash = { λ q k same. ap fed.u64 (eqb-true _ _ (and_parts _ _ same).0) };

    ghost respects_eq = { λ q x y. (and_equiv (on_equiv (λ text. text.digest) nat_eq_equiv) (on_equiv (λ text. text.text) nat_list_eq_equiv)).congr (text_of q.now) x y };

    fn equivalent(&self, kept: &KeptKey) -> bool {
        self.digest == kept.digest && self.key.bytes() == kept.text.as_slice()
    }
}
