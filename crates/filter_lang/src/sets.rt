//! Sets of bytes and masks of classes, read and written.
ghost use Rattle.std.specs.Prelude.{◌≡◌, ◌<◌, ◌≤◌, ◌↔◌, ◌==◌, ℕ, List, [], length, map, IsTrue, if◌then◌else◌};
ghost use Rattle.std.specs.Char.{is_ascii_alphabetic};
ghost use Rattle.std.specs.List.{list_all, list_any};
ghost use Rattle.filter_lang.specs.Parts.{is_empty};
ghost use Rattle.filter_lang.specs.Names.{meant};
ghost use Rattle.filter_lang.specs.Grammar.{is_printing, symbols_of};
ghost use Rattle.filter_lang.specs.Sets.{has, is_class, mask_of, set_of};

use crate::names::meant_byte;
use crate::terms::Marks;

/// The class letters, each with its bit in a mask.
pub const CLASSES: [(u8, u16); 10] = [
    (b'p', 1),
    (b'o', 2),
    (b'i', 4),
    (b'm', 8),
    (b'q', 16),
    (b's', 32),
    (b't', 64),
    (b'u', 128),
    (b'n', 256),
    (b'w', 512),
];

fn is_class_letter(letter: u8) -> bool
    ensures { result ≡ is_class letter }
{
    CLASSES.iter().any(|class| class.0 == letter)
}

fn all_classes(letters: &[u8]) -> bool
    ensures { result ≡ list_all is_class letters.now }
{
    letters.iter().all(|letter| is_class_letter(*letter))
}

/// The bit, where the letter is among them.
fn bit_if(letters: &[u8], letter: u8, bit: u16) -> u16
    ensures { result ≡ if has letters.now letter then bit else 0 }
{
    if letters.contains(&letter) { bit } else { 0 }
}

/// The mask of one or more class letters.
#[tactic(auto, unfolding(crate::specs::Sets::mask_of))]
pub fn mask(letters: &[u8]) -> Option<u16>
    ensures { result ≡ mask_of letters.now }
{
    if letters.is_empty() || !all_classes(letters) {
        return None;
    }
    let mut mask = 0;
    for (letter, bit) in CLASSES {
        mask += bit_if(letters, letter, bit);
    }
    Some(mask)
}

fn all_printing(text: &[u8]) -> bool
    ensures { result ≡ list_all is_printing text.now }
{
    text.iter().all(|byte| (33..=126).contains(byte))
}

/// The set of the bytes that are meant by those of `text`.
fn marks(text: &[u8]) -> Marks
    requires { IsTrue (list_all is_printing text.now) }
    ensures { result ≡ set_of (map meant text.now) }
{
    let mut bits = 0u128;
    for byte in text {
        bits |= 1u128 << meant_byte(*byte);
    }
    Marks { bits }
}

/// A set of symbol codes or tables.
#[tactic(auto, unfolding(crate::specs::Grammar::symbols_of))]
pub fn symbols(field: &[u8]) -> Option<Marks>
    ensures { result ≡ symbols_of field.now }
{
    if !all_printing(field) {
        return None;
    }
    Some(marks(field))
}

/// Whether all bytes are letters.
pub fn all_letters(text: &[u8]) -> bool
    ensures { result ≡ list_all is_ascii_alphabetic text.now }
{
    text.iter().all(|byte| byte.is_ascii_alphabetic())
}

/// A set of letters.
pub fn letters(field: &[u8]) -> Marks
    requires { IsTrue (list_all is_ascii_alphabetic field.now) }
    ensures { result ≡ set_of field.now }
{
    marks(field)
}

impl Marks {
    /// Whether the set has no member.
    pub fn is_empty(&self) -> bool
        ensures { result ≡ is_empty self.now }
    {
        self.bits == 0
    }

    /// Whether the byte is a member.
    pub fn contains(&self, byte: u8) -> bool
        ensures { result ≡ has self.now byte }
    {
        byte < 128 && (self.bits >> byte) & 1 == 1
    }
}
