//! Calls, lines and other short texts, each kept within its grammar by its type.
ghost use Rattle.std.specs.Prelude.{◌≡◌, ℕ, ◌≤◌, ◌<◌, ◌∷◌, [], List, length, IsSome, IfOk, IfSome, IsTrue, ◌↔◌};
ghost use Rattle.std.specs.Char.{is_ascii_alphanumeric, is_ascii_digit};
ghost use Rattle.std.specs.List.{list_all, position_or_len, prefix_len, suffix_len};
ghost use Rattle.memchr.specs.Find.{is_byte};
ghost use Rattle.aprs_base.specs.Bytes.{IsCall, IsLine, as_words, base_of, is_blank, is_call, is_construct, is_inner, is_ssid_text, is_station};

use arrayvec::ArrayVec;
use memchr::memchr;
use std::alloc::{AllocError, AllocFailed, Global};
use std::hash::{Hash, Hasher};
use std::marker::Model;

/// Memory was wanting.
#[derive(Clone, Copy, PartialEq, Eq, Debug)]
pub struct Memory;

impl From<AllocError> for Memory {
    fn from(_error: AllocError) -> Memory {
        Memory
    }
}

impl<T: Drop> From<AllocFailed<T>> for Memory {
    fn from(_failed: AllocFailed<T>) -> Memory {
        Memory
    }
}

/// Something outside the program failed.
#[derive(Clone, Copy, PartialEq, Eq, Debug)]
pub struct Failed;

/// The name of a station: 1 to 9 letters and digits, perhaps `-` and one or two more, at most 9 bytes in all
/// (aprs-is.net, Connecting).
#[derive(Clone, Drop)]
pub struct Call {
    text: [u8; 9],
    /// How many of these bytes are its own.
    size: u8,
}

impl Model for Call {
    ghost use Rattle.std.specs.Prelude.{ℕ, List, take, ◌≤◌};
    ghost use Rattle.aprs_base.specs.Bytes.{IsCall};

    ghost Value = { List ℕ };

    ghost view = { λ c. take c.size c.text };

    ghost invariant = { λ c. IsCall (take c.size c.text) × (c.size ≤ 9) };
}

impl PartialEq for Call {
    ghost use Rattle.std.specs.Prelude.{◌==◌};
    ghost use Rattle.std.specs.Cmp.Lexicographic.{pointwise};
    ghost use Rattle.std.specs.Cmp.Rules.{comparing};
    ghost use Rattle.std.proofs.Common.{rules};

    ghost eq = { pointwise ◌==◌ };

    ghost laws = { Prim.search (comparing, rules) };

    fn eq(&self, other: &Call) -> bool {
        self.bytes() == other.bytes()
    }
}

impl Eq for Call {
    ghost use Rattle.std.specs.Cmp.Rules.{comparing};
    ghost use Rattle.std.proofs.Common.{rules};

    ghost laws = { Prim.search (comparing, rules) };
}

/// A call is hashed as two words at once. Byte by byte it took the hasher of the tables longer than all else that they do.
impl Hash for Call {
    ghost use Rattle.std.specs.Cmp.Rules.{hashing};
    ghost use Rattle.std.proofs.Common.{rules};
    ghost use Rattle.aprs_base.specs.Bytes.{as_words};

    ghost hash_input = { λ c. as_words c ∷ [] };

    ghost respects_eq = { Prim.search (hashing, rules) };

    fn hash<H: Hasher>(&self, state: &mut H) {
        state.write(&as_words(self.bytes()));
    }
}

/// The text in the room of two words, with zeros behind it.
fn as_words(text: &[u8]) -> [u8; 16]
    requires { length text.now ≤ 16 }
    ensures { result ≡ as_words text.now }
{
    let mut words = [0; 16];
    words[..text.len()].copy_from_slice(text);
    words
}

impl Default for Call {
    ghost is_default = { λ c. c ≡ 65 ∷ [] };

    fn default() -> Call {
        call_of(b"A")
    }
}

/// A text of the grammar as a call.
fn call_of(text: &[u8]) -> Call
    requires { IsCall text.now }
    ensures { result ≡ text.now }
{
    let mut room = [0; 9];
    room[..text.len()].copy_from_slice(text);
    Call {
        text: room,
        size: text.len() as u8,
    }
}

fn is_alphanumeric_byte(byte: u8) -> bool
    ensures { result ≡ is_ascii_alphanumeric byte }
{
    byte.is_ascii_alphanumeric()
}

fn all_alphanumeric(text: &[u8]) -> bool
    ensures { result ≡ list_all is_ascii_alphanumeric text.now }
{
    text.iter().all(|byte| is_alphanumeric_byte(*byte))
}

/// Where `byte` first stands in `text`, or the length where it doesn't.
pub fn first_place(byte: u8, text: &[u8]) -> usize
    ensures place { result ≡ position_or_len (is_byte byte) text.now }
    ensures within { result ≤ length text.now }
{
    match memchr(byte, text) {
        Some(place) => place,
        None => text.len(),
    }
}

/// How many blanks `text` begins with.
pub fn leading_blanks(text: &[u8]) -> usize
    ensures count { result ≡ prefix_len is_blank text.now }
    ensures within { result ≤ length text.now }
{
    text.iter().take_while(|byte| **byte == b' ').count()
}

/// How many blanks `text` ends with.
pub fn trailing_blanks(text: &[u8]) -> usize
    ensures count { result ≡ suffix_len is_blank text.now }
    ensures within { result ≤ length text.now }
{
    text.iter().rev().take_while(|byte| **byte == b' ').count()
}

/// Whether `text` is digits alone.
pub fn all_digits(text: &[u8]) -> bool
    ensures { result ≡ list_all is_ascii_digit text.now }
{
    text.iter().all(|byte| byte.is_ascii_digit())
}

/// The part of `text` before its first dash, or all of it.
fn before_dash(text: &[u8]) -> &[u8]
    ensures { result.now ≡ base_of text.now }
{
    &text[..first_place(b'-', text)]
}

/// Whether `text` is in the grammar of a call.
fn is_call_text(text: &[u8]) -> bool
    ensures { result ≡ is_call text.now }
{
    let base = before_dash(text);
    if text.len() > 9 || base.is_empty() || !all_alphanumeric(base) {
        return false;
    }
    base.len() == text.len() || is_ssid(&text[base.len() + 1..])
}

/// Whether `text` may follow the dash of a call.
fn is_ssid(text: &[u8]) -> bool
    ensures { result ≡ is_ssid_text text.now }
{
    !text.is_empty() && text.len() <= 2 && all_alphanumeric(text)
}

impl Call {
    /// Reads a call. `None` exactly where `text` is off the grammar.
    pub fn read(text: &[u8]) -> Option<Call>
        ensures some { IsSome result ↔ IsCall text.now }
        ensures value { IfSome result (λ c. c ≡ text.now) }
    {
        if is_call_text(text) {
            Some(call_of(text))
        } else {
            None
        }
    }

    /// The bytes of the call.
    pub fn bytes(&self) -> &[u8]
        ensures bytes { result.now ≡ self.now }
        ensures grammar { IsCall self.now }
        ensures short { length self.now ≤ 9 }
    {
        &self.text[..usize::from(self.size)]
    }

    /// The bytes before the first `-`, or all of them.
    pub fn base(&self) -> &[u8]
        ensures { result.now ≡ base_of self.now }
    {
        before_dash(self.bytes())
    }

    /// Whether the call may name a station: it is no `qA` and one letter.
    pub fn is_station(&self) -> bool
        ensures { result ≡ is_station self.now }
    {
        !is_construct_text(self.bytes())
    }
}

/// Whether `text` is `qA` and one letter.
pub fn is_construct_text(text: &[u8]) -> bool
    ensures { result ≡ is_construct text.now }
{
    match text {
        [b'q', b'A', letter] => letter.is_ascii_alphabetic(),
        _ => false,
    }
}

/// A copy of a call, which takes no memory.
pub fn copy_call(call: &Call) -> Call
    ensures { result ≡ call.now }
{
    Call {
        text: call.text,
        size: call.size,
    }
}

/// A text of 0 to 9 bytes, as a name or the receiver of a message.
#[derive(Clone, PartialEq, Eq, Hash, Drop)]
pub struct Word9 {
    pub text: ArrayVec<u8, 9>,
}

impl Model for Word9 {
    ghost use Rattle.std.specs.Prelude.{ℕ, List, length, ◌≤◌};

    ghost Value = { List ℕ };

    ghost view = { λ w. w.text.items };

    ghost invariant = { λ w. length w.text.items ≤ 9 };

    ghost inverse = { λ xs. record { text = record { items = xs } } };
}

impl Word9 {
    /// The word of these bytes. `None` exactly where they are more than nine.
    pub fn new(text: &[u8]) -> Option<Word9>
        ensures some { IsSome result ↔ (length text.now ≤ 9) }
        ensures value { IfSome result (λ w. w ≡ text.now) }
    {
        let text = ArrayVec::try_from(text).ok()?;
        Some(Word9 { text })
    }

    /// The bytes of the word.
    pub fn bytes(&self) -> &[u8]
        ensures bytes { result.now ≡ self.now }
        ensures short { length self.now ≤ 9 }
    {
        self.text.as_slice()
    }
}

/// A line without its end: 1 to 510 bytes, none of them CR or LF.
#[derive(PartialEq, Eq, Drop)]
pub struct Line {
    pub text: ArrayVec<u8, 510>,
}

impl Model for Line {
    ghost use Rattle.std.specs.Prelude.{ℕ, List};
    ghost use Rattle.aprs_base.specs.Bytes.{IsLine};

    ghost Value = { List ℕ };

    ghost view = { λ l. l.text.items };

    ghost invariant = { λ l. IsLine l.text.items };

    ghost inverse = { λ xs. record { text = record { items = xs } } };
}

fn has_no_line_end(text: &[u8]) -> bool
    ensures { result ≡ list_all is_inner text.now }
{
    text.iter().all(|byte| *byte != b'\r' && *byte != b'\n')
}

impl Line {
    /// The line of these bytes. `None` exactly where they are none, more than 510, or hold a CR or an LF.
    pub fn new(text: &[u8]) -> Option<Line>
        ensures some { IsSome result ↔ IsLine text.now }
        ensures value { IfSome result (λ l. l ≡ text.now) }
    {
        if text.is_empty() || !has_no_line_end(text) {
            return None;
        }
        let text = ArrayVec::try_from(text).ok()?;
        Some(Line { text })
    }

    /// The bytes of the line.
    pub fn bytes(&self) -> &[u8]
        ensures bytes { result.now ≡ self.now }
        ensures grammar { IsLine self.now }
    {
        self.text.as_slice()
    }
}

/// A piece of what a link or a datagram brought: 0 to 1,460 bytes.
#[derive(Clone, Drop)]
pub struct Chunk {
    pub text: ArrayVec<u8, 1460>,
}

impl Model for Chunk {
    ghost use Rattle.std.specs.Prelude.{ℕ, List, length, ◌≤◌};

    ghost Value = { List ℕ };

    ghost view = { λ c. c.text.items };

    ghost invariant = { λ c. length c.text.items ≤ 1460 };

    ghost inverse = { λ xs. record { text = record { items = xs } } };
}

impl Chunk {
    /// The chunk of these bytes. `None` exactly where they are more than 1,460.
    pub fn new(text: &[u8]) -> Option<Chunk>
        ensures some { IsSome result ↔ (length text.now ≤ 1460) }
        ensures value { IfSome result (λ c. c ≡ text.now) }
    {
        let text = ArrayVec::try_from(text).ok()?;
        Some(Chunk { text })
    }

    /// The bytes of the chunk.
    pub fn bytes(&self) -> &[u8]
        ensures bytes { result.now ≡ self.now }
        ensures short { length self.now ≤ 1460 }
    {
        self.text.as_slice()
    }
}

/// A copy of a chunk, which takes no memory.
pub(crate) fn copy_chunk(chunk: &Chunk) -> Chunk
    ensures { result ≡ chunk.now }
{
    match ArrayVec::try_from(chunk.text.as_slice()) {
        Ok(text) => Chunk { text },
        Err(_) => unreachable!(),
    }
}

/// A text of any length.
#[derive(Drop)]
pub struct Text {
    pub bytes: Vec<u8>,
}

impl Model for Text {
    ghost use Rattle.std.specs.Prelude.{ℕ, List};

    ghost Value = { List ℕ };

    ghost view = { λ t. t.bytes.items };
}

impl Text {
    /// The text of these bytes.
    pub fn new(bytes: Vec<u8>) -> Text
        ensures { result ≡ bytes.items }
    {
        Text { bytes }
    }

    /// The text of a copy of these bytes.
    pub fn copied(alloc: Global, bytes: &[u8]) -> Result<Text, Memory>
        ensures { IfOk result (λ t. t ≡ bytes.now) }
    {
        let bytes = bytes.to_vec(alloc)?;
        Ok(Text { bytes })
    }

    /// Its bytes.
    pub fn as_bytes(&self) -> &[u8]
        ensures { result.now ≡ self.now }
    {
        self.bytes.as_slice()
    }
}

impl PartialEq for Text {
    ghost use Rattle.std.specs.Prelude.{◌==◌};
    ghost use Rattle.std.specs.Cmp.Lexicographic.{pointwise};
    ghost use Rattle.std.specs.Cmp.Rules.{comparing};
    ghost use Rattle.std.proofs.Common.{rules};

    ghost eq = { pointwise ◌==◌ };

    ghost laws = { Prim.search (comparing, rules) };

    fn eq(&self, other: &Text) -> bool {
        self.bytes.as_slice() == other.bytes.as_slice()
    }
}

impl Eq for Text {
    ghost use Rattle.std.specs.Cmp.Rules.{comparing};
    ghost use Rattle.std.proofs.Common.{rules};

    ghost laws = { Prim.search (comparing, rules) };
}

/// An IPv4 address and a port.
#[derive(Clone, Copy, PartialEq, Eq)]
pub struct Addr {
    pub ip: [u8; 4],
    pub port: u16,
}
