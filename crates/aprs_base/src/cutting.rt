//! The cutting of a link's bytes into lines.
ghost use Rattle.std.specs.Prelude.{◌≡◌, ℕ, ◌≤◌, ◌+◌, ◌∷◌, ◌++◌, [], List, length, drop, ◌<◌, IfOk, OnOk, OnErr, nat_lt, if◌then◌else◌, true, false};
ghost use Rattle.aprs_base.specs.Cuts.{cut_of, cuts_by, cuts_of, rest_of};
ghost use Rattle.aprs_base.specs.Held.{held_after, held_of};
ghost use Rattle.aprs_base.specs.Bytes.{IsInner};
ghost use Rattle.std.specs.List.{cons_option};

use crate::texts::{Line, Memory};
use arrayvec::ArrayVec;
use memchr::memchr2;
use std::alloc::Global;
use std::marker::Model;

/// A line that is cut off, or that one of more than 510 bytes was.
#[derive(PartialEq, Eq, Drop)]
pub enum Cut {
    Line(Line),
    Long,
}

/// What is kept between two pieces of a link's bytes: at most 510 bytes of the line that is not ended yet,
/// or only that it is longer.
#[derive(Clone, PartialEq, Eq, Drop)]
pub struct Cutter {
    text: ArrayVec<u8, 510>,
    long: bool,
}

impl Model for Cutter {
    ghost use Rattle.std.specs.Prelude.{◌≡◌, true, [], IsTrue};
    ghost use Rattle.std.specs.List.{list_all};
    ghost use Rattle.aprs_base.specs.Bytes.{is_inner};
    ghost use Rattle.aprs_base.specs.Held.{Held};

    ghost Value = { Held };

    ghost view = { λ c. record { text = c.text.items; long = c.long } };

    ghost invariant = { λ c. IsTrue (list_all is_inner c.text.items) × (c.long ≡ true → c.text.items ≡ []) };

    ghost inverse = { λ held. record { text = record { items = held.text }; long = held.long } };
}

impl Cutter {
    /// A cutter to which no byte has come.
    pub fn new() -> Cutter
        ensures { result ≡ held_after [] }
    {
        Cutter {
            text: ArrayVec::new(),
            long: false,
        }
    }

    /// Takes the next piece of the stream, and appends to `out` the cuts that it completes, whatever pieces came before.
    /// After `Memory` nothing has changed.
    pub fn feed(&mut self, alloc: Global, piece: &[u8], out: &mut Vec<Cut>) -> Result<(), Memory>
        ensures held { (before : List ℕ) → self.old ≡ held_after before → OnOk result (self.new ≡ held_after (before ++ piece.now)) }
        ensures cuts { (before : List ℕ) → self.old ≡ held_after before → OnOk result (out.new.items ≡ out.old.items ++ cuts_by before piece.now) }
        // What was cut of the whole stream so far goes on to be just that.
        ensures stream { (before : List ℕ) (earlier : List Cut) → self.old ≡ held_after before → out.old.items ≡ earlier ++ cuts_of before
            → OnOk result (out.new.items ≡ earlier ++ cuts_of (before ++ piece.now)) }
        ensures err { OnErr result ((self.new ≡ self.old) × (out.new.items ≡ out.old.items)) }
    {
        let Some(end) = memchr2(b'\r', b'\n', piece) else {
            self.extend(piece);
            return Ok(());
        };
        let mut cuts = Vec::with_capacity(alloc, cuts_expected(piece))?;
        self.end_line(&piece[..end], &mut cuts)?;
        let rest = cut_lines(past(piece, end), &mut cuts)?;
        put_behind(out, cuts)?;
        self.begin_line(rest);
        Ok(())
    }

    /// More bytes of the line that is not ended yet.
    fn extend(&mut self, bytes: &[u8])
        requires { IsInner bytes.now }
        ensures { (line : List ℕ) → IsInner line → self.old ≡ held_of line → self.new ≡ held_of (line ++ bytes.now) }
    {
        if self.long {
            return;
        }
        if self.text.try_extend_from_slice(bytes).is_err() {
            self.text.clear();
            self.long = true;
        }
    }

    /// The line that is kept ends after these bytes: appends its cut.
    fn end_line(&self, bytes: &[u8], out: &mut Vec<Cut>) -> Result<(), Memory>
        requires { IsInner bytes.now }
        ensures { (line : List ℕ) → IsInner line → self.now ≡ held_of line
            → OnOk result (out.new.items ≡ out.old.items ++ cons_option (cut_of (line ++ bytes.now)) []) }
    {
        if self.long {
            put_long(out)
        } else {
            put_line(self.text.as_slice(), bytes, out)
        }
    }

    /// Another line begins with these bytes.
    fn begin_line(&mut self, bytes: &[u8])
        requires { IsInner bytes.now }
        ensures { self.new ≡ held_of bytes.now }
    {
        self.text.clear();
        self.long = self.text.try_extend_from_slice(bytes).is_err();
    }
}

/// So many bytes of a piece are taken for a line, so that its cuts have room at once and are seldom moved.
const SHORT_LINE: usize = 64;

/// How many lines a piece may end.
fn cuts_expected(piece: &[u8]) -> usize {
    piece.len() / SHORT_LINE + 1
}

/// Puts cuts behind those that there are. Where there are none, none is moved.
fn put_behind(out: &mut Vec<Cut>, cuts: Vec<Cut>) -> Result<(), Memory>
    ensures ok { OnOk result (out.new.items ≡ out.old.items ++ cuts.items) }
    ensures err { OnErr result (out.new.items ≡ out.old.items) }
{
    let mut cuts = cuts;
    if out.is_empty() {
        *out = cuts;
    } else {
        out.append(&mut cuts)?;
    }
    Ok(())
}

/// Appends the cut of a long line.
fn put_long(out: &mut Vec<Cut>) -> Result<(), Memory>
    ensures { OnOk result (out.new.items ≡ out.old.items ++ Cut.Long ∷ []) }
{
    out.push(Cut::Long)?;
    Ok(())
}

/// Puts these bytes and more into a text that has none, and says whether they fit.
fn join(text: &mut ArrayVec<u8, 510>, bytes: &[u8], more: &[u8]) -> bool
    requires { text.old.items ≡ [] }
    ensures fit { result ≡ true → text.new.items ≡ bytes.now ++ more.now }
    ensures short { result ≡ true → length (bytes.now ++ more.now) ≤ 510 }
    ensures long { result ≡ false → 510 < length (bytes.now ++ more.now) }
{
    match text.try_extend_from_slice(bytes) {
        Ok(()) => text.try_extend_from_slice(more).is_ok(),
        Err(_) => false,
    }
}

/// Appends the cut of a line of these bytes and more, which aren't both empty.
#[tactic(auto, using(crate::proofs::CutLemmas::cut_long, crate::proofs::CutLemmas::cut_short))]
fn put_some(bytes: &[u8], more: &[u8], out: &mut Vec<Cut>) -> Result<(), Memory>
    requires bytes { IsInner bytes.now }
    requires more { IsInner more.now }
    requires some { 0 < length (bytes.now ++ more.now) }
    ensures { OnOk result (out.new.items ≡ out.old.items ++ cons_option (cut_of (bytes.now ++ more.now)) []) }
{
    let mut text = ArrayVec::new();
    if join(&mut text, bytes, more) {
        out.push(Cut::Line(Line { text }))?;
    } else {
        out.push(Cut::Long)?;
    }
    Ok(())
}

/// Appends the cut of a line of these bytes and more; nothing where both are empty.
fn put_line(bytes: &[u8], more: &[u8], out: &mut Vec<Cut>) -> Result<(), Memory>
    requires bytes { IsInner bytes.now }
    requires more { IsInner more.now }
    ensures { OnOk result (out.new.items ≡ out.old.items ++ cons_option (cut_of (bytes.now ++ more.now)) []) }
{
    if bytes.is_empty() && more.is_empty() {
        Ok(())
    } else {
        put_some(bytes, more, out)
    }
}

/// Cuts whole lines, and answers what follows the last line end.
fn cut_lines<'a>(piece: &'a [u8], out: &mut Vec<Cut>) -> Result<&'a [u8], Memory>
    ensures cuts { OnOk result (out.new.items ≡ out.old.items ++ cuts_of piece.now) }
    ensures rest { IfOk result (λ rest. rest.now ≡ rest_of piece.now) }
    ensures inner { IfOk result (λ rest. IsInner rest.now) }
{
    let mut rest = piece;
    while let Some(end) = memchr2(b'\r', b'\n', rest) {
        put_line(&rest[..end], b"", out)?;
        rest = past(rest, end);
    }
    Ok(rest)
}

/// What follows the byte at `place`.
fn past(bytes: &[u8], place: usize) -> &[u8]
    requires { place < length bytes.now }
    ensures { result.now ≡ drop (place + 1) bytes.now }
{
    &bytes[place + 1..]
}
