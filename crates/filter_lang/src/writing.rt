//! The canonical text of a filter.
ghost use Rattle.std.specs.Prelude.{◌≡◌, ◌<◌, ◌≤◌, ◌∷◌, ◌++◌, ◌==◌, [], ℕ, List, Ok, length, map, filter, OnOk, IfOk, if◌then◌else◌, bit_and};
ghost use Rattle.std.specs.Fmt.{decimal};
ghost use Rattle.aprs_base.specs.Bytes.{IsInner};
ghost use Rattle.filter_lang.specs.Names.{names_text, spelled, star_text, starless};
ghost use Rattle.filter_lang.specs.Numbers.{degrees_text, dotted_text, millionths_text};
ghost use Rattle.filter_lang.specs.Sets.{is_set, members_of};
ghost use Rattle.filter_lang.specs.Grammar.{terms_of};
ghost use Rattle.filter_lang.specs.Canonical.{canonical, classes_text, field, gates_text, kind_letter, more_text, near_text, point_text, set_text, symbols_text, term_text, what_fields};

use crate::names::{is_star, spelled_byte};
use crate::numbers::PLACES;
use crate::sets::CLASSES;
use crate::terms::{FilterSet, Marks, Name, Term, What};
use aprs_base::{Call, Memory, Text};
use itoa::Buffer;
use std::alloc::{AllocError, Global};
use std::marker::Model;

fn letter_of(what: &What) -> u8
    ensures { result ≡ kind_letter what.now }
{
    match what {
        What::Range { .. } => b'r',
        What::Prefix(_) => b'p',
        What::Buddy(_) => b'b',
        What::Object(_) => b'o',
        What::Class { .. } | What::ClassNear { .. } => b't',
        What::Symbol { .. } => b's',
        What::Digi(_) => b'd',
        What::Entry(_) => b'e',
        What::Group(_) => b'g',
        What::Dest(_) => b'u',
        What::Friend { .. } => b'f',
        What::Mine { .. } => b'm',
        What::Area { .. } => b'a',
        What::Construct { .. } => b'q',
    }
}

/// A filter's canonical text, as far as it is written.
#[derive(Drop)]
struct Canonical {
    text: Vec<u8>,
}

impl Model for Canonical {
    ghost use Rattle.std.specs.Prelude.{ℕ, List};

    ghost Value = { List ℕ };

    ghost view = { λ w. w.text.items };
}

impl Canonical {
    fn number(&mut self, number: u32) -> Result<(), AllocError>
        ensures { OnOk result (self.new ≡ self.old ++ decimal number) }
    {
        Ok(
            self.text
                .extend_from_slice(Buffer::new().format(number).as_bytes())?,
        )
    }

    /// A dot and the digits after it, up to the last that isn't 0; nothing where all are 0.
    fn dotted(&mut self, millionths: u32) -> Result<(), AllocError>
        requires { millionths < 1000000 }
        ensures { OnOk result (self.new ≡ self.old ++ dotted_text millionths) }
    {
        if millionths == 0 {
            return Ok(());
        }
        self.text.push(b'.')?;
        let mut rest = millionths;
        for place in PLACES {
            if rest == 0 {
                break;
            }
            self.text.push(b'0' + (rest / place) as u8)?;
            rest %= place;
        }
        Ok(())
    }

    #[tactic(auto, unfolding(crate::specs::Numbers::millionths_text))]
    fn millionths(&mut self, n: u32) -> Result<(), AllocError>
        ensures { OnOk result (self.new ≡ self.old ++ millionths_text n) }
    {
        self.number(n / 1_000_000)?;
        self.dotted(n % 1_000_000)
    }

    #[tactic(auto, unfolding(crate::specs::Numbers::degrees_text))]
    fn degrees(&mut self, degrees: i32) -> Result<(), AllocError>
        ensures { OnOk result (self.new ≡ self.old ++ field (degrees_text degrees)) }
    {
        self.text.push(b'/')?;
        if degrees < 0 {
            self.text.push(b'-')?;
        }
        self.millionths(degrees.unsigned_abs())
    }

    fn point(&mut self, lat: i32, lon: i32) -> Result<(), AllocError>
        ensures { OnOk result (self.new ≡ self.old ++ point_text lat lon) }
    {
        self.degrees(lat)?;
        self.degrees(lon)
    }

    fn kilometres(&mut self, km: u32) -> Result<(), AllocError>
        ensures { OnOk result (self.new ≡ self.old ++ field (decimal km)) }
    {
        self.text.push(b'/')?;
        self.number(km)
    }

    /// `call/km`.
    fn near(&mut self, call: &Call, km: u32) -> Result<(), AllocError>
        ensures { OnOk result (self.new ≡ self.old ++ near_text call.now km) }
    {
        self.text.push(b'/')?;
        self.text.extend_from_slice(call.bytes())?;
        self.kilometres(km)
    }

    fn spelled(&mut self, text: &[u8]) -> Result<(), AllocError>
        ensures { OnOk result (self.new ≡ self.old ++ map spelled text.now) }
    {
        for byte in text {
            self.text.push(spelled_byte(*byte))?;
        }
        Ok(())
    }

    fn name(&mut self, text: &[u8], wild: bool) -> Result<(), AllocError>
        ensures { OnOk result (self.new ≡ self.old ++ field (map spelled text.now ++ star_text wild)) }
    {
        self.text.push(b'/')?;
        self.spelled(text)?;
        if wild {
            self.text.push(b'*')?;
        }
        Ok(())
    }

    fn names(&mut self, names: &[Name]) -> Result<(), AllocError>
        ensures { OnOk result (self.new ≡ self.old ++ names_text names.now) }
    {
        for name in names {
            self.name(name.text.as_slice(), name.wild)?;
        }
        Ok(())
    }

    /// Names that are beginnings, where a `*` after other bytes says nothing.
    fn beginnings(&mut self, names: &[Name]) -> Result<(), AllocError>
        ensures { OnOk result (self.new ≡ self.old ++ names_text (map starless names.now)) }
    {
        for name in names {
            self.name(name.text.as_slice(), is_star(name))?;
        }
        Ok(())
    }

    /// The byte as it is written, where its bit is set.
    fn member(&mut self, bits: u128, byte: u8) -> Result<(), AllocError>
        requires { byte < 128 }
        ensures { OnOk result (self.new ≡ self.old ++ map spelled (filter (is_set bits) (byte ∷ []))) }
    {
        if (bits >> byte) & 1 == 1 {
            self.text.push(spelled_byte(byte))?;
        }
        Ok(())
    }

    fn members(&mut self, bits: u128) -> Result<(), AllocError>
        ensures { OnOk result (self.new ≡ self.old ++ map spelled (members_of bits)) }
    {
        for byte in 0..128u8 {
            self.member(bits, byte)?;
        }
        Ok(())
    }

    fn marks(&mut self, marks: &Marks) -> Result<(), AllocError>
        ensures { OnOk result (self.new ≡ self.old ++ set_text marks.now) }
    {
        self.text.push(b'/')?;
        self.members(marks.bits)
    }

    /// The letter, where the mask has its bit.
    fn class(&mut self, mask: u16, letter: u8, bit: u16) -> Result<(), AllocError>
        ensures { OnOk result (self.new ≡ self.old ++ (if bit_and mask bit == 0 then [] else letter ∷ [])) }
    {
        if mask & bit != 0 {
            self.text.push(letter)?;
        }
        Ok(())
    }

    fn classes(&mut self, mask: u16) -> Result<(), AllocError>
        ensures { OnOk result (self.new ≡ self.old ++ classes_text mask) }
    {
        self.text.push(b'/')?;
        for (letter, bit) in CLASSES {
            self.class(mask, letter, bit)?;
        }
        Ok(())
    }

    /// The sets of a symbol, without the empty ones at the end.
    fn symbol(&mut self, pri: &Marks, alt: &Marks, over: &Marks) -> Result<(), AllocError>
        ensures { OnOk result (self.new ≡ self.old ++ symbols_text pri.now alt.now over.now) }
    {
        self.marks(pri)?;
        if alt.is_empty() && over.is_empty() {
            return Ok(());
        }
        self.marks(alt)?;
        if over.is_empty() {
            return Ok(());
        }
        self.marks(over)
    }

    fn construct(&mut self, letters: &Marks, gates: bool) -> Result<(), AllocError>
        ensures { OnOk result (self.new ≡ self.old ++ (set_text letters.now ++ gates_text gates)) }
    {
        self.marks(letters)?;
        if gates {
            self.text.extend_from_slice(b"/I")?;
        }
        Ok(())
    }

    /// `lat/lon/km`.
    fn range(&mut self, lat: i32, lon: i32, km: u32) -> Result<(), AllocError>
        ensures { OnOk result (self.new ≡ self.old ++ (point_text lat lon ++ field (decimal km))) }
    {
        self.point(lat, lon)?;
        self.kilometres(km)
    }

    /// `letters/call/km`.
    fn class_near(&mut self, mask: u16, call: &Call, km: u32) -> Result<(), AllocError>
        ensures { OnOk result (self.new ≡ self.old ++ (classes_text mask ++ near_text call.now km)) }
    {
        self.classes(mask)?;
        self.near(call, km)
    }

    /// `latN/lonW/latS/lonE`.
    fn area(&mut self, north: i32, west: i32, south: i32, east: i32) -> Result<(), AllocError>
        ensures { OnOk result (self.new ≡ self.old ++ (point_text north west ++ point_text south east)) }
    {
        self.point(north, west)?;
        self.point(south, east)
    }

    /// The fields of a term, each after its slash.
    fn fields(&mut self, what: &What) -> Result<(), AllocError>
        ensures { OnOk result (self.new ≡ self.old ++ what_fields what.now) }
    {
        match what {
            What::Range { lat, lon, km } => self.range(*lat, *lon, *km),
            What::Prefix(names) => self.beginnings(names.list.as_slice()),
            What::Buddy(names)
            | What::Object(names)
            | What::Digi(names)
            | What::Entry(names)
            | What::Group(names)
            | What::Dest(names) => self.names(names.list.as_slice()),
            What::Class { mask } => self.classes(*mask),
            What::ClassNear { mask, call, km } => self.class_near(*mask, call, *km),
            What::Symbol { pri, alt, over } => self.symbol(pri, alt, over),
            What::Friend { call, km } => self.near(call, *km),
            What::Mine { km } => self.kilometres(*km),
            What::Area {
                north,
                west,
                south,
                east,
            } => self.area(*north, *west, *south, *east),
            What::Construct { letters, gates } => self.construct(letters, *gates),
        }
    }

    #[tactic(auto, unfolding(crate::specs::Canonical::term_text))]
    fn term(&mut self, term: &Term) -> Result<(), AllocError>
        ensures { OnOk result (self.new ≡ self.old ++ term_text term.now) }
    {
        if term.exclude {
            self.text.push(b'-')?;
        }
        self.text.push(letter_of(&term.what))?;
        self.fields(&term.what)
    }

    /// Each term after a blank.
    fn more(&mut self, terms: &[Term]) -> Result<(), AllocError>
        ensures { OnOk result (self.new ≡ self.old ++ more_text terms.now) }
    {
        for term in terms {
            self.text.push(b' ')?;
            self.term(term)?;
        }
        Ok(())
    }

    #[tactic(auto, unfolding(crate::specs::Canonical::canonical))]
    fn terms(&mut self, terms: &[Term]) -> Result<(), AllocError>
        ensures { OnOk result (self.new ≡ self.old ++ canonical terms.now) }
    {
        let [first, more @ ..] = terms else {
            return Ok(());
        };
        self.term(first)?;
        self.more(more)
    }
}

fn canonical_text(alloc: Global, terms: &[Term]) -> Result<Text, Memory>
    ensures { IfOk result (λ written. written ≡ canonical terms.now) }
{
    let mut out = Canonical {
        text: Vec::new(alloc),
    };
    out.terms(terms)?;
    Ok(Text::new(out.text))
}

impl FilterSet {
    /// The canonical text, which reads as this filter.
    pub fn write(&self, alloc: Global) -> Result<Text, Memory>
        ensures text { IfOk result (λ written. written ≡ canonical self.now) }
        // The text of a filter that some text reads as reads as it again, and no text that reads as it is shorter.
        ensures again { (text : List ℕ) → terms_of text ≡ Ok self.now → IfOk result (λ written. terms_of written ≡ Ok self.now) }
        ensures shortest { (text : List ℕ) → terms_of text ≡ Ok self.now → IfOk result (λ written. length written ≤ length text) }
        // It has at most 480 bytes, and no line end.
        ensures short { (text : List ℕ) → terms_of text ≡ Ok self.now → IfOk result (λ written. length written ≤ 480) }
        ensures inner { (text : List ℕ) → terms_of text ≡ Ok self.now → IfOk result (λ written. IsInner written) }
    {
        canonical_text(alloc, self.terms.as_slice())
    }
}
