//! Filters as values: a set of terms, each of which passes packets or excludes them.
ghost use Rattle.std.specs.Prelude.{◌≡◌, ℕ, List, IsTrue, ◌↔◌, []};

use aprs_base::Call;
use arrayvec::ArrayVec;
use std::marker::Model;

/// A name of 0 to 9 bytes. A wild one matches whatever begins with it.
#[derive(Drop)]
pub struct Name {
    pub text: ArrayVec<u8, 9>,
    pub wild: bool,
}

impl Model for Name {
    ghost use Rattle.filter_lang.specs.Seen.{NameSeen};

    ghost Value = { NameSeen };

    ghost view = { λ n. record { text = n.text.items; wild = n.wild } };

    ghost inverse = { λ v. record { text = record { items = v.text }; wild = v.wild } };
}

/// One or more names.
#[derive(Drop)]
pub struct Names {
    pub list: Vec<Name>,
}

impl Model for Names {
    ghost use Rattle.std.specs.Prelude.{List};
    ghost use Rattle.filter_lang.specs.Seen.{NameSeen};

    ghost Value = { List NameSeen };

    ghost view = { λ n. n.list.items };
}

/// A set of bytes below 128, one bit for each.
#[derive(Drop)]
pub struct Marks {
    pub bits: u128,
}

impl Model for Marks {
    ghost use Rattle.std.specs.Prelude.{ℕ, List};
    ghost use Rattle.filter_lang.specs.Sets.{members_of};

    ghost Value = { List ℕ };

    ghost view = { λ m. members_of m.bits };
}

/// What a term asks of a packet. Degrees are in millionths, north and east positive.
#[derive(Drop)]
pub enum What {
    /// A place within so many kilometres of a point.
    Range {
        lat: i32,
        lon: i32,
        km: u32,
    },
    /// A source that begins with a name.
    Prefix(Names),
    /// A source that matches a name.
    Buddy(Names),
    /// An object or item whose name matches.
    Object(Names),
    /// A class that has a bit of the mask.
    Class {
        mask: u16,
    },
    /// A class that has a bit of the mask, near the call's last position.
    ClassNear {
        mask: u16,
        call: Call,
        km: u32,
    },
    /// A symbol: codes of the first table, codes of the others, and tables.
    Symbol {
        pri: Marks,
        alt: Marks,
        over: Marks,
    },
    /// A used element of the path that matches.
    Digi(Names),
    /// The element after the construct matches.
    Entry(Names),
    /// The receiver of a message matches.
    Group(Names),
    /// The destination matches.
    Dest(Names),
    /// A place near the call's last position.
    Friend {
        call: Call,
        km: u32,
    },
    /// A place near the last position of the link's own login.
    Mine {
        km: u32,
    },
    /// A place in an area.
    Area {
        north: i32,
        west: i32,
        south: i32,
        east: i32,
    },
    /// A construct of these letters, or a position of a gate.
    Construct {
        letters: Marks,
        gates: bool,
    },
}

/// One term, which passes packets or excludes them. Its numbers are in range: latitudes within 90 degrees,
/// longitudes within 180, and at most 99,999 km.
#[derive(Drop)]
pub struct Term {
    pub exclude: bool,
    pub what: What,
}

impl Model for Term {
    ghost use Rattle.std.specs.Prelude.{IsTrue};
    ghost use Rattle.filter_lang.specs.Terms.{TermSeen, is_in_range};

    ghost Value = { TermSeen };

    ghost view = { λ t. record { exclude = t.exclude; what = t.what } };

    ghost invariant = { λ t. IsTrue (is_in_range t.what) };
}

/// A filter.
#[derive(Drop)]
pub struct FilterSet {
    pub terms: Vec<Term>,
}

impl Model for FilterSet {
    ghost use Rattle.std.specs.Prelude.{List};
    ghost use Rattle.filter_lang.specs.Terms.{TermSeen};

    ghost Value = { List TermSeen };

    ghost view = { λ f. f.terms.items };
}
