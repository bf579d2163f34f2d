//! Lines that are parsed ahead, and found again where they are met.
ghost use Rattle.std.specs.Prelude.{◌≡◌, [], IfSome, OnErr, OnOk, Some, slice_get};
ghost use Rattle.parsed_lines.specs.Lines.{IsParsed};

use crate::parsing::{Parsed, parse_all, parse_over};
use aprs_base::{Line, Memory};
use std::alloc::Global;
use std::marker::{Model, Sync};
use std::thread::Threads;
use tnc2_line::LineFault;

/// Lines that were parsed before they are met, in the order in which they come. It is seen as their texts, and what that line is
/// that was looked for last.
#[derive(Drop)]
pub struct Ahead {
    lines: Vec<Line>,
    parsed: Vec<Parsed>,
    /// Where the next line is looked for.
    next: usize,
    /// The line that was looked for last, where it is among them, and what it is where it isn't.
    last: usize,
    other: Parsed,
}

impl Model for Ahead {
    ghost use Rattle.std.specs.Prelude.{◌≡◌, All, get_or, map};
    ghost use Rattle.parsed_lines.specs.Lines.{AheadSeen, IsSound, parsed_of};

    ghost Value = { AheadSeen };

    ghost view = { λ a. record { lines = a.lines.items; last = get_or a.parsed.items a.last a.other } };

    ghost invariant = { λ a. (a.parsed.items ≡ map parsed_of a.lines.items) × All IsSound a.parsed.items };
}

/// Where the line stands, from a place on.
fn place_from(lines: &[Line], from: usize, line: &Line) -> Option<usize>
    ensures { IfSome result (λ place. slice_get lines.now place ≡ Some line.now) }
{
    for place in from..lines.len() {
        if lines[place] == *line {
            return Some(place);
        }
    }
    None
}

impl Ahead {
    /// No lines.
    pub fn none(alloc: Global) -> Ahead
        ensures { result.lines ≡ [] }
    {
        Ahead {
            lines: Vec::new(alloc),
            parsed: Vec::new(alloc),
            next: 0,
            last: 0,
            other: Parsed::Bad(LineFault::NoColon),
        }
    }

    /// Lets go of all lines.
    pub fn clear(&mut self, alloc: Global)
        ensures { self.new.lines ≡ [] }
    {
        self.lines = Vec::new(alloc);
        self.parsed = Vec::new(alloc);
        self.next = 0;
        self.last = 0;
    }

    /// Parses these lines in place of those before, side by side where they are many.
    pub fn parse<R: Threads + Sync>(
        &mut self,
        rt: &R,
        alloc: Global,
        lines: Vec<Line>,
    ) -> Result<(), Memory>
        ensures ok { OnOk result (self.new.lines ≡ lines.items) }
        ensures err { OnErr result (self.new ≡ self.old) }
    {
        let mut parsed = Vec::new(alloc);
        parse_all(rt, alloc, lines.as_slice(), &mut parsed)?;
        self.lines = lines;
        self.parsed = parsed;
        self.next = 0;
        Ok(())
    }

    /// Looks for a line. Lines are looked for in the order in which they come, and some of them may be passed over; one that isn't
    /// among them is parsed now.
    pub fn seek(&mut self, line: &Line)
        ensures parsed { IsParsed line.now self.new.last }
        ensures lines { self.new.lines ≡ self.old.lines }
    {
        match place_from(self.lines.as_slice(), self.next, line) {
            Some(place) => {
                self.last = place;
                self.next = place + 1;
            }
            None => {
                self.last = self.parsed.len();
                parse_over(&mut self.other, line);
            }
        }
    }

    /// What the line is that was looked for last.
    pub fn what_it_is(&self) -> &Parsed
        ensures { result.now ≡ self.now.last }
    {
        match self.parsed.get(self.last) {
            Some(parsed) => parsed,
            None => &self.other,
        }
    }
}
