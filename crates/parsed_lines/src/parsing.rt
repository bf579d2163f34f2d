//! From many lines to what each of them is.
ghost use Rattle.std.specs.Prelude.{◌≡◌, ◌++◌, All, IfErr, IfOk, OnErr, OnOk, map};
ghost use Rattle.std.specs.List.{AllZip};
ghost use Rattle.parsed_lines.specs.Lines.{IsParsed, IsSound, parsed_of};
ghost use Rattle.parsed_lines.specs.Pieces.{joined};
ghost use Rattle.parsed_lines.specs.declared.parsing.Parsed.{Parsed};

use aprs_base::{Body, Line, Memory, Parts};
use aprs_body::classify;
use rayon::prelude::*;
use std::alloc::{AllocError, Global};
use std::marker::Sync;
use std::thread::Threads;
use tnc2_line::{LineFault, read_into};

/// What a line is.
#[derive(Drop)]
pub enum Parsed {
    /// A packet: its parts, and what its body says.
    Good { parts: Parts, body: Body },
    /// No packet: its first fault.
    Bad(LineFault),
}

/// What the line is.
pub(crate) fn parse(line: &Line) -> Parsed
    ensures { IsParsed line.now result }
{
    let mut parts = Parts::unfilled();
    match read_into(line, &mut parts) {
        Err(fault) => Parsed::Bad(fault),
        Ok(()) => {
            let body = classify(&parts.dest, parts.body.as_slice());
            Parsed::Good { parts, body }
        }
    }
}

/// Fills a packet's parts and what its body says anew, where they are.
fn refill(parts: &mut Parts, body: &mut Body, line: &Line) -> Result<(), LineFault>
    ensures ok { OnOk result (IsParsed line.now (Parsed.Good parts.new body.new)) }
    ensures bad { IfErr result (λ fault. IsParsed line.now (Parsed.Bad fault)) }
{
    parts.vias.clear();
    parts.body.clear();
    read_into(line, parts)?;
    *body = classify(&parts.dest, parts.body.as_slice());
    Ok(())
}

/// What the line is, in place of what another one is. A packet's parts are large, and those of the one before are filled where they
/// are.
pub(crate) fn parse_over(parsed: &mut Parsed, line: &Line)
    ensures { IsParsed line.now parsed.new }
{
    match parsed {
        Parsed::Good { parts, body } => {
            if let Err(fault) = refill(parts, body, line) {
                *parsed = Parsed::Bad(fault);
            }
        }
        Parsed::Bad(_) => *parsed = parse(line),
    }
}

/// How many lines are parsed in turn, into one list: as many as rayon finds worth a thread. What a line is takes 1.7 kB, and
/// is moved less often so than where each is collected by itself.
const PIECE: usize = 1024;

/// What each of the lines is, in order.
fn parse_piece(alloc: Global, lines: &[Line]) -> Result<Vec<Parsed>, AllocError>
    ensures { IfOk result (λ parsed. AllZip IsParsed lines.now parsed.items) }
{
    let mut parsed = Vec::with_capacity(alloc, lines.len())?;
    for line in lines {
        parsed.push(parse(line))?;
    }
    Ok(parsed)
}

/// What each of the lines is, piece by piece. Where they are many, the pieces are parsed side by side.
fn parse_pieces<R: Threads + Sync>(
    rt: &R,
    alloc: Global,
    lines: &[Line],
) -> Result<Vec<Vec<Parsed>>, AllocError>
    ensures { IfOk result (λ pieces. AllZip IsParsed lines.now (joined pieces.items)) }
{
    lines
        .par_chunks(PIECE)
        .map(
            |piece: &[Line]| -> Result<Vec<Parsed>, AllocError>
                ensures { IfOk result (λ parsed. AllZip IsParsed piece.now parsed.items) }
            { parse_piece(alloc, piece) },
        )
        .collect::<Result<Vec<Vec<Parsed>>, AllocError>>(rt, alloc)?
}

/// The pieces in one list. A piece alone is taken as it is.
fn join(alloc: Global, pieces: Vec<Vec<Parsed>>) -> Result<Vec<Parsed>, AllocError>
    ensures { IfOk result (λ parsed. parsed.items ≡ joined pieces.items) }
{
    let mut parsed = Vec::new(alloc);
    for mut piece in pieces {
        if parsed.is_empty() {
            parsed = piece;
        } else {
            parsed.append(&mut piece)?;
        }
    }
    Ok(parsed)
}

/// What each of the lines is, in order.
fn parse_each<R: Threads + Sync>(
    rt: &R,
    alloc: Global,
    lines: &[Line],
) -> Result<Vec<Parsed>, AllocError>
    ensures exact { IfOk result (λ parsed. parsed.items ≡ map parsed_of lines.now) }
    ensures sound { IfOk result (λ parsed. All IsSound parsed.items) }
{
    let pieces = parse_pieces(rt, alloc, lines)?;
    join(alloc, pieces)
}

/// Appends what each of the lines is, in order. Where they are many, they are parsed side by side.
pub fn parse_all<R: Threads + Sync>(
    rt: &R,
    alloc: Global,
    lines: &[Line],
    out: &mut Vec<Parsed>,
) -> Result<(), Memory>
    ensures exact { OnOk result (out.new.items ≡ out.old.items ++ map parsed_of lines.now) }
    // The parts of each packet among them are parts of some text.
    ensures sound { OnOk result (All IsSound (map parsed_of lines.now)) }
    ensures unchanged { OnErr result (out.new.items ≡ out.old.items) }
{
    let mut parsed = parse_each(rt, alloc, lines)?;
    if out.is_empty() {
        *out = parsed;
    } else {
        out.append(&mut parsed)?;
    }
    Ok(())
}
