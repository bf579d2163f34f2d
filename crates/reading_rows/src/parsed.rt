//! Lines that are parsed together.

use crate::fields::{no_memory, read_line, said};
use crate::packets::parts_text;
use crate::places::body_text;
use aprs_base::Line;
use parsed_lines::{Ahead, Parsed, parse_all};
use row_texts::{RowError, read_bytes};
use std::alloc::{AllocError, Global};
use std::marker::Sync;
use std::str;
use std::thread::Threads;

/// What a line is, on a line of its own.
fn put_parsed(alloc: Global, text: &mut String, parsed: &Parsed) -> Result<(), AllocError> {
    match parsed {
        Parsed::Good { parts, body } => {
            let packet = parts_text(alloc, parts)?;
            write!(text, "\n    {packet} is {}", body_text(alloc, body)?)
        }
        Parsed::Bad(fault) => write!(text, "\n    {fault:?}"),
    }
}

/// What each line is.
fn parsed_text(alloc: Global, lines: &[Parsed]) -> Result<String, AllocError> {
    let mut text = String::new(alloc);
    for parsed in lines {
        put_parsed(alloc, &mut text, parsed)?;
    }
    Ok(text)
}

/// What lines are that are looked for one by one.
fn sought_text(alloc: Global, ahead: &mut Ahead, lines: &[Line]) -> Result<String, AllocError> {
    let mut text = String::new(alloc);
    for line in lines {
        ahead.seek(line);
        put_parsed(alloc, &mut text, ahead.what_it_is())?;
    }
    Ok(text)
}

/// Lines that are parted by blanks.
fn read_lines(alloc: Global, text: &str) -> Result<Vec<Line>, RowError> {
    let mut lines = Vec::new(alloc);
    for field in text.split_ascii_whitespace() {
        lines.push(read_line(alloc, field)?)?;
    }
    Ok(lines)
}

/// What lines are that are parsed in several calls, between which `|` stands.
pub fn parse<R: Threads + Sync>(rt: &R, alloc: Global, row: &str) -> Result<String, RowError> {
    let mut out = Vec::new(alloc);
    for call in row.split('|') {
        let lines = read_lines(alloc, call)?;
        parse_all(rt, alloc, lines.as_slice(), &mut out).map_err(no_memory)?;
    }
    Ok(parsed_text(alloc, out.as_slice())?)
}

/// Many lines, each of which is to be what it is by itself.
pub fn together<R: Threads + Sync>(rt: &R, alloc: Global, row: &str) -> Result<String, RowError> {
    let text = read_bytes(alloc, row)?;
    let text = str::from_utf8(text.as_slice()).map_err(|_| RowError::Word)?;
    let lines = read_lines(alloc, text)?;
    let mut out = Vec::new(alloc);
    parse_all(rt, alloc, lines.as_slice(), &mut out).map_err(no_memory)?;
    let alone = sought_text(alloc, &mut Ahead::none(alloc), lines.as_slice())?;
    if parsed_text(alloc, out.as_slice())?.as_str() != alone.as_str() {
        return said(alloc, "otherwise alone");
    }
    Ok(format!(in alloc; "{} lines, each as it is alone", out.len())?)
}

/// What the lines after `|` are, where those before it were parsed ahead.
pub fn ahead<R: Threads + Sync>(rt: &R, alloc: Global, row: &str) -> Result<String, RowError> {
    let (before, after) = row.split_once('|').ok_or(RowError::Word)?;
    let mut ahead = Ahead::none(alloc);
    ahead
        .parse(rt, alloc, read_lines(alloc, before)?)
        .map_err(no_memory)?;
    let after = read_lines(alloc, after)?;
    Ok(sought_text(alloc, &mut ahead, after.as_slice())?)
}
