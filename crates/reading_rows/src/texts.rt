//! Calls, lines and their cutting.

use crate::fields::{bytes_or_none, no_memory, read_call, said, yes_or_no};
use aprs_base::{Call, Cut, Cutter, Line, Memory};
use row_texts::{RowError, read_bytes, write_bytes};
use std::alloc::{AllocError, Global};

/// A call.
pub fn call(alloc: Global, field: &str) -> Result<String, RowError> {
    let text = read_bytes(alloc, field)?;
    let call = Call::read(text.as_slice());
    bytes_or_none(alloc, call.as_ref().map(|call| call.bytes()))
}

/// Whether a call may be a station's.
pub fn station(alloc: Global, field: &str) -> Result<String, RowError> {
    yes_or_no(alloc, read_call(alloc, field)?.is_station())
}

/// A line.
pub fn line(alloc: Global, field: &str) -> Result<String, RowError> {
    let text = read_bytes(alloc, field)?;
    let line = Line::new(text.as_slice());
    bytes_or_none(alloc, line.as_ref().map(|line| line.bytes()))
}

/// Each cut, on a line of its own.
fn cuts_text(alloc: Global, cuts: &[Cut]) -> Result<String, AllocError> {
    let mut text = String::new(alloc);
    for cut in cuts {
        match cut {
            Cut::Line(line) => write!(text, "\n    line {}", write_bytes(alloc, line.bytes())?)?,
            Cut::Long => text.push_str("\n    long")?,
        }
    }
    Ok(text)
}

/// Feeds a piece byte by byte.
fn feed_bytes(
    alloc: Global,
    cutter: &mut Cutter,
    piece: &[u8],
    cuts: &mut Vec<Cut>,
) -> Result<(), Memory> {
    for byte in piece {
        cutter.feed(alloc, &[*byte], cuts)?;
    }
    Ok(())
}

/// The cuts of pieces, which are to be the same where each byte comes alone.
pub fn cuts(alloc: Global, pieces: &str) -> Result<String, RowError> {
    let mut cutter = Cutter::new();
    let mut cuts = Vec::new(alloc);
    let mut alone = Cutter::new();
    let mut alone_cuts = Vec::new(alloc);
    for piece in pieces.split(' ') {
        let piece = read_bytes(alloc, piece)?;
        let bytes = piece.as_slice();
        cutter.feed(alloc, bytes, &mut cuts).map_err(no_memory)?;
        feed_bytes(alloc, &mut alone, bytes, &mut alone_cuts).map_err(no_memory)?;
    }
    let text = cuts_text(alloc, cuts.as_slice())?;
    if cuts_text(alloc, alone_cuts.as_slice())?.as_str() != text.as_str() {
        return said(alloc, "otherwise byte by byte");
    }
    Ok(text)
}
