//! Lines as packets.

use crate::fields::read_line;
use aprs_base::{Line, Parts, Via};
use row_texts::{RowError, write_bytes};
use std::alloc::{AllocError, Global};
use tnc2_line::{construct, read, read_into, write};

/// The elements of a path, each after a blank.
fn path_text(alloc: Global, vias: &[Via]) -> Result<String, AllocError> {
    let mut text = String::new(alloc);
    for via in vias {
        let star = if via.star { "*" } else { "" };
        write!(text, " {}{star}", write_bytes(alloc, via.call.bytes())?)?;
    }
    if vias.is_empty() {
        text.push_str(" -")?;
    }
    Ok(text)
}

/// A packet's parts.
pub fn parts_text(alloc: Global, parts: &Parts) -> Result<String, AllocError> {
    let source = write_bytes(alloc, parts.source.bytes())?;
    let dest = write_bytes(alloc, parts.dest.bytes())?;
    let path = path_text(alloc, parts.vias.as_slice())?;
    let body = write_bytes(alloc, parts.body.as_slice())?;
    format!(in alloc; "source {source} dest {dest} path{path} body {body}")
}

/// A packet's parts, or the line's first fault.
pub fn parts(alloc: Global, field: &str) -> Result<String, RowError> {
    match read(&read_line(alloc, field)?) {
        Ok(parts) => Ok(parts_text(alloc, &parts)?),
        Err(fault) => Ok(format!(in alloc; "{fault:?}")?),
    }
}

/// A packet's parts, put into those that are still to be filled, or the line's first fault.
pub fn filled(alloc: Global, field: &str) -> Result<String, RowError> {
    let mut parts = Parts::unfilled();
    match read_into(&read_line(alloc, field)?, &mut parts) {
        Ok(()) => Ok(parts_text(alloc, &parts)?),
        Err(fault) => Ok(format!(in alloc; "{fault:?}")?),
    }
}

/// The place of a packet's construct.
pub fn construct_place(alloc: Global, field: &str) -> Result<String, RowError> {
    let Ok(parts) = read(&read_line(alloc, field)?) else {
        return Err(RowError::Word);
    };
    Ok(format!(in alloc; "{:?}", construct(&parts))?)
}

/// The line that is written of a line's packet.
pub fn written(alloc: Global, field: &str) -> Result<String, RowError> {
    let Ok(parts) = read(&read_line(alloc, field)?) else {
        return Err(RowError::Word);
    };
    line_text(alloc, write(&parts).ok())
}

/// A line that was written, where it is short enough.
pub fn line_text(alloc: Global, line: Option<Line>) -> Result<String, RowError> {
    match line {
        Some(line) => Ok(write_bytes(alloc, line.bytes())?),
        None => Ok(String::from_str(alloc, "long")?),
    }
}
