//! The fields of rows, and short answers.

use aprs_base::{Call, Line, Memory};
use row_texts::{RowError, read_bytes, write_bytes};
use std::alloc::{AllocError, Global};

/// An answer that is given in words.
pub fn said(alloc: Global, words: &str) -> Result<String, RowError> {
    Ok(String::from_str(alloc, words)?)
}

/// The answer to a question.
pub fn yes_or_no(alloc: Global, is_so: bool) -> Result<String, RowError> {
    said(alloc, if is_so { "yes" } else { "no" })
}

/// Bytes, where there are some to show.
pub fn bytes_or_none(alloc: Global, bytes: Option<&[u8]>) -> Result<String, RowError> {
    match bytes {
        Some(bytes) => Ok(write_bytes(alloc, bytes)?),
        None => said(alloc, "none"),
    }
}

/// Want of memory in a crate of the server.
pub fn no_memory(_memory: Memory) -> RowError {
    RowError::Memory(AllocError)
}

/// A field that is a call.
pub fn read_call(alloc: Global, field: &str) -> Result<Call, RowError> {
    let text = read_bytes(alloc, field)?;
    Call::read(text.as_slice()).ok_or(RowError::Word)
}

/// A field that is a line.
pub fn read_line(alloc: Global, field: &str) -> Result<Line, RowError> {
    let text = read_bytes(alloc, field)?;
    Line::new(text.as_slice()).ok_or(RowError::Word)
}
