//! What is wrong with a row.

use std::alloc::AllocError;
use std::num::ParseIntError;
use thiserror::Error;

/// Why a row gets no answer.
#[derive(Debug, Drop, Error)]
pub enum RowError {
    /// Want of memory, which is no fault of the row.
    #[error("no memory")]
    Memory(#[from(alloc)] AllocError),
    /// A backslash before something that is no escape.
    #[error("not an escape")]
    Escape,
    /// A field that is to be a number.
    #[error("not a number")]
    Number(#[from] ParseIntError),
    /// A word that names nothing to try, or a field of no meaning.
    #[error("not a known word")]
    Word,
}
