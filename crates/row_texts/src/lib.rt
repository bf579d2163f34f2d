//! Rows of text that a program reads from its data and prints with what it makes of them.
//!
//! The first word of a row names what is tried, and further words are its fields; the last field may be the rest of the
//! line. Lines that are empty or begin with `#` are no rows. A field's bytes stand as they are or by escapes: `\r`, `\n`,
//! `\t`, `\s` for a blank, `\\`, `\xHH`, `\e` for none at all, and `\(TEXT)N.` for TEXT N times. A backslash before a
//! parenthesis is written `\x5c`.
#![tactic(auto)]

mod bytes;
mod errors;
mod rows;

pub use bytes::{read_bytes, write_bytes};
pub use errors::RowError;
pub use rows::{is_row, print_row, read_rows, split_word};
