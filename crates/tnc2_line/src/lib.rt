//! The packet lines of APRS-IS: their grammar, read and written.
#![tactic(auto)]

mod reading;
mod writing;

pub use reading::{LineFault, construct, read, read_into};
pub use writing::{LongOut, write};
