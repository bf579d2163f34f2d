//! The lines that a link has still to take: a ring of shared lines with a limit.
#![tactic(auto)]

mod batch;
mod pieces;
mod queue;
mod writing;

pub use batch::Batch;
pub use queue::{Overfull, Queue};
