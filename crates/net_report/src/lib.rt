//! What the text of a network's script comes to: its steps are done in a network that runs, and then reported.
#![tactic(auto)]

mod openings;
mod running;

pub use running::text_of;
