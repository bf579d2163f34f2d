//! The lines of the journal: one for each refusal, each loop, and each step of a session.
#![tactic(auto)]

mod lines;
mod names;
mod writing;

pub use lines::{
    duplicate_line, end_line, filter_line, join_line, login_line, open_line, refusal_line,
    unjoined_line,
};
