//! The server's program as a library: the top call over files, a wire and a sink that are handed in.
#![tactic(auto)]

mod configuring;
mod drill;
mod fronts;
mod journals;
mod laws;
mod program;
mod real;
mod saying;
mod serving;
mod words;

pub use configuring::Trouble;
pub use journals::{ErrorJournal, FileJournal, tell_all};
pub use laws::runs_are_seen;
pub use program::aprsc;
pub use real::{RealFiles, RealSink};
pub use saying::{bad_step, listen_failed, too_large, trouble, unread, usage, valid, write_all};
pub use words::{DrillWords, NetWords, ServerWords, Task, Words, WordsError, read_words};
