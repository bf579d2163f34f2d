//! Logins: the login line, and the passcode of a call.
#![tactic(auto)]

mod downlinks;
mod login_line;
mod pass;
mod words;

pub use downlinks::downlink;
pub use login_line::{Login, LoginFault, code_number, read_login};
pub use pass::passcode;
