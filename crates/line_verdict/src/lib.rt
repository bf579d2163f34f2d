//! What a line is to the server: the verdict on it, and what the server answers.
#![tactic(auto)]

mod judging;
mod replies;
mod submitting;
mod voices;

pub use judging::{is_comment_line, judge_comment, judge_login, line_of};
pub use replies::{banner_line, comment_of, denied_line, login_line, refusal_line, uplink_line};
pub use submitting::submitter_of;
pub use voices::Voice;
