//! The definitions of histories: rounds, verdicts, texts, ends, acts due, runs, and what it is that a core stands for a history.
#![tactic(auto)]

mod laws;
mod verdicts;

pub use laws::{
    acceptances_are_apart, journals_tell_each_entry, lines_arrive_whole, links_bring_what_came,
    links_end_in_their_round, links_say_what_they_brought, messages_follow_the_rule,
    none_names_the_server, origins_are_stations, packets_come_from_lines, refusals_change_nothing,
    runs_keep_the_promise, servers_get_submissions, submissions_are_cast, texts_are_lines,
    texts_have_what_links_want, uplink_logins_are_good,
};
pub use verdicts::{
    Admission, EndReason, FilterAnswer, FilterFault, LinkKind, Refusal, Session, Verdict,
};
