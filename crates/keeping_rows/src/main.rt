//! Reads rows of what is kept and told, and prints each with its answer: tables, journals, queues, what links are fed, uplinks,
//! drills, verdicts. The first word of a row names the table that it is for.
#![tactic(auto)]

mod drills;
mod entries;
mod feeds;
mod fields;
mod heard;
mod items;
mod journals;
mod links;
mod queues;
mod refusals;
mod stations;
mod tables;
mod uplinks;
mod verdicts;
mod windows;

use crate::tables::print_answers;
use row_texts::read_rows;
use std::hash::RandomState;
use std::io;

fn main(rt: HostRuntime) -> io::Result<()> {
    let hasher = RandomState::new(&rt)?;
    let text = read_rows(&rt)?;
    print_answers(&rt, &hasher, text.as_str())
}
