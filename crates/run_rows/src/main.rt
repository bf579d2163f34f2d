//! Runs scripts: the top call serves the events of each over forms in memory, and each row is printed with what happened
//! behind it.
//!
//! A paragraph is a run. One with no heading goes on after the rows of the last one with a heading, whose happenings it
//! doesn't print again. The wire gives a stop past the last event. A paragraph of rows `asks` is no run: it tells what the
//! words of the program ask for.
//!
//! Rows of what comes: `tick MOMENT`, `open LINK LISTENER` and `joined UPLINK LINK`, both perhaps with an address and a port,
//! `unjoined UPLINK`, `says LINK TEXT`, `bytes LINK TEXT` byte by byte, `lines LINK N TEXT` with the text N times,
//! `datagram LISTENER ADDRESS PORT TEXT`, `room LINK`, `ended LINK`, `stop`, and `repeat N ROW ; ROW` with the rows N times. In
//! `lines` and `repeat` the sign `\#` counts from 1.
//!
//! Rows of the outside: `words ..` of the program (`-c c`), `name NAME` of the file (`c`), `file NAME` for its text from one of
//! data/, and `conf LINE` for a line more; `takes all`, `takes most N` and `takes gone`, for one send each, of which those
//! past the last are taken whole; `fails listen N`, or `next`, `read`, `sink`, for the call before which N were made; `most N`
//! for the bytes that the sink takes in a call; and the journals `journal KINDS ROOM`, `failing KINDS N`, which fails the line
//! before which N were told, and `counting KINDS N`, which takes N lines. `report FILE` names a file of data/: where the run
//! writes its text, that name is told in place of the text.
//!
//! `short` tells only how much each link took. `each next` tries the run again with each call of `next` failing, and
//! `prefixes LINK TEXT` with the link saying each beginning of the text and ending.
#![tactic(auto)]

mod asking;
mod events;
mod faults;
mod running;
mod script;
mod telling;

use crate::asking::tell_words;
use crate::running::play;
use row_texts::read_rows;
use std::hash::RandomState;
use std::io;

fn main(rt: HostRuntime) -> io::Result<()> {
    let hasher = RandomState::new(&rt)?;
    let text = read_rows(&rt)?;
    let mut base = String::new(rt.alloc());
    for paragraph in text.as_str().split("\n\n") {
        if paragraph.contains("\nasks ") {
            tell_words(&rt, paragraph)?;
        } else if paragraph.starts_with('#') {
            base = String::from_str(rt.alloc(), paragraph)?;
            play(&rt, &hasher, "", paragraph)?;
        } else {
            play(&rt, &hasher, base.as_str(), paragraph)?;
        }
        println!(rt; "")?;
    }
    Ok(())
}
