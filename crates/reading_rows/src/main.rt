//! Reads rows of what is read and written (calls, lines, logins, requests, packets, bodies, positions, filters, configurations, scripts), and
//! prints each with what it becomes. The gate compares that with the file stdout, whose answers come from the public
//! standards or were worked out by hand.
#![tactic(auto)]

mod confs;
mod constructs;
mod fields;
mod filters;
mod fronts;
mod logins;
mod packets;
mod parsed;
mod places;
mod requests;
mod scripts;
mod stores;
mod texts;

use row_texts::{RowError, is_row, print_row, read_rows, split_word};
use std::alloc::Global;
use std::fs::Files;
use std::io;
use std::marker::Sync;
use std::thread::Threads;

/// What a place, a filter or a configuration becomes.
fn second_answer(alloc: Global, word: &str, row: &str) -> Result<String, RowError> {
    match word {
        "plain" => places::plain(alloc, row),
        "compressed" => places::compressed(alloc, row),
        "either" => places::either(alloc, row),
        "mic-e" => places::mic_e(alloc, row),
        "body" => places::body(alloc, row),
        "half-sine" => places::sine(alloc, row),
        "within" => places::near(alloc, row),
        "date" => places::date(alloc, row),
        "filter" => filters::canonical(alloc, row),
        "passes" => filters::unseen(alloc, row),
        "passes-seen" => filters::sighted(alloc, row),
        "fresh" => filters::fresh(alloc, row),
        "position-age" => filters::position_age(alloc),
        "conf" => confs::conf(alloc, row),
        "conf-again" => confs::again(alloc, row),
        "conf-served" => confs::served(alloc, row),
        "script" => scripts::script(alloc, row),
        "script-confs" => scripts::confs(alloc, row),
        _ => Err(RowError::Word),
    }
}

/// What a text, a line or a packet becomes.
fn first_answer(alloc: Global, word: &str, row: &str) -> Result<String, RowError> {
    match word {
        "call" => texts::call(alloc, row),
        "station" => texts::station(alloc, row),
        "line" => texts::line(alloc, row),
        "cuts" => texts::cuts(alloc, row),
        "reads" => stores::reads(alloc, row),
        "writes" => stores::writes(alloc, row),
        "login" => logins::login(alloc, row),
        "passcode" => logins::pass(alloc, row),
        "code" => logins::code(alloc, row),
        "downlink" => logins::downlink_port(alloc, row),
        "post" => requests::post(alloc, row),
        "get" => fronts::get(alloc, row),
        "get-grown" => fronts::get_grown(alloc, row),
        "handed-up" => fronts::handed_up(alloc, row),
        "packet" => packets::parts(alloc, row),
        "filled" => packets::filled(alloc, row),
        "construct" => packets::construct_place(alloc, row),
        "written" => packets::written(alloc, row),
        "goes-on" => constructs::goes_on(alloc, row),
        _ => second_answer(alloc, word, row),
    }
}

/// What a row becomes.
fn answer<R: AllocGlobal + Files + Threads + Sync>(rt: &R, row: &str) -> Result<String, RowError> {
    let alloc = rt.alloc();
    let (word, fields) = split_word(row);
    match word {
        "parse" => parsed::parse(rt, alloc, fields),
        "together" => parsed::together(rt, alloc, fields),
        "ahead" => parsed::ahead(rt, alloc, fields),
        "conf-file" => confs::file(rt, fields),
        _ => first_answer(alloc, word, fields),
    }
}

fn main(rt: HostRuntime) -> io::Result<()> {
    let text = read_rows(&rt)?;
    for line in text.as_str().lines() {
        if is_row(line) {
            print_row(&rt, line, answer(&rt, line))?;
        } else {
            println!(rt; "{line}")?;
        }
    }
    Ok(())
}
