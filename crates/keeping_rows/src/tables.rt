//! All that rows speak of.

use crate::drills::Drill;
use crate::feeds::Fed;
use crate::fields::{Answer, Fault, Fields};
use crate::heard::Hearers;
use crate::journals::Told;
use crate::links::Links;
use crate::queues::Queues;
use crate::stations::Seen;
use crate::windows::Windows;
use crate::{entries, uplinks, verdicts};
use row_texts::{RowError, is_row, print_row};
use std::alloc::Global;
use std::hash::RandomState;
use std::io;
use std::marker::Sync;
use std::mem::forget;
use std::thread::Threads;
use uplinks_peers::Uplinks;

/// What is kept of stations and packets.
#[derive(Drop)]
struct Kept {
    heard: Hearers,
    stations: Seen,
    windows: Windows,
}

impl Kept {
    fn new(alloc: Global, hasher: &RandomState) -> Result<Kept, Fault> {
        let heard = Hearers::new(alloc, hasher)?;
        let stations = Seen::new(alloc, hasher)?;
        Ok(Kept {
            heard,
            stations,
            windows: Windows::new(alloc, hasher),
        })
    }
}

/// What links are given.
#[derive(Drop)]
struct Given<'a, R> {
    fed: Fed<'a, R>,
    links: Links<'a, R>,
    queues: Queues,
}

impl<'a, R: Threads + Sync> Given<'a, R> {
    fn new(rt: &'a R, alloc: Global) -> Result<Given<'a, R>, Fault> {
        let queues = Queues::new(alloc)?;
        Ok(Given {
            fed: Fed::new(rt, alloc),
            links: Links::new(rt, alloc),
            queues,
        })
    }
}

/// What is said, told and dialled.
#[derive(Drop)]
struct Other {
    drill: Drill,
    journal: Told,
    uplinks: Uplinks,
}

impl Other {
    fn new(alloc: Global) -> Result<Other, Fault> {
        let journal = Told::new(&mut Fields::new(alloc, "count 0 0"))?;
        Ok(Other {
            drill: Drill::new(alloc),
            journal,
            uplinks: Uplinks::new(0, 0),
        })
    }
}

/// A table of each kind.
#[derive(Drop)]
pub struct Tables<'a, R> {
    alloc: Global,
    kept: Kept,
    given: Given<'a, R>,
    other: Other,
}

impl<'a, R: Threads + Sync> Tables<'a, R> {
    pub fn new(rt: &'a R, alloc: Global, hasher: &RandomState) -> Result<Tables<'a, R>, Fault> {
        let kept = Kept::new(alloc, hasher)?;
        let given = Given::new(rt, alloc)?;
        let other = Other::new(alloc)?;
        Ok(Tables {
            alloc,
            kept,
            given,
            other,
        })
    }

    /// What the table answers that a row names.
    fn table_answer(&mut self, fields: &mut Fields) -> Answer {
        match fields.word() {
            "drill" => self.other.drill.answer(fields),
            "entry" => entries::answer(fields),
            "feed" => self.given.fed.answer(fields),
            "heard" => self.kept.heard.answer(fields),
            "journal" => self.other.journal.answer(fields),
            "link" => self.given.links.answer(fields),
            "queue" => self.given.queues.answer(fields),
            "station" => self.kept.stations.answer(fields),
            "uplinks" => uplinks::answer(&mut self.other.uplinks, fields),
            "verdict" => verdicts::answer(fields),
            "window" => self.kept.windows.answer(fields),
            _ => Err(Fault::Unknown),
        }
    }

    /// What a row answers.
    pub fn answer(&mut self, row: &str) -> Result<String, RowError> {
        let mut fields = Fields::new(self.alloc, row);
        let answer = self.table_answer(&mut fields);
        fields.answered(answer)
    }
}

/// Prints the lines, and with each row what it answers.
fn print_lines<R: Print + Threads + Sync>(
    rt: &R,
    tables: &mut Tables<R>,
    text: &str,
) -> io::Result<()> {
    for line in text.lines() {
        if is_row(line) {
            print_row(rt, line, tables.answer(line))?;
        } else {
            println!(rt; "{line}")?;
        }
    }
    Ok(())
}

/// Prints the lines, and with each row what it answers, over tables that are new at first.
pub fn print_answers<R: AllocGlobal + Print + Threads + Sync>(
    rt: &R,
    hasher: &RandomState,
    text: &str,
) -> io::Result<()> {
    match Tables::new(rt, rt.alloc(), hasher) {
        Ok(mut tables) => {
            let printed = print_lines(rt, &mut tables, text);
            // What they keep isn't taken apart: the process ends next.
            forget(tables);
            printed
        }
        Err(_) => Err(io::Error::from(io::ErrorKind::OutOfMemory)),
    }
}
