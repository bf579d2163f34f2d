//! What the words of the program ask for.

use crate::events::push;
use aprsc_daemon::{Words, WordsError, read_words};
use row_texts::{RowError, is_row, print_row, read_bytes, split_word};
use std::alloc::Global;
use std::io;

/// The words of a row, of which each may hold blanks by their escape.
pub fn words_of(alloc: Global, row: &str) -> Result<Vec<String>, RowError> {
    let mut words = Vec::new(alloc);
    for word in row.split_whitespace() {
        let bytes = read_bytes(alloc, word)?;
        let text = String::from_utf8(bytes).map_err(|_| RowError::Word)?;
        push(&mut words, text)?;
    }
    Ok(words)
}

fn asked(alloc: Global, row: &str) -> Result<String, RowError> {
    let words = words_of(alloc, row)?;
    let text = match read_words(alloc, words.as_slice()) {
        Ok(Words::Server(asked)) => {
            format!(in alloc; "{:?} of '{}' by {}", asked.task, asked.file, asked.workers)?
        }
        Ok(Words::Drill(asked)) => {
            let plan = asked.plan;
            format!(in alloc;
                "Drill of {} {} {} by {}",
                plan.seed, plan.lines, plan.links, asked.workers
            )?
        }
        Ok(Words::Net(asked)) => format!(in alloc; "Net of '{}'", asked.file)?,
        Err(WordsError::Refused) => String::from_str(alloc, "refused")?,
        Err(WordsError::Memory) => String::from_str(alloc, "no memory")?,
    };
    Ok(text)
}

/// Tells of each row what its words ask for.
pub fn tell_words<R: AllocGlobal + Print>(rt: &R, rows: &str) -> io::Result<()> {
    for row in rows.lines() {
        if is_row(row) {
            let (_, words) = split_word(row);
            print_row(rt, row, asked(rt.alloc(), words))?;
        } else {
            println!(rt; "{row}")?;
        }
    }
    Ok(())
}
