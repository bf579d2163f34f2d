//! Rows, read from files and printed.

use crate::errors::RowError;
use std::fs::{self, Files};
use std::io;

/// The texts of the working folder's files that end in `.rows`, in rising order of their names.
pub fn read_rows<R: AllocGlobal + Clone + Files>(rt: &R) -> io::Result<String> {
    let mut names = Vec::new(rt.alloc());
    for entry in fs::read_dir(rt, ".")? {
        let entry = entry?;
        if entry.file_name().ends_with(".rows") {
            names.push(String::from_str(rt.alloc(), entry.file_name())?)?;
        }
    }
    names.sort()?;
    let mut text = String::new(rt.alloc());
    for name in &names {
        text.push_str(fs::read_to_string(rt, name.as_str())?.as_str())?;
    }
    Ok(text)
}

/// Whether a line is a row, and neither empty nor a heading.
pub fn is_row(line: &str) -> bool {
    !line.is_empty() && !line.starts_with('#')
}

/// The first word, and the rest with no blanks before it.
pub fn split_word(row: &str) -> (&str, &str) {
    match row.split_once(' ') {
        Some((word, rest)) => (word, rest.trim_start()),
        None => (row, ""),
    }
}

/// Prints a row and its answer. An answer that begins with a line's end stands below its row.
pub fn print_row<R: Print>(rt: &R, row: &str, answer: Result<String, RowError>) -> io::Result<()> {
    match answer {
        Ok(answer) if answer.as_str().starts_with('\n') => println!(rt; "{row} ={answer}"),
        Ok(answer) => println!(rt; "{row} = {answer}"),
        Err(RowError::Memory(error)) => Err(io::Error::from(error)),
        Err(error) => println!(rt; "{row} = error: {error}"),
    }
}
