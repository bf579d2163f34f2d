//! The fields of a row, and what its answers are made of.

use aprs_base::{Call, Line, Memory};
use row_texts::{RowError, read_bytes, split_word, write_bytes};
use std::alloc::{AllocError, AllocFailed, Global};
use std::fmt::Display;
use std::str::FromStr;
use std::sync::Arc;

/// Why a row gets no answer.
#[derive(Clone, Copy)]
pub enum Fault {
    Memory,
    /// A word that names nothing, or a field of no meaning.
    Unknown,
}

impl From<RowError> for Fault {
    fn from(error: RowError) -> Fault {
        match error {
            RowError::Memory(_) => Fault::Memory,
            _ => Fault::Unknown,
        }
    }
}

impl From<AllocError> for Fault {
    fn from(_error: AllocError) -> Fault {
        Fault::Memory
    }
}

impl<T: Drop> From<AllocFailed<T>> for Fault {
    fn from(_failed: AllocFailed<T>) -> Fault {
        Fault::Memory
    }
}

impl From<Memory> for Fault {
    fn from(_memory: Memory) -> Fault {
        Fault::Memory
    }
}

/// What a row answers.
pub type Answer = Result<String, Fault>;

/// The fields of a row that are left. Where one is to be a number or a call and is none, another value is read in its place,
/// and the row is unsound.
#[derive(Drop)]
pub struct Fields<'a> {
    pub alloc: Global,
    pub rest: &'a str,
    unsound: bool,
}

impl<'a> Fields<'a> {
    pub fn new(alloc: Global, rest: &'a str) -> Fields<'a> {
        Fields {
            alloc,
            rest,
            unsound: false,
        }
    }

    /// The next field.
    pub fn word(&mut self) -> &'a str {
        let (word, rest) = split_word(self.rest);
        self.rest = rest;
        word
    }

    /// What the next field names.
    pub fn named<T: Copy>(&mut self, names: &[(&str, T)]) -> Result<T, Fault> {
        let word = self.word();
        for (name, value) in names {
            if *name == word {
                return Ok(*value);
            }
        }
        Err(Fault::Unknown)
    }

    /// The next field as a number, unless there is none or it is `none`.
    pub fn perhaps<N: FromStr>(&mut self) -> Option<N>
    where
        N::Err: Drop,
    {
        let word = self.word();
        if word.is_empty() || word == "none" {
            return None;
        }
        let number = word.parse::<N>().ok();
        self.unsound = self.unsound || number.is_none();
        number
    }

    /// The next field as a number.
    pub fn number<N: FromStr + Default>(&mut self) -> N
    where
        N::Err: Drop,
    {
        match self.perhaps() {
            Some(number) => number,
            None => {
                self.unsound = true;
                N::default()
            }
        }
    }

    /// All fields that are left, as numbers.
    pub fn numbers(&mut self) -> Result<Vec<u32>, Fault> {
        let mut numbers = Vec::new(self.alloc);
        for word in self.rest.split_whitespace() {
            match word.parse::<u32>() {
                Ok(number) => numbers.push(number)?,
                Err(_) => self.unsound = true,
            }
        }
        Ok(numbers)
    }

    /// The next field as a call, unless it is `none`.
    pub fn perhaps_call(&mut self) -> Option<Call> {
        let word = self.word();
        if word == "none" {
            return None;
        }
        let call = Call::read(word.as_bytes());
        self.unsound = self.unsound || call.is_none();
        call
    }

    /// The next field as a call.
    pub fn call(&mut self) -> Call {
        let call = self.perhaps_call();
        self.unsound = self.unsound || call.is_none();
        call.unwrap_or_default()
    }

    /// The bytes of all that is left.
    pub fn rest_bytes(&self) -> Result<Vec<u8>, Fault> {
        Ok(read_bytes(self.alloc, self.rest)?)
    }

    /// All that is left as a line.
    pub fn line(&self) -> Result<Line, Fault> {
        let bytes = self.rest_bytes()?;
        Line::new(bytes.as_slice()).ok_or(Fault::Unknown)
    }

    /// All that is left as a line, to be shared.
    pub fn shared_line(&self) -> Result<Arc<Line>, Fault> {
        Ok(Arc::new(self.alloc, self.line()?)?)
    }

    /// The answer of the row, if it is sound.
    pub fn answered(&self, answer: Answer) -> Result<String, RowError> {
        match answer {
            Err(Fault::Memory) => Err(RowError::Memory(AllocError)),
            Ok(text) if !self.unsound => Ok(text),
            _ => Err(RowError::Word),
        }
    }
}

/// A text.
pub fn said(alloc: Global, text: &str) -> Answer {
    Ok(String::from_str(alloc, text)?)
}

/// What was asked may not be asked.
pub fn not_allowed(alloc: Global) -> Answer {
    said(alloc, "not allowed")
}

/// A number.
pub fn shown<N: Display + Drop>(alloc: Global, number: N) -> Answer {
    Ok(number.to_string(alloc)?)
}

/// The number, or `none`.
pub fn or_none<N: Display + Drop>(alloc: Global, number: Option<N>) -> Answer {
    match number {
        Some(number) => shown(alloc, number),
        None => said(alloc, "none"),
    }
}

pub fn yes_or_no(alloc: Global, holds: bool) -> Answer {
    said(alloc, if holds { "yes" } else { "no" })
}

/// Bytes, by their escapes.
pub fn escaped(alloc: Global, bytes: &[u8]) -> Answer {
    Ok(write_bytes(alloc, bytes)?)
}

/// Numbers with blanks between them, or `none`.
pub fn all_of(alloc: Global, numbers: &[u32]) -> Answer {
    if numbers.is_empty() {
        return said(alloc, "none");
    }
    let mut text = String::new(alloc);
    let mut blank = "";
    for number in numbers {
        write!(text, "{blank}{number}")?;
        blank = " ";
    }
    Ok(text)
}
