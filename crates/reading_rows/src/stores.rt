//! Files and sinks in memory, some of whose calls fail.

use crate::fields::no_memory;
use aprs_base::{FileError, Files, MemFile, MemFiles, MemSink, Sink, SinkError, Text};
use row_texts::{RowError, read_bytes, split_word, write_bytes};
use std::alloc::{AllocError, Global};

/// Numbers that are parted by commas, or `-`.
fn numbers(alloc: Global, field: &str) -> Result<Vec<u64>, RowError> {
    let mut numbers = Vec::new(alloc);
    if field != "-" {
        for number in field.split(',') {
            numbers.push(number.parse::<u64>()?)?;
        }
    }
    Ok(numbers)
}

/// What is read of a file with a limit, after what was read before it.
fn read_file(
    files: &mut MemFiles,
    file: &str,
    out: &mut Vec<u8>,
) -> Result<Option<FileError>, RowError> {
    let (name, limit) = file.split_once(':').ok_or(RowError::Word)?;
    match files.read(name, limit.parse::<usize>()?, out) {
        Ok(()) => Ok(None),
        Err(FileError::Memory) => Err(RowError::Memory(AllocError)),
        Err(error) => Ok(Some(error)),
    }
}

/// The file `NAME:TEXT`, the calls that fail, and reads of `NAME:LIMIT`.
pub fn reads(alloc: Global, row: &str) -> Result<String, RowError> {
    let (file, row) = split_word(row);
    let (fails, reads) = split_word(row);
    let (name, bytes) = file.split_once(':').ok_or(RowError::Word)?;
    let file = MemFile {
        name: Text::copied(alloc, name.as_bytes()).map_err(no_memory)?,
        bytes: Text::copied(alloc, bytes.as_bytes()).map_err(no_memory)?,
    };
    let mut files = MemFiles::new(vec![in alloc; file]?, numbers(alloc, fails)?);
    let mut out = Vec::new(alloc);
    let mut text = String::new(alloc);
    for read in reads.split(' ') {
        match read_file(&mut files, read, &mut out)? {
            None => write!(text, "\n    {}", write_bytes(alloc, out.as_slice())?)?,
            Some(error) => write!(text, "\n    {error:?}")?,
        }
    }
    Ok(text)
}

/// The calls that fail, how many bytes are taken at most, and what is written.
pub fn writes(alloc: Global, row: &str) -> Result<String, RowError> {
    let (fails, row) = split_word(row);
    let (most, pieces) = split_word(row);
    let mut sink = MemSink::new(alloc, numbers(alloc, fails)?, most.parse::<usize>()?);
    let mut text = String::new(alloc);
    for piece in pieces.split(' ') {
        match sink.write(piece.as_bytes()) {
            Ok(count) => write!(text, "\n    {count}")?,
            Err(SinkError::Memory) => return Err(RowError::Memory(AllocError)),
            Err(error) => write!(text, "\n    {error:?}")?,
        }
    }
    write!(
        text,
        "\n    text {}",
        write_bytes(alloc, sink.text.as_slice())?
    )?;
    Ok(text)
}
