//! A field's bytes, read and written by escapes.

use crate::errors::RowError;
use std::alloc::{AllocError, Global};
use std::str::Chars;

/// The field with each `\(TEXT)N.` written out.
fn repeated(alloc: Global, field: &str) -> Result<String, RowError> {
    let mut parts = field.split("\\(");
    let first = parts.next().unwrap_or("");
    let mut text = String::from_str(alloc, first)?;
    for part in parts {
        let (unit, after) = part.split_once(')').ok_or(RowError::Escape)?;
        let (count, plain) = after.split_once('.').ok_or(RowError::Escape)?;
        for _ in 0..count.parse::<u32>()? {
            text.push_str(unit)?;
        }
        text.push_str(plain)?;
    }
    Ok(text)
}

/// The byte of two hexadecimal digits.
fn hex_byte(letters: &mut Chars) -> Option<u8> {
    let high = letters.next()?.to_digit(16)?;
    let low = letters.next()?.to_digit(16)?;
    u8::try_from(high << 4 | low).ok()
}

/// The byte of what stands after a backslash.
fn escaped(letters: &mut Chars) -> Option<u8> {
    match letters.next()? {
        'r' => Some(b'\r'),
        'n' => Some(b'\n'),
        't' => Some(b'\t'),
        's' => Some(b' '),
        '\\' => Some(b'\\'),
        'x' => hex_byte(letters),
        _ => None,
    }
}

/// The bytes that a field stands for.
pub fn read_bytes(alloc: Global, field: &str) -> Result<Vec<u8>, RowError> {
    let mut bytes = Vec::new(alloc);
    if field == "\\e" {
        return Ok(bytes);
    }
    let text = repeated(alloc, field)?;
    let mut letters = text.chars();
    for _ in 0..text.len() {
        match letters.next() {
            Some('\\') => bytes.push(escaped(&mut letters).ok_or(RowError::Escape)?)?,
            Some(letter) => bytes.extend_from_slice(letter.encode_utf8(&mut [0; 4]).as_bytes())?,
            None => break,
        }
    }
    Ok(bytes)
}

/// Adds what stands for a byte within a field.
fn write_byte(text: &mut String, byte: u8) -> Result<(), AllocError> {
    match byte {
        b'\r' => text.push_str("\\r"),
        b'\n' => text.push_str("\\n"),
        b'\t' => text.push_str("\\t"),
        b'\\' => text.push_str("\\\\"),
        b' '..=b'~' => text.push(char::from(byte)),
        _ => write!(text, "\\x{byte:02x}"),
    }
}

/// The field that stands for bytes. Blanks stand as they are, but at its ends.
pub fn write_bytes(alloc: Global, bytes: &[u8]) -> Result<String, AllocError> {
    let mut text = String::new(alloc);
    if bytes.is_empty() {
        text.push_str("\\e")?;
    }
    let last = bytes.len().saturating_sub(1);
    for (index, byte) in bytes.iter().enumerate() {
        if *byte == b' ' && (index == 0 || index == last) {
            text.push_str("\\s")?;
        } else {
            write_byte(&mut text, *byte)?;
        }
    }
    Ok(text)
}
