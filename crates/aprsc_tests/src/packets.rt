//! Packets of 475 bytes from N0CALL, which are told apart by a number.

use std::alloc::{AllocError, Global};
use std::ops::Range;

fn packet(alloc: Global, path: &str, number: u32) -> Result<Vec<u8>, AllocError> {
    let mut line = Vec::new(alloc);
    line.extend_from_slice(format!(in alloc; "N0CALL>APRS{path}:>{number:06}")?.as_bytes())?;
    line.resize(line.len().saturating_add(454), b'x')?;
    line.extend_from_slice(b"\r\n")?;
    Ok(line)
}

/// The packet as the others hear it.
pub(crate) fn heard(alloc: Global, number: u32) -> Result<Vec<u8>, AllocError> {
    packet(alloc, ",TCPIP*,qAC,T2TEST", number)
}

/// The packets with these numbers as their sender says them.
pub(crate) fn said(alloc: Global, numbers: Range<u32>) -> Result<Vec<u8>, AllocError> {
    let mut lines = Vec::new(alloc);
    for number in numbers {
        lines.append(&mut packet(alloc, "", number)?)?;
    }
    Ok(lines)
}
