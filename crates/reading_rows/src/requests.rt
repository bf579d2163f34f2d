//! Requests by HTTP.

use crate::fields::said;
use http_submit::{Post, read_post};
use row_texts::{RowError, read_bytes};
use std::alloc::Global;

/// What the bytes ask for that came on a link.
pub fn post(alloc: Global, field: &str) -> Result<String, RowError> {
    let bytes = read_bytes(alloc, field)?;
    if bytes.len() > 4096 {
        return Err(RowError::Word);
    }
    match read_post(bytes.as_slice()) {
        Post::Whole { start, len, known } => {
            let by = if known { "known" } else { "unknown" };
            Ok(format!(in alloc; "body from {start} with {len} {by}")?)
        }
        Post::More => said(alloc, "more"),
        Post::Refused(status) => Ok(format!(in alloc; "refused {status}")?),
    }
}
