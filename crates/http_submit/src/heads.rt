//! The head of a request.
ghost use Rattle.std.specs.Prelude.{◌≡◌, ◌≤◌, ℕ, List, length};
ghost use Rattle.std.specs.List.{prefix_len};
ghost use Rattle.aprs_base.specs.Bytes.{is_line_end};
ghost use Rattle.httparse.specs.Grammar.{RequestHead};
ghost use Rattle.httparse.specs.Spans.{IsRequestAt, IsRequestWithin};
ghost use Rattle.http_submit.specs.Heads.{Begins, HasNoHead, IfHead, IsHeadAnd, begins_empty, from_text, has_empty_line, without_head};

use httparse::Status;
use httparse::spans::{HeaderSpan, RequestSpans, parse_request};

/// What bytes begin with.
#[derive(Clone, Copy, PartialEq, Eq, Debug)]
pub enum Beginning {
    /// A whole head: the spans of its parts. Those of its headers are in the list that was handed in.
    Head(RequestSpans),
    /// No whole head yet.
    More,
    /// No head, and an empty line.
    Bad,
}

/// Whether a byte ends a line.
pub fn is_line_end(byte: u8) -> bool
    ensures { result ≡ is_line_end byte }
{
    byte == b'\r' || byte == b'\n'
}

/// How many line ends the bytes begin with.
fn line_ends(bytes: &[u8]) -> usize
    ensures count { result ≡ prefix_len is_line_end bytes.now }
    ensures within { result ≤ length bytes.now }
{
    bytes.iter().take_while(|byte| is_line_end(**byte)).count()
}

/// The bytes from the first on that is neither CR nor LF.
pub fn from_text(bytes: &[u8]) -> &[u8]
    ensures { result.now ≡ from_text bytes.now }
{
    &bytes[line_ends(bytes)..]
}

/// Whether the bytes begin with an LF, perhaps behind a CR.
fn begins_empty(bytes: &[u8]) -> bool
    ensures { result ≡ begins_empty bytes.now }
{
    matches!(bytes, [b'\n', ..] | [b'\r', b'\n', ..])
}

/// Whether an empty line stands in the bytes: an LF, perhaps a CR, and an LF.
pub fn has_empty_line(bytes: &[u8]) -> bool
    ensures { result ≡ has_empty_line bytes.now }
{
    let mut rest = bytes;
    while let [first, later @ ..] = rest {
        if *first == b'\n' && begins_empty(later) {
            return true;
        }
        rest = later;
    }
    false
}

/// What bytes are that begin with no head.
fn without_head(bytes: &[u8]) -> Beginning
    ensures { result ≡ without_head bytes.now }
{
    if has_empty_line(from_text(bytes)) {
        Beginning::Bad
    } else {
        Beginning::More
    }
}

/// Reads the head with which the bytes begin, of at most 32 headers (RFC 9112), and puts the spans of these into the list. Takes no memory.
pub fn read_head(bytes: &[u8], headers: &mut [HeaderSpan; 32]) -> Beginning
    ensures within { IfHead result (IsRequestWithin bytes.now headers.new) }
    ensures headed { (head : RequestHead) (rest : List ℕ) → Begins bytes.now head rest → IsHeadAnd result (λ spans. IsRequestAt bytes.now headers.new spans head) }
    ensures headless { HasNoHead bytes.now → result ≡ without_head bytes.now }
{
    match parse_request(bytes, headers) {
        Ok(Status::Complete(head)) => Beginning::Head(head),
        _ => without_head(bytes),
    }
}
