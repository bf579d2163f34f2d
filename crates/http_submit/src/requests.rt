//! A request that hands packets in: what its head and its body ask for.
ghost use Rattle.std.specs.Prelude.{◌≡◌, ◌≤◌, ◌+◌, All, length, drop, map, take};
ghost use Rattle.std.specs.List.{prefix_len};
ghost use Rattle.std.specs.Char.{to_ascii_lowercase};
ghost use Rattle.aprs_base.specs.Bytes.{is_inner};
ghost use Rattle.httparse.specs.Spans.{IsHeaderWithin, IsRequestWithin, header_bytes, span_bytes};
ghost use Rattle.http_submit.specs.Requests.{IsPost, LiesWithin, asked, first_line, has_field, is_known, is_named, length_of, length_text, with_length};

use crate::heads::{Beginning, from_text, is_line_end, read_head};
use aprs_base::Line;
use httparse::spans::{HeaderSpan, RequestSpans};
use login_pass::{code_number, read_login};

/// The most bytes of a body, which is handed on as one datagram.
const MOST_BODY: u32 = 1460;

/// What the bytes ask for that came on a link so far.
#[derive(Clone, Copy, PartialEq, Eq, Debug)]
pub enum Post {
    /// The request is whole, with its body's place and length, and whether the body's first line is a verified login.
    Whole { start: u16, len: u16, known: bool },
    /// More bytes are wanted.
    More,
    /// The request is refused with this status.
    Refused(u16),
}

/// Whether a header has this name, which is given in small letters. Names of headers have no case.
fn is_named(bytes: &[u8], header: &HeaderSpan, name: &[u8]) -> bool
    requires within { IsHeaderWithin (length bytes.now) header.now }
    requires small { map to_ascii_lowercase name.now ≡ name.now }
    ensures { result ≡ is_named name.now (header_bytes bytes.now header.now) }
{
    header.name.of(bytes).eq_ignore_ascii_case(name)
}

/// Whether one of the headers has this name.
fn has_field(bytes: &[u8], headers: &[HeaderSpan], name: &[u8]) -> bool
    requires within { All (IsHeaderWithin (length bytes.now)) headers.now }
    requires small { map to_ascii_lowercase name.now ≡ name.now }
    ensures { result ≡ has_field name.now (map (header_bytes bytes.now) headers.now) }
{
    match headers {
        [] => false,
        [first, rest @ ..] => is_named(bytes, first, name) || has_field(bytes, rest, name),
    }
}

/// The number that one to five digits spell, where it is above 0.
fn read_length(text: &[u8]) -> Option<u32>
    ensures { result ≡ length_text text.now }
{
    code_number(text).filter(|number| *number > 0)
}

/// The length of the body, where one header alone tells it.
#[tactic(auto, using(crate::proofs::FieldLemmas::other_named))]
fn length_of(bytes: &[u8], headers: &[HeaderSpan]) -> Option<u32>
    requires within { All (IsHeaderWithin (length bytes.now)) headers.now }
    ensures { result ≡ length_of (map (header_bytes bytes.now) headers.now) }
{
    let [first, rest @ ..] = headers else {
        return None;
    };
    if !is_named(bytes, first, b"content-length") {
        return length_of(bytes, rest);
    }
    if has_field(bytes, rest, b"content-length") {
        return None;
    }
    read_length(first.value.of(bytes))
}

/// How many bytes stand before the first line end.
fn line_length(text: &[u8]) -> usize
    ensures count { result ≡ prefix_len is_inner text.now }
    ensures within { result ≤ length text.now }
{
    text.iter().take_while(|byte| !is_line_end(**byte)).count()
}

/// The first line of a body that isn't empty, without its end.
fn first_line(body: &[u8]) -> &[u8]
    ensures { result.now ≡ first_line body.now }
{
    let rest = from_text(body);
    &rest[..line_length(rest)]
}

/// Whether the first line of a body is a login, and verified.
fn is_known(body: &[u8]) -> bool
    ensures { result ≡ is_known body.now }
{
    let Some(line) = Line::new(first_line(body)) else {
        return false;
    };
    match read_login(&line) {
        Ok(login) => login.verified(),
        Err(_) => false,
    }
}

/// What a head with this length of a body asks for, of which this much has come.
fn with_length(start: usize, rest: &[u8], wanted: Option<u32>) -> Post
    requires { start ≤ 4096 }
    ensures post { result ≡ with_length start rest.now wanted }
    ensures lies { LiesWithin (start + length rest.now) result }
{
    let Some(wanted) = wanted else {
        return Post::Refused(411);
    };
    if wanted > MOST_BODY {
        return Post::Refused(413);
    }
    match rest.get(..wanted as usize) {
        Some(body) => Post::Whole {
            start: start as u16,
            len: wanted as u16,
            known: is_known(body),
        },
        None => Post::More,
    }
}

/// What a whole head asks for.
fn answer(bytes: &[u8], headers: &[HeaderSpan; 32], head: &RequestSpans) -> Post
    requires short { length bytes.now ≤ 4096 }
    requires within { IsRequestWithin bytes.now headers.now head.now }
    ensures post { result ≡ asked (span_bytes bytes.now head.now.method) (span_bytes bytes.now head.now.path) (map (header_bytes bytes.now) (take head.now.headers headers.now)) head.now.len (drop head.now.len bytes.now) }
    ensures lies { LiesWithin (length bytes.now) result }
{
    let headers = &headers[..head.headers];
    if head.method.of(bytes) != b"POST".as_slice() {
        return Post::Refused(405);
    }
    if head.path.of(bytes) != b"/".as_slice() {
        return Post::Refused(404);
    }
    if has_field(bytes, headers, b"content-encoding") {
        return Post::Refused(415);
    }
    if has_field(bytes, headers, b"transfer-encoding") {
        return Post::Refused(411);
    }
    with_length(head.len, &bytes[head.len..], length_of(bytes, headers))
}

/// What the bytes ask for that came on a link so far: at most 4,096. Takes no memory.
pub fn read_post(bytes: &[u8]) -> Post
    requires { length bytes.now ≤ 4096 }
    ensures post { IsPost bytes.now result }
    ensures lies { LiesWithin (length bytes.now) result }
{
    let mut headers = [HeaderSpan::default(); 32];
    match read_head(bytes, &mut headers) {
        Beginning::Head(head) => answer(bytes, &headers, &head),
        Beginning::More => Post::More,
        Beginning::Bad => Post::Refused(400),
    }
}
