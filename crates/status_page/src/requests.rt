//! A request for the status page.
ghost use Rattle.std.specs.Prelude.{◌≡◌, length};
ghost use Rattle.httparse.specs.Spans.{IsRequestWithin, span_bytes};
ghost use Rattle.status_page.specs.Gets.{IsGet, asked};

use http_submit::{Beginning, read_head};
use httparse::spans::{HeaderSpan, RequestSpans};

/// What the bytes ask for that came on a link so far.
#[derive(Clone, Copy, PartialEq, Eq, Debug)]
pub enum Get {
    /// The page.
    Whole,
    /// More bytes are wanted.
    More,
    /// The request is refused with this status.
    Refused(u16),
}

/// What a whole head asks for.
fn answer(bytes: &[u8], headers: &[HeaderSpan; 32], head: &RequestSpans) -> Get
    requires { IsRequestWithin bytes.now headers.now head.now }
    ensures { result ≡ asked (span_bytes bytes.now head.now.method) (span_bytes bytes.now head.now.path) }
{
    if head.method.of(bytes) != b"GET".as_slice() {
        return Get::Refused(405);
    }
    if head.path.of(bytes) != b"/status.json".as_slice() {
        return Get::Refused(404);
    }
    Get::Whole
}

/// What the bytes ask for that came on a link so far. Takes no memory.
pub fn read_get(bytes: &[u8]) -> Get
    ensures { IsGet bytes.now result }
{
    let mut headers = [HeaderSpan::default(); 32];
    match read_head(bytes, &mut headers) {
        Beginning::Head(head) => answer(bytes, &headers, &head),
        Beginning::More => Get::More,
        Beginning::Bad => Get::Refused(400),
    }
}
