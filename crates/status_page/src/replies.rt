//! The reply with the status page.
ghost use Rattle.std.specs.Prelude.{◌≡◌, IfOk};
ghost use Rattle.status_page.specs.Page.{page_reply};

use aprs_base::{Memory, Text};
use itoa::Buffer;
use std::alloc::Global;

/// The reply with this page, after which the link is closed (RFC 9112).
#[tactic(auto, unfolding(crate::specs::Page::page_reply))]
pub fn page_reply(alloc: Global, page: &Text) -> Result<Text, Memory>
    ensures { IfOk result (λ reply. reply ≡ page_reply page.now) }
{
    let page = page.as_bytes();
    let mut length = Buffer::new();
    let mut reply = Vec::from_slice(
        alloc,
        b"HTTP/1.1 200 OK\r\nContent-Type: application/json\r\nContent-Length: ",
    )?;
    reply.extend_from_slice(length.format(page.len()).as_bytes())?;
    reply.extend_from_slice(b"\r\nConnection: close\r\n\r\n")?;
    reply.extend_from_slice(page)?;
    Ok(Text::new(reply))
}
