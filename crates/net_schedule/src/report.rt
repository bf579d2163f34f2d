//! The report of a network: what each server accepted.
ghost use Rattle.std.specs.Prelude.{◌≡◌, ◌++◌, ◌≤◌, OnOk, length, map, take};
ghost use Rattle.std.specs.List.{flat_map};
ghost use Rattle.std.specs.Arc.{arc_value};
ghost use Rattle.net_schedule.specs.Reported.{ended_by_feed, kept_head, kept_report};

use crate::servers::Server;
use aprs_base::{Line, Memory};
use itoa::Buffer;
use std::sync::Arc;

/// The line that a server's part of the report begins with.
fn append_head(server: &Server, out: &mut Vec<u8>) -> Result<(), Memory>
    ensures text { OnOk result (out.new.items ≡ out.old.items ++ kept_head server.now) }
    ensures kept { take (length out.old.items) out.new.items ≡ out.old.items }
{
    let mut digits = Buffer::new();
    out.extend_from_slice(b"server ")?;
    out.extend_from_slice(server.core.conf().server.bytes())?;
    out.extend_from_slice(b" accepted ")?;
    out.extend_from_slice(digits.format(server.accepted.len()).as_bytes())?;
    out.extend_from_slice(b"\n")?;
    Ok(())
}

/// Lines, each with a line feed.
fn append_lines(lines: &[Arc<Line>], out: &mut Vec<u8>) -> Result<(), Memory>
    ensures text { OnOk result (out.new.items ≡ out.old.items ++ flat_map ended_by_feed (map arc_value lines.now)) }
    ensures kept { take (length out.old.items) out.new.items ≡ out.old.items }
{
    for line in lines {
        out.extend_from_slice(line.bytes())?;
        out.push(b'\n')?;
    }
    Ok(())
}

fn append_server(server: &Server, out: &mut Vec<u8>) -> Result<(), Memory>
    ensures text { OnOk result (out.new.items ≡ out.old.items ++ kept_report server.now) }
    ensures kept { take (length out.old.items) out.new.items ≡ out.old.items }
{
    append_head(server, out)?;
    append_lines(server.accepted.as_slice(), out)
}

/// What each server accepted comes behind the text that is there.
pub(crate) fn append_all(servers: &[Server], out: &mut Vec<u8>) -> Result<(), Memory>
    ensures text { OnOk result (out.new.items ≡ out.old.items ++ flat_map kept_report servers.now) }
    ensures kept { take (length out.old.items) out.new.items ≡ out.old.items }
{
    for server in servers {
        append_server(server, out)?;
    }
    Ok(())
}
