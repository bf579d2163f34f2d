//! What is told to the journals of links that end: each function puts its lines after those that are there.
ghost use Rattle.std.specs.Prelude.{◌≡◌, ◌++◌, OnOk, filter, map};
ghost use Rattle.served_links.specs.EndLines.{late_line, lost_line, stop_line};
ghost use Rattle.served_links.specs.Links.{here, is_late_here, is_lost_here};

use crate::link::{LinkSession, Timeouts};
use aprs_base::{JournalLine, Memory};
use aprs_history::EndReason;
use journal_lines::end_line;

/// The links that a send found gone.
pub(crate) fn tell_lost(
    links: &[LinkSession],
    now: u64,
    lines: &mut Vec<JournalLine>,
) -> Result<(), Memory>
    ensures { OnOk result (lines.new.items ≡ lines.old.items ++ map (lost_line now) (filter is_lost_here links.now)) }
{
    for link in links {
        if link.is_lost() {
            lines.push(end_line(now, link.number(), EndReason::FoundGone))?;
        }
    }
    Ok(())
}

/// The links that are late.
pub(crate) fn tell_late(
    links: &[LinkSession],
    timeouts: Timeouts,
    now: u64,
    lines: &mut Vec<JournalLine>,
) -> Result<(), Memory>
    ensures { OnOk result (lines.new.items ≡ lines.old.items ++ map (late_line now) (filter (is_late_here timeouts now) links.now)) }
{
    for link in links {
        if link.is_late(timeouts, now) {
            lines.push(end_line(now, link.number(), link.late_reason(now)))?;
        }
    }
    Ok(())
}

/// All links, which a stop ends.
pub(crate) fn tell_stopped(
    links: &[LinkSession],
    now: u64,
    lines: &mut Vec<JournalLine>,
) -> Result<(), Memory>
    ensures { OnOk result (lines.new.items ≡ lines.old.items ++ map (stop_line now) (here links.now)) }
{
    for link in links {
        if link.is_here() {
            lines.push(end_line(now, link.number(), EndReason::ByStop))?;
        }
    }
    Ok(())
}
