//! What is told to the journals: each function puts its lines after those that are there.
ghost use Rattle.std.specs.Prelude.{◌≡◌, ◌++◌, OnOk, map};
ghost use Rattle.aprs_history.specs.Journal.{answer_lines, label, opening_lines, verdict_lines};
ghost use Rattle.aprs_history.specs.Trace.{AtListener};
ghost use Rattle.server_core.specs.Telling.{has_joined, is_joining, refused_by, refused_line};

use aprs_base::{Event, JournalLine, Memory, Source};
use aprs_history::{Admission, EndReason, FilterAnswer, Verdict};
use journal_lines::{end_line, filter_line, login_line, open_line, refusal_line};
use served_links::has_member;

/// What was said from there, where its verdict has lines. `group` is the number of the peer group's listener.
pub(crate) fn tell_verdict(
    group: u16,
    from: &Source,
    moment: u64,
    verdict: &Verdict,
    lines: &mut Vec<JournalLine>,
) -> Result<(), Memory>
    ensures { OnOk result (lines.new.items ≡ lines.old.items ++ verdict_lines (label group from.now) moment verdict.now) }
{
    match verdict {
        Verdict::Refused(refusal) => {
            lines.push(refusal_line(group, from, moment, refusal))?;
            Ok(())
        }
        Verdict::LoggedIn(session, answer) => {
            lines.push(login_line(group, from, moment, session))?;
            match answer {
                Some(answer) => tell_answer(group, from, moment, answer, lines),
                None => Ok(()),
            }
        }
        Verdict::Filtered(answer) => tell_answer(group, from, moment, answer, lines),
        Verdict::PassedOver | Verdict::Accepted(..) => Ok(()),
    }
}

/// The answer to a filter, where that is refused.
fn tell_answer(
    group: u16,
    from: &Source,
    moment: u64,
    answer: &FilterAnswer,
    lines: &mut Vec<JournalLine>,
) -> Result<(), Memory>
    ensures { OnOk result (lines.new.items ≡ lines.old.items ++ answer_lines (label group from.now) moment answer.now) }
{
    match answer {
        FilterAnswer::Denied(_) => {
            lines.push(filter_line(group, from, moment))?;
            Ok(())
        }
        FilterAnswer::Active(..) => Ok(()),
    }
}

/// A link that has come to a listener for clients.
pub(crate) fn tell_opened(
    moment: u64,
    link: u32,
    listener: u16,
    admission: Admission,
    lines: &mut Vec<JournalLine>,
) -> Result<(), Memory>
    ensures { OnOk result (lines.new.items ≡ lines.old.items ++ opening_lines (AtListener listener) admission moment link) }
{
    match admission {
        Admission::NoPort => Ok(()),
        Admission::TurnedAway | Admission::NotAsked | Admission::Served(_) => {
            lines.push(open_line(moment, link, listener))?;
            Ok(())
        }
    }
}

/// Whether the event brings this link from an uplink.
fn is_joining(link: u32, event: &Event) -> bool
    ensures { result ≡ is_joining link event.now }
{
    match event {
        Event::Joined { link: joined, .. } => *joined == link,
        _ => false,
    }
}

/// Whether one of the events brings this link from an uplink.
fn has_joined(events: &[Event], link: u32) -> bool
    ensures { result ≡ has_joined events.now link }
{
    events.iter().any(|event| is_joining(link, event))
}

/// Why a link ends with the round.
fn refused_by(turned: &[u32], events: &[Event], link: u32) -> EndReason
    ensures { result ≡ refused_by turned.now events.now link }
{
    if !has_member(turned, link) {
        EndReason::Overfull
    } else if has_joined(events, link) {
        EndReason::Unasked
    } else {
        EndReason::Full
    }
}

/// The links that end with the round, where these were turned away in it.
pub(crate) fn tell_refused(
    ends: &[u32],
    turned: &[u32],
    events: &[Event],
    now: u64,
    lines: &mut Vec<JournalLine>,
) -> Result<(), Memory>
    ensures { OnOk result (lines.new.items ≡ lines.old.items ++ map (refused_line turned.now events.now now) ends.now) }
{
    for link in ends {
        lines.push(end_line(now, *link, refused_by(turned, events, *link)))?;
    }
    Ok(())
}
