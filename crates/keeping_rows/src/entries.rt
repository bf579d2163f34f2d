//! The lines of the journal, as operators read them.

use crate::fields::{Answer, Fault, Fields};
use crate::refusals::read_refusal;
use aprs_base::{JournalLine, Kind, Source};
use aprs_history::{EndReason, Session};
use journal_lines::{
    duplicate_line, end_line, filter_line, join_line, login_line, open_line, refusal_line,
    unjoined_line,
};
use row_texts::write_bytes;
use std::alloc::Global;

const VERIFIED: [(&str, bool); 2] = [("verified", true), ("unverified", false)];

const REASONS: [(&str, EndReason); 8] = [
    ("by-peer", EndReason::ByPeer),
    ("found-gone", EndReason::FoundGone),
    ("no-login", EndReason::NoLogin),
    ("silent", EndReason::Silent),
    ("overfull", EndReason::Overfull),
    ("full", EndReason::Full),
    ("unasked", EndReason::Unasked),
    ("by-stop", EndReason::ByStop),
];

fn line_text(alloc: Global, line: &JournalLine) -> Answer {
    let kind = match line.kind {
        Kind::Refusal => "refusal",
        Kind::Loop => "loop",
        Kind::Session => "session",
    };
    let moment = line.moment;
    let text = write_bytes(alloc, line.text.as_slice())?;
    Ok(format!(in alloc; "{kind} {moment} {text}")?)
}

fn read_source(fields: &mut Fields) -> Result<Source, Fault> {
    match fields.word() {
        "link" => Ok(Source::Link(fields.number())),
        "submit" => Ok(Source::Submit(fields.number())),
        "peer" => Ok(Source::Peer(fields.number())),
        _ => Err(Fault::Unknown),
    }
}

fn read_session(fields: &mut Fields) -> Result<Session, Fault> {
    Ok(Session {
        call: fields.call(),
        verified: fields.named(VERIFIED.as_slice())?,
    })
}

fn refused(from: &Source, moment: u64, fields: &mut Fields) -> Result<JournalLine, Fault> {
    let refusal = read_refusal(fields)?;
    Ok(refusal_line(3, from, moment, &refusal))
}

fn logged_in(from: &Source, moment: u64, fields: &mut Fields) -> Result<JournalLine, Fault> {
    let session = read_session(fields)?;
    Ok(login_line(3, from, moment, &session))
}

/// The line of what a session or a datagram is refused or does, where 3 is the listener of the group.
fn line_from(word: &str, moment: u64, fields: &mut Fields) -> Result<JournalLine, Fault> {
    let from = read_source(fields)?;
    match word {
        "refused" => refused(&from, moment, fields),
        "duplicate" => Ok(duplicate_line(3, &from, moment)),
        "login" => logged_in(&from, moment, fields),
        "filter" => Ok(filter_line(3, &from, moment)),
        _ => Err(Fault::Unknown),
    }
}

fn line(word: &str, moment: u64, fields: &mut Fields) -> Result<JournalLine, Fault> {
    match word {
        "open" => Ok(open_line(moment, fields.number(), fields.number())),
        "join" => Ok(join_line(moment, fields.number(), fields.number())),
        "unjoined" => Ok(unjoined_line(moment, fields.number())),
        "end" => Ok(end_line(moment, fields.number(), fields.named(REASONS.as_slice())?)),
        _ => line_from(word, moment, fields),
    }
}

pub fn answer(fields: &mut Fields) -> Answer {
    let word = fields.word();
    let moment = fields.number();
    let line = line(word, moment, fields)?;
    line_text(fields.alloc, &line)
}
