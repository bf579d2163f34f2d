//! What is answered to lines.

use crate::fields::{Answer, Fault, Fields, escaped, said};
use aprs_base::{Call, Cut, Line, Source};
use aprs_history::{FilterAnswer, Refusal, Verdict};
use journal_lines::refusal_line;
use line_verdict::{Voice, denied_line, judge_comment, judge_login, submitter_of, uplink_line};
use q_construct::Origin;
use std::alloc::Global;

const FILTERS: [(&str, bool); 2] = [("filters", true), ("none", false)];

/// A client that has logged in, on a port with filters or without.
fn client(fields: &mut Fields) -> Result<Voice, Fault> {
    let filters = fields.named(FILTERS.as_slice())?;
    let origin = Origin::Client {
        login: Call::read(b"N0CALL").ok_or(Fault::Unknown)?,
        verified: true,
        only: false,
    };
    Ok(Voice::Client { filters, origin })
}

fn filter_text(alloc: Global, answer: FilterAnswer) -> Answer {
    let line = match answer {
        FilterAnswer::Active(_filter, line) => line,
        FilterAnswer::Denied(fault) => denied_line(alloc, fault)?,
    };
    escaped(alloc, line.bytes())
}

/// A refusal by its name in the journal.
fn refused_text(alloc: Global, refusal: &Refusal) -> Answer {
    let line = refusal_line(0, &Source::Link(1), 0, refusal);
    escaped(alloc, line.text.as_slice())
}

fn login_text(alloc: Global, verified: bool, answer: Option<FilterAnswer>) -> Answer {
    let mark = if verified { "verified" } else { "unverified" };
    match answer {
        None => said(alloc, mark),
        Some(answer) => {
            let reply = filter_text(alloc, answer)?;
            Ok(format!(in alloc; "{mark}, {reply}")?)
        }
    }
}

fn verdict_text(alloc: Global, verdict: Verdict) -> Answer {
    match verdict {
        Verdict::PassedOver => said(alloc, "passed over"),
        Verdict::Refused(refusal) => refused_text(alloc, &refusal),
        Verdict::LoggedIn(session, answer) => login_text(alloc, session.verified, answer),
        Verdict::Filtered(answer) => filter_text(alloc, answer),
        Verdict::Accepted(_parts, line) => escaped(alloc, line.bytes()),
    }
}

/// Who submits a datagram that begins with these bytes.
fn submitter_text(alloc: Global, server: &Call, bytes: &[u8]) -> Answer {
    let cut = match Line::new(bytes) {
        Some(line) => Cut::Line(line),
        None => Cut::Long,
    };
    match submitter_of(server, &cut) {
        Ok(login) => escaped(alloc, login.bytes()),
        Err(refusal) => refused_text(alloc, &refusal),
    }
}

fn comment(fields: &mut Fields) -> Answer {
    let voice = client(fields)?;
    let line = fields.line()?;
    verdict_text(fields.alloc, judge_comment(fields.alloc, &voice, &line)?)
}

fn login(fields: &mut Fields) -> Answer {
    let server = fields.call();
    let line = fields.line()?;
    verdict_text(
        fields.alloc,
        judge_login(fields.alloc, &server, true, &line)?,
    )
}

pub fn answer(fields: &mut Fields) -> Answer {
    match fields.word() {
        "comment" => comment(fields),
        "login" => login(fields),
        "submits" => {
            let server = fields.call();
            submitter_text(fields.alloc, &server, fields.rest_bytes()?.as_slice())
        }
        "uplink" => {
            let line = uplink_line(fields.alloc, &fields.call(), fields.number())?;
            escaped(fields.alloc, line.bytes())
        }
        _ => Err(Fault::Unknown),
    }
}
