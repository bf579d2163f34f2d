//! The verdict on a line.
ghost use Rattle.std.specs.Prelude.{◌≡◌, ◌-◌, ◌≤◌, IfOk, length, option_map};
ghost use Rattle.std.specs.List.{prefix_len, suffix_len};
ghost use Rattle.filter_lang.specs.Grammar.{terms_of};
ghost use Rattle.aprs_base.specs.Bytes.{is_blank};
ghost use Rattle.aprs_history.specs.Verdicts.{after_filter, answer_by, answer_of, filter_command, is_comment, login_answer, login_verdict, text_at, unpadded};
ghost use Rattle.login_pass.specs.Login.{login_of};
ghost use Rattle.line_verdict.specs.Voices.{comment_verdict, filtered};
ghost use Rattle.tnc2_line.specs.Packet.{IsParts, text_of};

use crate::replies::active_line;
use crate::voices::Voice;
use aprs_base::{Call, Line, Memory, Parts, leading_blanks, trailing_blanks};
use aprs_history::{FilterAnswer, FilterFault, Refusal, Session, Verdict};
use filter_lang::FilterError;
use login_pass::read_login;
use std::alloc::Global;
use tnc2_line::write;

/// Whether a line is a comment or a command.
pub fn is_comment_line(line: &Line) -> bool
    ensures { result ≡ is_comment line.now }
{
    line.bytes().starts_with(b"#")
}

/// So many bytes from there on, as far as there are.
fn text_at(text: &[u8], start: usize, count: usize) -> &[u8]
    ensures { result.now ≡ text_at text.now (start, count) }
{
    let rest = &text[start.min(text.len())..];
    &rest[..count.min(rest.len())]
}

/// The text without the blanks at both ends.
fn unpadded(text: &[u8]) -> &[u8]
    ensures { result.now ≡ unpadded text.now }
{
    let first = leading_blanks(text);
    let count = text
        .len()
        .saturating_sub(first)
        .saturating_sub(trailing_blanks(text));
    text_at(text, first, count)
}

/// What follows the word `filter`, where the text is it or begins with it and a blank.
fn after_filter(text: &[u8]) -> Option<&[u8]>
    ensures { option_map (λ rest. rest.now) result ≡ after_filter text.now }
{
    let (word, rest) = text.split_at(text.len().min(6));
    if !word.eq_ignore_ascii_case(b"filter") {
        return None;
    }
    match rest {
        [] | [b' ', ..] => Some(rest),
        _ => None,
    }
}

/// The filter that a command sets: `#`, perhaps blanks, the word `filter`, and then the filter.
fn filter_command(line: &Line) -> Option<&[u8]>
    ensures { option_map (λ filter. filter.now) result ≡ filter_command line.now }
{
    let text = line.bytes();
    let command = &text[text.len().min(1)..];
    let rest = after_filter(&command[leading_blanks(command)..])?;
    Some(unpadded(rest))
}

/// What becomes of a filter whose text was read, or is off the grammar.
fn answer_to(alloc: Global, text: &[u8]) -> Result<FilterAnswer, Memory>
    ensures { IfOk result (λ answer. answer ≡ answer_by (terms_of text.now)) }
{
    match filter_lang::read(alloc, text) {
        Ok(filter) => {
            let line = active_line(alloc, text, &filter)?;
            Ok(FilterAnswer::Active(filter, line))
        }
        Err(FilterError::Long) => Ok(FilterAnswer::Denied(FilterFault::Long)),
        Err(FilterError::Term(number)) => Ok(FilterAnswer::Denied(FilterFault::Term(number))),
        Err(FilterError::TooMany(letter)) => Ok(FilterAnswer::Denied(FilterFault::TooMany(letter))),
        Err(FilterError::Memory) => Err(Memory),
    }
}

/// What becomes of a filter's text, on a port with filters or without.
fn answer(alloc: Global, filters: bool, text: &[u8]) -> Result<FilterAnswer, Memory>
    ensures { IfOk result (λ answer. answer ≡ answer_of filters text.now) }
{
    if !filters {
        return Ok(FilterAnswer::Denied(FilterFault::NoFilters));
    }
    answer_to(alloc, text)
}

/// What becomes of a command of a client that has logged in, on a port with filters or without.
fn judge_command(alloc: Global, filters: bool, line: &Line) -> Result<Verdict, Memory>
    ensures { IfOk result (λ verdict. verdict ≡ filtered filters (filter_command line.now)) }
{
    match filter_command(line) {
        Some(text) => Ok(Verdict::Filtered(answer(alloc, filters, text)?)),
        None => Ok(Verdict::PassedOver),
    }
}

/// The verdict on a comment or a command: only a client that has logged in may give one.
pub fn judge_comment(alloc: Global, voice: &Voice, line: &Line) -> Result<Verdict, Memory>
    ensures { IfOk result (λ verdict. verdict ≡ comment_verdict voice.now line.now) }
{
    match voice {
        Voice::Nameless { .. } | Voice::Carrier(_) => Ok(Verdict::PassedOver),
        Voice::Reader => judge_command(alloc, false, line),
        Voice::Client { filters, .. } => judge_command(alloc, *filters, line),
    }
}

/// What becomes of a login's filter, where it has one.
fn login_answer(
    alloc: Global,
    filters: bool,
    line: &Line,
    place: Option<(u16, u16)>,
) -> Result<Option<FilterAnswer>, Memory>
    ensures { IfOk result (λ given. given ≡ login_answer filters line.now place) }
{
    let Some((start, count)) = place else {
        return Ok(None);
    };
    let text = text_at(line.bytes(), usize::from(start), usize::from(count));
    Ok(Some(answer(alloc, filters, text)?))
}

/// The verdict on a login, which is good where it isn't the server's own call.
pub fn judge_login(
    alloc: Global,
    server: &Call,
    filters: bool,
    line: &Line,
) -> Result<Verdict, Memory>
    ensures { IfOk result (λ verdict. verdict ≡ login_verdict server.now filters line.now (login_of line.now)) }
{
    match read_login(line) {
        Err(fault) => Ok(Verdict::Refused(Refusal::Login(fault))),
        Ok(login) if login.call == *server => Ok(Verdict::Refused(Refusal::OwnName)),
        Ok(login) => {
            let answer = login_answer(alloc, filters, line, login.filter)?;
            let verified = login.verified();
            let session = Session {
                call: login.call,
                verified,
            };
            Ok(Verdict::LoggedIn(session, answer))
        }
    }
}

/// The line of a packet that isn't too long.
pub fn line_of(parts: &Parts) -> Line
    requires sound { IsParts parts.now }
    requires short { length (text_of parts.now) ≤ 510 }
    ensures { result ≡ text_of parts.now }
{
    match write(parts) {
        Ok(line) => line,
        Err(_) => unreachable!(),
    }
}
