//! The reading of a configuration's text.
ghost use Rattle.std.specs.Prelude.{◌≡◌, ℕ, Ok, Err, ◌∷◌, unwrap_or, IfOk, IsErrOf, MatchResult, []};
ghost use Rattle.aprs_conf.specs.declared.errors.ConfFault.{ConfFault};
ghost use Rattle.aprs_conf.specs.declared.errors.ConfWord.{ConfWord};
ghost use Rattle.aprs_conf.specs.Grammar.{after, conf_of, conf_with, drafted, empty, is_unused, line_says, says, was_said, word_of};
ghost use Rattle.aprs_conf.specs.Reading.{at_number, BecomesUnless, FailsAt};
ghost use Rattle.aprs_conf.specs.Sound.{IsSound};
ghost use Rattle.aprs_conf.specs.Words.{arguments_of, lines_of};
ghost use Rattle.login_pass.specs.Login.{is_keyword};

use crate::draft::{
    Draft, add_admin, add_client_timeout, add_code, add_dupe_window, add_email, add_group,
    add_listen, add_max_clients, add_page, add_server, add_up_timeout, add_uplink, add_upload,
    expect_argument,
};
use crate::errors::{ConfError, ConfFault, ConfWord, LineError};
use crate::types::Conf;
use crate::words::{begins_remark, cut_line, is_unended, next_argument};
use aprs_base::Text;
use std::alloc::Global;

/// The words that begin a line. Those without effect are one.
#[derive(Clone, Copy)]
pub enum LineWord {
    ServerId,
    PassCode,
    MyAdmin,
    MyEmail,
    Listen,
    HttpUpload,
    HttpStatus,
    Uplink,
    PeerGroup,
    UpstreamTimeout,
    ClientTimeout,
    MaxClients,
    DupeWindow,
    Unused,
}

/// Whether `text` is the name, letters taken without their case.
fn is_name(name: &[u8], text: &[u8]) -> bool
    ensures { result ≡ is_keyword name.now text.now }
{
    text.eq_ignore_ascii_case(name)
}

/// Whether `text` is a word without effect here.
fn is_unused(text: &[u8]) -> bool
    ensures { result ≡ is_unused text.now }
{
    is_name(b"RunDir", text) || is_name(b"LogRotate", text) || is_name(b"FileLimit", text)
}

/// The word that begins a line, letters taken without their case.
fn line_word(text: &[u8]) -> Option<LineWord>
    ensures { result ≡ word_of text.now }
{
    if is_name(b"ServerId", text) {
        Some(LineWord::ServerId)
    } else if is_name(b"PassCode", text) {
        Some(LineWord::PassCode)
    } else if is_name(b"MyAdmin", text) {
        Some(LineWord::MyAdmin)
    } else if is_name(b"MyEmail", text) {
        Some(LineWord::MyEmail)
    } else if is_name(b"Listen", text) {
        Some(LineWord::Listen)
    } else if is_name(b"HTTPUpload", text) {
        Some(LineWord::HttpUpload)
    } else if is_name(b"HTTPStatus", text) {
        Some(LineWord::HttpStatus)
    } else if is_name(b"Uplink", text) {
        Some(LineWord::Uplink)
    } else if is_name(b"PeerGroup", text) {
        Some(LineWord::PeerGroup)
    } else if is_name(b"UpstreamTimeout", text) {
        Some(LineWord::UpstreamTimeout)
    } else if is_name(b"ClientTimeout", text) {
        Some(LineWord::ClientTimeout)
    } else if is_name(b"MaxClients", text) {
        Some(LineWord::MaxClients)
    } else if is_name(b"DupeWindow", text) {
        Some(LineWord::DupeWindow)
    } else if is_unused(text) {
        Some(LineWord::Unused)
    } else {
        None
    }
}

/// Whether a line of this word has said what may be said once.
fn was_said(word: LineWord, draft: &Draft) -> bool
    ensures { result ≡ was_said word draft.now }
{
    match word {
        LineWord::ServerId => draft.server.is_some(),
        LineWord::PassCode => draft.code.is_some(),
        LineWord::MyAdmin => draft.admin.is_some(),
        LineWord::MyEmail => draft.email.is_some(),
        LineWord::HttpUpload => draft.upload.is_some(),
        LineWord::HttpStatus => draft.page.is_some(),
        LineWord::PeerGroup => draft.group.is_some(),
        LineWord::UpstreamTimeout => draft.up_timeout.is_some(),
        LineWord::ClientTimeout => draft.client_timeout.is_some(),
        LineWord::MaxClients => draft.max_clients.is_some(),
        LineWord::DupeWindow => draft.dupe_window.is_some(),
        LineWord::Listen | LineWord::Uplink | LineWord::Unused => false,
    }
}

/// Adds what the line of this word says.
fn add(alloc: Global, word: LineWord, draft: &mut Draft, args: &[u8]) -> Result<(), LineError>
    ensures { BecomesUnless result draft.new (says word draft.old (arguments_of args.now)) }
{
    match word {
        LineWord::ServerId => add_server(draft, args),
        LineWord::PassCode => add_code(draft, args),
        LineWord::MyAdmin => add_admin(alloc, draft, args),
        LineWord::MyEmail => add_email(alloc, draft, args),
        LineWord::Listen => add_listen(alloc, draft, args),
        LineWord::HttpUpload => add_upload(draft, args),
        LineWord::HttpStatus => add_page(draft, args),
        LineWord::Uplink => add_uplink(draft, args),
        LineWord::PeerGroup => add_group(alloc, draft, args),
        LineWord::UpstreamTimeout => add_up_timeout(draft, args),
        LineWord::ClientTimeout => add_client_timeout(draft, args),
        LineWord::MaxClients => add_max_clients(draft, args),
        LineWord::DupeWindow => add_dupe_window(draft, args),
        LineWord::Unused => Ok(expect_argument(args)?),
    }
}

/// Adds what the line of this first word says.
fn add_words(alloc: Global, draft: &mut Draft, name: &[u8], args: &[u8]) -> Result<(), LineError>
    ensures { BecomesUnless result draft.new (line_says draft.old (name.now ∷ arguments_of args.now)) }
{
    let Some(word) = line_word(name) else {
        return Err(LineError::Fault(ConfFault::UnknownWord));
    };
    if was_said(word, draft) {
        return Err(LineError::Fault(ConfFault::Repeated));
    }
    add(alloc, word, draft, args)
}

/// Adds what a line says.
#[tactic(auto, unfolding(crate::specs::Grammar::after))]
fn add_line(alloc: Global, draft: &mut Draft, line: &[u8]) -> Result<(), LineError>
    ensures { BecomesUnless result draft.new (after draft.old line.now) }
{
    if begins_remark(line) {
        return Ok(());
    }
    if is_unended(line) {
        return Err(LineError::Fault(ConfFault::OpenQuote));
    }
    match next_argument(line) {
        Some((name, args)) => add_words(alloc, draft, name, args),
        None => Ok(()),
    }
}

fn at_line(number: u32, error: LineError) -> ConfError
    ensures { result ≡ at_number number error }
{
    match error {
        LineError::Fault(fault) => ConfError::Line(number, fault),
        LineError::Memory => ConfError::Memory,
    }
}

/// The draft of all lines.
fn read_lines(alloc: Global, text: &[u8]) -> Result<Draft, ConfError>
    ensures { MatchResult result (λ d. drafted 1 empty (lines_of text.now) ≡ Ok d) (λ e. FailsAt e (drafted 1 empty (lines_of text.now))) }
{
    let mut draft = Draft::new(alloc);
    let mut number: u32 = 1;
    let mut rest = Some(text);
    while let Some(lines) = rest {
        let (line, behind) = cut_line(lines);
        if let Err(error) = add_line(alloc, &mut draft, line) {
            return Err(at_line(number, error));
        }
        number = number.saturating_add(1);
        rest = behind;
    }
    Ok(draft)
}

fn text_or_empty(alloc: Global, text: Option<Text>) -> Text
    ensures { result ≡ unwrap_or text [] }
{
    match text {
        Some(text) => text,
        None => Text::new(Vec::new(alloc)),
    }
}

/// The configuration of a draft, or the first word that is missing.
fn finish(alloc: Global, draft: Draft) -> Result<Conf, ConfError>
    ensures { result ≡ conf_with draft }
{
    let server = draft.server.ok_or(ConfError::Missing(ConfWord::ServerId))?;
    let code = draft.code.ok_or(ConfError::Missing(ConfWord::PassCode))?;
    if draft.listens.is_empty() {
        return Err(ConfError::Missing(ConfWord::Listen));
    }
    Ok(Conf {
        server,
        code,
        admin: text_or_empty(alloc, draft.admin),
        email: text_or_empty(alloc, draft.email),
        listens: draft.listens,
        upload: draft.upload,
        page: draft.page,
        uplinks: draft.uplinks,
        group: draft.group,
        peers: draft.peers,
        up_timeout: draft.up_timeout.unwrap_or(15),
        client_timeout: draft.client_timeout.unwrap_or(172_800),
        max_clients: draft.max_clients.unwrap_or(500),
        dupe_window: draft.dupe_window.unwrap_or(30),
    })
}

/// Reads a configuration, as the manual of aprsc has it (Configuration). The error is the first bad line and its first
/// fault, or, where no line is bad, the first required word that has none.
#[tactic(auto, unfolding(crate::specs::Grammar::conf_of))]
pub fn read(alloc: Global, text: &[u8]) -> Result<Conf, ConfError>
    ensures value { IfOk result (λ conf. conf_of text.now ≡ Ok conf) }
    ensures line { (n : ℕ) (f : ConfFault) → IsErrOf result (ConfError.Line n f) → conf_of text.now ≡ Err (ConfError.Line n f) }
    ensures missing { (w : ConfWord) → IsErrOf result (ConfError.Missing w) → conf_of text.now ≡ Err (ConfError.Missing w) }
    ensures sound { IfOk result IsSound }
{
    finish(alloc, read_lines(alloc, text)?)
}
