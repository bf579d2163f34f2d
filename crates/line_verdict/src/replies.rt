//! What the server answers.
ghost use Rattle.std.specs.Prelude.{◌≡◌, ◌++◌, ◌+◌, ◌≤◌, IfOk, Ok, codes, length};
ghost use Rattle.aprs_base.specs.Bytes.{IsInner, IsLine};
ghost use Rattle.aprs_history.specs.Dates.{comment_text};
ghost use Rattle.aprs_history.specs.Verdicts.{active_reply};
ghost use Rattle.filter_lang.specs.Grammar.{terms_of};
ghost use Rattle.std.specs.Fmt.{decimal};
ghost use Rattle.aprs_history.specs.Texts.{banner, excess_words, fault_word, filter_words, login_reply, refusal_reply, refused_filter, refused_login, verified_word};
ghost use Rattle.aprs_history.specs.Texts.{login_by, login_with};

use aprs_base::{Call, Line, Memory};
use aprs_history::{FilterFault, Refusal, Session};
use arrayvec::ArrayVec;
use comment_date::date_at;
use filter_lang::FilterSet;
use login_pass::LoginFault;
use std::alloc::Global;

/// The reply to a good login.
pub fn login_line(server: &Call, session: &Session) -> Line
    ensures { result ≡ login_reply server.now session.now }
{
    let mut text = ArrayVec::new();
    append(&mut text, b"# logresp ");
    append(&mut text, session.call.bytes());
    append(&mut text, word_for(session.verified));
    append(&mut text, server.bytes());
    known_line(text.as_slice())
}

/// What a client is told first.
pub fn banner_line() -> Line
    ensures { result ≡ banner }
{
    known_line(b"# aprsc 1.0")
}

/// The line by which the server logs in at an uplink.
pub fn uplink_line(alloc: Global, server: &Call, code: u32) -> Result<Line, Memory>
    ensures { IfOk result (λ line. line ≡ login_with server.now code) }
{
    let digits = code.to_string(alloc)?;
    Ok(login_by(server, digits.as_bytes()))
}

fn login_by(server: &Call, digits: &[u8]) -> Line
    requires { IsInner digits.now × (length digits.now ≤ 10) }
    ensures { result ≡ login_by server.now digits.now }
{
    let mut text = ArrayVec::new();
    append(&mut text, b"user ");
    append(&mut text, server.bytes());
    append_code(&mut text, digits);
    known_line(text.as_slice())
}

fn append_code(text: &mut ArrayVec<u8, 510>, digits: &[u8])
    requires { length text.old.items + length digits.now ≤ 480 }
    ensures { text.new.items ≡ text.old.items ++ (codes " pass " ++ (digits.now ++ codes " vers aprsc 1.0")) }
{
    append(text, b" pass ");
    append(text, digits);
    append(text, b" vers aprsc 1.0");
}

/// The comment line that tells the date.
pub fn comment_of(server: &Call, moment: u64) -> Line
    ensures { result ≡ comment_text server.now moment }
{
    let mut text = ArrayVec::new();
    append(&mut text, b"# aprsc 1.0 ");
    append(&mut text, &date_at(moment));
    append(&mut text, b" ");
    append(&mut text, server.bytes());
    known_line(text.as_slice())
}

/// The reply to a line that is refused, where there is one.
pub fn refusal_line(refusal: &Refusal) -> Option<Line>
    ensures { result ≡ refusal_reply refusal.now }
{
    match refusal {
        Refusal::Login(fault) => Some(refused_line(word_of(*fault))),
        Refusal::OwnName => Some(refused_line(b"own name")),
        Refusal::Long
        | Refusal::ReadOnly
        | Refusal::Stranger
        | Refusal::Packet(_)
        | Refusal::Path(_)
        | Refusal::Duplicate(..) => None,
    }
}

/// What is wrong with a login.
fn word_of(fault: LoginFault) -> &'static [u8]
    ensures word { result.now ≡ fault_word fault }
    ensures short { IsInner result.now × (length result.now ≤ 8) }
{
    match fault {
        LoginFault::NotUser => b"no user".as_slice(),
        LoginFault::BadCall => b"bad call".as_slice(),
        LoginFault::NoPass => b"no pass".as_slice(),
        LoginFault::BadPass => b"bad pass".as_slice(),
    }
}

fn refused_line(word: &[u8]) -> Line
    requires { IsInner word.now × (length word.now ≤ 8) }
    ensures { result ≡ refused_login word.now }
{
    let mut text = ArrayVec::new();
    append(&mut text, b"# login refused, ");
    append(&mut text, word);
    known_line(text.as_slice())
}

/// The reply to a filter that was read of the text, which has its canonical text.
pub(crate) fn active_line(alloc: Global, _text: &[u8], filter: &FilterSet) -> Result<Line, Memory>
    requires { terms_of _text.now ≡ Ok filter.now }
    ensures { IfOk result (λ line. line ≡ active_reply filter.now) }
{
    let written = filter.write(alloc)?;
    let mut text = ArrayVec::new();
    append(&mut text, b"# filter ");
    append(&mut text, written.as_bytes());
    append(&mut text, b" active");
    Ok(known_line(text.as_slice()))
}

/// The reply to a filter that is refused.
pub fn denied_line(alloc: Global, fault: FilterFault) -> Result<Line, Memory>
    ensures { IfOk result (λ line. line ≡ refused_filter (filter_words fault)) }
{
    match fault {
        FilterFault::NoFilters => Ok(denied_for(b"this port has no filter")),
        FilterFault::Long => Ok(denied_for(b"too long")),
        FilterFault::Term(number) => denied_term(alloc, number),
        FilterFault::TooMany(letter) => Ok(denied_for(excess_word(letter))),
    }
}

/// What there is too much of: terms of a letter, or of all.
fn excess_word(letter: u8) -> &'static [u8]
    ensures word { result.now ≡ excess_words letter }
    ensures short { IsInner result.now × (length result.now ≤ 30) }
{
    match letter {
        b'*' => b"too many terms".as_slice(),
        b'r' => b"too many r".as_slice(),
        b'f' => b"too many f".as_slice(),
        _ => b"too many a".as_slice(),
    }
}

fn denied_for(word: &[u8]) -> Line
    requires { IsInner word.now × (length word.now ≤ 30) }
    ensures { result ≡ refused_filter word.now }
{
    let mut text = ArrayVec::new();
    append(&mut text, b"# filter refused, ");
    append(&mut text, word);
    known_line(text.as_slice())
}

fn denied_term(alloc: Global, number: u16) -> Result<Line, Memory>
    ensures { IfOk result (λ line. line ≡ refused_filter (codes "term " ++ decimal number)) }
{
    let digits = number.to_string(alloc)?;
    let mut word = ArrayVec::<u8, 510>::new();
    append(&mut word, b"term ");
    append(&mut word, digits.as_bytes());
    Ok(denied_for(word.as_slice()))
}

/// How the reply speaks of the login.
fn word_for(verified: bool) -> &'static [u8]
    ensures word { result.now ≡ verified_word verified }
    ensures short { length result.now ≤ 20 }
{
    if verified {
        b" verified, server ".as_slice()
    } else {
        b" unverified, server ".as_slice()
    }
}

/// A line whose text is known to be one.
fn known_line(text: &[u8]) -> Line
    requires { IsLine text.now }
    ensures { result ≡ text.now }
{
    Line::new(text).unwrap()
}

fn append(text: &mut ArrayVec<u8, 510>, bytes: &[u8])
    requires { length text.old.items + length bytes.now ≤ 510 }
    ensures { text.new.items ≡ text.old.items ++ bytes.now }
{
    text.try_extend_from_slice(bytes).unwrap();
}
