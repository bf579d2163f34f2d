//! The login line.
ghost use Rattle.std.specs.Prelude.{◌≡◌, ℕ, ◌+◌, ◌≤◌, List, Some, None, length, drop, true, false, if◌then◌else◌, IfSome, IfNone};
ghost use Rattle.std.specs.Char.{is_ascii_digit};
ghost use Rattle.std.specs.List.{list_all};
ghost use Rattle.aprs_base.specs.Bytes.{is_station};
ghost use Rattle.login_pass.specs.Login.{code_of, filter_in, is_code_number, is_verified, login_of, number_from, trimmed};
ghost use Rattle.login_pass.specs.Words.{words_from};

use crate::pass::passcode;
use crate::words::{is_word, next_word};
use aprs_base::{Call, Line, all_digits, leading_blanks, trailing_blanks};

/// Who logs in, by which code, and with which filter.
#[derive(Drop)]
pub struct Login {
    pub call: Call,
    /// `None` stands for `-1`.
    pub code: Option<u32>,
    /// Where the filter's text begins in the line, and its length.
    pub filter: Option<(u16, u16)>,
}

/// Why a line is no login: the first of these that applies.
#[derive(Clone, Copy, PartialEq, Eq, Debug)]
pub enum LoginFault {
    /// The first word isn't `user`.
    NotUser,
    /// The second word is missing, or can't be a station's call.
    BadCall,
    /// The third word isn't `pass`.
    NoPass,
    /// The fourth word is missing, or neither `-1` nor one to five digits.
    BadPass,
}

impl Login {
    /// Whether the code is the passcode of the call.
    pub fn verified(&self) -> bool
        ensures { result ≡ is_verified self.now }
    {
        match self.code {
            Some(code) => code == u32::from(passcode(&self.call)),
            None => false,
        }
    }
}

fn is_number(text: &[u8]) -> bool
    ensures { result ≡ is_code_number text.now }
{
    !text.is_empty() && text.len() <= 5 && all_digits(text)
}

/// The number that at most five digits spell.
fn number(digits: &[u8]) -> u32
    requires { is_code_number digits.now ≡ true }
    ensures { result ≡ number_from 0 digits.now }
{
    let mut number: u32 = 0;
    for digit in digits {
        number = number * 10 + u32::from(*digit - b'0');
    }
    number
}

/// The number that one to five digits spell.
pub fn code_number(text: &[u8]) -> Option<u32>
    ensures { result ≡ (if is_code_number text.now then Some (number_from 0 text.now) else None) }
{
    if is_number(text) {
        Some(number(text))
    } else {
        None
    }
}

/// The code that a word spells.
fn read_code(text: &[u8]) -> Option<Option<u32>>
    ensures { result ≡ code_of text.now }
{
    if text == b"-1".as_slice() {
        return Some(None);
    }
    Some(Some(code_number(text)?))
}

/// Place and length of what stands from `start` on, without the blanks at both ends.
fn trim(line: &[u8], start: usize) -> (u16, u16)
    requires start { start ≤ length line.now }
    requires short { length line.now ≤ 510 }
    ensures { result ≡ trimmed start (drop start line.now) }
{
    let text = &line[start..];
    let blanks = leading_blanks(text);
    let length = (text.len() - blanks).saturating_sub(trailing_blanks(text));
    ((start + blanks) as u16, length as u16)
}

/// The filter behind the first word `filter` from this place on.
fn find_filter(line: &[u8], place: usize) -> Option<(u16, u16)>
    requires place { place ≤ length line.now }
    requires short { length line.now ≤ 510 }
    ensures { result ≡ filter_in line.now (words_from place line.now) }
{
    let mut word = next_word(line, place);
    while word.start < word.end {
        if is_word(b"filter", &line[word.start..word.end]) {
            return Some(trim(line, word.end));
        }
        word = next_word(line, word.end);
    }
    None
}

fn read_station(text: &[u8]) -> Option<Call>
    ensures some { IfSome result (λ call. (is_station text.now ≡ true) × (call ≡ text.now)) }
    ensures none { IfNone result (is_station text.now ≡ false) }
{
    let call = Call::read(text)?;
    if call.is_station() { Some(call) } else { None }
}

/// Reads a login line.
#[tactic(auto, unfolding(crate::specs::Login::login_of))]
pub fn read_login(line: &Line) -> Result<Login, LoginFault>
    ensures { result ≡ login_of line.now }
{
    let text = line.bytes();
    let user = next_word(text, 0);
    if !is_word(b"user", &text[user.start..user.end]) {
        return Err(LoginFault::NotUser);
    }
    let call = next_word(text, user.end);
    let Some(station) = read_station(&text[call.start..call.end]) else {
        return Err(LoginFault::BadCall);
    };
    let pass = next_word(text, call.end);
    if !is_word(b"pass", &text[pass.start..pass.end]) {
        return Err(LoginFault::NoPass);
    }
    let code = next_word(text, pass.end);
    let Some(number) = read_code(&text[code.start..code.end]) else {
        return Err(LoginFault::BadPass);
    };
    Ok(Login {
        call: station,
        code: number,
        filter: find_filter(text, code.end),
    })
}
