//! The lines of a text, and the words of a line.
ghost use Rattle.std.specs.Prelude.{◌≡◌, ◌<◌, ◌∷◌, length};
ghost use Rattle.std.specs.Option.{option_map};
ghost use Rattle.net_script.specs.Grammar.{call_of, in_three, line_of, lines_of, parted, word_of};
ghost use Rattle.aprs_conf.specs.Arguments.{station_of};

use aprs_base::{Call, Line, first_place};

/// The words that begin a step.
#[derive(Clone, Copy)]
pub enum StepWord {
    Open,
    Say,
    Round,
    Join,
    Cut,
    Carry,
    Cast,
}

/// The words that begin a line.
#[derive(Clone, Copy)]
pub enum LineWord {
    Server,
    Uplink,
    Peer,
    Step(StepWord),
}

/// The word that begins a line.
pub fn line_word(text: &[u8]) -> Option<LineWord>
    ensures { result ≡ word_of text.now }
{
    if text == b"server".as_slice() {
        Some(LineWord::Server)
    } else if text == b"uplink".as_slice() {
        Some(LineWord::Uplink)
    } else if text == b"peer".as_slice() {
        Some(LineWord::Peer)
    } else if text == b"open".as_slice() {
        Some(LineWord::Step(StepWord::Open))
    } else if text == b"say".as_slice() {
        Some(LineWord::Step(StepWord::Say))
    } else if text == b"round".as_slice() {
        Some(LineWord::Step(StepWord::Round))
    } else if text == b"join".as_slice() {
        Some(LineWord::Step(StepWord::Join))
    } else if text == b"cut".as_slice() {
        Some(LineWord::Step(StepWord::Cut))
    } else if text == b"carry".as_slice() {
        Some(LineWord::Step(StepWord::Carry))
    } else if text == b"cast".as_slice() {
        Some(LineWord::Step(StepWord::Cast))
    } else {
        None
    }
}

/// The first line of a text that isn't empty, and what stands behind its line feed.
pub fn cut_line(text: &[u8]) -> (&[u8], &[u8])
    requires { 0 < length text.now }
    ensures lines { lines_of text.now ≡ result.0.now ∷ lines_of result.1.now }
    ensures shorter { length result.1.now < length text.now }
{
    let end = first_place(b'\n', text);
    if end == text.len() {
        return (text, b"");
    }
    (&text[..end], &text[end + 1..])
}

/// The word before the first blank, and what stands behind that blank.
pub fn part(text: &[u8]) -> Option<(&[u8], &[u8])>
    ensures { option_map (λ words. (words.0.now, words.1.now)) result ≡ parted text.now }
{
    let place = first_place(b' ', text);
    if place == text.len() {
        return None;
    }
    Some((&text[..place], &text[place + 1..]))
}

/// Two words, and all that is left behind them.
pub fn part_twice(text: &[u8]) -> Option<(&[u8], &[u8], &[u8])>
    ensures { option_map (λ words. (words.0.now, words.1.now, words.2.now)) result ≡ in_three text.now }
{
    let (first, behind) = part(text)?;
    let (second, rest) = part(behind)?;
    Some((first, second, rest))
}

pub fn call(text: &[u8]) -> Option<Call>
    ensures { result ≡ call_of text.now }
{
    Call::read(text)
}

/// A call that may name a station.
pub fn station(text: &[u8]) -> Option<Call>
    ensures { result ≡ station_of text.now }
{
    let call = Call::read(text)?;
    if call.is_station() { Some(call) } else { None }
}

pub fn line(text: &[u8]) -> Option<Line>
    ensures { result ≡ line_of text.now }
{
    Line::new(text)
}
