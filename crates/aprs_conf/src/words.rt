//! The lines of a text, and the words of a line.
ghost use Rattle.std.specs.Prelude.{◌≡◌, ◌<◌, ◌≤◌, [], ◌∷◌, Some, Ok, Err, length, MatchOption, MatchResult, IfSome, if◌then◌else◌, ◌==◌, option_copied};
ghost use Rattle.std.specs.List.{prefix_len, position_or_len};
ghost use Rattle.std.specs.Option.{option_map};
ghost use Rattle.aprs_conf.specs.Words.{arguments_of, has_open, is_gap, is_remark, lines_of, without_return, words_from, words_of};
ghost use Rattle.aprs_conf.specs.Words.Place.{Plain, Quoted};
ghost use Rattle.aprs_conf.specs.Reading.{BeginsWith, lines_behind};
ghost use Rattle.aprs_conf.specs.Grammar.{five_of, is_hidden_at_most, listen_of, need, one_of, two_of};

use crate::errors::ConfFault;
use aprs_base::first_place;

/// What a text begins with, behind its blanks and tabs.
#[derive(Clone, Copy)]
pub enum Next<'a> {
    /// A word, and what stands behind it.
    Word(&'a [u8], &'a [u8]),
    /// A word without its last quote.
    Open,
    End,
}

/// A line without the CR of its end.
fn without_end(line: &[u8]) -> &[u8]
    ensures { result.now ≡ without_return line.now }
{
    match line {
        [rest @ .., b'\r'] => rest,
        _ => line,
    }
}

/// The first line of a text, and what stands behind its line end, where it has one.
pub fn cut_line(text: &[u8]) -> (&[u8], Option<&[u8]>)
    ensures lines { lines_of text.now ≡ result.0.now ∷ lines_behind (option_copied result.1) }
    ensures shorter { IfSome result.1 (λ rest. length rest.now < length text.now) }
{
    let end = first_place(b'\n', text);
    if end == text.len() {
        return (text, None);
    }
    (without_end(&text[..end]), Some(&text[end + 1..]))
}

pub fn is_gap_byte(byte: u8) -> bool
    ensures { result ≡ is_gap byte }
{
    byte == b' ' || byte == b'\t'
}

/// How many blanks and tabs a text begins with.
fn leading_gaps(text: &[u8]) -> usize
    ensures count { result ≡ prefix_len is_gap text.now }
    ensures within { result ≤ length text.now }
{
    text.iter().take_while(|byte| is_gap_byte(**byte)).count()
}

/// How many bytes stand before the first blank or tab.
fn plain_length(text: &[u8]) -> usize
    ensures count { result ≡ position_or_len is_gap text.now }
    ensures within { result ≤ length text.now }
{
    text.iter().take_while(|byte| !is_gap_byte(**byte)).count()
}

/// The text behind its leading blanks and tabs.
fn behind_gaps(text: &[u8]) -> &[u8]
    ensures words { words_of text.now ≡ words_of result.now }
    ensures none { prefix_len is_gap result.now ≡ 0 }
    ensures shorter { length result.now ≤ length text.now }
{
    &text[leading_gaps(text)..]
}

/// The word before the first blank or tab, and the rest.
fn plain_word(text: &[u8]) -> (&[u8], &[u8])
    ensures words { words_from Plain text.now ≡ Some result.0.now ∷ words_of result.1.now }
    ensures shorter { 0 < length result.0.now → length result.1.now < length text.now }
    ensures some { 0 < length text.now → prefix_len is_gap text.now ≡ 0 → 0 < length result.0.now }
{
    let end = plain_length(text);
    (&text[..end], &text[end..])
}

/// The word before the next quote, and what stands behind that.
fn quoted_word(text: &[u8]) -> Next<'_>
    ensures { BeginsWith result (words_from Quoted text.now) text.now }
{
    let end = first_place(b'"', text);
    if end == text.len() {
        return Next::Open;
    }
    Next::Word(&text[..end], &text[end + 1..])
}

/// What a text begins with.
pub fn next_word(text: &[u8]) -> Next<'_>
    ensures { BeginsWith result (words_of text.now) text.now }
{
    let text = behind_gaps(text);
    match text {
        [] => Next::End,
        [b'"', inner @ ..] => quoted_word(inner),
        _ => {
            let (word, behind) = plain_word(text);
            Next::Word(word, behind)
        }
    }
}

/// Whether a word of the line has no last quote.
pub fn is_unended(line: &[u8]) -> bool
    ensures { result ≡ has_open (words_of line.now) }
{
    let mut rest = line;
    loop {
        match next_word(rest) {
            Next::Word(_, behind) => rest = behind,
            Next::Open => return true,
            Next::End => return false,
        }
    }
}

/// Whether the first word of the line begins with `#`.
pub fn begins_remark(line: &[u8]) -> bool
    ensures { result ≡ is_remark (words_of line.now) }
{
    match next_word(line) {
        Next::Word(word, _) => word.starts_with(b"#"),
        _ => false,
    }
}

/// The first word of a text that has its last quote, and what stands behind it.
pub fn next_argument(text: &[u8]) -> Option<(&[u8], &[u8])>
    ensures words { MatchOption result (arguments_of text.now ≡ []) (λ p. arguments_of text.now ≡ p.0.now ∷ arguments_of p.1.now) }
    ensures shorter { IfSome result (λ p. length p.1.now < length text.now) }
{
    match next_word(text) {
        Next::Word(word, behind) => Some((word, behind)),
        _ => None,
    }
}

/// How many words of a text have their last quote.
pub fn count_arguments(text: &[u8]) -> usize
    ensures { result ≡ length (arguments_of text.now) }
{
    let mut count = 0;
    let mut rest = text;
    while let Some((_, behind)) = next_argument(rest) {
        count += 1;
        rest = behind;
    }
    count
}

/// The one argument of a text that has no other.
pub fn one(text: &[u8]) -> Result<&[u8], ConfFault>
    ensures { MatchResult result (λ a. need ConfFault.BadCount (one_of (arguments_of text.now)) ≡ Ok a.now) (λ f. need ConfFault.BadCount (one_of (arguments_of text.now)) ≡ Err f) }
{
    let (first, behind) = next_argument(text).ok_or(ConfFault::BadCount)?;
    match next_argument(behind) {
        Some(_) => Err(ConfFault::BadCount),
        None => Ok(first),
    }
}

/// Whether a text has no argument, or only `hidden` where that may stand there.
fn may_end(text: &[u8], may_hide: bool) -> bool
    ensures { result ≡ (if may_hide then is_hidden_at_most (arguments_of text.now) else length (arguments_of text.now) == 0) }
{
    match next_argument(text) {
        Some((word, behind)) => may_hide
            && word == b"hidden".as_slice()
            && count_arguments(behind) == 0,
        None => true,
    }
}

/// The first two arguments of a text, and what stands behind them.
fn two(text: &[u8]) -> Option<(&[u8], &[u8], &[u8])>
    ensures { MatchOption result (length (arguments_of text.now) < 2) (λ p. arguments_of text.now ≡ p.0.now ∷ p.1.now ∷ arguments_of p.2.now) }
{
    let (first, behind) = next_argument(text)?;
    let (second, behind) = next_argument(behind)?;
    Some((first, second, behind))
}

/// The two arguments of a text that has no other.
pub fn two_alone(text: &[u8]) -> Option<(&[u8], &[u8])>
    ensures { option_map (λ p. (p.0.now, p.1.now)) result ≡ two_of (arguments_of text.now) }
{
    let (first, second, behind) = two(text)?;
    if may_end(behind, false) {
        Some((first, second))
    } else {
        None
    }
}

/// Five parts of a text, from the left.
pub type Five<'a> = (&'a [u8], &'a [u8], &'a [u8], &'a [u8], &'a [u8]);

/// The first four arguments of a text, and what stands behind them.
pub fn four(text: &[u8]) -> Option<Five<'_>>
    ensures { MatchOption result (length (arguments_of text.now) < 4) (λ p. arguments_of text.now ≡ p.0.now ∷ p.1.now ∷ p.2.now ∷ p.3.now ∷ arguments_of p.4.now) }
{
    let (first, second, behind) = two(text)?;
    let (third, fourth, behind) = two(behind)?;
    Some((first, second, third, fourth, behind))
}

/// The five arguments of a text that has five, and perhaps `hidden` where that may stand behind them.
pub fn five(text: &[u8], may_hide: bool) -> Option<Five<'_>>
    ensures { option_map (λ p. (p.0.now, p.1.now, p.2.now, p.3.now, p.4.now)) result ≡ (if may_hide then listen_of (arguments_of text.now) else five_of (arguments_of text.now)) }
{
    let (first, second, third, fourth, behind) = four(text)?;
    let (fifth, behind) = next_argument(behind)?;
    if may_end(behind, may_hide) {
        Some((first, second, third, fourth, fifth))
    } else {
        None
    }
}
