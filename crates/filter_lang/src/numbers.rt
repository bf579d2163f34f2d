//! Degrees and kilometres, read and written.
ghost use Rattle.std.specs.Prelude.{◌≡◌, ◌<◌, ◌≤◌, ◌^◌, ℕ, length, IsTrue, IfSome, option_map, unsigned_abs};
ghost use Rattle.std.specs.Char.{is_ascii_digit};
ghost use Rattle.std.specs.List.{list_all};
ghost use Rattle.std.specs.Str.Parse.{digits_value};
ghost use Rattle.filter_lang.specs.Numbers.{are_digits, at_most, degrees_of, dotted_of, fraction_of, kilometres_of, millionths_of, places};

use aprs_base::{all_digits, first_place};

/// What a one counts in each of six places after the dot, in millionths.
pub const PLACES: [u32; 6] = [100_000, 10_000, 1_000, 100, 10, 1];

/// Whether the text has digits alone, and one at least.
fn is_number(text: &[u8]) -> bool
    ensures { result ≡ are_digits text.now }
{
    !text.is_empty() && all_digits(text)
}

/// The digits before and after the dot, of which the second are none where there is no dot.
#[tactic(auto, unfolding(crate::specs::Numbers::dotted_of))]
fn dotted(text: &[u8]) -> Option<(&[u8], &[u8])>
    ensures value { option_map (λ x. (x.0.now, x.1.now)) result ≡ dotted_of text.now }
    ensures digits { IfSome result (λ x. IsTrue (list_all is_ascii_digit x.0.now) × IsTrue (list_all is_ascii_digit x.1.now)) }
{
    let place = first_place(b'.', text);
    if place == text.len() {
        return if is_number(text) {
            Some((text, &[]))
        } else {
            None
        };
    }
    let (whole, more) = (&text[..place], &text[place + 1..]);
    if is_number(whole) && is_number(more) {
        Some((whole, more))
    } else {
        None
    }
}

/// The number of at most five digits.
fn number(digits: &[u8]) -> u32
    requires digits { IsTrue (list_all is_ascii_digit digits.now) }
    requires short { length digits.now ≤ 5 }
    ensures value { result ≡ digits_value 10 digits.now }
    ensures bound { result < 10 ^ length digits.now }
{
    let mut value = 0;
    for digit in digits {
        value = value * 10 + u32::from(*digit - b'0');
    }
    value
}

/// The digits after the dot, in millionths.
fn fraction(digits: &[u8]) -> u32
    requires { IsTrue (list_all is_ascii_digit digits.now) }
    ensures value { result ≡ fraction_of places digits.now }
    ensures bound { result < 1000000 }
{
    let mut value = 0;
    let mut rest = digits;
    for place in PLACES {
        let [digit, more @ ..] = rest else { break };
        value += u32::from(*digit - b'0') * place;
        rest = more;
    }
    value
}

/// Degrees in millionths, without a sign.
#[tactic(auto, unfolding(crate::specs::Numbers::millionths_of))]
fn millionths(text: &[u8]) -> Option<u32>
    ensures value { result ≡ millionths_of text.now }
    ensures bound { IfSome result (λ n. n < 1000000000) }
{
    let (whole, more) = dotted(text)?;
    if whole.len() > 3 {
        return None;
    }
    Some(number(whole) * 1_000_000 + fraction(more))
}

fn limited(size: u32, limit: u32) -> Option<u32>
    ensures value { result ≡ at_most limit size }
    ensures bound { IfSome result (λ n. n ≤ limit) }
{
    if size <= limit { Some(size) } else { None }
}

/// Degrees in millionths, within `limit`.
#[tactic(auto, unfolding(crate::specs::Numbers::degrees_of))]
pub fn degrees(limit: u32, text: &[u8]) -> Option<i32>
    requires { limit ≤ 180000000 }
    ensures value { result ≡ degrees_of limit text.now }
    ensures bound { IfSome result (λ z. unsigned_abs z ≤ limit) }
{
    match text {
        [b'-', rest @ ..] => Some(-(limited(millionths(rest)?, limit)? as i32)),
        _ => Some(limited(millionths(text)?, limit)? as i32),
    }
}

/// Kilometres.
#[tactic(auto, unfolding(crate::specs::Numbers::kilometres_of))]
pub fn kilometres(text: &[u8]) -> Option<u32>
    ensures value { result ≡ kilometres_of text.now }
    ensures bound { IfSome result (λ n. n ≤ 99999) }
{
    let (whole, _) = dotted(text)?;
    if whole.len() > 5 {
        None
    } else {
        Some(number(whole))
    }
}
