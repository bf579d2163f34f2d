//! The numbers of a script.
ghost use Rattle.std.specs.Prelude.{◌≡◌, ◌≤◌, IfSome, length, true};
ghost use Rattle.std.specs.Char.{is_ascii_digit};
ghost use Rattle.std.specs.List.{list_all};
ghost use Rattle.login_pass.specs.Login.{number_from};
ghost use Rattle.net_script.specs.Grammar.{count_within, number_of};

use aprs_base::all_digits;

const MOST_DIGITS: usize = 12;

/// The number that at most twelve digits spell.
fn spelled(digits: &[u8]) -> u64
    requires digits { list_all is_ascii_digit digits.now ≡ true }
    requires short { length digits.now ≤ 12 }
    ensures { result ≡ number_from 0 digits.now }
{
    let mut number: u64 = 0;
    for digit in digits {
        number = number * 10 + u64::from(*digit - b'0');
    }
    number
}

/// A number of one to twelve digits.
pub fn number(text: &[u8]) -> Option<u64>
    ensures { result ≡ number_of text.now }
{
    if text.is_empty() || text.len() > MOST_DIGITS || !all_digits(text) {
        return None;
    }
    Some(spelled(text))
}

/// A number from 1 to `most`, and not less than `least`, which begins with no zero.
pub fn count(text: &[u8], least: u32, most: u32) -> Option<u32>
    ensures value { result ≡ count_within least most text.now }
    ensures most { IfSome result (λ n. n ≤ most) }
{
    let number = number(text)?;
    if text[0] == b'0' || number < u64::from(least) || number > u64::from(most) {
        return None;
    }
    Some(number as u32)
}
