//! The words of a text and the fields of a term.
ghost use Rattle.std.specs.Prelude.{◌≡◌, ◌<◌, ◌∷◌, length, IfSome, option_copied, option_map, false};
ghost use Rattle.filter_lang.specs.Parts.{ends_in, fields_after, fields_of, four_of, is_empty, one_of, three_of, two_of, without_last};

use aprs_base::first_place;

/// The first field of `text`, and what follows its slash, where there is one.
pub fn cut(text: &[u8]) -> (&[u8], Option<&[u8]>)
    ensures fields { fields_of text.now ≡ result.0.now ∷ fields_after (option_copied result.1) }
    ensures more { IfSome result.1 (λ rest. is_empty (fields_of rest.now) ≡ false) }
    ensures shorter { IfSome result.1 (λ rest. length rest.now < length text.now) }
{
    let place = first_place(b'/', text);
    if place == text.len() {
        return (text, None);
    }
    (&text[..place], Some(&text[place + 1..]))
}

/// The text without its last byte, where that is `byte`, and whether it is.
pub fn strip_last(byte: u8, text: &[u8]) -> (&[u8], bool)
    requires { 0 < byte }
    ensures text { result.0.now ≡ without_last byte text.now }
    ensures ends { result.1 ≡ ends_in byte text.now }
{
    match text {
        [rest @ .., last] if *last == byte => (rest, true),
        _ => (text, false),
    }
}

/// The one field of a text that has no other.
pub fn one(text: &[u8]) -> Option<&[u8]>
    ensures { option_copied result ≡ one_of (fields_of text.now) }
{
    let (first, rest) = cut(text);
    if rest.is_some() { None } else { Some(first) }
}

/// The two fields of a text that has two.
pub fn two(text: &[u8]) -> Option<(&[u8], &[u8])>
    ensures { option_map (λ x. (x.0.now, x.1.now)) result ≡ two_of (fields_of text.now) }
{
    let (first, rest) = cut(text);
    Some((first, one(rest?)?))
}

/// The three fields of a text that has three.
pub fn three(text: &[u8]) -> Option<(&[u8], &[u8], &[u8])>
    ensures { option_map (λ x. (x.0.now, x.1.now, x.2.now)) result ≡ three_of (fields_of text.now) }
{
    let (first, rest) = cut(text);
    let (second, third) = two(rest?)?;
    Some((first, second, third))
}

/// The four fields of a text that has four.
pub fn four(text: &[u8]) -> Option<(&[u8], &[u8], &[u8], &[u8])>
    ensures { option_map (λ x. (x.0.now, x.1.now, x.2.now, x.3.now)) result ≡ four_of (fields_of text.now) }
{
    let (first, rest) = cut(text);
    let (second, third, fourth) = three(rest?)?;
    Some((first, second, third, fourth))
}
