//! Names, and what they match.
ghost use Rattle.std.specs.Prelude.{◌≡◌, ◌==◌, true};
ghost use Rattle.std.specs.List.{list_any, starts_with};
ghost use Rattle.filter_eval.specs.Passes.{begins_with, is_some_and, matches, matches_one};

use aprs_base::Word9;
use filter_lang::{Name, Names};

/// Whether the text may begin with the name, by the first byte of each. It mostly tells that it doesn't, and costs little.
fn may_begin(text: &[u8], name: &[u8]) -> bool
    ensures { starts_with ◌==◌ text.now name.now ≡ true → result ≡ true }
{
    if name.is_empty() {
        return true;
    }
    if text.is_empty() {
        return false;
    }
    text[0] == name[0]
}

fn begins_with(text: &[u8], name: &Name) -> bool
    ensures { result ≡ begins_with text.now name.now }
{
    let name = name.text.as_slice();
    may_begin(text, name) && text.starts_with(name)
}

/// Whether the name is the text, or, where it is wild, a beginning of it.
fn matches(text: &[u8], name: &Name) -> bool
    ensures { result ≡ matches text.now name.now }
{
    if name.wild {
        begins_with(text, name)
    } else {
        *text == *name.text.as_slice()
    }
}

/// Whether the text begins with one of the names.
pub fn begins_with_one(names: &Names, text: &[u8]) -> bool
    ensures { result ≡ list_any (begins_with text.now) names.now }
{
    names.list.iter().any(|name| begins_with(text, name))
}

/// Whether one of the names matches the text.
pub fn matches_one(names: &Names, text: &[u8]) -> bool
    ensures { result ≡ matches_one names.now text.now }
{
    names.list.iter().any(|name| matches(text, name))
}

/// Whether there is a word, and one of the names matches it.
pub fn matches_word(names: &Names, word: &Option<Word9>) -> bool
    ensures { result ≡ is_some_and (matches_one names.now) word.now }
{
    match word {
        Some(word) => matches_one(names, word.bytes()),
        None => false,
    }
}
