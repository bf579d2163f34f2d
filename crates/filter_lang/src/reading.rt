//! The reading of a filter's text.
ghost use Rattle.std.specs.Prelude.{◌≡◌, [], ◌≤◌, ◌<◌, ◌∷◌, ℕ, List, Ok, Err, length, IsTrue, IsErrOf, ◌↔◌, IfNone, IfSome, IfOk, MatchResult, OnOk, vec_len};
ghost use Rattle.filter_lang.specs.Parts.{words_from, words_of};
ghost use Rattle.filter_lang.specs.Terms.{is_in_range};
ghost use Rattle.filter_lang.specs.Grammar.{Fails, Gives, added, added_all, count_of, excess_of, is_letter_of, limited, lower, term_of, terms_of, what_of};

use crate::errors::FilterError;
use crate::kinds::kind;
use crate::parts::strip_last;
use crate::terms::{FilterSet, Term, What};
use aprs_base::first_place;
use std::alloc::{AllocError, Global};

/// The most bytes of a text, terms of a filter, and terms of each kind that costs more.
const MOST_BYTES: usize = 480;

const MOST_TERMS: usize = 64;

const MOST_OF_A_KIND: usize = 9;

fn lower_case(letter: u8) -> u8
    ensures { result ≡ lower letter }
{
    letter.to_ascii_lowercase()
}

/// What a term asks, read from its text without the minus.
#[tactic(auto, unfolding(crate::specs::Grammar::what_of))]
fn what(alloc: Global, text: &[u8]) -> Result<Option<What>, AllocError>
    ensures value { IfOk result (λ w. w ≡ what_of text.now) }
    ensures ranges { IfOk result (λ o. IfSome o (λ w. IsTrue (is_in_range w))) }
{
    let (body, _) = strip_last(b'/', text);
    match body {
        [letter, b'/', fields @ ..] => kind(alloc, lower_case(*letter), fields),
        _ => Ok(None),
    }
}

/// One term.
#[tactic(auto, unfolding(crate::specs::Grammar::term_of))]
fn term(alloc: Global, word: &[u8]) -> Result<Option<Term>, AllocError>
    ensures { IfOk result (λ t. t ≡ term_of word.now) }
{
    let (exclude, body) = match word {
        [b'-', body @ ..] => (true, body),
        _ => (false, word),
    };
    match what(alloc, body)? {
        Some(what) => Ok(Some(Term { exclude, what })),
        None => Ok(None),
    }
}

/// The letter of a kind of which there may be only nine.
fn limited_letter(what: &What) -> Option<u8>
    ensures { result ≡ limited what.now }
{
    match what {
        What::Range { .. } => Some(b'r'),
        What::Friend { .. } => Some(b'f'),
        What::Area { .. } => Some(b'a'),
        _ => None,
    }
}

fn has_letter(term: &Term, letter: u8) -> bool
    ensures { result ≡ is_letter_of letter (limited term.now.what) }
{
    match limited_letter(&term.what) {
        Some(other) => other == letter,
        None => false,
    }
}

/// How many terms have the letter.
fn count_letter(terms: &[Term], letter: u8) -> usize
    ensures { result ≡ count_of letter terms.now }
{
    terms.iter().filter(|term| has_letter(term, letter)).count()
}

/// The letter of what there would be too many with one term more.
#[tactic(auto, unfolding(crate::specs::Grammar::excess_of))]
fn excess(terms: &[Term], what: &What) -> Option<u8>
    ensures value { result ≡ excess_of terms.now what.now }
    ensures room { IfNone result (length terms.now < 64) }
{
    if let Some(letter) = limited_letter(what) {
        if count_letter(terms, letter) >= MOST_OF_A_KIND {
            return Some(letter);
        }
    }
    if terms.len() >= MOST_TERMS {
        Some(b'*')
    } else {
        None
    }
}

/// Adds the term that a word reads as.
fn add(alloc: Global, terms: &mut Vec<Term>, word: &[u8]) -> Result<(), FilterError>
    requires { vec_len terms.old ≤ 64 }
    ensures value { MatchResult result (λ _. added terms.old.items (term_of word.now) ≡ Ok terms.new.items) (λ e. Fails e (added terms.old.items (term_of word.now))) }
    ensures room { OnOk result (vec_len terms.new ≤ 64) }
{
    let number = terms.len() as u16 + 1;
    let Some(term) = term(alloc, word)? else {
        return Err(FilterError::Term(number));
    };
    if let Some(letter) = excess(terms, &term.what) {
        return Err(FilterError::TooMany(letter));
    }
    terms.push(term)?;
    Ok(())
}

/// The bytes before the first blank, and those after it.
fn next_word(text: &[u8]) -> (&[u8], &[u8])
    requires { 0 < length text.now }
    ensures words { words_of text.now ≡ words_from result.0.now (words_of result.1.now) }
    ensures shorter { length result.1.now < length text.now }
{
    let end = first_place(b' ', text);
    if end == text.len() {
        return (text, &[]);
    }
    (&text[..end], &text[end + 1..])
}

/// Adds the term of a word, unless it has no bytes.
fn add_word(alloc: Global, terms: &mut Vec<Term>, word: &[u8]) -> Result<(), FilterError>
    requires { vec_len terms.old ≤ 64 }
    ensures value { (more : List (List ℕ)) → MatchResult result (λ _. added_all terms.old.items (words_from word.now more) ≡ added_all terms.new.items more) (λ e. Fails e (added_all terms.old.items (words_from word.now more))) }
    ensures room { OnOk result (vec_len terms.new ≤ 64) }
{
    if word.is_empty() {
        return Ok(());
    }
    add(alloc, terms, word)
}

/// The filter of a text's words, or the first fault of a word.
fn read_words(alloc: Global, text: &[u8]) -> Result<FilterSet, FilterError>
    ensures { Gives result (added_all [] (words_of text.now)) }
{
    let mut terms = Vec::new(alloc);
    let mut rest = text;
    while !rest.is_empty() {
        let (word, after) = next_word(rest);
        add_word(alloc, &mut terms, word)?;
        rest = after;
    }
    Ok(FilterSet { terms })
}

/// The filter of a text, or the first fault of the text.
#[tactic(auto, unfolding(crate::specs::Grammar::terms_of))]
pub fn read(alloc: Global, text: &[u8]) -> Result<FilterSet, FilterError>
    ensures value { Gives result (terms_of text.now) }
    ensures long { IsErrOf result FilterError.Long ↔ (480 < length text.now) }
    ensures few { IfOk result (λ filter. length filter ≤ 64) }
{
    if text.len() > MOST_BYTES {
        return Err(FilterError::Long);
    }
    read_words(alloc, text)
}
