//! Names, read and written.
ghost use Rattle.std.specs.Prelude.{◌≡◌, ◌<◌, ◌≤◌, ◌++◌, ℕ, Bool, List, length, map, option_map, IfOk, OnOk};
ghost use Rattle.std.specs.List.{list_all};
ghost use Rattle.filter_lang.specs.Parts.{fields_of};
ghost use Rattle.filter_lang.specs.Names.{is_plain, meant, name_of, names_of, spelled, starless};

use crate::parts::{cut, strip_last};
use crate::terms::{Name, Names};
use arrayvec::ArrayVec;
use std::alloc::{AllocError, Global};

/// The byte that is meant by `byte`.
pub fn meant_byte(byte: u8) -> u8
    ensures { result ≡ meant byte }
{
    match byte {
        b'|' => b'/',
        b'~' => b'*',
        _ => byte,
    }
}

/// The byte that is written for `byte`.
pub fn spelled_byte(byte: u8) -> u8
    ensures { result ≡ spelled byte }
{
    match byte {
        b'/' => b'|',
        b'*' => b'~',
        _ => byte,
    }
}

fn is_plain_byte(byte: u8) -> bool
    ensures { result ≡ is_plain byte }
{
    byte > b' ' && byte != b'*'
}

fn all_plain(text: &[u8]) -> bool
    ensures { result ≡ list_all is_plain text.now }
{
    text.iter().all(|byte| is_plain_byte(*byte))
}

/// The bytes that are meant by at most nine bytes.
fn meant_text(body: &[u8]) -> ArrayVec<u8, 9>
    requires { length body.now ≤ 9 }
    ensures { result.items ≡ map meant body.now }
{
    let mut text = ArrayVec::new();
    for byte in body {
        text.push(meant_byte(*byte));
    }
    text
}

/// A name.
#[tactic(auto, unfolding(crate::specs::Names::name_of))]
fn name(field: &[u8]) -> Option<Name>
    ensures { result ≡ name_of field.now }
{
    let (body, wild) = strip_last(b'*', field);
    if !all_plain(body) || body.len() > 9 || (body.is_empty() && !wild) {
        return None;
    }
    Some(Name {
        text: meant_text(body),
        wild,
    })
}

/// One or more names, each a field of `text`.
pub fn names(alloc: Global, text: &[u8]) -> Result<Option<Names>, AllocError>
    ensures { IfOk result (λ found. found ≡ names_of (fields_of text.now)) }
{
    let mut list = Vec::new(alloc);
    let mut rest = Some(text);
    while let Some(fields) = rest {
        let (field, after) = cut(fields);
        let Some(name) = name(field) else {
            return Ok(None);
        };
        list.push(name)?;
        rest = after;
    }
    Ok(Some(Names { list }))
}

/// Whether the name is `*` alone.
pub fn is_star(name: &Name) -> bool
    ensures { result ≡ (starless name.now).wild }
{
    name.wild && name.text.is_empty()
}

/// The names without a `*` after other bytes.
pub fn without_stars(mut names: Names) -> Names
    ensures { result ≡ map starless names }
{
    for name in names.list.iter_mut() {
        let wild = is_star(name);
        name.wild = wild;
    }
    names
}
