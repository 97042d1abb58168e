//! Identifiers and their names.

ghost use Rattle.std.specs.Prelude.{◌≡◌, ◌≤◌, ◌==◌, length, chars, encode_utf8_all, IfOk, MatchOption, IsCharBoundary, true, bytes_eq, ◌∷◌, []};
ghost use Rattle.std.specs.List.{list_all};
ghost use Rattle.std.specs.String.{string_bytes};
ghost use Rattle.unicode_ident.specs.Ident.{is_xid_continue as continues};
ghost use Rattle.unicode_normalization.specs.Forms.{nfc};
ghost use Rattle.rust_lex.specs.Characters.{begins, front};
ghost use Rattle.rust_lex.specs.Identifiers as spec;
ghost use Rattle.rust_lex.specs.Scan as scan;

use crate::characters::{begins_byte, skip, split_first};
use aen_base::{Name, NoMem};
use std::alloc::Global;
use unicode_ident::{is_xid_continue, is_xid_start};
use unicode_normalization::slice::extend_nfc;

/// Whether an identifier may begin with a character.
fn starts_identifier(c: char) -> bool
    ensures { result ≡ spec.starts_identifier c }
{
    is_xid_start(c) || c == '_'
}

/// Whether every character may stand in an identifier.
fn all_continue(characters: &[char]) -> bool
    ensures { result ≡ list_all continues characters.now }
{
    for c in characters {
        if !is_xid_continue(*c) {
            return false;
        }
    }
    true
}

/// Whether characters are an identifier; `_` alone is none.
fn are_identifier(characters: &[char]) -> bool
    ensures { result ≡ spec.are_identifier characters.now }
{
    match characters {
        [] => false,
        ['_'] => false,
        [first, ..] => starts_identifier(*first) && all_continue(characters),
    }
}

/// How many bytes first are characters that may stand in an identifier.
fn continued_length(text: &str) -> usize
    ensures { result ≡ length (encode_utf8_all (front continues (chars text.now))) }
{
    let mut rest = text;
    let mut count = 0;
    while let Some((c, behind)) = split_first(rest) {
        if !is_xid_continue(c) {
            return count;
        }
        count += c.len_utf8();
        rest = behind;
    }
    count
}

/// Whether an identifier may begin with the first character.
fn begins_identifier(text: &str) -> bool
    ensures { result ≡ begins spec.starts_identifier (chars text.now) }
{
    match split_first(text) {
        Some((c, _)) => starts_identifier(c),
        None => false,
    }
}

/// Whether `count` bytes, which are the characters that may stand in an identifier, are `_` alone.
fn is_underscore(text: &str, count: usize) -> bool
    requires starts { begins spec.starts_identifier (chars text.now) ≡ true }
    requires count { count ≡ length (encode_utf8_all (front continues (chars text.now))) }
    ensures { result ≡ bytes_eq (front continues (chars text.now)) (95 ∷ []) }
{
    (count == 1) & begins_byte(b'_', text.as_bytes())
}

/// The length of the longest identifier that stands first; None where none does.
#[tactic(auto, unfolding(crate::specs::Scan::identifier_length))]
pub(crate) fn identifier_length(text: &str) -> Option<usize>
    ensures { result ≡ scan.identifier_length text.now }
{
    if !begins_identifier(text) {
        return None;
    }
    let count = continued_length(text);
    if is_underscore(text, count) {
        return None;
    }
    Some(count)
}

/// Where the longest identifier that begins at byte `at` ends, `at` being a boundary between
/// characters; None exactly where none begins there. It takes no memory.
pub fn ident_end(text: &str, at: usize) -> Option<usize>
    requires { IsCharBoundary text.now at }
    ensures { MatchOption result (spec.NoIdentifier at text.now) (λ end. spec.IsIdentifierEnd at end text.now) }
{
    match identifier_length(skip(text, at)) {
        Some(count) => Some(at + count),
        None => None,
    }
}

/// A text of these characters. The only error is want of memory.
fn text_of(alloc: Global, characters: &[char]) -> Result<String, NoMem>
    ensures { IfOk result (λ t. string_bytes t ≡ encode_utf8_all characters.now) }
{
    let mut text = String::new(alloc);
    for c in characters {
        text.push(*c)?;
    }
    Ok(text)
}

/// The characters of a text. The only error is want of memory.
fn characters_of(alloc: Global, text: &str) -> Result<Vec<char>, NoMem>
    ensures { IfOk result (λ v. v.items ≡ chars text.now) }
{
    let characters: Vec<char> = text.chars().collect(alloc)?;
    Ok(characters)
}

/// The characters of a text in normal form. The only error is want of memory.
fn normal_of(alloc: Global, text: &str) -> Result<Vec<char>, NoMem>
    ensures { IfOk result (λ v. v.items ≡ nfc (chars text.now)) }
{
    let characters = characters_of(alloc, text)?;
    let mut normal = Vec::new(alloc);
    extend_nfc(&mut normal, characters.as_slice())?;
    Ok(normal)
}

/// The name of an identifier: its NFC. The only error is want of memory.
pub fn name_of(alloc: Global, ident: &str) -> Result<Name, NoMem>
    ensures { IfOk result (λ n. n ≡ spec.name_of ident.now) }
{
    let normal = normal_of(alloc, ident)?;
    Ok(Name::new(text_of(alloc, normal.as_slice())?))
}

/// The name of an identifier, where that is an identifier too. The only error is want of memory.
#[tactic(auto, unfolding(crate::specs::Identifiers::is_named))]
pub(crate) fn identifier_name(alloc: Global, ident: &str) -> Result<Option<Name>, NoMem>
    ensures { IfOk result (λ o. o ≡ scan.identifier_name ident.now) }
{
    let normal = normal_of(alloc, ident)?;
    if !are_identifier(normal.as_slice()) {
        return Ok(None);
    }
    let name = text_of(alloc, normal.as_slice())?;
    Ok(Some(Name::new(name)))
}
