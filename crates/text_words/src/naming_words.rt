//! Finds definitions by their names as they are printed.

ghost use Rattle.std.specs.Prelude.{◌≡◌, ◌^◌, ◌↔◌, ◌++◌, IsTrue, MatchOption, codes};
ghost use Rattle.std.specs.Option.{option_map};
ghost use Rattle.std.specs.Fmt.{decimal};
ghost use Rattle.text_meaning.specs.Lexing.{quoted};
ghost use Rattle.text_meaning.specs.Lookups as lookups;
ghost use Rattle.text_meaning.specs.ShownNames.{name_text, function_text, kind_text};
ghost use Rattle.text_words.specs.NamedDefinitions.{NoneNamed, IsNamed};
ghost use Rattle.text_words.specs.Pieces as spec;

use aen_base::{DefId, FnId, at};
use itoa::Buffer;
use pure_ast::{DefKind, Defs};
use text_meaning::is_bare;

/// The first definition whose name is printed as these bytes; None exactly where no definition that
/// has a number, which is below 2^32, is printed so. It takes no memory.
pub fn def_named(defs: &Defs, name: &str) -> Option<DefId>
    ensures { MatchOption result (NoneNamed defs.now name.now (2 ^ 32)) (λ id. IsNamed defs.now name.now id.0) }
{
    let definitions = defs.defs.as_slice();
    let mut number = 0u32;
    for definition in definitions {
        if is_printed(defs, definition.kind, name.as_bytes()) {
            return Some(DefId(number));
        }
        number = number.checked_add(1)?;
    }
    None
}

/// Whether a definition's name is printed as this text.
fn is_printed(defs: &Defs, kind: DefKind, text: &[u8]) -> bool
    ensures { IsTrue result ↔ (kind_text defs.now kind ≡ text.now) }
{
    is_end(after_kind(defs, kind, text))
}

/// Whether there is a rest, and it is empty.
fn is_end(rest: Option<&[u8]>) -> bool
    ensures { result ≡ spec.is_end (option_map (λ s. s.now) rest.entry) }
{
    match rest {
        Some(rest) => rest.is_empty(),
        None => false,
    }
}

/// What is left of a text after a definition's name.
fn after_kind<'a>(defs: &Defs, kind: DefKind, text: &'a [u8]) -> Option<&'a [u8]>
    ensures { option_map (λ s. s.now) result ≡ spec.after (kind_text defs.now kind) text.now }
{
    match kind {
        DefKind::Forward(f) => after_function(defs, f, text),
        DefKind::Back(f, region) => {
            let text = after_function(defs, f, text)?;
            after_number(".back", region.0, text)
        }
        DefKind::Loop(f, place) => {
            let text = after_function(defs, f, text)?;
            after_number(".loop", place.0, text)
        }
        DefKind::LoopBack(f, place, class) => {
            let text = after_function(defs, f, text)?;
            after_class(place.0, class, text)
        }
    }
}

/// What is left of a text after a function's name.
fn after_function<'a>(defs: &Defs, f: FnId, text: &'a [u8]) -> Option<&'a [u8]>
    ensures { option_map (λ s. s.now) result ≡ spec.after (function_text defs.now f.0) text.now }
{
    let text = after("fn.", text)?;
    after_name(function_name(defs, f), text)
}

/// A function's name, empty where there is no such function.
fn function_name<'a>(defs: &'a Defs, f: FnId) -> &'a str
    ensures { result.now ≡ lookups.function_name defs.now f.0 }
{
    match at(defs.names.as_slice(), f.0 as usize) {
        Some(name) => name.as_str(),
        None => "",
    }
}

/// What is left of a text after a name, which is between marks where it may not stand as it is.
fn after_name<'a>(name: &str, text: &'a [u8]) -> Option<&'a [u8]>
    ensures { option_map (λ s. s.now) result ≡ spec.after (name_text name.now) text.now }
{
    if is_bare(name) {
        after(name, text)
    } else {
        after_marked(name, text)
    }
}

/// What is left of a text after a name between marks.
fn after_marked<'a>(name: &str, text: &'a [u8]) -> Option<&'a [u8]>
    ensures { option_map (λ s. s.now) result ≡ spec.after (quoted name.now) text.now }
{
    let text = after("«", text)?;
    after_both(name, "»", text)
}

/// What is left of a text after a loop's number and a class's.
fn after_class<'a>(place: u32, class: u32, text: &'a [u8]) -> Option<&'a [u8]>
    ensures { option_map (λ s. s.now) result ≡ spec.after (codes ".loop" ++ (decimal place ++ (codes ".back" ++ decimal class))) text.now }
{
    let text = after_number(".loop", place, text)?;
    after_number(".back", class, text)
}

/// What is left of a text after a word and a number.
fn after_number<'a>(word: &str, number: u32, text: &'a [u8]) -> Option<&'a [u8]>
    ensures { option_map (λ s. s.now) result ≡ spec.after (word.now ++ decimal number) text.now }
{
    let mut buffer = Buffer::new();
    after_both(word, buffer.format(number as u64), text)
}

/// What is left of a text after two pieces.
fn after_both<'a>(first: &str, second: &str, text: &'a [u8]) -> Option<&'a [u8]>
    ensures { option_map (λ s. s.now) result ≡ spec.after (first.now ++ second.now) text.now }
{
    let text = after(first, text)?;
    after(second, text)
}

/// What is left of a text after a piece; None exactly where it does not begin with the piece.
fn after<'a>(piece: &str, text: &'a [u8]) -> Option<&'a [u8]>
    ensures { option_map (λ s. s.now) result ≡ spec.after piece.now text.now }
{
    let mut rest = text;
    for byte in piece.as_bytes() {
        match rest {
            [first, others @ ..] => {
                if *byte != *first {
                    return None;
                }
                rest = others;
            }
            [] => return None,
        }
    }
    Some(rest)
}
