//! Lexemes, read as a text by its table.

use aen_base::{List, Name, NoMem, Span};
use raw_reader::read_text;
use std::alloc::Global;
use text_table::{Class, Lexeme, class_named};

/// The class of a word, a mark or one of the variables `v0` and `v1`.
fn class_of(word: &str) -> Class {
    match word {
        "(" => Class::OpenBracket,
        ")" => Class::CloseBracket,
        ":" => Class::Colon,
        ":=" => Class::Becomes,
        "." => Class::Dot,
        "," => Class::Comma,
        ";" => Class::Semicolon,
        "|" => Class::Bar,
        "=>" => Class::Gives,
        "+" => Class::Plus,
        "<-" => Class::From,
        "0" => Class::Zero,
        "1" => Class::One,
        "v0" | "v1" => Class::Variable,
        word => match class_named(word) {
            Some(class) => class,
            None => Class::Other,
        },
    }
}

/// The lexemes of words, each one byte long.
fn lexemes(alloc: Global, words: &[&str]) -> Result<List<Lexeme>, NoMem> {
    let mut lexemes = List::new(alloc);
    let mut place = 0u32;
    for word in words {
        let text = Name::from_str(alloc, *word)?;
        let next = place.saturating_add(1);
        lexemes.push(Lexeme {
            class: class_of(*word),
            span: Span {
                lo: place,
                hi: next,
            },
            text,
        })?;
        place = next;
    }
    Ok(lexemes)
}

#[test]
fn a_text_is_read(rt: HostRuntime) -> Result<(), NoMem> {
    let words = [
        "import",
        "AenPrelude",
        "open",
        "AenPrelude",
        "def",
        "fn",
        ".",
        "f",
        "(",
        "n",
        ":",
        "Nat",
        ")",
        "(",
        "v0",
        ":",
        "U32",
        ")",
        ":",
        "Result",
        "U32",
        ":=",
        "match",
        "n",
        "with",
        "|",
        "0",
        "=>",
        "outOfFuel",
        "|",
        "n",
        "+",
        "1",
        "=>",
        "do",
        "let",
        "v1",
        "<-",
        "U32",
        ".",
        "add",
        "v0",
        "v0",
        ";",
        "ok",
        "v1",
    ];
    let lexemes = lexemes(rt.alloc(), &words)?;
    match read_text(rt.alloc(), lexemes.as_slice())? {
        Ok(text) => {
            assert_eq!(rt; text.types.len(), 0);
            assert_eq!(rt; text.definitions.len(), 1);
        }
        Err(_place) => assert!(rt; false),
    }
    Ok(())
}

#[test]
fn a_fault_has_its_place(rt: HostRuntime) -> Result<(), NoMem> {
    let words = [
        "import",
        "AenPrelude",
        "open",
        "AenPrelude",
        "def",
        "fn",
        "f",
    ];
    let lexemes = lexemes(rt.alloc(), &words)?;
    match read_text(rt.alloc(), lexemes.as_slice())? {
        Ok(_text) => assert!(rt; false),
        Err(place) => assert_eq!(rt; place, 6),
    }
    Ok(())
}
