//! The class of each lexeme of a text.

ghost use Rattle.std.specs.Prelude.{◌≡◌, map, IfOk};
ghost use Rattle.text_syntax.specs.Classing as spec;

use aen_base::{List, Name, NoMem};
use std::alloc::Global;
use text_meaning::{Mark, are_digits, is_bare, is_variable};
use text_table::{Class, Lexeme, class_named};
use text_tokens::{LexemeKind, Pile};

/// The class of a lexeme.
pub fn class_of(kind: &LexemeKind) -> Class
    ensures { result ≡ spec.class_of kind.now }
{
    match kind {
        LexemeKind::Word(word) => class_of_word(word.as_str()),
        LexemeKind::Marked(_) => Class::Other,
        LexemeKind::Number(digits) => class_of_number(digits.as_str()),
        LexemeKind::Punct(mark) => class_of_mark(*mark),
    }
}

/// The class of a word without marks.
fn class_of_word(word: &str) -> Class
    ensures { result ≡ spec.class_of_word word.now }
{
    match class_named(word) {
        Some(class) => class,
        None => class_of_other(word),
    }
}

/// The class of a word that has no class of its own.
fn class_of_other(word: &str) -> Class
    ensures { result ≡ spec.class_of_other word.now }
{
    if is_bare(word) {
        class_of_name(word.as_bytes())
    } else if is_variable(word.as_bytes()) {
        Class::Variable
    } else {
        Class::Excluded
    }
}

/// The class of a name that has no class of its own.
fn class_of_name(word: &[u8]) -> Class
    ensures { result ≡ spec.class_of_name word.now }
{
    if is_numbered(b"loop", word) {
        Class::LoopNumber
    } else if is_numbered(b"back", word) {
        Class::BackNumber
    } else {
        Class::Other
    }
}

/// Whether a word is this one with a number directly after it.
fn is_numbered(prefix: &[u8], word: &[u8]) -> bool
    ensures { result ≡ spec.is_numbered prefix.now word.now }
{
    match prefix {
        [] => are_digits(word),
        [first, prefix @ ..] => match word {
            [] => false,
            [byte, word @ ..] => *byte == *first && is_numbered(prefix, word),
        },
    }
}

/// The class of a number.
fn class_of_number(digits: &str) -> Class
    ensures { result ≡ spec.class_of_number digits.now }
{
    if digits == "0" {
        Class::Zero
    } else if digits == "1" {
        Class::One
    } else {
        Class::Digits
    }
}

/// The class of punctuation.
fn class_of_mark(mark: Mark) -> Class
    ensures { result ≡ spec.class_of_mark mark }
{
    match mark {
        Mark::Open => Class::OpenBracket,
        Mark::Close => Class::CloseBracket,
        Mark::Unit => Class::UnitValue,
        Mark::OpenBrace => Class::OpenBrace,
        Mark::CloseBrace => Class::CloseBrace,
        Mark::Colon => Class::Colon,
        Mark::Becomes => Class::Becomes,
        Mark::Comma => Class::Comma,
        Mark::Semicolon => Class::Semicolon,
        Mark::Dot => Class::Dot,
        Mark::Hash => Class::Hash,
        Mark::Bar => Class::Bar,
        Mark::Gives => Class::Gives,
        Mark::Plus => Class::Plus,
        Mark::To => Class::To,
        Mark::From => Class::From,
        Mark::Times => Class::Times,
    }
}

/// Whether a word of this class is one of the language that is no name.
fn is_keyword(class: Class) -> bool
    ensures { result ≡ spec.is_keyword class }
{
    match class {
        Class::Import
        | Class::AenPrelude
        | Class::Open
        | Class::Inductive
        | Class::Structure
        | Class::Type
        | Class::Where
        | Class::Def
        | Class::Fuel
        | Class::Nat
        | Class::Result
        | Class::Match
        | Class::With
        | Class::OutOfFuel
        | Class::Do
        | Class::Let
        | Class::True
        | Class::False
        | Class::Ok
        | Class::Fail
        | Class::Brk
        | Class::Ret
        | Class::Bool
        | Class::Unit
        | Class::Exit
        | Class::Fn => true,
        _ => false,
    }
}

/// Whether a word of this class names an integer type.
fn is_int(class: Class) -> bool
    ensures { result ≡ spec.is_int class }
{
    match class {
        Class::U8
        | Class::U16
        | Class::U32
        | Class::U64
        | Class::U128
        | Class::Usize
        | Class::I8
        | Class::I16
        | Class::I32
        | Class::I64
        | Class::I128
        | Class::Isize => true,
        _ => false,
    }
}

/// What a word of this class says beside its class: nothing where the class tells the word and no token
/// of the grammar takes it for its text, so that it takes no memory. The only error is want of memory.
#[tactic(auto, unfolding(crate::specs::Classing::said))]
fn said(alloc: Global, class: Class, word: Name) -> Result<Name, NoMem>
    ensures { IfOk result (λ it. it ≡ spec.said class word) }
{
    if is_keyword(class) || is_int(class) {
        Name::from_str(alloc, "")
    } else {
        Ok(word)
    }
}

/// What a lexeme of this class says beside its class. The only error is want of memory.
fn text_in(alloc: Global, class: Class, kind: LexemeKind) -> Result<Name, NoMem>
    ensures { IfOk result (λ it. it ≡ spec.text_in class kind) }
{
    match kind {
        LexemeKind::Word(word) => said(alloc, class, word),
        LexemeKind::Marked(name) => Ok(name),
        LexemeKind::Number(digits) => Ok(digits),
        LexemeKind::Punct(_) => Name::from_str(alloc, ""),
    }
}

/// A lexeme with its class. The only error is want of memory.
fn lexeme_of(alloc: Global, lexeme: text_tokens::Lexeme) -> Result<Lexeme, NoMem>
    ensures { IfOk result (λ it. it ≡ spec.lexeme_of lexeme) }
{
    let text_tokens::Lexeme { kind, span } = lexeme;
    let class = class_of(&kind);
    let text = text_in(alloc, class, kind)?;
    Ok(Lexeme { class, span, text })
}

/// The lexemes of a text with their classes. The only error is want of memory.
pub fn lexemes_of(alloc: Global, lexemes: Pile<text_tokens::Lexeme>) -> Result<List<Lexeme>, NoMem>
    ensures { IfOk result (λ it. it ≡ map spec.lexeme_of lexemes) }
{
    let mut left = lexemes;
    let mut classed = Vec::new(alloc);
    while let Some(lexeme) = left.pop() {
        classed.push(lexeme_of(alloc, lexeme)?)?;
    }
    classed.reverse();
    Ok(List::from_vec(classed))
}
