//! The words of the language and those that it leaves out.

ghost use Rattle.std.specs.Prelude.{◌≡◌};
ghost use Rattle.rust_lex.specs.Identifiers as names;
ghost use Rattle.rust_lex.specs.Words as spec;
ghost use Rattle.rust_lex.specs.WordGroups as groups;
ghost use Rattle.rust_lex.specs.Scan as scan;

use crate::Kind;
use aen_base::IntTy;

/// Whether a text is a word of the language that is no integer type.
#[tactic(auto, unfolding(crate::specs::WordGroups::is_keyword))]
fn is_keyword(w: &[u8]) -> bool
    ensures { result ≡ groups.is_keyword w.now }
{
    w == b"as".as_slice()
        || w == b"break".as_slice()
        || w == b"continue".as_slice()
        || w == b"else".as_slice()
        || w == b"enum".as_slice()
        || w == b"false".as_slice()
        || w == b"fn".as_slice()
        || w == b"if".as_slice()
        || w == b"let".as_slice()
        || w == b"loop".as_slice()
        || w == b"match".as_slice()
        || w == b"mut".as_slice()
        || w == b"pub".as_slice()
        || w == b"return".as_slice()
        || w == b"struct".as_slice()
        || w == b"true".as_slice()
        || w == b"use".as_slice()
        || w == b"while".as_slice()
        || w == b"bool".as_slice()
        || w == b"Box".as_slice()
}

/// Whether a text is the name of an integer type.
#[tactic(auto, unfolding(crate::specs::WordGroups::is_int_word))]
fn is_int_word(w: &[u8]) -> bool
    ensures { result ≡ groups.is_int_word w.now }
{
    w == b"u8".as_slice()
        || w == b"u16".as_slice()
        || w == b"u32".as_slice()
        || w == b"u64".as_slice()
        || w == b"u128".as_slice()
        || w == b"usize".as_slice()
        || w == b"i8".as_slice()
        || w == b"i16".as_slice()
        || w == b"i32".as_slice()
        || w == b"i64".as_slice()
        || w == b"i128".as_slice()
        || w == b"isize".as_slice()
}

/// The words that the language leaves out, up to `gen`.
#[tactic(auto, unfolding(crate::specs::WordGroups::is_excluded_to_gen))]
fn is_excluded_to_gen(w: &[u8]) -> bool
    ensures { result ≡ groups.is_excluded_to_gen w.now }
{
    w == b"abstract".as_slice()
        || w == b"async".as_slice()
        || w == b"await".as_slice()
        || w == b"become".as_slice()
        || w == b"box".as_slice()
        || w == b"char".as_slice()
        || w == b"const".as_slice()
        || w == b"crate".as_slice()
        || w == b"do".as_slice()
        || w == b"dyn".as_slice()
        || w == b"extern".as_slice()
        || w == b"f32".as_slice()
        || w == b"f64".as_slice()
        || w == b"final".as_slice()
        || w == b"for".as_slice()
        || w == b"gen".as_slice()
}

/// The words that the language leaves out, from `impl` to `super`.
#[tactic(auto, unfolding(crate::specs::WordGroups::is_excluded_to_super))]
fn is_excluded_to_super(w: &[u8]) -> bool
    ensures { result ≡ groups.is_excluded_to_super w.now }
{
    w == b"impl".as_slice()
        || w == b"in".as_slice()
        || w == b"macro".as_slice()
        || w == b"macro_rules".as_slice()
        || w == b"mod".as_slice()
        || w == b"move".as_slice()
        || w == b"override".as_slice()
        || w == b"priv".as_slice()
        || w == b"ref".as_slice()
        || w == b"self".as_slice()
        || w == b"Self".as_slice()
        || w == b"static".as_slice()
        || w == b"str".as_slice()
        || w == b"super".as_slice()
}

/// The words that the language leaves out, from `trait` on.
#[tactic(auto, unfolding(crate::specs::WordGroups::is_excluded_to_yield))]
fn is_excluded_to_yield(w: &[u8]) -> bool
    ensures { result ≡ groups.is_excluded_to_yield w.now }
{
    w == b"trait".as_slice()
        || w == b"try".as_slice()
        || w == b"type".as_slice()
        || w == b"typeof".as_slice()
        || w == b"unsafe".as_slice()
        || w == b"unsized".as_slice()
        || w == b"virtual".as_slice()
        || w == b"where".as_slice()
        || w == b"yield".as_slice()
        || w == b"Vec".as_slice()
}

/// Whether a text is a word of the language.
#[tactic(auto, using(crate::proofs::WordLemmas::word_parts))]
fn is_word(w: &[u8]) -> bool
    ensures { result ≡ spec.is_word w.now }
{
    is_keyword(w) || is_int_word(w)
}

/// Whether a text is a word of Rust that the language leaves out.
#[tactic(auto, using(crate::proofs::WordLemmas::excluded_parts))]
fn is_excluded(w: &[u8]) -> bool
    ensures { result ≡ spec.is_excluded w.now }
{
    is_excluded_to_gen(w) || is_excluded_to_super(w) || is_excluded_to_yield(w)
}

/// The kind of an identifier with this name.
pub(crate) fn word_kind(name: &[u8]) -> Kind
    ensures { result ≡ names.word_kind name.now }
{
    if is_word(name) {
        Kind::Word
    } else if is_excluded(name) {
        Kind::Excluded
    } else {
        Kind::Ident
    }
}

/// Whether bytes begin with this word.
fn begins_word(word: &[u8], bytes: &[u8]) -> bool
    ensures { result ≡ scan.begins_word word.now bytes.now }
{
    bytes.starts_with(word)
}

/// The integer type whose name stands first.
pub(crate) fn suffix_at(bytes: &[u8]) -> Option<IntTy>
    ensures { result ≡ scan.suffix_among bytes.now spec.int_types }
{
    if begins_word(b"u8".as_slice(), bytes) {
        Some(IntTy::U8)
    } else if begins_word(b"u16".as_slice(), bytes) {
        Some(IntTy::U16)
    } else if begins_word(b"u32".as_slice(), bytes) {
        Some(IntTy::U32)
    } else if begins_word(b"u64".as_slice(), bytes) {
        Some(IntTy::U64)
    } else if begins_word(b"u128".as_slice(), bytes) {
        Some(IntTy::U128)
    } else if begins_word(b"usize".as_slice(), bytes) {
        Some(IntTy::Usize)
    } else if begins_word(b"i8".as_slice(), bytes) {
        Some(IntTy::I8)
    } else if begins_word(b"i16".as_slice(), bytes) {
        Some(IntTy::I16)
    } else if begins_word(b"i32".as_slice(), bytes) {
        Some(IntTy::I32)
    } else if begins_word(b"i64".as_slice(), bytes) {
        Some(IntTy::I64)
    } else if begins_word(b"i128".as_slice(), bytes) {
        Some(IntTy::I128)
    } else if begins_word(b"isize".as_slice(), bytes) {
        Some(IntTy::Isize)
    } else {
        None
    }
}

/// The integer type of this name; None exactly where there is none. It takes no memory.
pub fn int_named(w: &[u8]) -> Option<IntTy>
    ensures { result ≡ spec.int_named w.now }
{
    if w == b"u8".as_slice() {
        Some(IntTy::U8)
    } else if w == b"u16".as_slice() {
        Some(IntTy::U16)
    } else if w == b"u32".as_slice() {
        Some(IntTy::U32)
    } else if w == b"u64".as_slice() {
        Some(IntTy::U64)
    } else if w == b"u128".as_slice() {
        Some(IntTy::U128)
    } else if w == b"usize".as_slice() {
        Some(IntTy::Usize)
    } else if w == b"i8".as_slice() {
        Some(IntTy::I8)
    } else if w == b"i16".as_slice() {
        Some(IntTy::I16)
    } else if w == b"i32".as_slice() {
        Some(IntTy::I32)
    } else if w == b"i64".as_slice() {
        Some(IntTy::I64)
    } else if w == b"i128".as_slice() {
        Some(IntTy::I128)
    } else if w == b"isize".as_slice() {
        Some(IntTy::Isize)
    } else {
        None
    }
}
