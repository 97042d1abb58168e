//! Punctuation.

ghost use Rattle.std.specs.Prelude.{◌≡◌, ◌∷◌, []};
ghost use Rattle.rust_lex.specs.Punctuation as spec;
ghost use Rattle.rust_lex.specs.Scan as scan;

use crate::characters::before;

/// Whether a byte is punctuation.
#[tactic(auto, unfolding(crate::specs::Punctuation::is_single))]
fn is_single(c: u8) -> bool
    ensures { result ≡ spec.is_single c }
{
    c == b'+'
        || c == b'-'
        || c == b'*'
        || c == b'/'
        || c == b'%'
        || c == b'&'
        || c == b'|'
        || c == b'^'
        || c == b'!'
        || c == b'='
        || c == b'<'
        || c == b'>'
        || c == b'('
        || c == b')'
        || c == b'{'
        || c == b'}'
        || c == b'['
        || c == b']'
        || c == b','
        || c == b';'
        || c == b':'
        || c == b'.'
        || c == b'#'
        || c == b'_'
}

/// Whether bytes are punctuation of two bytes.
#[tactic(auto, unfolding(crate::specs::Punctuation::is_double))]
fn is_double(w: &[u8]) -> bool
    ensures { result ≡ spec.is_double w.now }
{
    w == b"::".as_slice()
        || w == b"->".as_slice()
        || w == b"=>".as_slice()
        || w == b"==".as_slice()
        || w == b"!=".as_slice()
        || w == b"<=".as_slice()
        || w == b">=".as_slice()
        || w == b"&&".as_slice()
        || w == b"||".as_slice()
        || w == b"<<".as_slice()
        || w == b">>".as_slice()
        || w == b"+=".as_slice()
        || w == b"-=".as_slice()
        || w == b"*=".as_slice()
        || w == b"/=".as_slice()
        || w == b"%=".as_slice()
        || w == b"&=".as_slice()
        || w == b"|=".as_slice()
        || w == b"^=".as_slice()
}

/// Whether bytes are punctuation of three bytes.
#[tactic(auto, unfolding(crate::specs::Punctuation::is_triple))]
fn is_triple(w: &[u8]) -> bool
    ensures { result ≡ spec.is_triple w.now }
{
    w == b"<<=".as_slice() || w == b">>=".as_slice()
}

/// Whether bytes are punctuation.
fn is_mark(w: &[u8]) -> bool
    ensures { result ≡ spec.is_mark w.now }
{
    match w {
        [c] => is_single(*c),
        [_, _] => is_double(w),
        [_, _, _] => is_triple(w),
        _ => false,
    }
}

/// Whether the first so many bytes are punctuation.
fn is_mark_of(count: usize, bytes: &[u8]) -> bool
    ensures { result ≡ scan.is_mark_of count bytes.now }
{
    count <= bytes.len() && is_mark(before(bytes, count))
}

/// The length of the longest punctuation that stands first; None where none does.
pub(crate) fn mark_length(bytes: &[u8]) -> Option<usize>
    ensures { result ≡ scan.mark_length bytes.now }
{
    if is_mark_of(3, bytes) {
        Some(3)
    } else if is_mark_of(2, bytes) {
        Some(2)
    } else if is_mark_of(1, bytes) {
        Some(1)
    } else {
        None
    }
}
