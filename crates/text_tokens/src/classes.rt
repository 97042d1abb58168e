//! Classes of bytes and characters.

ghost use Rattle.std.specs.Prelude.{◌≡◌, ◌==◌, ◌≤◌, length, take, drop};
ghost use Rattle.std.specs.Char.{is_ascii_digit};
ghost use Rattle.text_meaning.specs.Names as spec;
ghost use Rattle.text_meaning.specs.Lexing.{is_space as is_gap_byte};
ghost use Rattle.text_tokens.specs.Fronts as fronts;

/// Whether a byte is white space.
pub(crate) fn is_space(c: u8) -> bool
    ensures { result ≡ is_gap_byte c }
{
    (c == b' ' || c == b'\t') || (c == b'\n' || c == b'\r')
}

/// Whether a byte is a digit.
pub(crate) fn is_digit(c: u8) -> bool
    ensures { result ≡ is_ascii_digit c }
{
    c.is_ascii_digit()
}

/// Whether a byte is an ASCII letter or `_`.
pub(crate) fn is_word_start(c: u8) -> bool
    ensures { result ≡ spec.is_word_start c }
{
    c.is_ascii_alphabetic() || c == b'_'
}

/// Whether a byte is an ASCII letter, a digit or `_`.
pub(crate) fn is_word_byte(c: u8) -> bool
    ensures { result ≡ spec.is_word_byte c }
{
    is_word_start(c) || is_digit(c)
}

/// Whether these two bytes stand first.
pub(crate) fn begins_two(a: u8, b: u8, bytes: &[u8]) -> bool
    ensures { result ≡ fronts.begins_two a b bytes.now }
{
    match bytes {
        [c, d, ..] => *c == a && *d == b,
        _ => false,
    }
}

/// Whether this byte stands first.
pub(crate) fn begins_byte(a: u8, bytes: &[u8]) -> bool
    ensures { result ≡ spec.begins (λ d. d == a) bytes.now }
{
    match bytes {
        [c, ..] => *c == a,
        [] => false,
    }
}

/// Whether a digit stands first.
pub(crate) fn begins_digit(bytes: &[u8]) -> bool
    ensures { result ≡ spec.begins is_ascii_digit bytes.now }
{
    match bytes {
        [c, ..] => is_digit(*c),
        [] => false,
    }
}

/// What stands after so many bytes.
pub(crate) fn after(bytes: &[u8], count: usize) -> &[u8]
    requires { count ≤ length bytes.now }
    ensures { result.now ≡ drop count bytes.now }
{
    &bytes[count..]
}

/// The first so many bytes.
pub(crate) fn before(bytes: &[u8], count: usize) -> &[u8]
    requires { count ≤ length bytes.now }
    ensures { result.now ≡ take count bytes.now }
{
    &bytes[..count]
}
