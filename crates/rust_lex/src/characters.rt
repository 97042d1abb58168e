//! Bytes and the beginnings of texts.

ghost use Rattle.std.specs.Prelude.{◌≡◌, ◌==◌, ◌≤◌, ◌<◌, length, drop, take, encode_utf8, ◌++◌, chars, []};
ghost use Rattle.std.specs.Prelude.{MatchOption, ◌∷◌, IsUtf8, IsCharBoundary};
ghost use Rattle.rust_lex.specs.Characters as spec;

/// Whether a byte is white space.
pub(crate) fn is_white(c: u8) -> bool
    ensures { result ≡ spec.is_white c }
{
    (c == b' ' || c == b'\t') || (c == b'\n' || c == b'\r')
}

/// Whether this byte stands first.
pub(crate) fn begins_byte(a: u8, bytes: &[u8]) -> bool
    ensures { result ≡ spec.begins (λ d. d == a) bytes.now }
{
    match bytes {
        [c, ..] => *c == a,
        [] => false,
    }
}

/// Whether these two bytes stand first.
pub(crate) fn begins_two(a: u8, b: u8, bytes: &[u8]) -> bool
    ensures { result ≡ spec.begins_two a b bytes.now }
{
    match bytes {
        [c, rest @ ..] => *c == a && begins_byte(b, rest),
        [] => false,
    }
}

/// What stands after so many bytes.
pub(crate) fn after(bytes: &[u8], count: usize) -> &[u8]
    requires { count ≤ length bytes.now }
    ensures { result.now ≡ drop count bytes.now }
{
    &bytes[count..]
}

/// The first so many bytes.
pub(crate) fn before(bytes: &[u8], count: usize) -> &[u8]
    requires { count ≤ length bytes.now }
    ensures { result.now ≡ take count bytes.now }
{
    &bytes[..count]
}

/// How many bytes stand before the first line feed.
pub(crate) fn line_length(bytes: &[u8]) -> usize
    ensures { result ≡ length (spec.front spec.in_line bytes.now) }
{
    let mut count = 0;
    for c in bytes {
        if *c == b'\n' {
            return count;
        }
        count += 1;
    }
    count
}

/// The first character and what stands behind it.
pub(crate) fn split_first(text: &str) -> Option<(char, &str)>
    ensures { MatchOption result ((text.now ≡ []) × (chars text.now ≡ []))
        (λ (c, rest). (text.now ≡ encode_utf8 c ++ rest.now) × (chars text.now ≡ c ∷ chars rest.now)
        × (length rest.now < length text.now) × IsUtf8 rest.now) }
{
    let mut characters = text.chars();
    match characters.next() {
        Some(c) => Some((c, characters.as_str())),
        None => None,
    }
}

/// What stands after so many bytes.
pub(crate) fn skip(text: &str, count: usize) -> &str
    requires { IsCharBoundary text.now count }
    ensures { result.now ≡ drop count text.now }
{
    &text[count..]
}

/// The first so many bytes.
pub(crate) fn head(text: &str, count: usize) -> &str
    requires { IsCharBoundary text.now count }
    ensures { result.now ≡ take count text.now }
{
    &text[..count]
}
