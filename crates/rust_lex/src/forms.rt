//! The longest slice of a token's form that begins a text.

ghost use Rattle.std.specs.Prelude.{◌≡◌, ◌≤◌, ◌==◌, ◌<◌, length, drop, true, false, IsTrue};
ghost use Rattle.std.specs.Char.{is_ascii_digit};
ghost use Rattle.rust_lex.specs.Characters.{begins};
ghost use Rattle.rust_lex.specs.Scan as scan;
ghost use Rattle.rust_lex.specs.declared.token.Form.TheVariants.{Quoted, Lifetime, Mark};

use crate::Form;
use crate::characters::{after, begins_byte, skip};
use crate::comments::string_end;
use crate::identifiers::identifier_length;
use crate::marks::mark_length;
use crate::numbers::number_length;

/// Whether a decimal digit stands first.
fn begins_decimal(bytes: &[u8]) -> bool
    ensures { result ≡ begins is_ascii_digit bytes.now }
{
    match bytes {
        [c, ..] => c.is_ascii_digit(),
        [] => false,
    }
}

/// The string that begins bytes which begin with `"`.
fn quoted(bytes: &[u8]) -> Option<(Form, usize)>
    requires { 1 ≤ length bytes.now }
    ensures { result ≡ scan.of_form Quoted (scan.before_rest (length bytes.now) (scan.after_string false (drop 1 bytes.now))) }
{
    match string_end(after(bytes, 1)) {
        Some(count) => Some((Form::Quoted, count + 1)),
        None => None,
    }
}

/// The length of what follows `'` in a lifetime; None where no lifetime does.
fn lifetime_length(text: &str) -> Option<usize>
    ensures { result ≡ scan.lifetime_length text.now }
{
    match identifier_length(text) {
        Some(count) => Some(count),
        None => {
            if begins_byte(b'_', text.as_bytes()) {
                Some(1)
            } else {
                None
            }
        }
    }
}

/// The lifetime that begins a text which begins with `'`.
fn lifetime(text: &str) -> Option<(Form, usize)>
    requires { begins (λ c. c == 39) text.now ≡ true }
    ensures { result ≡ scan.of_form Lifetime (scan.next_count (scan.lifetime_length (drop 1 text.now))) }
{
    match lifetime_length(skip(text, 1)) {
        Some(count) => Some((Form::Lifetime, count + 1)),
        None => None,
    }
}

/// The identifier or punctuation that begins a text.
fn identifier_or_mark(text: &str) -> Option<(Form, usize)>
    ensures { result ≡ scan.or_mark (scan.identifier_length text.now) text.now }
{
    match identifier_length(text) {
        Some(count) => Some((Form::Identifier, count)),
        None => match mark_length(text.as_bytes()) {
            Some(count) => Some((Form::Mark, count)),
            None => None,
        },
    }
}

/// The form and the length of the longest slice of a token's form that begins a text; None where no
/// slice has one.
#[tactic(auto, unfolding(crate::specs::Scan::found))]
pub(crate) fn found(after_dot: bool, text: &str) -> Option<(Form, usize)>
    ensures { result ≡ scan.found after_dot text.now }
{
    let bytes = text.as_bytes();
    if bytes == b"".as_slice() {
        None
    } else if begins_decimal(bytes) {
        Some((Form::Number, number_length(after_dot, bytes)))
    } else if begins_byte(b'"', bytes) {
        quoted(bytes)
    } else if begins_byte(b'\'', bytes) {
        lifetime(text)
    } else {
        identifier_or_mark(text)
    }
}
