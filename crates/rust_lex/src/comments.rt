//! Where comments and strings end.

ghost use Rattle.std.specs.Prelude.{◌≡◌, ◌≤◌, length, drop, MatchOption, Some, None, false, not, ◌&&◌, ◌==◌};
ghost use Rattle.rust_lex.specs.Scan as scan;

use crate::characters::{after, begins_two};

/// How many bytes from behind `/*` on belong to the comment, whose comments are closed themselves;
/// None where it isn't closed.
pub(crate) fn comment_end(bytes: &[u8]) -> Option<usize>
    ensures { MatchOption result (scan.after_comment 0 bytes.now ≡ None)
        (λ n. (n ≤ length bytes.now) × (scan.after_comment 0 bytes.now ≡ Some (drop n bytes.now))) }
{
    let mut open = 0usize;
    let mut at = 0usize;
    while at + 1 < bytes.len() {
        let left = after(bytes, at);
        if begins_two(b'/', b'*', left) {
            open += 1;
            at += 2;
            continue;
        }
        if !begins_two(b'*', b'/', left) {
            at += 1;
            continue;
        }
        at += 2;
        if open == 0 {
            return Some(at);
        }
        open -= 1;
    }
    None
}

/// How many bytes from behind the first `"` on belong to the string, with its last `"`; None where it
/// isn't closed.
pub(crate) fn string_end(bytes: &[u8]) -> Option<usize>
    ensures { MatchOption result (scan.after_string false bytes.now ≡ None)
        (λ n. (n ≤ length bytes.now) × (scan.after_string false bytes.now ≡ Some (drop n bytes.now))) }
{
    let mut taken = false;
    for at in 0..bytes.len() {
        let c = bytes[at];
        if ends_string(taken, c) {
            return Some(at + 1);
        }
        taken = takes_next(taken, c);
    }
    None
}

/// Whether a byte that is taken by a `\` or isn't ends the string.
fn ends_string(taken: bool, c: u8) -> bool
    ensures { result ≡ (not taken && (c == 34)) }
{
    !taken && c == b'"'
}

/// Whether a byte that is taken by a `\` or isn't takes the next one with it.
fn takes_next(taken: bool, c: u8) -> bool
    ensures { result ≡ (not taken && (c == 92)) }
{
    !taken && c == b'\\'
}
