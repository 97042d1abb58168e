//! Words with a number after a prefix.

ghost use Rattle.std.specs.Prelude.{◌≡◌};
ghost use Rattle.raw_meaning.specs.Numbers as spec;

use crate::digits::small_number;
use aen_base::Name;

/// The number after a prefix in a word.
pub(crate) fn numbered(prefix: &str, word: &Name) -> Option<u32>
    ensures { result ≡ spec.numbered prefix.now word.now }
{
    after_prefix(prefix.as_bytes(), word.as_str().as_bytes())
}

/// The number after a prefix in the bytes of a word.
fn after_prefix(prefix: &[u8], word: &[u8]) -> Option<u32>
    ensures { result ≡ spec.numbered prefix.now word.now }
{
    let mut left = word;
    for byte in prefix {
        match left {
            [] => return None,
            [first, rest @ ..] => {
                if *first != *byte {
                    return None;
                }
                left = rest;
            }
        }
    }
    small_number(left)
}
