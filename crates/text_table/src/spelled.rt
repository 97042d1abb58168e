//! The class of a word.

ghost use Rattle.std.specs.Prelude.{◌≡◌};
ghost use Rattle.text_table.specs.Spelled as spec;

use crate::class::Class;
use crate::spellings::{NAMES, spelling};

/// The class that has this word alone, if there is one.
pub fn class_named(word: &str) -> Option<Class>
    ensures { result ≡ spec.class_named word.now }
{
    class_among(word, NAMES)
}

fn class_among(word: &str, classes: &[Class]) -> Option<Class>
    ensures { result ≡ spec.class_among word.now classes.now }
{
    for class in classes {
        if word == spelling(*class) {
            return Some(*class);
        }
    }
    None
}
