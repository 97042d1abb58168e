//! The class of a spelling.

ghost use Rattle.std.specs.Prelude.{◌≡◌};
ghost use Rattle.source_grammar.specs.Spelled as spec;

use crate::class::Class;
use crate::spellings::{MARKS, NAMES, spelling};

/// The class of a word or an identifier by its name, or another where the name has no class of its own.
pub fn class_named(name: &str, other: Class) -> Class
    ensures { result ≡ spec.class_named name.now other }
{
    class_among(name, other, NAMES)
}

/// The class of a mark.
pub fn class_marked(mark: &str) -> Class
    ensures { result ≡ spec.class_marked mark.now }
{
    class_among(mark, Class::Excluded, MARKS)
}

fn class_among(text: &str, other: Class, classes: &[Class]) -> Class
    ensures { result ≡ spec.class_among text.now other classes.now }
{
    for class in classes {
        if text == spelling(*class) {
            return *class;
        }
    }
    other
}
