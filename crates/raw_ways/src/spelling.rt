//! Names, variables and numbers.

ghost use Rattle.std.specs.Prelude.{◌≡◌};
ghost use Rattle.raw_ways.specs.Ways as spec;

use raw_ast::Spelling;
use text_table::Lexeme;

/// A name, a variable or a number as it is spelled.
pub fn spelled(lexeme: Lexeme) -> Spelling
    ensures { result ≡ spec.spelled lexeme }
{
    let Lexeme {
        class: _class,
        span,
        text,
    } = lexeme;
    Spelling { text, span }
}
