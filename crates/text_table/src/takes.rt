//! How tokens of the grammar take lexemes.

ghost use Rattle.std.specs.Prelude.{◌≡◌};
ghost use Rattle.text_table.specs.Lexemes as spec;

use crate::classes::has_class;
use crate::lexeme::Lexeme;
use crate::terminal::Terminal;
use table_reader::Take;

/// How a token takes a lexeme: whole, if it has one of the token's classes.
pub(crate) fn taken(terminal: Terminal, lexeme: &Lexeme) -> Take<Lexeme>
    ensures { result ≡ spec.takes terminal lexeme.now }
{
    if has_class(terminal, lexeme.class) {
        Take::Whole
    } else {
        Take::No
    }
}
