//! The place of a fault of the grammar.

ghost use Rattle.std.specs.Prelude.{◌≤◌, ◌<◌, ◌^◌, length};
ghost use Rattle.lean_reader.specs.Placed.{IsPlaced};

use aen_base::Span;
use text_table::Lexeme;

/// Where the fault of this lexeme stands, in a text of less than 2^32 bytes, so many: the lexeme's
/// place; where there is no such lexeme, the place of the character that is none, or the end.
pub(crate) fn place_of(lexemes: &[Lexeme], number: usize, fault: Option<Span>, end: usize) -> Span
    requires within { number ≤ length lexemes.now }
    requires short { end < 2 ^ 32 }
    ensures { IsPlaced lexemes.now number fault end result }
{
    if number < lexemes.len() {
        return lexemes[number].span;
    }
    match fault {
        Some(place) => place,
        None => Span {
            lo: end as u32,
            hi: end as u32,
        },
    }
}
