//! Definitions.

ghost use Rattle.std.specs.Prelude.{◌≡◌};
ghost use Rattle.raw_ways.specs.Ways as spec;

use crate::spelling::spelled;
use raw_ast::{Definition, DefinitionName, RawCode, RawType, Spelling};
use raw_values::front_list::FrontList;
use raw_values::rests::NameEnd;
use text_table::Lexeme;

/// A definition.
pub fn definition(
    name: DefinitionName,
    type_parameters: FrontList<Spelling>,
    parameters: FrontList<(Spelling, RawType)>,
    output: RawType,
    code: RawCode,
) -> Definition
    ensures { result ≡ spec.definition name type_parameters parameters output code }
{
    Definition {
        name,
        type_parameters: type_parameters.into_list(),
        parameters: parameters.into_list(),
        result: output,
        code,
    }
}

/// A definition's name: that of the function, and its end.
pub fn definition_name(name: Lexeme, end: NameEnd) -> DefinitionName
    ensures { result ≡ spec.definition_name name end }
{
    let NameEnd { turn, back } = end;
    DefinitionName {
        function: spelled(name),
        turn,
        back,
    }
}

/// The end of a name that has none.
pub fn no_end() -> NameEnd
    ensures { result ≡ spec.no_end }
{
    NameEnd {
        turn: None,
        back: None,
    }
}

/// The end of the name of a loop's definition.
pub fn loop_end(turn: Lexeme, back: Option<Spelling>) -> NameEnd
    ensures { result ≡ spec.loop_end turn back }
{
    NameEnd {
        turn: Some(spelled(turn)),
        back,
    }
}

/// The end of the name of a backward definition.
pub fn back_end(back: Lexeme) -> NameEnd
    ensures { result ≡ spec.back_end back }
{
    NameEnd {
        turn: None,
        back: Some(spelled(back)),
    }
}

/// The end of a loop's name: its forward definition.
pub fn no_back() -> Option<Spelling>
    ensures { result ≡ spec.no_back }
{
    None
}

/// The end of a loop's name: its backward definition of this region.
pub fn some_back(back: Lexeme) -> Option<Spelling>
    ensures { result ≡ spec.some_back back }
{
    Some(spelled(back))
}
