//! What lexemes do to the counts that have limits.

ghost use Rattle.std.specs.Prelude.{◌≡◌};
ghost use Rattle.source_syntax.specs.Limits as spec;

use source_grammar::Class;

/// What a lexeme does to the count of its level of brackets.
#[derive(Clone, Copy)]
pub enum Effect {
    /// It opens a level.
    Opens,
    /// It closes a level.
    Closes,
    /// The level's count begins anew.
    Resets,
    /// An operator, which counts.
    Counts,
    Nothing,
}

/// The effect of lexemes of a class.
pub(crate) fn effect_of(class: Class) -> Effect
    ensures { result ≡ spec.effect class }
{
    match class {
        Class::OpenBracket | Class::OpenSquare | Class::OpenBrace => Effect::Opens,
        Class::CloseBracket | Class::CloseSquare | Class::CloseBrace => Effect::Closes,
        Class::Semicolon
        | Class::Comma
        | Class::Gives
        | Class::Let
        | Class::Fn
        | Class::Struct
        | Class::Enum => Effect::Resets,
        Class::As
        | Class::Return
        | Class::Break
        | Class::Dot
        | Class::Not
        | Class::Equals
        | Class::AndAnd
        | Class::BarBar => Effect::Counts,
        Class::Plus
        | Class::Minus
        | Class::Star
        | Class::Slash
        | Class::Percent
        | Class::Shl
        | Class::Shr
        | Class::And
        | Class::Caret
        | Class::Bar => Effect::Counts,
        Class::EqualsEquals
        | Class::NotEquals
        | Class::Less
        | Class::Greater
        | Class::LessEquals
        | Class::GreaterEquals => Effect::Counts,
        Class::PlusEquals
        | Class::MinusEquals
        | Class::StarEquals
        | Class::SlashEquals
        | Class::PercentEquals
        | Class::AndEquals
        | Class::BarEquals
        | Class::CaretEquals
        | Class::ShlEquals
        | Class::ShrEquals => Effect::Counts,
        _ => Effect::Nothing,
    }
}
