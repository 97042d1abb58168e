//! Which classes a token has. Written by tools/grammar.py.

ghost use Rattle.std.specs.Prelude.{◌≡◌};
ghost use Rattle.std.specs.List.{list_any};
ghost use denote.Enum.Bare.{sameb};
ghost use Rattle.source_grammar.specs.Classes as grammar;
ghost use Rattle.source_grammar.specs.contracts.class.Class.{the_type};

use source_grammar::{Class, Terminal};

/// Whether a token has a class.
pub(crate) fn has_class(terminal: Terminal, class: Class) -> bool
    ensures { result ≡ list_any (sameb the_type class) (grammar.classes terminal) }
{
    match terminal {
        Terminal::IntWord => class == Class::IntWord,
        Terminal::Lifetime => class == Class::Lifetime,
        Terminal::Integer => class == Class::Integer,
        Terminal::Digits => class == Class::Digits,
        Terminal::Text => class == Class::Text,
        Terminal::As => class == Class::As,
        Terminal::Break => class == Class::Break,
        Terminal::Continue => class == Class::Continue,
        Terminal::Else => class == Class::Else,
        Terminal::Enum => class == Class::Enum,
        Terminal::Fn => class == Class::Fn,
        Terminal::If => class == Class::If,
        Terminal::Let => class == Class::Let,
        Terminal::Loop => class == Class::Loop,
        Terminal::Match => class == Class::Match,
        Terminal::Mut => class == Class::Mut,
        Terminal::Pub => class == Class::Pub,
        Terminal::Return => class == Class::Return,
        Terminal::Struct => class == Class::Struct,
        Terminal::Use => class == Class::Use,
        Terminal::While => class == Class::While,
        Terminal::Bool => class == Class::Bool,
        Terminal::Box => class == Class::Box,
        Terminal::Allow => class == Class::Allow,
        Terminal::Std => class == Class::Std,
        Terminal::Mem => class == Class::Mem,
        Terminal::New => class == Class::New,
        Terminal::Assert => class == Class::Assert,
        Terminal::Colons => class == Class::Colons,
        Terminal::Arrow => class == Class::Arrow,
        Terminal::Gives => class == Class::Gives,
        Terminal::AndAnd => class == Class::AndAnd,
        Terminal::BarBar => class == Class::BarBar,
        Terminal::Minus => class == Class::Minus,
        Terminal::Star => class == Class::Star,
        Terminal::And => class == Class::And,
        Terminal::Bar => class == Class::Bar,
        Terminal::Caret => class == Class::Caret,
        Terminal::Not => class == Class::Not,
        Terminal::Equals => class == Class::Equals,
        Terminal::Less => class == Class::Less,
        Terminal::Greater => class == Class::Greater,
        Terminal::OpenBracket => class == Class::OpenBracket,
        Terminal::CloseBracket => class == Class::CloseBracket,
        Terminal::OpenBrace => class == Class::OpenBrace,
        Terminal::CloseBrace => class == Class::CloseBrace,
        Terminal::OpenSquare => class == Class::OpenSquare,
        Terminal::CloseSquare => class == Class::CloseSquare,
        Terminal::Comma => class == Class::Comma,
        Terminal::Semicolon => class == Class::Semicolon,
        Terminal::Colon => class == Class::Colon,
        Terminal::Dot => class == Class::Dot,
        Terminal::Hash => class == Class::Hash,
        Terminal::Wild => class == Class::Wild,
        Terminal::Identifier => is_among(
            &[
                Class::Other,
                Class::Allow,
                Class::Derive,
                Class::Std,
                Class::Mem,
                Class::New,
                Class::Replace,
                Class::Swap,
                Class::Panic,
                Class::Unreachable,
                Class::Assert,
            ],
            class,
        ),
        Terminal::PathName => is_among(
            &[
                Class::Other,
                Class::Allow,
                Class::Derive,
                Class::New,
                Class::Replace,
                Class::Swap,
            ],
            class,
        ),
        Terminal::PatternName => is_among(
            &[
                Class::Other,
                Class::Allow,
                Class::Derive,
                Class::New,
                Class::Replace,
                Class::Swap,
                Class::Panic,
                Class::Unreachable,
                Class::Assert,
            ],
            class,
        ),
        Terminal::NotMem => is_among(
            &[
                Class::Other,
                Class::Allow,
                Class::Derive,
                Class::Std,
                Class::New,
                Class::Replace,
                Class::Swap,
                Class::Panic,
                Class::Unreachable,
                Class::Assert,
            ],
            class,
        ),
        Terminal::NotSwap => is_among(
            &[
                Class::Other,
                Class::Allow,
                Class::Derive,
                Class::Std,
                Class::Mem,
                Class::New,
                Class::Panic,
                Class::Unreachable,
                Class::Assert,
            ],
            class,
        ),
        Terminal::SwapName => is_among(&[Class::Replace, Class::Swap], class),
        Terminal::AttributeName => is_among(&[Class::Allow, Class::Derive], class),
        Terminal::PanicName => is_among(&[Class::Panic, Class::Unreachable], class),
        Terminal::BoolLiteral => is_among(&[Class::False, Class::True], class),
        Terminal::AnyLifetime => is_among(&[Class::Lifetime, Class::Elided], class),
        Terminal::AssignOp => is_among(
            &[
                Class::ShlEquals,
                Class::ShrEquals,
                Class::PlusEquals,
                Class::MinusEquals,
                Class::StarEquals,
                Class::SlashEquals,
                Class::PercentEquals,
                Class::AndEquals,
                Class::BarEquals,
                Class::CaretEquals,
                Class::Equals,
            ],
            class,
        ),
        Terminal::CompareOp => is_among(
            &[
                Class::EqualsEquals,
                Class::NotEquals,
                Class::LessEquals,
                Class::GreaterEquals,
                Class::Less,
                Class::Greater,
            ],
            class,
        ),
        Terminal::ShiftOp => is_among(&[Class::Shl, Class::Shr], class),
        Terminal::SumOp => is_among(&[Class::Plus, Class::Minus], class),
        Terminal::ProductOp => is_among(&[Class::Star, Class::Slash, Class::Percent], class),
        Terminal::TypesEnd => is_among(
            &[
                Class::ShrEquals,
                Class::GreaterEquals,
                Class::Shr,
                Class::Greater,
            ],
            class,
        ),
    }
}

/// Whether a class is one of these.
fn is_among(classes: &[Class], class: Class) -> bool
    ensures { result ≡ list_any (sameb the_type class) classes.now }
{
    for one in classes {
        if class == *one {
            return true;
        }
    }
    false
}
