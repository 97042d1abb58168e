//! Which classes a token has. Written by tools/grammar.py.

ghost use Rattle.std.specs.Prelude.{◌≡◌};
ghost use Rattle.std.specs.List.{list_any};
ghost use denote.Enum.Bare.{sameb};
ghost use Rattle.text_table.specs.Classes as grammar;
ghost use Rattle.text_table.specs.contracts.class.Class.{the_type};

use crate::class::Class;
use crate::terminal::Terminal;

/// Whether a token has a class.
pub(crate) fn has_class(terminal: Terminal, class: Class) -> bool
    ensures { result ≡ list_any (sameb the_type class) (grammar.classes terminal) }
{
    match terminal {
        Terminal::Variable => class == Class::Variable,
        Terminal::LoopNumber => class == Class::LoopNumber,
        Terminal::Import => class == Class::Import,
        Terminal::AenPrelude => class == Class::AenPrelude,
        Terminal::Open => class == Class::Open,
        Terminal::Inductive => class == Class::Inductive,
        Terminal::Structure => class == Class::Structure,
        Terminal::Type => class == Class::Type,
        Terminal::Where => class == Class::Where,
        Terminal::Def => class == Class::Def,
        Terminal::Fuel => class == Class::Fuel,
        Terminal::Nat => class == Class::Nat,
        Terminal::Result => class == Class::Result,
        Terminal::Match => class == Class::Match,
        Terminal::With => class == Class::With,
        Terminal::OutOfFuel => class == Class::OutOfFuel,
        Terminal::Do => class == Class::Do,
        Terminal::Let => class == Class::Let,
        Terminal::Ok => class == Class::Ok,
        Terminal::Fail => class == Class::Fail,
        Terminal::Brk => class == Class::Brk,
        Terminal::Ret => class == Class::Ret,
        Terminal::Bool => class == Class::Bool,
        Terminal::Unit => class == Class::Unit,
        Terminal::Exit => class == Class::Exit,
        Terminal::Fn => class == Class::Fn,
        Terminal::Cast => class == Class::Cast,
        Terminal::Box => class == Class::Box,
        Terminal::New => class == Class::New,
        Terminal::Mem => class == Class::Mem,
        Terminal::Replace => class == Class::Replace,
        Terminal::Swap => class == Class::Swap,
        Terminal::BackZero => class == Class::BackZero,
        Terminal::BackOne => class == Class::BackOne,
        Terminal::Zero => class == Class::Zero,
        Terminal::One => class == Class::One,
        Terminal::OpenBracket => class == Class::OpenBracket,
        Terminal::CloseBracket => class == Class::CloseBracket,
        Terminal::UnitValue => class == Class::UnitValue,
        Terminal::OpenBrace => class == Class::OpenBrace,
        Terminal::CloseBrace => class == Class::CloseBrace,
        Terminal::Colon => class == Class::Colon,
        Terminal::Becomes => class == Class::Becomes,
        Terminal::Comma => class == Class::Comma,
        Terminal::Semicolon => class == Class::Semicolon,
        Terminal::Dot => class == Class::Dot,
        Terminal::Hash => class == Class::Hash,
        Terminal::Bar => class == Class::Bar,
        Terminal::Gives => class == Class::Gives,
        Terminal::Plus => class == Class::Plus,
        Terminal::To => class == Class::To,
        Terminal::From => class == Class::From,
        Terminal::Times => class == Class::Times,
        Terminal::Int => is_among(
            &[
                Class::U8,
                Class::U16,
                Class::U32,
                Class::U64,
                Class::U128,
                Class::Usize,
                Class::I8,
                Class::I16,
                Class::I32,
                Class::I64,
                Class::I128,
                Class::Isize,
            ],
            class,
        ),
        Terminal::BoolOperator => is_among(
            &[
                Class::And,
                Class::Or,
                Class::Xor,
                Class::Not,
                Class::Eq,
                Class::Ne,
            ],
            class,
        ),
        Terminal::IntOperator => is_among(
            &[
                Class::Add,
                Class::Sub,
                Class::Mul,
                Class::Div,
                Class::Rem,
                Class::Shl,
                Class::Shr,
                Class::And,
                Class::Or,
                Class::Xor,
                Class::Neg,
                Class::Not,
                Class::Eq,
                Class::Ne,
                Class::Lt,
                Class::Le,
                Class::Gt,
                Class::Ge,
            ],
            class,
        ),
        Terminal::Back => is_among(&[Class::BackNumber, Class::BackZero, Class::BackOne], class),
        Terminal::Name => is_among(
            &[
                Class::Other,
                Class::LoopNumber,
                Class::BackNumber,
                Class::Cast,
                Class::Box,
                Class::New,
                Class::Mem,
                Class::Replace,
                Class::Swap,
                Class::BackZero,
                Class::BackOne,
                Class::Add,
                Class::Sub,
                Class::Mul,
                Class::Div,
                Class::Rem,
                Class::Shl,
                Class::Shr,
                Class::And,
                Class::Or,
                Class::Xor,
                Class::Neg,
                Class::Not,
                Class::Eq,
                Class::Ne,
                Class::Lt,
                Class::Le,
                Class::Gt,
                Class::Ge,
            ],
            class,
        ),
        Terminal::Number => is_among(&[Class::Digits, Class::Zero, Class::One], class),
        Terminal::Truth => is_among(&[Class::True, Class::False], class),
    }
}

/// Whether a class is one of these.
fn is_among(classes: &[Class], class: Class) -> bool
    ensures { result ≡ list_any (sameb the_type class) classes.now }
{
    for one in classes {
        if class == *one {
            return true;
        }
    }
    false
}
