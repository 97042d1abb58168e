//! How tokens of the grammar take lexemes.

ghost use Rattle.std.specs.Prelude.{◌≡◌};
ghost use Rattle.source_grammar.specs.Lexemes as spec;

use crate::classes::has_class;
use aen_base::Span;
use source_grammar::{Class, Content, Lexeme, Terminal};
use table_reader::Take;

/// How a token takes a lexeme.
pub(crate) fn taken(terminal: Terminal, lexeme: &Lexeme) -> Take<Lexeme>
    ensures { result ≡ spec.takes terminal lexeme.now }
{
    if !has_class(terminal, lexeme.class) {
        return Take::No;
    }
    if terminal == Terminal::TypesEnd {
        end_of_types(lexeme)
    } else {
        Take::Whole
    }
}

/// How the end of a list of types takes a lexeme that begins with `>`.
fn end_of_types(lexeme: &Lexeme) -> Take<Lexeme>
    ensures { result ≡ spec.end_of_types lexeme.now }
{
    match lexeme.class {
        Class::Shr => split(lexeme.span, Class::Greater),
        Class::GreaterEquals => split(lexeme.span, Class::Equals),
        Class::ShrEquals => split(lexeme.span, Class::GreaterEquals),
        _ => Take::Whole,
    }
}

/// The first byte of a mark as `>`, and what is left as a mark of this class.
fn split(span: Span, left: Class) -> Take<Lexeme>
    ensures { result ≡ spec.split span left }
{
    let middle = if span.lo < span.hi {
        span.lo + 1
    } else {
        span.lo
    };
    Take::Front {
        taken: mark(Class::Greater, span.lo, middle),
        left: mark(left, middle, span.hi),
    }
}

fn mark(class: Class, lo: u32, hi: u32) -> Lexeme
    ensures { result ≡ spec.mark class lo hi }
{
    Lexeme {
        class,
        span: Span { lo, hi },
        content: Content::Nothing,
    }
}
