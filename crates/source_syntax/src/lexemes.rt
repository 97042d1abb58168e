//! The lexemes that the tokens of a source are.

ghost use Rattle.std.specs.Prelude.{◌≡◌, false, None, IfOk, All};
ghost use Rattle.source_syntax.specs.Spelled as spec;
ghost use Rattle.rust_lex.specs.Slices.{IsTokenOf};
ghost use Rattle.rust_lex.specs.Words as words;
ghost use Rattle.rust_lex.specs.declared.token.Kind.TheVariants as K;

use aen_base::{List, Name, NoMem, Span};
use rust_lex::{Kind, Token, int_named, integer, name_of, token_text};
use source_grammar::{Class, Content, Lexeme, class_marked, class_named};
use std::alloc::Global;

/// The lexemes of the tokens of a text. The only error is want of memory.
pub fn lexemes_of(alloc: Global, text: &str, tokens: &[Token]) -> Result<List<Lexeme>, NoMem>
    requires { All (IsTokenOf text.now) tokens.now }
    ensures { IfOk result (λ ls. ls ≡ spec.lexemes text.now None tokens.now) }
{
    let mut lexemes = List::new(alloc);
    let mut dot = None;
    for token in tokens {
        let after_dot = ends_at(dot, token.span.lo);
        let lexeme = lexeme_of(alloc, after_dot, *token, token_text(text, *token))?;
        dot = dot_end(&lexeme);
        lexemes.push(lexeme)?;
    }
    Ok(lexemes)
}

/// Whether a dot ends at this byte.
fn ends_at(dot: Option<u32>, at: u32) -> bool
    ensures { result ≡ spec.ends_at dot at }
{
    match dot {
        Some(end) => end == at,
        None => false,
    }
}

/// Where a lexeme ends that is a dot.
fn dot_end(lexeme: &Lexeme) -> Option<u32>
    ensures { result ≡ spec.dot_after lexeme.now }
{
    match lexeme.class {
        Class::Dot => Some(lexeme.span.hi),
        _ => None,
    }
}

/// The lexeme of a token with this spelling, which may stand directly after a dot. The only error is
/// want of memory.
fn lexeme_of(alloc: Global, after_dot: bool, token: Token, spelling: &str) -> Result<Lexeme, NoMem>
    ensures { IfOk result (λ l. l ≡ spec.lexeme_of token.kind after_dot token.span spelling.now) }
{
    let span = token.span;
    match token.kind {
        Kind::Ident => identifier(alloc, span, spelling),
        Kind::Word => word(alloc, span, spelling),
        Kind::Excluded => Ok(plain(Class::Excluded, span)),
        Kind::Lifetime => lifetime(alloc, span, spelling),
        Kind::Integer => number(alloc, after_dot, span, spelling),
        Kind::Str => Ok(plain(Class::Text, span)),
        Kind::Punct => Ok(plain(class_marked(spelling), span)),
    }
}

/// A lexeme that says nothing beside its class.
fn plain(class: Class, span: Span) -> Lexeme
    ensures { result ≡ spec.plain class span }
{
    Lexeme {
        class,
        span,
        content: Content::Nothing,
    }
}

fn identifier(alloc: Global, span: Span, spelling: &str) -> Result<Lexeme, NoMem>
    ensures { IfOk result (λ l. l ≡ spec.lexeme_of K.Ident false span spelling.now) }
{
    let name = name_of(alloc, spelling)?;
    Ok(Lexeme {
        class: class_named(name.as_str(), Class::Other),
        span,
        content: Content::Name(name),
    })
}

fn word(alloc: Global, span: Span, spelling: &str) -> Result<Lexeme, NoMem>
    ensures { IfOk result (λ l. l ≡ spec.lexeme_of K.Word false span spelling.now) }
{
    let name = name_of(alloc, spelling)?;
    Ok(Lexeme {
        class: class_named(name.as_str(), Class::IntWord),
        span,
        content: int_type(&name),
    })
}

fn int_type(name: &Name) -> Content
    ensures { result ≡ spec.int_type (words.int_named name.now) }
{
    match int_named(name.as_str().as_bytes()) {
        Some(ty) => Content::Int(ty),
        None => Content::Nothing,
    }
}

fn lifetime(alloc: Global, span: Span, spelling: &str) -> Result<Lexeme, NoMem>
    ensures { IfOk result (λ l. l ≡ spec.lexeme_of K.Lifetime false span spelling.now) }
{
    let class = if spelling == "'_" {
        Class::Elided
    } else {
        Class::Lifetime
    };
    Ok(Lexeme {
        class,
        span,
        content: Content::Name(name_of(alloc, spelling)?),
    })
}

fn number(alloc: Global, after_dot: bool, span: Span, spelling: &str) -> Result<Lexeme, NoMem>
    ensures { IfOk result (λ l. l ≡ spec.lexeme_of K.Integer after_dot span spelling.now) }
{
    if after_dot {
        return Ok(Lexeme {
            class: Class::Digits,
            span,
            content: Content::Name(Name::from_str(alloc, spelling)?),
        });
    }
    let content = match integer(spelling) {
        Some(number) => Content::Number {
            value: number.value,
            suffix: number.suffix,
        },
        None => Content::Nothing,
    };
    Ok(Lexeme {
        class: Class::Integer,
        span,
        content,
    })
}
