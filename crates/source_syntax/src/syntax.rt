//! Why lexemes are no program (docs/LANGUAGE.md, "Grammar", "Limits").

ghost use Rattle.std.specs.Prelude.{◌≡◌, IfOk, MatchOption};
ghost use Rattle.source_syntax.specs.Refusals as spec;

use crate::limits::{passes_depth, passes_else, passes_nesting};
use aen_base::{NoMem, Span, Which};
use rust_lex::{Kind, Token};
use source_grammar::Lexeme;
use std::alloc::Global;

/// The first excluded word.
pub fn first_excluded(tokens: &[Token]) -> Option<Span>
    ensures { result ≡ spec.first_excluded tokens.now }
{
    for token in tokens {
        if token.kind == Kind::Excluded {
            return Some(token.span);
        }
    }
    None
}

/// The first of the limits on nesting, depth and `else`, in this order, that lexemes pass, and the
/// limit and one. The only error is want of memory.
pub fn passed_limit(alloc: Global, lexemes: &[Lexeme]) -> Result<Option<(Which, u64)>, NoMem>
    ensures { IfOk result (λ o. MatchOption o (spec.KeepsLimits lexemes.now) (λ (which, n). spec.IsPassed lexemes.now which n)) }
{
    if passes_nesting(lexemes) {
        return Ok(Some((Which::Nesting, 101)));
    }
    if passes_depth(alloc, lexemes)? {
        return Ok(Some((Which::Depth, 251)));
    }
    if passes_else(lexemes) {
        return Ok(Some((Which::Else, 251)));
    }
    Ok(None)
}

/// The place in the text of a fault of lexemes: a lexeme, the lexical fault after all of them, or the
/// text's end.
pub fn fault_at(lexemes: &[Lexeme], place: usize, bad: Option<Span>, end: u32) -> Span
    requires { spec.IsFault lexemes.now place }
    ensures { spec.IsSyntaxFault lexemes.now bad end result }
{
    if let Some(lexeme) = lexemes.get(place) {
        return lexeme.span;
    }
    match bad {
        Some(span) => span,
        None => Span { lo: end, hi: end },
    }
}
