//! The limits on brackets, depth and `else` (docs/LANGUAGE.md, "Limits").

ghost use Rattle.std.specs.Prelude.{◌≡◌, ◌≤◌, ◌↔◌, IsTrue, IfOk, OnOk};
ghost use Rattle.source_syntax.specs.Limits as spec;
ghost use Rattle.source_syntax.specs.Levels.{seen};

use crate::effect::{Effect, effect_of};
use crate::levels::Levels;
use aen_base::NoMem;
use source_grammar::{Class, Lexeme};
use std::alloc::Global;

/// Whether more than 100 brackets are open at some lexeme.
pub(crate) fn passes_nesting(lexemes: &[Lexeme]) -> bool
    ensures { IsTrue result ↔ spec.PassesNesting lexemes.now }
{
    nests_deeply(lexemes)
}

fn nests_deeply(lexemes: &[Lexeme]) -> bool
    ensures { result ≡ spec.passes_nesting lexemes.now }
{
    let mut brackets = 0u64;
    for lexeme in lexemes {
        brackets = bracketed(brackets, effect_of(lexeme.class));
        if brackets > 100 {
            return true;
        }
    }
    false
}

fn bracketed(brackets: u64, effect: Effect) -> u64
    requires { brackets ≤ 100 }
    ensures { result ≡ spec.bracketed brackets effect }
{
    match effect {
        Effect::Opens => brackets + 1,
        Effect::Closes => brackets.saturating_sub(1),
        _ => brackets,
    }
}

/// Whether the depth is more than 250 at some lexeme. The only error is want of memory.
pub(crate) fn passes_depth(alloc: Global, lexemes: &[Lexeme]) -> Result<bool, NoMem>
    ensures { IfOk result (λ b. IsTrue b ↔ spec.PassesDepth lexemes.now) }
{
    let deep = is_deep(alloc, lexemes)?;
    Ok(deep)
}

fn is_deep(alloc: Global, lexemes: &[Lexeme]) -> Result<bool, NoMem>
    ensures { IfOk result (λ b. b ≡ spec.passes_depth lexemes.now) }
{
    let mut levels = Levels::new(alloc);
    for lexeme in lexemes {
        levels.see(effect_of(lexeme.class))?;
        if levels.depth > 250 {
            return Ok(true);
        }
    }
    Ok(false)
}

/// Whether more than 250 words `else` stand since the last `fn` at some lexeme.
pub(crate) fn passes_else(lexemes: &[Lexeme]) -> bool
    ensures { IsTrue result ↔ spec.PassesElse lexemes.now }
{
    has_many_elses(lexemes)
}

fn has_many_elses(lexemes: &[Lexeme]) -> bool
    ensures { result ≡ spec.passes_else lexemes.now }
{
    let mut elses = 0u64;
    for lexeme in lexemes {
        elses = elses_after(elses, lexeme.class);
        if elses > 250 {
            return true;
        }
    }
    false
}

fn elses_after(elses: u64, class: Class) -> u64
    requires { elses ≤ 250 }
    ensures { result ≡ spec.elses elses class }
{
    match class {
        Class::Fn => 0,
        Class::Else => elses + 1,
        _ => elses,
    }
}
