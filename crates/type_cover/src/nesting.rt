//! How deep constructors are nested in patterns.

ghost use Rattle.std.specs.Prelude.{◌≡◌, suc, max, map, IfOk};
ghost use Rattle.rust_ast.specs.SpelledPatterns.{fieldpats, pats};
ghost use Rattle.type_rules.specs.Coverage as spec;

use aen_base::NoMem;
use rust_ast::spelled_patterns::{Pat, PatNode};

/// One level more. No pattern in memory is nested deeper than a number tells.
fn one_more(levels: usize) -> Result<usize, NoMem>
    ensures { IfOk result (λ n. n ≡ suc levels) }
{
    match levels.checked_add(1) {
        Some(more) => Ok(more),
        None => Err(NoMem),
    }
}

fn greater(a: usize, b: usize) -> usize
    ensures { result ≡ max a b }
{
    if a < b { b } else { a }
}

/// How deep the constructors of a pattern are nested.
#[cycle(nesting)]
fn nesting(pat: &Pat) -> Result<usize, NoMem>
    ensures { IfOk result (λ n. n ≡ spec.nesting pat.now) }
{
    match &pat.node {
        PatNode::Wild => Ok(0),
        PatNode::Bind(_, _, _) => Ok(0),
        PatNode::Number(_) => Ok(1),
        PatNode::Truth(_) => Ok(1),
        PatNode::Tuple(parts) => Ok(one_more(nesting_all(parts.as_slice())?)?),
        PatNode::Construct(_, _, fields) => Ok(one_more(nesting_fields(fields.as_slice())?)?),
        PatNode::Through(_, inner) => Ok(nesting(inner.get())?),
    }
}

#[cycle(nesting)]
#[tactic(auto, using(crate::proofs::Nested::parts_turn))]
fn nesting_all(parts: &[Pat]) -> Result<usize, NoMem>
    ensures { IfOk result (λ n. n ≡ spec.nesting_all (pats parts.now)) }
{
    let mut levels = 0usize;
    for part in parts {
        levels = greater(levels, nesting(part)?);
    }
    Ok(levels)
}

#[cycle(nesting)]
#[tactic(auto, using(crate::proofs::Nested::fields_turn))]
fn nesting_fields(fields: &[(u32, Pat)]) -> Result<usize, NoMem>
    ensures { IfOk result (λ n. n ≡ spec.nesting_fields (fieldpats fields.now)) }
{
    let mut levels = 0usize;
    for field in fields {
        levels = greater(levels, nesting(&field.1)?);
    }
    Ok(levels)
}

/// The greatest nesting of these patterns, and at least one level.
#[tactic(auto, using(crate::proofs::Nested::patterns_turn))]
pub(crate) fn levels(patterns: &[&Pat]) -> Result<usize, NoMem>
    ensures { IfOk result (λ n. n ≡ spec.levels (map (λ p. p.now) patterns.now)) }
{
    let mut levels = 0usize;
    for pattern in patterns {
        levels = greater(levels, nesting(*pattern)?);
    }
    Ok(greater(levels, 1))
}
