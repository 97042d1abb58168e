//! The variables of patterns. The recursion is as deep as a pattern is nested.
ghost use Rattle.std.specs.Prelude.{◌≡◌, ◌++◌, IfOk, OnOk};
ghost use Rattle.rust_ast.specs.SpelledPatterns as q;
ghost use Rattle.type_rules.specs.Patterns as spec;

use aen_base::{List, NoMem};
use rust_ast::spelled_patterns::{Pat, PatNode};
use std::alloc::Global;

/// The variables of a pattern in order. The only error is want of memory.
pub fn names_in(alloc: Global, pattern: &Pat) -> Result<List<u32>, NoMem>
    ensures { IfOk result (λ ns. ns ≡ spec.names_in pattern.now) }
{
    let mut names = List::new(alloc);
    put_names(pattern, &mut names)?;
    Ok(names)
}

/// Puts the variables of a pattern behind those before.
#[cycle(naming)]
fn put_names(pattern: &Pat, names: &mut List<u32>) -> Result<(), NoMem>
    ensures { OnOk result (names.new ≡ names.old ++ spec.names_in pattern.now) }
{
    match &pattern.node {
        PatNode::Wild => Ok(()),
        PatNode::Bind(_, variable, _) => names.push(*variable),
        PatNode::Number(_) => Ok(()),
        PatNode::Truth(_) => Ok(()),
        PatNode::Tuple(parts) => put_all(parts.as_slice(), names),
        PatNode::Construct(_, _, fields) => put_fields(fields.as_slice(), names),
        PatNode::Through(_, inner) => put_names(inner.get(), names),
    }
}

/// Puts the variables of a tuple's parts behind those before.
#[cycle(naming)]
fn put_all(parts: &[Pat], names: &mut List<u32>) -> Result<(), NoMem>
    ensures { OnOk result (names.new ≡ names.old ++ spec.names_in_all (q.pats parts.now)) }
{
    for part in parts {
        put_names(part, names)?;
    }
    Ok(())
}

/// Puts the variables of fields behind those before.
#[cycle(naming)]
fn put_fields(fields: &[(u32, Pat)], names: &mut List<u32>) -> Result<(), NoMem>
    ensures { OnOk result (names.new ≡ names.old ++ spec.names_in_fields (q.fieldpats fields.now)) }
{
    for field in fields {
        put_names(&field.1, names)?;
    }
    Ok(())
}
