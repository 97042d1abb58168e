//! The values of terms without variables.

ghost use Rattle.std.specs.Prelude.{◌≡◌, IfOk};
ghost use Rattle.pure_ast.specs.Terms as trees;
ghost use Rattle.text_words.specs.Typing as spec;

use aen_base::{List, NoMem};
use pure_ast::{PValue, Term, TermNode};
use std::alloc::Global;

/// The value of a term; None where it has a variable. The only error is want of memory.
#[cycle(closing)]
pub(crate) fn closed_value(alloc: Global, term: &Term) -> Result<Option<PValue>, NoMem>
    ensures { IfOk result (λ v. v ≡ spec.closed_value term.now) }
{
    match &term.node {
        TermNode::Var(_) => Ok(None),
        TermNode::Lit(number) => Ok(Some(PValue::number(*number))),
        TermNode::Bool(value) => Ok(Some(PValue::truth(*value))),
        TermNode::Tuple(parts) => match closed_values(alloc, parts.as_slice())? {
            Some(values) => Ok(Some(PValue::tuple(values))),
            None => Ok(None),
        },
        TermNode::Ctor(ctor, parts) => match closed_values(alloc, parts.as_slice())? {
            Some(values) => Ok(Some(PValue::built(*ctor, values))),
            None => Ok(None),
        },
    }
}

/// The values of terms, in order; None where one has a variable. The only error is want of memory.
#[cycle(closing)]
fn closed_values(alloc: Global, terms: &[Term]) -> Result<Option<List<PValue>>, NoMem>
    ensures { IfOk result (λ all. all ≡ spec.closed_values (trees.terms terms.now)) }
{
    let mut values = List::new(alloc);
    for term in terms {
        match closed_value(alloc, term)? {
            Some(value) => values.push(value)?,
            None => return Ok(None),
        }
    }
    Ok(Some(values))
}
