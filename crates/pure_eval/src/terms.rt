ghost use Rattle.std.specs.Prelude.{◌≡◌, IfOk};
ghost use Rattle.pure_ast.specs.Terms.{terms};
ghost use Rattle.text_meaning.specs.Terms as spec;

use crate::copies::copy_value;
use crate::variables::Variables;
use aen_base::{List, NoMem};
use pure_ast::{PValue, Term, TermNode};
use std::alloc::Global;

/// The value of a term; None exactly where it has a variable without a value. The only error is
/// want of memory.
#[cycle(terms)]
pub(crate) fn term_value(
    alloc: Global,
    variables: &Variables,
    term: &Term,
) -> Result<Option<PValue>, NoMem>
    ensures { IfOk result (λ v. v ≡ spec.term_value variables.now term.now) }
{
    match &term.node {
        TermNode::Var(variable) => match variables.get(*variable) {
            Some(value) => Ok(Some(copy_value(alloc, value)?)),
            None => Ok(None),
        },
        TermNode::Lit(number) => Ok(Some(PValue::number(*number))),
        TermNode::Bool(truth) => Ok(Some(PValue::truth(*truth))),
        TermNode::Tuple(parts) => match term_values(alloc, variables, parts.as_slice())? {
            Some(values) => Ok(Some(PValue::tuple(values))),
            None => Ok(None),
        },
        TermNode::Ctor(ctor, parts) => match term_values(alloc, variables, parts.as_slice())? {
            Some(values) => Ok(Some(PValue::built(*ctor, values))),
            None => Ok(None),
        },
    }
}

/// The values of terms, in order; None exactly where one has none. The only error is want of memory.
#[cycle(terms)]
pub(crate) fn term_values(
    alloc: Global,
    variables: &Variables,
    parts: &[Term],
) -> Result<Option<List<PValue>>, NoMem>
    ensures { IfOk result (λ v. v ≡ spec.term_values variables.now (terms parts.now)) }
{
    let mut values = List::new(alloc);
    for part in parts {
        match term_value(alloc, variables, part)? {
            Some(value) => values.push(value)?,
            None => return Ok(None),
        }
    }
    Ok(Some(values))
}
