//! The rule on the end of a variant.

ghost use Rattle.std.specs.Prelude.{◌≡◌, ◌++◌, length};
ghost use Rattle.raw_meaning.specs.Rules as rule;
ghost use Rattle.text_names.specs.Settled.{Keeps};

use crate::names::Names;
use aen_base::{Name, Span};
use raw_ast::Spelling;

/// A variant's end is its type's name, with the type's parameters after it. Else the end's place,
/// where it is another name or has another number of names after it, or that of the first name that
/// is not the type parameter in its place.
pub fn variant_end(
    ty: &Name,
    parameters: &Names,
    end: &Spelling,
    names: &[Spelling],
) -> Result<(), Span>
    ensures { Keeps (rule.variant_end ty.now parameters.now end.now names.now ++ rule.end_names parameters.now names.now) result }
{
    if end.text != *ty || names.len() != parameters.as_slice().len() {
        return Err(end.span);
    }
    end_names(parameters.as_slice(), names)
}

/// Each name is the type parameter in its place.
fn end_names(parameters: &[Name], names: &[Spelling]) -> Result<(), Span>
    requires { length parameters.now ≡ length names.now }
    ensures { Keeps (rule.end_names parameters.now names.now) result }
{
    for place in 0..names.len() {
        if parameters[place] != names[place].text {
            return Err(names[place].span);
        }
    }
    Ok(())
}
