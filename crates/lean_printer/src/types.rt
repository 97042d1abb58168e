//! Prints types.
ghost use Rattle.std.specs.Prelude.{◌≡◌, [], ◌∷◌, ◌++◌, OnOk, string_bytes};
ghost use Rattle.pure_ast.specs.Types as trees;
ghost use Rattle.text_meaning.specs.Lookups as lookups;
ghost use Rattle.text_meaning.specs.ShownNames.{name_text};
ghost use Rattle.text_meaning.specs.ShownTypes as spec;

use crate::names::{put_name, type_name};
use crate::put::put;
use crate::words::int_word;
use aen_base::{Name, NoMem, TypeId, at};
use pure_ast::{Defs, PTy, PTyNode};

/// A type parameter's name, empty where there is none of this number.
fn parameter_name(names: &[Name], place: u32) -> &str
    ensures { result.now ≡ lookups.parameter_name names.now place }
{
    match at(names, place as usize) {
        Some(name) => name.as_str(),
        None => "",
    }
}

/// Adds the name of a type with arguments, up to the first of them.
fn put_applied(out: &mut String, defs: &Defs, id: TypeId) -> Result<(), NoMem>
    ensures { OnOk result (string_bytes out.new ≡ string_bytes out.old ++ (40 ∷ (name_text (lookups.type_name defs.now id.0) ++ (32 ∷ [])))) }
{
    put(out, "(")?;
    put_name(out, type_name(defs, id))?;
    put(out, " ")
}

/// Adds a type; `names` are the type parameters around it.
#[cycle(ty)]
pub(crate) fn put_type(out: &mut String, defs: &Defs, names: &[Name], ty: &PTy) -> Result<(), NoMem>
    ensures { OnOk result (string_bytes out.new ≡ string_bytes out.old ++ spec.type_text defs.now names.now ty.now) }
{
    match &ty.node {
        PTyNode::Int(int) => Ok(put(out, int_word(*int))?),
        PTyNode::Bool => Ok(put(out, "Bool")?),
        PTyNode::Unit => Ok(put(out, "Unit")?),
        PTyNode::Prod(parts) => Ok(put_product(out, defs, names, parts.as_slice())?),
        PTyNode::Named(id, args) => Ok(put_named(out, defs, names, *id, args.as_slice())?),
        PTyNode::Param(place) => Ok(put_name(out, parameter_name(names, *place))?),
        PTyNode::Exit(broken, returned) => {
            put(out, "(Exit ")?;
            put_type(out, defs, names, broken.get())?;
            put(out, " ")?;
            put_type(out, defs, names, returned.get())?;
            Ok(put(out, ")")?)
        }
    }
}

#[cycle(ty)]
fn put_product(out: &mut String, defs: &Defs, names: &[Name], parts: &[PTy]) -> Result<(), NoMem>
    ensures { OnOk result (string_bytes out.new ≡ string_bytes out.old ++ spec.type_text defs.now names.now (trees.product (trees.ptys parts.now))) }
{
    match parts {
        [] => Ok(put(out, "( )")?),
        [first, rest @ ..] => {
            put(out, "(")?;
            put_type(out, defs, names, first)?;
            put_times_types(out, defs, names, rest)?;
            Ok(put(out, ")")?)
        }
    }
}

#[cycle(ty)]
fn put_named(
    out: &mut String,
    defs: &Defs,
    names: &[Name],
    id: TypeId,
    args: &[PTy],
) -> Result<(), NoMem>
    ensures { OnOk result (string_bytes out.new ≡ string_bytes out.old ++ spec.type_text defs.now names.now (trees.named id.0 (trees.ptys args.now))) }
{
    match args {
        [] => Ok(put_name(out, type_name(defs, id))?),
        [first, rest @ ..] => {
            put_applied(out, defs, id)?;
            put_type(out, defs, names, first)?;
            put_spaced_types(out, defs, names, rest)?;
            Ok(put(out, ")")?)
        }
    }
}

#[cycle(ty)]
fn put_spaced_types(
    out: &mut String,
    defs: &Defs,
    names: &[Name],
    parts: &[PTy],
) -> Result<(), NoMem>
    ensures { OnOk result (string_bytes out.new ≡ string_bytes out.old ++ spec.spaced_types defs.now names.now (trees.ptys parts.now)) }
{
    for part in parts {
        put(out, " ")?;
        put_type(out, defs, names, part)?;
    }
    Ok(())
}

#[cycle(ty)]
fn put_times_types(
    out: &mut String,
    defs: &Defs,
    names: &[Name],
    parts: &[PTy],
) -> Result<(), NoMem>
    ensures { OnOk result (string_bytes out.new ≡ string_bytes out.old ++ spec.times_types defs.now names.now (trees.ptys parts.now)) }
{
    for part in parts {
        put(out, " × ")?;
        put_type(out, defs, names, part)?;
    }
    Ok(())
}
