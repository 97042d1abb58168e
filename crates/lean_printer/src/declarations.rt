//! Prints declarations of types.
ghost use Rattle.std.specs.Prelude.{◌≡◌, ◌++◌, OnOk, string_bytes};
ghost use Rattle.std.specs.List.{flat_map};
ghost use Rattle.text_meaning.specs.Shown as spec;
ghost use Rattle.text_meaning.specs.ShownNames.{name_text};

use crate::names::put_name;
use crate::put::{put, put_line};
use crate::types::put_type;
use aen_base::{List, Name, NoMem};
use pure_ast::{Defs, PTy, PType};

fn put_type_parameters(out: &mut String, names: &[Name]) -> Result<(), NoMem>
    ensures { OnOk result (string_bytes out.new ≡ string_bytes out.old ++ flat_map spec.type_parameter_text names.now) }
{
    for name in names {
        put(out, " (")?;
        put_name(out, name.as_str())?;
        put(out, " : Type)")?;
    }
    Ok(())
}

fn put_named_field(
    out: &mut String,
    defs: &Defs,
    names: &[Name],
    field: &(Name, PTy),
) -> Result<(), NoMem>
    ensures { OnOk result (string_bytes out.new ≡ string_bytes out.old ++ spec.named_field_text defs.now names.now field.now) }
{
    put_line(out, 2)?;
    put(out, "(")?;
    put_name(out, field.0.as_str())?;
    put(out, " : ")?;
    put_type(out, defs, names, &field.1)?;
    put(out, ")")
}

fn put_named_fields(
    out: &mut String,
    defs: &Defs,
    names: &[Name],
    fields: &[(Name, PTy)],
) -> Result<(), NoMem>
    ensures { OnOk result (string_bytes out.new ≡ string_bytes out.old ++ flat_map (spec.named_field_text defs.now names.now) fields.now) }
{
    for field in fields {
        put_named_field(out, defs, names, field)?;
    }
    Ok(())
}

fn put_plain_fields(
    out: &mut String,
    defs: &Defs,
    names: &[Name],
    fields: &[(Name, PTy)],
) -> Result<(), NoMem>
    ensures { OnOk result (string_bytes out.new ≡ string_bytes out.old ++ flat_map (spec.plain_field_text defs.now names.now) fields.now) }
{
    for field in fields {
        put_type(out, defs, names, &field.1)?;
        put(out, " → ")?;
    }
    Ok(())
}

fn put_spaced_names(out: &mut String, names: &[Name]) -> Result<(), NoMem>
    ensures { OnOk result (string_bytes out.new ≡ string_bytes out.old ++ spec.spaced_names names.now) }
{
    for name in names {
        put(out, " ")?;
        put_name(out, name.as_str())?;
    }
    Ok(())
}

fn put_variant(
    out: &mut String,
    defs: &Defs,
    decl: &PType,
    variant: &(Name, List<(Name, PTy)>),
) -> Result<(), NoMem>
    ensures { OnOk result (string_bytes out.new ≡ string_bytes out.old ++ spec.variant_text defs.now decl.now variant.now) }
{
    put_line(out, 2)?;
    put(out, "| ")?;
    put_name(out, variant.0.as_str())?;
    put(out, " : ")?;
    put_plain_fields(out, defs, decl.params.as_slice(), variant.1.as_slice())?;
    put_name(out, decl.name.as_str())?;
    put_spaced_names(out, decl.params.as_slice())
}

fn put_variants(
    out: &mut String,
    defs: &Defs,
    decl: &PType,
    variants: &[(Name, List<(Name, PTy)>)],
) -> Result<(), NoMem>
    ensures { OnOk result (string_bytes out.new ≡ string_bytes out.old ++ flat_map (spec.variant_text defs.now decl.now) variants.now) }
{
    for variant in variants {
        put_variant(out, defs, decl, variant)?;
    }
    Ok(())
}

/// Adds the fields of a structure's one variant.
fn put_structure(out: &mut String, defs: &Defs, decl: &PType) -> Result<(), NoMem>
    ensures { OnOk result (string_bytes out.new ≡ string_bytes out.old ++ spec.structure_text defs.now decl.now decl.now.variants) }
{
    match decl.variants.as_slice() {
        [] => Ok(()),
        [variant, ..] => put_named_fields(out, defs, decl.params.as_slice(), variant.1.as_slice()),
    }
}

fn put_declared(out: &mut String, defs: &Defs, decl: &PType) -> Result<(), NoMem>
    ensures { OnOk result (string_bytes out.new ≡ string_bytes out.old ++ spec.declared_text defs.now decl.now decl.now.is_struct) }
{
    put(
        out,
        if decl.is_struct {
            "structure "
        } else {
            "inductive "
        },
    )?;
    put_name(out, decl.name.as_str())?;
    put_type_parameters(out, decl.params.as_slice())?;
    put(out, " where")?;
    if decl.is_struct {
        put_structure(out, defs, decl)
    } else {
        put_variants(out, defs, decl, decl.variants.as_slice())
    }
}

/// Adds the declarations of the types, each after an empty line.
pub(crate) fn put_declarations(out: &mut String, defs: &Defs) -> Result<(), NoMem>
    ensures { OnOk result (string_bytes out.new ≡ string_bytes out.old ++ flat_map (spec.declaration_text defs.now) defs.now.types) }
{
    let decls = defs.types.as_slice();
    for decl in decls {
        put(out, "\n")?;
        put_declared(out, defs, decl)?;
        put(out, "\n")?;
    }
    Ok(())
}
