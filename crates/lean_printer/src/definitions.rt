//! Prints definitions.
ghost use Rattle.std.specs.Prelude.{◌≡◌, ◌++◌, OnOk, string_bytes, codes};
ghost use Rattle.std.specs.List.{flat_map};
ghost use Rattle.text_meaning.specs.Shown as spec;
ghost use Rattle.text_meaning.specs.ShownNames.{kind_text};
ghost use Rattle.text_meaning.specs.ShownTypes.{type_text};

use crate::code::put_code;
use crate::names::{put_kind, put_name};
use crate::put::{put, put_variable};
use crate::types::put_type;
use aen_base::{Name, NoMem};
use pure_ast::{Def, Defs, PTy};

fn put_implicits(out: &mut String, names: &[Name]) -> Result<(), NoMem>
    ensures { OnOk result (string_bytes out.new ≡ string_bytes out.old ++ flat_map spec.implicit_text names.now) }
{
    for name in names {
        put(out, " {")?;
        put_name(out, name.as_str())?;
        put(out, " : Type}")?;
    }
    Ok(())
}

fn put_parameter(
    out: &mut String,
    defs: &Defs,
    names: &[Name],
    variable: u64,
    ty: &PTy,
) -> Result<(), NoMem>
    ensures { OnOk result (string_bytes out.new ≡ string_bytes out.old ++ spec.parameter_text defs.now names.now variable ty.now) }
{
    put(out, " (")?;
    put_variable(out, variable)?;
    put(out, " : ")?;
    put_type(out, defs, names, ty)?;
    put(out, ")")
}

fn put_parameters(
    out: &mut String,
    defs: &Defs,
    names: &[Name],
    params: &[PTy],
) -> Result<(), NoMem>
    ensures { OnOk result (string_bytes out.new ≡ string_bytes out.old ++ spec.parameters_text defs.now names.now 0 params.now) }
{
    for (place, ty) in params.iter().enumerate() {
        put_parameter(out, defs, names, place as u64, ty)?;
    }
    Ok(())
}

/// Adds the type parameters, the fuel and the parameters of a definition.
pub(crate) fn put_binders(out: &mut String, defs: &Defs, def: &Def) -> Result<(), NoMem>
    ensures { OnOk result (string_bytes out.new ≡ string_bytes out.old ++ spec.binders_text defs.now def.now) }
{
    put_implicits(out, def.type_params.as_slice())?;
    put(out, " (n : Nat)")?;
    put_parameters(out, defs, def.type_params.as_slice(), def.params.as_slice())
}

/// Adds the head of a definition up to its result's type.
fn put_signature(out: &mut String, defs: &Defs, def: &Def) -> Result<(), NoMem>
    ensures { OnOk result (string_bytes out.new ≡ string_bytes out.old ++ (codes "\ndef " ++ (kind_text defs.now def.now.kind ++ (spec.binders_text defs.now def.now ++ (codes " : Result " ++ type_text defs.now def.now.type_params def.now.result))))) }
{
    put(out, "\ndef ")?;
    put_kind(out, defs, def.kind)?;
    put_binders(out, defs, def)?;
    put(out, " : Result ")?;
    put_type(out, defs, def.type_params.as_slice(), &def.result)
}

fn put_definition(out: &mut String, defs: &Defs, def: &Def) -> Result<(), NoMem>
    ensures { OnOk result (string_bytes out.new ≡ string_bytes out.old ++ spec.definition_text defs.now def.now) }
{
    put_signature(out, defs, def)?;
    put(
        out,
        " :=\n  match n with\n  | 0 => outOfFuel\n  | n + 1 => do",
    )?;
    put_code(out, defs, 4, &def.code)?;
    Ok(put(out, "\n")?)
}

/// Adds the definitions, each after an empty line.
pub(crate) fn put_definitions(out: &mut String, defs: &Defs) -> Result<(), NoMem>
    ensures { OnOk result (string_bytes out.new ≡ string_bytes out.old ++ flat_map (spec.definition_text defs.now) defs.now.defs) }
{
    let all = defs.defs.as_slice();
    for def in all {
        put_definition(out, defs, def)?;
    }
    Ok(())
}
