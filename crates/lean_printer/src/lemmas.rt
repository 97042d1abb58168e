//! Prints the lemma templates.
ghost use Rattle.std.specs.Prelude.{◌≡◌, ◌++◌, OnOk, string_bytes, codes, length};
ghost use Rattle.std.specs.List.{flat_map};
ghost use Rattle.text_meaning.specs.Shown.{binders_text};
ghost use Rattle.text_meaning.specs.ShownLemmas as spec;
ghost use Rattle.text_meaning.specs.ShownNames.{kind_text};
ghost use Rattle.text_meaning.specs.ShownTypes.{type_text};
ghost use Rattle.text_meaning.specs.Tokens.{var_text};

use crate::definitions::put_binders;
use crate::names::put_kind;
use crate::put::{put, put_variable};
use crate::types::put_type;
use aen_base::NoMem;
use pure_ast::{Def, Defs};

/// Adds the variables of so many parameters, each after a space.
fn put_variables(out: &mut String, count: usize) -> Result<(), NoMem>
    ensures { OnOk result (string_bytes out.new ≡ string_bytes out.old ++ spec.variables_from 0 count) }
{
    for place in 0..count {
        put(out, " ")?;
        put_variable(out, place as u64)?;
    }
    Ok(())
}

/// Adds a lemma's name and the definition's parameters.
fn put_head(out: &mut String, defs: &Defs, def: &Def) -> Result<(), NoMem>
    ensures { OnOk result (string_bytes out.new ≡ string_bytes out.old ++ spec.lemma_head defs.now def.now) }
{
    put(out, "\ntheorem ")?;
    put_kind(out, defs, def.kind)?;
    put(out, ".spec")?;
    put_binders(out, defs, def)
}

/// Adds the variable of the result.
fn put_result(out: &mut String, defs: &Defs, def: &Def) -> Result<(), NoMem>
    ensures { OnOk result (string_bytes out.new ≡ string_bytes out.old ++ spec.lemma_result defs.now def.now) }
{
    put(out, " (")?;
    put_variable(out, def.params.len() as u64)?;
    put(out, " : ")?;
    put_type(out, defs, def.type_params.as_slice(), &def.result)?;
    put(out, ")")
}

/// Adds the hypothesis that the definition gives the result.
fn put_hypothesis(out: &mut String, defs: &Defs, def: &Def) -> Result<(), NoMem>
    ensures { OnOk result (string_bytes out.new ≡ string_bytes out.old ++ spec.lemma_hypothesis defs.now def.now) }
{
    put(out, " (h : ")?;
    put_kind(out, defs, def.kind)?;
    put(out, " n")?;
    put_variables(out, def.params.len())?;
    put(out, " = ok ")?;
    put_variable(out, def.params.len() as u64)?;
    put(out, ")")
}

fn put_lemma(out: &mut String, defs: &Defs, def: &Def) -> Result<(), NoMem>
    ensures { OnOk result (string_bytes out.new ≡ string_bytes out.old ++ spec.lemma_text defs.now def.now) }
{
    put_head(out, defs, def)?;
    put_result(out, defs, def)?;
    put_hypothesis(out, defs, def)?;
    put(out, " : True := sorry\n")
}

/// Adds a template for each definition, each after an empty line.
pub(crate) fn put_lemmas(out: &mut String, defs: &Defs) -> Result<(), NoMem>
    ensures { OnOk result (string_bytes out.new ≡ string_bytes out.old ++ flat_map (spec.lemma_text defs.now) defs.now.defs) }
{
    let all = defs.defs.as_slice();
    for def in all {
        put_lemma(out, defs, def)?;
    }
    Ok(())
}
