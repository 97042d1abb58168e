//! Definitions and texts.

ghost use Rattle.std.specs.Prelude.{◌≡◌, [], true, IfOk};
ghost use Rattle.std.specs.List.{list_all};
ghost use Rattle.raw_meaning.specs.Faults.{faults, type_names};
ghost use Rattle.raw_meaning.specs.Outlines.{is_in};
ghost use Rattle.raw_meaning.specs.Trees.{definitions};
ghost use Rattle.text_trees.specs.Definitions as spec;
ghost use Rattle.text_trees.specs.Told.{Gives, Settled};

use crate::SettleFault;
use crate::codes::settle_code;
use crate::declarations::{settle_declarations, settle_parameters};
use crate::new_names::{new_definition, parameter};
use crate::types::settle_type;
use aen_base::{List, Name, NoMem};
use pure_ast::{Code, Def, DefKind, Defs, PTy, PType};
use raw_ast::{Declaration, Definition, RawText, RawType, Spelling};
use std::alloc::Global;
use text_names::{Kinds, Names, Tables, outline_of};

/// What a definition takes and gives.
#[derive(Drop)]
pub(crate) struct Signature {
    pub type_parameters: List<Name>,
    pub parameters: List<PTy>,
    pub result: PTy,
}

/// The types and definitions of a text.
#[derive(Drop)]
pub(crate) struct Parts {
    pub types: List<PType>,
    pub defs: List<Def>,
}

/// The definitions that a text as it is spelled stands for, or the first place at which it breaks a
/// rule beside the grammar.
///
/// # Errors
/// `Broken` exactly at the first place where a rule is broken, of a text that breaks one; `Memory` for
/// want of memory, which may come at any text.
pub fn definitions_of(alloc: Global, raw: &RawText) -> Result<Defs, SettleFault>
    ensures { Settled (faults raw.now) (definitions raw.now) result }
{
    settle_text(alloc, raw)
}

/// The definitions of a text.
fn settle_text(alloc: Global, raw: &RawText) -> Result<Defs, SettleFault>
    ensures { Gives (spec.text_told raw.now) result }
{
    let outline = outline_of(alloc, raw)?;
    let tables = Tables::new(alloc, outline)?;
    let Parts { types, defs } = settle_parts(alloc, &tables, raw)?;
    Ok(Defs {
        types,
        names: tables.into_functions(),
        defs,
    })
}

/// The types and definitions of a text whose tables these are.
fn settle_parts(alloc: Global, tables: &Tables, raw: &RawText) -> Result<Parts, SettleFault>
    requires { list_all (λ d. is_in d.name.function.text tables.now.functions) raw.now.definitions ≡ true }
    ensures { Gives (spec.parts_told tables.now raw.now) result }
{
    let types = settle_declarations(alloc, tables, raw.types.as_slice())?;
    let defs = settle_among(alloc, tables, raw)?;
    Ok(Parts { types, defs })
}

/// The definitions of a text whose tables these are, among its types.
fn settle_among(alloc: Global, tables: &Tables, raw: &RawText) -> Result<List<Def>, SettleFault>
    requires { list_all (λ d. is_in d.name.function.text tables.now.functions) raw.now.definitions ≡ true }
    ensures { Gives (spec.definitions_told tables.now (type_names raw.now.types) [] raw.now.definitions) result }
{
    let types = names_of_types(alloc, raw.types.as_slice())?;
    settle_definitions(alloc, tables, &types, raw.definitions.as_slice())
}

/// The names of types, in order.
fn names_of_types(alloc: Global, raw: &[Declaration]) -> Result<Names, NoMem>
    ensures { IfOk result (λ names. names ≡ type_names raw.now) }
{
    let mut names = Names::new(alloc);
    for i in 0..raw.len() {
        names = names.with(alloc, &raw[i].name.text)?;
    }
    Ok(names)
}

/// The definitions, in order, among these types.
fn settle_definitions(
    alloc: Global,
    tables: &Tables,
    types: &Names,
    raw: &[Definition],
) -> Result<List<Def>, SettleFault>
    requires { list_all (λ d. is_in d.name.function.text tables.now.functions) raw.now ≡ true }
    ensures { Gives (spec.definitions_told tables.now types.now [] raw.now) result }
{
    let mut kinds = Kinds::new(alloc);
    let mut done = List::new(alloc);
    for i in 0..raw.len() {
        let def = settle_definition(alloc, tables, types, &kinds, &raw[i])?;
        kinds = kinds.with(def.kind)?;
        done.push(def)?;
    }
    Ok(done)
}

/// A definition among these types, after definitions of these kinds.
fn settle_definition(
    alloc: Global,
    tables: &Tables,
    types: &Names,
    kinds: &Kinds,
    raw: &Definition,
) -> Result<Def, SettleFault>
    requires { is_in raw.now.name.function.text tables.now.functions ≡ true }
    ensures { Gives (spec.definition_told tables.now types.now kinds.now raw.now) result }
{
    let kind = new_definition(tables, kinds, &raw.name)?;
    let signature = settle_signature(alloc, tables, types, raw)?;
    let code = settle_code(alloc, tables, &raw.code)?;
    Ok(define(kind, signature, code))
}

/// The definition of these parts.
fn define(kind: DefKind, signature: Signature, code: Code) -> Def
    ensures { result ≡ spec.defined kind signature code }
{
    let Signature {
        type_parameters,
        parameters,
        result,
    } = signature;
    Def {
        kind,
        type_params: type_parameters,
        params: parameters,
        result,
        code,
    }
}

/// What a definition takes and gives, among these types.
fn settle_signature(
    alloc: Global,
    tables: &Tables,
    types: &Names,
    raw: &Definition,
) -> Result<Signature, SettleFault>
    ensures { Gives (spec.signature_told tables.now types.now raw.now) result }
{
    let names = settle_parameters(alloc, types, raw.type_parameters.as_slice())?;
    let parameters = settle_values(alloc, tables, &names, raw.parameters.as_slice())?;
    let result = settle_type(alloc, tables, &names, &raw.result)?;
    Ok(Signature {
        type_parameters: names.into_list(),
        parameters,
        result,
    })
}

/// The types of a definition's parameters, in order.
fn settle_values(
    alloc: Global,
    tables: &Tables,
    parameters: &Names,
    raw: &[(Spelling, RawType)],
) -> Result<List<PTy>, SettleFault>
    ensures { Gives (spec.values_told tables.now parameters.now 0 raw.now) result }
{
    let mut done = List::new(alloc);
    for i in 0..raw.len() {
        parameter(i, &raw[i].0)?;
        let ty = settle_type(alloc, tables, parameters, &raw[i].1)?;
        done.push(ty)?;
    }
    Ok(done)
}
