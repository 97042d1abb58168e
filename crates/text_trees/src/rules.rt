//! The rules beside the grammar, each on one node.

ghost use Rattle.text_trees.specs.Nodes as nodes;
ghost use Rattle.text_trees.specs.Told.{Gives};

use crate::SettleFault;
use aen_base::{IntTy, Num};
use pure_ast::{CtorId, Primitive};
use raw_ast::{Constructor, DefinitionName, Operation, Spelling};
use text_names::{Names, Tables, TypeName};

/// A variable's number.
#[tactic(auto, unfolding(crate::specs::Nodes::variable), using(crate::proofs::Telling::told_is))]
pub(crate) fn variable(name: &Spelling) -> Result<u32, SettleFault>
    ensures { Gives (nodes.variable name.now) result }
{
    Ok(text_names::variable(name)?)
}

/// A number of a type.
#[tactic(auto, unfolding(crate::specs::Nodes::number), using(crate::proofs::Telling::told_is))]
pub(crate) fn number(digits: &Spelling, ty: IntTy) -> Result<Num, SettleFault>
    ensures { Gives (nodes.number digits.now ty) result }
{
    Ok(text_names::number(digits, ty)?)
}

/// What a type's name with so many arguments stands for.
#[tactic(auto, unfolding(crate::specs::Nodes::type_name), using(crate::proofs::Telling::told_is))]
pub(crate) fn type_name(
    tables: &Tables,
    parameters: &Names,
    name: &Spelling,
    count: usize,
) -> Result<TypeName, SettleFault>
    ensures { Gives (nodes.type_name tables.now parameters.now name.now count) result }
{
    Ok(text_names::type_name(tables, parameters, name, count)?)
}

/// A constructor with so many parts.
#[tactic(auto, unfolding(crate::specs::Nodes::constructor), using(crate::proofs::Telling::told_is))]
pub(crate) fn constructor(
    tables: &Tables,
    name: &Constructor,
    count: usize,
) -> Result<CtorId, SettleFault>
    ensures { Gives (nodes.constructor tables.now name.now count) result }
{
    Ok(text_names::constructor(tables, name, count)?)
}

/// The number of a definition with so many parameters.
#[tactic(auto, unfolding(crate::specs::Nodes::called), using(crate::proofs::Telling::told_is))]
pub(crate) fn called(
    tables: &Tables,
    name: &DefinitionName,
    count: usize,
) -> Result<u32, SettleFault>
    ensures { Gives (nodes.called tables.now name.now count) result }
{
    Ok(text_names::called(tables, name, count)?)
}

/// A primitive with so many parts.
#[tactic(auto, unfolding(crate::specs::Nodes::operation), using(crate::proofs::Telling::told_is))]
pub(crate) fn operation(name: &Operation, count: usize) -> Result<Primitive, SettleFault>
    ensures { Gives (nodes.operation name.now count) result }
{
    Ok(text_names::operation(name, count)?)
}
