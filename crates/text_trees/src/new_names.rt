//! The rules on names that are declared, each on one node.

ghost use Rattle.std.specs.Prelude.{◌≡◌, true};
ghost use Rattle.raw_meaning.specs.Outlines.{is_in};
ghost use Rattle.text_trees.specs.Nodes as nodes;
ghost use Rattle.text_trees.specs.Told.{Gives};

use crate::SettleFault;
use aen_base::Name;
use pure_ast::DefKind;
use raw_ast::{DefinitionName, Spelling};
use text_names::{Kinds, Names, Tables};

/// A parameter is the variable of its place.
#[tactic(auto, unfolding(crate::specs::Nodes::parameter), using(crate::proofs::Telling::kept_is))]
pub(crate) fn parameter(place: usize, name: &Spelling) -> Result<(), SettleFault>
    ensures { Gives (nodes.parameter place name.now) result }
{
    Ok(text_names::parameter(place, name)?)
}

/// A type after these types and type parameters.
#[tactic(auto, unfolding(crate::specs::Nodes::new_type), using(crate::proofs::Telling::kept_is))]
pub(crate) fn new_type(
    types: &Names,
    parameters: &Names,
    name: &Spelling,
) -> Result<(), SettleFault>
    ensures { Gives (nodes.new_type types.now parameters.now name.now) result }
{
    Ok(text_names::new_type(types, parameters, name)?)
}

/// A type parameter after these types and type parameters.
#[tactic(auto, unfolding(crate::specs::Nodes::new_parameter), using(crate::proofs::Telling::kept_is))]
pub(crate) fn new_parameter(
    types: &Names,
    parameters: &Names,
    name: &Spelling,
) -> Result<(), SettleFault>
    ensures { Gives (nodes.new_parameter types.now parameters.now name.now) result }
{
    Ok(text_names::new_parameter(types, parameters, name)?)
}

/// A variant or a field after these.
#[tactic(auto, unfolding(crate::specs::Nodes::new_member), using(crate::proofs::Telling::kept_is))]
pub(crate) fn new_member(members: &Names, name: &Spelling) -> Result<(), SettleFault>
    ensures { Gives (nodes.new_member members.now name.now) result }
{
    Ok(text_names::new_member(members, name)?)
}

/// The end of a variant of a type of this name with these type parameters.
#[tactic(auto, unfolding(crate::specs::Nodes::variant_end), using(crate::proofs::Telling::kept_is))]
pub(crate) fn variant_end(
    ty: &Name,
    parameters: &Names,
    end: &Spelling,
    names: &[Spelling],
) -> Result<(), SettleFault>
    ensures { Gives (nodes.variant_end ty.now parameters.now end.now names.now) result }
{
    Ok(text_names::variant_end(ty, parameters, end, names)?)
}

/// What a definition of this name is for, after definitions of these kinds.
#[tactic(auto, unfolding(crate::specs::Nodes::new_definition), using(crate::proofs::Telling::told_is))]
pub(crate) fn new_definition(
    tables: &Tables,
    kinds: &Kinds,
    name: &DefinitionName,
) -> Result<DefKind, SettleFault>
    requires { is_in name.now.function.text tables.now.functions ≡ true }
    ensures { Gives (nodes.new_definition tables.now.functions kinds.now name.now) result }
{
    Ok(text_names::new_definition(tables, kinds, name)?)
}
