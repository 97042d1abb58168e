//! What builds a part by its production. Written by tools/text_ways.py.

mod atoms;
mod code;
mod declarations;
mod definitions;
mod primitives;
mod types;

ghost use Rattle.std.specs.Prelude.{◌≡◌, reverse, IfOk};
ghost use Rattle.raw_ways.specs.Built.{CanBuild, IsBuilt};

use aen_base::NoMem;
use raw_values::{Stack, Value};
use std::alloc::Global;
use text_table::Part;

/// Builds the value of a part by its production in place `index`, from 0: takes the values of its symbols off, the
/// newest first. The only error is want of memory.
pub(crate) fn build_part(
    alloc: Global,
    part: Part,
    index: usize,
    values: &mut Stack,
) -> Result<Value, NoMem>
    requires { CanBuild part index (reverse values.old) }
    ensures { IfOk result (λ it. IsBuilt part index (reverse values.old) it (reverse values.new)) }
{
    match part {
        Part::Text => declarations::build_text(alloc, index, values),
        Part::Types => declarations::build_types(alloc, index, values),
        Part::Declaration => declarations::build_declaration(alloc, index, values),
        Part::TypeParameters => declarations::build_type_parameters(alloc, index, values),
        Part::Variants => declarations::build_variants(alloc, index, values),
        Part::VariantType => declarations::build_variant_type(alloc, index, values),
        Part::VariantEnd => declarations::build_variant_end(alloc, index, values),
        Part::Names => declarations::build_names(alloc, index, values),
        Part::Fields => declarations::build_fields(alloc, index, values),
        Part::Type => types::build_type(alloc, index, values),
        Part::OtherType => types::build_other_type(alloc, index, values),
        Part::TypeInBrackets => types::build_type_in_brackets(alloc, index, values),
        Part::AfterTypeName => types::build_after_type_name(index, values),
        Part::TypeArguments => types::build_type_arguments(alloc, index, values),
        Part::Factors => types::build_factors(alloc, index, values),
        Part::Definitions => definitions::build_definitions(alloc, index, values),
        Part::Definition => definitions::build_definition(alloc, index, values),
        Part::FuelParameter => definitions::build_fuel_parameter(index, values),
        Part::FuelMatch => definitions::build_fuel_match(index, values),
        Part::DefinitionName => definitions::build_definition_name(alloc, index, values),
        Part::NameEnd => definitions::build_name_end(alloc, index, values),
        Part::NamePart => definitions::build_name_part(alloc, index, values),
        Part::BackEnd => definitions::build_back_end(alloc, index, values),
        Part::ImplicitParameters => definitions::build_implicit_parameters(alloc, index, values),
        Part::Parameters => definitions::build_parameters(alloc, index, values),
        Part::Code => code::build_code(alloc, index, values),
        Part::Bound => code::build_bound(alloc, index, values),
        Part::Arms => code::build_arms(alloc, index, values),
        Part::Pattern => code::build_pattern(alloc, index, values),
        Part::PatternParts => code::build_pattern_parts(alloc, index, values),
        Part::Variables => code::build_variables(alloc, index, values),
        Part::Computation => code::build_computation(alloc, index, values),
        Part::Primitive => primitives::build_primitive(index, values),
        Part::CastFrom => primitives::build_cast_from(index, values),
        Part::InMemory => primitives::build_in_memory(index, values),
        Part::ReplaceEnd => primitives::build_replace_end(index, values),
        Part::SwapEnd => primitives::build_swap_end(index, values),
        Part::SwapRegion => primitives::build_swap_region(index, values),
        Part::Atom => atoms::build_atom(alloc, index, values),
        Part::PlainAtom => atoms::build_plain_atom(alloc, index, values),
        Part::Constructor => atoms::build_constructor(alloc, index, values),
        Part::ExitVariant => atoms::build_exit_variant(alloc, index, values),
        Part::AtomInBrackets => atoms::build_atom_in_brackets(alloc, index, values),
        Part::AfterConstructor => atoms::build_after_constructor(index, values),
        Part::TupleParts => atoms::build_tuple_parts(alloc, index, values),
        Part::Arguments => atoms::build_arguments(alloc, index, values),
        Part::Atoms => atoms::build_atoms(alloc, index, values),
    }
}
