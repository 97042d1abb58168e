//! What builds lists by their productions. Written by tools/source_build.py.

ghost use Rattle.std.specs.Prelude.{◌≡◌, reverse, IfOk};
ghost use Rattle.source_grammar.specs.declared.part.Part.TheVariants as N;
ghost use Rattle.source_values.specs.Stacked.{CanBuild, IsBuilt};

use aen_base::NoMem;
use source_expressions::expressions::{after_open_0, after_open_1};
use source_expressions::lists::{
    list_field_patterns_0, list_field_patterns_1, list_fields_0, list_fields_1, list_initials_0,
    list_initials_1, list_names_0, list_names_1, list_parameters_0, list_parameters_1,
    list_rest_arguments_1, list_rest_field_patterns_1, list_rest_fields_1, list_rest_initials_1,
    list_rest_parameters_1, list_rest_patterns_1, list_rest_variants_1, list_variants_0,
    list_variants_1,
};
use source_grammar::Listed;
use source_items::fields::variant_body_1;
use source_items::generics::type_parameters_1;
use source_items::patterns::{after_pattern_open_0, after_pattern_open_1};
use source_items::types::{after_type_open_0, after_type_open_1};
use source_values::{Stack, Value};
use std::alloc::Global;

pub(crate) fn list_end(alloc: Global, listed: Listed, values: &mut Stack) -> Value
    requires { CanBuild (N.List listed) 0 (reverse values.old) }
    ensures { IsBuilt (N.List listed) 0 (reverse values.old) result (reverse values.new) }
{
    match listed {
        Listed::Names => list_names_0(alloc, values),
        Listed::TypeNames => list_names_0(alloc, values),
        Listed::Parameters => list_parameters_0(alloc, values),
        Listed::Fields => list_fields_0(alloc, values),
        Listed::TupleFields => after_type_open_0(alloc, values),
        Listed::Variants => list_variants_0(alloc, values),
        Listed::TypesInAngles => after_type_open_0(alloc, values),
        Listed::Types => after_type_open_0(alloc, values),
        Listed::Arguments => after_open_0(alloc, values),
        Listed::Initials => list_initials_0(alloc, values),
        Listed::Patterns => after_pattern_open_0(alloc, values),
        Listed::FieldPatterns => list_field_patterns_0(alloc, values),
    }
}

pub(crate) fn list_item(alloc: Global, listed: Listed, values: &mut Stack) -> Result<Value, NoMem>
    requires { CanBuild (N.List listed) 1 (reverse values.old) }
    ensures { IfOk result (λ it. IsBuilt (N.List listed) 1 (reverse values.old) it (reverse values.new)) }
{
    match listed {
        Listed::Names => list_names_1(alloc, values),
        Listed::TypeNames => list_names_1(alloc, values),
        Listed::Parameters => list_parameters_1(values),
        Listed::Fields => list_fields_1(values),
        Listed::TupleFields => after_type_open_1(values),
        Listed::Variants => list_variants_1(values),
        Listed::TypesInAngles => after_type_open_1(values),
        Listed::Types => after_type_open_1(values),
        Listed::Arguments => after_open_1(values),
        Listed::Initials => list_initials_1(values),
        Listed::Patterns => after_pattern_open_1(values),
        Listed::FieldPatterns => list_field_patterns_1(values),
    }
}

pub(crate) fn build_list(
    alloc: Global,
    listed: Listed,
    index: usize,
    values: &mut Stack,
) -> Result<Value, NoMem>
    requires { CanBuild (N.List listed) index (reverse values.old) }
    ensures { IfOk result (λ it. IsBuilt (N.List listed) index (reverse values.old) it (reverse values.new)) }
{
    match index {
        0 => Ok(list_end(alloc, listed, values)),
        1 => list_item(alloc, listed, values),
        _ => unreachable!(),
    }
}

pub(crate) fn list_more(listed: Listed, values: &mut Stack) -> Value
    requires { CanBuild (N.ListRest listed) 1 (reverse values.old) }
    ensures { IsBuilt (N.ListRest listed) 1 (reverse values.old) result (reverse values.new) }
{
    match listed {
        Listed::Names => type_parameters_1(values),
        Listed::TypeNames => type_parameters_1(values),
        Listed::Parameters => list_rest_parameters_1(values),
        Listed::Fields => list_rest_fields_1(values),
        Listed::TupleFields => variant_body_1(values),
        Listed::Variants => list_rest_variants_1(values),
        Listed::TypesInAngles => variant_body_1(values),
        Listed::Types => variant_body_1(values),
        Listed::Arguments => list_rest_arguments_1(values),
        Listed::Initials => list_rest_initials_1(values),
        Listed::Patterns => list_rest_patterns_1(values),
        Listed::FieldPatterns => list_rest_field_patterns_1(values),
    }
}

pub(crate) fn build_list_rest(
    alloc: Global,
    listed: Listed,
    index: usize,
    values: &mut Stack,
) -> Result<Value, NoMem>
    requires { CanBuild (N.ListRest listed) index (reverse values.old) }
    ensures { IfOk result (λ it. IsBuilt (N.ListRest listed) index (reverse values.old) it (reverse values.new)) }
{
    match index {
        0 => Ok(list_end(alloc, listed, values)),
        1 => Ok(list_more(listed, values)),
        _ => unreachable!(),
    }
}
