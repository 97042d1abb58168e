//! What builds a part by its production. Written by tools/source_build.py.

mod blocks;
mod expressions;
mod items;
mod lists;
mod paths;
mod patterns;
mod types;

ghost use Rattle.std.specs.Prelude.{◌≡◌, reverse, IfOk};
ghost use Rattle.source_values.specs.Stacked.{CanBuild, IsBuilt};

use aen_base::NoMem;
use source_grammar::Part;
use source_values::{Stack, Value};
use std::alloc::Global;

/// Builds the value of a part by its production in place `index`, from 0: takes the values of its symbols off, the
/// newest first. The only error is want of memory.
pub(crate) fn build_part(
    alloc: Global,
    part: Part,
    index: usize,
    values: &mut Stack,
) -> Result<Value, NoMem>
    requires { CanBuild part index (reverse values.old) }
    ensures { IfOk result (λ it. IsBuilt part index (reverse values.old) it (reverse values.new)) }
{
    match part {
        Part::Program => items::build_program(alloc, index, values),
        Part::AfterHash => items::build_after_hash(index, values),
        Part::Items => items::build_items(alloc, index, values),
        Part::Attribute => items::build_attribute(index, values),
        Part::Attributed => items::build_attributed(alloc, index, values),
        Part::Item => items::build_item(alloc, index, values),
        Part::Declaration => items::build_declaration(alloc, index, values),
        Part::Generics => items::build_generics(alloc, index, values),
        Part::Lifetimes => items::build_lifetimes(alloc, index, values),
        Part::MoreLifetimes => items::build_more_lifetimes(alloc, index, values),
        Part::TypeParameters => items::build_type_parameters(alloc, index, values),
        Part::Parameter => items::build_parameter(alloc, index, values),
        Part::Result => items::build_result(index, values),
        Part::StructBody => items::build_struct_body(alloc, index, values),
        Part::Field => items::build_field(alloc, index, values),
        Part::TupleField => items::build_tuple_field(index, values),
        Part::Variant => items::build_variant(alloc, index, values),
        Part::VariantBody => items::build_variant_body(alloc, index, values),
        Part::List(listed) => lists::build_list(alloc, listed, index, values),
        Part::ListRest(listed) => lists::build_list_rest(alloc, listed, index, values),
        Part::Type => types::build_type(alloc, index, values),
        Part::BorrowLifetime => types::build_borrow_lifetime(alloc, index, values),
        Part::BorrowMut => types::build_borrow_mut(index, values),
        Part::TypeArguments => types::build_type_arguments(alloc, index, values),
        Part::AfterTypeOpen => types::build_after_type_open(alloc, index, values),
        Part::AfterType => types::build_after_type(alloc, index, values),
        Part::Block => blocks::build_block(alloc, index, values),
        Part::Statements => blocks::build_statements(alloc, index, values),
        Part::MoreStatements => blocks::build_more_statements(alloc, index, values),
        Part::AfterBlockLike => blocks::build_after_block_like(alloc, index, values),
        Part::AfterExpression => blocks::build_after_expression(alloc, index, values),
        Part::LetType => blocks::build_let_type(index, values),
        Part::LetValue => blocks::build_let_value(index, values),
        Part::BlockLike => blocks::build_block_like(alloc, index, values),
        Part::AfterWhile => blocks::build_after_while(alloc, index, values),
        Part::If => blocks::build_if(alloc, index, values),
        Part::AfterIf => blocks::build_after_if(alloc, index, values),
        Part::Else => blocks::build_else(index, values),
        Part::AfterElse => blocks::build_after_else(alloc, index, values),
        Part::Arms => blocks::build_arms(alloc, index, values),
        Part::ArmBody => blocks::build_arm_body(index, values),
        Part::AfterBlockArm => blocks::build_after_block_arm(alloc, index, values),
        Part::AfterArm => blocks::build_after_arm(alloc, index, values),
        Part::Expression(context) => expressions::build_expression(alloc, context, index, values),
        Part::LeadingExpression => expressions::build_leading_expression(alloc, index, values),
        Part::Operand => expressions::build_operand(index, values),
        Part::MoreAssign(context) => expressions::build_more_assign(alloc, context, index, values),
        Part::Level(level, context) => expressions::build_level(
            alloc, level, context, index, values,
        ),
        Part::LeadingLevel(level) => expressions::build_leading_level(alloc, level, index, values),
        Part::More(level, context) => expressions::build_more(alloc, level, context, index, values),
        Part::Cast(context) => expressions::build_cast(alloc, context, index, values),
        Part::LeadingCast => expressions::build_leading_cast(alloc, index, values),
        Part::MoreCasts => expressions::build_more_casts(alloc, index, values),
        Part::Unary(context) => expressions::build_unary(alloc, context, index, values),
        Part::LeadingUnary => expressions::build_leading_unary(alloc, index, values),
        Part::Borrowed(context) => expressions::build_borrowed(context, index, values),
        Part::Postfix => expressions::build_postfix(alloc, index, values),
        Part::FieldName => expressions::build_field_name(alloc, index, values),
        Part::Core(context) => expressions::build_core(alloc, context, index, values),
        Part::AfterOpen => expressions::build_after_open(alloc, index, values),
        Part::AfterFirst => expressions::build_after_first(alloc, index, values),
        Part::Initial => expressions::build_initial(alloc, index, values),
        Part::InitialValue => expressions::build_initial_value(index, values),
        Part::AfterName(context) => paths::build_after_name(context, index, values),
        Part::AfterPanic(context) => paths::build_after_panic(context, index, values),
        Part::AfterAssert(context) => paths::build_after_assert(context, index, values),
        Part::AfterMem(context) => paths::build_after_mem(context, index, values),
        Part::AfterStd(context) => paths::build_after_std(context, index, values),
        Part::NameMore(context) => paths::build_name_more(context, index, values),
        Part::Applied(context) => paths::build_applied(context, index, values),
        Part::AfterColons(context) => paths::build_after_colons(alloc, context, index, values),
        Part::AfterMemColons(context) => paths::build_after_mem_colons(
            alloc, context, index, values,
        ),
        Part::AfterStdColons(context) => paths::build_after_std_colons(
            alloc, context, index, values,
        ),
        Part::AfterStdMem => paths::build_after_std_mem(index, values),
        Part::AfterStdMemColons => paths::build_after_std_mem_colons(index, values),
        Part::AfterTurbo(context) => paths::build_after_turbo(alloc, context, index, values),
        Part::AfterPath => paths::build_after_path(index, values),
        Part::Message => paths::build_message(index, values),
        Part::AssertEnd => paths::build_assert_end(index, values),
        Part::AfterAssertComma => paths::build_after_assert_comma(index, values),
        Part::AfterMessage => paths::build_after_message(index, values),
        Part::Pattern => patterns::build_pattern(alloc, index, values),
        Part::AfterPatternOpen => patterns::build_after_pattern_open(alloc, index, values),
        Part::AfterPattern => patterns::build_after_pattern(alloc, index, values),
        Part::FieldPattern => patterns::build_field_pattern(alloc, index, values),
        Part::FieldPatternValue => patterns::build_field_pattern_value(index, values),
        Part::PatternParts => patterns::build_pattern_parts(alloc, index, values),
        Part::GivenParts => patterns::build_given_parts(index, values),
        Part::AfterPatternName => patterns::build_after_pattern_name(index, values),
        Part::AfterPatternMem => patterns::build_after_pattern_mem(index, values),
        Part::AfterPatternStd => patterns::build_after_pattern_std(index, values),
        Part::AfterPatternColons => patterns::build_after_pattern_colons(alloc, index, values),
        Part::AfterPatternMemColons => patterns::build_after_pattern_mem_colons(
            alloc, index, values,
        ),
        Part::AfterPatternStdColons => patterns::build_after_pattern_std_colons(
            alloc, index, values,
        ),
        Part::AfterPatternStdMem => patterns::build_after_pattern_std_mem(alloc, index, values),
    }
}
