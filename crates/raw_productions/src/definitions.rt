//! What productions of definitions build. Written by tools/text_ways.py.

ghost use Rattle.std.specs.Prelude.{◌≡◌, reverse, IfOk};
ghost use Rattle.text_table.specs.declared.part.Part.TheVariants as N;
ghost use Rattle.raw_ways.specs.Built.{CanBuild, IsBuilt};

use aen_base::{Boxed, NoMem};
use raw_values::front_list::FrontList;
use raw_values::taking::code::take_code;
use raw_values::taking::declarations::{take_fields, take_names};
use raw_values::taking::definitions::{
    take_back_end, take_definition, take_definition_name, take_definitions, take_name_end,
    take_nothing,
};
use raw_values::taking::types::take_type;
use raw_values::taking::{drop_token, take_token};
use raw_values::{Stack, Value};
use raw_ways::definitions;
use std::alloc::Global;

/// `Definitions` of: nothing.
pub fn definitions_0(alloc: Global, values: &mut Stack) -> Value
    requires { CanBuild N.Definitions 0 (reverse values.old) }
    ensures { IsBuilt N.Definitions 0 (reverse values.old) result (reverse values.new) }
{
    let value = FrontList::new(alloc);
    Value::Definitions(value)
}

/// `Definitions` of: Definition Definitions. The only error is want of memory.
pub fn definitions_1(values: &mut Stack) -> Result<Value, NoMem>
    requires { CanBuild N.Definitions 1 (reverse values.old) }
    ensures { IfOk result (λ it. IsBuilt N.Definitions 1 (reverse values.old) it (reverse values.new)) }
{
    let more = take_definitions(values);
    let one = take_definition(values);
    let value = more.push(one)?;
    Ok(Value::Definitions(value))
}

/// `Definition` of: Def DefinitionName ImplicitParameters FuelParameter Parameters Colon Result Type Becomes FuelMatch Code. The only error is want of memory.
pub fn definition_0(alloc: Global, values: &mut Stack) -> Result<Value, NoMem>
    requires { CanBuild N.Definition 0 (reverse values.old) }
    ensures { IfOk result (λ it. IsBuilt N.Definition 0 (reverse values.old) it (reverse values.new)) }
{
    let code = take_code(values);
    take_nothing(values);
    drop_token(values);
    let output = take_type(values);
    drop_token(values);
    drop_token(values);
    let parameters = take_fields(values);
    take_nothing(values);
    let type_parameters = take_names(values);
    let name = take_definition_name(values);
    drop_token(values);
    let value = definitions::definition(name, type_parameters, parameters, output, code);
    Ok(Value::Definition(Boxed::new(alloc, value)?))
}

/// `FuelParameter` of: OpenBracket Fuel Colon Nat CloseBracket.
pub fn fuel_parameter_0(values: &mut Stack) -> Value
    requires { CanBuild N.FuelParameter 0 (reverse values.old) }
    ensures { IsBuilt N.FuelParameter 0 (reverse values.old) result (reverse values.new) }
{
    drop_token(values);
    drop_token(values);
    drop_token(values);
    drop_token(values);
    drop_token(values);
    Value::Nothing(())
}

/// `FuelMatch` of: Match Fuel With Bar Zero Gives OutOfFuel Bar Fuel Plus One Gives Do.
pub fn fuel_match_0(values: &mut Stack) -> Value
    requires { CanBuild N.FuelMatch 0 (reverse values.old) }
    ensures { IsBuilt N.FuelMatch 0 (reverse values.old) result (reverse values.new) }
{
    drop_token(values);
    drop_token(values);
    drop_token(values);
    drop_token(values);
    drop_token(values);
    drop_token(values);
    drop_token(values);
    drop_token(values);
    drop_token(values);
    drop_token(values);
    drop_token(values);
    drop_token(values);
    drop_token(values);
    Value::Nothing(())
}

/// `DefinitionName` of: Fn Dot Name NameEnd. The only error is want of memory.
pub fn definition_name_0(alloc: Global, values: &mut Stack) -> Result<Value, NoMem>
    requires { CanBuild N.DefinitionName 0 (reverse values.old) }
    ensures { IfOk result (λ it. IsBuilt N.DefinitionName 0 (reverse values.old) it (reverse values.new)) }
{
    let end = take_name_end(values);
    let name = take_token(values);
    drop_token(values);
    drop_token(values);
    let value = definitions::definition_name(name, end);
    Ok(Value::DefinitionName(Boxed::new(alloc, value)?))
}

/// `NameEnd` of: nothing. The only error is want of memory.
pub fn name_end_0(alloc: Global, values: &mut Stack) -> Result<Value, NoMem>
    requires { CanBuild N.NameEnd 0 (reverse values.old) }
    ensures { IfOk result (λ it. IsBuilt N.NameEnd 0 (reverse values.old) it (reverse values.new)) }
{
    let value = definitions::no_end();
    Ok(Value::NameEnd(Boxed::new(alloc, value)?))
}

/// `NameEnd` of: Dot NamePart. The only error is want of memory.
pub fn name_end_1(alloc: Global, values: &mut Stack) -> Result<Value, NoMem>
    requires { CanBuild N.NameEnd 1 (reverse values.old) }
    ensures { IfOk result (λ it. IsBuilt N.NameEnd 1 (reverse values.old) it (reverse values.new)) }
{
    let part = take_name_end(values);
    drop_token(values);
    Ok(Value::NameEnd(Boxed::new(alloc, part)?))
}

/// `NamePart` of: LoopNumber BackEnd. The only error is want of memory.
pub fn name_part_0(alloc: Global, values: &mut Stack) -> Result<Value, NoMem>
    requires { CanBuild N.NamePart 0 (reverse values.old) }
    ensures { IfOk result (λ it. IsBuilt N.NamePart 0 (reverse values.old) it (reverse values.new)) }
{
    let back = take_back_end(values);
    let turn = take_token(values);
    let value = definitions::loop_end(turn, back);
    Ok(Value::NameEnd(Boxed::new(alloc, value)?))
}

/// `NamePart` of: Back. The only error is want of memory.
pub fn name_part_1(alloc: Global, values: &mut Stack) -> Result<Value, NoMem>
    requires { CanBuild N.NamePart 1 (reverse values.old) }
    ensures { IfOk result (λ it. IsBuilt N.NamePart 1 (reverse values.old) it (reverse values.new)) }
{
    let back = take_token(values);
    let value = definitions::back_end(back);
    Ok(Value::NameEnd(Boxed::new(alloc, value)?))
}

/// `BackEnd` of: nothing. The only error is want of memory.
pub fn back_end_0(alloc: Global, values: &mut Stack) -> Result<Value, NoMem>
    requires { CanBuild N.BackEnd 0 (reverse values.old) }
    ensures { IfOk result (λ it. IsBuilt N.BackEnd 0 (reverse values.old) it (reverse values.new)) }
{
    let value = definitions::no_back();
    Ok(Value::BackEnd(Boxed::new(alloc, value)?))
}

/// `BackEnd` of: Dot Back. The only error is want of memory.
pub fn back_end_1(alloc: Global, values: &mut Stack) -> Result<Value, NoMem>
    requires { CanBuild N.BackEnd 1 (reverse values.old) }
    ensures { IfOk result (λ it. IsBuilt N.BackEnd 1 (reverse values.old) it (reverse values.new)) }
{
    let back = take_token(values);
    drop_token(values);
    let value = definitions::some_back(back);
    Ok(Value::BackEnd(Boxed::new(alloc, value)?))
}
