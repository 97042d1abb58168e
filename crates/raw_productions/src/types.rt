//! What productions of types build. Written by tools/text_ways.py.

ghost use Rattle.std.specs.Prelude.{◌≡◌, reverse, IfOk};
ghost use Rattle.text_table.specs.declared.part.Part.TheVariants as N;
ghost use Rattle.raw_ways.specs.Built.{CanBuild, IsBuilt};

use aen_base::{Boxed, NoMem};
use raw_values::front_list::FrontList;
use raw_values::taking::types::{take_after_type_name, take_type, take_types};
use raw_values::taking::{drop_token, take_token};
use raw_values::{Stack, Value};
use raw_ways::types;
use std::alloc::Global;

/// `Type` of: OtherType. The only error is want of memory.
pub fn type_0(alloc: Global, values: &mut Stack) -> Result<Value, NoMem>
    requires { CanBuild N.Type 0 (reverse values.old) }
    ensures { IfOk result (λ it. IsBuilt N.Type 0 (reverse values.old) it (reverse values.new)) }
{
    let ty = take_type(values);
    Ok(Value::Type(Boxed::new(alloc, ty)?))
}

/// `Type` of: Name. The only error is want of memory.
pub fn type_1(alloc: Global, values: &mut Stack) -> Result<Value, NoMem>
    requires { CanBuild N.Type 1 (reverse values.old) }
    ensures { IfOk result (λ it. IsBuilt N.Type 1 (reverse values.old) it (reverse values.new)) }
{
    let name = take_token(values);
    let value = types::named_alone(alloc, name);
    Ok(Value::Type(Boxed::new(alloc, value)?))
}

/// `OtherType` of: Int. The only error is want of memory.
pub fn other_type_0(alloc: Global, values: &mut Stack) -> Result<Value, NoMem>
    requires { CanBuild N.OtherType 0 (reverse values.old) }
    ensures { IfOk result (λ it. IsBuilt N.OtherType 0 (reverse values.old) it (reverse values.new)) }
{
    let word = take_token(values);
    let value = types::int_type(word);
    Ok(Value::Type(Boxed::new(alloc, value)?))
}

/// `OtherType` of: Bool. The only error is want of memory.
pub fn other_type_1(alloc: Global, values: &mut Stack) -> Result<Value, NoMem>
    requires { CanBuild N.OtherType 1 (reverse values.old) }
    ensures { IfOk result (λ it. IsBuilt N.OtherType 1 (reverse values.old) it (reverse values.new)) }
{
    drop_token(values);
    let value = types::bool_type();
    Ok(Value::Type(Boxed::new(alloc, value)?))
}

/// `OtherType` of: Unit. The only error is want of memory.
pub fn other_type_2(alloc: Global, values: &mut Stack) -> Result<Value, NoMem>
    requires { CanBuild N.OtherType 2 (reverse values.old) }
    ensures { IfOk result (λ it. IsBuilt N.OtherType 2 (reverse values.old) it (reverse values.new)) }
{
    drop_token(values);
    let value = types::unit_type();
    Ok(Value::Type(Boxed::new(alloc, value)?))
}

/// `OtherType` of: OpenBracket TypeInBrackets. The only error is want of memory.
pub fn other_type_3(alloc: Global, values: &mut Stack) -> Result<Value, NoMem>
    requires { CanBuild N.OtherType 3 (reverse values.old) }
    ensures { IfOk result (λ it. IsBuilt N.OtherType 3 (reverse values.old) it (reverse values.new)) }
{
    let ty = take_type(values);
    drop_token(values);
    Ok(Value::Type(Boxed::new(alloc, ty)?))
}

/// `TypeInBrackets` of: OtherType Times Type Factors. The only error is want of memory.
pub fn type_in_brackets_0(alloc: Global, values: &mut Stack) -> Result<Value, NoMem>
    requires { CanBuild N.TypeInBrackets 0 (reverse values.old) }
    ensures { IfOk result (λ it. IsBuilt N.TypeInBrackets 0 (reverse values.old) it (reverse values.new)) }
{
    let more = take_types(values);
    let second = take_type(values);
    drop_token(values);
    let ty = take_type(values);
    let value = types::product_type(ty, second, more)?;
    Ok(Value::Type(Boxed::new(alloc, value)?))
}

/// `TypeInBrackets` of: Exit Type Type CloseBracket. The only error is want of memory.
pub fn type_in_brackets_1(alloc: Global, values: &mut Stack) -> Result<Value, NoMem>
    requires { CanBuild N.TypeInBrackets 1 (reverse values.old) }
    ensures { IfOk result (λ it. IsBuilt N.TypeInBrackets 1 (reverse values.old) it (reverse values.new)) }
{
    drop_token(values);
    let returned = take_type(values);
    let broken = take_type(values);
    drop_token(values);
    let value = types::exit_type(alloc, broken, returned)?;
    Ok(Value::Type(Boxed::new(alloc, value)?))
}

/// `TypeInBrackets` of: Name AfterTypeName. The only error is want of memory.
pub fn type_in_brackets_2(alloc: Global, values: &mut Stack) -> Result<Value, NoMem>
    requires { CanBuild N.TypeInBrackets 2 (reverse values.old) }
    ensures { IfOk result (λ it. IsBuilt N.TypeInBrackets 2 (reverse values.old) it (reverse values.new)) }
{
    let after = take_after_type_name(values);
    let name = take_token(values);
    let value = types::after_name(alloc, name, after)?;
    Ok(Value::Type(Boxed::new(alloc, value)?))
}

/// `AfterTypeName` of: Type TypeArguments. The only error is want of memory.
pub fn after_type_name_0(values: &mut Stack) -> Result<Value, NoMem>
    requires { CanBuild N.AfterTypeName 0 (reverse values.old) }
    ensures { IfOk result (λ it. IsBuilt N.AfterTypeName 0 (reverse values.old) it (reverse values.new)) }
{
    let more = take_types(values);
    let ty = take_type(values);
    let value = types::type_arguments(more.push(ty)?);
    Ok(Value::AfterTypeName(value))
}

/// `AfterTypeName` of: Times Type Factors. The only error is want of memory.
pub fn after_type_name_1(values: &mut Stack) -> Result<Value, NoMem>
    requires { CanBuild N.AfterTypeName 1 (reverse values.old) }
    ensures { IfOk result (λ it. IsBuilt N.AfterTypeName 1 (reverse values.old) it (reverse values.new)) }
{
    let more = take_types(values);
    let ty = take_type(values);
    drop_token(values);
    let value = types::more_factors(more.push(ty)?);
    Ok(Value::AfterTypeName(value))
}

/// `TypeArguments` of: CloseBracket.
pub fn type_arguments_0(alloc: Global, values: &mut Stack) -> Value
    requires { CanBuild N.TypeArguments 0 (reverse values.old) }
    ensures { IsBuilt N.TypeArguments 0 (reverse values.old) result (reverse values.new) }
{
    drop_token(values);
    let value = FrontList::new(alloc);
    Value::Types(value)
}

/// `TypeArguments` of: Type TypeArguments. The only error is want of memory.
pub fn type_arguments_1(values: &mut Stack) -> Result<Value, NoMem>
    requires { CanBuild N.TypeArguments 1 (reverse values.old) }
    ensures { IfOk result (λ it. IsBuilt N.TypeArguments 1 (reverse values.old) it (reverse values.new)) }
{
    let more = take_types(values);
    let ty = take_type(values);
    let value = more.push(ty)?;
    Ok(Value::Types(value))
}

/// `Factors` of: Times Type Factors. The only error is want of memory.
pub fn factors_1(values: &mut Stack) -> Result<Value, NoMem>
    requires { CanBuild N.Factors 1 (reverse values.old) }
    ensures { IfOk result (λ it. IsBuilt N.Factors 1 (reverse values.old) it (reverse values.new)) }
{
    let more = take_types(values);
    let ty = take_type(values);
    drop_token(values);
    let value = more.push(ty)?;
    Ok(Value::Types(value))
}
