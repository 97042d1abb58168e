//! What productions of primitives build. Written by tools/text_ways.py.

ghost use Rattle.std.specs.Prelude.{◌≡◌, reverse, IfOk};
ghost use Rattle.text_table.specs.declared.part.Part.TheVariants as N;
ghost use Rattle.raw_ways.specs.Built.{CanBuild, IsBuilt};

use raw_values::taking::primitives::{take_operation, take_operation_end};
use raw_values::taking::{drop_token, take_token};
use raw_values::{Stack, Value};
use raw_ways::primitives;

/// `Primitive` of: Int Dot IntOperator.
pub fn primitive_0(values: &mut Stack) -> Value
    requires { CanBuild N.Primitive 0 (reverse values.old) }
    ensures { IsBuilt N.Primitive 0 (reverse values.old) result (reverse values.new) }
{
    let operator = take_token(values);
    drop_token(values);
    let ty = take_token(values);
    let value = primitives::int_operation(ty, operator);
    Value::Operation(value)
}

/// `Primitive` of: Bool Dot BoolOperator.
pub fn primitive_1(values: &mut Stack) -> Value
    requires { CanBuild N.Primitive 1 (reverse values.old) }
    ensures { IsBuilt N.Primitive 1 (reverse values.old) result (reverse values.new) }
{
    let operator = take_token(values);
    drop_token(values);
    drop_token(values);
    let value = primitives::bool_operation(operator);
    Value::Operation(value)
}

/// `Primitive` of: Cast Dot CastFrom.
pub fn primitive_2(values: &mut Stack) -> Value
    requires { CanBuild N.Primitive 2 (reverse values.old) }
    ensures { IsBuilt N.Primitive 2 (reverse values.old) result (reverse values.new) }
{
    let operation = take_operation(values);
    drop_token(values);
    drop_token(values);
    Value::Operation(operation)
}

/// `Primitive` of: Box Dot New.
pub fn primitive_3(values: &mut Stack) -> Value
    requires { CanBuild N.Primitive 3 (reverse values.old) }
    ensures { IsBuilt N.Primitive 3 (reverse values.old) result (reverse values.new) }
{
    let word = take_token(values);
    drop_token(values);
    drop_token(values);
    let value = primitives::box_new(word);
    Value::Operation(value)
}

/// `CastFrom` of: Int Dot Int.
pub fn cast_from_0(values: &mut Stack) -> Value
    requires { CanBuild N.CastFrom 0 (reverse values.old) }
    ensures { IsBuilt N.CastFrom 0 (reverse values.old) result (reverse values.new) }
{
    let to = take_token(values);
    drop_token(values);
    let from = take_token(values);
    let value = primitives::cast_operation(from, to);
    Value::Operation(value)
}

/// `CastFrom` of: Bool Dot Int.
pub fn cast_from_1(values: &mut Stack) -> Value
    requires { CanBuild N.CastFrom 1 (reverse values.old) }
    ensures { IsBuilt N.CastFrom 1 (reverse values.old) result (reverse values.new) }
{
    let to = take_token(values);
    drop_token(values);
    drop_token(values);
    let value = primitives::bool_cast(to);
    Value::Operation(value)
}

/// `InMemory` of: Replace ReplaceEnd.
pub fn in_memory_0(values: &mut Stack) -> Value
    requires { CanBuild N.InMemory 0 (reverse values.old) }
    ensures { IsBuilt N.InMemory 0 (reverse values.old) result (reverse values.new) }
{
    let end = take_operation_end(values);
    let word = take_token(values);
    let value = primitives::replace_operation(word, end);
    Value::Operation(value)
}

/// `InMemory` of: Swap SwapEnd.
pub fn in_memory_1(values: &mut Stack) -> Value
    requires { CanBuild N.InMemory 1 (reverse values.old) }
    ensures { IsBuilt N.InMemory 1 (reverse values.old) result (reverse values.new) }
{
    let end = take_operation_end(values);
    let word = take_token(values);
    let value = primitives::swap_operation(word, end);
    Value::Operation(value)
}

/// `ReplaceEnd` of: nothing.
pub fn replace_end_0(values: &mut Stack) -> Value
    requires { CanBuild N.ReplaceEnd 0 (reverse values.old) }
    ensures { IsBuilt N.ReplaceEnd 0 (reverse values.old) result (reverse values.new) }
{
    let value = primitives::no_operation();
    Value::OperationEnd(value)
}

/// `ReplaceEnd` of: Dot BackZero.
pub fn replace_end_1(values: &mut Stack) -> Value
    requires { CanBuild N.ReplaceEnd 1 (reverse values.old) }
    ensures { IsBuilt N.ReplaceEnd 1 (reverse values.old) result (reverse values.new) }
{
    let word = take_token(values);
    drop_token(values);
    let value = primitives::some_operation(primitives::replace_back(word));
    Value::OperationEnd(value)
}

/// `SwapEnd` of: Dot SwapRegion.
pub fn swap_end_1(values: &mut Stack) -> Value
    requires { CanBuild N.SwapEnd 1 (reverse values.old) }
    ensures { IsBuilt N.SwapEnd 1 (reverse values.old) result (reverse values.new) }
{
    let operation = take_operation(values);
    drop_token(values);
    let value = primitives::some_operation(operation);
    Value::OperationEnd(value)
}

/// `SwapRegion` of: BackZero.
pub fn swap_region_0(values: &mut Stack) -> Value
    requires { CanBuild N.SwapRegion 0 (reverse values.old) }
    ensures { IsBuilt N.SwapRegion 0 (reverse values.old) result (reverse values.new) }
{
    let word = take_token(values);
    let value = primitives::swap_back0(word);
    Value::Operation(value)
}

/// `SwapRegion` of: BackOne.
pub fn swap_region_1(values: &mut Stack) -> Value
    requires { CanBuild N.SwapRegion 1 (reverse values.old) }
    ensures { IsBuilt N.SwapRegion 1 (reverse values.old) result (reverse values.new) }
{
    let word = take_token(values);
    let value = primitives::swap_back1(word);
    Value::Operation(value)
}
