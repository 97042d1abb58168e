//! What productions of code build. Written by tools/text_ways.py.

ghost use Rattle.std.specs.Prelude.{◌≡◌, reverse, IfOk};
ghost use Rattle.text_table.specs.declared.part.Part.TheVariants as N;
ghost use Rattle.raw_ways.specs.Built.{CanBuild, IsBuilt};

use aen_base::{Boxed, NoMem};
use raw_values::front_list::FrontList;
use raw_values::taking::atoms::{take_atom, take_atoms, take_constructor};
use raw_values::taking::code::{take_arms, take_bound, take_code, take_computation, take_pattern};
use raw_values::taking::declarations::take_names;
use raw_values::taking::definitions::take_definition_name;
use raw_values::taking::primitives::take_operation;
use raw_values::taking::{drop_token, take_token};
use raw_values::{Stack, Value};
use raw_ways::{code, spelled};
use std::alloc::Global;

/// `Code` of: Let Variable Bound. The only error is want of memory.
pub fn code_0(alloc: Global, values: &mut Stack) -> Result<Value, NoMem>
    requires { CanBuild N.Code 0 (reverse values.old) }
    ensures { IfOk result (λ it. IsBuilt N.Code 0 (reverse values.old) it (reverse values.new)) }
{
    let bound = take_bound(values);
    let variable = take_token(values);
    drop_token(values);
    let value = code::let_code(alloc, variable, bound)?;
    Ok(Value::Code(Boxed::new(alloc, value)?))
}

/// `Code` of: OpenBracket Match Atom With Arms. The only error is want of memory.
pub fn code_1(alloc: Global, values: &mut Stack) -> Result<Value, NoMem>
    requires { CanBuild N.Code 1 (reverse values.old) }
    ensures { IfOk result (λ it. IsBuilt N.Code 1 (reverse values.old) it (reverse values.new)) }
{
    let arms = take_arms(values);
    drop_token(values);
    let atom = take_atom(values);
    drop_token(values);
    drop_token(values);
    let value = code::match_code(atom, arms);
    Ok(Value::Code(Boxed::new(alloc, value)?))
}

/// `Code` of: Computation. The only error is want of memory.
pub fn code_2(alloc: Global, values: &mut Stack) -> Result<Value, NoMem>
    requires { CanBuild N.Code 2 (reverse values.old) }
    ensures { IfOk result (λ it. IsBuilt N.Code 2 (reverse values.old) it (reverse values.new)) }
{
    let computation = take_computation(values);
    let value = code::last_code(computation);
    Ok(Value::Code(Boxed::new(alloc, value)?))
}

/// `Bound` of: From Computation Semicolon Code. The only error is want of memory.
pub fn bound_0(alloc: Global, values: &mut Stack) -> Result<Value, NoMem>
    requires { CanBuild N.Bound 0 (reverse values.old) }
    ensures { IfOk result (λ it. IsBuilt N.Bound 0 (reverse values.old) it (reverse values.new)) }
{
    let code = take_code(values);
    drop_token(values);
    let computation = take_computation(values);
    drop_token(values);
    let value = code::bound_computation(computation, code);
    Ok(Value::Bound(Boxed::new(alloc, value)?))
}

/// `Bound` of: Becomes Atom Semicolon Code. The only error is want of memory.
pub fn bound_1(alloc: Global, values: &mut Stack) -> Result<Value, NoMem>
    requires { CanBuild N.Bound 1 (reverse values.old) }
    ensures { IfOk result (λ it. IsBuilt N.Bound 1 (reverse values.old) it (reverse values.new)) }
{
    let code = take_code(values);
    drop_token(values);
    let atom = take_atom(values);
    drop_token(values);
    let value = code::bound_atom(atom, code);
    Ok(Value::Bound(Boxed::new(alloc, value)?))
}

/// `Arms` of: CloseBracket.
pub fn arms_0(alloc: Global, values: &mut Stack) -> Value
    requires { CanBuild N.Arms 0 (reverse values.old) }
    ensures { IsBuilt N.Arms 0 (reverse values.old) result (reverse values.new) }
{
    drop_token(values);
    let value = FrontList::new(alloc);
    Value::Arms(value)
}

/// `Arms` of: Bar Pattern Gives Do Code Arms. The only error is want of memory.
pub fn arms_1(values: &mut Stack) -> Result<Value, NoMem>
    requires { CanBuild N.Arms 1 (reverse values.old) }
    ensures { IfOk result (λ it. IsBuilt N.Arms 1 (reverse values.old) it (reverse values.new)) }
{
    let more = take_arms(values);
    let code = take_code(values);
    drop_token(values);
    drop_token(values);
    let pattern = take_pattern(values);
    drop_token(values);
    let value = more.push(code::arm(pattern, code))?;
    Ok(Value::Arms(value))
}

/// `Pattern` of: Truth. The only error is want of memory.
pub fn pattern_0(alloc: Global, values: &mut Stack) -> Result<Value, NoMem>
    requires { CanBuild N.Pattern 0 (reverse values.old) }
    ensures { IfOk result (λ it. IsBuilt N.Pattern 0 (reverse values.old) it (reverse values.new)) }
{
    let word = take_token(values);
    let value = code::truth_pattern(word);
    Ok(Value::Pattern(Boxed::new(alloc, value)?))
}

/// `Pattern` of: OpenBracket Variable Comma Variable PatternParts. The only error is want of memory.
pub fn pattern_1(alloc: Global, values: &mut Stack) -> Result<Value, NoMem>
    requires { CanBuild N.Pattern 1 (reverse values.old) }
    ensures { IfOk result (λ it. IsBuilt N.Pattern 1 (reverse values.old) it (reverse values.new)) }
{
    let more = take_names(values);
    let second = take_token(values);
    drop_token(values);
    let first = take_token(values);
    drop_token(values);
    let value = code::tuple_pattern(first, second, more)?;
    Ok(Value::Pattern(Boxed::new(alloc, value)?))
}

/// `Pattern` of: Constructor Variables. The only error is want of memory.
pub fn pattern_2(alloc: Global, values: &mut Stack) -> Result<Value, NoMem>
    requires { CanBuild N.Pattern 2 (reverse values.old) }
    ensures { IfOk result (λ it. IsBuilt N.Pattern 2 (reverse values.old) it (reverse values.new)) }
{
    let variables = take_names(values);
    let name = take_constructor(values);
    let value = code::built_pattern(alloc, name, variables)?;
    Ok(Value::Pattern(Boxed::new(alloc, value)?))
}

/// `PatternParts` of: CloseBracket.
pub fn pattern_parts_0(alloc: Global, values: &mut Stack) -> Value
    requires { CanBuild N.PatternParts 0 (reverse values.old) }
    ensures { IsBuilt N.PatternParts 0 (reverse values.old) result (reverse values.new) }
{
    drop_token(values);
    let value = FrontList::new(alloc);
    Value::Names(value)
}

/// `PatternParts` of: Comma Variable PatternParts. The only error is want of memory.
pub fn pattern_parts_1(values: &mut Stack) -> Result<Value, NoMem>
    requires { CanBuild N.PatternParts 1 (reverse values.old) }
    ensures { IfOk result (λ it. IsBuilt N.PatternParts 1 (reverse values.old) it (reverse values.new)) }
{
    let more = take_names(values);
    let variable = take_token(values);
    drop_token(values);
    let value = more.push(spelled(variable))?;
    Ok(Value::Names(value))
}

/// `Computation` of: Ok Atom. The only error is want of memory.
pub fn computation_0(alloc: Global, values: &mut Stack) -> Result<Value, NoMem>
    requires { CanBuild N.Computation 0 (reverse values.old) }
    ensures { IfOk result (λ it. IsBuilt N.Computation 0 (reverse values.old) it (reverse values.new)) }
{
    let atom = take_atom(values);
    drop_token(values);
    let value = code::gives(atom);
    Ok(Value::Computation(Boxed::new(alloc, value)?))
}

/// `Computation` of: Fail. The only error is want of memory.
pub fn computation_1(alloc: Global, values: &mut Stack) -> Result<Value, NoMem>
    requires { CanBuild N.Computation 1 (reverse values.old) }
    ensures { IfOk result (λ it. IsBuilt N.Computation 1 (reverse values.old) it (reverse values.new)) }
{
    drop_token(values);
    let value = code::fails();
    Ok(Value::Computation(Boxed::new(alloc, value)?))
}

/// `Computation` of: DefinitionName Fuel Atoms. The only error is want of memory.
pub fn computation_2(alloc: Global, values: &mut Stack) -> Result<Value, NoMem>
    requires { CanBuild N.Computation 2 (reverse values.old) }
    ensures { IfOk result (λ it. IsBuilt N.Computation 2 (reverse values.old) it (reverse values.new)) }
{
    let atoms = take_atoms(values);
    drop_token(values);
    let name = take_definition_name(values);
    let value = code::calls(alloc, name, atoms)?;
    Ok(Value::Computation(Boxed::new(alloc, value)?))
}

/// `Computation` of: Primitive Atoms. The only error is want of memory.
pub fn computation_3(alloc: Global, values: &mut Stack) -> Result<Value, NoMem>
    requires { CanBuild N.Computation 3 (reverse values.old) }
    ensures { IfOk result (λ it. IsBuilt N.Computation 3 (reverse values.old) it (reverse values.new)) }
{
    let atoms = take_atoms(values);
    let operation = take_operation(values);
    let value = code::operates(operation, atoms);
    Ok(Value::Computation(Boxed::new(alloc, value)?))
}
