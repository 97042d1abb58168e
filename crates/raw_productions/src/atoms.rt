//! What productions of atoms build. Written by tools/text_ways.py.

ghost use Rattle.std.specs.Prelude.{◌≡◌, reverse, IfOk};
ghost use Rattle.text_table.specs.declared.part.Part.TheVariants as N;
ghost use Rattle.raw_ways.specs.Built.{CanBuild, IsBuilt};

use aen_base::{Boxed, NoMem};
use raw_values::front_list::FrontList;
use raw_values::taking::atoms::{take_after_constructor, take_atom, take_atoms, take_constructor};
use raw_values::taking::{drop_token, take_token};
use raw_values::{Stack, Value};
use raw_ways::atoms;
use std::alloc::Global;

/// `Atom` of: PlainAtom. The only error is want of memory.
pub fn atom_0(alloc: Global, values: &mut Stack) -> Result<Value, NoMem>
    requires { CanBuild N.Atom 0 (reverse values.old) }
    ensures { IfOk result (λ it. IsBuilt N.Atom 0 (reverse values.old) it (reverse values.new)) }
{
    let atom = take_atom(values);
    Ok(Value::Atom(Boxed::new(alloc, atom)?))
}

/// `Atom` of: Constructor. The only error is want of memory.
pub fn atom_1(alloc: Global, values: &mut Stack) -> Result<Value, NoMem>
    requires { CanBuild N.Atom 1 (reverse values.old) }
    ensures { IfOk result (λ it. IsBuilt N.Atom 1 (reverse values.old) it (reverse values.new)) }
{
    let name = take_constructor(values);
    let value = atoms::lone(alloc, name)?;
    Ok(Value::Atom(Boxed::new(alloc, value)?))
}

/// `PlainAtom` of: Variable. The only error is want of memory.
pub fn plain_atom_0(alloc: Global, values: &mut Stack) -> Result<Value, NoMem>
    requires { CanBuild N.PlainAtom 0 (reverse values.old) }
    ensures { IfOk result (λ it. IsBuilt N.PlainAtom 0 (reverse values.old) it (reverse values.new)) }
{
    let name = take_token(values);
    let value = atoms::variable_atom(name);
    Ok(Value::Atom(Boxed::new(alloc, value)?))
}

/// `PlainAtom` of: Number Hash Int. The only error is want of memory.
pub fn plain_atom_1(alloc: Global, values: &mut Stack) -> Result<Value, NoMem>
    requires { CanBuild N.PlainAtom 1 (reverse values.old) }
    ensures { IfOk result (λ it. IsBuilt N.PlainAtom 1 (reverse values.old) it (reverse values.new)) }
{
    let ty = take_token(values);
    drop_token(values);
    let number = take_token(values);
    let value = atoms::number_atom(number, ty);
    Ok(Value::Atom(Boxed::new(alloc, value)?))
}

/// `PlainAtom` of: Truth. The only error is want of memory.
pub fn plain_atom_2(alloc: Global, values: &mut Stack) -> Result<Value, NoMem>
    requires { CanBuild N.PlainAtom 2 (reverse values.old) }
    ensures { IfOk result (λ it. IsBuilt N.PlainAtom 2 (reverse values.old) it (reverse values.new)) }
{
    let word = take_token(values);
    let value = atoms::truth_atom(word);
    Ok(Value::Atom(Boxed::new(alloc, value)?))
}

/// `PlainAtom` of: UnitValue. The only error is want of memory.
pub fn plain_atom_3(alloc: Global, values: &mut Stack) -> Result<Value, NoMem>
    requires { CanBuild N.PlainAtom 3 (reverse values.old) }
    ensures { IfOk result (λ it. IsBuilt N.PlainAtom 3 (reverse values.old) it (reverse values.new)) }
{
    drop_token(values);
    let value = atoms::unit_atom(alloc);
    Ok(Value::Atom(Boxed::new(alloc, value)?))
}

/// `PlainAtom` of: OpenBracket AtomInBrackets. The only error is want of memory.
pub fn plain_atom_4(alloc: Global, values: &mut Stack) -> Result<Value, NoMem>
    requires { CanBuild N.PlainAtom 4 (reverse values.old) }
    ensures { IfOk result (λ it. IsBuilt N.PlainAtom 4 (reverse values.old) it (reverse values.new)) }
{
    let atom = take_atom(values);
    drop_token(values);
    Ok(Value::Atom(Boxed::new(alloc, atom)?))
}

/// `Constructor` of: Name Dot Name. The only error is want of memory.
pub fn constructor_0(alloc: Global, values: &mut Stack) -> Result<Value, NoMem>
    requires { CanBuild N.Constructor 0 (reverse values.old) }
    ensures { IfOk result (λ it. IsBuilt N.Constructor 0 (reverse values.old) it (reverse values.new)) }
{
    let name = take_token(values);
    drop_token(values);
    let ty = take_token(values);
    let value = atoms::variant_name(ty, name);
    Ok(Value::Constructor(Boxed::new(alloc, value)?))
}

/// `Constructor` of: Exit Dot ExitVariant. The only error is want of memory.
pub fn constructor_1(alloc: Global, values: &mut Stack) -> Result<Value, NoMem>
    requires { CanBuild N.Constructor 1 (reverse values.old) }
    ensures { IfOk result (λ it. IsBuilt N.Constructor 1 (reverse values.old) it (reverse values.new)) }
{
    let name = take_constructor(values);
    drop_token(values);
    drop_token(values);
    Ok(Value::Constructor(Boxed::new(alloc, name)?))
}

/// `ExitVariant` of: Brk. The only error is want of memory.
pub fn exit_variant_0(alloc: Global, values: &mut Stack) -> Result<Value, NoMem>
    requires { CanBuild N.ExitVariant 0 (reverse values.old) }
    ensures { IfOk result (λ it. IsBuilt N.ExitVariant 0 (reverse values.old) it (reverse values.new)) }
{
    let word = take_token(values);
    let value = atoms::brk(word);
    Ok(Value::Constructor(Boxed::new(alloc, value)?))
}

/// `ExitVariant` of: Ret. The only error is want of memory.
pub fn exit_variant_1(alloc: Global, values: &mut Stack) -> Result<Value, NoMem>
    requires { CanBuild N.ExitVariant 1 (reverse values.old) }
    ensures { IfOk result (λ it. IsBuilt N.ExitVariant 1 (reverse values.old) it (reverse values.new)) }
{
    let word = take_token(values);
    let value = atoms::ret(word);
    Ok(Value::Constructor(Boxed::new(alloc, value)?))
}

/// `AtomInBrackets` of: PlainAtom Comma Atom TupleParts. The only error is want of memory.
pub fn atom_in_brackets_0(alloc: Global, values: &mut Stack) -> Result<Value, NoMem>
    requires { CanBuild N.AtomInBrackets 0 (reverse values.old) }
    ensures { IfOk result (λ it. IsBuilt N.AtomInBrackets 0 (reverse values.old) it (reverse values.new)) }
{
    let more = take_atoms(values);
    let second = take_atom(values);
    drop_token(values);
    let first = take_atom(values);
    let value = atoms::tuple_atom(first, second, more)?;
    Ok(Value::Atom(Boxed::new(alloc, value)?))
}

/// `AtomInBrackets` of: Constructor AfterConstructor. The only error is want of memory.
pub fn atom_in_brackets_1(alloc: Global, values: &mut Stack) -> Result<Value, NoMem>
    requires { CanBuild N.AtomInBrackets 1 (reverse values.old) }
    ensures { IfOk result (λ it. IsBuilt N.AtomInBrackets 1 (reverse values.old) it (reverse values.new)) }
{
    let after = take_after_constructor(values);
    let name = take_constructor(values);
    let value = atoms::bracketed(alloc, name, after)?;
    Ok(Value::Atom(Boxed::new(alloc, value)?))
}

/// `AfterConstructor` of: Atom Arguments. The only error is want of memory.
pub fn after_constructor_0(values: &mut Stack) -> Result<Value, NoMem>
    requires { CanBuild N.AfterConstructor 0 (reverse values.old) }
    ensures { IfOk result (λ it. IsBuilt N.AfterConstructor 0 (reverse values.old) it (reverse values.new)) }
{
    let more = take_atoms(values);
    let atom = take_atom(values);
    let value = atoms::constructor_arguments(more.push(atom)?);
    Ok(Value::AfterConstructor(value))
}

/// `AfterConstructor` of: Comma Atom TupleParts. The only error is want of memory.
pub fn after_constructor_1(values: &mut Stack) -> Result<Value, NoMem>
    requires { CanBuild N.AfterConstructor 1 (reverse values.old) }
    ensures { IfOk result (λ it. IsBuilt N.AfterConstructor 1 (reverse values.old) it (reverse values.new)) }
{
    let more = take_atoms(values);
    let atom = take_atom(values);
    drop_token(values);
    let value = atoms::more_parts(more.push(atom)?);
    Ok(Value::AfterConstructor(value))
}

/// `TupleParts` of: CloseBracket.
pub fn tuple_parts_0(alloc: Global, values: &mut Stack) -> Value
    requires { CanBuild N.TupleParts 0 (reverse values.old) }
    ensures { IsBuilt N.TupleParts 0 (reverse values.old) result (reverse values.new) }
{
    drop_token(values);
    let value = FrontList::new(alloc);
    Value::Atoms(value)
}

/// `TupleParts` of: Comma Atom TupleParts. The only error is want of memory.
pub fn tuple_parts_1(values: &mut Stack) -> Result<Value, NoMem>
    requires { CanBuild N.TupleParts 1 (reverse values.old) }
    ensures { IfOk result (λ it. IsBuilt N.TupleParts 1 (reverse values.old) it (reverse values.new)) }
{
    let more = take_atoms(values);
    let atom = take_atom(values);
    drop_token(values);
    let value = more.push(atom)?;
    Ok(Value::Atoms(value))
}

/// `Arguments` of: Atom Arguments. The only error is want of memory.
pub fn arguments_1(values: &mut Stack) -> Result<Value, NoMem>
    requires { CanBuild N.Arguments 1 (reverse values.old) }
    ensures { IfOk result (λ it. IsBuilt N.Arguments 1 (reverse values.old) it (reverse values.new)) }
{
    let more = take_atoms(values);
    let atom = take_atom(values);
    let value = more.push(atom)?;
    Ok(Value::Atoms(value))
}

/// `Atoms` of: nothing.
pub fn atoms_0(alloc: Global, values: &mut Stack) -> Value
    requires { CanBuild N.Atoms 0 (reverse values.old) }
    ensures { IsBuilt N.Atoms 0 (reverse values.old) result (reverse values.new) }
{
    let value = FrontList::new(alloc);
    Value::Atoms(value)
}
