//! What builds atoms by their productions. Written by tools/text_ways.py.

ghost use Rattle.std.specs.Prelude.{◌≡◌, reverse, IfOk};
ghost use Rattle.text_table.specs.declared.part.Part.TheVariants as N;
ghost use Rattle.raw_ways.specs.Built.{CanBuild, IsBuilt};

use aen_base::NoMem;
use raw_productions::atoms::{
    after_constructor_0, after_constructor_1, arguments_1, atom_0, atom_1, atom_in_brackets_0,
    atom_in_brackets_1, atoms_0, constructor_0, constructor_1, exit_variant_0, exit_variant_1,
    plain_atom_0, plain_atom_1, plain_atom_2, plain_atom_3, plain_atom_4, tuple_parts_0,
    tuple_parts_1,
};
use raw_values::{Stack, Value};
use std::alloc::Global;

pub(crate) fn build_atom(alloc: Global, index: usize, values: &mut Stack) -> Result<Value, NoMem>
    requires { CanBuild N.Atom index (reverse values.old) }
    ensures { IfOk result (λ it. IsBuilt N.Atom index (reverse values.old) it (reverse values.new)) }
{
    match index {
        0 => atom_0(alloc, values),
        1 => atom_1(alloc, values),
        _ => unreachable!(),
    }
}

pub(crate) fn build_plain_atom(
    alloc: Global,
    index: usize,
    values: &mut Stack,
) -> Result<Value, NoMem>
    requires { CanBuild N.PlainAtom index (reverse values.old) }
    ensures { IfOk result (λ it. IsBuilt N.PlainAtom index (reverse values.old) it (reverse values.new)) }
{
    match index {
        0 => plain_atom_0(alloc, values),
        1 => plain_atom_1(alloc, values),
        2 => plain_atom_2(alloc, values),
        3 => plain_atom_3(alloc, values),
        4 => plain_atom_4(alloc, values),
        _ => unreachable!(),
    }
}

pub(crate) fn build_constructor(
    alloc: Global,
    index: usize,
    values: &mut Stack,
) -> Result<Value, NoMem>
    requires { CanBuild N.Constructor index (reverse values.old) }
    ensures { IfOk result (λ it. IsBuilt N.Constructor index (reverse values.old) it (reverse values.new)) }
{
    match index {
        0 => constructor_0(alloc, values),
        1 => constructor_1(alloc, values),
        _ => unreachable!(),
    }
}

pub(crate) fn build_exit_variant(
    alloc: Global,
    index: usize,
    values: &mut Stack,
) -> Result<Value, NoMem>
    requires { CanBuild N.ExitVariant index (reverse values.old) }
    ensures { IfOk result (λ it. IsBuilt N.ExitVariant index (reverse values.old) it (reverse values.new)) }
{
    match index {
        0 => exit_variant_0(alloc, values),
        1 => exit_variant_1(alloc, values),
        _ => unreachable!(),
    }
}

pub(crate) fn build_atom_in_brackets(
    alloc: Global,
    index: usize,
    values: &mut Stack,
) -> Result<Value, NoMem>
    requires { CanBuild N.AtomInBrackets index (reverse values.old) }
    ensures { IfOk result (λ it. IsBuilt N.AtomInBrackets index (reverse values.old) it (reverse values.new)) }
{
    match index {
        0 => atom_in_brackets_0(alloc, values),
        1 => atom_in_brackets_1(alloc, values),
        _ => unreachable!(),
    }
}

pub(crate) fn build_after_constructor(index: usize, values: &mut Stack) -> Result<Value, NoMem>
    requires { CanBuild N.AfterConstructor index (reverse values.old) }
    ensures { IfOk result (λ it. IsBuilt N.AfterConstructor index (reverse values.old) it (reverse values.new)) }
{
    match index {
        0 => after_constructor_0(values),
        1 => after_constructor_1(values),
        _ => unreachable!(),
    }
}

pub(crate) fn build_tuple_parts(
    alloc: Global,
    index: usize,
    values: &mut Stack,
) -> Result<Value, NoMem>
    requires { CanBuild N.TupleParts index (reverse values.old) }
    ensures { IfOk result (λ it. IsBuilt N.TupleParts index (reverse values.old) it (reverse values.new)) }
{
    match index {
        0 => Ok(tuple_parts_0(alloc, values)),
        1 => tuple_parts_1(values),
        _ => unreachable!(),
    }
}

pub(crate) fn build_arguments(
    alloc: Global,
    index: usize,
    values: &mut Stack,
) -> Result<Value, NoMem>
    requires { CanBuild N.Arguments index (reverse values.old) }
    ensures { IfOk result (λ it. IsBuilt N.Arguments index (reverse values.old) it (reverse values.new)) }
{
    match index {
        0 => Ok(tuple_parts_0(alloc, values)),
        1 => arguments_1(values),
        _ => unreachable!(),
    }
}

pub(crate) fn build_atoms(alloc: Global, index: usize, values: &mut Stack) -> Result<Value, NoMem>
    requires { CanBuild N.Atoms index (reverse values.old) }
    ensures { IfOk result (λ it. IsBuilt N.Atoms index (reverse values.old) it (reverse values.new)) }
{
    match index {
        0 => Ok(atoms_0(alloc, values)),
        1 => arguments_1(values),
        _ => unreachable!(),
    }
}
