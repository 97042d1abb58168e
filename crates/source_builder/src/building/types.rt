//! What builds types by their productions. Written by tools/source_build.py.

ghost use Rattle.std.specs.Prelude.{◌≡◌, reverse, IfOk};
ghost use Rattle.source_grammar.specs.declared.part.Part.TheVariants as N;
ghost use Rattle.source_values.specs.Stacked.{CanBuild, IsBuilt};

use aen_base::NoMem;
use source_items::fields::{variant_body_0, variant_body_1};
use source_items::types::{
    after_type_1, after_type_open_0, after_type_open_1, borrow_lifetime_0, borrow_lifetime_1,
    borrow_mut_0, borrow_mut_1, type_0, type_1, type_2, type_3, type_4, type_5,
};
use source_values::{Stack, Value};
use std::alloc::Global;

pub(crate) fn build_type(alloc: Global, index: usize, values: &mut Stack) -> Result<Value, NoMem>
    requires { CanBuild N.Type index (reverse values.old) }
    ensures { IfOk result (λ it. IsBuilt N.Type index (reverse values.old) it (reverse values.new)) }
{
    match index {
        0 => Ok(type_0(values)),
        1 => Ok(type_1(values)),
        2 => Ok(type_2(values)),
        3 => type_3(alloc, values),
        4 => type_4(alloc, values),
        5 => type_5(alloc, values),
        _ => unreachable!(),
    }
}

pub(crate) fn build_borrow_lifetime(
    alloc: Global,
    index: usize,
    values: &mut Stack,
) -> Result<Value, NoMem>
    requires { CanBuild N.BorrowLifetime index (reverse values.old) }
    ensures { IfOk result (λ it. IsBuilt N.BorrowLifetime index (reverse values.old) it (reverse values.new)) }
{
    match index {
        0 => Ok(borrow_lifetime_0(values)),
        1 => borrow_lifetime_1(alloc, values),
        _ => unreachable!(),
    }
}

pub(crate) fn build_borrow_mut(index: usize, values: &mut Stack) -> Result<Value, NoMem>
    requires { CanBuild N.BorrowMut index (reverse values.old) }
    ensures { IfOk result (λ it. IsBuilt N.BorrowMut index (reverse values.old) it (reverse values.new)) }
{
    match index {
        0 => Ok(borrow_mut_0(values)),
        1 => Ok(borrow_mut_1(values)),
        _ => unreachable!(),
    }
}

pub(crate) fn build_type_arguments(
    alloc: Global,
    index: usize,
    values: &mut Stack,
) -> Result<Value, NoMem>
    requires { CanBuild N.TypeArguments index (reverse values.old) }
    ensures { IfOk result (λ it. IsBuilt N.TypeArguments index (reverse values.old) it (reverse values.new)) }
{
    match index {
        0 => Ok(variant_body_0(alloc, values)),
        1 => Ok(variant_body_1(values)),
        _ => unreachable!(),
    }
}

pub(crate) fn build_after_type_open(
    alloc: Global,
    index: usize,
    values: &mut Stack,
) -> Result<Value, NoMem>
    requires { CanBuild N.AfterTypeOpen index (reverse values.old) }
    ensures { IfOk result (λ it. IsBuilt N.AfterTypeOpen index (reverse values.old) it (reverse values.new)) }
{
    match index {
        0 => Ok(after_type_open_0(alloc, values)),
        1 => after_type_open_1(values),
        _ => unreachable!(),
    }
}

pub(crate) fn build_after_type(
    alloc: Global,
    index: usize,
    values: &mut Stack,
) -> Result<Value, NoMem>
    requires { CanBuild N.AfterType index (reverse values.old) }
    ensures { IfOk result (λ it. IsBuilt N.AfterType index (reverse values.old) it (reverse values.new)) }
{
    match index {
        0 => Ok(after_type_open_0(alloc, values)),
        1 => after_type_1(values),
        _ => unreachable!(),
    }
}
