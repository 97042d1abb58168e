//! What builds primitives by their productions. Written by tools/text_ways.py.

ghost use Rattle.std.specs.Prelude.{◌≡◌, reverse, IfOk};
ghost use Rattle.text_table.specs.declared.part.Part.TheVariants as N;
ghost use Rattle.raw_ways.specs.Built.{CanBuild, IsBuilt};

use aen_base::NoMem;
use raw_productions::primitives::{
    cast_from_0, cast_from_1, in_memory_0, in_memory_1, primitive_0, primitive_1, primitive_2,
    primitive_3, replace_end_0, replace_end_1, swap_end_1, swap_region_0, swap_region_1,
};
use raw_values::{Stack, Value};

pub(crate) fn build_primitive(index: usize, values: &mut Stack) -> Result<Value, NoMem>
    requires { CanBuild N.Primitive index (reverse values.old) }
    ensures { IfOk result (λ it. IsBuilt N.Primitive index (reverse values.old) it (reverse values.new)) }
{
    match index {
        0 => Ok(primitive_0(values)),
        1 => Ok(primitive_1(values)),
        2 => Ok(primitive_2(values)),
        3 => Ok(primitive_3(values)),
        4 => Ok(primitive_2(values)),
        _ => unreachable!(),
    }
}

pub(crate) fn build_cast_from(index: usize, values: &mut Stack) -> Result<Value, NoMem>
    requires { CanBuild N.CastFrom index (reverse values.old) }
    ensures { IfOk result (λ it. IsBuilt N.CastFrom index (reverse values.old) it (reverse values.new)) }
{
    match index {
        0 => Ok(cast_from_0(values)),
        1 => Ok(cast_from_1(values)),
        _ => unreachable!(),
    }
}

pub(crate) fn build_in_memory(index: usize, values: &mut Stack) -> Result<Value, NoMem>
    requires { CanBuild N.InMemory index (reverse values.old) }
    ensures { IfOk result (λ it. IsBuilt N.InMemory index (reverse values.old) it (reverse values.new)) }
{
    match index {
        0 => Ok(in_memory_0(values)),
        1 => Ok(in_memory_1(values)),
        _ => unreachable!(),
    }
}

pub(crate) fn build_replace_end(index: usize, values: &mut Stack) -> Result<Value, NoMem>
    requires { CanBuild N.ReplaceEnd index (reverse values.old) }
    ensures { IfOk result (λ it. IsBuilt N.ReplaceEnd index (reverse values.old) it (reverse values.new)) }
{
    match index {
        0 => Ok(replace_end_0(values)),
        1 => Ok(replace_end_1(values)),
        _ => unreachable!(),
    }
}

pub(crate) fn build_swap_end(index: usize, values: &mut Stack) -> Result<Value, NoMem>
    requires { CanBuild N.SwapEnd index (reverse values.old) }
    ensures { IfOk result (λ it. IsBuilt N.SwapEnd index (reverse values.old) it (reverse values.new)) }
{
    match index {
        0 => Ok(replace_end_0(values)),
        1 => Ok(swap_end_1(values)),
        _ => unreachable!(),
    }
}

pub(crate) fn build_swap_region(index: usize, values: &mut Stack) -> Result<Value, NoMem>
    requires { CanBuild N.SwapRegion index (reverse values.old) }
    ensures { IfOk result (λ it. IsBuilt N.SwapRegion index (reverse values.old) it (reverse values.new)) }
{
    match index {
        0 => Ok(swap_region_0(values)),
        1 => Ok(swap_region_1(values)),
        _ => unreachable!(),
    }
}
