//! What productions of generics build. Written by tools/source_build.py.

ghost use Rattle.std.specs.Prelude.{◌≡◌, reverse, IfOk};
ghost use Rattle.source_grammar.specs.declared.part.Part.TheVariants as N;
ghost use Rattle.source_values.specs.Stacked.{CanBuild, IsBuilt};

use aen_base::NoMem;
use item_ways::items;
use source_values::taking::items::{take_generics, take_idents};
use source_values::taking::{take_mark, take_token};
use source_values::{Stack, Value};
use source_ways::front_list::FrontList;
use source_ways::spanned::Spanned;
use source_ways::spans::{join, span_of};
use std::alloc::Global;

/// `Generics` of: nothing.
pub fn generics_0(alloc: Global, values: &mut Stack) -> Value
    requires { CanBuild N.Generics 0 (reverse values.old) }
    ensures { IsBuilt N.Generics 0 (reverse values.old) result (reverse values.new) }
{
    let extent = None;
    let value = items::no_generics(alloc);
    Value::Generics(Spanned { value, extent })
}

/// `Generics` of: Less Lifetimes.
pub fn generics_1(values: &mut Stack) -> Value
    requires { CanBuild N.Generics 1 (reverse values.old) }
    ensures { IsBuilt N.Generics 1 (reverse values.old) result (reverse values.new) }
{
    let generics = take_generics(values);
    let mark = take_mark(values);
    let extent = join(Some(mark), join(generics.extent, None));
    Value::Generics(Spanned {
        value: generics.value,
        extent,
    })
}

/// `Lifetimes` of: Greater.
pub fn lifetimes_0(alloc: Global, values: &mut Stack) -> Value
    requires { CanBuild N.Lifetimes 0 (reverse values.old) }
    ensures { IsBuilt N.Lifetimes 0 (reverse values.old) result (reverse values.new) }
{
    let mark = take_mark(values);
    let extent = join(Some(mark), None);
    let value = items::no_generics(alloc);
    Value::Generics(Spanned { value, extent })
}

/// `Lifetimes` of: Lifetime MoreLifetimes. The only error is want of memory.
pub fn lifetimes_1(alloc: Global, values: &mut Stack) -> Result<Value, NoMem>
    requires { CanBuild N.Lifetimes 1 (reverse values.old) }
    ensures { IfOk result (λ it. IsBuilt N.Lifetimes 1 (reverse values.old) it (reverse values.new)) }
{
    let more = take_generics(values);
    let life = take_token(values);
    let extent = join(Some(life.span), join(more.extent, None));
    let value = items::first_lifetime(alloc, span_of(extent), life, more)?;
    Ok(Value::Generics(Spanned { value, extent }))
}

/// `Lifetimes` of: Identifier ListRest(TypeNames). The only error is want of memory.
pub fn lifetimes_2(alloc: Global, values: &mut Stack) -> Result<Value, NoMem>
    requires { CanBuild N.Lifetimes 2 (reverse values.old) }
    ensures { IfOk result (λ it. IsBuilt N.Lifetimes 2 (reverse values.old) it (reverse values.new)) }
{
    let more = take_idents(values);
    let name = take_token(values);
    let extent = join(Some(name.span), join(more.extent, None));
    let value = items::first_type_parameter(alloc, span_of(extent), name, more)?;
    Ok(Value::Generics(Spanned { value, extent }))
}

/// `TypeParameters` of: nothing.
pub fn type_parameters_0(alloc: Global, values: &mut Stack) -> Value
    requires { CanBuild N.TypeParameters 0 (reverse values.old) }
    ensures { IsBuilt N.TypeParameters 0 (reverse values.old) result (reverse values.new) }
{
    let extent = None;
    let value = FrontList::new(alloc);
    Value::Idents(Spanned { value, extent })
}

/// `TypeParameters` of: Less List(TypeNames).
pub fn type_parameters_1(values: &mut Stack) -> Value
    requires { CanBuild N.TypeParameters 1 (reverse values.old) }
    ensures { IsBuilt N.TypeParameters 1 (reverse values.old) result (reverse values.new) }
{
    let names = take_idents(values);
    let mark = take_mark(values);
    let extent = join(Some(mark), join(names.extent, None));
    Value::Idents(Spanned {
        value: names.value,
        extent,
    })
}
