//! What productions of types build. Written by tools/source_build.py.

ghost use Rattle.std.specs.Prelude.{◌≡◌, reverse, IfOk};
ghost use Rattle.source_grammar.specs.declared.part.Part.TheVariants as N;
ghost use Rattle.source_values.specs.Stacked.{CanBuild, IsBuilt};

use aen_base::NoMem;
use item_ways::types;
use rust_ast::source_types::{Lifetime, LifetimeNode, Written, WrittenNode};
use source_values::taking::types::{take_lifetime, take_truth, take_written, take_writtens};
use source_values::taking::{take_mark, take_token};
use source_values::{Stack, Value};
use source_ways::front_list::FrontList;
use source_ways::says::lifetime;
use source_ways::spanned::Spanned;
use source_ways::spans::{join, span_of};
use std::alloc::Global;

/// `Type` of: IntWord.
pub fn type_0(values: &mut Stack) -> Value
    requires { CanBuild N.Type 0 (reverse values.old) }
    ensures { IsBuilt N.Type 0 (reverse values.old) result (reverse values.new) }
{
    let word = take_token(values);
    let extent = join(Some(word.span), None);
    let value = types::int_type(span_of(extent), word);
    Value::Written(Spanned { value, extent })
}

/// `Type` of: Bool.
pub fn type_1(values: &mut Stack) -> Value
    requires { CanBuild N.Type 1 (reverse values.old) }
    ensures { IsBuilt N.Type 1 (reverse values.old) result (reverse values.new) }
{
    let word = take_mark(values);
    let extent = join(Some(word), None);
    let value = Written {
        node: WrittenNode::Bool(span_of(extent)),
    };
    Value::Written(Spanned { value, extent })
}

/// `Type` of: OpenBracket AfterTypeOpen.
pub fn type_2(values: &mut Stack) -> Value
    requires { CanBuild N.Type 2 (reverse values.old) }
    ensures { IsBuilt N.Type 2 (reverse values.old) result (reverse values.new) }
{
    let types = take_writtens(values);
    let bracket = take_token(values);
    let extent = join(Some(bracket.span), join(types.extent, None));
    let value = types::bracketed_type(span_of(extent), bracket, types);
    Value::Written(Spanned { value, extent })
}

/// `Type` of: And BorrowLifetime BorrowMut Type. The only error is want of memory.
pub fn type_3(alloc: Global, values: &mut Stack) -> Result<Value, NoMem>
    requires { CanBuild N.Type 3 (reverse values.old) }
    ensures { IfOk result (λ it. IsBuilt N.Type 3 (reverse values.old) it (reverse values.new)) }
{
    let ty = take_written(values);
    let mutable = take_truth(values);
    let life = take_lifetime(values);
    let mark = take_token(values);
    let extent = join(
        Some(mark.span),
        join(life.extent, join(mutable.extent, join(ty.extent, None))),
    );
    let value = types::reference_type(alloc, span_of(extent), mark, life, mutable, ty)?;
    Ok(Value::Written(Spanned { value, extent }))
}

/// `Type` of: Box Less Type TypesEnd. The only error is want of memory.
pub fn type_4(alloc: Global, values: &mut Stack) -> Result<Value, NoMem>
    requires { CanBuild N.Type 4 (reverse values.old) }
    ensures { IfOk result (λ it. IsBuilt N.Type 4 (reverse values.old) it (reverse values.new)) }
{
    let greater = take_token(values);
    let ty = take_written(values);
    let less = take_token(values);
    let word = take_token(values);
    let extent = join(
        Some(word.span),
        join(
            Some(less.span),
            join(ty.extent, join(Some(greater.span), None)),
        ),
    );
    let value = types::boxed_type(alloc, span_of(extent), word, less, ty, greater)?;
    Ok(Value::Written(Spanned { value, extent }))
}

/// `Type` of: Identifier TypeArguments. The only error is want of memory.
pub fn type_5(alloc: Global, values: &mut Stack) -> Result<Value, NoMem>
    requires { CanBuild N.Type 5 (reverse values.old) }
    ensures { IfOk result (λ it. IsBuilt N.Type 5 (reverse values.old) it (reverse values.new)) }
{
    let arguments = take_writtens(values);
    let name = take_token(values);
    let extent = join(Some(name.span), join(arguments.extent, None));
    let value = types::named_type(alloc, span_of(extent), name, arguments)?;
    Ok(Value::Written(Spanned { value, extent }))
}

/// `BorrowLifetime` of: nothing.
pub fn borrow_lifetime_0(values: &mut Stack) -> Value
    requires { CanBuild N.BorrowLifetime 0 (reverse values.old) }
    ensures { IsBuilt N.BorrowLifetime 0 (reverse values.old) result (reverse values.new) }
{
    let extent = None;
    let value = Lifetime {
        node: LifetimeNode::Elided,
    };
    Value::Lifetime(Spanned { value, extent })
}

/// `BorrowLifetime` of: AnyLifetime. The only error is want of memory.
pub fn borrow_lifetime_1(alloc: Global, values: &mut Stack) -> Result<Value, NoMem>
    requires { CanBuild N.BorrowLifetime 1 (reverse values.old) }
    ensures { IfOk result (λ it. IsBuilt N.BorrowLifetime 1 (reverse values.old) it (reverse values.new)) }
{
    let life = take_token(values);
    let extent = join(Some(life.span), None);
    let value = lifetime(alloc, life)?;
    Ok(Value::Lifetime(Spanned { value, extent }))
}

/// `BorrowMut` of: nothing.
pub fn borrow_mut_0(values: &mut Stack) -> Value
    requires { CanBuild N.BorrowMut 0 (reverse values.old) }
    ensures { IsBuilt N.BorrowMut 0 (reverse values.old) result (reverse values.new) }
{
    let extent = None;
    let value = false;
    Value::Truth(Spanned { value, extent })
}

/// `BorrowMut` of: Mut.
pub fn borrow_mut_1(values: &mut Stack) -> Value
    requires { CanBuild N.BorrowMut 1 (reverse values.old) }
    ensures { IsBuilt N.BorrowMut 1 (reverse values.old) result (reverse values.new) }
{
    let mark = take_mark(values);
    let extent = join(Some(mark), None);
    let value = true;
    Value::Truth(Spanned { value, extent })
}

/// `AfterTypeOpen` of: CloseBracket.
pub fn after_type_open_0(alloc: Global, values: &mut Stack) -> Value
    requires { CanBuild N.AfterTypeOpen 0 (reverse values.old) }
    ensures { IsBuilt N.AfterTypeOpen 0 (reverse values.old) result (reverse values.new) }
{
    let mark = take_mark(values);
    let extent = join(Some(mark), None);
    let value = FrontList::new(alloc);
    Value::Writtens(Spanned { value, extent })
}

/// `AfterTypeOpen` of: Type AfterType. The only error is want of memory.
pub fn after_type_open_1(values: &mut Stack) -> Result<Value, NoMem>
    requires { CanBuild N.AfterTypeOpen 1 (reverse values.old) }
    ensures { IfOk result (λ it. IsBuilt N.AfterTypeOpen 1 (reverse values.old) it (reverse values.new)) }
{
    let more = take_writtens(values);
    let ty = take_written(values);
    let extent = join(ty.extent, join(more.extent, None));
    let value = more.value.push(ty.value)?;
    Ok(Value::Writtens(Spanned { value, extent }))
}

/// `AfterType` of: Comma Type ListRest(Types). The only error is want of memory.
pub fn after_type_1(values: &mut Stack) -> Result<Value, NoMem>
    requires { CanBuild N.AfterType 1 (reverse values.old) }
    ensures { IfOk result (λ it. IsBuilt N.AfterType 1 (reverse values.old) it (reverse values.new)) }
{
    let more = take_writtens(values);
    let ty = take_written(values);
    let mark = take_mark(values);
    let extent = join(Some(mark), join(ty.extent, join(more.extent, None)));
    let value = more.value.push(ty.value)?;
    Ok(Value::Writtens(Spanned { value, extent }))
}
