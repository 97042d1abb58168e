//! What productions of paths build. Written by tools/source_build.py.

ghost use Rattle.std.specs.Prelude.{◌≡◌, reverse, IfOk};
ghost use Rattle.source_grammar.specs.declared.part.Part.TheVariants as N;
ghost use Rattle.source_values.specs.Stacked.{CanBuild, IsBuilt};
ghost use Rattle.source_grammar.specs.declared.part.Context.TheVariants as At;

use aen_base::NoMem;
use expression_ways::path_ways;
use source_values::taking::expressions::{take_expr, take_exprs, take_initials};
use source_values::taking::items::take_nothing;
use source_values::taking::paths::{take_after, take_calling, take_further, take_in_mem};
use source_values::taking::types::take_writtens;
use source_values::taking::{take_mark, take_token};
use source_values::{Stack, Value};
use source_ways::paths::InMem;
use source_ways::spanned::Spanned;
use source_ways::spans::{join, span_of};
use std::alloc::Global;

/// `AfterStdMem` of: nothing.
pub fn after_std_mem_0(values: &mut Stack) -> Value
    requires { CanBuild N.AfterStdMem 0 (reverse values.old) }
    ensures { IsBuilt N.AfterStdMem 0 (reverse values.old) result (reverse values.new) }
{
    let extent = None;
    let value = InMem::Second(path_ways::not_called());
    Value::InMem(Spanned { value, extent })
}

/// `AfterStdMem` of: OpenBracket List(Arguments).
pub fn after_std_mem_1(values: &mut Stack) -> Value
    requires { CanBuild N.AfterStdMem 1 (reverse values.old) }
    ensures { IsBuilt N.AfterStdMem 1 (reverse values.old) result (reverse values.new) }
{
    let exprs = take_exprs(values);
    let bracket = take_token(values);
    let extent = join(Some(bracket.span), join(exprs.extent, None));
    let value = InMem::Second(path_ways::plain_call(bracket, exprs));
    Value::InMem(Spanned { value, extent })
}

/// `AfterStdMem` of: Colons AfterStdMemColons.
pub fn after_std_mem_2(values: &mut Stack) -> Value
    requires { CanBuild N.AfterStdMem 2 (reverse values.old) }
    ensures { IsBuilt N.AfterStdMem 2 (reverse values.old) result (reverse values.new) }
{
    let rest = take_in_mem(values);
    let mark = take_mark(values);
    let extent = join(Some(mark), join(rest.extent, None));
    Value::InMem(Spanned {
        value: rest.value,
        extent,
    })
}

/// `AfterStdMemColons` of: Less List(TypesInAngles) OpenBracket List(Arguments).
pub fn after_std_mem_colons_0(values: &mut Stack) -> Value
    requires { CanBuild N.AfterStdMemColons 0 (reverse values.old) }
    ensures { IsBuilt N.AfterStdMemColons 0 (reverse values.old) result (reverse values.new) }
{
    let exprs = take_exprs(values);
    let second_mark = take_mark(values);
    let tys = take_writtens(values);
    let mark = take_mark(values);
    let extent = join(
        Some(mark),
        join(
            tys.extent,
            join(Some(second_mark), join(exprs.extent, None)),
        ),
    );
    let value = InMem::Second(path_ways::call_with_types(tys, exprs));
    Value::InMem(Spanned { value, extent })
}

/// `AfterStdMemColons` of: SwapName AfterPath.
pub fn after_std_mem_colons_1(values: &mut Stack) -> Value
    requires { CanBuild N.AfterStdMemColons 1 (reverse values.old) }
    ensures { IsBuilt N.AfterStdMemColons 1 (reverse values.old) result (reverse values.new) }
{
    let rest = take_calling(values);
    let word = take_token(values);
    let extent = join(Some(word.span), join(rest.extent, None));
    let value = path_ways::std_built_in(span_of(extent), word, rest);
    Value::InMem(Spanned { value, extent })
}

/// `AfterPath` of: nothing.
pub fn after_path_0(values: &mut Stack) -> Value
    requires { CanBuild N.AfterPath 0 (reverse values.old) }
    ensures { IsBuilt N.AfterPath 0 (reverse values.old) result (reverse values.new) }
{
    let extent = None;
    let value = path_ways::not_called();
    Value::Calling(Spanned { value, extent })
}

/// `AfterPath` of: OpenBracket List(Arguments).
pub fn after_path_1(values: &mut Stack) -> Value
    requires { CanBuild N.AfterPath 1 (reverse values.old) }
    ensures { IsBuilt N.AfterPath 1 (reverse values.old) result (reverse values.new) }
{
    let exprs = take_exprs(values);
    let bracket = take_token(values);
    let extent = join(Some(bracket.span), join(exprs.extent, None));
    let value = path_ways::plain_call(bracket, exprs);
    Value::Calling(Spanned { value, extent })
}

/// `AfterPath` of: Colons Less List(TypesInAngles) OpenBracket List(Arguments).
pub fn after_path_2(values: &mut Stack) -> Value
    requires { CanBuild N.AfterPath 2 (reverse values.old) }
    ensures { IsBuilt N.AfterPath 2 (reverse values.old) result (reverse values.new) }
{
    let exprs = take_exprs(values);
    let third_mark = take_mark(values);
    let tys = take_writtens(values);
    let second_mark = take_mark(values);
    let mark = take_mark(values);
    let extent = join(
        Some(mark),
        join(
            Some(second_mark),
            join(tys.extent, join(Some(third_mark), join(exprs.extent, None))),
        ),
    );
    let value = path_ways::call_with_types(tys, exprs);
    Value::Calling(Spanned { value, extent })
}

/// `Message` of: CloseBracket.
pub fn message_0(values: &mut Stack) -> Value
    requires { CanBuild N.Message 0 (reverse values.old) }
    ensures { IsBuilt N.Message 0 (reverse values.old) result (reverse values.new) }
{
    let mark = take_mark(values);
    let extent = join(Some(mark), None);
    let value = ();
    Value::Nothing(Spanned { value, extent })
}

/// `Message` of: Text CloseBracket.
pub fn message_1(values: &mut Stack) -> Value
    requires { CanBuild N.Message 1 (reverse values.old) }
    ensures { IsBuilt N.Message 1 (reverse values.old) result (reverse values.new) }
{
    let second_mark = take_mark(values);
    let mark = take_mark(values);
    let extent = join(Some(mark), join(Some(second_mark), None));
    let value = ();
    Value::Nothing(Spanned { value, extent })
}

/// `AssertEnd` of: Comma AfterAssertComma.
pub fn assert_end_1(values: &mut Stack) -> Value
    requires { CanBuild N.AssertEnd 1 (reverse values.old) }
    ensures { IsBuilt N.AssertEnd 1 (reverse values.old) result (reverse values.new) }
{
    let nothing = take_nothing(values);
    let mark = take_mark(values);
    let extent = join(Some(mark), join(nothing.extent, None));
    let value = ();
    Value::Nothing(Spanned { value, extent })
}

/// `AfterName(Free)` of: nothing.
pub fn after_name_free_0(values: &mut Stack) -> Value
    requires { CanBuild (N.AfterName At.Free) 0 (reverse values.old) }
    ensures { IsBuilt (N.AfterName At.Free) 0 (reverse values.old) result (reverse values.new) }
{
    let extent = None;
    let value = path_ways::alone();
    Value::After(Spanned { value, extent })
}

/// `AfterName(Free)` of: NameMore(Free).
pub fn after_name_free_1(values: &mut Stack) -> Value
    requires { CanBuild (N.AfterName At.Free) 1 (reverse values.old) }
    ensures { IsBuilt (N.AfterName At.Free) 1 (reverse values.old) result (reverse values.new) }
{
    let rest = take_after(values);
    let extent = join(rest.extent, None);
    Value::After(Spanned {
        value: rest.value,
        extent,
    })
}

/// `AfterPanic(Free)` of: Not OpenBracket Message.
pub fn after_panic_free_2(values: &mut Stack) -> Value
    requires { CanBuild (N.AfterPanic At.Free) 2 (reverse values.old) }
    ensures { IsBuilt (N.AfterPanic At.Free) 2 (reverse values.old) result (reverse values.new) }
{
    let nothing = take_nothing(values);
    let second_mark = take_mark(values);
    let mark = take_mark(values);
    let extent = join(
        Some(mark),
        join(Some(second_mark), join(nothing.extent, None)),
    );
    let value = path_ways::panics();
    Value::After(Spanned { value, extent })
}

/// `AfterAssert(Free)` of: Not OpenBracket Expression(Free) AssertEnd.
pub fn after_assert_free_2(values: &mut Stack) -> Value
    requires { CanBuild (N.AfterAssert At.Free) 2 (reverse values.old) }
    ensures { IsBuilt (N.AfterAssert At.Free) 2 (reverse values.old) result (reverse values.new) }
{
    let rest = take_nothing(values);
    let condition = take_expr(values);
    let bracket = take_token(values);
    let mark = take_token(values);
    let extent = join(
        Some(mark.span),
        join(
            Some(bracket.span),
            join(condition.extent, join(rest.extent, None)),
        ),
    );
    let value = path_ways::asserts(span_of(extent), mark, bracket, condition, rest);
    Value::After(Spanned { value, extent })
}

/// `AfterMem(Free)` of: Applied(Free).
pub fn after_mem_free_1(values: &mut Stack) -> Value
    requires { CanBuild (N.AfterMem At.Free) 1 (reverse values.old) }
    ensures { IsBuilt (N.AfterMem At.Free) 1 (reverse values.old) result (reverse values.new) }
{
    let more = take_further(values);
    let extent = join(more.extent, None);
    let value = path_ways::applied(span_of(extent), more);
    Value::After(Spanned { value, extent })
}

/// `AfterMem(Free)` of: Colons AfterMemColons(Free).
pub fn after_mem_free_2(values: &mut Stack) -> Value
    requires { CanBuild (N.AfterMem At.Free) 2 (reverse values.old) }
    ensures { IsBuilt (N.AfterMem At.Free) 2 (reverse values.old) result (reverse values.new) }
{
    let rest = take_after(values);
    let mark = take_mark(values);
    let extent = join(Some(mark), join(rest.extent, None));
    Value::After(Spanned {
        value: rest.value,
        extent,
    })
}

/// `Applied(Free)` of: OpenBracket List(Arguments).
pub fn applied_free_0(values: &mut Stack) -> Value
    requires { CanBuild (N.Applied At.Free) 0 (reverse values.old) }
    ensures { IsBuilt (N.Applied At.Free) 0 (reverse values.old) result (reverse values.new) }
{
    let exprs = take_exprs(values);
    let bracket = take_token(values);
    let extent = join(Some(bracket.span), join(exprs.extent, None));
    let value = path_ways::arguments(span_of(extent), bracket, exprs);
    Value::Further(Spanned { value, extent })
}

/// `Applied(Free)` of: OpenBrace List(Initials).
pub fn applied_free_1(values: &mut Stack) -> Value
    requires { CanBuild (N.Applied At.Free) 1 (reverse values.old) }
    ensures { IsBuilt (N.Applied At.Free) 1 (reverse values.old) result (reverse values.new) }
{
    let initials = take_initials(values);
    let brace = take_token(values);
    let extent = join(Some(brace.span), join(initials.extent, None));
    let value = path_ways::fields(span_of(extent), brace, initials);
    Value::Further(Spanned { value, extent })
}

/// `AfterColons(Free)` of: Less List(TypesInAngles) AfterTurbo(Free).
pub fn after_colons_free_0(values: &mut Stack) -> Value
    requires { CanBuild (N.AfterColons At.Free) 0 (reverse values.old) }
    ensures { IsBuilt (N.AfterColons At.Free) 0 (reverse values.old) result (reverse values.new) }
{
    let more = take_further(values);
    let types = take_writtens(values);
    let less = take_token(values);
    let extent = join(Some(less.span), join(types.extent, join(more.extent, None)));
    let value = path_ways::with_types(span_of(extent), less, types, more);
    Value::After(Spanned { value, extent })
}

/// `AfterColons(Free)` of: Identifier AfterPath. The only error is want of memory.
pub fn after_colons_free_1(alloc: Global, values: &mut Stack) -> Result<Value, NoMem>
    requires { CanBuild (N.AfterColons At.Free) 1 (reverse values.old) }
    ensures { IfOk result (λ it. IsBuilt (N.AfterColons At.Free) 1 (reverse values.old) it (reverse values.new)) }
{
    let rest = take_calling(values);
    let name = take_token(values);
    let extent = join(Some(name.span), join(rest.extent, None));
    let value = path_ways::second_name(alloc, span_of(extent), name, rest)?;
    Ok(Value::After(Spanned { value, extent }))
}

/// `AfterMemColons(Free)` of: SwapName AfterPath.
pub fn after_mem_colons_free_1(values: &mut Stack) -> Value
    requires { CanBuild (N.AfterMemColons At.Free) 1 (reverse values.old) }
    ensures { IsBuilt (N.AfterMemColons At.Free) 1 (reverse values.old) result (reverse values.new) }
{
    let rest = take_calling(values);
    let word = take_token(values);
    let extent = join(Some(word.span), join(rest.extent, None));
    let value = path_ways::built_in_name(span_of(extent), word, rest);
    Value::After(Spanned { value, extent })
}

/// `AfterStdColons(Free)` of: Mem AfterStdMem. The only error is want of memory.
pub fn after_std_colons_free_1(alloc: Global, values: &mut Stack) -> Result<Value, NoMem>
    requires { CanBuild (N.AfterStdColons At.Free) 1 (reverse values.old) }
    ensures { IfOk result (λ it. IsBuilt (N.AfterStdColons At.Free) 1 (reverse values.old) it (reverse values.new)) }
{
    let rest = take_in_mem(values);
    let mem = take_token(values);
    let extent = join(Some(mem.span), join(rest.extent, None));
    let value = path_ways::std_mem(alloc, span_of(extent), mem, rest)?;
    Ok(Value::After(Spanned { value, extent }))
}

/// `AfterTurbo(Free)` of: Applied(Free).
pub fn after_turbo_free_0(values: &mut Stack) -> Value
    requires { CanBuild (N.AfterTurbo At.Free) 0 (reverse values.old) }
    ensures { IsBuilt (N.AfterTurbo At.Free) 0 (reverse values.old) result (reverse values.new) }
{
    let more = take_further(values);
    let extent = join(more.extent, None);
    Value::Further(Spanned {
        value: more.value,
        extent,
    })
}

/// `AfterTurbo(Free)` of: Colons Identifier AfterPath. The only error is want of memory.
pub fn after_turbo_free_1(alloc: Global, values: &mut Stack) -> Result<Value, NoMem>
    requires { CanBuild (N.AfterTurbo At.Free) 1 (reverse values.old) }
    ensures { IfOk result (λ it. IsBuilt (N.AfterTurbo At.Free) 1 (reverse values.old) it (reverse values.new)) }
{
    let rest = take_calling(values);
    let name = take_token(values);
    let colons = take_token(values);
    let extent = join(
        Some(colons.span),
        join(Some(name.span), join(rest.extent, None)),
    );
    let value = path_ways::later_name(alloc, span_of(extent), colons, name, rest)?;
    Ok(Value::Further(Spanned { value, extent }))
}
