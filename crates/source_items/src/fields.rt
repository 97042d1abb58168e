//! What productions of fields build. Written by tools/source_build.py.

ghost use Rattle.std.specs.Prelude.{◌≡◌, reverse, IfOk};
ghost use Rattle.source_grammar.specs.declared.part.Part.TheVariants as N;
ghost use Rattle.source_values.specs.Stacked.{CanBuild, IsBuilt};

use aen_base::NoMem;
use item_ways::items;
use source_values::taking::items::take_named_fields;
use source_values::taking::types::{take_written, take_writtens};
use source_values::taking::{take_mark, take_token};
use source_values::{Stack, Value};
use source_ways::front_list::FrontList;
use source_ways::spanned::Spanned;
use source_ways::spans::{join, span_of};
use std::alloc::Global;

/// `StructBody` of: OpenBrace List(Fields).
pub fn struct_body_0(alloc: Global, values: &mut Stack) -> Value
    requires { CanBuild N.StructBody 0 (reverse values.old) }
    ensures { IsBuilt N.StructBody 0 (reverse values.old) result (reverse values.new) }
{
    let fields = take_named_fields(values);
    let brace = take_token(values);
    let extent = join(Some(brace.span), join(fields.extent, None));
    let value = items::braces(alloc, span_of(extent), brace, fields);
    Value::Fields(Spanned { value, extent })
}

/// `StructBody` of: OpenBracket List(TupleFields) Semicolon.
pub fn struct_body_1(values: &mut Stack) -> Value
    requires { CanBuild N.StructBody 1 (reverse values.old) }
    ensures { IsBuilt N.StructBody 1 (reverse values.old) result (reverse values.new) }
{
    let semicolon = take_token(values);
    let types = take_writtens(values);
    let bracket = take_token(values);
    let extent = join(
        Some(bracket.span),
        join(types.extent, join(Some(semicolon.span), None)),
    );
    let value = items::brackets(span_of(extent), bracket, types, semicolon);
    Value::Fields(Spanned { value, extent })
}

/// `StructBody` of: Semicolon.
pub fn struct_body_2(alloc: Global, values: &mut Stack) -> Value
    requires { CanBuild N.StructBody 2 (reverse values.old) }
    ensures { IsBuilt N.StructBody 2 (reverse values.old) result (reverse values.new) }
{
    let mark = take_mark(values);
    let extent = join(Some(mark), None);
    let value = items::no_fields(alloc);
    Value::Fields(Spanned { value, extent })
}

/// `Field` of: Pub Identifier Colon Type. The only error is want of memory.
pub fn field_0(alloc: Global, values: &mut Stack) -> Result<Value, NoMem>
    requires { CanBuild N.Field 0 (reverse values.old) }
    ensures { IfOk result (λ it. IsBuilt N.Field 0 (reverse values.old) it (reverse values.new)) }
{
    let ty = take_written(values);
    let second_mark = take_mark(values);
    let name = take_token(values);
    let mark = take_mark(values);
    let extent = join(
        Some(mark),
        join(
            Some(name.span),
            join(Some(second_mark), join(ty.extent, None)),
        ),
    );
    let value = items::field(alloc, name, ty)?;
    Ok(Value::Field(Spanned { value, extent }))
}

/// `Field` of: Identifier Colon Type. The only error is want of memory.
pub fn field_1(alloc: Global, values: &mut Stack) -> Result<Value, NoMem>
    requires { CanBuild N.Field 1 (reverse values.old) }
    ensures { IfOk result (λ it. IsBuilt N.Field 1 (reverse values.old) it (reverse values.new)) }
{
    let ty = take_written(values);
    let mark = take_mark(values);
    let name = take_token(values);
    let extent = join(Some(name.span), join(Some(mark), join(ty.extent, None)));
    let value = items::field(alloc, name, ty)?;
    Ok(Value::Field(Spanned { value, extent }))
}

/// `TupleField` of: Pub Type.
pub fn tuple_field_0(values: &mut Stack) -> Value
    requires { CanBuild N.TupleField 0 (reverse values.old) }
    ensures { IsBuilt N.TupleField 0 (reverse values.old) result (reverse values.new) }
{
    let ty = take_written(values);
    let mark = take_mark(values);
    let extent = join(Some(mark), join(ty.extent, None));
    Value::Written(Spanned {
        value: ty.value,
        extent,
    })
}

/// `TupleField` of: Type.
pub fn tuple_field_1(values: &mut Stack) -> Value
    requires { CanBuild N.TupleField 1 (reverse values.old) }
    ensures { IsBuilt N.TupleField 1 (reverse values.old) result (reverse values.new) }
{
    let ty = take_written(values);
    let extent = join(ty.extent, None);
    Value::Written(Spanned {
        value: ty.value,
        extent,
    })
}

/// `Variant` of: Identifier VariantBody. The only error is want of memory.
pub fn variant_0(alloc: Global, values: &mut Stack) -> Result<Value, NoMem>
    requires { CanBuild N.Variant 0 (reverse values.old) }
    ensures { IfOk result (λ it. IsBuilt N.Variant 0 (reverse values.old) it (reverse values.new)) }
{
    let types = take_writtens(values);
    let name = take_token(values);
    let extent = join(Some(name.span), join(types.extent, None));
    let value = items::variant(alloc, span_of(extent), name, types)?;
    Ok(Value::Variant(Spanned { value, extent }))
}

/// `VariantBody` of: nothing.
pub fn variant_body_0(alloc: Global, values: &mut Stack) -> Value
    requires { CanBuild N.VariantBody 0 (reverse values.old) }
    ensures { IsBuilt N.VariantBody 0 (reverse values.old) result (reverse values.new) }
{
    let extent = None;
    let value = FrontList::new(alloc);
    Value::Writtens(Spanned { value, extent })
}

/// `VariantBody` of: OpenBracket List(Types).
pub fn variant_body_1(values: &mut Stack) -> Value
    requires { CanBuild N.VariantBody 1 (reverse values.old) }
    ensures { IsBuilt N.VariantBody 1 (reverse values.old) result (reverse values.new) }
{
    let tys = take_writtens(values);
    let mark = take_mark(values);
    let extent = join(Some(mark), join(tys.extent, None));
    Value::Writtens(Spanned {
        value: tys.value,
        extent,
    })
}
