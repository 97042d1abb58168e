//! What productions of items build. Written by tools/source_build.py.

ghost use Rattle.std.specs.Prelude.{◌≡◌, reverse, IfOk};
ghost use Rattle.source_grammar.specs.declared.part.Part.TheVariants as N;
ghost use Rattle.source_values.specs.Stacked.{CanBuild, IsBuilt};

use aen_base::{Boxed, NoMem};
use item_ways::items;
use source_values::taking::blocks::take_block;
use source_values::taking::items::{
    take_fields, take_generics, take_idents, take_item, take_items, take_nothing, take_params,
    take_variants,
};
use source_values::taking::types::{take_maybe_written, take_written};
use source_values::taking::{take_mark, take_token};
use source_values::{Stack, Value};
use source_ways::front_list::FrontList;
use source_ways::spanned::Spanned;
use source_ways::spans::{join, span_of};
use std::alloc::Global;

/// `Program` of: nothing.
pub fn program_0(alloc: Global, values: &mut Stack) -> Value
    requires { CanBuild N.Program 0 (reverse values.old) }
    ensures { IsBuilt N.Program 0 (reverse values.old) result (reverse values.new) }
{
    let extent = None;
    let value = FrontList::new(alloc);
    Value::Items(Spanned { value, extent })
}

/// `Program` of: Hash AfterHash.
pub fn program_1(values: &mut Stack) -> Value
    requires { CanBuild N.Program 1 (reverse values.old) }
    ensures { IsBuilt N.Program 1 (reverse values.old) result (reverse values.new) }
{
    let items = take_items(values);
    let mark = take_mark(values);
    let extent = join(Some(mark), join(items.extent, None));
    Value::Items(Spanned {
        value: items.value,
        extent,
    })
}

/// `Program` of: Item Items. The only error is want of memory.
pub fn program_2(values: &mut Stack) -> Result<Value, NoMem>
    requires { CanBuild N.Program 2 (reverse values.old) }
    ensures { IfOk result (λ it. IsBuilt N.Program 2 (reverse values.old) it (reverse values.new)) }
{
    let more = take_items(values);
    let item = take_item(values);
    let extent = join(item.extent, join(more.extent, None));
    let value = items::first_item(span_of(extent), item, more)?;
    Ok(Value::Items(Spanned { value, extent }))
}

/// `AfterHash` of: Not OpenSquare Allow OpenBracket List(Names) CloseSquare Program.
pub fn after_hash_0(values: &mut Stack) -> Value
    requires { CanBuild N.AfterHash 0 (reverse values.old) }
    ensures { IsBuilt N.AfterHash 0 (reverse values.old) result (reverse values.new) }
{
    let items = take_items(values);
    let fifth_mark = take_mark(values);
    let idents = take_idents(values);
    let fourth_mark = take_mark(values);
    let third_mark = take_mark(values);
    let second_mark = take_mark(values);
    let mark = take_mark(values);
    let extent = join(
        Some(mark),
        join(
            Some(second_mark),
            join(
                Some(third_mark),
                join(
                    Some(fourth_mark),
                    join(
                        idents.extent,
                        join(Some(fifth_mark), join(items.extent, None)),
                    ),
                ),
            ),
        ),
    );
    Value::Items(Spanned {
        value: items.value,
        extent,
    })
}

/// `AfterHash` of: Attribute Attributed Items. The only error is want of memory.
pub fn after_hash_1(values: &mut Stack) -> Result<Value, NoMem>
    requires { CanBuild N.AfterHash 1 (reverse values.old) }
    ensures { IfOk result (λ it. IsBuilt N.AfterHash 1 (reverse values.old) it (reverse values.new)) }
{
    let items = take_items(values);
    let item = take_item(values);
    let nothing = take_nothing(values);
    let extent = join(nothing.extent, join(item.extent, join(items.extent, None)));
    let value = items.value.push(item.value)?;
    Ok(Value::Items(Spanned { value, extent }))
}

/// `Items` of: Hash Attribute Attributed Items. The only error is want of memory.
pub fn items_1(values: &mut Stack) -> Result<Value, NoMem>
    requires { CanBuild N.Items 1 (reverse values.old) }
    ensures { IfOk result (λ it. IsBuilt N.Items 1 (reverse values.old) it (reverse values.new)) }
{
    let items = take_items(values);
    let item = take_item(values);
    let nothing = take_nothing(values);
    let mark = take_mark(values);
    let extent = join(
        Some(mark),
        join(nothing.extent, join(item.extent, join(items.extent, None))),
    );
    let value = items.value.push(item.value)?;
    Ok(Value::Items(Spanned { value, extent }))
}

/// `Attribute` of: OpenSquare AttributeName OpenBracket List(Names) CloseSquare.
pub fn attribute_0(values: &mut Stack) -> Value
    requires { CanBuild N.Attribute 0 (reverse values.old) }
    ensures { IsBuilt N.Attribute 0 (reverse values.old) result (reverse values.new) }
{
    let fourth_mark = take_mark(values);
    let idents = take_idents(values);
    let third_mark = take_mark(values);
    let second_mark = take_mark(values);
    let mark = take_mark(values);
    let extent = join(
        Some(mark),
        join(
            Some(second_mark),
            join(
                Some(third_mark),
                join(idents.extent, join(Some(fourth_mark), None)),
            ),
        ),
    );
    let value = ();
    Value::Nothing(Spanned { value, extent })
}

/// `Attributed` of: Hash Attribute Attributed. The only error is want of memory.
pub fn attributed_0(alloc: Global, values: &mut Stack) -> Result<Value, NoMem>
    requires { CanBuild N.Attributed 0 (reverse values.old) }
    ensures { IfOk result (λ it. IsBuilt N.Attributed 0 (reverse values.old) it (reverse values.new)) }
{
    let item = take_item(values);
    let nothing = take_nothing(values);
    let mark = take_mark(values);
    let extent = join(Some(mark), join(nothing.extent, join(item.extent, None)));
    Ok(Value::Item(Boxed::new(
        alloc,
        Spanned {
            value: item.value,
            extent,
        },
    )?))
}

/// `Attributed` of: Pub Declaration. The only error is want of memory.
pub fn attributed_1(alloc: Global, values: &mut Stack) -> Result<Value, NoMem>
    requires { CanBuild N.Attributed 1 (reverse values.old) }
    ensures { IfOk result (λ it. IsBuilt N.Attributed 1 (reverse values.old) it (reverse values.new)) }
{
    let item = take_item(values);
    let mark = take_mark(values);
    let extent = join(Some(mark), join(item.extent, None));
    Ok(Value::Item(Boxed::new(
        alloc,
        Spanned {
            value: item.value,
            extent,
        },
    )?))
}

/// `Attributed` of: Declaration. The only error is want of memory.
pub fn attributed_2(alloc: Global, values: &mut Stack) -> Result<Value, NoMem>
    requires { CanBuild N.Attributed 2 (reverse values.old) }
    ensures { IfOk result (λ it. IsBuilt N.Attributed 2 (reverse values.old) it (reverse values.new)) }
{
    let item = take_item(values);
    let extent = join(item.extent, None);
    Ok(Value::Item(Boxed::new(
        alloc,
        Spanned {
            value: item.value,
            extent,
        },
    )?))
}

/// `Item` of: Use Std Colons Mem Semicolon. The only error is want of memory.
pub fn item_2(alloc: Global, values: &mut Stack) -> Result<Value, NoMem>
    requires { CanBuild N.Item 2 (reverse values.old) }
    ensures { IfOk result (λ it. IsBuilt N.Item 2 (reverse values.old) it (reverse values.new)) }
{
    let fifth_mark = take_mark(values);
    let fourth_mark = take_mark(values);
    let third_mark = take_mark(values);
    let second_mark = take_mark(values);
    let mark = take_mark(values);
    let extent = join(
        Some(mark),
        join(
            Some(second_mark),
            join(
                Some(third_mark),
                join(Some(fourth_mark), join(Some(fifth_mark), None)),
            ),
        ),
    );
    let value = items::use_mem();
    Ok(Value::Item(Boxed::new(alloc, Spanned { value, extent })?))
}

/// `Declaration` of: Fn Identifier Generics OpenBracket List(Parameters) Result Block. The only error is want of memory.
pub fn declaration_0(alloc: Global, values: &mut Stack) -> Result<Value, NoMem>
    requires { CanBuild N.Declaration 0 (reverse values.old) }
    ensures { IfOk result (λ it. IsBuilt N.Declaration 0 (reverse values.old) it (reverse values.new)) }
{
    let body = take_block(values);
    let output = take_maybe_written(values);
    let params = take_params(values);
    let bracket = take_token(values);
    let generics = take_generics(values);
    let name = take_token(values);
    let word = take_token(values);
    let extent = join(
        Some(word.span),
        join(
            Some(name.span),
            join(
                generics.extent,
                join(
                    Some(bracket.span),
                    join(params.extent, join(output.extent, join(body.extent, None))),
                ),
            ),
        ),
    );
    let value = items::function(
        alloc,
        span_of(extent),
        word,
        name,
        generics,
        bracket,
        params,
        output,
        body,
    )?;
    Ok(Value::Item(Boxed::new(alloc, Spanned { value, extent })?))
}

/// `Declaration` of: Struct Identifier TypeParameters StructBody. The only error is want of memory.
pub fn declaration_1(alloc: Global, values: &mut Stack) -> Result<Value, NoMem>
    requires { CanBuild N.Declaration 1 (reverse values.old) }
    ensures { IfOk result (λ it. IsBuilt N.Declaration 1 (reverse values.old) it (reverse values.new)) }
{
    let fields = take_fields(values);
    let params = take_idents(values);
    let name = take_token(values);
    let word = take_token(values);
    let extent = join(
        Some(word.span),
        join(
            Some(name.span),
            join(params.extent, join(fields.extent, None)),
        ),
    );
    let value = items::structure(alloc, span_of(extent), word, name, params, fields)?;
    Ok(Value::Item(Boxed::new(alloc, Spanned { value, extent })?))
}

/// `Declaration` of: Enum Identifier TypeParameters OpenBrace List(Variants). The only error is want of memory.
pub fn declaration_2(alloc: Global, values: &mut Stack) -> Result<Value, NoMem>
    requires { CanBuild N.Declaration 2 (reverse values.old) }
    ensures { IfOk result (λ it. IsBuilt N.Declaration 2 (reverse values.old) it (reverse values.new)) }
{
    let variants = take_variants(values);
    let brace = take_token(values);
    let params = take_idents(values);
    let name = take_token(values);
    let word = take_token(values);
    let extent = join(
        Some(word.span),
        join(
            Some(name.span),
            join(
                params.extent,
                join(Some(brace.span), join(variants.extent, None)),
            ),
        ),
    );
    let value = items::enumeration(alloc, span_of(extent), word, name, params, brace, variants)?;
    Ok(Value::Item(Boxed::new(alloc, Spanned { value, extent })?))
}

/// `Parameter` of: Mut Identifier Colon Type. The only error is want of memory.
pub fn parameter_0(alloc: Global, values: &mut Stack) -> Result<Value, NoMem>
    requires { CanBuild N.Parameter 0 (reverse values.old) }
    ensures { IfOk result (λ it. IsBuilt N.Parameter 0 (reverse values.old) it (reverse values.new)) }
{
    let ty = take_written(values);
    let second_mark = take_mark(values);
    let name = take_token(values);
    let mark = take_mark(values);
    let extent = join(
        Some(mark),
        join(
            Some(name.span),
            join(Some(second_mark), join(ty.extent, None)),
        ),
    );
    let value = items::parameter(alloc, true, name, ty)?;
    Ok(Value::Param(Spanned { value, extent }))
}

/// `Parameter` of: Identifier Colon Type. The only error is want of memory.
pub fn parameter_1(alloc: Global, values: &mut Stack) -> Result<Value, NoMem>
    requires { CanBuild N.Parameter 1 (reverse values.old) }
    ensures { IfOk result (λ it. IsBuilt N.Parameter 1 (reverse values.old) it (reverse values.new)) }
{
    let ty = take_written(values);
    let mark = take_mark(values);
    let name = take_token(values);
    let extent = join(Some(name.span), join(Some(mark), join(ty.extent, None)));
    let value = items::parameter(alloc, false, name, ty)?;
    Ok(Value::Param(Spanned { value, extent }))
}

/// `Result` of: nothing.
pub fn result_0(values: &mut Stack) -> Value
    requires { CanBuild N.Result 0 (reverse values.old) }
    ensures { IsBuilt N.Result 0 (reverse values.old) result (reverse values.new) }
{
    let extent = None;
    let value = None;
    Value::MaybeWritten(Spanned { value, extent })
}

/// `Result` of: Arrow Type.
pub fn result_1(values: &mut Stack) -> Value
    requires { CanBuild N.Result 1 (reverse values.old) }
    ensures { IsBuilt N.Result 1 (reverse values.old) result (reverse values.new) }
{
    let ty = take_written(values);
    let mark = take_mark(values);
    let extent = join(Some(mark), join(ty.extent, None));
    let value = Some(ty.value);
    Value::MaybeWritten(Spanned { value, extent })
}
