//! How items are read. Attributes and `pub` have no meaning.

ghost use Rattle.std.specs.Prelude.{◌≡◌, IfOk};
ghost use Rattle.source_ways.specs.Items as spec;

use aen_base::{List, Name, NoMem, Span};
use rust_ast::Ident;
use rust_ast::program::{Enum, Fields, Function, Item, Param, Struct, Variant};
use rust_ast::source::Block;
use rust_ast::source_types::Written;
use source_grammar::Lexeme;
use source_ways::front_list::FrontList;
use source_ways::generics::Generics;
use source_ways::says::ident;
use source_ways::spanned::Spanned;
use std::alloc::Global;

/// An item before others. The only error is want of memory.
pub fn first_item(
    whole: Span,
    item: Spanned<Item>,
    more: Spanned<FrontList<Item>>,
) -> Result<FrontList<Item>, NoMem>
    ensures { IfOk result (λ it. it ≡ spec.first_item whole item more) }
{
    Ok(more.value.push(item.value)?)
}

/// `fn`. The only error is want of memory.
pub fn function(
    alloc: Global,
    whole: Span,
    word: Lexeme,
    name: Lexeme,
    generics: Spanned<Generics>,
    bracket: Lexeme,
    params: Spanned<FrontList<Param>>,
    output: Spanned<Option<Written>>,
    body: Spanned<Block>,
) -> Result<Item, NoMem>
    ensures { IfOk result (λ it. it ≡ spec.function whole word name generics bracket params output body) }
{
    let name = ident(alloc, name)?;
    let Generics {
        lifetimes,
        type_params,
    } = generics.value;
    Ok(Item::Function(Function {
        name,
        lifetimes: lifetimes.into_list(),
        type_params: type_params.into_list(),
        params: params.value.into_list(),
        result: output.value,
        body: body.value,
    }))
}

/// `struct`. The only error is want of memory.
pub fn structure(
    alloc: Global,
    whole: Span,
    word: Lexeme,
    name: Lexeme,
    params: Spanned<FrontList<Ident>>,
    fields: Spanned<Fields>,
) -> Result<Item, NoMem>
    ensures { IfOk result (λ it. it ≡ spec.structure whole word name params fields) }
{
    let name = ident(alloc, name)?;
    Ok(Item::Struct(Struct {
        name,
        params: params.value.into_list(),
        fields: fields.value,
    }))
}

/// `enum`. The only error is want of memory.
pub fn enumeration(
    alloc: Global,
    whole: Span,
    word: Lexeme,
    name: Lexeme,
    params: Spanned<FrontList<Ident>>,
    brace: Lexeme,
    variants: Spanned<FrontList<Variant>>,
) -> Result<Item, NoMem>
    ensures { IfOk result (λ it. it ≡ spec.enumeration whole word name params brace variants) }
{
    let name = ident(alloc, name)?;
    Ok(Item::Enum(Enum {
        name,
        params: params.value.into_list(),
        variants: variants.value.into_list(),
    }))
}

/// No lifetimes and no type parameters.
pub fn no_generics(alloc: Global) -> Generics
    ensures { result ≡ spec.no_generics }
{
    Generics {
        lifetimes: FrontList::new(alloc),
        type_params: FrontList::new(alloc),
    }
}

/// A lifetime before others and before type parameters. The only error is want of memory.
pub fn first_lifetime(
    alloc: Global,
    whole: Span,
    life: Lexeme,
    more: Spanned<Generics>,
) -> Result<Generics, NoMem>
    ensures { IfOk result (λ it. it ≡ spec.first_lifetime whole life more) }
{
    let life = ident(alloc, life)?;
    let Generics {
        lifetimes,
        type_params,
    } = more.value;
    Ok(Generics {
        lifetimes: lifetimes.push(life)?,
        type_params,
    })
}

/// A type parameter before others. The only error is want of memory.
pub fn first_type_parameter(
    alloc: Global,
    whole: Span,
    name: Lexeme,
    more: Spanned<FrontList<Ident>>,
) -> Result<Generics, NoMem>
    ensures { IfOk result (λ it. it ≡ spec.first_type_parameter whole name more) }
{
    let name = ident(alloc, name)?;
    Ok(Generics {
        lifetimes: FrontList::new(alloc),
        type_params: more.value.push(name)?,
    })
}

/// A parameter of a function, and whether `mut` stands before it. The only error is want of memory.
pub fn parameter(
    alloc: Global,
    mutable: bool,
    name: Lexeme,
    ty: Spanned<Written>,
) -> Result<Param, NoMem>
    ensures { IfOk result (λ it. it ≡ spec.parameter mutable name ty) }
{
    let name = ident(alloc, name)?;
    Ok(Param {
        mutable,
        name,
        ty: ty.value,
    })
}

/// The fields of a struct in braces; without fields all forms are one thing.
fn fields_in_braces(alloc: Global, fields: List<(Span, Name, Written)>) -> Fields
    ensures { result ≡ spec.fields_in_braces fields }
{
    if fields.is_empty() {
        return Fields::Placed(List::new(alloc));
    }
    Fields::Named(fields)
}

/// Fields with names in braces; without fields all forms are one thing.
pub fn braces(
    alloc: Global,
    whole: Span,
    brace: Lexeme,
    fields: Spanned<FrontList<(Span, Name, Written)>>,
) -> Fields
    ensures { result ≡ spec.braces whole brace fields }
{
    fields_in_braces(alloc, fields.value.into_list())
}

/// Fields by place.
pub fn brackets(
    whole: Span,
    bracket: Lexeme,
    types: Spanned<FrontList<Written>>,
    semicolon: Lexeme,
) -> Fields
    ensures { result ≡ spec.brackets whole bracket types semicolon }
{
    Fields::Placed(types.value.into_list())
}

/// A field with a name. The only error is want of memory.
pub fn field(
    alloc: Global,
    name: Lexeme,
    ty: Spanned<Written>,
) -> Result<(Span, Name, Written), NoMem>
    ensures { IfOk result (λ it. it ≡ spec.field name ty) }
{
    let name = ident(alloc, name)?;
    Ok((name.span, name.name, ty.value))
}

/// A variant with its fields. The only error is want of memory.
pub fn variant(
    alloc: Global,
    whole: Span,
    name: Lexeme,
    types: Spanned<FrontList<Written>>,
) -> Result<Variant, NoMem>
    ensures { IfOk result (λ it. it ≡ spec.variant whole name types) }
{
    let name = ident(alloc, name)?;
    Ok(Variant {
        name,
        fields: types.value.into_list(),
    })
}

/// A struct without fields.
pub fn no_fields(alloc: Global) -> Fields
    ensures { result ≡ spec.no_fields }
{
    Fields::Placed(List::new(alloc))
}

/// `use std::mem;`.
pub fn use_mem() -> Item
    ensures { result ≡ spec.use_mem }
{
    Item::UseMem
}
