//! Prints items.
ghost use Rattle.std.specs.Prelude.{◌≡◌, [], ◌++◌, OnOk, string_bytes, codes};
ghost use Rattle.rust_ast.specs.SourceTypes as trees;
ghost use Rattle.rust_printer.specs.Shown as spec;
ghost use Rattle.rust_printer.specs.ShownWords.{mut_text, word_text};
ghost use Rattle.rust_printer.specs.ShownTypes.{type_text, types_text};

use crate::expressions::put_block;
use crate::put::{put, put_word};
use crate::types::{put_type, put_types};
use crate::words::mut_word;
use aen_base::{Name, NoMem, Span};
use rust_ast::Ident;
use rust_ast::program::{Enum, Fields, Function, Item, Param, Struct, Variant};
use rust_ast::source_types::Written;

/// Adds names, each with a comma.
fn put_names(out: &mut String, names: &[Ident]) -> Result<(), NoMem>
    ensures { OnOk result (string_bytes out.new ≡ string_bytes out.old ++ spec.names_text names.now) }
{
    for name in names {
        put_word(out, name.name.as_str())?;
        put(out, ", ")?;
    }
    Ok(())
}

/// Adds lifetimes and type parameters in angle brackets.
fn put_generics(out: &mut String, lifetimes: &[Ident], names: &[Ident]) -> Result<(), NoMem>
    ensures { OnOk result (string_bytes out.new ≡ string_bytes out.old ++ spec.generics_text lifetimes.now names.now) }
{
    put(out, "< ")?;
    put_names(out, lifetimes)?;
    put_names(out, names)?;
    put(out, "> ")
}

fn put_param(out: &mut String, param: &Param) -> Result<(), NoMem>
    ensures { OnOk result (string_bytes out.new ≡ string_bytes out.old ++ (mut_text param.now.mutable ++ (word_text param.now.name.name ++ (codes ": " ++ (type_text param.now.ty ++ codes ", "))))) }
{
    put(out, mut_word(param.mutable))?;
    put_word(out, param.name.name.as_str())?;
    put(out, ": ")?;
    put_type(out, &param.ty)?;
    put(out, ", ")
}

fn put_params(out: &mut String, params: &[Param]) -> Result<(), NoMem>
    ensures { OnOk result (string_bytes out.new ≡ string_bytes out.old ++ spec.params_text params.now) }
{
    for param in params {
        put_param(out, param)?;
    }
    Ok(())
}

fn put_result(out: &mut String, result_type: &Option<Written>) -> Result<(), NoMem>
    ensures { OnOk result (string_bytes out.new ≡ string_bytes out.old ++ spec.result_text result_type.now) }
{
    match result_type {
        None => put(out, ""),
        Some(ty) => {
            put(out, "-> ")?;
            put_type(out, ty)
        }
    }
}

fn put_function(out: &mut String, function: &Function) -> Result<(), NoMem>
    ensures { OnOk result (string_bytes out.new ≡ string_bytes out.old ++ spec.function_text function.now) }
{
    put(out, "fn ")?;
    put_word(out, function.name.name.as_str())?;
    put_generics(
        out,
        function.lifetimes.as_slice(),
        function.type_params.as_slice(),
    )?;
    put(out, "( ")?;
    put_params(out, function.params.as_slice())?;
    put(out, ") ")?;
    put_result(out, &function.result)?;
    put_block(out, &function.body)
}

fn put_named_field(out: &mut String, field: &(Span, Name, Written)) -> Result<(), NoMem>
    ensures { OnOk result (string_bytes out.new ≡ string_bytes out.old ++ (word_text field.now.1 ++ (codes ": " ++ (type_text field.now.2 ++ codes ", ")))) }
{
    put_word(out, field.1.as_str())?;
    put(out, ": ")?;
    put_type(out, &field.2)?;
    put(out, ", ")
}

fn put_named_fields(out: &mut String, fields: &[(Span, Name, Written)]) -> Result<(), NoMem>
    ensures { OnOk result (string_bytes out.new ≡ string_bytes out.old ++ spec.named_fields_text fields.now) }
{
    for field in fields {
        put_named_field(out, field)?;
    }
    Ok(())
}

fn put_fields(out: &mut String, fields: &Fields) -> Result<(), NoMem>
    ensures { OnOk result (string_bytes out.new ≡ string_bytes out.old ++ spec.fields_text fields.now) }
{
    match fields {
        Fields::Named(named) => {
            put(out, "{ ")?;
            put_named_fields(out, named.as_slice())?;
            put(out, "} ")
        }
        Fields::Placed(types) => {
            put(out, "( ")?;
            put_types(out, types.as_slice())?;
            put(out, ") ; ")
        }
    }
}

fn put_struct(out: &mut String, declared: &Struct) -> Result<(), NoMem>
    ensures { OnOk result (string_bytes out.new ≡ string_bytes out.old ++ spec.struct_text declared.now) }
{
    put(out, "struct ")?;
    put_word(out, declared.name.name.as_str())?;
    put_generics(out, &[], declared.params.as_slice())?;
    put_fields(out, &declared.fields)
}

fn put_variant(out: &mut String, variant: &Variant) -> Result<(), NoMem>
    ensures { OnOk result (string_bytes out.new ≡ string_bytes out.old ++ (word_text variant.now.name.name ++ (codes "( " ++ (types_text (trees.writtens variant.now.fields) ++ codes ") , ")))) }
{
    put_word(out, variant.name.name.as_str())?;
    put(out, "( ")?;
    put_types(out, variant.fields.as_slice())?;
    put(out, ") , ")
}

fn put_variants(out: &mut String, variants: &[Variant]) -> Result<(), NoMem>
    ensures { OnOk result (string_bytes out.new ≡ string_bytes out.old ++ spec.variants_text variants.now) }
{
    for variant in variants {
        put_variant(out, variant)?;
    }
    Ok(())
}

fn put_enum(out: &mut String, declared: &Enum) -> Result<(), NoMem>
    ensures { OnOk result (string_bytes out.new ≡ string_bytes out.old ++ spec.enum_text declared.now) }
{
    put(out, "enum ")?;
    put_word(out, declared.name.name.as_str())?;
    put_generics(out, &[], declared.params.as_slice())?;
    put(out, "{ ")?;
    put_variants(out, declared.variants.as_slice())?;
    put(out, "} ")
}

fn put_item(out: &mut String, item: &Item) -> Result<(), NoMem>
    ensures { OnOk result (string_bytes out.new ≡ string_bytes out.old ++ spec.item_text item.now) }
{
    match item {
        Item::Function(function) => put_function(out, function),
        Item::Struct(declared) => put_struct(out, declared),
        Item::Enum(declared) => put_enum(out, declared),
        Item::UseMem => put(out, "use std :: mem ; "),
    }
}

/// Adds items.
pub(crate) fn put_items(out: &mut String, items: &[Item]) -> Result<(), NoMem>
    ensures { OnOk result (string_bytes out.new ≡ string_bytes out.old ++ spec.items_text items.now) }
{
    for item in items {
        put_item(out, item)?;
    }
    Ok(())
}
