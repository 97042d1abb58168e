//! Prints types and paths.
ghost use Rattle.std.specs.Prelude.{◌≡◌, ◌++◌, OnOk, string_bytes};
ghost use Rattle.rust_ast.specs.SourceTypes as trees;
ghost use Rattle.rust_printer.specs.ShownTypes as spec;

use crate::put::{put, put_word};
use crate::words::{int_word, mut_word};
use aen_base::NoMem;
use rust_ast::Ident;
use rust_ast::source_types::{
    Lifetime, LifetimeNode, Path, PathNode, Turbo, TurboNode, Written, WrittenNode,
};

fn put_lifetime(out: &mut String, life: &Lifetime) -> Result<(), NoMem>
    ensures { OnOk result (string_bytes out.new ≡ string_bytes out.old ++ spec.lifetime_text life.now) }
{
    match &life.node {
        LifetimeNode::Elided => put(out, ""),
        LifetimeNode::Lifetime(name) => put_word(out, name.name.as_str()),
    }
}

/// Adds a type.
#[cycle(ty)]
pub(crate) fn put_type(out: &mut String, ty: &Written) -> Result<(), NoMem>
    ensures { OnOk result (string_bytes out.new ≡ string_bytes out.old ++ spec.type_text ty.now) }
{
    match &ty.node {
        WrittenNode::Int(_, int) => Ok(put_word(out, int_word(*int))?),
        WrittenNode::Bool(_) => Ok(put(out, "bool ")?),
        WrittenNode::Unit(_) => Ok(put(out, "( ) ")?),
        WrittenNode::Tuple(_, parts) => {
            put(out, "( ")?;
            put_types(out, parts.as_slice())?;
            Ok(put(out, ") ")?)
        }
        WrittenNode::Ref(_, life, mutable, target) => {
            put(out, "& ")?;
            put_lifetime(out, life)?;
            put(out, mut_word(*mutable))?;
            Ok(put_type(out, target.get())?)
        }
        WrittenNode::Boxed(_, content) => {
            put(out, "Box < ")?;
            put_type(out, content.get())?;
            Ok(put(out, "> ")?)
        }
        WrittenNode::Named(_, name, args) => {
            put_word(out, name.name.as_str())?;
            Ok(put_arguments(out, args.as_slice())?)
        }
    }
}

/// Adds type arguments in angle brackets, where there are any.
#[cycle(ty)]
fn put_arguments(out: &mut String, args: &[Written]) -> Result<(), NoMem>
    ensures { OnOk result (string_bytes out.new ≡ string_bytes out.old ++ spec.arguments_text (trees.writtens args.now)) }
{
    match args {
        [] => Ok(put(out, "")?),
        [first, rest @ ..] => {
            put(out, "< ")?;
            put_type(out, first)?;
            put(out, ", ")?;
            put_types(out, rest)?;
            Ok(put(out, "> ")?)
        }
    }
}

/// Adds types, each with a comma.
#[cycle(ty)]
pub(crate) fn put_types(out: &mut String, parts: &[Written]) -> Result<(), NoMem>
    ensures { OnOk result (string_bytes out.new ≡ string_bytes out.old ++ spec.types_text (trees.writtens parts.now)) }
{
    for part in parts {
        put_type(out, part)?;
        put(out, ", ")?;
    }
    Ok(())
}

/// Adds type arguments after `::`.
pub(crate) fn put_turbo(out: &mut String, turbo: &Turbo) -> Result<(), NoMem>
    ensures { OnOk result (string_bytes out.new ≡ string_bytes out.old ++ spec.turbo_text turbo.now) }
{
    match &turbo.node {
        TurboNode::NoTurbo => put(out, ""),
        TurboNode::Turbo(types) => {
            put(out, ":: < ")?;
            put_types(out, types.as_slice())?;
            put(out, "> ")
        }
    }
}

fn std_words(after_std: bool) -> &'static str
    ensures { result.now ≡ spec.std_text after_std }
{
    if after_std { "std :: " } else { "" }
}

fn put_two(out: &mut String, first: &Ident, turbo: &Turbo, second: &Ident) -> Result<(), NoMem>
    ensures { OnOk result (string_bytes out.new ≡ string_bytes out.old ++ spec.path_text (trees.two first.now turbo.now second.now)) }
{
    put_word(out, first.name.as_str())?;
    put_turbo(out, turbo)?;
    put(out, ":: ")?;
    put_word(out, second.name.as_str())
}

/// Adds a path.
pub(crate) fn put_path(out: &mut String, path: &Path) -> Result<(), NoMem>
    ensures { OnOk result (string_bytes out.new ≡ string_bytes out.old ++ spec.path_text path.now) }
{
    match &path.node {
        PathNode::One(name) => put_word(out, name.name.as_str()),
        PathNode::Two(first, turbo, second) => put_two(out, first, turbo, second),
        PathNode::BoxNew(_) => put(out, "Box :: new "),
        PathNode::MemReplace(_, _, after_std) => {
            put(out, std_words(*after_std))?;
            put(out, "mem :: replace ")
        }
        PathNode::MemSwap(_, _, after_std) => {
            put(out, std_words(*after_std))?;
            put(out, "mem :: swap ")
        }
    }
}
