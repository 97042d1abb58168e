//! Types and type arguments with names resolved.

ghost use Rattle.std.specs.Prelude.{◌≡◌, IfOk};
ghost use Rattle.rust_ast.specs.SourceTypes as source;
ghost use Rattle.rust_ast.specs.Written as written;
ghost use Rattle.rust_ast.specs.WrittenView as view;
ghost use Rattle.name_tables.specs.Gives.{Gives, GivesAs};
ghost use Rattle.name_uses.specs.TypeUses as spec;

use aen_base::{Boxed, List, NoMem, Span};
use name_tables::{Generics, Stop, Tables, TypeMeaning, number, type_meaning};
use rust_ast::source_types as source;
use rust_ast::written::{Lifetime, LifetimeNode, Turbos, TurbosNode, Written, WrittenNode};
use std::alloc::Global;

/// The lifetime that is declared, or that none is.
fn lifetime(generics: &Generics, lifetime: &source::Lifetime) -> Result<Lifetime, NoMem>
    ensures { IfOk result (λ l. l ≡ spec.read_lifetime generics.now lifetime.now) }
{
    let node = match &lifetime.node {
        source::LifetimeNode::Elided => LifetimeNode::Elided,
        source::LifetimeNode::Lifetime(name) => match generics.lifetimes.place_of(&name.name) {
            Some(place) => LifetimeNode::Declared(number(place)?),
            None => LifetimeNode::Undeclared,
        },
    };
    Ok(Lifetime { node })
}

/// A type parameter or a declared type with its arguments.
fn as_written(span: Span, meaning: TypeMeaning, arguments: List<Written>) -> Written
    ensures { result ≡ spec.as_written span meaning (written.writtens arguments) }
{
    let node = match meaning {
        TypeMeaning::Parameter(number) => WrittenNode::Param(span, number, arguments),
        TypeMeaning::Declared(id) => WrittenNode::Named(span, id, arguments),
    };
    Written { node }
}

/// A type. A lifetime that is declared nowhere is told apart.
///
/// # Errors
///
/// `Unknown` at the first name in it that is declared nowhere. `Memory` for want of memory, or where a
/// type or a lifetime is no number of 32 bits.
#[cycle(types)]
pub fn resolve_type(
    alloc: Global,
    tables: &Tables,
    generics: &Generics,
    ty: &source::Written,
) -> Result<Written, Stop>
    ensures { Gives (spec.read_type tables.now generics.now ty.now) result }
{
    let node = match &ty.node {
        source::WrittenNode::Int(span, int) => WrittenNode::Int(*span, *int),
        source::WrittenNode::Bool(span) => WrittenNode::Bool(*span),
        source::WrittenNode::Unit(span) => WrittenNode::Unit(*span),
        source::WrittenNode::Tuple(span, parts) => {
            let parts = resolve_types(alloc, tables, generics, parts.as_slice())?;
            WrittenNode::Tuple(*span, parts)
        }
        source::WrittenNode::Ref(span, life, mutable, content) => {
            let content = resolve_type(alloc, tables, generics, content.get())?;
            let life = lifetime(generics, life)?;
            WrittenNode::Ref(*span, life, *mutable, Boxed::new(alloc, content)?)
        }
        source::WrittenNode::Boxed(span, content) => {
            let content = resolve_type(alloc, tables, generics, content.get())?;
            WrittenNode::Boxed(*span, Boxed::new(alloc, content)?)
        }
        source::WrittenNode::Named(span, name, arguments) => {
            let meaning = type_meaning(tables, generics, name)?;
            let arguments = resolve_types(alloc, tables, generics, arguments.as_slice())?;
            return Ok(as_written(*span, meaning, arguments));
        }
    };
    Ok(Written { node })
}

/// Types from left to right.
#[cycle(types)]
pub(crate) fn resolve_types(
    alloc: Global,
    tables: &Tables,
    generics: &Generics,
    types: &[source::Written],
) -> Result<List<Written>, Stop>
    ensures { GivesAs written.writtens (spec.read_types tables.now generics.now (source.writtens types.now)) result }
{
    let mut done = List::new(alloc);
    for i in 0..types.len() {
        let ty = resolve_type(alloc, tables, generics, &types[i])?;
        done.push(ty)?;
    }
    Ok(done)
}

/// The type arguments at one place of a path.
pub(crate) fn turbos(
    alloc: Global,
    tables: &Tables,
    generics: &Generics,
    turbo: &source::Turbo,
) -> Result<Turbos, Stop>
    ensures { Gives (spec.read_turbo tables.now generics.now turbo.now) result }
{
    match &turbo.node {
        source::TurboNode::NoTurbo => Ok(Turbos {
            node: TurbosNode::NoTurbo,
        }),
        source::TurboNode::Turbo(types) => {
            let types = resolve_types(alloc, tables, generics, types.as_slice())?;
            Ok(Turbos {
                node: TurbosNode::OneTurbo(types),
            })
        }
    }
}

/// The lists of type arguments of a path, of which there are at most two.
pub(crate) fn beside(first: Turbos, second: Turbos) -> Turbos
    ensures { result ≡ spec.beside first second }
{
    let node = match first.into_node() {
        TurbosNode::NoTurbo => return second,
        TurbosNode::OneTurbo(types) => one_beside(types, second),
        TurbosNode::TwoTurbos(types, more) => TurbosNode::TwoTurbos(types, more),
    };
    Turbos { node }
}

/// One list, and what stands behind it.
fn one_beside(types: List<Written>, second: Turbos) -> TurbosNode
    ensures { view.turbos_of result ≡ spec.beside (written.one_turbo (written.writtens types)) second }
{
    match second.into_node() {
        TurbosNode::NoTurbo => TurbosNode::OneTurbo(types),
        TurbosNode::OneTurbo(more) => TurbosNode::TwoTurbos(types, more),
        TurbosNode::TwoTurbos(_, _) => TurbosNode::OneTurbo(types),
    }
}

/// A type that is written, if one is.
///
/// # Errors
///
/// `Unknown` at the first name in it that is declared nowhere. `Memory` for want of memory, or where a
/// type or a lifetime is no number of 32 bits.
pub fn resolve_maybe_type(
    alloc: Global,
    tables: &Tables,
    generics: &Generics,
    ty: &Option<source::Written>,
) -> Result<Option<Written>, Stop>
    ensures { GivesAs written.maybewritten (spec.read_maybe_type tables.now generics.now (source.maybewritten ty.now)) result }
{
    match ty {
        Some(ty) => Ok(Some(resolve_type(alloc, tables, generics, ty)?)),
        None => Ok(None),
    }
}
