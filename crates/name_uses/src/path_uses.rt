//! Paths with names resolved.

ghost use Rattle.std.specs.Prelude.{◌≡◌};
ghost use Rattle.rust_ast.specs.ResolvedView as view;
ghost use Rattle.rust_ast.specs.Written as written;
ghost use Rattle.name_tables.specs.Gives.{Gives};
ghost use Rattle.name_uses.specs.PathUses as spec;

use crate::scope::Scope;
use crate::type_uses::turbos;
use aen_base::{Builtin, List, Span, TypeId};
use name_tables::{
    Generics, Meaning, Stop, Tables, constructor_of, known, meaning_of, struct_of, swap_place,
    type_meaning, uncalled_place, variant_of,
};
use rust_ast::Ident;
use rust_ast::resolved::{Callee, CalleeNode, Expr, ExprNode};
use rust_ast::source_types::{Path, PathNode, Turbo};
use rust_ast::written::{Turbos, TurbosNode};
use std::alloc::Global;

/// A variant of a declared type, of a struct the variant 0, with the type arguments in its path.
#[derive(Drop)]
pub struct Built {
    pub(crate) id: TypeId,
    pub(crate) variant: u32,
    pub(crate) turbos: Turbos,
}

/// What is called, with the type arguments in its path.
#[derive(Drop)]
pub struct Called {
    pub(crate) callee: Callee,
    pub(crate) turbos: Turbos,
}

/// No type arguments.
pub(crate) fn no_turbos() -> Turbos
    ensures { result ≡ written.no_turbo }
{
    Turbos {
        node: TurbosNode::NoTurbo,
    }
}

/// A struct.
fn struct_built(id: TypeId) -> Built
    ensures { result ≡ spec.struct_built id }
{
    Built {
        id,
        variant: 0,
        turbos: no_turbos(),
    }
}

/// An enum, perhaps type arguments, a variant.
fn variant_path(
    alloc: Global,
    tables: &Tables,
    generics: &Generics,
    first: &Ident,
    turbo: &Turbo,
    second: &Ident,
) -> Result<Built, Stop>
    ensures { Gives (spec.variant_path tables.now generics.now first.now turbo.now second.now) result }
{
    let meaning = type_meaning(tables, generics, first)?;
    let turbos = turbos(alloc, tables, generics, turbo)?;
    let (id, variant) = variant_of(tables, meaning, second)?;
    Ok(Built {
        id,
        variant,
        turbos,
    })
}

/// A path with parts by place, in a pattern.
pub(crate) fn placed_path(
    alloc: Global,
    tables: &Tables,
    generics: &Generics,
    path: &Path,
) -> Result<Built, Stop>
    ensures { Gives (spec.placed_path tables.now generics.now path.now) result }
{
    match &path.node {
        PathNode::One(name) => {
            let id = known(name.span, constructor_of(tables, &name.name))?;
            Ok(struct_built(id))
        }
        PathNode::Two(first, turbo, second) => {
            variant_path(alloc, tables, generics, first, turbo, second)
        }
        PathNode::BoxNew(span) => Err(Stop::Unknown(*span)),
        PathNode::MemReplace(span, mem, std) => {
            Err(Stop::Unknown(uncalled_place(tables, *span, *mem, *std)))
        }
        PathNode::MemSwap(span, mem, std) => {
            Err(Stop::Unknown(uncalled_place(tables, *span, *mem, *std)))
        }
    }
}

/// A path with parts by name, in a pattern.
pub(crate) fn braced_path(
    alloc: Global,
    tables: &Tables,
    generics: &Generics,
    path: &Path,
) -> Result<Built, Stop>
    ensures { Gives (spec.braced_path tables.now generics.now path.now) result }
{
    match &path.node {
        PathNode::One(name) => {
            let id = struct_of(tables, name)?;
            Ok(struct_built(id))
        }
        PathNode::Two(first, turbo, second) => {
            variant_path(alloc, tables, generics, first, turbo, second)
        }
        PathNode::BoxNew(span) => Err(Stop::Unknown(*span)),
        PathNode::MemReplace(span, mem, std) => {
            Err(Stop::Unknown(uncalled_place(tables, *span, *mem, *std)))
        }
        PathNode::MemSwap(span, mem, std) => {
            Err(Stop::Unknown(uncalled_place(tables, *span, *mem, *std)))
        }
    }
}

/// A constructor without arguments.
fn bare(alloc: Global, span: Span, built: Built) -> Expr
    ensures { result ≡ spec.bare span built }
{
    let Built {
        id,
        variant,
        turbos,
    } = built;
    let callee = Callee {
        node: CalleeNode::Constructor(id, variant),
    };
    Expr {
        node: ExprNode::Call(span, callee, turbos, List::new(alloc)),
    }
}

/// A path that isn't called: a variable hides a constructor.
pub(crate) fn value_path(
    alloc: Global,
    tables: &Tables,
    generics: &Generics,
    scope: &Scope,
    span: Span,
    path: &Path,
) -> Result<Expr, Stop>
    ensures { Gives (spec.value_path tables.now generics.now scope.now span path.now) result }
{
    match &path.node {
        PathNode::One(name) => match scope.find(&name.name) {
            Some(variable) => Ok(Expr {
                node: ExprNode::Variable(span, variable),
            }),
            None => {
                let built = placed_path(alloc, tables, generics, path)?;
                Ok(bare(alloc, span, built))
            }
        },
        PathNode::Two(first, turbo, second) => {
            let built = variant_path(alloc, tables, generics, first, turbo, second)?;
            Ok(bare(alloc, span, built))
        }
        PathNode::BoxNew(path) => Err(Stop::Unknown(*path)),
        PathNode::MemReplace(path, mem, std) => {
            Err(Stop::Unknown(uncalled_place(tables, *path, *mem, *std)))
        }
        PathNode::MemSwap(path, mem, std) => {
            Err(Stop::Unknown(uncalled_place(tables, *path, *mem, *std)))
        }
    }
}

/// What is called by this, without type arguments.
fn plainly(node: CalleeNode) -> Called
    ensures { result ≡ spec.plainly (view.callee_of node) }
{
    Called {
        callee: Callee { node },
        turbos: no_turbos(),
    }
}

/// The function or constructor that a name means.
fn as_callee(meaning: Meaning) -> Option<Callee>
    ensures { result ≡ spec.as_callee meaning }
{
    let node = match meaning {
        Meaning::Function(number) => CalleeNode::Function(number),
        Meaning::Empty(id) => CalleeNode::Constructor(id, 0),
        Meaning::Placed(id) => CalleeNode::Constructor(id, 0),
        Meaning::Named(_) => return None,
    };
    Some(Callee { node })
}

/// A name that is called: a variable doesn't hide it.
fn called_name(tables: &Tables, name: &Ident) -> Result<Called, Stop>
    ensures { Gives (spec.called_name tables.now name.now) result }
{
    match meaning_of(tables, &name.name) {
        Some(meaning) => {
            let callee = known(name.span, as_callee(meaning))?;
            Ok(Called {
                callee,
                turbos: no_turbos(),
            })
        }
        None => Err(Stop::Unknown(name.span)),
    }
}

/// A path that is called.
pub(crate) fn called_path(
    alloc: Global,
    tables: &Tables,
    generics: &Generics,
    path: &Path,
) -> Result<Called, Stop>
    ensures { Gives (spec.called_path tables.now generics.now path.now) result }
{
    match &path.node {
        PathNode::One(name) => called_name(tables, name),
        PathNode::Two(first, turbo, second) => {
            let built = variant_path(alloc, tables, generics, first, turbo, second)?;
            Ok(Called {
                callee: Callee {
                    node: CalleeNode::Constructor(built.id, built.variant),
                },
                turbos: built.turbos,
            })
        }
        PathNode::BoxNew(_) => Ok(plainly(CalleeNode::BuiltinOf(Builtin::BoxNew))),
        PathNode::MemReplace(path, mem, std) => {
            swap_place(tables, *path, *mem, *std)?;
            Ok(plainly(CalleeNode::BuiltinOf(Builtin::Replace)))
        }
        PathNode::MemSwap(path, mem, std) => {
            swap_place(tables, *path, *mem, *std)?;
            Ok(plainly(CalleeNode::BuiltinOf(Builtin::Swap)))
        }
    }
}
