//! Types that are written in bodies, where lifetimes mean nothing.
ghost use Rattle.std.specs.Prelude.{◌≡◌, [], ◌∷◌, IfOk};
ghost use Rattle.region_sigs.specs.InBodies.{plain_arguments};
ghost use Rattle.rust_ast.specs.Written.{maybewritten, writtens};
ghost use Rattle.type_rules.specs.Constructors as constructing;
ghost use Rattle.type_rules.specs.TypesInBodies as spec;
ghost use Rattle.type_values.specs.Gives.{Answers};

use crate::TypeFault;
use aen_base::{List, NoMem};
use core_ty::{Ty, TypeDecl};
use region_sigs::{body_arguments, body_type};
use rust_ast::written::{Turbos, TurbosNode, Written};
use std::alloc::Global;

/// A type in a body. At the first type at fault, in written order and parts before the whole:
/// `NestedBorrow`, `Arity` or `Limit`. The errors of the functions below are these too.
#[tactic(auto, using(crate::proofs::Faults::as_fault))]
pub fn plain_type(alloc: Global, decls: &List<TypeDecl>, ty: &Written) -> Result<Ty, TypeFault>
    ensures { Answers (spec.plain_type decls.now ty.now) result }
{
    match body_type(alloc, decls, ty) {
        Ok(found) => Ok(found),
        Err(fault) => Err(TypeFault::from(fault)),
    }
}

/// The type that a `let` may write.
pub fn plain_option(
    alloc: Global,
    decls: &List<TypeDecl>,
    ty: &Option<Written>,
) -> Result<Option<Ty>, TypeFault>
    ensures { Answers (spec.plain_option decls.now (maybewritten ty.now)) result }
{
    match ty {
        Some(ty) => Ok(Some(plain_type(alloc, decls, ty)?)),
        None => Ok(None),
    }
}

/// A list of type arguments.
#[tactic(auto, using(crate::proofs::Faults::as_fault))]
fn arguments(
    alloc: Global,
    decls: &List<TypeDecl>,
    items: &[Written],
) -> Result<List<Ty>, TypeFault>
    ensures { Answers (plain_arguments decls.now (writtens items.now)) result }
{
    match body_arguments(alloc, decls, items) {
        Ok(found) => Ok(found),
        Err(fault) => Err(TypeFault::from(fault)),
    }
}

/// A list of one list. The only error is want of memory.
fn one(alloc: Global, first: List<Ty>) -> Result<List<List<Ty>>, NoMem>
    ensures { IfOk result (λ ls. ls ≡ first ∷ []) }
{
    let mut lists = List::new(alloc);
    lists.push(first)?;
    Ok(lists)
}

/// A list of two lists. The only error is want of memory.
fn two(alloc: Global, first: List<Ty>, second: List<Ty>) -> Result<List<List<Ty>>, NoMem>
    ensures { IfOk result (λ ls. ls ≡ first ∷ second ∷ []) }
{
    let mut lists = one(alloc, first)?;
    lists.push(second)?;
    Ok(lists)
}

/// The lists of type arguments in a path.
pub fn arguments_lists(
    alloc: Global,
    decls: &List<TypeDecl>,
    turbos: &Turbos,
) -> Result<List<List<Ty>>, TypeFault>
    ensures { Answers (spec.arguments_lists decls.now turbos.now) result }
{
    match &turbos.node {
        TurbosNode::NoTurbo => Ok(List::new(alloc)),
        TurbosNode::OneTurbo(items) => {
            let first = arguments(alloc, decls, items.as_slice())?;
            Ok(one(alloc, first)?)
        }
        TurbosNode::TwoTurbos(items, more) => {
            let first = arguments(alloc, decls, items.as_slice())?;
            let second = arguments(alloc, decls, more.as_slice())?;
            Ok(two(alloc, first, second)?)
        }
    }
}

/// Whether some list has a wrong number of types.
pub fn is_wrong_list(count: usize, lists: &[List<Ty>]) -> bool
    ensures { result ≡ constructing.is_wrong_list count lists.now }
{
    for list in lists {
        if list.len() != count {
            return true;
        }
    }
    false
}
