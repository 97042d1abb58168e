//! The marks of type parameters, found by following each argument once.

ghost use Rattle.std.specs.Prelude.{IfOk, OnOk};
ghost use Rattle.std.specs.List.{All};
ghost use Rattle.core_ty.specs.Types.{named, tuple, tys};
ghost use Rattle.core_ty.specs.Marks.{AreSound};
ghost use Rattle.core_ty.specs.Spread as spec;

use crate::marks::{mark, row_of, unmarked_place};
use crate::parts::{Part, is_marked};
use crate::{Ty, TyNode, TypeDecl, Variant};
use aen_base::{List, Name, NoMem, TypeId, at};
use std::alloc::Global;

/// A type that stands in a declaration's fields outside Box.
#[derive(Drop)]
pub(crate) struct Held<'a> {
    pub user: usize,
    pub ty: &'a Ty,
}

/// An argument in a declaration's fields, which stands there outside Box if the declared type has
/// the type parameter in this place outside Box.
#[derive(Drop)]
pub(crate) struct Argument<'a> {
    pub user: usize,
    pub ty: &'a Ty,
    pub decl: TypeId,
    pub place: usize,
    /// The number of the argument that waited for the same type parameter before, from 1; or 0.
    pub before: usize,
}

/// Marks type parameters that the declarations have outside Box. It finds all of them; no clause
/// rests on that. The only error is want of memory.
pub(crate) fn spread(
    alloc: Global,
    decls: &[TypeDecl],
    rows: &mut List<List<bool>>,
) -> Result<(), NoMem>
    requires { spec.Fits decls.now rows.old }
    ensures { OnOk result (spec.Fits decls.now rows.new) }
{
    let mut held = all_fields(alloc, decls)?;
    let mut waiting = List::new(alloc);
    let mut heads = no_heads(alloc, decls)?;
    // the types run out: each type in a field is held once at most
    for _turn in 0..usize::MAX {
        let Some(next) = held.pop() else {
            break;
        };
        take_turn(next, rows, &mut held, &mut waiting, &mut heads)?;
    }
    Ok(())
}

/// For each type parameter of each declaration a place for the number of an argument: 0.
fn no_heads(alloc: Global, decls: &[TypeDecl]) -> Result<List<List<usize>>, NoMem> {
    let mut heads = List::new(alloc);
    for decl in decls {
        let mut row = List::new(alloc);
        for _param in decl.params.as_slice() {
            row.push(0usize)?;
        }
        heads.push(row)?;
    }
    Ok(heads)
}

/// The types of all fields.
fn all_fields<'a>(alloc: Global, decls: &'a [TypeDecl]) -> Result<List<Held<'a>>, NoMem>
    ensures { IfOk result (λ held. All (spec.IsHeld decls.now) held) }
{
    let mut held = List::new(alloc);
    for user in 0..decls.len() {
        enter_variants(user, decls[user].variants.as_slice(), &mut held)?;
    }
    Ok(held)
}

fn enter_variants<'a>(
    user: usize,
    variants: &'a [Variant],
    held: &mut List<Held<'a>>,
) -> Result<(), NoMem>
    ensures { (ds : spec.Decls) → spec.HoldsVariants ds user variants.now → All (spec.IsHeld ds) held.old →
        OnOk result (All (spec.IsHeld ds) held.new) }
{
    for variant in variants {
        enter_fields(user, variant.fields.as_slice(), held)?;
    }
    Ok(())
}

fn enter_fields<'a>(
    user: usize,
    fields: &'a [(Name, Ty)],
    held: &mut List<Held<'a>>,
) -> Result<(), NoMem>
    ensures { (ds : spec.Decls) → spec.HoldsFields ds user fields.now → All (spec.IsHeld ds) held.old →
        OnOk result (All (spec.IsHeld ds) held.new) }
{
    for field in fields {
        held.push(Held { user, ty: &field.1 })?;
    }
    Ok(())
}

/// Goes from a type to the types in it that stand outside Box.
fn take_turn<'a>(
    next: Held<'a>,
    rows: &mut List<List<bool>>,
    held: &mut List<Held<'a>>,
    waiting: &mut List<Argument<'a>>,
    heads: &mut List<List<usize>>,
) -> Result<(), NoMem>
    ensures { (ds : spec.Decls) → spec.IsHeld ds next.entry → spec.IsSpread ds rows.old held.old waiting.old →
        OnOk result (spec.IsSpread ds rows.new held.new waiting.new) }
{
    let Held { user, ty } = next;
    match &ty.node {
        TyNode::Tuple(parts) => enter_parts(user, parts.as_slice(), held),
        TyNode::Named(decl, args) => enter_arguments(
            user,
            *decl,
            args.as_slice(),
            rows.as_slice(),
            held,
            waiting,
            heads,
        ),
        TyNode::Param(number) => {
            let part = Part::Parameter(*number);
            if let Some(place) = unmarked_place(row_of(rows.as_slice(), user), part) {
                mark(rows, user, place);
                let first = head_of(heads.as_slice(), user, place);
                release(first, rows.as_slice(), waiting.as_slice(), held)?;
            }
            Ok(())
        }
        TyNode::Int(_) | TyNode::Bool | TyNode::Unit | TyNode::Boxed(_) | TyNode::Ref(_, _, _) =>
            Ok(()),
    }
}

/// A tuple's parts are held where the tuple is.
fn enter_parts<'a>(user: usize, parts: &'a [Ty], held: &mut List<Held<'a>>) -> Result<(), NoMem>
    ensures { (ds : spec.Decls) → spec.Holds ds user (tuple (tys parts.now)) → All (spec.IsHeld ds) held.old →
        OnOk result (All (spec.IsHeld ds) held.new) }
{
    for part in parts {
        held.push(Held { user, ty: part })?;
    }
    Ok(())
}

/// The arguments of a declared type are held, or wait.
fn enter_arguments<'a>(
    user: usize,
    decl: TypeId,
    args: &'a [Ty],
    rows: &[List<bool>],
    held: &mut List<Held<'a>>,
    waiting: &mut List<Argument<'a>>,
    heads: &mut List<List<usize>>,
) -> Result<(), NoMem>
    ensures { (ds : spec.Decls) → spec.Holds ds user (named decl (tys args.now)) → AreSound ds rows.now →
        All (spec.IsHeld ds) held.old → All (spec.IsWaiting ds) waiting.old →
        OnOk result (All (spec.IsHeld ds) held.new × All (spec.IsWaiting ds) waiting.new) }
{
    for place in 0..args.len() {
        let argument = Argument {
            user,
            ty: &args[place],
            decl,
            place,
            before: 0,
        };
        enter_argument(argument, rows, held, waiting, heads)?;
    }
    Ok(())
}

/// An argument whose type parameter is marked is held; another waits for the mark.
fn enter_argument<'a>(
    argument: Argument<'a>,
    rows: &[List<bool>],
    held: &mut List<Held<'a>>,
    waiting: &mut List<Argument<'a>>,
    heads: &mut List<List<usize>>,
) -> Result<(), NoMem>
    ensures { (ds : spec.Decls) → spec.IsWaiting ds argument.entry → AreSound ds rows.now →
        All (spec.IsHeld ds) held.old → All (spec.IsWaiting ds) waiting.old →
        OnOk result (All (spec.IsHeld ds) held.new × All (spec.IsWaiting ds) waiting.new) }
{
    let Argument {
        user,
        ty,
        decl,
        place,
        before: _,
    } = argument;
    if is_marked(rows, decl.0 as usize, place) {
        held.push(Held { user, ty })
    } else {
        let number = waiting.len().saturating_add(1);
        let before = next_head(heads, decl.0 as usize, place, number);
        waiting.push(Argument {
            user,
            ty,
            decl,
            place,
            before,
        })
    }
}

/// The number of the argument that waits last for a type parameter.
fn head_of(heads: &[List<usize>], decl: usize, place: usize) -> usize {
    let Some(row) = at(heads, decl) else {
        return 0;
    };
    match at(row.as_slice(), place) {
        Some(number) => *number,
        None => 0,
    }
}

/// Puts a number in the place of the former, which it gives back.
fn next_head(heads: &mut List<List<usize>>, decl: usize, place: usize, number: usize) -> usize {
    let former = head_of(heads.as_slice(), decl, place);
    if let Some(row) = heads.get_mut(decl) {
        if place < row.len() {
            row.set(place, number);
        }
    }
    former
}

/// The arguments that waited for a type parameter are held, from this number on.
fn release<'a>(
    first: usize,
    rows: &[List<bool>],
    waiting: &[Argument<'a>],
    held: &mut List<Held<'a>>,
) -> Result<(), NoMem>
    ensures { (ds : spec.Decls) → AreSound ds rows.now → All (spec.IsWaiting ds) waiting.now →
        All (spec.IsHeld ds) held.old → OnOk result (All (spec.IsHeld ds) held.new) }
{
    let mut number = first;
    for _turn in 0..waiting.len() {
        let Some(argument) = at(waiting, number.wrapping_sub(1)) else {
            break;
        };
        release_one(argument, rows, held)?;
        number = argument.before;
    }
    Ok(())
}

/// An argument whose type parameter is marked is held.
fn release_one<'a>(
    argument: &Argument<'a>,
    rows: &[List<bool>],
    held: &mut List<Held<'a>>,
) -> Result<(), NoMem>
    ensures { (ds : spec.Decls) → AreSound ds rows.now → spec.IsWaiting ds argument.now →
        All (spec.IsHeld ds) held.old → OnOk result (All (spec.IsHeld ds) held.new) }
{
    if is_marked(rows, argument.decl.0 as usize, argument.place) {
        held.push(Held {
            user: argument.user,
            ty: argument.ty,
        })?;
    }
    Ok(())
}
