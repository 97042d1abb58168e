//! What a `match` looks at, and arms as one value. The only error is want of memory, where no other is
//! named.
ghost use Rattle.std.specs.Prelude.{◌≡◌, IfOk, None, [], ◌∷◌, true, false};
ghost use Rattle.rust_ast.specs.Spelled as s;
ghost use Rattle.rust_ast.specs.SpelledPatterns as q;
ghost use Rattle.type_forms.specs.Copied.{IsCopied};
ghost use Rattle.type_rules.specs.Branches as spec;
ghost use Rattle.type_rules.specs.Places as places;
ghost use Rattle.type_values.specs.Gives.{Answers, Gives};

use aen_base::{Boxed, List, NoMem, Span};
use core_ty::{Ty, TyNode};
use rust_ast::spelled::{
    Block, BlockNode, Form, FormNode, Place, Scrutinee, ScrutineeNode, Val, ValNode,
};
use rust_ast::spelled_patterns::{Pat, PatNode};
use std::alloc::Global;
use type_rules::State;
use type_rules::forms::{Expected, ExpectedNode, Raw, RawNode};
use type_values::TypeFault;
use type_values::expecting::{expected_copy, settled};
use type_values::values::{gives, goes_through, never_ends, value, value_type};
use type_values::written_out::as_value;

/// The place of a copy; any other form comes back.
fn copied(form: Form) -> Result<Boxed<Place>, Form>
    ensures { IsCopied form result }
{
    match form.into_node() {
        FormNode::UseOf(place, copies) => {
            if copies {
                return Ok(place);
            }
            Err(Form {
                node: FormNode::UseOf(place, copies),
            })
        }
        other => Err(Form { node: other }),
    }
}

/// What a value is as a scrutinee: a copy of a place is that place.
fn value_scrutinee(alloc: Global, held: Val) -> Result<Scrutinee, NoMem>
    ensures { IfOk result (λ k. k ≡ spec.value_scrutinee held) }
{
    match held.into_node() {
        ValNode::Value(ty, never, span, form) => match copied(form.into_inner()) {
            Ok(place) => {
                let node = ScrutineeNode::Stands(ty, span, place);
                Ok(Scrutinee { node })
            }
            Err(form) => {
                let whole = value(alloc, ty, never, span, form)?;
                let node = ScrutineeNode::Held(Boxed::new(alloc, whole)?);
                Ok(Scrutinee { node })
            }
        },
    }
}

/// What stands there as a scrutinee: a place stays a place, and where a reference is wanted it is
/// written out. At fault where that needs another type, or a move through a reference.
pub fn scrutinee_of(
    alloc: Global,
    expected: &Expected,
    span: Span,
    raw: Raw,
) -> Result<Scrutinee, TypeFault>
    ensures { Answers (spec.scrutinee_of expected.now span raw) result }
{
    if let ExpectedNode::Want(wanted) = &expected.node {
        if let TyNode::Ref(_, _, _) = &wanted.node {
            let held = as_value(alloc, expected, span, raw)?;
            return Ok(value_scrutinee(alloc, held)?);
        }
    }
    match raw.into_node() {
        RawNode::Stands(place, ty, _) => {
            let node = ScrutineeNode::Stands(ty, span, Boxed::new(alloc, place)?);
            Ok(Scrutinee { node })
        }
        RawNode::Held(held) => {
            let node = ScrutineeNode::Held(Boxed::new(alloc, held)?);
            Ok(Scrutinee { node })
        }
    }
}

/// The type of a scrutinee.
pub fn scrutinee_type(scrutinee: &Scrutinee) -> &Ty
    ensures { result.now ≡ spec.scrutinee_type scrutinee.now }
{
    match &scrutinee.node {
        ScrutineeNode::Stands(ty, _, _) => ty,
        ScrutineeNode::Held(held) => value_type(held.get()),
    }
}

/// Whether a scrutinee has every type.
pub fn scrutinee_never_ends(scrutinee: &Scrutinee) -> bool
    ensures { result ≡ spec.scrutinee_never_ends scrutinee.now }
{
    match &scrutinee.node {
        ScrutineeNode::Stands(_, _, _) => false,
        ScrutineeNode::Held(held) => never_ends(held.get()),
    }
}

/// Whether a scrutinee stands behind a reference.
pub fn is_behind(scrutinee: &Scrutinee) -> bool
    ensures { result ≡ spec.is_behind scrutinee.now }
{
    match &scrutinee.node {
        ScrutineeNode::Stands(_, _, place) => goes_through(place.get()),
        ScrutineeNode::Held(_) => false,
    }
}

/// The type of the first arm that doesn't diverge, after one more.
pub fn joined(alloc: Global, found: Option<Ty>, arm: &Val) -> Result<Option<Ty>, NoMem>
    ensures { IfOk result (λ o. o ≡ spec.joined found arm.now) }
{
    match found {
        Some(ty) => Ok(Some(ty)),
        None => {
            if never_ends(arm) {
                return Ok(None);
            }
            Ok(Some(value_type(arm).try_clone(alloc)?))
        }
    }
}

/// A block as a value.
pub fn block_value(alloc: Global, block: Block) -> Result<Val, NoMem>
    ensures { IfOk result (λ v. v ≡ spec.block_value block) }
{
    match block.into_node() {
        BlockNode::Block(ty, never, span, stmts, last) => {
            let own = ty.try_clone(alloc)?;
            let node = BlockNode::Block(ty, never, span, stmts, last);
            let node = FormNode::Inner(Boxed::new(alloc, Block { node })?);
            value(alloc, own, never, span, Form { node })
        }
    }
}

/// The arms of an `if`.
fn two_arms(alloc: Global, yes: Val, no: Val) -> Result<List<(Pat, Val)>, NoMem>
    ensures { IfOk result (λ arms. arms ≡ (q.truth true, yes) ∷ (q.truth false, no) ∷ []) }
{
    let mut arms = List::new(alloc);
    arms.push((truth(true), yes))?;
    arms.push((truth(false), no))?;
    Ok(arms)
}

/// The pattern of a bool.
fn truth(holds: bool) -> Pat
    ensures { result ≡ q.truth holds }
{
    Pat {
        node: PatNode::Truth(holds),
    }
}

/// The first type of two arms.
fn joined_two(alloc: Global, yes: &Val, no: &Val) -> Result<Option<Ty>, NoMem>
    ensures { IfOk result (λ o. o ≡ spec.joined (spec.joined None yes.now) no.now) }
{
    let found = joined(alloc, None, yes)?;
    joined(alloc, found, no)
}

/// An `if` as a `match` on its condition.
pub fn branch(
    alloc: Global,
    span: Span,
    expected: &Expected,
    condition: Scrutinee,
    arms: (Val, Val),
    state: &State,
) -> Result<Raw, TypeFault>
    ensures { Gives (places.gives (spec.select_value span expected.now condition (s.more_arms (q.truth true) arms.0 (s.more_arms (q.truth false) arms.1 s.no_arms)) (spec.joined (spec.joined None arms.0) arms.1)) state.now) result state.now }
{
    let (yes, no) = arms;
    let found = joined_two(alloc, &yes, &no)?;
    let arms = two_arms(alloc, yes, no)?;
    gives(
        select(alloc, span, expected, condition, arms, found)?,
        state,
    )
}

/// Arms as one value: of the expected type, else of the first type among them.
pub fn select(
    alloc: Global,
    span: Span,
    expected: &Expected,
    scrutinee: Scrutinee,
    arms: List<(Pat, Val)>,
    found: Option<Ty>,
) -> Result<Raw, NoMem>
    ensures { IfOk result (λ r. r ≡ spec.select_value span expected.now scrutinee (s.arms arms) found) }
{
    let never = found.is_none();
    let ty = settled(expected_copy(alloc, expected)?, found);
    let node = FormNode::Select(Boxed::new(alloc, scrutinee)?, arms);
    let node = RawNode::Held(value(alloc, ty, never, span, Form { node })?);
    Ok(Raw { node })
}
