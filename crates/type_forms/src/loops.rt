//! Loops, and what leaves them or the function. The only error is want of memory, where no other is
//! named.
ghost use Rattle.std.specs.Prelude.{◌≡◌, [], IfOk, MatchOption, option_copied};
ghost use Rattle.core_ty.specs.Types as t;
ghost use Rattle.rust_ast.specs.Spelled as s;
ghost use Rattle.type_forms.specs.Breaks as breaks;
ghost use Rattle.type_rules.specs.Expecting.{or_unit};
ghost use Rattle.type_rules.specs.Faults.{refuse};
ghost use Rattle.type_rules.specs.Lists.{or_else};
ghost use Rattle.type_rules.specs.Loops as spec;
ghost use Rattle.type_rules.specs.Operands as operands;
ghost use Rattle.type_rules.specs.Places as places;
ghost use Rattle.type_rules.specs.States as states;
ghost use Rattle.type_rules.specs.TypeFacts as facts;
ghost use Rattle.type_rules.specs.declared.fault.KindOfFault.TheVariants.{Outside};
ghost use Rattle.type_values.specs.Gives.{Gives};

use crate::operands::{diverging, nothing};
use crate::statements::is_unit;
use aen_base::{Boxed, NoMem, Span};
use core_ty::{Ty, TyNode};
use rust_ast::spelled::{Block, Form, FormNode, Val};
use std::alloc::Global;
use type_rules::forms::{Expected, Raw, RawNode};
use type_rules::{KindOfFault, Loop, Scope, State};
use type_values::TypeFault;
use type_values::expecting::{settled, want_type};
use type_values::states::{break_out, innermost};
use type_values::values::{gives, value, value_type};

/// A loop as a value, after its body was typed.
pub fn loop_value(alloc: Global, span: Span, around: Loop, body: Block) -> Result<Raw, NoMem>
    ensures { IfOk result (λ r. r ≡ spec.loop_value span around body) }
{
    let Loop {
        number,
        is_while,
        expected,
        found,
        broken,
    } = around;
    let ty = settled(expected, found);
    let node = FormNode::Forever(number, is_while, broken, Boxed::new(alloc, body)?);
    let node = RawNode::Held(value(alloc, ty, !broken, span, Form { node })?);
    Ok(Raw { node })
}

/// A `break` of the innermost loop: the loop's number, whether it is a `while`, and what is expected of
/// a value.
#[derive(Drop)]
pub struct Break {
    pub number: u32,
    pub is_while: bool,
    pub expected: Expected,
}

/// The type that a `break` of the loop has to have, if it is known.
fn type_of_break(around: &Loop) -> Option<&Ty>
    ensures { option_copied result ≡ or_else around.now.expected around.now.found }
{
    match &around.expected {
        Some(ty) => Some(ty),
        None => match &around.found {
            Some(ty) => Some(ty),
            None => None,
        },
    }
}

/// What is expected of the value of a `break`: nothing in a `while`.
fn for_break(alloc: Global, around: &Loop) -> Result<Expected, NoMem>
    ensures { IfOk result (λ x. x ≡ breaks.expected_of around.now) }
{
    if around.is_while {
        return Ok(nothing());
    }
    want_type(alloc, type_of_break(around))
}

/// A `break` of the innermost loop; nothing where there is none.
pub fn break_of(alloc: Global, state: &State) -> Result<Option<Break>, NoMem>
    ensures { IfOk result (λ o. MatchOption o (state.now.loops ≡ []) (λ b. breaks.IsBreak b state.now.loops)) }
{
    match innermost(state) {
        None => Ok(None),
        Some(around) => {
            let expected = for_break(alloc, around)?;
            Ok(Some(Break {
                number: around.number,
                is_while: around.is_while,
                expected,
            }))
        }
    }
}

/// `return` with a value.
pub fn give(alloc: Global, expected: &Expected, span: Span, held: Val) -> Result<Raw, NoMem>
    ensures { IfOk result (λ r. r ≡ operands.diverging expected.now span (s.give (s.some_maybevalue held))) }
{
    let node = FormNode::Give(Some(Boxed::new(alloc, held)?));
    diverging(alloc, expected, span, Form { node })
}

/// `return` without one. At fault where the function gives another type than unit.
#[tactic(auto, unfolding(type_rules::specs::Loops::give_nothing))]
pub fn give_nothing(
    alloc: Global,
    scope: &Scope,
    span: Span,
    expected: &Expected,
    state: &State,
) -> Result<Raw, TypeFault>
    ensures { Gives (spec.give_nothing scope.now span expected.now state.now) result state.now }
{
    if !is_unit(&scope.result) {
        return Err(TypeFault::At(span, KindOfFault::Mismatch));
    }
    let node = FormNode::Give(None);
    gives(diverging(alloc, expected, span, Form { node })?, state)
}

/// `break` with a value, of the loop with this number.
fn leave_with(
    alloc: Global,
    expected: &Expected,
    span: Span,
    number: u32,
    held: Val,
) -> Result<Raw, NoMem>
    ensures { IfOk result (λ r. r ≡ operands.diverging expected.now span (s.leave number (s.some_maybevalue held))) }
{
    let node = FormNode::Leave(number, Some(Boxed::new(alloc, held)?));
    diverging(alloc, expected, span, Form { node })
}

/// `break` without one, of the loop with this number.
fn leave_unit(alloc: Global, expected: &Expected, span: Span, number: u32) -> Result<Raw, NoMem>
    ensures { IfOk result (λ r. r ≡ operands.diverging expected.now span (s.leave number s.no_maybevalue)) }
{
    let node = FormNode::Leave(number, None);
    diverging(alloc, expected, span, Form { node })
}

/// `break` without a value, in the innermost loop. At fault outside a loop, or where the loop has
/// another type than unit.
#[tactic(auto, unfolding(type_rules::specs::Loops::leave_nothing))]
pub fn leave_nothing(
    alloc: Global,
    span: Span,
    expected: &Expected,
    state: &mut State,
) -> Result<Raw, TypeFault>
    ensures { Gives (spec.leave_nothing span expected.now state.old) result state.new }
{
    match break_number(state) {
        None => Err(TypeFault::At(word_of(span)?, KindOfFault::Outside)),
        Some((number, fits)) => {
            if !fits {
                return Err(TypeFault::At(span, KindOfFault::Mismatch));
            }
            break_out(alloc, &Ty { node: TyNode::Unit }, state)?;
            gives(leave_unit(alloc, expected, span, number)?, state)
        }
    }
}

/// The number of the innermost loop, and whether a `break` of it may have type unit.
fn break_number(state: &State) -> Option<(u32, bool)>
    ensures { MatchOption result (state.now.loops ≡ []) (λ b. breaks.IsUnitBreak b state.now.loops) }
{
    match innermost(state) {
        None => None,
        Some(around) => Some((around.number, gives_unit(type_of_break(around)))),
    }
}

/// Whether the type is unit, or not known.
fn gives_unit(ty: Option<&Ty>) -> bool
    ensures { result ≡ facts.same (or_unit (option_copied ty.entry)) t.unit }
{
    match ty {
        None => true,
        Some(ty) => is_unit(ty),
    }
}

/// `continue` in the innermost loop. At fault outside a loop.
#[tactic(auto, unfolding(type_rules::specs::Loops::go_on_rule))]
pub fn go_on(
    alloc: Global,
    span: Span,
    expected: &Expected,
    state: &State,
) -> Result<Raw, TypeFault>
    ensures { Gives (spec.go_on_rule span expected.now state.now) result state.now }
{
    match innermost(state) {
        None => Err(TypeFault::At(span, KindOfFault::Outside)),
        Some(around) => {
            let node = FormNode::GoOn(around.number);
            gives(diverging(alloc, expected, span, Form { node })?, state)
        }
    }
}

/// The word `break` at the head of what stands there. Want of memory where it would end past the
/// largest offset, which no source reaches.
pub fn word_of(span: Span) -> Result<Span, NoMem>
    ensures { IfOk result (λ w. w ≡ spec.word_of span) }
{
    match span.lo.checked_add(5) {
        Some(hi) => Ok(Span { lo: span.lo, hi }),
        None => Err(NoMem),
    }
}

/// `break` with a value, of this loop, which is the innermost. At fault in a `while`.
pub fn leave_loop(
    alloc: Global,
    span: Span,
    found: &Break,
    held: Val,
    expected: &Expected,
    state: &mut State,
) -> Result<Raw, TypeFault>
    ensures { Gives (refuse found.now.is_while (spec.word_of span) Outside (places.gives (operands.diverging expected.now span (s.leave found.now.number (s.some_maybevalue held))) (states.broken_out (places.type_of held) state.old))) result state.new }
{
    if found.is_while {
        return Err(TypeFault::At(word_of(span)?, KindOfFault::Outside));
    }
    break_out(alloc, value_type(&held), state)?;
    gives(
        leave_with(alloc, expected, span, found.number, held)?,
        state,
    )
}
