//! Statements, each with whether it diverges, and blocks. The only error is want of memory, where no
//! other is named.
ghost use Rattle.std.specs.Prelude.{◌≡◌, IfOk, false, if◌then◌else◌};
ghost use Rattle.core_ty.specs.Types as t;
ghost use Rattle.rust_ast.specs.Spelled as s;
ghost use Rattle.type_rules.specs.Branches as branches;
ghost use Rattle.type_rules.specs.Expecting as expecting;
ghost use Rattle.type_rules.specs.Forms as forms;
ghost use Rattle.type_rules.specs.Places as places;
ghost use Rattle.type_rules.specs.Statements as spec;
ghost use Rattle.type_rules.specs.TypeFacts as facts;

use crate::branches::scrutinee_never_ends;
use crate::operands::type_or_unit;
use aen_base::{Boxed, List, NoMem, Span};
use core_ty::{Ty, TyNode};
use rust_ast::spelled::{Block, BlockNode, Scrutinee, Stmt, StmtNode, Val};
use rust_ast::spelled_patterns::{Pat, PatNode};
use std::alloc::Global;
use type_rules::forms::{Expected, ExpectedNode};
use type_values::values::{never_ends, value_type};

/// Whether it is unit.
pub fn is_unit(ty: &Ty) -> bool
    ensures { result ≡ facts.same ty.now t.unit }
{
    match &ty.node {
        TyNode::Unit => true,
        _ => false,
    }
}

/// Whether unit is expected, or nothing.
pub fn expects_unit(expected: &Expected) -> bool
    ensures { result ≡ facts.same (expecting.or_unit (expecting.expected_type expected.now)) t.unit }
{
    match &expected.node {
        ExpectedNode::None => true,
        ExpectedNode::Hint(ty) => is_unit(ty),
        ExpectedNode::Want(ty) => is_unit(ty),
    }
}

/// What is expected of an expression that stands as a statement: unit, where no `;` ends it.
pub fn for_statement(semicolon: bool) -> Expected
    ensures { result ≡ (if semicolon then forms.none else forms.hint t.unit) }
{
    let node = if semicolon {
        ExpectedNode::None
    } else {
        ExpectedNode::Hint(Ty { node: TyNode::Unit })
    };
    Expected { node }
}

/// A value that is passed over.
pub fn run(alloc: Global, held: Val) -> Result<(Stmt, bool), NoMem>
    ensures { IfOk result (λ r. r ≡ (s.run held, places.never_ends held)) }
{
    let stops = never_ends(&held);
    let node = StmtNode::Run(Boxed::new(alloc, held)?);
    Ok((Stmt { node }, stops))
}

/// `let` of one name, or of `_`.
pub fn put_or_pass(alloc: Global, span: Span, bound: &Pat, held: Val) -> Result<(Stmt, bool), NoMem>
    ensures { IfOk result (λ r. r ≡ (spec.put_or_pass span bound.now held, places.never_ends held)) }
{
    let stops = never_ends(&held);
    let held = Boxed::new(alloc, held)?;
    let node = match &bound.node {
        PatNode::Bind(_, variable, _) => StmtNode::Put(span, *variable, held),
        _ => StmtNode::Pass(span, held),
    };
    Ok((Stmt { node }, stops))
}

/// `let` of any other pattern.
pub fn open_up(
    alloc: Global,
    span: Span,
    scrutinee: Scrutinee,
    bound: Pat,
) -> Result<(Stmt, bool), NoMem>
    ensures { IfOk result (λ r. r ≡ (s.open_up span scrutinee bound, branches.scrutinee_never_ends scrutinee)) }
{
    let stops = scrutinee_never_ends(&scrutinee);
    let node = StmtNode::OpenUp(span, Boxed::new(alloc, scrutinee)?, bound);
    Ok((Stmt { node }, stops))
}

/// A `let` of these variables without a value.
pub fn later(span: Span, variables: List<u32>) -> (Stmt, bool)
    ensures { result ≡ (s.later span (s.variables variables), false) }
{
    let node = StmtNode::Later(span, variables);
    (Stmt { node }, false)
}

/// A block with a last expression, whose type it has.
pub fn block_with(alloc: Global, span: Span, stmts: List<Stmt>, last: Val) -> Result<Block, NoMem>
    ensures { IfOk result (λ b. b ≡ s.block (places.type_of last) (places.never_ends last) span (s.stmts stmts) (s.some_maybevalue last)) }
{
    let ty = value_type(&last).try_clone(alloc)?;
    let never = never_ends(&last);
    let last = Some(Boxed::new(alloc, last)?);
    let node = BlockNode::Block(ty, never, span, stmts, last);
    Ok(Block { node })
}

/// A block without one: of type unit, or of every type where a statement diverges.
pub fn block_without(
    alloc: Global,
    span: Span,
    stmts: List<Stmt>,
    stops: bool,
    expected: &Expected,
) -> Result<Block, NoMem>
    ensures { IfOk result (λ b. b ≡ s.block (spec.ended_type stops expected.now) stops span (s.stmts stmts) s.no_maybevalue) }
{
    let ty = ended_type(alloc, stops, expected)?;
    let node = BlockNode::Block(ty, stops, span, stmts, None);
    Ok(Block { node })
}

/// The type of a block without a last expression.
fn ended_type(alloc: Global, stops: bool, expected: &Expected) -> Result<Ty, NoMem>
    ensures { IfOk result (λ y. y ≡ spec.ended_type stops expected.now) }
{
    if stops {
        type_or_unit(alloc, expected)
    } else {
        Ok(Ty { node: TyNode::Unit })
    }
}
