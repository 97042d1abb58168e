//! How blocks, statements and what is like a block are read. All that is made up has the span of the whole.

ghost use Rattle.std.specs.Prelude.{◌≡◌, [], IfOk};
ghost use Rattle.rust_ast.specs.Source as s;
ghost use Rattle.source_ways.specs.Blocks as spec;

use crate::expressions::boxed;
use aen_base::{Boxed, NoMem, Span};
use rust_ast::source::{Block, BlockNode, Expr, ExprNode, Stmt, StmtNode};
use rust_ast::source_patterns::Pat;
use rust_ast::source_types::Written;
use source_grammar::Lexeme;
use source_ways::clauses::{ArmBody, Body, Condition, Conditional};
use source_ways::front_list::FrontList;
use source_ways::spanned::Spanned;
use source_ways::spans::{join, span_of};
use std::alloc::Global;

fn block_of(alloc: Global, whole: Span, body: Body) -> Result<Block, NoMem>
    ensures { IfOk result (λ it. it ≡ spec.block_of whole body) }
{
    let Body { statements, value } = body;
    let value = boxed(alloc, value)?;
    Ok(Block {
        node: BlockNode::Block(whole, statements.into_list(), value),
    })
}

/// `{}`.
pub(crate) fn no_block(alloc: Global, whole: Span) -> Result<Block, NoMem>
    ensures { IfOk result (λ it. it ≡ spec.no_block whole) }
{
    block_of(alloc, whole, without_statements(alloc, None))
}

/// A block of an expression alone.
pub(crate) fn only_value(alloc: Global, whole: Span, value: Expr) -> Result<Block, NoMem>
    ensures { IfOk result (λ it. it ≡ spec.only_value whole value) }
{
    block_of(alloc, whole, without_statements(alloc, Some(value)))
}

fn without_statements(alloc: Global, value: Option<Expr>) -> Body
    ensures { result ≡ record { statements = []; value = value } }
{
    Body {
        statements: FrontList::new(alloc),
        value,
    }
}

pub(crate) fn inner(alloc: Global, block: Block) -> Result<Expr, NoMem>
    ensures { IfOk result (λ it. it ≡ s.inner block) }
{
    let block = Boxed::new(alloc, block)?;
    Ok(Expr {
        node: ExprNode::Inner(block),
    })
}

/// A block, from its first brace on. The only error is want of memory.
pub fn block(alloc: Global, whole: Span, brace: Lexeme, body: Spanned<Body>) -> Result<Block, NoMem>
    ensures { IfOk result (λ it. it ≡ spec.block whole brace body) }
{
    block_of(alloc, whole, body.value)
}

/// What is left of a block at its last brace.
pub fn ended(alloc: Global, whole: Span, brace: Lexeme) -> Body
    ensures { result ≡ spec.ended whole brace }
{
    without_statements(alloc, None)
}

fn before(statement: Stmt, body: Body) -> Result<Body, NoMem>
    ensures { IfOk result (λ it. it ≡ spec.before statement body) }
{
    let Body { statements, value } = body;
    let statements = statements.push(statement)?;
    Ok(Body { statements, value })
}

/// A `let` ends where its pattern, type and value end.
fn let_of(
    alloc: Global,
    word: Lexeme,
    pat: Spanned<Pat>,
    ty: Spanned<Option<Written>>,
    value: Spanned<Option<Expr>>,
    rest: Spanned<Body>,
) -> Result<Body, NoMem>
    ensures { IfOk result (λ it. it ≡ spec.let_of word pat ty value rest) }
{
    let span = span_of(join(
        Some(word.span),
        join(pat.extent, join(ty.extent, value.extent)),
    ));
    let value = boxed(alloc, value.value)?;
    let statement = Stmt {
        node: StmtNode::Bind(span, pat.value, ty.value, value),
    };
    before(statement, rest.value)
}

/// `let`, and what is left of the block after it. The only error is want of memory.
pub fn let_statement(
    alloc: Global,
    whole: Span,
    word: Lexeme,
    pat: Spanned<Pat>,
    ty: Spanned<Option<Written>>,
    value: Spanned<Option<Expr>>,
    semicolon: Lexeme,
    rest: Spanned<Body>,
) -> Result<Body, NoMem>
    ensures { IfOk result (λ it. it ≡ spec.let_statement whole word pat ty value semicolon rest) }
{
    let_of(alloc, word, pat, ty, value, rest)
}

/// An expression with nothing after it is the block's value.
fn run(alloc: Global, e: Expr, semicolon: bool, rest: Option<Body>) -> Result<Body, NoMem>
    ensures { IfOk result (λ it. it ≡ spec.run e semicolon rest) }
{
    let Some(body) = rest else {
        return Ok(without_statements(alloc, Some(e)));
    };
    let e = Boxed::new(alloc, e)?;
    let statement = Stmt {
        node: StmtNode::Run(e, semicolon),
    };
    before(statement, body)
}

/// A statement that is like a block, and what is left of the block after it. The only error is want of memory.
pub fn block_like_first(
    alloc: Global,
    whole: Span,
    e: Spanned<Expr>,
    rest: Spanned<Option<Body>>,
) -> Result<Body, NoMem>
    ensures { IfOk result (λ it. it ≡ spec.block_like_first whole e rest) }
{
    run(alloc, e.value, false, rest.value)
}

/// Another expression, and what is left of the block after it. The only error is want of memory.
pub fn expression_first(
    alloc: Global,
    whole: Span,
    e: Spanned<Expr>,
    rest: Spanned<Option<Body>>,
) -> Result<Body, NoMem>
    ensures { IfOk result (λ it. it ≡ spec.expression_first whole e rest) }
{
    run(alloc, e.value, true, rest.value)
}

/// A block as an expression. The only error is want of memory.
pub fn inner_block(alloc: Global, whole: Span, b: Spanned<Block>) -> Result<Expr, NoMem>
    ensures { IfOk result (λ it. it ≡ spec.inner_block whole b) }
{
    inner(alloc, b.value)
}

/// `match`. The only error is want of memory.
pub fn match_expression(
    alloc: Global,
    whole: Span,
    word: Lexeme,
    scrutinee: Spanned<Expr>,
    brace: Lexeme,
    arms: Spanned<FrontList<(Pat, Expr)>>,
) -> Result<Expr, NoMem>
    ensures { IfOk result (λ it. it ≡ spec.match_expression whole word scrutinee brace arms) }
{
    let scrutinee = Boxed::new(alloc, scrutinee.value)?;
    Ok(Expr {
        node: ExprNode::Select(whole, scrutinee, arms.value.into_list()),
    })
}

/// A loop, with its mark.
fn forever(alloc: Global, whole: Span, by_while: bool, body: Block) -> Result<Expr, NoMem>
    ensures { IfOk result (λ it. it ≡ s.forever whole by_while body) }
{
    let body = Boxed::new(alloc, body)?;
    Ok(Expr {
        node: ExprNode::Forever(whole, by_while, body),
    })
}

/// `loop`. The only error is want of memory.
pub fn loop_expression(
    alloc: Global,
    whole: Span,
    word: Lexeme,
    body: Spanned<Block>,
) -> Result<Expr, NoMem>
    ensures { IfOk result (λ it. it ≡ spec.loop_expression whole word body) }
{
    forever(alloc, whole, false, body.value)
}

/// A condition, what is done where it holds, and perhaps what else.
pub fn holds(e: Spanned<Expr>, body: Spanned<Block>, other: Option<Expr>) -> Conditional
    ensures { result ≡ spec.holds e body other }
{
    Conditional {
        condition: Condition::Holds(e.value),
        body: body.value,
        otherwise: other,
    }
}

/// A pattern and what it is to match, what is done where it does, and perhaps what else.
pub fn matches(
    pat: Spanned<Pat>,
    e: Spanned<Expr>,
    body: Spanned<Block>,
    other: Option<Expr>,
) -> Conditional
    ensures { result ≡ spec.matches pat e body other }
{
    Conditional {
        condition: Condition::Matches(pat.value, e.value),
        body: body.value,
        otherwise: other,
    }
}

/// One of two, by a condition.
fn branch(alloc: Global, whole: Span, e: Expr, body: Block, other: Expr) -> Result<Expr, NoMem>
    ensures { IfOk result (λ it. it ≡ s.branch whole e body other) }
{
    let e = Boxed::new(alloc, e)?;
    let body = Boxed::new(alloc, body)?;
    let other = Boxed::new(alloc, other)?;
    Ok(Expr {
        node: ExprNode::Branch(whole, e, body, other),
    })
}

/// A block as an expression, in a box.
fn boxed_inner(alloc: Global, block: Block) -> Result<Boxed<Expr>, NoMem>
    ensures { IfOk result (λ it. it ≡ s.inner block) }
{
    let e = inner(alloc, block)?;
    Boxed::new(alloc, e)
}

/// Two expressions, in boxes.
fn both_boxed(alloc: Global, a: Expr, b: Expr) -> Result<(Boxed<Expr>, Boxed<Expr>), NoMem>
    ensures { IfOk result (λ it. (it.0 ≡ a) × (it.1 ≡ b)) }
{
    let a = Boxed::new(alloc, a)?;
    let b = Boxed::new(alloc, b)?;
    Ok((a, b))
}

/// One of two, by whether a pattern matches.
fn let_branch(
    alloc: Global,
    whole: Span,
    pat: Pat,
    e: Expr,
    body: Block,
    other: Expr,
) -> Result<Expr, NoMem>
    ensures { IfOk result (λ it. it ≡ s.let_branch whole pat e (s.inner body) other) }
{
    let body = boxed_inner(alloc, body)?;
    let (e, other) = both_boxed(alloc, e, other)?;
    Ok(Expr {
        node: ExprNode::LetBranch(whole, pat, e, body, other),
    })
}

/// One of two, by a condition or by whether a pattern matches.
fn choice(
    alloc: Global,
    whole: Span,
    condition: Condition,
    body: Block,
    other: Expr,
) -> Result<Expr, NoMem>
    ensures { IfOk result (λ it. it ≡ spec.choice whole condition body other) }
{
    match condition {
        Condition::Holds(e) => branch(alloc, whole, e, body, other),
        Condition::Matches(pat, e) => let_branch(alloc, whole, pat, e, body, other),
    }
}

/// One of two, the other `{}`.
fn choice_alone(
    alloc: Global,
    whole: Span,
    condition: Condition,
    body: Block,
) -> Result<Expr, NoMem>
    ensures { IfOk result (λ it. it ≡ spec.choice whole condition body (s.inner (spec.no_block whole))) }
{
    let empty = empty_block(alloc, whole)?;
    choice(alloc, whole, condition, body, empty)
}

/// `{}` as an expression.
fn empty_block(alloc: Global, whole: Span) -> Result<Expr, NoMem>
    ensures { IfOk result (λ it. it ≡ s.inner (spec.no_block whole)) }
{
    let empty = no_block(alloc, whole)?;
    inner(alloc, empty)
}

/// One of two: without `else` the other is `{}`.
fn decided(alloc: Global, whole: Span, c: Conditional) -> Result<Expr, NoMem>
    ensures { IfOk result (λ it. it ≡ spec.choice whole c.condition c.body (spec.otherwise whole c.otherwise)) }
{
    let Conditional {
        condition,
        body,
        otherwise,
    } = c;
    match otherwise {
        Some(other) => choice(alloc, whole, condition, body, other),
        None => choice_alone(alloc, whole, condition, body),
    }
}

/// `if` and `if let`. The only error is want of memory.
pub fn if_expression(
    alloc: Global,
    whole: Span,
    word: Lexeme,
    c: Spanned<Conditional>,
) -> Result<Expr, NoMem>
    ensures { IfOk result (λ it. it ≡ spec.if_expression whole word c) }
{
    decided(alloc, whole, c.value)
}

/// `break`.
fn leave(whole: Span) -> Expr
    ensures { result ≡ s.leave whole s.no_maybeexpr }
{
    Expr {
        node: ExprNode::Leave(whole, None),
    }
}

/// `{ break }`.
fn leaving_block(alloc: Global, whole: Span) -> Result<Expr, NoMem>
    ensures { IfOk result (λ it. it ≡ s.inner (spec.only_value whole (s.leave whole s.no_maybeexpr))) }
{
    let block = only_value(alloc, whole, leave(whole))?;
    inner(alloc, block)
}

/// One of two, the other `{ break }`.
fn branch_or_leave(alloc: Global, whole: Span, e: Expr, body: Block) -> Result<Expr, NoMem>
    ensures { IfOk result (λ it. it ≡ s.branch whole e body (s.inner (spec.only_value whole (s.leave whole s.no_maybeexpr)))) }
{
    let other = leaving_block(alloc, whole)?;
    branch(alloc, whole, e, body, other)
}

/// One turn of a loop with `while`, which is left where the condition isn't met.
fn one_turn(alloc: Global, whole: Span, condition: Condition, body: Block) -> Result<Expr, NoMem>
    ensures { IfOk result (λ it. it ≡ spec.choice whole condition body (spec.leaving whole condition)) }
{
    match condition {
        Condition::Holds(e) => branch_or_leave(alloc, whole, e, body),
        Condition::Matches(pat, e) => let_branch(alloc, whole, pat, e, body, leave(whole)),
    }
}

/// One turn of a loop with `while`, which has no `else`.
fn turn_of(alloc: Global, whole: Span, c: Conditional) -> Result<Expr, NoMem>
    ensures { IfOk result (λ it. it ≡ spec.choice whole c.condition c.body (spec.leaving whole c.condition)) }
{
    let Conditional {
        condition,
        body,
        otherwise: _other,
    } = c;
    one_turn(alloc, whole, condition, body)
}

/// `while` and `while let`: a loop that is left where the condition isn't met. The only error is want of memory.
pub fn while_expression(
    alloc: Global,
    whole: Span,
    word: Lexeme,
    c: Spanned<Conditional>,
) -> Result<Expr, NoMem>
    ensures { IfOk result (λ it. it ≡ spec.while_expression whole word c) }
{
    let turn = turn_of(alloc, whole, c.value)?;
    let body = only_value(alloc, whole, turn)?;
    forever(alloc, whole, true, body)
}

/// An arm, and those after it. The only error is want of memory.
pub fn arm(
    whole: Span,
    pat: Spanned<Pat>,
    mark: Lexeme,
    body: Spanned<ArmBody>,
) -> Result<FrontList<(Pat, Expr)>, NoMem>
    ensures { IfOk result (λ it. it ≡ spec.arm whole pat mark body) }
{
    let ArmBody { body, more } = body.value;
    more.push((pat.value, body))
}

/// The body of an arm, and the arms after it.
pub fn arm_body(whole: Span, body: Spanned<Expr>, more: Spanned<FrontList<(Pat, Expr)>>) -> ArmBody
    ensures { result ≡ spec.arm_body whole body more }
{
    ArmBody {
        body: body.value,
        more: more.value,
    }
}
