//! Expressions, statements and blocks with names resolved.

ghost use Rattle.std.specs.Prelude.{◌≡◌, false, length};
ghost use Rattle.rust_ast.specs.Resolved as resolved;
ghost use Rattle.rust_ast.specs.ResolvedView as view;
ghost use Rattle.rust_ast.specs.Source as source;
ghost use Rattle.rust_ast.specs.SourceTypes as types;
ghost use Rattle.name_tables.specs.Gives.{Gives, GivesAs};
ghost use Rattle.name_uses.specs.PatternUses as pattern_uses;
ghost use Rattle.name_uses.specs.Uses as spec;
ghost use Rattle.name_uses.specs.Walks.{in_form};

use crate::let_parts::{Let, LetBranch, is_nothing, two_arms};
use crate::path_uses::{called_path, value_path};
use crate::pattern_uses::resolve_pat;
use crate::state::State;
use crate::type_uses::{beside, resolve_maybe_type, turbos};
use aen_base::{Boxed, List, Name, Span};
use name_tables::{Generics, Stop, Tables, struct_of};
use rust_ast::patterns::Pat;
use rust_ast::resolved::{Block, BlockNode, Expr, ExprNode, Stmt, StmtNode};
use rust_ast::{source, source_patterns};
use std::alloc::Global;

/// An expression with names resolved, and what is known after it.
#[cycle(uses)]
pub(crate) fn resolve_expr(
    alloc: Global,
    tables: &Tables,
    generics: &Generics,
    e: &source::Expr,
    state: State,
) -> Result<(Expr, State), Stop>
    ensures { Gives (spec.read tables.now generics.now e.now state) result }
{
    match &e.node {
        source::ExprNode::Number(span, negative, magnitude, suffix) => {
            let node = ExprNode::Number(*span, *negative, *magnitude, *suffix);
            Ok((expr(node), state))
        }
        source::ExprNode::Truth(span, value) => {
            Ok((expr(ExprNode::Truth(*span, *value)), state))
        }
        source::ExprNode::Tuple(span, parts) => {
            let (parts, state) = resolve_all(alloc, tables, generics, parts.as_slice(), state)?;
            Ok((expr(ExprNode::Tuple(*span, parts)), state))
        }
        source::ExprNode::Inner(block) => {
            let (block, state) = boxed_block(alloc, tables, generics, block.get(), state)?;
            Ok((expr(ExprNode::Inner(block)), state))
        }
        source::ExprNode::Branch(span, condition, yes, no) => {
            let (condition, state) = one(alloc, tables, generics, condition.get(), state)?;
            let (yes, state) = boxed_block(alloc, tables, generics, yes.get(), state)?;
            let (no, state) = one(alloc, tables, generics, no.get(), state)?;
            Ok((expr(ExprNode::Branch(*span, condition, yes, no)), state))
        }
        source::ExprNode::Select(span, scrutinee, arms) => {
            let (scrutinee, state) = one(alloc, tables, generics, scrutinee.get(), state)?;
            let (arms, state) = resolve_arms(alloc, tables, generics, arms.as_slice(), state)?;
            Ok((expr(ExprNode::Select(*span, scrutinee, arms)), state))
        }
        source::ExprNode::LetBranch(span, pat, a, b, c) => {
            let parts = LetBranch {
                pat,
                value: a.get(),
                matched: b.get(),
                other: c.get(),
            };
            Ok(let_branch(alloc, tables, generics, *span, &parts, state)?)
        }
        source::ExprNode::Forever(span, is_while, body) => {
            let number = state.loops;
            let state = state.with_loop()?;
            let (body, state) = boxed_block(alloc, tables, generics, body.get(), state)?;
            let node = ExprNode::Forever(*span, number, *is_while, body);
            Ok((expr(node), state))
        }
        source::ExprNode::Panic(span) => { Ok((expr(ExprNode::Panic(*span)), state)) }
        source::ExprNode::Path(span, path) => {
            let value = value_path(alloc, tables, generics, &state.scope, *span, path)?;
            Ok((value, state))
        }
        source::ExprNode::Call(span, path, turbo, arguments) => {
            let called = called_path(alloc, tables, generics, path)?;
            let turbo = turbos(alloc, tables, generics, turbo)?;
            let arguments = arguments.as_slice();
            let (arguments, state) = resolve_all(alloc, tables, generics, arguments, state)?;
            let turbos = beside(called.turbos, turbo);
            let node = ExprNode::Call(*span, called.callee, turbos, arguments);
            Ok((expr(node), state))
        }
        source::ExprNode::Literal(span, name, turbo, values) => {
            let id = struct_of(tables, name)?;
            let turbos = turbos(alloc, tables, generics, turbo)?;
            let (values, state) = resolve_inits(alloc, tables, generics, values.as_slice(), state)?;
            Ok((expr(ExprNode::Literal(*span, id, 0, turbos, values)), state))
        }
        source::ExprNode::Field(span, a, place, name) => {
            let (a, state) = one(alloc, tables, generics, a.get(), state)?;
            let name = name.try_clone(alloc)?;
            Ok((expr(ExprNode::Field(*span, a, *place, name)), state))
        }
        source::ExprNode::Minus(span, a) => {
            let (a, state) = one(alloc, tables, generics, a.get(), state)?;
            Ok((expr(ExprNode::Minus(*span, a)), state))
        }
        source::ExprNode::Negation(span, a) => {
            let (a, state) = one(alloc, tables, generics, a.get(), state)?;
            Ok((expr(ExprNode::Negation(*span, a)), state))
        }
        source::ExprNode::Deref(span, a) => {
            let (a, state) = one(alloc, tables, generics, a.get(), state)?;
            Ok((expr(ExprNode::Deref(*span, a)), state))
        }
        source::ExprNode::Borrow(span, mutable, a) => {
            let (a, state) = one(alloc, tables, generics, a.get(), state)?;
            Ok((expr(ExprNode::Borrow(*span, *mutable, a)), state))
        }
        source::ExprNode::Binary(span, op, a, b) => {
            let ((a, b), state) = two(alloc, tables, generics, a.get(), b.get(), state)?;
            Ok((expr(ExprNode::Binary(*span, *op, a, b)), state))
        }
        source::ExprNode::Compare(span, op, a, b) => {
            let ((a, b), state) = two(alloc, tables, generics, a.get(), b.get(), state)?;
            Ok((expr(ExprNode::Compare(*span, *op, a, b)), state))
        }
        source::ExprNode::Both(span, a, b) => {
            let ((a, b), state) = two(alloc, tables, generics, a.get(), b.get(), state)?;
            Ok((expr(ExprNode::Both(*span, a, b)), state))
        }
        source::ExprNode::Either(span, a, b) => {
            let ((a, b), state) = two(alloc, tables, generics, a.get(), b.get(), state)?;
            Ok((expr(ExprNode::Either(*span, a, b)), state))
        }
        source::ExprNode::Cast(span, a, ty) => {
            let (a, state) = one(alloc, tables, generics, a.get(), state)?;
            Ok((expr(ExprNode::Cast(*span, a, *ty)), state))
        }
        source::ExprNode::Assign(span, a, b) => {
            let ((a, b), state) = two(alloc, tables, generics, a.get(), b.get(), state)?;
            Ok((expr(ExprNode::Assign(*span, a, b)), state))
        }
        source::ExprNode::Update(span, op, a, b) => {
            let ((a, b), state) = two(alloc, tables, generics, a.get(), b.get(), state)?;
            Ok((expr(ExprNode::Update(*span, *op, a, b)), state))
        }
        source::ExprNode::Give(span, value) => {
            let (value, state) = resolve_maybe(alloc, tables, generics, value, state)?;
            Ok((expr(ExprNode::Give(*span, value)), state))
        }
        source::ExprNode::Leave(span, value) => {
            let (value, state) = resolve_maybe(alloc, tables, generics, value, state)?;
            Ok((expr(ExprNode::Leave(*span, value)), state))
        }
        source::ExprNode::GoOn(span) => { Ok((expr(ExprNode::GoOn(*span)), state)) }
    }
}

/// An expression of this node.
fn expr(node: ExprNode) -> Expr
    ensures { result ≡ view.expr_of node }
{
    Expr { node }
}

/// Two expressions in boxes, from left to right.
#[cycle(uses)]
fn two(
    alloc: Global,
    tables: &Tables,
    generics: &Generics,
    a: &source::Expr,
    b: &source::Expr,
    state: State,
) -> Result<((Boxed<Expr>, Boxed<Expr>), State), Stop>
    ensures { Gives (spec.read_two tables.now generics.now a.now b.now state) result }
{
    let (a, state) = one(alloc, tables, generics, a, state)?;
    let (b, state) = one(alloc, tables, generics, b, state)?;
    Ok(((a, b), state))
}

/// A block in a box.
#[cycle(uses)]
fn boxed_block(
    alloc: Global,
    tables: &Tables,
    generics: &Generics,
    block: &source::Block,
    state: State,
) -> Result<(Boxed<Block>, State), Stop>
    ensures { Gives (spec.read_block tables.now generics.now block.now state) result }
{
    let (block, state) = resolve_block(alloc, tables, generics, block, state)?;
    Ok((Boxed::new(alloc, block)?, state))
}

/// An expression in a box.
#[cycle(uses)]
fn one(
    alloc: Global,
    tables: &Tables,
    generics: &Generics,
    e: &source::Expr,
    state: State,
) -> Result<(Boxed<Expr>, State), Stop>
    ensures { Gives (spec.read tables.now generics.now e.now state) result }
{
    let (e, state) = resolve_expr(alloc, tables, generics, e, state)?;
    Ok((Boxed::new(alloc, e)?, state))
}

/// An expression, if there is one.
#[cycle(uses)]
fn resolve_maybe(
    alloc: Global,
    tables: &Tables,
    generics: &Generics,
    e: &Option<Boxed<source::Expr>>,
    state: State,
) -> Result<(Option<Boxed<Expr>>, State), Stop>
    ensures { GivesAs (in_form resolved.maybeexpr) (spec.read_maybe tables.now generics.now (source.maybeexpr e.now) state) result }
{
    match e {
        None => Ok((None, state)),
        Some(e) => {
            let (e, state) = one(alloc, tables, generics, e.get(), state)?;
            Ok((Some(e), state))
        }
    }
}

/// An `if let`: the pattern's names have the first numbers, and come into scope behind the value.
#[cycle(uses)]
fn let_branch(
    alloc: Global,
    tables: &Tables,
    generics: &Generics,
    span: Span,
    parts: &LetBranch,
    state: State,
) -> Result<(Expr, State), Stop>
    ensures { Gives (spec.read tables.now generics.now (source.let_branch span parts.now.pat.now parts.now.value.now parts.now.matched.now parts.now.other.now) state) result }
{
    let from = state.variables.len();
    let (pat, bound) = resolve_pat(alloc, tables, generics, false, parts.pat, state)?;
    let to = bound.variables.len();
    let (scrutinee, known) = one(alloc, tables, generics, parts.value, bound)?;
    let ((yes, no), last) = choice(alloc, tables, generics, (from, to), parts, known)?;
    let select = two_arms(alloc, span, scrutinee, pat, yes, no)?;
    Ok((select, last))
}

/// What an `if let` may come to: the one where the pattern's names are in scope, the other behind it.
#[cycle(uses)]
fn choice(
    alloc: Global,
    tables: &Tables,
    generics: &Generics,
    names: (usize, usize),
    parts: &LetBranch,
    state: State,
) -> Result<((Expr, Expr), State), Stop>
    ensures { Gives (spec.both_read (spec.within names.0 names.1 (spec.read tables.now generics.now parts.now.matched.now) state) (spec.read tables.now generics.now parts.now.other.now)) result }
{
    let (yes, outer) = within(alloc, tables, generics, names, parts.matched, state)?;
    let (no, last) = resolve_expr(alloc, tables, generics, parts.other, outer)?;
    Ok(((yes, no), last))
}

/// An expression where the variables from one number to before another are in scope.
#[cycle(uses)]
fn within(
    alloc: Global,
    tables: &Tables,
    generics: &Generics,
    names: (usize, usize),
    body: &source::Expr,
    state: State,
) -> Result<(Expr, State), Stop>
    ensures { Gives (spec.within names.0 names.1 (spec.read tables.now generics.now body.now) state) result }
{
    let count = state.scope.len();
    let inner = state.enter(alloc, names.0, names.1)?;
    let (body, after) = resolve_expr(alloc, tables, generics, body, inner)?;
    let outer = after.leave(count)?;
    Ok((body, outer))
}

/// Expressions from left to right.
#[cycle(uses)]
fn resolve_all(
    alloc: Global,
    tables: &Tables,
    generics: &Generics,
    items: &[source::Expr],
    state: State,
) -> Result<(List<Expr>, State), Stop>
    ensures { GivesAs (in_form resolved.exprs) (spec.read_all tables.now generics.now (source.exprs items.now) state) result }
{
    let mut done = List::new(alloc);
    let mut state = state;
    for i in 0..items.len() {
        let (e, next) = resolve_expr(alloc, tables, generics, &items[i], state)?;
        done.push(e)?;
        state = next;
    }
    Ok((done, state))
}

/// A value with the name of its field.
#[cycle(uses)]
fn resolve_init(
    alloc: Global,
    tables: &Tables,
    generics: &Generics,
    item: &(Span, Name, source::Expr),
    state: State,
) -> Result<((Span, Name, Expr), State), Stop>
    ensures { Gives (spec.with_name item.now.0 item.now.1 (spec.read tables.now generics.now item.now.2 state)) result }
{
    let (e, state) = resolve_expr(alloc, tables, generics, &item.2, state)?;
    Ok(((item.0, item.1.try_clone(alloc)?, e), state))
}

/// The values of fields in written order.
#[cycle(uses)]
fn resolve_inits(
    alloc: Global,
    tables: &Tables,
    generics: &Generics,
    items: &[(Span, Name, source::Expr)],
    state: State,
) -> Result<(List<(Span, Name, Expr)>, State), Stop>
    ensures { GivesAs (in_form resolved.inits) (spec.read_inits tables.now generics.now (source.inits items.now) state) result }
{
    let mut done = List::new(alloc);
    let mut state = state;
    for i in 0..items.len() {
        let (item, next) = resolve_init(alloc, tables, generics, &items[i], state)?;
        done.push(item)?;
        state = next;
    }
    Ok((done, state))
}

/// An arm: the pattern's names are in scope in its body alone.
#[cycle(uses)]
fn resolve_arm(
    alloc: Global,
    tables: &Tables,
    generics: &Generics,
    arm: &(source_patterns::Pat, source::Expr),
    state: State,
) -> Result<((Pat, Expr), State), Stop>
    ensures { Gives (spec.under (pattern_uses.read_pat tables.now generics.now false arm.now.0 state) (length state.variables) (spec.read tables.now generics.now arm.now.1)) result }
{
    let from = state.variables.len();
    let (pat, bound) = resolve_pat(alloc, tables, generics, false, &arm.0, state)?;
    let to = bound.variables.len();
    let (body, last) = within(alloc, tables, generics, (from, to), &arm.1, bound)?;
    Ok(((pat, body), last))
}

/// Arms in order.
#[cycle(uses)]
fn resolve_arms(
    alloc: Global,
    tables: &Tables,
    generics: &Generics,
    items: &[(source_patterns::Pat, source::Expr)],
    state: State,
) -> Result<(List<(Pat, Expr)>, State), Stop>
    ensures { GivesAs (in_form resolved.arms) (spec.read_arms tables.now generics.now (source.arms items.now) state) result }
{
    let mut done = List::new(alloc);
    let mut state = state;
    for i in 0..items.len() {
        let (arm, next) = resolve_arm(alloc, tables, generics, &items[i], state)?;
        done.push(arm)?;
        state = next;
    }
    Ok((done, state))
}

/// A block: what its statements bring into scope leaves it with the block.
#[cycle(uses)]
pub(crate) fn resolve_block(
    alloc: Global,
    tables: &Tables,
    generics: &Generics,
    block: &source::Block,
    state: State,
) -> Result<(Block, State), Stop>
    ensures { Gives (spec.read_block tables.now generics.now block.now state) result }
{
    match &block.node {
        source::BlockNode::Block(span, stmts, last) => {
            let stmts = stmts.as_slice();
            let ((stmts, last), state) = in_block(alloc, tables, generics, stmts, last, state)?;
            let node = BlockNode::Block(*span, stmts, last);
            Ok((Block { node }, state))
        }
    }
}

/// The statements and the last expression of a block.
#[cycle(uses)]
fn in_block(
    alloc: Global,
    tables: &Tables,
    generics: &Generics,
    statements: &[source::Stmt],
    last: &Option<Boxed<source::Expr>>,
    state: State,
) -> Result<((List<Stmt>, Option<Boxed<Expr>>), State), Stop>
    ensures { GivesAs (in_form spec.block_form) (spec.in_block (spec.read_stmts tables.now generics.now (source.stmts statements.now) state) (spec.read_maybe tables.now generics.now (source.maybeexpr last.now)) (length state.scope)) result }
{
    let count = state.scope.len();
    let (statements, inner) = resolve_stmts(alloc, tables, generics, statements, state)?;
    let (last, after) = resolve_maybe(alloc, tables, generics, last, inner)?;
    let outer = after.leave(count)?;
    Ok(((statements, last), outer))
}

/// Statements in order.
#[cycle(uses)]
fn resolve_stmts(
    alloc: Global,
    tables: &Tables,
    generics: &Generics,
    items: &[source::Stmt],
    state: State,
) -> Result<(List<Stmt>, State), Stop>
    ensures { GivesAs (in_form resolved.stmts) (spec.read_stmts tables.now generics.now (source.stmts items.now) state) result }
{
    let mut done = List::new(alloc);
    let mut state = state;
    for i in 0..items.len() {
        let (stmt, next) = resolve_stmt(alloc, tables, generics, &items[i], state)?;
        done.push(stmt)?;
        state = next;
    }
    Ok((done, state))
}

/// A statement: the names of a `let` come into scope behind its value.
#[cycle(uses)]
fn resolve_stmt(
    alloc: Global,
    tables: &Tables,
    generics: &Generics,
    stmt: &source::Stmt,
    state: State,
) -> Result<(Stmt, State), Stop>
    ensures { Gives (spec.read_stmt tables.now generics.now stmt.now state) result }
{
    match &stmt.node {
        source::StmtNode::Run(e, semicolon) => {
            let (e, state) = one(alloc, tables, generics, e.get(), state)?;
            let node = StmtNode::Run(e, *semicolon);
            Ok((Stmt { node }, state))
        }
        source::StmtNode::Bind(span, pat, ty, value) => {
            let parts = Let { pat, ty, value };
            Ok(resolve_let(alloc, tables, generics, *span, &parts, state)?)
        }
    }
}

/// A `let`: its names have the first numbers, and come into scope behind its value.
#[cycle(uses)]
fn resolve_let(
    alloc: Global,
    tables: &Tables,
    generics: &Generics,
    span: Span,
    parts: &Let,
    state: State,
) -> Result<(Stmt, State), Stop>
    ensures { Gives (spec.read_stmt tables.now generics.now (source.bind span parts.now.pat.now (types.maybewritten parts.now.ty.now) (source.maybeexpr parts.now.value.now)) state) result }
{
    let from = state.variables.len();
    let late = is_nothing(parts.value);
    let (pat, bound) = resolve_pat(alloc, tables, generics, late, parts.pat, state)?;
    let to = bound.variables.len();
    let ty = resolve_maybe_type(alloc, tables, generics, parts.ty)?;
    let (value, after) = resolve_maybe(alloc, tables, generics, parts.value, bound)?;
    let node = StmtNode::Bind(span, pat, ty, value);
    let stmt = Stmt { node };
    let entered = after.enter(alloc, from, to)?;
    Ok((stmt, entered))
}
