//! Prints expressions, statements and blocks.
ghost use Rattle.std.specs.Prelude.{◌≡◌, ◌++◌, OnOk, string_bytes, codes};
ghost use Rattle.rust_ast.specs.Source as trees;
ghost use Rattle.rust_ast.specs.SourceTypes as types;
ghost use Rattle.rust_printer.specs.Forms as forms;
ghost use Rattle.rust_printer.specs.ShownExpressions as spec;
ghost use Rattle.rust_printer.specs.ShownTypes.{turbo_text};
ghost use Rattle.rust_printer.specs.ShownPatterns.{pattern_text};
ghost use Rattle.rust_printer.specs.ShownWords as words;

use crate::forms::{is_core, is_leading, is_operand};
use crate::patterns::put_pattern;
use crate::put::{put, put_number, put_word};
use crate::types::{put_path, put_turbo, put_type};
use crate::words::{bin_mark, cmp_mark, int_word, mut_word, truth_word, update_mark};
use aen_base::{Boxed, IntTy, Name, NoMem, Span};
use rust_ast::Ident;
use rust_ast::source::{Block, BlockNode, Expr, ExprNode, Stmt, StmtNode};
use rust_ast::source_patterns::Pat;
use rust_ast::source_types::{Turbo, Written};

/// Adds the type of a `let`.
fn put_type_of_let(out: &mut String, ty: &Option<Written>) -> Result<(), NoMem>
    ensures { OnOk result (string_bytes out.new ≡ string_bytes out.old ++ spec.type_of_let (types.maybewritten ty.now)) }
{
    match ty {
        None => put(out, ""),
        Some(ty) => {
            put(out, ": ")?;
            put_type(out, ty)
        }
    }
}

/// Adds an expression.
#[cycle(expr)]
fn put_expr(out: &mut String, expr: &Expr) -> Result<(), NoMem>
    ensures { OnOk result (string_bytes out.new ≡ string_bytes out.old ++ spec.expr_text expr.now) }
{
    match &expr.node {
        ExprNode::Number(_, negative, n, suffix) => Ok(put_number(out, *negative, *n, *suffix)?),
        ExprNode::Truth(_, value) => Ok(put(out, truth_word(*value))?),
        ExprNode::Tuple(_, parts) => Ok(put_parts(out, parts.as_slice())?),
        ExprNode::Inner(block) => Ok(put_block(out, block.get())?),
        ExprNode::Branch(_, e, body, other) => Ok(put_branch(
            out,
            e.get(),
            body.get(),
            other.get(),
        )?),
        ExprNode::Select(_, e, arms) => Ok(put_select(out, e.get(), arms.as_slice())?),
        ExprNode::LetBranch(_, pat, e, body, other) => {
            Ok(put_let_branch(out, pat, e.get(), body.get(), other.get())?)
        }
        ExprNode::Forever(_, by_while, body) => Ok(put_loop(out, *by_while, body.get())?),
        ExprNode::Panic(_) => Ok(put(out, "panic ! ( ) ")?),
        ExprNode::Path(_, path) => Ok(put_path(out, path)?),
        ExprNode::Call(_, path, turbo, parts) => {
            put_path(out, path)?;
            put_turbo(out, turbo)?;
            Ok(put_parts(out, parts.as_slice())?)
        }
        ExprNode::Literal(_, name, tys, parts) => Ok(put_literal(
            out,
            name,
            tys,
            parts.as_slice(),
        )?),
        ExprNode::Field(_, e, _, name) => Ok(put_field(out, e.get(), name)?),
        ExprNode::Minus(_, e) => Ok(put_minus(out, e.get())?),
        ExprNode::Negation(_, e) => Ok(put_after(out, "! ", e.get())?),
        ExprNode::Deref(_, e) => Ok(put_after(out, "* ", e.get())?),
        ExprNode::Borrow(_, mutable, e) => Ok(put_borrow(out, *mutable, e.get())?),
        ExprNode::Binary(_, op, a, b) => Ok(put_both(out, a.get(), bin_mark(*op), b.get())?),
        ExprNode::Compare(_, op, a, b) => Ok(put_both(out, a.get(), cmp_mark(*op), b.get())?),
        ExprNode::Both(_, a, b) => Ok(put_both(out, a.get(), "&& ", b.get())?),
        ExprNode::Either(_, a, b) => Ok(put_both(out, a.get(), "|| ", b.get())?),
        ExprNode::Cast(_, e, ty) => Ok(put_cast(out, e.get(), *ty)?),
        ExprNode::Assign(_, a, b) => Ok(put_both(out, a.get(), "= ", b.get())?),
        ExprNode::Update(_, op, a, b) => Ok(put_both(out, a.get(), update_mark(*op), b.get())?),
        ExprNode::Give(_, value) => Ok(put_exit(out, "return ", value)?),
        ExprNode::Leave(_, value) => Ok(put_exit(out, "break ", value)?),
        ExprNode::GoOn(_) => Ok(put(out, "continue ")?),
    }
}

/// Adds an expression, in brackets but where it is `bare`.
#[cycle(expr)]
fn put_unless(out: &mut String, bare: bool, expr: &Expr) -> Result<(), NoMem>
    ensures { OnOk result (string_bytes out.new ≡ string_bytes out.old ++ spec.unless bare (spec.expr_text expr.now)) }
{
    if bare {
        return Ok(put_expr(out, expr)?);
    }
    put(out, "( ")?;
    put_expr(out, expr)?;
    Ok(put(out, ") ")?)
}

/// Adds an operand.
#[cycle(expr)]
fn put_operand(out: &mut String, expr: &Expr) -> Result<(), NoMem>
    ensures { OnOk result (string_bytes out.new ≡ string_bytes out.old ++ spec.unless (forms.is_operand expr.now) (spec.expr_text expr.now)) }
{
    Ok(put_unless(out, is_operand(expr), expr)?)
}

/// Adds what may begin a statement.
#[cycle(expr)]
fn put_leading(out: &mut String, expr: &Expr) -> Result<(), NoMem>
    ensures { OnOk result (string_bytes out.new ≡ string_bytes out.old ++ spec.unless (forms.is_leading expr.now) (spec.expr_text expr.now)) }
{
    Ok(put_unless(out, is_leading(expr), expr)?)
}

/// Adds two operands with a mark between them.
#[cycle(expr)]
fn put_both(out: &mut String, a: &Expr, mark: &str, b: &Expr) -> Result<(), NoMem>
    ensures { OnOk result (string_bytes out.new ≡ string_bytes out.old ++ (spec.unless (forms.is_operand a.now) (spec.expr_text a.now) ++ (mark.now ++ spec.unless (forms.is_operand b.now) (spec.expr_text b.now)))) }
{
    put_operand(out, a)?;
    put(out, mark)?;
    Ok(put_operand(out, b)?)
}

/// Adds an operand after a mark.
#[cycle(expr)]
fn put_after(out: &mut String, mark: &str, expr: &Expr) -> Result<(), NoMem>
    ensures { OnOk result (string_bytes out.new ≡ string_bytes out.old ++ (mark.now ++ spec.unless (forms.is_operand expr.now) (spec.expr_text expr.now))) }
{
    put(out, mark)?;
    Ok(put_operand(out, expr)?)
}

/// Adds a borrow.
#[cycle(expr)]
fn put_borrow(out: &mut String, mutable: bool, expr: &Expr) -> Result<(), NoMem>
    ensures { OnOk result (string_bytes out.new ≡ string_bytes out.old ++ (codes "& " ++ (words.mut_text mutable ++ spec.unless (forms.is_operand expr.now) (spec.expr_text expr.now)))) }
{
    put(out, "& ")?;
    Ok(put_after(out, mut_word(mutable), expr)?)
}

/// Adds a negation of a number.
#[cycle(expr)]
fn put_minus(out: &mut String, expr: &Expr) -> Result<(), NoMem>
    ensures { OnOk result (string_bytes out.new ≡ string_bytes out.old ++ (codes "- ( " ++ (spec.expr_text expr.now ++ codes ") "))) }
{
    put(out, "- ( ")?;
    put_expr(out, expr)?;
    Ok(put(out, ") ")?)
}

/// Adds a field of an expression.
#[cycle(expr)]
fn put_field(out: &mut String, expr: &Expr, name: &Name) -> Result<(), NoMem>
    ensures { OnOk result (string_bytes out.new ≡ string_bytes out.old ++ (spec.unless (forms.is_core expr.now) (spec.expr_text expr.now) ++ (codes "." ++ words.word_text name.now))) }
{
    put_unless(out, is_core(expr), expr)?;
    put(out, ".")?;
    Ok(put_word(out, name.as_str())?)
}

/// Adds a cast.
#[cycle(expr)]
fn put_cast(out: &mut String, expr: &Expr, ty: IntTy) -> Result<(), NoMem>
    ensures { OnOk result (string_bytes out.new ≡ string_bytes out.old ++ (spec.unless (forms.is_operand expr.now) (spec.expr_text expr.now) ++ (codes "as " ++ words.word_text (words.int_word ty)))) }
{
    put_operand(out, expr)?;
    put(out, "as ")?;
    Ok(put_word(out, int_word(ty))?)
}

/// Adds a word and perhaps a value.
#[cycle(expr)]
fn put_exit(out: &mut String, word: &str, value: &Option<Boxed<Expr>>) -> Result<(), NoMem>
    ensures { OnOk result (string_bytes out.new ≡ string_bytes out.old ++ (word.now ++ spec.maybe_text (trees.maybeexpr value.now))) }
{
    put(out, word)?;
    match value {
        None => Ok(put(out, "")?),
        Some(expr) => Ok(put_expr(out, expr.get())?),
    }
}

/// Adds an `if`.
#[cycle(expr)]
fn put_branch(out: &mut String, asked: &Expr, body: &Block, other: &Expr) -> Result<(), NoMem>
    ensures { OnOk result (string_bytes out.new ≡ string_bytes out.old ++ (codes "if ( " ++ (spec.expr_text asked.now ++ (codes ") " ++ (spec.block_text body.now ++ (codes "else " ++ spec.expr_text other.now)))))) }
{
    put(out, "if ( ")?;
    put_expr(out, asked)?;
    put(out, ") ")?;
    put_block(out, body)?;
    put(out, "else ")?;
    Ok(put_expr(out, other)?)
}

/// Adds what an `if let` asks.
#[cycle(expr)]
fn put_matched(out: &mut String, pattern: &Pat, value: &Expr) -> Result<(), NoMem>
    ensures { OnOk result (string_bytes out.new ≡ string_bytes out.old ++ (pattern_text pattern.now ++ (codes "= ( " ++ (spec.expr_text value.now ++ codes ") ")))) }
{
    put_pattern(out, pattern)?;
    put(out, "= ( ")?;
    put_expr(out, value)?;
    Ok(put(out, ") ")?)
}

/// Adds an `if let`.
#[cycle(expr)]
fn put_let_branch(
    out: &mut String,
    pattern: &Pat,
    value: &Expr,
    body: &Expr,
    other: &Expr,
) -> Result<(), NoMem>
    ensures { OnOk result (string_bytes out.new ≡ string_bytes out.old ++ (codes "if let " ++ (pattern_text pattern.now ++ (codes "= ( " ++ (spec.expr_text value.now ++ (codes ") " ++ (spec.expr_text body.now ++ (codes "else " ++ spec.expr_text other.now)))))))) }
{
    put(out, "if let ")?;
    put_matched(out, pattern, value)?;
    put_expr(out, body)?;
    put(out, "else ")?;
    Ok(put_expr(out, other)?)
}

/// Adds a `match`.
#[cycle(expr)]
fn put_select(out: &mut String, value: &Expr, arms: &[(Pat, Expr)]) -> Result<(), NoMem>
    ensures { OnOk result (string_bytes out.new ≡ string_bytes out.old ++ (codes "match ( " ++ (spec.expr_text value.now ++ (codes ") { " ++ (spec.arms_text (trees.arms arms.now) ++ codes "} "))))) }
{
    put(out, "match ( ")?;
    put_expr(out, value)?;
    put(out, ") { ")?;
    put_arms(out, arms)?;
    Ok(put(out, "} ")?)
}

/// Adds a loop. The body of one that is written with `while` is one expression, which asks.
#[cycle(expr)]
fn put_loop(out: &mut String, by_while: bool, body: &Block) -> Result<(), NoMem>
    ensures { OnOk result (string_bytes out.new ≡ string_bytes out.old ++ spec.loop_text by_while body.now) }
{
    match &body.node {
        BlockNode::Block(_, statements, value) => {
            if by_while {
                return Ok(put_asking(out, value)?);
            }
            put(out, "loop ")?;
            Ok(put_braces(out, statements.as_slice(), value)?)
        }
    }
}

/// Adds what such a loop is.
#[cycle(expr)]
fn put_asking(out: &mut String, value: &Option<Boxed<Expr>>) -> Result<(), NoMem>
    ensures { OnOk result (string_bytes out.new ≡ string_bytes out.old ++ spec.asking_text (trees.maybeexpr value.now)) }
{
    match value {
        None => Ok(put(out, "")?),
        Some(expr) => Ok(put_asked(out, expr.get())?),
    }
}

/// Adds what such a loop is, by what its body asks.
#[cycle(expr)]
fn put_asked(out: &mut String, expr: &Expr) -> Result<(), NoMem>
    ensures { OnOk result (string_bytes out.new ≡ string_bytes out.old ++ spec.asked_text expr.now) }
{
    match &expr.node {
        ExprNode::Branch(_, asked, body, _) => {
            put(out, "while ( ")?;
            put_expr(out, asked.get())?;
            put(out, ") ")?;
            Ok(put_block(out, body.get())?)
        }
        ExprNode::LetBranch(_, pattern, value, body, _) => {
            put(out, "while let ")?;
            put_matched(out, pattern, value.get())?;
            Ok(put_expr(out, body.get())?)
        }
        _ => Ok(put(out, "")?),
    }
}

/// Adds a block.
#[cycle(expr)]
pub(crate) fn put_block(out: &mut String, block: &Block) -> Result<(), NoMem>
    ensures { OnOk result (string_bytes out.new ≡ string_bytes out.old ++ spec.block_text block.now) }
{
    match &block.node {
        BlockNode::Block(_, statements, value) => {
            Ok(put_braces(out, statements.as_slice(), value)?)
        }
    }
}

/// Adds statements and a last value in braces.
#[cycle(expr)]
fn put_braces(out: &mut String, stmts: &[Stmt], value: &Option<Boxed<Expr>>) -> Result<(), NoMem>
    ensures { OnOk result (string_bytes out.new ≡ string_bytes out.old ++ (codes "{ " ++ (spec.stmts_text (trees.stmts stmts.now) ++ (spec.value_text (trees.maybeexpr value.now) ++ codes "} ")))) }
{
    put(out, "{ ")?;
    put_stmts(out, stmts)?;
    put_value(out, value)?;
    Ok(put(out, "} ")?)
}

/// Adds the value of a block.
#[cycle(expr)]
fn put_value(out: &mut String, value: &Option<Boxed<Expr>>) -> Result<(), NoMem>
    ensures { OnOk result (string_bytes out.new ≡ string_bytes out.old ++ spec.value_text (trees.maybeexpr value.now)) }
{
    match value {
        None => Ok(put(out, "")?),
        Some(expr) => Ok(put_leading(out, expr.get())?),
    }
}

/// Adds a statement.
#[cycle(expr)]
fn put_stmt(out: &mut String, stmt: &Stmt) -> Result<(), NoMem>
    ensures { OnOk result (string_bytes out.new ≡ string_bytes out.old ++ spec.stmt_text stmt.now) }
{
    match &stmt.node {
        StmtNode::Run(expr, ended) => Ok(put_run(out, expr.get(), *ended)?),
        StmtNode::Bind(_, pattern, ty, value) => {
            put(out, "let ")?;
            put_pattern(out, pattern)?;
            put_type_of_let(out, ty)?;
            put_given(out, value)?;
            Ok(put(out, "; ")?)
        }
    }
}

/// Adds an expression as a statement.
#[cycle(expr)]
fn put_run(out: &mut String, expr: &Expr, ended: bool) -> Result<(), NoMem>
    ensures { OnOk result (string_bytes out.new ≡ string_bytes out.old ++ spec.stmt_text (trees.run expr.now ended)) }
{
    if ended {
        put_operand(out, expr)?;
        return Ok(put(out, "; ")?);
    }
    put_expr(out, expr)?;
    Ok(put(out, "; ")?)
}

/// Adds the value of a `let`.
#[cycle(expr)]
fn put_given(out: &mut String, value: &Option<Boxed<Expr>>) -> Result<(), NoMem>
    ensures { OnOk result (string_bytes out.new ≡ string_bytes out.old ++ spec.given_text (trees.maybeexpr value.now)) }
{
    match value {
        None => Ok(put(out, "")?),
        Some(expr) => {
            put(out, "= ")?;
            Ok(put_expr(out, expr.get())?)
        }
    }
}

/// Adds expressions in round brackets.
#[cycle(expr)]
fn put_parts(out: &mut String, parts: &[Expr]) -> Result<(), NoMem>
    ensures { OnOk result (string_bytes out.new ≡ string_bytes out.old ++ (codes "( " ++ (spec.exprs_text (trees.exprs parts.now) ++ codes ") "))) }
{
    put(out, "( ")?;
    put_exprs(out, parts)?;
    Ok(put(out, ") ")?)
}

/// Adds a constructor whose parts stand by name.
#[cycle(expr)]
fn put_literal(
    out: &mut String,
    name: &Ident,
    turbo: &Turbo,
    parts: &[(Span, Name, Expr)],
) -> Result<(), NoMem>
    ensures { OnOk result (string_bytes out.new ≡ string_bytes out.old ++ (words.word_text name.now.name ++ (turbo_text turbo.now ++ (codes "{ " ++ (spec.inits_text (trees.inits parts.now) ++ codes "} "))))) }
{
    put_word(out, name.name.as_str())?;
    put_turbo(out, turbo)?;
    put(out, "{ ")?;
    put_inits(out, parts)?;
    Ok(put(out, "} ")?)
}

/// Adds expressions, each with a comma.
#[cycle(expr)]
fn put_exprs(out: &mut String, parts: &[Expr]) -> Result<(), NoMem>
    ensures { OnOk result (string_bytes out.new ≡ string_bytes out.old ++ spec.exprs_text (trees.exprs parts.now)) }
{
    for part in parts {
        put_expr(out, part)?;
        put(out, ", ")?;
    }
    Ok(())
}

/// Adds arms, each with a comma.
#[cycle(expr)]
fn put_arms(out: &mut String, arms: &[(Pat, Expr)]) -> Result<(), NoMem>
    ensures { OnOk result (string_bytes out.new ≡ string_bytes out.old ++ spec.arms_text (trees.arms arms.now)) }
{
    for arm in arms {
        put_pattern(out, &arm.0)?;
        put(out, "=> ")?;
        put_leading(out, &arm.1)?;
        put(out, ", ")?;
    }
    Ok(())
}

/// Adds fields with their values, each with a comma.
#[cycle(expr)]
fn put_inits(out: &mut String, parts: &[(Span, Name, Expr)]) -> Result<(), NoMem>
    ensures { OnOk result (string_bytes out.new ≡ string_bytes out.old ++ spec.inits_text (trees.inits parts.now)) }
{
    for part in parts {
        put_word(out, part.1.as_str())?;
        put(out, ": ")?;
        put_expr(out, &part.2)?;
        put(out, ", ")?;
    }
    Ok(())
}

/// Adds statements.
#[cycle(expr)]
fn put_stmts(out: &mut String, stmts: &[Stmt]) -> Result<(), NoMem>
    ensures { OnOk result (string_bytes out.new ≡ string_bytes out.old ++ spec.stmts_text (trees.stmts stmts.now)) }
{
    for stmt in stmts {
        put_stmt(out, stmt)?;
    }
    Ok(())
}
