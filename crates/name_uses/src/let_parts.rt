//! What `let` and `if let` consist of, and what they are with names resolved.

ghost use Rattle.std.specs.Prelude.{◌≡◌, [], ◌∷◌, IfOk};
ghost use Rattle.rust_ast.specs.Patterns as patterns;
ghost use Rattle.rust_ast.specs.Source as source;
ghost use Rattle.name_uses.specs.Uses as spec;

use aen_base::{Boxed, List, NoMem, Span};
use rust_ast::patterns::{Pat, PatNode};
use rust_ast::resolved::{Expr, ExprNode};
use rust_ast::{source, source_patterns, source_types};
use std::alloc::Global;

/// The parts of a `let`.
#[derive(Drop)]
pub(crate) struct Let<'a> {
    pub(crate) pat: &'a source_patterns::Pat,
    pub(crate) ty: &'a Option<source_types::Written>,
    pub(crate) value: &'a Option<Boxed<source::Expr>>,
}

/// The parts of an `if let`.
#[derive(Drop)]
pub(crate) struct LetBranch<'a> {
    pub(crate) pat: &'a source_patterns::Pat,
    pub(crate) value: &'a source::Expr,
    pub(crate) matched: &'a source::Expr,
    pub(crate) other: &'a source::Expr,
}

/// Whether a `let` has no value.
pub(crate) fn is_nothing(value: &Option<Boxed<source::Expr>>) -> bool
    ensures { result ≡ spec.is_nothing (source.maybeexpr value.now) }
{
    value.is_none()
}

/// An `if let`: a `match` with the pattern's arm, and that of any other value.
pub(crate) fn two_arms(
    alloc: Global,
    span: Span,
    scrutinee: Boxed<Expr>,
    pat: Pat,
    yes: Expr,
    no: Expr,
) -> Result<Expr, NoMem>
    ensures { IfOk result (λ e. e ≡ spec.two_arms span scrutinee pat yes no) }
{
    let arms = arm_and_other(alloc, span, pat, yes, no)?;
    Ok(Expr {
        node: ExprNode::Select(span, scrutinee, arms),
    })
}

/// A pattern's arm, and that of any other value.
fn arm_and_other(
    alloc: Global,
    span: Span,
    pat: Pat,
    yes: Expr,
    no: Expr,
) -> Result<List<(Pat, Expr)>, NoMem>
    ensures { IfOk result (λ arms. arms ≡ (pat, yes) ∷ (patterns.wild span, no) ∷ []) }
{
    let mut arms = List::new(alloc);
    arms.push((pat, yes))?;
    arms.push((wild(span), no))?;
    Ok(arms)
}

/// `_`.
fn wild(span: Span) -> Pat
    ensures { result ≡ patterns.wild span }
{
    Pat {
        node: PatNode::Wild(span),
    }
}
