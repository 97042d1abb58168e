//! What productions of blocks build. Written by tools/source_build.py.

ghost use Rattle.std.specs.Prelude.{◌≡◌, reverse, IfOk};
ghost use Rattle.source_grammar.specs.declared.part.Part.TheVariants as N;
ghost use Rattle.source_values.specs.Stacked.{CanBuild, IsBuilt};

use aen_base::{Boxed, NoMem};
use expression_ways::blocks;
use source_values::taking::blocks::{
    take_arm_body, take_arms, take_block, take_body, take_conditional, take_maybe_body,
};
use source_values::taking::expressions::{take_expr, take_maybe_expr};
use source_values::taking::patterns::take_pat;
use source_values::taking::types::take_maybe_written;
use source_values::taking::{take_mark, take_token};
use source_values::{Stack, Value};
use source_ways::front_list::FrontList;
use source_ways::spanned::Spanned;
use source_ways::spans::{join, span_of};
use std::alloc::Global;

/// `Block` of: OpenBrace Statements. The only error is want of memory.
pub fn block_0(alloc: Global, values: &mut Stack) -> Result<Value, NoMem>
    requires { CanBuild N.Block 0 (reverse values.old) }
    ensures { IfOk result (λ it. IsBuilt N.Block 0 (reverse values.old) it (reverse values.new)) }
{
    let body = take_body(values);
    let brace = take_token(values);
    let extent = join(Some(brace.span), join(body.extent, None));
    let value = blocks::block(alloc, span_of(extent), brace, body)?;
    Ok(Value::Block(Spanned { value, extent }))
}

/// `Statements` of: CloseBrace.
pub fn statements_0(alloc: Global, values: &mut Stack) -> Value
    requires { CanBuild N.Statements 0 (reverse values.old) }
    ensures { IsBuilt N.Statements 0 (reverse values.old) result (reverse values.new) }
{
    let brace = take_token(values);
    let extent = join(Some(brace.span), None);
    let value = blocks::ended(alloc, span_of(extent), brace);
    Value::Body(Spanned { value, extent })
}

/// `Statements` of: MoreStatements.
pub fn statements_1(values: &mut Stack) -> Value
    requires { CanBuild N.Statements 1 (reverse values.old) }
    ensures { IsBuilt N.Statements 1 (reverse values.old) result (reverse values.new) }
{
    let body = take_body(values);
    let extent = join(body.extent, None);
    Value::Body(Spanned {
        value: body.value,
        extent,
    })
}

/// `MoreStatements` of: Semicolon Statements.
pub fn more_statements_0(values: &mut Stack) -> Value
    requires { CanBuild N.MoreStatements 0 (reverse values.old) }
    ensures { IsBuilt N.MoreStatements 0 (reverse values.old) result (reverse values.new) }
{
    let body = take_body(values);
    let mark = take_mark(values);
    let extent = join(Some(mark), join(body.extent, None));
    Value::Body(Spanned {
        value: body.value,
        extent,
    })
}

/// `MoreStatements` of: Let Pattern LetType LetValue Semicolon Statements. The only error is want of memory.
pub fn more_statements_1(alloc: Global, values: &mut Stack) -> Result<Value, NoMem>
    requires { CanBuild N.MoreStatements 1 (reverse values.old) }
    ensures { IfOk result (λ it. IsBuilt N.MoreStatements 1 (reverse values.old) it (reverse values.new)) }
{
    let rest = take_body(values);
    let semicolon = take_token(values);
    let value = take_maybe_expr(values);
    let ty = take_maybe_written(values);
    let pat = take_pat(values);
    let word = take_token(values);
    let extent = join(
        Some(word.span),
        join(
            pat.extent,
            join(
                ty.extent,
                join(
                    value.extent,
                    join(Some(semicolon.span), join(rest.extent, None)),
                ),
            ),
        ),
    );
    let value = blocks::let_statement(
        alloc,
        span_of(extent),
        word,
        pat,
        ty,
        value,
        semicolon,
        rest,
    )?;
    Ok(Value::Body(Spanned { value, extent }))
}

/// `MoreStatements` of: BlockLike AfterBlockLike. The only error is want of memory.
pub fn more_statements_2(alloc: Global, values: &mut Stack) -> Result<Value, NoMem>
    requires { CanBuild N.MoreStatements 2 (reverse values.old) }
    ensures { IfOk result (λ it. IsBuilt N.MoreStatements 2 (reverse values.old) it (reverse values.new)) }
{
    let rest = take_maybe_body(values);
    let e = take_expr(values);
    let extent = join(e.extent, join(rest.extent, None));
    let value = blocks::block_like_first(alloc, span_of(extent), e, rest)?;
    Ok(Value::Body(Spanned { value, extent }))
}

/// `MoreStatements` of: LeadingExpression AfterExpression. The only error is want of memory.
pub fn more_statements_3(alloc: Global, values: &mut Stack) -> Result<Value, NoMem>
    requires { CanBuild N.MoreStatements 3 (reverse values.old) }
    ensures { IfOk result (λ it. IsBuilt N.MoreStatements 3 (reverse values.old) it (reverse values.new)) }
{
    let rest = take_maybe_body(values);
    let e = take_expr(values);
    let extent = join(e.extent, join(rest.extent, None));
    let value = blocks::expression_first(alloc, span_of(extent), e, rest)?;
    Ok(Value::Body(Spanned { value, extent }))
}

/// `AfterBlockLike` of: CloseBrace. The only error is want of memory.
pub fn after_block_like_0(alloc: Global, values: &mut Stack) -> Result<Value, NoMem>
    requires { CanBuild N.AfterBlockLike 0 (reverse values.old) }
    ensures { IfOk result (λ it. IsBuilt N.AfterBlockLike 0 (reverse values.old) it (reverse values.new)) }
{
    let mark = take_mark(values);
    let extent = join(Some(mark), None);
    let value = None;
    Ok(Value::MaybeBody(Boxed::new(alloc, Spanned { value, extent })?))
}

/// `AfterBlockLike` of: MoreStatements. The only error is want of memory.
pub fn after_block_like_1(alloc: Global, values: &mut Stack) -> Result<Value, NoMem>
    requires { CanBuild N.AfterBlockLike 1 (reverse values.old) }
    ensures { IfOk result (λ it. IsBuilt N.AfterBlockLike 1 (reverse values.old) it (reverse values.new)) }
{
    let body = take_body(values);
    let extent = join(body.extent, None);
    let value = Some(body.value);
    Ok(Value::MaybeBody(Boxed::new(alloc, Spanned { value, extent })?))
}

/// `AfterExpression` of: Semicolon Statements. The only error is want of memory.
pub fn after_expression_1(alloc: Global, values: &mut Stack) -> Result<Value, NoMem>
    requires { CanBuild N.AfterExpression 1 (reverse values.old) }
    ensures { IfOk result (λ it. IsBuilt N.AfterExpression 1 (reverse values.old) it (reverse values.new)) }
{
    let body = take_body(values);
    let mark = take_mark(values);
    let extent = join(Some(mark), join(body.extent, None));
    let value = Some(body.value);
    Ok(Value::MaybeBody(Boxed::new(alloc, Spanned { value, extent })?))
}

/// `LetValue` of: nothing.
pub fn let_value_0(values: &mut Stack) -> Value
    requires { CanBuild N.LetValue 0 (reverse values.old) }
    ensures { IsBuilt N.LetValue 0 (reverse values.old) result (reverse values.new) }
{
    let extent = None;
    let value = None;
    Value::MaybeExpr(Spanned { value, extent })
}

/// `LetValue` of: Equals Expression(Free).
pub fn let_value_1(values: &mut Stack) -> Value
    requires { CanBuild N.LetValue 1 (reverse values.old) }
    ensures { IsBuilt N.LetValue 1 (reverse values.old) result (reverse values.new) }
{
    let value = take_expr(values);
    let mark = take_mark(values);
    let extent = join(Some(mark), join(value.extent, None));
    let value = Some(value.value);
    Value::MaybeExpr(Spanned { value, extent })
}

/// `BlockLike` of: Block. The only error is want of memory.
pub fn block_like_0(alloc: Global, values: &mut Stack) -> Result<Value, NoMem>
    requires { CanBuild N.BlockLike 0 (reverse values.old) }
    ensures { IfOk result (λ it. IsBuilt N.BlockLike 0 (reverse values.old) it (reverse values.new)) }
{
    let b = take_block(values);
    let extent = join(b.extent, None);
    let value = blocks::inner_block(alloc, span_of(extent), b)?;
    Ok(Value::Expr(Spanned { value, extent }))
}

/// `BlockLike` of: If.
pub fn block_like_1(values: &mut Stack) -> Value
    requires { CanBuild N.BlockLike 1 (reverse values.old) }
    ensures { IsBuilt N.BlockLike 1 (reverse values.old) result (reverse values.new) }
{
    let e = take_expr(values);
    let extent = join(e.extent, None);
    Value::Expr(Spanned {
        value: e.value,
        extent,
    })
}

/// `BlockLike` of: Match Expression(Condition) OpenBrace Arms. The only error is want of memory.
pub fn block_like_2(alloc: Global, values: &mut Stack) -> Result<Value, NoMem>
    requires { CanBuild N.BlockLike 2 (reverse values.old) }
    ensures { IfOk result (λ it. IsBuilt N.BlockLike 2 (reverse values.old) it (reverse values.new)) }
{
    let arms = take_arms(values);
    let brace = take_token(values);
    let scrutinee = take_expr(values);
    let word = take_token(values);
    let extent = join(
        Some(word.span),
        join(
            scrutinee.extent,
            join(Some(brace.span), join(arms.extent, None)),
        ),
    );
    let value = blocks::match_expression(alloc, span_of(extent), word, scrutinee, brace, arms)?;
    Ok(Value::Expr(Spanned { value, extent }))
}

/// `BlockLike` of: Loop Block. The only error is want of memory.
pub fn block_like_3(alloc: Global, values: &mut Stack) -> Result<Value, NoMem>
    requires { CanBuild N.BlockLike 3 (reverse values.old) }
    ensures { IfOk result (λ it. IsBuilt N.BlockLike 3 (reverse values.old) it (reverse values.new)) }
{
    let body = take_block(values);
    let word = take_token(values);
    let extent = join(Some(word.span), join(body.extent, None));
    let value = blocks::loop_expression(alloc, span_of(extent), word, body)?;
    Ok(Value::Expr(Spanned { value, extent }))
}

/// `BlockLike` of: While AfterWhile. The only error is want of memory.
pub fn block_like_4(alloc: Global, values: &mut Stack) -> Result<Value, NoMem>
    requires { CanBuild N.BlockLike 4 (reverse values.old) }
    ensures { IfOk result (λ it. IsBuilt N.BlockLike 4 (reverse values.old) it (reverse values.new)) }
{
    let c = take_conditional(values);
    let word = take_token(values);
    let extent = join(Some(word.span), join(c.extent, None));
    let value = blocks::while_expression(alloc, span_of(extent), word, c)?;
    Ok(Value::Expr(Spanned { value, extent }))
}

/// `AfterWhile` of: Expression(Condition) Block. The only error is want of memory.
pub fn after_while_0(alloc: Global, values: &mut Stack) -> Result<Value, NoMem>
    requires { CanBuild N.AfterWhile 0 (reverse values.old) }
    ensures { IfOk result (λ it. IsBuilt N.AfterWhile 0 (reverse values.old) it (reverse values.new)) }
{
    let body = take_block(values);
    let e = take_expr(values);
    let extent = join(e.extent, join(body.extent, None));
    let value = blocks::holds(e, body, None);
    Ok(Value::Conditional(Boxed::new(alloc, Spanned { value, extent })?))
}

/// `AfterWhile` of: Let Pattern Equals Expression(Condition) Block. The only error is want of memory.
pub fn after_while_1(alloc: Global, values: &mut Stack) -> Result<Value, NoMem>
    requires { CanBuild N.AfterWhile 1 (reverse values.old) }
    ensures { IfOk result (λ it. IsBuilt N.AfterWhile 1 (reverse values.old) it (reverse values.new)) }
{
    let body = take_block(values);
    let e = take_expr(values);
    let second_mark = take_mark(values);
    let pat = take_pat(values);
    let mark = take_mark(values);
    let extent = join(
        Some(mark),
        join(
            pat.extent,
            join(Some(second_mark), join(e.extent, join(body.extent, None))),
        ),
    );
    let value = blocks::matches(pat, e, body, None);
    Ok(Value::Conditional(Boxed::new(alloc, Spanned { value, extent })?))
}

/// `If` of: If AfterIf. The only error is want of memory.
pub fn if_0(alloc: Global, values: &mut Stack) -> Result<Value, NoMem>
    requires { CanBuild N.If 0 (reverse values.old) }
    ensures { IfOk result (λ it. IsBuilt N.If 0 (reverse values.old) it (reverse values.new)) }
{
    let c = take_conditional(values);
    let word = take_token(values);
    let extent = join(Some(word.span), join(c.extent, None));
    let value = blocks::if_expression(alloc, span_of(extent), word, c)?;
    Ok(Value::Expr(Spanned { value, extent }))
}

/// `AfterIf` of: Expression(Condition) Block Else. The only error is want of memory.
pub fn after_if_0(alloc: Global, values: &mut Stack) -> Result<Value, NoMem>
    requires { CanBuild N.AfterIf 0 (reverse values.old) }
    ensures { IfOk result (λ it. IsBuilt N.AfterIf 0 (reverse values.old) it (reverse values.new)) }
{
    let other = take_maybe_expr(values);
    let body = take_block(values);
    let e = take_expr(values);
    let extent = join(e.extent, join(body.extent, join(other.extent, None)));
    let value = blocks::holds(e, body, other.value);
    Ok(Value::Conditional(Boxed::new(alloc, Spanned { value, extent })?))
}

/// `AfterIf` of: Let Pattern Equals Expression(Condition) Block Else. The only error is want of memory.
pub fn after_if_1(alloc: Global, values: &mut Stack) -> Result<Value, NoMem>
    requires { CanBuild N.AfterIf 1 (reverse values.old) }
    ensures { IfOk result (λ it. IsBuilt N.AfterIf 1 (reverse values.old) it (reverse values.new)) }
{
    let other = take_maybe_expr(values);
    let body = take_block(values);
    let e = take_expr(values);
    let second_mark = take_mark(values);
    let pat = take_pat(values);
    let mark = take_mark(values);
    let extent = join(
        Some(mark),
        join(
            pat.extent,
            join(
                Some(second_mark),
                join(e.extent, join(body.extent, join(other.extent, None))),
            ),
        ),
    );
    let value = blocks::matches(pat, e, body, other.value);
    Ok(Value::Conditional(Boxed::new(alloc, Spanned { value, extent })?))
}

/// `Arms` of: CloseBrace.
pub fn arms_0(alloc: Global, values: &mut Stack) -> Value
    requires { CanBuild N.Arms 0 (reverse values.old) }
    ensures { IsBuilt N.Arms 0 (reverse values.old) result (reverse values.new) }
{
    let mark = take_mark(values);
    let extent = join(Some(mark), None);
    let value = FrontList::new(alloc);
    Value::Arms(Spanned { value, extent })
}

/// `Arms` of: Pattern Gives ArmBody. The only error is want of memory.
pub fn arms_1(values: &mut Stack) -> Result<Value, NoMem>
    requires { CanBuild N.Arms 1 (reverse values.old) }
    ensures { IfOk result (λ it. IsBuilt N.Arms 1 (reverse values.old) it (reverse values.new)) }
{
    let body = take_arm_body(values);
    let mark = take_token(values);
    let pat = take_pat(values);
    let extent = join(pat.extent, join(Some(mark.span), join(body.extent, None)));
    let value = blocks::arm(span_of(extent), pat, mark, body)?;
    Ok(Value::Arms(Spanned { value, extent }))
}

/// `ArmBody` of: BlockLike AfterBlockArm.
pub fn arm_body_0(values: &mut Stack) -> Value
    requires { CanBuild N.ArmBody 0 (reverse values.old) }
    ensures { IsBuilt N.ArmBody 0 (reverse values.old) result (reverse values.new) }
{
    let more = take_arms(values);
    let body = take_expr(values);
    let extent = join(body.extent, join(more.extent, None));
    let value = blocks::arm_body(span_of(extent), body, more);
    Value::ArmBody(Spanned { value, extent })
}

/// `AfterBlockArm` of: Comma Arms.
pub fn after_block_arm_0(values: &mut Stack) -> Value
    requires { CanBuild N.AfterBlockArm 0 (reverse values.old) }
    ensures { IsBuilt N.AfterBlockArm 0 (reverse values.old) result (reverse values.new) }
{
    let arms = take_arms(values);
    let mark = take_mark(values);
    let extent = join(Some(mark), join(arms.extent, None));
    Value::Arms(Spanned {
        value: arms.value,
        extent,
    })
}
