//! What productions of expressions build. Written by tools/source_build.py.

ghost use Rattle.std.specs.Prelude.{◌≡◌, reverse, IfOk};
ghost use Rattle.source_grammar.specs.declared.part.Part.TheVariants as N;
ghost use Rattle.source_values.specs.Stacked.{CanBuild, IsBuilt};
ghost use Rattle.source_grammar.specs.declared.part.Context.TheVariants as At;
ghost use Rattle.source_grammar.specs.declared.part.Level.TheVariants as L;

use aen_base::NoMem;
use expression_ways::{expressions, operators, path_ways};
use rust_ast::source::{Expr, ExprNode};
use source_values::taking::expressions::{
    take_borrowed, take_casts, take_expr, take_exprs, take_ident, take_maybe_expr, take_operations,
};
use source_values::taking::items::take_idents;
use source_values::taking::paths::{take_after, take_calling};
use source_values::taking::{take_mark, take_token};
use source_values::{Stack, Value};
use source_ways::front_list::FrontList;
use source_ways::says::ident;
use source_ways::spanned::Spanned;
use source_ways::spans::{join, span_of};
use std::alloc::Global;

/// `LeadingExpression` of: Return Operand. The only error is want of memory.
pub fn leading_expression_0(alloc: Global, values: &mut Stack) -> Result<Value, NoMem>
    requires { CanBuild N.LeadingExpression 0 (reverse values.old) }
    ensures { IfOk result (λ it. IsBuilt N.LeadingExpression 0 (reverse values.old) it (reverse values.new)) }
{
    let value = take_maybe_expr(values);
    let word = take_token(values);
    let extent = join(Some(word.span), join(value.extent, None));
    let value = expressions::returned(alloc, span_of(extent), word, value)?;
    Ok(Value::Expr(Spanned { value, extent }))
}

/// `LeadingExpression` of: Break Operand. The only error is want of memory.
pub fn leading_expression_1(alloc: Global, values: &mut Stack) -> Result<Value, NoMem>
    requires { CanBuild N.LeadingExpression 1 (reverse values.old) }
    ensures { IfOk result (λ it. IsBuilt N.LeadingExpression 1 (reverse values.old) it (reverse values.new)) }
{
    let value = take_maybe_expr(values);
    let word = take_token(values);
    let extent = join(Some(word.span), join(value.extent, None));
    let value = expressions::broken(alloc, span_of(extent), word, value)?;
    Ok(Value::Expr(Spanned { value, extent }))
}

/// `LeadingExpression` of: Continue.
pub fn leading_expression_2(values: &mut Stack) -> Value
    requires { CanBuild N.LeadingExpression 2 (reverse values.old) }
    ensures { IsBuilt N.LeadingExpression 2 (reverse values.old) result (reverse values.new) }
{
    let mark = take_mark(values);
    let extent = join(Some(mark), None);
    let value = Expr {
        node: ExprNode::GoOn(span_of(extent)),
    };
    Value::Expr(Spanned { value, extent })
}

/// `LeadingExpression` of: LeadingLevel(Or) MoreAssign(Free). The only error is want of memory.
pub fn leading_expression_3(alloc: Global, values: &mut Stack) -> Result<Value, NoMem>
    requires { CanBuild N.LeadingExpression 3 (reverse values.old) }
    ensures { IfOk result (λ it. IsBuilt N.LeadingExpression 3 (reverse values.old) it (reverse values.new)) }
{
    let more = take_operations(values);
    let e = take_expr(values);
    let extent = join(e.extent, join(more.extent, None));
    let value = operators::grouped(alloc, span_of(extent), e, more)?;
    Ok(Value::Expr(Spanned { value, extent }))
}

/// `Operand` of: Expression(Free).
pub fn operand_1(values: &mut Stack) -> Value
    requires { CanBuild N.Operand 1 (reverse values.old) }
    ensures { IsBuilt N.Operand 1 (reverse values.old) result (reverse values.new) }
{
    let e = take_expr(values);
    let extent = join(e.extent, None);
    let value = Some(e.value);
    Value::MaybeExpr(Spanned { value, extent })
}

/// `LeadingCast` of: LeadingUnary MoreCasts. The only error is want of memory.
pub fn leading_cast_0(alloc: Global, values: &mut Stack) -> Result<Value, NoMem>
    requires { CanBuild N.LeadingCast 0 (reverse values.old) }
    ensures { IfOk result (λ it. IsBuilt N.LeadingCast 0 (reverse values.old) it (reverse values.new)) }
{
    let more = take_casts(values);
    let e = take_expr(values);
    let extent = join(e.extent, join(more.extent, None));
    let value = operators::casts(alloc, span_of(extent), e, more)?;
    Ok(Value::Expr(Spanned { value, extent }))
}

/// `MoreCasts` of: nothing.
pub fn more_casts_0(alloc: Global, values: &mut Stack) -> Value
    requires { CanBuild N.MoreCasts 0 (reverse values.old) }
    ensures { IsBuilt N.MoreCasts 0 (reverse values.old) result (reverse values.new) }
{
    let extent = None;
    let value = FrontList::new(alloc);
    Value::Casts(Spanned { value, extent })
}

/// `MoreCasts` of: As IntWord MoreCasts. The only error is want of memory.
pub fn more_casts_1(values: &mut Stack) -> Result<Value, NoMem>
    requires { CanBuild N.MoreCasts 1 (reverse values.old) }
    ensures { IfOk result (λ it. IsBuilt N.MoreCasts 1 (reverse values.old) it (reverse values.new)) }
{
    let more = take_casts(values);
    let ty = take_token(values);
    let word = take_token(values);
    let extent = join(
        Some(word.span),
        join(Some(ty.span), join(more.extent, None)),
    );
    let value = operators::one_cast(span_of(extent), word, ty, more)?;
    Ok(Value::Casts(Spanned { value, extent }))
}

/// `LeadingUnary` of: Minus Unary(Free). The only error is want of memory.
pub fn leading_unary_0(alloc: Global, values: &mut Stack) -> Result<Value, NoMem>
    requires { CanBuild N.LeadingUnary 0 (reverse values.old) }
    ensures { IfOk result (λ it. IsBuilt N.LeadingUnary 0 (reverse values.old) it (reverse values.new)) }
{
    let e = take_expr(values);
    let mark = take_token(values);
    let extent = join(Some(mark.span), join(e.extent, None));
    let value = operators::minus(alloc, span_of(extent), mark, e)?;
    Ok(Value::Expr(Spanned { value, extent }))
}

/// `LeadingUnary` of: Not Unary(Free). The only error is want of memory.
pub fn leading_unary_1(alloc: Global, values: &mut Stack) -> Result<Value, NoMem>
    requires { CanBuild N.LeadingUnary 1 (reverse values.old) }
    ensures { IfOk result (λ it. IsBuilt N.LeadingUnary 1 (reverse values.old) it (reverse values.new)) }
{
    let e = take_expr(values);
    let mark = take_token(values);
    let extent = join(Some(mark.span), join(e.extent, None));
    let value = operators::negation(alloc, span_of(extent), mark, e)?;
    Ok(Value::Expr(Spanned { value, extent }))
}

/// `LeadingUnary` of: Star Unary(Free). The only error is want of memory.
pub fn leading_unary_2(alloc: Global, values: &mut Stack) -> Result<Value, NoMem>
    requires { CanBuild N.LeadingUnary 2 (reverse values.old) }
    ensures { IfOk result (λ it. IsBuilt N.LeadingUnary 2 (reverse values.old) it (reverse values.new)) }
{
    let e = take_expr(values);
    let mark = take_token(values);
    let extent = join(Some(mark.span), join(e.extent, None));
    let value = operators::dereference(alloc, span_of(extent), mark, e)?;
    Ok(Value::Expr(Spanned { value, extent }))
}

/// `LeadingUnary` of: And Borrowed(Free). The only error is want of memory.
pub fn leading_unary_3(alloc: Global, values: &mut Stack) -> Result<Value, NoMem>
    requires { CanBuild N.LeadingUnary 3 (reverse values.old) }
    ensures { IfOk result (λ it. IsBuilt N.LeadingUnary 3 (reverse values.old) it (reverse values.new)) }
{
    let b = take_borrowed(values);
    let mark = take_token(values);
    let extent = join(Some(mark.span), join(b.extent, None));
    let value = operators::borrow(alloc, span_of(extent), mark, b)?;
    Ok(Value::Expr(Spanned { value, extent }))
}

/// `LeadingUnary` of: Core(Free) Postfix. The only error is want of memory.
pub fn leading_unary_4(alloc: Global, values: &mut Stack) -> Result<Value, NoMem>
    requires { CanBuild N.LeadingUnary 4 (reverse values.old) }
    ensures { IfOk result (λ it. IsBuilt N.LeadingUnary 4 (reverse values.old) it (reverse values.new)) }
{
    let more = take_idents(values);
    let e = take_expr(values);
    let extent = join(e.extent, join(more.extent, None));
    let value = operators::with_fields(alloc, span_of(extent), e, more)?;
    Ok(Value::Expr(Spanned { value, extent }))
}

/// `Postfix` of: Dot FieldName Postfix. The only error is want of memory.
pub fn postfix_1(values: &mut Stack) -> Result<Value, NoMem>
    requires { CanBuild N.Postfix 1 (reverse values.old) }
    ensures { IfOk result (λ it. IsBuilt N.Postfix 1 (reverse values.old) it (reverse values.new)) }
{
    let more = take_idents(values);
    let name = take_ident(values);
    let mark = take_mark(values);
    let extent = join(Some(mark), join(name.extent, join(more.extent, None)));
    let value = more.value.push(name.value)?;
    Ok(Value::Idents(Spanned { value, extent }))
}

/// `FieldName` of: Identifier. The only error is want of memory.
pub fn field_name_0(alloc: Global, values: &mut Stack) -> Result<Value, NoMem>
    requires { CanBuild N.FieldName 0 (reverse values.old) }
    ensures { IfOk result (λ it. IsBuilt N.FieldName 0 (reverse values.old) it (reverse values.new)) }
{
    let name = take_token(values);
    let extent = join(Some(name.span), None);
    let value = ident(alloc, name)?;
    Ok(Value::Ident(Spanned { value, extent }))
}

/// `AfterOpen` of: CloseBracket.
pub fn after_open_0(alloc: Global, values: &mut Stack) -> Value
    requires { CanBuild N.AfterOpen 0 (reverse values.old) }
    ensures { IsBuilt N.AfterOpen 0 (reverse values.old) result (reverse values.new) }
{
    let mark = take_mark(values);
    let extent = join(Some(mark), None);
    let value = FrontList::new(alloc);
    Value::Exprs(Spanned { value, extent })
}

/// `AfterOpen` of: Expression(Free) AfterFirst. The only error is want of memory.
pub fn after_open_1(values: &mut Stack) -> Result<Value, NoMem>
    requires { CanBuild N.AfterOpen 1 (reverse values.old) }
    ensures { IfOk result (λ it. IsBuilt N.AfterOpen 1 (reverse values.old) it (reverse values.new)) }
{
    let more = take_exprs(values);
    let e = take_expr(values);
    let extent = join(e.extent, join(more.extent, None));
    let value = more.value.push(e.value)?;
    Ok(Value::Exprs(Spanned { value, extent }))
}

/// `AfterFirst` of: Comma Expression(Free) ListRest(Arguments). The only error is want of memory.
pub fn after_first_1(values: &mut Stack) -> Result<Value, NoMem>
    requires { CanBuild N.AfterFirst 1 (reverse values.old) }
    ensures { IfOk result (λ it. IsBuilt N.AfterFirst 1 (reverse values.old) it (reverse values.new)) }
{
    let more = take_exprs(values);
    let e = take_expr(values);
    let mark = take_mark(values);
    let extent = join(Some(mark), join(e.extent, join(more.extent, None)));
    let value = more.value.push(e.value)?;
    Ok(Value::Exprs(Spanned { value, extent }))
}

/// `Initial` of: Identifier InitialValue. The only error is want of memory.
pub fn initial_0(alloc: Global, values: &mut Stack) -> Result<Value, NoMem>
    requires { CanBuild N.Initial 0 (reverse values.old) }
    ensures { IfOk result (λ it. IsBuilt N.Initial 0 (reverse values.old) it (reverse values.new)) }
{
    let value = take_maybe_expr(values);
    let name = take_token(values);
    let extent = join(Some(name.span), join(value.extent, None));
    let value = expressions::initial(alloc, span_of(extent), name, value)?;
    Ok(Value::Initial(Spanned { value, extent }))
}

/// `Expression(Condition)` of: Return Expression(Condition). The only error is want of memory.
pub fn expression_condition_0(alloc: Global, values: &mut Stack) -> Result<Value, NoMem>
    requires { CanBuild (N.Expression At.Condition) 0 (reverse values.old) }
    ensures { IfOk result (λ it. IsBuilt (N.Expression At.Condition) 0 (reverse values.old) it (reverse values.new)) }
{
    let value = take_expr(values);
    let word = take_token(values);
    let extent = join(Some(word.span), join(value.extent, None));
    let value = expressions::returned_value(alloc, span_of(extent), word, value)?;
    Ok(Value::Expr(Spanned { value, extent }))
}

/// `Expression(Condition)` of: Break Expression(Condition). The only error is want of memory.
pub fn expression_condition_1(alloc: Global, values: &mut Stack) -> Result<Value, NoMem>
    requires { CanBuild (N.Expression At.Condition) 1 (reverse values.old) }
    ensures { IfOk result (λ it. IsBuilt (N.Expression At.Condition) 1 (reverse values.old) it (reverse values.new)) }
{
    let value = take_expr(values);
    let word = take_token(values);
    let extent = join(Some(word.span), join(value.extent, None));
    let value = expressions::broken_value(alloc, span_of(extent), word, value)?;
    Ok(Value::Expr(Spanned { value, extent }))
}

/// `MoreAssign(Free)` of: nothing.
pub fn more_assign_free_0(alloc: Global, values: &mut Stack) -> Value
    requires { CanBuild (N.MoreAssign At.Free) 0 (reverse values.old) }
    ensures { IsBuilt (N.MoreAssign At.Free) 0 (reverse values.old) result (reverse values.new) }
{
    let extent = None;
    let value = FrontList::new(alloc);
    Value::Operations(Spanned { value, extent })
}

/// `MoreAssign(Free)` of: AssignOp Level(Or, Free). The only error is want of memory.
pub fn more_assign_free_1(alloc: Global, values: &mut Stack) -> Result<Value, NoMem>
    requires { CanBuild (N.MoreAssign At.Free) 1 (reverse values.old) }
    ensures { IfOk result (λ it. IsBuilt (N.MoreAssign At.Free) 1 (reverse values.old) it (reverse values.new)) }
{
    let e = take_expr(values);
    let mark = take_token(values);
    let extent = join(Some(mark.span), join(e.extent, None));
    let value = operators::one_operation(alloc, span_of(extent), mark, e)?;
    Ok(Value::Operations(Spanned { value, extent }))
}

/// `More(Or, Free)` of: BarBar Level(And, Free) More(Or, Free). The only error is want of memory.
pub fn more_or_free_1(values: &mut Stack) -> Result<Value, NoMem>
    requires { CanBuild (N.More L.Or At.Free) 1 (reverse values.old) }
    ensures { IfOk result (λ it. IsBuilt (N.More L.Or At.Free) 1 (reverse values.old) it (reverse values.new)) }
{
    let more = take_operations(values);
    let e = take_expr(values);
    let mark = take_token(values);
    let extent = join(Some(mark.span), join(e.extent, join(more.extent, None)));
    let value = operators::next_operation(span_of(extent), mark, e, more)?;
    Ok(Value::Operations(Spanned { value, extent }))
}

/// `Borrowed(Free)` of: Mut Unary(Free).
pub fn borrowed_free_0(values: &mut Stack) -> Value
    requires { CanBuild (N.Borrowed At.Free) 0 (reverse values.old) }
    ensures { IsBuilt (N.Borrowed At.Free) 0 (reverse values.old) result (reverse values.new) }
{
    let e = take_expr(values);
    let mark = take_mark(values);
    let extent = join(Some(mark), join(e.extent, None));
    let value = operators::borrowed(true, e);
    Value::Borrowed(Spanned { value, extent })
}

/// `Borrowed(Free)` of: Unary(Free).
pub fn borrowed_free_1(values: &mut Stack) -> Value
    requires { CanBuild (N.Borrowed At.Free) 1 (reverse values.old) }
    ensures { IsBuilt (N.Borrowed At.Free) 1 (reverse values.old) result (reverse values.new) }
{
    let e = take_expr(values);
    let extent = join(e.extent, None);
    let value = operators::borrowed(false, e);
    Value::Borrowed(Spanned { value, extent })
}

/// `Core(Free)` of: Integer.
pub fn core_free_0(values: &mut Stack) -> Value
    requires { CanBuild (N.Core At.Free) 0 (reverse values.old) }
    ensures { IsBuilt (N.Core At.Free) 0 (reverse values.old) result (reverse values.new) }
{
    let number = take_token(values);
    let extent = join(Some(number.span), None);
    let value = expressions::number_expression(span_of(extent), number);
    Value::Expr(Spanned { value, extent })
}

/// `Core(Free)` of: BoolLiteral.
pub fn core_free_1(values: &mut Stack) -> Value
    requires { CanBuild (N.Core At.Free) 1 (reverse values.old) }
    ensures { IsBuilt (N.Core At.Free) 1 (reverse values.old) result (reverse values.new) }
{
    let word = take_token(values);
    let extent = join(Some(word.span), None);
    let value = expressions::truth_expression(span_of(extent), word);
    Value::Expr(Spanned { value, extent })
}

/// `Core(Free)` of: OpenBracket AfterOpen.
pub fn core_free_2(values: &mut Stack) -> Value
    requires { CanBuild (N.Core At.Free) 2 (reverse values.old) }
    ensures { IsBuilt (N.Core At.Free) 2 (reverse values.old) result (reverse values.new) }
{
    let parts = take_exprs(values);
    let bracket = take_token(values);
    let extent = join(Some(bracket.span), join(parts.extent, None));
    let value = expressions::bracketed(span_of(extent), bracket, parts);
    Value::Expr(Spanned { value, extent })
}

/// `Core(Free)` of: PathName AfterName(Free). The only error is want of memory.
pub fn core_free_3(alloc: Global, values: &mut Stack) -> Result<Value, NoMem>
    requires { CanBuild (N.Core At.Free) 3 (reverse values.old) }
    ensures { IfOk result (λ it. IsBuilt (N.Core At.Free) 3 (reverse values.old) it (reverse values.new)) }
{
    let rest = take_after(values);
    let name = take_token(values);
    let extent = join(Some(name.span), join(rest.extent, None));
    let value = path_ways::named(alloc, span_of(extent), name, rest)?;
    Ok(Value::Expr(Spanned { value, extent }))
}

/// `Core(Free)` of: Box Colons New AfterPath.
pub fn core_free_6(values: &mut Stack) -> Value
    requires { CanBuild (N.Core At.Free) 6 (reverse values.old) }
    ensures { IsBuilt (N.Core At.Free) 6 (reverse values.old) result (reverse values.new) }
{
    let rest = take_calling(values);
    let new = take_token(values);
    let colons = take_token(values);
    let word = take_token(values);
    let extent = join(
        Some(word.span),
        join(
            Some(colons.span),
            join(Some(new.span), join(rest.extent, None)),
        ),
    );
    let value = path_ways::box_new(span_of(extent), word, colons, new, rest);
    Value::Expr(Spanned { value, extent })
}
