//! Expressions. Written by tools/grammar.py.

use crate::table::{Productions, productions};
use source_grammar::{Context, Level, Listed, Part, Terminal};
use table_reader::{Production, Symbol};

pub(crate) const EXPRESSION_FREE: Productions = productions! {
    { Return [Operand] }
    { Break [Operand] }
    { Continue }
    { [Level(Level::Or, Context::Free)] [MoreAssign(Context::Free)] }
};

pub(crate) const EXPRESSION_CONDITION: Productions = productions! {
    { Return [Expression(Context::Condition)] }
    { Break [Expression(Context::Condition)] }
    { Continue }
    { [Level(Level::Or, Context::Condition)] [MoreAssign(Context::Condition)] }
};

pub(crate) const LEADING_EXPRESSION: Productions = productions! {
    { Return [Operand] }
    { Break [Operand] }
    { Continue }
    { [LeadingLevel(Level::Or)] [MoreAssign(Context::Free)] }
};

pub(crate) const OPERAND: Productions = productions! {
    {}
    { [Expression(Context::Free)] }
};

pub(crate) const MORE_ASSIGN_FREE: Productions = productions! {
    {}
    { AssignOp [Level(Level::Or, Context::Free)] }
};

pub(crate) const MORE_ASSIGN_CONDITION: Productions = productions! {
    {}
    { AssignOp [Level(Level::Or, Context::Condition)] }
};

pub(crate) const LEVEL_OR_FREE: Productions = productions! {
    { [Level(Level::And, Context::Free)] [More(Level::Or, Context::Free)] }
};

pub(crate) const LEVEL_OR_CONDITION: Productions = productions! {
    { [Level(Level::And, Context::Condition)] [More(Level::Or, Context::Condition)] }
};

pub(crate) const LEVEL_AND_FREE: Productions = productions! {
    { [Level(Level::Compare, Context::Free)] [More(Level::And, Context::Free)] }
};

pub(crate) const LEVEL_AND_CONDITION: Productions = productions! {
    { [Level(Level::Compare, Context::Condition)] [More(Level::And, Context::Condition)] }
};

pub(crate) const LEVEL_COMPARE_FREE: Productions = productions! {
    { [Level(Level::BitOr, Context::Free)] [More(Level::Compare, Context::Free)] }
};

pub(crate) const LEVEL_COMPARE_CONDITION: Productions = productions! {
    { [Level(Level::BitOr, Context::Condition)] [More(Level::Compare, Context::Condition)] }
};

pub(crate) const LEVEL_BIT_OR_FREE: Productions = productions! {
    { [Level(Level::Xor, Context::Free)] [More(Level::BitOr, Context::Free)] }
};

pub(crate) const LEVEL_BIT_OR_CONDITION: Productions = productions! {
    { [Level(Level::Xor, Context::Condition)] [More(Level::BitOr, Context::Condition)] }
};

pub(crate) const LEVEL_XOR_FREE: Productions = productions! {
    { [Level(Level::BitAnd, Context::Free)] [More(Level::Xor, Context::Free)] }
};

pub(crate) const LEVEL_XOR_CONDITION: Productions = productions! {
    { [Level(Level::BitAnd, Context::Condition)] [More(Level::Xor, Context::Condition)] }
};

pub(crate) const LEVEL_BIT_AND_FREE: Productions = productions! {
    { [Level(Level::Shift, Context::Free)] [More(Level::BitAnd, Context::Free)] }
};

pub(crate) const LEVEL_BIT_AND_CONDITION: Productions = productions! {
    { [Level(Level::Shift, Context::Condition)] [More(Level::BitAnd, Context::Condition)] }
};

pub(crate) const LEVEL_SHIFT_FREE: Productions = productions! {
    { [Level(Level::Sum, Context::Free)] [More(Level::Shift, Context::Free)] }
};

pub(crate) const LEVEL_SHIFT_CONDITION: Productions = productions! {
    { [Level(Level::Sum, Context::Condition)] [More(Level::Shift, Context::Condition)] }
};

pub(crate) const LEVEL_SUM_FREE: Productions = productions! {
    { [Level(Level::Product, Context::Free)] [More(Level::Sum, Context::Free)] }
};

pub(crate) const LEVEL_SUM_CONDITION: Productions = productions! {
    { [Level(Level::Product, Context::Condition)] [More(Level::Sum, Context::Condition)] }
};

pub(crate) const LEVEL_PRODUCT_FREE: Productions = productions! {
    { [Cast(Context::Free)] [More(Level::Product, Context::Free)] }
};

pub(crate) const LEVEL_PRODUCT_CONDITION: Productions = productions! {
    { [Cast(Context::Condition)] [More(Level::Product, Context::Condition)] }
};

pub(crate) const LEADING_LEVEL_OR: Productions = productions! {
    { [LeadingLevel(Level::And)] [More(Level::Or, Context::Free)] }
};

pub(crate) const LEADING_LEVEL_AND: Productions = productions! {
    { [LeadingLevel(Level::Compare)] [More(Level::And, Context::Free)] }
};

pub(crate) const LEADING_LEVEL_COMPARE: Productions = productions! {
    { [LeadingLevel(Level::BitOr)] [More(Level::Compare, Context::Free)] }
};

pub(crate) const LEADING_LEVEL_BIT_OR: Productions = productions! {
    { [LeadingLevel(Level::Xor)] [More(Level::BitOr, Context::Free)] }
};

pub(crate) const LEADING_LEVEL_XOR: Productions = productions! {
    { [LeadingLevel(Level::BitAnd)] [More(Level::Xor, Context::Free)] }
};

pub(crate) const LEADING_LEVEL_BIT_AND: Productions = productions! {
    { [LeadingLevel(Level::Shift)] [More(Level::BitAnd, Context::Free)] }
};

pub(crate) const LEADING_LEVEL_SHIFT: Productions = productions! {
    { [LeadingLevel(Level::Sum)] [More(Level::Shift, Context::Free)] }
};

pub(crate) const LEADING_LEVEL_SUM: Productions = productions! {
    { [LeadingLevel(Level::Product)] [More(Level::Sum, Context::Free)] }
};

pub(crate) const LEADING_LEVEL_PRODUCT: Productions = productions! {
    { [LeadingCast] [More(Level::Product, Context::Free)] }
};

pub(crate) const MORE_OR_FREE: Productions = productions! {
    {}
    { BarBar [Level(Level::And, Context::Free)] [More(Level::Or, Context::Free)] }
};

pub(crate) const MORE_OR_CONDITION: Productions = productions! {
    {}
    { BarBar [Level(Level::And, Context::Condition)] [More(Level::Or, Context::Condition)] }
};

pub(crate) const MORE_AND_FREE: Productions = productions! {
    {}
    { AndAnd [Level(Level::Compare, Context::Free)] [More(Level::And, Context::Free)] }
};

pub(crate) const MORE_AND_CONDITION: Productions = productions! {
    {}
    { AndAnd [Level(Level::Compare, Context::Condition)] [More(Level::And, Context::Condition)] }
};

pub(crate) const MORE_COMPARE_FREE: Productions = productions! {
    {}
    { CompareOp [Level(Level::BitOr, Context::Free)] }
};

pub(crate) const MORE_COMPARE_CONDITION: Productions = productions! {
    {}
    { CompareOp [Level(Level::BitOr, Context::Condition)] }
};

pub(crate) const MORE_BIT_OR_FREE: Productions = productions! {
    {}
    { Bar [Level(Level::Xor, Context::Free)] [More(Level::BitOr, Context::Free)] }
};

pub(crate) const MORE_BIT_OR_CONDITION: Productions = productions! {
    {}
    { Bar [Level(Level::Xor, Context::Condition)] [More(Level::BitOr, Context::Condition)] }
};

pub(crate) const MORE_XOR_FREE: Productions = productions! {
    {}
    { Caret [Level(Level::BitAnd, Context::Free)] [More(Level::Xor, Context::Free)] }
};

pub(crate) const MORE_XOR_CONDITION: Productions = productions! {
    {}
    { Caret [Level(Level::BitAnd, Context::Condition)] [More(Level::Xor, Context::Condition)] }
};

pub(crate) const MORE_BIT_AND_FREE: Productions = productions! {
    {}
    { And [Level(Level::Shift, Context::Free)] [More(Level::BitAnd, Context::Free)] }
};

pub(crate) const MORE_BIT_AND_CONDITION: Productions = productions! {
    {}
    { And [Level(Level::Shift, Context::Condition)] [More(Level::BitAnd, Context::Condition)] }
};

pub(crate) const MORE_SHIFT_FREE: Productions = productions! {
    {}
    { ShiftOp [Level(Level::Sum, Context::Free)] [More(Level::Shift, Context::Free)] }
};

pub(crate) const MORE_SHIFT_CONDITION: Productions = productions! {
    {}
    { ShiftOp [Level(Level::Sum, Context::Condition)] [More(Level::Shift, Context::Condition)] }
};

pub(crate) const MORE_SUM_FREE: Productions = productions! {
    {}
    { SumOp [Level(Level::Product, Context::Free)] [More(Level::Sum, Context::Free)] }
};

pub(crate) const MORE_SUM_CONDITION: Productions = productions! {
    {}
    { SumOp [Level(Level::Product, Context::Condition)] [More(Level::Sum, Context::Condition)] }
};

pub(crate) const MORE_PRODUCT_FREE: Productions = productions! {
    {}
    { ProductOp [Cast(Context::Free)] [More(Level::Product, Context::Free)] }
};

pub(crate) const MORE_PRODUCT_CONDITION: Productions = productions! {
    {}
    { ProductOp [Cast(Context::Condition)] [More(Level::Product, Context::Condition)] }
};

pub(crate) const CAST_FREE: Productions = productions! {
    { [Unary(Context::Free)] [MoreCasts] }
};

pub(crate) const CAST_CONDITION: Productions = productions! {
    { [Unary(Context::Condition)] [MoreCasts] }
};

pub(crate) const LEADING_CAST: Productions = productions! {
    { [LeadingUnary] [MoreCasts] }
};

pub(crate) const MORE_CASTS: Productions = productions! {
    {}
    { As IntWord [MoreCasts] }
};

pub(crate) const UNARY_FREE: Productions = productions! {
    { Minus [Unary(Context::Free)] }
    { Not [Unary(Context::Free)] }
    { Star [Unary(Context::Free)] }
    { And [Borrowed(Context::Free)] }
    { [Core(Context::Free)] [Postfix] }
    { [BlockLike] [Postfix] }
};

pub(crate) const UNARY_CONDITION: Productions = productions! {
    { Minus [Unary(Context::Condition)] }
    { Not [Unary(Context::Condition)] }
    { Star [Unary(Context::Condition)] }
    { And [Borrowed(Context::Condition)] }
    { [Core(Context::Condition)] [Postfix] }
    { [BlockLike] [Postfix] }
};

pub(crate) const LEADING_UNARY: Productions = productions! {
    { Minus [Unary(Context::Free)] }
    { Not [Unary(Context::Free)] }
    { Star [Unary(Context::Free)] }
    { And [Borrowed(Context::Free)] }
    { [Core(Context::Free)] [Postfix] }
};

pub(crate) const BORROWED_FREE: Productions = productions! {
    { Mut [Unary(Context::Free)] }
    { [Unary(Context::Free)] }
};

pub(crate) const BORROWED_CONDITION: Productions = productions! {
    { Mut [Unary(Context::Condition)] }
    { [Unary(Context::Condition)] }
};

pub(crate) const POSTFIX: Productions = productions! {
    {}
    { Dot [FieldName] [Postfix] }
};

pub(crate) const FIELD_NAME: Productions = productions! {
    { Identifier }
    { Digits }
};

pub(crate) const CORE_FREE: Productions = productions! {
    { Integer }
    { BoolLiteral }
    { OpenBracket [AfterOpen] }
    { PathName [AfterName(Context::Free)] }
    { Mem [AfterMem(Context::Free)] }
    { Std [AfterStd(Context::Free)] }
    { Box Colons New [AfterPath] }
    { PanicName [AfterPanic(Context::Free)] }
    { Assert [AfterAssert(Context::Free)] }
};

pub(crate) const CORE_CONDITION: Productions = productions! {
    { Integer }
    { BoolLiteral }
    { OpenBracket [AfterOpen] }
    { PathName [AfterName(Context::Condition)] }
    { Mem [AfterMem(Context::Condition)] }
    { Std [AfterStd(Context::Condition)] }
    { Box Colons New [AfterPath] }
    { PanicName [AfterPanic(Context::Condition)] }
    { Assert [AfterAssert(Context::Condition)] }
};

pub(crate) const AFTER_OPEN: Productions = productions! {
    { CloseBracket }
    { [Expression(Context::Free)] [AfterFirst] }
};

pub(crate) const AFTER_FIRST: Productions = productions! {
    { CloseBracket }
    { Comma [Expression(Context::Free)] [ListRest(Listed::Arguments)] }
};

pub(crate) const INITIAL: Productions = productions! {
    { Identifier [InitialValue] }
};

pub(crate) const INITIAL_VALUE: Productions = productions! {
    {}
    { Colon [Expression(Context::Free)] }
};
