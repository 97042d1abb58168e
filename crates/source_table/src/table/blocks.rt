//! Blocks and statements. Written by tools/grammar.py.

use crate::table::{Productions, productions};
use source_grammar::{Context, Part, Terminal};
use table_reader::{Production, Symbol};

pub(crate) const BLOCK: Productions = productions! {
    { OpenBrace [Statements] }
};

pub(crate) const STATEMENTS: Productions = productions! {
    { CloseBrace }
    { [MoreStatements] }
};

pub(crate) const MORE_STATEMENTS: Productions = productions! {
    { Semicolon [Statements] }
    { Let [Pattern] [LetType] [LetValue] Semicolon [Statements] }
    { [BlockLike] [AfterBlockLike] }
    { [LeadingExpression] [AfterExpression] }
};

pub(crate) const AFTER_BLOCK_LIKE: Productions = productions! {
    { CloseBrace }
    { [MoreStatements] }
};

pub(crate) const AFTER_EXPRESSION: Productions = productions! {
    { CloseBrace }
    { Semicolon [Statements] }
};

pub(crate) const LET_TYPE: Productions = productions! {
    {}
    { Colon [Type] }
};

pub(crate) const LET_VALUE: Productions = productions! {
    {}
    { Equals [Expression(Context::Free)] }
};

pub(crate) const BLOCK_LIKE: Productions = productions! {
    { [Block] }
    { [If] }
    { Match [Expression(Context::Condition)] OpenBrace [Arms] }
    { Loop [Block] }
    { While [AfterWhile] }
};

pub(crate) const AFTER_WHILE: Productions = productions! {
    { [Expression(Context::Condition)] [Block] }
    { Let [Pattern] Equals [Expression(Context::Condition)] [Block] }
};

pub(crate) const IF: Productions = productions! {
    { If [AfterIf] }
};

pub(crate) const AFTER_IF: Productions = productions! {
    { [Expression(Context::Condition)] [Block] [Else] }
    { Let [Pattern] Equals [Expression(Context::Condition)] [Block] [Else] }
};

pub(crate) const ELSE: Productions = productions! {
    {}
    { Else [AfterElse] }
};

pub(crate) const AFTER_ELSE: Productions = productions! {
    { [If] }
    { [Block] }
};

pub(crate) const ARMS: Productions = productions! {
    { CloseBrace }
    { [Pattern] Gives [ArmBody] }
};

pub(crate) const ARM_BODY: Productions = productions! {
    { [BlockLike] [AfterBlockArm] }
    { [LeadingExpression] [AfterArm] }
};

pub(crate) const AFTER_BLOCK_ARM: Productions = productions! {
    { Comma [Arms] }
    { CloseBrace }
    { [Pattern] Gives [ArmBody] }
};

pub(crate) const AFTER_ARM: Productions = productions! {
    { Comma [Arms] }
    { CloseBrace }
};
