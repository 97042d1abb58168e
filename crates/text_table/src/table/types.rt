//! Types. Written by tools/grammar.py.

use crate::part::Part;
use crate::table::{Productions, productions};
use crate::terminal::Terminal;
use table_reader::{Production, Symbol};

pub(crate) const TYPE: Productions = productions! {
    { [OtherType] }
    { Name }
};

pub(crate) const OTHER_TYPE: Productions = productions! {
    { Int }
    { Bool }
    { Unit }
    { OpenBracket [TypeInBrackets] }
};

pub(crate) const TYPE_IN_BRACKETS: Productions = productions! {
    { [OtherType] Times [Type] [Factors] }
    { Exit [Type] [Type] CloseBracket }
    { Name [AfterTypeName] }
};

pub(crate) const AFTER_TYPE_NAME: Productions = productions! {
    { [Type] [TypeArguments] }
    { Times [Type] [Factors] }
};

pub(crate) const TYPE_ARGUMENTS: Productions = productions! {
    { CloseBracket }
    { [Type] [TypeArguments] }
};

pub(crate) const FACTORS: Productions = productions! {
    { CloseBracket }
    { Times [Type] [Factors] }
};
