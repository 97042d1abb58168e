//! Types. Written by tools/grammar.py.

use crate::table::{Productions, productions};
use source_grammar::{Listed, Part, Terminal};
use table_reader::{Production, Symbol};

pub(crate) const TYPE: Productions = productions! {
    { IntWord }
    { Bool }
    { OpenBracket [AfterTypeOpen] }
    { And [BorrowLifetime] [BorrowMut] [Type] }
    { Box Less [Type] TypesEnd }
    { Identifier [TypeArguments] }
};

pub(crate) const BORROW_LIFETIME: Productions = productions! {
    {}
    { AnyLifetime }
};

pub(crate) const BORROW_MUT: Productions = productions! {
    {}
    { Mut }
};

pub(crate) const TYPE_ARGUMENTS: Productions = productions! {
    {}
    { Less [List(Listed::TypesInAngles)] }
};

pub(crate) const AFTER_TYPE_OPEN: Productions = productions! {
    { CloseBracket }
    { [Type] [AfterType] }
};

pub(crate) const AFTER_TYPE: Productions = productions! {
    { CloseBracket }
    { Comma [Type] [ListRest(Listed::Types)] }
};
