//! Paths in expressions. Written by tools/grammar.py.

use crate::table::{Productions, productions};
use source_grammar::{Context, Listed, Part, Terminal};
use table_reader::{Production, Symbol};

pub(crate) const AFTER_NAME_FREE: Productions = productions! {
    {}
    { [NameMore(Context::Free)] }
};

pub(crate) const AFTER_NAME_CONDITION: Productions = productions! {
    {}
    { [NameMore(Context::Condition)] }
};

pub(crate) const AFTER_PANIC_FREE: Productions = productions! {
    {}
    { [NameMore(Context::Free)] }
    { Not OpenBracket [Message] }
};

pub(crate) const AFTER_PANIC_CONDITION: Productions = productions! {
    {}
    { [NameMore(Context::Condition)] }
    { Not OpenBracket [Message] }
};

pub(crate) const AFTER_ASSERT_FREE: Productions = productions! {
    {}
    { [NameMore(Context::Free)] }
    { Not OpenBracket [Expression(Context::Free)] [AssertEnd] }
};

pub(crate) const AFTER_ASSERT_CONDITION: Productions = productions! {
    {}
    { [NameMore(Context::Condition)] }
    { Not OpenBracket [Expression(Context::Free)] [AssertEnd] }
};

pub(crate) const AFTER_MEM_FREE: Productions = productions! {
    {}
    { [Applied(Context::Free)] }
    { Colons [AfterMemColons(Context::Free)] }
};

pub(crate) const AFTER_MEM_CONDITION: Productions = productions! {
    {}
    { [Applied(Context::Condition)] }
    { Colons [AfterMemColons(Context::Condition)] }
};

pub(crate) const AFTER_STD_FREE: Productions = productions! {
    {}
    { [Applied(Context::Free)] }
    { Colons [AfterStdColons(Context::Free)] }
};

pub(crate) const AFTER_STD_CONDITION: Productions = productions! {
    {}
    { [Applied(Context::Condition)] }
    { Colons [AfterStdColons(Context::Condition)] }
};

pub(crate) const NAME_MORE_FREE: Productions = productions! {
    { [Applied(Context::Free)] }
    { Colons [AfterColons(Context::Free)] }
};

pub(crate) const NAME_MORE_CONDITION: Productions = productions! {
    { [Applied(Context::Condition)] }
    { Colons [AfterColons(Context::Condition)] }
};

pub(crate) const APPLIED_FREE: Productions = productions! {
    { OpenBracket [List(Listed::Arguments)] }
    { OpenBrace [List(Listed::Initials)] }
};

pub(crate) const APPLIED_CONDITION: Productions = productions! {
    { OpenBracket [List(Listed::Arguments)] }
};

pub(crate) const AFTER_COLONS_FREE: Productions = productions! {
    { Less [List(Listed::TypesInAngles)] [AfterTurbo(Context::Free)] }
    { Identifier [AfterPath] }
};

pub(crate) const AFTER_COLONS_CONDITION: Productions = productions! {
    { Less [List(Listed::TypesInAngles)] [AfterTurbo(Context::Condition)] }
    { Identifier [AfterPath] }
};

pub(crate) const AFTER_MEM_COLONS_FREE: Productions = productions! {
    { Less [List(Listed::TypesInAngles)] [AfterTurbo(Context::Free)] }
    { SwapName [AfterPath] }
    { NotSwap [AfterPath] }
};

pub(crate) const AFTER_MEM_COLONS_CONDITION: Productions = productions! {
    { Less [List(Listed::TypesInAngles)] [AfterTurbo(Context::Condition)] }
    { SwapName [AfterPath] }
    { NotSwap [AfterPath] }
};

pub(crate) const AFTER_STD_COLONS_FREE: Productions = productions! {
    { Less [List(Listed::TypesInAngles)] [AfterTurbo(Context::Free)] }
    { Mem [AfterStdMem] }
    { NotMem [AfterPath] }
};

pub(crate) const AFTER_STD_COLONS_CONDITION: Productions = productions! {
    { Less [List(Listed::TypesInAngles)] [AfterTurbo(Context::Condition)] }
    { Mem [AfterStdMem] }
    { NotMem [AfterPath] }
};

pub(crate) const AFTER_STD_MEM: Productions = productions! {
    {}
    { OpenBracket [List(Listed::Arguments)] }
    { Colons [AfterStdMemColons] }
};

pub(crate) const AFTER_STD_MEM_COLONS: Productions = productions! {
    { Less [List(Listed::TypesInAngles)] OpenBracket [List(Listed::Arguments)] }
    { SwapName [AfterPath] }
};

pub(crate) const AFTER_TURBO_FREE: Productions = productions! {
    { [Applied(Context::Free)] }
    { Colons Identifier [AfterPath] }
};

pub(crate) const AFTER_TURBO_CONDITION: Productions = productions! {
    { [Applied(Context::Condition)] }
    { Colons Identifier [AfterPath] }
};

pub(crate) const AFTER_PATH: Productions = productions! {
    {}
    { OpenBracket [List(Listed::Arguments)] }
    { Colons Less [List(Listed::TypesInAngles)] OpenBracket [List(Listed::Arguments)] }
};

pub(crate) const MESSAGE: Productions = productions! {
    { CloseBracket }
    { Text CloseBracket }
};

pub(crate) const ASSERT_END: Productions = productions! {
    { CloseBracket }
    { Comma [AfterAssertComma] }
};

pub(crate) const AFTER_ASSERT_COMMA: Productions = productions! {
    { CloseBracket }
    { Text [AfterMessage] }
};

pub(crate) const AFTER_MESSAGE: Productions = productions! {
    { CloseBracket }
    { Comma CloseBracket }
};
