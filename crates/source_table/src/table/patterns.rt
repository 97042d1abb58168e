//! Patterns. Written by tools/grammar.py.

use crate::table::{Productions, productions};
use source_grammar::{Listed, Part, Terminal};
use table_reader::{Production, Symbol};

pub(crate) const PATTERN: Productions = productions! {
    { Wild }
    { Mut Identifier }
    { Minus Integer }
    { Integer }
    { BoolLiteral }
    { OpenBracket [AfterPatternOpen] }
    { PatternName [AfterPatternName] }
    { Mem [AfterPatternMem] }
    { Std [AfterPatternStd] }
    { Box Colons New [PatternParts] }
};

pub(crate) const AFTER_PATTERN_OPEN: Productions = productions! {
    { CloseBracket }
    { [Pattern] [AfterPattern] }
};

pub(crate) const AFTER_PATTERN: Productions = productions! {
    { CloseBracket }
    { Comma [Pattern] [ListRest(Listed::Patterns)] }
};

pub(crate) const FIELD_PATTERN: Productions = productions! {
    { Identifier [FieldPatternValue] }
};

pub(crate) const FIELD_PATTERN_VALUE: Productions = productions! {
    {}
    { Colon [Pattern] }
};

pub(crate) const PATTERN_PARTS: Productions = productions! {
    {}
    { [GivenParts] }
};

pub(crate) const GIVEN_PARTS: Productions = productions! {
    { OpenBracket [List(Listed::Patterns)] }
    { OpenBrace [List(Listed::FieldPatterns)] }
};

pub(crate) const AFTER_PATTERN_NAME: Productions = productions! {
    {}
    { [GivenParts] }
    { Colons [AfterPatternColons] }
};

pub(crate) const AFTER_PATTERN_MEM: Productions = productions! {
    {}
    { [GivenParts] }
    { Colons [AfterPatternMemColons] }
};

pub(crate) const AFTER_PATTERN_STD: Productions = productions! {
    {}
    { [GivenParts] }
    { Colons [AfterPatternStdColons] }
};

pub(crate) const AFTER_PATTERN_COLONS: Productions = productions! {
    { Less [List(Listed::TypesInAngles)] Colons Identifier [PatternParts] }
    { Identifier [PatternParts] }
};

pub(crate) const AFTER_PATTERN_MEM_COLONS: Productions = productions! {
    { Less [List(Listed::TypesInAngles)] Colons Identifier [PatternParts] }
    { SwapName [PatternParts] }
    { NotSwap [PatternParts] }
};

pub(crate) const AFTER_PATTERN_STD_COLONS: Productions = productions! {
    { Less [List(Listed::TypesInAngles)] Colons Identifier [PatternParts] }
    { Mem [AfterPatternStdMem] }
    { NotMem [PatternParts] }
};

pub(crate) const AFTER_PATTERN_STD_MEM: Productions = productions! {
    {}
    { [GivenParts] }
    { Colons SwapName [PatternParts] }
};
