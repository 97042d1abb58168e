//! Declarations. Written by tools/grammar.py.

use crate::part::Part;
use crate::table::{Productions, productions};
use crate::terminal::Terminal;
use table_reader::{Production, Symbol};

pub(crate) const TEXT: Productions = productions! {
    { Import AenPrelude Open AenPrelude [Types] [Definitions] }
};

pub(crate) const TYPES: Productions = productions! {
    {}
    { [Declaration] [Types] }
};

pub(crate) const DECLARATION: Productions = productions! {
    { Inductive Name [TypeParameters] Where [Variants] }
    { Structure Name [TypeParameters] Where [Fields] }
};

pub(crate) const TYPE_PARAMETERS: Productions = productions! {
    {}
    { OpenBracket Name Colon Type CloseBracket [TypeParameters] }
};

pub(crate) const VARIANTS: Productions = productions! {
    {}
    { Bar Name Colon [VariantType] [Variants] }
};

pub(crate) const VARIANT_TYPE: Productions = productions! {
    { [OtherType] To [VariantType] }
    { Name [VariantEnd] }
};

pub(crate) const VARIANT_END: Productions = productions! {
    {}
    { To [VariantType] }
    { Name [Names] }
};

pub(crate) const NAMES: Productions = productions! {
    {}
    { Name [Names] }
};

pub(crate) const FIELDS: Productions = productions! {
    {}
    { OpenBracket Name Colon [Type] CloseBracket [Fields] }
};
