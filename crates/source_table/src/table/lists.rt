//! Lists. Written by tools/grammar.py.

use crate::table::{Productions, productions};
use source_grammar::{Context, Listed, Part, Terminal};
use table_reader::{Production, Symbol};

pub(crate) const LIST_NAMES: Productions = productions! {
    { CloseBracket }
    { Identifier [ListRest(Listed::Names)] }
};

pub(crate) const LIST_TYPE_NAMES: Productions = productions! {
    { Greater }
    { Identifier [ListRest(Listed::TypeNames)] }
};

pub(crate) const LIST_PARAMETERS: Productions = productions! {
    { CloseBracket }
    { [Parameter] [ListRest(Listed::Parameters)] }
};

pub(crate) const LIST_FIELDS: Productions = productions! {
    { CloseBrace }
    { [Field] [ListRest(Listed::Fields)] }
};

pub(crate) const LIST_TUPLE_FIELDS: Productions = productions! {
    { CloseBracket }
    { [TupleField] [ListRest(Listed::TupleFields)] }
};

pub(crate) const LIST_VARIANTS: Productions = productions! {
    { CloseBrace }
    { [Variant] [ListRest(Listed::Variants)] }
};

pub(crate) const LIST_TYPES_IN_ANGLES: Productions = productions! {
    { TypesEnd }
    { [Type] [ListRest(Listed::TypesInAngles)] }
};

pub(crate) const LIST_TYPES: Productions = productions! {
    { CloseBracket }
    { [Type] [ListRest(Listed::Types)] }
};

pub(crate) const LIST_ARGUMENTS: Productions = productions! {
    { CloseBracket }
    { [Expression(Context::Free)] [ListRest(Listed::Arguments)] }
};

pub(crate) const LIST_INITIALS: Productions = productions! {
    { CloseBrace }
    { [Initial] [ListRest(Listed::Initials)] }
};

pub(crate) const LIST_PATTERNS: Productions = productions! {
    { CloseBracket }
    { [Pattern] [ListRest(Listed::Patterns)] }
};

pub(crate) const LIST_FIELD_PATTERNS: Productions = productions! {
    { CloseBrace }
    { [FieldPattern] [ListRest(Listed::FieldPatterns)] }
};

pub(crate) const LIST_REST_NAMES: Productions = productions! {
    { CloseBracket }
    { Comma [List(Listed::Names)] }
};

pub(crate) const LIST_REST_TYPE_NAMES: Productions = productions! {
    { Greater }
    { Comma [List(Listed::TypeNames)] }
};

pub(crate) const LIST_REST_PARAMETERS: Productions = productions! {
    { CloseBracket }
    { Comma [List(Listed::Parameters)] }
};

pub(crate) const LIST_REST_FIELDS: Productions = productions! {
    { CloseBrace }
    { Comma [List(Listed::Fields)] }
};

pub(crate) const LIST_REST_TUPLE_FIELDS: Productions = productions! {
    { CloseBracket }
    { Comma [List(Listed::TupleFields)] }
};

pub(crate) const LIST_REST_VARIANTS: Productions = productions! {
    { CloseBrace }
    { Comma [List(Listed::Variants)] }
};

pub(crate) const LIST_REST_TYPES_IN_ANGLES: Productions = productions! {
    { TypesEnd }
    { Comma [List(Listed::TypesInAngles)] }
};

pub(crate) const LIST_REST_TYPES: Productions = productions! {
    { CloseBracket }
    { Comma [List(Listed::Types)] }
};

pub(crate) const LIST_REST_ARGUMENTS: Productions = productions! {
    { CloseBracket }
    { Comma [List(Listed::Arguments)] }
};

pub(crate) const LIST_REST_INITIALS: Productions = productions! {
    { CloseBrace }
    { Comma [List(Listed::Initials)] }
};

pub(crate) const LIST_REST_PATTERNS: Productions = productions! {
    { CloseBracket }
    { Comma [List(Listed::Patterns)] }
};

pub(crate) const LIST_REST_FIELD_PATTERNS: Productions = productions! {
    { CloseBrace }
    { Comma [List(Listed::FieldPatterns)] }
};
