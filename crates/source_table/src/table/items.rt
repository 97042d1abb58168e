//! Items. Written by tools/grammar.py.

use crate::table::{Productions, productions};
use source_grammar::{Listed, Part, Terminal};
use table_reader::{Production, Symbol};

pub(crate) const PROGRAM: Productions = productions! {
    {}
    { Hash [AfterHash] }
    { [Item] [Items] }
};

pub(crate) const AFTER_HASH: Productions = productions! {
    { Not OpenSquare Allow OpenBracket [List(Listed::Names)] CloseSquare [Program] }
    { [Attribute] [Attributed] [Items] }
};

pub(crate) const ITEMS: Productions = productions! {
    {}
    { Hash [Attribute] [Attributed] [Items] }
    { [Item] [Items] }
};

pub(crate) const ATTRIBUTE: Productions = productions! {
    { OpenSquare AttributeName OpenBracket [List(Listed::Names)] CloseSquare }
};

pub(crate) const ATTRIBUTED: Productions = productions! {
    { Hash [Attribute] [Attributed] }
    { Pub [Declaration] }
    { [Declaration] }
};

pub(crate) const ITEM: Productions = productions! {
    { Pub [Declaration] }
    { [Declaration] }
    { Use Std Colons Mem Semicolon }
};

pub(crate) const DECLARATION: Productions = productions! {
    { Fn Identifier [Generics] OpenBracket [List(Listed::Parameters)] [Result] [Block] }
    { Struct Identifier [TypeParameters] [StructBody] }
    { Enum Identifier [TypeParameters] OpenBrace [List(Listed::Variants)] }
};

pub(crate) const GENERICS: Productions = productions! {
    {}
    { Less [Lifetimes] }
};

pub(crate) const LIFETIMES: Productions = productions! {
    { Greater }
    { Lifetime [MoreLifetimes] }
    { Identifier [ListRest(Listed::TypeNames)] }
};

pub(crate) const MORE_LIFETIMES: Productions = productions! {
    { Greater }
    { Comma [Lifetimes] }
};

pub(crate) const TYPE_PARAMETERS: Productions = productions! {
    {}
    { Less [List(Listed::TypeNames)] }
};

pub(crate) const PARAMETER: Productions = productions! {
    { Mut Identifier Colon [Type] }
    { Identifier Colon [Type] }
};

pub(crate) const RESULT: Productions = productions! {
    {}
    { Arrow [Type] }
};

pub(crate) const STRUCT_BODY: Productions = productions! {
    { OpenBrace [List(Listed::Fields)] }
    { OpenBracket [List(Listed::TupleFields)] Semicolon }
    { Semicolon }
};

pub(crate) const FIELD: Productions = productions! {
    { Pub Identifier Colon [Type] }
    { Identifier Colon [Type] }
};

pub(crate) const TUPLE_FIELD: Productions = productions! {
    { Pub [Type] }
    { [Type] }
};

pub(crate) const VARIANT: Productions = productions! {
    { Identifier [VariantBody] }
};

pub(crate) const VARIANT_BODY: Productions = productions! {
    {}
    { OpenBracket [List(Listed::Types)] }
};
