//! What is held of each part. Written by tools/text_ways.py.

use crate::front_list::FrontList;
use crate::rests::{AfterConstructor, AfterName, AfterTypeName, Bound, NameEnd, VariantRest};
use aen_base::{Boxed, List};
use raw_ast::{
    Computation, Constructor, Declaration, Definition, DefinitionName, Operation, Pattern, RawAtom,
    RawCode, RawText, RawType, Spelling, Variant,
};
use text_table::Lexeme;

/// The value of a part: a variant for each type that parts carry.
#[derive(Drop)]
pub enum Value {
    Text(Boxed<RawText>),
    Declarations(FrontList<Declaration>),
    Declaration(Boxed<Declaration>),
    Names(FrontList<Spelling>),
    Variants(FrontList<Variant>),
    VariantRest(Boxed<VariantRest>),
    AfterName(Boxed<AfterName>),
    Fields(FrontList<(Spelling, RawType)>),
    Type(Boxed<RawType>),
    Types(FrontList<RawType>),
    AfterTypeName(AfterTypeName),
    Definitions(FrontList<Definition>),
    Definition(Boxed<Definition>),
    Nothing(()),
    DefinitionName(Boxed<DefinitionName>),
    NameEnd(Boxed<NameEnd>),
    BackEnd(Boxed<Option<Spelling>>),
    Code(Boxed<RawCode>),
    Bound(Boxed<Bound>),
    Arms(FrontList<(Pattern, RawCode)>),
    Pattern(Boxed<Pattern>),
    Computation(Boxed<Computation>),
    Operation(Operation),
    OperationEnd(Option<Operation>),
    Atom(Boxed<RawAtom>),
    Atoms(FrontList<RawAtom>),
    Constructor(Boxed<Constructor>),
    AfterConstructor(AfterConstructor),
}

/// The values of symbols, the newest last.
pub type Stack = List<table_reader::Item<Lexeme, Value>>;
