use crate::{DefinitionName, RawAtom};
use aen_base::{Boxed, List, Span};
use pure_ast::Primitive;

/// A primitive, and the place of the last token of its name.
#[derive(Clone, Copy, Debug)]
pub struct Operation {
    pub primitive: Primitive,
    pub span: Span,
}

/// A computation.
#[derive(Drop)]
pub enum Computation {
    Ok(RawAtom),
    Fail,
    Call(Boxed<DefinitionName>, List<RawAtom>),
    Primitive(Operation, List<RawAtom>),
}
