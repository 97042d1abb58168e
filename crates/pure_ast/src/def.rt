use crate::{Code, PTy};
use aen_base::{FnId, List, LoopId, Name, RegionId};

/// What a definition is for: a function, the backward function of one of its regions, one of its
/// loops, or the backward function of a loop's class, which is named by the class's least position.
#[derive(Clone, Copy, Debug, PartialEq, Eq)]
pub enum DefKind {
    Forward(FnId),
    Back(FnId, RegionId),
    Loop(FnId, LoopId),
    LoopBack(FnId, LoopId, u32),
}

/// A definition. The parameter in place k, from 0, is the variable k of its code.
#[derive(Drop)]
pub struct Def {
    pub kind: DefKind,
    pub type_params: List<Name>,
    pub params: List<PTy>,
    pub result: PTy,
    pub code: Code,
}

/// A declared type: its type parameters, and its variants with the names and types of their fields.
/// A structure has one variant, named `mk`; the fields of other types are named `f0`, `f1` and so on.
#[derive(Drop)]
pub struct PType {
    pub name: Name,
    pub is_struct: bool,
    pub params: List<Name>,
    pub variants: List<(Name, List<(Name, PTy)>)>,
}

/// The types and definitions of a text, in order, and the names of its functions by number.
#[derive(Drop)]
pub struct Defs {
    pub types: List<PType>,
    pub names: List<Name>,
    pub defs: List<Def>,
}
