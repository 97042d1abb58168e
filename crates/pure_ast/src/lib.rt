//! The printed language: types, terms, code and definitions of a text, and the values that it
//! computes with (docs/TEXT.md). Contracts see each tree as plain data of `specs/`.
#![tactic(auto)]

mod code;
mod comp;
mod ctor;
mod def;
mod pat;
mod term;
mod ty;
mod value;

pub use code::{Code, CodeNode};
pub use comp::{BoolOp, Comp, Primitive};
pub use ctor::CtorId;
pub use def::{Def, DefKind, Defs, PType};
pub use pat::Pat;
pub use term::{Term, TermNode};
pub use ty::{PTy, PTyNode};
pub use value::{PValue, PValueNode};
