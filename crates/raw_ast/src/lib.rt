//! Trees of a printed text as it is spelled (docs/TEXT.md, "Grammar"): each name, variable and number
//! with its place, before it is looked up. Contracts see each tree as plain data of `specs/`.
#![tactic(auto)]

mod atom;
mod code;
mod computation;
mod declarations;
mod names;
mod pattern;
mod spelling;
mod ty;

pub use atom::{RawAtom, RawAtomNode};
pub use code::{RawCode, RawCodeNode};
pub use computation::{Computation, Operation};
pub use declarations::{Declaration, Definition, Members, RawText, Variant};
pub use names::{Constructor, DefinitionName};
pub use pattern::Pattern;
pub use spelling::Spelling;
pub use ty::{RawType, RawTypeNode};
