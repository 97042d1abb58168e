//! The trees of a source: `Program` as it is written; `Resolved`, where each use is the number of
//! what it names; and `Spelled`, where types, reborrows and dereferences are written out
//! (LANGUAGE.md, "Grammar", "Names", "Types"). Their types are made by `tools/code.py` from one
//! description, `tools/rust_ast.desc.py`.
#![tactic(auto)]

mod ident;
pub mod patterns;
pub mod program;
pub mod resolution;
pub mod resolved;
pub mod source;
pub mod source_patterns;
pub mod source_types;
pub mod spelled;
pub mod spelled_patterns;
pub mod spelling;
pub mod written;

pub use ident::Ident;
pub use program::Program;
pub use resolution::{Resolved, Variable};
pub use source_types::Written as TyNode;
pub use spelling::Spelled;
