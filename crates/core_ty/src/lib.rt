//! The types of the source language, their declarations and signatures.
#![tactic(auto)]

mod builtins;
mod clear;
mod components;
mod copy;
mod decl;
mod endless;
mod marks;
mod parts;
mod places;
mod same;
mod search;
mod shape;
mod spread;
mod substitution;
mod ty;

pub use builtins::builtin_sig;
pub use copy::copy_tys;
pub use decl::{Sig, TypeDecl, Variant};
pub use endless::{DeclFault, check_decls};
pub use places::{Position, positions};
pub use same::same_tys;
pub use shape::is_copy;
pub use substitution::subst;
pub use ty::{Ty, TyNode};
