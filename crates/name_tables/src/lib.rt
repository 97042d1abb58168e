//! What a program declares, as tables by name, and what a name means by them: a type, a function, a
//! constructor or a variant (LANGUAGE.md, "Names").
#![tactic(auto)]

mod by_name;
mod fault;
mod gathering;
mod generics;
mod lookups;
mod tables;

pub use by_name::{ByName, Named};
pub use fault::Stop;
pub use gathering::{Gathered, names_of, tables_of};
pub use generics::{function_generics, only_parameters};
pub use lookups::{
    TypeMeaning, constructor_of, empty_struct, known, meaning_of, number, struct_of, swap_place,
    type_meaning, uncalled_place, variant_of,
};
pub use tables::{Generics, Meaning, Tables, TypeNames, ValueNames};
