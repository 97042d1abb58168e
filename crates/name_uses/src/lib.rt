//! What each use in types and bodies means: `resolve_type` and `resolve_body` give these with each use
//! as the number of what it names, or the first use that is declared nowhere (LANGUAGE.md, "Names").
#![tactic(auto)]

mod function_bodies;
mod let_parts;
mod path_uses;
mod pattern_uses;
mod scope;
mod state;
mod type_uses;
mod uses;

pub use function_bodies::resolve_body;
pub use path_uses::{Built, Called};
pub use state::State;
pub use type_uses::{resolve_maybe_type, resolve_type};
