//! What a text of the printed language is, how it is laid out, and what its definitions mean
//! (docs/TEXT.md). All of it is definitions of `specs/`, which the printer, the reader and the
//! evaluator of texts meet.
#![tactic(auto)]

mod bare;
mod mark;

use aen_base::PanicKind;
pub use bare::{are_digits, is_bare, is_int_word, is_variable};
pub use mark::Mark;
use pure_ast::PValue;

/// The answer of a definition on its arguments with some fuel.
#[derive(Drop)]
pub enum Answer {
    /// It gives a value.
    Ok(PValue),
    /// It fails, as the source panics with this kind.
    Fail(PanicKind),
    /// The fuel did not reach.
    OutOfFuel,
    /// A primitive on values of a wrong kind, a match that no arm fits, or a variable without a value.
    Stuck,
}
