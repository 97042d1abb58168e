use crate::{Constructor, Spelling};
use aen_base::{Boxed, List};

/// A pattern of an arm, with the variables that take the parts, in order.
#[derive(Debug, Drop)]
pub enum Pattern {
    Truth(bool),
    Tuple(List<Spelling>),
    Built(Boxed<Constructor>, List<Spelling>),
}
