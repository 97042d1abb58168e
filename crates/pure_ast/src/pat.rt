use crate::CtorId;
use aen_base::List;

/// A pattern of an arm. Its numbers are the variables that take the parts, in order.
#[derive(Debug, Drop)]
pub enum Pat {
    Bool(bool),
    Tuple(List<u32>),
    Ctor(CtorId, List<u32>),
}
