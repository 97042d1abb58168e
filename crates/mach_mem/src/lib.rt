//! The memory of the machine with pointers: cells, addresses, and the trees that stand in cells.
#![tactic(auto)]

mod address;
mod copy;
mod exchange;
mod memory;
mod trees;

pub use address::{Addr, Cell};
pub use memory::Memory;
pub use trees::{MTree, MTreeNode};
