ghost use Rattle.std.specs.Prelude.{◌≡◌, slice_get};
ghost use Rattle.std.specs.Option.{option_copied, option_and_then};
ghost use Rattle.mach_mem.specs.Memory.{child, unit};
ghost use Rattle.mach_mem.specs.Steps as spec;

use crate::trees::{MTree, MTreeNode};
use aen_base::List;
use std::alloc::Global;
use std::mem;

/// An exchange of one part of a tree for another tree; by recursion, as nothing is lent into a tree.
#[cycle(exchange)]
pub(crate) fn exchange(tree: &mut MTree, steps: &[u32], new: MTree) -> Result<MTree, MTree>
    ensures { spec.Exchanges (spec.part_at steps.now tree.old) (spec.with_part_at steps.now new tree.old) tree.old tree.new new result }
{
    match steps.split_first() {
        None => Ok(mem::replace(tree, new)),
        Some((step, rest)) => match &mut tree.node {
            MTreeNode::Tuple(parts) => exchange_in(parts, *step, rest, new),
            MTreeNode::Ctor(_, _, parts) => exchange_in(parts, *step, rest, new),
            _ => Err(new),
        },
    }
}

/// The same in one of these trees.
#[cycle(exchange)]
fn exchange_in(parts: &mut List<MTree>, step: u32, rest: &[u32], new: MTree) -> Result<MTree, MTree>
    ensures { spec.Exchanges (option_and_then (spec.part_at rest.now) (slice_get parts.old step)) (spec.with_part_in rest.now new parts.old step) parts.old parts.new new result }
{
    match parts.get_mut(step as usize) {
        Some(part) => exchange(part, rest, new),
        None => Err(new),
    }
}

impl MTree {
    /// `()`: the tuple without parts. It takes no memory.
    pub fn unit(alloc: Global) -> MTree
        ensures { result ≡ unit }
    {
        MTree {
            node: MTreeNode::Tuple(List::new(alloc)),
        }
    }

    /// Part `k` of a tuple or of a value of a declared type. None exactly where there is none.
    pub fn child(&self, k: u32) -> Option<&MTree>
        ensures { option_copied result ≡ child k self.now }
    {
        match &self.node {
            MTreeNode::Tuple(parts) => parts.get(k as usize),
            MTreeNode::Ctor(_, _, parts) => parts.get(k as usize),
            _ => None,
        }
    }

    /// The part at the end of these steps, the first one first. None exactly where one is missing.
    pub fn part_at(&self, steps: &[u32]) -> Option<&MTree>
        ensures { option_copied result ≡ spec.part_at steps.now self.now }
    {
        match steps.split_first() {
            None => Some(self),
            Some((step, rest)) => match self.child(*step) {
                None => None,
                Some(part) => part.part_at(rest),
            },
        }
    }
}
