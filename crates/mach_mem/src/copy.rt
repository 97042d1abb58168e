ghost use Rattle.std.specs.Prelude.{◌≡◌, IfOk};

use crate::trees::{MTree, MTreeNode};
use aen_base::{List, NoMem};
use std::alloc::Global;

impl MTree {
    /// A copy of the tree. The only error is want of memory.
    pub fn try_clone(&self, alloc: Global) -> Result<MTree, NoMem>
        ensures { IfOk result (λ t. t ≡ self.now) }
    {
        copy_tree(alloc, self)
    }
}

/// A copy of each of these trees, in order. The only error is want of memory.
#[cycle(copy)]
fn copy_trees(alloc: Global, trees: &[MTree]) -> Result<List<MTree>, NoMem>
    ensures { IfOk result (λ ts. ts ≡ trees.now) }
{
    let mut all = List::new(alloc);
    for tree in trees {
        all.push(copy_tree(alloc, tree)?)?;
    }
    Ok(all)
}

#[cycle(copy)]
fn copy_tree(alloc: Global, tree: &MTree) -> Result<MTree, NoMem>
    ensures { IfOk result (λ t. t ≡ tree.now) }
{
    let node = match &tree.node {
        MTreeNode::Num(number) => MTreeNode::Num(*number),
        MTreeNode::Bool(truth) => MTreeNode::Bool(*truth),
        MTreeNode::Tuple(parts) => MTreeNode::Tuple(copy_trees(alloc, parts.as_slice())?),
        MTreeNode::Ctor(ty, variant, parts) => MTreeNode::Ctor(
            *ty,
            *variant,
            copy_trees(alloc, parts.as_slice())?,
        ),
        MTreeNode::BoxAt(cell) => MTreeNode::BoxAt(*cell),
        MTreeNode::Ptr(at) => MTreeNode::Ptr(at.try_clone(alloc)?),
    };
    Ok(MTree { node })
}
