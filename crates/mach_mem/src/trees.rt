// Made by tools/code.py from tools/mach_mem.desc.py.
use crate::address::{Addr, Cell};
use aen_base::{List, Num, TypeId};
use std::marker::Model;

/// What stands in a cell.
#[cycle(trees)]
pub struct MTree {
    pub node: MTreeNode,
}

impl Drop for MTree {
    fn drop(self) {
        let MTree { node } = self;
        match node {
            MTreeNode::Num(_) => {}
            MTreeNode::Bool(_) => {}
            MTreeNode::Tuple(_tuple) => {}
            MTreeNode::Ctor(_, _, _ctor) => {}
            MTreeNode::BoxAt(_) => {}
            MTreeNode::Ptr(_) => {}
        }
    }
}

/// The forms of `MTree`.
#[cycle(trees)]
#[derive(Drop)]
pub enum MTreeNode {
    /// An integer.
    Num(Num),
    /// A boolean.
    Bool(bool),
    /// A tuple of these parts.
    Tuple(List<MTree>),
    /// A value of a declared type: its variant by place, and its fields.
    Ctor(TypeId, u32, List<MTree>),
    /// A box, whose content stands in this cell.
    BoxAt(Cell),
    /// A reference to what stands at this address.
    Ptr(Addr),
}

impl Model for MTree {
    ghost use Rattle.mach_mem.specs.Trees.{MTree, coded_mtree, nodes_mtree};

    ghost Value = { MTree };

    ghost coded = { coded_mtree };

    ghost use Rattle.mach_mem.specs.TreesView.{mtree_of};

    ghost view = { λ e. mtree_of e.node };

    ghost size = { nodes_mtree };

    ghost use Rattle.std.proofs.Common.{arith};
    ghost use Rattle.mach_mem.specs.TreesFalls.{mtree_falls};

    ghost size_decreases = { λ a h. Prim.omega (arith, mtree_falls a.node) };
}

impl MTree {
    ghost use Rattle.std.specs.Prelude.{◌≡◌};
    ghost use Rattle.mach_mem.specs.TreesView.{mtree_of};

    /// The form, taken out.
    pub fn into_node(self) -> MTreeNode
        ensures { mtree_of result ≡ self }
    {
        let MTree { node } = self;
        node
    }
}
