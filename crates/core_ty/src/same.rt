ghost use Rattle.std.specs.Prelude.{◌≡◌, ◌↔◌, IsTrue};

use crate::{Ty, TyNode};

impl Ty {
    /// Whether both are one type, regions of references included.
    pub fn is_same(&self, other: &Ty) -> bool
        ensures { IsTrue result ↔ (self.now ≡ other.now) }
    {
        same_ty(self, other)
    }
}

/// Whether both lists have the same types in the same order.
#[cycle(same)]
#[tactic(auto, using(crate::proofs::Items::tys_inj))]
pub fn same_tys(a: &[Ty], b: &[Ty]) -> bool
    ensures { IsTrue result ↔ (a.now ≡ b.now) }
{
    if a.len() != b.len() {
        return false;
    }
    for i in 0..a.len() {
        if !same_ty(&a[i], &b[i]) {
            return false;
        }
    }
    true
}

#[cycle(same)]
#[tactic(auto, using(crate::proofs::Items::tys_inj))]
fn same_ty(a: &Ty, b: &Ty) -> bool
    ensures { IsTrue result ↔ (a.now ≡ b.now) }
{
    match (&a.node, &b.node) {
        (TyNode::Int(x), TyNode::Int(y)) => x == y,
        (TyNode::Bool, TyNode::Bool) => true,
        (TyNode::Unit, TyNode::Unit) => true,
        (TyNode::Tuple(x), TyNode::Tuple(y)) => same_tys(x.as_slice(), y.as_slice()),
        (TyNode::Named(d, x), TyNode::Named(e, y)) => d == e
            && same_tys(x.as_slice(), y.as_slice()),
        (TyNode::Param(x), TyNode::Param(y)) => x == y,
        (TyNode::Boxed(x), TyNode::Boxed(y)) => same_ty(x.get(), y.get()),
        (TyNode::Ref(r, m, x), TyNode::Ref(s, n, y)) => r == s
            && m == n
            && same_ty(x.get(), y.get()),
        _ => false,
    }
}
