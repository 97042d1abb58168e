//! The reference positions of a type, in written order.

use aen_base::{Builtin, List};
use core_ty::{Ty, TyNode, builtin_sig, is_copy, positions, subst};
use std::test::Fail;

#[test]
fn positions_of_a_signature(rt: HostRuntime) -> Result<(), Fail> {
    let alloc = rt.alloc();
    // the parameters of mem::swap, as a tuple, at bool
    let sig = builtin_sig(alloc, Builtin::Swap)?;
    let tuple = Ty {
        node: TyNode::Tuple(sig.params),
    };
    let mut args = List::new(alloc);
    args.push(Ty { node: TyNode::Bool })?;
    let tuple = subst(alloc, &tuple, args.as_slice())?;
    let copy = tuple.try_clone(alloc)?;
    assert!(rt; tuple.is_same(&copy));
    assert!(rt; !is_copy(&tuple));
    let found = positions(alloc, &tuple)?;
    let mut regions = 0u32;
    for position in found.as_slice() {
        assert_eq!(rt; position.region.0, regions);
        assert_eq!(rt; position.path.as_slice(), [regions].as_slice());
        assert!(rt; position.mutable && is_copy(&position.inner));
        regions += 1;
        if regions == 2 {
            break;
        }
    }
    assert_eq!(rt; found.len(), 2);
    Ok(())
}
