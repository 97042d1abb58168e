//! Types that contain themselves outside `Box`.

use aen_base::{Boxed, IntTy, List, Name, NoMem, Span, TypeId};
use core_ty::{DeclFault, Ty, TyNode, TypeDecl, Variant, check_decls};
use std::alloc::Global;
use std::test::Fail;

fn parameter() -> Ty {
    Ty {
        node: TyNode::Param(0),
    }
}

fn plain(number: u32, alloc: Global) -> Ty {
    Ty {
        node: TyNode::Named(TypeId(number), List::new(alloc)),
    }
}

fn applied(alloc: Global, number: u32, arg: Ty) -> Result<Ty, NoMem> {
    let mut args = List::new(alloc);
    args.push(arg)?;
    Ok(Ty {
        node: TyNode::Named(TypeId(number), args),
    })
}

fn boxed(alloc: Global, ty: Ty) -> Result<Ty, NoMem> {
    Ok(Ty {
        node: TyNode::Boxed(Boxed::new(alloc, ty)?),
    })
}

fn pair(alloc: Global, ty: Ty) -> Result<Ty, NoMem> {
    let mut parts = List::new(alloc);
    parts.push(Ty {
        node: TyNode::Int(IntTy::U8),
    })?;
    parts.push(ty)?;
    Ok(Ty {
        node: TyNode::Tuple(parts),
    })
}

/// A struct with one type parameter and one field of this type.
fn declare(alloc: Global, decls: &mut List<TypeDecl>, field: Ty) -> Result<(), NoMem> {
    let mut fields = List::new(alloc);
    fields.push((Name::from_str(alloc, "0")?, field))?;
    let mut variants = List::new(alloc);
    variants.push(Variant {
        name: Name::from_str(alloc, "S")?,
        fields,
    })?;
    let mut params = List::new(alloc);
    params.push(Name::from_str(alloc, "T")?)?;
    decls.push(TypeDecl {
        name: Name::from_str(alloc, "S")?,
        span: Span { lo: 0, hi: 0 },
        params,
        is_struct: true,
        variants,
    })
}

#[test]
fn endless_types(rt: HostRuntime) -> Result<(), Fail> {
    let alloc = rt.alloc();
    // an argument that stands in no field outside Box
    let mut decls = List::new(alloc);
    declare(alloc, &mut decls, boxed(alloc, parameter())?)?;
    declare(alloc, &mut decls, applied(alloc, 0, parameter())?)?;
    declare(alloc, &mut decls, applied(alloc, 1, plain(2, alloc))?)?;
    assert_eq!(rt; check_decls(alloc, decls.as_slice()), Ok(()));
    // one that does
    let mut decls = List::new(alloc);
    declare(alloc, &mut decls, parameter())?;
    declare(alloc, &mut decls, applied(alloc, 0, parameter())?)?;
    declare(alloc, &mut decls, applied(alloc, 1, plain(2, alloc))?)?;
    assert_eq!(rt;
        check_decls(alloc, decls.as_slice()),
        Err(DeclFault::EndlessType(TypeId(2)))
    );
    // itself in a tuple
    let mut decls = List::new(alloc);
    declare(alloc, &mut decls, pair(alloc, plain(0, alloc))?)?;
    assert_eq!(rt;
        check_decls(alloc, decls.as_slice()),
        Err(DeclFault::EndlessType(TypeId(0)))
    );
    // a type that only contains an endless one, and then the endless one
    let mut decls = List::new(alloc);
    declare(alloc, &mut decls, plain(1, alloc))?;
    declare(alloc, &mut decls, plain(1, alloc))?;
    assert_eq!(rt;
        check_decls(alloc, decls.as_slice()),
        Err(DeclFault::EndlessType(TypeId(1)))
    );
    // a circle, with a Box in it and without
    let mut decls = List::new(alloc);
    declare(alloc, &mut decls, plain(1, alloc))?;
    declare(alloc, &mut decls, plain(2, alloc))?;
    declare(alloc, &mut decls, boxed(alloc, plain(0, alloc))?)?;
    assert_eq!(rt; check_decls(alloc, decls.as_slice()), Ok(()));
    let mut decls = List::new(alloc);
    declare(alloc, &mut decls, plain(1, alloc))?;
    declare(alloc, &mut decls, plain(2, alloc))?;
    declare(alloc, &mut decls, plain(0, alloc))?;
    assert_eq!(rt;
        check_decls(alloc, decls.as_slice()),
        Err(DeclFault::EndlessType(TypeId(0)))
    );
    Ok(())
}
