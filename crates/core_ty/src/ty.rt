ghost use Rattle.std.specs.Prelude.{◌≡◌};

use aen_base::{Boxed, IntTy, List, RegionId, TypeId};
use std::marker::Model;

/// A type. Contracts see it as data, whose definitions go by cases on its form.
#[cycle(ty)]
#[derive(Drop)]
pub struct Ty {
    pub node: TyNode,
}

/// The forms of a type.
#[cycle(ty)]
#[derive(Drop)]
pub enum TyNode {
    /// An integer type.
    Int(IntTy),
    /// `bool`.
    Bool,
    /// `()`.
    Unit,
    /// A tuple of these parts.
    Tuple(List<Ty>),
    /// A declared type with its arguments.
    Named(TypeId, List<Ty>),
    /// A type parameter of what the type stands in, by its place.
    Param(u32),
    /// `Box` of a type.
    Boxed(Boxed<Ty>),
    /// A reference with this region to a type; true for `&mut`.
    Ref(RegionId, bool, Boxed<Ty>),
}

impl Model for Ty {
    ghost use Rattle.core_ty.specs.Types.{Ty, coded_ty, nodes_ty};

    ghost Value = { Ty };

    ghost coded = { coded_ty };

    ghost use Rattle.core_ty.specs.View.{ty_of};

    ghost view = { λ t. ty_of t.node };

    ghost size = { nodes_ty };

    ghost use Rattle.std.proofs.Common.{arith};
    ghost use Rattle.core_ty.specs.Falls.{ty_falls};

    ghost size_decreases = { λ a h. Prim.omega (arith, ty_falls a.node) };
}
