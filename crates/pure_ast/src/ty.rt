ghost use Rattle.std.specs.Prelude.{◌≡◌, ◌+◌, ◌<◌, length, IfOk};
ghost use Rattle.pure_ast.specs.TypeLeft.{nodes_below};
ghost use Rattle.pure_ast.specs.TypeView.{type_of};
ghost use Rattle.pure_ast.specs.Types as types;

use aen_base::{Boxed, IntTy, List, NoMem, TypeId};
use std::alloc::Global;
use std::marker::Model;

/// A type of the printed language. Contracts see it as `PTy` of `specs/Types.antt`.
#[cycle(ty)]
pub struct PTy {
    pub node: PTyNode,
}

/// A deep type is dropped in a loop. What is left to drop waits as one type; where the type in hand
/// has types of its own, it waits in the place of the first of them, which is dropped next. When
/// nothing waits, the parts that were not reached yet are taken before the one that waited: so no
/// part is gone down twice, and the time is linear.
impl Drop for PTy {
    fn drop(mut self) {
        let mut waiting: Option<PTy> = None;
        loop {
            let PTy { node } = self;
            match below_of(node) {
                Below::Nothing => match waiting {
                    None => return,
                    Some(held) => {
                        self = held;
                        waiting = None;
                    }
                },
                Below::Parts(parts) => match waiting {
                    None => {
                        let mut more = parts;
                        let Some(next) = more.pop() else {
                            return;
                        };
                        self = next;
                        if more.is_empty() {
                            waiting = None;
                        } else {
                            waiting = Some(PTy::product(more));
                        }
                    }
                    Some(held) => {
                        if parts.is_empty() {
                            self = held;
                            waiting = None;
                        } else {
                            let (next, more) = put_under(held, parts);
                            self = next;
                            waiting = Some(more);
                        }
                    }
                },
                Below::Two(broken, returned) => match waiting {
                    None => {
                        self = returned.into_inner();
                        waiting = Some(broken.into_inner());
                    }
                    Some(held) => {
                        let (next, more) = put_in_box(held, broken, returned);
                        self = next;
                        waiting = Some(more);
                    }
                },
            }
        }
    }
}

/// The types that stand in a type.
enum Below {
    Nothing,
    Parts(List<PTy>),
    Two(Boxed<PTy>, Boxed<PTy>),
}

/// The types that stand in this one. Nothing is dropped here.
fn below_of(node: PTyNode) -> Below
    ensures { nodes_below result ≡ types.nodes_pty (type_of node) }
{
    match node {
        PTyNode::Int(_) => Below::Nothing,
        PTyNode::Bool => Below::Nothing,
        PTyNode::Unit => Below::Nothing,
        PTyNode::Prod(parts) => Below::Parts(parts),
        PTyNode::Named(_, parts) => Below::Parts(parts),
        PTyNode::Param(_) => Below::Nothing,
        PTyNode::Exit(broken, returned) => Below::Two(broken, returned),
    }
}

/// The first of some parts, and a product of them with a type in its place. It takes no memory.
fn put_under(held: PTy, parts: List<PTy>) -> (PTy, PTy)
    requires { 0 < length parts }
    ensures first { types.nodes_pty result.0 < types.nodes_ptys (types.ptys parts) }
    ensures all { types.nodes_pty result.0 + types.nodes_pty result.1 ≡ types.nodes_pty held + types.nodes_ptys (types.ptys parts) + 1 }
{
    let mut parts = parts;
    let first = parts.replace(0, held);
    (first, PTy::product(parts))
}

/// The type in the first box of a loop's way out, and the way out with a type in its place. It
/// takes no memory.
fn put_in_box(held: PTy, broken: Boxed<PTy>, returned: Boxed<PTy>) -> (PTy, PTy)
    ensures first { result.0 ≡ broken }
    ensures all { result.1 ≡ types.exit held returned }
{
    let mut broken = broken;
    let first = broken.replace(held);
    (
        first,
        PTy {
            node: PTyNode::Exit(broken, returned),
        },
    )
}

/// The forms of a type. A product has at least two parts; a parameter is numbered from 0 among the
/// type parameters around it; `Exit` has the type of a loop's break and that of its return.
#[cycle(ty)]
#[derive(Drop)]
pub enum PTyNode {
    Int(IntTy),
    Bool,
    Unit,
    Prod(List<PTy>),
    Named(TypeId, List<PTy>),
    Param(u32),
    Exit(Boxed<PTy>, Boxed<PTy>),
}

impl Model for PTy {
    ghost use Rattle.pure_ast.specs.Types.{PTy, coded_pty, nodes_pty};

    ghost Value = { PTy };

    ghost coded = { coded_pty };

    ghost use Rattle.pure_ast.specs.TypeView.{type_of};

    ghost view = { λ t. type_of t.node };

    ghost size = { nodes_pty };

    ghost use Rattle.std.proofs.Common.{arith};
    ghost use Rattle.pure_ast.specs.TypeFalls.{type_falls};

    ghost size_decreases = { λ a h. Prim.omega (arith, type_falls a.node) };
}

impl PTy {
    /// An integer type.
    pub fn int(ty: IntTy) -> PTy
        ensures { result ≡ types.integer ty }
    {
        PTy {
            node: PTyNode::Int(ty),
        }
    }

    /// The type of `true` and `false`.
    pub fn bool_type() -> PTy
        ensures { result ≡ types.boolean }
    {
        PTy {
            node: PTyNode::Bool,
        }
    }

    /// The type of `()`.
    pub fn unit() -> PTy
        ensures { result ≡ types.unit }
    {
        PTy {
            node: PTyNode::Unit,
        }
    }

    /// A product of types.
    pub fn product(parts: List<PTy>) -> PTy
        ensures { result ≡ types.product (types.ptys parts) }
    {
        PTy {
            node: PTyNode::Prod(parts),
        }
    }

    /// A declared type with its arguments.
    pub fn named(ty: TypeId, args: List<PTy>) -> PTy
        ensures { result ≡ types.named ty.0 (types.ptys args) }
    {
        PTy {
            node: PTyNode::Named(ty, args),
        }
    }

    /// The type parameter in this place.
    pub fn parameter(place: u32) -> PTy
        ensures { result ≡ types.parameter place }
    {
        PTy {
            node: PTyNode::Param(place),
        }
    }

    /// A loop's way out: broken off with a value of one type, or returned with one of the other.
    /// The only error is want of memory.
    pub fn exit(alloc: Global, broken: PTy, returned: PTy) -> Result<PTy, NoMem>
        ensures { IfOk result (λ t. t ≡ types.exit broken returned) }
    {
        Ok(PTy {
            node: PTyNode::Exit(Boxed::new(alloc, broken)?, Boxed::new(alloc, returned)?),
        })
    }
}
