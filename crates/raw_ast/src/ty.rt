ghost use Rattle.std.specs.Prelude.{◌≡◌, ◌+◌, ◌<◌, length, IfOk};
ghost use Rattle.raw_ast.specs.TypeLeft.{nodes_below};
ghost use Rattle.raw_ast.specs.TypeView.{type_of};
ghost use Rattle.raw_ast.specs.Types as types;

use crate::Spelling;
use aen_base::{Boxed, IntTy, List, NoMem};
use std::alloc::Global;
use std::marker::Model;

/// A type as it is spelled. Contracts see it as `RawType` of `specs/Types.antt`.
#[cycle(ty)]
pub struct RawType {
    pub node: RawTypeNode,
}

/// A deep type is dropped in a loop. What is left to drop waits as one type; where the type in hand
/// has types of its own, it waits in the place of the first of them, which is dropped next. When
/// nothing waits, the parts that were not reached yet are taken before the one that waited: so no
/// part is gone down twice, and the time is linear.
impl Drop for RawType {
    fn drop(mut self) {
        let mut waiting: Option<RawType> = None;
        loop {
            let RawType { node } = self;
            match below_of(node) {
                Below::Nothing => match waiting {
                    None => return,
                    Some(held) => {
                        self = held;
                        waiting = None;
                    }
                },
                Below::Parts(parts) => match waiting {
                    None => {
                        let mut more = parts;
                        let Some(next) = more.pop() else {
                            return;
                        };
                        self = next;
                        if more.is_empty() {
                            waiting = None;
                        } else {
                            waiting = Some(RawType::product(more));
                        }
                    }
                    Some(held) => {
                        if parts.is_empty() {
                            self = held;
                            waiting = None;
                        } else {
                            let (next, more) = put_under(held, parts);
                            self = next;
                            waiting = Some(more);
                        }
                    }
                },
                Below::Two(broken, returned) => match waiting {
                    None => {
                        self = returned.into_inner();
                        waiting = Some(broken.into_inner());
                    }
                    Some(held) => {
                        let (next, more) = put_in_box(held, broken, returned);
                        self = next;
                        waiting = Some(more);
                    }
                },
            }
        }
    }
}

/// The types that stand in a type.
enum Below {
    Nothing,
    Parts(List<RawType>),
    Two(Boxed<RawType>, Boxed<RawType>),
}

/// The types that stand in this one. Nothing is dropped here.
fn below_of(node: RawTypeNode) -> Below
    ensures { nodes_below result ≡ types.nodes_rawtype (type_of node) }
{
    match node {
        RawTypeNode::Int(_) => Below::Nothing,
        RawTypeNode::Bool => Below::Nothing,
        RawTypeNode::Unit => Below::Nothing,
        RawTypeNode::Prod(parts) => Below::Parts(parts),
        RawTypeNode::Named(_name, parts) => Below::Parts(parts),
        RawTypeNode::Exit(broken, returned) => Below::Two(broken, returned),
    }
}

/// The first of some parts, and a product of them with a type in its place. It takes no memory.
fn put_under(held: RawType, parts: List<RawType>) -> (RawType, RawType)
    requires { 0 < length parts }
    ensures first { types.nodes_rawtype result.0 < types.nodes_rawtypes (types.rawtypes parts) }
    ensures all { types.nodes_rawtype result.0 + types.nodes_rawtype result.1 ≡ types.nodes_rawtype held + types.nodes_rawtypes (types.rawtypes parts) + 1 }
{
    let mut parts = parts;
    let first = parts.replace(0, held);
    (first, RawType::product(parts))
}

/// The type in the first box of a loop's way out, and the way out with a type in its place. It
/// takes no memory.
fn put_in_box(held: RawType, broken: Boxed<RawType>, returned: Boxed<RawType>) -> (RawType, RawType)
    ensures first { result.0 ≡ broken }
    ensures all { result.1 ≡ types.exit held returned }
{
    let mut broken = broken;
    let first = broken.replace(held);
    (
        first,
        RawType {
            node: RawTypeNode::Exit(broken, returned),
        },
    )
}

/// The forms of a type. A name is that of a declared type or of a type parameter; `Exit` has the type
/// of a loop's break and that of its return.
#[cycle(ty)]
#[derive(Drop)]
pub enum RawTypeNode {
    Int(IntTy),
    Bool,
    Unit,
    Prod(List<RawType>),
    Named(Spelling, List<RawType>),
    Exit(Boxed<RawType>, Boxed<RawType>),
}

impl Model for RawType {
    ghost use Rattle.raw_ast.specs.Types.{RawType, coded_rawtype, nodes_rawtype};

    ghost Value = { RawType };

    ghost coded = { coded_rawtype };

    ghost use Rattle.raw_ast.specs.TypeView.{type_of};

    ghost view = { λ t. type_of t.node };

    ghost size = { nodes_rawtype };

    ghost use Rattle.std.proofs.Common.{arith};
    ghost use Rattle.raw_ast.specs.TypeFalls.{type_falls};

    ghost size_decreases = { λ a h. Prim.omega (arith, type_falls a.node) };
}

impl RawType {
    /// An integer type.
    pub fn int(ty: IntTy) -> RawType
        ensures { result ≡ types.integer ty }
    {
        RawType {
            node: RawTypeNode::Int(ty),
        }
    }

    /// The type of `true` and `false`.
    pub fn bool_type() -> RawType
        ensures { result ≡ types.boolean }
    {
        RawType {
            node: RawTypeNode::Bool,
        }
    }

    /// The type of `()`.
    pub fn unit() -> RawType
        ensures { result ≡ types.unit }
    {
        RawType {
            node: RawTypeNode::Unit,
        }
    }

    /// A product of types.
    pub fn product(parts: List<RawType>) -> RawType
        ensures { result ≡ types.product (types.rawtypes parts) }
    {
        RawType {
            node: RawTypeNode::Prod(parts),
        }
    }

    /// A name with its arguments.
    pub fn named(name: Spelling, args: List<RawType>) -> RawType
        ensures { result ≡ types.named name (types.rawtypes args) }
    {
        RawType {
            node: RawTypeNode::Named(name, args),
        }
    }

    /// A loop's way out: broken off with a value of one type, or returned with one of the other.
    /// The only error is want of memory.
    pub fn exit(alloc: Global, broken: RawType, returned: RawType) -> Result<RawType, NoMem>
        ensures { IfOk result (λ t. t ≡ types.exit broken returned) }
    {
        Ok(RawType {
            node: RawTypeNode::Exit(Boxed::new(alloc, broken)?, Boxed::new(alloc, returned)?),
        })
    }
}
