//! What lifetimes mean where a type stands.

ghost use Rattle.std.specs.Prelude.{◌≡◌, IfOk};
ghost use Rattle.region_sigs.specs.Standings.{as_standing};
ghost use Rattle.type_rules.specs.WrittenTypes as spec;

use aen_base::NoMem;
use rust_ast::written::{Lifetime, LifetimeNode};

/// What lifetimes mean where a type stands.
#[derive(Clone, Copy, Debug, PartialEq, Eq)]
pub(crate) enum Standing {
    /// In a declared type they mean nothing.
    Plain,
    /// In a parameter each elided one is a new region.
    Input,
    /// In a result an elided one is the region given, if one is.
    Output(Option<u32>),
}

/// The region of a reference, where it has one; `next` is the next new region.
pub(crate) fn region_of(standing: Standing, lifetime: &Lifetime, next: u32) -> Option<u32>
    ensures { result ≡ spec.region_of (as_standing standing) lifetime.now next }
{
    match standing {
        Standing::Plain => Some(0),
        Standing::Input => match &lifetime.node {
            LifetimeNode::Elided => Some(next),
            LifetimeNode::Declared(number) => Some(*number),
            LifetimeNode::Undeclared => None,
        },
        Standing::Output(one) => match &lifetime.node {
            LifetimeNode::Elided => one,
            LifetimeNode::Declared(number) => Some(*number),
            LifetimeNode::Undeclared => None,
        },
    }
}

/// The next new region after a reference. 2 ^ 32 regions have no room in memory.
pub(crate) fn next_region(standing: Standing, lifetime: &Lifetime, next: u32) -> Result<u32, NoMem>
    ensures { IfOk result (λ n. n ≡ spec.next_region (as_standing standing) lifetime.now next) }
{
    match standing {
        Standing::Plain => Ok(next),
        Standing::Input => match &lifetime.node {
            LifetimeNode::Elided => next.checked_add(1).ok_or(NoMem),
            LifetimeNode::Declared(_) => Ok(next),
            LifetimeNode::Undeclared => Ok(next),
        },
        Standing::Output(_) => Ok(next),
    }
}
