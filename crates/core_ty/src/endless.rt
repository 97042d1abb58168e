ghost use Rattle.std.specs.Prelude.{◌≡◌, ◌<◌, ℕ, length, IfOk};
ghost use Rattle.std.specs.Bool.{MatchBool};
ghost use Rattle.core_ty.specs.Marks as spec;
ghost use Rattle.core_ty.specs.Containment.{IsEndless, IsNamed, IsVerdict};

use crate::TypeDecl;
use crate::clear::clear;
use crate::marks::marks;
use crate::parts::is_set;
use crate::search::reach;
use aen_base::{List, NoMem, TypeId};
use std::alloc::Global;
use thiserror::Error;

/// What is wrong with a list of declarations.
#[derive(Clone, Copy, Debug, PartialEq, Eq, Error)]
pub enum DeclFault {
    /// This type contains itself outside Box.
    #[error("a type contains itself")]
    EndlessType(TypeId),
    /// Want of memory.
    #[error("out of memory")]
    Memory,
}

impl From<NoMem> for DeclFault {
    ghost use Rattle.core_ty.specs.declared.endless.DeclFault.TheVariants.{Memory};

    ghost from_gives = { λ _ f. f ≡ Memory };

    fn from(_: NoMem) -> DeclFault {
        DeclFault::Memory
    }
}

/// Looks for a type that contains itself outside Box, where an argument of a declared type counts as
/// far as the declaration has its parameter outside Box. `EndlessType` comes exactly where there is
/// one, and names the first; `Memory` is want of memory. The time is linear in the declarations and
/// the types in them.
pub fn check_decls(alloc: Global, decls: &[TypeDecl]) -> Result<(), DeclFault>
    ensures { IsVerdict decls.now result }
{
    let rows = marks(alloc, decls)?;
    let clear = clear(alloc, decls, rows.as_slice())?;
    for decl in 0..decls.len() {
        if contains_itself(alloc, decls, rows.as_slice(), clear.as_slice(), decl)? {
            return Err(named(decl));
        }
    }
    Ok(())
}

/// Whether a declaration contains itself outside Box. The only error is want of memory.
fn contains_itself(
    alloc: Global,
    decls: &[TypeDecl],
    rows: &[List<bool>],
    clear: &[bool],
    decl: usize,
) -> Result<bool, NoMem>
    requires within { decl < length decls.now }
    requires shape { spec.HasShape decls.now rows.now }
    requires sound { spec.AreSound decls.now rows.now }
    requires complete { (d : ℕ) → spec.IsComplete decls.now rows.now d }
    requires clear { spec.IsClear decls.now clear.now }
    ensures { IfOk result (λ b. MatchBool b (IsEndless decls.now decl) (IsEndless decls.now decl → ⊥)) }
{
    if is_set(clear, decl) {
        return Ok(false);
    }
    let seen = reach(alloc, decls, rows, decl)?;
    Ok(is_set(seen.as_slice(), decl))
}

/// The fault at a type. More than 2 ^ 32 declarations have no room in memory.
fn named(decl: usize) -> DeclFault
    ensures { IsNamed result decl }
{
    match u32::try_from(decl) {
        Ok(number) => DeclFault::EndlessType(TypeId(number)),
        Err(_) => DeclFault::Memory,
    }
}
