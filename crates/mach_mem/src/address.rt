ghost use Rattle.std.specs.Prelude.{◌≡◌, [], ◌∷◌, IfOk};
ghost use Rattle.mach_mem.specs.Cells.{cell_number};

use aen_base::{List, NoMem};
use std::alloc::Global;
use std::marker::Model;

/// A cell, by its number.
#[derive(Clone, Copy, Debug, PartialEq, Eq)]
pub struct Cell(pub u64);

/// Where a tree stands: a cell, and the steps from its tree down to the part, the first one first. Contracts see the
/// last one first, so that the address of a part is one step more.
pub struct Addr {
    pub cell: Cell,
    pub path: List<u32>,
}

impl Drop for Addr {
    fn drop(self) {
        let Addr { cell: _, path: _ } = self;
    }
}

impl Model for Addr {
    ghost use Rattle.std.specs.Prelude.{reverse};
    ghost use Rattle.mach_mem.specs.Addresses.{Address, coded_address};

    ghost Value = { Address };

    ghost coded = { coded_address };

    ghost use Rattle.mach_mem.specs.Cells.{cell_number};

    ghost view = { λ a. (cell_number a.cell, reverse a.path) };
}

impl Addr {
    /// The address of what a cell holds, whole.
    pub fn of(alloc: Global, cell: Cell) -> Addr
        ensures { result ≡ (cell_number cell, []) }
    {
        Addr {
            cell,
            path: List::new(alloc),
        }
    }

    /// A copy of the address. The only error is want of memory.
    pub fn try_clone(&self, alloc: Global) -> Result<Addr, NoMem>
        ensures { IfOk result (λ a. a ≡ self.now) }
    {
        Ok(Addr {
            cell: self.cell,
            path: List::from_slice(alloc, self.path.as_slice())?,
        })
    }

    /// The address of part `k` of what stands here. The only error is want of memory.
    pub fn part(&self, alloc: Global, k: u32) -> Result<Addr, NoMem>
        ensures { IfOk result (λ a. a ≡ (self.now.0, k ∷ self.now.1)) }
    {
        let mut path = List::from_slice(alloc, self.path.as_slice())?;
        path.push(k)?;
        Ok(Addr {
            cell: self.cell,
            path,
        })
    }
}
