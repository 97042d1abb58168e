ghost use Rattle.std.specs.Prelude.{◌≡◌, ℕ, [], ◌∷◌, length, map, nat_eq, cond, Some, None, IfOk, OnOk, OnErr, MatchResult};
ghost use Rattle.std.specs.Option.{option_copied};
ghost use Rattle.indexmap.specs.IndexMap.{get};
ghost use Rattle.mach_mem.specs.Cells.{cell_number};
ghost use Rattle.mach_mem.specs.Memory as spec;
ghost use Rattle.mach_mem.specs.Laws.{Changes};
ghost use Rattle.mach_mem.specs.Steps as steps_spec;

use crate::address::{Addr, Cell};
use crate::exchange::exchange;
use crate::trees::MTree;
use aen_base::{List, NoMem};
use core_ty::TypeDecl;
use indexmap::IndexMap;
use std::alloc::Global;
use std::marker::Model;

/// What the cells of a machine hold, and the declared types of the program that it runs. Cells are numbered in the
/// order in which they were made, and no number is used twice. A cell that is gone takes no memory.
pub struct Memory {
    decls: List<TypeDecl>,
    /// How many cells there ever were.
    count: u64,
    /// The cells that are not gone: None where one is empty.
    live: IndexMap<u64, Option<MTree>>,
}

impl Drop for Memory {
    fn drop(self) {
        let Memory {
            decls: _,
            count: _,
            live: _,
        } = self;
    }
}

impl Model for Memory {
    ghost use Rattle.mach_mem.specs.Memory.{Memory, coded_memory};

    ghost Value = { Memory };

    ghost coded = { coded_memory };

    ghost use Rattle.std.specs.Prelude.{◌≡◌, ◌≤◌, ℕ, nat_eq, None};
    ghost use Rattle.indexmap.specs.IndexMap.{get};
    ghost use Rattle.mach_mem.specs.View.{cells_to};

    ghost view = { λ s. record { decls = s.decls; cells = cells_to (get nat_eq s.live) s.count } };

    ghost invariant = { λ s. (k : ℕ) → s.count ≤ k → get nat_eq s.live k ≡ None };
}

impl Memory {
    /// A memory with these declared types and no cell.
    pub fn new(alloc: Global, decls: List<TypeDecl>) -> Memory
        ensures { result ≡ record { decls = decls; cells = [] } }
    {
        Memory {
            decls,
            count: 0,
            live: IndexMap::new(alloc),
        }
    }

    /// The declared types.
    pub fn decls(&self) -> &[TypeDecl]
        ensures { result.now ≡ self.now.decls }
    {
        self.decls.as_slice()
    }

    /// A cell that was never used, with this tree in it or empty.
    ///
    /// # Errors
    ///
    /// `NoMem` for want of memory, and at the cell with the number 2^64 - 1. The memory is then as before.
    pub fn fresh(&mut self, tree: Option<MTree>) -> Result<Cell, NoMem>
        ensures made { IfOk result (λ c. (cell_number c ≡ length self.old.cells) × (self.new ≡ spec.with_fresh tree self.old)) }
        ensures err { OnErr result (self.new ≡ self.old) }
    {
        let number = self.count;
        match number.checked_add(1) {
            None => Err(NoMem),
            Some(next) => {
                self.live.insert(number, tree)?;
                self.count = next;
                Ok(Cell(number))
            }
        }
    }

    /// What stands at an address. None exactly where the cell is gone, empty or was never made, or a part is missing.
    pub fn read(&self, at: &Addr) -> Option<&MTree>
        ensures { option_copied result ≡ spec.read self.now at.now }
    {
        part_of(&self.live, at.cell, at.path.as_slice())
    }

    /// Puts a tree at an address, and hands back the one that stood there, or `()` where the cell was empty.
    ///
    /// # Errors
    ///
    /// The tree itself, exactly where there is nothing at the address and it is no empty cell. The memory is then as
    /// before.
    pub fn write(&mut self, at: &Addr, tree: MTree) -> Result<MTree, MTree>
        ensures exact { MatchResult result (λ old. (old ≡ spec.stood self.old at.now) × (spec.write self.old at.now tree ≡ Some self.new)) (λ back. (back ≡ tree) × (spec.write self.old at.now tree ≡ None) × (self.new ≡ self.old)) }
        ensures law { OnOk result (Changes at.now tree self.old self.new) }
    {
        let alloc = *self.live.allocator();
        fill_cell(alloc, &mut self.live, at.cell, at.path.as_slice(), tree)
    }

    /// These cells are gone from then on.
    pub fn drop_frame(&mut self, cells: &[Cell])
        ensures { self.new ≡ spec.without (map cell_number cells.now) self.old }
    {
        for cell in cells {
            self.drop_cell(*cell);
        }
    }

    /// This cell is gone from then on.
    fn drop_cell(&mut self, cell: Cell)
        ensures { self.new ≡ spec.without (cell_number cell ∷ []) self.old }
    {
        self.live.swap_remove(&cell.0);
    }
}

/// The part at the end of these steps of what a cell holds.
fn part_of<'a>(
    live: &'a IndexMap<u64, Option<MTree>>,
    cell: Cell,
    steps: &[u32],
) -> Option<&'a MTree>
    ensures { option_copied result ≡ steps_spec.slot_part steps.now (get nat_eq live.now (cell_number cell)) }
{
    match live.get(&cell.0) {
        Some(Some(tree)) => tree.part_at(steps),
        _ => None,
    }
}

/// Puts a tree at the end of these steps of what a cell holds.
fn fill_cell(
    alloc: Global,
    live: &mut IndexMap<u64, Option<MTree>>,
    cell: Cell,
    steps: &[u32],
    new: MTree,
) -> Result<MTree, MTree>
    ensures { steps_spec.Fills (get nat_eq live.old (cell_number cell)) steps.now new result (λ after. (q : ℕ) → get nat_eq live.new q ≡ cond (nat_eq (cell_number cell) q) after (get nat_eq live.old q)) }
{
    match live.get_mut(&cell.0) {
        Some(slot) => fill_slot(alloc, slot, steps, new),
        None => Err(new),
    }
}

/// The same in a cell that is there.
fn fill_slot(
    alloc: Global,
    slot: &mut Option<MTree>,
    steps: &[u32],
    new: MTree,
) -> Result<MTree, MTree>
    ensures { steps_spec.Fills (Some slot.old) steps.now new result (λ after. Some slot.new ≡ after) }
{
    match slot {
        Some(tree) => exchange(tree, steps, new),
        None => fill_empty(alloc, slot, steps, new),
    }
}

/// The same in an empty cell.
fn fill_empty(
    alloc: Global,
    slot: &mut Option<MTree>,
    steps: &[u32],
    new: MTree,
) -> Result<MTree, MTree>
    requires { slot.old ≡ None }
    ensures { steps_spec.Fills (Some slot.old) steps.now new result (λ after. Some slot.new ≡ after) }
{
    if steps.is_empty() {
        *slot = Some(new);
        Ok(MTree::unit(alloc))
    } else {
        Err(new)
    }
}
