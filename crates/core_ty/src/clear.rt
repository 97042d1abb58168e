//! Declarations that are found at once not to contain themselves.

ghost use Rattle.std.specs.Prelude.{◌≡◌, ◌↔◌, ℕ, ◌<◌, ◌≤◌, length, IsTrue, IfOk, OnOk};
ghost use Rattle.std.specs.List.{All};
ghost use Rattle.core_ty.specs.Marks as spec;
ghost use Rattle.core_ty.specs.Ranks as ranking;

use crate::TypeDecl;
use crate::components::ranks;
use crate::marks::equal_row;
use crate::parts::{Part, parts_of};
use aen_base::{List, NoMem, at};
use std::alloc::Global;

/// A mark for each declaration that is found not to contain itself: all the declared types of its
/// parts have a lower rank. The only error is want of memory.
pub(crate) fn clear(
    alloc: Global,
    decls: &[TypeDecl],
    rows: &[List<bool>],
) -> Result<List<bool>, NoMem>
    requires shape { spec.HasShape decls.now rows.now }
    requires complete { (d : ℕ) → spec.IsComplete decls.now rows.now d }
    ensures { IfOk result (λ marks. spec.IsClear decls.now marks) }
{
    let ranks = ranks(alloc, decls, rows)?;
    if ranks.len() == decls.len() && are_ranked(alloc, decls, rows, ranks.as_slice())? {
        Ok(falling(alloc, decls, rows, ranks.as_slice())?)
    } else {
        Ok(equal_row(alloc, decls.len(), false)?)
    }
}

/// A mark for each declaration whose parts have lower ranks.
fn falling(
    alloc: Global,
    decls: &[TypeDecl],
    rows: &[List<bool>],
    ranks: &[usize],
) -> Result<List<bool>, NoMem>
    requires shape { spec.HasShape decls.now rows.now }
    requires complete { (d : ℕ) → spec.IsComplete decls.now rows.now d }
    requires ranked { ranking.AreRanks decls.now rows.now ranks.now }
    ensures { IfOk result (λ marks. spec.IsClear decls.now marks) }
{
    let mut marks = equal_row(alloc, decls.len(), false)?;
    for decl in 0..decls.len() {
        clear_one(alloc, decls, rows, ranks, decl, &mut marks)?;
    }
    Ok(marks)
}

/// Gives a declaration its mark, if its parts have lower ranks.
fn clear_one(
    alloc: Global,
    decls: &[TypeDecl],
    rows: &[List<bool>],
    ranks: &[usize],
    decl: usize,
    marks: &mut List<bool>,
) -> Result<(), NoMem>
    requires within { decl < length decls.now }
    requires shape { spec.HasShape decls.now rows.now }
    requires complete { (d : ℕ) → spec.IsComplete decls.now rows.now d }
    requires ranked { ranking.AreRanks decls.now rows.now ranks.now }
    requires clear { (length marks.old ≡ length decls.now) × spec.IsClear decls.now marks.old }
    ensures { OnOk result ((length marks.new ≡ length decls.now) × spec.IsClear decls.now marks.new) }
{
    if falls(alloc, decls, rows, ranks, decl)? {
        marks.set(decl, true);
    }
    Ok(())
}

/// Whether no part of a declaration has a higher rank than the declaration.
fn are_ranked(
    alloc: Global,
    decls: &[TypeDecl],
    rows: &[List<bool>],
    ranks: &[usize],
) -> Result<bool, NoMem>
    requires { length ranks.now ≡ length decls.now }
    ensures { IfOk result (λ b. IsTrue b → ranking.AreRanks decls.now rows.now ranks.now) }
{
    for decl in 0..decls.len() {
        let parts = parts_of(alloc, rows, &decls[decl])?;
        if !all_within(ranks, rank_of(ranks, decl), parts.as_slice()) {
            return Ok(false);
        }
    }
    Ok(true)
}

/// Whether all parts of a declaration have a lower rank than the declaration.
fn falls(
    alloc: Global,
    decls: &[TypeDecl],
    rows: &[List<bool>],
    ranks: &[usize],
    decl: usize,
) -> Result<bool, NoMem>
    requires { decl < length decls.now }
    ensures { IfOk result (λ b. IsTrue b → ranking.Falls decls.now rows.now ranks.now decl) }
{
    let rank = rank_of(ranks, decl);
    if rank == 0 {
        return Ok(false);
    }
    let parts = parts_of(alloc, rows, &decls[decl])?;
    Ok(all_within(ranks, rank - 1, parts.as_slice()))
}

/// The rank in this place.
fn rank_of(ranks: &[usize], place: usize) -> usize
    ensures { result ≡ ranking.rank_of ranks.now place }
{
    match at(ranks, place) {
        Some(rank) => *rank,
        None => 0,
    }
}

/// Whether no declared type among the parts has a rank above `top`.
fn all_within(ranks: &[usize], top: usize, parts: &[Part]) -> bool
    ensures { IsTrue result ↔ All (ranking.IsWithin ranks.now top) parts.now }
{
    for part in parts {
        if !is_within(ranks, top, *part) {
            return false;
        }
    }
    true
}

fn is_within(ranks: &[usize], top: usize, part: Part) -> bool
    ensures { IsTrue result ↔ ranking.IsWithin ranks.now top part }
{
    match part {
        Part::Parameter(_) => true,
        Part::Declared(decl) => {
            let place = decl.0 as usize;
            place >= ranks.len() || rank_of(ranks, place) <= top
        }
    }
}
