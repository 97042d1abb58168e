//! Which of its type parameters each declared type has outside Box.

ghost use Rattle.std.specs.Prelude.{◌≡◌, ℕ, ◌<◌, true, false, length, map, replicate, slice_set, MatchOption, IfOk, OnOk};
ghost use Rattle.std.specs.List.{All, Contains};
ghost use Rattle.core_ty.specs.Marks as spec;
ghost use Rattle.core_ty.specs.declared.parts.Part.TheVariants.{Parameter};

use crate::TypeDecl;
use crate::parts::{Part, is_set, parts_of};
use crate::spread::spread;
use aen_base::{List, NoMem, at};
use std::alloc::Global;

/// For each declared type a row with a mark for each type parameter that it has outside Box. The
/// only error is want of memory.
pub(crate) fn marks(alloc: Global, decls: &[TypeDecl]) -> Result<List<List<bool>>, NoMem>
    ensures shape { IfOk result (λ rows. spec.HasShape decls.now rows) }
    ensures sound { IfOk result (λ rows. spec.AreSound decls.now rows) }
    ensures complete { IfOk result (λ rows. (d : ℕ) → spec.IsComplete decls.now rows d) }
{
    let mut rows = no_marks(alloc, decls)?;
    spread(alloc, decls, &mut rows)?;
    // none is left; this is the check that they are all
    while let Some((decl, number)) = next_unmarked(alloc, decls, rows.as_slice())? {
        mark(&mut rows, decl, number);
    }
    Ok(rows)
}

/// A row of places that all have a mark, or have none.
pub(crate) fn equal_row(alloc: Global, places: usize, mark: bool) -> Result<List<bool>, NoMem>
    ensures { IfOk result (λ row. row ≡ replicate places mark) }
{
    let mut row = List::new(alloc);
    for _place in 0..places {
        row.push(mark)?;
    }
    Ok(row)
}

fn no_marks(alloc: Global, decls: &[TypeDecl]) -> Result<List<List<bool>>, NoMem>
    ensures { IfOk result (λ rows. rows ≡ map (λ decl. replicate (length decl.params) false) decls.now) }
{
    let mut rows = List::new(alloc);
    for decl in decls {
        rows.push(equal_row(alloc, decl.params.len(), false)?)?;
    }
    Ok(rows)
}

/// The marks of a declared type.
pub(crate) fn row_of(rows: &[List<bool>], decl: usize) -> &[bool]
    ensures { result.now ≡ spec.row_of rows.now decl }
{
    match at(rows, decl) {
        Some(row) => row.as_slice(),
        None => &[],
    }
}

/// Sets a mark.
pub(crate) fn mark(rows: &mut List<List<bool>>, decl: usize, number: usize)
    requires { number < length (spec.row_of rows.old decl) }
    ensures { rows.new ≡ slice_set rows.old decl (slice_set (spec.row_of rows.old decl) number true) }
{
    if let Some(row) = rows.get_mut(decl) {
        row.set(number, true);
    }
}

/// The first type parameter that stands among the parts and has a place in the row, but no mark.
fn missing(row: &[bool], parts: &[Part]) -> Option<usize>
    ensures { MatchOption result (All (spec.IsMarked row.now) parts.now)
        (λ k. (k < length row.now) × (spec.is_set row.now k ≡ false) × Contains parts.now (Parameter k)) }
{
    for part in parts {
        if let Some(place) = unmarked_place(row, *part) {
            return Some(place);
        }
    }
    None
}

/// The place of a type parameter that has one in the row, but no mark there.
pub(crate) fn unmarked_place(row: &[bool], part: Part) -> Option<usize>
    ensures { MatchOption result (spec.IsMarked row.now part)
        (λ k. (k < length row.now) × (spec.is_set row.now k ≡ false) × (part ≡ Parameter k)) }
{
    match part {
        Part::Parameter(number) => {
            let place = number as usize;
            if place < row.len() && !is_set(row, place) {
                Some(place)
            } else {
                None
            }
        }
        Part::Declared(_) => None,
    }
}

/// A declared type and a type parameter that it has outside Box by the marks, but that is not
/// marked; None where there is none.
fn next_unmarked(
    alloc: Global,
    decls: &[TypeDecl],
    rows: &[List<bool>],
) -> Result<Option<(usize, usize)>, NoMem>
    ensures { IfOk result (λ next. MatchOption next ((d : ℕ) → spec.IsComplete decls.now rows.now d)
        (λ place. spec.IsUnmarked decls.now rows.now place.0 place.1)) }
{
    for decl in 0..decls.len() {
        let parts = parts_of(alloc, rows, &decls[decl])?;
        if let Some(number) = missing(row_of(rows, decl), parts.as_slice()) {
            return Ok(Some((decl, number)));
        }
    }
    Ok(None)
}
