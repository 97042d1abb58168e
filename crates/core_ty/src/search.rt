//! The declared types that a declaration contains.

ghost use Rattle.std.specs.Prelude.{◌≡◌, ◌⊎◌, ℕ, ◌<◌, ◌↔◌, true, false, length, IsTrue, MatchOption, IfOk, OnOk};
ghost use Rattle.std.specs.List.{Contains};
ghost use Rattle.core_ty.specs.Marks as spec;

use crate::TypeDecl;
use crate::marks::equal_row;
use crate::parts::{Part, is_set, parts_of};
use aen_base::{List, NoMem};
use std::alloc::Global;

/// The declared types that a declaration contains outside Box, with a mark for each, by the marks
/// of type parameters. The only error is want of memory.
pub(crate) fn reach(
    alloc: Global,
    decls: &[TypeDecl],
    rows: &[List<bool>],
    start: usize,
) -> Result<List<bool>, NoMem>
    requires within { start < length decls.now }
    requires sound { spec.AreSound decls.now rows.now }
    ensures { IfOk result (λ seen. spec.IsReach decls.now rows.now start seen) }
{
    let mut seen = equal_row(alloc, decls.len(), false)?;
    let mut done = equal_row(alloc, decls.len(), false)?;
    let mut hints = List::new(alloc);
    see_parts(alloc, rows, &decls[start], &mut seen, &mut hints)?;
    while let Some(next) = next_pending(&seen, &done, &mut hints) {
        done.set(next, true);
        see_parts(alloc, rows, &decls[next], &mut seen, &mut hints)?;
    }
    Ok(seen)
}

/// Marks the declared types among a declaration's parts, and enters those without a mark so far
/// among the hints.
fn see_parts(
    alloc: Global,
    rows: &[List<bool>],
    decl: &TypeDecl,
    seen: &mut List<bool>,
    hints: &mut List<usize>,
) -> Result<(), NoMem>
    ensures { OnOk result (spec.Sees (spec.parts_by rows.now decl.now) seen.old seen.new) }
{
    let parts = parts_of(alloc, rows, decl)?;
    enter(parts.as_slice(), seen.as_slice(), hints)?;
    see(parts.as_slice(), seen);
    Ok(())
}

/// Enters the declared types among the parts that have no mark. No clause rests on the hints.
fn enter(parts: &[Part], seen: &[bool], hints: &mut List<usize>) -> Result<(), NoMem> {
    for part in parts {
        if let Part::Declared(decl) = part {
            let place = decl.0 as usize;
            if !is_set(seen, place) {
                hints.push(place)?;
            }
        }
    }
    Ok(())
}

/// Marks the declared types among the parts.
fn see(parts: &[Part], seen: &mut List<bool>)
    ensures { spec.Sees parts.now seen.old seen.new }
{
    for part in parts {
        see_part(seen, *part);
    }
}

/// Marks a part that is a declared type.
fn see_part(seen: &mut List<bool>, part: Part)
    ensures same { length seen.new ≡ length seen.old }
    ensures kept { (e : ℕ) → spec.is_set seen.old e ≡ true → spec.is_set seen.new e ≡ true }
    ensures here { spec.IsSeen seen.new part }
    ensures from { (e : ℕ) → spec.is_set seen.new e ≡ true → (spec.is_set seen.old e ≡ true) ⊎ (part ≡ spec.type_number e) }
{
    if let Part::Declared(decl) = part {
        let place = decl.0 as usize;
        if place < seen.len() {
            seen.set(place, true);
        }
    }
}

/// A place that is marked in `seen` and not in `done`, from the hints where one of them is such;
/// None where there is none.
fn next_pending(seen: &List<bool>, done: &List<bool>, hints: &mut List<usize>) -> Option<usize>
    requires { length seen.now ≡ length done.now }
    ensures { MatchOption result ((e : ℕ) → spec.is_set seen.now e ≡ true → spec.is_set done.now e ≡ true)
        (λ e. (e < length done.now) × (spec.is_set seen.now e ≡ true) × (spec.is_set done.now e ≡ false)) }
{
    while let Some(place) = hints.pop() {
        if place < done.len() && is_pending(seen, done, place) {
            return Some(place);
        }
    }
    pending(seen, done)
}

/// Whether a place is marked in `seen` and not in `done`.
fn is_pending(seen: &List<bool>, done: &List<bool>, place: usize) -> bool
    ensures { IsTrue result ↔ (spec.is_set seen.now place ≡ true) × (spec.is_set done.now place ≡ false) }
{
    is_set(seen.as_slice(), place) && !is_set(done.as_slice(), place)
}

/// Such a place, by a walk over all.
fn pending(seen: &List<bool>, done: &List<bool>) -> Option<usize>
    requires { length seen.now ≡ length done.now }
    ensures { MatchOption result ((e : ℕ) → spec.is_set seen.now e ≡ true → spec.is_set done.now e ≡ true)
        (λ e. (e < length done.now) × (spec.is_set seen.now e ≡ true) × (spec.is_set done.now e ≡ false)) }
{
    for place in 0..seen.len() {
        if is_pending(seen, done, place) {
            return Some(place);
        }
    }
    None
}
