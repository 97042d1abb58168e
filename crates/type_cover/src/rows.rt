//! Rows of patterns at a constructor of the first column.

ghost use Rattle.std.specs.Prelude.{◌≡◌, [], ◌∷◌, ◌++◌, IfOk, OnOk};
ghost use Rattle.std.specs.List.{list_all};
ghost use Rattle.type_cover.specs.Cells.{head_of, left_now, row_now, rows_now};
ghost use Rattle.type_cover.specs.Rows as spec;

use crate::cells::is_open_cell;
use crate::heads::{Head, if_met, left_of_cell};
use aen_base::{List, NoMem};
use rust_ast::spelled_patterns::Pat;
use std::alloc::Global;

fn begins_open(row: &[Option<&Pat>]) -> bool
    ensures { result ≡ spec.begins_open (row_now row.now) }
{
    match row {
        [] => true,
        [cell, ..] => is_open_cell(*cell),
    }
}

/// Whether all rows begin with a pattern that meets all.
pub(crate) fn all_begin_open(rows: &[List<Option<&Pat>>]) -> bool
    ensures { result ≡ list_all spec.begins_open (rows_now rows.now) }
{
    for row in rows {
        if !begins_open(row.as_slice()) {
            return false;
        }
    }
    true
}

/// Adds a row with what is left of its first pattern, and the others behind.
#[tactic(auto, using(crate::proofs::CellRows::rows_push, crate::proofs::CellRows::row_with_rest))]
fn add_row<'a>(
    left: Option<List<Option<&'a Pat>>>,
    others: &[Option<&'a Pat>],
    rows: &mut List<List<Option<&'a Pat>>>,
) -> Result<(), NoMem>
    ensures { OnOk result (rows_now rows.new ≡ rows_now rows.old ++ spec.row_with (left_now left.entry) (row_now others.now) []) }
{
    if let Some(mut row) = left {
        for cell in others {
            row.push(*cell)?;
        }
        rows.push(row)?;
    }
    Ok(())
}

/// Adds what is left of a row at a constructor.
fn add_at<'a>(
    alloc: Global,
    head: Head<'a>,
    row: &[Option<&'a Pat>],
    rows: &mut List<List<Option<&'a Pat>>>,
) -> Result<(), NoMem>
    ensures { OnOk result (rows_now rows.new ≡ rows_now rows.old ++ spec.rows_by (spec.left_of (head_of head.entry)) (row_now row.now ∷ [])) }
{
    match row {
        [] => Ok(()),
        [cell, others @ ..] => {
            let left = left_of_cell(alloc, head, *cell)?;
            add_row(left, others, rows)
        }
    }
}

/// The rows that meet a constructor, with what is left of their first pattern in its place.
#[tactic(auto, using(crate::proofs::CellRows::rows_more))]
pub(crate) fn rows_at<'a>(
    alloc: Global,
    head: Head<'a>,
    rows: &[List<Option<&'a Pat>>],
) -> Result<List<List<Option<&'a Pat>>>, NoMem>
    ensures { IfOk result (λ more. rows_now more ≡ spec.rows_at (head_of head.entry) (rows_now rows.now)) }
{
    let mut done = List::new(alloc);
    for row in rows {
        add_at(alloc, head, row.as_slice(), &mut done)?;
    }
    Ok(done)
}

/// Adds a row that begins open, without its first pattern.
fn add_open<'a>(
    alloc: Global,
    row: &[Option<&'a Pat>],
    rows: &mut List<List<Option<&'a Pat>>>,
) -> Result<(), NoMem>
    ensures { OnOk result (rows_now rows.new ≡ rows_now rows.old ++ spec.rows_by spec.left_open (row_now row.now ∷ [])) }
{
    match row {
        [] => Ok(()),
        [cell, others @ ..] => {
            let left = if_met(is_open_cell(*cell), List::new(alloc));
            add_row(left, others, rows)
        }
    }
}

/// The rows that begin open, without their first pattern.
#[tactic(auto, using(crate::proofs::CellRows::rows_more))]
pub(crate) fn open_rows<'a>(
    alloc: Global,
    rows: &[List<Option<&'a Pat>>],
) -> Result<List<List<Option<&'a Pat>>>, NoMem>
    ensures { IfOk result (λ more. rows_now more ≡ spec.open_rows (rows_now rows.now)) }
{
    let mut done = List::new(alloc);
    for row in rows {
        add_open(alloc, row.as_slice(), &mut done)?;
    }
    Ok(done)
}
