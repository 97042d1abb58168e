//! The numbers that a column names.

ghost use Rattle.std.specs.Prelude.{◌≡◌, [], ◌∷◌, IfOk, OnOk};
ghost use Rattle.std.specs.List.{list_any};
ghost use Rattle.std.specs.Ordering.{int_eq};
ghost use Rattle.type_cover.specs.Cells.{cell_now, row_now, rows_now, value_now, values_now};
ghost use Rattle.type_cover.specs.Ways as spec;

use crate::heads::is_same_number;
use aen_base::{List, NoMem, Num};
use rust_ast::spelled_patterns::{Pat, PatNode};
use std::alloc::Global;

/// The number that a pattern is, not one in its parts.
fn number_of<'a>(pat: &'a Pat) -> Option<&'a Num>
    ensures { value_now result ≡ spec.number_of pat.now }
{
    match &pat.node {
        PatNode::Number(number) => Some(number),
        PatNode::Through(_, inner) => number_of(inner.get()),
        PatNode::Wild => None,
        PatNode::Bind(_, _, _) => None,
        PatNode::Truth(_) => None,
        PatNode::Tuple(_) => None,
        PatNode::Construct(_, _, _) => None,
    }
}

fn number_of_cell<'a>(cell: Option<&'a Pat>) -> Option<&'a Num>
    ensures { value_now result ≡ spec.number_of (cell_now cell.entry) }
{
    match cell {
        Some(pat) => number_of(pat),
        None => None,
    }
}

fn is_among(number: &Num, numbers: &[&Num]) -> bool
    ensures { result ≡ list_any (int_eq number.now.value) (values_now numbers.now) }
{
    for one in numbers {
        if is_same_number(number, *one) {
            return true;
        }
    }
    false
}

/// Adds a number that isn't there.
#[tactic(auto, using(crate::proofs::CellRows::values_push))]
fn add_new<'a>(number: Option<&'a Num>, numbers: &mut List<&'a Num>) -> Result<(), NoMem>
    ensures { OnOk result (values_now numbers.new ≡ spec.with_new (value_now number.entry) (values_now numbers.old)) }
{
    match number {
        None => Ok(()),
        Some(number) => {
            if is_among(number, numbers.as_slice()) {
                Ok(())
            } else {
                numbers.push(number)
            }
        }
    }
}

/// Adds the number of a row's first pattern.
fn add_first<'a>(row: &[Option<&'a Pat>], numbers: &mut List<&'a Num>) -> Result<(), NoMem>
    ensures { OnOk result (values_now numbers.new ≡ spec.numbers_onto (values_now numbers.old) (row_now row.now ∷ [])) }
{
    match row {
        [] => Ok(()),
        [cell, ..] => add_new(number_of_cell(*cell), numbers),
    }
}

/// The numbers that the first column names, each once.
#[tactic(auto, using(crate::proofs::CellRows::numbers_more))]
pub(crate) fn numbers_first<'a>(
    alloc: Global,
    rows: &[List<Option<&'a Pat>>],
) -> Result<List<&'a Num>, NoMem>
    ensures { IfOk result (λ all. values_now all ≡ spec.numbers_first (rows_now rows.now)) }
{
    let mut numbers = List::new(alloc);
    for row in rows {
        add_first(row.as_slice(), &mut numbers)?;
    }
    Ok(numbers)
}
