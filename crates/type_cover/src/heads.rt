//! What is left of a pattern at a constructor.

ghost use Rattle.std.specs.Prelude.{◌≡◌, IfOk, option_map};
ghost use Rattle.std.specs.Ordering.{int_eq};
ghost use Rattle.rust_ast.specs.SpelledPatterns.{fieldpats, pats};
ghost use Rattle.type_cover.specs.Cells.{cell_now, head_of, left_now, row_now};
ghost use Rattle.type_cover.specs.Rows as spec;

use crate::cells::{field_cells, open_cells, tuple_cells};
use aen_base::{List, NoMem, Num};
use rust_ast::spelled_patterns::{Pat, PatNode};
use std::alloc::Global;

/// A constructor of the first column.
#[derive(Clone, Copy)]
pub(crate) enum Head<'a> {
    /// This number, of whatever type.
    Numeral(&'a Num),
    /// A number that no pattern of the column names.
    Other,
    Boolean(bool),
    /// A tuple, or the variant with this number, with so many parts.
    Made(usize, usize),
}

/// Whether both are one number, of whatever types.
pub(crate) fn is_same_number(a: &Num, b: &Num) -> bool
    ensures { result ≡ int_eq a.now.value b.now.value }
{
    a.is_negative() == b.is_negative() && a.magnitude() == b.magnitude()
}

/// A row, if it is met.
pub(crate) fn if_met<'a>(met: bool, row: List<Option<&'a Pat>>) -> Option<List<Option<&'a Pat>>>
    ensures { left_now result ≡ spec.if_met met (row_now row.entry) }
{
    if met { Some(row) } else { None }
}

fn open_head<'a>(alloc: Global, head: Head<'a>) -> Result<Option<List<Option<&'a Pat>>>, NoMem>
    ensures { IfOk result (λ o. left_now o ≡ spec.open_head (head_of head.entry)) }
{
    match head {
        Head::Made(_, parts) => Ok(Some(open_cells(alloc, parts)?)),
        Head::Numeral(_) => Ok(Some(List::new(alloc))),
        Head::Other => Ok(Some(List::new(alloc))),
        Head::Boolean(_) => Ok(Some(List::new(alloc))),
    }
}

fn number_head<'a>(alloc: Global, number: &Num, head: Head<'a>) -> Option<List<Option<&'a Pat>>>
    ensures { left_now result ≡ spec.number_head number.now.value (head_of head.entry) }
{
    match head {
        Head::Numeral(this) => if_met(is_same_number(number, this), List::new(alloc)),
        Head::Other => None,
        Head::Boolean(_) => None,
        Head::Made(_, _) => None,
    }
}

fn truth_head<'a>(alloc: Global, truth: bool, head: Head<'a>) -> Option<List<Option<&'a Pat>>>
    ensures { left_now result ≡ spec.truth_head truth (head_of head.entry) }
{
    match head {
        Head::Boolean(this) => if_met(if truth { this } else { !this }, List::new(alloc)),
        Head::Numeral(_) => None,
        Head::Other => None,
        Head::Made(_, _) => None,
    }
}

fn tuple_head<'a>(
    alloc: Global,
    parts: &'a [Pat],
    head: Head<'a>,
) -> Result<Option<List<Option<&'a Pat>>>, NoMem>
    ensures { IfOk result (λ o. left_now o ≡ spec.tuple_head (pats parts.now) (head_of head.entry)) }
{
    match head {
        Head::Made(variant, _) => Ok(if_met(variant == 0, tuple_cells(alloc, parts)?)),
        Head::Numeral(_) => Ok(None),
        Head::Other => Ok(None),
        Head::Boolean(_) => Ok(None),
    }
}

fn variant_head<'a>(
    alloc: Global,
    variant: u32,
    fields: &'a [(u32, Pat)],
    head: Head<'a>,
) -> Result<Option<List<Option<&'a Pat>>>, NoMem>
    ensures { IfOk result (λ o. left_now o ≡ spec.variant_head variant (fieldpats fields.now) (head_of head.entry)) }
{
    match head {
        Head::Made(this, parts) => {
            Ok(if_met(this == variant as usize, field_cells(alloc, fields, parts)?))
        }
        Head::Numeral(_) => Ok(None),
        Head::Other => Ok(None),
        Head::Boolean(_) => Ok(None),
    }
}

/// What is left to be met of a pattern at a constructor; None where it doesn't meet it.
fn left_of<'a>(
    alloc: Global,
    head: Head<'a>,
    pat: &'a Pat,
) -> Result<Option<List<Option<&'a Pat>>>, NoMem>
    ensures { IfOk result (λ o. left_now o ≡ spec.left_of (head_of head.entry) pat.now) }
{
    match &pat.node {
        PatNode::Wild => open_head(alloc, head),
        PatNode::Bind(_, _, _) => open_head(alloc, head),
        PatNode::Number(number) => Ok(number_head(alloc, number, head)),
        PatNode::Truth(truth) => Ok(truth_head(alloc, *truth, head)),
        PatNode::Tuple(parts) => tuple_head(alloc, parts.as_slice(), head),
        PatNode::Construct(_, variant, fields) => {
            variant_head(alloc, *variant, fields.as_slice(), head)
        }
        PatNode::Through(_, inner) => left_of(alloc, head, inner.get()),
    }
}

/// What is left of a pattern of a row.
pub(crate) fn left_of_cell<'a>(
    alloc: Global,
    head: Head<'a>,
    cell: Option<&'a Pat>,
) -> Result<Option<List<Option<&'a Pat>>>, NoMem>
    ensures { IfOk result (λ o. left_now o ≡ spec.left_of (head_of head.entry) (cell_now cell.entry)) }
{
    match cell {
        Some(pat) => left_of(alloc, head, pat),
        None => open_head(alloc, head),
    }
}
