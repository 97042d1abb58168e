//! The patterns of a row: each is a part of a pattern, or none where all is met.

ghost use Rattle.std.specs.Prelude.{◌≡◌, IfOk};
ghost use Rattle.rust_ast.specs.SpelledPatterns.{fieldpats, pats, pats_list};
ghost use Rattle.type_cover.specs.Cells.{cell_now, row_now};
ghost use Rattle.type_cover.specs.Rows as spec;

use aen_base::{List, NoMem};
use rust_ast::spelled_patterns::{Pat, PatNode};
use std::alloc::Global;

/// Whether a pattern meets all.
pub(crate) fn is_open(pat: &Pat) -> bool
    ensures { result ≡ spec.is_open pat.now }
{
    match &pat.node {
        PatNode::Wild => true,
        PatNode::Bind(_, _, _) => true,
        PatNode::Number(_) => false,
        PatNode::Truth(_) => false,
        PatNode::Tuple(_) => false,
        PatNode::Construct(_, _, _) => false,
        PatNode::Through(_, inner) => is_open(inner.get()),
    }
}

/// Whether a pattern of a row meets all.
pub(crate) fn is_open_cell(cell: Option<&Pat>) -> bool
    ensures { result ≡ spec.is_open (cell_now cell.entry) }
{
    match cell {
        Some(pat) => is_open(pat),
        None => true,
    }
}

/// So many patterns that meet all.
#[tactic(auto, using(crate::proofs::CellRows::open_now))]
pub(crate) fn open_cells<'a>(alloc: Global, parts: usize) -> Result<List<Option<&'a Pat>>, NoMem>
    ensures { IfOk result (λ row. row_now row ≡ spec.open_parts parts) }
{
    let mut row = List::new(alloc);
    for _part in 0..parts {
        row.push(None)?;
    }
    Ok(row)
}

/// The patterns of a tuple's parts.
#[tactic(auto, using(crate::proofs::CellRows::row_push))]
pub(crate) fn tuple_cells<'a>(
    alloc: Global,
    parts: &'a [Pat],
) -> Result<List<Option<&'a Pat>>, NoMem>
    ensures { IfOk result (λ row. row_now row ≡ pats_list (pats parts.now)) }
{
    let mut row = List::new(alloc);
    for part in parts {
        row.push(Some(part))?;
    }
    Ok(row)
}

/// The pattern of the field with this number, of those that a variant's pattern has.
fn field_cell<'a>(fields: &'a [(u32, Pat)], number: usize) -> Option<&'a Pat>
    ensures { cell_now result ≡ spec.field_pattern (fieldpats fields.now) number }
{
    for field in fields {
        if field.0 as usize == number {
            return Some(&field.1);
        }
    }
    None
}

/// The patterns of so many fields.
#[tactic(auto, using(crate::proofs::CellRows::row_push, crate::proofs::CellRows::from_more))]
pub(crate) fn field_cells<'a>(
    alloc: Global,
    fields: &'a [(u32, Pat)],
    parts: usize,
) -> Result<List<Option<&'a Pat>>, NoMem>
    ensures { IfOk result (λ row. row_now row ≡ spec.fields_from (fieldpats fields.now) 0 parts) }
{
    let mut row = List::new(alloc);
    for number in 0..parts {
        row.push(field_cell(fields, number))?;
    }
    Ok(row)
}
