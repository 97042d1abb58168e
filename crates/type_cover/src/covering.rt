//! Columns one after the other, each split by the constructors of its type.

ghost use Rattle.std.specs.Prelude.{◌≡◌, ◌∷◌, ◌++◌, map, IfOk};
ghost use Rattle.std.specs.List.{list_all};
ghost use Rattle.type_cover.specs.Cells.{head_of, rows_now};
ghost use Rattle.type_cover.specs.Rows.{open_rows, rows_at};
ghost use Rattle.type_cover.specs.Splitting as splitting;
ghost use Rattle.type_cover.specs.Stack as spec;
ghost use Rattle.type_cover.specs.Ways as ways;

use crate::heads::Head;
use crate::numbers::numbers_first;
use crate::rows::{all_begin_open, open_rows, rows_at};
use crate::types::{content, field_types};
use crate::void::is_void;
use aen_base::{List, NoMem, at};
use core_ty::{Ty, TyNode, TypeDecl, Variant};
use rust_ast::spelled_patterns::Pat;
use std::alloc::Global;

/// What a column is split in front of: the level below it, the columns behind it, and the rows.
#[derive(Clone, Copy)]
pub(crate) struct Split<'s, 'a> {
    pub below: usize,
    pub rest: &'s [(Ty, usize)],
    pub rows: &'s [List<Option<&'a Pat>>],
}

/// Columns of parts at a level, and copies of those behind them.
fn columns_before(
    alloc: Global,
    parts: &[Ty],
    level: usize,
    rest: &[(Ty, usize)],
) -> Result<List<(Ty, usize)>, NoMem>
    ensures { IfOk result (λ cs. cs ≡ map (spec.at_level level) parts.now ++ rest.now) }
{
    let mut columns = List::new(alloc);
    for part in parts {
        let ty = part.try_clone(alloc)?;
        columns.push((ty, level))?;
    }
    for column in rest {
        let ty = column.0.try_clone(alloc)?;
        columns.push((ty, column.1))?;
    }
    Ok(columns)
}

fn some_row(rows: &[List<Option<&Pat>>]) -> bool
    ensures { result ≡ splitting.some_row (rows_now rows.now) }
{
    match rows {
        [] => false,
        [_row, _rest @ ..] => true,
    }
}

/// Whether rows meet all values of these columns. The only error is want of memory.
#[cycle(covering)]
pub(crate) fn covers<'a>(
    alloc: Global,
    decls: &[TypeDecl],
    columns: &[(Ty, usize)],
    rows: &[List<Option<&'a Pat>>],
) -> Result<bool, NoMem>
    ensures { IfOk result (λ b. b ≡ spec.covers decls.now columns.now (rows_now rows.now)) }
{
    match columns {
        [] => Ok(some_row(rows)),
        [column, rest @ ..] => by_column(alloc, decls, column, rest, rows),
    }
}

#[cycle(covering)]
#[tactic(auto, using(crate::proofs::Steps::at_none, crate::proofs::Steps::at_void, crate::proofs::Steps::at_open, crate::proofs::Steps::at_type))]
fn by_column<'a>(
    alloc: Global,
    decls: &[TypeDecl],
    column: &(Ty, usize),
    rest: &[(Ty, usize)],
    rows: &[List<Option<&'a Pat>>],
) -> Result<bool, NoMem>
    ensures { IfOk result (λ b. b ≡ splitting.split decls.now column.now.1 column.now.0 (rows_now rows.now) (spec.covers decls.now rest.now)) }
{
    if column.1 == 0 {
        return past_open(alloc, decls, rest, rows);
    }
    if all_begin_open(rows) {
        if is_void(alloc, decls, column.1, &column.0)? {
            return Ok(true);
        }
        return past_open(alloc, decls, rest, rows);
    }
    let split = Split {
        below: column.1 - 1,
        rest,
        rows,
    };
    by_type(alloc, decls, content(&column.0), split)
}

/// The columns behind one that isn't looked into.
#[cycle(covering)]
fn past_open<'a>(
    alloc: Global,
    decls: &[TypeDecl],
    rest: &[(Ty, usize)],
    rows: &[List<Option<&'a Pat>>],
) -> Result<bool, NoMem>
    ensures { IfOk result (λ b. b ≡ spec.covers decls.now rest.now (open_rows (rows_now rows.now))) }
{
    let rows = open_rows(alloc, rows)?;
    covers(alloc, decls, rest, rows.as_slice())
}

/// A column by the constructors of its type, which is no reference.
#[cycle(covering)]
#[tactic(auto, using(crate::proofs::Steps::one_way))]
fn by_type<'s, 'a>(
    alloc: Global,
    decls: &[TypeDecl],
    ty: &Ty,
    split: Split<'s, 'a>,
) -> Result<bool, NoMem>
    ensures { IfOk result (λ b. b ≡ spec.by_type decls.now ty.now split.entry.below split.entry.rest.now (rows_now split.entry.rows.now)) }
{
    match &ty.node {
        TyNode::Int(_) => at_numbers(alloc, decls, split),
        TyNode::Bool => at_bools(alloc, decls, split),
        TyNode::Unit => at_parts(alloc, decls, 0, &[], split),
        TyNode::Tuple(parts) => at_parts(alloc, decls, 0, parts.as_slice(), split),
        TyNode::Named(decl, args) => match at(decls, decl.0 as usize) {
            None => Ok(true),
            Some(declared) => {
                at_variants(
                    alloc,
                    decls,
                    args.as_slice(),
                    declared.variants.as_slice(),
                    split,
                )
            }
        },
        TyNode::Param(_) => past_open(alloc, decls, split.rest, split.rows),
        TyNode::Boxed(_) => past_open(alloc, decls, split.rest, split.rows),
        TyNode::Ref(_, _, _) => past_open(alloc, decls, split.rest, split.rows),
    }
}

/// The columns behind, at a constructor without parts.
#[cycle(covering)]
fn at_head<'s, 'a>(
    alloc: Global,
    decls: &[TypeDecl],
    head: Head<'a>,
    split: Split<'s, 'a>,
) -> Result<bool, NoMem>
    ensures { IfOk result (λ b. b ≡ spec.covers decls.now split.entry.rest.now (rows_at (head_of head.entry) (rows_now split.entry.rows.now))) }
{
    let rows = rows_at(alloc, head, split.rows)?;
    covers(alloc, decls, split.rest, rows.as_slice())
}

#[cycle(covering)]
fn at_bools<'s, 'a>(alloc: Global, decls: &[TypeDecl], split: Split<'s, 'a>) -> Result<bool, NoMem>
    ensures { IfOk result (λ b. b ≡ spec.at_ways decls.now split.entry.below split.entry.rest.now (rows_now split.entry.rows.now) ways.bool_ways) }
{
    if !at_head(alloc, decls, Head::Boolean(true), split)? {
        return Ok(false);
    }
    at_head(alloc, decls, Head::Boolean(false), split)
}

#[cycle(covering)]
fn at_numbers<'s, 'a>(
    alloc: Global,
    decls: &[TypeDecl],
    split: Split<'s, 'a>,
) -> Result<bool, NoMem>
    ensures { IfOk result (λ b. b ≡ spec.at_ways decls.now split.entry.below split.entry.rest.now (rows_now split.entry.rows.now)
        (ways.number_ways (ways.numbers_first (rows_now split.entry.rows.now)))) }
{
    if !at_head(alloc, decls, Head::Other, split)? {
        return Ok(false);
    }
    let numbers = numbers_first(alloc, split.rows)?;
    let named = numbers.as_slice();
    for number in named {
        if !at_head(alloc, decls, Head::Numeral(*number), split)? {
            return Ok(false);
        }
    }
    Ok(true)
}

/// A constructor with parts of these types.
#[cycle(covering)]
#[tactic(auto, using(crate::specs::Stack::parts_before))]
fn at_parts<'s, 'a>(
    alloc: Global,
    decls: &[TypeDecl],
    variant: usize,
    parts: &[Ty],
    split: Split<'s, 'a>,
) -> Result<bool, NoMem>
    ensures { IfOk result (λ b. b ≡ spec.at_way decls.now split.entry.below split.entry.rest.now (rows_now split.entry.rows.now) (ways.way variant parts.now)) }
{
    let rows = rows_at(alloc, Head::Made(variant, parts.len()), split.rows)?;
    let columns = columns_before(alloc, parts, split.below, split.rest)?;
    covers(alloc, decls, columns.as_slice(), rows.as_slice())
}

#[cycle(covering)]
fn at_variants<'s, 'a>(
    alloc: Global,
    decls: &[TypeDecl],
    args: &[Ty],
    variants: &[Variant],
    split: Split<'s, 'a>,
) -> Result<bool, NoMem>
    ensures { IfOk result (λ b. b ≡ spec.at_ways decls.now split.entry.below split.entry.rest.now (rows_now split.entry.rows.now) (ways.variant_ways args.now 0 variants.now)) }
{
    for variant in 0..variants.len() {
        let types = field_types(alloc, args, variants[variant].fields.as_slice())?;
        if !at_parts(alloc, decls, variant, types.as_slice(), split)? {
            return Ok(false);
        }
    }
    Ok(true)
}
