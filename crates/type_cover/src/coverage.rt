//! Whether the patterns of a match are met by all values.

ghost use Rattle.std.specs.Prelude.{◌≡◌, ◌∷◌, [], map, IfOk};
ghost use Rattle.type_cover.specs.Cells.{rows_now};
ghost use Rattle.type_cover.specs.Splitting as splitting;
ghost use Rattle.type_cover.specs.Suits.{PatternsSuit};
ghost use Rattle.type_rules.specs.Coverage as spec;

use crate::covering::covers;
use crate::nesting::levels;
use aen_base::{List, NoMem};
use core_ty::{Ty, TypeDecl};
use rust_ast::spelled_patterns::Pat;
use std::alloc::Global;

/// A row for each pattern.
#[tactic(auto, using(crate::proofs::CellRows::patterns_more))]
fn rows_of<'a>(alloc: Global, patterns: &[&'a Pat]) -> Result<List<List<Option<&'a Pat>>>, NoMem>
    ensures { IfOk result (λ rows. rows_now rows ≡ map splitting.as_row (map (λ p. p.now) patterns.now)) }
{
    let mut rows = List::new(alloc);
    for pattern in patterns {
        let mut row = List::new(alloc);
        row.push(Some(*pattern))?;
        rows.push(row)?;
    }
    Ok(rows)
}

/// Whether each value of a type meets one of the patterns, which suit the type: where they look into
/// it a tuple's pattern has as many parts, and a variant's names each field once at most.
///
/// # Errors
///
/// `NoMem` for want of memory, which may come at any patterns.
#[tactic(auto, using(crate::proofs::Steps::match_covers))]
pub fn is_covered<'a>(
    alloc: Global,
    decls: &[TypeDecl],
    ty: &Ty,
    patterns: &[&'a Pat],
) -> Result<bool, NoMem>
    requires suit { PatternsSuit decls.now (map (λ p. p.now) patterns.now) ty.now }
    ensures { IfOk result (λ b. b ≡ spec.is_covered decls.now ty.now (map (λ p. p.now) patterns.now)) }
{
    let rows = rows_of(alloc, patterns)?;
    let level = levels(patterns)?;
    let mut columns = List::new(alloc);
    let column = ty.try_clone(alloc)?;
    columns.push((column, level))?;
    covers(alloc, decls, columns.as_slice(), rows.as_slice())
}
