//! A program with names resolved, or the first fault of its names.

ghost use Rattle.std.specs.Prelude.{◌≡◌, [], ◌∷◌, ◌≤◌, ◌||◌, length, nat_lt, Ok};
ghost use Rattle.rust_names.specs.Answers.{Answers};
ghost use Rattle.rust_names.specs.Resolution as spec;

use crate::fault::NameFault;
use crate::items::resolve_items;
use aen_base::Which;
use name_clashes::twice_in_items;
use name_tables::{Stop, tables_of};
use rust_ast::Program;
use rust_ast::program::Item;
use rust_ast::resolution::{Function, Resolved};
use std::alloc::Global;

/// The most functions of a program.
const FUNCTIONS: usize = 4_096;

/// The most variables of a function.
const VARIABLES: usize = 1_000;

/// How many of the items are functions.
fn count_functions(items: &[Item]) -> usize
    ensures { result ≡ spec.count_functions items.now }
{
    let mut count = 0;
    for i in 0..items.len() {
        let more = functions_of(&items[i]);
        count += more;
    }
    count
}

/// Whether there are more functions than a program may have.
fn has_too_many(items: &[Item]) -> bool
    ensures { result ≡ nat_lt 4096 (spec.count_functions items.now) }
{
    FUNCTIONS < count_functions(items)
}

/// How many functions an item is: one or none.
fn functions_of(item: &Item) -> usize
    ensures count { result ≡ spec.count_functions (item.now ∷ []) }
    ensures most { result ≤ 1 }
{
    match item {
        Item::Function(_) => 1,
        Item::Struct(_) => 0,
        Item::Enum(_) => 0,
        Item::UseMem => 0,
    }
}

/// Whether some function has more variables than a function may have.
fn has_many(functions: &[Function]) -> bool
    ensures { result ≡ spec.has_many functions.now }
{
    let mut many = false;
    for i in 0..functions.len() {
        let over = is_over(&functions[i]);
        let more = either(many, over);
        many = more;
    }
    many
}

/// Whether a function has more variables than it may have.
fn is_over(function: &Function) -> bool
    ensures { result ≡ nat_lt 1000 (length function.now.variables) }
{
    VARIABLES < function.variables.len()
}

/// Whether one of these holds.
fn either(a: bool, b: bool) -> bool
    ensures { result ≡ (a || b) }
{
    a || b
}

/// A program with names resolved, unless a function has too many variables.
fn within_limit(resolved: Resolved) -> Result<Resolved, NameFault>
    ensures { Answers (spec.variables_within (Ok resolved)) result }
{
    if has_many(resolved.functions.as_slice()) {
        Err(NameFault::Limit(Which::Variables, 1_001))
    } else {
        Ok(resolved)
    }
}

/// The program with each use as the number of what it names, or the first fault of its names.
///
/// # Errors
///
/// `Limit` where it has too many functions. Else `Twice` with the first place that declares what an
/// earlier one declares, behind the first such place. Else `Unknown` at the first use of what is
/// declared nowhere. Else `Limit` where a function has too many variables. `Memory` may come at any
/// program.
#[tactic(auto, unfolding(crate::specs::Resolution::resolution, name_clashes::specs::Twice::twice))]
pub fn resolve(alloc: Global, program: &Program) -> Result<Resolved, NameFault>
    ensures { Answers (spec.resolution program.now) result }
{
    let items = program.items.as_slice();
    if has_too_many(items) {
        return Err(NameFault::Limit(Which::Functions, 4_097));
    }
    let tables = tables_of(alloc, items)?;
    if let Some((first, second)) = twice_in_items(alloc, &tables, items)? {
        return Err(NameFault::Twice(first, second));
    }
    match resolve_items(alloc, &tables, items) {
        Ok(resolved) => within_limit(resolved),
        Err(Stop::Unknown(place)) => Err(NameFault::Unknown(place)),
        Err(Stop::Memory) => Err(NameFault::Memory),
    }
}
