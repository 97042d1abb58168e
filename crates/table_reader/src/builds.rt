//! What a language tells of the values that it reads.

ghost use Rattle.std.specs.Prelude.{◌≡◌, ℕ, List, reverse, IfOk, OnOk};
ghost use Rattle.table_reader.specs.declared.item.Item.{Item};
ghost use Rattle.table_reader.specs.Building.{CanBuild, IsBuilt};
ghost use Rattle.table_reader.specs.Reading.{Made, plain};

use crate::grammar::Grammar;
use crate::item::Item;
use aen_base::{List, NoMem};
use std::alloc::Global;

/// A grammar whose productions build values.
///
/// A language gives `carrier` and, for each part, one function for each of its productions, in order,
/// typed by the values of its symbols: `makes`, of type `Makes` (specs/Making.antt). Then `made` is
/// `made_by` of them, and `same_productions` is `same_made`. A `Value` is an enum with one variant for
/// each type that parts carry, and `held` puts a part's value into its variant.
///
/// In code a function for each variant takes such a value off the stack (an item of another variant
/// can't stand there: `unreachable!()`), and a function for each production takes off the values of
/// its symbols, the last first, and gives what `makes` says: it requires `CanBuild` and ensures
/// `IsBuilt` at its part and place, where both compute to the values of its symbols. `build` matches
/// on the part and the place; `can_build_at` and `built_at` (specs/Building.antt) take each arm there.
pub trait Builds: Grammar {
    type Value: Drop;

    /// The values of each part.
    ghost carrier: { Self.Part → Type 0 };

    /// The productions of each part in order, and what each makes of the values of its symbols.
    ghost made: { (n : Self.Part) → List (Made Self.Terminal Self.Part Self.Lexeme carrier n) };

    /// How the code holds a value of a part.
    ghost held: { (n : Self.Part) → carrier n → Self.Value };

    /// A copy of a lexeme.
    fn copy(alloc: Global, lexeme: &Self::Lexeme) -> Result<Self::Lexeme, NoMem>
        ensures { IfOk result (λ it. it ≡ lexeme.now) };

    /// Builds the value of a part by its production in place `index`, from 0. The values of its
    /// symbols stand at the end of `values`, the newest last, and are taken off.
    fn build(
        alloc: Global,
        part: Self::Part,
        index: usize,
        values: &mut List<Item<Self::Lexeme, Self::Value>>,
    ) -> Result<Self::Value, NoMem>
        requires { CanBuild carrier held part (made part) index (reverse values.old) }
        ensures { IfOk result (λ it. IsBuilt carrier held part (made part) index (reverse values.old) it (reverse values.new)) };

    /// The productions are those of the grammar.
    ghost same_productions: { (n : Self.Part) → plain carrier n (made n) ≡ Self.productions n };
}
