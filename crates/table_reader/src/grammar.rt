//! What a language tells of its grammar.

ghost use Rattle.std.specs.Prelude.{◌≡◌, ℕ, List};
ghost use Rattle.table_reader.specs.declared.symbol.Symbol.{Symbol};
ghost use Rattle.table_reader.specs.declared.take.Take.{Take};
ghost use Rattle.table_reader.specs.Derivations.{rows};
ghost use Rattle.table_reader.specs.Conditions.{Fits};

use crate::symbol::Production;
use crate::take::Take;

/// A grammar as a table: which lexemes its tokens take, and the productions of its parts.
///
/// A language gives the table twice, as definitions (the ghost members) and as code, and the proof
/// that the table fits: that the next lexeme decides which production goes on.
pub trait Grammar {
    type Lexeme: Drop;

    type Terminal: Copy + 'static;

    type Part: Copy + 'static;

    ghost takes: { Self.Terminal → Self.Lexeme → Take Self.Lexeme };

    ghost productions: { Self.Part → List (List (Symbol Self.Terminal Self.Part)) };

    /// How many parts can begin one another: each part that begins a production of another part has
    /// less rank.
    ghost rank: { ℕ };

    /// How often the front of a lexeme can be taken, at the most.
    ghost weight: { Self.Lexeme → ℕ };

    /// How a token takes a lexeme.
    fn takes(terminal: Self::Terminal, lexeme: &Self::Lexeme) -> Take<Self::Lexeme>
        ensures { result ≡ takes terminal lexeme.now };

    /// The productions of a part.
    fn productions(part: Self::Part) -> &'static [Production<Self::Terminal, Self::Part>]
        ensures { rows result.now ≡ productions part };

    /// The rank of the table.
    fn rank() -> usize
        ensures { result ≡ rank };

    /// The table fits.
    ghost fits: { Fits takes productions rank weight };
}
