//! Which production of a part goes on.

ghost use Rattle.std.specs.Prelude.{◌≡◌, ◌<◌, length, reverse, IfOk};
ghost use Rattle.table_reader.specs.Conditions.{accepts};
ghost use Rattle.table_reader.specs.Derivations.{rows};
ghost use Rattle.table_reader.specs.Machine as machine;
ghost use Rattle.table_reader.specs.Machine.{Finds, IsAt};

use crate::grammar::Grammar;
use crate::symbol::{Production, Symbol};
use crate::take::Take;
use aen_base::{List, NoMem};

/// Puts the way down from a part there to the token that takes a lexeme: the places of productions, of
/// the part itself newest. Tells whether there is one; where there is none, nothing is put. Parts that
/// begin productions are of less rank.
#[cycle(finding)]
pub(crate) fn find<G: Grammar>(
    ways: &mut List<usize>,
    rank: usize,
    part: G::Part,
    lexeme: &G::Lexeme,
) -> Result<bool, NoMem>
    ensures { IfOk result (λ found. Finds (machine.way G.takes G.productions rank 0 (G.productions part) lexeme.now) found (reverse ways.old) (reverse ways.new)) }
{
    let productions = G::productions(part);
    for (place, production) in productions.iter().enumerate() {
        if find_by::<G>(ways, rank, production.symbols, lexeme)? {
            ways.push(place)?;
            return Ok(true);
        }
    }
    Ok(false)
}

/// The same by one production, whose place is not put.
#[cycle(finding)]
fn find_by<G: Grammar>(
    ways: &mut List<usize>,
    rank: usize,
    symbols: &[Symbol<G::Terminal, G::Part>],
    lexeme: &G::Lexeme,
) -> Result<bool, NoMem>
    ensures { IfOk result (λ found. Finds (machine.way_by G.takes G.productions rank symbols.now lexeme.now) found (reverse ways.old) (reverse ways.new)) }
{
    match symbols {
        [] => Ok(false),
        [Symbol::Token(terminal), ..] => Ok(is_taken::<G>(*terminal, lexeme)),
        [Symbol::Part(part), ..] => match rank.checked_sub(1) {
            None => Ok(false),
            Some(less) => find::<G>(ways, less, *part, lexeme),
        },
    }
}

/// Whether a token takes a lexeme or its front.
fn is_taken<G: Grammar>(terminal: G::Terminal, lexeme: &G::Lexeme) -> bool
    ensures { result ≡ accepts (G.takes terminal lexeme.now) }
{
    match G::takes(terminal, lexeme) {
        Take::No => false,
        Take::Whole => true,
        Take::Front { taken: _, left: _ } => true,
    }
}

/// The place of the empty production of a part.
pub(crate) fn empty_place<G: Grammar>(part: G::Part) -> Option<usize>
    ensures { result ≡ machine.empty_place G.productions part }
{
    let productions = G::productions(part);
    for (place, production) in productions.iter().enumerate() {
        if is_empty(production.symbols) {
            return Some(place);
        }
    }
    None
}

fn is_empty<S: Copy>(symbols: &[S]) -> bool
    ensures { result ≡ machine.is_empty symbols.now }
{
    match symbols {
        [] => true,
        [_, ..] => false,
    }
}

/// The symbols of the production in this place.
pub(crate) fn symbols_at<T: Copy, N: Copy>(
    productions: &[Production<T, N>],
    place: usize,
) -> &'static [Symbol<T, N>]
    requires { place < length productions.now }
    ensures { IsAt result.now place (rows productions.now) }
{
    productions[place].symbols
}
