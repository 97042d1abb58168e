//! Reads lexemes as a value, on two stacks: of what is to come, and of the values of symbols.

ghost use Rattle.std.specs.Prelude.{◌≡◌, [], ◌∷◌, ◌++◌, ◌<◌, length, map, reverse, IfOk, OnOk, MatchOption, MatchResult, ⊤, List, true, false, Some, None};
ghost use Rattle.table_reader.specs.declared.coming.Coming.TheVariants as C;
ghost use Rattle.table_reader.specs.declared.item.Item.{Item};
ghost use Rattle.table_reader.specs.declared.item.Item.TheVariants as I;
ghost use Rattle.table_reader.specs.declared.symbol.Symbol.{Symbol};
ghost use Rattle.table_reader.specs.declared.symbol.Symbol.TheVariants as S;
ghost use Rattle.table_reader.specs.Building.{CanBuild, MakesBy};
ghost use Rattle.table_reader.specs.Derivations.{IsFault};
ghost use Rattle.table_reader.specs.Machine as machine;
ghost use Rattle.table_reader.specs.Machine.{IsAt, IsReached, IsReady, Leads, Ends, HasFirst, Enters, Skips, Takes, TakesToken, Turns, symbols};
ghost use Rattle.table_reader.specs.Reading.{IsReadAs, IsNotRead};
ghost use Rattle.table_reader.specs.Steps as steps;

use crate::builds::Builds;
use crate::choice::{empty_place, find, symbols_at};
use crate::coming::Coming;
use crate::item::Item;
use crate::symbol::Symbol;
use crate::take::Take;
use crate::turned::Turned;
use aen_base::{List, NoMem};
use std::alloc::Global;

/// Reads lexemes as a part: Ok exactly where they are derived from the part, with the value that its
/// productions make, which is the only one; else the place of the first lexeme such that nothing that
/// is derived begins with the lexemes up to it, or the number of lexemes where more has to come. The
/// only error is want of memory.
pub fn read<G: Builds>(
    alloc: Global,
    start: G::Part,
    lexemes: &[G::Lexeme],
) -> Result<Result<G::Value, usize>, NoMem>
    ensures exact { IfOk result (λ r. MatchResult r (λ value. IsReadAs G.takes G.carrier G.made G.held start lexemes.now value) (λ place. IsFault G.takes G.productions (S.Part start ∷ []) lexemes.now place)) }
    ensures not_read { IfOk result (λ r. MatchResult r (λ value. ⊤) (λ place. IsNotRead G.takes G.carrier G.made start lexemes.now)) }
{
    let read = step_through::<G>(alloc, start, lexemes)?;
    Ok(read)
}

/// The same as steps from the part tell it: the value to which all lexemes lead, or the place where no
/// step goes on.
fn step_through<G: Builds>(
    alloc: Global,
    start: G::Part,
    lexemes: &[G::Lexeme],
) -> Result<Result<G::Value, usize>, NoMem>
    ensures { IfOk result (λ r. MatchResult r (λ value. (steps.fault_from G.takes G.productions G.rank G.weight (S.Part start ∷ []) lexemes.now ≡ None) × Ends G.takes G.carrier G.made G.held (C.Part start ∷ []) [] lexemes.now value) (λ place. steps.fault_from G.takes G.productions G.rank G.weight (S.Part start ∷ []) lexemes.now ≡ Some place)) }
{
    let mut coming = List::new(alloc);
    let mut values = List::new(alloc);
    let mut ways = List::new(alloc);
    coming.push(Coming::Part(start))?;
    for (place, lexeme) in lexemes.iter().enumerate() {
        if !take::<G>(alloc, &mut coming, &mut values, &mut ways, lexeme)? {
            return Ok(Err(place));
        }
    }
    match finish::<G>(alloc, coming, values)? {
        Some(value) => Ok(Ok(value)),
        None => Ok(Err(lexemes.len())),
    }
}

/// Takes a lexeme, in so many pieces as tokens take of it, if it can stand here. What is to come, the
/// values and each way down stand newest last; a way is put on `ways` and taken off again.
fn take<G: Builds>(
    alloc: Global,
    coming: &mut List<Coming<G::Terminal, G::Part>>,
    values: &mut List<Item<G::Lexeme, G::Value>>,
    ways: &mut List<usize>,
    lexeme: &G::Lexeme,
) -> Result<bool, NoMem>
    requires reached { IsReached G.productions (symbols (reverse coming.old)) }
    requires ready { IsReady G.carrier G.made G.held (reverse coming.old) (reverse values.old) }
    ensures { IfOk result (λ taken. Takes G.takes G.carrier G.made G.held G.productions G.rank G.weight (reverse coming.old) (reverse values.old) lexeme.now taken (reverse coming.new) (reverse values.new)) }
{
    match turn::<G>(alloc, coming, values, ways, lexeme)? {
        Turned::Refused => Ok(false),
        Turned::Taken => Ok(true),
        Turned::Left(piece) => {
            let taken = take_left::<G>(alloc, coming, values, ways, piece)?;
            Ok(taken)
        }
    }
}

/// Takes what is left of a lexeme after a front of it, if it can stand here.
fn take_left<G: Builds>(
    alloc: Global,
    coming: &mut List<Coming<G::Terminal, G::Part>>,
    values: &mut List<Item<G::Lexeme, G::Value>>,
    ways: &mut List<usize>,
    lexeme: G::Lexeme,
) -> Result<bool, NoMem>
    requires reached { IsReached G.productions (symbols (reverse coming.old)) }
    requires ready { IsReady G.carrier G.made G.held (reverse coming.old) (reverse values.old) }
    ensures { IfOk result (λ taken. Takes G.takes G.carrier G.made G.held G.productions G.rank G.weight (reverse coming.old) (reverse values.old) lexeme taken (reverse coming.new) (reverse values.new)) }
{
    let mut piece = lexeme;
    loop {
        match turn::<G>(alloc, coming, values, ways, &piece)? {
            Turned::Refused => return Ok(false),
            Turned::Taken => return Ok(true),
            Turned::Left(left) => piece = left,
        }
    }
}

/// Takes a lexeme or its front by the next token, and builds what is over before it.
fn turn<G: Builds>(
    alloc: Global,
    coming: &mut List<Coming<G::Terminal, G::Part>>,
    values: &mut List<Item<G::Lexeme, G::Value>>,
    ways: &mut List<usize>,
    lexeme: &G::Lexeme,
) -> Result<Turned<G::Lexeme>, NoMem>
    requires reached { IsReached G.productions (symbols (reverse coming.old)) }
    requires ready { IsReady G.carrier G.made G.held (reverse coming.old) (reverse values.old) }
    ensures { IfOk result (λ turned. Turns G.takes G.carrier G.made G.held G.productions G.rank G.weight (reverse coming.old) (reverse values.old) lexeme.now turned (reverse coming.new) (reverse values.new)) }
{
    while let Some(symbol) = coming.pop() {
        match symbol {
            Coming::Token(terminal) => {
                let turned = take_token::<G>(alloc, values, terminal, lexeme)?;
                return Ok(turned);
            }
            Coming::Part(part) => {
                let entered = enter::<G>(coming, ways, part, lexeme)?;
                match entered {
                    Some(terminal) => {
                        let turned = take_token::<G>(alloc, values, terminal, lexeme)?;
                        return Ok(turned);
                    }
                    None => {
                        if !skip::<G>(alloc, values, part)? {
                            return Ok(Turned::Refused);
                        }
                    }
                }
            }
            Coming::Over(part, index) => over::<G>(alloc, values, part, index)?,
        }
    }
    Ok(Turned::Refused)
}

/// Takes a lexeme or its front by a token, whose value it is.
fn take_token<G: Builds>(
    alloc: Global,
    values: &mut List<Item<G::Lexeme, G::Value>>,
    terminal: G::Terminal,
    lexeme: &G::Lexeme,
) -> Result<Turned<G::Lexeme>, NoMem>
    ensures { IfOk result (λ turned. TakesToken (G.takes terminal lexeme.now) lexeme.now (reverse values.old) turned (reverse values.new)) }
{
    match G::takes(terminal, lexeme) {
        Take::No => Ok(Turned::Refused),
        Take::Whole => {
            let value = G::copy(alloc, lexeme)?;
            values.push(Item::Token(value))?;
            Ok(Turned::Taken)
        }
        Take::Front { taken, left } => {
            values.push(Item::Token(taken))?;
            Ok(Turned::Left(left))
        }
    }
}

/// Puts what is to come of a part there that begins with a lexeme, and gives the token that takes the
/// lexeme. Where the part does not begin with it, all is as before. The way down to the token is found
/// once, before any of its parts is opened.
fn enter<G: Builds>(
    coming: &mut List<Coming<G::Terminal, G::Part>>,
    ways: &mut List<usize>,
    part: G::Part,
    lexeme: &G::Lexeme,
) -> Result<Option<G::Terminal>, NoMem>
    requires { IsReached G.productions (S.Part part ∷ symbols (reverse coming.old)) }
    ensures { IfOk result (λ entered. Enters G.takes G.carrier G.made G.held G.productions G.rank G.weight part lexeme.now entered (reverse coming.old) (reverse coming.new)) }
{
    if !find::<G>(ways, G::rank(), part, lexeme)? {
        return Ok(None);
    }
    let mut part = part;
    while let Some(place) = ways.pop() {
        match open::<G>(coming, part, place)? {
            Symbol::Token(terminal) => return Ok(Some(terminal)),
            Symbol::Part(next) => part = next,
        }
    }
    unreachable!()
}

/// Puts a production's symbols there but the first, which it gives, and the mark that it is over
/// after them.
fn open<G: Builds>(
    coming: &mut List<Coming<G::Terminal, G::Part>>,
    part: G::Part,
    place: usize,
) -> Result<Symbol<G::Terminal, G::Part>, NoMem>
    requires { HasFirst G.productions part place }
    ensures { IfOk result (λ it. (first : Symbol G.Terminal G.Part) (rest : List (Symbol G.Terminal G.Part)) → IsAt (first ∷ rest) place (G.productions part) → (it ≡ first) × (reverse coming.new ≡ map machine.coming rest ++ C.Over part place ∷ reverse coming.old)) }
{
    let productions = G::productions(part);
    let symbols = symbols_at(productions, place);
    let first = open_with(coming, part, place, symbols)?;
    Ok(first)
}

/// The same by the production's symbols.
fn open_with<T: Copy, N: Copy>(
    coming: &mut List<Coming<T, N>>,
    part: N,
    place: usize,
    symbols: &[Symbol<T, N>],
) -> Result<Symbol<T, N>, NoMem>
    requires { 0 < length symbols.now }
    ensures { IfOk result (λ it. (first : Symbol T N) (rest : List (Symbol T N)) → symbols.now ≡ first ∷ rest → (it ≡ first) × (reverse coming.new ≡ map machine.coming rest ++ C.Over part place ∷ reverse coming.old)) }
{
    let [first, rest @ ..] = symbols else {
        unreachable!()
    };
    coming.push(Coming::Over(part, place))?;
    put(coming, rest)?;
    Ok(*first)
}

/// Puts symbols before what is to come.
fn put<T: Copy, N: Copy>(
    coming: &mut List<Coming<T, N>>,
    symbols: &[Symbol<T, N>],
) -> Result<(), NoMem>
    ensures { OnOk result (reverse coming.new ≡ map machine.coming symbols.now ++ reverse coming.old) }
{
    for symbol in symbols.iter().rev() {
        coming.push(match *symbol {
            Symbol::Token(terminal) => Coming::Token(terminal),
            Symbol::Part(part) => Coming::Part(part),
        })?;
    }
    Ok(())
}

/// Builds the value of a part that is empty, if it can be.
fn skip<G: Builds>(
    alloc: Global,
    values: &mut List<Item<G::Lexeme, G::Value>>,
    part: G::Part,
) -> Result<bool, NoMem>
    requires { MatchOption (machine.empty_place G.productions part) ⊤ (λ place. CanBuild G.carrier G.held part (G.made part) place (reverse values.old)) }
    ensures { IfOk result (λ skipped. Skips (machine.empty_place G.productions part) skipped (λ place. (value : G.Value) (below : List (Item G.Lexeme G.Value)) → MakesBy G.carrier G.held part (G.made part) place (reverse values.old) value below → reverse values.new ≡ I.Part value ∷ below)) }
{
    match empty_place::<G>(part) {
        None => Ok(false),
        Some(place) => {
            over::<G>(alloc, values, part, place)?;
            Ok(true)
        }
    }
}

/// Builds the value of a part by its production in place `index`, which is over.
fn over<G: Builds>(
    alloc: Global,
    values: &mut List<Item<G::Lexeme, G::Value>>,
    part: G::Part,
    index: usize,
) -> Result<(), NoMem>
    requires { CanBuild G.carrier G.held part (G.made part) index (reverse values.old) }
    ensures { OnOk result ((value : G.Value) (below : List (Item G.Lexeme G.Value)) → MakesBy G.carrier G.held part (G.made part) index (reverse values.old) value below → reverse values.new ≡ I.Part value ∷ below) }
{
    let value = G::build(alloc, part, index, values)?;
    values.push(Item::Part(value))?;
    Ok(())
}

/// Builds what is over at the end, and gives the value of all lexemes; None where more has to come.
fn finish<G: Builds>(
    alloc: Global,
    coming: List<Coming<G::Terminal, G::Part>>,
    values: List<Item<G::Lexeme, G::Value>>,
) -> Result<Option<G::Value>, NoMem>
    requires { IsReady G.carrier G.made G.held (reverse coming) (reverse values) }
    ensures { IfOk result (λ o. MatchOption o (steps.may_end G.takes G.productions G.rank G.weight (symbols (reverse coming)) ≡ false) (λ it. (steps.may_end G.takes G.productions G.rank G.weight (symbols (reverse coming)) ≡ true) × Ends G.takes G.carrier G.made G.held (reverse coming) (reverse values) [] it)) }
{
    let mut coming = coming;
    let mut values = values;
    while let Some(symbol) = coming.pop() {
        match symbol {
            Coming::Token(_) => return Ok(None),
            Coming::Part(part) => {
                if !skip::<G>(alloc, &mut values, part)? {
                    return Ok(None);
                }
            }
            Coming::Over(part, index) => over::<G>(alloc, &mut values, part, index)?,
        }
    }
    let Some(item) = values.pop() else {
        unreachable!()
    };
    match item {
        Item::Token(_) => unreachable!(),
        Item::Part(value) => Ok(Some(value)),
    }
}
