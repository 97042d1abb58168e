//! Code.

ghost use Rattle.std.specs.Prelude.{◌≡◌, IfOk};
ghost use Rattle.raw_ways.specs.Ways as spec;

use crate::spelling::spelled;
use crate::words::is_true;
use aen_base::{Boxed, NoMem};
use raw_ast::{
    Computation, Constructor, DefinitionName, Operation, Pattern, RawAtom, RawCode, Spelling,
};
use raw_values::front_list::FrontList;
use raw_values::rests::Bound;
use std::alloc::Global;
use text_table::Lexeme;

/// A variable bound to a computation or to an atom, and the code after it. The only error is want of memory.
pub fn let_code(alloc: Global, variable: Lexeme, bound: Bound) -> Result<RawCode, NoMem>
    ensures { IfOk result (λ it. it ≡ spec.let_code variable bound) }
{
    match bound {
        Bound::Computation(computation, rest) => {
            Ok(RawCode::bind(alloc, spelled(variable), computation, rest)?)
        }
        Bound::Atom(atom, rest) => Ok(RawCode::put(alloc, spelled(variable), atom, rest)?),
    }
}

/// A match of an atom.
pub fn match_code(atom: RawAtom, arms: FrontList<(Pattern, RawCode)>) -> RawCode
    ensures { result ≡ spec.match_code atom arms }
{
    RawCode::select(atom, arms.into_list())
}

/// A computation as the last of the code.
pub fn last_code(computation: Computation) -> RawCode
    ensures { result ≡ spec.last_code computation }
{
    RawCode::last(computation)
}

/// What is bound: a computation, before the code after it.
pub fn bound_computation(computation: Computation, rest: RawCode) -> Bound
    ensures { result ≡ spec.bound_computation computation rest }
{
    Bound::Computation(computation, rest)
}

/// What is bound: an atom, before the code after it.
pub fn bound_atom(atom: RawAtom, rest: RawCode) -> Bound
    ensures { result ≡ spec.bound_atom atom rest }
{
    Bound::Atom(atom, rest)
}

/// An arm of a match.
pub fn arm(pattern: Pattern, code: RawCode) -> (Pattern, RawCode)
    ensures { result ≡ spec.arm pattern code }
{
    (pattern, code)
}

/// The pattern of `true` or `false`.
pub fn truth_pattern(word: Lexeme) -> Pattern
    ensures { result ≡ spec.truth_pattern word }
{
    Pattern::Truth(is_true(word.class))
}

/// The pattern of a tuple of two variables or more. The only error is want of memory.
pub fn tuple_pattern(
    first: Lexeme,
    second: Lexeme,
    more: FrontList<Spelling>,
) -> Result<Pattern, NoMem>
    ensures { IfOk result (λ it. it ≡ spec.tuple_pattern first second more) }
{
    let variables = more.push(spelled(second))?;
    let variables = variables.push(spelled(first))?;
    Ok(Pattern::Tuple(variables.into_list()))
}

/// The pattern of a constructor over variables. The only error is want of memory.
pub fn built_pattern(
    alloc: Global,
    name: Constructor,
    variables: FrontList<Spelling>,
) -> Result<Pattern, NoMem>
    ensures { IfOk result (λ it. it ≡ spec.built_pattern name variables) }
{
    let name = Boxed::new(alloc, name)?;
    Ok(Pattern::Built(name, variables.into_list()))
}

/// The computation that gives an atom.
pub fn gives(atom: RawAtom) -> Computation
    ensures { result ≡ spec.gives atom }
{
    Computation::Ok(atom)
}

/// The computation that fails.
pub fn fails() -> Computation
    ensures { result ≡ spec.fails }
{
    Computation::Fail
}

/// A call of a definition. The only error is want of memory.
pub fn calls(
    alloc: Global,
    name: DefinitionName,
    atoms: FrontList<RawAtom>,
) -> Result<Computation, NoMem>
    ensures { IfOk result (λ it. it ≡ spec.calls name atoms) }
{
    let name = Boxed::new(alloc, name)?;
    Ok(Computation::Call(name, atoms.into_list()))
}

/// A primitive over atoms.
pub fn operates(operation: Operation, atoms: FrontList<RawAtom>) -> Computation
    ensures { result ≡ spec.operates operation atoms }
{
    Computation::Primitive(operation, atoms.into_list())
}
