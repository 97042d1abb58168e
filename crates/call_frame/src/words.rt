ghost use Rattle.std.specs.Prelude.{◌≡◌, length, map, IfOk};
ghost use Rattle.std.specs.String.{string_bytes};
ghost use Rattle.source_meaning.specs.Calling.{AreArguments};
ghost use Rattle.call_frame.specs.Written as spec;
ghost use Rattle.call_frame.specs.Arguments.{IsReading};

use aen_base::{IntTy, List, NoMem, decimal_u32, num};
use pure_ast::PValue;
use std::alloc::Global;
use sums_ast::Function;
use thiserror::Error;

/// Why words give no arguments.
#[derive(Clone, Copy, Debug, PartialEq, Eq, Error)]
pub enum ArgFault {
    /// So many values were expected, and so many words given.
    #[error("{0} values expected, {1} given")]
    WrongCount(u64, u64),
    /// The word with this number, from 0, is the first that is no value.
    #[error("word {0} is no value")]
    BadValue(u64),
    /// Want of memory.
    #[error("out of memory")]
    Memory,
}

impl From<NoMem> for ArgFault {
    ghost use Rattle.std.specs.Prelude.{◌≡◌};
    ghost use Rattle.call_frame.specs.declared.words.ArgFault.TheVariants.{Memory};

    ghost from_gives = { λ _ e. e ≡ Memory };

    fn from(_: NoMem) -> ArgFault {
        ArgFault::Memory
    }
}

/// The value that a word writes; None exactly where it writes none.
#[tactic(auto, using(crate::proofs::Digits::in_u32))]
pub(crate) fn word_value(word: &[u8]) -> Option<PValue>
    ensures { result ≡ spec.word_value word.now }
{
    let magnitude = decimal_u32(word)?;
    let number = num(IntTy::U32, false, u128::from(magnitude))?;
    Some(PValue::number(number))
}

/// The values that words write; the fault is `BadValue` at the first word that writes none, or
/// `Memory`.
fn values(alloc: Global, words: &[String]) -> Result<List<PValue>, ArgFault>
    ensures { IsReading (length words.now) (map string_bytes words.now) result }
{
    let mut values = List::new(alloc);
    let mut place = 0u64;
    for word in words {
        let Some(value) = word_value(word.as_str().as_bytes()) else {
            return Err(ArgFault::BadValue(place));
        };
        values.push(value)?;
        place += 1;
    }
    Ok(values)
}

/// The arguments of a call of this function that words write, one a parameter. `WrongCount(E, F)`
/// comes exactly where there are F words and E parameters, and these differ; `BadValue(I)` exactly
/// where they don't, and word I is the first that writes no value.
pub fn arguments(
    alloc: Global,
    function: &Function,
    words: &[String],
) -> Result<List<PValue>, ArgFault>
    ensures reading { IsReading function.now.parameters (map string_bytes words.now) result }
    ensures fits { IfOk result (λ values. AreArguments function.now values) }
{
    let expected = u64::from(function.parameters);
    let given = words.len() as u64;
    if expected != given {
        return Err(ArgFault::WrongCount(expected, given));
    }
    values(alloc, words)
}

#[cfg(test)]
mod tests {
    use super::*;
    use aen_base::{Name, Span, VarId};
    use sums_ast::{Block, Expr};

    /// `fn f(x: u32, y: u32) -> u32 { x }`.
    fn function(alloc: Global) -> Result<Function, NoMem> {
        let span = Span { lo: 0, hi: 1 };
        let mut variables = List::new(alloc);
        variables.push(Name::from_str(alloc, "x")?)?;
        variables.push(Name::from_str(alloc, "y")?)?;
        let value = Expr::variable(span, VarId(0));
        Ok(Function {
            name: Name::from_str(alloc, "f")?,
            span,
            parameters: 2,
            variables,
            body: Block::with_value(alloc, span, List::new(alloc), value)?,
        })
    }

    fn faults(alloc: Global, words: &[&str]) -> Result<Option<ArgFault>, NoMem> {
        let mut all = Vec::new(alloc);
        for word in words {
            all.push(String::from_str(alloc, word)?)?;
        }
        let function = function(alloc)?;
        Ok(arguments(alloc, &function, all.as_slice()).err())
    }

    #[test]
    fn reads_words(rt: HostRuntime) -> Result<(), NoMem> {
        assert!(rt; faults(rt.alloc(), &["007", "4294967295"])? == None);
        let large = faults(rt.alloc(), &["41", "4294967296"])?;
        assert!(rt; large == Some(ArgFault::BadValue(1)));
        let signed = faults(rt.alloc(), &["+1", ""])?;
        assert!(rt; signed == Some(ArgFault::BadValue(0)));
        let few = faults(rt.alloc(), &["a"])?;
        assert!(rt; few == Some(ArgFault::WrongCount(2, 1)));
        Ok(())
    }
}
