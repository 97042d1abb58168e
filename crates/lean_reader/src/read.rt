ghost use Rattle.std.specs.Prelude.{◌≡◌, ◌<◌, ◌^◌, length, IfOk, MatchResult};
ghost use Rattle.lean_reader.specs.Placed.{IsRaw, IsWithin};
ghost use Rattle.lean_reader.specs.Reading.{IsRead, IsFault};

use crate::places::place_of;
use aen_base::{List, NoMem, Span, Which};
use pure_ast::Defs;
use raw_ast::RawText;
use raw_reader::read_text;
use std::alloc::Global;
use text_syntax::{has_few_brackets, lexemes_of};
use text_table::Lexeme;
use text_tokens::{Lexemes, lex};
use text_trees::{SettleFault, definitions_of};

/// Why a text isn't read.
#[derive(Clone, Copy, Debug, PartialEq, Eq)]
pub enum LeanFault {
    /// The text is no text of the printed language; its first fault stands there.
    Syntax(Span),
    /// A count passes its limit: which one, and the limit plus one.
    Limit(Which, u64),
    /// Out of memory.
    Memory,
}

impl From<NoMem> for LeanFault {
    ghost use Rattle.std.specs.Prelude.{◌≡◌};
    ghost use Rattle.lean_reader.specs.declared.read.LeanFault.TheVariants.{Memory};

    ghost from_gives = { λ _ e. e ≡ Memory };

    fn from(_: NoMem) -> LeanFault {
        LeanFault::Memory
    }
}

/// The definitions that a text of less than 2^32 bytes is.
///
/// `Syntax` comes exactly where the text is none; the place is that of the first fault of the
/// grammar or, where it has none, of the first name or number that breaks another rule (docs/TEXT.md,
/// "Faults"). `Limit` is `TextNesting` and 10,001, and comes exactly where the text is one in which
/// more than 10,000 brackets are open at once. `Memory` is want of memory.
pub fn read_defs(alloc: Global, text: &str) -> Result<Defs, LeanFault>
    requires { length text.now < 2 ^ 32 }
    ensures { MatchResult result (IsRead text.now) (IsFault text.now) }
{
    let Lexemes { list, fault } = lex(alloc, text)?;
    let has_few = has_few_brackets(list.as_slice());
    let lexemes = lexemes_of(alloc, list)?;
    match raw_of(alloc, lexemes, fault, text.len())? {
        Ok(raw) => Ok(definitions_within(alloc, &raw, fault, has_few)?),
        Err(place) => Err(LeanFault::Syntax(place)),
    }
}

/// The text that lexemes are read as; where they are none, the place of the first fault of the grammar,
/// in a text of less than 2^32 bytes, so many. The lexemes are dropped here: what follows needs none.
/// The only error is want of memory.
fn raw_of(
    alloc: Global,
    lexemes: List<Lexeme>,
    fault: Option<Span>,
    end: usize,
) -> Result<Result<RawText, Span>, NoMem>
    requires short { end < 2 ^ 32 }
    ensures { IfOk result (IsRaw lexemes fault end) }
{
    match read_text(alloc, lexemes.as_slice())? {
        Ok(raw) => Ok(Ok(raw)),
        Err(number) => {
            let place = place_of(lexemes.as_slice(), number, fault, end);
            Ok(Err(place))
        }
    }
}

/// The definitions of a text that keeps to the grammar as far as it has tokens, which all are tokens
/// where there is no fault, and whose brackets are few.
fn definitions_within(
    alloc: Global,
    raw: &RawText,
    fault: Option<Span>,
    has_few: bool,
) -> Result<Defs, LeanFault>
    ensures { IsWithin raw.now fault has_few result }
{
    if let Some(place) = fault {
        return Err(LeanFault::Syntax(place));
    }
    match definitions_of(alloc, raw) {
        Ok(defs) => {
            if !has_few {
                return Err(LeanFault::Limit(Which::TextNesting, 10_001));
            }
            Ok(defs)
        }
        Err(SettleFault::Broken(place)) => Err(LeanFault::Syntax(place)),
        Err(SettleFault::Memory) => Err(LeanFault::Memory),
    }
}
