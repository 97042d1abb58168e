//! Prints values as atoms.

ghost use Rattle.std.specs.Prelude.{◌≡◌, IfOk, true};
ghost use Rattle.pure_ast.specs.Types.{PTy};
ghost use Rattle.text_meaning.specs.Atoms.{IsAtom};
ghost use Rattle.text_meaning.specs.HasType.{HasType};
ghost use Rattle.text_meaning.specs.ShownTerms.{term_text};
ghost use Rattle.text_meaning.specs.SpelledTerms.{term_tokens};
ghost use Rattle.text_meaning.specs.ValueTerms.{value_term};
ghost use Rattle.text_meaning.specs.WellFormed.{IsWellFormed};
ghost use Rattle.text_syntax.specs.Brackets.{few_open};
ghost use Rattle.text_words.specs.ValueWords.{IsWord};

use aen_base::{NoMem, Text};
use lean_printer::print_value;
use pure_ast::{Defs, PValue};
use std::alloc::Global;

/// The text of a value as an atom without variables, in time linear in its length; the depth of the
/// value takes no stack. The text of a well-formed value of a type, with at most 10,000 brackets
/// open, is a word that writes this value. The only error is want of memory.
pub fn print_atom(alloc: Global, defs: &Defs, v: &PValue) -> Result<Text, NoMem>
    ensures layout { IfOk result (λ t. t ≡ term_text defs.now (value_term v.now)) }
    ensures read_back { IfOk result (λ t. (ty : PTy) → IsWellFormed defs.now → IsAtom defs.now v.now → HasType defs.now ty v.now → few_open 0 (term_tokens defs.now (value_term v.now)) ≡ true → IsWord defs.now ty t v.now) }
{
    print_value(alloc, defs, v)
}
