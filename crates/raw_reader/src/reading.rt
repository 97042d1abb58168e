//! Texts, types and atoms, read of lexemes.

ghost use Rattle.std.specs.Prelude.{IfOk, MatchResult, ⊤};
ghost use Rattle.text_table.specs.declared.part.Part.TheVariants as N;
ghost use Rattle.raw_ways.specs.Reading.{IsRead, IsNotRead, IsFault};

use crate::reader::TextReader;
use aen_base::NoMem;
use raw_ast::{RawAtom, RawText, RawType};
use raw_values::taking::{held_atom, held_text, held_type};
use std::alloc::Global;
use table_reader::read;
use text_table::{Lexeme, Part};

/// Reads lexemes as a text: Ok exactly where they are one by the grammar, with the only text that is
/// read of them; else the place of the first fault of the grammar, counted in lexemes. The only error
/// is want of memory.
#[tactic(auto, using(crate::proofs::Held::holds_text, crate::proofs::Held::text_read))]
pub fn read_text(alloc: Global, lexemes: &[Lexeme]) -> Result<Result<RawText, usize>, NoMem>
    ensures exact { IfOk result (λ r. MatchResult r (λ text. IsRead N.Text lexemes.now text) (λ place. IsFault N.Text lexemes.now place)) }
    ensures not_read { IfOk result (λ r. MatchResult r (λ text. ⊤) (λ place. IsNotRead N.Text lexemes.now)) }
{
    match read::<TextReader>(alloc, Part::Text, lexemes)? {
        Ok(value) => Ok(Ok(held_text(value))),
        Err(place) => Ok(Err(place)),
    }
}

/// Reads lexemes as a type, as `read_text` reads a text.
#[tactic(auto, using(crate::proofs::Held::holds_type, crate::proofs::Held::type_read))]
pub fn read_type(alloc: Global, lexemes: &[Lexeme]) -> Result<Result<RawType, usize>, NoMem>
    ensures exact { IfOk result (λ r. MatchResult r (λ ty. IsRead N.Type lexemes.now ty) (λ place. IsFault N.Type lexemes.now place)) }
    ensures not_read { IfOk result (λ r. MatchResult r (λ ty. ⊤) (λ place. IsNotRead N.Type lexemes.now)) }
{
    match read::<TextReader>(alloc, Part::Type, lexemes)? {
        Ok(value) => Ok(Ok(held_type(value))),
        Err(place) => Ok(Err(place)),
    }
}

/// Reads lexemes as an atom, as `read_text` reads a text.
#[tactic(auto, using(crate::proofs::Held::holds_atom, crate::proofs::Held::atom_read))]
pub fn read_atom(alloc: Global, lexemes: &[Lexeme]) -> Result<Result<RawAtom, usize>, NoMem>
    ensures exact { IfOk result (λ r. MatchResult r (λ atom. IsRead N.Atom lexemes.now atom) (λ place. IsFault N.Atom lexemes.now place)) }
    ensures not_read { IfOk result (λ r. MatchResult r (λ atom. ⊤) (λ place. IsNotRead N.Atom lexemes.now)) }
{
    match read::<TextReader>(alloc, Part::Atom, lexemes)? {
        Ok(value) => Ok(Ok(held_atom(value))),
        Err(place) => Ok(Err(place)),
    }
}
