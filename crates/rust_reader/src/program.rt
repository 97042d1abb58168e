//! The program that lexemes are read as.

ghost use Rattle.std.specs.Prelude.{◌≡◌, IfOk};
ghost use Rattle.source_grammar.specs.declared.part.Part.TheVariants as N;
ghost use Rattle.source_ways.specs.Carriers.{Carrier};
ghost use Rattle.source_values.specs.Held.{held};
ghost use Rattle.source_values.specs.Stacked.{Is};
ghost use Rattle.source_values.specs.declared.value.Value.TheVariants as V;
ghost use Rattle.rust_reader.specs.Answers as spec;

use aen_base::{NoMem, Span};
use rust_ast::program::Program;
use source_builder::SourceReader;
use source_grammar::{Lexeme, Part};
use source_syntax::fault_at;
use source_values::{Value, held_items};
use std::alloc::Global;

/// The program that the lexemes before a lexical fault are, in a text of so many bytes, or where they
/// are none. The only error is want of memory.
#[tactic(auto, using(crate::proofs::Programs::at_lexical, crate::proofs::Programs::holds_items))]
pub(crate) fn program_or_fault(
    alloc: Global,
    lexemes: &[Lexeme],
    bad: Option<Span>,
    end: u32,
) -> Result<Result<Program, Span>, NoMem>
    ensures { IfOk result (spec.IsRead lexemes.now bad end) }
{
    match table_reader::read::<SourceReader>(alloc, Part::Program, lexemes)? {
        Err(place) => Ok(Err(fault_at(lexemes, place, bad, end))),
        Ok(value) => match bad {
            Some(span) => Ok(Err(span)),
            None => Ok(Ok(program_of(value))),
        },
    }
}

/// The program that a value of the whole holds.
fn program_of(value: Value) -> Program
    requires { Is V.Items value }
    ensures { (v : Carrier N.Program) → value ≡ held N.Program v → result ≡ record { items = v.value } }
{
    let items = held_items(value);
    Program {
        items: items.value.into_list(),
    }
}
