//! Prints a program as a source: its tokens, each with a blank after it (docs/LANGUAGE.md, "Grammar").
#![tactic(auto)]

mod expressions;
mod forms;
mod items;
mod patterns;
mod put;
mod types;
mod words;

ghost use Rattle.std.specs.Prelude.{◌≡◌, IfOk, List};
ghost use Rattle.rust_ast.specs.declared.program.Program.{Program};
ghost use Rattle.rust_printer.specs.Bare.{Same};
ghost use Rattle.rust_printer.specs.Laid.{Laid};
ghost use Rattle.rust_printer.specs.ReadFrom.{IsRead};
ghost use Rattle.rust_printer.specs.Tok.{spelled};
ghost use Rattle.rust_printer.specs.Tokens.{program_tokens};
ghost use Rattle.source_grammar.specs.declared.lexeme.Lexeme.{Lexeme};
ghost use Rattle.source_ways.specs.Reading.{Reads};

use aen_base::{NoMem, Text};
use rust_ast::Program;
use std::alloc::Global;

/// The text of a program, in time linear in its length: its tokens, each with a blank after it but for
/// the dot of a field. The only error is want of memory.
#[tactic(auto, using(crate::proofs::SpelledItems::as_spelled))]
pub fn print(alloc: Global, program: &Program) -> Result<Text, NoMem>
    ensures layout { IfOk result (λ t. t ≡ spelled (program_tokens program.now)) }
    ensures read_back { IsRead program.now → (ls : List Lexeme) → Laid 0 (program_tokens program.now) ls → (q : Program) × (Reads ls q × Same q program.now) }
{
    let mut out = String::new(alloc);
    items::put_items(&mut out, program.items.as_slice())?;
    Ok(Text::new(out))
}
