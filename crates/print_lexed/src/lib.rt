//! Prints a program so that the text is read as the same program (docs/LANGUAGE.md, "Tokens", "Grammar").
#![tactic(auto)]

ghost use Rattle.std.specs.Prelude.{◌≡◌, IfOk, List, ℕ};
ghost use Rattle.print_lexed.specs.Read.{IsReadFrom};
ghost use Rattle.rust_ast.specs.declared.program.Program.{Program};
ghost use Rattle.rust_printer.specs.Bare.{Same};
ghost use Rattle.rust_printer.specs.Tok.{spelled};
ghost use Rattle.rust_printer.specs.Tokens.{program_tokens};

use aen_base::{NoMem, Text};
use rust_ast::Program;
use std::alloc::Global;

/// The text of a program, as `rust_printer::print` lays it out. Of a program that was read from a source the text is
/// lexed without a fault and read as the same program but for spans. The only error is want of memory.
pub fn print_source(alloc: Global, program: &Program) -> Result<Text, NoMem>
    ensures layout { IfOk result (λ t. t ≡ spelled (program_tokens program.now)) }
    ensures read_back { (source : List ℕ) → IsReadFrom source program.now → IfOk result (λ t. (q : Program) × (IsReadFrom t q × Same q program.now)) }
{
    rust_printer::print(alloc, program)
}
