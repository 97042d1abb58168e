ghost use Rattle.std.specs.Prelude.{◌^◌, ◌<◌, length, All};
ghost use Rattle.rust_lex.specs.Slices.{IsTokenOf};
ghost use Rattle.rust_reader.specs.Answers as spec;

use crate::fault::ReadFault;
use crate::program::program_or_fault;
use rust_ast::program::Program;
use rust_lex::Tokens;
use source_syntax::{first_excluded, lexemes_of, passed_limit};
use std::alloc::Global;

/// The program that the tokens of a text are: Ok exactly where they are one that keeps the limits on
/// nesting, depth and `else`, without excluded words and without a lexical fault; else the first cause
/// in this order: an excluded word, a limit, the grammar.
pub fn read(alloc: Global, text: &str, tokens: &Tokens) -> Result<Program, ReadFault>
    requires size { length text.now < 2 ^ 32 }
    requires slices { All (IsTokenOf text.now) tokens.now.list }
    ensures { spec.IsReading text.now tokens.now.list tokens.now.bad result }
{
    if let Some(span) = first_excluded(tokens.list.as_slice()) {
        return Err(ReadFault::Unsupported(span));
    }
    let lexemes = lexemes_of(alloc, text, tokens.list.as_slice())?;
    if let Some((which, count)) = passed_limit(alloc, lexemes.as_slice())? {
        return Err(ReadFault::Limit(which, count));
    }
    match program_or_fault(alloc, lexemes.as_slice(), tokens.bad, text.len() as u32)? {
        Ok(program) => Ok(program),
        Err(span) => Err(ReadFault::Syntax(span)),
    }
}
