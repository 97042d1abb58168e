ghost use Rattle.std.specs.Prelude.{◌≡◌, ◌<◌, ◌≤◌, ◌^◌, ◌++◌, IfOk, length};
ghost use Rattle.rust_ast.specs.declared.resolution.Function as resolution;
ghost use Rattle.rust_names.specs.Naming.{Each, Differ, function_names};
ghost use Rattle.aen_io.specs.Handed.{since};
ghost use Rattle.aeneas.specs.Seen.{seen};
ghost use Rattle.aeneas.specs.SourceFound.{IsFound, IsFoundIn, IsFoundResolved, IsFoundWritten, IsRefusedAs, IsUnread};

use crate::limits::greatest;
use crate::refusal::Refusal;
use aen_base::{NoMem, Which};
use aen_io::{Files, ReadAll, read_all};
use rust_ast::Resolved;
use rust_lex::lex;
use rust_names::{NameFault, resolve};
use rust_reader::{ReadFault, read};
use rust_sums::{SumsFault, sums_of};
use std::alloc::Global;
use sums_ast::Program;

/// A file as a source: its program, or its refusal.
#[derive(Drop)]
pub enum Source {
    /// The program that the file is.
    Read(Program),
    /// Why the file is none.
    Refused(Refusal),
}

/// Reads a file as a source. The only error is want of memory.
pub fn source_of<F: Files>(alloc: Global, files: &mut F, file: &str) -> Result<Source, NoMem>
    ensures found { IfOk result (IsFound (seen F.told F.handed F.faults files.old files.new) file.now) }
    ensures kept { F.told files.new ≡ F.told files.old }
    ensures grown { F.handed files.new ≡ F.handed files.old ++ since (F.handed files.old) (F.handed files.new) }
{
    match read_all(alloc, files, file, greatest(Which::Source)) {
        Ok(content) => content_program(alloc, &content),
        Err(ReadAll::Failed) => Ok(Source::Refused(Refusal::Read)),
        Err(ReadAll::TooLong(count)) => Ok(Source::Refused(Refusal::Limit(Which::Source, count))),
        Err(ReadAll::Memory) => Err(NoMem),
    }
}

/// The program that a content is.
fn content_program(alloc: Global, content: &[u8]) -> Result<Source, NoMem>
    requires { length content.now < 2 ^ 32 }
    ensures { IfOk result (IsFoundIn content.now) }
{
    match str::from_utf8(content) {
        Ok(text) => text_program(alloc, text),
        Err(fault) => Ok(Source::Refused(Refusal::Utf8(fault.valid_up_to() as u64))),
    }
}

/// The program that a text is.
fn text_program(alloc: Global, text: &str) -> Result<Source, NoMem>
    requires { length text.now < 2 ^ 32 }
    ensures { IfOk result (IsFoundIn text.now) }
{
    let tokens = lex(alloc, text)?;
    match read(alloc, text, &tokens) {
        Ok(program) => written_program(alloc, &program),
        Err(fault) => unread(fault),
    }
}

/// The refusal of tokens that are no program.
fn unread(fault: ReadFault) -> Result<Source, NoMem>
    ensures { IfOk result (IsUnread fault) }
{
    match fault {
        ReadFault::Unsupported(span) => Ok(Source::Refused(Refusal::Unsupported(span))),
        ReadFault::Limit(which, count) => Ok(Source::Refused(Refusal::Limit(which, count))),
        ReadFault::Syntax(span) => Ok(Source::Refused(Refusal::Syntax(span))),
        ReadFault::Memory => Err(NoMem),
    }
}

/// The program that a program as it is written is.
fn written_program(alloc: Global, program: &rust_ast::Program) -> Result<Source, NoMem>
    ensures { IfOk result (IsFoundWritten program.now) }
{
    match resolve(alloc, program) {
        Ok(resolved) => resolved_program(alloc, &resolved),
        Err(fault) => unresolved(fault),
    }
}

/// The refusal of names.
fn unresolved(fault: NameFault) -> Result<Source, NoMem>
    ensures { IfOk result (IsRefusedAs fault) }
{
    match fault {
        NameFault::Unknown(span) => Ok(Source::Refused(Refusal::Unknown(span))),
        NameFault::Twice(first, second) => Ok(Source::Refused(Refusal::Twice(first, second))),
        NameFault::Limit(which, count) => Ok(Source::Refused(Refusal::Limit(which, count))),
        NameFault::Memory => Err(NoMem),
    }
}

/// The program that a program with names resolved is.
fn resolved_program(alloc: Global, resolved: &Resolved) -> Result<Source, NoMem>
    requires few { Each (λ (f : resolution.Function). length f.variables ≤ 1000) resolved.now.functions }
    requires differ { Differ (function_names resolved.now.functions) }
    ensures { IfOk result (IsFoundResolved resolved.now) }
{
    match sums_of(alloc, resolved) {
        Ok(program) => Ok(Source::Read(program)),
        Err(SumsFault::Outside) => Ok(Source::Refused(Refusal::Later)),
        Err(SumsFault::Memory) => Err(NoMem),
    }
}
