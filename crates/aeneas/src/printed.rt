ghost use Rattle.std.specs.Prelude.{◌≡◌, ◌<◌, ◌^◌, ◌++◌, IfOk, length};
ghost use Rattle.aen_io.specs.Handed.{since};
ghost use Rattle.aeneas.specs.PrintedFound.{IsPrintedFound, IsPrintedFoundIn};
ghost use Rattle.aeneas.specs.Seen.{seen};

use crate::limits::greatest;
use crate::refusal::Refusal;
use aen_base::{NoMem, Which};
use aen_io::{Files, ReadAll, read_all};
use lean_reader::{LeanFault, read_defs};
use pure_ast::Defs;
use std::alloc::Global;

/// A file as a printed text: its definitions, or its refusal.
#[derive(Drop)]
pub enum Printed {
    /// The definitions that the file is.
    Read(Defs),
    /// Why the file is none.
    Refused(Refusal),
}

/// Reads a file as a printed text. The only error is want of memory.
pub fn printed_of<F: Files>(alloc: Global, files: &mut F, file: &str) -> Result<Printed, NoMem>
    ensures found { IfOk result (IsPrintedFound (seen F.told F.handed F.faults files.old files.new) file.now) }
    ensures kept { F.told files.new ≡ F.told files.old }
    ensures grown { F.handed files.new ≡ F.handed files.old ++ since (F.handed files.old) (F.handed files.new) }
{
    match read_all(alloc, files, file, greatest(Which::Text)) {
        Ok(content) => content_defs(alloc, &content),
        Err(ReadAll::Failed) => Ok(Printed::Refused(Refusal::Read)),
        Err(ReadAll::TooLong(count)) => Ok(Printed::Refused(Refusal::Limit(Which::Text, count))),
        Err(ReadAll::Memory) => Err(NoMem),
    }
}

/// The definitions that a content is.
fn content_defs(alloc: Global, content: &[u8]) -> Result<Printed, NoMem>
    requires { length content.now < 2 ^ 32 }
    ensures { IfOk result (IsPrintedFoundIn content.now) }
{
    match str::from_utf8(content) {
        Ok(text) => text_defs(alloc, text),
        Err(fault) => Ok(Printed::Refused(Refusal::Utf8(fault.valid_up_to() as u64))),
    }
}

/// The definitions that a text is.
fn text_defs(alloc: Global, text: &str) -> Result<Printed, NoMem>
    requires { length text.now < 2 ^ 32 }
    ensures { IfOk result (IsPrintedFoundIn text.now) }
{
    match read_defs(alloc, text) {
        Ok(defs) => Ok(Printed::Read(defs)),
        Err(LeanFault::Syntax(place)) => Ok(Printed::Refused(Refusal::Text(place))),
        Err(LeanFault::Limit(which, count)) => Ok(Printed::Refused(Refusal::Limit(which, count))),
        Err(LeanFault::Memory) => Err(NoMem),
    }
}
