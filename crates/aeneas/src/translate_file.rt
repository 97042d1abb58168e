ghost use Rattle.std.specs.Prelude.{◌≡◌, ◌++◌, IfOk};
ghost use Rattle.source_meaning.specs.Typing.{IsTyped};
ghost use Rattle.aen_io.specs.Handed.{since};
ghost use Rattle.text_meaning.specs.WellFormedTypes.{AreNames};
ghost use Rattle.aeneas.specs.Reply.{TranslateReply};
ghost use Rattle.aeneas.specs.Source.{function_names};
ghost use Rattle.aeneas.specs.Translation.{IsTextOf};
ghost use Rattle.aeneas.specs.Seen.{seen};

use crate::reply::{Reply, refused};
use crate::source::{Source, source_of};
use aen_base::{NoMem, Text};
use aen_io::Files;
use lean_printer::print;
use std::alloc::Global;
use sums_ast::Program;
use translate::translate;

/// `translate FILE`. The only error is want of memory.
pub fn translate_file<F: Files>(alloc: Global, files: &mut F, file: &str) -> Result<Reply, NoMem>
    ensures reply { IfOk result (λ r. TranslateReply (seen F.told F.handed F.faults files.old files.new) file.now r.status r.text) }
    ensures kept { F.told files.new ≡ F.told files.old }
    ensures grown { F.handed files.new ≡ F.handed files.old ++ since (F.handed files.old) (F.handed files.new) }
{
    match source_of(alloc, files, file)? {
        Source::Read(program) => {
            let text = text_of(alloc, &program)?;
            Ok(Reply { status: 0, text })
        }
        Source::Refused(refusal) => refused(alloc, refusal),
    }
}

/// The text of a program's definitions.
fn text_of(alloc: Global, program: &Program) -> Result<Text, NoMem>
    requires typed { IsTyped program.now }
    requires names { AreNames (function_names program.now) }
    ensures { IfOk result (IsTextOf program.now) }
{
    let defs = translate(alloc, program)?;
    print(alloc, &defs)
}
