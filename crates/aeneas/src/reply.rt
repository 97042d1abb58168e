ghost use Rattle.std.specs.Prelude.{◌≡◌, ◌++◌, IfOk, map};
ghost use Rattle.std.specs.String.{string_bytes};
ghost use Rattle.aen_io.specs.Handed.{since};
ghost use Rattle.aeneas.specs.Refusals.{IsRefusal};
ghost use Rattle.aeneas.specs.Reply.{IsReply};
ghost use Rattle.aeneas.specs.Seen.{seen};

use crate::check_file::check_file;
use crate::command::{Command, command_of};
use crate::eval_file::eval_file;
use crate::refusal::Refusal;
use crate::run_file::run_file;
use crate::translate_file::translate_file;
use aen_base::{NoMem, Text};
use aen_io::Files;
use std::alloc::Global;

/// What a command answers: its status, and the bytes that it writes.
#[derive(Drop)]
pub struct Reply {
    /// The status.
    pub status: u8,
    /// The bytes.
    pub text: Text,
}

/// A reply of one line. The only error is want of memory.
pub fn one_line(alloc: Global, status: u8, line: &str) -> Result<Reply, NoMem>
    ensures { IfOk result (λ r. (r.status ≡ status) × (r.text ≡ line.now)) }
{
    Ok(Reply {
        status,
        text: Text::from_str(alloc, line)?,
    })
}

/// The reply of a refusal. The only error is want of memory.
pub fn refused(alloc: Global, refusal: Refusal) -> Result<Reply, NoMem>
    ensures { IfOk result (λ r. IsRefusal refusal r.status r.text) }
{
    Ok(Reply {
        status: refusal.status(),
        text: refusal.line(alloc)?,
    })
}

/// The reply to a command's words. The only error is want of memory.
pub fn reply_to<F: Files>(alloc: Global, words: &[String], files: &mut F) -> Result<Reply, NoMem>
    ensures reply { IfOk result (λ r. IsReply (map string_bytes words.now) (seen F.told F.handed F.faults files.old files.new) r.status r.text) }
    ensures kept { F.told files.new ≡ F.told files.old }
    ensures grown { F.handed files.new ≡ F.handed files.old ++ since (F.handed files.old) (F.handed files.new) }
{
    match command_of(words) {
        None => refused(alloc, Refusal::Usage),
        Some(Command::Check(file)) => check_file(alloc, files, file),
        Some(Command::Translate(file)) => translate_file(alloc, files, file),
        Some(Command::Run(file, name, fuel, values)) => {
            run_file(alloc, files, file, name, fuel, values)
        }
        Some(Command::Eval(file, name, fuel, values)) => {
            eval_file(alloc, files, file, name, fuel, values)
        }
    }
}
