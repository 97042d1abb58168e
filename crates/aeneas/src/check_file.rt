ghost use Rattle.std.specs.Prelude.{◌≡◌, ◌++◌, IfOk};
ghost use Rattle.aen_io.specs.Handed.{since};
ghost use Rattle.aeneas.specs.Reply.{CheckReply};
ghost use Rattle.aeneas.specs.Seen.{seen};

use crate::reply::{Reply, one_line, refused};
use crate::source::{Source, source_of};
use aen_base::NoMem;
use aen_io::Files;
use std::alloc::Global;

/// `check FILE`. The only error is want of memory.
pub fn check_file<F: Files>(alloc: Global, files: &mut F, file: &str) -> Result<Reply, NoMem>
    ensures reply { IfOk result (λ r. CheckReply (seen F.told F.handed F.faults files.old files.new) file.now r.status r.text) }
    ensures kept { F.told files.new ≡ F.told files.old }
    ensures grown { F.handed files.new ≡ F.handed files.old ++ since (F.handed files.old) (F.handed files.new) }
{
    match source_of(alloc, files, file)? {
        Source::Read(_program) => one_line(alloc, 0, "accepted\n"),
        Source::Refused(refusal) => refused(alloc, refusal),
    }
}
