ghost use Rattle.std.specs.Prelude.{◌≡◌, ◌++◌, ℕ, List, map};
ghost use Rattle.std.specs.String.{string_bytes};
ghost use Rattle.aen_io.specs.Handed.{since};
ghost use Rattle.aeneas.specs.Answer.{Answers, Translates, sunk};
ghost use Rattle.aeneas.specs.Seen.{seen};
ghost use Rattle.aeneas.specs.Words.{IsTranslate};

use crate::reply::reply_to;
use aen_io::{Files, Sink, write_all};
use std::alloc::Global;

/// The program: does what the words say, writes the reply to `out`, and answers the status.
pub fn aeneas<F: Files, K: Sink>(alloc: Global, words: &[String], files: &mut F, out: &mut K) -> u8
    ensures answer { Answers (map string_bytes words.now) (seen F.told F.handed F.faults files.old files.new) (sunk K.taken K.faults out.old out.new) result }
    ensures headline { result ≡ 0 → (file : List ℕ) → IsTranslate (map string_bytes words.now) file → Translates (seen F.told F.handed F.faults files.old files.new) file (sunk K.taken K.faults out.old out.new) }
    ensures kept { F.told files.new ≡ F.told files.old }
    ensures grown { F.handed files.new ≡ F.handed files.old ++ since (F.handed files.old) (F.handed files.new) }
{
    let Ok(reply) = reply_to(alloc, words, files) else {
        return 99;
    };
    match write_all(out, reply.text.as_bytes()) {
        Ok(()) => reply.status,
        Err(_) => 3,
    }
}
