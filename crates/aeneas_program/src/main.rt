//! The program `aeneas`: the words after its name, the system's files and standard output go to
//! the top call, whose answer is the status. Nothing goes to standard error.
#![tactic(auto)]

ghost use Rattle.std.specs.Prelude.{◌≡◌, drop, map};
ghost use Rattle.std.specs.Process.{exit_status};
ghost use Rattle.std.specs.String.{string_bytes};
ghost use Rattle.aeneas.specs.Answer.{sunk};
ghost use Rattle.aeneas.specs.Seen.{seen};
ghost use Rattle.aeneas_program.specs.Ends.{EndsAs};

use aen_io::{Files, RealFiles, RealSink, Sink};
use aeneas::aeneas;
use std::alloc::Global;
use std::process::ExitCode;
use std::{env, io};

/// The status where the words or the runtime can't be had: want of memory.
const WANT_OF_MEMORY: u8 = 99;

fn main(rt: HostRuntime) -> ExitCode {
    run(rt).unwrap_or(ExitCode::from(WANT_OF_MEMORY))
}

/// Runs the command that the process was started with.
fn run(rt: HostRuntime) -> io::Result<ExitCode> {
    let words = match words_of(&rt) {
        // A word that is no text is in no form of words, and no words are none either.
        Err(error) if error.kind() == io::ErrorKind::InvalidData => Vec::new(rt.alloc()),
        words => words?,
    };
    let mut files = RealFiles::new(rt.alloc(), rt.clone()?);
    let mut out = RealSink::new(io::writer(&rt));
    Ok(exit(rt.alloc(), &words, &mut files, &mut out))
}

/// The words that the process was started with, the program's name first.
fn words_of(rt: &HostRuntime) -> io::Result<Vec<String>> {
    let mut words = Vec::new(rt.alloc());
    for word in env::args(rt)? {
        words.push(word)?;
    }
    Ok(words)
}

/// Ends with the status of the top call on the words after the program's name.
fn exit<F: Files, K: Sink>(alloc: Global, words: &[String], files: &mut F, out: &mut K) -> ExitCode
    ensures { EndsAs (map string_bytes (drop 1 words.now)) (seen F.told F.handed F.faults files.old files.new) (sunk K.taken K.faults out.old out.new) (exit_status result) }
{
    ExitCode::from(aeneas(alloc, after_name(words), files, out))
}

/// The words after the first, in order.
fn after_name(words: &[String]) -> &[String]
    ensures { result.now ≡ drop 1 words.now }
{
    match words {
        [] => words,
        [_, rest @ ..] => rest,
    }
}
