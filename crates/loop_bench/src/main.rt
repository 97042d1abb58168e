//! Evaluates a loop of sums at a fuel of 1,000,000, past the limit of the command `eval`, for
//! `bench/bench.py` to measure. It prints the answer; its status is 0 where there is one.
#![tactic(auto)]

use aen_base::NoMem;
use aen_io::{RealSink, write_all};
use lean_reader::read_defs;
use std::alloc::Global;
use std::io;
use std::process::ExitCode;
use text_meaning::Answer;
use text_words::{def_named, print_atom, read_args};

/// Adds up the numbers from v1 to 1: a test and two sums a turn, three binds.
const TEXT: &str = "import AenPrelude
open AenPrelude

def fn.sum (n : Nat) (v0 : U64) (v1 : U64) : Result U64 :=
  match n with
  | 0 => outOfFuel
  | n + 1 => do
    let v2 ← U64.eq v1 0#U64;
    (match v2 with
    | true => do
      ok v0
    | false => do
      let v3 ← U64.add v0 v1;
      let v4 ← U64.sub v1 1#U64;
      fn.sum n v3 v4)
";

/// The fuel, which is one more than the turns.
const FUEL: u64 = 1_000_000;

fn main(rt: HostRuntime) -> ExitCode {
    let mut out = RealSink::new(io::writer(&rt));
    match answer_line(rt.alloc()) {
        Ok(Some(line)) if write_all(&mut out, line.as_bytes()).is_ok() => ExitCode::from(0),
        _ => ExitCode::from(1),
    }
}

/// The value of the loop, printed; None where it has none.
fn answer_line(alloc: Global) -> Result<Option<String>, NoMem> {
    let Ok(defs) = read_defs(alloc, TEXT) else {
        return Ok(None);
    };
    let Some(def) = def_named(&defs, "fn.sum") else {
        return Ok(None);
    };
    let mut words = Vec::new(alloc);
    words.push(String::from_str(alloc, "0#U64")?)?;
    words.push(String::from_str(alloc, "999999#U64")?)?;
    let Ok(args) = read_args(alloc, &defs, def, &[], words.as_slice()) else {
        return Ok(None);
    };
    match pure_eval::eval(alloc, &defs, def, args.as_slice(), FUEL)? {
        Answer::Ok(value) => {
            let atom = print_atom(alloc, &defs, &value)?;
            let printed = atom.as_str();
            Ok(Some(format!(in alloc; "{printed}\n")?))
        }
        _ => Ok(None),
    }
}
