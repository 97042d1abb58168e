ghost use Rattle.std.specs.Prelude.{◌≡◌, ◌++◌, IfOk, map, slice_get, IsSomeAnd};
ghost use Rattle.std.specs.String.{string_bytes};
ghost use Rattle.source_meaning.specs.Typing.{IsTyped};
ghost use Rattle.pointer_machine.specs.Outcomes.{IsSettled};
ghost use Rattle.aen_io.specs.Handed.{since};
ghost use Rattle.aeneas.specs.Run.{RunReply, ProgramReply, CallReply, OutcomeReply, FaultReply};
ghost use Rattle.aeneas.specs.Seen.{seen};

use crate::limits::greatest;
use crate::refusal::Refusal;
use crate::reply::{Reply, one_line, refused};
use crate::source::{Source, source_of};
use aen_base::{FnId, NoMem, Text, Which, at};
use aen_io::Files;
use call_frame::{ArgFault, Outcome, arguments, function_named, print_value};
use pointer_machine::run;
use std::alloc::Global;
use sums_ast::Program;

/// `run FILE FN FUEL VALUE..`. The only error is want of memory.
pub fn run_file<F: Files>(
    alloc: Global,
    files: &mut F,
    file: &str,
    name: &str,
    fuel: u64,
    values: &[String],
) -> Result<Reply, NoMem>
    ensures reply { IfOk result (λ r. RunReply (seen F.told F.handed F.faults files.old files.new) file.now name.now (map string_bytes values.now) fuel r.status r.text) }
    ensures kept { F.told files.new ≡ F.told files.old }
    ensures grown { F.handed files.new ≡ F.handed files.old ++ since (F.handed files.old) (F.handed files.new) }
{
    if fuel > greatest(Which::Fuel) {
        return refused(alloc, Refusal::Limit(Which::Fuel, fuel));
    }
    match source_of(alloc, files, file)? {
        Source::Read(program) => run_program(alloc, &program, name, fuel, values),
        Source::Refused(refusal) => refused(alloc, refusal),
    }
}

/// Runs the function with a name.
fn run_program(
    alloc: Global,
    program: &Program,
    name: &str,
    fuel: u64,
    values: &[String],
) -> Result<Reply, NoMem>
    requires { IsTyped program.now }
    ensures { IfOk result (λ r. ProgramReply program.now name.now (map string_bytes values.now) fuel r.status r.text) }
{
    match function_named(program, name) {
        Some(function) => call(alloc, program, function, fuel, values),
        None => refused(alloc, Refusal::Name),
    }
}

/// Calls a function with the values that words write.
fn call(
    alloc: Global,
    program: &Program,
    f: FnId,
    fuel: u64,
    values: &[String],
) -> Result<Reply, NoMem>
    requires typed { IsTyped program.now }
    requires there { IsSomeAnd (slice_get program.now.functions f.0) (λ _. Unit {0}) }
    ensures { IfOk result (λ r. CallReply program.now f.0 (map string_bytes values.now) fuel r.status r.text) }
{
    let Some(function) = at(program.functions.as_slice(), f.0 as usize) else {
        unreachable!()
    };
    match arguments(alloc, function, values) {
        Ok(args) => outcome_reply(alloc, run(alloc, program, f, args.as_slice(), fuel)?),
        Err(fault) => fault_reply(alloc, fault),
    }
}

/// The refusal of words that are no arguments.
fn fault_reply(alloc: Global, fault: ArgFault) -> Result<Reply, NoMem>
    ensures { IfOk result (λ r. FaultReply fault r.status r.text) }
{
    match fault {
        ArgFault::WrongCount(expected, given) => refused(alloc, Refusal::Count(expected, given)),
        ArgFault::BadValue(place) => refused(alloc, Refusal::Argument(place)),
        ArgFault::Memory => Err(NoMem),
    }
}

/// The line of an outcome.
fn outcome_reply(alloc: Global, outcome: Outcome) -> Result<Reply, NoMem>
    requires { IsSettled outcome }
    ensures { IfOk result (λ r. OutcomeReply outcome r.status r.text) }
{
    match outcome {
        Outcome::Value(value) => {
            let text = print_value(alloc, &value)?;
            let written = text.as_str();
            let line = format!(in alloc; "value {written}\n")?;
            Ok(Reply {
                status: 0,
                text: Text::new(line),
            })
        }
        Outcome::Panic(_) => one_line(alloc, 20, "panic\n"),
        Outcome::More => one_line(alloc, 21, "more\n"),
        Outcome::Stuck(_) => unreachable!(),
    }
}
