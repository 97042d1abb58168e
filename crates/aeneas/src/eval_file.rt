ghost use Rattle.std.specs.Prelude.{◌≡◌, ◌<◌, ◌^◌, ◌++◌, IfOk, All, length, map};
ghost use Rattle.std.specs.String.{string_bytes, string_len};
ghost use Rattle.text_meaning.specs.WellFormed.{IsWellFormed};
ghost use Rattle.aen_io.specs.Handed.{since};
ghost use Rattle.aeneas.specs.Eval.{EvalReply, DefsReply, EvaluationReply, AnswerReply, ArgFaultReply};
ghost use Rattle.aeneas.specs.Seen.{seen};

use crate::definition_word::definition_word;
use crate::limits::greatest;
use crate::printed::{Printed, printed_of};
use crate::refusal::Refusal;
use crate::reply::{Reply, one_line, refused};
use aen_base::{DefId, NoMem, Text, Which};
use aen_io::Files;
use pure_ast::Defs;
use pure_eval::eval;
use std::alloc::Global;
use text_meaning::Answer;
use text_words::{ArgFault, def_named, print_atom, read_args};

/// `eval FILE DEF FUEL VALUE..`. The only error is want of memory.
pub fn eval_file<F: Files>(
    alloc: Global,
    files: &mut F,
    file: &str,
    word: &str,
    fuel: u64,
    values: &[String],
) -> Result<Reply, NoMem>
    requires short { length word.now < 2 ^ 32 }
    requires short_values { All (λ w. string_len w < 2 ^ 32) values.now }
    ensures reply { IfOk result (λ r. EvalReply (seen F.told F.handed F.faults files.old files.new) file.now word.now (map string_bytes values.now) fuel r.status r.text) }
    ensures kept { F.told files.new ≡ F.told files.old }
    ensures grown { F.handed files.new ≡ F.handed files.old ++ since (F.handed files.old) (F.handed files.new) }
{
    if fuel > greatest(Which::Fuel) {
        return refused(alloc, Refusal::Limit(Which::Fuel, fuel));
    }
    match printed_of(alloc, files, file)? {
        Printed::Read(defs) => eval_word(alloc, &defs, word, fuel, values),
        Printed::Refused(refusal) => refused(alloc, refusal),
    }
}

/// Evaluates the definition that DEF names.
fn eval_word(
    alloc: Global,
    defs: &Defs,
    word: &str,
    fuel: u64,
    values: &[String],
) -> Result<Reply, NoMem>
    requires well_formed { IsWellFormed defs.now }
    requires short { length word.now < 2 ^ 32 }
    requires short_values { All (λ w. string_len w < 2 ^ 32) values.now }
    ensures { IfOk result (λ r. DefsReply defs.now word.now (map string_bytes values.now) fuel r.status r.text) }
{
    let Some(parts) = definition_word(alloc, word)? else {
        return refused(alloc, Refusal::Name);
    };
    match def_named(defs, parts.name) {
        None => refused(alloc, Refusal::Name),
        Some(def) => eval_definition(alloc, defs, def, parts.types.as_slice(), fuel, values),
    }
}

/// Evaluates a definition with the types and values that words write.
fn eval_definition(
    alloc: Global,
    defs: &Defs,
    def: DefId,
    types: &[String],
    fuel: u64,
    values: &[String],
) -> Result<Reply, NoMem>
    requires well_formed { IsWellFormed defs.now }
    requires known { def.0 < length defs.now.defs }
    requires short_types { All (λ w. string_len w < 2 ^ 32) types.now }
    requires short_values { All (λ w. string_len w < 2 ^ 32) values.now }
    ensures { IfOk result (λ r. EvaluationReply defs.now def.0 (map string_bytes types.now) (map string_bytes values.now) fuel r.status r.text) }
{
    match read_args(alloc, defs, def, types, values) {
        Ok(args) => answer_reply(alloc, defs, eval(alloc, defs, def, args.as_slice(), fuel)?),
        Err(fault) => arg_fault_reply(alloc, fault),
    }
}

/// The refusal of words that are no types or arguments.
fn arg_fault_reply(alloc: Global, fault: ArgFault) -> Result<Reply, NoMem>
    ensures { IfOk result (λ r. ArgFaultReply fault r.status r.text) }
{
    match fault {
        ArgFault::Types => refused(alloc, Refusal::Types),
        ArgFault::WrongCount(expected, given) => refused(alloc, Refusal::Count(expected, given)),
        ArgFault::BadValue(place) => refused(alloc, Refusal::Argument(place)),
        ArgFault::Memory => Err(NoMem),
    }
}

/// The line of an answer.
fn answer_reply(alloc: Global, defs: &Defs, answer: Answer) -> Result<Reply, NoMem>
    ensures { IfOk result (λ r. AnswerReply defs.now answer r.status r.text) }
{
    match answer {
        Answer::Ok(value) => {
            let atom = print_atom(alloc, defs, &value)?;
            let written = atom.as_str();
            let line = format!(in alloc; "ok {written}\n")?;
            Ok(Reply {
                status: 0,
                text: Text::new(line),
            })
        }
        Answer::Fail(_) => one_line(alloc, 20, "fail\n"),
        Answer::OutOfFuel => one_line(alloc, 21, "outOfFuel\n"),
        Answer::Stuck => one_line(alloc, 22, "stuck\n"),
    }
}
