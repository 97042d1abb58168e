//! Code, with the code around the part in hand on a stack.

ghost use Rattle.std.specs.Prelude.{◌≡◌, ◌<◌, ◌*◌, IfOk};
ghost use Rattle.raw_ast.specs.Code.{rawarms, nodes_rawcode, nodes_rawarms};
ghost use Rattle.raw_meaning.specs.declared.outline.Outline.{Outline};
ghost use Rattle.text_trees.specs.Codes as spec;
ghost use Rattle.text_trees.specs.Told.{Gives, Leads};

use crate::SettleFault;
use crate::atoms::settle_atom;
use crate::computations::{settle_computation, settle_pattern};
use crate::lists::split_first;
use crate::rules::variable;
use aen_base::{List, NoMem};
use pure_ast::{Code, Comp, Pat, Term};
use raw_ast::{Pattern, RawCode, RawCodeNode};
use std::alloc::Global;
use text_names::Tables;

/// A part of code that waits for the code after it or in it.
#[derive(Drop)]
pub(crate) enum CodeFrame<'a> {
    /// A variable that takes a computation's value.
    Bound(u32, Comp),
    /// A variable that is a term.
    Put(u32, Term),
    /// A match, its arms before the one in hand, the pattern of that one, and the arms after it.
    Arm(Term, List<(Pat, Code)>, Pat, &'a [(Pattern, RawCode)]),
}

/// What a step leaves: code, or a part that is to be settled first.
#[derive(Drop)]
pub(crate) enum CodeStep<'a> {
    Whole(Code),
    Within(CodeFrame<'a>, &'a RawCode),
}

/// The code that is spelled so.
pub(crate) fn settle_code(
    alloc: Global,
    tables: &Tables,
    raw: &RawCode,
) -> Result<Code, SettleFault>
    ensures { Gives (spec.code_told tables.now raw.now) result }
{
    let mut stack = List::new(alloc);
    let mut step = begin(alloc, tables, raw)?;
    loop {
        match step {
            CodeStep::Within(frame, part) => {
                stack.push(frame)?;
                step = begin(alloc, tables, part)?;
            }
            CodeStep::Whole(code) => match stack.pop() {
                Some(frame) => step = put_in(alloc, tables, frame, code)?,
                None => return Ok(code),
            },
        }
    }
}

/// Begins code.
fn begin<'a>(alloc: Global, tables: &Tables, raw: &'a RawCode) -> Result<CodeStep<'a>, SettleFault>
    ensures meaning { Leads (spec.code_told tables.now raw.now) (spec.step_told tables.now) result }
    ensures cost { IfOk result (λ s. spec.step_cost s < 2 * nodes_rawcode raw.now) }
{
    match &raw.node {
        RawCodeNode::Bind(name, computation, rest) => {
            let number = variable(name)?;
            let computation = settle_computation(alloc, tables, computation)?;
            Ok(CodeStep::Within(CodeFrame::Bound(number, computation), rest.get()))
        }
        RawCodeNode::Let(name, atom, rest) => {
            let number = variable(name)?;
            let term = settle_atom(alloc, tables, atom)?;
            Ok(CodeStep::Within(CodeFrame::Put(number, term), rest.get()))
        }
        RawCodeNode::Match(atom, arms) => {
            let term = settle_atom(alloc, tables, atom)?;
            Ok(next_arm(alloc, tables, term, arms.as_slice(), List::new(alloc))?)
        }
        RawCodeNode::Last(computation) => {
            Ok(CodeStep::Whole(Code::last(settle_computation(alloc, tables, computation)?)))
        }
    }
}

/// Goes on with the first of the arms that are left.
fn next_arm<'a>(
    alloc: Global,
    tables: &Tables,
    term: Term,
    left: &'a [(Pattern, RawCode)],
    done: List<(Pat, Code)>,
) -> Result<CodeStep<'a>, SettleFault>
    ensures meaning { Leads (spec.matched tables.now term left.now done) (spec.step_told tables.now) result }
    ensures cost { IfOk result (λ s. spec.step_cost s < 2 * nodes_rawarms (rawarms left.now)) }
{
    match split_first(left) {
        Some((arm, rest)) => {
            let pattern = settle_pattern(alloc, tables, &arm.0)?;
            Ok(CodeStep::Within(CodeFrame::Arm(term, done, pattern, rest), &arm.1))
        }
        None => Ok(CodeStep::Whole(Code::select(term, done))),
    }
}

/// Puts code into what waits for it.
fn put_in<'a>(
    alloc: Global,
    tables: &Tables,
    frame: CodeFrame<'a>,
    code: Code,
) -> Result<CodeStep<'a>, SettleFault>
    ensures meaning { Leads (spec.frame_told tables.now frame.entry code) (spec.step_told tables.now) result }
    ensures cost { IfOk result (λ s. spec.step_cost s < spec.frame_cost frame.entry) }
{
    match frame {
        CodeFrame::Bound(number, computation) => {
            Ok(CodeStep::Whole(Code::bind(alloc, number, computation, code)?))
        }
        CodeFrame::Put(number, term) => {
            Ok(CodeStep::Whole(Code::put(alloc, number, term, code)?))
        }
        CodeFrame::Arm(term, done, pattern, left) => {
            let mut done = done;
            done.push((pattern, code))?;
            Ok(next_arm(alloc, tables, term, left, done)?)
        }
    }
}
