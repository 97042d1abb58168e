//! Calls and constructors: what is found before the arguments, and what is decided after them.
ghost use Rattle.std.specs.Prelude.{◌≡◌, IfOk, OnOk, Ok};
ghost use Rattle.core_ty.specs.Types as t;
ghost use Rattle.rust_ast.specs.Spelled as s;
ghost use Rattle.type_calls.specs.Called.{as_callee};
ghost use Rattle.type_calls.specs.Wholes as wholes;
ghost use Rattle.type_calls.specs.Rows.{as_rows};
ghost use Rattle.type_rules.specs.Arguments as arguing;
ghost use Rattle.type_rules.specs.Calls as spec;
ghost use Rattle.type_rules.specs.Matching as matching;
ghost use Rattle.type_rules.specs.Places as places;
ghost use Rattle.type_values.specs.Gives.{Answers, Gives};

use crate::callees::Callee;
use crate::finds::{
    begun, copy_finds, finds_reference, found_types, is_known, lacks_type, put_found,
};
use crate::matching::matched;
use aen_base::{List, NoMem, Span, Which};
use core_ty::Ty;
use region_sigs::is_large;
use rust_ast::resolved::{self, CalleeNode};
use rust_ast::spelled::{self, Form, FormNode, Val};
use std::alloc::Global;
use type_rules::forms::{Expected, ExpectedNode, Raw};
use type_rules::{KindOfFault, State};
use type_values::TypeFault;
use type_values::expecting::is_mismatch;
use type_values::values::{gives, of_type};
use type_values::written::is_wrong_list;

/// What is found before the arguments of a call, and what is wrong with it by then.
#[derive(Drop)]
pub struct Begun {
    /// What is found of the type parameters.
    pub finds: List<Option<Ty>>,
    /// Whether a type that holds a reference was found from the expected type.
    pub nested: bool,
    /// Whether there are several lists of type arguments, or one of a wrong length.
    pub wrong: bool,
}

/// Whether there are several lists, or one of a wrong length.
fn are_wrong(count: usize, lists: &[List<Ty>]) -> bool
    ensures { result ≡ spec.is_wrong_lists count lists.now }
{
    lists.len() > 1 || is_wrong_list(count, lists)
}

/// The types of the first list. The only error is want of memory, here and below.
fn first_begun(alloc: Global, count: usize, lists: &[List<Ty>]) -> Result<List<Option<Ty>>, NoMem>
    ensures { IfOk result (λ f. f ≡ wholes.first_begun count lists.now) }
{
    match lists {
        [] => begun(alloc, count, &[]),
        [first, _rest @ ..] => begun(alloc, count, first.as_slice()),
    }
}

/// Finds what the expected type tells of the type of a result.
fn find_expected(
    alloc: Global,
    given: &Ty,
    expected: &Expected,
    finds: &mut List<Option<Ty>>,
) -> Result<(), NoMem>
    ensures { OnOk result (finds.new ≡ wholes.finds_expected given.now finds.old expected.now) }
{
    match &expected.node {
        ExpectedNode::None => Ok(()),
        ExpectedNode::Hint(ty) => find_match(alloc, given, ty, finds),
        ExpectedNode::Want(ty) => find_match(alloc, given, ty, finds),
    }
}

/// Finds what a type with parameters matches.
fn find_match(
    alloc: Global,
    pattern: &Ty,
    ty: &Ty,
    finds: &mut List<Option<Ty>>,
) -> Result<(), NoMem>
    ensures { OnOk result (finds.new ≡ (matching.matched pattern.now ty.now finds.old).1) }
{
    matched(alloc, pattern, ty, finds)?;
    Ok(())
}

/// What is found before the arguments: from the type arguments that are written, then from what is
/// expected of the result.
pub fn begin(
    alloc: Global,
    callee: &Callee,
    lists: &[List<Ty>],
    expected: &Expected,
) -> Result<Begun, NoMem>
    ensures finds { IfOk result (λ b. b.finds ≡ wholes.finds_first callee.now.types callee.now.result lists.now expected.now) }
    ensures nested { IfOk result (λ b. b.nested ≡ matching.finds_reference (wholes.first_begun callee.now.types lists.now) b.finds) }
    ensures wrong { IfOk result (λ b. b.wrong ≡ spec.is_wrong_lists callee.now.types lists.now) }
{
    let before = first_begun(alloc, callee.types, lists)?;
    let mut finds = copy_finds(alloc, before.as_slice())?;
    find_expected(alloc, &callee.result, expected, &mut finds)?;
    let nested = finds_reference(before.as_slice(), finds.as_slice());
    let wrong = are_wrong(callee.types, lists);
    Ok(Begun {
        finds,
        nested,
        wrong,
    })
}

/// A call as a whole: where it stands, whether a type that holds a reference was found before its
/// arguments, whether its type arguments are wrong, and whether its arguments have names.
#[derive(Clone, Copy, PartialEq, Eq)]
pub struct Whole {
    pub span: Span,
    pub nested: bool,
    pub wrong: bool,
    pub braces: bool,
}

/// Arguments with the numbers of their parameters, and what is found by them.
#[derive(Drop)]
pub struct Arguments {
    pub parts: List<(u32, Val)>,
    pub finds: List<Option<Ty>>,
}

/// The rows that may hold at the whole, after its arguments.
#[derive(Clone, Copy, PartialEq, Eq)]
struct Rows {
    nested: bool,
    lacks: bool,
    wrong: bool,
    missing: bool,
}

/// The rows of a call.
#[tactic(auto, using(crate::proofs::Parts::counted))]
fn rows_of(whole: Whole, callee: &Callee, arguments: &Arguments) -> Rows
    ensures { as_rows result ≡ wholes.rows_of whole (as_callee callee.now) arguments.now.parts arguments.now.finds }
{
    let given = arguments.parts.len();
    let wanted = callee.params.len();
    Rows {
        nested: whole.nested,
        lacks: lacks_type(arguments.finds.as_slice()),
        wrong: whole.wrong || (!whole.braces && given != wanted),
        missing: whole.braces && given < wanted,
    }
}

/// The type of a result, or the first row that holds.
fn refuse_rows(
    rows: Rows,
    known: bool,
    ty: Ty,
    span: Span,
    expected: &Expected,
) -> Result<Ty, TypeFault>
    ensures { Answers (spec.whole_rows (as_rows rows) known ty span expected.now (Ok ty)) result }
{
    let told = (rows.lacks || rows.wrong || rows.missing) && known;
    if rows.nested {
        return Err(TypeFault::At(span, KindOfFault::NestedBorrow));
    }
    if told && is_large(&ty) {
        return Err(TypeFault::Limit(Which::TypeNodes, 1_001));
    }
    if told && is_mismatch(expected, &ty) {
        return Err(TypeFault::At(span, KindOfFault::Mismatch));
    }
    if rows.lacks {
        return Err(TypeFault::At(span, KindOfFault::NoType));
    }
    if rows.wrong {
        return Err(TypeFault::At(span, KindOfFault::Arity));
    }
    if rows.missing {
        return Err(TypeFault::At(span, KindOfFault::Field));
    }
    Ok(ty)
}

/// The type of a call's result after its arguments, or the first row that holds at the whole.
fn result_type(
    alloc: Global,
    whole: Whole,
    callee: &Callee,
    expected: &Expected,
    arguments: &Arguments,
) -> Result<Ty, TypeFault>
    ensures { Answers (wholes.result_type whole (as_callee callee.now) expected.now arguments.now.parts arguments.now.finds) result }
{
    let known = is_known(arguments.finds.as_slice(), &callee.result);
    let ty = put_found(alloc, arguments.finds.as_slice(), &callee.result)?;
    let rows = rows_of(whole, callee, arguments);
    refuse_rows(rows, known, ty, whole.span, expected)
}

/// The values of arguments in order.
#[tactic(auto, using(crate::proofs::Parts::seconds_onto))]
fn values_of(alloc: Global, parts: List<(u32, Val)>) -> Result<List<Val>, NoMem>
    ensures { IfOk result (λ vs. vs ≡ wholes.seconds parts) }
{
    let mut rest = parts;
    match rest.pop() {
        Some((_, value)) => {
            let mut values = values_of(alloc, rest)?;
            values.push(value)?;
            Ok(values)
        }
        None => Ok(List::new(alloc)),
    }
}

/// A call of a function.
#[tactic(auto, using(crate::proofs::Parts::values_are))]
fn call_form(alloc: Global, callee: spelled::Callee, arguments: Arguments) -> Result<Form, NoMem>
    ensures { IfOk result (λ n. n ≡ s.call callee (t.tys (matching.found_types arguments.finds)) (arguing.values_of (s.parts arguments.parts))) }
{
    let Arguments { parts, finds } = arguments;
    let types = found_types(alloc, finds.as_slice())?;
    let values = values_of(alloc, parts)?;
    Ok(Form {
        node: FormNode::Call(callee, types, values),
    })
}

/// What is built of arguments.
fn call_node(alloc: Global, called: &resolved::Callee, arguments: Arguments) -> Result<Form, NoMem>
    ensures { IfOk result (λ n. n ≡ spec.call_node called.now arguments.finds (s.parts arguments.parts)) }
{
    match &called.node {
        CalleeNode::Function(number) => {
            let node = spelled::CalleeNode::Function(*number);
            call_form(alloc, spelled::Callee { node }, arguments)
        }
        CalleeNode::BuiltinOf(builtin) => {
            let node = spelled::CalleeNode::BuiltinOf(*builtin);
            call_form(alloc, spelled::Callee { node }, arguments)
        }
        CalleeNode::Constructor(decl, variant) => {
            let Arguments { parts, finds: _ } = arguments;
            Ok(Form {
                node: FormNode::Construct(*decl, *variant, parts),
            })
        }
    }
}

/// A call that has this type.
fn built(
    alloc: Global,
    span: Span,
    called: &resolved::Callee,
    ty: Ty,
    arguments: Arguments,
    state: &State,
) -> Result<Raw, TypeFault>
    ensures { Gives (places.gives (places.of_type ty span (spec.call_node called.now arguments.finds (s.parts arguments.parts))) state.now) result state.now }
{
    let form = call_node(alloc, called, arguments)?;
    let raw = of_type(alloc, ty, span, form)?;
    gives(raw, state)
}

/// What a call gives after its arguments. At fault, in this order: `NestedBorrow`, `Limit` and
/// `Mismatch` where something lacks or is wrong and the type of the result is known all the same,
/// `NoType`, `Arity`, `Field`, `Limit`.
pub fn finish(
    alloc: Global,
    whole: Whole,
    called: &resolved::Callee,
    callee: &Callee,
    expected: &Expected,
    arguments: Arguments,
    state: &State,
) -> Result<Raw, TypeFault>
    ensures { Gives (wholes.finished_call whole called.now (as_callee callee.now) expected.now arguments.parts arguments.finds state.now) result state.now }
{
    let ty = result_type(alloc, whole, callee, expected, &arguments)?;
    built(alloc, whole.span, called, ty, arguments, state)
}
