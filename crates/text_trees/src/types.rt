//! Types, with the types around the one in hand on a stack.

ghost use Rattle.std.specs.Prelude.{◌≡◌, ◌<◌, ◌*◌, ℕ, List, IfOk};
ghost use Rattle.raw_ast.specs.Types.{rawtypes, nodes_rawtype, nodes_rawtypes};
ghost use Rattle.raw_meaning.specs.declared.outline.Outline.{Outline};
ghost use Rattle.raw_meaning.specs.Faults.{type_faults};
ghost use Rattle.raw_meaning.specs.Trees.{type_tree};
ghost use Rattle.text_trees.specs.Told.{Gives, Leads, Settled};
ghost use Rattle.text_trees.specs.Types as spec;

use crate::SettleFault;
use crate::lists::split_first;
use crate::rules::type_name;
use aen_base::{List, NoMem, TypeId};
use pure_ast::PTy;
use raw_ast::{RawType, RawTypeNode, Spelling};
use std::alloc::Global;
use text_names::{Names, Tables, TypeName};

/// A type that waits for one of its parts.
#[derive(Drop)]
pub(crate) enum TypeFrame<'a> {
    /// A product, or a declared type's arguments: the parts that come after it, and those before it.
    Listed(Option<TypeId>, &'a [RawType], List<PTy>),
    /// A loop's way out whose break is in hand, and the type of its return.
    First(&'a RawType),
    /// A loop's way out whose return is in hand, and the type of its break.
    Second(PTy),
}

/// What a step leaves: a type, or a part that is to be settled first.
#[derive(Drop)]
pub(crate) enum TypeStep<'a> {
    Whole(PTy),
    Within(TypeFrame<'a>, &'a RawType),
}

/// The type that is spelled so, in a declaration with these type parameters; the tables tell what the
/// text declares.
///
/// # Errors
/// `Broken` exactly at the first place where a rule beside the grammar is broken, of a type that breaks
/// one; `Memory` for want of memory, which may come at any type.
pub fn type_of(
    alloc: Global,
    tables: &Tables,
    parameters: &Names,
    raw: &RawType,
) -> Result<PTy, SettleFault>
    ensures { Settled (type_faults tables.now parameters.now raw.now) (type_tree tables.now parameters.now raw.now) result }
{
    settle_type(alloc, tables, parameters, raw)
}

/// The type that is spelled so.
pub(crate) fn settle_type(
    alloc: Global,
    tables: &Tables,
    parameters: &Names,
    raw: &RawType,
) -> Result<PTy, SettleFault>
    ensures { Gives (spec.type_told tables.now parameters.now raw.now) result }
{
    let mut stack = List::new(alloc);
    let mut step = begin(alloc, tables, parameters, raw)?;
    loop {
        match step {
            TypeStep::Within(frame, part) => {
                stack.push(frame)?;
                step = begin(alloc, tables, parameters, part)?;
            }
            TypeStep::Whole(ty) => match stack.pop() {
                Some(frame) => step = put_in(alloc, frame, ty)?,
                None => return Ok(ty),
            },
        }
    }
}

/// Begins a type.
fn begin<'a>(
    alloc: Global,
    tables: &Tables,
    parameters: &Names,
    raw: &'a RawType,
) -> Result<TypeStep<'a>, SettleFault>
    ensures meaning { Leads (spec.type_told tables.now parameters.now raw.now) (spec.step_told tables.now parameters.now) result }
    ensures cost { IfOk result (λ s. spec.step_cost s < 3 * nodes_rawtype raw.now) }
{
    match &raw.node {
        RawTypeNode::Int(int) => Ok(TypeStep::Whole(PTy::int(*int))),
        RawTypeNode::Bool => Ok(TypeStep::Whole(PTy::bool_type())),
        RawTypeNode::Unit => Ok(TypeStep::Whole(PTy::unit())),
        RawTypeNode::Prod(parts) => Ok(next_part(None, parts.as_slice(), List::new(alloc))),
        RawTypeNode::Named(name, arguments) => {
            begin_named(alloc, tables, parameters, name, arguments.as_slice())
        }
        RawTypeNode::Exit(broken, returned) => {
            Ok(TypeStep::Within(TypeFrame::First(returned.get()), broken.get()))
        }
    }
}

/// Begins a type parameter, or a declared type with its arguments.
fn begin_named<'a>(
    alloc: Global,
    tables: &Tables,
    parameters: &Names,
    name: &Spelling,
    arguments: &'a [RawType],
) -> Result<TypeStep<'a>, SettleFault>
    ensures meaning { Leads (spec.named_told tables.now parameters.now name.now arguments.now) (spec.step_told tables.now parameters.now) result }
    ensures cost { IfOk result (λ s. spec.step_cost s < 3 * nodes_rawtypes (rawtypes arguments.now)) }
{
    match type_name(tables, parameters, name, arguments.len())? {
        TypeName::Parameter(place) => Ok(TypeStep::Whole(PTy::parameter(place))),
        TypeName::Declared(number) => {
            let head = Some(TypeId(number));
            Ok(next_part(head, arguments, List::new(alloc)))
        }
    }
}

/// Goes on with the first of the parts that are left.
fn next_part<'a>(head: Option<TypeId>, left: &'a [RawType], done: List<PTy>) -> TypeStep<'a>
    ensures meaning { (h : Outline) → (ps : List (List ℕ)) → spec.listed h ps head left.now done ≡ spec.step_told h ps result }
    ensures cost { spec.step_cost result < 3 * nodes_rawtypes (rawtypes left.now) }
{
    match split_first(left) {
        Some((part, rest)) => TypeStep::Within(TypeFrame::Listed(head, rest, done), part),
        None => TypeStep::Whole(made(head, done)),
    }
}

/// A product, or a declared type with its arguments.
fn made(head: Option<TypeId>, parts: List<PTy>) -> PTy
    ensures { result ≡ spec.made head parts }
{
    match head {
        None => PTy::product(parts),
        Some(id) => PTy::named(id, parts),
    }
}

/// Puts a part into the type that waits for it.
fn put_in<'a>(alloc: Global, frame: TypeFrame<'a>, ty: PTy) -> Result<TypeStep<'a>, NoMem>
    ensures meaning { IfOk result (λ s. (h : Outline) → (ps : List (List ℕ)) → spec.frame_told h ps frame.entry ty ≡ spec.step_told h ps s) }
    ensures cost { IfOk result (λ s. spec.step_cost s < spec.frame_cost frame.entry) }
{
    match frame {
        TypeFrame::Listed(head, left, done) => {
            let mut done = done;
            done.push(ty)?;
            Ok(next_part(head, left, done))
        }
        TypeFrame::First(returned) => Ok(TypeStep::Within(TypeFrame::Second(ty), returned)),
        TypeFrame::Second(broken) => Ok(TypeStep::Whole(PTy::exit(alloc, broken, ty)?)),
    }
}
