//! Atoms, with the atoms around the one in hand on a stack.

ghost use Rattle.std.specs.Prelude.{◌≡◌, ◌<◌, IfOk};
ghost use Rattle.raw_ast.specs.Atoms.{rawatoms, nodes_rawatom, nodes_rawatoms};
ghost use Rattle.raw_meaning.specs.Faults.{atom_faults};
ghost use Rattle.raw_meaning.specs.Trees.{atom_tree};
ghost use Rattle.raw_meaning.specs.declared.outline.Outline.{Outline};
ghost use Rattle.text_trees.specs.Atoms as spec;
ghost use Rattle.text_trees.specs.Told.{Gives, Leads, Settled};

use crate::SettleFault;
use crate::lists::split_first;
use crate::rules::{constructor, number, variable};
use aen_base::{List, NoMem};
use pure_ast::{CtorId, Term};
use raw_ast::{Constructor, RawAtom, RawAtomNode};
use std::alloc::Global;
use text_names::Tables;

/// A tuple or a constructor with parts that waits for one of them: the parts that come after it, and
/// those before it.
#[derive(Drop)]
pub(crate) struct AtomFrame<'a> {
    pub head: Option<CtorId>,
    pub left: &'a [RawAtom],
    pub done: List<Term>,
}

/// What a step leaves: a term, or a part that is to be settled first.
#[derive(Drop)]
pub(crate) enum AtomStep<'a> {
    Whole(Term),
    Within(AtomFrame<'a>, &'a RawAtom),
}

/// The term that is spelled so; the tables tell what the text declares.
///
/// # Errors
/// `Broken` exactly at the first place where a rule beside the grammar is broken, of an atom that
/// breaks one; `Memory` for want of memory, which may come at any atom.
pub fn atom_of(alloc: Global, tables: &Tables, raw: &RawAtom) -> Result<Term, SettleFault>
    ensures { Settled (atom_faults tables.now raw.now) (atom_tree tables.now raw.now) result }
{
    settle_atom(alloc, tables, raw)
}

/// The term that is spelled so.
pub(crate) fn settle_atom(
    alloc: Global,
    tables: &Tables,
    raw: &RawAtom,
) -> Result<Term, SettleFault>
    ensures { Gives (spec.atom_told tables.now raw.now) result }
{
    let mut stack = List::new(alloc);
    let mut step = begin(alloc, tables, raw)?;
    loop {
        match step {
            AtomStep::Within(frame, part) => {
                stack.push(frame)?;
                step = begin(alloc, tables, part)?;
            }
            AtomStep::Whole(term) => match stack.pop() {
                Some(frame) => step = put_in(frame, term)?,
                None => return Ok(term),
            },
        }
    }
}

/// The terms that are spelled so, in order.
pub(crate) fn settle_atoms(
    alloc: Global,
    tables: &Tables,
    raw: &[RawAtom],
) -> Result<List<Term>, SettleFault>
    ensures { Gives (spec.atoms_told tables.now (rawatoms raw.now)) result }
{
    let mut done = List::new(alloc);
    for i in 0..raw.len() {
        let term = settle_atom(alloc, tables, &raw[i])?;
        done.push(term)?;
    }
    Ok(done)
}

/// Begins an atom.
fn begin<'a>(alloc: Global, tables: &Tables, raw: &'a RawAtom) -> Result<AtomStep<'a>, SettleFault>
    ensures meaning { Leads (spec.atom_told tables.now raw.now) (spec.step_told tables.now) result }
    ensures cost { IfOk result (λ s. spec.step_cost s < nodes_rawatom raw.now) }
{
    match &raw.node {
        RawAtomNode::Var(name) => Ok(AtomStep::Whole(Term::var(variable(name)?))),
        RawAtomNode::Lit(digits, ty) => Ok(AtomStep::Whole(Term::literal(number(digits, *ty)?))),
        RawAtomNode::Bool(truth) => Ok(AtomStep::Whole(Term::truth(*truth))),
        RawAtomNode::Tuple(parts) => Ok(next_part(None, parts.as_slice(), List::new(alloc))),
        RawAtomNode::Ctor(name, parts) => begin_built(alloc, tables, name.get(), parts.as_slice()),
    }
}

/// Begins a constructor with its parts.
fn begin_built<'a>(
    alloc: Global,
    tables: &Tables,
    name: &Constructor,
    parts: &'a [RawAtom],
) -> Result<AtomStep<'a>, SettleFault>
    ensures meaning { Leads (spec.built_told tables.now name.now parts.now) (spec.step_told tables.now) result }
    ensures cost { IfOk result (λ s. spec.step_cost s < nodes_rawatoms (rawatoms parts.now)) }
{
    let head = Some(constructor(tables, name, parts.len())?);
    Ok(next_part(head, parts, List::new(alloc)))
}

/// Goes on with the first of the parts that are left.
fn next_part<'a>(head: Option<CtorId>, left: &'a [RawAtom], done: List<Term>) -> AtomStep<'a>
    ensures meaning { (h : Outline) → spec.listed h head left.now done ≡ spec.step_told h result }
    ensures cost { spec.step_cost result < nodes_rawatoms (rawatoms left.now) }
{
    match split_first(left) {
        Some((part, rest)) => {
            let frame = AtomFrame {
                head,
                left: rest,
                done,
            };
            AtomStep::Within(frame, part)
        }
        None => AtomStep::Whole(made(head, done)),
    }
}

/// A tuple, or a constructor with its parts.
fn made(head: Option<CtorId>, parts: List<Term>) -> Term
    ensures { result ≡ spec.made head parts }
{
    match head {
        None => Term::tuple(parts),
        Some(ctor) => Term::built(ctor, parts),
    }
}

/// Puts a part into what waits for it.
fn put_in<'a>(frame: AtomFrame<'a>, term: Term) -> Result<AtomStep<'a>, NoMem>
    ensures meaning { IfOk result (λ s. (h : Outline) → spec.frame_told h frame.entry term ≡ spec.step_told h s) }
    ensures cost { IfOk result (λ s. spec.step_cost s < spec.frame_cost frame.entry) }
{
    let AtomFrame {
        head,
        left,
        mut done,
    } = frame;
    done.push(term)?;
    Ok(next_part(head, left, done))
}
