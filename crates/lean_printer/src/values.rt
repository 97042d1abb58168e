//! Prints values, with what is still to be printed on a stack of its own.
ghost use Rattle.std.specs.Prelude.{◌≡◌, ◌+◌, ◌≤◌, ◌++◌, IfOk, OnOk, string_bytes};
ghost use Rattle.pure_ast.specs.Values as trees;
ghost use Rattle.pure_ast.specs.declared.def.Defs.{Defs};
ghost use Rattle.text_meaning.specs.Atoms.{IsAtom};
ghost use Rattle.text_meaning.specs.Lexing.{Lexed};
ghost use Rattle.text_meaning.specs.ShownTerms.{term_text};
ghost use Rattle.text_meaning.specs.SpelledTerms.{term_tokens};
ghost use Rattle.text_meaning.specs.ValueTerms.{value_term};
ghost use Rattle.text_meaning.specs.WellFormed.{IsWellFormed};
ghost use Rattle.lean_printer.specs.Pieces as spec;

use crate::names::put_ctor;
use crate::put::{put, put_number};
use crate::terms::put_truth;
use aen_base::{List, NoMem, Text};
use pure_ast::{CtorId, Defs, PValue, PValueNode};
use std::alloc::Global;

/// What is still to be printed.
#[derive(Drop)]
pub(crate) enum Piece<'a> {
    /// A value.
    Value(&'a PValue),
    /// Values with a comma and a space before each, and `)` after them.
    Commas(&'a [PValue]),
    /// Values with a space before each, and `)` after them.
    Spaced(&'a [PValue]),
}

/// The text of a value as a term, in time linear in its length; the depth of the value takes no
/// stack. The text of an atom of well-formed definitions has the tokens of its value. The only
/// error is want of memory.
pub fn print_value(alloc: Global, defs: &Defs, value: &PValue) -> Result<Text, NoMem>
    ensures layout { IfOk result (λ t. t ≡ term_text defs.now (value_term value.now)) }
    ensures read_back { IsWellFormed defs.now → IsAtom defs.now value.now → Lexed (term_tokens defs.now (value_term value.now)) (term_text defs.now (value_term value.now)) }
{
    let mut out = String::new(alloc);
    let mut stack = List::new(alloc);
    stack.push(Piece::Value(value))?;
    while let Some(piece) = stack.pop() {
        put_piece(&mut out, defs, &mut stack, piece)?;
    }
    Ok(Text::new(out))
}

/// Puts a value on the stack, and what comes after it.
#[tactic(auto, using(crate::proofs::Stacked::both_cost))]
fn push_both<'a>(
    stack: &mut List<Piece<'a>>,
    first: &'a PValue,
    after: Piece<'a>,
) -> Result<(), NoMem>
    ensures text { OnOk result ((defs : Defs) → spec.pieces_text defs stack.new ≡ term_text defs (value_term first.now) ++ (spec.piece_text defs after.entry ++ spec.pieces_text defs stack.old)) }
    ensures cost { OnOk result (spec.pieces_cost stack.new ≡ trees.nodes_pvalue first.now + (spec.piece_cost after.entry + spec.pieces_cost stack.old)) }
{
    stack.push(after)?;
    Ok(stack.push(Piece::Value(first))?)
}

/// Prints how a piece begins, and puts the rest of it on the stack.
fn put_piece<'a>(
    out: &mut String,
    defs: &Defs,
    stack: &mut List<Piece<'a>>,
    piece: Piece<'a>,
) -> Result<(), NoMem>
    ensures text { OnOk result (string_bytes out.new ++ spec.pieces_text defs.now stack.new ≡ string_bytes out.old ++ (spec.piece_text defs.now piece.entry ++ spec.pieces_text defs.now stack.old)) }
    ensures cost { OnOk result (spec.pieces_cost stack.new + 1 ≤ spec.piece_cost piece.entry + spec.pieces_cost stack.old) }
{
    match piece {
        Piece::Value(value) => put_value(out, defs, stack, value),
        Piece::Commas(values) => match values {
            [] => put(out, ")"),
            [first, rest @ ..] => {
                put(out, ", ")?;
                Ok(push_both(stack, first, Piece::Commas(rest))?)
            }
        },
        Piece::Spaced(values) => match values {
            [] => put(out, ")"),
            [first, rest @ ..] => {
                put(out, " ")?;
                Ok(push_both(stack, first, Piece::Spaced(rest))?)
            }
        },
    }
}

/// Prints how a value begins, and puts the rest of it on the stack.
fn put_value<'a>(
    out: &mut String,
    defs: &Defs,
    stack: &mut List<Piece<'a>>,
    value: &'a PValue,
) -> Result<(), NoMem>
    ensures text { OnOk result (string_bytes out.new ++ spec.pieces_text defs.now stack.new ≡ string_bytes out.old ++ (term_text defs.now (value_term value.now) ++ spec.pieces_text defs.now stack.old)) }
    ensures cost { OnOk result (spec.pieces_cost stack.new + 1 ≤ trees.nodes_pvalue value.now + spec.pieces_cost stack.old) }
{
    match &value.node {
        PValueNode::Num(number) => put_number(out, *number),
        PValueNode::Bool(value) => put_truth(out, *value),
        PValueNode::Tuple(parts) => put_tuple(out, defs, stack, parts.as_slice()),
        PValueNode::Ctor(ctor, parts) => put_built(out, defs, stack, *ctor, parts.as_slice()),
    }
}

fn put_tuple<'a>(
    out: &mut String,
    defs: &Defs,
    stack: &mut List<Piece<'a>>,
    parts: &'a [PValue],
) -> Result<(), NoMem>
    ensures text { OnOk result (string_bytes out.new ++ spec.pieces_text defs.now stack.new ≡ string_bytes out.old ++ (term_text defs.now (value_term (trees.tuple (trees.pvalues parts.now))) ++ spec.pieces_text defs.now stack.old)) }
    ensures cost { OnOk result (spec.pieces_cost stack.new ≤ trees.nodes_pvalues (trees.pvalues parts.now) + spec.pieces_cost stack.old) }
{
    match parts {
        [] => put(out, "()"),
        [first, rest @ ..] => {
            put(out, "(")?;
            Ok(push_both(stack, first, Piece::Commas(rest))?)
        }
    }
}

fn put_built<'a>(
    out: &mut String,
    defs: &Defs,
    stack: &mut List<Piece<'a>>,
    ctor: CtorId,
    parts: &'a [PValue],
) -> Result<(), NoMem>
    ensures text { OnOk result (string_bytes out.new ++ spec.pieces_text defs.now stack.new ≡ string_bytes out.old ++ (term_text defs.now (value_term (trees.built ctor (trees.pvalues parts.now))) ++ spec.pieces_text defs.now stack.old)) }
    ensures cost { OnOk result (spec.pieces_cost stack.new ≤ trees.nodes_pvalues (trees.pvalues parts.now) + spec.pieces_cost stack.old) }
{
    match parts {
        [] => put_ctor(out, defs, ctor),
        [first, rest @ ..] => {
            put(out, "(")?;
            put_ctor(out, defs, ctor)?;
            put(out, " ")?;
            Ok(push_both(stack, first, Piece::Spaced(rest))?)
        }
    }
}
