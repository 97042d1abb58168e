//! Reads a word as a value, and a piece as a type.

ghost use Rattle.std.specs.Prelude.{◌≡◌, ◌<◌, ◌^◌, [], length, IfOk, MatchOption};
ghost use Rattle.pure_ast.specs.Types as types;
ghost use Rattle.pure_ast.specs.Values as values;
ghost use Rattle.text_meaning.specs.WellFormed.{IsWellFormed};
ghost use Rattle.raw_meaning.specs.Faults.{type_faults, atom_faults};
ghost use Rattle.raw_meaning.specs.Heads.{declared_by};
ghost use Rattle.raw_meaning.specs.Trees.{type_tree, atom_tree};
ghost use Rattle.text_words.specs.ValueWords.{IsWord, IsPiece};
ghost use Rattle.text_words.specs.WordReading as spec;

use crate::closed_values::closed_value;
use crate::typing::has_type;
use aen_base::NoMem;
use pure_ast::{Defs, PTy, PValue, Term};
use raw_ast::{RawAtom, RawType};
use raw_reader::{read_atom, read_type};
use std::alloc::Global;
use text_names::{Names, Tables};
use text_syntax::{has_few_brackets, lexemes_of};
use text_tokens::{Lexeme, Lexemes, Pile, lex};
use text_trees::{SettleFault, atom_of, type_of};

/// The value of this type that a word is; None where it is none. The only error is want of memory.
pub(crate) fn read_value(
    alloc: Global,
    defs: &Defs,
    tables: &Tables,
    ty: &PTy,
    word: &str,
) -> Result<Option<PValue>, NoMem>
    requires short { length word.now < 2 ^ 32 }
    requires well_formed { IsWellFormed defs.now }
    requires own { tables.now ≡ declared_by defs.now }
    ensures { IfOk result (λ o. MatchOption o ((v : values.PValue) → IsWord defs.now ty.now word.now v → ⊥) (λ v. IsWord defs.now ty.now word.now v)) }
{
    let Lexemes { list, fault } = lex(alloc, word)?;
    if fault.is_some() {
        return Ok(None);
    }
    let term = read_term(alloc, tables, list)?;
    value_of(alloc, defs, ty, term)
}

/// The type without type parameters that a piece is; None where it is none. The only error is want
/// of memory.
pub(crate) fn read_piece(
    alloc: Global,
    defs: &Defs,
    tables: &Tables,
    piece: &str,
) -> Result<Option<PTy>, NoMem>
    requires short { length piece.now < 2 ^ 32 }
    requires well_formed { IsWellFormed defs.now }
    requires own { tables.now ≡ declared_by defs.now }
    ensures { IfOk result (λ o. MatchOption o ((t : types.PTy) → IsPiece defs.now piece.now t → ⊥) (λ t. IsPiece defs.now piece.now t)) }
{
    let Lexemes { list, fault } = lex(alloc, piece)?;
    if fault.is_some() {
        return Ok(None);
    }
    read_plain_type(alloc, tables, list)
}

/// The value of a term without variables; None where the term has some, or its value another type.
/// The only error is want of memory.
fn value_of(
    alloc: Global,
    defs: &Defs,
    ty: &PTy,
    term: Option<Term>,
) -> Result<Option<PValue>, NoMem>
    ensures { IfOk result (λ o. o ≡ spec.value_of defs.now ty.now term) }
{
    let Some(term) = term else {
        return Ok(None);
    };
    let Some(value) = closed_value(alloc, &term)? else {
        return Ok(None);
    };
    if has_type(alloc, defs, ty, &value)? {
        Ok(Some(value))
    } else {
        Ok(None)
    }
}

/// The term that lexemes are. The only error is want of memory.
fn read_term(alloc: Global, tables: &Tables, lexemes: Pile<Lexeme>) -> Result<Option<Term>, NoMem>
    ensures { IfOk result (λ o. spec.Finds (spec.IsTermOf tables.now lexemes) o) }
{
    if !has_few_brackets(lexemes.as_slice()) {
        return Ok(None);
    }
    let classed = lexemes_of(alloc, lexemes)?;
    whole_term(alloc, tables, classed.as_slice())
}

/// The type without type parameters that lexemes are. The only error is want of memory.
fn read_plain_type(
    alloc: Global,
    tables: &Tables,
    lexemes: Pile<Lexeme>,
) -> Result<Option<PTy>, NoMem>
    ensures { IfOk result (λ o. spec.Finds (spec.IsTypeOf tables.now lexemes) o) }
{
    if !has_few_brackets(lexemes.as_slice()) {
        return Ok(None);
    }
    let classed = lexemes_of(alloc, lexemes)?;
    whole_type(alloc, tables, classed.as_slice())
}

/// The term that all lexemes are.
fn whole_term(
    alloc: Global,
    tables: &Tables,
    lexemes: &[text_table::Lexeme],
) -> Result<Option<Term>, NoMem>
    ensures { IfOk result (λ o. spec.Finds (spec.IsTermRead tables.now lexemes.now) o) }
{
    match read_atom(alloc, lexemes)? {
        Ok(raw) => settled_term(alloc, tables, &raw),
        Err(_) => Ok(None),
    }
}

/// The type without type parameters that all lexemes are.
fn whole_type(
    alloc: Global,
    tables: &Tables,
    lexemes: &[text_table::Lexeme],
) -> Result<Option<PTy>, NoMem>
    ensures { IfOk result (λ o. spec.Finds (spec.IsTypeRead tables.now lexemes.now) o) }
{
    match read_type(alloc, lexemes)? {
        Ok(raw) => settled_type(alloc, tables, &raw),
        Err(_) => Ok(None),
    }
}

/// The term of an atom that breaks no rule.
fn settled_term(alloc: Global, tables: &Tables, raw: &RawAtom) -> Result<Option<Term>, NoMem>
    ensures { IfOk result (λ o. spec.Settles (atom_faults tables.now raw.now ≡ []) (atom_tree tables.now raw.now) o) }
{
    match atom_of(alloc, tables, raw) {
        Ok(term) => Ok(Some(term)),
        Err(fault) => match fault {
            SettleFault::Broken(_) => Ok(None),
            SettleFault::Memory => Err(NoMem),
        },
    }
}

/// The type of a type as it is spelled that breaks no rule.
fn settled_type(alloc: Global, tables: &Tables, raw: &RawType) -> Result<Option<PTy>, NoMem>
    ensures { IfOk result (λ o. spec.Settles (type_faults tables.now [] raw.now ≡ []) (type_tree tables.now [] raw.now) o) }
{
    let parameters = Names::new(alloc);
    match type_of(alloc, tables, &parameters, raw) {
        Ok(ty) => Ok(Some(ty)),
        Err(fault) => match fault {
            SettleFault::Broken(_) => Ok(None),
            SettleFault::Memory => Err(NoMem),
        },
    }
}
