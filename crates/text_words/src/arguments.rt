//! The arguments of a call that words write.

ghost use Rattle.std.specs.Prelude.{◌≡◌, ◌<◌, ◌^◌, All, List, ℕ, Some, length, map, slice_get, string_len, IfOk, MatchOption};
ghost use Rattle.std.specs.String.{string_bytes};
ghost use Rattle.pure_ast.specs.Types.{PTy};
ghost use Rattle.pure_ast.specs.Values.{PValue};
ghost use Rattle.pure_ast.specs.declared.def.Def.{Def};
ghost use Rattle.text_meaning.specs.WellFormed.{IsWellFormed};
ghost use Rattle.raw_meaning.specs.Heads as heads;
ghost use Rattle.text_words.specs.ValueWords as spec;

use crate::heads::declared_by;
use crate::putting_in::put_in_all;
use crate::word_reading::{read_piece, read_value};
use aen_base::{DefId, List, NoMem, at};
use pure_ast::{Def, Defs, PTy, PValue};
use std::alloc::Global;
use text_names::Tables;

/// Why words give no arguments.
#[derive(Clone, Copy, Debug, PartialEq, Eq)]
pub enum ArgFault {
    /// The types are not as many as the definition's type parameters, or one is no type without type
    /// parameters.
    Types,
    /// So many values were expected, and so many words given.
    WrongCount(u64, u64),
    /// The word with this number, from 0, is the first that is no value of its type.
    BadValue(u64),
    /// Want of memory.
    Memory,
}

impl From<NoMem> for ArgFault {
    ghost use Rattle.std.specs.Prelude.{◌≡◌};
    ghost use Rattle.text_words.specs.declared.arguments.ArgFault.TheVariants.{Memory};

    ghost from_gives = { λ _ e. e ≡ Memory };

    fn from(_: NoMem) -> ArgFault {
        ArgFault::Memory
    }
}

/// The values that words write for the parameters of a definition, with these types in place of its
/// type parameters. `Types` comes exactly where the pieces are not as many as the type parameters,
/// or one is no type without type parameters; `WrongCount(E, F)` exactly where that is not so, and F
/// words stand for E parameters; `BadValue(I)` exactly where neither is so, and word I is the first
/// that is no value of its parameter's type. A word is one value of a type at most, and a piece one
/// type.
pub fn read_args(
    alloc: Global,
    defs: &Defs,
    def: DefId,
    types: &[String],
    words: &[String],
) -> Result<List<PValue>, ArgFault>
    requires well_formed { IsWellFormed defs.now }
    requires known { def.0 < length defs.now.defs }
    requires short_types { All (λ w. string_len w < 2 ^ 32) types.now }
    requires short_words { All (λ w. string_len w < 2 ^ 32) words.now }
    ensures reading { (d : Def) → slice_get defs.now.defs def.0 ≡ Some d → spec.IsReadingAt defs.now d (map string_bytes types.now) (map string_bytes words.now) result }
    ensures one_value { (ty : PTy) (word : List ℕ) (v w : PValue) → spec.IsWord defs.now ty word v → spec.IsWord defs.now ty word w → v ≡ w }
    ensures one_type { (piece : List ℕ) (t u : PTy) → spec.IsPiece defs.now piece t → spec.IsPiece defs.now piece u → t ≡ u }
{
    match at(defs.defs.as_slice(), def.0 as usize) {
        Some(definition) => read_all(alloc, defs, definition, types, words),
        None => unreachable!(),
    }
}

/// The values that words write for the parameters of this definition.
fn read_all(
    alloc: Global,
    defs: &Defs,
    definition: &Def,
    pieces: &[String],
    words: &[String],
) -> Result<List<PValue>, ArgFault>
    requires well_formed { IsWellFormed defs.now }
    requires short_pieces { All (λ w. string_len w < 2 ^ 32) pieces.now }
    requires short_words { All (λ w. string_len w < 2 ^ 32) words.now }
    ensures { spec.IsReadingAt defs.now definition.now (map string_bytes pieces.now) (map string_bytes words.now) result }
{
    let outline = declared_by(alloc, defs)?;
    let tables = Tables::new(alloc, outline)?;
    let Some(args) = type_arguments(alloc, defs, &tables, definition, pieces)? else {
        return Err(ArgFault::Types);
    };
    let types = put_in_all(alloc, args.as_slice(), definition.params.as_slice())?;
    read_values(alloc, defs, &tables, types.as_slice(), words)
}

/// The types that pieces write for the type parameters of this definition; None where they write
/// none. The only error is want of memory.
fn type_arguments(
    alloc: Global,
    defs: &Defs,
    tables: &Tables,
    definition: &Def,
    pieces: &[String],
) -> Result<Option<List<PTy>>, NoMem>
    requires well_formed { IsWellFormed defs.now }
    requires own { tables.now ≡ heads.declared_by defs.now }
    requires short { All (λ w. string_len w < 2 ^ 32) pieces.now }
    ensures { IfOk result (λ o. MatchOption o ((args : List PTy) → spec.AreTypeArguments defs.now definition.now (map string_bytes pieces.now) args → ⊥) (λ args. spec.AreTypeArguments defs.now definition.now (map string_bytes pieces.now) args)) }
{
    if pieces.len() != definition.type_params.len() {
        return Ok(None);
    }
    read_pieces(alloc, defs, tables, pieces)
}

/// The types that pieces write; None where one writes none. The only error is want of memory.
fn read_pieces(
    alloc: Global,
    defs: &Defs,
    tables: &Tables,
    pieces: &[String],
) -> Result<Option<List<PTy>>, NoMem>
    requires well_formed { IsWellFormed defs.now }
    requires own { tables.now ≡ heads.declared_by defs.now }
    requires short { All (λ w. string_len w < 2 ^ 32) pieces.now }
    ensures { IfOk result (λ o. MatchOption o ((args : List PTy) → spec.ArePieces defs.now (map string_bytes pieces.now) args → ⊥) (λ args. spec.ArePieces defs.now (map string_bytes pieces.now) args)) }
{
    let mut args = List::new(alloc);
    for piece in pieces {
        match read_piece(alloc, defs, tables, piece.as_str())? {
            Some(ty) => args.push(ty)?,
            None => return Ok(None),
        }
    }
    Ok(Some(args))
}

/// The values of these types that words write.
fn read_values(
    alloc: Global,
    defs: &Defs,
    tables: &Tables,
    types: &[PTy],
    words: &[String],
) -> Result<List<PValue>, ArgFault>
    requires well_formed { IsWellFormed defs.now }
    requires own { tables.now ≡ heads.declared_by defs.now }
    requires short { All (λ w. string_len w < 2 ^ 32) words.now }
    ensures { spec.IsReading defs.now types.now (map string_bytes words.now) result }
{
    if types.len() != words.len() {
        return Err(ArgFault::WrongCount(types.len() as u64, words.len() as u64));
    }
    let mut values = List::new(alloc);
    for place in 0..words.len() {
        match read_value(alloc, defs, tables, &types[place], words[place].as_str())? {
            Some(value) => values.push(value)?,
            None => return Err(ArgFault::BadValue(place as u64)),
        }
    }
    Ok(values)
}
