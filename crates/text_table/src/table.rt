//! The productions (docs/TEXT.md, "Grammar"). Written by tools/grammar.py.

mod atoms;
mod code;
mod declarations;
mod definitions;
mod primitives;
mod types;

ghost use Rattle.std.specs.Prelude.{◌≡◌};
ghost use Rattle.table_reader.specs.Derivations.{rows};
ghost use Rattle.text_table.specs.Productions as grammar;

use crate::part::Part;
use crate::terminal::Terminal;
use table_reader::Production;

/// The productions of a part.
pub(crate) type Productions = &'static [Production<Terminal, Part>];

/// Productions, each in braces: tokens, and parts in square brackets.
macro_rules! productions {
    ($({ $($symbol:tt)* })*) => {
        &[$(Production { symbols: &[$(crate::table::symbol!($symbol)),*] }),*]
    };
}

/// A part in square brackets, or a token.
macro_rules! symbol {
    ([$($part:tt)*]) => {
        Symbol::Part(Part::$($part)*)
    };
    ($token:ident) => {
        Symbol::Token(Terminal::$token)
    };
}

pub(crate) use productions;
pub(crate) use symbol;

/// The productions of a part.
pub(crate) fn productions_of(part: Part) -> Productions
    ensures { rows result.now ≡ grammar.productions part }
{
    match part {
        Part::Text => declarations::TEXT,
        Part::Types => declarations::TYPES,
        Part::Declaration => declarations::DECLARATION,
        Part::TypeParameters => declarations::TYPE_PARAMETERS,
        Part::Variants => declarations::VARIANTS,
        Part::VariantType => declarations::VARIANT_TYPE,
        Part::VariantEnd => declarations::VARIANT_END,
        Part::Names => declarations::NAMES,
        Part::Fields => declarations::FIELDS,
        Part::Type => types::TYPE,
        Part::OtherType => types::OTHER_TYPE,
        Part::TypeInBrackets => types::TYPE_IN_BRACKETS,
        Part::AfterTypeName => types::AFTER_TYPE_NAME,
        Part::TypeArguments => types::TYPE_ARGUMENTS,
        Part::Factors => types::FACTORS,
        Part::Definitions => definitions::DEFINITIONS,
        Part::Definition => definitions::DEFINITION,
        Part::FuelParameter => definitions::FUEL_PARAMETER,
        Part::FuelMatch => definitions::FUEL_MATCH,
        Part::DefinitionName => definitions::DEFINITION_NAME,
        Part::NameEnd => definitions::NAME_END,
        Part::NamePart => definitions::NAME_PART,
        Part::BackEnd => definitions::BACK_END,
        Part::ImplicitParameters => definitions::IMPLICIT_PARAMETERS,
        Part::Parameters => definitions::PARAMETERS,
        Part::Code => code::CODE,
        Part::Bound => code::BOUND,
        Part::Arms => code::ARMS,
        Part::Pattern => code::PATTERN,
        Part::PatternParts => code::PATTERN_PARTS,
        Part::Variables => code::VARIABLES,
        Part::Computation => code::COMPUTATION,
        Part::Primitive => primitives::PRIMITIVE,
        Part::CastFrom => primitives::CAST_FROM,
        Part::InMemory => primitives::IN_MEMORY,
        Part::ReplaceEnd => primitives::REPLACE_END,
        Part::SwapEnd => primitives::SWAP_END,
        Part::SwapRegion => primitives::SWAP_REGION,
        Part::Atom => atoms::ATOM,
        Part::PlainAtom => atoms::PLAIN_ATOM,
        Part::Constructor => atoms::CONSTRUCTOR,
        Part::ExitVariant => atoms::EXIT_VARIANT,
        Part::AtomInBrackets => atoms::ATOM_IN_BRACKETS,
        Part::AfterConstructor => atoms::AFTER_CONSTRUCTOR,
        Part::TupleParts => atoms::TUPLE_PARTS,
        Part::Arguments => atoms::ARGUMENTS,
        Part::Atoms => atoms::ATOMS,
    }
}
