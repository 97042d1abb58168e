//! The names of definitions: their numbers, and what they are for.

ghost use Rattle.std.specs.Prelude.{◌≡◌, Some, codes};
ghost use Rattle.raw_meaning.specs.Outlines as outlines;
ghost use Rattle.raw_meaning.specs.Rules as rule;
ghost use Rattle.text_names.specs.Settled.{Keeps};

use crate::numbered::numbered;
use aen_base::{FnId, LoopId, RegionId, Span};
use pure_ast::DefKind;
use raw_ast::{DefinitionName, Spelling};

/// The number in a part of a name, which may be left out; None exactly where a number is none.
fn part_number(prefix: &str, part: &Option<Spelling>) -> Option<Option<u32>>
    ensures { result ≡ outlines.part_number prefix.now part.now }
{
    match part {
        None => Some(None),
        Some(spelled) => match numbered(prefix, &spelled.text) {
            None => None,
            Some(number) => Some(Some(number)),
        },
    }
}

/// What a definition of this name is for, where its function has this number; None exactly where
/// it has none, or a number in the name is none.
#[tactic(auto, using(crate::proofs::NamedKinds::no_function, crate::proofs::NamedKinds::no_turn, crate::proofs::NamedKinds::no_back))]
pub(crate) fn kind_by(function: Option<u32>, name: &DefinitionName) -> Option<DefKind>
    ensures { result ≡ outlines.kind_by function (outlines.part_number (codes "loop") name.now.turn) (outlines.part_number (codes "back") name.now.back) }
{
    let function = function?;
    let turn = part_number("loop", &name.turn)?;
    let back = part_number("back", &name.back)?;
    Some(kind_with(function, turn, back))
}

/// The kind with these numbers.
fn kind_with(function: u32, turn: Option<u32>, back: Option<u32>) -> DefKind
    ensures { outlines.kind_by (Some function) (Some turn) (Some back) ≡ Some result }
{
    match (turn, back) {
        (None, None) => DefKind::Forward(FnId(function)),
        (None, Some(region)) => DefKind::Back(FnId(function), RegionId(region)),
        (Some(turn), None) => DefKind::Loop(FnId(function), LoopId(turn)),
        (Some(turn), Some(class)) => DefKind::LoopBack(FnId(function), LoopId(turn), class),
    }
}

/// The rule on a number in a name, where there is one.
fn name_number(prefix: &str, part: &Option<Spelling>) -> Result<(), Span>
    ensures { Keeps (rule.name_number prefix.now part.now) result }
{
    match part {
        None => Ok(()),
        Some(spelled) => match numbered(prefix, &spelled.text) {
            None => Err(spelled.span),
            Some(_) => Ok(()),
        },
    }
}

/// The rule on the numbers in a name.
#[tactic(auto, using(crate::proofs::Firsts::first_append))]
pub(crate) fn name_numbers(name: &DefinitionName) -> Result<(), Span>
    ensures { Keeps (rule.name_numbers name.now) result }
{
    match name_number("loop", &name.turn) {
        Err(place) => Err(place),
        Ok(()) => name_number("back", &name.back),
    }
}

/// The place of the last token of a name.
pub(crate) fn last_place(name: &DefinitionName) -> Span
    ensures { result ≡ rule.last_place name.now }
{
    match &name.back {
        Some(back) => back.span,
        None => match &name.turn {
            Some(turn) => turn.span,
            None => name.function.span,
        },
    }
}
