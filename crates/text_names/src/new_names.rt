//! The rules on names that are declared, where these were declared before.

ghost use Rattle.std.specs.Prelude.{◌≡◌, true, Some};
ghost use Rattle.raw_meaning.specs.Outlines as outlines;
ghost use Rattle.raw_meaning.specs.Rules as rule;
ghost use Rattle.text_names.specs.Settled.{Settles, Keeps};

use crate::definition_names::{last_place, name_numbers};
use crate::kinds::Kinds;
use crate::names::Names;
use crate::rules::unless;
use crate::tables::Tables;
use aen_base::Span;
use pure_ast::DefKind;
use raw_ast::{DefinitionName, Spelling};

/// No type before has this type's name, and no type parameter before; else its place.
pub fn new_type(types: &Names, parameters: &Names, name: &Spelling) -> Result<(), Span>
    ensures { Keeps (rule.new_type types.now parameters.now name.now) result }
{
    let is_taken = types.contains(&name.text) || parameters.contains(&name.text);
    unless(!is_taken, name.span)
}

/// No type has this type parameter's name, and none before it in its declaration; else its place.
pub fn new_parameter(types: &Names, parameters: &Names, name: &Spelling) -> Result<(), Span>
    ensures { Keeps (rule.new_parameter types.now parameters.now name.now) result }
{
    let is_taken = types.contains(&name.text) || parameters.contains(&name.text);
    unless(!is_taken, name.span)
}

/// No variant or field before in its type has this one's name; else its place.
pub fn new_member(members: &Names, name: &Spelling) -> Result<(), Span>
    ensures { Keeps (rule.new_member members.now name.now) result }
{
    let is_taken = members.contains(&name.text);
    unless(!is_taken, name.span)
}

/// What a definition of this name is for, where none before is for the same. Else the place of the
/// first number in its name that is none, or of the last token, where it is declared twice.
pub fn new_definition(
    tables: &Tables,
    kinds: &Kinds,
    name: &DefinitionName,
) -> Result<DefKind, Span>
    requires { outlines.is_in name.now.function.text tables.now.functions ≡ true }
    ensures { Settles (rule.new_definition tables.now.functions kinds.now name.now) (outlines.kind_of tables.now.functions name.now) result }
{
    match name_numbers(name) {
        Err(place) => Err(place),
        Ok(()) => match tables.kind_of(name) {
            None => unreachable!(),
            Some(kind) => once(kinds, kind, last_place(name)),
        },
    }
}

/// A kind that no definition before is of.
fn once(kinds: &Kinds, kind: DefKind, place: Span) -> Result<DefKind, Span>
    ensures { Settles (rule.once (Some kind) kinds.now place) (Some kind) result }
{
    if kinds.contains(&kind) {
        Err(place)
    } else {
        Ok(kind)
    }
}
