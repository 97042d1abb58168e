//! The rules on names that are used: of types, constructors and definitions.

ghost use Rattle.raw_ast.specs.declared.names.Constructor.TheVariants.{Of};
ghost use Rattle.raw_meaning.specs.Outlines.{place_of};
ghost use Rattle.raw_meaning.specs.Lookups as lookups;
ghost use Rattle.raw_meaning.specs.Rules as rule;
ghost use Rattle.raw_meaning.specs.Trees as trees;
ghost use Rattle.text_names.specs.NamedTypes.{type_named};
ghost use Rattle.text_names.specs.Settled.{Settles};

use crate::definition_names::{last_place, name_numbers};
use crate::names::Names;
use crate::rules::with_parts;
use crate::tables::Tables;
use aen_base::Span;
use pure_ast::CtorId;
use raw_ast::{Constructor, DefinitionName, Spelling};

/// What a type's name stands for: a type parameter by its place, or a declared type by its number.
#[derive(Clone, Copy, Debug, PartialEq, Eq)]
pub enum TypeName {
    Parameter(u32),
    Declared(u32),
}

/// The type that is named with so many arguments, in a declaration with these type parameters; the
/// name's place where nothing has this name, or has another number of type parameters.
pub fn type_name(
    tables: &Tables,
    parameters: &Names,
    name: &Spelling,
    count: usize,
) -> Result<TypeName, Span>
    ensures { Settles (rule.type_name tables.now parameters.now name.now count) (type_named (place_of parameters.now name.now.text) (lookups.type_of tables.now name.now.text) count) result }
{
    match parameters.place_of(&name.text) {
        Some(place) => {
            if count == 0 {
                Ok(TypeName::Parameter(place))
            } else {
                Err(name.span)
            }
        }
        None => match with_parts(tables.type_of(&name.text), count, name.span) {
            Ok(number) => Ok(TypeName::Declared(number)),
            Err(place) => Err(place),
        },
    }
}

/// The constructor that is named with so many parts. Else the type's place, where no type has this
/// name, or that of the last token, where the type has no such variant, or the constructor has
/// another number of parts.
pub fn constructor(tables: &Tables, name: &Constructor, count: usize) -> Result<CtorId, Span>
    ensures { Settles (rule.constructor tables.now name.now count) (trees.constructor_id tables.now name.now count) result }
{
    match name {
        Constructor::Of(ty, variant) => variant_of(tables, ty, variant, count),
        Constructor::Brk(place) => with_parts(Some((CtorId::Brk, 1)), count, *place),
        Constructor::Ret(place) => with_parts(Some((CtorId::Ret, 1)), count, *place),
    }
}

/// The variant of this name of the type of the other.
fn variant_of(
    tables: &Tables,
    ty: &Spelling,
    variant: &Spelling,
    count: usize,
) -> Result<CtorId, Span>
    ensures { Settles (rule.constructor tables.now (Of ty.now variant.now) count) (trees.constructor_id tables.now (Of ty.now variant.now) count) result }
{
    match tables.type_of(&ty.text) {
        None => Err(ty.span),
        Some(_) => with_parts(
            tables.constructor_of(&ty.text, &variant.text),
            count,
            variant.span,
        ),
    }
}

/// The definition that is called with so many arguments, by its place in the text. Else the place of
/// the function's name, where no definition bears it; of the first number in the name that is none;
/// or of the last token, where no definition has this name, or it has another number of parameters.
#[tactic(auto, using(crate::proofs::Firsts::first_declared))]
pub fn called(tables: &Tables, name: &DefinitionName, count: usize) -> Result<u32, Span>
    ensures { Settles (rule.called tables.now name.now count) (trees.with_parts (lookups.definition_of tables.now name.now) count) result }
{
    if !tables.has_function(&name.function.text) {
        return Err(name.function.span);
    }
    match name_numbers(name) {
        Err(place) => Err(place),
        Ok(()) => with_parts(tables.definition_of(name), count, last_place(name)),
    }
}
