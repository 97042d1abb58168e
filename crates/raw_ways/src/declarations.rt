//! Declarations of types.

ghost use Rattle.std.specs.Prelude.{◌≡◌, IfOk};
ghost use Rattle.raw_ways.specs.Ways as spec;

use crate::spelling::spelled;
use crate::types::named_alone;
use aen_base::NoMem;
use raw_ast::{Declaration, Definition, Members, RawText, RawType, Spelling, Variant};
use raw_values::front_list::FrontList;
use raw_values::rests::{AfterName, VariantRest};
use std::alloc::Global;
use text_table::Lexeme;

/// A text: its types and its definitions.
pub fn text(types: FrontList<Declaration>, definitions: FrontList<Definition>) -> RawText
    ensures { result ≡ spec.text types definitions }
{
    RawText {
        types: types.into_list(),
        definitions: definitions.into_list(),
    }
}

/// A type with variants.
pub fn inductive(
    name: Lexeme,
    parameters: FrontList<Spelling>,
    variants: FrontList<Variant>,
) -> Declaration
    ensures { result ≡ spec.inductive name parameters variants }
{
    Declaration {
        name: spelled(name),
        parameters: parameters.into_list(),
        members: Members::Variants(variants.into_list()),
    }
}

/// A type with fields.
pub fn structure(
    name: Lexeme,
    parameters: FrontList<Spelling>,
    fields: FrontList<(Spelling, RawType)>,
) -> Declaration
    ensures { result ≡ spec.structure name parameters fields }
{
    Declaration {
        name: spelled(name),
        parameters: parameters.into_list(),
        members: Members::Fields(fields.into_list()),
    }
}

/// A variant: its name, and what stands after that.
pub fn variant(name: Lexeme, rest: VariantRest) -> Variant
    ensures { result ≡ spec.variant name rest }
{
    let VariantRest {
        fields,
        end,
        parameters,
    } = rest;
    Variant {
        name: spelled(name),
        fields: fields.into_list(),
        end,
        parameters: parameters.into_list(),
    }
}

/// What stands after a variant's name: a field's type, and what stands after that. The only error is want of memory.
pub fn field_first(ty: RawType, rest: VariantRest) -> Result<VariantRest, NoMem>
    ensures { IfOk result (λ it. it ≡ spec.field_first ty rest) }
{
    let VariantRest {
        fields,
        end,
        parameters,
    } = rest;
    let fields = fields.push(ty)?;
    Ok(VariantRest {
        fields,
        end,
        parameters,
    })
}

/// What stands after a variant's name: a name, which is a field's type or that of the variant's own type. The only error is want of memory.
pub fn name_first(alloc: Global, name: Lexeme, after: AfterName) -> Result<VariantRest, NoMem>
    ensures { IfOk result (λ it. it ≡ spec.name_first name after) }
{
    match after {
        AfterName::Fields(rest) => { Ok(field_first(named_alone(alloc, name), rest)?) }
        AfterName::Parameters(parameters) => Ok(VariantRest {
            fields: FrontList::new(alloc),
            end: spelled(name),
            parameters,
        }),
    }
}

/// What stands after a name there: nothing, so it is that of the variant's type.
pub fn ended(alloc: Global) -> AfterName
    ensures { result ≡ spec.ended }
{
    AfterName::Parameters(FrontList::new(alloc))
}

/// What stands after a name there: an arrow and more, so it is a field's type.
pub fn more_fields(rest: VariantRest) -> AfterName
    ensures { result ≡ spec.more_fields rest }
{
    AfterName::Fields(rest)
}

/// What stands after a name there: parameters, so it is that of the variant's type.
pub fn end_parameters(names: FrontList<Spelling>) -> AfterName
    ensures { result ≡ spec.end_parameters names }
{
    AfterName::Parameters(names)
}

/// A field or a parameter: its name and its type.
pub fn field(name: Lexeme, ty: RawType) -> (Spelling, RawType)
    ensures { result ≡ spec.field name ty }
{
    (spelled(name), ty)
}
