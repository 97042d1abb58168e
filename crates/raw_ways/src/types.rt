//! Types.

ghost use Rattle.std.specs.Prelude.{◌≡◌, IfOk};
ghost use Rattle.raw_ways.specs.Ways as spec;

use crate::spelling::spelled;
use crate::words::int_of;
use aen_base::{List, NoMem};
use raw_ast::RawType;
use raw_values::front_list::FrontList;
use raw_values::rests::AfterTypeName;
use std::alloc::Global;
use text_table::Lexeme;

/// An integer type.
pub fn int_type(word: Lexeme) -> RawType
    ensures { result ≡ spec.int_type word }
{
    RawType::int(int_of(word.class))
}

/// The type of bools.
pub fn bool_type() -> RawType
    ensures { result ≡ spec.bool_type }
{
    RawType::bool_type()
}

/// The unit type.
pub fn unit_type() -> RawType
    ensures { result ≡ spec.unit_type }
{
    RawType::unit()
}

/// A declared type without arguments.
pub fn named_alone(alloc: Global, name: Lexeme) -> RawType
    ensures { result ≡ spec.named_alone name }
{
    RawType::named(spelled(name), List::new(alloc))
}

/// The type of tuples of two parts or more. The only error is want of memory.
pub fn product_type(
    ty: RawType,
    second: RawType,
    more: FrontList<RawType>,
) -> Result<RawType, NoMem>
    ensures { IfOk result (λ it. it ≡ spec.product_type ty second more) }
{
    let parts = more.push(second)?;
    let parts = parts.push(ty)?;
    Ok(RawType::product(parts.into_list()))
}

/// The type of a loop's exits. The only error is want of memory.
pub fn exit_type(alloc: Global, broken: RawType, returned: RawType) -> Result<RawType, NoMem>
    ensures { IfOk result (λ it. it ≡ spec.exit_type broken returned) }
{
    Ok(RawType::exit(alloc, broken, returned)?)
}

/// What stands after a type's name in brackets: its arguments.
pub fn type_arguments(args: FrontList<RawType>) -> AfterTypeName
    ensures { result ≡ spec.type_arguments args }
{
    AfterTypeName::Arguments(args)
}

/// What stands after a type's name in brackets: the further factors of the product that it is the first of.
pub fn more_factors(factors: FrontList<RawType>) -> AfterTypeName
    ensures { result ≡ spec.more_factors factors }
{
    AfterTypeName::Factors(factors)
}

/// What stands in brackets and begins with a type's name: that type with arguments, or a product. The only error is want of memory.
pub fn after_name(alloc: Global, name: Lexeme, after: AfterTypeName) -> Result<RawType, NoMem>
    ensures { IfOk result (λ it. it ≡ spec.after_name name after) }
{
    match after {
        AfterTypeName::Arguments(args) => Ok(RawType::named(spelled(name), args.into_list())),
        AfterTypeName::Factors(factors) => {
            let parts = factors.push(named_alone(alloc, name))?;
            Ok(RawType::product(parts.into_list()))
        }
    }
}
