//! What a name means, as a declared type, a function, a constructor or a variant.

ghost use Rattle.std.specs.Prelude.{◌≡◌, slice_get, IfOk};
ghost use Rattle.name_tables.specs.Lookups as spec;
ghost use Rattle.name_tables.specs.Gives.{Gives};

use crate::fault::Stop;
use crate::tables::{Generics, Meaning, Tables};
use aen_base::{Name, NoMem, Span, TypeId, at};
use rust_ast::Ident;

/// What a name means as a type.
#[derive(Clone, Copy, Debug, PartialEq, Eq)]
pub enum TypeMeaning {
    /// A type parameter, by its place.
    Parameter(u32),
    /// A declared type.
    Declared(TypeId),
}

/// A place as a number of 32 bits. More things than that fit in no memory of a program.
///
/// # Errors
///
/// `NoMem` where the place is 2^32 or more.
pub fn number(place: usize) -> Result<u32, NoMem>
    ensures { IfOk result (λ n. n ≡ place) }
{
    match u32::try_from(place) {
        Ok(number) => Ok(number),
        Err(_) => Err(NoMem),
    }
}

/// What is known, or the use that is declared nowhere.
///
/// # Errors
///
/// `Unknown` at this place where nothing is known.
pub fn known<T: Drop>(span: Span, found: Option<T>) -> Result<T, Stop>
    ensures { Gives (spec.known span found) result }
{
    match found {
        Some(value) => Ok(value),
        None => Err(Stop::Unknown(span)),
    }
}

/// The type parameter or the declared type of this name.
///
/// # Errors
///
/// `Unknown` at the name where there is neither. `Memory` where its number is no number of 32 bits.
pub fn type_meaning(tables: &Tables, generics: &Generics, name: &Ident) -> Result<TypeMeaning, Stop>
    ensures { Gives (spec.type_meaning tables.now generics.now name.now) result }
{
    if let Some(place) = generics.type_params.place_of(&name.name) {
        return Ok(TypeMeaning::Parameter(number(place)?));
    }
    match tables.types.place_of(&name.name) {
        Some(place) => Ok(TypeMeaning::Declared(TypeId(number(place)?))),
        None => Err(Stop::Unknown(name.span)),
    }
}

/// What a name means among functions and structs.
pub fn meaning_of(tables: &Tables, name: &Name) -> Option<Meaning>
    ensures { result ≡ spec.meaning_of tables.now.values name.now }
{
    let (_, value) = tables.values.find(name)?;
    Some(value.meaning)
}

/// The struct without fields of this name.
pub fn empty_struct(tables: &Tables, name: &Name) -> Option<TypeId>
    ensures { result ≡ spec.empty_struct tables.now.values name.now }
{
    match meaning_of(tables, name)? {
        Meaning::Empty(id) => Some(id),
        Meaning::Function(_) => None,
        Meaning::Placed(_) => None,
        Meaning::Named(_) => None,
    }
}

/// The struct with this constructor.
pub fn constructor_of(tables: &Tables, name: &Name) -> Option<TypeId>
    ensures { result ≡ spec.constructor_of tables.now.values name.now }
{
    match meaning_of(tables, name)? {
        Meaning::Empty(id) => Some(id),
        Meaning::Placed(id) => Some(id),
        Meaning::Function(_) => None,
        Meaning::Named(_) => None,
    }
}

/// The variant of an enum, with its place.
///
/// # Errors
///
/// `Unknown` at the name where the type is none that has this variant. `Memory` where its place is no
/// number of 32 bits.
pub fn variant_of(tables: &Tables, ty: TypeMeaning, name: &Ident) -> Result<(TypeId, u32), Stop>
    ensures { Gives (spec.known name.now.span (spec.variant_of tables.now ty name.now.name)) result }
{
    match ty {
        TypeMeaning::Parameter(_) => Err(Stop::Unknown(name.span)),
        TypeMeaning::Declared(id) => variant_at(tables, id, name),
    }
}

/// The variant of a declared type.
fn variant_at(tables: &Tables, id: TypeId, name: &Ident) -> Result<(TypeId, u32), Stop>
    ensures { Gives (spec.known name.now.span (spec.variant_at id name.now.name (slice_get tables.now.types id.0))) result }
{
    match at(tables.types.as_slice(), id.0 as usize) {
        Some(declared) => match declared.variants.place_of(&name.name) {
            Some(place) => Ok((id, number(place)?)),
            None => Err(Stop::Unknown(name.span)),
        },
        None => Err(Stop::Unknown(name.span)),
    }
}

/// The struct of this name, which braces follow.
///
/// # Errors
///
/// `Unknown` at the name where the first declared type of this name is no struct, or there is none.
/// `Memory` where its number is no number of 32 bits.
pub fn struct_of(tables: &Tables, name: &Ident) -> Result<TypeId, Stop>
    ensures { Gives (spec.known name.now.span (spec.struct_of tables.now name.now.name)) result }
{
    match tables.types.find(&name.name) {
        Some((place, declared)) => {
            if !declared.is_struct {
                return Err(Stop::Unknown(name.span));
            }
            Ok(TypeId(number(place)?))
        }
        None => Err(Stop::Unknown(name.span)),
    }
}

/// The path of a function of `mem`. Without `std::` it needs the `use`.
///
/// # Errors
///
/// `Unknown` at `mem` where there is neither.
pub fn swap_place(tables: &Tables, path: Span, mem: Span, std: bool) -> Result<Span, Stop>
    ensures { Gives (spec.swap_place tables.now path mem std) result }
{
    if std || tables.mem {
        Ok(path)
    } else {
        Err(Stop::Unknown(mem))
    }
}

/// Where the path of a function of `mem` that isn't called is declared nowhere.
pub fn uncalled_place(tables: &Tables, path: Span, mem: Span, std: bool) -> Span
    ensures { result ≡ spec.uncalled_place tables.now path mem std }
{
    if std || tables.mem { path } else { mem }
}
