//! What a program declares twice.

ghost use Rattle.std.specs.Prelude.{◌≡◌, [], ◌∷◌, ◌++◌, IfOk};
ghost use Rattle.rust_ast.specs.declared.program.Item.TheVariants as items;
ghost use Rattle.name_tables.specs.Finding as finding;
ghost use Rattle.name_clashes.specs.declared.entry.Kind.TheVariants as kinds;
ghost use Rattle.name_clashes.specs.Twice as spec;

use crate::entry::Kind;
use crate::repeated::{first, repeated, repeated_idents, repeated_parameters, with_second};
use crate::seen::Seen;
use crate::twice_bodies::twice_in_block;
use aen_base::{NoMem, Span};
use name_tables::Tables;
use rust_ast::Ident;
use rust_ast::program::{Enum, Fields, Function, Item, Struct, Variant};
use std::alloc::Global;

/// What a struct's name may not have in common with another.
fn struct_kind(fields: &Fields) -> Kind
    ensures { result ≡ spec.struct_kind fields.now }
{
    match fields {
        Fields::Named(fields) => {
            if fields.is_empty() {
                Kind::Both
            } else {
                Kind::Type
            }
        }
        Fields::Placed(_) => Kind::Both,
    }
}

/// The first field's name that stands before it.
fn repeated_field(alloc: Global, fields: &Fields) -> Result<Option<(Span, Span)>, NoMem>
    ensures { IfOk result (λ p. p ≡ spec.repeated [] (spec.field_names fields.now)) }
{
    match fields {
        Fields::Named(fields) => Ok(repeated(alloc, fields.as_slice())?),
        Fields::Placed(_) => Ok(None),
    }
}

/// The place that a name of this kind must differ from and doesn't, with its own.
#[tactic(auto, using(crate::proofs::Repeating::own_alone))]
fn name_place(seen: &Seen, kind: Kind, name: &Ident) -> Option<(Span, Span)>
    ensures { result ≡ spec.twice_own seen.now (spec.entry kind name.now ∷ []) }
{
    with_second(name.span, seen.find(kind, &name.name))
}

/// The names so far with type parameters.
fn with_parameters(alloc: Global, seen: Seen, params: &[Ident]) -> Result<Seen, NoMem>
    ensures { IfOk result (λ s. s ≡ seen ++ spec.entries kinds.Parameter params.now) }
{
    let mut seen = seen;
    for i in 0..params.len() {
        let next = seen.with(alloc, Kind::Parameter, &params[i])?;
        seen = next;
    }
    Ok(seen)
}

/// What an item's own name and its type parameters repeat, and the names so far with these.
fn with_item_names(
    alloc: Global,
    seen: Seen,
    kind: Kind,
    name: &Ident,
    params: &[Ident],
) -> Result<(Option<(Span, Span)>, Option<(Span, Span)>, Seen), NoMem>
    ensures own { IfOk result (λ r. r.0 ≡ spec.twice_own seen (spec.entry kind name.now ∷ [])) }
    ensures parameters { IfOk result (λ r. r.1 ≡ spec.repeated_parameter (seen ++ spec.entry kind name.now ∷ []) [] params.now) }
    ensures names { IfOk result (λ r. r.2 ≡ (seen ++ spec.entry kind name.now ∷ []) ++ spec.entries kinds.Parameter params.now) }
{
    let own = name_place(&seen, kind, name);
    let named = seen.with(alloc, kind, name)?;
    let repeated = repeated_parameters(alloc, &named, params)?;
    let all = with_parameters(alloc, named, params)?;
    Ok((own, repeated, all))
}

/// The first among a function's parameters, and in its body.
fn twice_in_function(
    alloc: Global,
    tables: &Tables,
    f: &Function,
) -> Result<Option<(Span, Span)>, NoMem>
    ensures { IfOk result (λ p. p ≡ finding.or_else (spec.repeated [] (spec.param_idents f.now.params)) (spec.twice_in_block tables.now.values f.now.body)) }
{
    let params = repeated(alloc, f.params.as_slice())?;
    let body = twice_in_block(alloc, tables, &f.body)?;
    Ok(first(params, body))
}

/// The first in a function, and the names so far with the function's.
fn twice_in_named_function(
    alloc: Global,
    tables: &Tables,
    seen: Seen,
    f: &Function,
) -> Result<(Option<(Span, Span)>, Seen), NoMem>
    ensures places { IfOk result (λ r. r.0 ≡ spec.twice_in_item tables.now.values seen (items.Function f.now)) }
    ensures names { IfOk result (λ r. r.1 ≡ spec.with_entries seen (items.Function f.now)) }
{
    let parameters = f.type_params.as_slice();
    let (own, params, more) = with_item_names(alloc, seen, Kind::Value, &f.name, parameters)?;
    let lifetimes = repeated_idents(alloc, f.lifetimes.as_slice())?;
    let inside = twice_in_function(alloc, tables, f)?;
    let rest = first(params, inside);
    let later = first(lifetimes, rest);
    let places = first(own, later);
    Ok((places, more))
}

/// The first in a struct, and the names so far with the struct's.
fn twice_in_struct(
    alloc: Global,
    tables: &Tables,
    seen: Seen,
    s: &Struct,
) -> Result<(Option<(Span, Span)>, Seen), NoMem>
    ensures places { IfOk result (λ r. r.0 ≡ spec.twice_in_item tables.now.values seen (items.Struct s.now)) }
    ensures names { IfOk result (λ r. r.1 ≡ spec.with_entries seen (items.Struct s.now)) }
{
    let kind = struct_kind(&s.fields);
    let parameters = s.params.as_slice();
    let (own, params, more) = with_item_names(alloc, seen, kind, &s.name, parameters)?;
    let inside = repeated_field(alloc, &s.fields)?;
    let rest = first(params, inside);
    let places = first(own, rest);
    Ok((places, more))
}

/// The first variant's name that stands before it.
fn repeated_variant(alloc: Global, variants: &[Variant]) -> Result<Option<(Span, Span)>, NoMem>
    ensures { IfOk result (λ p. p ≡ spec.repeated [] (spec.variant_idents variants.now)) }
{
    Ok(repeated(alloc, variants)?)
}

/// The first in an enum, and the names so far with the enum's.
fn twice_in_enum(
    alloc: Global,
    tables: &Tables,
    seen: Seen,
    e: &Enum,
) -> Result<(Option<(Span, Span)>, Seen), NoMem>
    ensures places { IfOk result (λ r. r.0 ≡ spec.twice_in_item tables.now.values seen (items.Enum e.now)) }
    ensures names { IfOk result (λ r. r.1 ≡ spec.with_entries seen (items.Enum e.now)) }
{
    let parameters = e.params.as_slice();
    let (own, params, more) = with_item_names(alloc, seen, Kind::Type, &e.name, parameters)?;
    let inside = repeated_variant(alloc, e.variants.as_slice())?;
    let rest = first(params, inside);
    let places = first(own, rest);
    Ok((places, more))
}

/// The first in an item, and the names so far with the item's.
#[tactic(auto, unfolding(crate::specs::Twice::twice_in_item))]
fn twice_in_item(
    alloc: Global,
    tables: &Tables,
    seen: Seen,
    item: &Item,
) -> Result<(Option<(Span, Span)>, Seen), NoMem>
    ensures places { IfOk result (λ r. r.0 ≡ spec.twice_in_item tables.now.values seen item.now) }
    ensures names { IfOk result (λ r. r.1 ≡ spec.with_entries seen item.now) }
{
    match item {
        Item::Function(f) => Ok(twice_in_named_function(alloc, tables, seen, f)?),
        Item::Struct(s) => Ok(twice_in_struct(alloc, tables, seen, s)?),
        Item::Enum(e) => Ok(twice_in_enum(alloc, tables, seen, e)?),
        Item::UseMem => Ok((None, seen)),
    }
}

/// The first place in source order that declares what an earlier one declares, behind the first such
/// place.
///
/// # Errors
///
/// `NoMem` for want of memory alone.
pub fn twice_in_items(
    alloc: Global,
    tables: &Tables,
    items: &[Item],
) -> Result<Option<(Span, Span)>, NoMem>
    ensures { IfOk result (λ p. p ≡ spec.twice_in_items tables.now.values [] items.now) }
{
    let mut seen = Seen::new(alloc);
    let mut found = None;
    for i in 0..items.len() {
        let (places, next) = twice_in_item(alloc, tables, seen, &items[i])?;
        let more = first(found, places);
        found = more;
        seen = next;
    }
    Ok(found)
}
