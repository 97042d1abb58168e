//! Names that must differ among themselves.

ghost use Rattle.std.specs.Prelude.{◌≡◌, [], map, bytes_eq, IfOk};
ghost use Rattle.indexmap.specs.IndexMap.{get};
ghost use Rattle.rust_ast.specs.declared.ident.Ident.{Ident};
ghost use Rattle.name_tables.specs.Finding as finding;
ghost use Rattle.name_clashes.specs.declared.entry.Kind.TheVariants as kind;
ghost use Rattle.name_clashes.specs.Twice as spec;

use crate::entry::Kind;
use crate::seen::{Seen, note};
use aen_base::{Name, NoMem, Span};
use indexmap::IndexMap;
use rust_ast::Ident;
use rust_ast::program::{Param, Variant};
use rust_ast::source_types::Written;
use std::alloc::Global;

/// What declares a name.
pub(crate) trait Declares {
    /// The name where it stands.
    ghost declared: { Self → Ident };

    /// The name.
    fn name(&self) -> &Name
        ensures { result.now ≡ (declared self.now).name };

    /// Where the name stands.
    fn span(&self) -> Span
        ensures { result ≡ (declared self.now).span };
}

impl Declares for Ident {
    ghost declared = { λ i. i };

    fn name(&self) -> &Name {
        &self.name
    }

    fn span(&self) -> Span {
        self.span
    }
}

impl Declares for Param {
    ghost declared = { λ x. x.name };

    fn name(&self) -> &Name {
        &self.name.name
    }

    fn span(&self) -> Span {
        self.name.span
    }
}

impl Declares for Variant {
    ghost declared = { λ v. v.name };

    fn name(&self) -> &Name {
        &self.name.name
    }

    fn span(&self) -> Span {
        self.name.span
    }
}

impl Declares for (Span, Name, Written) {
    ghost declared = { λ x. spec.to_ident x };

    fn name(&self) -> &Name {
        &self.1
    }

    fn span(&self) -> Span {
        self.0
    }
}

/// The first that there is.
pub(crate) fn first(a: Option<(Span, Span)>, b: Option<(Span, Span)>) -> Option<(Span, Span)>
    ensures { result ≡ finding.or_else a b }
{
    match a {
        Some(places) => Some(places),
        None => b,
    }
}

/// The two places, if there is a first.
pub(crate) fn with_second(second: Span, first: Option<Span>) -> Option<(Span, Span)>
    ensures { result ≡ spec.with_second second first }
{
    match first {
        Some(first) => Some((first, second)),
        None => None,
    }
}

/// The first place of this name, among the program's names or those before it.
fn earlier(seen: &Seen, before: &IndexMap<Name, Span>, name: &Name) -> Option<Span>
    ensures { result ≡ finding.or_else (spec.first_like kind.Parameter name.now seen.now) (get bytes_eq before.now name.now) }
{
    match seen.find(Kind::Parameter, name) {
        Some(place) => Some(place),
        None => before.get(name).copied(),
    }
}

/// The first of these names that stands before it among them, or that is one of the program's which
/// a type parameter must differ from. The only error is want of memory.
pub(crate) fn repeated_beside<T: Declares>(
    alloc: Global,
    seen: &Seen,
    items: &[T],
) -> Result<Option<(Span, Span)>, NoMem>
    ensures { IfOk result (λ p. p ≡ spec.repeated_parameter seen.now [] (map T.declared items.now)) }
{
    let mut before = IndexMap::new(alloc);
    let mut found = None;
    for i in 0..items.len() {
        let item = &items[i];
        let name = item.name();
        let place = item.span();
        let early = earlier(seen, &before, name);
        let places = with_second(place, early);
        let more = first(found, places);
        found = more;
        note(alloc, &mut before, name, place)?;
    }
    Ok(found)
}

/// The first of these names that stands before it among them. The only error is want of memory.
#[tactic(auto, using(crate::proofs::Repeating::beside_nothing))]
pub(crate) fn repeated<T: Declares>(
    alloc: Global,
    items: &[T],
) -> Result<Option<(Span, Span)>, NoMem>
    ensures { IfOk result (λ p. p ≡ spec.repeated [] (map T.declared items.now)) }
{
    let nothing = Seen::new(alloc);
    Ok(repeated_beside(alloc, &nothing, items)?)
}

/// The first of these names that stands before it among them. The only error is want of memory.
#[tactic(auto, using(crate::proofs::Repeating::map_same))]
pub(crate) fn repeated_idents(alloc: Global, items: &[Ident]) -> Result<Option<(Span, Span)>, NoMem>
    ensures { IfOk result (λ p. p ≡ spec.repeated [] items.now) }
{
    Ok(repeated(alloc, items)?)
}

/// The first type parameter that stands before it among these, or that is one of the program's
/// types. The only error is want of memory.
#[tactic(auto, using(crate::proofs::Repeating::map_same))]
pub(crate) fn repeated_parameters(
    alloc: Global,
    seen: &Seen,
    params: &[Ident],
) -> Result<Option<(Span, Span)>, NoMem>
    ensures { IfOk result (λ p. p ≡ spec.repeated_parameter seen.now [] params.now) }
{
    Ok(repeated_beside(alloc, seen, params)?)
}
