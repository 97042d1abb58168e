//! The names of items and type parameters so far.

ghost use Rattle.std.specs.Prelude.{◌≡◌, ℕ, [], ◌∷◌, ◌++◌, List, Some, None, if◌then◌else◌, bytes_eq, IfOk, OnOk};
ghost use Rattle.indexmap.specs.IndexMap.{get};
ghost use Rattle.name_tables.specs.Finding as finding;
ghost use Rattle.name_clashes.specs.Twice as spec;

use crate::entry::{Entry, Kind, must_differ};
use aen_base::{List, Name, NoMem, Span};
use indexmap::IndexMap;
use rust_ast::Ident;
use std::alloc::Global;
use std::marker::Model;

/// The names of items and type parameters so far: contracts see the list of them.
pub(crate) struct Seen {
    entries: List<Entry>,
    places: Places,
}

/// By hand, as a derived `drop` is written out at each `?`.
impl Drop for Seen {
    fn drop(self) {
        let Seen {
            entries: _,
            places: _,
        } = self;
    }
}

/// Of each name the first places that names must differ from.
pub(crate) struct Places {
    /// Of each name the first place that a type of this name must differ from.
    types: IndexMap<Name, Span>,
    /// The same for a function.
    values: IndexMap<Name, Span>,
    /// The same for a struct with a constructor.
    both: IndexMap<Name, Span>,
    /// The same for a type parameter.
    parameters: IndexMap<Name, Span>,
}

/// By hand, as a derived `drop` is written out at each `?`.
impl Drop for Places {
    fn drop(self) {
        let Places {
            types: _,
            values: _,
            both: _,
            parameters: _,
        } = self;
    }
}

impl Model for Seen {
    ghost use Rattle.std.specs.Prelude.{List};
    ghost use Rattle.std.specs.Coded.{coded_list};
    ghost use Rattle.name_clashes.specs.declared.entry.Entry.{Entry};
    ghost use Rattle.name_clashes.specs.contracts.entry.Entry as entry;

    ghost Value = { List Entry };

    ghost coded = { coded_list entry.the_row.coded };

    ghost use Rattle.std.specs.Str.{bytes_eq};
    ghost use Rattle.indexmap.specs.IndexMap.{get};
    ghost use Rattle.name_clashes.specs.declared.entry.Kind.TheVariants as kind;
    ghost use Rattle.name_clashes.specs.FirstPlaces.{AreFirst};

    ghost view = { λ s. s.entries };

    ghost invariant = { λ s. AreFirst kind.Type (get bytes_eq s.places.types) s.entries × AreFirst kind.Value (get bytes_eq s.places.values) s.entries × AreFirst kind.Both (get bytes_eq s.places.both) s.entries × AreFirst kind.Parameter (get bytes_eq s.places.parameters) s.entries };
}

impl Seen {
    /// No names.
    pub(crate) fn new(alloc: Global) -> Seen
        ensures { result ≡ [] }
    {
        Seen {
            entries: List::new(alloc),
            places: Places {
                types: IndexMap::new(alloc),
                values: IndexMap::new(alloc),
                both: IndexMap::new(alloc),
                parameters: IndexMap::new(alloc),
            },
        }
    }

    /// The place of the first that a name of this kind must differ from and doesn't.
    pub(crate) fn find(&self, kind: Kind, name: &Name) -> Option<Span>
        ensures { result ≡ spec.first_like kind name.now self.now }
    {
        match kind {
            Kind::Type => self.places.types.get(name).copied(),
            Kind::Value => self.places.values.get(name).copied(),
            Kind::Both => self.places.both.get(name).copied(),
            Kind::Parameter => self.places.parameters.get(name).copied(),
        }
    }

    /// One more name. The only error is want of memory.
    pub(crate) fn with(self, alloc: Global, kind: Kind, name: &Ident) -> Result<Seen, NoMem>
        ensures { IfOk result (λ s. s ≡ self ++ spec.entry kind name.now ∷ []) }
    {
        let Seen {
            mut entries,
            mut places,
        } = self;
        let of_types = must_differ(Kind::Type, kind);
        let of_values = must_differ(Kind::Value, kind);
        let of_both = must_differ(Kind::Both, kind);
        let of_parameters = must_differ(Kind::Parameter, kind);
        note_for(alloc, &mut places.types, of_types, name)?;
        note_for(alloc, &mut places.values, of_values, name)?;
        note_for(alloc, &mut places.both, of_both, name)?;
        note_for(alloc, &mut places.parameters, of_parameters, name)?;
        let own = name.name.try_clone(alloc)?;
        entries.push(Entry {
            name: own,
            span: name.span,
            kind,
        })?;
        Ok(Seen { entries, places })
    }
}

/// Gives a name its place, where it has none yet. The only error is want of memory.
pub(crate) fn note(
    alloc: Global,
    table: &mut IndexMap<Name, Span>,
    name: &Name,
    place: Span,
) -> Result<(), NoMem>
    ensures { OnOk result ((w : List ℕ) → get bytes_eq table.new w ≡ finding.or_else (get bytes_eq table.old w) (if bytes_eq name.now w then Some place else None)) }
{
    if table.get(name).is_none() {
        let key = name.try_clone(alloc)?;
        table.insert(key, place)?;
    }
    Ok(())
}

/// The same where the name counts for this table.
fn note_for(
    alloc: Global,
    table: &mut IndexMap<Name, Span>,
    counts: bool,
    name: &Ident,
) -> Result<(), NoMem>
    ensures { OnOk result ((w : List ℕ) → get bytes_eq table.new w ≡ (if counts then finding.or_else (get bytes_eq table.old w) (if bytes_eq name.now.name w then Some name.now.span else None) else get bytes_eq table.old w)) }
{
    if counts {
        note(alloc, table, &name.name, name.span)?;
    }
    Ok(())
}
