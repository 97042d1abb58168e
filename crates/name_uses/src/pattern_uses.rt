//! Patterns with names resolved; their bindings are numbered.

ghost use Rattle.std.specs.Prelude.{◌≡◌, IfOk};
ghost use Rattle.rust_ast.specs.Patterns as resolved;
ghost use Rattle.rust_ast.specs.SourcePatterns as source;
ghost use Rattle.name_tables.specs.Gives.{Gives, GivesAs};
ghost use Rattle.name_tables.specs.Lookups as lookups;
ghost use Rattle.name_uses.specs.PatternUses as spec;
ghost use Rattle.name_uses.specs.Walks.{in_form};

use crate::path_uses::{braced_path, no_turbos, placed_path};
use crate::state::State;
use aen_base::{List, Name, NoMem, Span};
use name_tables::{Generics, Stop, Tables, empty_struct, number};
use rust_ast::patterns::{Pat, PatNode};
use rust_ast::{Ident, source_patterns as source};
use std::alloc::Global;

/// A binding, with the span of the whole, and whether `mut` is written.
fn bound(
    alloc: Global,
    late: bool,
    whole: Span,
    mutable: bool,
    name: &Ident,
    state: State,
) -> Result<(Pat, State), NoMem>
    ensures { IfOk result (λ r. r ≡ spec.bound late whole mutable name.now state) }
{
    let variable = number(state.variables.len())?;
    let state = state.with_variable(alloc, mutable, late, name)?;
    let pat = Pat {
        node: PatNode::Bind(whole, name.span, mutable, variable),
    };
    Ok((pat, state))
}

/// A name alone: the pattern of a struct without fields, or a binding.
fn lone(
    alloc: Global,
    tables: &Tables,
    late: bool,
    name: &Ident,
    state: State,
) -> Result<(Pat, State), NoMem>
    ensures { IfOk result (λ r. r ≡ spec.lone_or late name.now (lookups.empty_struct tables.now.values name.now.name) state) }
{
    match empty_struct(tables, &name.name) {
        Some(id) => {
            let pat = Pat {
                node: PatNode::Construct(name.span, id, 0, no_turbos(), List::new(alloc)),
            };
            Ok((pat, state))
        }
        None => bound(alloc, late, name.span, false, name, state),
    }
}

/// A pattern. `late` where it stands in a `let` without a value.
#[cycle(patterns)]
pub(crate) fn resolve_pat(
    alloc: Global,
    tables: &Tables,
    generics: &Generics,
    late: bool,
    pat: &source::Pat,
    state: State,
) -> Result<(Pat, State), Stop>
    ensures { Gives (spec.read_pat tables.now generics.now late pat.now state) result }
{
    let (node, state) = match &pat.node {
        source::PatNode::Lone(name) => return Ok(lone(alloc, tables, late, name, state)?),
        source::PatNode::MutBind(span, name) => {
            return Ok(bound(alloc, late, *span, true, name, state)?);
        }
        source::PatNode::Wild(span) => (PatNode::Wild(*span), state),
        source::PatNode::Number(span, negative, magnitude, suffix) => {
            (
                PatNode::Number(*span, *negative, *magnitude, *suffix),
                state,
            )
        }
        source::PatNode::Truth(span, value) => (PatNode::Truth(*span, *value), state),
        source::PatNode::Tuple(span, parts) => {
            let (parts, state) = resolve_pats(
                alloc,
                tables,
                generics,
                late,
                parts.as_slice(),
                state,
            )?;
            (PatNode::Tuple(*span, parts), state)
        }
        source::PatNode::Construct(span, path, parts) => {
            let built = placed_path(alloc, tables, generics, path)?;
            let (parts, state) = resolve_pats(
                alloc,
                tables,
                generics,
                late,
                parts.as_slice(),
                state,
            )?;
            (
                PatNode::Construct(*span, built.id, built.variant, built.turbos, parts),
                state,
            )
        }
        source::PatNode::Literal(span, path, fields) => {
            let built = braced_path(alloc, tables, generics, path)?;
            let (fields, state) = resolve_fields(
                alloc,
                tables,
                generics,
                late,
                fields.as_slice(),
                state,
            )?;
            (
                PatNode::Literal(*span, built.id, built.variant, built.turbos, fields),
                state,
            )
        }
    };
    Ok((Pat { node }, state))
}

/// Patterns from left to right.
#[cycle(patterns)]
fn resolve_pats(
    alloc: Global,
    tables: &Tables,
    generics: &Generics,
    late: bool,
    pats: &[source::Pat],
    state: State,
) -> Result<(List<Pat>, State), Stop>
    ensures { GivesAs (in_form resolved.pats) (spec.read_pats tables.now generics.now late (source.pats pats.now) state) result }
{
    let mut done = List::new(alloc);
    let mut state = state;
    for i in 0..pats.len() {
        let (pat, next) = resolve_pat(alloc, tables, generics, late, &pats[i], state)?;
        done.push(pat)?;
        state = next;
    }
    Ok((done, state))
}

/// Fields in written order.
#[cycle(patterns)]
fn resolve_fields(
    alloc: Global,
    tables: &Tables,
    generics: &Generics,
    late: bool,
    fields: &[source::FieldPat],
    state: State,
) -> Result<(List<(Span, Name, Pat)>, State), Stop>
    ensures { GivesAs (in_form resolved.fieldpats) (spec.read_fields tables.now generics.now late (source.fieldpats fields.now) state) result }
{
    let mut done = List::new(alloc);
    let mut state = state;
    for i in 0..fields.len() {
        let (field, next) = resolve_field(alloc, tables, generics, late, &fields[i], state)?;
        done.push(field)?;
        state = next;
    }
    Ok((done, state))
}

/// A field; one that is written short binds.
#[cycle(patterns)]
fn resolve_field(
    alloc: Global,
    tables: &Tables,
    generics: &Generics,
    late: bool,
    field: &source::FieldPat,
    state: State,
) -> Result<((Span, Name, Pat), State), Stop>
    ensures { Gives (spec.read_field tables.now generics.now late field.now state) result }
{
    match &field.node {
        source::FieldPatNode::Short(name) => {
            let (pat, state) = bound(alloc, late, name.span, false, name, state)?;
            Ok(((name.span, name.name.try_clone(alloc)?, pat), state))
        }
        source::FieldPatNode::Given(span, name, pat) => {
            let (pat, state) = resolve_pat(alloc, tables, generics, late, pat.get(), state)?;
            Ok(((*span, name.try_clone(alloc)?, pat), state))
        }
    }
}
