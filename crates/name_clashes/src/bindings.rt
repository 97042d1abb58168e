//! The names that a pattern binds.

ghost use Rattle.std.specs.Prelude.{◌≡◌, [], ◌∷◌, ◌++◌, IfOk, OnOk};
ghost use Rattle.rust_ast.specs.SourcePatterns as source;
ghost use Rattle.name_clashes.specs.Twice as spec;

use crate::repeated::repeated_idents;
use aen_base::{List, NoMem, Span};
use name_tables::{Tables, empty_struct};
use rust_ast::Ident;
use rust_ast::source_patterns::{FieldPat, FieldPatNode, Pat, PatNode};
use std::alloc::Global;

/// A copy of an identifier. The only error is want of memory.
fn copied(alloc: Global, name: &Ident) -> Result<Ident, NoMem>
    ensures { IfOk result (λ i. i ≡ name.now) }
{
    Ok(Ident {
        name: name.name.try_clone(alloc)?,
        span: name.span,
    })
}

/// A binding more.
fn bind(alloc: Global, name: &Ident, names: &mut List<Ident>) -> Result<(), NoMem>
    ensures { OnOk result (names.new ≡ names.old ++ name.now ∷ []) }
{
    let name = copied(alloc, name)?;
    names.push(name)?;
    Ok(())
}

/// What a name alone binds.
fn bind_alone(
    alloc: Global,
    tables: &Tables,
    name: &Ident,
    names: &mut List<Ident>,
) -> Result<(), NoMem>
    ensures { OnOk result (names.new ≡ names.old ++ spec.bindings tables.now.values (source.lone name.now)) }
{
    if empty_struct(tables, &name.name).is_some() {
        return Ok(());
    }
    bind(alloc, name, names)?;
    Ok(())
}

/// Puts what a pattern binds behind these names, in source order. The only error is want of memory.
#[cycle(bindings)]
fn bindings(alloc: Global, tables: &Tables, pat: &Pat, names: &mut List<Ident>) -> Result<(), NoMem>
    ensures { OnOk result (names.new ≡ names.old ++ spec.bindings tables.now.values pat.now) }
{
    match &pat.node {
        PatNode::Wild(_) => Ok(()),
        PatNode::Lone(name) => Ok(bind_alone(alloc, tables, name, names)?),
        PatNode::MutBind(_, name) => Ok(bind(alloc, name, names)?),
        PatNode::Number(_, _, _, _) => Ok(()),
        PatNode::Truth(_, _) => Ok(()),
        PatNode::Tuple(_, parts) => Ok(bindings_all(alloc, tables, parts.as_slice(), names)?),
        PatNode::Construct(_, _, parts) => {
            Ok(bindings_all(alloc, tables, parts.as_slice(), names)?)
        }
        PatNode::Literal(_, _, fields) => {
            Ok(bindings_fields(alloc, tables, fields.as_slice(), names)?)
        }
    }
}

/// What patterns bind, from left to right.
#[cycle(bindings)]
fn bindings_all(
    alloc: Global,
    tables: &Tables,
    pats: &[Pat],
    names: &mut List<Ident>,
) -> Result<(), NoMem>
    ensures { OnOk result (names.new ≡ names.old ++ spec.bindings_all tables.now.values (source.pats pats.now)) }
{
    for i in 0..pats.len() {
        bindings(alloc, tables, &pats[i], names)?;
    }
    Ok(())
}

/// What fields bind, from left to right.
#[cycle(bindings)]
fn bindings_fields(
    alloc: Global,
    tables: &Tables,
    fields: &[FieldPat],
    names: &mut List<Ident>,
) -> Result<(), NoMem>
    ensures { OnOk result (names.new ≡ names.old ++ spec.bindings_fields tables.now.values (source.fieldpats fields.now)) }
{
    for i in 0..fields.len() {
        bindings_field(alloc, tables, &fields[i], names)?;
    }
    Ok(())
}

/// What a field binds: itself, where it is written short.
#[cycle(bindings)]
fn bindings_field(
    alloc: Global,
    tables: &Tables,
    field: &FieldPat,
    names: &mut List<Ident>,
) -> Result<(), NoMem>
    ensures { OnOk result (names.new ≡ names.old ++ spec.bindings_field tables.now.values field.now) }
{
    match &field.node {
        FieldPatNode::Short(name) => Ok(bind(alloc, name, names)?),
        FieldPatNode::Given(_, _, pat) => Ok(bindings(alloc, tables, pat.get(), names)?),
    }
}

/// The first binding that an earlier one of the same pattern has the name of. The only error is want
/// of memory.
#[tactic(auto, unfolding(crate::specs::Twice::twice_in_pattern))]
pub(crate) fn twice_in_pattern(
    alloc: Global,
    tables: &Tables,
    pat: &Pat,
) -> Result<Option<(Span, Span)>, NoMem>
    ensures { IfOk result (λ p. p ≡ spec.twice_in_pattern tables.now.values pat.now) }
{
    let mut names = List::new(alloc);
    bindings(alloc, tables, pat, &mut names)?;
    Ok(repeated_idents(alloc, names.as_slice())?)
}
