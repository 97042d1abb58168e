//! Prints terms, patterns and computations.
ghost use Rattle.std.specs.Prelude.{◌≡◌, ◌++◌, OnOk, string_bytes};
ghost use Rattle.std.specs.List.{flat_map};
ghost use Rattle.pure_ast.specs.Terms as trees;
ghost use Rattle.text_meaning.specs.ShownTerms as spec;

use crate::names::{put_callee, put_ctor, put_primitive};
use crate::put::{put, put_number, put_variable};
use aen_base::NoMem;
use pure_ast::{Comp, CtorId, Defs, Pat, Term, TermNode};

pub(crate) fn put_truth(out: &mut String, value: bool) -> Result<(), NoMem>
    ensures { OnOk result (string_bytes out.new ≡ string_bytes out.old ++ spec.truth_text value) }
{
    if value {
        put(out, "true")
    } else {
        put(out, "false")
    }
}

#[cycle(term)]
pub(crate) fn put_term(out: &mut String, defs: &Defs, term: &Term) -> Result<(), NoMem>
    ensures { OnOk result (string_bytes out.new ≡ string_bytes out.old ++ spec.term_text defs.now term.now) }
{
    match &term.node {
        TermNode::Var(variable) => Ok(put_variable(out, *variable as u64)?),
        TermNode::Lit(number) => Ok(put_number(out, *number)?),
        TermNode::Bool(value) => Ok(put_truth(out, *value)?),
        TermNode::Tuple(parts) => Ok(put_tuple(out, defs, parts.as_slice())?),
        TermNode::Ctor(ctor, parts) => Ok(put_built(out, defs, *ctor, parts.as_slice())?),
    }
}

#[cycle(term)]
fn put_tuple(out: &mut String, defs: &Defs, parts: &[Term]) -> Result<(), NoMem>
    ensures { OnOk result (string_bytes out.new ≡ string_bytes out.old ++ spec.term_text defs.now (trees.tuple (trees.terms parts.now))) }
{
    match parts {
        [] => Ok(put(out, "()")?),
        [first, rest @ ..] => {
            put(out, "(")?;
            put_term(out, defs, first)?;
            put_comma_terms(out, defs, rest)?;
            Ok(put(out, ")")?)
        }
    }
}

#[cycle(term)]
fn put_built(out: &mut String, defs: &Defs, ctor: CtorId, parts: &[Term]) -> Result<(), NoMem>
    ensures { OnOk result (string_bytes out.new ≡ string_bytes out.old ++ spec.term_text defs.now (trees.built ctor (trees.terms parts.now))) }
{
    match parts {
        [] => Ok(put_ctor(out, defs, ctor)?),
        [first, rest @ ..] => {
            put(out, "(")?;
            put_ctor(out, defs, ctor)?;
            put(out, " ")?;
            put_term(out, defs, first)?;
            put_spaced_terms(out, defs, rest)?;
            Ok(put(out, ")")?)
        }
    }
}

#[cycle(term)]
fn put_spaced_terms(out: &mut String, defs: &Defs, parts: &[Term]) -> Result<(), NoMem>
    ensures { OnOk result (string_bytes out.new ≡ string_bytes out.old ++ spec.spaced_terms defs.now (trees.terms parts.now)) }
{
    for part in parts {
        put(out, " ")?;
        put_term(out, defs, part)?;
    }
    Ok(())
}

#[cycle(term)]
fn put_comma_terms(out: &mut String, defs: &Defs, parts: &[Term]) -> Result<(), NoMem>
    ensures { OnOk result (string_bytes out.new ≡ string_bytes out.old ++ spec.comma_terms defs.now (trees.terms parts.now)) }
{
    for part in parts {
        put(out, ", ")?;
        put_term(out, defs, part)?;
    }
    Ok(())
}

fn put_spaced_variables(out: &mut String, variables: &[u32]) -> Result<(), NoMem>
    ensures { OnOk result (string_bytes out.new ≡ string_bytes out.old ++ spec.spaced_variables variables.now) }
{
    for variable in variables {
        put(out, " ")?;
        put_variable(out, *variable as u64)?;
    }
    Ok(())
}

fn put_comma_variables(out: &mut String, variables: &[u32]) -> Result<(), NoMem>
    ensures { OnOk result (string_bytes out.new ≡ string_bytes out.old ++ spec.comma_text variables.now) }
{
    for variable in variables {
        put(out, ", ")?;
        put_variable(out, *variable as u64)?;
    }
    Ok(())
}

fn put_joined_variables(out: &mut String, variables: &[u32]) -> Result<(), NoMem>
    ensures { OnOk result (string_bytes out.new ≡ string_bytes out.old ++ spec.joined_variables variables.now) }
{
    match variables {
        [] => Ok(()),
        [first, rest @ ..] => {
            put_variable(out, *first as u64)?;
            put_comma_variables(out, rest)
        }
    }
}

pub(crate) fn put_pattern(out: &mut String, defs: &Defs, pattern: &Pat) -> Result<(), NoMem>
    ensures { OnOk result (string_bytes out.new ≡ string_bytes out.old ++ spec.pat_text defs.now pattern.now) }
{
    match pattern {
        Pat::Bool(value) => put_truth(out, *value),
        Pat::Tuple(variables) => {
            put(out, "(")?;
            put_joined_variables(out, variables.as_slice())?;
            put(out, ")")
        }
        Pat::Ctor(ctor, variables) => {
            put_ctor(out, defs, *ctor)?;
            put_spaced_variables(out, variables.as_slice())
        }
    }
}

pub(crate) fn put_comp(out: &mut String, defs: &Defs, comp: &Comp) -> Result<(), NoMem>
    ensures { OnOk result (string_bytes out.new ≡ string_bytes out.old ++ spec.comp_text defs.now comp.now) }
{
    match comp {
        Comp::Ok(term) => {
            put(out, "ok ")?;
            put_term(out, defs, term)
        }
        Comp::Fail => put(out, "fail"),
        Comp::Call(def, parts) => {
            put_callee(out, defs, *def)?;
            put(out, " n")?;
            put_spaced_terms(out, defs, parts.as_slice())
        }
        Comp::Prim(primitive, parts) => {
            put_primitive(out, *primitive)?;
            put_spaced_terms(out, defs, parts.as_slice())
        }
    }
}
