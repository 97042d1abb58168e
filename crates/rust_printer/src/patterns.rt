//! Prints patterns.
ghost use Rattle.std.specs.Prelude.{◌≡◌, ◌++◌, OnOk, string_bytes, codes};
ghost use Rattle.rust_ast.specs.SourcePatterns as trees;
ghost use Rattle.rust_printer.specs.ShownPatterns as spec;

use crate::put::{put, put_number, put_word};
use crate::types::put_path;
use crate::words::truth_word;
use aen_base::NoMem;
use rust_ast::source_patterns::{FieldPat, FieldPatNode, Pat, PatNode};

/// Adds a pattern.
#[cycle(pattern)]
pub(crate) fn put_pattern(out: &mut String, pattern: &Pat) -> Result<(), NoMem>
    ensures { OnOk result (string_bytes out.new ≡ string_bytes out.old ++ spec.pattern_text pattern.now) }
{
    match &pattern.node {
        PatNode::Wild(_) => Ok(put(out, "_ ")?),
        PatNode::Lone(name) => Ok(put_word(out, name.name.as_str())?),
        PatNode::MutBind(_, name) => {
            put(out, "mut ")?;
            Ok(put_word(out, name.name.as_str())?)
        }
        PatNode::Number(_, negative, size, suffix) => {
            Ok(put_number(out, *negative, *size, *suffix)?)
        }
        PatNode::Truth(_, value) => Ok(put(out, truth_word(*value))?),
        PatNode::Tuple(_, parts) => Ok(put_placed(out, parts.as_slice())?),
        PatNode::Construct(_, path, parts) => {
            put_path(out, path)?;
            Ok(put_placed(out, parts.as_slice())?)
        }
        PatNode::Literal(_, path, parts) => {
            put_path(out, path)?;
            put(out, "{ ")?;
            put_field_patterns(out, parts.as_slice())?;
            Ok(put(out, "} ")?)
        }
    }
}

/// Adds patterns in round brackets.
#[cycle(pattern)]
fn put_placed(out: &mut String, parts: &[Pat]) -> Result<(), NoMem>
    ensures { OnOk result (string_bytes out.new ≡ string_bytes out.old ++ (codes "( " ++ (spec.patterns_text (trees.pats parts.now) ++ codes ") "))) }
{
    put(out, "( ")?;
    put_patterns(out, parts)?;
    Ok(put(out, ") ")?)
}

/// Adds patterns, each with a comma.
#[cycle(pattern)]
fn put_patterns(out: &mut String, parts: &[Pat]) -> Result<(), NoMem>
    ensures { OnOk result (string_bytes out.new ≡ string_bytes out.old ++ spec.patterns_text (trees.pats parts.now)) }
{
    for part in parts {
        put_pattern(out, part)?;
        put(out, ", ")?;
    }
    Ok(())
}

#[cycle(pattern)]
fn put_field_pattern(out: &mut String, pattern: &FieldPat) -> Result<(), NoMem>
    ensures { OnOk result (string_bytes out.new ≡ string_bytes out.old ++ spec.field_pattern_text pattern.now) }
{
    match &pattern.node {
        FieldPatNode::Short(name) => Ok(put_word(out, name.name.as_str())?),
        FieldPatNode::Given(_, name, part) => {
            put_word(out, name.as_str())?;
            put(out, ": ")?;
            Ok(put_pattern(out, part.get())?)
        }
    }
}

/// Adds fields with their patterns, each with a comma.
#[cycle(pattern)]
fn put_field_patterns(out: &mut String, parts: &[FieldPat]) -> Result<(), NoMem>
    ensures { OnOk result (string_bytes out.new ≡ string_bytes out.old ++ spec.field_patterns_text (trees.fieldpats parts.now)) }
{
    for part in parts {
        put_field_pattern(out, part)?;
        put(out, ", ")?;
    }
    Ok(())
}
