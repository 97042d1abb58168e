//! Prints code.
ghost use Rattle.std.specs.Prelude.{◌≡◌, [], ◌∷◌, ◌++◌, OnOk, string_bytes, codes};
ghost use Rattle.pure_ast.specs.Code as trees;
ghost use Rattle.text_meaning.specs.ShownCode as spec;
ghost use Rattle.text_meaning.specs.ShownTerms as terms;

use crate::put::{put, put_line, put_variable};
use crate::terms::{put_comp, put_pattern, put_term};
use aen_base::NoMem;
use pure_ast::{Code, CodeNode, Comp, Defs, Pat, Term};

/// Begins a line with `let` and the variable.
fn put_let(out: &mut String, k: usize, variable: u32) -> Result<(), NoMem>
    ensures { OnOk result (string_bytes out.new ≡ string_bytes out.old ++ (spec.new_line k ++ spec.let_text variable)) }
{
    put_line(out, k)?;
    put(out, "let ")?;
    put_variable(out, variable as u64)
}

/// Adds the line of a bind.
fn put_bind(
    out: &mut String,
    defs: &Defs,
    k: usize,
    variable: u32,
    comp: &Comp,
) -> Result<(), NoMem>
    ensures { OnOk result (string_bytes out.new ≡ string_bytes out.old ++ (spec.new_line k ++ (spec.let_text variable ++ (spec.from ++ (terms.comp_text defs.now comp.now ++ (59 ∷ [])))))) }
{
    put_let(out, k, variable)?;
    put(out, " ← ")?;
    put_comp(out, defs, comp)?;
    put(out, ";")
}

/// Adds the line of a variable for a term.
fn put_put(out: &mut String, defs: &Defs, k: usize, variable: u32, term: &Term) -> Result<(), NoMem>
    ensures { OnOk result (string_bytes out.new ≡ string_bytes out.old ++ (spec.new_line k ++ (spec.let_text variable ++ (codes " := " ++ (terms.term_text defs.now term.now ++ (59 ∷ [])))))) }
{
    put_let(out, k, variable)?;
    put(out, " := ")?;
    put_term(out, defs, term)?;
    put(out, ";")
}

/// Adds the head of a match.
fn put_head(out: &mut String, defs: &Defs, term: &Term) -> Result<(), NoMem>
    ensures { OnOk result (string_bytes out.new ≡ string_bytes out.old ++ (codes "(match " ++ (terms.term_text defs.now term.now ++ codes " with"))) }
{
    put(out, "(match ")?;
    put_term(out, defs, term)?;
    put(out, " with")
}

/// Adds the line of a bind up to the head of its match.
fn put_bind_head(
    out: &mut String,
    defs: &Defs,
    k: usize,
    variable: u32,
    term: &Term,
) -> Result<(), NoMem>
    ensures { OnOk result (string_bytes out.new ≡ string_bytes out.old ++ (spec.new_line k ++ (spec.let_text variable ++ (spec.from ++ (codes "(match " ++ (terms.term_text defs.now term.now ++ codes " with")))))) }
{
    put_let(out, k, variable)?;
    put(out, " ← ")?;
    put_head(out, defs, term)
}

/// Adds the head of an arm.
fn put_arm(out: &mut String, defs: &Defs, k: usize, pattern: &Pat) -> Result<(), NoMem>
    ensures { OnOk result (string_bytes out.new ≡ string_bytes out.old ++ (spec.new_line k ++ (codes "| " ++ (terms.pat_text defs.now pattern.now ++ codes " => do")))) }
{
    put_line(out, k)?;
    put(out, "| ")?;
    put_pattern(out, defs, pattern)?;
    put(out, " => do")
}

/// Adds code in lines with `k` spaces. A chain of binds is gone through in a loop.
#[cycle(code)]
pub(crate) fn put_code(out: &mut String, defs: &Defs, k: usize, code: &Code) -> Result<(), NoMem>
    ensures { OnOk result (string_bytes out.new ≡ string_bytes out.old ++ spec.code_text defs.now k code.now) }
{
    let mut left = code;
    'chain: loop {
        match &left.node {
            CodeNode::Bind(variable, comp, rest) => {
                put_bind(out, defs, k, *variable, comp)?;
                left = rest.get();
            }
            CodeNode::Let(variable, term, rest) => {
                put_put(out, defs, k, *variable, term)?;
                left = rest.get();
            }
            CodeNode::Match(term, arms) => {
                put_line(out, k)?;
                put_head(out, defs, term)?;
                put_arms(out, defs, k, arms.as_slice())?;
                return Ok(put(out, ")")?);
            }
            CodeNode::Last(comp) => {
                put_line(out, k)?;
                return Ok(put_comp(out, defs, comp)?);
            }
            CodeNode::BindMatch(variable, term, arms, rest) => {
                put_bind_match(out, defs, k, *variable, term, arms.as_slice())?;
                left = rest.get();
            }
        }
    }
}

/// Adds the lines of a bind of a match.
#[cycle(code)]
fn put_bind_match(
    out: &mut String,
    defs: &Defs,
    k: usize,
    variable: u32,
    term: &Term,
    arms: &[(Pat, Code)],
) -> Result<(), NoMem>
    ensures { OnOk result (string_bytes out.new ≡ string_bytes out.old ++ (spec.new_line k ++ (spec.let_text variable ++ (spec.from ++ (codes "(match " ++ (terms.term_text defs.now term.now ++ (codes " with" ++ (spec.arms_text defs.now k (trees.arms arms.now) ++ codes ");")))))))) }
{
    put_bind_head(out, defs, k, variable, term)?;
    put_arms(out, defs, k, arms)?;
    Ok(put(out, ");")?)
}

/// Adds the arms of a match, each on a line of its own with `k` spaces, their code with 2 more.
#[cycle(code)]
fn put_arms(out: &mut String, defs: &Defs, k: usize, arms: &[(Pat, Code)]) -> Result<(), NoMem>
    ensures { OnOk result (string_bytes out.new ≡ string_bytes out.old ++ spec.arms_text defs.now k (trees.arms arms.now)) }
{
    let Some(deeper) = k.checked_add(2) else {
        return Err(NoMem);
    };
    for arm in arms {
        put_arm(out, defs, k, &arm.0)?;
        put_code(out, defs, deeper, &arm.1)?;
    }
    Ok(())
}
