//! Names between `«` and `»`.

ghost use Rattle.std.specs.Prelude.{◌≡◌, IfOk, chars};
ghost use Rattle.rust_lex.specs.Identifiers as identifiers;
ghost use Rattle.text_tokens.specs.Fronts as fronts;
ghost use Rattle.text_tokens.specs.Naming as names;
ghost use Rattle.text_tokens.specs.Scan as spec;

use crate::classes::{after, begins_two};
use aen_base::{Name, NoMem};
use rust_lex::{ident_end, name_of};
use std::alloc::Global;

/// How many bytes stand before the first `»`.
pub(crate) fn close_at(bytes: &[u8]) -> Option<usize>
    ensures { result ≡ fronts.close_at bytes.now }
{
    for at in 0..bytes.len() {
        if begins_two(0xc2, 0xbb, after(bytes, at)) {
            return Some(at);
        }
    }
    None
}

/// Whether a text is an identifier. It takes no memory.
fn is_identifier(text: &str) -> bool
    ensures { result ≡ identifiers.is_identifier text.now }
{
    match ident_end(text, 0) {
        Some(end) => end == text.len(),
        None => false,
    }
}

/// The name whose spelling is this text: its normal form, where both are identifiers. The only error
/// is want of memory.
fn spelled_name(alloc: Global, text: &str) -> Result<Option<Name>, NoMem>
    ensures { IfOk result (λ o. o ≡ spec.spelled_name (chars text.now)) }
{
    if !is_identifier(text) {
        return Ok(None);
    }
    let name = name_of(alloc, text)?;
    if !is_identifier(name.as_str()) {
        return Ok(None);
    }
    Ok(Some(name))
}

/// Whether this is the normal form of an identifier. The only error is want of memory.
pub fn is_name(alloc: Global, text: &str) -> Result<bool, NoMem>
    ensures { IfOk result (λ b. b ≡ names.is_name text.now) }
{
    if !is_identifier(text) {
        return Ok(false);
    }
    let name = name_of(alloc, text)?;
    Ok(name.as_str() == text)
}

/// The name that is spelled between marks. The only error is want of memory.
#[tactic(auto, using(crate::proofs::Marking::not_text, crate::proofs::Marking::text_name))]
pub(crate) fn marked_name(alloc: Global, inner: &[u8]) -> Result<Option<Name>, NoMem>
    ensures { IfOk result (λ o. o ≡ spec.marked_name inner.now) }
{
    let Ok(text) = str::from_utf8(inner) else {
        return Ok(None);
    };
    spelled_name(alloc, text)
}
