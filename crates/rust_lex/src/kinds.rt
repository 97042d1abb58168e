//! The kind of token that a slice with the form of one is.

ghost use Rattle.std.specs.Prelude.{◌≡◌, ◌≤◌, ◌==◌, length, drop, true, false, IfOk, None, Some, OnSome};
ghost use Rattle.rust_lex.specs.Characters.{begins};
ghost use Rattle.rust_lex.specs.Identifiers as names;
ghost use Rattle.rust_lex.specs.Lexing as spec;
ghost use Rattle.rust_lex.specs.Scan as scan;
ghost use Rattle.rust_lex.specs.declared.token.Form.TheVariants.{Identifier, Lifetime};

use crate::characters::skip;
use crate::identifiers::identifier_name;
use crate::numbers::is_small;
use crate::words::word_kind;
use crate::{Form, Kind};
use aen_base::NoMem;
use std::alloc::Global;

/// The kind of an identifier; None where its NFC is no identifier. The only error is want of memory.
fn identifier_kind(alloc: Global, w: &str) -> Result<Option<Kind>, NoMem>
    ensures { IfOk result (λ o. o ≡ spec.kind_of Identifier w.now) }
{
    let Some(name) = identifier_name(alloc, w)? else {
        return Ok(None);
    };
    Ok(Some(word_kind(name.as_str().as_bytes())))
}

/// The kind of a lifetime after its `'`; None where it has no name. The only error is want of memory.
fn lifetime_kind(alloc: Global, w: &str) -> Result<Option<Kind>, NoMem>
    ensures { IfOk result (λ o. o ≡ names.lifetime_kind w.now) }
{
    if w == "_" {
        return Ok(Some(Kind::Lifetime));
    }
    let Some(name) = identifier_name(alloc, w)? else {
        return Ok(None);
    };
    if name.as_str() == "static" {
        return Ok(Some(Kind::Excluded));
    }
    Ok(Some(Kind::Lifetime))
}

/// The kind of token that a slice with the form of one is; None where it is a lexical fault. The only
/// error is want of memory.
pub(crate) fn kind_of(alloc: Global, form: Form, w: &str) -> Result<Option<Kind>, NoMem>
    requires { form ≡ Lifetime → begins (λ c. c == 39) w.now ≡ true }
    ensures { IfOk result (λ o. o ≡ spec.kind_of form w.now) }
{
    match form {
        Form::Identifier => identifier_kind(alloc, w),
        Form::Lifetime => lifetime_kind(alloc, skip(w, 1)),
        Form::Number => Ok(if is_small(w.as_bytes()) {
            Some(Kind::Integer)
        } else {
            None
        }),
        Form::Quoted => Ok(Some(Kind::Str)),
        Form::Mark => Ok(Some(Kind::Punct)),
    }
}
