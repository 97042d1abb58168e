//! Adds tokens to a text.
ghost use Rattle.std.specs.Prelude.{◌≡◌, ◌++◌, OnOk, string_bytes};
ghost use Rattle.std.specs.Fmt.{decimal};
ghost use Rattle.rust_ast.specs.Patterns as suffixes;
ghost use Rattle.rust_printer.specs.ShownWords as spec;

use crate::words::int_word;
use aen_base::{IntTy, NoMem};
use itoa::Buffer;

/// Adds a piece of text.
pub(crate) fn put(out: &mut String, text: &str) -> Result<(), NoMem>
    ensures { OnOk result (string_bytes out.new ≡ string_bytes out.old ++ text.now) }
{
    out.push_str(text)?;
    Ok(())
}

/// Adds a word or a name.
pub(crate) fn put_word(out: &mut String, word: &str) -> Result<(), NoMem>
    ensures { OnOk result (string_bytes out.new ≡ string_bytes out.old ++ spec.word_text word.now) }
{
    put(out, word)?;
    put(out, " ")
}

fn put_decimal(out: &mut String, n: u128) -> Result<(), NoMem>
    ensures { OnOk result (string_bytes out.new ≡ string_bytes out.old ++ decimal n) }
{
    let mut buffer = Buffer::new();
    put(out, buffer.format(n))
}

fn put_suffix(out: &mut String, suffix: Option<IntTy>) -> Result<(), NoMem>
    ensures { OnOk result (string_bytes out.new ≡ string_bytes out.old ++ spec.suffix_text (suffixes.suffix suffix)) }
{
    match suffix {
        Some(ty) => put(out, int_word(ty)),
        None => put(out, ""),
    }
}

fn sign(negative: bool) -> &'static str
    ensures { result.now ≡ spec.sign_text negative }
{
    if negative { "- " } else { "" }
}

/// Adds an integer with its sign and its type, if it names one.
pub(crate) fn put_number(
    out: &mut String,
    negative: bool,
    size: u128,
    suffix: Option<IntTy>,
) -> Result<(), NoMem>
    ensures { OnOk result (string_bytes out.new ≡ string_bytes out.old ++ spec.number_text negative size (suffixes.suffix suffix)) }
{
    put(out, sign(negative))?;
    put_decimal(out, size)?;
    put_suffix(out, suffix)?;
    put(out, " ")
}
