//! Adds bytes, numbers and lines to a text.
ghost use Rattle.std.specs.Prelude.{◌≡◌, ◌++◌, OnOk, string_bytes, codes};
ghost use Rattle.std.specs.Fmt.{decimal, signed_decimal};
ghost use Rattle.text_meaning.specs.ShownCode.{new_line};
ghost use Rattle.text_meaning.specs.ShownTerms.{number_text};
ghost use Rattle.text_meaning.specs.Tokens.{var_text};

use crate::words::int_word;
use aen_base::{NoMem, Num};
use itoa::Buffer;

/// Adds a piece of text.
pub(crate) fn put(out: &mut String, text: &str) -> Result<(), NoMem>
    ensures { OnOk result (string_bytes out.new ≡ string_bytes out.old ++ text.now) }
{
    out.push_str(text)?;
    Ok(())
}

/// Adds a number below 2^64 in decimal digits.
pub(crate) fn put_decimal(out: &mut String, n: u64) -> Result<(), NoMem>
    ensures { OnOk result (string_bytes out.new ≡ string_bytes out.old ++ decimal n) }
{
    let mut buffer = Buffer::new();
    put(out, buffer.format(n))
}

/// Adds a number below 2^128 in decimal digits.
fn put_magnitude(out: &mut String, n: u128) -> Result<(), NoMem>
    ensures { OnOk result (string_bytes out.new ≡ string_bytes out.old ++ decimal n) }
{
    let mut buffer = Buffer::new();
    put(out, buffer.format(n))
}

/// Adds a number's sign and digits.
fn put_signed(out: &mut String, n: Num) -> Result<(), NoMem>
    ensures { OnOk result (string_bytes out.new ≡ string_bytes out.old ++ signed_decimal n.value) }
{
    if n.is_negative() {
        put(out, "-")?;
    }
    put_magnitude(out, n.magnitude())
}

/// Adds a number with its type, as `1#U32`.
pub(crate) fn put_number(out: &mut String, n: Num) -> Result<(), NoMem>
    ensures { OnOk result (string_bytes out.new ≡ string_bytes out.old ++ number_text n) }
{
    put_signed(out, n)?;
    put(out, "#")?;
    put(out, int_word(n.ty()))
}

/// Adds a variable, as `v0`.
pub(crate) fn put_variable(out: &mut String, v: u64) -> Result<(), NoMem>
    ensures { OnOk result (string_bytes out.new ≡ string_bytes out.old ++ var_text v) }
{
    put(out, "v")?;
    put_decimal(out, v)
}

/// Begins a new line with `k` spaces.
pub(crate) fn put_line(out: &mut String, k: usize) -> Result<(), NoMem>
    ensures { OnOk result (string_bytes out.new ≡ string_bytes out.old ++ new_line k) }
{
    put(out, "\n")?;
    for _space in 0..k {
        put(out, " ")?;
    }
    Ok(())
}
