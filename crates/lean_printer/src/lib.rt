//! Prints definitions as a text (docs/TEXT.md, "Layout").
#![tactic(auto)]

mod code;
mod declarations;
mod definitions;
mod lemmas;
mod names;
mod put;
mod terms;
mod types;
mod values;
mod words;

ghost use Rattle.std.specs.Prelude.{◌≡◌, ◌++◌, IfOk, OnOk, string_bytes};
ghost use Rattle.text_meaning.specs.Reading.{ReadsText};
ghost use Rattle.text_meaning.specs.Shown.{header, shown};
ghost use Rattle.text_meaning.specs.ShownLemmas.{shown_lemmas};
ghost use Rattle.text_meaning.specs.WellFormed.{IsWellFormed};

use aen_base::{NoMem, Text};
use pure_ast::Defs;
use put::put;
use std::alloc::Global;
pub use values::print_value;

/// The text of the definitions, in time linear in its length. The text of well-formed definitions
/// reads as these definitions. The only error is want of memory.
pub fn print(alloc: Global, defs: &Defs) -> Result<Text, NoMem>
    ensures layout { IfOk result (λ t. t ≡ shown defs.now) }
    ensures read_back { IsWellFormed defs.now → ReadsText (shown defs.now) defs.now }
{
    let mut out = String::new(alloc);
    put_header(&mut out)?;
    declarations::put_declarations(&mut out, defs)?;
    definitions::put_definitions(&mut out, defs)?;
    Ok(Text::new(out))
}

fn put_header(out: &mut String) -> Result<(), NoMem>
    ensures { OnOk result (string_bytes out.new ≡ string_bytes out.old ++ header) }
{
    put(out, "import AenPrelude\nopen AenPrelude\n")
}

/// The lemma templates of the definitions, in time linear in the text's length. The only error is
/// want of memory.
pub fn print_lemmas(alloc: Global, defs: &Defs) -> Result<Text, NoMem>
    ensures { IfOk result (λ t. t ≡ shown_lemmas defs.now) }
{
    let mut out = String::new(alloc);
    put_header(&mut out)?;
    lemmas::put_lemmas(&mut out, defs)?;
    Ok(Text::new(out))
}
