ghost use Rattle.std.specs.Prelude.{◌≡◌, ◌∷◌, ◌↔◌, IsTrue, List, ◌^◌, ◌<◌, length, None, All, IfOk};
ghost use Rattle.table_reader.specs.declared.take.Take.TheVariants as K;
ghost use Rattle.source_grammar.specs.Lexemes.{takes};
ghost use Rattle.source_grammar.specs.declared.part.Part.TheVariants as N;
ghost use Rattle.source_grammar.specs.declared.part.Listed.TheVariants as Of;
ghost use Rattle.source_ways.specs.Carriers.{Carrier};
ghost use Rattle.source_ways.specs.Says as says;
ghost use Rattle.source_values.specs.Held.{held};
ghost use Rattle.source_values.specs.Stacked.{Is};
ghost use Rattle.source_values.specs.declared.value.Value.TheVariants as V;
ghost use Rattle.rust_ast.specs.SourceTypes as t;
ghost use Rattle.rust_lex.specs.Slices.{IsTokenOf};
ghost use Rattle.source_syntax.specs.Spelled as spelled;
ghost use Rattle.rust_reader.specs.Answers as spec;

use aen_base::{List, Name, NoMem};
use rust_ast::source_types::Written;
use rust_lex::Tokens;
use source_builder::SourceReader;
use source_grammar::{Content, Lexeme, Listed, Part, Terminal};
use source_syntax::lexemes_of;
use source_table::SourceGrammar;
use source_values::{Value, held_writtens};
use std::alloc::Global;
use table_reader::{Grammar, Take};

/// The name and the types of a function's name on the command line; None exactly where the text has a
/// lexical fault or its tokens are neither an identifier nor an identifier, `::<`, types and `>`. The
/// only error is want of memory.
#[tactic(auto, using(crate::proofs::CallNames::of_text))]
pub fn read_call_name(
    alloc: Global,
    text: &str,
    tokens: &Tokens,
) -> Result<Option<(Name, List<Written>)>, NoMem>
    requires size { length text.now < 2 ^ 32 }
    requires slices { All (IsTokenOf text.now) tokens.now.list }
    ensures { IfOk result (λ o. spec.IsCallName (spelled.lexemes text.now None tokens.now.list) tokens.now.bad o) }
{
    if tokens.bad.is_some() {
        return Ok(None);
    }
    let lexemes = lexemes_of(alloc, text, tokens.list.as_slice())?;
    call_name(alloc, lexemes.as_slice())
}

/// The same of lexemes.
fn call_name(alloc: Global, lexemes: &[Lexeme]) -> Result<Option<(Name, List<Written>)>, NoMem>
    ensures { IfOk result (λ o. spec.IsCallName lexemes.now None o) }
{
    match lexemes {
        [] => Ok(None),
        [first, rest @ ..] => named(alloc, first, rest),
    }
}

/// The same of a first lexeme and the others.
#[tactic(auto, using(crate::proofs::CallNames::no_types, crate::proofs::CallNames::is_named))]
fn named(
    alloc: Global,
    first: &Lexeme,
    rest: &[Lexeme],
) -> Result<Option<(Name, List<Written>)>, NoMem>
    ensures { IfOk result (λ o. spec.IsCallName (first.now ∷ rest.now) None o) }
{
    if !is_taken(Terminal::Identifier, first) {
        return Ok(None);
    }
    match types_after_name(alloc, rest)? {
        Some(types) => {
            let name = name_in(alloc, &first.content)?;
            Ok(Some((name, types)))
        }
        None => Ok(None),
    }
}

/// The types after a name; None exactly where lexemes are something else.
fn types_after_name(alloc: Global, lexemes: &[Lexeme]) -> Result<Option<List<Written>>, NoMem>
    ensures { IfOk result (λ o. spec.AreTypes lexemes.now o) }
{
    match lexemes {
        [] => Ok(Some(List::new(alloc))),
        [first, rest @ ..] => types_after_colons(alloc, first, rest),
    }
}

/// The same of a first lexeme and the others.
fn types_after_colons(
    alloc: Global,
    colons: &Lexeme,
    lexemes: &[Lexeme],
) -> Result<Option<List<Written>>, NoMem>
    ensures { IfOk result (λ o. spec.AreTypes (colons.now ∷ lexemes.now) o) }
{
    match lexemes {
        [] => Ok(None),
        [first, rest @ ..] => types_in_angles(alloc, colons, first, rest),
    }
}

/// The same of two lexemes and the others.
fn types_in_angles(
    alloc: Global,
    colons: &Lexeme,
    less: &Lexeme,
    lexemes: &[Lexeme],
) -> Result<Option<List<Written>>, NoMem>
    ensures { IfOk result (λ o. spec.AreTypes (colons.now ∷ (less.now ∷ lexemes.now)) o) }
{
    if !is_taken(Terminal::Colons, colons) {
        return Ok(None);
    }
    if !is_taken(Terminal::Less, less) {
        return Ok(None);
    }
    types_up_to_end(alloc, lexemes)
}

/// Types up to `>`; None exactly where lexemes are something else.
#[tactic(auto, using(crate::proofs::CallNames::holds_types, crate::proofs::CallNames::listed))]
fn types_up_to_end(alloc: Global, lexemes: &[Lexeme]) -> Result<Option<List<Written>>, NoMem>
    ensures { IfOk result (spec.AreListed lexemes.now) }
{
    match table_reader::read::<SourceReader>(alloc, Part::List(Listed::TypesInAngles), lexemes)? {
        Ok(value) => Ok(Some(types_of(value))),
        Err(_) => Ok(None),
    }
}

/// The types that a value of a list of types holds.
fn types_of(value: Value) -> List<Written>
    requires { Is V.Writtens value }
    ensures { (v : Carrier (N.List Of.TypesInAngles)) → value ≡ held (N.List Of.TypesInAngles) v → result ≡ v.value }
{
    held_writtens(value).value.into_list()
}

/// Whether a token of the grammar takes the whole lexeme.
fn is_taken(terminal: Terminal, lexeme: &Lexeme) -> bool
    ensures { IsTrue result ↔ (takes terminal lexeme.now ≡ K.Whole) }
{
    match SourceGrammar::takes(terminal, lexeme) {
        Take::Whole => true,
        Take::No => false,
        Take::Front { taken: _, left: _ } => false,
    }
}

fn name_in(alloc: Global, content: &Content) -> Result<Name, NoMem>
    ensures { IfOk result (λ it. it ≡ says.name_in content.now) }
{
    match content {
        Content::Name(name) => Ok(name.try_clone(alloc)?),
        Content::Nothing
        | Content::Int(_)
        | Content::Number {
            value: _,
            suffix: _,
        } => Ok(Name::from_str(alloc, "")?),
    }
}
