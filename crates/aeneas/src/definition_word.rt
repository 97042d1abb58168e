ghost use Rattle.std.specs.Prelude.{◌≡◌, ℕ, [], List, length, MatchOption, IfOk, IsTrue, ◌↔◌, map, ◌==◌};
ghost use Rattle.std.specs.List.{slice_split};
ghost use Rattle.std.specs.String.{string_bytes};
ghost use Rattle.aeneas.specs.DefinitionWord.{IsDefinitionWord};
ghost use Rattle.aeneas.specs.DefinitionParts.{IsOnly, IsAfterName};

use aen_base::NoMem;
use std::alloc::Global;

/// DEF, cut into its parts.
#[derive(Drop)]
pub struct DefinitionWord<'a> {
    /// The definition's name.
    pub name: &'a str,
    /// The printed types of its type arguments.
    pub types: Vec<String>,
}

/// The parts of DEF; None exactly where the word isn't of the form. The only error is want of
/// memory.
pub fn definition_word<'a>(
    alloc: Global,
    word: &'a str,
) -> Result<Option<DefinitionWord<'a>>, NoMem>
    ensures { IfOk result (λ o. MatchOption o ((name : List ℕ) (pieces : List (List ℕ)) → IsDefinitionWord word.now name pieces → ⊥) (λ w. IsOnly word.now w.name.now (map string_bytes w.types.items))) }
{
    let Some((name, rest)) = word.split_once(':') else {
        return Ok(Some(DefinitionWord {
            name: word,
            types: Vec::new(alloc),
        }));
    };
    match types_text(rest) {
        None => Ok(None),
        Some(text) => {
            let types = pieces(alloc, text)?;
            Ok(Some(DefinitionWord { name, types }))
        }
    }
}

/// What stands between `:<` and a last `>`.
fn types_text(rest: &str) -> Option<&str>
    ensures { MatchOption result ((inner : List ℕ) → IsAfterName rest.now inner → ⊥) (λ inner. IsAfterName rest.now inner.now) }
{
    let (colon, after) = rest.split_once('<')?;
    if colon != ":" {
        return None;
    }
    after.strip_suffix('>')
}

/// A text cut at its commas. The only error is want of memory.
fn pieces(alloc: Global, text: &str) -> Result<Vec<String>, NoMem>
    ensures { IfOk result (λ pieces. map string_bytes pieces.items ≡ slice_split (λ c. c == 44) text.now) }
{
    let cut: Vec<&str> = text.split(',').collect(alloc)?;
    let mut pieces = Vec::new(alloc);
    for piece in &cut {
        pieces.push(String::from_str(alloc, piece)?)?;
    }
    Ok(pieces)
}
