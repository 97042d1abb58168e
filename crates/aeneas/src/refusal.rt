ghost use Rattle.std.specs.Prelude.{◌≡◌, IfOk};
ghost use Rattle.std.specs.String.{string_bytes};
ghost use Rattle.aeneas.specs.Refusals.{refusal_status, refusal_text, refusal_line, place_text, places_text};

use crate::limits::limit_word;
use aen_base::{NoMem, Span, Text, Which};
use std::alloc::Global;

/// Why a command is refused. Each refusal has one status and one line.
#[derive(Clone, Copy, Debug)]
pub enum Refusal {
    /// The words are no command.
    Usage,
    /// The file can't be read.
    Read,
    /// The file isn't UTF-8; so many of its first bytes are.
    Utf8(u64),
    /// The source is no program of the language; its first fault stands there.
    Syntax(Span),
    /// The first word of the source that is left out of the language.
    Unsupported(Span),
    /// What is used there is declared nowhere.
    Unknown(Span),
    /// Both places declare one name, the first of them first.
    Twice(Span, Span),
    /// The names of the source are resolved, and it isn't in what is translated today.
    Later,
    /// A count passes its limit: which one, and the limit plus one, or for FUEL the number given.
    Limit(Which, u64),
    /// So many values were expected, and so many given.
    Count(u64, u64),
    /// The value at this place, from 0, is none of its type.
    Argument(u64),
    /// The types of a definition's name are too many or too few, or none.
    Types,
    /// The file is no printed text; its first fault stands there.
    Text(Span),
    /// No function or definition has the name.
    Name,
}

impl Refusal {
    /// The status.
    pub fn status(&self) -> u8
        ensures { result ≡ refusal_status self.now }
    {
        match self {
            Refusal::Usage => 1,
            Refusal::Read => 2,
            Refusal::Utf8(_) => 4,
            Refusal::Syntax(_) => 5,
            Refusal::Unsupported(_) => 6,
            Refusal::Unknown(_) | Refusal::Twice(_, _) => 7,
            Refusal::Later => 30,
            Refusal::Limit(_, _) => 10,
            Refusal::Count(_, _) | Refusal::Argument(_) | Refusal::Types => 11,
            Refusal::Text(_) => 12,
            Refusal::Name => 13,
        }
    }

    /// The line: `refused`, the status, and what is refused. The only error is want of memory.
    pub fn line(&self, alloc: Global) -> Result<Text, NoMem>
        ensures { IfOk result (λ t. t ≡ refusal_line self.now) }
    {
        let status = self.status();
        let refused = self.text(alloc)?;
        let text = refused.as_str();
        Ok(Text::new(format!(in alloc; "refused {status} {text}\n")?))
    }

    /// What is refused. The only error is want of memory.
    fn text(&self, alloc: Global) -> Result<Text, NoMem>
        ensures { IfOk result (λ t. t ≡ refusal_text self.now) }
    {
        let text = match *self {
            Refusal::Usage => String::from_str(alloc, "usage")?,
            Refusal::Read => String::from_str(alloc, "read")?,
            Refusal::Utf8(valid) => format!(in alloc; "utf8 {valid}")?,
            Refusal::Syntax(span) => place_text(alloc, "syntax", span)?,
            Refusal::Unsupported(span) => place_text(alloc, "unsupported", span)?,
            Refusal::Unknown(span) => place_text(alloc, "unknown", span)?,
            Refusal::Twice(first, second) => places_text(alloc, "twice", first, second)?,
            Refusal::Later => String::from_str(alloc, "later")?,
            Refusal::Limit(which, count) => {
                let word = limit_word(which);
                format!(in alloc; "limit {word} {count}")?
            }
            Refusal::Count(expected, given) => format!(in alloc; "count {expected} {given}")?,
            Refusal::Argument(place) => format!(in alloc; "argument {place}")?,
            Refusal::Types => String::from_str(alloc, "types")?,
            Refusal::Text(span) => place_text(alloc, "text", span)?,
            Refusal::Name => String::from_str(alloc, "name")?,
        };
        Ok(Text::new(text))
    }
}

/// A word and a place. The only error is want of memory.
fn place_text(alloc: Global, word: &str, span: Span) -> Result<String, NoMem>
    ensures { IfOk result (λ t. string_bytes t ≡ place_text word.now span) }
{
    let (lo, hi) = (span.lo, span.hi);
    Ok(format!(in alloc; "{word} {lo}..{hi}")?)
}

/// A word and two places. The only error is want of memory.
fn places_text(alloc: Global, word: &str, first: Span, second: Span) -> Result<String, NoMem>
    ensures { IfOk result (λ t. string_bytes t ≡ places_text word.now first second) }
{
    let (a, b) = (first.lo, first.hi);
    let (c, d) = (second.lo, second.hi);
    Ok(format!(in alloc; "{word} {a}..{b} {c}..{d}")?)
}
