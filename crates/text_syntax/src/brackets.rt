//! The limit of brackets that are open at once.

ghost use Rattle.std.specs.Prelude.{◌≡◌};
ghost use Rattle.text_syntax.specs.Brackets as spec;

use text_meaning::Mark;
use text_tokens::{Lexeme, LexemeKind};

/// Whether a lexeme is this punctuation.
fn is_mark(kind: &LexemeKind, mark: Mark) -> bool
    ensures { result ≡ spec.is_mark mark kind.now }
{
    match kind {
        LexemeKind::Punct(found) => *found == mark,
        LexemeKind::Word(_) => false,
        LexemeKind::Marked(_) => false,
        LexemeKind::Number(_) => false,
    }
}

/// Whether at most 10,000 brackets of these lexemes are open at once (docs/TEXT.md, "Limits").
pub fn has_few_brackets(tokens: &[Lexeme]) -> bool
    ensures { result ≡ spec.few_lexemes 0 tokens.now }
{
    let mut held = 0u64;
    for token in tokens {
        if is_mark(&token.kind, Mark::Open) {
            if held >= 10_000 {
                return false;
            }
            held += 1;
        } else if is_mark(&token.kind, Mark::Close) {
            held = held.saturating_sub(1);
        }
    }
    true
}
