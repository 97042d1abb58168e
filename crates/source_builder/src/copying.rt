//! Copies of lexemes.

ghost use Rattle.std.specs.Prelude.{◌≡◌, IfOk};

use aen_base::NoMem;
use source_grammar::{Content, Lexeme};
use std::alloc::Global;

/// A copy of a lexeme. The only error is want of memory.
pub(crate) fn copied(alloc: Global, lexeme: &Lexeme) -> Result<Lexeme, NoMem>
    ensures { IfOk result (λ it. it ≡ lexeme.now) }
{
    let content = copied_content(alloc, &lexeme.content)?;
    Ok(Lexeme {
        class: lexeme.class,
        span: lexeme.span,
        content,
    })
}

fn copied_content(alloc: Global, content: &Content) -> Result<Content, NoMem>
    ensures { IfOk result (λ it. it ≡ content.now) }
{
    match content {
        Content::Nothing => Ok(Content::Nothing),
        Content::Name(name) => {
            let name = name.try_clone(alloc)?;
            Ok(Content::Name(name))
        }
        Content::Int(ty) => Ok(Content::Int(*ty)),
        Content::Number { value, suffix } => Ok(Content::Number {
            value: *value,
            suffix: *suffix,
        }),
    }
}
