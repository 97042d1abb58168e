//! A source into its tokens.

ghost use Rattle.std.specs.Prelude.{All, ◌≡◌, None, chars, ◌<◌, ◌≤◌, ◌^◌, ◌+◌, length, take, drop, List, Option, IfOk, MatchOption, IsCharBoundary, true, false};
ghost use Rattle.aen_base.specs.declared.span.Span.{Span};
ghost use Rattle.rust_lex.specs.declared.token.Token.{Token};
ghost use Rattle.rust_lex.specs.Characters.{begins, is_white as is_white_byte};
ghost use Rattle.rust_lex.specs.Comments.{begins_block_comment};
ghost use Rattle.rust_lex.specs.Lexing as spec;
ghost use Rattle.rust_lex.specs.Slices as places;
ghost use Rattle.rust_lex.specs.Scan as scan;

use crate::characters::{
    after, before, begins_byte, begins_two, head, is_white, line_length, skip, split_first,
};
use crate::comments::comment_end;
use crate::forms::found;
use crate::kinds::kind_of;
use crate::step::Step;
use crate::{Token, Tokens};
use aen_base::{List, NoMem, Span};
use std::alloc::Global;

/// The comment that begins bytes which begin with `/*`.
fn comment(bytes: &[u8]) -> Step
    requires { 2 ≤ length bytes.now }
    ensures { result ≡ scan.step_comment (scan.before_rest (length bytes.now) (scan.after_comment 0 (drop 2 bytes.now))) bytes.now }
{
    match comment_end(after(bytes, 2)) {
        Some(count) => Step::Gap(count + 2),
        None => Step::Fault(bytes.len()),
    }
}

/// The length of the first character.
fn first_width(text: &str) -> usize
    ensures { result ≡ scan.first_width (chars text.now) }
{
    match split_first(text) {
        Some((c, _)) => c.len_utf8(),
        None => 0,
    }
}

/// Where no slice has the form of a token.
fn nothing(text: &str) -> Step
    ensures { result ≡ scan.step_found None text.now }
{
    if begins_byte(b'"', text.as_bytes()) {
        Step::Fault(text.len())
    } else {
        Step::Fault(first_width(text))
    }
}

/// The token or the fault that begins a text. The only error is want of memory.
fn token(alloc: Global, after_dot: bool, text: &str) -> Result<Step, NoMem>
    ensures { IfOk result (λ s. s ≡ scan.step_found (scan.found after_dot text.now) text.now) }
{
    let Some((form, count)) = found(after_dot, text) else {
        return Ok(nothing(text));
    };
    match kind_of(alloc, form, head(text, count))? {
        Some(kind) => Ok(Step::Token(kind, count)),
        None => Ok(Step::Fault(count)),
    }
}

/// Whether white space stands first.
fn begins_white(bytes: &[u8]) -> bool
    ensures { result ≡ begins is_white_byte bytes.now }
{
    match bytes {
        [c, ..] => is_white(*c),
        [] => false,
    }
}

/// What begins a text. The only error is want of memory.
#[tactic(auto, unfolding(crate::specs::Scan::step))]
fn step(alloc: Global, after_dot: bool, text: &str) -> Result<Step, NoMem>
    ensures { IfOk result (λ s. s ≡ scan.step after_dot text.now) }
{
    let bytes = text.as_bytes();
    if bytes == b"".as_slice() {
        Ok(Step::End)
    } else if begins_white(bytes) {
        Ok(Step::Gap(1))
    } else if begins_two(b'/', b'/', bytes) {
        Ok(Step::Gap(line_length(bytes)))
    } else if begins_two(b'/', b'*', bytes) {
        Ok(comment(bytes))
    } else {
        token(alloc, after_dot, text)
    }
}

/// Whether a token's text is `.`.
fn is_dot(w: &[u8]) -> bool
    ensures { result ≡ spec.is_dot w.now }
{
    w == b".".as_slice()
}

/// The span of so many bytes from byte `at` on, in a text of less than 2^32 bytes.
fn span(at: usize, count: usize) -> Span
    requires { at + count < 2 ^ 32 }
    ensures { result ≡ spec.span at count }
{
    Span {
        lo: at as u32,
        hi: (at + count) as u32,
    }
}

/// The tokens of a source of less than 2^32 bytes, up to its first lexical fault, if there is one.
/// The only error is want of memory.
pub fn lex(alloc: Global, text: &str) -> Result<Tokens, NoMem>
    requires { length text.now < 2 ^ 32 }
    ensures tokens { IfOk result (λ r. spec.AreTokens text.now r.list r.bad) }
    ensures only { IfOk result (λ r. spec.NoOthers text.now r.list r.bad) }
    ensures slices { IfOk result (λ r. places.AreInText text.now r.list) }
    ensures texts { IfOk result (λ r. All (places.IsTokenOf text.now) r.list) }
{
    let mut list = List::new(alloc);
    let mut at = 0;
    let mut after_dot = false;
    'reading: loop {
        let rest = skip(text, at);
        match step(alloc, after_dot, rest)? {
            Step::End => return Ok(Tokens { list, bad: None }),
            Step::Fault(count) => {
                let bad = span(at, count);
                return Ok(Tokens {
                    list,
                    bad: Some(bad),
                });
            }
            Step::Gap(count) => {
                after_dot = false;
                at += count;
            }
            Step::Token(kind, count) => {
                let span = span(at, count);
                list.push(Token { kind, span })?;
                after_dot = is_dot(before(rest.as_bytes(), count));
                at += count;
            }
        }
    }
}

/// A token's text, which is one of the source's tokens.
pub fn token_text(text: &str, token: Token) -> &str
    requires { places.IsTokenOf text.now token }
    ensures { result.now ≡ places.text_of text.now token }
{
    &text[token.span.lo as usize..token.span.hi as usize]
}
