//! A text into the tokens that it spells.

ghost use Rattle.std.specs.Prelude.{◌≡◌, ℕ, ◌<◌, ◌^◌, ◌+◌, ◌∷◌, ◌++◌, length, Some, None, IfOk};
ghost use Rattle.text_tokens.specs.Lexing.{IsLexed, NoOthers, BearsName};
ghost use Rattle.text_meaning.specs.Lists.{Each};
ghost use Rattle.text_tokens.specs.Stands.{AreLexemes, HasNoTokens};
ghost use Rattle.std.specs.String.{string_bytes};
ghost use Rattle.std.specs.Char.{is_ascii_digit};
ghost use Rattle.text_meaning.specs.Names.{is_word_start as starts_word, is_word_byte as in_word};
ghost use Rattle.text_meaning.specs.Lexing.{is_space as is_gap_byte};
ghost use Rattle.text_tokens.specs.declared.lexeme.LexemeKind.TheVariants.{Word, Number};
ghost use Rattle.text_tokens.specs.Fronts.{front, back, past};
ghost use Rattle.text_tokens.specs.Scan as spec;
ghost use Rattle.text_tokens.specs.Scan.{Finds, Sees};

use crate::classes::{
    after, before, begins_byte, begins_digit, begins_two, is_digit, is_space, is_word_byte,
    is_word_start,
};
use crate::marked::{close_at, marked_name};
use crate::{Lexeme, LexemeKind, Lexemes, Pile};
use aen_base::{Name, NoMem, Span};
use std::alloc::Global;
use text_meaning::Mark;

/// The text that is left.
#[derive(Drop)]
struct Lexer<'a> {
    rest: &'a [u8],
}

/// The longest word at the beginning. The only error is want of memory.
fn word_front(alloc: Global, bytes: &[u8]) -> Result<String, NoMem>
    ensures { IfOk result (λ t. string_bytes t ≡ front in_word bytes.now) }
{
    let mut text = String::new(alloc);
    for c in bytes {
        if !is_word_byte(*c) {
            return Ok(text);
        }
        text.push(*c as char)?;
    }
    Ok(text)
}

/// The digits at the beginning, after `text`. The only error is want of memory.
fn digit_front(mut text: String, bytes: &[u8]) -> Result<String, NoMem>
    ensures { IfOk result (λ t. string_bytes t ≡ string_bytes text ++ front is_ascii_digit bytes.now) }
{
    for c in bytes {
        if !is_digit(*c) {
            return Ok(text);
        }
        text.push(*c as char)?;
    }
    Ok(text)
}

/// How many bytes of white space stand first.
fn space_length(bytes: &[u8]) -> usize
    ensures { result ≡ length (front is_gap_byte bytes.now) }
{
    let mut count = 0;
    for c in bytes {
        if !is_space(*c) {
            return count;
        }
        count += 1;
    }
    count
}

/// The punctuation that is this byte alone.
fn mark_of(c: u8) -> Option<Mark>
    ensures { result ≡ spec.mark_of c }
{
    match c {
        b')' => Some(Mark::Close),
        b'{' => Some(Mark::OpenBrace),
        b'}' => Some(Mark::CloseBrace),
        b',' => Some(Mark::Comma),
        b';' => Some(Mark::Semicolon),
        b'.' => Some(Mark::Dot),
        b'#' => Some(Mark::Hash),
        b'|' => Some(Mark::Bar),
        b'+' => Some(Mark::Plus),
        _ => None,
    }
}

/// How many bytes a character takes that begins with this one.
fn width(c: u8) -> u32
    ensures { result ≡ spec.width c }
{
    if c < 128 {
        1
    } else if c < 224 {
        2
    } else if c < 240 {
        3
    } else {
        4
    }
}

impl<'a> Lexer<'a> {
    /// Leaves white space out.
    fn skip_space(&mut self)
        ensures { self.new.rest.now ≡ back is_gap_byte self.old.rest.now }
    {
        let count = space_length(self.rest);
        self.rest = after(self.rest, count);
    }

    /// A word that begins here.
    fn word(&mut self, alloc: Global) -> Result<Option<LexemeKind>, NoMem>
        ensures { Finds (Some (Word (front in_word self.old.rest.now), back in_word self.old.rest.now)) result self.new.rest.now }
    {
        let text = word_front(alloc, self.rest)?;
        self.rest = after(self.rest, text.len());
        Ok(Some(LexemeKind::Word(Name::new(text))))
    }

    /// A number whose digits begin here, after `sign`.
    fn number(&mut self, sign: String) -> Result<Option<LexemeKind>, NoMem>
        ensures { Finds (Some (Number (string_bytes sign ++ front is_ascii_digit self.old.rest.now), back is_ascii_digit self.old.rest.now)) result self.new.rest.now }
    {
        let before = sign.len();
        let text = digit_front(sign, self.rest)?;
        let count = text.len() - before;
        self.rest = after(self.rest, count);
        Ok(Some(LexemeKind::Number(Name::new(text))))
    }

    /// A number after its `-`.
    fn negative(&mut self, alloc: Global) -> Result<Option<LexemeKind>, NoMem>
        ensures { Finds (spec.negative_at self.old.rest.now) result self.new.rest.now }
    {
        if !begins_digit(self.rest) {
            return Ok(None);
        }
        let mut sign = String::new(alloc);
        sign.push('-')?;
        self.number(sign)
    }

    /// A name after its `«`.
    #[tactic(auto, using(crate::proofs::Fronting::close_within), unfolding(crate::specs::Scan::marked_at))]
    fn marked(&mut self, alloc: Global) -> Result<Option<LexemeKind>, NoMem>
        ensures { Finds (spec.marked_at self.old.rest.now) result self.new.rest.now }
    {
        let Some(count) = close_at(self.rest) else {
            return Ok(None);
        };
        let Some(name) = marked_name(alloc, before(self.rest, count))? else {
            return Ok(None);
        };
        self.rest = after(self.rest, count + 2);
        Ok(Some(LexemeKind::Marked(name)))
    }

    /// Leaves the next byte out.
    fn skip(&mut self)
        ensures { self.new.rest.now ≡ past self.old.rest.now }
    {
        match self.rest {
            [] => {}
            [_, rest @ ..] => self.rest = rest,
        }
    }

    /// Punctuation of two bytes where `second` follows, else `alone`.
    fn either(&mut self, second: u8, both: Mark, alone: Option<Mark>) -> Option<LexemeKind>
        ensures { Sees (spec.either second both alone self.old.rest.now) result self.new.rest.now }
    {
        if begins_byte(second, self.rest) {
            self.skip();
            return Some(LexemeKind::Punct(both));
        }
        match alone {
            Some(mark) => Some(LexemeKind::Punct(mark)),
            None => None,
        }
    }

    /// An arrow after its first byte.
    fn arrow(&mut self) -> Option<LexemeKind>
        ensures { Sees (spec.arrow_at self.old.rest.now) result self.new.rest.now }
    {
        let mark = if begins_two(0x86, 0x92, self.rest) {
            Mark::To
        } else if begins_two(0x86, 0x90, self.rest) {
            Mark::From
        } else {
            return None;
        };
        self.skip();
        self.skip();
        Some(LexemeKind::Punct(mark))
    }

    /// Punctuation after its first byte.
    #[tactic(auto, unfolding(crate::specs::Scan::mark_at))]
    fn mark(&mut self, c: u8) -> Option<LexemeKind>
        ensures { Sees (spec.mark_at c self.old.rest.now) result self.new.rest.now }
    {
        match c {
            b'(' => self.either(b')', Mark::Unit, Some(Mark::Open)),
            b':' => self.either(b'=', Mark::Becomes, Some(Mark::Colon)),
            b'=' => self.either(b'>', Mark::Gives, None),
            0xc3 => self.either(0x97, Mark::Times, None),
            0xe2 => self.arrow(),
            _ => match mark_of(c) {
                Some(mark) => Some(LexemeKind::Punct(mark)),
                None => None,
            },
        }
    }

    /// What begins neither with a letter nor with a digit, after its first byte.
    #[tactic(auto, unfolding(crate::specs::Scan::other_at))]
    fn other(&mut self, alloc: Global, c: u8) -> Result<Option<LexemeKind>, NoMem>
        ensures { Finds (spec.other_at c self.old.rest.now) result self.new.rest.now }
    {
        if c == b'-' {
            return self.negative(alloc);
        }
        if c == 0xc2 {
            if !begins_byte(0xab, self.rest) {
                return Ok(None);
            }
            self.skip();
            return self.marked(alloc);
        }
        Ok(self.mark(c))
    }

    /// What begins here.
    #[tactic(auto, unfolding(crate::specs::Scan::lexeme_at))]
    fn next(&mut self, alloc: Global, c: u8) -> Result<Option<LexemeKind>, NoMem>
        requires { self.old.rest.now ≡ c ∷ past self.old.rest.now }
        ensures { Finds (spec.lexeme_at c (past self.old.rest.now)) result self.new.rest.now }
    {
        if is_word_start(c) {
            return self.word(alloc);
        }
        if is_digit(c) {
            return self.number(String::new(alloc));
        }
        self.skip();
        self.other(alloc, c)
    }
}

/// A text cut into what it spells. The only error is want of memory.
#[tactic(auto, unfolding(crate::specs::Scan::cut_text))]
fn cut(alloc: Global, text: &str) -> Result<Lexemes, NoMem>
    requires { length text.now < 2 ^ 32 }
    ensures { IfOk result (λ l. l ≡ spec.cut_text text.now) }
{
    let bytes = text.as_bytes();
    let end = bytes.len();
    let mut lexer = Lexer { rest: bytes };
    lexer.skip_space();
    let mut list = Pile::new(alloc);
    for _turn in 0..end {
        let left = lexer.rest;
        let [first, ..] = left else {
            return Ok(Lexemes { list, fault: None });
        };
        let lo = end.saturating_sub(left.len());
        let Some(kind) = lexer.next(alloc, *first)? else {
            let span = span(lo, lo + (width(*first) as usize).min(left.len()));
            return Ok(Lexemes {
                list,
                fault: Some(span),
            });
        };
        let span = span(lo, end.saturating_sub(lexer.rest.len()));
        list.push(Lexeme { kind, span })?;
        lexer.skip_space();
    }
    Ok(Lexemes { list, fault: None })
}

/// A span in a text of less than 2^32 bytes.
fn span(lo: usize, hi: usize) -> Span
    requires lo { lo < 2 ^ 32 }
    requires hi { hi < 2 ^ 32 }
    ensures { result ≡ spec.span lo hi }
{
    Span {
        lo: lo as u32,
        hi: hi as u32,
    }
}

/// The tokens of a text of less than 2^32 bytes as they are spelled, up to the first character at
/// which none begins. The only error is want of memory.
pub fn lex(alloc: Global, text: &str) -> Result<Lexemes, NoMem>
    requires { length text.now < 2 ^ 32 }
    ensures exact { IfOk result (λ l. l.fault ≡ None → AreLexemes l.list text.now) }
    ensures none { IfOk result (λ l. (l.fault ≡ None → ⊥) → HasNoTokens text.now) }
    ensures lexed { IfOk result (λ l. IsLexed text.now l.list l.fault) }
    ensures only { IfOk result (λ l. NoOthers text.now l.list l.fault) }
    ensures names { IfOk result (λ l. Each (λ x. BearsName x.kind) l.list) }
{
    Ok(cut(alloc, text)?)
}

#[cfg(test)]
mod tests {
    use super::*;

    #[test]
    fn cuts_a_head(rt: HostRuntime) -> Result<(), NoMem> {
        let lexemes = lex(rt.alloc(), "def fn.«é» (n : Nat)")?;
        assert!(rt; lexemes.fault.is_none());
        assert_eq!(rt; lexemes.list.len(), 9);
        Ok(())
    }
}
