//! What each source is cut into.

use aen_base::{NoMem, Span};
use rust_lex::{Kind, lex};
use std::alloc::Global;

/// A source, its tokens with the letters of their kinds, and the place of its fault.
type Row = (&'static str, &'static str, &'static str);

/// By hand, from the language's rules.
const ROWS: &[Row] = &[
    // integers, longest first
    ("12abc", "I0..2 N2..5", ""),
    ("1u33 0x 0b2", "I0..1 N1..4 I5..6 N6..7 I8..9 N9..11", ""),
    ("1u8x 0x_1 0xfu8", "I0..3 N3..4 I5..6 N6..9 I10..15", ""),
    ("0b1_0i8 0o78", "I0..7 I8..11 I11..12", ""),
    // digits directly after a dot
    ("x.01 x. 0", "N0..1 P1..2 I2..4 N5..6 P6..7 I8..9", ""),
    (
        "x.0u8 x.1_0",
        "N0..1 P1..2 I2..3 W3..5 N6..7 P7..8 I8..9 N9..11",
        "",
    ),
    ("x./**/0u8", "N0..1 P1..2 I6..9", ""),
    // the greatest number, and one more
    ("340282366920938463463374607431768211455", "I0..39", ""),
    ("340282366920938463463374607431768211456", "", "0..39"),
    (
        "a.340282366920938463463374607431768211456",
        "N0..1 P1..2",
        "2..41",
    ),
    // lifetimes
    (
        "'fn 'self 'static '_ 'a'",
        "L0..3 L4..9 X10..17 L18..20 L21..23",
        "23..24",
    ),
    // white space
    ("a\tb\rc\nd", "N0..1 N2..3 N4..5 N6..7", ""),
    ("\u{feff}x", "", "0..3"),
    ("a\u{a0}", "N0..1", "1..3"),
    ("a\u{b}", "N0..1", "1..2"),
    // comments
    ("//a\rb\nc", "N6..7", ""),
    ("/* /* */ */a", "N11..12", ""),
    ("a/* /* */b", "N0..1", "1..10"),
    ("/*/a", "", "0..4"),
    // strings
    ("\"a\\\"b\"", "S0..6", ""),
    ("x\"a\\\"", "N0..1", "1..5"),
    ("\"\\é\"_", "S0..5 P5..6", ""),
    // punctuation, longest first
    ("<<= <<< >>=", "P0..3 P4..6 P6..7 P8..11", ""),
    ("..", "P0..1 P1..2", ""),
    ("a$b", "N0..1", "1..2"),
    // words
    (
        "Box Vec u8 _ _a box",
        "W0..3 X4..7 W8..10 P11..12 N13..15 X16..19",
        "",
    ),
    ("é €", "N0..2", "3..6"),
    ("K", "N0..3", ""),
];

/// The letter of a kind.
fn letter(kind: Kind) -> char {
    match kind {
        Kind::Ident => 'N',
        Kind::Word => 'W',
        Kind::Excluded => 'X',
        Kind::Lifetime => 'L',
        Kind::Integer => 'I',
        Kind::Str => 'S',
        Kind::Punct => 'P',
    }
}

/// Adds a place.
fn add_span(alloc: Global, out: &mut String, span: Span) -> Result<(), NoMem> {
    let text = format!(in alloc; "{}..{}", span.lo, span.hi)?;
    out.push_str(text.as_str())?;
    Ok(())
}

/// The tokens of a source.
fn tokens_of(alloc: Global, source: &str) -> Result<(String, String), NoMem> {
    let mut shown = String::new(alloc);
    let mut bad = String::new(alloc);
    if source.len() > 1000 {
        return Ok((shown, bad));
    }
    let tokens = lex(alloc, source)?;
    for token in tokens.list.as_slice() {
        if !shown.is_empty() {
            shown.push(' ')?;
        }
        shown.push(letter(token.kind))?;
        add_span(alloc, &mut shown, token.span)?;
    }
    if let Some(span) = tokens.bad {
        add_span(alloc, &mut bad, span)?;
    }
    Ok((shown, bad))
}

#[test]
fn sources_have_these_tokens(rt: HostRuntime) -> Result<(), NoMem> {
    for (source, shown, bad) in ROWS {
        let found = tokens_of(rt.alloc(), source)?;
        assert_eq!(rt; found.0.as_str(), *shown);
        assert_eq!(rt; found.1.as_str(), *bad);
    }
    Ok(())
}
