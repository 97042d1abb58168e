//! The limits on the tokens of a source, and what comes before them.

use crate::table::{GOOD, answers};
use aen_base::NoMem;
use std::alloc::{AllocError, Global};

/// A beginning, two pieces with how often each stands, and an end; the status and the line.
type Long = (
    &'static str,
    (&'static str, u32),
    (&'static str, u32),
    &'static str,
    u8,
    &'static str,
);

/// Operators in a level, words `else`, and which of the limits and other refusals comes first.
const LONG: &[Long] = &[
    (
        "fn f() { y",
        (" + 1", 249),
        ("", 0),
        " }",
        7,
        "refused 7 unknown 9..10\n",
    ),
    (
        "fn f() { y",
        (" + 1", 250),
        ("", 0),
        " }",
        10,
        "refused 10 limit depth 251\n",
    ),
    (
        "fn f() { y",
        ("; 1 + 1", 300),
        ("", 0),
        " }",
        7,
        "refused 7 unknown 9..10\n",
    ),
    (
        "fn f() { if y {}",
        (" else if y {}", 250),
        ("", 0),
        " }",
        7,
        "refused 7 unknown 12..13\n",
    ),
    (
        "fn f() { if y {}",
        (" else if y {}", 251),
        ("", 0),
        " }",
        10,
        "refused 10 limit else 251\n",
    ),
    (
        "fn f() {",
        (" if y {} else {}", 250),
        (" } fn g() { if y {} else {}", 1),
        " }",
        7,
        "refused 7 unknown 12..13\n",
    ),
    (
        "fn f() { y",
        (" + 1", 250),
        ("(", 101),
        "",
        10,
        "refused 10 limit nesting 101\n",
    ),
    (
        "fn f() { y",
        (" else", 251),
        (" + 1", 250),
        "",
        10,
        "refused 10 limit depth 251\n",
    ),
    (
        ")",
        ("(", 101),
        ("", 0),
        "",
        10,
        "refused 10 limit nesting 101\n",
    ),
    (
        "",
        ("(", 101),
        ("", 0),
        " trait",
        6,
        "refused 6 unsupported 102..107\n",
    ),
    (
        "\u{20ac}",
        ("(", 101),
        ("", 0),
        "",
        5,
        "refused 5 syntax 0..3\n",
    ),
    (
        "",
        ("(", 101),
        ("", 0),
        "\u{20ac}",
        10,
        "refused 10 limit nesting 101\n",
    ),
    (
        "",
        ("(", 100),
        ("", 0),
        "\u{20ac}",
        5,
        "refused 5 syntax 0..1\n",
    ),
    (
        "fn f() { y",
        (" as u8", 249),
        ("", 0),
        " }",
        7,
        "refused 7 unknown 9..10\n",
    ),
    (
        "fn f() { y",
        (" as u8", 250),
        ("", 0),
        " }",
        10,
        "refused 10 limit depth 251\n",
    ),
];

fn add_often(source: &mut String, piece: (&str, u32)) -> Result<(), AllocError> {
    for _ in 0..piece.1 {
        source.push_str(piece.0)?;
    }
    Ok(())
}

#[test]
fn the_limits_of_tokens(rt: HostRuntime) -> Result<(), NoMem> {
    for (begin, first, second, end, status, line) in LONG {
        let mut source = String::from_str(rt.alloc(), begin)?;
        add_often(&mut source, *first)?;
        add_often(&mut source, *second)?;
        source.push_str(end)?;
        let given = answers(
            rt.alloc(),
            &GOOD,
            source.as_bytes(),
            &["translate", "a.rs"],
            *status,
            line.as_bytes(),
        )?;
        assert!(rt; given);
    }
    Ok(())
}
