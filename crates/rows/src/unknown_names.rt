//! Names that are declared twice, and names without a meaning.

use crate::table::{Refused, refuses};
use aen_base::NoMem;

/// One name declared twice: all of these come before any unknown name.
const TWICE: &[Refused] = &[
    // types and functions
    (b"struct S; struct S;", 7, "refused 7 twice 7..8 17..18\n"),
    (b"struct S; enum S {}", 7, "refused 7 twice 7..8 15..16\n"),
    (b"struct S; fn S() {}", 7, "refused 7 twice 7..8 13..14\n"),
    (b"struct S {} fn S() {}", 7, "refused 7 twice 7..8 15..16\n"),
    (
        b"struct S(u8); fn S() {}",
        7,
        "refused 7 twice 7..8 17..18\n",
    ),
    // what stands inside them
    (b"enum E { A, A }", 7, "refused 7 twice 9..10 12..13\n"),
    (
        b"struct S { x: u8, x: u8 }",
        7,
        "refused 7 twice 11..12 18..19\n",
    ),
    (b"fn f<'a, 'a>() {}", 7, "refused 7 twice 5..7 9..11\n"),
    (b"fn f<T, T>() {}", 7, "refused 7 twice 5..6 8..9\n"),
    (b"struct S<T, T>;", 7, "refused 7 twice 9..10 12..13\n"),
    (
        b"fn f(x: u8, mut x: u8) {}",
        7,
        "refused 7 twice 5..6 16..17\n",
    ),
    // a type parameter and a type
    (
        b"struct T; fn f<T>() {}",
        7,
        "refused 7 twice 7..8 15..16\n",
    ),
    (
        b"fn f<T>() {} struct T;",
        7,
        "refused 7 twice 5..6 20..21\n",
    ),
    (b"enum E<E> {}", 7, "refused 7 twice 5..6 7..8\n"),
    // bindings of one pattern
    (
        b"fn f() { let (x, x) = y; }",
        7,
        "refused 7 twice 14..15 17..18\n",
    ),
    (
        b"fn f() { match y { E::A(x, x) => 1 } }",
        7,
        "refused 7 twice 24..25 27..28\n",
    ),
    // names are compared, not spellings
    (
        b"fn e\xcc\x81() {} fn \xc3\xa9() {}",
        7,
        "refused 7 twice 3..6 15..17\n",
    ),
    // the one whose second place stands first
    (
        b"fn f<'a>(x: T, x: &'a u8) { y } struct S { a: u8, a: u8 }",
        7,
        "refused 7 twice 9..10 15..16\n",
    ),
];

/// The first name that means nothing.
const UNKNOWN: &[Refused] = &[
    // types
    (b"fn f<T>(x: T) -> U {}", 7, "refused 7 unknown 17..18\n"),
    (
        b"fn f<T>() {} fn g(x: T) {}",
        7,
        "refused 7 unknown 21..22\n",
    ),
    (
        b"struct S<T>(T); fn f(x: T) {}",
        7,
        "refused 7 unknown 24..25\n",
    ),
    (b"struct S { x: T }", 7, "refused 7 unknown 14..15\n"),
    (
        b"enum E { A(S), B(T) } struct S;",
        7,
        "refused 7 unknown 17..18\n",
    ),
    (
        b"fn f(x: u8) { let x: T = y; }",
        7,
        "refused 7 unknown 21..22\n",
    ),
    // of a path, the name that is unknown
    (b"fn f() { E::A }", 7, "refused 7 unknown 9..10\n"),
    (
        b"enum E { A } fn f() { E::B }",
        7,
        "refused 7 unknown 25..26\n",
    ),
    (
        b"struct S; fn f() { S::A }",
        7,
        "refused 7 unknown 22..23\n",
    ),
    (b"fn f<T>() { T::A }", 7, "refused 7 unknown 15..16\n"),
    (
        b"enum E { A } fn f() { A }",
        7,
        "refused 7 unknown 22..23\n",
    ),
    // `mem` wants its `use`
    (
        b"fn f() { mem::swap(x, y) }",
        7,
        "refused 7 unknown 9..12\n",
    ),
    (
        b"use std::mem; fn f() { mem::swap(x, y) }",
        7,
        "refused 7 unknown 33..34\n",
    ),
    (
        b"fn f() { std::mem::swap(x, y) }",
        7,
        "refused 7 unknown 24..25\n",
    ),
    // functions and constructors
    (b"fn f() { f }", 7, "refused 7 unknown 9..10\n"),
    (b"fn f() { T {} }", 7, "refused 7 unknown 9..10\n"),
    (b"fn f(x: u8) { x() }", 7, "refused 7 unknown 14..15\n"),
    (
        b"struct S { x: u8 } fn S() { y }",
        7,
        "refused 7 unknown 28..29\n",
    ),
    (
        b"fn f() { let S { x, y: z } = 1; }",
        7,
        "refused 7 unknown 13..14\n",
    ),
    // how far variables reach
    (b"fn f() { let x = x; }", 7, "refused 7 unknown 17..18\n"),
    (
        b"fn f() { { let x = 1; } x }",
        7,
        "refused 7 unknown 24..25\n",
    ),
    (
        b"fn f() { let x = 1; let x = x; y }",
        7,
        "refused 7 unknown 31..32\n",
    ),
    (
        b"fn f() { while let x = y { x } x }",
        7,
        "refused 7 unknown 23..24\n",
    ),
    (
        b"fn f() { match 1 { x => x, _ => x } }",
        7,
        "refused 7 unknown 32..33\n",
    ),
    (
        b"fn f(mem: u8) { mem } fn std() { y }",
        7,
        "refused 7 unknown 33..34\n",
    ),
    // `mut S` binds
    (
        b"struct S; fn f() { let S = y; }",
        7,
        "refused 7 unknown 27..28\n",
    ),
    (
        b"struct S; fn f() { let mut S = 1; S } fn g() { y }",
        7,
        "refused 7 unknown 47..48\n",
    ),
];

#[test]
fn names_that_are_refused(rt: HostRuntime) -> Result<(), NoMem> {
    let given = refuses(rt.alloc(), TWICE)?;
    assert!(rt; given);
    let given = refuses(rt.alloc(), UNKNOWN)?;
    assert!(rt; given);
    Ok(())
}
