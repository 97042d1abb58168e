//! Sources that are no programs, with the place where they first are none.

use crate::table::{Refused, refuses};
use aen_base::NoMem;

/// Where the parts of a program end, and where a text does.
const WHOLE: &[Refused] = &[
    // no program begins so, or more has to come
    (b"x", 5, "refused 5 syntax 0..1\n"),
    (b"fn", 5, "refused 5 syntax 2..2\n"),
    (b"fn f() { ", 5, "refused 5 syntax 9..9\n"),
    (b"fn f() } x", 5, "refused 5 syntax 7..8\n"),
    (b"struct S(u8)", 5, "refused 5 syntax 12..12\n"),
    (b"use std::mem", 5, "refused 5 syntax 12..12\n"),
    (b"fn f() { // }\r }", 5, "refused 5 syntax 16..16\n"),
    (b"fn f() {} // a\n x", 5, "refused 5 syntax 16..17\n"),
    // attributes and `use`
    (
        b"#![allow(a)] #![allow(b)] y",
        5,
        "refused 5 syntax 26..27\n",
    ),
    (b"#[allow(a)] #![allow(b)]", 5, "refused 5 syntax 13..14\n"),
    (b"use std::io;", 5, "refused 5 syntax 9..11\n"),
    (b"use mem;", 5, "refused 5 syntax 4..7\n"),
    (b"pub use std::mem;", 5, "refused 5 syntax 4..7\n"),
    // names, parameters and types
    (b"fn u8() {}", 5, "refused 5 syntax 3..5\n"),
    (b"fn _() {}", 5, "refused 5 syntax 3..4\n"),
    (b"fn 'a() {}", 5, "refused 5 syntax 3..5\n"),
    (b"struct Box;", 5, "refused 5 syntax 7..10\n"),
    (b"fn f(x) {}", 5, "refused 5 syntax 6..7\n"),
    (b"fn f<T, 'a>() {}", 5, "refused 5 syntax 8..10\n"),
    (b"fn f<'_>() {}", 5, "refused 5 syntax 5..7\n"),
    (b"fn f(x: (u8,)) {}", 5, "refused 5 syntax 12..13\n"),
    (b"fn f(x: &'a) {}", 5, "refused 5 syntax 11..12\n"),
    // fields and variants
    (b"struct S { x: u8 y: u8 }", 5, "refused 5 syntax 17..18\n"),
    (b"enum E { A(u8) B }", 5, "refused 5 syntax 15..16\n"),
    (b"enum E { A { x: u8 } }", 5, "refused 5 syntax 11..12\n"),
    // `>>`, `>>=` where types end: the fault is the whole token
    (b"fn f(x: Box<u8>>) {}", 5, "refused 5 syntax 14..16\n"),
    (b"fn f(x: Box<Box<u8>>>) {}", 5, "refused 5 syntax 20..21\n"),
    (
        b"fn f() { let x: Box<u8>>= y; }",
        5,
        "refused 5 syntax 22..25\n",
    ),
];

/// Where expressions, statements and patterns end.
const EXPRESSIONS: &[Refused] = &[
    // a statement that begins with a block ends with it
    (b"fn f() { { 1 } + 2 }", 5, "refused 5 syntax 15..16\n"),
    (
        b"fn f() { if x { 1 } else 2 }",
        5,
        "refused 5 syntax 25..26\n",
    ),
    (b"fn f() { loop 'a {} }", 5, "refused 5 syntax 14..16\n"),
    (
        b"fn f() { let x = 1 else {}; }",
        5,
        "refused 5 syntax 19..23\n",
    ),
    (b"fn f() { 1 let }", 5, "refused 5 syntax 11..14\n"),
    (b"fn f() { - } }", 5, "refused 5 syntax 11..12\n"),
    // operators
    (b"fn f() { a < b < c }", 5, "refused 5 syntax 15..16\n"),
    (b"fn f() { a = b = c }", 5, "refused 5 syntax 15..16\n"),
    (b"fn f() { x as T }", 5, "refused 5 syntax 14..15\n"),
    (b"fn f() { &&x }", 5, "refused 5 syntax 9..11\n"),
    (b"fn f() { 1..2 }", 5, "refused 5 syntax 11..12\n"),
    (b"fn f() { break 1 y }", 5, "refused 5 syntax 17..18\n"),
    // fields, calls and paths
    (b"fn f() { x. 0 }", 5, "refused 5 syntax 12..13\n"),
    (b"fn f() { x.0. }", 5, "refused 5 syntax 14..15\n"),
    (b"fn f() { x.y() }", 5, "refused 5 syntax 12..13\n"),
    (b"fn f() { x[0] }", 5, "refused 5 syntax 10..11\n"),
    (b"fn f() { a::b::c }", 5, "refused 5 syntax 15..16\n"),
    (
        b"fn f() { std::mem::take(x) }",
        5,
        "refused 5 syntax 19..23\n",
    ),
    (b"fn f() { Box::from(x) }", 5, "refused 5 syntax 14..18\n"),
    // what stands before `!`
    (
        b"fn f() { panic!(\"a\", b) }",
        5,
        "refused 5 syntax 19..20\n",
    ),
    (b"fn f() { assert!() }", 5, "refused 5 syntax 17..18\n"),
    (b"fn f() { println!() }", 5, "refused 5 syntax 16..17\n"),
    // arms and patterns
    (
        b"fn f() { match x { 1 => 2 3 => 4 } }",
        5,
        "refused 5 syntax 26..27\n",
    ),
    (
        b"fn f() { match x { -y => 1 } }",
        5,
        "refused 5 syntax 20..21\n",
    ),
    (
        b"fn f() { match x { mut _ => 1 } }",
        5,
        "refused 5 syntax 23..24\n",
    ),
];

/// Faults of tokens: the first that no program has so, or the fault of the text.
const TOKENS: &[Refused] = &[
    // no UTF-8
    (b"// a\xff", 4, "refused 4 utf8 4\n"),
    (b"\xc3", 4, "refused 4 utf8 0\n"),
    (b"fn f() {} \xf0\x9f", 4, "refused 4 utf8 10\n"),
    (b"\xed\xa0\x80", 4, "refused 4 utf8 0\n"),
    // the longest number, and the next token
    (b"fn f() { 12abc }", 5, "refused 5 syntax 11..14\n"),
    (b"fn f() { 1u8x }", 5, "refused 5 syntax 12..13\n"),
    (b"fn f() { 0x_1 }", 5, "refused 5 syntax 10..13\n"),
    // no token begins, or none ends
    (b"fn f() {\xc2\xa0}", 5, "refused 5 syntax 8..10\n"),
    (b"fn f() { \"a }", 5, "refused 5 syntax 9..13\n"),
    (b"fn f() { /* a }", 5, "refused 5 syntax 9..15\n"),
    (
        b"fn f() { 340282366920938463463374607431768211456 }",
        5,
        "refused 5 syntax 9..48\n",
    ),
    (b"fn f() { 'a' }", 5, "refused 5 syntax 9..11\n"),
    // whichever stands first
    (b"fn ) \xe2\x82\xac", 5, "refused 5 syntax 3..4\n"),
    (b"fn f() { \xe2\x82\xac )", 5, "refused 5 syntax 9..12\n"),
];

/// The first excluded word, before any fault of a token; before limits and grammar.
const EXCLUDED: &[Refused] = &[
    // words and a lifetime
    (
        b"fn f(x: &'static u8) {}",
        6,
        "refused 6 unsupported 9..16\n",
    ),
    (b"fn f(x: Vec<u8>) {}", 6, "refused 6 unsupported 8..11\n"),
    (b"fn self() {}", 6, "refused 6 unsupported 3..7\n"),
    (b"fn f() { x.await }", 6, "refused 6 unsupported 11..16\n"),
    (b"'fn 'static", 6, "refused 6 unsupported 4..11\n"),
    (
        b"const X: u8 = 1; static",
        6,
        "refused 6 unsupported 0..5\n",
    ),
    // behind a fault of the grammar
    (b"fn f( trait", 6, "refused 6 unsupported 6..11\n"),
    (b") trait", 6, "refused 6 unsupported 2..7\n"),
    // behind a fault of a token, in a string, in a comment
    (
        b"fn f() { \xe2\x82\xac trait }",
        5,
        "refused 5 syntax 9..12\n",
    ),
    (
        b"fn f() { \"trait\" /* trait */ y }",
        5,
        "refused 5 syntax 9..16\n",
    ),
    // no word
    (b"fn f() { 'self }", 5, "refused 5 syntax 9..14\n"),
    (b"fn f() { dyn_ }", 7, "refused 7 unknown 9..13\n"),
];

/// What is read as a program: the place is that of a name, behind all of what is tried.
const READ: &[Refused] = &[
    // empty lists, commas at their end
    (b"fn f<>() { match x {} }", 7, "refused 7 unknown 17..18\n"),
    (b"fn f() { f::<>(y) }", 7, "refused 7 unknown 15..16\n"),
    (
        b"#[derive()] struct S<>; fn f() { y }",
        7,
        "refused 7 unknown 33..34\n",
    ),
    (b"fn f<'a, T,>() { y }", 7, "refused 7 unknown 17..18\n"),
    (b"fn f(x: (u8, u8,)) { y }", 7, "refused 7 unknown 21..22\n"),
    (
        b"fn f() { assert!(y, \"a\",) }",
        7,
        "refused 7 unknown 17..18\n",
    ),
    // `>>=` and `>=` where types end
    (
        b"fn f() { let x: Box<Box<u8>>= y; }",
        7,
        "refused 7 unknown 30..31\n",
    ),
    (
        b"fn f() { let x: Box<u8>= y; }",
        7,
        "refused 7 unknown 25..26\n",
    ),
    // blocks and conditions
    (b"fn f() { { 1 } - y }", 7, "refused 7 unknown 17..18\n"),
    (
        b"fn f() { if return {} {} y }",
        7,
        "refused 7 unknown 25..26\n",
    ),
    (b"fn f() { if S { } { } }", 7, "refused 7 unknown 12..13\n"),
    (b"fn f() { while S {} }", 7, "refused 7 unknown 15..16\n"),
    (
        b"fn f() { match (S {}) {} }",
        7,
        "refused 7 unknown 16..17\n",
    ),
    (
        b"fn f() { match x { 1 => {} 3 => 4 } }",
        7,
        "refused 7 unknown 15..16\n",
    ),
    // words that are names
    (
        b"fn mem() {} fn std() {} fn panic() {} fn new() { y }",
        7,
        "refused 7 unknown 49..50\n",
    ),
    (b"fn f() { std::mem }", 7, "refused 7 unknown 9..12\n"),
    (b"fn f() { Box::new }", 7, "refused 7 unknown 9..17\n"),
];

#[test]
fn sources_that_are_no_programs(rt: HostRuntime) -> Result<(), NoMem> {
    let given = refuses(rt.alloc(), WHOLE)?;
    assert!(rt; given);
    let given = refuses(rt.alloc(), EXPRESSIONS)?;
    assert!(rt; given);
    let given = refuses(rt.alloc(), TOKENS)?;
    assert!(rt; given);
    let given = refuses(rt.alloc(), EXCLUDED)?;
    assert!(rt; given);
    Ok(())
}

#[test]
fn sources_that_are_programs(rt: HostRuntime) -> Result<(), NoMem> {
    let given = refuses(rt.alloc(), READ)?;
    assert!(rt; given);
    Ok(())
}
