//! Names, their limits, and what is translated of the whole language.

use crate::table::{GOOD, Row, answers, gives};
use aen_base::NoMem;
use std::alloc::{AllocError, Global};

const TRANSLATE: &[&str] = &["translate", "a.rs"];

const LATER: &[u8] = b"refused 30 later\n";

/// `é` as one character where it is declared, and as two where it is called.
const NORMAL_FORM: &str = "fn \u{e9}(x: u32) -> u32 { x + 1 } fn g(x: u32) -> u32 { e\u{301}(x) }";

const NORMAL_FORM_TEXT: &str =
    "import AenPrelude\nopen AenPrelude\n\ndef fn.«\u{e9}» (n : Nat) (v0 : U32) : Result U32 :=\n  match n with\n  | 0 => outOfFuel\n  | n + 1 => do\n    let v1 ← U32.add v0 1#U32;\n    ok v1\n\ndef fn.g (n : Nat) (v0 : U32) : Result U32 :=\n  match n with\n  | 0 => outOfFuel\n  | n + 1 => do\n    let v1 ← fn.«\u{e9}» n v0;\n    ok v1\n";

const REFUSED: &[Row] = &[
    Row {
        content: b"fn f(x: u8, x: u8) {}",
        words: TRANSLATE,
        status: 7,
        text: "refused 7 twice 5..6 12..13\n",
    },
    Row {
        content: b"fn f() -> u32 { g() } fn f() {}",
        words: TRANSLATE,
        status: 7,
        text: "refused 7 twice 3..4 25..26\n",
    },
    Row {
        content: b"fn f() -> u32 { y }",
        words: TRANSLATE,
        status: 7,
        text: "refused 7 unknown 16..17\n",
    },
    Row {
        content: b"fn f(x: T) {}",
        words: TRANSLATE,
        status: 7,
        text: "refused 7 unknown 8..9\n",
    },
];

/// Brackets, comments, attributes, `pub`, `mut`, written types, suffixes and calls as arguments.
const TAKEN: &[Row] = &[
    Row {
        content: b"#[allow(unused)] pub fn f(mut x: u32,) -> u32 { /* sum */ let mut y: u32 = 1; ; x + (y + 2u32) }",
        words: &["run", "a.rs", "f", "1", "4"],
        status: 0,
        text: "value 7\n",
    },
    Row {
        content: b"fn d(x: u32) -> u32 { x + x } fn f(x: u32) -> u32 { d(d(x) + 1) }",
        words: &["run", "a.rs", "f", "2", "4"],
        status: 0,
        text: "value 18\n",
    },
    Row {
        content: b"fn f(x: u32) -> u32 { let y = 1 + x; y }",
        words: &["run", "a.rs", "f", "1", "4"],
        status: 0,
        text: "value 5\n",
    },
];

/// What is no sum, or no `u32`.
const OUTSIDE: &[&[u8]] = &[
    b"fn f() {}",
    b"fn f(x: u8) -> u8 { x }",
    b"fn f() -> u32 { 1u8 }",
    b"fn f() -> u32 { -1 }",
    b"fn f() -> u32 { let y = 1; y }",
    b"fn f() -> u32 { let y = 1 + 2; y }",
    b"fn f(x: u32) -> u32 { x; x }",
    b"fn f(x: u32) -> u32 { x * x }",
    b"fn f<T>(x: u32) -> u32 { x }",
    b"fn f(x: u32) -> u32 { x } fn g() -> u32 { f() }",
    b"struct S; fn f() -> u32 { 1 }",
];

#[test]
fn worked_names(rt: HostRuntime) -> Result<(), NoMem> {
    for row in REFUSED {
        let given = gives(rt.alloc(), &GOOD, row)?;
        assert!(rt; given);
    }
    let text = NORMAL_FORM_TEXT.as_bytes();
    let same = answers(
        rt.alloc(),
        &GOOD,
        NORMAL_FORM.as_bytes(),
        TRANSLATE,
        0,
        text,
    )?;
    assert!(rt; same);
    Ok(())
}

#[test]
fn what_is_translated(rt: HostRuntime) -> Result<(), NoMem> {
    for row in TAKEN {
        let given = gives(rt.alloc(), &GOOD, row)?;
        assert!(rt; given);
    }
    for content in OUTSIDE {
        let later = answers(rt.alloc(), &GOOD, content, TRANSLATE, 30, LATER)?;
        assert!(rt; later);
    }
    Ok(())
}

/// So many functions without a result.
fn functions(alloc: Global, count: u32) -> Result<String, AllocError> {
    let mut source = String::new(alloc);
    for number in 0..count {
        let function = format!(in alloc; "fn g{number}() {{}}\n")?;
        source.push_str(function.as_str())?;
    }
    Ok(source)
}

/// A function with so many variables.
fn variables(alloc: Global, count: u32) -> Result<String, AllocError> {
    let mut source = String::from_str(alloc, "fn f() { ")?;
    for _ in 0..count {
        source.push_str("let x = 0u32; ")?;
    }
    source.push_str("}")?;
    Ok(source)
}

/// At most 4,096 functions, and 1,000 variables in each.
#[test]
fn the_limits_of_names(rt: HostRuntime) -> Result<(), NoMem> {
    let few = functions(rt.alloc(), 4_096)?;
    let kept = answers(rt.alloc(), &GOOD, few.as_bytes(), TRANSLATE, 30, LATER)?;
    assert!(rt; kept);
    let many = functions(rt.alloc(), 4_097)?;
    let line = b"refused 10 limit functions 4097\n";
    let refused = answers(rt.alloc(), &GOOD, many.as_bytes(), TRANSLATE, 10, line)?;
    assert!(rt; refused);
    let few = variables(rt.alloc(), 1_000)?;
    let kept = answers(rt.alloc(), &GOOD, few.as_bytes(), TRANSLATE, 30, LATER)?;
    assert!(rt; kept);
    let many = variables(rt.alloc(), 1_001)?;
    let line = b"refused 10 limit variables 1001\n";
    let refused = answers(rt.alloc(), &GOOD, many.as_bytes(), TRANSLATE, 10, line)?;
    assert!(rt; refused);
    Ok(())
}
