use crate::table::{GOOD, Outside, Row, answers, gives};
use aen_base::NoMem;
use std::alloc::{AllocError, Global};

const ADD1: &[u8] = b"fn add1(x: u32) -> u32 { x + 1 }";

const ADD1_TEXT: &str =
    "import AenPrelude\nopen AenPrelude\n\ndef fn.add1 (n : Nat) (v0 : U32) : Result U32 :=\n  match n with\n  | 0 => outOfFuel\n  | n + 1 => do\n    let v1 ← U32.add v0 1#U32;\n    ok v1\n";

const HEADER: &str = "import AenPrelude\nopen AenPrelude\n";

const LATER: &str = "refused 30 later\n";

const TRANSLATE: &[&str] = &["translate", "a.rs"];

/// The texts are those of the specification's worked examples and of the reference.
const ROWS: &[Row] = &[
    Row {
        content: ADD1,
        words: TRANSLATE,
        status: 0,
        text: ADD1_TEXT,
    },
    Row {
        content: b"",
        words: TRANSLATE,
        status: 0,
        text: HEADER,
    },
    Row {
        content: ADD1,
        words: &[],
        status: 1,
        text: "refused 1 usage\n",
    },
    Row {
        content: ADD1,
        words: &["translate"],
        status: 1,
        text: "refused 1 usage\n",
    },
    Row {
        content: ADD1,
        words: &["translate", "none.rs"],
        status: 2,
        text: "refused 2 read\n",
    },
    Row {
        content: b"fn f() -> u32 { g() }",
        words: TRANSLATE,
        status: 7,
        text: "refused 7 unknown 16..17\n",
    },
    Row {
        content: b"fn \xff",
        words: TRANSLATE,
        status: 4,
        text: "refused 4 utf8 3\n",
    },
    Row {
        content: b"fn f(",
        words: TRANSLATE,
        status: 5,
        text: "refused 5 syntax 5..5\n",
    },
    Row {
        content: b"trait T {}",
        words: TRANSLATE,
        status: 6,
        text: "refused 6 unsupported 0..5\n",
    },
    Row {
        content: b"fn f() -> u32 { 4294967296 }",
        words: TRANSLATE,
        status: 30,
        text: LATER,
    },
    Row {
        content: b"fn f() -> u32 { f() }",
        words: TRANSLATE,
        status: 30,
        text: LATER,
    },
    Row {
        content: b"fn f() {} fn f() {}",
        words: TRANSLATE,
        status: 7,
        text: "refused 7 twice 3..4 13..14\n",
    },
];

#[test]
fn worked_examples(rt: HostRuntime) -> Result<(), NoMem> {
    for row in ROWS {
        let given = gives(rt.alloc(), &GOOD, row)?;
        assert!(rt; given);
    }
    Ok(())
}

/// The longest source is read, and one byte more is refused.
#[test]
fn the_limit_of_a_source(rt: HostRuntime) -> Result<(), NoMem> {
    let mut spaces = vec![in rt.alloc(); 32u8; 1_048_576]?;
    let within = answers(rt.alloc(), &GOOD, &spaces, TRANSLATE, 0, HEADER.as_bytes())?;
    assert!(rt; within);
    spaces.push(32)?;
    let line = b"refused 10 limit source 1048577\n";
    let above = answers(rt.alloc(), &GOOD, &spaces, TRANSLATE, 10, line)?;
    assert!(rt; above);
    Ok(())
}

/// A function whose value is 1 in so many round brackets.
fn bracketed(alloc: Global, brackets: u32) -> Result<String, AllocError> {
    let mut source = String::from_str(alloc, "fn f() -> u32 { ")?;
    for _ in 0..brackets {
        source.push_str("(")?;
    }
    source.push_str("1")?;
    for _ in 0..brackets {
        source.push_str(")")?;
    }
    source.push_str(" }")?;
    Ok(source)
}

/// At most 100 brackets are open at once.
#[test]
fn the_limit_of_nesting(rt: HostRuntime) -> Result<(), NoMem> {
    let within = bracketed(rt.alloc(), 99)?;
    let call = &["run", "a.rs", "f", "1"];
    let kept = answers(rt.alloc(), &GOOD, within.as_bytes(), call, 0, b"value 1\n")?;
    assert!(rt; kept);
    let above = bracketed(rt.alloc(), 100)?;
    let line = b"refused 10 limit nesting 101\n";
    let refused = answers(rt.alloc(), &GOOD, above.as_bytes(), TRANSLATE, 10, line)?;
    assert!(rt; refused);
    Ok(())
}

/// The first or the second read fails: the file is read in two calls, the second of which finds
/// its end.
#[test]
fn reads_that_fail(rt: HostRuntime) -> Result<(), NoMem> {
    const FAILS: &[&[u64]] = &[&[0], &[1]];
    for reads in FAILS {
        let outside = Outside {
            reads,
            writes: &[],
            piece: 1_000_000,
        };
        let refused = answers(
            rt.alloc(),
            &outside,
            ADD1,
            TRANSLATE,
            2,
            b"refused 2 read\n",
        )?;
        assert!(rt; refused);
    }
    Ok(())
}

/// A sink that takes ten bytes a call and fails at one call holds what the calls before took.
#[test]
fn writes_that_fail(rt: HostRuntime) -> Result<(), NoMem> {
    const FAILS: &[&[u64]] = &[
        &[0],
        &[1],
        &[2],
        &[3],
        &[4],
        &[5],
        &[6],
        &[7],
        &[8],
        &[9],
        &[10],
        &[11],
        &[12],
        &[13],
        &[14],
        &[15],
        &[16],
    ];
    let text = ADD1_TEXT.as_bytes();
    let mut held = 0usize;
    for writes in FAILS {
        let outside = Outside {
            reads: &[],
            writes,
            piece: 10,
        };
        let prefix = &text[..held.min(text.len())];
        let stopped = answers(rt.alloc(), &outside, ADD1, TRANSLATE, 3, prefix)?;
        assert!(rt; stopped);
        held = held.saturating_add(10);
    }
    Ok(())
}
