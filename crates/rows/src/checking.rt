//! `check`: a program is accepted, and what is none is refused as `translate` refuses it.
use crate::table::{GOOD, Outside, Row, answers, gives};
use aen_base::NoMem;

const CHECK: &[&str] = &["check", "a.rs"];

const ACCEPTED: &str = "accepted\n";

const ADD1: &[u8] = b"fn add1(x: u32) -> u32 { x + 1 }";

/// The lines are those of the specification's worked examples.
const ROWS: &[Row] = &[
    Row {
        content: ADD1,
        words: CHECK,
        status: 0,
        text: ACCEPTED,
    },
    Row {
        content: b"",
        words: CHECK,
        status: 0,
        text: ACCEPTED,
    },
    Row {
        content: ADD1,
        words: &["check", "none.rs"],
        status: 2,
        text: "refused 2 read\n",
    },
    Row {
        content: b"fn \xff",
        words: CHECK,
        status: 4,
        text: "refused 4 utf8 3\n",
    },
    Row {
        content: b"fn f(",
        words: CHECK,
        status: 5,
        text: "refused 5 syntax 5..5\n",
    },
    Row {
        content: b"trait T {}",
        words: CHECK,
        status: 6,
        text: "refused 6 unsupported 0..5\n",
    },
    Row {
        content: b"fn f() -> u32 { g() }",
        words: CHECK,
        status: 7,
        text: "refused 7 unknown 16..17\n",
    },
    Row {
        content: b"fn f() {} fn f() {}",
        words: CHECK,
        status: 7,
        text: "refused 7 twice 3..4 13..14\n",
    },
    Row {
        content: b"fn f() {}",
        words: CHECK,
        status: 30,
        text: "refused 30 later\n",
    },
];

/// Words that are not `check FILE`.
const MISUSED: &[&[&str]] = &[
    &["check"],
    &["check", "a.rs", "a.rs"],
    &["check", "a.rs", "a.rs", "1"],
    &["Check", "a.rs"],
    &["checks", "a.rs"],
    &["a.rs", "check"],
];

#[test]
fn worked_examples(rt: HostRuntime) -> Result<(), NoMem> {
    for row in ROWS {
        let given = gives(rt.alloc(), &GOOD, row)?;
        assert!(rt; given);
    }
    for words in MISUSED {
        let refused = answers(rt.alloc(), &GOOD, ADD1, words, 1, b"refused 1 usage\n")?;
        assert!(rt; refused);
    }
    Ok(())
}

/// The first or the second read fails, and then the first or the second write of five bytes.
#[test]
fn files_and_sinks_that_fail(rt: HostRuntime) -> Result<(), NoMem> {
    const FAILS: &[&[u64]] = &[&[0], &[1]];
    let line = ACCEPTED.as_bytes();
    let mut held = 0usize;
    for calls in FAILS {
        let reading = Outside {
            reads: calls,
            writes: &[],
            piece: 1_000_000,
        };
        let refused = answers(rt.alloc(), &reading, ADD1, CHECK, 2, b"refused 2 read\n")?;
        assert!(rt; refused);
        let writing = Outside {
            reads: &[],
            writes: calls,
            piece: 5,
        };
        let prefix = &line[..held.min(line.len())];
        let stopped = answers(rt.alloc(), &writing, ADD1, CHECK, 3, prefix)?;
        assert!(rt; stopped);
        held = held.saturating_add(5);
    }
    Ok(())
}
