use crate::table::{GOOD, Row, gives};
use aen_base::NoMem;

const ADD1: &[u8] = b"fn add1(x: u32) -> u32 { x + 1 }";

const CALLS: &[u8] =
    b"fn f(a: u32, b: u32) -> u32 { a + b + b } fn g(x: u32) -> u32 { let y = f(x, 1); f(y, x) }";

/// The lines are those of the specification's worked examples and of the reference.
const ROWS: &[Row] = &[
    Row {
        content: ADD1,
        words: &["run", "a.rs", "add1", "1", "41"],
        status: 0,
        text: "value 42\n",
    },
    Row {
        content: ADD1,
        words: &["run", "a.rs", "add1", "1", "4294967295"],
        status: 20,
        text: "panic\n",
    },
    Row {
        content: ADD1,
        words: &["run", "a.rs", "add1", "0", "41"],
        status: 21,
        text: "more\n",
    },
    Row {
        content: ADD1,
        words: &["run", "a.rs", "add1", "1", "4294967296"],
        status: 11,
        text: "refused 11 argument 0\n",
    },
    Row {
        content: ADD1,
        words: &["run", "a.rs", "add2", "1", "1"],
        status: 13,
        text: "refused 13 name\n",
    },
    Row {
        content: ADD1,
        words: &["run", "a.rs", "add1", "257", "1"],
        status: 10,
        text: "refused 10 limit fuel 257\n",
    },
    Row {
        content: ADD1,
        words: &["run", "a.rs", "add1", "1"],
        status: 11,
        text: "refused 11 count 1 0\n",
    },
    Row {
        content: ADD1,
        words: &["run", "a.rs", "add1", "x", "1"],
        status: 1,
        text: "refused 1 usage\n",
    },
    Row {
        content: ADD1,
        words: &["run", "a.rs", "add1", "1", "+1"],
        status: 11,
        text: "refused 11 argument 0\n",
    },
    Row {
        content: ADD1,
        words: &["run", "a.rs", "add1", "0001", "0041"],
        status: 0,
        text: "value 42\n",
    },
    Row {
        content: CALLS,
        words: &["run", "a.rs", "g", "2", "5"],
        status: 0,
        text: "value 17\n",
    },
    Row {
        content: CALLS,
        words: &["run", "a.rs", "g", "1", "5"],
        status: 21,
        text: "more\n",
    },
];

#[test]
fn worked_examples(rt: HostRuntime) -> Result<(), NoMem> {
    for row in ROWS {
        let given = gives(rt.alloc(), &GOOD, row)?;
        assert!(rt; given);
    }
    Ok(())
}
