//! The worked example of evaluation: a number and 1.
use crate::table::{GOOD, Row, gives};
use aen_base::NoMem;

const ADD1: &[u8] =
    b"import AenPrelude\nopen AenPrelude\n\ndef fn.add1 (n : Nat) (v0 : U32) : Result U32 :=\n  match n with\n  | 0 => outOfFuel\n  | n + 1 => do\n    let v1 \xe2\x86\x90 U32.add v0 1#U32;\n    ok v1\n";

const STUCK: &[u8] =
    b"import AenPrelude\nopen AenPrelude\n\ndef fn.add1 (n : Nat) (v0 : U32) : Result U32 :=\n  match n with\n  | 0 => outOfFuel\n  | n + 1 => do\n    U32.add v0 true\n";

/// The lines are those of the specification's worked examples.
const ROWS: &[Row] = &[
    Row {
        content: ADD1,
        words: &["eval", "a.rs", "fn.add1", "1", "41#U32"],
        status: 0,
        text: "ok 42#U32\n",
    },
    Row {
        content: ADD1,
        words: &["eval", "a.rs", "fn.add1", "0", "41#U32"],
        status: 21,
        text: "outOfFuel\n",
    },
    Row {
        content: ADD1,
        words: &["eval", "a.rs", "fn.add1", "1", "true"],
        status: 11,
        text: "refused 11 argument 0\n",
    },
    Row {
        content: STUCK,
        words: &["eval", "a.rs", "fn.add1", "1", "41#U32"],
        status: 22,
        text: "stuck\n",
    },
    Row {
        content: b"def",
        words: &["eval", "a.rs", "fn.add1", "1", "41#U32"],
        status: 12,
        text: "refused 12 text 0..3\n",
    },
];

#[test]
fn worked_examples(rt: HostRuntime) -> Result<(), NoMem> {
    for row in ROWS {
        let given = gives(rt.alloc(), &GOOD, row)?;
        assert!(rt; given);
    }
    Ok(())
}
