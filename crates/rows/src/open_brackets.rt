//! The limit of open brackets in a printed text.
use crate::table::{GOOD, answers};
use aen_base::NoMem;
use std::alloc::{AllocError, Global};

const WORDS: &[&str] = &["eval", "a.rs", "fn.f", "1"];

/// The text before the one atom.
const HEAD: &str =
    "import AenPrelude open AenPrelude inductive L where | nil : L | cons : L → L def fn.f (n : Nat) : Result L := match n with | 0 => outOfFuel | n + 1 => do ";

/// `ok` of an atom with so many open brackets, after this head.
fn nested(alloc: Global, head: &str, depth: u32) -> Result<String, AllocError> {
    let mut text = String::from_str(alloc, head)?;
    text.push_str("ok ")?;
    for _ in 0..depth {
        text.push_str("(L.cons ")?;
    }
    text.push_str("L.nil")?;
    for _ in 0..depth {
        text.push_str(")")?;
    }
    Ok(text)
}

#[test]
fn the_limit_of_open_brackets(rt: HostRuntime) -> Result<(), NoMem> {
    let content = nested(rt.alloc(), HEAD, 10_000)?;
    let mut line = nested(rt.alloc(), "", 10_000)?;
    line.push_str("\n")?;
    let within = answers(
        rt.alloc(),
        &GOOD,
        content.as_bytes(),
        WORDS,
        0,
        line.as_bytes(),
    )?;
    assert!(rt; within);
    let content = nested(rt.alloc(), HEAD, 10_001)?;
    let line = b"refused 10 limit text_nesting 10001\n";
    let above = answers(rt.alloc(), &GOOD, content.as_bytes(), WORDS, 10, line)?;
    assert!(rt; above);
    Ok(())
}
