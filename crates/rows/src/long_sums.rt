//! The longest sum of a source: at most 250 brackets and operators count at a token.
use crate::table::{GOOD, answers};
use aen_base::NoMem;
use std::alloc::{AllocError, Global};

/// `fn f(x: u32) -> u32 { x+1+1.. }` with so many ones.
fn counting(alloc: Global, ones: u32) -> Result<String, AllocError> {
    let mut source = String::from_str(alloc, "fn f(x: u32) -> u32 { x")?;
    for _ in 0..ones {
        source.push_str("+1")?;
    }
    source.push_str(" }")?;
    Ok(source)
}

#[test]
fn the_limit_of_depth(rt: HostRuntime) -> Result<(), NoMem> {
    const WORDS: &[&str] = &["run", "a.rs", "f", "1", "1"];
    let longest = counting(rt.alloc(), 249)?;
    let run = answers(
        rt.alloc(),
        &GOOD,
        longest.as_bytes(),
        WORDS,
        0,
        b"value 250\n",
    )?;
    assert!(rt; run);
    let above = counting(rt.alloc(), 250)?;
    let line = b"refused 10 limit depth 251\n";
    let refused = answers(rt.alloc(), &GOOD, above.as_bytes(), WORDS, 10, line)?;
    assert!(rt; refused);
    Ok(())
}
