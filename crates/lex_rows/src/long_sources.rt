//! Sources of a mebibyte, each cut in a moment.

use aen_base::NoMem;
use rust_lex::lex;
use std::alloc::Global;

const MEBIBYTE: usize = 1_048_576;

/// A piece as often as it fits into a mebibyte.
fn repeated(alloc: Global, piece: &str) -> Result<String, NoMem> {
    let mut source = String::new(alloc);
    for _ in 0..MEBIBYTE {
        if source.len() >= MEBIBYTE {
            return Ok(source);
        }
        source.push_str(piece)?;
    }
    Ok(source)
}

/// The number of tokens of a mebibyte of pieces, and whether there is a fault.
fn cut(alloc: Global, piece: &str) -> Result<(usize, bool), NoMem> {
    let source = repeated(alloc, piece)?;
    if source.len() > 2 * MEBIBYTE {
        return Ok((0, true));
    }
    let tokens = lex(alloc, source.as_str())?;
    Ok((tokens.list.len(), tokens.bad.is_some()))
}

#[test]
fn long_sources_are_cut(rt: HostRuntime) -> Result<(), NoMem> {
    assert_eq!(rt; cut(rt.alloc(), "(")?, (MEBIBYTE, false));
    assert_eq!(rt; cut(rt.alloc(), "/*")?, (0, true));
    assert_eq!(rt; cut(rt.alloc(), "/**/")?, (0, false));
    assert_eq!(rt; cut(rt.alloc(), "'")?, (0, true));
    assert_eq!(rt; cut(rt.alloc(), "a")?, (1, false));
    assert_eq!(rt; cut(rt.alloc(), "é")?, (1, false));
    assert_eq!(rt; cut(rt.alloc(), "e\u{301}")?, (1, false));
    assert_eq!(rt; cut(rt.alloc(), "a\u{315}\u{300}")?, (1, false));
    assert_eq!(rt; cut(rt.alloc(), "0")?, (1, false));
    assert_eq!(rt; cut(rt.alloc(), "9")?, (0, true));
    assert_eq!(rt; cut(rt.alloc(), "\"")?, (MEBIBYTE / 2, false));
    assert_eq!(rt; cut(rt.alloc(), "a ")?, (MEBIBYTE / 2, false));
    assert_eq!(rt; cut(rt.alloc(), ".0")?, (MEBIBYTE, false));
    Ok(())
}
