//! Words are read as values, and printed as they were written.
use crate::round_trips::TEXT;
use aen_base::{List, NoMem, Text};
use lean_reader::read_defs;
use std::alloc::Global;
use std::test::Fail;
use text_words::{def_named, print_atom, read_args};

/// The arguments of a call of `fn.«é»`, read and printed again; None where they are not read.
fn printed(alloc: Global) -> Result<Option<List<Text>>, NoMem> {
    let Ok(defs) = read_defs(alloc, TEXT) else {
        return Ok(None);
    };
    let Some(def) = def_named(&defs, "fn.«é»") else {
        return Ok(None);
    };
    let mut words = Vec::new(alloc);
    words.push(String::from_str(alloc, "(L.cons 255#U8 L.nil)")?)?;
    words.push(String::from_str(alloc, "true")?)?;
    words.push(String::from_str(alloc, "(1#U8, -2#I128)")?)?;
    words.push(String::from_str(alloc, "(Exit.brk 3#U8)")?)?;
    let Ok(args) = read_args(alloc, &defs, def, &[], words.as_slice()) else {
        return Ok(None);
    };
    let mut atoms = List::new(alloc);
    for value in args.as_slice() {
        atoms.push(print_atom(alloc, &defs, value)?)?;
    }
    Ok(Some(atoms))
}

#[test]
fn arguments_are_printed_as_they_were_written(rt: HostRuntime) -> Result<(), Fail> {
    let atoms = printed(rt.alloc())?.ok_or("they are arguments")?;
    let words = [
        "(L.cons 255#U8 L.nil)",
        "true",
        "(1#U8, -2#I128)",
        "(Exit.brk 3#U8)",
    ];
    assert_eq!(rt; atoms.len(), words.len());
    for (atom, word) in atoms.as_slice().iter().zip(words) {
        assert_eq!(rt; atom.as_str(), word);
    }
    Ok(())
}
