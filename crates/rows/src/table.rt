use aen_base::{List, Name, NoMem};
use aen_io::{MemFiles, MemSink};
use aeneas::aeneas;
use std::alloc::{AllocError, Global};

/// One call: the content of the file `a.rs`, the words after the program's name, and what has to
/// come: the status and the bytes.
#[derive(Drop)]
pub struct Row {
    pub content: &'static [u8],
    pub words: &'static [&'static str],
    pub status: u8,
    pub text: &'static str,
}

/// How files and sink behave: the calls that fail, by their numbers from 0, and the number of
/// bytes that the sink takes in one call.
#[derive(Drop)]
pub struct Outside {
    pub reads: &'static [u64],
    pub writes: &'static [u64],
    pub piece: u64,
}

/// Files and sink without faults.
pub const GOOD: Outside = Outside {
    reads: &[],
    writes: &[],
    piece: 1_000_000,
};

/// The room of the sink, more than any row writes.
const ROOM: u64 = 100_000;

/// The words as strings.
fn strings(alloc: Global, words: &[&str]) -> Result<Vec<String>, AllocError> {
    let mut all = Vec::new(alloc);
    for word in words {
        all.push(String::from_str(alloc, word)?)?;
    }
    Ok(all)
}

/// Whether the call gives this status and writes exactly this text.
pub fn gives(alloc: Global, outside: &Outside, row: &Row) -> Result<bool, NoMem> {
    answers(
        alloc,
        outside,
        row.content,
        row.words,
        row.status,
        row.text.as_bytes(),
    )
}

/// Whether the call with this content gives this status and writes exactly these bytes.
pub fn answers(
    alloc: Global,
    outside: &Outside,
    content: &[u8],
    words: &[&str],
    status: u8,
    text: &[u8],
) -> Result<bool, NoMem> {
    let mut entries = List::new(alloc);
    entries.push((
        Name::from_str(alloc, "a.rs")?,
        List::from_slice(alloc, content)?,
    ))?;
    let mut files = MemFiles::new(entries, List::from_slice(alloc, outside.reads)?);
    let piece = outside.piece.max(1);
    let mut sink = MemSink::new(alloc, List::from_slice(alloc, outside.writes)?, piece, ROOM)?;
    let words = strings(alloc, words)?;
    let answer = aeneas(alloc, &words, &mut files, &mut sink);
    Ok(answer == status && sink.bytes() == text)
}

/// A source that is refused: the status and the line.
pub type Refused = (&'static [u8], u8, &'static str);

/// Whether `translate` refuses each source so.
pub fn refuses(alloc: Global, sources: &[Refused]) -> Result<bool, NoMem> {
    for (content, status, line) in sources {
        let words = &["translate", "a.rs"];
        if !answers(alloc, &GOOD, content, words, *status, line.as_bytes())? {
            return Ok(false);
        }
    }
    Ok(true)
}
