ghost use Rattle.std.specs.Prelude.{◌≡◌, ◌<◌, ◌≤◌, ◌^◌, ◌+◌, [], length, vec_len, IfOk, IfErr, OnOk};
ghost use Rattle.aen_io.specs.Handed.{ReadsInOrder, since};
ghost use Rattle.aen_io.specs.Told.{OfContent};
ghost use Rattle.aen_io.specs.Reading.{IsWhole, IsCause};
ghost use Rattle.aen_io.specs.Turns.{IsFault, Adds, GoesOn};

use crate::{Failed, Files};
use aen_base::NoMem;
use std::alloc::{AllocError, Global};
use thiserror::Error;

/// Why a file wasn't read whole.
#[derive(Clone, Copy, Debug, PartialEq, Eq, Error)]
pub enum ReadAll {
    /// Reading failed.
    #[error("reading failed")]
    Failed,
    /// The file is longer than the limit. This many bytes were read, one more than the limit.
    #[error("{0} bytes were read, more than the limit")]
    TooLong(u64),
    /// Want of memory.
    #[error("out of memory")]
    Memory,
}

impl From<Failed> for ReadAll {
    ghost use Rattle.aen_io.specs.declared.reading.ReadAll.TheVariants.{Failed};

    ghost from_gives = { λ _ e. e ≡ Failed };

    fn from(_: Failed) -> ReadAll {
        ReadAll::Failed
    }
}

impl From<NoMem> for ReadAll {
    ghost use Rattle.aen_io.specs.declared.reading.ReadAll.TheVariants.{Memory};

    ghost from_gives = { λ _ e. e ≡ Memory };

    fn from(_: NoMem) -> ReadAll {
        ReadAll::Memory
    }
}

impl From<AllocError> for ReadAll {
    ghost use Rattle.aen_io.specs.declared.reading.ReadAll.TheVariants.{Memory};

    ghost from_gives = { λ _ e. e ≡ Memory };

    fn from(_: AllocError) -> ReadAll {
        ReadAll::Memory
    }
}

/// The most bytes that are asked for at once.
const PIECE: usize = 65_536;

/// Reads a whole file of at most `limit` bytes: Ok is exactly the bytes that were handed out in
/// this call, from the file's first byte to its end, each read beginning where the one before it
/// ended. Where content is told, they are the content.
///
/// `Failed` comes only where a fault was counted in this call, or where content is told and the
/// name isn't there. `TooLong(limit + 1)` comes exactly where that many bytes were handed out.
/// `Memory` is want of memory. Every read but the last hands out at least one byte, so there are
/// at most `limit + 1` that hand out, and one that fails.
pub fn read_all<F: Files>(
    alloc: Global,
    files: &mut F,
    name: &str,
    limit: u64,
) -> Result<Vec<u8>, ReadAll>
    requires { limit < 2 ^ 63 }
    ensures kept { F.told files.new ≡ F.told files.old }
    ensures later { F.faults files.old ≤ F.faults files.new }
    ensures reads { ReadsInOrder name.now (F.handed files.old) (F.handed files.new) }
    ensures calls { length (since (F.handed files.old) (F.handed files.new)) ≤ limit + 1 }
    ensures whole { IfOk result (λ v. IsWhole name.now (since (F.handed files.old) (F.handed files.new)) v.items) }
    ensures content { IfOk result (λ v. OfContent (F.told files.old) name.now (λ c. v.items ≡ c)) }
    ensures within { IfOk result (λ v. vec_len v ≤ limit) }
    ensures cause { IfErr result (IsCause (F.told files.old) name.now limit (since (F.handed files.old) (F.handed files.new)) (F.faults files.old) (F.faults files.new)) }
{
    let mut buf = vec![in alloc; 0u8; PIECE]?;
    let mut whole = Vec::new(alloc);
    read_turns(files, name, limit, &mut buf, &mut whole)?;
    Ok(whole)
}

/// Reads a file turn by turn, each as far as the buffer and the limit allow.
fn read_turns<F: Files>(
    files: &mut F,
    name: &str,
    limit: u64,
    buf: &mut [u8],
    whole: &mut Vec<u8>,
) -> Result<(), ReadAll>
    requires limit { limit < 2 ^ 63 }
    requires room { 0 < length buf.old }
    requires empty { whole.old.items ≡ [] }
    ensures kept { F.told files.new ≡ F.told files.old }
    ensures later { F.faults files.old ≤ F.faults files.new }
    ensures reads { ReadsInOrder name.now (F.handed files.old) (F.handed files.new) }
    ensures calls { length (since (F.handed files.old) (F.handed files.new)) ≤ limit + 1 }
    ensures whole { OnOk result (IsWhole name.now (since (F.handed files.old) (F.handed files.new)) whole.new.items) }
    ensures content { OnOk result (OfContent (F.told files.old) name.now (λ c. whole.new.items ≡ c)) }
    ensures within { OnOk result (vec_len whole.new ≤ limit) }
    ensures cause { IfErr result (IsCause (F.told files.old) name.now limit (since (F.handed files.old) (F.handed files.new)) (F.faults files.old) (F.faults files.new)) }
{
    // One byte above the limit shows that the file is too long.
    let most = limit as usize + 1;
    while whole.len() < most {
        let asked = (most - whole.len()).min(buf.len());
        let n = read_more(files, name, &mut buf[..asked], whole)?;
        if n == 0 {
            return Ok(());
        }
    }
    Err(ReadAll::TooLong(limit + 1))
}

/// Reads one piece of a file and adds it to what was read before; 0 is the file's end.
fn read_more<F: Files>(
    files: &mut F,
    name: &str,
    piece: &mut [u8],
    whole: &mut Vec<u8>,
) -> Result<usize, ReadAll>
    requires { vec_len whole.old < 2 ^ 63 }
    ensures kept { F.told files.new ≡ F.told files.old }
    ensures later { F.faults files.old ≤ F.faults files.new }
    ensures bound { IfOk result (λ n. n ≤ length piece.old) }
    ensures more { IfOk result (λ n. vec_len whole.new ≡ vec_len whole.old + n) }
    ensures bytes { IfOk result (λ n. OfContent (F.told files.old) name.now (λ c. GoesOn c n (length piece.old) whole.old.items whole.new.items)) }
    ensures call { IfOk result (λ n. Adds name.now (F.handed files.old) (F.handed files.new) n whole.old.items whole.new.items) }
    ensures cause { IfErr result (IsFault (F.told files.old) name.now (vec_len whole.old) (F.handed files.old) (F.handed files.new) (F.faults files.old) (F.faults files.new)) }
{
    let n = files.read_at(name, whole.len() as u64, piece)?;
    whole.extend_from_slice(&piece[..n])?;
    Ok(n)
}

#[cfg(test)]
mod tests {
    use super::*;
    use crate::MemFiles;
    use aen_base::{List, Name};

    #[test]
    fn reads_whole_files_up_to_the_limit(rt: HostRuntime) -> Result<(), ReadAll> {
        let mut entries = List::new(rt.alloc());
        let name = Name::from_str(rt.alloc(), "a.rs")?;
        entries.push((name, List::from_slice(rt.alloc(), b"fn f() {}")?))?;
        let mut files = MemFiles::new(entries, List::from_slice(rt.alloc(), &[2])?);
        let content = read_all(rt.alloc(), &mut files, "a.rs", 9)?;
        assert!(rt; content.as_slice() == b"fn f() {}".as_slice());
        // The third call, the first of this reading, is to fail.
        let failed = read_all(rt.alloc(), &mut files, "a.rs", 9);
        assert!(rt; failed.is_err_and(|e| e == ReadAll::Failed));
        let long = read_all(rt.alloc(), &mut files, "a.rs", 8);
        assert!(rt; long.is_err_and(|e| e == ReadAll::TooLong(9)));
        let missing = read_all(rt.alloc(), &mut files, "b.rs", 9);
        assert!(rt; missing.is_err_and(|e| e == ReadAll::Failed));
        Ok(())
    }
}
