ghost use Rattle.std.specs.Prelude.{◌≡◌, ◌≤◌, [], length, IfOk};

use crate::{Failed, Files, ReadLog};
use std::alloc::Global;
use std::io::{Read, Seek, SeekFrom};
use std::{fs, io, rt};

/// The system's files, through the runtime `R`. It tells no content; each error of the system is
/// a fault that is counted, a missing file among them.
///
/// A call that begins where the last one ended reads on in the file that is open, so that what
/// can't be sought, as a pipe, is read in order. Every other call opens the file anew.
#[derive(Drop)]
pub struct RealFiles<R: rt::Files> {
    alloc: Global,
    rt: R,
    open: Option<Open<R::File>>,
    faults: u64,
    log: ReadLog,
}

/// A file that is open, and the byte that it is read next from. It stays open as long as calls
/// read on, up to its end.
#[derive(Drop)]
struct Open<T> {
    name: String,
    file: T,
    position: u64,
}

impl<R: rt::Files> RealFiles<R> {
    /// The files that this runtime reaches. It opens nothing. `alloc` serves to keep the name of
    /// the file that is open; where memory wants for it, the file is opened for each call.
    pub fn new(alloc: Global, rt: R) -> RealFiles<R>
        ensures faults { result.faults ≡ 0 }
        ensures handed { result.log.handed ≡ [] }
    {
        RealFiles {
            alloc,
            rt,
            open: None,
            faults: 0,
            log: ReadLog::new(),
        }
    }
}

impl<R: rt::Files> Files for RealFiles<R> {
    ghost use Rattle.std.specs.Prelude.{None};

    ghost told = { λ _. None };

    ghost faults = { λ s. s.faults };

    ghost handed = { λ s. s.log.handed };

    fn read_at(&mut self, name: &str, at: u64, buf: &mut [u8]) -> Result<usize, Failed> {
        match read_from(self.alloc, &self.rt, &mut self.open, name, at, buf) {
            Ok(n) => {
                self.log.note(name.as_bytes(), at, &buf[..n]);
                Ok(n)
            }
            Err(_) => {
                self.faults = self.faults.saturating_add(1);
                Err(Failed)
            }
        }
    }
}

/// Reads once at `at`, in the file that is open where that is its place.
fn read_from<R: rt::Files>(
    alloc: Global,
    rt: &R,
    open: &mut Option<Open<R::File>>,
    name: &str,
    at: u64,
    buf: &mut [u8],
) -> io::Result<usize>
    ensures { IfOk result (λ n. n ≤ length buf.new) }
{
    let (mut file, kept) = match open.take() {
        Some(open) if open.position == at && open.name.as_str() == name => {
            (open.file, Some(open.name))
        }
        _ => (open_at(rt, name, at)?, String::from_str(alloc, name).ok()),
    };
    let n = file.read(buf)?;
    if n > 0
        && let Some(name) = kept
        && let Some(position) = at.checked_add(n as u64)
    {
        *open = Some(Open {
            name,
            file,
            position,
        });
    }
    Ok(n)
}

/// Opens a file to be read from the byte `at` on.
fn open_at<R: rt::Files>(rt: &R, name: &str, at: u64) -> io::Result<R::File> {
    let mut file = fs::open(rt, name)?;
    if at > 0 {
        file.seek(SeekFrom::Start(at))?;
    }
    Ok(file)
}

#[cfg(test)]
mod tests {
    use super::*;
    use crate::read_all;

    #[test]
    fn reads_back_a_file(rt: HostRuntime) -> io::Result<()> {
        let name = "aen_io_real_files.txt";
        fs::write(&rt, name, "two lines\nof text\n")?;
        let mut files = RealFiles::new(rt.alloc(), rt.clone()?);
        let content = read_all(rt.alloc(), &mut files, name, 100);
        let again = read_all(rt.alloc(), &mut files, name, 100);
        let mut part = [0u8; 4];
        let sought = files.read_at(name, 10, &mut part);
        let missing = read_all(rt.alloc(), &mut files, "aen_io_no_such_file.txt", 100);
        let folder = read_all(rt.alloc(), &mut files, ".", 100);
        fs::remove_file(&rt, name)?;
        assert!(rt; content.is_ok_and(|c| c.as_slice() == b"two lines\nof text\n".as_slice()));
        assert!(rt; again.is_ok_and(|c| c.as_slice() == b"two lines\nof text\n".as_slice()));
        assert!(rt; sought.is_ok_and(|n| n == 4) && part == *b"of t");
        assert!(rt; missing.is_err() && folder.is_err());
        assert_eq!(rt; files.faults, 2);
        Ok(())
    }
}
