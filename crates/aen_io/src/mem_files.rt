ghost use Rattle.std.specs.Prelude.{◌≡◌, ◌≤◌, ◌-◌, ◌↔◌, ◌⊎◌, [], false, min, length, take, IsTrue, IsErr, IfOk, OnErr};
ghost use Rattle.std.specs.Option.{option_copied};
ghost use Rattle.aen_io.specs.Handed.{HandsOut};
ghost use Rattle.aen_io.specs.Told.{OfContent, IsMissing, IsPart, FaultAt};
ghost use Rattle.aen_io.specs.InMemory.{is_due, no_calls, after_call, content_of};

use crate::plan::Plan;
use crate::{Failed, Files, ReadLog};
use aen_base::{List, Name};

/// Files in memory, whose content is told. Chosen calls fail.
#[derive(Drop)]
pub struct MemFiles {
    files: List<(Name, List<u8>)>,
    plan: Plan,
    log: ReadLog,
}

impl MemFiles {
    /// These files; of several with one name the first counts. A call fails exactly where its
    /// number, from 0, is in `fail` or the name isn't there; a fault is counted exactly where its
    /// number is in `fail`. It takes no memory.
    pub fn new(files: List<(Name, List<u8>)>, fail: List<u64>) -> MemFiles
        ensures files { result.files ≡ files }
        ensures plan { result.plan ≡ no_calls fail }
        ensures handed { result.log.handed ≡ [] }
    {
        MemFiles {
            files,
            plan: Plan::new(fail),
            log: ReadLog::new(),
        }
    }

    fn content_of(&self, name: &str) -> Option<&List<u8>>
        ensures { option_copied result ≡ content_of self.now.files name.now }
    {
        for (entry, content) in self.files.as_slice() {
            if entry.is(name) {
                return Some(content);
            }
        }
        None
    }
}

impl Files for MemFiles {
    ghost use Rattle.std.specs.Prelude.{Some};
    ghost use Rattle.aen_io.specs.InMemory.{content_of};

    ghost told = { λ m. Some (content_of m.files) };

    ghost faults = { λ m. m.plan.faults };

    ghost handed = { λ m. m.log.handed };

    fn read_at(&mut self, name: &str, at: u64, buf: &mut [u8]) -> Result<usize, Failed>
        ensures fails { IsErr result ↔ (IsTrue (is_due self.old.plan) ⊎ IsMissing (Some (content_of self.old.files)) name.now) }
        ensures count { IfOk result (λ n. OfContent (Some (content_of self.old.files)) name.now (λ c. n ≡ min (length buf.new) (length c - at))) }
        ensures plan { self.new.plan ≡ after_call self.old.plan false }
        ensures files { self.new.files ≡ self.old.files }
        ensures kept { Some (content_of self.new.files) ≡ Some (content_of self.old.files) }
        ensures later { self.old.plan.faults ≤ self.new.plan.faults }
        ensures bound { IfOk result (λ n. n ≤ length buf.new) }
        ensures bytes { IfOk result (λ n. OfContent (Some (content_of self.old.files)) name.now (λ c. IsPart c at n buf.new)) }
        ensures recorded { IfOk result (λ n. HandsOut self.old.log.handed self.new.log.handed name.now at (take n buf.new)) }
        ensures nothing { OnErr result (self.new.log.handed ≡ self.old.log.handed) }
        ensures failed { OnErr result (FaultAt (Some (content_of self.old.files)) name.now self.old.plan.faults self.new.plan.faults) }
    {
        if self.plan.call(false) {
            return Err(Failed);
        }
        match self.content_of(name) {
            Some(content) => {
                let n = copy_part(content.as_slice(), at, buf);
                self.log.note(name.as_bytes(), at, &buf[..n]);
                Ok(n)
            }
            None => Err(Failed),
        }
    }
}

/// Copies bytes of `content`, from `at` on, into the front of `buf`: as many as there are and
/// as have room.
fn copy_part(content: &[u8], at: u64, buf: &mut [u8]) -> usize
    ensures count { result ≡ min (length buf.new) (length content.now - at) }
    ensures part { IsPart content.now at result buf.new }
{
    let start = content.len().min(at as usize);
    let rest = &content[start..];
    let n = rest.len().min(buf.len());
    buf[..n].copy_from_slice(&rest[..n]);
    n
}
