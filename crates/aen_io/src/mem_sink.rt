ghost use Rattle.std.specs.Prelude.{◌≡◌, ◌<◌, ◌≤◌, ◌-◌, ◌↔◌, ◌⊎◌, [], min, length, take, IsTrue, IsErr, IfOk, OnErr};
ghost use Rattle.aen_io.specs.Faults.{Rose};
ghost use Rattle.aen_io.specs.Written.{WritesAll};
ghost use Rattle.aen_io.specs.InMemory.{is_due, no_calls, after_call, is_full};

use crate::plan::Plan;
use crate::{Failed, Sink};
use aen_base::{List, NoMem};
use std::alloc::Global;
use std::marker::Model;

/// A sink in memory, whose bytes are told. It takes few bytes in one call, has an end, and chosen
/// calls fail.
#[derive(Debug, Drop)]
pub struct MemSink {
    bytes: Vec<u8>,
    plan: Plan,
    piece: usize,
    room: usize,
}

impl Model for MemSink {
    ghost use Rattle.std.specs.Prelude.{◌≤◌, vec_len, vec_capacity};
    ghost use Rattle.aen_io.specs.InMemory.{SinkState};

    ghost Value = { SinkState };

    ghost view = { λ s. record { bytes = s.bytes.items; plan = s.plan; piece = s.piece; room = s.room } };

    ghost invariant = { λ s. (vec_len s.bytes ≤ s.room) × (s.room ≤ vec_capacity s.bytes) × (1 ≤ s.piece) };
}

impl MemSink {
    /// An empty sink. Each call of `write` takes as many bytes as `piece` and the room that is
    /// left allow; the room in all is `room` bytes, for which memory is taken here, so that
    /// `write` takes none. A call fails, and a fault is counted, exactly where its number, from
    /// 0, is in `fail`, or no room is left for a piece that isn't empty. The only error is want
    /// of memory.
    pub fn new(alloc: Global, fail: List<u64>, piece: u64, room: u64) -> Result<MemSink, NoMem>
        requires { 1 ≤ piece }
        ensures { IfOk result (λ s. s ≡ record { bytes = []; plan = no_calls fail; piece = piece; room = room }) }
    {
        let room = room as usize;
        Ok(MemSink {
            bytes: Vec::with_capacity(alloc, room)?,
            plan: Plan::new(fail),
            piece: piece as usize,
            room,
        })
    }

    /// The bytes that were taken.
    pub fn bytes(&self) -> &[u8]
        ensures { result.now ≡ self.now.bytes }
    {
        self.bytes.as_slice()
    }
}

impl Sink for MemSink {
    ghost taken = { λ s. s.bytes };

    ghost faults = { λ s. s.plan.faults };

    fn write(&mut self, piece: &[u8]) -> Result<usize, Failed>
        ensures fails { IsErr result ↔ (IsTrue (is_due self.old.plan) ⊎ IsTrue (is_full self.old piece.now)) }
        ensures count { IfOk result (λ n. n ≡ min (length piece.now) (min self.old.piece (self.old.room - length self.old.bytes))) }
        ensures plan { self.new.plan ≡ after_call self.old.plan (is_full self.old piece.now) }
        ensures same_piece { self.new.piece ≡ self.old.piece }
        ensures same_room { self.new.room ≡ self.old.room }
        ensures later { self.old.plan.faults ≤ self.new.plan.faults }
        ensures bound { IfOk result (λ n. n ≤ length piece.now) }
        ensures takes { IfOk result (λ n. WritesAll self.old.bytes self.new.bytes (take n piece.now)) }
        ensures stuck { IfOk result (λ n. n ≡ 0 → 0 < length piece.now → Rose self.old.plan.faults self.new.plan.faults) }
        ensures nothing { OnErr result (WritesAll self.old.bytes self.new.bytes []) }
        ensures failed { OnErr result (Rose self.old.plan.faults self.new.plan.faults) }
    {
        let left = self.room - self.bytes.len();
        let is_full = left == 0 && !piece.is_empty();
        if self.plan.call(is_full) {
            return Err(Failed);
        }
        let n = piece.len().min(self.piece.min(left));
        // There is room for them, so this takes no memory and doesn't fail.
        match self.bytes.extend_from_slice(&piece[..n]) {
            Ok(()) => Ok(n),
            Err(_) => Err(Failed),
        }
    }
}
