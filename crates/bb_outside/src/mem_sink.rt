//! A sink in memory.
ghost use Rattle.std.specs.Prelude.{◌≡◌, ◌↔◌, ◌⊎◌, ◌-◌, min, IfOk, IsErr, Some, []};
ghost use Rattle.std.specs.Prelude.{◌≢◌, ◌≤◌, Contains, length, is_err, if◌then◌else◌};
ghost use Rattle.bb_outside.specs.Causes.{counted, HasCause};
ghost use Rattle.bb_outside.specs.Streams.{TakesSome, Puts};

use crate::mem_source::is_listed;
use crate::{Sink, SinkFailed};
use std::alloc::{AllocError, Global};
use std::marker::Model;

/// A sink in memory with a fixed room, which fails at the calls of these numbers, from 0, and where no room is left.
#[derive(Drop)]
pub struct MemSink {
    written: Vec<u8>,
    room: usize,
    failing: Vec<u32>,
    calls: u64,
    faults: u64,
}

impl Model for MemSink {
    ghost use Rattle.std.specs.Prelude.{vec_len, vec_capacity, ◌≤◌};
    ghost use Rattle.bb_outside.specs.Memory.{SinkInMemory};

    ghost Value = { SinkInMemory };

    ghost view = { λ s. record { written = s.written.items; room = s.room; failing = s.failing.items; calls = s.calls; faults = s.faults } };

    ghost invariant = { λ s. (vec_len s.written ≤ s.room) × (s.room ≤ vec_capacity s.written) };
}

impl MemSink {
    /// A sink that takes its memory now, for so many bytes.
    pub fn new(alloc: Global, room: u32, failing: &[u32]) -> Result<MemSink, AllocError>
        ensures { IfOk result (λ s. s ≡ record { written = []; room = room; failing = failing.now; calls = 0; faults = 0 }) }
    {
        let written = Vec::with_capacity(alloc, room as usize)?;
        let failing = Vec::from_slice(alloc, failing)?;
        Ok(MemSink {
            written,
            room: room as usize,
            failing,
            calls: 0,
            faults: 0,
        })
    }

    /// What was written.
    pub fn bytes(&self) -> &[u8]
        ensures { result.now ≡ self.now.written }
    {
        self.written.as_slice()
    }
}

impl Sink for MemSink {
    ghost written = { λ s. Some s.written };

    ghost faults = { λ s. s.faults };

    fn put(&mut self, piece: &[u8]) -> Result<usize, SinkFailed>
        ensures count { TakesSome piece.now result }
        ensures bytes { Puts (Some self.old.written) (Some self.new.written) piece.now result }
        ensures cause { HasCause self.old.faults self.new.faults result }
        ensures settings { (self.new.failing ≡ self.old.failing) × (self.new.room ≡ self.old.room) }
        ensures fails { IsErr result ↔ ((piece.now ≢ []) × (Contains self.old.failing self.old.calls ⊎ (self.old.room ≤ length self.old.written))) }
        ensures room { IfOk result (λ count. count ≡ min (length piece.now) (self.old.room - length self.old.written)) }
        ensures calls { self.new.calls ≡ counted self.old.calls }
        ensures faults { self.new.faults ≡ (if is_err result then counted self.old.faults else self.old.faults) }
    {
        let call = self.calls;
        self.calls = call.saturating_add(1);
        if piece.is_empty() {
            return Ok(0);
        }
        let free = self.room - self.written.len();
        if free == 0 || is_listed(&self.failing, call) {
            self.faults = self.faults.saturating_add(1);
            return Err(SinkFailed);
        }
        let count = piece.len().min(free);
        match self.written.extend_from_slice(&piece[..count]) {
            Ok(()) => Ok(count),
            Err(_) => unreachable!(),
        }
    }
}
