//! A source over bytes in memory.
ghost use Rattle.std.specs.Prelude.{◌≡◌, ◌↔◌, IfOk, IsErr, IsTrue, Some, Contains, is_err, if◌then◌else◌};
ghost use Rattle.bb_outside.specs.Causes.{counted, HasCause};
ghost use Rattle.bb_outside.specs.Streams.{Takes, Ends};
ghost use Rattle.bb_outside.specs.Memory.{is_empty, empty_is_nil};

use crate::{Source, SourceFailed};
use std::alloc::{AllocError, Global};
use std::marker::Model;

/// A source over bytes in memory, which fails at the calls of these numbers, from 0.
#[derive(Drop)]
pub struct MemSource {
    bytes: Vec<u8>,
    next: usize,
    failing: Vec<u32>,
    calls: u64,
    faults: u64,
}

impl Model for MemSource {
    ghost use Rattle.std.specs.Prelude.{drop, vec_len, ◌≤◌};
    ghost use Rattle.bb_outside.specs.Memory.{SourceInMemory};

    ghost Value = { SourceInMemory };

    ghost view = { λ s. record { left = drop s.next s.bytes.items; failing = s.failing.items; calls = s.calls; faults = s.faults } };

    ghost invariant = { λ s. s.next ≤ vec_len s.bytes };
}

impl MemSource {
    /// A source of these bytes, whose calls of these numbers fail.
    pub fn new(alloc: Global, bytes: &[u8], failing: &[u32]) -> Result<MemSource, AllocError>
        ensures { IfOk result (λ s. s ≡ record { left = bytes.now; failing = failing.now; calls = 0; faults = 0 }) }
    {
        let bytes = Vec::from_slice(alloc, bytes)?;
        let failing = Vec::from_slice(alloc, failing)?;
        Ok(MemSource {
            bytes,
            next: 0,
            failing,
            calls: 0,
            faults: 0,
        })
    }
}

impl Source for MemSource {
    ghost left = { λ s. Some s.left };

    ghost is_over = { λ s. is_empty s.left };

    ghost faults = { λ s. s.faults };

    ghost none_left = { λ source. empty_is_nil source.left };

    fn take(&mut self) -> Result<Option<u8>, SourceFailed>
        ensures bytes { Takes (Some self.old.left) (Some self.new.left) result }
        ensures end { Ends (is_empty self.old.left) (is_empty self.new.left) result }
        ensures cause { HasCause self.old.faults self.new.faults result }
        ensures failing { self.new.failing ≡ self.old.failing }
        ensures fails { IsErr result ↔ Contains self.old.failing self.old.calls }
        ensures calls { self.new.calls ≡ counted self.old.calls }
        ensures faults { self.new.faults ≡ (if is_err result then counted self.old.faults else self.old.faults) }
    {
        let call = self.calls;
        self.calls = call.saturating_add(1);
        if is_listed(&self.failing, call) {
            self.faults = self.faults.saturating_add(1);
            return Err(SourceFailed);
        }
        if self.next >= self.bytes.len() {
            return Ok(None);
        }
        let byte = self.bytes[self.next];
        self.next += 1;
        Ok(Some(byte))
    }
}

/// Whether the number of a call is in the list of those that fail.
pub(crate) fn is_listed(failing: &[u32], call: u64) -> bool
    ensures { IsTrue result ↔ Contains failing.now call }
{
    failing.iter().any(|number| u64::from(*number) == call)
}
