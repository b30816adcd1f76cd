//! A shelf in memory.
ghost use Rattle.std.specs.Prelude.{◌≡◌, ◌≤◌, ◌-◌, min, length};
ghost use Rattle.bb_outside.specs.Files.{Copies};

use crate::mem_source::is_listed;
use crate::{Shelf, ShelfFailed};
use std::alloc::{AllocError, Global};
use std::collections::BTreeMap;

/// Files in memory. The calls of `read` and `write` of these numbers, from 0, fail.
#[derive(Drop)]
pub struct MemShelf {
    files: BTreeMap<String, Vec<u8>>,
    alloc: Global,
    failing: Vec<u32>,
    calls: u64,
    faults: u64,
    misses: u64,
}

impl MemShelf {
    ghost use Rattle.std.specs.Prelude.{◌≡◌, ◌≢◌, ℕ, List, IfOk, OnOk, OnErr};
    ghost use Rattle.bb_outside.specs.Files.{Missing, Holds};
    ghost use Rattle.bb_outside.specs.Shelves.{file_of, failing_of, calls_of, faults_of, misses_of};

    /// A shelf without files, whose calls of these numbers fail.
    pub fn new(alloc: Global, failing: &[u32]) -> Result<MemShelf, AllocError>
        ensures empty { IfOk result (λ shelf. (name : List ℕ) → file_of shelf name ≡ Missing) }
        ensures failing { IfOk result (λ shelf. failing_of shelf ≡ failing.now) }
        ensures counts { IfOk result (λ shelf. (calls_of shelf ≡ 0) × (faults_of shelf ≡ 0) × (misses_of shelf ≡ 0)) }
    {
        let failing = Vec::from_slice(alloc, failing)?;
        Ok(MemShelf {
            files: BTreeMap::new(alloc),
            alloc,
            failing,
            calls: 0,
            faults: 0,
            misses: 0,
        })
    }

    /// Puts a file on the shelf, in place of one of that name.
    pub fn add(&mut self, name: &str, bytes: &[u8]) -> Result<(), AllocError>
        ensures added { OnOk result (file_of self.new name.now ≡ Holds bytes.now) }
        ensures others { (other : List ℕ) → other ≢ name.now → file_of self.new other ≡ file_of self.old other }
        ensures err { OnErr result ((other : List ℕ) → file_of self.new other ≡ file_of self.old other) }
        ensures failing { failing_of self.new ≡ failing_of self.old }
        ensures counts { (calls_of self.new ≡ calls_of self.old) × (faults_of self.new ≡ faults_of self.old)
            × (misses_of self.new ≡ misses_of self.old) }
    {
        let key = String::from_str(self.alloc, name)?;
        let value = Vec::from_slice(self.alloc, bytes)?;
        self.files.insert(key, value)?;
        Ok(())
    }
}

impl Shelf for MemShelf {
    ghost use Rattle.std.specs.Prelude.{◌≡◌, ◌≢◌, ◌↔◌, ℕ, List, OnOk, OnErr, IsErrOf, Contains};
    ghost use Rattle.bb_outside.specs.Causes.{counted};
    ghost use Rattle.bb_outside.specs.Files.{Stays, Made, Reads, ReadsAtMost, ReadHasCause, WriteHasCause};
    ghost use Rattle.bb_outside.specs.Shelves.{file_of, failing_of, calls_of, faults_of, misses_of, is_fault, is_miss, raised, Fills};

    ghost file = { file_of };

    ghost faults = { faults_of };

    ghost misses = { misses_of };

    fn read(&mut self, name: &str, at: u64, into: &mut [u8]) -> Result<Option<usize>, ShelfFailed>
        ensures bytes { Reads (file_of self.old name.now) at into.new result }
        ensures bound { ReadsAtMost into.new result }
        ensures same { (other : List ℕ) → Stays (file_of self.old other) (file_of self.new other) }
        ensures cause { ReadHasCause (faults_of self.old) (faults_of self.new) (misses_of self.old) (misses_of self.new) result }
        ensures failing { failing_of self.new ≡ failing_of self.old }
        ensures fails { IsErrOf result ShelfFailed.Fault ↔ Contains (failing_of self.old) (calls_of self.old) }
        ensures memory { result ≢ Err ShelfFailed.Memory }
        ensures fills { Fills (file_of self.old name.now) at into.new result }
        ensures calls { calls_of self.new ≡ counted (calls_of self.old) }
        ensures faults { faults_of self.new ≡ raised (is_fault result) (faults_of self.old) }
        ensures misses { misses_of self.new ≡ raised (is_miss result) (misses_of self.old) }
    {
        let call = self.calls;
        self.calls = call.saturating_add(1);
        if is_listed(&self.failing, call) {
            self.faults = self.faults.saturating_add(1);
            return Err(ShelfFailed::Fault);
        }
        match self.files.get(name) {
            None => {
                self.misses = self.misses.saturating_add(1);
                Ok(None)
            }
            Some(bytes) => Ok(Some(copy_from(bytes, at, into))),
        }
    }

    fn write(&mut self, name: &str, bytes: &[u8]) -> Result<(), ShelfFailed>
        ensures written { OnOk result (Made (file_of self.old name.now) (file_of self.new name.now) bytes.now) }
        ensures others { (other : List ℕ) → other ≢ name.now → Stays (file_of self.old other) (file_of self.new other) }
        ensures memory { IsErrOf result ShelfFailed.Memory → Stays (file_of self.old name.now) (file_of self.new name.now) }
        ensures cause { WriteHasCause (faults_of self.old) (faults_of self.new) (misses_of self.old) (misses_of self.new) result }
        ensures failing { failing_of self.new ≡ failing_of self.old }
        ensures fails { IsErrOf result ShelfFailed.Fault ↔ Contains (failing_of self.old) (calls_of self.old) }
        ensures err { OnErr result ((other : List ℕ) → file_of self.new other ≡ file_of self.old other) }
        ensures calls { calls_of self.new ≡ counted (calls_of self.old) }
        ensures faults { faults_of self.new ≡ raised (is_fault result) (faults_of self.old) }
        ensures misses { misses_of self.new ≡ misses_of self.old }
    {
        let call = self.calls;
        self.calls = call.saturating_add(1);
        if is_listed(&self.failing, call) {
            self.faults = self.faults.saturating_add(1);
            return Err(ShelfFailed::Fault);
        }
        self.add(name, bytes).map_err(|_| ShelfFailed::Memory)
    }
}

// Puts the bytes from place `at` on at the front of the buffer.
fn copy_from(bytes: &[u8], at: u64, into: &mut [u8]) -> usize
    ensures copied { Copies bytes.now at into.new result }
    ensures bound { result ≤ length into.new }
    ensures count { result ≡ min (length into.new) (length bytes.now - at) }
{
    let len = bytes.len() as u64;
    if at >= len {
        return 0;
    }
    let from = at as usize;
    let count = into.len().min(bytes.len() - from);
    into[..count].copy_from_slice(&bytes[from..from + count]);
    count
}
