//! The outside: a source of bytes, a sink of bytes, and a shelf of files.
//!
//! Each of them may tell its content, and then its calls say what they do to it. Standard input, standard output and
//! the files of a system tell nothing. All of them count their failures, and fail only where they count one.
#![tactic(auto)]

ghost use Rattle.std.specs.Prelude.{◌≡◌, ◌≢◌, ℕ, Bool, true, [], List, Option, IfSome, OnOk, IsErrOf};
ghost use Rattle.bb_outside.specs.Causes.{HasCause};
ghost use Rattle.bb_outside.specs.Streams.{Takes, Ends, TakesSome, Puts};
ghost use Rattle.bb_outside.specs.Files.{Told, Made, Stays, Reads, ReadsAtMost, ReadHasCause, WriteHasCause};

pub mod mem_shelf;
pub mod mem_sink;
pub mod mem_source;

/// A source could not say whether a byte is left.
#[derive(Clone, Copy, Debug, PartialEq, Eq)]
pub struct SourceFailed;

/// A sink could not take a byte.
#[derive(Clone, Copy, Debug, PartialEq, Eq)]
pub struct SinkFailed;

/// Why a shelf could not do what it was asked.
#[derive(Clone, Copy, Debug, PartialEq, Eq)]
pub enum ShelfFailed {
    /// The file could not be read or written.
    Fault,
    /// The shelf lacks memory for it.
    Memory,
}

/// A source of bytes, such as standard input.
pub trait Source {
    /// The bytes not yet taken, where the source tells them.
    ghost left: { Self → Option (List ℕ) };

    /// No further byte will come, as after C's end-of-file indicator is set (C11 7.21.1).
    ghost is_over: { Self → Bool };

    /// How often it has failed. This never falls.
    ghost faults: { Self → ℕ };

    /// The next byte, or `None` where none is left. A failure takes none.
    fn take(&mut self) -> Result<Option<u8>, SourceFailed>
        ensures bytes { Takes (left self.old) (left self.new) result }
        ensures end { Ends (is_over self.old) (is_over self.new) result }
        ensures cause { HasCause (faults self.old) (faults self.new) result };

    ghost none_left: { (source : Self) → is_over source ≡ true → IfSome (left source) (λ bytes. bytes ≡ []) };
}

/// A sink of bytes, such as standard output.
pub trait Sink {
    /// The bytes that it was given, where the sink tells them.
    ghost written: { Self → Option (List ℕ) };

    /// How often it has failed. This never falls.
    ghost faults: { Self → ℕ };

    /// Takes the first bytes of the piece, and answers how many: at least one, unless the piece is empty. A failure
    /// takes none.
    fn put(&mut self, piece: &[u8]) -> Result<usize, SinkFailed>
        ensures count { TakesSome piece.now result }
        ensures bytes { Puts (written self.old) (written self.new) piece.now result }
        ensures cause { HasCause (faults self.old) (faults self.new) result };
}

/// Files by their names.
pub trait Shelf {
    /// What it tells of a name.
    ghost file: { Self → List ℕ → Told };

    /// How often it has failed. This never falls.
    ghost faults: { Self → ℕ };

    /// How often it was asked for a file that is not there. This never falls.
    ghost misses: { Self → ℕ };

    /// Puts bytes of the file from place `at` on at the front of `into`, and answers how many, or `None` where there
    /// is no such file. For a buffer that is not empty, 0 means that `at` is at the file's end or past it. All files
    /// stay as they are.
    fn read(&mut self, name: &str, at: u64, into: &mut [u8]) -> Result<Option<usize>, ShelfFailed>
        ensures bytes { Reads (file self.old name.now) at into.new result }
        ensures bound { ReadsAtMost into.new result }
        ensures same { (other : List ℕ) → Stays (file self.old other) (file self.new other) }
        ensures cause { ReadHasCause (faults self.old) (faults self.new) (misses self.old) (misses self.new) result };

    /// Makes the file these bytes, and leaves all others. After a `Fault` the shelf may tell nothing of this file;
    /// after `Memory` all files are as they were.
    fn write(&mut self, name: &str, bytes: &[u8]) -> Result<(), ShelfFailed>
        ensures written { OnOk result (Made (file self.old name.now) (file self.new name.now) bytes.now) }
        ensures others { (other : List ℕ) → other ≢ name.now → Stays (file self.old other) (file self.new other) }
        ensures memory { IsErrOf result ShelfFailed.Memory → Stays (file self.old name.now) (file self.new name.now) }
        ensures cause { WriteHasCause (faults self.old) (faults self.new) (misses self.old) (misses self.new) result };
}
