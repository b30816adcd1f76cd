//! How a run that goes wrong ends.

/// Why compiled code, or the environment that it calls, ended its run by a report.
#[derive(Clone, Copy, Debug, PartialEq, Eq)]
pub enum ReportKind {
    /// A pointer move left its operand's block by half a slot or more, or moved the null pointer.
    Bounds,
    /// A pointer that was loaded from memory is not null and belongs to no live block.
    Pointer,
    /// The divisor of a division or a remainder is zero.
    DivZero,
    /// A pointer that was freed is not null and starts no live block of the heap.
    BadFree,
    /// As many calls are live as may be.
    Depth,
    /// The frame of a call does not fit on the data stack.
    Stack,
}

/// Why an instruction could not be executed.
#[derive(Clone, Copy, Debug, PartialEq, Eq)]
pub enum TrapKind {
    /// An access to the null page.
    Null,
    /// An access by a word whose highest bit is set, as that of a pointer outside its block.
    Marked,
    /// An access at or past the end of the memory.
    Unmapped,
    /// An access to the text.
    Text,
    /// An access at an address that is no multiple of its size.
    Misaligned,
    /// A fetch outside the text, or a jump to an address that is no multiple of 4.
    Fetch,
    /// A word that is no instruction.
    Illegal,
    /// EBREAK.
    Break,
    /// An environment call that there is not.
    Call,
}
