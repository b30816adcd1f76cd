//! The environment calls, by the number that stands in register x17 at an ECALL.

/// Ends the run with a status.
pub const EXIT: u32 = 1;

/// Reads a byte of the input.
pub const GETCHAR: u32 = 2;

/// Writes a byte of the output.
pub const PUTCHAR: u32 = 3;

/// Makes a heap block.
pub const MALLOC: u32 = 4;

/// Ends a heap block.
pub const FREE: u32 = 5;

/// Ends the run with a report.
pub const REPORT: u32 = 6;

/// Makes the blocks of a frame.
pub const ENTER: u32 = 7;

/// Ends the blocks of a frame.
pub const LEAVE: u32 = 8;
