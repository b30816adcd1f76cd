//! Where things lie in the machine's memory of 32 MiB, and the limits of a run.
//!
//! Each region goes from its start to below the start of the next one. What lies below the text is the null page: an
//! access to it traps.

/// A slot has two to this power bytes: 16.
pub const SLOT_EXPONENT: u8 = 4;

/// The text: the words of the program.
pub const TEXT_START: u32 = 0x1000;

/// The size table: a byte for each slot of memory. It is also the end of the text.
pub const TABLE_START: u32 = 0x20_0000;

/// The end of the size table. Up to the control stack nothing lies here.
pub const TABLE_END: u32 = 0x40_0000;

/// The control stack: return addresses and saved registers. It grows downwards from the globals.
pub const CONTROL_START: u32 = 0x60_0000;

/// The blocks of the global objects.
pub const GLOBALS_START: u32 = 0xA0_0000;

/// The data stack: the blocks of the calls. It grows downwards from the heap.
pub const STACK_START: u32 = 0xC0_0000;

/// The heap: the blocks that a program asked for.
pub const HEAP_START: u32 = 0x100_0000;

/// The end of the heap and of all memory.
pub const MEMORY_END: u32 = 0x200_0000;

/// How many calls may be entered and not left, that of `main` among them.
pub const MOST_CALLS: usize = 4096;

/// How many bytes a program may ask for at once.
pub const MOST_BYTES: u32 = 0x100_0000;
