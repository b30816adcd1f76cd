//! How a machine ends, and why a run comes back.
use bb_words::kinds::{ReportKind, TrapKind};

/// How a machine has ended.
#[derive(Clone, Copy, Debug, PartialEq, Eq)]
pub enum Halt {
    /// By the environment call exit, with the low 8 bits of the number given.
    Exited(u8),
    /// By a report of the program, or of the environment, with the line that it names.
    Reported { kind: ReportKind, line: u32 },
    /// At an instruction that could not be executed.
    Trapped { kind: TrapKind },
}

/// Why a run came back.
#[derive(Clone, Copy, Debug, PartialEq, Eq)]
pub enum Stop {
    /// The machine has exited.
    Exited(u8),
    /// The machine has reported.
    Reported { kind: ReportKind, line: u32 },
    /// The machine has trapped.
    Trapped { kind: TrapKind },
    /// All instructions that were allowed were executed, and the machine has not ended.
    OutOfSteps,
    /// The input failed, and the machine stands before its getchar.
    ReadFault,
    /// The output failed, and the machine stands before its putchar.
    WriteFault,
}

/// The object of the outside that kept an environment call from being done.
#[derive(Clone, Copy, Debug, PartialEq, Eq)]
pub enum Fault {
    Read,
    Write,
}

/// What became of an instruction.
#[derive(Clone, Copy, Debug, PartialEq, Eq)]
pub enum Effect {
    /// It was executed.
    Went,
    /// It could not be executed.
    Trapped { kind: TrapKind },
    /// It asks the environment.
    Asked,
}

/// How a core stands after so many instructions that went, and what became of the next; `Went` says that all that were
/// allowed went.
#[derive(Clone, Copy, Debug, PartialEq, Eq)]
pub struct Pause {
    pub went: u64,
    pub effect: Effect,
}
