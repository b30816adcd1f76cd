//! What a run of a program holds.
use bb_words::kinds::{ReportKind, TrapKind};

/// A pointer: null, or so many bytes from the start of an object.
#[derive(Clone, Copy, Debug, PartialEq, Eq)]
pub enum Pointer {
    /// The null pointer (C11 6.3.2.3).
    Null,
    /// To the object of this number in the world.
    To { object: u32, offset: i64 },
}

/// A value: a number of 32 bits, or a pointer.
#[derive(Clone, Copy, Debug, PartialEq, Eq)]
pub enum Value {
    Num(u32),
    Ptr(Pointer),
}

/// What a byte of an object holds: a number below 256, or part `part`, from 0 to 3, of a pointer.
#[derive(Clone, Copy, Debug, PartialEq, Eq)]
pub enum Cell {
    Byte(u8),
    Part { part: u8, of: Pointer },
}

/// How long an object lives: as long as the program, until its call returns, or until it is freed (C11 6.2.4, 7.22.3).
#[derive(Clone, Copy, Debug, PartialEq, Eq)]
pub enum ObjectKind {
    Global,
    Local,
    Heap,
}

/// A local of a running call: its value, or the object in which it lies.
#[derive(Clone, Copy, Debug, PartialEq, Eq)]
pub enum Slot {
    Kept(Value),
    Lies(u32),
}

/// Where a value is kept: in the local of this number, or in memory.
#[derive(Clone, Copy, Debug, PartialEq, Eq)]
pub enum Place {
    Variable(u32),
    Memory(Pointer),
}

/// What an expression gives: its value, or its place.
#[derive(Clone, Copy, Debug, PartialEq, Eq)]
pub enum Held {
    Of(Value),
    At(Place),
}

/// What is wanted of an expression: its value, or its place, as of the left side of an assignment (C11 6.3.2.1).
#[derive(Clone, Copy, Debug, PartialEq, Eq)]
pub enum Want {
    ItsValue,
    ItsPlace,
}

/// How a statement leaves: at its end, by `break`, by `continue`, or by `return` with a value (C11 6.8.6).
#[derive(Clone, Copy, Debug, PartialEq, Eq)]
pub enum Signal {
    Falls,
    Broke,
    Continued,
    Gave(Value),
}

/// Why a run left its objects. What happens from there on, the meaning of the program does not say.
#[derive(Clone, Copy, Debug, PartialEq, Eq)]
pub enum OutsideCause {
    /// An object that has ended was accessed, moved in, compared, tested or freed.
    Dead,
    /// Bytes past the end of an object, in its padding, were accessed.
    Padding,
    /// A pointer was read where no pointer to a live object stands.
    Forged,
    /// A number was read where a part of a pointer stands.
    Parts,
    /// Pointers that do not point into one object were ordered or subtracted.
    Across,
    /// A number stood where a pointer is wanted, or a pointer where a number is. No typed program does that.
    Kind,
}

/// How a run ends.
#[derive(Clone, Copy, Debug, PartialEq, Eq)]
pub enum Ending {
    /// With a status: by `exit`, or by the value of `main`.
    Exited(u32),
    /// By a report, with the line that it names.
    Reported { kind: ReportKind, line: u32 },
    /// By an access that the machine traps.
    Trapped { kind: TrapKind },
    /// Outside its objects.
    Outside { cause: OutsideCause },
    /// It would need more turns of a loop, or more nested calls, than were allowed.
    Cut,
}
