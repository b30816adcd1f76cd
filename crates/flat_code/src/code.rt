//! The code, its functions and its steps.
use bb_words::kinds::ReportKind;
use bb_words::list::{Bytes, List};
use bb_words::steps::{ArithOp, Width};
use bb_words::word::Word;

/// A program in flat code. Contracts see it as an `FCode`, by `code_of`.
#[derive(Drop)]
pub struct Flat {
    pub functions: List<FlatFunction>,
    /// The number of the function that is called first.
    pub main: u32,
    /// The first bytes of the globals' region, from 0xA00000 on. All further ones are zero at the start.
    pub initial: Bytes,
}

/// A function. Its values are numbered from 0, and its parameters are the first of them.
#[derive(Drop)]
pub struct FlatFunction {
    pub values: u32,
    pub params: u32,
    /// How many bytes the blocks of its frame have together.
    pub frame: u32,
    /// The line of its name in its definition, or 0 for a body of the library, which has no frame and is not counted
    /// among the calls.
    pub line: u32,
    pub body: List<FlatStep>,
}

/// A step. `to`, `from`, `left`, `right`, `at`, `cond`, `slot`, `a` and `b` are numbers of values, and so are the
/// `args` and the `line` of a report.
pub enum FlatStep {
    /// A value becomes a number.
    Number {
        to: u32,
        value: Word,
    },
    /// A value becomes another.
    Same {
        to: u32,
        from: u32,
    },
    /// A value becomes what an operation on two values gives.
    Arith {
        to: u32,
        op: ArithOp,
        left: u32,
        right: u32,
    },
    /// The steps `yes` where the value is not 0, else the steps `no`.
    If {
        cond: u32,
        yes: Vec<FlatStep>,
        no: Vec<FlatStep>,
    },
    /// Steps that an `Exit` can leave.
    Block {
        body: Vec<FlatStep>,
    },
    /// Steps that are done again and again until an `Exit` leaves them.
    Loop {
        body: Vec<FlatStep>,
    },
    /// A loop over bytes that are copied, set or cleared.
    Inner {
        body: Vec<FlatStep>,
    },
    /// Leaves so many of the Blocks, Loops and Inners around it, the innermost first.
    Exit {
        levels: u32,
    },
    /// A value becomes what a function returns.
    Call {
        to: u32,
        function: u32,
        args: Vec<u32>,
    },
    /// The function returns a value.
    Return {
        from: u32,
    },
    /// A value becomes the slot that owns a word.
    Slot {
        to: u32,
        from: u32,
    },
    /// A value becomes the byte of a slot in the size table.
    Look {
        to: u32,
        slot: u32,
    },
    /// A value becomes an address in the function's frame.
    FrameAt {
        to: u32,
        offset: u32,
    },
    /// A value becomes what stands in memory.
    Load {
        to: u32,
        at: u32,
        width: Width,
    },
    /// A value is written to memory.
    Store {
        at: u32,
        from: u32,
        width: Width,
    },
    /// Tells that the pointer `from` was moved and checked, and became `to`.
    Checked {
        from: u32,
        to: u32,
    },
    /// Tells that a statement of this line begins.
    LineMark {
        line: u32,
    },
    /// Ends the run by a report; the line is the number of a value.
    Report {
        kind: ReportKind,
        line: u32,
    },
    /// A call of the environment: 1 exit, 2 getchar, 3 putchar, 4 malloc, 5 free.
    Env {
        to: u32,
        call: u8,
        a: u32,
        b: u32,
    },
}

/// By hand, so that letting a step go is a call where it happens, and not the cases of all kinds.
impl Drop for FlatStep {
    fn drop(self) {
        match self {
            FlatStep::Number { to: _, value: _ }
            | FlatStep::Same { to: _, from: _ }
            | FlatStep::Arith {
                to: _,
                op: _,
                left: _,
                right: _,
            }
            | FlatStep::If {
                cond: _,
                yes: _,
                no: _,
            }
            | FlatStep::Block { body: _ }
            | FlatStep::Loop { body: _ }
            | FlatStep::Inner { body: _ }
            | FlatStep::Exit { levels: _ }
            | FlatStep::Call {
                to: _,
                function: _,
                args: _,
            }
            | FlatStep::Return { from: _ }
            | FlatStep::Slot { to: _, from: _ }
            | FlatStep::Look { to: _, slot: _ }
            | FlatStep::FrameAt { to: _, offset: _ }
            | FlatStep::Load {
                to: _,
                at: _,
                width: _,
            }
            | FlatStep::Store {
                at: _,
                from: _,
                width: _,
            }
            | FlatStep::Checked { from: _, to: _ }
            | FlatStep::LineMark { line: _ }
            | FlatStep::Report { kind: _, line: _ }
            | FlatStep::Env {
                to: _,
                call: _,
                a: _,
                b: _,
            } => {}
        }
    }
}
