//! Mid code.
ghost use Rattle.std.specs.Prelude.{◌≡◌};

use bb_words::list::List;
use bb_words::steps::{ArithOp, DivideOp, OrderOp, Width};
use bb_words::word::Word;
use typed_tree::typed::InitialByte;
use typed_tree::typed_expr::LibCall;

/// An object that has a name: a global one, by its number, the named ones first and then the strings, or a block local of
/// the running function, by its number among the function's locals.
#[derive(Clone, Copy, Debug, PartialEq, Eq)]
pub enum MidObject {
    Global(u32),
    Local(u32),
}

/// A step. `to`, `from`, `left`, `right`, `by`, `at`, `cond` and `args` are numbers of values. Contracts see it as a `Step`,
/// by `step_of`.
pub enum MidStep {
    /// `to` becomes a number.
    Number {
        to: u32,
        value: Word,
    },
    /// `to` becomes the null pointer.
    NullPtr {
        to: u32,
    },
    /// `to` becomes what `from` is.
    Same {
        to: u32,
        from: u32,
    },
    /// A total operation on two numbers.
    Arith {
        to: u32,
        op: ArithOp,
        left: u32,
        right: u32,
    },
    /// A division, which reports a divisor of zero.
    Divide {
        to: u32,
        op: DivideOp,
        left: u32,
        right: u32,
        line: u32,
    },
    /// `to` becomes the pointer to the start of an object.
    Named {
        to: u32,
        object: MidObject,
    },
    /// A pointer moves by so many elements of `scale` bytes, up or down.
    Move {
        site: u32,
        to: u32,
        from: u32,
        by: u32,
        scale: u32,
        down: bool,
        line: u32,
    },
    /// A pointer moves by so many bytes.
    MoveBy {
        site: u32,
        to: u32,
        from: u32,
        distance: i32,
        line: u32,
    },
    /// Memory is read; the line is that of the operator or name that makes the place.
    Load {
        to: u32,
        at: u32,
        width: Width,
        line: u32,
    },
    /// Memory is written.
    Store {
        at: u32,
        from: u32,
        width: Width,
    },
    /// A whole object becomes zero.
    Clear {
        object: MidObject,
    },
    /// A part of an object gets a value, which is no move.
    Init {
        object: MidObject,
        offset: u32,
        from: u32,
        width: Width,
    },
    /// A struct of `length` bytes is copied.
    CopyBytes {
        site_from: u32,
        site_to: u32,
        from: u32,
        to: u32,
        length: u32,
        line: u32,
    },
    /// Whether two pointers are equal.
    PtrSame {
        to: u32,
        left: u32,
        right: u32,
    },
    /// How two pointers into one object are ordered.
    PtrOrder {
        to: u32,
        op: OrderOp,
        left: u32,
        right: u32,
    },
    /// How many elements of `size` bytes lie between two pointers.
    PtrDiff {
        to: u32,
        left: u32,
        right: u32,
        size: u32,
    },
    /// A function of the program is called.
    Call {
        to: u32,
        function: u32,
        args: Vec<u32>,
    },
    /// A function of the library is called, by its name on this line.
    Library {
        to: u32,
        which: LibCall,
        args: Vec<u32>,
        line: u32,
        site_a: Option<u32>,
        site_b: Option<u32>,
    },
    /// `yes`, where `cond` is not 0 and not null, else `no`.
    If {
        cond: u32,
        yes: Vec<MidStep>,
        no: Vec<MidStep>,
    },
    /// Steps that an `Exit` may leave.
    Block {
        body: Vec<MidStep>,
    },
    /// Steps that are done again and again, until an `Exit` leaves.
    Loop {
        body: Vec<MidStep>,
    },
    /// Leaves so many of the `Block`s and `Loop`s around it.
    Exit {
        levels: u32,
    },
    /// Leaves the function with a value.
    Return {
        from: u32,
    },
    /// A statement of this line begins.
    LineMark {
        line: u32,
    },
}

/// By hand, so that letting a step go is a call where it happens, and not the cases of all steps.
impl Drop for MidStep {
    fn drop(self) {
        match self {
            MidStep::Number { to: _, value: _ }
            | MidStep::NullPtr { to: _ }
            | MidStep::Same { to: _, from: _ } => {}
            MidStep::Arith {
                to: _,
                op: _,
                left: _,
                right: _,
            } => {}
            MidStep::Divide {
                to: _,
                op: _,
                left: _,
                right: _,
                line: _,
            } => {}
            MidStep::Named { to: _, object: _ } => {}
            MidStep::Move {
                site: _,
                to: _,
                from: _,
                by: _,
                scale: _,
                down: _,
                line: _,
            } => {}
            MidStep::MoveBy {
                site: _,
                to: _,
                from: _,
                distance: _,
                line: _,
            } => {}
            MidStep::Load {
                to: _,
                at: _,
                width: _,
                line: _,
            } => {}
            MidStep::Store {
                at: _,
                from: _,
                width: _,
            }
            | MidStep::Clear { object: _ } => {}
            MidStep::Init {
                object: _,
                offset: _,
                from: _,
                width: _,
            } => {}
            MidStep::CopyBytes {
                site_from: _,
                site_to: _,
                from: _,
                to: _,
                length: _,
                line: _,
            } => {}
            MidStep::PtrSame {
                to: _,
                left: _,
                right: _,
            } => {}
            MidStep::PtrOrder {
                to: _,
                op: _,
                left: _,
                right: _,
            } => {}
            MidStep::PtrDiff {
                to: _,
                left: _,
                right: _,
                size: _,
            } => {}
            MidStep::Call {
                to: _,
                function: _,
                args: _,
            } => {}
            MidStep::Library {
                to: _,
                which: _,
                args: _,
                line: _,
                site_a: _,
                site_b: _,
            } => {}
            MidStep::If {
                cond: _,
                yes: _,
                no: _,
            } => {}
            MidStep::Block { body: _ } | MidStep::Loop { body: _ } => {}
            MidStep::Exit { levels: _ }
            | MidStep::Return { from: _ }
            | MidStep::LineMark { line: _ } => {}
        }
    }
}

/// A global object: its length in bytes, and its first bytes, the others being zero.
#[derive(Drop)]
pub struct MidGlobal {
    pub length: u32,
    pub initial: List<InitialByte>,
}

/// A block local of a function: its number among the locals, and its length in bytes.
#[derive(Clone, Copy, Debug, PartialEq, Eq)]
pub struct MidBlock {
    pub local: u32,
    pub length: u32,
}

/// A function. The first `params` values are its parameters.
#[derive(Drop)]
pub struct MidFunction {
    /// The line of its name in the definition.
    pub line: u32,
    pub values: u32,
    pub params: u32,
    /// In the order of the locals.
    pub blocks: List<MidBlock>,
    pub body: Vec<MidStep>,
}

/// A program. The first `named` of its global objects have names, the others are strings.
#[derive(Drop)]
pub struct Mid {
    pub named: u32,
    pub globals: List<MidGlobal>,
    pub functions: List<MidFunction>,
    pub main: u32,
}
