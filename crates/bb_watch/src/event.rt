//! What a run tells beside its output.
ghost use Rattle.std.specs.Prelude.{◌≡◌, true, false};
ghost use Rattle.bb_watch.specs.declared.event.Event.{Event as AnEvent};
ghost use Rattle.bb_watch.specs.Kinds.{is_of};

/// Something that happened in a run. `pc` is the address of the instruction that did it.
#[derive(Clone, Copy, Debug, PartialEq, Eq)]
pub enum Event {
    /// The pointer `from` was moved and checked, and became `to`.
    Move {
        pc: u32,
        from: u32,
        to: u32,
    },
    /// The `size` bytes from `at` on were read, or written if `write`, by an address that register number `base` gave.
    Access {
        pc: u32,
        at: u32,
        size: u8,
        write: bool,
        base: u8,
    },
    /// A function was called, whose code begins at `target`. It returns to `pc + 4`.
    Call {
        pc: u32,
        target: u32,
    },
    /// A function returned to `target`.
    Return {
        pc: u32,
        target: u32,
    },
    /// A block of 2^`exponent` bytes from `at` on was made.
    Made {
        at: u32,
        exponent: u8,
    },
    /// The block of 2^`exponent` bytes from `at` on ended.
    Ended {
        at: u32,
        exponent: u8,
    },
    /// A statement of this line of the source comes next.
    Line {
        line: u32,
    },
}

/// Kinds of events, one field for each variant of `Event`.
#[derive(Clone, Copy, Debug, PartialEq, Eq)]
pub struct Kinds {
    pub moves: bool,
    pub accesses: bool,
    pub calls: bool,
    pub returns: bool,
    pub made: bool,
    pub ended: bool,
    pub lines: bool,
}

impl Kinds {
    /// No kind.
    pub fn none() -> Kinds
        ensures { (event : AnEvent) → is_of result event ≡ false }
    {
        Kinds {
            moves: false,
            accesses: false,
            calls: false,
            returns: false,
            made: false,
            ended: false,
            lines: false,
        }
    }

    /// Every kind.
    pub fn all() -> Kinds
        ensures { (event : AnEvent) → is_of result event ≡ true }
    {
        Kinds {
            moves: true,
            accesses: true,
            calls: true,
            returns: true,
            made: true,
            ended: true,
            lines: true,
        }
    }

    /// Whether an event is of one of the kinds.
    pub fn has(&self, event: &Event) -> bool
        ensures { result ≡ is_of self.now event.now }
    {
        match *event {
            Event::Move { .. } => self.moves,
            Event::Access { .. } => self.accesses,
            Event::Call { .. } => self.calls,
            Event::Return { .. } => self.returns,
            Event::Made { .. } => self.made,
            Event::Ended { .. } => self.ended,
            Event::Line { .. } => self.lines,
        }
    }
}
