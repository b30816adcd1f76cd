//! What is known of values, what items do to it, and what steps want of it.
use flat_code::recognize::FlatSequence;

/// What may be known of a value, or of two.
#[derive(Clone, Copy)]
pub enum Fact {
    /// It is null, or a block holds the slot that owns it, or has held it.
    Clean(u32),
    /// It was not last set inside a sequence, unless as that sequence's result.
    Own(u32),
    /// The range of so many bytes from a pointer was checked, and no block has ended since.
    Spanned(u32, u32),
}

/// Where a fact after an item comes from.
#[derive(Clone, Copy)]
pub enum Source {
    Held,
    Gone,
    From(Fact),
    FromCall(u32),
}

/// What an item does to facts.
#[derive(Clone, Copy)]
pub enum Effect {
    KeepsFacts,
    /// A value is set: where it comes from that it is untainted, and whether a block may end.
    Sets { to: u32, clean: Source, ends: bool },
    Checks(FlatSequence),
}

/// A way on which facts go.
#[derive(Drop)]
pub enum Link {
    /// From an item to the next.
    Goes {
        effect: Effect,
        from: u32,
        to: u32,
    },
    /// From a call's arguments to the parameters.
    Passes {
        from: u32,
        function: u32,
        args: Vec<u32>,
    },
    /// From a returned value to the results of calls.
    Returns {
        from: u32,
        value: u32,
    },
}

/// The step at `place` wants these facts to be known before the item at `at`, or has numbers that do not fit.
#[derive(Drop)]
pub struct Demand {
    pub place: u32,
    pub at: u32,
    pub fits: bool,
    pub facts: Vec<Fact>,
}

/// A block of the global objects: 2^`exponent` bytes from `base` on.
#[derive(Clone, Copy)]
pub struct GlobalBlock {
    pub base: u32,
    pub exponent: u8,
}
