//! Why a program has no code.
ghost use Rattle.std.specs.Prelude.{◌≡◌};
ghost use Rattle.lowering_counts.specs.declared.error.LowerError.TheVariants.{Memory};

use c_words::place::Name;
use std::alloc::AllocError;
use thiserror::Error;

/// The first limit that a program passes, or that it has a form that is not built.
#[derive(Debug, Drop, Error)]
pub enum LowerError {
    /// The functions have more than 4,096 nodes.
    #[error("the functions have {count} nodes, and 4096 are allowed")]
    TooManyNodes { count: u32 },
    /// A function has more than 250 values; no function before it has.
    #[error("a function has {count} values, and 250 are allowed")]
    TooManyValues { function: Name, count: u32 },
    /// The program has a global object, a local in memory, a pointer type, or a call of the library that is not built.
    #[error("the program has a form that is not built")]
    NotBuilt,
    /// There is not memory enough for the code.
    #[error("out of memory")]
    Memory,
}

impl From<AllocError> for LowerError {
    ghost from_gives = { λ _ e. e ≡ Memory };

    fn from(_e: AllocError) -> LowerError {
        LowerError::Memory
    }
}
