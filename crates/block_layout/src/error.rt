//! Why a program has no layout.
ghost use Rattle.std.specs.Prelude.{◌≡◌};
ghost use Rattle.block_layout.specs.declared.error.LayoutError.TheVariants.{Memory};

use c_words::place::Name;
use std::alloc::AllocError;
use thiserror::Error;

/// The objects are too many or too large for where they have to lie.
#[derive(Debug, Drop, Error)]
pub enum LayoutError {
    /// The global objects have more than 2,097,152 bytes with their padding.
    #[error("the global objects have {total} bytes with their padding, and 2097152 are allowed")]
    GlobalsFull { total: u64 },
    /// The block locals of this function have more than 4,194,304 bytes with their padding.
    #[error("the locals of a function have {total} bytes with their padding, and 4194304 are allowed")]
    FrameFull { function: Name, total: u64 },
    /// There is not memory enough for the layout.
    #[error("out of memory")]
    Memory,
}

impl From<AllocError> for LayoutError {
    ghost from_gives = { λ _ e. e ≡ Memory };

    fn from(_error: AllocError) -> LayoutError {
        LayoutError::Memory
    }
}
