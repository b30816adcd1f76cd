//! Why a program has no flat code.
ghost use Rattle.std.specs.Prelude.{◌≡◌};
ghost use Rattle.bounds_instr.specs.declared.error.InstrError.TheVariants.{Memory};

use std::alloc::AllocError;
use thiserror::Error;

/// The program has a form that is not built, or memory is wanting.
#[derive(Debug, Drop, Error)]
pub enum InstrError {
    /// The program has a global object, a function with a block local, or a step that copies or clears memory.
    #[error("the program has a form that is not built")]
    NotBuilt,
    /// There is not memory enough for the code.
    #[error("out of memory")]
    Memory,
}

impl From<AllocError> for InstrError {
    ghost from_gives = { λ _ e. e ≡ Memory };

    fn from(_e: AllocError) -> InstrError {
        InstrError::Memory
    }
}
