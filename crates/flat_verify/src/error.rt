//! Why code is not verified.
ghost use Rattle.std.specs.Prelude.{◌≡◌};
ghost use Rattle.flat_verify.specs.declared.error.VerifyError.TheVariants.{Memory};

use crate::sheets::NoMemory;
use thiserror::Error;

/// The first break of the discipline, or that memory is wanting.
#[derive(Debug, Drop, Error)]
pub enum VerifyError {
    /// The step at a place of a function breaks the discipline. No step before it in the function does, nor does any in the
    /// functions before.
    #[error("function {function} breaks the discipline at its place {place}")]
    Unchecked { function: u32, place: u32 },
    /// There is not memory enough to tell, or a place or a number of the table does not fit a word of the machine.
    #[error("out of memory")]
    Memory,
}

impl From<NoMemory> for VerifyError {
    ghost from_gives = { λ _ e. e ≡ Memory };

    fn from(_e: NoMemory) -> VerifyError {
        VerifyError::Memory
    }
}
