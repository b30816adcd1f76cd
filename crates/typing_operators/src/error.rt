//! Why a syntax tree has no typed program.
ghost use Rattle.std.specs.Prelude.{◌≡◌};
ghost use Rattle.typing_operators.specs.declared.error.TypeError.TheVariants.{Memory};

use c_words::place::Name;
use std::alloc::{AllocError, AllocFailed};

/// The first rule that a syntax tree breaks, with the line where it does; or want of memory.
#[derive(Debug, Drop)]
pub enum TypeError {
    /// A name that nothing declares there, or a function that is called and never defined.
    Unknown { line: u32, name: Name },
    /// A name that is declared twice in one scope.
    Twice { line: u32, name: Name },
    /// A rule of typing, by its number.
    BadType { line: u32, rule: u8 },
    /// No function `main` is defined.
    NoMain,
    /// A type of more than 1,048,576 bytes.
    TooLarge { line: u32, size: u64 },
    /// A function with more than 8 parameters.
    TooManyParams { line: u32 },
    /// A definition after 1,000 functions.
    TooManyFunctions { line: u32 },
    /// Memory is wanting.
    Memory,
}

impl From<AllocError> for TypeError {
    ghost from_gives = { λ _ e. e ≡ Memory };

    fn from(_error: AllocError) -> TypeError {
        TypeError::Memory
    }
}

impl<T: Drop> From<AllocFailed<T>> for TypeError {
    ghost from_gives = { λ _ e. e ≡ Memory };

    fn from(_error: AllocFailed<T>) -> TypeError {
        TypeError::Memory
    }
}
