//! Why a text has no tokens.
ghost use Rattle.std.specs.Prelude.{◌≡◌};
ghost use Rattle.c_lexer.specs.Refusals.{refusal};

use std::alloc::{AllocError, AllocFailed};
use thiserror::Error;

/// Why no token, blank, comment or directive stands at a place.
#[derive(Clone, Copy, Debug, PartialEq, Eq)]
pub enum Fault {
    /// A byte that begins nothing.
    BadByte,
    /// A number of another shape, or one that is too large.
    BadNumber,
    /// An escape that there is not or whose value is above 255, or a character constant that has not one element.
    BadEscape,
    /// A comment, a character constant or a string literal without its end.
    Unclosed,
    /// A `#` that begins no directive.
    BadDirective,
}

/// Why a piece could not be read.
#[derive(Clone, Copy, Debug, PartialEq, Eq)]
pub enum PieceError {
    Memory,
    Fault(Fault),
}

impl From<AllocError> for PieceError {
    ghost use Rattle.std.specs.Prelude.{◌≡◌};
    ghost use Rattle.c_lexer.specs.declared.fault.PieceError.TheVariants.{Memory};

    ghost from_gives = { λ _ e. e ≡ Memory };

    fn from(_e: AllocError) -> PieceError {
        PieceError::Memory
    }
}

impl From<Fault> for PieceError {
    ghost use Rattle.std.specs.Prelude.{◌≡◌};
    ghost use Rattle.c_lexer.specs.declared.fault.PieceError.TheVariants as errors;

    ghost from_gives = { λ fault e. e ≡ errors.Fault fault };

    fn from(fault: Fault) -> PieceError {
        PieceError::Fault(fault)
    }
}

/// Why a text has no tokens. Each line is that of the first place that nothing fits, from 1.
#[derive(Clone, Copy, Debug, PartialEq, Eq, Error)]
pub enum LexError {
    #[error("the text has {length} bytes, and 1048576 are allowed")]
    TooLong { length: u32 },
    #[error("line {line}: a byte that begins no token")]
    BadByte { line: u32 },
    #[error("line {line}: a malformed number, or one that is too large")]
    BadNumber { line: u32 },
    #[error("line {line}: a malformed escape or character constant")]
    BadEscape { line: u32 },
    #[error("line {line}: a comment, a character constant or a string without its end")]
    Unclosed { line: u32 },
    #[error("line {line}: a malformed directive")]
    BadDirective { line: u32 },
    #[error("out of memory")]
    Memory,
}

impl From<AllocError> for LexError {
    ghost use Rattle.std.specs.Prelude.{◌≡◌};
    ghost use Rattle.c_lexer.specs.declared.fault.LexError.TheVariants.{Memory};

    ghost from_gives = { λ _ e. e ≡ Memory };

    fn from(_e: AllocError) -> LexError {
        LexError::Memory
    }
}

impl<T: Drop> From<AllocFailed<T>> for LexError {
    ghost use Rattle.std.specs.Prelude.{◌≡◌};
    ghost use Rattle.c_lexer.specs.declared.fault.LexError.TheVariants.{Memory};

    ghost from_gives = { λ _ e. e ≡ Memory };

    fn from(_e: AllocFailed<T>) -> LexError {
        LexError::Memory
    }
}

impl Fault {
    /// The refusal of a text at this line.
    pub fn on_line(self, line: u32) -> LexError
        ensures { result ≡ refusal self line }
    {
        match self {
            Fault::BadByte => LexError::BadByte { line },
            Fault::BadNumber => LexError::BadNumber { line },
            Fault::BadEscape => LexError::BadEscape { line },
            Fault::Unclosed => LexError::Unclosed { line },
            Fault::BadDirective => LexError::BadDirective { line },
        }
    }
}
