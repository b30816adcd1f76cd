//! Why a source has no image.
use block_layout::error::LayoutError;
use c_lexer::LexError;
use c_parser::ParseError;
use lowering_counts::error::LowerError;
use std::alloc::AllocError;
use thiserror::Error;
use typing_operators::error::TypeError;

/// The first refusal of a source, in the order of the layers of the compiler. No inner error is want of memory.
#[derive(Debug, Drop, Error)]
pub enum CompileError {
    /// The text has no tokens (C11 6.4).
    #[error(transparent)]
    Lex(LexError),
    /// The tokens are no file of C (C11 6.9), or nest too deep.
    #[error(transparent)]
    Parse(ParseError),
    /// The file breaks a rule of typing (C11 6.5 to 6.9).
    #[error("the file breaks a rule of typing")]
    Typing(TypeError),
    /// The objects of the program have too many bytes.
    #[error(transparent)]
    Layout(LayoutError),
    /// The program passes a limit of the compiler, or has a form that is not built.
    #[error(transparent)]
    Lower(LowerError),
    /// There is not memory enough for the image.
    #[error("out of memory")]
    Memory,
}

impl From<AllocError> for CompileError {
    ghost use Rattle.std.specs.Prelude.{◌≡◌};
    ghost use Rattle.bb_driver.specs.declared.error.CompileError.TheVariants.{Memory};

    ghost from_gives = { λ _ e. e ≡ Memory };

    fn from(_error: AllocError) -> CompileError {
        CompileError::Memory
    }
}

impl From<LexError> for CompileError {
    ghost use Rattle.std.specs.Prelude.{◌≡◌};
    ghost use Rattle.bb_driver.specs.Sources.{of_lex};

    ghost from_gives = { λ error e. e ≡ of_lex error };

    fn from(error: LexError) -> CompileError {
        match error {
            LexError::Memory => CompileError::Memory,
            error => CompileError::Lex(error),
        }
    }
}

impl From<ParseError> for CompileError {
    ghost use Rattle.std.specs.Prelude.{◌≡◌};
    ghost use Rattle.bb_driver.specs.Sources.{of_parse};

    ghost from_gives = { λ error e. e ≡ of_parse error };

    fn from(error: ParseError) -> CompileError {
        match error {
            ParseError::Memory => CompileError::Memory,
            error => CompileError::Parse(error),
        }
    }
}

impl From<TypeError> for CompileError {
    ghost use Rattle.std.specs.Prelude.{◌≡◌};
    ghost use Rattle.bb_driver.specs.Sources.{of_typing};

    ghost from_gives = { λ error e. e ≡ of_typing error };

    fn from(error: TypeError) -> CompileError {
        match error {
            TypeError::Memory => CompileError::Memory,
            error => CompileError::Typing(error),
        }
    }
}

impl From<LayoutError> for CompileError {
    ghost use Rattle.std.specs.Prelude.{◌≡◌};
    ghost use Rattle.bb_driver.specs.Sources.{of_layout};

    ghost from_gives = { λ error e. e ≡ of_layout error };

    fn from(error: LayoutError) -> CompileError {
        match error {
            LayoutError::Memory => CompileError::Memory,
            error => CompileError::Layout(error),
        }
    }
}

impl From<LowerError> for CompileError {
    ghost use Rattle.std.specs.Prelude.{◌≡◌};
    ghost use Rattle.bb_driver.specs.Sources.{of_lower};

    ghost from_gives = { λ error e. e ≡ of_lower error };

    fn from(error: LowerError) -> CompileError {
        match error {
            LowerError::Memory => CompileError::Memory,
            error => CompileError::Lower(error),
        }
    }
}
