//! Why bytes are no image.
ghost use Rattle.std.specs.Prelude.{◌≡◌};
ghost use Rattle.rv_image.specs.declared.error.ImageError.TheVariants.{Memory};

use std::alloc::AllocError;
use thiserror::Error;

/// The first rule of the format that bytes break, and where. Places count from 0.
#[derive(Clone, Copy, Debug, PartialEq, Eq, Error)]
pub enum ImageError {
    /// The bytes end before a field does. The field needs so many bytes from the start of the image on.
    #[error("the image ends at {have}, within a field that ends at {need}")]
    Short { need: u32, have: u32 },
    /// The image does not begin with `BAGY`.
    #[error("no image begins so")]
    BadMagic,
    /// The version is not 1.
    #[error("the version {version} is not known")]
    BadVersion { version: u32 },
    /// A field breaks its rule.
    #[error("the field at {at} breaks its rule")]
    BadField { at: u32 },
    /// Bytes follow the text.
    #[error("the image goes on at {at}, after its end")]
    Extra { at: u32 },
    /// There is not memory enough for the image.
    #[error("out of memory")]
    Memory,
}

impl From<AllocError> for ImageError {
    ghost from_gives = { λ _ e. e ≡ Memory };

    fn from(_e: AllocError) -> ImageError {
        ImageError::Memory
    }
}
