//! The image of a program.
use bb_words::list::{Bytes, List};

/// A program that the machine runs. A block is given by its exponent, the binary logarithm of its size in bytes.
#[derive(Debug, Drop)]
pub struct Image {
    /// The version of the format.
    pub version: u32,
    /// The address of the first instruction.
    pub entry: u32,
    /// The exponents of the blocks of the global objects, from the start of their region on.
    pub globals: List<u8>,
    /// For each frame the exponents of its blocks, from its lowest address on.
    pub frames: List<List<u8>>,
    /// The first bytes of the region of the global objects; the others are zero.
    pub initial: Bytes,
    /// The words of the text.
    pub text: List<u32>,
}
