//! A function, and what stands around it.
ghost use Rattle.std.specs.Prelude.{◌≤◌};

use crate::facts::GlobalBlock;
use flat_code::code::FlatFunction;

/// A function among the functions and the global objects of its program.
#[derive(Clone, Copy)]
pub struct Setting<'a> {
    /// The exponent of a slot.
    pub exponent: u8,
    pub globals: &'a [GlobalBlock],
    pub functions: &'a [FlatFunction],
    pub function: &'a FlatFunction,
    ghost least: { 1 ≤ exponent },
    ghost most: { exponent ≤ 24 },
}
