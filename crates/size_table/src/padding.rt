//! Padded sizes.
ghost use Rattle.std.specs.Prelude.{◌≡◌, ◌≤◌};
ghost use Rattle.size_table.specs.Pads.{exponent_of, IsExponentOf};

use crate::memory_map::{MOST_BYTES, SLOT_EXPONENT};

/// The exponent of the least power of two that is at least `size`, and at least the bytes of a slot.
pub fn exponent(size: u32) -> u8
    requires { size ≤ MOST_BYTES }
    ensures value { result ≡ exponent_of SLOT_EXPONENT size }
    ensures most { result ≤ 24 }
    ensures least { IsExponentOf SLOT_EXPONENT size result }
{
    let mut e = SLOT_EXPONENT;
    while e < 24 {
        if size <= 1 << e {
            return e;
        }
        e += 1;
    }
    e
}
