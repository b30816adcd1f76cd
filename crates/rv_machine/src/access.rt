//! Whether an access may be done, and the words of what it reads.
ghost use Rattle.std.specs.Prelude.{◌≡◌, ◌+◌, ◌*◌, ◌%◌, ◌<◌, ◌≤◌, IfNone};
ghost use Rattle.size_table.specs.declared.memory_map.TheConstants.{TABLE_START, MEMORY_END};
ghost use Rattle.rv_code.specs.Bits.{extended};
ghost use Rattle.rv_machine.specs.Instruction.{access_trap};

use bb_words::kinds::TrapKind;
use size_table::memory_map::{MEMORY_END, TABLE_START, TEXT_START};

/// The trap of an access to `size` bytes, or none where they lie above the text.
pub(crate) fn trap_of(at: u32, size: u32) -> Option<TrapKind>
    requires { (0 < size) × (size ≤ 4) }
    ensures value { result ≡ access_trap at size }
    ensures within { IfNone result ((TABLE_START ≤ at) × (at < MEMORY_END)) }
    ensures aligned { IfNone result (at % size ≡ 0) }
{
    if at >= TABLE_START && at < MEMORY_END && at % size == 0 {
        return None;
    }
    if at < TEXT_START {
        return Some(TrapKind::Null);
    }
    if at >= 0x8000_0000 {
        return Some(TrapKind::Marked);
    }
    if at >= MEMORY_END {
        return Some(TrapKind::Unmapped);
    }
    if at < TABLE_START {
        return Some(TrapKind::Text);
    }
    Some(TrapKind::Misaligned)
}

/// The word of a signed byte.
pub(crate) fn signed_byte(byte: u8) -> u32
    ensures { result ≡ extended 8 byte }
{
    let word = byte as u32;
    if word < 0x80 {
        word
    } else {
        word + 0xFFFF_FF00
    }
}

/// The word of two bytes that are signed.
pub(crate) fn signed_half(half: u16) -> u32
    ensures { result ≡ extended 16 half }
{
    let word = half as u32;
    if word < 0x8000 {
        word
    } else {
        word + 0xFFFF_0000
    }
}
