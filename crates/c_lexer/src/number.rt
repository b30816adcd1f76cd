//! Integer constants (C11 6.4.4.1).
ghost use Rattle.std.specs.Prelude.{◌≡◌, ◌≤◌, ◌<◌, ◌^◌, option_map, length, IfSome};
ghost use Rattle.c_lexer.specs.Bytes as spec;
ghost use Rattle.c_lexer.specs.Reading as reading;

use crate::bytes::digit_value;

const INT_LIMIT: u64 = 0x8000_0000;

const UNSIGNED_LIMIT: u64 = 0x1_0000_0000;

/// The number that the digits write, where all of them are digits of the radix and it is below the limit.
pub fn value_below(limit: u64, radix: u8, digits: &[u8]) -> Option<u64>
    requires radix { radix ≤ 16 }
    requires limit { limit ≤ 2 ^ 32 }
    requires some { 0 < limit }
    ensures value { result ≡ reading.value_below limit radix 0 digits.now }
    ensures below { IfSome result (λ value. value < limit) }
{
    let mut value = 0;
    for d in digits {
        let digit = digit_value(*d);
        if digit >= radix {
            return None;
        }
        value = u64::from(radix) * value + u64::from(digit);
        if value >= limit {
            return None;
        }
    }
    Some(value)
}

#[tactic(auto, unfolding(crate::specs::Bytes::is_unsigned_suffix))]
fn is_unsigned_suffix(b: u8) -> bool
    ensures { result ≡ spec.is_unsigned_suffix b }
{
    b == b'u' || b == b'U'
}

#[tactic(auto, unfolding(crate::specs::Bytes::is_hex_mark))]
fn is_hex_mark(b: u8) -> bool
    ensures { result ≡ spec.is_hex_mark b }
{
    b == b'x' || b == b'X'
}

// The radix of a constant without its suffix, and its digits.
fn radix_of(constant: &[u8]) -> Option<(u8, &[u8])>
    ensures value { option_map (λ r. (r.0, r.1.now)) result ≡ reading.radix_of constant.now }
    ensures small { IfSome result (λ r. r.0 ≤ 16) }
{
    match constant {
        [] => None,
        [b'0', x, digits @ ..] if is_hex_mark(*x) => {
            if digits.is_empty() {
                None
            } else {
                Some((16, digits))
            }
        }
        [b'0', digits @ ..] => Some((8, digits)),
        _ => Some((10, constant)),
    }
}

/// The value of an integer constant, and whether it is unsigned.
#[tactic(auto, unfolding(crate::specs::Reading::number_of))]
pub fn number_of(constant: &[u8]) -> Option<(u32, bool)>
    ensures { result ≡ reading.number_of constant.now }
{
    let suffixed = constant.last().is_some_and(|b| is_unsigned_suffix(*b));
    let front = if suffixed {
        &constant[..constant.len() - 1]
    } else {
        constant
    };
    let (radix, digits) = radix_of(front)?;
    let limit = if radix == 10 && !suffixed {
        INT_LIMIT
    } else {
        UNSIGNED_LIMIT
    };
    let value = value_below(limit, radix, digits)?;
    Some((value as u32, suffixed || value >= INT_LIMIT))
}
