//! Character constants and string literals (C11 6.4.4.4, 6.4.5).
ghost use Rattle.std.specs.Prelude.{◌≡◌, ◌≤◌, ◌<◌, ◌+◌, [], ◌∷◌, Ok, length, IfOk, IfSome};
ghost use Rattle.c_lexer.specs.Reading as reading;
ghost use Rattle.c_lexer.specs.Gives.{Gives};

use crate::bytes::{Class, digit_value, run_len};
use crate::fault::{Fault, PieceError};
use crate::number::value_below;
use bb_words::list::Bytes;
use std::alloc::Global;

/// The value of a simple escape (C11 5.2.2).
#[tactic(auto, unfolding(crate::specs::Reading::simple_value))]
fn simple_value(c: u8) -> Option<u8>
    ensures { result ≡ reading.simple_value c }
{
    match c {
        b'n' => Some(10),
        b't' => Some(9),
        b'r' => Some(13),
        b'a' => Some(7),
        b'b' => Some(8),
        b'f' => Some(12),
        b'v' => Some(11),
        b'\\' | b'\'' | b'"' | b'?' => Some(c),
        _ => None,
    }
}

// So many digits of the radix behind so many other bytes.
fn digits_at(
    radix: u8,
    before: usize,
    count: usize,
    text: &[u8],
) -> Result<Option<(u8, usize)>, Fault>
    requires radix { radix ≤ 16 }
    requires within { count ≤ length text.now }
    requires before { before ≤ 2 }
    ensures value { result ≡ reading.digits_at radix before count text.now }
    ensures len { IfOk result (λ step. IfSome step (λ item. (0 < item.1) × (item.1 ≤ length text.now + before))) }
{
    if count == 0 {
        return Err(Fault::BadEscape);
    }
    match value_below(256, radix, &text[..count]) {
        None => Err(Fault::BadEscape),
        Some(value) => Ok(Some((value as u8, before + count))),
    }
}

// What stands behind a backslash, which counts.
#[tactic(auto, unfolding(crate::specs::Reading::escape_at))]
fn escape_at(text: &[u8]) -> Result<Option<(u8, usize)>, Fault>
    ensures value { result ≡ reading.escape_at text.now }
    ensures len { IfOk result (λ step. IfSome step (λ item. (0 < item.1) × (item.1 ≤ length text.now + 1))) }
{
    let [c, rest @ ..] = text else {
        return Err(Fault::Unclosed);
    };
    if *c == b'\n' {
        Err(Fault::Unclosed)
    } else if *c == b'x' {
        digits_at(16, 2, run_len(Class::Hexadecimal, rest), rest)
    } else if digit_value(*c) < 8 {
        digits_at(
            8,
            1,
            run_len(Class::Octal, &text[..text.len().min(3)]),
            text,
        )
    } else {
        match simple_value(*c) {
            None => Err(Fault::BadEscape),
            Some(value) => Ok(Some((value, 2))),
        }
    }
}

/// The element in front of a text between quotes, its value and how many bytes it has, or nothing at the closing quote.
#[tactic(auto, unfolding(crate::specs::Reading::element_at))]
fn element_at(quote: u8, text: &[u8]) -> Result<Option<(u8, usize)>, Fault>
    ensures value { result ≡ reading.element_at quote text.now }
    ensures len { IfOk result (λ step. IfSome step (λ item. (0 < item.1) × (item.1 ≤ length text.now))) }
{
    let [b, rest @ ..] = text else {
        return Err(Fault::Unclosed);
    };
    if *b == quote {
        Ok(None)
    } else if *b == b'\n' {
        Err(Fault::Unclosed)
    } else if *b == b'\\' {
        escape_at(rest)
    } else {
        Ok(Some((*b, 1)))
    }
}

/// The value of the one element between two quotes, and how many bytes there are with the quotes; nothing where there
/// is another number of elements, or a fault. The text begins with the first quote. This takes no memory.
pub fn single_at(quote: u8, text: &[u8]) -> Option<(u8, usize)>
    requires { 0 < length text.now }
    ensures value { IfSome result (λ x. reading.quoted_at quote text.now ≡ Ok (x.0 ∷ [], x.1)) }
    ensures within { IfSome result (λ x. (0 < x.1) × (x.1 ≤ length text.now)) }
{
    let rest = &text[1..];
    let Ok(first) = element_at(quote, rest) else {
        return None;
    };
    let Some((value, len)) = first else {
        return None;
    };
    let behind = &rest[len..];
    let Ok(second) = element_at(quote, behind) else {
        return None;
    };
    match second {
        None => Some((value, len + 2)),
        Some(_) => None,
    }
}

/// The values between two quotes, and how many bytes there are with the quotes. The text begins with the first quote.
pub fn quoted_at(alloc: Global, quote: u8, text: &[u8]) -> Result<(Bytes, usize), PieceError>
    requires { 0 < length text.now }
    ensures value { Gives (λ x. x) result (reading.quoted_at quote text.now) }
    ensures within { IfOk result (λ x. (0 < x.1) × (x.1 ≤ length text.now)) }
{
    let mut values = Bytes::new(alloc);
    let mut rest = &text[1..];
    while let Some((value, len)) = element_at(quote, rest)? {
        values.push(value)?;
        rest = &rest[len..];
    }
    Ok((values, text.len() - rest.len() + 1))
}
