//! Bytes by classes, and runs of them.
ghost use Rattle.std.specs.Prelude.{◌≡◌, ◌≤◌, length, slice_index};
ghost use Rattle.c_lexer.specs.Bytes as spec;
ghost use Rattle.c_lexer.specs.Reading as reading;

/// What a run of bytes is made of.
#[derive(Clone, Copy, Debug)]
pub enum Class {
    /// What an identifier goes on with (C11 6.4.2.1).
    Word,
    /// What a number goes on with (C11 6.4.8).
    Number,
    /// Spaces and tabs.
    Gap,
    /// All but a line feed.
    Line,
    /// Octal digits.
    Octal,
    /// Hexadecimal digits.
    Hexadecimal,
}

#[tactic(auto, unfolding(crate::specs::Bytes::is_blank))]
pub fn is_blank(b: u8) -> bool
    ensures { result ≡ spec.is_blank b }
{
    b == b' ' || (9 <= b && b <= 13)
}

#[tactic(auto, unfolding(crate::specs::Bytes::is_gap))]
fn is_gap(b: u8) -> bool
    ensures { result ≡ spec.is_gap b }
{
    b == b' ' || b == b'\t'
}

#[tactic(auto, unfolding(crate::specs::Bytes::is_letter))]
pub fn is_letter(b: u8) -> bool
    ensures { result ≡ spec.is_letter b }
{
    b == b'_' || (b'A' <= b && b <= b'Z') || (b'a' <= b && b <= b'z')
}

#[tactic(auto, unfolding(crate::specs::Bytes::is_digit))]
pub fn is_digit(b: u8) -> bool
    ensures { result ≡ spec.is_digit b }
{
    b'0' <= b && b <= b'9'
}

#[tactic(auto, unfolding(crate::specs::Bytes::is_exponent))]
fn is_exponent(b: u8) -> bool
    ensures { result ≡ spec.is_exponent b }
{
    b == b'e' || b == b'E' || b == b'p' || b == b'P'
}

#[tactic(auto, unfolding(crate::specs::Bytes::continues_number))]
fn continues_number(before: u8, b: u8) -> bool
    ensures { result ≡ spec.continues_number before b }
{
    is_letter(b) || is_digit(b) || b == b'.' || ((b == b'+' || b == b'-') && is_exponent(before))
}

/// What a digit stands for, in hexadecimal at most, or 16.
#[tactic(auto, unfolding(crate::specs::Bytes::digit_value, crate::specs::Bytes::is_digit))]
pub fn digit_value(b: u8) -> u8
    ensures value { result ≡ spec.digit_value b }
    ensures small { result ≤ 16 }
{
    if is_digit(b) {
        b - b'0'
    } else if b'A' <= b && b <= b'F' {
        b - b'A' + 10
    } else if b'a' <= b && b <= b'f' {
        b - b'a' + 10
    } else {
        16
    }
}

/// Whether a byte of the class stands behind the byte before.
fn continues(class: Class, before: u8, b: u8) -> bool
    ensures { result ≡ reading.continues class before b }
{
    match class {
        Class::Word => is_letter(b) || is_digit(b),
        Class::Number => continues_number(before, b),
        Class::Gap => is_gap(b),
        Class::Line => b != b'\n',
        Class::Octal => digit_value(b) < 8,
        Class::Hexadecimal => digit_value(b) < 16,
    }
}

/// How many bytes of the class are in front of the text.
#[tactic(auto, unfolding(crate::specs::Reading::run_len))]
pub fn run_len(class: Class, text: &[u8]) -> usize
    ensures value { result ≡ reading.run_len class text.now }
    ensures within { result ≤ length text.now }
{
    let mut before = 0;
    for (at, b) in text.iter().enumerate() {
        if !continues(class, before, *b) {
            return at;
        }
        before = *b;
    }
    text.len()
}

/// The byte at a place, or 0 past the end.
pub fn byte(text: &[u8], at: usize) -> u8
    ensures { result ≡ slice_index text.now at }
{
    if at < text.len() { text[at] } else { 0 }
}

/// How many line feeds there are.
pub fn line_feeds(text: &[u8]) -> usize
    ensures value { result ≡ spec.line_feeds text.now }
    ensures within { result ≤ length text.now }
{
    let mut count = 0;
    for b in text {
        if *b == b'\n' {
            count += 1;
        }
    }
    count
}
