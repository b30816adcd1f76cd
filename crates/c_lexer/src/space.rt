//! Comments and directives.
ghost use Rattle.std.specs.Prelude.{◌≡◌, ◌≤◌, ◌<◌, ◌+◌, length, IfOk, IfSome, codes};
ghost use Rattle.c_lexer.specs.Reading as reading;
ghost use Rattle.c_lexer.specs.Pieces as pieces;
ghost use Rattle.c_lexer.specs.Gives.{dropped};

use crate::bytes::{Class, byte, run_len};
use crate::fault::Fault;
use crate::words::begins;

/// How many bytes there are up to and with the next `*/`.
fn comment_end(text: &[u8]) -> Option<usize>
    ensures value { result ≡ reading.comment_end text.now }
    ensures within { IfSome result (λ n. n ≤ length text.now) }
{
    for (at, b) in text.iter().enumerate() {
        if *b == b'*' && byte(text, at + 1) == b'/' {
            return Some(at + 2);
        }
    }
    None
}

/// The length of the comment from `/*` to `*/` in front of the text, which begins with the former.
pub fn block_comment_len(text: &[u8]) -> Result<usize, Fault>
    requires { 2 ≤ length text.now }
    ensures value { dropped result ≡ reading.block_comment_at text.now }
    ensures within { IfOk result (λ n. (0 < n) × (n ≤ length text.now)) }
{
    match comment_end(&text[2..]) {
        None => Err(Fault::Unclosed),
        Some(n) => Ok(2 + n),
    }
}

fn past_gaps(text: &[u8]) -> &[u8]
    ensures value { result.now ≡ reading.past_gaps text.now }
    ensures shorter { length result.now ≤ length text.now }
{
    &text[run_len(Class::Gap, text)..]
}

/// The length of the directive in front of the text, which begins with `#`.
#[tactic(auto, unfolding(crate::specs::Reading::directive_at))]
pub fn directive_len(text: &[u8]) -> Result<usize, Fault>
    requires { 0 < length text.now }
    ensures value { dropped result ≡ reading.directive_at text.now }
    ensures within { IfOk result (λ n. (0 < n) × (n ≤ length text.now)) }
{
    let name = past_gaps(&text[1..]);
    if !begins(b"include", name) {
        return Err(Fault::BadDirective);
    }
    let header = past_gaps(&name[7..]);
    match header_len(header) {
        None => Err(Fault::BadDirective),
        Some(len) => Ok(text.len() - header.len() + len),
    }
}

// The length of the header in front of the text.
#[tactic(auto, unfolding(crate::specs::Reading::header_len, crate::specs::Reading::headers))]
fn header_len(text: &[u8]) -> Option<usize>
    ensures value { result ≡ reading.header_len text.now }
    ensures within { IfSome result (λ n. n ≤ length text.now) }
{
    if begins(b"<stdio.h>", text) {
        Some(9)
    } else if begins(b"<stdlib.h>", text) {
        Some(10)
    } else if begins(b"<string.h>", text) {
        Some(10)
    } else {
        None
    }
}
