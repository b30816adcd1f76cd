//! The piece of a text at its front.
ghost use Rattle.std.specs.Prelude.{◌≡◌, ◌≤◌, ◌<◌, length, slice_index, IfOk};
ghost use Rattle.c_lexer.specs.Reading as reading;
ghost use Rattle.c_lexer.specs.Gives.{Gives, found_of};

use crate::bytes::{Class, byte, is_blank, is_digit, is_letter, run_len};
use crate::fault::{Fault, PieceError};
use crate::number::number_of;
use crate::quote::{quoted_at, single_at};
use crate::space::{block_comment_len, directive_len};
use crate::token::TokenKind;
use crate::words::{identifier, mark_at};
use std::alloc::Global;

/// A token, or a blank, a comment or a directive, and how many bytes it has.
#[derive(Debug, Drop)]
pub struct Piece {
    pub token: Option<TokenKind>,
    pub len: usize,
}

impl Piece {
    fn of(token: TokenKind, len: usize) -> Piece
        ensures { result ≡ record { token = Some token; len = len } }
    {
        Piece {
            token: Some(token),
            len,
        }
    }

    fn dropped(len: usize) -> Piece
        ensures { result ≡ record { token = None; len = len } }
    {
        Piece { token: None, len }
    }
}

#[tactic(auto, unfolding(crate::specs::Reading::number_at))]
fn number_at(text: &[u8]) -> Result<Piece, PieceError>
    ensures value { Gives found_of result (reading.number_at text.now) }
    ensures within { IfOk result (λ p. p.len ≤ length text.now) }
{
    let len = run_len(Class::Number, text);
    match number_of(&text[..len]) {
        None => Err(PieceError::Fault(Fault::BadNumber)),
        Some((value, unsigned)) => Ok(Piece::of(TokenKind::Number { value, unsigned }, len)),
    }
}

fn string_at(alloc: Global, text: &[u8]) -> Result<Piece, PieceError>
    requires { 0 < length text.now }
    ensures value { Gives found_of result (reading.string_at text.now) }
    ensures within { IfOk result (λ p. p.len ≤ length text.now) }
{
    let (bytes, len) = quoted_at(alloc, b'"', text)?;
    Ok(Piece::of(TokenKind::StringLiteral(bytes), len))
}

fn character_at(alloc: Global, text: &[u8]) -> Result<Piece, PieceError>
    requires { 0 < length text.now }
    ensures value { Gives found_of result (reading.character_at text.now) }
    ensures within { IfOk result (λ p. p.len ≤ length text.now) }
{
    if let Some((value, len)) = single_at(b'\'', text) {
        return Ok(Piece::of(TokenKind::Character(value), len));
    }
    let (bytes, len) = quoted_at(alloc, b'\'', text)?;
    match bytes.as_slice() {
        [value] => Ok(Piece::of(TokenKind::Character(*value), len)),
        _ => Err(PieceError::Fault(Fault::BadEscape)),
    }
}

fn slash_at(text: &[u8]) -> Result<Piece, PieceError>
    ensures value { Gives found_of result (reading.slash_at text.now) }
    ensures within { IfOk result (λ p. p.len ≤ length text.now) }
{
    match byte(text, 1) {
        b'*' => Ok(Piece::dropped(block_comment_len(text)?)),
        b'/' => Ok(Piece::dropped(run_len(Class::Line, text))),
        _ => punctuator_at(text),
    }
}

fn punctuator_at(text: &[u8]) -> Result<Piece, PieceError>
    ensures value { Gives found_of result (reading.mark_at text.now) }
    ensures within { IfOk result (λ p. p.len ≤ length text.now) }
{
    let (mark, len) = mark_at(text)?;
    Ok(Piece::of(TokenKind::Punctuator(mark), len))
}

fn identifier_at(alloc: Global, text: &[u8]) -> Result<Piece, PieceError>
    ensures value { Gives found_of result (reading.identifier_at text.now) }
    ensures within { IfOk result (λ p. p.len ≤ length text.now) }
{
    let len = run_len(Class::Word, text);
    Ok(Piece::of(identifier(alloc, &text[..len])?, len))
}

/// The piece in front of the text.
#[tactic(auto, unfolding(crate::specs::Reading::piece_at))]
pub fn piece_at(alloc: Global, text: &[u8]) -> Result<Piece, PieceError>
    requires { 0 < length text.now }
    ensures value { Gives found_of result (reading.piece_at text.now) }
    ensures within { IfOk result (λ p. p.len ≤ length text.now) }
{
    let first = text[0];
    if is_blank(first) {
        Ok(Piece::dropped(1))
    } else if is_letter(first) {
        identifier_at(alloc, text)
    } else if is_digit(first) {
        number_at(text)
    } else {
        match first {
            b'"' => string_at(alloc, text),
            b'\'' => character_at(alloc, text),
            b'#' => Ok(Piece::dropped(directive_len(text)?)),
            b'/' => slash_at(text),
            _ => punctuator_at(text),
        }
    }
}
