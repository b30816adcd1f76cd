//! The tokens of a text.
ghost use Rattle.std.specs.Prelude.{◌≡◌, ◌++◌, ◌≤◌, ◌<◌, ◌^◌, List, Result, Ok, length, option_map, IfOk, IfErr, OnOk};
ghost use Rattle.c_lexer.specs.Text.{HasOneReading, HasSlices, Lexeme, Lexes, lexemes_of};
ghost use Rattle.c_lexer.specs.Views.{token_of, lexemes, Answers, IsReading, IsRefusal};
ghost use Rattle.c_lexer.specs.Gives.{GivesOn};
ghost use Rattle.c_lexer.specs.Reading as reading;

use crate::bytes::line_feeds;
use crate::fault::{LexError, PieceError};
use crate::piece::{Piece, piece_at};
use crate::token::{Token, TokenKind, Tokens};
use std::alloc::{AllocError, Global};

/// How many bytes a text may have.
const MAX_LEN: usize = 1_048_576;

// The piece in front of the text, or the fault there on this line.
fn piece_on(alloc: Global, text: &[u8], line: u32) -> Result<Piece, LexError>
    requires { 0 < length text.now }
    ensures value { GivesOn line result (reading.piece_at text.now) }
    ensures within { IfOk result (λ p. p.len ≤ length text.now) }
{
    match piece_at(alloc, text) {
        Ok(piece) => Ok(piece),
        Err(PieceError::Memory) => Err(LexError::Memory),
        Err(PieceError::Fault(fault)) => Err(fault.on_line(line)),
    }
}

// Adds the token of a piece, if it is one.
fn push_token(
    tokens: &mut Tokens,
    token: Option<TokenKind>,
    start: u32,
    len: u32,
    line: u32,
) -> Result<(), AllocError>
    ensures { OnOk result (lexemes tokens.new ≡ lexemes tokens.old ++ lexemes_of (option_map token_of token) start len line) }
{
    if let Some(kind) = token {
        tokens.push(Token {
            kind,
            start,
            len,
            line,
        })?;
    }
    Ok(())
}

// The tokens of a text that is not too long.
fn read(alloc: Global, text: &[u8]) -> Result<Tokens, LexError>
    requires { length text.now ≤ 1048576 }
    ensures { IsReading text.now result }
{
    let mut tokens = Tokens::new(alloc);
    let mut rest = text;
    let mut line = 1;
    while !rest.is_empty() {
        let Piece { token, len } = piece_on(alloc, rest, line)?;
        let start = (text.len() - rest.len()) as u32;
        push_token(&mut tokens, token, start, len as u32, line)?;
        line += line_feeds(&rest[..len]) as u32;
        rest = &rest[len..];
    }
    Ok(tokens)
}

/// The tokens of a text (C11 6.4), each the longest at its place, or the fault at the first place where no token, blank,
/// comment or directive stands. A text of more than a mebibyte is refused.
pub fn lex(alloc: Global, text: &[u8]) -> Result<Tokens, LexError>
    requires { length text.now < 2 ^ 32 }
    // The tokens are those of the text.
    ensures tokens { IfOk result (λ tokens. Lexes text.now (Ok (lexemes tokens))) }
    // A refusal is that of the text, or memory ran out.
    ensures refusal { IfErr result (IsRefusal text.now) }
    // What the text reads as is answered, unless memory ran out.
    ensures exact { (reading : Result (List Lexeme) LexError) → Lexes text.now reading → Answers result reading }
{
    if text.len() > MAX_LEN {
        return Err(LexError::TooLong {
            length: text.len() as u32,
        });
    }
    read(alloc, text)
}

/// A text has one reading: its tokens, or one refusal.
pub fn one_reading()
    ensures { HasOneReading }
{}

/// Each token is the slice of the text that its place and its length tell, on the line that it tells; places rise.
pub fn tokens_are_slices()
    ensures { HasSlices }
{}
