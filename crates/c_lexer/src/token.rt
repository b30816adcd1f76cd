//! Tokens, each with its place in the text.
use bb_words::list::List;
use c_words::place::{At, Bytes, Name};
use c_words::words::{Keyword, Punctuator};

/// A token with its value (C11 6.4).
#[derive(Debug, Drop)]
pub enum TokenKind {
    /// An identifier that is no keyword.
    Name(Name),
    /// An integer constant: its value, and whether its type is unsigned.
    Number { value: u32, unsigned: bool },
    /// A character constant's value.
    Character(u8),
    /// The bytes of a string literal, without the final zero.
    StringLiteral(Bytes),
    /// A keyword.
    Keyword(Keyword),
    /// A punctuator.
    Punctuator(Punctuator),
}

/// A token, where its first byte stands in the text, how many bytes it has, and the line of its first byte, from 1.
#[derive(Debug, Drop)]
pub struct Token {
    pub kind: TokenKind,
    pub start: u32,
    pub len: u32,
    pub line: u32,
}

impl Token {
    ghost use Rattle.std.specs.Prelude.{◌≡◌};

    /// Where a node of a tree stands that begins with this token, the token of that number.
    pub fn at(&self, number: u32) -> At
        ensures { result ≡ record { token = number; line = self.now.line } }
    {
        At {
            token: number,
            line: self.line,
        }
    }
}

/// The tokens of a text, in order.
pub type Tokens = List<Token>;
