//! The tokens of a text of C (C11 6.4).
#![tactic(auto)]

mod bytes;
pub mod fault;
mod number;
mod piece;
mod quote;
mod space;
mod text;
pub mod token;
mod words;

pub use fault::LexError;
pub use text::{lex, one_reading, tokens_are_slices};
pub use token::{Token, TokenKind, Tokens};
