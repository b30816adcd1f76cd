//! From tokens to the tree of a file.
ghost use Rattle.std.specs.Prelude.{◌≡◌, ◌<◌, ◌^◌, length};
ghost use Rattle.c_lexer.specs.Text.{placed};
ghost use Rattle.c_lexer.specs.Views.{lexemes};
ghost use Rattle.syntax_tree.specs.Syntax.{UnitTree};
ghost use Rattle.syntax_tree.specs.GrammarLimits.{within_limits};
ghost use Rattle.syntax_tree.specs.Grammar.{Derives};
ghost use Rattle.c_parser.specs.Parse.{IsAnswer, Accepts, stop_place};

use crate::unit::unit;
use c_lexer::{Token, Tokens};
use c_parser_expressions::cursor::{Cursor, Stop};
use c_words::place::At;
use std::alloc::Global;
use syntax_tree::syntax::Unit;
use thiserror::Error;

/// Why tokens are no file of C. A token is named by its number, from 0, and its line, from 1; the end of the file counts
/// as the token behind all, on the line of the last one.
#[derive(Clone, Copy, Debug, PartialEq, Eq, Error)]
pub enum ParseError {
    /// The tokens before this one begin a file, and with it they begin none.
    #[error("line {line}: a syntax error at token {token}")]
    Syntax { token: u32, line: u32 },
    /// A limit on nesting is passed first at this token.
    #[error("line {line}: the nesting is too deep at token {token}")]
    TooDeep { token: u32, line: u32 },
    #[error("out of memory")]
    Memory,
}

// Where reading stopped: at the next token, or at the end of the file.
fn stopped(tokens: &[Token], cursor: &Cursor<'_>) -> At
    requires { length tokens.now < 2 ^ 32 }
    ensures { result ≡ stop_place (placed (lexemes tokens.now)) cursor.now }
{
    if let Some(at) = cursor.next_at() {
        return at;
    }
    let token = tokens.len() as u32;
    match tokens.last() {
        None => At { token, line: 1 },
        Some(last) => At {
            token,
            line: last.line,
        },
    }
}

/// The tree of a file (C11 6.9): the one that the grammar derives from the tokens, or the refusal at the first token that
/// fits nothing or passes a limit on nesting.
pub fn parse(alloc: Global, tokens: &Tokens) -> Result<Unit, ParseError>
    ensures answer { IsAnswer (placed (lexemes tokens.now)) result }
    ensures complete { (tree : UnitTree) → Derives within_limits (placed (lexemes tokens.now)) tree → Accepts tree result }
{
    let tokens = tokens.as_slice();
    if tokens.len() > u32::MAX as usize {
        return Err(ParseError::Memory);
    }
    let mut cursor = Cursor::new(tokens);
    match unit(alloc, &mut cursor) {
        Ok(unit) => Ok(unit),
        Err(Stop::Memory) => Err(ParseError::Memory),
        Err(Stop::Syntax) => {
            let At { token, line } = stopped(tokens, &cursor);
            Err(ParseError::Syntax { token, line })
        }
        Err(Stop::TooDeep) => {
            let At { token, line } = stopped(tokens, &cursor);
            Err(ParseError::TooDeep { token, line })
        }
    }
}
