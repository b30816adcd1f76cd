//! The tokens that are left, and why reading stops.
ghost use Rattle.std.specs.Prelude.{◌≡◌, ◌<◌, ◌^◌, true, length, option_map, IfOk};
ghost use Rattle.c_words.specs.Tokens as tokens;
ghost use Rattle.c_lexer.specs.Text.{placed};
ghost use Rattle.c_lexer.specs.Views.{token_of, lexemes};
ghost use Rattle.c_parser_rules.specs.Tests.{first, is_end, is_star, begins_specifier, begins_statement, may_begin_statement};
ghost use Rattle.c_parser_expressions.specs.Reads.{Takes, Sees, TakesNext, place_of, mark_of, word_of, name_of, text_of, number_of, character_of};

use bb_words::list::{Bytes, List};
use c_lexer::{Token, TokenKind};
use c_words::place::{At, Name};
use c_words::words::{Keyword, Punctuator};
use std::alloc::{AllocError, AllocFailed, Global};
use std::marker::Model;

/// How many levels of nesting may be open.
pub const LEVELS: u32 = 200;

/// Why a rule is not read.
#[derive(Clone, Copy, Debug, PartialEq, Eq)]
pub enum Stop {
    Memory,
    /// The next token fits nothing.
    Syntax,
    /// A limit on nesting is passed at the next token.
    TooDeep,
}

impl From<AllocError> for Stop {
    ghost use Rattle.std.specs.Prelude.{◌≡◌};
    ghost use Rattle.c_parser_expressions.specs.declared.cursor.Stop.TheVariants.{Memory};

    ghost from_gives = { λ _ e. e ≡ Memory };

    fn from(_: AllocError) -> Stop {
        Stop::Memory
    }
}

impl<T: Drop> From<AllocFailed<T>> for Stop {
    ghost use Rattle.std.specs.Prelude.{◌≡◌};
    ghost use Rattle.c_parser_expressions.specs.declared.cursor.Stop.TheVariants.{Memory};

    ghost from_gives = { λ _ e. e ≡ Memory };

    fn from(_: AllocFailed<T>) -> Stop {
        Stop::Memory
    }
}

/// The tokens that are left.
#[derive(Drop)]
pub struct Cursor<'a> {
    tokens: &'a [Token],
    at: usize,
}

impl<'a> Model for Cursor<'a> {
    ghost use Rattle.std.specs.Prelude.{List, ◌≤◌, ◌<◌, ◌^◌, length, drop};
    ghost use Rattle.c_words.specs.Tokens.{Placed};
    ghost use Rattle.c_lexer.specs.Text.{placed_from};
    ghost use Rattle.c_lexer.specs.Views.{lexemes};

    ghost Value = { List Placed };

    ghost view = { λ c. placed_from c.at (lexemes (drop c.at c.tokens.now)) };

    ghost invariant = { λ c. (c.at ≤ length c.tokens.now) × (length c.tokens.now < 2 ^ 32) };
}

impl<'a> Cursor<'a> {
    /// All these tokens, of which there are fewer than 2^32.
    pub fn new(tokens: &'a [Token]) -> Cursor<'a>
        requires { length tokens.now < 2 ^ 32 }
        ensures { result ≡ placed (lexemes tokens.now) }
    {
        Cursor { tokens, at: 0 }
    }

    /// The punctuator that comes next, if one does.
    pub fn mark(&self) -> Option<Punctuator>
        ensures { result ≡ mark_of (first self.now) }
    {
        if self.at < self.tokens.len() {
            match &self.tokens[self.at].kind {
                TokenKind::Punctuator(mark) => Some(*mark),
                _ => None,
            }
        } else {
            None
        }
    }

    /// The keyword that comes next, if one does.
    pub fn word(&self) -> Option<Keyword>
        ensures { result ≡ word_of (first self.now) }
    {
        if self.at < self.tokens.len() {
            match &self.tokens[self.at].kind {
                TokenKind::Keyword(word) => Some(*word),
                _ => None,
            }
        } else {
            None
        }
    }

    /// The name that comes next, if one does.
    pub fn name(&self, alloc: Global) -> Result<Option<Name>, AllocError>
        ensures { IfOk result (λ name. name ≡ name_of (first self.now)) }
    {
        if self.at < self.tokens.len() {
            match &self.tokens[self.at].kind {
                TokenKind::Name(bytes) => Ok(Some(List::copy_of(alloc, bytes.as_slice())?)),
                _ => Ok(None),
            }
        } else {
            Ok(None)
        }
    }

    /// The bytes of the string that comes next, if one does.
    pub fn text(&self, alloc: Global) -> Result<Option<Bytes>, AllocError>
        ensures { IfOk result (λ bytes. bytes ≡ text_of (first self.now)) }
    {
        if self.at < self.tokens.len() {
            match &self.tokens[self.at].kind {
                TokenKind::StringLiteral(bytes) => Ok(Some(List::copy_of(
                    alloc,
                    bytes.as_slice(),
                )?)),
                _ => Ok(None),
            }
        } else {
            Ok(None)
        }
    }

    /// The value of the number that comes next, and whether it is unsigned, if one does.
    pub fn number(&self) -> Option<(u32, bool)>
        ensures { result ≡ number_of (first self.now) }
    {
        if self.at < self.tokens.len() {
            match &self.tokens[self.at].kind {
                TokenKind::Number { value, unsigned } => Some((*value, *unsigned)),
                _ => None,
            }
        } else {
            None
        }
    }

    /// The value of the character constant that comes next, if one does.
    pub fn character(&self) -> Option<u8>
        ensures { result ≡ character_of (first self.now) }
    {
        if self.at < self.tokens.len() {
            match &self.tokens[self.at].kind {
                TokenKind::Character(value) => Some(*value),
                _ => None,
            }
        } else {
            None
        }
    }

    /// Whether this punctuator comes next.
    pub fn sees(&self, mark: Punctuator) -> bool
        ensures { Sees (tokens.Token.Punctuator mark) self.now result }
    {
        matches!(self.mark(), Some(next) if next == mark)
    }

    /// Whether this keyword comes next.
    pub fn sees_word(&self, word: Keyword) -> bool
        ensures { Sees (tokens.Token.Keyword word) self.now result }
    {
        matches!(self.word(), Some(next) if next == word)
    }

    /// Whether a type comes next, by the words that it begins with.
    pub fn sees_type(&self) -> bool
        ensures { result ≡ begins_specifier (first self.now) }
    {
        matches!(
            self.word(),
            Some(
                Keyword::Void
                    | Keyword::Char
                    | Keyword::Int
                    | Keyword::Signed
                    | Keyword::Unsigned
                    | Keyword::Struct
            )
        )
    }

    /// Takes the next token, whatever it is, where that is within the limits.
    pub fn take_next(&mut self, within: bool) -> Result<At, Stop>
        ensures { TakesNext within self.old result self.new }
    {
        if self.at == self.tokens.len() {
            return Err(Stop::Syntax);
        }
        let at = self.tokens[self.at].at(self.at as u32);
        if !within {
            return Err(Stop::TooDeep);
        }
        self.at += 1;
        Ok(at)
    }

    /// Whether a `*` comes next.
    pub fn sees_star(&self) -> bool
        ensures { result ≡ is_star (first self.now) }
    {
        matches!(self.mark(), Some(Punctuator::Star))
    }

    /// Takes the next token, which is this word.
    pub fn take_word(&mut self, word: Keyword) -> Result<At, Stop>
        ensures { Takes (tokens.Token.Keyword word) true self.old result self.new }
    {
        if !self.sees_word(word) {
            return Err(Stop::Syntax);
        }
        self.take_next(true)
    }

    /// Takes the next token, which is this one, where that is within the limits.
    pub fn take_mark(&mut self, mark: Punctuator, within: bool) -> Result<At, Stop>
        ensures { Takes (tokens.Token.Punctuator mark) within self.old result self.new }
    {
        if !self.sees(mark) {
            return Err(Stop::Syntax);
        }
        self.take_next(within)
    }

    /// Whether no token is left.
    pub fn is_at_end(&self) -> bool
        ensures { result ≡ is_end (first self.now) }
    {
        match self.next_at() {
            None => true,
            Some(_) => false,
        }
    }

    /// Where the next token stands, if one comes.
    pub fn next_at(&self) -> Option<At>
        ensures { result ≡ place_of self.now }
    {
        if self.at < self.tokens.len() {
            Some(self.tokens[self.at].at(self.at as u32))
        } else {
            None
        }
    }

    /// Whether the next token begins a statement.
    pub fn sees_statement(&self) -> bool
        ensures { result ≡ may_begin_statement (first self.now) }
    {
        if self.at == self.tokens.len() {
            return false;
        }
        match &self.tokens[self.at].kind {
            TokenKind::Keyword(word) => word_begins_statement(*word),
            TokenKind::Punctuator(mark) => mark_begins_statement(*mark),
            _ => true,
        }
    }
}

// Whether a statement begins with this word.
fn word_begins_statement(word: Keyword) -> bool
    ensures { result ≡ begins_statement (tokens.Token.Keyword word) }
{
    matches!(
        word,
        Keyword::If
            | Keyword::While
            | Keyword::Do
            | Keyword::For
            | Keyword::Break
            | Keyword::Continue
            | Keyword::Return
            | Keyword::Null
            | Keyword::Eof
            | Keyword::Sizeof
    )
}

// Whether a statement begins with this punctuator.
fn mark_begins_statement(mark: Punctuator) -> bool
    ensures { result ≡ begins_statement (tokens.Token.Punctuator mark) }
{
    matches!(
        mark,
        Punctuator::Semicolon
            | Punctuator::OpenBrace
            | Punctuator::OpenParen
            | Punctuator::PlusPlus
            | Punctuator::MinusMinus
            | Punctuator::Ampersand
            | Punctuator::Star
            | Punctuator::Plus
            | Punctuator::Minus
            | Punctuator::Tilde
            | Punctuator::Bang
    )
}
