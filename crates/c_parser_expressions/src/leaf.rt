//! What stands without operands: names, constants, strings; and identifiers.
ghost use Rattle.std.specs.Prelude.{◌≡◌, ℕ, [], ◌∷◌, Some};
ghost use Rattle.c_words.specs.Tokens as tokens;
ghost use Rattle.c_words.specs.declared.words.Punctuator.TheVariants as marks;
ghost use Rattle.syntax_tree.specs.SyntaxViews.{expression_tree};
ghost use Rattle.c_parser_rules.specs.Tests.{first};
ghost use Rattle.c_parser_rules.specs.Programs.{Sort, Rule};
ghost use Rattle.c_parser_rules.specs.Bodies.{body};
ghost use Rattle.c_parser_expressions.specs.Reads.{Reads, GoesOn};

use crate::cursor::{Cursor, Stop};
use crate::measured::Measured;
use c_words::place::{At, Bytes, Name};
use c_words::words::Keyword;
use std::alloc::Global;

/// An identifier (C11 6.4.2), and where it stands.
pub fn identifier(alloc: Global, cursor: &mut Cursor<'_>) -> Result<(Name, At), Stop>
    ensures { Reads Sort.identifier (body Rule.identifier) (λ x. x) cursor.old result cursor.new }
{
    match cursor.name(alloc)? {
        Some(name) => {
            let at = cursor.take_next(true)?;
            Ok((name, at))
        }
        None => Err(Stop::Syntax),
    }
}

// Further strings behind those that were read.
fn strings(
    alloc: Global,
    cursor: &mut Cursor<'_>,
    mut pieces: Vec<Bytes>,
) -> Result<Vec<Bytes>, Stop>
    ensures { GoesOn Sort.pieces (body Rule.strings) (λ x. x) (λ v. v.items) pieces.items cursor.old result cursor.new }
{
    while let Some(bytes) = cursor.text(alloc)? {
        cursor.take_next(true)?;
        pieces.push(bytes)?;
    }
    Ok(pieces)
}

/// A primary expression (C11 6.5.1) without brackets.
pub fn leaf(alloc: Global, cursor: &mut Cursor<'_>) -> Result<Measured, Stop>
    requires { first cursor.now ≡ Some (tokens.Token.Punctuator marks.OpenParen) → ⊥ }
    ensures { (depth : ℕ) → Reads Sort.expression (body (Rule.primary depth)) expression_tree cursor.old result cursor.new }
{
    if let Some(number) = cursor.number() {
        let at = cursor.take_next(true)?;
        return Ok(Measured::number(at, number.0, number.1));
    }
    if let Some(value) = cursor.character() {
        let at = cursor.take_next(true)?;
        return Ok(Measured::character(at, value));
    }
    if let Some(name) = cursor.name(alloc)? {
        let at = cursor.take_next(true)?;
        return Ok(Measured::name(at, name));
    }
    if let Some(bytes) = cursor.text(alloc)? {
        let at = cursor.take_next(true)?;
        let mut pieces = Vec::new(alloc);
        pieces.push(bytes)?;
        let pieces = strings(alloc, cursor, pieces)?;
        return Ok(Measured::text(at, pieces));
    }
    if cursor.sees_word(Keyword::Null) {
        let at = cursor.take_next(true)?;
        return Ok(Measured::null(at));
    }
    if cursor.sees_word(Keyword::Eof) {
        let at = cursor.take_next(true)?;
        return Ok(Measured::eof(at));
    }
    Err(Stop::Syntax)
}
