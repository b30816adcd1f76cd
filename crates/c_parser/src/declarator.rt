//! Declarators.
ghost use Rattle.std.specs.Prelude.{◌≡◌, ◌≤◌, map, Some};
ghost use Rattle.c_words.specs.Tokens as tokens;
ghost use Rattle.c_words.specs.declared.words.Punctuator.TheVariants as marks;
ghost use Rattle.syntax_tree.specs.SyntaxViews.{suffix_tree, declarator_tree};
ghost use Rattle.c_parser_rules.specs.Programs.{Sort, Rule};
ghost use Rattle.c_parser_rules.specs.Tests.{first, begins_suffix};
ghost use Rattle.c_parser_rules.specs.Bodies.{body};
ghost use Rattle.c_parser_rules.specs.Bodies as bodies;
ghost use Rattle.c_parser_expressions.specs.Reads.{Reads};

use crate::array::array;
use crate::parameter::optional_parameters;
use crate::trees;
use c_parser_expressions::cursor::{Cursor, LEVELS, Stop};
use c_parser_expressions::specifier::stars;
use c_words::words::Punctuator;
use std::alloc::Global;
use syntax_tree::syntax::{Declarator, Suffix};

// Whether an array or parameters follow.
fn sees_suffix(cursor: &Cursor<'_>) -> bool
    ensures { result ≡ begins_suffix (first cursor.now) }
{
    matches!(
        cursor.mark(),
        Some(Punctuator::OpenBracket | Punctuator::OpenParen)
    )
}

// `[ size ]` or `( parameters )` behind a declared name.
fn suffix(alloc: Global, cursor: &mut Cursor<'_>, depth: u32) -> Result<Suffix, Stop>
    requires { depth ≤ 200 }
    ensures { Reads Sort.suffix (body (Rule.suffix depth)) suffix_tree cursor.old result cursor.new }
{
    if cursor.sees(Punctuator::OpenBracket) {
        let array = array(alloc, cursor, depth)?;
        return Ok(Suffix::Array(array));
    }
    let at = cursor.take_mark(Punctuator::OpenParen, depth < LEVELS)?;
    let parameters = optional_parameters(alloc, cursor, depth + 1)?;
    cursor.take_mark(Punctuator::CloseParen, true)?;
    Ok(Suffix::Function { at, parameters })
}

// All that follows a declared name.
fn suffixes(alloc: Global, cursor: &mut Cursor<'_>, depth: u32) -> Result<Vec<Suffix>, Stop>
    requires { depth ≤ 200 }
    ensures { Reads (Sort.many Sort.suffix) (body (Rule.repeat begins_suffix (Rule.suffix depth)))
        (λ v. map suffix_tree v.items) cursor.old result cursor.new }
{
    let mut suffixes = Vec::new(alloc);
    'suffixes: while sees_suffix(cursor) {
        let suffix = suffix(alloc, cursor, depth)?;
        suffixes.push(suffix)?;
    }
    Ok(suffixes)
}

/// A declared name, and what its declaration makes of the specifier's type (C11 6.7.6).
#[cycle(declarator)]
pub fn declarator(alloc: Global, cursor: &mut Cursor<'_>, depth: u32) -> Result<Declarator, Stop>
    requires { depth ≤ 200 }
    ensures { Reads Sort.declarator (body (Rule.declarator depth)) declarator_tree cursor.old result cursor.new }
{
    let stars = stars(cursor, depth)?;
    let level = depth + stars;
    if let Some(name) = cursor.name(alloc)? {
        let at = cursor.take_next(true)?;
        let suffixes = suffixes(alloc, cursor, level)?;
        return Ok(trees::named(at, stars, name, suffixes));
    }
    if cursor.sees(Punctuator::OpenParen) {
        return nested(alloc, cursor, level, stars);
    }
    Err(Stop::Syntax)
}

// A declarator in brackets, and what follows them.
#[cycle(declarator)]
fn nested(
    alloc: Global,
    cursor: &mut Cursor<'_>,
    level: u32,
    stars: u32,
) -> Result<Declarator, Stop>
    requires { level ≤ 200 }
    ensures { Reads Sort.declarator (bodies.declarator_by level stars (Some (tokens.Token.Punctuator marks.OpenParen))) declarator_tree cursor.old result cursor.new }
{
    cursor.take_mark(Punctuator::OpenParen, level < LEVELS)?;
    let inner = declarator(alloc, cursor, level + 1)?;
    cursor.take_mark(Punctuator::CloseParen, true)?;
    let suffixes = suffixes(alloc, cursor, level)?;
    Ok(Declarator::nested(alloc, stars, inner, suffixes)?)
}
