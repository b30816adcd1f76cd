//! Initializers.
ghost use Rattle.std.specs.Prelude.{◌≤◌};
ghost use Rattle.syntax_tree.specs.SyntaxViews.{initializer_tree, initializer_trees};
ghost use Rattle.c_parser_rules.specs.Programs.{Sort, Rule};
ghost use Rattle.c_parser_rules.specs.Bodies.{body};
ghost use Rattle.c_parser_expressions.specs.Reads.{Reads};

use crate::trees;
use c_parser_expressions::cursor::{Cursor, LEVELS, Stop};
use c_parser_expressions::expression::assignment;
use c_words::words::Punctuator;
use std::alloc::Global;
use syntax_tree::syntax::Initializer;

/// An initializer (C11 6.7.9).
#[cycle(initializer)]
pub fn initializer(alloc: Global, cursor: &mut Cursor<'_>, depth: u32) -> Result<Initializer, Stop>
    requires { depth ≤ 200 }
    ensures { Reads Sort.initializer (body (Rule.initializer depth)) initializer_tree cursor.old result cursor.new }
{
    if !cursor.sees(Punctuator::OpenBrace) {
        let value = assignment(alloc, cursor, depth)?;
        return Ok(trees::single(value.into_expression()));
    }
    let at = cursor.take_mark(Punctuator::OpenBrace, depth < LEVELS)?;
    let parts = parts(alloc, cursor, depth + 1)?;
    cursor.take_mark(Punctuator::CloseBrace, true)?;
    Ok(trees::braced(at, parts))
}

// Parts in braces, and a comma behind them or not.
#[cycle(initializer)]
fn parts(alloc: Global, cursor: &mut Cursor<'_>, depth: u32) -> Result<Vec<Initializer>, Stop>
    requires { depth ≤ 200 }
    ensures { Reads Sort.initializers (body (Rule.parts depth)) (λ v. initializer_trees v.items) cursor.old result cursor.new }
{
    let mut parts = Vec::new(alloc);
    'parts: loop {
        let part = initializer(alloc, cursor, depth)?;
        parts.push(part)?;
        if !cursor.sees(Punctuator::Comma) {
            return Ok(parts);
        }
        cursor.take_mark(Punctuator::Comma, true)?;
        if cursor.sees(Punctuator::CloseBrace) {
            return Ok(parts);
        }
    }
}
