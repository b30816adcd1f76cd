//! Statements with no other statement in them, and how a `for` begins.
ghost use Rattle.std.specs.Prelude.{◌≡◌, ◌≤◌, false, option_map};
ghost use Rattle.syntax_tree.specs.SyntaxViews.{expression_tree, for_start_tree, statement_tree};
ghost use Rattle.c_parser_rules.specs.Programs.{Sort, Rule};
ghost use Rattle.c_parser_rules.specs.Tests.{first, is_semicolon, is_close_paren, is_compound};
ghost use Rattle.c_parser_rules.specs.Bodies.{body};
ghost use Rattle.c_parser_rules.specs.Bodies as bodies;
ghost use Rattle.c_parser_expressions.specs.Reads.{Reads};

use crate::declaration::declaration;
use crate::trees;
use c_parser_expressions::cursor::{Cursor, Stop};
use c_parser_expressions::expression::expression;
use c_words::words::{Keyword, Punctuator};
use std::alloc::Global;
use syntax_tree::syntax::{Expression, ForStart, Statement};

/// The expression in front of a `;`, where there is one.
pub fn optional_value(
    alloc: Global,
    cursor: &mut Cursor<'_>,
    depth: u32,
) -> Result<Option<Expression>, Stop>
    requires { depth ≤ 200 }
    ensures { Reads (Sort.optional Sort.expression) (body (Rule.optionally is_semicolon (Rule.expression depth)))
        (option_map expression_tree) cursor.old result cursor.new }
{
    if cursor.sees(Punctuator::Semicolon) {
        return Ok(None);
    }
    let value = expression(alloc, cursor, depth)?;
    Ok(Some(value.into_expression()))
}

/// The expression in front of a `)`, where there is one.
pub fn optional_step(
    alloc: Global,
    cursor: &mut Cursor<'_>,
    depth: u32,
) -> Result<Option<Expression>, Stop>
    requires { depth ≤ 200 }
    ensures { Reads (Sort.optional Sort.expression) (body (Rule.optionally is_close_paren (Rule.expression depth)))
        (option_map expression_tree) cursor.old result cursor.new }
{
    if cursor.sees(Punctuator::CloseParen) {
        return Ok(None);
    }
    let value = expression(alloc, cursor, depth)?;
    Ok(Some(value.into_expression()))
}

/// How a `for` begins (C11 6.8.5.3).
pub fn for_start(alloc: Global, cursor: &mut Cursor<'_>, depth: u32) -> Result<ForStart, Stop>
    requires { depth ≤ 200 }
    ensures { Reads Sort.for_start (body (Rule.for_start depth)) for_start_tree cursor.old result cursor.new }
{
    if cursor.sees_type() {
        let declaration = declaration(alloc, cursor, depth)?;
        return Ok(ForStart::Declaration(declaration));
    }
    let value = optional_value(alloc, cursor, depth)?;
    cursor.take_mark(Punctuator::Semicolon, true)?;
    Ok(ForStart::Expression(value))
}

// An expression and its `;`.
fn value(alloc: Global, cursor: &mut Cursor<'_>, depth: u32) -> Result<(Statement, bool), Stop>
    requires { depth ≤ 200 }
    ensures { Reads Sort.statement (bodies.value_statement depth (first cursor.old)) (λ x. (statement_tree x.0, x.1)) cursor.old result cursor.new }
{
    let at = match cursor.next_at() {
        None => return Err(Stop::Syntax),
        Some(at) => at,
    };
    let value = expression(alloc, cursor, depth)?;
    cursor.take_mark(Punctuator::Semicolon, true)?;
    Ok((trees::value_statement(at, value.into_expression()), false))
}

/// A statement that does not begin as one with another statement in it.
pub fn simple(alloc: Global, cursor: &mut Cursor<'_>, depth: u32) -> Result<(Statement, bool), Stop>
    requires depth { depth ≤ 200 }
    requires simple { is_compound (first cursor.now) ≡ false }
    ensures { Reads Sort.statement (body (Rule.statement depth)) (λ x. (statement_tree x.0, x.1)) cursor.old result cursor.new }
{
    if cursor.sees(Punctuator::Semicolon) {
        let at = cursor.take_next(true)?;
        return Ok((trees::empty(at), false));
    }
    if cursor.sees_word(Keyword::Break) {
        let at = cursor.take_next(true)?;
        cursor.take_mark(Punctuator::Semicolon, true)?;
        return Ok((trees::break_statement(at), false));
    }
    if cursor.sees_word(Keyword::Continue) {
        let at = cursor.take_next(true)?;
        cursor.take_mark(Punctuator::Semicolon, true)?;
        return Ok((trees::continue_statement(at), false));
    }
    if cursor.sees_word(Keyword::Return) {
        let at = cursor.take_next(true)?;
        let value = optional_value(alloc, cursor, depth)?;
        cursor.take_mark(Punctuator::Semicolon, true)?;
        return Ok((trees::return_statement(at, value), false));
    }
    value(alloc, cursor, depth)
}
