//! Statements and blocks. A statement comes with whether it ends in an `if` without `else`, behind which no `else` may
//! stand.
ghost use Rattle.std.specs.Prelude.{◌≤◌, ◌<◌, Some};
ghost use Rattle.c_words.specs.Tokens as tokens;
ghost use Rattle.c_words.specs.declared.words.Punctuator.TheVariants as marks;
ghost use Rattle.c_words.specs.declared.words.Keyword.TheVariants as words;
ghost use Rattle.syntax_tree.specs.SyntaxViews.{expression_tree, statement_tree, block_tree, block_item_tree, block_item_trees};
ghost use Rattle.c_parser_rules.specs.Programs.{Sort, Rule};
ghost use Rattle.c_parser_rules.specs.Bodies.{body};
ghost use Rattle.c_parser_rules.specs.Bodies as bodies;
ghost use Rattle.c_parser_expressions.specs.Reads.{Reads};

use crate::declaration::declaration;
use crate::simple::{for_start, optional_step, optional_value, simple};
use crate::trees;
use c_parser_expressions::cursor::{Cursor, LEVELS, Stop};
use c_parser_expressions::expression::expression;
use c_words::place::At;
use c_words::words::{Keyword, Punctuator};
use std::alloc::Global;
use syntax_tree::syntax::{Block, BlockItem, Expression, Statement};

/// A statement (C11 6.8).
#[cycle(statement)]
pub fn statement(
    alloc: Global,
    cursor: &mut Cursor<'_>,
    depth: u32,
) -> Result<(Statement, bool), Stop>
    requires { depth ≤ 200 }
    ensures { Reads Sort.statement (body (Rule.statement depth)) (λ x. (statement_tree x.0, x.1)) cursor.old result cursor.new }
{
    if cursor.sees(Punctuator::OpenBrace) {
        let block = block(alloc, cursor, depth)?;
        return Ok((trees::block_statement(block), false));
    }
    if cursor.sees_word(Keyword::If) {
        return if_statement(alloc, cursor, depth);
    }
    if cursor.sees_word(Keyword::While) {
        return while_statement(alloc, cursor, depth);
    }
    if cursor.sees_word(Keyword::Do) {
        return do_statement(alloc, cursor, depth);
    }
    if cursor.sees_word(Keyword::For) {
        return for_statement(alloc, cursor, depth);
    }
    simple(alloc, cursor, depth)
}

// A statement as a part of another one, in memory of its own.
#[cycle(statement)]
fn inner(alloc: Global, cursor: &mut Cursor<'_>, depth: u32) -> Result<(Box<Statement>, bool), Stop>
    requires { depth ≤ 200 }
    ensures { Reads Sort.statement (body (Rule.statement depth)) (λ x. (statement_tree x.0.value, x.1)) cursor.old result cursor.new }
{
    let (statement, is_open) = statement(alloc, cursor, depth)?;
    let statement = statement.boxed(alloc)?;
    Ok((statement, is_open))
}

// `if` (C11 6.8.4.1)
#[cycle(statement)]
fn if_statement(
    alloc: Global,
    cursor: &mut Cursor<'_>,
    depth: u32,
) -> Result<(Statement, bool), Stop>
    requires { depth ≤ 200 }
    ensures { Reads Sort.statement (bodies.statement_by depth (Some (tokens.Token.Keyword words.If)))
        (λ x. (statement_tree x.0, x.1)) cursor.old result cursor.new }
{
    let at = cursor.take_word(Keyword::If)?;
    cursor.take_mark(Punctuator::OpenParen, depth < LEVELS)?;
    let condition = expression(alloc, cursor, depth + 1)?;
    cursor.take_mark(Punctuator::CloseParen, true)?;
    let (then, is_open) = inner(alloc, cursor, depth + 1)?;
    let condition = condition.into_expression();
    otherwise(alloc, cursor, depth, at, condition, then, is_open)
}

// What follows the statement behind an `if`: `else`, or nothing.
#[cycle(statement)]
fn otherwise(
    alloc: Global,
    cursor: &mut Cursor<'_>,
    depth: u32,
    at: At,
    condition: Expression,
    then: Box<Statement>,
    is_open: bool,
) -> Result<(Statement, bool), Stop>
    requires { depth < 200 }
    ensures { Reads Sort.statement (bodies.else_by at (expression_tree condition) depth (statement_tree then.value, is_open))
        (λ x. (statement_tree x.0, x.1)) cursor.old result cursor.new }
{
    if is_open {
        return Ok((trees::only_if(at, condition, then), true));
    }
    if !cursor.sees_word(Keyword::Else) {
        return Ok((trees::only_if(at, condition, then), true));
    }
    cursor.take_word(Keyword::Else)?;
    let (other, is_open) = inner(alloc, cursor, depth + 1)?;
    Ok((trees::if_else(at, condition, then, other), is_open))
}

// `while` (C11 6.8.5.1)
#[cycle(statement)]
fn while_statement(
    alloc: Global,
    cursor: &mut Cursor<'_>,
    depth: u32,
) -> Result<(Statement, bool), Stop>
    requires { depth ≤ 200 }
    ensures { Reads Sort.statement (bodies.statement_by depth (Some (tokens.Token.Keyword words.While)))
        (λ x. (statement_tree x.0, x.1)) cursor.old result cursor.new }
{
    let at = cursor.take_word(Keyword::While)?;
    cursor.take_mark(Punctuator::OpenParen, depth < LEVELS)?;
    let condition = expression(alloc, cursor, depth + 1)?;
    cursor.take_mark(Punctuator::CloseParen, true)?;
    let (body, is_open) = inner(alloc, cursor, depth + 1)?;
    Ok((
        trees::while_loop(at, condition.into_expression(), body),
        is_open,
    ))
}

// `do` (C11 6.8.5.2)
#[cycle(statement)]
fn do_statement(
    alloc: Global,
    cursor: &mut Cursor<'_>,
    depth: u32,
) -> Result<(Statement, bool), Stop>
    requires { depth ≤ 200 }
    ensures { Reads Sort.statement (bodies.statement_by depth (Some (tokens.Token.Keyword words.Do)))
        (λ x. (statement_tree x.0, x.1)) cursor.old result cursor.new }
{
    let at = cursor.take_word(Keyword::Do)?;
    if !cursor.sees_statement() {
        return Err(Stop::Syntax);
    }
    if depth >= LEVELS {
        return Err(Stop::TooDeep);
    }
    let (body, _) = inner(alloc, cursor, depth + 1)?;
    cursor.take_word(Keyword::While)?;
    cursor.take_mark(Punctuator::OpenParen, true)?;
    let condition = expression(alloc, cursor, depth + 1)?;
    cursor.take_mark(Punctuator::CloseParen, true)?;
    cursor.take_mark(Punctuator::Semicolon, true)?;
    Ok((
        trees::do_while(at, body, condition.into_expression()),
        false,
    ))
}

// `for` (C11 6.8.5.3)
#[cycle(statement)]
fn for_statement(
    alloc: Global,
    cursor: &mut Cursor<'_>,
    depth: u32,
) -> Result<(Statement, bool), Stop>
    requires { depth ≤ 200 }
    ensures { Reads Sort.statement (bodies.statement_by depth (Some (tokens.Token.Keyword words.For)))
        (λ x. (statement_tree x.0, x.1)) cursor.old result cursor.new }
{
    let at = cursor.take_word(Keyword::For)?;
    cursor.take_mark(Punctuator::OpenParen, depth < LEVELS)?;
    let start = for_start(alloc, cursor, depth + 1)?;
    let condition = optional_value(alloc, cursor, depth + 1)?;
    cursor.take_mark(Punctuator::Semicolon, true)?;
    let step = optional_step(alloc, cursor, depth + 1)?;
    cursor.take_mark(Punctuator::CloseParen, true)?;
    let (body, is_open) = inner(alloc, cursor, depth + 1)?;
    Ok((trees::for_loop(at, start, condition, step, body), is_open))
}

/// A block (C11 6.8.2).
#[cycle(statement)]
pub fn block(alloc: Global, cursor: &mut Cursor<'_>, depth: u32) -> Result<Block, Stop>
    requires { depth ≤ 200 }
    ensures { Reads Sort.block (body (Rule.block depth)) block_tree cursor.old result cursor.new }
{
    let at = cursor.take_mark(Punctuator::OpenBrace, depth < LEVELS)?;
    let items = items(alloc, cursor, depth + 1)?;
    cursor.take_mark(Punctuator::CloseBrace, true)?;
    Ok(trees::block(at, items))
}

// What stands in a block.
#[cycle(statement)]
fn items(alloc: Global, cursor: &mut Cursor<'_>, depth: u32) -> Result<Vec<BlockItem>, Stop>
    requires { depth ≤ 200 }
    ensures { Reads Sort.block_items (body (Rule.items depth)) (λ v. block_item_trees v.items) cursor.old result cursor.new }
{
    let mut items = Vec::new(alloc);
    'items: while !cursor.sees(Punctuator::CloseBrace) {
        let item = item(alloc, cursor, depth)?;
        items.push(item)?;
    }
    Ok(items)
}

// A declaration or a statement in a block.
#[cycle(statement)]
fn item(alloc: Global, cursor: &mut Cursor<'_>, depth: u32) -> Result<BlockItem, Stop>
    requires { depth ≤ 200 }
    ensures { Reads Sort.block_item (body (Rule.item depth)) block_item_tree cursor.old result cursor.new }
{
    if cursor.sees_type() {
        let declaration = declaration(alloc, cursor, depth)?;
        return Ok(trees::declaration_item(declaration));
    }
    let (statement, _) = statement(alloc, cursor, depth)?;
    Ok(trees::statement_item(statement))
}
