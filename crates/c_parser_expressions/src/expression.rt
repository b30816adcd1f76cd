//! Expressions, and the type names in them: a function for each rule of the grammar.
ghost use Rattle.std.specs.Prelude.{◌≡◌, ◌≤◌, ◌<◌, suc, true, Some, length, IfOk};
ghost use Rattle.c_words.specs.Tokens as tokens;
ghost use Rattle.c_words.specs.declared.words.Punctuator.TheVariants as marks;
ghost use Rattle.c_words.specs.declared.words.Keyword.TheVariants as words;
ghost use Rattle.syntax_tree.specs.Syntax.{ExpressionTree, TypeDeclaratorTree};
ghost use Rattle.syntax_tree.specs.SyntaxViews.{expression_tree, expression_trees, type_name_tree, type_declarator_tree};
ghost use Rattle.c_parser_rules.specs.Programs.{Sort, Rule, Program};
ghost use Rattle.c_parser_rules.specs.Tests.{first};
ghost use Rattle.c_parser_expressions.specs.Parts as parts;
ghost use Rattle.c_parser_expressions.specs.Parts.{begins_behind};
ghost use Rattle.c_parser_rules.specs.Bodies.{body};
ghost use Rattle.c_parser_rules.specs.Bodies as bodies;
ghost use Rattle.c_parser_expressions.specs.Reads.{Reads, Leads};

use crate::cursor::{Cursor, LEVELS, Stop};
use crate::leaf::leaf;
use crate::measured::{Arguments, Measured};
use crate::operator::{assign_operator, binary_operator, step_operator, unary_operator};
use crate::postfix::{arrow, decrement, increment, member, sees_suffix};
use crate::specifier::{direct, is_nothing, specifier, stars, type_name_of};
use c_words::place::At;
use c_words::words::{Keyword, Punctuator};
use std::alloc::Global;
use syntax_tree::syntax::{Expression, TypeDeclarator, TypeName};

/// The strength of the operators between two operands that bind weakest.
const WEAKEST: u32 = 10;

/// An expression (C11 6.5.17), where so many levels are open.
#[cycle(expression)]
pub fn expression(alloc: Global, cursor: &mut Cursor<'_>, depth: u32) -> Result<Measured, Stop>
    requires { depth ≤ 200 }
    ensures { Reads Sort.expression (body (Rule.expression depth)) expression_tree cursor.old result cursor.new }
{
    let mut left = assignment(alloc, cursor, depth)?;
    while cursor.sees(Punctuator::Comma) {
        let at = cursor.take_next(left.is_low())?;
        let right = assignment(alloc, cursor, depth)?;
        left = Measured::comma(alloc, at, left, right)?;
    }
    Ok(left)
}

/// An assignment expression (C11 6.5.16).
#[cycle(expression)]
pub fn assignment(alloc: Global, cursor: &mut Cursor<'_>, depth: u32) -> Result<Measured, Stop>
    requires { depth ≤ 200 }
    ensures { Reads Sort.expression (body (Rule.assignment depth)) expression_tree cursor.old result cursor.new }
{
    let left = conditional(alloc, cursor, depth)?;
    match assign_operator(cursor) {
        None => Ok(left),
        Some(operator) => {
            let at = cursor.take_next(left.may_open(depth))?;
            let right = assignment(alloc, cursor, depth + 1)?;
            Ok(Measured::assign(alloc, at, left, operator, right)?)
        }
    }
}

/// A conditional expression (C11 6.5.15).
#[cycle(expression)]
pub fn conditional(alloc: Global, cursor: &mut Cursor<'_>, depth: u32) -> Result<Measured, Stop>
    requires { depth ≤ 200 }
    ensures { Reads Sort.expression (body (Rule.conditional depth)) expression_tree cursor.old result cursor.new }
{
    let condition = binary(alloc, cursor, depth, WEAKEST)?;
    if !cursor.sees(Punctuator::Question) {
        return Ok(condition);
    }
    let at = cursor.take_next(condition.may_open(depth))?;
    let then = expression(alloc, cursor, depth + 1)?;
    cursor.take_mark(Punctuator::Colon, true)?;
    let otherwise = conditional(alloc, cursor, depth + 1)?;
    Ok(Measured::conditional(alloc, at, condition, then, otherwise)?)
}

// Operands with operators of this strength at most between them (C11 6.5.5 to 6.5.14).
#[cycle(expression)]
fn binary(
    alloc: Global,
    cursor: &mut Cursor<'_>,
    depth: u32,
    strength: u32,
) -> Result<Measured, Stop>
    requires { depth ≤ 200 }
    ensures { Reads Sort.expression (body (Rule.binary strength depth)) expression_tree cursor.old result cursor.new }
{
    if strength == 0 {
        return cast(alloc, cursor, depth);
    }
    let mut left = binary(alloc, cursor, depth, strength - 1)?;
    while let Some(operator) = binary_operator(cursor, strength) {
        let at = cursor.take_next(left.is_low())?;
        let right = binary(alloc, cursor, depth, strength - 1)?;
        left = Measured::binary(alloc, at, left, operator, right)?;
    }
    Ok(left)
}

// A cast expression (C11 6.5.4).
#[cycle(expression)]
fn cast(alloc: Global, cursor: &mut Cursor<'_>, depth: u32) -> Result<Measured, Stop>
    requires { depth ≤ 200 }
    ensures { Reads Sort.expression (body (Rule.cast depth)) expression_tree cursor.old result cursor.new }
{
    if !cursor.sees(Punctuator::OpenParen) {
        return unary(alloc, cursor, depth);
    }
    let at = cursor.take_next(depth < LEVELS)?;
    if cursor.sees_type() {
        return converted(alloc, cursor, depth, at);
    }
    let operand = parenthesized(alloc, cursor, depth, at)?;
    postfix_rest(alloc, cursor, depth, operand)
}

// The type name and the operand of a cast, whose `(` stands here.
#[cycle(expression)]
fn converted(alloc: Global, cursor: &mut Cursor<'_>, depth: u32, at: At) -> Result<Measured, Stop>
    requires { depth < 200 }
    ensures { Reads Sort.expression (parts.converted depth at) expression_tree cursor.old result cursor.new }
{
    let to = type_name(alloc, cursor, depth + 1)?;
    cursor.take_mark(Punctuator::CloseParen, true)?;
    let operand = cast(alloc, cursor, depth + 1)?;
    Ok(Measured::cast(alloc, at, to, operand)?)
}

// A unary expression (C11 6.5.3).
#[cycle(expression)]
fn unary(alloc: Global, cursor: &mut Cursor<'_>, depth: u32) -> Result<Measured, Stop>
    requires { depth ≤ 200 }
    ensures { Reads Sort.expression (body (Rule.unary depth)) expression_tree cursor.old result cursor.new }
{
    if let Some(operator) = step_operator(cursor) {
        let at = cursor.take_next(depth < LEVELS)?;
        let operand = unary(alloc, cursor, depth + 1)?;
        return Ok(Measured::step_before(alloc, at, operator, operand)?);
    }
    if let Some(operator) = unary_operator(cursor) {
        let at = cursor.take_next(depth < LEVELS)?;
        let operand = cast(alloc, cursor, depth + 1)?;
        return Ok(Measured::unary(alloc, at, operator, operand)?);
    }
    if cursor.sees_word(Keyword::Sizeof) {
        let at = cursor.take_next(depth < LEVELS)?;
        return sizeof(alloc, cursor, depth, at);
    }
    postfix(alloc, cursor, depth)
}

// What follows a `sizeof` that stands here (C11 6.5.3.4).
#[cycle(expression)]
fn sizeof(alloc: Global, cursor: &mut Cursor<'_>, depth: u32, at: At) -> Result<Measured, Stop>
    requires { depth < 200 }
    ensures { Reads Sort.expression (Program.look (bodies.sizeof_by depth at)) expression_tree cursor.old result cursor.new }
{
    if !cursor.sees(Punctuator::OpenParen) {
        let operand = unary(alloc, cursor, depth + 1)?;
        return Ok(Measured::sizeof_expression(alloc, at, operand)?);
    }
    let from = cursor.take_next(depth + 1 < LEVELS)?;
    if cursor.sees_type() {
        let measured = type_name(alloc, cursor, depth + 2)?;
        cursor.take_mark(Punctuator::CloseParen, true)?;
        return Ok(Measured::sizeof_type(at, measured));
    }
    let inner = parenthesized(alloc, cursor, depth + 1, from)?;
    let operand = postfix_rest(alloc, cursor, depth + 1, inner)?;
    Ok(Measured::sizeof_expression(alloc, at, operand)?)
}

// A postfix expression (C11 6.5.2).
#[cycle(expression)]
fn postfix(alloc: Global, cursor: &mut Cursor<'_>, depth: u32) -> Result<Measured, Stop>
    requires { depth ≤ 200 }
    ensures { Reads Sort.expression (body (Rule.postfix depth)) expression_tree cursor.old result cursor.new }
{
    let operand = primary(alloc, cursor, depth)?;
    postfix_rest(alloc, cursor, depth, operand)
}

// An operand with what follows it.
#[cycle(expression)]
fn postfix_rest(
    alloc: Global,
    cursor: &mut Cursor<'_>,
    depth: u32,
    first_operand: Measured,
) -> Result<Measured, Stop>
    requires { depth ≤ 200 }
    ensures { Reads Sort.expression (body (Rule.postfix_rest depth (expression_tree first_operand))) expression_tree cursor.old result cursor.new }
{
    let mut operand = first_operand;
    while sees_suffix(cursor) {
        operand = suffixed(alloc, cursor, depth, operand)?;
    }
    Ok(operand)
}

// An operand with one thing behind it.
#[cycle(expression)]
fn suffixed(
    alloc: Global,
    cursor: &mut Cursor<'_>,
    depth: u32,
    operand: Measured,
) -> Result<Measured, Stop>
    requires within { depth ≤ 200 }
    requires begins { begins_behind (first cursor.now) ≡ true }
    ensures leads { Leads Sort.expression (body (Rule.postfix_rest depth (expression_tree operand)))
        (λ e. body (Rule.postfix_rest depth (expression_tree e))) expression_tree cursor.old result cursor.new }
    ensures fewer { IfOk result (λ _. length cursor.new < length cursor.old) }
{
    if cursor.sees(Punctuator::OpenBracket) {
        return index(alloc, cursor, depth, operand);
    }
    if cursor.sees(Punctuator::OpenParen) {
        return call(alloc, cursor, depth, operand);
    }
    if cursor.sees(Punctuator::Dot) {
        return member(alloc, cursor, operand);
    }
    if cursor.sees(Punctuator::Arrow) {
        return arrow(alloc, cursor, operand);
    }
    if cursor.sees(Punctuator::PlusPlus) {
        return increment(alloc, cursor, operand);
    }
    decrement(alloc, cursor, operand)
}

// An operand with an index behind it (C11 6.5.2.1).
#[cycle(expression)]
fn index(
    alloc: Global,
    cursor: &mut Cursor<'_>,
    depth: u32,
    array: Measured,
) -> Result<Measured, Stop>
    requires within { depth ≤ 200 }
    requires begins { first cursor.now ≡ Some (tokens.Token.Punctuator marks.OpenBracket) }
    ensures leads { Leads Sort.expression (body (Rule.postfix_rest depth (expression_tree array)))
        (λ e. body (Rule.postfix_rest depth (expression_tree e))) expression_tree cursor.old result cursor.new }
    ensures fewer { IfOk result (λ _. length cursor.new < length cursor.old) }
{
    let at = cursor.take_next(array.may_open(depth))?;
    let index = expression(alloc, cursor, depth + 1)?;
    cursor.take_mark(Punctuator::CloseBracket, true)?;
    Ok(Measured::index(alloc, at, array, index)?)
}

// An operand with arguments behind it (C11 6.5.2.2).
#[cycle(expression)]
fn call(
    alloc: Global,
    cursor: &mut Cursor<'_>,
    depth: u32,
    called: Measured,
) -> Result<Measured, Stop>
    requires within { depth ≤ 200 }
    requires begins { first cursor.now ≡ Some (tokens.Token.Punctuator marks.OpenParen) }
    ensures leads { Leads Sort.expression (body (Rule.postfix_rest depth (expression_tree called)))
        (λ e. body (Rule.postfix_rest depth (expression_tree e))) expression_tree cursor.old result cursor.new }
    ensures fewer { IfOk result (λ _. length cursor.new < length cursor.old) }
{
    let from = cursor.take_next(called.may_open(depth))?;
    let arguments = arguments(alloc, cursor, depth + 1)?;
    cursor.take_mark(Punctuator::CloseParen, true)?;
    let at = called.call_at(from);
    Ok(Measured::call(alloc, at, called, arguments)?)
}

// A primary expression (C11 6.5.1).
#[cycle(expression)]
fn primary(alloc: Global, cursor: &mut Cursor<'_>, depth: u32) -> Result<Measured, Stop>
    requires { depth ≤ 200 }
    ensures { Reads Sort.expression (body (Rule.primary depth)) expression_tree cursor.old result cursor.new }
{
    if !cursor.sees(Punctuator::OpenParen) {
        return leaf(alloc, cursor);
    }
    let at = cursor.take_next(depth < LEVELS)?;
    parenthesized(alloc, cursor, depth, at)
}

// What follows a `(` that stands here, up to its `)`.
#[cycle(expression)]
fn parenthesized(
    alloc: Global,
    cursor: &mut Cursor<'_>,
    depth: u32,
    at: At,
) -> Result<Measured, Stop>
    requires { depth < 200 }
    ensures { Reads Sort.expression (body (Rule.parenthesized depth at)) expression_tree cursor.old result cursor.new }
{
    let inner = expression(alloc, cursor, depth + 1)?;
    cursor.take_mark(Punctuator::CloseParen, true)?;
    Ok(Measured::parenthesized(alloc, at, inner)?)
}

// The arguments of a call, up to its `)`.
#[cycle(expression)]
fn arguments(alloc: Global, cursor: &mut Cursor<'_>, depth: u32) -> Result<Arguments, Stop>
    requires { depth ≤ 200 }
    ensures { Reads Sort.expressions (body (Rule.arguments depth)) expression_trees cursor.old result cursor.new }
{
    let mut arguments = Arguments::new(alloc);
    if cursor.sees(Punctuator::CloseParen) {
        return Ok(arguments);
    }
    let argument = assignment(alloc, cursor, depth)?;
    arguments.push(argument)?;
    while cursor.sees(Punctuator::Comma) {
        cursor.take_next(true)?;
        let argument = assignment(alloc, cursor, depth)?;
        arguments.push(argument)?;
    }
    Ok(arguments)
}

// A type name (C11 6.7.7).
#[cycle(expression)]
fn type_name(alloc: Global, cursor: &mut Cursor<'_>, depth: u32) -> Result<TypeName, Stop>
    requires { depth ≤ 200 }
    ensures { Reads Sort.type_name (body (Rule.type_name depth)) type_name_tree cursor.old result cursor.new }
{
    let specifier = specifier(alloc, cursor)?;
    let declarator = type_declarator(alloc, cursor, depth, specifier.at())?;
    Ok(type_name_of(specifier, declarator))
}

// The declarator of a type name whose specifier stands here.
#[cycle(expression)]
fn type_declarator(
    alloc: Global,
    cursor: &mut Cursor<'_>,
    depth: u32,
    at: At,
) -> Result<TypeDeclarator, Stop>
    requires { depth ≤ 200 }
    ensures { Reads Sort.type_declarator (body (Rule.type_declarator depth at)) type_declarator_tree cursor.old result cursor.new }
{
    let stars = stars(cursor, depth)?;
    if cursor.sees(Punctuator::OpenParen) {
        return nested(alloc, cursor, depth + stars, at, stars);
    }
    let sizes = sizes(alloc, cursor, depth + stars)?;
    Ok(direct(at, stars, sizes))
}

// The brackets of such a declarator, and the array sizes behind them.
#[cycle(expression)]
fn nested(
    alloc: Global,
    cursor: &mut Cursor<'_>,
    depth: u32,
    at: At,
    stars: u32,
) -> Result<TypeDeclarator, Stop>
    requires within { depth ≤ 200 }
    requires begins { first cursor.now ≡ Some (tokens.Token.Punctuator marks.OpenParen) }
    ensures { Reads Sort.type_declarator (parts.nested depth at stars) type_declarator_tree cursor.old result cursor.new }
{
    cursor.take_next(depth < LEVELS)?;
    let inner = type_declarator(alloc, cursor, depth + 1, at)?;
    if is_nothing(&inner) {
        return Err(Stop::Syntax);
    }
    cursor.take_mark(Punctuator::CloseParen, true)?;
    let sizes = sizes(alloc, cursor, depth)?;
    Ok(TypeDeclarator::nested(alloc, at, stars, inner, sizes)?)
}

// Array sizes in a type name.
#[cycle(expression)]
fn sizes(alloc: Global, cursor: &mut Cursor<'_>, depth: u32) -> Result<Vec<Expression>, Stop>
    requires { depth ≤ 200 }
    ensures { Reads Sort.expressions (body (Rule.sizes depth)) (λ v. expression_trees v.items) cursor.old result cursor.new }
{
    let mut sizes = Vec::new(alloc);
    while cursor.sees(Punctuator::OpenBracket) {
        cursor.take_next(depth < LEVELS)?;
        let size = conditional(alloc, cursor, depth + 1)?;
        cursor.take_mark(Punctuator::CloseBracket, true)?;
        sizes.push(size.into_expression())?;
    }
    Ok(sizes)
}
