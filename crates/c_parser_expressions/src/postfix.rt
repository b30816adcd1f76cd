//! What follows an operand: whether anything does, and what has no expression in it, members, `++` and `--`.
ghost use Rattle.std.specs.Prelude.{◌≡◌, ◌<◌, ℕ, Some, length, IfOk};
ghost use Rattle.c_words.specs.Tokens as tokens;
ghost use Rattle.c_words.specs.declared.words.Punctuator.TheVariants as marks;
ghost use Rattle.syntax_tree.specs.SyntaxViews.{expression_tree};
ghost use Rattle.c_parser_rules.specs.Programs.{Sort, Rule};
ghost use Rattle.c_parser_rules.specs.Tests.{first};
ghost use Rattle.c_parser_expressions.specs.Parts.{begins_behind};
ghost use Rattle.c_parser_rules.specs.Bodies.{body};
ghost use Rattle.c_parser_expressions.specs.Reads.{Leads};

use crate::cursor::{Cursor, Stop};
use crate::leaf::identifier;
use crate::measured::Measured;
use c_words::operators::StepOperator;
use c_words::words::Punctuator;
use std::alloc::Global;

/// Whether something comes next that may follow an operand.
pub fn sees_suffix(cursor: &Cursor<'_>) -> bool
    ensures { result ≡ begins_behind (first cursor.now) }
{
    matches!(
        cursor.mark(),
        Some(
            Punctuator::OpenBracket
                | Punctuator::OpenParen
                | Punctuator::Dot
                | Punctuator::Arrow
                | Punctuator::PlusPlus
                | Punctuator::MinusMinus
        )
    )
}

/// An operand with `.` and a member behind it (C11 6.5.2.3).
pub fn member(alloc: Global, cursor: &mut Cursor<'_>, operand: Measured) -> Result<Measured, Stop>
    requires { first cursor.now ≡ Some (tokens.Token.Punctuator marks.Dot) }
    ensures leads { (depth : ℕ) → Leads Sort.expression (body (Rule.postfix_rest depth (expression_tree operand)))
        (λ e. body (Rule.postfix_rest depth (expression_tree e))) expression_tree cursor.old result cursor.new }
    ensures fewer { IfOk result (λ _. length cursor.new < length cursor.old) }
{
    let at = cursor.take_next(operand.is_low())?;
    let name = identifier(alloc, cursor)?;
    Ok(Measured::member(alloc, at, operand, name.0)?)
}

/// An operand with `->` and a member behind it (C11 6.5.2.3).
pub fn arrow(alloc: Global, cursor: &mut Cursor<'_>, operand: Measured) -> Result<Measured, Stop>
    requires { first cursor.now ≡ Some (tokens.Token.Punctuator marks.Arrow) }
    ensures leads { (depth : ℕ) → Leads Sort.expression (body (Rule.postfix_rest depth (expression_tree operand)))
        (λ e. body (Rule.postfix_rest depth (expression_tree e))) expression_tree cursor.old result cursor.new }
    ensures fewer { IfOk result (λ _. length cursor.new < length cursor.old) }
{
    let at = cursor.take_next(operand.is_low())?;
    let name = identifier(alloc, cursor)?;
    Ok(Measured::arrow(alloc, at, operand, name.0)?)
}

/// An operand with `++` behind it (C11 6.5.2.4).
pub fn increment(
    alloc: Global,
    cursor: &mut Cursor<'_>,
    operand: Measured,
) -> Result<Measured, Stop>
    requires { first cursor.now ≡ Some (tokens.Token.Punctuator marks.PlusPlus) }
    ensures leads { (depth : ℕ) → Leads Sort.expression (body (Rule.postfix_rest depth (expression_tree operand)))
        (λ e. body (Rule.postfix_rest depth (expression_tree e))) expression_tree cursor.old result cursor.new }
    ensures fewer { IfOk result (λ _. length cursor.new < length cursor.old) }
{
    let at = cursor.take_next(operand.is_low())?;
    Ok(Measured::step_after(alloc, at, operand, StepOperator::Increment)?)
}

/// An operand with `--` behind it (C11 6.5.2.4).
pub fn decrement(
    alloc: Global,
    cursor: &mut Cursor<'_>,
    operand: Measured,
) -> Result<Measured, Stop>
    requires { first cursor.now ≡ Some (tokens.Token.Punctuator marks.MinusMinus) }
    ensures leads { (depth : ℕ) → Leads Sort.expression (body (Rule.postfix_rest depth (expression_tree operand)))
        (λ e. body (Rule.postfix_rest depth (expression_tree e))) expression_tree cursor.old result cursor.new }
    ensures fewer { IfOk result (λ _. length cursor.new < length cursor.old) }
{
    let at = cursor.take_next(operand.is_low())?;
    Ok(Measured::step_after(alloc, at, operand, StepOperator::Decrement)?)
}
