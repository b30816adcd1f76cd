//! The operators that a punctuator can be.
ghost use Rattle.std.specs.Prelude.{◌≡◌};
ghost use Rattle.syntax_tree.specs.GrammarTokens as grammar;
ghost use Rattle.c_parser_rules.specs.Tests.{first};
ghost use Rattle.c_parser_expressions.specs.Reads.{assign_of, step_of, unary_of, binary_of};

use crate::cursor::Cursor;
use c_words::operators::{AssignOperator, BinaryOperator, StepOperator, UnaryOperator};
use c_words::words::Punctuator;

/// The assignment operator (C11 6.5.16) that comes next, if one does.
pub fn assign_operator(cursor: &Cursor<'_>) -> Option<AssignOperator>
    ensures { result ≡ assign_of (first cursor.now) }
{
    match cursor.mark()? {
        Punctuator::Equal => Some(AssignOperator::Assign),
        Punctuator::StarEqual => Some(AssignOperator::Multiply),
        Punctuator::SlashEqual => Some(AssignOperator::Divide),
        Punctuator::PercentEqual => Some(AssignOperator::Remainder),
        Punctuator::PlusEqual => Some(AssignOperator::Add),
        Punctuator::MinusEqual => Some(AssignOperator::Subtract),
        Punctuator::ShiftLeftEqual => Some(AssignOperator::ShiftLeft),
        Punctuator::ShiftRightEqual => Some(AssignOperator::ShiftRight),
        Punctuator::AmpersandEqual => Some(AssignOperator::BitAnd),
        Punctuator::CaretEqual => Some(AssignOperator::BitXor),
        Punctuator::BarEqual => Some(AssignOperator::BitOr),
        _ => None,
    }
}

/// The `++` or `--` that comes next, if one does.
pub fn step_operator(cursor: &Cursor<'_>) -> Option<StepOperator>
    ensures { result ≡ step_of (first cursor.now) }
{
    match cursor.mark()? {
        Punctuator::PlusPlus => Some(StepOperator::Increment),
        Punctuator::MinusMinus => Some(StepOperator::Decrement),
        _ => None,
    }
}

/// The operator before an operand (C11 6.5.3) that comes next, if one does.
pub fn unary_operator(cursor: &Cursor<'_>) -> Option<UnaryOperator>
    ensures { result ≡ unary_of (first cursor.now) }
{
    match cursor.mark()? {
        Punctuator::Ampersand => Some(UnaryOperator::Address),
        Punctuator::Star => Some(UnaryOperator::Dereference),
        Punctuator::Plus => Some(UnaryOperator::Plus),
        Punctuator::Minus => Some(UnaryOperator::Minus),
        Punctuator::Tilde => Some(UnaryOperator::Complement),
        Punctuator::Bang => Some(UnaryOperator::Not),
        _ => None,
    }
}

// The operator between two operands (C11 6.5.5 to 6.5.14) that a punctuator is, with its strength.
fn with_strength(mark: Punctuator) -> Option<(u32, BinaryOperator)>
    ensures { result ≡ grammar.binary_operator mark }
{
    Some(match mark {
        Punctuator::Star => (1, BinaryOperator::Multiply),
        Punctuator::Slash => (1, BinaryOperator::Divide),
        Punctuator::Percent => (1, BinaryOperator::Remainder),
        Punctuator::Plus => (2, BinaryOperator::Add),
        Punctuator::Minus => (2, BinaryOperator::Subtract),
        Punctuator::ShiftLeft => (3, BinaryOperator::ShiftLeft),
        Punctuator::ShiftRight => (3, BinaryOperator::ShiftRight),
        Punctuator::Less => (4, BinaryOperator::Less),
        Punctuator::Greater => (4, BinaryOperator::Greater),
        Punctuator::LessEqual => (4, BinaryOperator::LessEqual),
        Punctuator::GreaterEqual => (4, BinaryOperator::GreaterEqual),
        Punctuator::EqualEqual => (5, BinaryOperator::Equal),
        Punctuator::BangEqual => (5, BinaryOperator::NotEqual),
        Punctuator::Ampersand => (6, BinaryOperator::BitAnd),
        Punctuator::Caret => (7, BinaryOperator::BitXor),
        Punctuator::Bar => (8, BinaryOperator::BitOr),
        Punctuator::AmpersandAmpersand => (9, BinaryOperator::LogicalAnd),
        Punctuator::BarBar => (10, BinaryOperator::LogicalOr),
        _ => return None,
    })
}

/// The operator of this strength that comes next, if one does.
pub fn binary_operator(cursor: &Cursor<'_>, strength: u32) -> Option<BinaryOperator>
    ensures { result ≡ binary_of strength (first cursor.now) }
{
    let (found, operator) = with_strength(cursor.mark()?)?;
    if found == strength {
        Some(operator)
    } else {
        None
    }
}
