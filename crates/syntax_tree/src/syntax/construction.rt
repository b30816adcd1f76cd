//! How expressions are put together.
ghost use Rattle.std.specs.Prelude.{◌≡◌, IfOk};
ghost use Rattle.syntax_tree.specs.Syntax.{ExpressionTree};
ghost use Rattle.syntax_tree.specs.SyntaxViews.{expression_tree, expression_trees, type_name_tree};

use crate::syntax::expressions::{Expression, TypeName};
use c_words::operators::{AssignOperator, BinaryOperator, StepOperator, UnaryOperator};
use c_words::place::{At, Name};
use std::alloc::{AllocError, Global};

#[tactic(auto, using(crate::proofs::SyntaxViews::expression_views))]
impl Expression {
    /// `( inner )`
    pub fn parenthesized(alloc: Global, at: At, inner: Expression) -> Result<Expression, AllocError>
        ensures { IfOk result (λ e. expression_tree e
            ≡ ExpressionTree.Parenthesized at (expression_tree inner)) }
    {
        Ok(Expression::Parenthesized {
            at,
            inner: Box::new(alloc, inner)?,
        })
    }

    /// `array [ index ]`
    pub fn index(
        alloc: Global,
        at: At,
        array: Expression,
        index: Expression,
    ) -> Result<Expression, AllocError>
        ensures { IfOk result (λ e. expression_tree e
            ≡ ExpressionTree.Index at (expression_tree array) (expression_tree index)) }
    {
        let (array, index) = boxed_pair(alloc, array, index)?;
        Ok(Expression::Index { at, array, index })
    }

    /// `called ( arguments )`
    pub fn call(
        alloc: Global,
        at: At,
        called: Expression,
        arguments: Vec<Expression>,
    ) -> Result<Expression, AllocError>
        ensures { IfOk result (λ e. expression_tree e
            ≡ ExpressionTree.Call at (expression_tree called) (expression_trees arguments.items)) }
    {
        Ok(Expression::Call {
            at,
            called: Box::new(alloc, called)?,
            arguments,
        })
    }

    /// `object . member`
    pub fn member(
        alloc: Global,
        at: At,
        object: Expression,
        member: Name,
    ) -> Result<Expression, AllocError>
        ensures { IfOk result (λ e. expression_tree e
            ≡ ExpressionTree.Member at (expression_tree object) member) }
    {
        Ok(Expression::Member {
            at,
            object: Box::new(alloc, object)?,
            member,
        })
    }

    /// `pointer -> member`
    pub fn arrow(
        alloc: Global,
        at: At,
        pointer: Expression,
        member: Name,
    ) -> Result<Expression, AllocError>
        ensures { IfOk result (λ e. expression_tree e
            ≡ ExpressionTree.Arrow at (expression_tree pointer) member) }
    {
        Ok(Expression::Arrow {
            at,
            pointer: Box::new(alloc, pointer)?,
            member,
        })
    }

    /// `operand ++`
    pub fn step_after(
        alloc: Global,
        at: At,
        operand: Expression,
        operator: StepOperator,
    ) -> Result<Expression, AllocError>
        ensures { IfOk result (λ e. expression_tree e
            ≡ ExpressionTree.StepAfter at (expression_tree operand) operator) }
    {
        Ok(Expression::StepAfter {
            at,
            operand: Box::new(alloc, operand)?,
            operator,
        })
    }

    /// `++ operand`
    pub fn step_before(
        alloc: Global,
        at: At,
        operator: StepOperator,
        operand: Expression,
    ) -> Result<Expression, AllocError>
        ensures { IfOk result (λ e. expression_tree e
            ≡ ExpressionTree.StepBefore at operator (expression_tree operand)) }
    {
        Ok(Expression::StepBefore {
            at,
            operator,
            operand: Box::new(alloc, operand)?,
        })
    }

    /// An operator before its operand.
    pub fn unary(
        alloc: Global,
        at: At,
        operator: UnaryOperator,
        operand: Expression,
    ) -> Result<Expression, AllocError>
        ensures { IfOk result (λ e. expression_tree e
            ≡ ExpressionTree.Unary at operator (expression_tree operand)) }
    {
        Ok(Expression::Unary {
            at,
            operator,
            operand: Box::new(alloc, operand)?,
        })
    }

    /// `sizeof operand`
    pub fn sizeof_expression(
        alloc: Global,
        at: At,
        operand: Expression,
    ) -> Result<Expression, AllocError>
        ensures { IfOk result (λ e. expression_tree e
            ≡ ExpressionTree.SizeofExpression at (expression_tree operand)) }
    {
        Ok(Expression::SizeofExpression {
            at,
            operand: Box::new(alloc, operand)?,
        })
    }

    /// `( type_name ) operand`
    pub fn cast(
        alloc: Global,
        at: At,
        type_name: TypeName,
        operand: Expression,
    ) -> Result<Expression, AllocError>
        ensures { IfOk result (λ e. expression_tree e
            ≡ ExpressionTree.Cast at (type_name_tree type_name) (expression_tree operand)) }
    {
        Ok(Expression::Cast {
            at,
            type_name,
            operand: Box::new(alloc, operand)?,
        })
    }

    /// An operator between two operands.
    pub fn binary(
        alloc: Global,
        at: At,
        left: Expression,
        operator: BinaryOperator,
        right: Expression,
    ) -> Result<Expression, AllocError>
        ensures { IfOk result (λ e. expression_tree e
            ≡ ExpressionTree.Binary at (expression_tree left) operator (expression_tree right)) }
    {
        let (left, right) = boxed_pair(alloc, left, right)?;
        Ok(Expression::Binary {
            at,
            left,
            operator,
            right,
        })
    }

    /// `condition ? then : otherwise`
    pub fn conditional(
        alloc: Global,
        at: At,
        condition: Expression,
        then: Expression,
        otherwise: Expression,
    ) -> Result<Expression, AllocError>
        ensures { IfOk result (λ e. expression_tree e
            ≡ ExpressionTree.Conditional at (expression_tree condition) (expression_tree then) (expression_tree otherwise)) }
    {
        let (then, otherwise) = boxed_pair(alloc, then, otherwise)?;
        Ok(Expression::Conditional {
            at,
            condition: Box::new(alloc, condition)?,
            then,
            otherwise,
        })
    }

    /// An assignment.
    pub fn assign(
        alloc: Global,
        at: At,
        left: Expression,
        operator: AssignOperator,
        right: Expression,
    ) -> Result<Expression, AllocError>
        ensures { IfOk result (λ e. expression_tree e
            ≡ ExpressionTree.Assign at (expression_tree left) operator (expression_tree right)) }
    {
        let (left, right) = boxed_pair(alloc, left, right)?;
        Ok(Expression::Assign {
            at,
            left,
            operator,
            right,
        })
    }

    /// `left , right`
    pub fn comma(
        alloc: Global,
        at: At,
        left: Expression,
        right: Expression,
    ) -> Result<Expression, AllocError>
        ensures { IfOk result (λ e. expression_tree e
            ≡ ExpressionTree.Comma at (expression_tree left) (expression_tree right)) }
    {
        let (left, right) = boxed_pair(alloc, left, right)?;
        Ok(Expression::Comma { at, left, right })
    }
}

/// Two expressions, each in memory of its own.
fn boxed_pair(
    alloc: Global,
    left: Expression,
    right: Expression,
) -> Result<(Box<Expression>, Box<Expression>), AllocError>
    ensures left { IfOk result (λ pair. pair.0.value ≡ left) }
    ensures right { IfOk result (λ pair. pair.1.value ≡ right) }
{
    let left = Box::new(alloc, left)?;
    let right = Box::new(alloc, right)?;
    Ok((left, right))
}
