//! Expressions with their heights.
ghost use Rattle.std.specs.Prelude.{◌≡◌, ◌≤◌, ◌&&◌, suc, min, [], ◌∷◌, ◌++◌, IfOk, OnOk};
ghost use Rattle.syntax_tree.specs.Syntax.{ExpressionTree};
ghost use Rattle.syntax_tree.specs.SyntaxViews.{expression_tree, expression_trees, type_name_tree};
ghost use Rattle.syntax_tree.specs.GrammarExpressions.{call_at};
ghost use Rattle.syntax_tree.specs.SyntaxHeights.{height};
ghost use Rattle.c_parser_rules.specs.Tests as tests;

use crate::cursor::LEVELS;
use c_words::operators::{AssignOperator, BinaryOperator, StepOperator, UnaryOperator};
use c_words::place::{At, Bytes, Name};
use std::alloc::{AllocError, Global};
use std::cmp;
use std::marker::Model;
use syntax_tree::syntax::{Expression, TypeName};

/// The height of an operand behind which no operator may follow.
const TOO_HIGH: u32 = 200;

/// An expression with its height, or with 200 where it is higher.
pub struct Measured {
    expression: Expression,
    height: u32,
}

/// By hand, so that letting one go is a call where it happens, and not the cases of all expressions.
impl Drop for Measured {
    fn drop(self) {
        let Measured {
            expression: _,
            height: _,
        } = self;
    }
}

impl Model for Measured {
    ghost use Rattle.std.specs.Prelude.{◌≡◌, min};
    ghost use Rattle.std.specs.Coded.{codes};
    ghost use Rattle.syntax_tree.specs.declared.syntax.expressions.Expression.{Expression as Rattle_Expression};
    ghost use Rattle.syntax_tree.specs.contracts.syntax.expressions.Expression as the_expression;
    ghost use Rattle.syntax_tree.specs.SyntaxViews.{expression_tree};
    ghost use Rattle.syntax_tree.specs.SyntaxHeights as heights;

    ghost Value = { Rattle_Expression };

    ghost coded = { Prim.hlevel (codes, the_expression.the_row.coded) };

    ghost view = { λ m. m.expression };

    ghost invariant = { λ m. m.height ≡ min (heights.height (expression_tree m.expression)) 200 };
}

// The height of an expression above operands of this height.
fn above(operands: u32) -> u32
    requires { operands ≤ 200 }
    ensures { result ≡ min (suc operands) 200 }
{
    cmp::min(operands + 1, TOO_HIGH)
}

#[tactic(auto, using(syntax_tree::proofs::SyntaxViews::expression_views))]
impl Measured {
    // An expression without operands.
    fn leaf(expression: Expression) -> Measured
        requires { height (expression_tree expression) ≡ 1 }
        ensures { result ≡ expression }
    {
        Measured {
            expression,
            height: 1,
        }
    }

    /// `name`
    pub fn name(at: At, name: Name) -> Measured
        ensures { expression_tree result ≡ ExpressionTree.Name at name }
    {
        Measured::leaf(Expression::Name { at, name })
    }

    /// A number.
    pub fn number(at: At, value: u32, is_unsigned: bool) -> Measured
        ensures { expression_tree result ≡ ExpressionTree.Number at value is_unsigned }
    {
        Measured::leaf(Expression::Number {
            at,
            value,
            is_unsigned,
        })
    }

    /// A character constant.
    pub fn character(at: At, value: u8) -> Measured
        ensures { expression_tree result ≡ ExpressionTree.Character at value }
    {
        Measured::leaf(Expression::Character { at, value })
    }

    /// Strings that stand side by side.
    pub fn text(at: At, pieces: Vec<Bytes>) -> Measured
        ensures { expression_tree result ≡ ExpressionTree.Text at pieces.items }
    {
        Measured::leaf(Expression::Text { at, pieces })
    }

    /// `NULL`
    pub fn null(at: At) -> Measured
        ensures { expression_tree result ≡ ExpressionTree.Null at }
    {
        Measured::leaf(Expression::Null { at })
    }

    /// `EOF`
    pub fn eof(at: At) -> Measured
        ensures { expression_tree result ≡ ExpressionTree.Eof at }
    {
        Measured::leaf(Expression::Eof { at })
    }

    /// `sizeof ( type_name )`
    pub fn sizeof_type(at: At, type_name: TypeName) -> Measured
        ensures { expression_tree result ≡ ExpressionTree.SizeofType at (type_name_tree type_name) }
    {
        Measured::leaf(Expression::SizeofType { at, type_name })
    }

    /// The expression alone.
    pub fn into_expression(self) -> Expression
        ensures { result ≡ self }
    {
        let Measured {
            expression,
            height: _,
        } = self;
        expression
    }

    /// Whether an operator may follow.
    pub fn is_low(&self) -> bool
        ensures { result ≡ tests.is_low (expression_tree self.now) }
    {
        self.height < TOO_HIGH
    }

    /// Whether an operator may follow that opens a level, where so many are open.
    pub fn may_open(&self, depth: u32) -> bool
        ensures { result ≡ (tests.is_low (expression_tree self.now) && tests.opens depth) }
    {
        self.height < TOO_HIGH && depth < LEVELS
    }

    /// `( inner )`
    pub fn parenthesized(alloc: Global, at: At, inner: Measured) -> Result<Measured, AllocError>
        ensures { IfOk result (λ e. expression_tree e ≡ ExpressionTree.Parenthesized at (expression_tree inner)) }
    {
        let height = above(inner.height);
        let expression = Expression::parenthesized(alloc, at, inner.into_expression())?;
        Ok(Measured { expression, height })
    }

    /// An operator between two operands.
    pub fn binary(
        alloc: Global,
        at: At,
        left: Measured,
        operator: BinaryOperator,
        right: Measured,
    ) -> Result<Measured, AllocError>
        ensures { IfOk result (λ e. expression_tree e
            ≡ ExpressionTree.Binary at (expression_tree left) operator (expression_tree right)) }
    {
        let height = above(cmp::max(left.height, right.height));
        let expression = Expression::binary(
            alloc,
            at,
            left.into_expression(),
            operator,
            right.into_expression(),
        )?;
        Ok(Measured { expression, height })
    }

    /// `object . member`
    pub fn member(
        alloc: Global,
        at: At,
        object: Measured,
        member: Name,
    ) -> Result<Measured, AllocError>
        ensures { IfOk result (λ e. expression_tree e
            ≡ ExpressionTree.Member at (expression_tree object) member) }
    {
        let height = above(object.height);
        let expression = Expression::member(alloc, at, object.into_expression(), member)?;
        Ok(Measured { expression, height })
    }

    /// `pointer -> member`
    pub fn arrow(
        alloc: Global,
        at: At,
        pointer: Measured,
        member: Name,
    ) -> Result<Measured, AllocError>
        ensures { IfOk result (λ e. expression_tree e
            ≡ ExpressionTree.Arrow at (expression_tree pointer) member) }
    {
        let height = above(pointer.height);
        let expression = Expression::arrow(alloc, at, pointer.into_expression(), member)?;
        Ok(Measured { expression, height })
    }

    /// `operand ++`
    pub fn step_after(
        alloc: Global,
        at: At,
        operand: Measured,
        operator: StepOperator,
    ) -> Result<Measured, AllocError>
        ensures { IfOk result (λ e. expression_tree e
            ≡ ExpressionTree.StepAfter at (expression_tree operand) operator) }
    {
        let height = above(operand.height);
        let expression = Expression::step_after(alloc, at, operand.into_expression(), operator)?;
        Ok(Measured { expression, height })
    }

    /// `++ operand`
    pub fn step_before(
        alloc: Global,
        at: At,
        operator: StepOperator,
        operand: Measured,
    ) -> Result<Measured, AllocError>
        ensures { IfOk result (λ e. expression_tree e
            ≡ ExpressionTree.StepBefore at operator (expression_tree operand)) }
    {
        let height = above(operand.height);
        let expression = Expression::step_before(alloc, at, operator, operand.into_expression())?;
        Ok(Measured { expression, height })
    }

    /// An operator before its operand.
    pub fn unary(
        alloc: Global,
        at: At,
        operator: UnaryOperator,
        operand: Measured,
    ) -> Result<Measured, AllocError>
        ensures { IfOk result (λ e. expression_tree e
            ≡ ExpressionTree.Unary at operator (expression_tree operand)) }
    {
        let height = above(operand.height);
        let expression = Expression::unary(alloc, at, operator, operand.into_expression())?;
        Ok(Measured { expression, height })
    }

    /// `sizeof operand`
    pub fn sizeof_expression(
        alloc: Global,
        at: At,
        operand: Measured,
    ) -> Result<Measured, AllocError>
        ensures { IfOk result (λ e. expression_tree e
            ≡ ExpressionTree.SizeofExpression at (expression_tree operand)) }
    {
        let height = above(operand.height);
        let expression = Expression::sizeof_expression(alloc, at, operand.into_expression())?;
        Ok(Measured { expression, height })
    }

    /// `( type_name ) operand`
    pub fn cast(
        alloc: Global,
        at: At,
        type_name: TypeName,
        operand: Measured,
    ) -> Result<Measured, AllocError>
        ensures { IfOk result (λ e. expression_tree e
            ≡ ExpressionTree.Cast at (type_name_tree type_name) (expression_tree operand)) }
    {
        let height = above(operand.height);
        let expression = Expression::cast(alloc, at, type_name, operand.into_expression())?;
        Ok(Measured { expression, height })
    }

    /// `array [ index ]`
    pub fn index(
        alloc: Global,
        at: At,
        array: Measured,
        index: Measured,
    ) -> Result<Measured, AllocError>
        ensures { IfOk result (λ e. expression_tree e
            ≡ ExpressionTree.Index at (expression_tree array) (expression_tree index)) }
    {
        let height = above(cmp::max(array.height, index.height));
        let expression = Expression::index(
            alloc,
            at,
            array.into_expression(),
            index.into_expression(),
        )?;
        Ok(Measured { expression, height })
    }

    /// `called ( arguments )`
    pub fn call(
        alloc: Global,
        at: At,
        called: Measured,
        arguments: Arguments,
    ) -> Result<Measured, AllocError>
        ensures { IfOk result (λ e. expression_tree e
            ≡ ExpressionTree.Call at (expression_tree called) (expression_trees arguments)) }
    {
        let height = above(cmp::max(called.height, arguments.height));
        let expression = Expression::call(
            alloc,
            at,
            called.into_expression(),
            arguments.into_expressions(),
        )?;
        Ok(Measured { expression, height })
    }

    /// `condition ? then : otherwise`
    pub fn conditional(
        alloc: Global,
        at: At,
        condition: Measured,
        then: Measured,
        otherwise: Measured,
    ) -> Result<Measured, AllocError>
        ensures { IfOk result (λ e. expression_tree e
            ≡ ExpressionTree.Conditional at (expression_tree condition) (expression_tree then) (expression_tree otherwise)) }
    {
        let height = above(cmp::max(condition.height, cmp::max(then.height, otherwise.height)));
        let expression = Expression::conditional(
            alloc,
            at,
            condition.into_expression(),
            then.into_expression(),
            otherwise.into_expression(),
        )?;
        Ok(Measured { expression, height })
    }

    /// An assignment.
    pub fn assign(
        alloc: Global,
        at: At,
        left: Measured,
        operator: AssignOperator,
        right: Measured,
    ) -> Result<Measured, AllocError>
        ensures { IfOk result (λ e. expression_tree e
            ≡ ExpressionTree.Assign at (expression_tree left) operator (expression_tree right)) }
    {
        let height = above(cmp::max(left.height, right.height));
        let expression = Expression::assign(
            alloc,
            at,
            left.into_expression(),
            operator,
            right.into_expression(),
        )?;
        Ok(Measured { expression, height })
    }

    /// `left , right`
    pub fn comma(
        alloc: Global,
        at: At,
        left: Measured,
        right: Measured,
    ) -> Result<Measured, AllocError>
        ensures { IfOk result (λ e. expression_tree e
            ≡ ExpressionTree.Comma at (expression_tree left) (expression_tree right)) }
    {
        let height = above(cmp::max(left.height, right.height));
        let expression = Expression::comma(
            alloc,
            at,
            left.into_expression(),
            right.into_expression(),
        )?;
        Ok(Measured { expression, height })
    }

    /// Where a call of this expression stands, whose `(` stands here.
    pub fn call_at(&self, from: At) -> At
        ensures { result ≡ call_at (expression_tree self.now) from }
    {
        self.expression.call_at(from)
    }
}

/// The arguments of a call, with the greatest height among them, or with 200 where that is greater.
pub struct Arguments {
    expressions: Vec<Expression>,
    height: u32,
}

/// By hand, as for `Measured`.
impl Drop for Arguments {
    fn drop(self) {
        let Arguments {
            expressions: _,
            height: _,
        } = self;
    }
}

impl Model for Arguments {
    ghost use Rattle.std.specs.Prelude.{◌≡◌, List, min};
    ghost use Rattle.std.specs.Coded.{codes};
    ghost use Rattle.syntax_tree.specs.declared.syntax.expressions.Expression.{Expression as Rattle_Expression};
    ghost use Rattle.syntax_tree.specs.contracts.syntax.expressions.Expression as the_expression;
    ghost use Rattle.syntax_tree.specs.SyntaxViews.{expression_trees};
    ghost use Rattle.syntax_tree.specs.SyntaxHeights.{highest};

    ghost Value = { List Rattle_Expression };

    ghost coded = { Prim.hlevel (codes, the_expression.the_row.coded) };

    ghost view = { λ a. a.expressions.items };

    ghost invariant = { λ a. a.height ≡ min (highest (expression_trees a.expressions.items)) 200 };
}

impl Arguments {
    /// No arguments.
    pub fn new(alloc: Global) -> Arguments
        ensures { result ≡ [] }
    {
        Arguments {
            expressions: Vec::new(alloc),
            height: 0,
        }
    }

    // The expressions alone.
    fn into_expressions(self) -> Vec<Expression>
        ensures { result.items ≡ self }
    {
        let Arguments {
            expressions,
            height: _,
        } = self;
        expressions
    }

    /// Adds an argument behind the others.
    pub fn push(&mut self, argument: Measured) -> Result<(), AllocError>
        ensures { OnOk result (self.new ≡ self.old ++ argument ∷ []) }
    {
        let height = cmp::max(self.height, argument.height);
        self.expressions.push(argument.into_expression())?;
        self.height = height;
        Ok(())
    }
}
