//! Expressions, and the type names in them.
ghost use Rattle.std.specs.Prelude.{◌≡◌, IfOk};
ghost use Rattle.syntax_tree.specs.Syntax.{ExpressionTree, TypeDeclaratorTree};
ghost use Rattle.syntax_tree.specs.SyntaxViews.{expression_tree, expression_trees, type_name_tree, type_declarator_tree};
ghost use Rattle.syntax_tree.specs.GrammarExpressions.{call_at};

use crate::syntax::specifiers::Specifier;
use c_words::operators::{AssignOperator, BinaryOperator, StepOperator, UnaryOperator};
use c_words::place::{At, Bytes, Name};
use std::alloc::{AllocError, Global};

/// An expression (C11 6.5).
#[cycle(expressions)]
pub enum Expression {
    /// `name` (6.5.1)
    Name {
        at: At,
        name: Name,
    },
    /// A number (6.4.4.1).
    Number {
        at: At,
        value: u32,
        is_unsigned: bool,
    },
    /// A character constant (6.4.4.4).
    Character {
        at: At,
        value: u8,
    },
    /// Strings that stand side by side (6.4.5), each without its final zero.
    Text {
        at: At,
        pieces: Vec<Bytes>,
    },
    /// `NULL`
    Null {
        at: At,
    },
    /// `EOF`
    Eof {
        at: At,
    },
    /// `( inner )` (6.5.1)
    Parenthesized {
        at: At,
        inner: Box<Expression>,
    },
    /// `array [ index ]` (6.5.2.1)
    Index {
        at: At,
        array: Box<Expression>,
        index: Box<Expression>,
    },
    /// `called ( arguments )` (6.5.2.2)
    Call {
        at: At,
        called: Box<Expression>,
        arguments: Vec<Expression>,
    },
    /// `object . member` (6.5.2.3)
    Member {
        at: At,
        object: Box<Expression>,
        member: Name,
    },
    /// `pointer -> member` (6.5.2.3)
    Arrow {
        at: At,
        pointer: Box<Expression>,
        member: Name,
    },
    /// `operand ++` (6.5.2.4)
    StepAfter {
        at: At,
        operand: Box<Expression>,
        operator: StepOperator,
    },
    /// `++ operand` (6.5.3.1)
    StepBefore {
        at: At,
        operator: StepOperator,
        operand: Box<Expression>,
    },
    /// An operator before its operand (6.5.3.2 and 6.5.3.3).
    Unary {
        at: At,
        operator: UnaryOperator,
        operand: Box<Expression>,
    },
    /// `sizeof ( type_name )` (6.5.3.4)
    SizeofType {
        at: At,
        type_name: TypeName,
    },
    /// `sizeof operand` (6.5.3.4)
    SizeofExpression {
        at: At,
        operand: Box<Expression>,
    },
    /// `( type_name ) operand` (6.5.4)
    Cast {
        at: At,
        type_name: TypeName,
        operand: Box<Expression>,
    },
    /// An operator between two operands (6.5.5 to 6.5.14).
    Binary {
        at: At,
        left: Box<Expression>,
        operator: BinaryOperator,
        right: Box<Expression>,
    },
    /// `condition ? then : otherwise` (6.5.15)
    Conditional {
        at: At,
        condition: Box<Expression>,
        then: Box<Expression>,
        otherwise: Box<Expression>,
    },
    /// An assignment (6.5.16).
    Assign {
        at: At,
        left: Box<Expression>,
        operator: AssignOperator,
        right: Box<Expression>,
    },
    /// `left , right` (6.5.17)
    Comma {
        at: At,
        left: Box<Expression>,
        right: Box<Expression>,
    },
}

impl Drop for Expression {
    #[cycle(expression_drop)]
    fn drop(self) {
        match self {
            Expression::Name { at: _, name: _ }
            | Expression::Number {
                at: _,
                value: _,
                is_unsigned: _,
            }
            | Expression::Character { at: _, value: _ }
            | Expression::Text { at: _, pieces: _ }
            | Expression::Null { at: _ }
            | Expression::Eof { at: _ }
            | Expression::Parenthesized { at: _, inner: _ }
            | Expression::Index {
                at: _,
                array: _,
                index: _,
            }
            | Expression::Call {
                at: _,
                called: _,
                arguments: _,
            }
            | Expression::Member {
                at: _,
                object: _,
                member: _,
            }
            | Expression::Arrow {
                at: _,
                pointer: _,
                member: _,
            }
            | Expression::StepAfter {
                at: _,
                operand: _,
                operator: _,
            }
            | Expression::StepBefore {
                at: _,
                operator: _,
                operand: _,
            }
            | Expression::Unary {
                at: _,
                operator: _,
                operand: _,
            }
            | Expression::SizeofType {
                at: _,
                type_name: _,
            }
            | Expression::SizeofExpression { at: _, operand: _ }
            | Expression::Cast {
                at: _,
                type_name: _,
                operand: _,
            }
            | Expression::Binary {
                at: _,
                left: _,
                operator: _,
                right: _,
            }
            | Expression::Conditional {
                at: _,
                condition: _,
                then: _,
                otherwise: _,
            }
            | Expression::Assign {
                at: _,
                left: _,
                operator: _,
                right: _,
            }
            | Expression::Comma {
                at: _,
                left: _,
                right: _,
            } => {}
        }
    }
}

#[tactic(auto, using(crate::proofs::SyntaxViews::expression_views))]
impl Expression {
    /// Where a call of this stands, whose bracket is at `from`: at the called name, else at the bracket.
    pub fn call_at(&self, from: At) -> At
        ensures { result ≡ call_at (expression_tree self.now) from }
    {
        match self {
            Expression::Name { at, .. } => *at,
            Expression::Number { .. } | Expression::Character { .. } | Expression::Text { .. } =>
                from,
            Expression::Null { .. } | Expression::Eof { .. } | Expression::Parenthesized { .. } =>
                from,
            Expression::Index { .. } | Expression::Call { .. } | Expression::Member { .. } => from,
            Expression::Arrow { .. } | Expression::StepAfter { .. } => from,
            Expression::StepBefore { .. } | Expression::Unary { .. } => from,
            Expression::SizeofType { .. } | Expression::SizeofExpression { .. } => from,
            Expression::Cast { .. } | Expression::Binary { .. } => from,
            Expression::Conditional { .. } | Expression::Assign { .. } => from,
            Expression::Comma { .. } => from,
        }
    }
}

/// A type without an object, as in a cast or after `sizeof` (C11 6.7.7).
#[cycle(expressions)]
pub struct TypeName {
    pub at: At,
    pub specifier: Specifier,
    pub declarator: TypeDeclarator,
}

impl Drop for TypeName {
    #[cycle(expression_drop)]
    fn drop(self) {
        let TypeName {
            at: _,
            specifier: _,
            declarator: _,
        } = self;
    }
}

/// What a type name makes of its specifier's type. It stands at the specifier.
#[cycle(expressions)]
pub enum TypeDeclarator {
    /// Pointers, then array sizes.
    Direct {
        at: At,
        stars: u32,
        sizes: Vec<Expression>,
    },
    /// Pointers, then brackets, then array sizes.
    Nested {
        at: At,
        stars: u32,
        inner: Box<TypeDeclarator>,
        sizes: Vec<Expression>,
    },
}

impl Drop for TypeDeclarator {
    #[cycle(expression_drop)]
    fn drop(self) {
        match self {
            TypeDeclarator::Direct {
                at: _,
                stars: _,
                sizes: _,
            }
            | TypeDeclarator::Nested {
                at: _,
                stars: _,
                inner: _,
                sizes: _,
            } => {}
        }
    }
}

#[tactic(auto, using(crate::proofs::SyntaxViews::expression_views))]
impl TypeDeclarator {
    /// Pointers, then brackets, then array sizes.
    pub fn nested(
        alloc: Global,
        at: At,
        stars: u32,
        inner: TypeDeclarator,
        sizes: Vec<Expression>,
    ) -> Result<TypeDeclarator, AllocError>
        ensures { IfOk result (λ t. type_declarator_tree t
            ≡ TypeDeclaratorTree.Nested at stars (type_declarator_tree inner) (expression_trees sizes.items)) }
    {
        Ok(TypeDeclarator::Nested {
            at,
            stars,
            inner: Box::new(alloc, inner)?,
            sizes,
        })
    }
}
