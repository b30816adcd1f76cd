//! Statements and blocks.
ghost use Rattle.std.specs.Prelude.{◌≡◌, IfOk};

use crate::syntax::declarations::Declaration;
use crate::syntax::expressions::Expression;
use c_words::place::At;
use std::alloc::{AllocError, Global};

/// A statement (C11 6.8).
#[cycle(statements)]
pub enum Statement {
    /// A block.
    Block(Block),
    /// `;` (6.8.3)
    Empty {
        at: At,
    },
    /// `value ;` (6.8.3)
    Expression {
        at: At,
        value: Expression,
    },
    /// `if ( condition ) then else otherwise`, or without its `else` (6.8.4.1)
    If {
        at: At,
        condition: Expression,
        then: Box<Statement>,
        otherwise: Option<Box<Statement>>,
    },
    /// `while ( condition ) body` (6.8.5.1)
    While {
        at: At,
        condition: Expression,
        body: Box<Statement>,
    },
    /// `do body while ( condition ) ;` (6.8.5.2)
    DoWhile {
        at: At,
        body: Box<Statement>,
        condition: Expression,
    },
    /// `for ( start condition ; step ) body` (6.8.5.3)
    For {
        at: At,
        start: ForStart,
        condition: Option<Expression>,
        step: Option<Expression>,
        body: Box<Statement>,
    },
    /// `break ;` (6.8.6.3)
    Break {
        at: At,
    },
    /// `continue ;` (6.8.6.2)
    Continue {
        at: At,
    },
    /// `return value ;`, or without a value (6.8.6.4)
    Return {
        at: At,
        value: Option<Expression>,
    },
}

impl Drop for Statement {
    #[cycle(statement_drop)]
    fn drop(self) {
        match self {
            Statement::Block(_)
            | Statement::Empty { at: _ }
            | Statement::Expression { at: _, value: _ }
            | Statement::If {
                at: _,
                condition: _,
                then: _,
                otherwise: _,
            }
            | Statement::While {
                at: _,
                condition: _,
                body: _,
            }
            | Statement::DoWhile {
                at: _,
                body: _,
                condition: _,
            }
            | Statement::For {
                at: _,
                start: _,
                condition: _,
                step: _,
                body: _,
            }
            | Statement::Break { at: _ }
            | Statement::Continue { at: _ }
            | Statement::Return { at: _, value: _ } => {}
        }
    }
}

impl Statement {
    /// The statement in memory of its own, as a part of another statement.
    pub fn boxed(self, alloc: Global) -> Result<Box<Statement>, AllocError>
        ensures { IfOk result (λ statement. statement.value ≡ self) }
    {
        Ok(Box::new(alloc, self)?)
    }
}

/// How a `for` begins.
pub enum ForStart {
    /// A declaration, whose names are known in the whole statement.
    Declaration(Declaration),
    /// An expression and its `;`, or the `;` alone.
    Expression(Option<Expression>),
}

impl Drop for ForStart {
    fn drop(self) {
        match self {
            ForStart::Declaration(_) | ForStart::Expression(_) => {}
        }
    }
}

/// `{ items }` (C11 6.8.2)
#[cycle(statements)]
pub struct Block {
    pub at: At,
    pub items: Vec<BlockItem>,
}

impl Drop for Block {
    #[cycle(statement_drop)]
    fn drop(self) {
        let Block { at: _, items: _ } = self;
    }
}

/// What stands in a block.
#[cycle(statements)]
pub enum BlockItem {
    Declaration(Declaration),
    Statement(Statement),
}

impl Drop for BlockItem {
    #[cycle(statement_drop)]
    fn drop(self) {
        match self {
            BlockItem::Declaration(_) | BlockItem::Statement(_) => {}
        }
    }
}
