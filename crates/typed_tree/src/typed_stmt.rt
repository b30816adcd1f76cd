//! The typed tree of statements.
ghost use Rattle.std.specs.Prelude.{◌≡◌, IfOk};
ghost use Rattle.std.specs.Option.{option_map};
ghost use Rattle.typed_tree.specs.TypedTree.CStmt.{If, IfElse, While, Do, For};
ghost use Rattle.typed_tree.specs.TypedViews.{expr_of, start_of, stmt_of};

use crate::typed_expr::TypedExpr;
use c_words::place::At;
use std::alloc::{AllocError, Global};

/// What an object is initialized with (C11 6.7.9).
pub enum TypedInitial {
    /// The value of an expression, given to a scalar; or the struct that a place holds, for a whole declared struct.
    Value(TypedExpr),
    /// A string that initializes an array of `char`, as its bytes without the final zero.
    Text(At, Vec<u8>),
    /// The parts of an array or a struct between braces, in order.
    Braces(At, Vec<TypedInitial>),
}

/// An initializer: its `=`, and what it gives.
#[derive(Drop)]
pub struct TypedInitializer {
    pub at: At,
    pub value: TypedInitial,
}

/// The declaration of a local, where it stands. A list of declarators is so many declarations.
#[derive(Drop)]
pub struct TypedDeclaration {
    /// The declared name.
    pub at: At,
    /// The number of the local in the function's list.
    pub local: u32,
    pub initializer: Option<TypedInitializer>,
}

/// What a `for` begins with (C11 6.8.5.3).
#[derive(Drop)]
pub enum TypedStart {
    Nothing,
    Eval(TypedExpr),
    Declare(Vec<TypedDeclaration>),
}

/// A statement or a declaration in a block (C11 6.8). Contracts see it as a `CStmt`, by `stmt_of`.
pub enum TypedStmt {
    /// `{ .. }`
    Block(At, Vec<TypedStmt>),
    /// The declaration of a local.
    Declare(TypedDeclaration),
    /// `;`
    Empty(At),
    /// `e;`
    Eval(At, TypedExpr),
    /// `if (condition) body`, with `else otherwise` or without it.
    If {
        at: At,
        condition: TypedExpr,
        body: Box<TypedStmt>,
        otherwise: Option<Box<TypedStmt>>,
    },
    /// `while (condition) body`
    While {
        at: At,
        condition: TypedExpr,
        body: Box<TypedStmt>,
    },
    /// `do body while (condition);`
    Do {
        at: At,
        body: Box<TypedStmt>,
        condition: TypedExpr,
    },
    /// `for (start; condition; step) body`
    For {
        at: At,
        start: TypedStart,
        condition: Option<TypedExpr>,
        step: Option<TypedExpr>,
        body: Box<TypedStmt>,
    },
    /// `break;`
    Break(At),
    /// `continue;`
    Continue(At),
    /// `return;` and `return e;`
    Return(At, Option<TypedExpr>),
}

/// By hand, so that letting a value go is a call where it happens, and not the cases of all kinds.
impl Drop for TypedInitial {
    fn drop(self) {
        match self {
            TypedInitial::Value(_) | TypedInitial::Text(_, _) | TypedInitial::Braces(_, _) => {}
        }
    }
}

/// By hand, so that letting a statement go is a call where it happens, and not the cases of all kinds.
impl Drop for TypedStmt {
    fn drop(self) {
        match self {
            TypedStmt::Block(_, _)
            | TypedStmt::Declare(_)
            | TypedStmt::Empty(_)
            | TypedStmt::Eval(_, _)
            | TypedStmt::Break(_)
            | TypedStmt::Continue(_)
            | TypedStmt::Return(_, _) => {}
            TypedStmt::If {
                at: _,
                condition: _,
                body: _,
                otherwise: _,
            } => {}
            TypedStmt::While {
                at: _,
                condition: _,
                body: _,
            } => {}
            TypedStmt::Do {
                at: _,
                body: _,
                condition: _,
            } => {}
            TypedStmt::For {
                at: _,
                start: _,
                condition: _,
                step: _,
                body: _,
            } => {}
        }
    }
}

impl TypedStmt {
    /// `if (condition) body`
    pub fn if_then(
        alloc: Global,
        at: At,
        condition: TypedExpr,
        body: TypedStmt,
    ) -> Result<TypedStmt, AllocError>
        ensures { IfOk result (λ s. stmt_of s ≡ If at (expr_of condition) (stmt_of body)) }
    {
        let body = Box::new(alloc, body)?;
        let otherwise = None;
        Ok(TypedStmt::If {
            at,
            condition,
            body,
            otherwise,
        })
    }

    /// `if (condition) body else otherwise`
    pub fn if_else(
        alloc: Global,
        at: At,
        condition: TypedExpr,
        body: TypedStmt,
        otherwise: TypedStmt,
    ) -> Result<TypedStmt, AllocError>
        ensures { IfOk result (λ s. stmt_of s ≡ IfElse at (expr_of condition) (stmt_of body) (stmt_of otherwise)) }
    {
        let body = Box::new(alloc, body)?;
        let otherwise = Some(Box::new(alloc, otherwise)?);
        Ok(TypedStmt::If {
            at,
            condition,
            body,
            otherwise,
        })
    }

    /// `while (condition) body`
    pub fn while_loop(
        alloc: Global,
        at: At,
        condition: TypedExpr,
        body: TypedStmt,
    ) -> Result<TypedStmt, AllocError>
        ensures { IfOk result (λ s. stmt_of s ≡ While at (expr_of condition) (stmt_of body)) }
    {
        let body = Box::new(alloc, body)?;
        Ok(TypedStmt::While {
            at,
            condition,
            body,
        })
    }

    /// `do body while (condition);`
    pub fn do_loop(
        alloc: Global,
        at: At,
        body: TypedStmt,
        condition: TypedExpr,
    ) -> Result<TypedStmt, AllocError>
        ensures { IfOk result (λ s. stmt_of s ≡ Do at (stmt_of body) (expr_of condition)) }
    {
        let body = Box::new(alloc, body)?;
        Ok(TypedStmt::Do {
            at,
            body,
            condition,
        })
    }

    /// `for (start; condition; step) body`
    pub fn for_loop(
        alloc: Global,
        at: At,
        start: TypedStart,
        condition: Option<TypedExpr>,
        step: Option<TypedExpr>,
        body: TypedStmt,
    ) -> Result<TypedStmt, AllocError>
        ensures { IfOk result (λ s. stmt_of s ≡ For at (start_of start) (option_map expr_of condition) (option_map expr_of step) (stmt_of body)) }
    {
        let body = Box::new(alloc, body)?;
        Ok(TypedStmt::For {
            at,
            start,
            condition,
            step,
            body,
        })
    }
}
