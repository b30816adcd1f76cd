//! The declarations of a file.

use crate::syntax::declarations::{InitDeclarator, StructDefinition};
use crate::syntax::declarators::Declarator;
use crate::syntax::specifiers::Specifier;
use crate::syntax::statements::Block;
use c_words::place::At;

/// What a declaration of the file begins with.
pub enum Head {
    Specifier(Specifier),
    Struct(StructDefinition),
}

impl Drop for Head {
    fn drop(self) {
        match self {
            Head::Specifier(_) | Head::Struct(_) => {}
        }
    }
}

/// A declaration at file scope (C11 6.9).
pub enum External {
    /// A declaration, which may declare no name.
    Declaration {
        at: At,
        head: Head,
        declarators: Vec<InitDeclarator>,
    },
    /// A function definition (6.9.1).
    Function {
        at: At,
        head: Head,
        declarator: Declarator,
        body: Block,
    },
}

impl Drop for External {
    fn drop(self) {
        match self {
            External::Declaration {
                at: _,
                head: _,
                declarators: _,
            }
            | External::Function {
                at: _,
                head: _,
                declarator: _,
                body: _,
            } => {}
        }
    }
}

/// A whole file (C11 6.9). It stands at its first token; an empty one at token 0 and line 1.
#[derive(Drop)]
pub struct Unit {
    pub at: At,
    pub externals: Vec<External>,
}
