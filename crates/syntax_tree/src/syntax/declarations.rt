//! Declarations, initializers and the definitions of structs.

use crate::syntax::declarators::Declarator;
use crate::syntax::expressions::Expression;
use crate::syntax::specifiers::Specifier;
use c_words::place::{At, Name};

/// An initializer (C11 6.7.9).
pub enum Initializer {
    /// One expression.
    Expression(Expression),
    /// Parts in braces, one or more.
    Braced { at: At, parts: Vec<Initializer> },
}

impl Drop for Initializer {
    fn drop(self) {
        match self {
            Initializer::Expression(_) | Initializer::Braced { at: _, parts: _ } => {}
        }
    }
}

/// A declarator with or without its initializer (C11 6.7). It stands at its `=`, or at the declared name where there is
/// none.
pub struct InitDeclarator {
    pub at: At,
    pub declarator: Declarator,
    pub initializer: Option<Initializer>,
}

impl Drop for InitDeclarator {
    fn drop(self) {
        let InitDeclarator {
            at: _,
            declarator: _,
            initializer: _,
        } = self;
    }
}

/// A declaration (C11 6.7), which may declare nothing.
#[derive(Drop)]
pub struct Declaration {
    pub at: At,
    pub specifier: Specifier,
    pub declarators: Vec<InitDeclarator>,
}

/// Members of one specifier (C11 6.7.2.1), one or more.
#[derive(Drop)]
pub struct MemberDeclaration {
    pub at: At,
    pub specifier: Specifier,
    pub declarators: Vec<Declarator>,
}

/// `struct tag { members }` (C11 6.7.2.1), with one member declaration or more. It stands at the tag.
#[derive(Drop)]
pub struct StructDefinition {
    pub at: At,
    pub tag: Name,
    pub members: Vec<MemberDeclaration>,
}
