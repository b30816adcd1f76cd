//! Declarators, and the parameters of functions.
ghost use Rattle.std.specs.Prelude.{◌≡◌, map, IfOk};
ghost use Rattle.syntax_tree.specs.Syntax.{ParameterDeclaratorTree, DeclaratorTree};
ghost use Rattle.syntax_tree.specs.SyntaxViews.{array_tree, parameter_declarator_tree, suffix_tree, declarator_tree};
ghost use Rattle.syntax_tree.specs.GrammarDeclarations.{declarator_at, parameter_declarator_at};

use crate::syntax::expressions::Expression;
use crate::syntax::specifiers::Specifier;
use c_words::place::{At, Name};
use std::alloc::{AllocError, Global};

/// `[ size ]` (C11 6.7.6.2); no size, where the brackets are empty.
pub struct Array {
    pub at: At,
    pub size: Option<Expression>,
}

impl Drop for Array {
    fn drop(self) {
        let Array { at: _, size: _ } = self;
    }
}

/// What a parameter makes of its specifier's type, with a name or without one (C11 6.7.6 and 6.7.7).
pub enum ParameterDeclarator {
    /// Pointers, then arrays.
    Unnamed {
        at: At,
        stars: u32,
        arrays: Vec<Array>,
    },
    /// Pointers, then the name, then arrays.
    Named {
        at: At,
        stars: u32,
        name: Name,
        arrays: Vec<Array>,
    },
    /// Pointers, then brackets, then arrays.
    Nested {
        at: At,
        stars: u32,
        inner: Box<ParameterDeclarator>,
        arrays: Vec<Array>,
    },
}

impl Drop for ParameterDeclarator {
    fn drop(self) {
        match self {
            ParameterDeclarator::Unnamed {
                at: _,
                stars: _,
                arrays: _,
            }
            | ParameterDeclarator::Named {
                at: _,
                stars: _,
                name: _,
                arrays: _,
            }
            | ParameterDeclarator::Nested {
                at: _,
                stars: _,
                inner: _,
                arrays: _,
            } => {}
        }
    }
}

#[tactic(auto, using(crate::proofs::SyntaxViews::declaration_views))]
impl ParameterDeclarator {
    /// Pointers, then brackets, then arrays. It stands where what is in the brackets stands.
    pub fn nested(
        alloc: Global,
        stars: u32,
        inner: ParameterDeclarator,
        arrays: Vec<Array>,
    ) -> Result<ParameterDeclarator, AllocError>
        ensures { IfOk result (λ t. parameter_declarator_tree t
            ≡ ParameterDeclaratorTree.Nested (parameter_declarator_at (parameter_declarator_tree inner)) stars (parameter_declarator_tree inner)
            (map array_tree arrays.items)) }
    {
        let at = inner.at();
        Ok(ParameterDeclarator::Nested {
            at,
            stars,
            inner: Box::new(alloc, inner)?,
            arrays,
        })
    }

    /// Where it stands: at its name, or at the specifier where there is none.
    pub fn at(&self) -> At
        ensures { result ≡ parameter_declarator_at (parameter_declarator_tree self.now) }
    {
        match self {
            ParameterDeclarator::Unnamed { at, .. } => *at,
            ParameterDeclarator::Named { at, .. } => *at,
            ParameterDeclarator::Nested { at, .. } => *at,
        }
    }
}

/// A parameter. It stands at its specifier.
#[derive(Drop)]
pub struct Parameter {
    pub at: At,
    pub specifier: Specifier,
    pub declarator: ParameterDeclarator,
}

/// What stands between a function declarator's brackets (C11 6.7.6.3).
pub enum Parameters {
    /// `void` alone: no parameters
    Void { at: At },
    /// One parameter or more.
    Listed { at: At, parameters: Vec<Parameter> },
}

impl Drop for Parameters {
    fn drop(self) {
        match self {
            Parameters::Void { at: _ }
            | Parameters::Listed {
                at: _,
                parameters: _,
            } => {}
        }
    }
}

/// What follows the name or the brackets of a declarator.
pub enum Suffix {
    /// `[ size ]`
    Array(Array),
    /// `( parameters )`, or `( )`
    Function {
        at: At,
        parameters: Option<Parameters>,
    },
}

impl Drop for Suffix {
    fn drop(self) {
        match self {
            Suffix::Array(_)
            | Suffix::Function {
                at: _,
                parameters: _,
            } => {}
        }
    }
}

/// A declared name, and what its declaration makes of the specifier's type (C11 6.7.6).
pub enum Declarator {
    /// Pointers, then the name, then suffixes.
    Named {
        at: At,
        stars: u32,
        name: Name,
        suffixes: Vec<Suffix>,
    },
    /// Pointers, then brackets, then suffixes.
    Nested {
        at: At,
        stars: u32,
        inner: Box<Declarator>,
        suffixes: Vec<Suffix>,
    },
}

impl Drop for Declarator {
    fn drop(self) {
        match self {
            Declarator::Named {
                at: _,
                stars: _,
                name: _,
                suffixes: _,
            }
            | Declarator::Nested {
                at: _,
                stars: _,
                inner: _,
                suffixes: _,
            } => {}
        }
    }
}

#[tactic(auto, using(crate::proofs::SyntaxViews::declaration_views))]
impl Declarator {
    /// Pointers, then brackets, then suffixes. It stands at the name in the brackets.
    pub fn nested(
        alloc: Global,
        stars: u32,
        inner: Declarator,
        suffixes: Vec<Suffix>,
    ) -> Result<Declarator, AllocError>
        ensures { IfOk result (λ t. declarator_tree t
            ≡ DeclaratorTree.Nested (declarator_at (declarator_tree inner)) stars (declarator_tree inner) (map suffix_tree suffixes.items)) }
    {
        let at = inner.at();
        Ok(Declarator::Nested {
            at,
            stars,
            inner: Box::new(alloc, inner)?,
            suffixes,
        })
    }

    /// Where it stands: at the declared name.
    pub fn at(&self) -> At
        ensures { result ≡ declarator_at (declarator_tree self.now) }
    {
        match self {
            Declarator::Named { at, .. } => *at,
            Declarator::Nested { at, .. } => *at,
        }
    }
}
