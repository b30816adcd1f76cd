//! The syntax tree: what the grammar makes of the tokens of a file.
//!
//! Each rule of the grammar has a type here, and each of its alternatives a variant, whose fields are the parts of
//! that alternative in order. The rules from `expression` down to `primary` have one type, `Expression`, since a chain
//! of one operand is no node. Each node says where it stands by its `at`: an operator at its own token, a call at the
//! called name (else at its `(`), a declarator at the declared name (else at the first word of its specifier), any
//! other node at its first token.
//!
//! A node of several forms has its `Drop` by hand, so that letting it go is a call where it happens, and not the cases of
//! all its forms.

mod construction;
pub mod declarations;
pub mod declarators;
pub mod expressions;
pub mod grammar;
pub mod specifiers;
pub mod statements;
pub mod units;

pub use declarations::{
    Declaration, InitDeclarator, Initializer, MemberDeclaration, StructDefinition,
};
pub use declarators::{Array, Declarator, Parameter, ParameterDeclarator, Parameters, Suffix};
pub use expressions::{Expression, TypeDeclarator, TypeName};
pub use specifiers::Specifier;
pub use statements::{Block, BlockItem, ForStart, Statement};
pub use units::{External, Head, Unit};
