//! Specifiers and the stars of declarators.
ghost use Rattle.std.specs.Prelude.{◌≡◌, ◌≤◌, ◌+◌, IfOk};
ghost use Rattle.c_parser_rules.specs.Programs.{Sort, Rule, Program};
ghost use Rattle.syntax_tree.specs.Syntax.{TypeDeclaratorTree, TypeNameTree};
ghost use Rattle.syntax_tree.specs.SyntaxViews.{expression_trees, type_declarator_tree, type_name_tree};
ghost use Rattle.syntax_tree.specs.GrammarExpressions.{specifier_at};
ghost use Rattle.c_parser_rules.specs.Bodies.{body};
ghost use Rattle.c_parser_rules.specs.Bodies as bodies;
ghost use Rattle.c_parser_expressions.specs.Reads.{Reads};

use crate::cursor::{Cursor, LEVELS, Stop};
use crate::leaf::identifier;
use c_words::place::At;
use c_words::words::{Keyword, Punctuator};
use std::alloc::Global;
use syntax_tree::syntax::{Expression, Specifier, TypeDeclarator, TypeName};

/// The stars in front of a declarator, each of which opens a level.
pub fn stars(cursor: &mut Cursor<'_>, depth: u32) -> Result<u32, Stop>
    requires { depth ≤ 200 }
    ensures reads { Reads Sort.count (body (Rule.stars depth)) (λ n. n) cursor.old result cursor.new }
    ensures few { IfOk result (λ n. n + depth ≤ 200) }
{
    if !cursor.sees_star() {
        return Ok(0);
    }
    cursor.take_mark(Punctuator::Star, depth < LEVELS)?;
    let more = stars(cursor, depth + 1)?;
    Ok(more + 1)
}

/// A specifier (C11 6.7.2).
pub fn specifier(alloc: Global, cursor: &mut Cursor<'_>) -> Result<Specifier, Stop>
    ensures { Reads Sort.specifier (body Rule.specifier) (λ s. s) cursor.old result cursor.new }
{
    if cursor.sees_word(Keyword::Void) {
        let at = cursor.take_next(true)?;
        return Ok(Specifier::Void { at });
    }
    if cursor.sees_word(Keyword::Char) {
        let at = cursor.take_next(true)?;
        return Ok(Specifier::Char { at });
    }
    if cursor.sees_word(Keyword::Int) {
        let at = cursor.take_next(true)?;
        return Ok(Specifier::Int { at });
    }
    if cursor.sees_word(Keyword::Signed) {
        let at = cursor.take_next(true)?;
        if cursor.sees_word(Keyword::Int) {
            cursor.take_next(true)?;
            return Ok(Specifier::SignedInt { at });
        }
        return Ok(Specifier::Signed { at });
    }
    if cursor.sees_word(Keyword::Unsigned) {
        let at = cursor.take_next(true)?;
        return unsigned(cursor, at);
    }
    if cursor.sees_word(Keyword::Struct) {
        let at = cursor.take_next(true)?;
        let tag = identifier(alloc, cursor)?;
        return Ok(Specifier::Struct { at, tag: tag.0 });
    }
    Err(Stop::Syntax)
}

// What follows an `unsigned` that stands here.
fn unsigned(cursor: &mut Cursor<'_>, at: At) -> Result<Specifier, Stop>
    ensures { Reads Sort.specifier (Program.look (bodies.unsigned_by at)) (λ s. s) cursor.old result cursor.new }
{
    if cursor.sees_word(Keyword::Int) {
        cursor.take_next(true)?;
        return Ok(Specifier::UnsignedInt { at });
    }
    if cursor.sees_word(Keyword::Char) {
        cursor.take_next(true)?;
        return Ok(Specifier::UnsignedChar { at });
    }
    Ok(Specifier::Unsigned { at })
}

/// Pointers, then array sizes.
#[tactic(auto, using(syntax_tree::proofs::SyntaxViews::expression_views))]
pub fn direct(at: At, stars: u32, sizes: Vec<Expression>) -> TypeDeclarator
    ensures { type_declarator_tree result ≡ TypeDeclaratorTree.Direct at stars (expression_trees sizes.items) }
{
    TypeDeclarator::Direct { at, stars, sizes }
}

/// The name of a type, which stands at its specifier.
#[tactic(auto, using(syntax_tree::proofs::SyntaxViews::expression_views))]
pub fn type_name_of(specifier: Specifier, declarator: TypeDeclarator) -> TypeName
    ensures { type_name_tree result ≡ TypeNameTree.type_name (specifier_at specifier) specifier (type_declarator_tree declarator) }
{
    let at = specifier.at();
    TypeName {
        at,
        specifier,
        declarator,
    }
}

/// Whether a type name's declarator has no tokens.
#[tactic(auto, using(syntax_tree::proofs::SyntaxViews::expression_views))]
pub fn is_nothing(declarator: &TypeDeclarator) -> bool
    ensures { result ≡ bodies.is_nothing (type_declarator_tree declarator.now) }
{
    match declarator {
        TypeDeclarator::Direct { stars, sizes, .. } => match sizes.first() {
            None => *stars == 0,
            Some(_) => false,
        },
        TypeDeclarator::Nested { .. } => false,
    }
}
