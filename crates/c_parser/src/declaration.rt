//! Declarations.
ghost use Rattle.std.specs.Prelude.{◌≤◌, map};
ghost use Rattle.syntax_tree.specs.SyntaxViews.{declarator_tree, init_declarator_tree, declaration_tree, member_declaration_tree};
ghost use Rattle.c_parser_rules.specs.Programs.{Sort, Rule};
ghost use Rattle.c_parser_rules.specs.Bodies.{body};
ghost use Rattle.c_parser_expressions.specs.Reads.{Reads, GoesOn};

use crate::declarator::declarator;
use crate::initializer::initializer;
use c_parser_expressions::cursor::{Cursor, Stop};
use c_parser_expressions::specifier::specifier;
use c_words::words::Punctuator;
use std::alloc::Global;
use syntax_tree::syntax::{Declaration, Declarator, InitDeclarator, MemberDeclaration};

/// What follows a declarator: its initializer, or nothing.
pub fn init_rest(
    alloc: Global,
    cursor: &mut Cursor<'_>,
    depth: u32,
    declarator: Declarator,
) -> Result<InitDeclarator, Stop>
    requires { depth ≤ 200 }
    ensures { Reads Sort.init_declarator (body (Rule.init_rest depth (declarator_tree declarator))) init_declarator_tree cursor.old result cursor.new }
{
    if !cursor.sees(Punctuator::Equal) {
        return Ok(InitDeclarator {
            at: declarator.at(),
            declarator,
            initializer: None,
        });
    }
    let at = cursor.take_mark(Punctuator::Equal, true)?;
    let initializer = initializer(alloc, cursor, depth)?;
    Ok(InitDeclarator {
        at,
        declarator,
        initializer: Some(initializer),
    })
}

// A declarator with or without its initializer (C11 6.7).
fn init_declarator(
    alloc: Global,
    cursor: &mut Cursor<'_>,
    depth: u32,
) -> Result<InitDeclarator, Stop>
    requires { depth ≤ 200 }
    ensures { Reads Sort.init_declarator (body (Rule.init_declarator depth)) init_declarator_tree cursor.old result cursor.new }
{
    let declarator = declarator(alloc, cursor, depth)?;
    init_rest(alloc, cursor, depth, declarator)
}

/// One declarator with or without its initializer, or more, behind those that were read.
pub fn init_declarators(
    alloc: Global,
    cursor: &mut Cursor<'_>,
    depth: u32,
    mut declarators: Vec<InitDeclarator>,
) -> Result<Vec<InitDeclarator>, Stop>
    requires { depth ≤ 200 }
    ensures { GoesOn (Sort.many Sort.init_declarator) (body (Rule.commas (Rule.init_declarator depth))) (map init_declarator_tree)
        (λ v. v.items) declarators.items cursor.old result cursor.new }
{
    'declarators: loop {
        let declarator = init_declarator(alloc, cursor, depth)?;
        declarators.push(declarator)?;
        if !cursor.sees(Punctuator::Comma) {
            return Ok(declarators);
        }
        cursor.take_mark(Punctuator::Comma, true)?;
    }
}

/// A declaration (C11 6.7).
pub fn declaration(alloc: Global, cursor: &mut Cursor<'_>, depth: u32) -> Result<Declaration, Stop>
    requires { depth ≤ 200 }
    ensures { Reads Sort.declaration (body (Rule.declaration depth)) declaration_tree cursor.old result cursor.new }
{
    let specifier = specifier(alloc, cursor)?;
    let at = specifier.at();
    let declarators = Vec::new(alloc);
    if cursor.sees(Punctuator::Semicolon) {
        cursor.take_mark(Punctuator::Semicolon, true)?;
        return Ok(Declaration {
            at,
            specifier,
            declarators,
        });
    }
    let declarators = init_declarators(alloc, cursor, depth, declarators)?;
    cursor.take_mark(Punctuator::Semicolon, true)?;
    Ok(Declaration {
        at,
        specifier,
        declarators,
    })
}

// The declarators of members of one specifier.
fn declarators(alloc: Global, cursor: &mut Cursor<'_>, depth: u32) -> Result<Vec<Declarator>, Stop>
    requires { depth ≤ 200 }
    ensures { Reads (Sort.many Sort.declarator) (body (Rule.commas (Rule.declarator depth))) (λ v. map declarator_tree v.items) cursor.old result cursor.new }
{
    let mut declarators = Vec::new(alloc);
    'declarators: loop {
        let declarator = declarator(alloc, cursor, depth)?;
        declarators.push(declarator)?;
        if !cursor.sees(Punctuator::Comma) {
            return Ok(declarators);
        }
        cursor.take_mark(Punctuator::Comma, true)?;
    }
}

/// Members of one specifier (C11 6.7.2.1).
pub fn member(alloc: Global, cursor: &mut Cursor<'_>, depth: u32) -> Result<MemberDeclaration, Stop>
    requires { depth ≤ 200 }
    ensures { Reads Sort.member (body (Rule.member depth)) member_declaration_tree cursor.old result cursor.new }
{
    let specifier = specifier(alloc, cursor)?;
    let at = specifier.at();
    let declarators = declarators(alloc, cursor, depth)?;
    cursor.take_mark(Punctuator::Semicolon, true)?;
    Ok(MemberDeclaration {
        at,
        specifier,
        declarators,
    })
}
