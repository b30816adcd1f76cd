//! The declarations of a file.
ghost use Rattle.std.specs.Prelude.{◌≡◌, ◌≤◌, [], map, IfOk};
ghost use Rattle.syntax_tree.specs.SyntaxViews.{init_declarator_tree, member_declaration_tree, head_tree, external_tree, unit_tree};
ghost use Rattle.c_parser_rules.specs.Programs.{Sort, Rule};
ghost use Rattle.c_parser_rules.specs.Tests.{goes_on, is_some};
ghost use Rattle.c_parser_rules.specs.Bodies.{body, struct_by};
ghost use Rattle.c_parser_expressions.specs.Reads.{Reads, GoesOn};

use crate::declaration::{init_declarators, init_rest, member};
use crate::declarator::declarator;
use crate::statement::block;
use c_parser_expressions::cursor::{Cursor, LEVELS, Stop};
use c_parser_expressions::leaf::identifier;
use c_parser_expressions::specifier::specifier;
use c_words::place::{At, Name};
use c_words::words::{Keyword, Punctuator};
use std::alloc::Global;
use syntax_tree::syntax::{
    External, Head, InitDeclarator, MemberDeclaration, Specifier, StructDefinition, Unit,
};

/// Where an empty file stands.
const START_OF_FILE: At = At { token: 0, line: 1 };

// Further members of a struct behind those that were read.
fn members(
    alloc: Global,
    cursor: &mut Cursor<'_>,
    depth: u32,
    mut members: Vec<MemberDeclaration>,
) -> Result<Vec<MemberDeclaration>, Stop>
    requires { depth ≤ 200 }
    ensures { GoesOn (Sort.many Sort.member) (body (Rule.repeat goes_on (Rule.member depth))) (map member_declaration_tree)
        (λ v. v.items) members.items cursor.old result cursor.new }
{
    'members: while !cursor.sees(Punctuator::CloseBrace) {
        let member = member(alloc, cursor, depth)?;
        members.push(member)?;
    }
    Ok(members)
}

// What follows a `struct` that stands here, and its tag: members (C11 6.7.2.1), or nothing.
fn structure(
    alloc: Global,
    cursor: &mut Cursor<'_>,
    depth: u32,
    at: At,
    tag: (Name, At),
) -> Result<(Head, At), Stop>
    requires { depth ≤ 200 }
    ensures { Reads Sort.head (struct_by depth at tag) (λ h. (head_tree h.0, h.1)) cursor.old result cursor.new }
{
    if !cursor.sees(Punctuator::OpenBrace) {
        let specifier = Specifier::Struct { at, tag: tag.0 };
        return Ok((Head::Specifier(specifier), at));
    }
    cursor.take_mark(Punctuator::OpenBrace, depth < LEVELS)?;
    let first = member(alloc, cursor, depth + 1)?;
    let mut read = Vec::new(alloc);
    read.push(first)?;
    let members = members(alloc, cursor, depth + 1, read)?;
    cursor.take_mark(Punctuator::CloseBrace, true)?;
    let definition = StructDefinition {
        at: tag.1,
        tag: tag.0,
        members,
    };
    Ok((Head::Struct(definition), at))
}

// What a declaration of the file begins with, and where it stands.
fn head(alloc: Global, cursor: &mut Cursor<'_>, depth: u32) -> Result<(Head, At), Stop>
    requires { depth ≤ 200 }
    ensures { Reads Sort.head (body (Rule.head depth)) (λ h. (head_tree h.0, h.1)) cursor.old result cursor.new }
{
    if cursor.sees_word(Keyword::Struct) {
        let at = cursor.take_next(true)?;
        let tag = identifier(alloc, cursor)?;
        return structure(alloc, cursor, depth, at, tag);
    }
    let specifier = specifier(alloc, cursor)?;
    let at = specifier.at();
    Ok((Head::Specifier(specifier), at))
}

// The first declarator, and those that follow it.
fn further(
    alloc: Global,
    cursor: &mut Cursor<'_>,
    depth: u32,
    first: InitDeclarator,
) -> Result<Vec<InitDeclarator>, Stop>
    requires { depth ≤ 200 }
    ensures { Reads (Sort.many Sort.init_declarator) (body (Rule.commas_rest (Rule.init_declarator depth) (init_declarator_tree first)))
        (λ v. map init_declarator_tree v.items) cursor.old result cursor.new }
{
    let mut declarators = Vec::new(alloc);
    declarators.push(first)?;
    if !cursor.sees(Punctuator::Comma) {
        return Ok(declarators);
    }
    cursor.take_mark(Punctuator::Comma, true)?;
    init_declarators(alloc, cursor, depth, declarators)
}

// A declaration at file scope (C11 6.9).
fn external(alloc: Global, cursor: &mut Cursor<'_>, depth: u32) -> Result<External, Stop>
    requires { depth ≤ 200 }
    ensures { Reads Sort.external (body (Rule.external depth)) external_tree cursor.old result cursor.new }
{
    let (head, at) = head(alloc, cursor, depth)?;
    if cursor.sees(Punctuator::Semicolon) {
        cursor.take_mark(Punctuator::Semicolon, true)?;
        return Ok(External::Declaration {
            at,
            head,
            declarators: Vec::new(alloc),
        });
    }
    let declarator = declarator(alloc, cursor, depth)?;
    if cursor.sees(Punctuator::OpenBrace) {
        let body = block(alloc, cursor, depth)?;
        return Ok(External::Function {
            at,
            head,
            declarator,
            body,
        });
    }
    let first = init_rest(alloc, cursor, depth, declarator)?;
    let declarators = further(alloc, cursor, depth, first)?;
    cursor.take_mark(Punctuator::Semicolon, true)?;
    Ok(External::Declaration {
        at,
        head,
        declarators,
    })
}

// Further declarations of the file behind those that were read.
fn externals(
    alloc: Global,
    cursor: &mut Cursor<'_>,
    mut externals: Vec<External>,
) -> Result<Vec<External>, Stop>
    ensures reads { GoesOn (Sort.many Sort.external) (body (Rule.repeat is_some (Rule.external 0))) (map external_tree)
        (λ v. v.items) externals.items cursor.old result cursor.new }
    ensures all { IfOk result (λ _. cursor.new ≡ []) }
{
    'externals: while !cursor.is_at_end() {
        let external = external(alloc, cursor, 0)?;
        externals.push(external)?;
    }
    Ok(externals)
}

/// A whole file (C11 6.9).
pub fn unit(alloc: Global, cursor: &mut Cursor<'_>) -> Result<Unit, Stop>
    ensures reads { Reads Sort.unit (body Rule.unit) unit_tree cursor.old result cursor.new }
    ensures all { IfOk result (λ _. cursor.new ≡ []) }
{
    let mut read = Vec::new(alloc);
    let at = match cursor.next_at() {
        None => {
            return Ok(Unit {
                at: START_OF_FILE,
                externals: read,
            });
        }
        Some(at) => at,
    };
    let first = external(alloc, cursor, 0)?;
    read.push(first)?;
    let externals = externals(alloc, cursor, read)?;
    Ok(Unit { at, externals })
}
