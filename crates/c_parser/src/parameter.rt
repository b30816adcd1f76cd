//! The parameters of functions.
ghost use Rattle.std.specs.Prelude.{◌≡◌, ◌≤◌, map, option_map, Some};
ghost use Rattle.c_words.specs.Tokens as tokens;
ghost use Rattle.c_words.specs.declared.words.Punctuator.TheVariants as marks;
ghost use Rattle.syntax_tree.specs.SyntaxViews.{parameter_declarator_tree, parameter_tree, parameters_tree};
ghost use Rattle.c_parser_rules.specs.Programs.{Sort, Rule};
ghost use Rattle.c_parser_rules.specs.Tests.{is_close_paren};
ghost use Rattle.c_parser_rules.specs.Bodies.{body};
ghost use Rattle.c_parser_rules.specs.Bodies as bodies;
ghost use Rattle.c_parser_expressions.specs.Reads.{Reads};

use crate::array::arrays;
use crate::trees;
use c_parser_expressions::cursor::{Cursor, LEVELS, Stop};
use c_parser_expressions::specifier::{specifier, stars};
use c_words::place::At;
use c_words::words::Punctuator;
use std::alloc::Global;
use syntax_tree::syntax::{Parameter, ParameterDeclarator, Parameters, Specifier};

/// What a parameter makes of its specifier's type (C11 6.7.6 and 6.7.7). The specifier stands here.
#[cycle(parameter)]
fn parameter_declarator(
    alloc: Global,
    cursor: &mut Cursor<'_>,
    depth: u32,
    at: At,
) -> Result<ParameterDeclarator, Stop>
    requires { depth ≤ 200 }
    ensures { Reads Sort.parameter_declarator (body (Rule.parameter_declarator depth at)) parameter_declarator_tree cursor.old result cursor.new }
{
    let stars = stars(cursor, depth)?;
    let level = depth + stars;
    if let Some(name) = cursor.name(alloc)? {
        let own = cursor.take_next(true)?;
        let arrays = arrays(alloc, cursor, level)?;
        return Ok(trees::named_parameter(own, stars, name, arrays));
    }
    if cursor.sees(Punctuator::OpenParen) {
        return nested(alloc, cursor, level, at, stars);
    }
    let arrays = arrays(alloc, cursor, level)?;
    Ok(trees::unnamed_parameter(at, stars, arrays))
}

// Brackets in a parameter's declarator, and the arrays behind them.
#[cycle(parameter)]
fn nested(
    alloc: Global,
    cursor: &mut Cursor<'_>,
    level: u32,
    at: At,
    stars: u32,
) -> Result<ParameterDeclarator, Stop>
    requires { level ≤ 200 }
    ensures { Reads Sort.parameter_declarator
        (bodies.parameter_declarator_by level at stars (Some (tokens.Token.Punctuator marks.OpenParen))) parameter_declarator_tree cursor.old result cursor.new }
{
    cursor.take_mark(Punctuator::OpenParen, level < LEVELS)?;
    let inner = parameter_declarator(alloc, cursor, level + 1, at)?;
    if is_no_declarator(&inner) {
        return Err(Stop::Syntax);
    }
    cursor.take_mark(Punctuator::CloseParen, true)?;
    let arrays = arrays(alloc, cursor, level)?;
    Ok(ParameterDeclarator::nested(alloc, stars, inner, arrays)?)
}

// Whether a parameter's declarator has no tokens.
#[tactic(auto, using(syntax_tree::proofs::SyntaxViews::declaration_views))]
fn is_no_declarator(declarator: &ParameterDeclarator) -> bool
    ensures { result ≡ bodies.is_no_declarator (parameter_declarator_tree declarator.now) }
{
    match declarator {
        ParameterDeclarator::Unnamed { stars, arrays, .. } => match arrays.first() {
            None => *stars == 0,
            Some(_) => false,
        },
        ParameterDeclarator::Named { .. } => false,
        ParameterDeclarator::Nested { .. } => false,
    }
}

// Whether this is `void`.
fn is_void(specifier: &Specifier) -> bool
    ensures { result ≡ bodies.is_void specifier.now }
{
    matches!(specifier, Specifier::Void { .. })
}

// A parameter (C11 6.7.6).
fn parameter(alloc: Global, cursor: &mut Cursor<'_>, depth: u32) -> Result<Parameter, Stop>
    requires { depth ≤ 200 }
    ensures { Reads Sort.parameter (body (Rule.parameter depth)) parameter_tree cursor.old result cursor.new }
{
    let specifier = specifier(alloc, cursor)?;
    let at = specifier.at();
    let declarator = parameter_declarator(alloc, cursor, depth, at)?;
    Ok(Parameter {
        at,
        specifier,
        declarator,
    })
}

// One parameter or more.
fn listed(alloc: Global, cursor: &mut Cursor<'_>, depth: u32) -> Result<Vec<Parameter>, Stop>
    requires { depth ≤ 200 }
    ensures { Reads (Sort.many Sort.parameter) (body (Rule.commas (Rule.parameter depth))) (λ v. map parameter_tree v.items) cursor.old result cursor.new }
{
    let mut parameters = Vec::new(alloc);
    'parameters: loop {
        let parameter = parameter(alloc, cursor, depth)?;
        parameters.push(parameter)?;
        if !cursor.sees(Punctuator::Comma) {
            return Ok(parameters);
        }
        cursor.take_mark(Punctuator::Comma, true)?;
    }
}

// Whether these are `void` alone.
fn is_lone_void(parameters: &[Parameter]) -> bool
    ensures { result ≡ bodies.is_lone_void (map parameter_tree parameters.now) }
{
    if parameters.len() != 1 {
        return false;
    }
    match parameters.first() {
        None => false,
        Some(only) => {
            if !is_void(&only.specifier) {
                return false;
            }
            is_no_declarator(&only.declarator)
        }
    }
}

// What stands between a function declarator's brackets (C11 6.7.6.3), where something does.
fn parameters(alloc: Global, cursor: &mut Cursor<'_>, depth: u32) -> Result<Parameters, Stop>
    requires { depth ≤ 200 }
    ensures { Reads Sort.parameters (body (Rule.parameters depth)) parameters_tree cursor.old result cursor.new }
{
    let parameters = listed(alloc, cursor, depth)?;
    let at = match parameters.first() {
        None => return Err(Stop::Syntax),
        Some(first) => first.at,
    };
    if is_lone_void(parameters.as_slice()) {
        return Ok(Parameters::Void { at });
    }
    Ok(Parameters::Listed { at, parameters })
}

/// What stands between a function declarator's brackets (C11 6.7.6.3).
pub fn optional_parameters(
    alloc: Global,
    cursor: &mut Cursor<'_>,
    depth: u32,
) -> Result<Option<Parameters>, Stop>
    requires { depth ≤ 200 }
    ensures { Reads (Sort.optional Sort.parameters) (body (Rule.optionally is_close_paren (Rule.parameters depth)))
        (option_map parameters_tree) cursor.old result cursor.new }
{
    if cursor.sees(Punctuator::CloseParen) {
        return Ok(None);
    }
    Ok(Some(parameters(alloc, cursor, depth)?))
}
