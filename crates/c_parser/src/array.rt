//! The arrays of declarators.
ghost use Rattle.std.specs.Prelude.{◌≤◌, map, option_map};
ghost use Rattle.syntax_tree.specs.SyntaxViews.{expression_tree, array_tree};
ghost use Rattle.c_parser_rules.specs.Programs.{Sort, Rule};
ghost use Rattle.c_parser_rules.specs.Tests.{is_open_bracket, is_close_bracket};
ghost use Rattle.c_parser_rules.specs.Bodies.{body};
ghost use Rattle.c_parser_expressions.specs.Reads.{Reads};

use c_parser_expressions::cursor::{Cursor, LEVELS, Stop};
use c_parser_expressions::expression::conditional;
use c_words::words::Punctuator;
use std::alloc::Global;
use syntax_tree::syntax::{Array, Expression};

// The size in the brackets of an array, where there is one.
fn size(alloc: Global, cursor: &mut Cursor<'_>, depth: u32) -> Result<Option<Expression>, Stop>
    requires { depth ≤ 200 }
    ensures { Reads (Sort.optional Sort.expression) (body (Rule.optionally is_close_bracket (Rule.conditional depth)))
        (option_map expression_tree) cursor.old result cursor.new }
{
    if cursor.sees(Punctuator::CloseBracket) {
        return Ok(None);
    }
    let size = conditional(alloc, cursor, depth)?;
    Ok(Some(size.into_expression()))
}

/// `[ size ]` behind a declared name (C11 6.7.6.2).
pub fn array(alloc: Global, cursor: &mut Cursor<'_>, depth: u32) -> Result<Array, Stop>
    requires { depth ≤ 200 }
    ensures { Reads Sort.array (body (Rule.array depth)) array_tree cursor.old result cursor.new }
{
    let at = cursor.take_mark(Punctuator::OpenBracket, depth < LEVELS)?;
    let size = size(alloc, cursor, depth + 1)?;
    cursor.take_mark(Punctuator::CloseBracket, true)?;
    Ok(Array { at, size })
}

/// All arrays behind a declared name.
pub fn arrays(alloc: Global, cursor: &mut Cursor<'_>, depth: u32) -> Result<Vec<Array>, Stop>
    requires { depth ≤ 200 }
    ensures { Reads (Sort.many Sort.array) (body (Rule.repeat is_open_bracket (Rule.array depth))) (λ v. map array_tree v.items) cursor.old result cursor.new }
{
    let mut arrays = Vec::new(alloc);
    'arrays: while cursor.sees(Punctuator::OpenBracket) {
        let array = array(alloc, cursor, depth)?;
        arrays.push(array)?;
    }
    Ok(arrays)
}
