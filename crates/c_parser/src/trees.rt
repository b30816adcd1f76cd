//! Trees of declarations and statements, and what they stand for.
ghost use Rattle.std.specs.Prelude.{◌≡◌, map};
ghost use Rattle.std.specs.Option.{option_map};
ghost use Rattle.syntax_tree.specs.Syntax.{ParameterDeclaratorTree, DeclaratorTree, InitializerTree, StatementTree, BlockTree, BlockItemTree};
ghost use Rattle.syntax_tree.specs.SyntaxViews.{expression_tree, array_tree, parameter_declarator_tree, suffix_tree, declarator_tree, initializer_tree};
ghost use Rattle.syntax_tree.specs.SyntaxViews.{initializer_trees, declaration_tree, for_start_tree, statement_tree, block_tree, block_item_tree, block_item_trees};

use c_words::place::{At, Name};
use syntax_tree::syntax::{
    Array, Block, BlockItem, Declaration, Declarator, Expression, ForStart, Initializer,
    ParameterDeclarator, Statement, Suffix,
};

/// A parameter's pointers and arrays.
#[tactic(auto, using(syntax_tree::proofs::SyntaxViews::declaration_views))]
pub fn unnamed_parameter(at: At, stars: u32, arrays: Vec<Array>) -> ParameterDeclarator
    ensures { parameter_declarator_tree result ≡ ParameterDeclaratorTree.Unnamed at stars (map array_tree arrays.items) }
{
    ParameterDeclarator::Unnamed { at, stars, arrays }
}

/// A parameter's pointers, its name and its arrays.
#[tactic(auto, using(syntax_tree::proofs::SyntaxViews::declaration_views))]
pub fn named_parameter(at: At, stars: u32, name: Name, arrays: Vec<Array>) -> ParameterDeclarator
    ensures { parameter_declarator_tree result ≡ ParameterDeclaratorTree.Named at stars name (map array_tree arrays.items) }
{
    ParameterDeclarator::Named {
        at,
        stars,
        name,
        arrays,
    }
}

/// Pointers, a declared name, and what follows it.
#[tactic(auto, using(syntax_tree::proofs::SyntaxViews::declaration_views))]
pub fn named(at: At, stars: u32, name: Name, suffixes: Vec<Suffix>) -> Declarator
    ensures { declarator_tree result ≡ DeclaratorTree.Named at stars name (map suffix_tree suffixes.items) }
{
    Declarator::Named {
        at,
        stars,
        name,
        suffixes,
    }
}

/// An expression as an initializer.
#[tactic(auto, using(syntax_tree::proofs::SyntaxViews::declaration_views))]
pub fn single(value: Expression) -> Initializer
    ensures { initializer_tree result ≡ InitializerTree.Expression (expression_tree value) }
{
    Initializer::Expression(value)
}

/// Parts in braces as an initializer.
#[tactic(auto, using(syntax_tree::proofs::SyntaxViews::declaration_views))]
pub fn braced(at: At, parts: Vec<Initializer>) -> Initializer
    ensures { initializer_tree result ≡ InitializerTree.Braced at (initializer_trees parts.items) }
{
    Initializer::Braced { at, parts }
}

/// `{ items }`
#[tactic(auto, using(syntax_tree::proofs::SyntaxViews::statement_views))]
pub fn block(at: At, items: Vec<BlockItem>) -> Block
    ensures { block_tree result ≡ BlockTree.block at (block_item_trees items.items) }
{
    Block { at, items }
}

#[tactic(auto, using(syntax_tree::proofs::SyntaxViews::statement_views))]
pub fn declaration_item(declaration: Declaration) -> BlockItem
    ensures { block_item_tree result ≡ BlockItemTree.Declaration (declaration_tree declaration) }
{
    BlockItem::Declaration(declaration)
}

#[tactic(auto, using(syntax_tree::proofs::SyntaxViews::statement_views))]
pub fn statement_item(statement: Statement) -> BlockItem
    ensures { block_item_tree result ≡ BlockItemTree.Statement (statement_tree statement) }
{
    BlockItem::Statement(statement)
}

/// A block as a statement.
#[tactic(auto, using(syntax_tree::proofs::SyntaxViews::statement_views))]
pub fn block_statement(block: Block) -> Statement
    ensures { statement_tree result ≡ StatementTree.Block (block_tree block) }
{
    Statement::Block(block)
}

/// `;`
#[tactic(auto, using(syntax_tree::proofs::SyntaxViews::statement_views))]
pub fn empty(at: At) -> Statement
    ensures { statement_tree result ≡ StatementTree.Empty at }
{
    Statement::Empty { at }
}

/// `value ;`
#[tactic(auto, using(syntax_tree::proofs::SyntaxViews::statement_views))]
pub fn value_statement(at: At, value: Expression) -> Statement
    ensures { statement_tree result ≡ StatementTree.Expression at (expression_tree value) }
{
    Statement::Expression { at, value }
}

/// `if ( condition ) then`
#[tactic(auto, using(syntax_tree::proofs::SyntaxViews::statement_views))]
pub fn only_if(at: At, condition: Expression, then: Box<Statement>) -> Statement
    ensures { statement_tree result ≡ StatementTree.If at (expression_tree condition) (statement_tree then.value) }
{
    Statement::If {
        at,
        condition,
        then,
        otherwise: None,
    }
}

/// `if ( condition ) then else otherwise`
#[tactic(auto, using(syntax_tree::proofs::SyntaxViews::statement_views))]
pub fn if_else(
    at: At,
    condition: Expression,
    then: Box<Statement>,
    otherwise: Box<Statement>,
) -> Statement
    ensures { statement_tree result ≡ StatementTree.IfElse at (expression_tree condition) (statement_tree then.value) (statement_tree otherwise.value) }
{
    Statement::If {
        at,
        condition,
        then,
        otherwise: Some(otherwise),
    }
}

/// `while ( condition ) body`
#[tactic(auto, using(syntax_tree::proofs::SyntaxViews::statement_views))]
pub fn while_loop(at: At, condition: Expression, body: Box<Statement>) -> Statement
    ensures { statement_tree result ≡ StatementTree.While at (expression_tree condition) (statement_tree body.value) }
{
    Statement::While {
        at,
        condition,
        body,
    }
}

/// `do body while ( condition ) ;`
#[tactic(auto, using(syntax_tree::proofs::SyntaxViews::statement_views))]
pub fn do_while(at: At, body: Box<Statement>, condition: Expression) -> Statement
    ensures { statement_tree result ≡ StatementTree.DoWhile at (statement_tree body.value) (expression_tree condition) }
{
    Statement::DoWhile {
        at,
        body,
        condition,
    }
}

/// `for ( start condition ; step ) body`
#[tactic(auto, using(syntax_tree::proofs::SyntaxViews::statement_views))]
pub fn for_loop(
    at: At,
    start: ForStart,
    condition: Option<Expression>,
    step: Option<Expression>,
    body: Box<Statement>,
) -> Statement
    ensures { statement_tree result ≡ StatementTree.For at (for_start_tree start) (option_map expression_tree condition) (option_map expression_tree step)
        (statement_tree body.value) }
{
    Statement::For {
        at,
        start,
        condition,
        step,
        body,
    }
}

/// `break ;`
#[tactic(auto, using(syntax_tree::proofs::SyntaxViews::statement_views))]
pub fn break_statement(at: At) -> Statement
    ensures { statement_tree result ≡ StatementTree.Break at }
{
    Statement::Break { at }
}

/// `continue ;`
#[tactic(auto, using(syntax_tree::proofs::SyntaxViews::statement_views))]
pub fn continue_statement(at: At) -> Statement
    ensures { statement_tree result ≡ StatementTree.Continue at }
{
    Statement::Continue { at }
}

/// `return value ;`, or without a value
#[tactic(auto, using(syntax_tree::proofs::SyntaxViews::statement_views))]
pub fn return_statement(at: At, value: Option<Expression>) -> Statement
    ensures { statement_tree result ≡ StatementTree.Return at (option_map expression_tree value) }
{
    Statement::Return { at, value }
}
