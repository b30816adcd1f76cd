//! Statements and the declarations in them (C11 6.7, 6.8).
ghost use Rattle.std.specs.Prelude.{◌≡◌, [], map, false, Ok, OnOk};
ghost use Rattle.std.specs.Option.{option_map};
ghost use Rattle.syntax_tree.specs.SyntaxViews.{expression_tree, initializer_tree, init_declarator_tree, declaration_tree};
ghost use Rattle.syntax_tree.specs.SyntaxViews.{for_start_tree, statement_tree, block_tree, block_item_tree, block_item_trees};
ghost use Rattle.typed_tree.specs.TypesViewed.{ty_of};
ghost use Rattle.typed_tree.specs.TypedViews.{expr_of, declaration_of, start_of, stmt_of};
ghost use Rattle.typing_operators.specs.Rule.{Gives, Runs};
ghost use Rattle.typing_expressions.specs.Scene.{scene_of};
ghost use Rattle.typing_expressions.specs.Parts.{parts_of};
ghost use Rattle.typing_declarations.specs.Declarators.{is_taken};
ghost use Rattle.typing_statements.specs.Statements as spec;
ghost use Rattle.typing_statements.specs.StatementSteps.{head_of};
ghost use Rattle.typing_statements.specs.StatementSteps as steps;

use bb_words::list::List;
use c_words::place::{At, Name};
use std::alloc::Global;
use syntax_tree::syntax::{
    Block, BlockItem, Declaration, Expression, ForStart, InitDeclarator, Initializer, Statement,
};
use typed_tree::typed_expr::TypedExpr;
use typed_tree::typed_stmt::{TypedDeclaration, TypedInitializer, TypedStart, TypedStmt};
use typed_tree::types::Ty;
use typing_declarations::declarator::{completed, declared_name, object_type, steps};
use typing_declarations::scopes::{add_name, close, is_taken, open};
use typing_expressions::expression::{based, expression};
use typing_expressions::parts::Part;
use typing_expressions::scene::{Draft, LocalName, Scene};
use typing_initializers::initializer::initialized;
use typing_operators::conversions::{decayed, given, is_void};
use typing_operators::error::TypeError;
use typing_operators::unary::tested;

/// Adds a local, whose name is free in the innermost scope.
#[tactic(auto, using(typing_expressions::proofs::Pushed::drafts_pushed))]
pub fn add_local(alloc: Global, scene: &mut Scene, name: Name, ty: Ty) -> Result<u32, TypeError>
    requires { is_taken (scene_of scene.old) name ≡ false }
    ensures { Runs (λ k. k) (scene_of scene.new) result (steps.added (scene_of scene.old) name (ty_of ty)) }
{
    let Ok(number) = u32::try_from(scene.locals.len()) else {
        return Err(TypeError::Memory);
    };
    let local = LocalName {
        number,
        ty: ty.copied(alloc)?,
    };
    add_name(alloc, scene, name.as_slice(), local)?;
    scene.locals.push(Draft { name, ty })?;
    Ok(number)
}

/// What stands where a local is declared.
#[derive(Clone, Copy)]
struct Places {
    /// The declared name.
    name: At,
    /// The `=`.
    equals: At,
}

/// The declaration of a local, which may be initialized by itself.
#[tactic(auto, using(typed_tree::proofs::TypedViewed::typed_views))]
fn initialized_local(
    alloc: Global,
    scene: &mut Scene,
    initializer: &Option<Initializer>,
    places: Places,
    number: u32,
    ty: &Ty,
) -> Result<TypedDeclaration, TypeError>
    ensures { Runs declaration_of (scene_of scene.new) result
        (spec.initialized_local (scene_of scene.old) places.name number (ty_of ty.now) places.equals (option_map initializer_tree initializer.now)) }
{
    match initializer {
        None => Ok(TypedDeclaration {
            at: places.name,
            local: number,
            initializer: None,
        }),
        Some(found) => {
            let value = initialized(alloc, scene, found, false, places.name.line, ty)?;
            Ok(TypedDeclaration {
                at: places.name,
                local: number,
                initializer: Some(TypedInitializer {
                    at: places.equals,
                    value,
                }),
            })
        }
    }
}

/// The declaration of a local, behind its declarator.
fn local_from(
    alloc: Global,
    scene: &mut Scene,
    initializer: &Option<Initializer>,
    places: Places,
    name: Name,
    base: &Ty,
    parts: Vec<Part>,
) -> Result<TypedDeclaration, TypeError>
    ensures { Runs declaration_of (scene_of scene.new) result
        (steps.local_from (scene_of scene.old) (ty_of base.now) places.name places.equals name (option_map initializer_tree initializer.now)
        (parts_of parts.items)) }
{
    if is_taken(scene, name.as_slice()) {
        return Err(TypeError::Twice {
            line: places.name.line,
            name,
        });
    }
    let parts = completed(alloc, base, initializer, parts)?;
    let base = base.copied(alloc)?;
    let ty = object_type(
        alloc,
        scene.structs.as_slice(),
        places.name.line,
        base,
        parts,
    )?;
    let number = add_local(alloc, scene, name, ty.copied(alloc)?)?;
    initialized_local(alloc, scene, initializer, places, number, &ty)
}

/// The declaration of a local.
fn local(
    alloc: Global,
    scene: &mut Scene,
    declarator: &InitDeclarator,
    base: &Ty,
) -> Result<TypedDeclaration, TypeError>
    ensures { Runs declaration_of (scene_of scene.new) result (spec.local (scene_of scene.old) (ty_of base.now) (init_declarator_tree declarator.now)) }
{
    let parts = steps(alloc, scene, &declarator.declarator)?;
    let name = List::copy_of(alloc, declared_name(&declarator.declarator))?;
    let places = Places {
        name: declarator.declarator.at(),
        equals: declarator.at,
    };
    local_from(
        alloc,
        scene,
        &declarator.initializer,
        places,
        name,
        base,
        parts,
    )
}

/// The declarations of locals of one specifier.
#[tactic(auto, using(typing_expressions::proofs::Pushed::declarations_pushed))]
fn locals(
    alloc: Global,
    scene: &mut Scene,
    declarators: &[InitDeclarator],
    base: &Ty,
) -> Result<Vec<TypedDeclaration>, TypeError>
    ensures { Runs (λ ds. map declaration_of ds.items) (scene_of scene.new) result
        (spec.locals [] (scene_of scene.old) (ty_of base.now) (map init_declarator_tree declarators.now)) }
{
    let mut done = Vec::new(alloc);
    for declarator in declarators {
        let declaration = local(alloc, scene, declarator, base)?;
        done.push(declaration)?;
    }
    Ok(done)
}

/// A declaration in a block.
fn declaration(
    alloc: Global,
    scene: &mut Scene,
    tree: &Declaration,
) -> Result<Vec<TypedDeclaration>, TypeError>
    ensures { Runs (λ ds. map declaration_of ds.items) (scene_of scene.new) result (spec.declaration (scene_of scene.old) (declaration_tree tree.now)) }
{
    let base = based(alloc, scene, &tree.specifier)?;
    locals(alloc, scene, tree.declarators.as_slice(), &base)
}

/// An expression whose value is not used.
fn evaluated(alloc: Global, scene: &mut Scene, e: &Expression) -> Result<TypedExpr, TypeError>
    ensures { Runs expr_of (scene_of scene.new) result (spec.evaluated (scene_of scene.old) (expression_tree e.now)) }
{
    let value = expression(alloc, scene, e)?;
    Ok(decayed(alloc, value)?)
}

/// The condition of a statement on the line.
fn condition(
    alloc: Global,
    scene: &mut Scene,
    line: u32,
    e: &Expression,
) -> Result<TypedExpr, TypeError>
    ensures { Runs expr_of (scene_of scene.new) result (spec.condition (scene_of scene.old) line (expression_tree e.now)) }
{
    let value = expression(alloc, scene, e)?;
    Ok(tested(alloc, line, value)?)
}

/// A condition that may be missing.
fn condition_if_any(
    alloc: Global,
    scene: &mut Scene,
    line: u32,
    e: &Option<Expression>,
) -> Result<Option<TypedExpr>, TypeError>
    ensures { Runs (option_map expr_of) (scene_of scene.new) result
        (spec.if_any (λ u. spec.condition u line) (scene_of scene.old) (option_map expression_tree e.now)) }
{
    match e {
        None => Ok(None),
        Some(found) => {
            let value = condition(alloc, scene, line, found)?;
            Ok(Some(value))
        }
    }
}

/// An expression that may be missing, and whose value is not used.
fn evaluated_if_any(
    alloc: Global,
    scene: &mut Scene,
    e: &Option<Expression>,
) -> Result<Option<TypedExpr>, TypeError>
    ensures { Runs (option_map expr_of) (scene_of scene.new) result (spec.if_any spec.evaluated (scene_of scene.old) (option_map expression_tree e.now)) }
{
    match e {
        None => Ok(None),
        Some(found) => {
            let value = evaluated(alloc, scene, found)?;
            Ok(Some(value))
        }
    }
}

/// What a `for` begins with.
fn start(alloc: Global, scene: &mut Scene, tree: &ForStart) -> Result<TypedStart, TypeError>
    ensures { Runs start_of (scene_of scene.new) result (spec.start (scene_of scene.old) (for_start_tree tree.now)) }
{
    match tree {
        ForStart::Declaration(tree) => {
            let declarations = declaration(alloc, scene, tree)?;
            Ok(TypedStart::Declare(declarations))
        }
        ForStart::Expression(None) => Ok(TypedStart::Nothing),
        ForStart::Expression(Some(e)) => {
            let value = evaluated(alloc, scene, e)?;
            Ok(TypedStart::Eval(value))
        }
    }
}

/// What stands between the brackets of a `for`.
#[derive(Drop)]
pub struct Head {
    start: TypedStart,
    condition: Option<TypedExpr>,
    step: Option<TypedExpr>,
}

/// What stands between the brackets of a `for` on the line.
fn head_from(
    alloc: Global,
    scene: &mut Scene,
    line: u32,
    from: &ForStart,
    e: &Option<Expression>,
    after: &Option<Expression>,
) -> Result<Head, TypeError>
    ensures { Runs head_of (scene_of scene.new) result
        (steps.head (scene_of scene.old) line (for_start_tree from.now) (option_map expression_tree e.now) (option_map expression_tree after.now)) }
{
    let start = start(alloc, scene, from)?;
    let condition = condition_if_any(alloc, scene, line, e)?;
    let step = evaluated_if_any(alloc, scene, after)?;
    Ok(Head {
        start,
        condition,
        step,
    })
}

/// A `for` with its body.
fn with_head(alloc: Global, at: At, head: Head, body: TypedStmt) -> Result<TypedStmt, TypeError>
    ensures { Gives stmt_of result (Ok (steps.with_head at (head_of head) (stmt_of body))) }
{
    Ok(TypedStmt::for_loop(alloc, at, head.start, head.condition, head.step, body)?)
}

/// `return`, with a value or without one.
#[tactic(auto, using(typed_tree::proofs::TypedViewed::typed_views))]
fn return_from(
    alloc: Global,
    scene: &mut Scene,
    value: &Option<Expression>,
    at: At,
    returned: &Ty,
) -> Result<TypedStmt, TypeError>
    ensures { Runs stmt_of (scene_of scene.new) result (steps.return_from (ty_of returned.now) (scene_of scene.old) at (option_map expression_tree value.now)) }
{
    match value {
        None => {
            if !is_void(returned) {
                return Err(TypeError::BadType {
                    line: at.line,
                    rule: 18,
                });
            }
            Ok(TypedStmt::Return(at, None))
        }
        Some(e) => {
            let value = expression(alloc, scene, e)?;
            if is_void(returned) {
                return Err(TypeError::BadType {
                    line: at.line,
                    rule: 18,
                });
            }
            let value = given(alloc, at.line, returned, value)?;
            Ok(TypedStmt::Return(at, Some(value)))
        }
    }
}

/// `break`, which stands in a loop.
#[tactic(auto, using(typed_tree::proofs::TypedViewed::typed_views))]
fn break_from(at: At, in_loop: bool) -> Result<TypedStmt, TypeError>
    ensures { Gives stmt_of result (steps.break_from at in_loop) }
{
    if !in_loop {
        return Err(TypeError::BadType {
            line: at.line,
            rule: 17,
        });
    }
    Ok(TypedStmt::Break(at))
}

/// `continue`, which stands in a loop.
#[tactic(auto, using(typed_tree::proofs::TypedViewed::typed_views))]
fn continue_from(at: At, in_loop: bool) -> Result<TypedStmt, TypeError>
    ensures { Gives stmt_of result (steps.continue_from at in_loop) }
{
    if !in_loop {
        return Err(TypeError::BadType {
            line: at.line,
            rule: 17,
        });
    }
    Ok(TypedStmt::Continue(at))
}

/// Adds declarations, each as a statement of its own.
#[tactic(auto, using(typing_expressions::proofs::Pushed::statements_pushed))]
fn add_declarations(
    done: &mut Vec<TypedStmt>,
    declarations: Vec<TypedDeclaration>,
) -> Result<(), TypeError>
    ensures { Gives (λ u. map stmt_of done.new.items) result
        (Ok (steps.with_declarations (map stmt_of done.old.items) (map declaration_of declarations.items))) }
{
    for declaration in declarations {
        done.push(TypedStmt::Declare(declaration))?;
    }
    Ok(())
}

/// A statement, in a function that returns the type, and in a loop or in none.
#[cycle(statements)]
#[tactic(auto, using(syntax_tree::proofs::SyntaxViews::statement_views, typed_tree::proofs::TypedViewed::typed_views))]
fn statement(
    alloc: Global,
    scene: &mut Scene,
    tree: &Statement,
    returned: &Ty,
    in_loop: bool,
) -> Result<TypedStmt, TypeError>
    ensures { Runs stmt_of (scene_of scene.new) result
        (spec.statement (steps.around (ty_of returned.now) in_loop) (scene_of scene.old) (statement_tree tree.now)) }
{
    match tree {
        Statement::Block(tree) => {
            open(alloc, scene)?;
            let inner = block(alloc, scene, tree, returned, in_loop)?;
            close(scene);
            Ok(inner)
        }
        Statement::Empty { at } => Ok(TypedStmt::Empty(*at)),
        Statement::Expression { at, value } => {
            let value = evaluated(alloc, scene, value)?;
            Ok(TypedStmt::Eval(*at, value))
        }
        Statement::If {
            at,
            condition: e,
            then,
            otherwise,
        } => match otherwise {
            None => {
                let value = condition(alloc, scene, at.line, e)?;
                let body = statement(alloc, scene, then, returned, in_loop)?;
                Ok(TypedStmt::if_then(alloc, *at, value, body)?)
            }
            Some(other) => {
                let value = condition(alloc, scene, at.line, e)?;
                let body = statement(alloc, scene, then, returned, in_loop)?;
                let other = statement(alloc, scene, other, returned, in_loop)?;
                Ok(TypedStmt::if_else(alloc, *at, value, body, other)?)
            }
        },
        Statement::While {
            at,
            condition: e,
            body,
        } => {
            let value = condition(alloc, scene, at.line, e)?;
            let body = statement(alloc, scene, body, returned, true)?;
            Ok(TypedStmt::while_loop(alloc, *at, value, body)?)
        }
        Statement::DoWhile {
            at,
            body,
            condition: e,
        } => {
            let body = statement(alloc, scene, body, returned, true)?;
            let value = condition(alloc, scene, at.line, e)?;
            Ok(TypedStmt::do_loop(alloc, *at, body, value)?)
        }
        Statement::For {
            at,
            start: from,
            condition: e,
            step: after,
            body,
        } => {
            open(alloc, scene)?;
            let head = head_from(alloc, scene, at.line, from, e, after)?;
            let body = statement(alloc, scene, body, returned, true)?;
            close(scene);
            Ok(with_head(alloc, *at, head, body)?)
        }
        Statement::Break { at } => Ok(break_from(*at, in_loop)?),
        Statement::Continue { at } => Ok(continue_from(*at, in_loop)?),
        Statement::Return { at, value } => return_from(alloc, scene, value, *at, returned),
    }
}

/// A block, in the scope that stands.
#[cycle(statements)]
#[tactic(auto, using(syntax_tree::proofs::SyntaxViews::statement_views, typed_tree::proofs::TypedViewed::typed_views))]
pub fn block(
    alloc: Global,
    scene: &mut Scene,
    tree: &Block,
    returned: &Ty,
    in_loop: bool,
) -> Result<TypedStmt, TypeError>
    ensures { Runs stmt_of (scene_of scene.new) result (spec.block (steps.around (ty_of returned.now) in_loop) (scene_of scene.old) (block_tree tree.now)) }
{
    let statements = items(alloc, scene, &tree.items, returned, in_loop)?;
    Ok(TypedStmt::Block(tree.at, statements))
}

/// What stands in a block.
#[cycle(statements)]
fn items(
    alloc: Global,
    scene: &mut Scene,
    trees: &[BlockItem],
    returned: &Ty,
    in_loop: bool,
) -> Result<Vec<TypedStmt>, TypeError>
    ensures { Runs (λ xs. map stmt_of xs.items) (scene_of scene.new) result
        (spec.items (steps.around (ty_of returned.now) in_loop) [] (scene_of scene.old) (block_item_trees trees.now)) }
{
    let mut done = Vec::new(alloc);
    for tree in trees {
        item(alloc, scene, tree, &mut done, returned, in_loop)?;
    }
    Ok(done)
}

/// Adds what stands in a block: a declaration is as many statements as it has declarators.
#[cycle(statements)]
#[tactic(auto, using(syntax_tree::proofs::SyntaxViews::statement_views, typing_expressions::proofs::Pushed::statements_pushed))]
fn item(
    alloc: Global,
    scene: &mut Scene,
    tree: &BlockItem,
    done: &mut Vec<TypedStmt>,
    returned: &Ty,
    in_loop: bool,
) -> Result<(), TypeError>
    ensures { Runs (λ u. map stmt_of done.new.items) (scene_of scene.new) result
        (spec.item (steps.around (ty_of returned.now) in_loop) (map stmt_of done.old.items) (scene_of scene.old) (block_item_tree tree.now)) }
{
    match tree {
        BlockItem::Declaration(tree) => {
            let declarations = declaration(alloc, scene, tree)?;
            add_declarations(done, declarations)
        }
        BlockItem::Statement(tree) => {
            let value = statement(alloc, scene, tree, returned, in_loop)?;
            Ok(done.push(value)?)
        }
    }
}
