//! What is counted of statements.
ghost use Rattle.std.specs.Prelude.{◌≡◌, ◌+◌, ◌&&◌, true, min, max, map};
ghost use Rattle.std.specs.Option.{option_map};
ghost use Rattle.typed_tree.specs.TypedViews.{expr_of, initial_of, initials_of, initializer_of, declaration_of, start_of, stmt_of, stmts_of};
ghost use Rattle.typed_tree.specs.Walk.{over_initial, over_initials, over_initializer, over_declaration};
ghost use Rattle.typed_tree.specs.Walk.{over_declarations, over_start, over_expr_if_any, over_stmt, over_stmts};
ghost use Rattle.lowering_counts.specs.Room as room;

use crate::survey::{Survey, both, greater, survey_expr};
use typed_tree::typed_expr::TypedExpr;
use typed_tree::typed_stmt::{
    TypedDeclaration, TypedInitial, TypedInitializer, TypedStart, TypedStmt,
};

/// What so many nodes by themselves count.
fn so_many(nodes: u32) -> Survey
    ensures nodes { result.nodes ≡ nodes }
    ensures temps { result.temps ≡ 0 }
    ensures built { result.built ≡ true }
{
    Survey {
        nodes,
        temps: 0,
        built: true,
    }
}

/// What two parts count together.
fn joined(a: Survey, b: Survey) -> Survey
    ensures nodes { result.nodes ≡ min (a.nodes + b.nodes) 4294967295 }
    ensures temps { result.temps ≡ max a.temps b.temps }
    ensures built { result.built ≡ (a.built && b.built) }
{
    Survey {
        nodes: a.nodes.saturating_add(b.nodes),
        temps: greater(a.temps, b.temps),
        built: both(a.built, b.built),
    }
}

/// What a string that initializes an array counts.
fn string(bytes: usize) -> Survey
    ensures nodes { result.nodes ≡ min (1 + bytes) 4294967295 }
    ensures temps { result.temps ≡ 4 }
    ensures built { result.built ≡ true }
{
    let bytes = if bytes < 4294967295 {
        bytes as u32
    } else {
        4294967295
    };
    Survey {
        nodes: bytes.saturating_add(1),
        temps: 4,
        built: true,
    }
}

#[tactic(auto, using(crate::proofs::Counted::parts))]
#[cycle(initial)]
fn survey_initial(x: &TypedInitial) -> Survey
    ensures nodes { result.nodes ≡ min (over_initial room.nodes (initial_of x.now)) 4294967295 }
    ensures temps { result.temps ≡ min (over_initial room.temps (initial_of x.now)) 4294967295 }
    ensures built { result.built ≡ over_initial room.built (initial_of x.now) }
{
    match x {
        TypedInitial::Value(e) => survey_expr(e),
        TypedInitial::Text(_, bytes) => string(bytes.len()),
        TypedInitial::Braces(_, parts) => survey_initials(parts),
    }
}

#[cycle(initial)]
fn survey_initials(parts: &[TypedInitial]) -> Survey
    ensures nodes { result.nodes ≡ min (over_initials room.nodes (initials_of parts.now)) 4294967295 }
    ensures temps { result.temps ≡ min (over_initials room.temps (initials_of parts.now)) 4294967295 }
    ensures built { result.built ≡ over_initials room.built (initials_of parts.now) }
{
    let mut total = so_many(0);
    for x in parts {
        total = joined(total, survey_initial(x));
    }
    total
}

fn survey_initializer(x: &Option<TypedInitializer>) -> Survey
    ensures nodes { result.nodes ≡ min (over_initializer room.nodes (option_map initializer_of x.now)) 4294967295 }
    ensures temps { result.temps ≡ min (over_initializer room.temps (option_map initializer_of x.now)) 4294967295 }
    ensures built { result.built ≡ over_initializer room.built (option_map initializer_of x.now) }
{
    match x {
        None => so_many(0),
        Some(x) => survey_initial(&x.value),
    }
}

#[tactic(auto, using(crate::proofs::Counted::parts))]
fn survey_declaration(x: &TypedDeclaration) -> Survey
    ensures nodes { result.nodes ≡ min (over_declaration room.nodes (declaration_of x.now)) 4294967295 }
    ensures temps { result.temps ≡ min (over_declaration room.temps (declaration_of x.now)) 4294967295 }
    ensures built { result.built ≡ over_declaration room.built (declaration_of x.now) }
{
    joined(so_many(1), survey_initializer(&x.initializer))
}

fn survey_declarations(declarations: &[TypedDeclaration]) -> Survey
    ensures nodes { result.nodes ≡ min (over_declarations room.nodes (map declaration_of declarations.now)) 4294967295 }
    ensures temps { result.temps ≡ min (over_declarations room.temps (map declaration_of declarations.now)) 4294967295 }
    ensures built { result.built ≡ over_declarations room.built (map declaration_of declarations.now) }
{
    let mut total = so_many(0);
    for x in declarations {
        total = joined(total, survey_declaration(x));
    }
    total
}

fn survey_start(x: &TypedStart) -> Survey
    ensures nodes { result.nodes ≡ min (over_start room.nodes (start_of x.now)) 4294967295 }
    ensures temps { result.temps ≡ min (over_start room.temps (start_of x.now)) 4294967295 }
    ensures built { result.built ≡ over_start room.built (start_of x.now) }
{
    match x {
        TypedStart::Nothing => so_many(0),
        TypedStart::Eval(e) => survey_expr(e),
        TypedStart::Declare(declarations) => survey_declarations(declarations),
    }
}

fn survey_if_any(x: &Option<TypedExpr>) -> Survey
    ensures nodes { result.nodes ≡ min (over_expr_if_any room.nodes (option_map expr_of x.now)) 4294967295 }
    ensures temps { result.temps ≡ min (over_expr_if_any room.temps (option_map expr_of x.now)) 4294967295 }
    ensures built { result.built ≡ over_expr_if_any room.built (option_map expr_of x.now) }
{
    match x {
        None => so_many(0),
        Some(e) => survey_expr(e),
    }
}

/// What a statement counts.
#[tactic(auto, using(crate::proofs::Counted::parts))]
#[cycle(stmt)]
pub fn survey_stmt(x: &TypedStmt) -> Survey
    ensures nodes { result.nodes ≡ min (over_stmt room.nodes (stmt_of x.now)) 4294967295 }
    ensures temps { result.temps ≡ min (over_stmt room.temps (stmt_of x.now)) 4294967295 }
    ensures built { result.built ≡ over_stmt room.built (stmt_of x.now) }
{
    match x {
        TypedStmt::Block(_, statements) => joined(so_many(1), survey_stmts(statements)),
        TypedStmt::Declare(declaration) => survey_declaration(declaration),
        TypedStmt::Empty(_) | TypedStmt::Break(_) | TypedStmt::Continue(_) => so_many(1),
        TypedStmt::Eval(_, e) => joined(so_many(1), survey_expr(e)),
        TypedStmt::If {
            at: _,
            condition,
            body,
            otherwise: None,
        } => joined(
            so_many(1),
            joined(survey_expr(condition), survey_stmt(body)),
        ),
        TypedStmt::If {
            at: _,
            condition,
            body,
            otherwise: Some(otherwise),
        } => {
            let branches = joined(survey_stmt(body), survey_stmt(otherwise));
            joined(so_many(1), joined(survey_expr(condition), branches))
        }
        TypedStmt::While {
            at: _,
            condition,
            body,
        } => joined(
            so_many(1),
            joined(survey_expr(condition), survey_stmt(body)),
        ),
        TypedStmt::Do {
            at: _,
            body,
            condition,
        } => joined(
            so_many(1),
            joined(survey_stmt(body), survey_expr(condition)),
        ),
        TypedStmt::For {
            at: _,
            start,
            condition,
            step,
            body,
        } => {
            let turn = joined(survey_if_any(step), survey_stmt(body));
            let rest = joined(survey_start(start), joined(survey_if_any(condition), turn));
            joined(so_many(1), rest)
        }
        TypedStmt::Return(_, e) => joined(so_many(1), survey_if_any(e)),
    }
}

#[cycle(stmt)]
fn survey_stmts(statements: &[TypedStmt]) -> Survey
    ensures nodes { result.nodes ≡ min (over_stmts room.nodes (stmts_of statements.now)) 4294967295 }
    ensures temps { result.temps ≡ min (over_stmts room.temps (stmts_of statements.now)) 4294967295 }
    ensures built { result.built ≡ over_stmts room.built (stmts_of statements.now) }
{
    let mut total = so_many(0);
    for x in statements {
        total = joined(total, survey_stmt(x));
    }
    total
}
