//! The code of statements.
ghost use Rattle.std.specs.Prelude.{◌≡◌, ◌+◌, OnOk, map};
ghost use Rattle.std.specs.Option.{option_map};
ghost use Rattle.typed_tree.specs.TypedViews.{struct_of, expr_of, initial_of, initializer_of, declaration_of, start_of, stmt_of, stmts_of};
ghost use Rattle.mid_code.specs.Code.{append};
ghost use Rattle.mid_code.specs.Views.{step_of, steps_of};
ghost use Rattle.lowering_code.specs.Lower as lower;

use crate::code_expr::code_expr;
use crate::emit::{
    after, block, choice, put, put_exit, put_leaving, put_line, put_return, put_same, repeat,
};
use mid_code::code::MidStep;
use std::alloc::{AllocError, Global};
use typed_tree::typed_expr::TypedExpr;
use typed_tree::typed_stmt::{
    TypedDeclaration, TypedInitial, TypedInitializer, TypedStart, TypedStmt,
};
use typed_tree::types::StructType;

/// The code of an expression, if there is one.
#[tactic(auto, using(crate::proofs::Emitted::append_stop))]
fn code_if_any(
    alloc: Global,
    structs: &[StructType],
    e: &Option<TypedExpr>,
    to: u32,
    code: &mut Vec<MidStep>,
) -> Result<(), AllocError>
    ensures { OnOk result (steps_of code.new.items
        ≡ append (steps_of code.old.items) (lower.code_if_any (map struct_of structs.now) (option_map expr_of e.now) to)) }
{
    match e {
        None => {}
        Some(e) => code_expr(alloc, structs, e, to, code)?,
    }
    Ok(())
}

/// The test of a `for`.
#[tactic(auto, using(crate::proofs::Emitted::two_more, crate::proofs::Emitted::append_stop))]
fn code_test(
    alloc: Global,
    structs: &[StructType],
    e: &Option<TypedExpr>,
    to: u32,
    code: &mut Vec<MidStep>,
) -> Result<(), AllocError>
    ensures { OnOk result (steps_of code.new.items
        ≡ append (steps_of code.old.items) (lower.test_code (map struct_of structs.now) (option_map expr_of e.now) to)) }
{
    match e {
        None => {}
        Some(e) => {
            code_expr(alloc, structs, e, to, code)?;
            put_leaving(alloc, code, to)?;
        }
    }
    Ok(())
}

/// The code of an initializer's value, given to a local.
#[tactic(auto, using(crate::proofs::Emitted::two_more, crate::proofs::Emitted::append_stop, typed_tree::proofs::TypedViewed::typed_views))]
fn code_initial(
    alloc: Global,
    structs: &[StructType],
    x: &TypedInitial,
    local: u32,
    to: u32,
    code: &mut Vec<MidStep>,
) -> Result<(), AllocError>
    ensures { OnOk result (steps_of code.new.items
        ≡ append (steps_of code.old.items) (lower.initial_code (map struct_of structs.now) (initial_of x.now) local to)) }
{
    match x {
        TypedInitial::Value(e) => {
            code_expr(alloc, structs, e, to, code)?;
            put_same(code, local, to)?;
        }
        TypedInitial::Text(_, _) | TypedInitial::Braces(_, _) => {}
    }
    Ok(())
}

#[tactic(auto, using(crate::proofs::Emitted::append_stop))]
fn code_initializer(
    alloc: Global,
    structs: &[StructType],
    x: &Option<TypedInitializer>,
    local: u32,
    to: u32,
    code: &mut Vec<MidStep>,
) -> Result<(), AllocError>
    ensures { OnOk result (steps_of code.new.items
        ≡ append (steps_of code.old.items) (lower.initializer_code (map struct_of structs.now) (option_map initializer_of x.now) local to)) }
{
    match x {
        None => {}
        Some(x) => code_initial(alloc, structs, &x.value, local, to, code)?,
    }
    Ok(())
}

/// The code of a declaration.
fn code_declaration(
    alloc: Global,
    structs: &[StructType],
    x: &TypedDeclaration,
    to: u32,
    code: &mut Vec<MidStep>,
) -> Result<(), AllocError>
    ensures { OnOk result (steps_of code.new.items
        ≡ append (steps_of code.old.items) (lower.declaration_code (map struct_of structs.now) (declaration_of x.now) to)) }
{
    code_initializer(alloc, structs, &x.initializer, x.local, to, code)?;
    Ok(())
}

fn code_declarations(
    alloc: Global,
    structs: &[StructType],
    declarations: &[TypedDeclaration],
    to: u32,
    code: &mut Vec<MidStep>,
) -> Result<(), AllocError>
    ensures { OnOk result (steps_of code.new.items
        ≡ append (steps_of code.old.items) (lower.declarations_code (map struct_of structs.now) (map declaration_of declarations.now) to)) }
{
    for x in declarations {
        code_declaration(alloc, structs, x, to, code)?;
    }
    Ok(())
}

/// The code of what a `for` begins with.
#[tactic(auto, using(crate::proofs::Emitted::append_stop))]
fn code_start(
    alloc: Global,
    structs: &[StructType],
    x: &TypedStart,
    to: u32,
    code: &mut Vec<MidStep>,
) -> Result<(), AllocError>
    ensures { OnOk result (steps_of code.new.items ≡ append (steps_of code.old.items) (lower.start_code (map struct_of structs.now) (start_of x.now) to)) }
{
    match x {
        TypedStart::Nothing => {}
        TypedStart::Eval(e) => code_expr(alloc, structs, e, to, code)?,
        TypedStart::Declare(declarations) => {
            code_declarations(alloc, structs, declarations, to, code)?
        }
    }
    Ok(())
}

/// The code of `return`.
#[tactic(auto, using(crate::proofs::Emitted::two_more))]
fn code_return(
    alloc: Global,
    structs: &[StructType],
    e: &Option<TypedExpr>,
    back: u32,
    to: u32,
    code: &mut Vec<MidStep>,
) -> Result<(), AllocError>
    ensures { OnOk result (steps_of code.new.items
        ≡ append (steps_of code.old.items) (lower.return_code (map struct_of structs.now) (option_map expr_of e.now) back to)) }
{
    match e {
        None => put_exit(code, back)?,
        Some(e) => {
            code_expr(alloc, structs, e, to, code)?;
            put_return(code, to)?;
        }
    }
    Ok(())
}

/// The code of a statement, with `back` Blocks and Loops around it, in a function whose locals are the values below `to`.
#[tactic(auto, using(crate::proofs::Emitted::statements, typed_tree::proofs::TypedViewed::typed_views))]
#[cycle(stmt)]
pub fn code_stmt(
    alloc: Global,
    structs: &[StructType],
    x: &TypedStmt,
    back: u32,
    to: u32,
    code: &mut Vec<MidStep>,
) -> Result<(), AllocError>
    ensures { OnOk result (steps_of code.new.items ≡ append (steps_of code.old.items) (lower.stmt_code (map struct_of structs.now) (stmt_of x.now) back to)) }
{
    let one = after(back)?;
    let two = after(one)?;
    match x {
        TypedStmt::Block(at, statements) => {
            put_line(code, at.line)?;
            code_stmts(alloc, structs, statements, back, to, code)?;
        }
        TypedStmt::Declare(declaration) => {
            code_declaration(alloc, structs, declaration, to, code)?;
        }
        TypedStmt::Empty(at) => put_line(code, at.line)?,
        TypedStmt::Eval(at, e) => {
            put_line(code, at.line)?;
            code_expr(alloc, structs, e, to, code)?;
        }
        TypedStmt::If {
            at,
            condition,
            body,
            otherwise,
        } => match otherwise {
            None => {
                put_line(code, at.line)?;
                code_expr(alloc, structs, condition, to, code)?;
                let mut yes = Vec::new(alloc);
                code_stmt(alloc, structs, body, back, to, &mut yes)?;
                put(code, choice(to, yes, Vec::new(alloc)))?;
            }
            Some(otherwise) => {
                put_line(code, at.line)?;
                code_expr(alloc, structs, condition, to, code)?;
                let mut yes = Vec::new(alloc);
                code_stmt(alloc, structs, body, back, to, &mut yes)?;
                let mut no = Vec::new(alloc);
                code_stmt(alloc, structs, otherwise, back, to, &mut no)?;
                put(code, choice(to, yes, no))?;
            }
        },
        TypedStmt::While {
            at,
            condition,
            body,
        } => {
            put_line(code, at.line)?;
            let mut turn = Vec::new(alloc);
            code_expr(alloc, structs, condition, to, &mut turn)?;
            put_leaving(alloc, &mut turn, to)?;
            let mut inner = Vec::new(alloc);
            code_stmt(alloc, structs, body, two, to, &mut inner)?;
            put(&mut turn, block(inner))?;
            put(code, repeat(turn))?;
        }
        TypedStmt::Do {
            at,
            body,
            condition,
        } => {
            put_line(code, at.line)?;
            let mut inner = Vec::new(alloc);
            code_stmt(alloc, structs, body, two, to, &mut inner)?;
            let mut turn = Vec::new(alloc);
            put(&mut turn, block(inner))?;
            code_expr(alloc, structs, condition, to, &mut turn)?;
            put_leaving(alloc, &mut turn, to)?;
            put(code, repeat(turn))?;
        }
        TypedStmt::For {
            at,
            start,
            condition,
            step,
            body,
        } => {
            put_line(code, at.line)?;
            code_start(alloc, structs, start, to, code)?;
            let mut turn = Vec::new(alloc);
            code_test(alloc, structs, condition, to, &mut turn)?;
            let mut inner = Vec::new(alloc);
            code_stmt(alloc, structs, body, two, to, &mut inner)?;
            put(&mut turn, block(inner))?;
            code_if_any(alloc, structs, step, to, &mut turn)?;
            put(code, repeat(turn))?;
        }
        TypedStmt::Break(at) => {
            put_line(code, at.line)?;
            put_exit(code, 2)?;
        }
        TypedStmt::Continue(at) => {
            put_line(code, at.line)?;
            put_exit(code, 1)?;
        }
        TypedStmt::Return(at, e) => {
            put_line(code, at.line)?;
            code_return(alloc, structs, e, back, to, code)?;
        }
    }
    Ok(())
}

#[cycle(stmt)]
fn code_stmts(
    alloc: Global,
    structs: &[StructType],
    statements: &[TypedStmt],
    back: u32,
    to: u32,
    code: &mut Vec<MidStep>,
) -> Result<(), AllocError>
    ensures { OnOk result (steps_of code.new.items
        ≡ append (steps_of code.old.items) (lower.stmts_code (map struct_of structs.now) (stmts_of statements.now) back to)) }
{
    for x in statements {
        code_stmt(alloc, structs, x, back, to, code)?;
    }
    Ok(())
}
