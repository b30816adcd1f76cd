//! The code of expressions.
ghost use Rattle.std.specs.Prelude.{◌≡◌, ◌+◌, ◌++◌, ◌<◌, ◌^◌, OnOk, map};
ghost use Rattle.typed_tree.specs.TypesViewed.{ty_of};
ghost use Rattle.typed_tree.specs.TypedTree.{type_of};
ghost use Rattle.typed_tree.specs.TypedViews.{struct_of, expr_of, exprs_of};
ghost use Rattle.typed_tree.specs.Types.{is_unsigned as unsigned_type};
ghost use Rattle.mid_code.specs.Code.{append};
ghost use Rattle.mid_code.specs.Code.Step.{If};
ghost use Rattle.mid_code.specs.Views.{step_of, steps_of};
ghost use Rattle.lowering_code.specs.Lower as lower;
ghost use Rattle.lowering_code.specs.Lower.{only};

use crate::emit::{
    after, choice, is_unsigned, put, put_assign, put_binary, put_casting, put_fitting, put_number,
    put_same, put_stepping, put_unary, right_at, second_at, size_of,
};
use mid_code::code::MidStep;
use std::alloc::{AllocError, Global};
use typed_tree::typed_expr::{Called, TypedExpr, TypedForm};
use typed_tree::types::StructType;

/// The local that an expression names.
pub fn local_of(e: &TypedExpr) -> u32
    ensures { result ≡ lower.local_of (expr_of e.now) }
{
    match &e.form {
        TypedForm::Local(local) => *local,
        _ => 0,
    }
}

/// The code that sets value `to` to the value of an expression, with the values from `to` on.
#[tactic(auto, using(crate::proofs::Emitted::two_more, crate::proofs::Emitted::append_stop, crate::proofs::Emitted::from_nothing, typed_tree::proofs::TypedViewed::typed_views))]
#[cycle(code)]
pub fn code_expr(
    alloc: Global,
    structs: &[StructType],
    e: &TypedExpr,
    to: u32,
    code: &mut Vec<MidStep>,
) -> Result<(), AllocError>
    ensures { OnOk result (steps_of code.new.items ≡ append (steps_of code.old.items) (lower.code (map struct_of structs.now) (expr_of e.now) to)) }
{
    let next = after(to)?;
    match &e.form {
        TypedForm::Local(local) => put_same(code, to, *local)?,
        TypedForm::Number(number) => put_number(code, to, *number)?,
        TypedForm::Character(byte) => put_number(code, to, *byte as u32)?,
        TypedForm::Eof => put_number(code, to, 4294967295)?,
        TypedForm::SizeofExpression(a) => put_number(code, to, size_of(structs, &a.ty))?,
        TypedForm::SizeofType(ty) => put_number(code, to, size_of(structs, ty))?,
        TypedForm::Convert(_, a) => {
            code_expr(alloc, structs, a, to, code)?;
            put_fitting(code, &e.ty, to)?;
        }
        TypedForm::Cast(a) => {
            code_expr(alloc, structs, a, to, code)?;
            put_casting(code, &e.ty, to)?;
        }
        TypedForm::Unary(op, a) => {
            code_expr(alloc, structs, a, to, code)?;
            put_unary(alloc, code, *op, to)?;
        }
        TypedForm::Binary(op, a, b) => {
            code_expr(alloc, structs, a, to, code)?;
            let mut second = Vec::new(alloc);
            code_expr(alloc, structs, b, second_at(*op, to), &mut second)?;
            put_binary(alloc, code, *op, is_unsigned(&a.ty), e.at.line, to, second)?;
        }
        TypedForm::Conditional(q, a, b) => {
            code_expr(alloc, structs, q, to, code)?;
            let mut yes = Vec::new(alloc);
            code_expr(alloc, structs, a, to, &mut yes)?;
            let mut no = Vec::new(alloc);
            code_expr(alloc, structs, b, to, &mut no)?;
            put(code, choice(to, yes, no))?;
        }
        TypedForm::Comma(a, b) => {
            code_expr(alloc, structs, a, to, code)?;
            code_expr(alloc, structs, b, to, code)?;
        }
        TypedForm::Assign(op, a, b) => {
            code_expr(alloc, structs, b, right_at(*op, to), code)?;
            put_assign(code, *op, e.at.line, &a.ty, &b.ty, local_of(a), to)?;
        }
        TypedForm::StepBefore(op, a) => {
            put_stepping(code, *op, &e.ty, local_of(a), to, to)?;
        }
        TypedForm::StepAfter(op, a) => {
            after(next)?;
            put_stepping(code, *op, &e.ty, local_of(a), to, next)?;
        }
        TypedForm::Call(called, args) => {
            let mut places = Vec::new(alloc);
            code_args(alloc, structs, args, to, code, &mut places)?;
            put(code, call_step(*called, e.at.line, to, places))?;
        }
        TypedForm::Global(_)
        | TypedForm::Text(_)
        | TypedForm::Null
        | TypedForm::Index(_, _)
        | TypedForm::Member(_, _)
        | TypedForm::Arrow(_, _) => {}
    }
    Ok(())
}

/// The step of a call, once its arguments are values.
#[tactic(auto, using(mid_code::proofs::Views::step_views))]
fn call_step(called: Called, line: u32, to: u32, args: Vec<u32>) -> MidStep
    ensures { step_of result ≡ lower.calling called line to args.items }
{
    match called {
        Called::Defined(function) => MidStep::Call { to, function, args },
        Called::Library(which) => MidStep::Library {
            to,
            which,
            args,
            line,
            site_a: None,
            site_b: None,
        },
    }
}

/// The code of arguments, with the values from `to` on, and the numbers of those values.
#[cycle(code)]
fn code_args(
    alloc: Global,
    structs: &[StructType],
    args: &[TypedExpr],
    to: u32,
    code: &mut Vec<MidStep>,
    places: &mut Vec<u32>,
) -> Result<(), AllocError>
    ensures code { OnOk result (steps_of code.new.items
        ≡ append (steps_of code.old.items) (lower.all_code (map struct_of structs.now) (exprs_of args.now) to)) }
    ensures places { OnOk result (places.new.items ≡ places.old.items ++ lower.places (exprs_of args.now) to) }
{
    let mut at = to;
    for e in args {
        code_expr(alloc, structs, e, at, code)?;
        places.push(at)?;
        at = after(at)?;
    }
    Ok(())
}
