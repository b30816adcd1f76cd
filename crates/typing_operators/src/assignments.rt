//! The rules of assignments (C11 6.5.16).
ghost use Rattle.std.specs.Prelude.{◌≡◌, map};
ghost use Rattle.typed_tree.specs.TypesViewed.{ty_of};
ghost use Rattle.typed_tree.specs.TypedViews.{expr_of, struct_of};
ghost use Rattle.typing_operators.specs.Rule.{Gives};
ghost use Rattle.typing_operators.specs.Operators as spec;

use crate::binary::{both_numbers, is_move, sum_rule};
use crate::conversions::{as_number, as_promoted, common, decayed, given, is_struct, is_void};
use crate::error::TypeError;
use crate::unary::is_assignable;
use c_words::operators::AssignOperator;
use c_words::place::At;
use std::alloc::Global;
use typed_tree::typed_expr::TypedExpr;
use typed_tree::types::{StructType, Ty};

/// What a struct of the type is copied from: a place of the same struct.
#[tactic(auto, unfolding(crate::specs::Operators::copied_from))]
pub fn copied_from(line: u32, ty: &Ty, y: TypedExpr) -> Result<TypedExpr, TypeError>
    ensures { Gives expr_of result (spec.copied_from line (ty_of ty.now) (expr_of y)) }
{
    if is_void(&y.ty) {
        return Err(TypeError::BadType { line, rule: 19 });
    }
    if !(y.is_place() && y.ty.is_same(ty)) {
        return Err(TypeError::BadType { line, rule: 23 });
    }
    Ok(y)
}

fn set_to(alloc: Global, at: At, x: TypedExpr, y: TypedExpr) -> Result<TypedExpr, TypeError>
    ensures { Gives expr_of result (spec.set_to at (expr_of x) (expr_of y)) }
{
    if is_struct(&x.ty) {
        let value = copied_from(at.line, &x.ty, y)?;
        return Ok(TypedExpr::assign(alloc, at, Ty::Void, AssignOperator::Assign, x, value)?);
    }
    let value = given(alloc, at.line, &x.ty, y)?;
    let ty = x.ty.copied(alloc)?;
    Ok(TypedExpr::assign(alloc, at, ty, AssignOperator::Assign, x, value)?)
}

#[tactic(auto, unfolding(crate::specs::Operators::reckoned))]
fn reckoned(
    alloc: Global,
    at: At,
    operator: AssignOperator,
    x: TypedExpr,
    y: TypedExpr,
) -> Result<TypedExpr, TypeError>
    ensures { Gives expr_of result (spec.reckoned at operator (expr_of x) (expr_of y)) }
{
    if !both_numbers(&x, &y) {
        return Err(TypeError::BadType {
            line: at.line,
            rule: 7,
        });
    }
    let both = common(&x.ty, &y.ty);
    let y = as_number(alloc, &both, y)?;
    let ty = x.ty.copied(alloc)?;
    Ok(TypedExpr::assign(alloc, at, ty, operator, x, y)?)
}

#[tactic(auto, unfolding(crate::specs::Operators::shifted_in))]
fn shifted_in(
    alloc: Global,
    at: At,
    operator: AssignOperator,
    x: TypedExpr,
    y: TypedExpr,
) -> Result<TypedExpr, TypeError>
    ensures { Gives expr_of result (spec.shifted_in at operator (expr_of x) (expr_of y)) }
{
    if !both_numbers(&x, &y) {
        return Err(TypeError::BadType {
            line: at.line,
            rule: 7,
        });
    }
    let y = as_promoted(alloc, y)?;
    let ty = x.ty.copied(alloc)?;
    Ok(TypedExpr::assign(alloc, at, ty, operator, x, y)?)
}

#[tactic(auto, unfolding(crate::specs::Operators::changed))]
fn changed(
    alloc: Global,
    structs: &[StructType],
    at: At,
    operator: AssignOperator,
    x: TypedExpr,
    y: TypedExpr,
) -> Result<TypedExpr, TypeError>
    ensures { Gives expr_of result (spec.changed (map struct_of structs.now) at operator (expr_of x) (expr_of y)) }
{
    if both_numbers(&x, &y) {
        let both = common(&x.ty, &y.ty);
        let y = as_number(alloc, &both, y)?;
        let ty = x.ty.copied(alloc)?;
        return Ok(TypedExpr::assign(alloc, at, ty, operator, x, y)?);
    }
    if is_move(structs, &x, &y) {
        let y = as_promoted(alloc, y)?;
        let ty = x.ty.copied(alloc)?;
        return Ok(TypedExpr::assign(alloc, at, ty, operator, x, y)?);
    }
    Err(TypeError::BadType {
        line: at.line,
        rule: sum_rule(&x, &y),
    })
}

/// An assignment, its sides as they are written.
#[tactic(auto, unfolding(crate::specs::Operators::assign_rule))]
pub fn assign(
    alloc: Global,
    structs: &[StructType],
    at: At,
    operator: AssignOperator,
    x: TypedExpr,
    y: TypedExpr,
) -> Result<TypedExpr, TypeError>
    ensures { Gives expr_of result (spec.assign_rule (map struct_of structs.now) at operator (expr_of x) (expr_of y)) }
{
    if !is_assignable(&x) {
        return Err(TypeError::BadType {
            line: at.line,
            rule: 6,
        });
    }
    match operator {
        AssignOperator::Assign => set_to(alloc, at, x, y),
        AssignOperator::Multiply
        | AssignOperator::Divide
        | AssignOperator::Remainder
        | AssignOperator::BitAnd
        | AssignOperator::BitXor
        | AssignOperator::BitOr => {
            let y = decayed(alloc, y)?;
            reckoned(alloc, at, operator, x, y)
        }
        AssignOperator::Add | AssignOperator::Subtract => {
            let y = decayed(alloc, y)?;
            changed(alloc, structs, at, operator, x, y)
        }
        AssignOperator::ShiftLeft | AssignOperator::ShiftRight => {
            let y = decayed(alloc, y)?;
            shifted_in(alloc, at, operator, x, y)
        }
    }
}
