//! The rules of the operators between two operands (C11 6.5.5 to 6.5.15).
ghost use Rattle.std.specs.Prelude.{◌≡◌, map};
ghost use Rattle.typed_tree.specs.TypesViewed.{ty_of};
ghost use Rattle.typed_tree.specs.TypedViews.{expr_of, struct_of};
ghost use Rattle.typing_operators.specs.Rule.{Gives};
ghost use Rattle.typing_operators.specs.Operators as spec;
ghost use Rattle.std.specs.Prelude.{IfOk, Option};
ghost use Rattle.std.specs.Option.{option_map};
ghost use Rattle.typed_tree.specs.Types as types;
ghost use Rattle.typed_tree.specs.TypedOperands as operands;

use crate::conversions::{
    as_number, as_pointer, as_promoted, common, decayed, is_scalar, is_void, is_void_pointer,
    promoted,
};
use crate::error::TypeError;
use crate::sizes::points_to_complete;
use crate::unary::tested;
use c_words::operators::BinaryOperator;
use c_words::place::At;
use std::alloc::{AllocError, Global};
use typed_tree::typed_expr::TypedExpr;
use typed_tree::types::{StructType, Ty};

/// Whether both are numbers.
pub fn both_numbers(x: &TypedExpr, y: &TypedExpr) -> bool
    ensures { result ≡ spec.both_numbers (expr_of x.now) (expr_of y.now) }
{
    x.ty.is_number() && y.ty.is_number()
}

/// Two numbers in their common type, under an operator that has the type.
fn on_numbers(
    alloc: Global,
    at: At,
    ty: Ty,
    operator: BinaryOperator,
    x: TypedExpr,
    y: TypedExpr,
) -> Result<TypedExpr, AllocError>
    ensures { IfOk result (λ r. expr_of r ≡ spec.on_numbers at (ty_of ty) operator (expr_of x) (expr_of y)) }
{
    let both = common(&x.ty, &y.ty);
    let x = as_number(alloc, &both, x)?;
    let y = as_number(alloc, &both, y)?;
    TypedExpr::binary(alloc, at, ty, operator, x, y)
}

#[tactic(auto, unfolding(crate::specs::Operators::product))]
fn product(
    alloc: Global,
    at: At,
    operator: BinaryOperator,
    x: TypedExpr,
    y: TypedExpr,
) -> Result<TypedExpr, TypeError>
    ensures { Gives expr_of result (spec.product at operator (expr_of x) (expr_of y)) }
{
    if !both_numbers(&x, &y) {
        return Err(TypeError::BadType {
            line: at.line,
            rule: 7,
        });
    }
    let ty = common(&x.ty, &y.ty);
    Ok(on_numbers(alloc, at, ty, operator, x, y)?)
}

#[tactic(auto, unfolding(crate::specs::Operators::shifted))]
fn shifted(
    alloc: Global,
    at: At,
    operator: BinaryOperator,
    x: TypedExpr,
    y: TypedExpr,
) -> Result<TypedExpr, TypeError>
    ensures { Gives expr_of result (spec.shifted at operator (expr_of x) (expr_of y)) }
{
    if !both_numbers(&x, &y) {
        return Err(TypeError::BadType {
            line: at.line,
            rule: 7,
        });
    }
    let ty = promoted(&x.ty);
    let x = as_promoted(alloc, x)?;
    let y = as_promoted(alloc, y)?;
    Ok(TypedExpr::binary(alloc, at, ty, operator, x, y)?)
}

/// Whether the second moves the first: a pointer to a complete type, and a number.
pub fn is_move(structs: &[StructType], x: &TypedExpr, y: &TypedExpr) -> bool
    ensures { result ≡ spec.is_move (map struct_of structs.now) (expr_of x.now) (expr_of y.now) }
{
    points_to_complete(structs, &x.ty) && y.ty.is_number()
}

/// The rule that a sum breaks.
pub fn sum_rule(x: &TypedExpr, y: &TypedExpr) -> u8
    ensures { result ≡ spec.sum_rule (expr_of x.now) (expr_of y.now) }
{
    if x.ty.is_pointer() || y.ty.is_pointer() {
        8
    } else {
        7
    }
}

#[tactic(auto, unfolding(crate::specs::Operators::added))]
fn added(
    alloc: Global,
    structs: &[StructType],
    at: At,
    x: TypedExpr,
    y: TypedExpr,
) -> Result<TypedExpr, TypeError>
    ensures { Gives expr_of result (spec.added (map struct_of structs.now) at (expr_of x) (expr_of y)) }
{
    if both_numbers(&x, &y) {
        let ty = common(&x.ty, &y.ty);
        return Ok(on_numbers(alloc, at, ty, BinaryOperator::Add, x, y)?);
    }
    if is_move(structs, &x, &y) {
        let ty = x.ty.copied(alloc)?;
        let y = as_promoted(alloc, y)?;
        return Ok(TypedExpr::binary(alloc, at, ty, BinaryOperator::Add, x, y)?);
    }
    if is_move(structs, &y, &x) {
        let ty = y.ty.copied(alloc)?;
        let x = as_promoted(alloc, x)?;
        return Ok(TypedExpr::binary(alloc, at, ty, BinaryOperator::Add, x, y)?);
    }
    Err(TypeError::BadType {
        line: at.line,
        rule: sum_rule(&x, &y),
    })
}

#[tactic(auto, unfolding(crate::specs::Operators::subtracted))]
fn subtracted(
    alloc: Global,
    structs: &[StructType],
    at: At,
    x: TypedExpr,
    y: TypedExpr,
) -> Result<TypedExpr, TypeError>
    ensures { Gives expr_of result (spec.subtracted (map struct_of structs.now) at (expr_of x) (expr_of y)) }
{
    if both_numbers(&x, &y) {
        let ty = common(&x.ty, &y.ty);
        return Ok(on_numbers(alloc, at, ty, BinaryOperator::Subtract, x, y)?);
    }
    if is_move(structs, &x, &y) {
        let ty = x.ty.copied(alloc)?;
        let y = as_promoted(alloc, y)?;
        return Ok(TypedExpr::binary(alloc, at, ty, BinaryOperator::Subtract, x, y)?);
    }
    if points_to_complete(structs, &x.ty) && x.ty.is_same(&y.ty) {
        return Ok(TypedExpr::binary(alloc, at, Ty::Int, BinaryOperator::Subtract, x, y)?);
    }
    Err(TypeError::BadType {
        line: at.line,
        rule: sum_rule(&x, &y),
    })
}

#[tactic(auto, unfolding(crate::specs::Operators::ordered))]
fn ordered(
    alloc: Global,
    at: At,
    operator: BinaryOperator,
    x: TypedExpr,
    y: TypedExpr,
) -> Result<TypedExpr, TypeError>
    ensures { Gives expr_of result (spec.ordered at operator (expr_of x) (expr_of y)) }
{
    if both_numbers(&x, &y) {
        return Ok(on_numbers(alloc, at, Ty::Int, operator, x, y)?);
    }
    if x.ty.is_pointer() && x.ty.is_same(&y.ty) {
        return Ok(TypedExpr::binary(alloc, at, Ty::Int, operator, x, y)?);
    }
    Err(TypeError::BadType {
        line: at.line,
        rule: 9,
    })
}

/// The type at which two pointers meet (C11 6.5.9, 6.5.15).
fn meeting_type(alloc: Global, x: &TypedExpr, y: &TypedExpr) -> Result<Option<Ty>, AllocError>
    ensures { IfOk result (λ o. option_map ty_of o ≡ operands.meeting_type (expr_of x.now) (expr_of y.now)) }
{
    if x.ty.is_pointer() && x.ty.is_same(&y.ty) {
        return Ok(Some(x.ty.copied(alloc)?));
    }
    if y.is_null() && x.ty.is_pointer() {
        return Ok(Some(x.ty.copied(alloc)?));
    }
    if x.is_null() && y.ty.is_pointer() {
        return Ok(Some(y.ty.copied(alloc)?));
    }
    if x.ty.is_pointer()
        && y.ty.is_pointer()
        && (is_void_pointer(&x.ty) || is_void_pointer(&y.ty))
    {
        return Ok(Some(Ty::pointer(alloc, Ty::Void)?));
    }
    Ok(None)
}

#[tactic(auto, unfolding(crate::specs::Operators::equated))]
fn equated(
    alloc: Global,
    at: At,
    operator: BinaryOperator,
    x: TypedExpr,
    y: TypedExpr,
) -> Result<TypedExpr, TypeError>
    ensures { Gives expr_of result (spec.equated at operator (expr_of x) (expr_of y)) }
{
    if both_numbers(&x, &y) {
        return Ok(on_numbers(alloc, at, Ty::Int, operator, x, y)?);
    }
    match meeting_type(alloc, &x, &y)? {
        None => Err(TypeError::BadType {
            line: at.line,
            rule: 9,
        }),
        Some(ty) => {
            let x = as_pointer(alloc, &ty, x)?;
            let y = as_pointer(alloc, &ty, y)?;
            Ok(TypedExpr::binary(alloc, at, Ty::Int, operator, x, y)?)
        }
    }
}

#[tactic(auto, unfolding(crate::specs::Operators::logical))]
fn logical(
    alloc: Global,
    at: At,
    operator: BinaryOperator,
    x: TypedExpr,
    y: TypedExpr,
) -> Result<TypedExpr, TypeError>
    ensures { Gives expr_of result (spec.logical at operator (expr_of x) (expr_of y)) }
{
    if !(is_scalar(&x.ty) && is_scalar(&y.ty)) {
        return Err(TypeError::BadType {
            line: at.line,
            rule: 14,
        });
    }
    Ok(TypedExpr::binary(alloc, at, Ty::Int, operator, x, y)?)
}

/// An operator between two operands, as they are written.
#[tactic(auto, unfolding(crate::specs::Operators::binary_rule))]
pub fn binary(
    alloc: Global,
    structs: &[StructType],
    at: At,
    operator: BinaryOperator,
    x: TypedExpr,
    y: TypedExpr,
) -> Result<TypedExpr, TypeError>
    ensures { Gives expr_of result (spec.binary_rule (map struct_of structs.now) at operator (expr_of x) (expr_of y)) }
{
    let x = decayed(alloc, x)?;
    let y = decayed(alloc, y)?;
    match operator {
        BinaryOperator::Multiply
        | BinaryOperator::Divide
        | BinaryOperator::Remainder
        | BinaryOperator::BitAnd
        | BinaryOperator::BitXor
        | BinaryOperator::BitOr => product(alloc, at, operator, x, y),
        BinaryOperator::Add => added(alloc, structs, at, x, y),
        BinaryOperator::Subtract => subtracted(alloc, structs, at, x, y),
        BinaryOperator::ShiftLeft | BinaryOperator::ShiftRight => shifted(
            alloc, at, operator, x, y,
        ),
        BinaryOperator::Less
        | BinaryOperator::Greater
        | BinaryOperator::LessEqual
        | BinaryOperator::GreaterEqual => ordered(alloc, at, operator, x, y),
        BinaryOperator::Equal | BinaryOperator::NotEqual => equated(alloc, at, operator, x, y),
        BinaryOperator::LogicalAnd | BinaryOperator::LogicalOr => logical(
            alloc, at, operator, x, y,
        ),
    }
}

/// The second and the third operand of `?:`, which have lost their arrays.
#[tactic(auto, unfolding(crate::specs::Operators::alternatives))]
fn alternatives(
    alloc: Global,
    at: At,
    condition: TypedExpr,
    x: TypedExpr,
    y: TypedExpr,
) -> Result<TypedExpr, TypeError>
    ensures { Gives expr_of result (spec.alternatives at (expr_of condition) (expr_of x) (expr_of y)) }
{
    if both_numbers(&x, &y) {
        let ty = common(&x.ty, &y.ty);
        let x = as_number(alloc, &ty, x)?;
        let y = as_number(alloc, &ty, y)?;
        return Ok(TypedExpr::conditional(alloc, at, ty, condition, x, y)?);
    }
    if is_void(&x.ty) && is_void(&y.ty) {
        return Ok(TypedExpr::conditional(alloc, at, Ty::Void, condition, x, y)?);
    }
    match meeting_type(alloc, &x, &y)? {
        None => Err(TypeError::BadType {
            line: at.line,
            rule: 15,
        }),
        Some(ty) => {
            let x = as_pointer(alloc, &ty, x)?;
            let y = as_pointer(alloc, &ty, y)?;
            Ok(TypedExpr::conditional(alloc, at, ty, condition, x, y)?)
        }
    }
}

/// `condition ? x : y`
#[tactic(auto, unfolding(crate::specs::Operators::conditional_rule))]
pub fn conditional(
    alloc: Global,
    at: At,
    condition: TypedExpr,
    x: TypedExpr,
    y: TypedExpr,
) -> Result<TypedExpr, TypeError>
    ensures { Gives expr_of result (spec.conditional_rule at (expr_of condition) (expr_of x) (expr_of y)) }
{
    let condition = tested(alloc, at.line, condition)?;
    let x = decayed(alloc, x)?;
    let y = decayed(alloc, y)?;
    alternatives(alloc, at, condition, x, y)
}

/// `x, y`
#[tactic(auto, unfolding(crate::specs::Operators::comma_rule))]
pub fn comma(alloc: Global, at: At, x: TypedExpr, y: TypedExpr) -> Result<TypedExpr, AllocError>
    ensures { IfOk result (λ r. expr_of r ≡ spec.comma_rule at (expr_of x) (expr_of y)) }
{
    let x = decayed(alloc, x)?;
    let y = decayed(alloc, y)?;
    let ty = y.ty.copied(alloc)?;
    TypedExpr::comma(alloc, at, ty, x, y)
}
