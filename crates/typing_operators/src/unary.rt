//! The rules of the operators with one operand (C11 6.5.2.4, 6.5.3, 6.5.4).
ghost use Rattle.std.specs.Prelude.{◌≡◌, map};
ghost use Rattle.typed_tree.specs.TypesViewed.{ty_of};
ghost use Rattle.typed_tree.specs.TypedViews.{expr_of, struct_of};
ghost use Rattle.typing_operators.specs.Rule.{Gives};
ghost use Rattle.typing_operators.specs.Operators as spec;
ghost use Rattle.std.specs.Option.{option_map};
ghost use Rattle.std.specs.Prelude.{IfOk};

use crate::conversions::{as_promoted, decayed, is_array, is_scalar, is_void, promoted};
use crate::error::TypeError;
use crate::sizes::{is_complete, points_to_complete};
use c_words::operators::{StepOperator, UnaryOperator};
use c_words::place::At;
use std::alloc::{AllocError, Global};
use typed_tree::typed_expr::{TypedExpr, TypedForm};
use typed_tree::types::{StructType, Ty};

#[tactic(auto, unfolding(crate::specs::Operators::referred))]
fn referred(alloc: Global, at: At, x: TypedExpr) -> Result<TypedExpr, TypeError>
    ensures { Gives expr_of result (spec.referred at (expr_of x)) }
{
    if !x.is_place() {
        return Err(TypeError::BadType {
            line: at.line,
            rule: 6,
        });
    }
    let ty = Ty::pointer(alloc, x.ty.copied(alloc)?)?;
    Ok(TypedExpr::unary(alloc, at, ty, UnaryOperator::Address, x)?)
}

/// What a pointer to a complete type points to.
#[tactic(auto, unfolding(crate::specs::Operators::element_of))]
pub fn element_of(alloc: Global, structs: &[StructType], ty: &Ty) -> Result<Option<Ty>, AllocError>
    ensures { IfOk result (λ o. option_map ty_of o ≡ spec.element_of (map struct_of structs.now) (ty_of ty.now)) }
{
    match ty {
        Ty::Pointer(to) => {
            if is_complete(structs, to) {
                Ok(Some(to.copied(alloc)?))
            } else {
                Ok(None)
            }
        }
        Ty::Void | Ty::Char | Ty::Int | Ty::Unsigned | Ty::Struct(_) | Ty::Array(_, _) => Ok(None),
    }
}

#[tactic(auto, unfolding(crate::specs::Operators::followed))]
fn followed(
    alloc: Global,
    structs: &[StructType],
    at: At,
    x: TypedExpr,
) -> Result<TypedExpr, TypeError>
    ensures { Gives expr_of result (spec.followed (map struct_of structs.now) at (expr_of x)) }
{
    let x = decayed(alloc, x)?;
    match element_of(alloc, structs, &x.ty)? {
        None => Err(TypeError::BadType {
            line: at.line,
            rule: 12,
        }),
        Some(ty) => Ok(TypedExpr::unary(alloc, at, ty, UnaryOperator::Dereference, x)?),
    }
}

#[tactic(auto, unfolding(crate::specs::Operators::signed))]
fn signed(
    alloc: Global,
    at: At,
    operator: UnaryOperator,
    x: TypedExpr,
) -> Result<TypedExpr, TypeError>
    ensures { Gives expr_of result (spec.signed at operator (expr_of x)) }
{
    if !x.ty.is_number() {
        return Err(TypeError::BadType {
            line: at.line,
            rule: 7,
        });
    }
    let ty = promoted(&x.ty);
    let x = as_promoted(alloc, x)?;
    Ok(TypedExpr::unary(alloc, at, ty, operator, x)?)
}

/// A condition.
#[tactic(auto, unfolding(crate::specs::Operators::tested))]
pub fn tested(alloc: Global, line: u32, x: TypedExpr) -> Result<TypedExpr, TypeError>
    ensures { Gives expr_of result (spec.tested line (expr_of x)) }
{
    let x = decayed(alloc, x)?;
    if !is_scalar(&x.ty) {
        return Err(TypeError::BadType { line, rule: 14 });
    }
    Ok(x)
}

/// An operator before its operand, which is as it is written.
pub fn unary(
    alloc: Global,
    structs: &[StructType],
    at: At,
    operator: UnaryOperator,
    x: TypedExpr,
) -> Result<TypedExpr, TypeError>
    ensures { Gives expr_of result (spec.unary_rule (map struct_of structs.now) at operator (expr_of x)) }
{
    match operator {
        UnaryOperator::Address => referred(alloc, at, x),
        UnaryOperator::Dereference => followed(alloc, structs, at, x),
        UnaryOperator::Plus | UnaryOperator::Minus | UnaryOperator::Complement => {
            signed(alloc, at, operator, x)
        }
        UnaryOperator::Not => {
            let x = tested(alloc, at.line, x)?;
            Ok(TypedExpr::unary(alloc, at, Ty::Int, UnaryOperator::Not, x)?)
        }
    }
}

/// Whether it can be assigned to.
pub fn is_assignable(x: &TypedExpr) -> bool
    ensures { result ≡ spec.is_assignable (expr_of x.now) }
{
    x.is_place() && !is_array(&x.ty)
}

/// The rule that `++` and `--` break at the type.
fn step_rule(structs: &[StructType], ty: &Ty) -> Option<u8>
    ensures { result ≡ spec.step_rule (map struct_of structs.now) (ty_of ty.now) }
{
    if ty.is_number() || points_to_complete(structs, ty) {
        None
    } else if ty.is_pointer() {
        Some(8)
    } else {
        Some(7)
    }
}

/// Whether `++` and `--` may be applied.
fn steps(structs: &[StructType], at: At, x: &TypedExpr) -> Result<(), TypeError>
    ensures { Gives (λ u. u) result (spec.steps (map struct_of structs.now) at (expr_of x.now)) }
{
    if !is_assignable(x) {
        return Err(TypeError::BadType {
            line: at.line,
            rule: 6,
        });
    }
    match step_rule(structs, &x.ty) {
        None => Ok(()),
        Some(rule) => Err(TypeError::BadType {
            line: at.line,
            rule,
        }),
    }
}

/// `++x` and `--x`
pub fn step_before(
    alloc: Global,
    structs: &[StructType],
    at: At,
    operator: StepOperator,
    x: TypedExpr,
) -> Result<TypedExpr, TypeError>
    ensures { Gives expr_of result (spec.step_before_rule (map struct_of structs.now) at operator (expr_of x)) }
{
    steps(structs, at, &x)?;
    let ty = x.ty.copied(alloc)?;
    Ok(TypedExpr::step_before(alloc, at, ty, operator, x)?)
}

/// `x++` and `x--`
pub fn step_after(
    alloc: Global,
    structs: &[StructType],
    at: At,
    operator: StepOperator,
    x: TypedExpr,
) -> Result<TypedExpr, TypeError>
    ensures { Gives expr_of result (spec.step_after_rule (map struct_of structs.now) at operator (expr_of x)) }
{
    steps(structs, at, &x)?;
    let ty = x.ty.copied(alloc)?;
    Ok(TypedExpr::step_after(alloc, at, ty, operator, x)?)
}

/// Whether the value may be cast to the type.
fn may_cast(ty: &Ty, x: &TypedExpr) -> bool
    ensures { result ≡ spec.may_cast (ty_of ty.now) (expr_of x.now) }
{
    is_void(ty)
        || (x.ty.is_number() && ty.is_number())
        || (ty.is_pointer() && (x.is_null() || x.ty.is_pointer()))
}

/// A cast to the type.
#[tactic(auto, unfolding(crate::specs::Operators::cast_rule))]
pub fn cast(alloc: Global, at: At, ty: Ty, x: TypedExpr) -> Result<TypedExpr, TypeError>
    ensures { Gives expr_of result (spec.cast_rule at (ty_of ty) (expr_of x)) }
{
    let x = decayed(alloc, x)?;
    if !may_cast(&ty, &x) {
        return Err(TypeError::BadType {
            line: at.line,
            rule: 11,
        });
    }
    Ok(TypedExpr::cast(alloc, at, ty, x)?)
}

/// `sizeof x`
#[tactic(auto, unfolding(crate::specs::Operators::measured_rule))]
pub fn measured(
    alloc: Global,
    structs: &[StructType],
    at: At,
    x: TypedExpr,
) -> Result<TypedExpr, TypeError>
    ensures { Gives expr_of result (spec.measured_rule (map struct_of structs.now) at (expr_of x)) }
{
    if !is_complete(structs, &x.ty) {
        return Err(TypeError::BadType {
            line: at.line,
            rule: 1,
        });
    }
    Ok(TypedExpr::size_of(alloc, at, Ty::Unsigned, x)?)
}

/// `sizeof (ty)`
#[tactic(auto, unfolding(crate::specs::Operators::measured_type))]
pub fn measured_type(structs: &[StructType], at: At, ty: Ty) -> Result<TypedExpr, TypeError>
    ensures { Gives expr_of result (spec.measured_type (map struct_of structs.now) at (ty_of ty)) }
{
    if !is_complete(structs, &ty) {
        return Err(TypeError::BadType {
            line: at.line,
            rule: 1,
        });
    }
    Ok(TypedExpr {
        at,
        ty: Ty::Unsigned,
        form: TypedForm::SizeofType(ty),
    })
}
