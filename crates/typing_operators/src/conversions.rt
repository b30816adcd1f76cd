//! The conversions that the language makes by itself (C11 6.3).
ghost use Rattle.std.specs.Prelude.{◌≡◌, IfOk};
ghost use Rattle.typed_tree.specs.Types as types;
ghost use Rattle.typed_tree.specs.TypesViewed.{ty_of};
ghost use Rattle.typed_tree.specs.TypedViews.{expr_of};
ghost use Rattle.typing_operators.specs.Rule.{Gives};
ghost use Rattle.typing_operators.specs.Conversions as spec;

use crate::error::TypeError;
use std::alloc::{AllocError, Global};
use typed_tree::typed_expr::{Conversion, TypedExpr};
use typed_tree::types::Ty;

/// The operand, converted to the type.
pub fn converted(
    alloc: Global,
    conversion: Conversion,
    ty: Ty,
    e: TypedExpr,
) -> Result<TypedExpr, AllocError>
    ensures { IfOk result (λ r. expr_of r ≡ spec.converted conversion (ty_of ty) (expr_of e)) }
{
    TypedExpr::convert(alloc, e.at, ty, conversion, e)
}

/// An array as a pointer to its first element, and anything else as it is.
#[tactic(auto, unfolding(crate::specs::Conversions::decayed))]
pub fn decayed(alloc: Global, e: TypedExpr) -> Result<TypedExpr, AllocError>
    ensures { IfOk result (λ r. expr_of r ≡ spec.decayed (expr_of e)) }
{
    match &e.ty {
        Ty::Array(element, _) => {
            let ty = Ty::pointer(alloc, element.copied(alloc)?)?;
            converted(alloc, Conversion::ArrayToPointer, ty, e)
        }
        Ty::Void | Ty::Char | Ty::Int | Ty::Unsigned | Ty::Struct(_) | Ty::Pointer(_) => Ok(e),
    }
}

/// A number as one of the type.
#[tactic(auto, unfolding(crate::specs::Conversions::as_number))]
pub fn as_number(alloc: Global, ty: &Ty, e: TypedExpr) -> Result<TypedExpr, AllocError>
    ensures { IfOk result (λ r. expr_of r ≡ spec.as_number (ty_of ty.now) (expr_of e)) }
{
    if e.ty.is_same(ty) {
        return Ok(e);
    }
    converted(alloc, Conversion::NumberToNumber, ty.copied(alloc)?, e)
}

/// A pointer or a null constant as a pointer of the type.
#[tactic(auto, unfolding(crate::specs::Conversions::as_pointer))]
pub fn as_pointer(alloc: Global, ty: &Ty, e: TypedExpr) -> Result<TypedExpr, AllocError>
    ensures { IfOk result (λ r. expr_of r ≡ spec.as_pointer (ty_of ty.now) (expr_of e)) }
{
    if e.ty.is_same(ty) {
        return Ok(e);
    }
    let ty = ty.copied(alloc)?;
    if e.is_null() {
        converted(alloc, Conversion::NullToPointer, ty, e)
    } else {
        converted(alloc, Conversion::PointerToPointer, ty, e)
    }
}

/// The promotion of a number of the type.
pub fn promoted(ty: &Ty) -> Ty
    requires { types.IsNumber (ty_of ty.now) }
    ensures { ty_of result ≡ types.promoted (ty_of ty.now) }
{
    match ty {
        Ty::Unsigned => Ty::Unsigned,
        Ty::Void | Ty::Char | Ty::Int | Ty::Struct(_) | Ty::Pointer(_) | Ty::Array(_, _) => Ty::Int,
    }
}

/// A number, promoted.
#[tactic(auto, unfolding(crate::specs::Conversions::as_promoted))]
pub fn as_promoted(alloc: Global, e: TypedExpr) -> Result<TypedExpr, AllocError>
    requires { types.IsNumber (ty_of e.ty) }
    ensures { IfOk result (λ r. expr_of r ≡ spec.as_promoted (expr_of e)) }
{
    let ty = promoted(&e.ty);
    as_number(alloc, &ty, e)
}

/// Whether the type is that of pointers to `void`.
pub fn is_void_pointer(ty: &Ty) -> bool
    ensures { result ≡ types.is_void_pointer (ty_of ty.now) }
{
    match ty {
        Ty::Pointer(to) => match &**to {
            Ty::Void => true,
            Ty::Char | Ty::Int | Ty::Unsigned | Ty::Struct(_) | Ty::Pointer(_) | Ty::Array(_, _) =>
                false,
        },
        Ty::Void | Ty::Char | Ty::Int | Ty::Unsigned | Ty::Struct(_) | Ty::Array(_, _) => false,
    }
}

/// The common type of two numbers.
pub fn common(a: &Ty, b: &Ty) -> Ty
    ensures { ty_of result ≡ types.common (ty_of a.now) (ty_of b.now) }
{
    if is_unsigned(a) || is_unsigned(b) {
        Ty::Unsigned
    } else {
        Ty::Int
    }
}

/// Whether the type is `unsigned int`.
pub fn is_unsigned(ty: &Ty) -> bool
    ensures { result ≡ types.is_unsigned (ty_of ty.now) }
{
    match ty {
        Ty::Unsigned => true,
        Ty::Void | Ty::Char | Ty::Int | Ty::Struct(_) | Ty::Pointer(_) | Ty::Array(_, _) => false,
    }
}

/// A value that is given to the type: by an assignment, an argument, `return` or an initializer.
#[tactic(auto, unfolding(crate::specs::Conversions::given))]
pub fn given(alloc: Global, line: u32, ty: &Ty, e: TypedExpr) -> Result<TypedExpr, TypeError>
    ensures { Gives expr_of result (spec.given line (ty_of ty.now) (expr_of e)) }
{
    let e = decayed(alloc, e)?;
    if ty.is_number() && e.ty.is_number() {
        return Ok(as_number(alloc, ty, e)?);
    }
    if ty.is_pointer() && may_point(ty, &e) {
        return Ok(as_pointer(alloc, ty, e)?);
    }
    Err(TypeError::BadType { line, rule: 10 })
}

/// Whether the value may be given to the pointer type.
fn may_point(ty: &Ty, e: &TypedExpr) -> bool
    ensures { result ≡ spec.may_point (ty_of ty.now) (expr_of e.now) }
{
    e.ty.is_same(ty)
        || e.is_null()
        || (e.ty.is_pointer() && (is_void_pointer(ty) || is_void_pointer(&e.ty)))
}

/// Whether the type is that of numbers or of pointers.
pub fn is_scalar(ty: &Ty) -> bool
    ensures { result ≡ types.is_scalar (ty_of ty.now) }
{
    ty.is_number() || ty.is_pointer()
}

/// Whether the type is `void`.
pub fn is_void(ty: &Ty) -> bool
    ensures { result ≡ spec.is_void (ty_of ty.now) }
{
    match ty {
        Ty::Void => true,
        Ty::Char | Ty::Int | Ty::Unsigned | Ty::Struct(_) | Ty::Pointer(_) | Ty::Array(_, _) =>
            false,
    }
}

/// Whether the type is that of an array.
pub fn is_array(ty: &Ty) -> bool
    ensures { result ≡ types.is_array (ty_of ty.now) }
{
    match ty {
        Ty::Array(_, _) => true,
        Ty::Void | Ty::Char | Ty::Int | Ty::Unsigned | Ty::Struct(_) | Ty::Pointer(_) => false,
    }
}

/// Whether the type is that of a struct.
pub fn is_struct(ty: &Ty) -> bool
    ensures { result ≡ types.is_struct (ty_of ty.now) }
{
    match ty {
        Ty::Struct(_) => true,
        Ty::Void | Ty::Char | Ty::Int | Ty::Unsigned | Ty::Pointer(_) | Ty::Array(_, _) => false,
    }
}
