//! Constant expressions and their values (C11 6.6).
ghost use Rattle.std.specs.Prelude.{◌≡◌, map};
ghost use Rattle.typed_tree.specs.Numbers as numbers;
ghost use Rattle.typed_tree.specs.TypesViewed.{ty_of};
ghost use Rattle.typed_tree.specs.TypedViews.{expr_of, struct_of};
ghost use Rattle.typing_operators.specs.Constants as spec;

use crate::conversions::is_unsigned;
use bb_words::word::Word;
use c_words::operators::{BinaryOperator, UnaryOperator};
use typed_tree::typed_expr::{Conversion, TypedExpr, TypedForm};
use typed_tree::types::{StructType, Ty};

/// A number as one of the type: a `char` takes its low 8 bits.
fn fitted(ty: &Ty, n: u32) -> u32
    ensures { result ≡ numbers.fitted (ty_of ty.now) n }
{
    match ty {
        Ty::Char => n % 256,
        Ty::Void | Ty::Int | Ty::Unsigned | Ty::Struct(_) | Ty::Pointer(_) | Ty::Array(_, _) => n,
    }
}

/// Whether one number is less than another, as unsigned or signed ones.
fn is_less(unsigned: bool, x: Word, y: Word) -> bool
    ensures { result ≡ numbers.is_less unsigned x.0 y.0 }
{
    if unsigned {
        x.0 < y.0
    } else {
        x.0.cast_signed() < y.0.cast_signed()
    }
}

/// The size of the type, if no array in it has more than 1,048,576 bytes.
fn measured(structs: &[StructType], ty: &Ty) -> Option<u32>
    ensures { result ≡ spec.measured (map struct_of structs.now) (ty_of ty.now) }
{
    match ty {
        Ty::Void => Some(0),
        Ty::Char => Some(1),
        Ty::Int | Ty::Unsigned | Ty::Pointer(_) => Some(4),
        Ty::Struct(k) => match structs.get(*k as usize) {
            None => Some(0),
            Some(found) => Some(found.size),
        },
        Ty::Array(element, count) => {
            let size = measured(structs, element)?;
            let all = size as u64 * *count as u64;
            if all <= 1_048_576 {
                Some(all as u32)
            } else {
                None
            }
        }
    }
}

fn unary_value(operator: UnaryOperator, n: u32) -> Option<u32>
    ensures { result ≡ spec.unary_value operator n }
{
    match operator {
        UnaryOperator::Plus => Some(n),
        UnaryOperator::Minus => Some(Word(0).sub(Word(n)).0),
        UnaryOperator::Complement => Some(u32::MAX - n),
        UnaryOperator::Not => Some(u32::from(n == 0)),
        UnaryOperator::Address | UnaryOperator::Dereference => None,
    }
}

fn binary_value(operator: BinaryOperator, unsigned: bool, x: u32, y: u32) -> Option<u32>
    ensures { result ≡ spec.binary_value operator unsigned x y }
{
    let x = Word(x);
    let y = Word(y);
    match operator {
        BinaryOperator::Multiply => Some(x.mul(y).0),
        BinaryOperator::Divide => {
            if y.0 == 0 {
                return None;
            }
            Some(if unsigned { x.divu(y).0 } else { x.div(y).0 })
        }
        BinaryOperator::Remainder => {
            if y.0 == 0 {
                return None;
            }
            Some(if unsigned { x.remu(y).0 } else { x.rem(y).0 })
        }
        BinaryOperator::Add => Some(x.add(y).0),
        BinaryOperator::Subtract => Some(x.sub(y).0),
        BinaryOperator::ShiftLeft => Some(x.shl(y).0),
        BinaryOperator::ShiftRight => Some(if unsigned { x.shr(y).0 } else { x.sar(y).0 }),
        BinaryOperator::Less => Some(u32::from(is_less(unsigned, x, y))),
        BinaryOperator::Greater => Some(u32::from(is_less(unsigned, y, x))),
        BinaryOperator::LessEqual => Some(u32::from(!is_less(unsigned, y, x))),
        BinaryOperator::GreaterEqual => Some(u32::from(!is_less(unsigned, x, y))),
        BinaryOperator::Equal => Some(u32::from(x.0 == y.0)),
        BinaryOperator::NotEqual => Some(u32::from(!(x.0 == y.0))),
        BinaryOperator::BitAnd => Some(x.0 & y.0),
        BinaryOperator::BitXor => Some(x.0 ^ y.0),
        BinaryOperator::BitOr => Some(x.0 | y.0),
        BinaryOperator::LogicalAnd => Some(u32::from(!(x.0 == 0) && !(y.0 == 0))),
        BinaryOperator::LogicalOr => Some(u32::from(!(x.0 == 0) || !(y.0 == 0))),
    }
}

fn conversion_value(conversion: Conversion, ty: &Ty, n: u32) -> Option<u32>
    ensures { result ≡ spec.conversion_value conversion (ty_of ty.now) n }
{
    match conversion {
        Conversion::NumberToNumber => Some(fitted(ty, n)),
        Conversion::ArrayToPointer | Conversion::NullToPointer | Conversion::PointerToPointer =>
            None,
    }
}

/// The value of the expression, if it is constant. A signed number is its word in two's complement.
pub fn constant(structs: &[StructType], e: &TypedExpr) -> Option<u32>
    ensures { result ≡ spec.constant (map struct_of structs.now) (expr_of e.now) }
{
    match &e.form {
        TypedForm::Number(n) => Some(*n),
        TypedForm::Character(n) => Some(*n as u32),
        TypedForm::Eof => Some(u32::MAX),
        TypedForm::Convert(conversion, operand) => {
            let n = constant(structs, operand)?;
            conversion_value(*conversion, &e.ty, n)
        }
        TypedForm::Cast(operand) => {
            let n = constant(structs, operand)?;
            if e.ty.is_number() {
                Some(fitted(&e.ty, n))
            } else {
                None
            }
        }
        TypedForm::SizeofExpression(operand) => measured(structs, &operand.ty),
        TypedForm::SizeofType(ty) => measured(structs, ty),
        TypedForm::Unary(operator, operand) => {
            let n = constant(structs, operand)?;
            unary_value(*operator, n)
        }
        TypedForm::Binary(operator, a, b) => {
            let x = constant(structs, a)?;
            let y = constant(structs, b)?;
            binary_value(*operator, is_unsigned(&a.ty), x, y)
        }
        TypedForm::Conditional(c, a, b) => {
            let condition = constant(structs, c)?;
            let x = constant(structs, a)?;
            let y = constant(structs, b)?;
            if condition == 0 { Some(y) } else { Some(x) }
        }
        TypedForm::Null => None,
        TypedForm::Local(_) => None,
        TypedForm::Global(_) => None,
        TypedForm::Text(_) => None,
        TypedForm::Index(_, _) => None,
        TypedForm::Call(_, _) => None,
        TypedForm::Member(_, _) => None,
        TypedForm::Arrow(_, _) => None,
        TypedForm::StepBefore(_, _) => None,
        TypedForm::StepAfter(_, _) => None,
        TypedForm::Assign(_, _, _) => None,
        TypedForm::Comma(_, _) => None,
    }
}
