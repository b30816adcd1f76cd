//! The bytes of a global object, from its initializer (C11 6.7.9 p10, p21).
ghost use Rattle.std.specs.Prelude.{◌≡◌, [], map, Ok, IfOk, OnOk};
ghost use Rattle.std.specs.Option.{option_map};
ghost use Rattle.typed_tree.specs.TypesViewed.{ty_of};
ghost use Rattle.typed_tree.specs.TypedViews.{struct_of, expr_of, initial_of, initials_of};
ghost use Rattle.typing_operators.specs.Rule.{Gives};
ghost use Rattle.typing_expressions.specs.Initializers as spec;
ghost use Rattle.typing_initializers.specs.InitializerSteps as steps;

use crate::initializer::part_type;
use c_words::operators::UnaryOperator;
use std::alloc::{AllocError, Global};
use typed_tree::typed::{GlobalObject, InitialByte};
use typed_tree::typed_expr::{Conversion, TypedExpr, TypedForm};
use typed_tree::typed_stmt::TypedInitial;
use typed_tree::types::{StructType, Ty};
use typing_expressions::parts::size_of;
use typing_operators::constants::constant;
use typing_operators::error::TypeError;

/// The object that an array names: a string, or a global.
fn pointed_array(e: &TypedExpr) -> Option<GlobalObject>
    ensures { result ≡ spec.pointed_array (expr_of e.now) }
{
    match &e.form {
        TypedForm::Text(number) => Some(GlobalObject::Text(*number)),
        TypedForm::Global(number) => Some(GlobalObject::Named(*number)),
        TypedForm::Local(_) | TypedForm::Number(_) | TypedForm::Character(_) => None,
        TypedForm::Null | TypedForm::Eof => None,
        TypedForm::Convert(_, _) => None,
        TypedForm::Index(_, _) => None,
        TypedForm::Call(_, _) => None,
        TypedForm::Member(_, _) => None,
        TypedForm::Arrow(_, _) => None,
        TypedForm::StepBefore(_, _) => None,
        TypedForm::StepAfter(_, _) => None,
        TypedForm::Unary(_, _) => None,
        TypedForm::Binary(_, _, _) => None,
        TypedForm::Conditional(_, _, _) => None,
        TypedForm::Assign(_, _, _) => None,
        TypedForm::Comma(_, _) => None,
        TypedForm::Cast(_) => None,
        TypedForm::SizeofExpression(_) => None,
        TypedForm::SizeofType(_) => None,
    }
}

/// The global that the expression names.
fn pointed_global(e: &TypedExpr) -> Option<GlobalObject>
    ensures { result ≡ spec.pointed_global (expr_of e.now) }
{
    match &e.form {
        TypedForm::Global(number) => Some(GlobalObject::Named(*number)),
        TypedForm::Text(_) => None,
        TypedForm::Local(_) | TypedForm::Number(_) | TypedForm::Character(_) => None,
        TypedForm::Null | TypedForm::Eof => None,
        TypedForm::Convert(_, _) => None,
        TypedForm::Index(_, _) => None,
        TypedForm::Call(_, _) => None,
        TypedForm::Member(_, _) => None,
        TypedForm::Arrow(_, _) => None,
        TypedForm::StepBefore(_, _) => None,
        TypedForm::StepAfter(_, _) => None,
        TypedForm::Unary(_, _) => None,
        TypedForm::Binary(_, _, _) => None,
        TypedForm::Conditional(_, _, _) => None,
        TypedForm::Assign(_, _, _) => None,
        TypedForm::Comma(_, _) => None,
        TypedForm::Cast(_) => None,
        TypedForm::SizeofExpression(_) => None,
        TypedForm::SizeofType(_) => None,
    }
}

/// The object whose address the constant is.
fn pointed_object(e: &TypedExpr) -> Option<GlobalObject>
    ensures { result ≡ spec.pointed_object (expr_of e.now) }
{
    match &e.form {
        TypedForm::Convert(conversion, operand) => match conversion {
            Conversion::PointerToPointer => pointed_object(operand),
            Conversion::ArrayToPointer => pointed_array(operand),
            Conversion::NumberToNumber | Conversion::NullToPointer => None,
        },
        TypedForm::Unary(operator, operand) => match operator {
            UnaryOperator::Address => pointed_global(operand),
            UnaryOperator::Plus | UnaryOperator::Minus | UnaryOperator::Complement => None,
            UnaryOperator::Not | UnaryOperator::Dereference => None,
        },
        TypedForm::Global(_) | TypedForm::Text(_) => None,
        TypedForm::Local(_) | TypedForm::Number(_) | TypedForm::Character(_) => None,
        TypedForm::Null | TypedForm::Eof => None,
        TypedForm::Index(_, _) => None,
        TypedForm::Call(_, _) => None,
        TypedForm::Member(_, _) => None,
        TypedForm::Arrow(_, _) => None,
        TypedForm::StepBefore(_, _) => None,
        TypedForm::StepAfter(_, _) => None,
        TypedForm::Binary(_, _, _) => None,
        TypedForm::Conditional(_, _, _) => None,
        TypedForm::Assign(_, _, _) => None,
        TypedForm::Comma(_, _) => None,
        TypedForm::Cast(_) => None,
        TypedForm::SizeofExpression(_) => None,
        TypedForm::SizeofType(_) => None,
    }
}

/// Whether the expression is a null pointer.
fn is_null_pointer(e: &TypedExpr) -> bool
    ensures { result ≡ spec.is_null_pointer (expr_of e.now) }
{
    match &e.form {
        TypedForm::Null => true,
        TypedForm::Convert(conversion, _) => match conversion {
            Conversion::NullToPointer => true,
            Conversion::PointerToPointer | Conversion::ArrayToPointer => false,
            Conversion::NumberToNumber => false,
        },
        TypedForm::Global(_) | TypedForm::Text(_) | TypedForm::Eof => false,
        TypedForm::Local(_) | TypedForm::Number(_) | TypedForm::Character(_) => false,
        TypedForm::Index(_, _) => false,
        TypedForm::Call(_, _) => false,
        TypedForm::Member(_, _) => false,
        TypedForm::Arrow(_, _) => false,
        TypedForm::StepBefore(_, _) => false,
        TypedForm::StepAfter(_, _) => false,
        TypedForm::Unary(_, _) => false,
        TypedForm::Binary(_, _, _) => false,
        TypedForm::Conditional(_, _, _) => false,
        TypedForm::Assign(_, _, _) => false,
        TypedForm::Comma(_, _) => false,
        TypedForm::Cast(_) => false,
        TypedForm::SizeofExpression(_) => false,
        TypedForm::SizeofType(_) => false,
    }
}

/// Whether a global may hold the value at first.
#[tactic(auto, unfolding(typing_expressions::specs::Initializers::value_bytes))]
pub fn is_constant(structs: &[StructType], e: &TypedExpr) -> bool
    ensures { result ≡ steps.is_constant (map struct_of structs.now) (expr_of e.now) }
{
    constant(structs, e).is_some() || is_null_pointer(e) || pointed_object(e).is_some()
}

/// Whether the form of the expression is allowed in a global, where an array is a pointer to its first element.
#[tactic(auto, unfolding(typing_operators::specs::Conversions::decayed))]
pub fn is_allowed(structs: &[StructType], e: &TypedExpr) -> bool
    ensures { result ≡ steps.is_allowed (map struct_of structs.now) (expr_of e.now) }
{
    match &e.ty {
        Ty::Array(_, _) => pointed_array(e).is_some(),
        Ty::Void | Ty::Char | Ty::Int | Ty::Unsigned | Ty::Struct(_) | Ty::Pointer(_) => {
            is_constant(structs, e)
        }
    }
}

/// The bytes of a number, the lowest first, or its lowest byte alone.
fn number_bytes(alloc: Global, ty: &Ty, n: u32) -> Result<Vec<InitialByte>, AllocError>
    ensures { IfOk result (λ bytes. bytes.items ≡ spec.number_bytes (ty_of ty.now) n) }
{
    let low = InitialByte::Byte((n % 256) as u8);
    match ty {
        Ty::Char => Ok(Vec::from_array(alloc, [low])?),
        Ty::Void | Ty::Int | Ty::Unsigned | Ty::Struct(_) | Ty::Pointer(_) | Ty::Array(_, _) => {
            let second = InitialByte::Byte((n / 256 % 256) as u8);
            let third = InitialByte::Byte((n / 65_536 % 256) as u8);
            let fourth = InitialByte::Byte((n / 16_777_216 % 256) as u8);
            Ok(Vec::from_array(alloc, [low, second, third, fourth])?)
        }
    }
}

/// The four parts of a pointer to the object.
fn pointer_bytes(alloc: Global, target: GlobalObject) -> Result<Vec<InitialByte>, AllocError>
    ensures { IfOk result (λ bytes. bytes.items ≡ spec.pointer_bytes target) }
{
    let bytes = [
        InitialByte::PointerPart { target, part: 0 },
        InitialByte::PointerPart { target, part: 1 },
        InitialByte::PointerPart { target, part: 2 },
        InitialByte::PointerPart { target, part: 3 },
    ];
    Ok(Vec::from_array(alloc, bytes)?)
}

/// What a value gives a global object of its type: at most as many bytes as it has.
#[tactic(auto, unfolding(typing_expressions::specs::Initializers::value_bytes))]
fn value_bytes(
    alloc: Global,
    structs: &[StructType],
    e: &TypedExpr,
) -> Result<Vec<InitialByte>, AllocError>
    ensures { IfOk result (λ bytes. bytes.items ≡ steps.bytes_of (map struct_of structs.now) (expr_of e.now)) }
{
    if let Some(n) = constant(structs, e) {
        return number_bytes(alloc, &e.ty, n);
    }
    if is_null_pointer(e) {
        return Ok(Vec::new(alloc));
    }
    match pointed_object(e) {
        None => Ok(Vec::new(alloc)),
        Some(target) => pointer_bytes(alloc, target),
    }
}

/// Where the part of an object begins.
fn part_offset(structs: &[StructType], ty: &Ty, part: usize) -> Result<usize, TypeError>
    ensures { Gives (λ n. n) result (Ok (spec.part_offset (map struct_of structs.now) (ty_of ty.now) part)) }
{
    match ty {
        Ty::Array(element, _) => {
            let Some(offset) = (size_of(structs, element)? as usize).checked_mul(part) else {
                return Err(TypeError::Memory);
            };
            Ok(offset)
        }
        Ty::Struct(k) => match structs.get(*k as usize) {
            None => Ok(0),
            Some(found) => match found.members.as_slice().get(part) {
                None => Ok(0),
                Some(member) => Ok(member.offset as usize),
            },
        },
        Ty::Void | Ty::Char | Ty::Int | Ty::Unsigned | Ty::Pointer(_) => Ok(0),
    }
}

/// Adds zeros, up to so many bytes.
#[tactic(auto, using(typing_expressions::proofs::Pushed::zeros))]
fn pad(bytes: &mut Vec<InitialByte>, count: usize) -> Result<(), AllocError>
    ensures { OnOk result (bytes.new.items ≡ spec.padded bytes.old.items count) }
{
    let start = bytes.len();
    if count <= start {
        return Ok(());
    }
    for _more in 0..count - start {
        bytes.push(InitialByte::Byte(0))?;
    }
    Ok(())
}

/// Adds the bytes of a string.
fn add_text(bytes: &mut Vec<InitialByte>, text: &[u8]) -> Result<(), AllocError>
    ensures { OnOk result (bytes.new.items ≡ steps.with_text bytes.old.items text.now) }
{
    for byte in text {
        bytes.push(InitialByte::Byte(*byte))?;
    }
    Ok(())
}

/// Adds the bytes that an initializer gives an object of the type, up to where only zeros follow.
#[cycle(initial_bytes)]
#[tactic(auto, using(typed_tree::proofs::TypedViewed::typed_views))]
fn add_initial(
    alloc: Global,
    initial: &TypedInitial,
    structs: &[StructType],
    ty: &Ty,
    bytes: &mut Vec<InitialByte>,
) -> Result<(), TypeError>
    ensures { Gives (λ u. bytes.new.items) result
        (Ok (steps.with_initial (map struct_of structs.now) (ty_of ty.now) bytes.old.items (initial_of initial.now))) }
{
    match initial {
        TypedInitial::Value(e) => {
            let value = value_bytes(alloc, structs, e)?;
            bytes.extend_from_slice(value.as_slice())?;
            Ok(())
        }
        TypedInitial::Text(_, text) => Ok(add_text(bytes, text)?),
        TypedInitial::Braces(_, parts) => {
            let given = parts_bytes(alloc, parts, structs, ty)?;
            bytes.extend_from_slice(given.as_slice())?;
            Ok(())
        }
    }
}

/// The bytes that parts give an object of the type.
#[cycle(initial_bytes)]
fn parts_bytes(
    alloc: Global,
    parts: &[TypedInitial],
    structs: &[StructType],
    ty: &Ty,
) -> Result<Vec<InitialByte>, TypeError>
    ensures { Gives (λ bytes. bytes.items) result (Ok (spec.parts_bytes (map struct_of structs.now) (ty_of ty.now) [] 0 (initials_of parts.now))) }
{
    let mut bytes = Vec::new(alloc);
    for i in 0..parts.len() {
        let offset = part_offset(structs, ty, i)?;
        pad(&mut bytes, offset)?;
        match part_type(structs, ty, i) {
            None => add_initial(alloc, &parts[i], structs, &Ty::Void, &mut bytes)?,
            Some(of) => add_initial(alloc, &parts[i], structs, of, &mut bytes)?,
        }
    }
    Ok(bytes)
}

/// The bytes that an initializer gives a global object of the type, up to where only zeros follow.
pub fn initial_bytes(
    alloc: Global,
    structs: &[StructType],
    ty: &Ty,
    initial: &TypedInitial,
) -> Result<Vec<InitialByte>, TypeError>
    ensures { Gives (λ bytes. bytes.items) result (Ok (spec.initial_bytes (map struct_of structs.now) (ty_of ty.now) (initial_of initial.now))) }
{
    let mut bytes = Vec::new(alloc);
    add_initial(alloc, initial, structs, ty, &mut bytes)?;
    Ok(bytes)
}
