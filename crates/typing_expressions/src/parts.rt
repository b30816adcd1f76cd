//! The steps of declarators, and the types that they make (C11 6.7.6).
ghost use Rattle.std.specs.Prelude.{◌≡◌, map, reverse, Ok};
ghost use Rattle.typed_tree.specs.Sizes as sizes;
ghost use Rattle.typed_tree.specs.TypesViewed.{ty_of};
ghost use Rattle.typed_tree.specs.TypedViews.{expr_of, struct_of};
ghost use Rattle.typing_operators.specs.Rule.{Gives};
ghost use Rattle.typing_expressions.specs.Parts as spec;

use c_words::place::Name;
use std::alloc::Global;
use typed_tree::typed_expr::TypedExpr;
use typed_tree::types::{StructType, Ty};
use typing_operators::constants::constant;
use typing_operators::conversions::is_unsigned;
use typing_operators::error::TypeError;
use typing_operators::sizes::is_complete;

/// A parameter of a function declarator: its name, its type, and the line of its specifier.
#[derive(Drop)]
pub struct Param {
    pub name: Option<Name>,
    pub ty: Ty,
    pub line: u32,
}

/// A step of a declarator, read from the declared name outwards: `*x[3]` is an array of 3 pointers.
#[derive(Drop)]
pub enum Part {
    /// `*`
    Pointer,
    /// `[ size ]`; none, where the size is no constant expression of at least 1.
    Array(Option<u32>),
    /// `[ ]`
    Unsized,
    /// `( parameters )`
    Function(Vec<Param>),
}

/// The number of elements that the expression gives an array.
#[tactic(auto, unfolding(crate::specs::Parts::count_of))]
pub fn count_of(structs: &[StructType], e: &TypedExpr) -> Option<u32>
    ensures { result ≡ spec.count_of (map struct_of structs.now) (expr_of e.now) }
{
    match constant(structs, e) {
        None => None,
        Some(n) => {
            if n >= 1 && (is_unsigned(&e.ty) || n < 2_147_483_648) {
                Some(n)
            } else {
                None
            }
        }
    }
}

fn is_array_part(part: &Part) -> bool
    ensures { result ≡ spec.is_array_part (spec.part_of part.now) }
{
    match part {
        Part::Array(_) | Part::Unsized => true,
        Part::Pointer | Part::Function(_) => false,
    }
}

/// Whether the step next to the specifier is an array; where there is no step, as is said.
fn begins_with_array(none: bool, parts: &[Part]) -> bool
    ensures { result ≡ spec.begins_with_array none (spec.parts_of parts.now) }
{
    let mut found = none;
    for part in parts {
        found = is_array_part(part);
    }
    found
}

/// Whether the declarator asks for a complete type of the specifier, and the type is not complete.
pub fn is_incomplete(structs: &[StructType], is_object: bool, base: &Ty, parts: &[Part]) -> bool
    ensures { result ≡ spec.is_incomplete (map struct_of structs.now) is_object (ty_of base.now) (spec.parts_of parts.now) }
{
    begins_with_array(is_object, parts) && !is_complete(structs, base)
}

/// Whether one of the steps is a function.
pub fn has_function(parts: &[Part]) -> bool
    ensures { result ≡ spec.has_function (spec.parts_of parts.now) }
{
    for part in parts {
        match part {
            Part::Function(_) => return true,
            Part::Pointer | Part::Array(_) | Part::Unsized => {}
        }
    }
    false
}

/// Whether an array has no size, or one that is none.
pub fn lacks_size(parts: &[Part]) -> bool
    ensures { result ≡ spec.lacks_size (spec.parts_of parts.now) }
{
    for part in parts {
        match part {
            Part::Array(None) | Part::Unsized => return true,
            Part::Pointer | Part::Array(Some(_)) | Part::Function(_) => {}
        }
    }
    false
}

/// How many bytes an object of the type has.
pub fn size_of(structs: &[StructType], ty: &Ty) -> Result<u32, TypeError>
    ensures { Gives (λ n. n) result (Ok (sizes.size_of (map struct_of structs.now) (ty_of ty.now))) }
{
    match ty {
        Ty::Void => Ok(0),
        Ty::Char => Ok(1),
        Ty::Int | Ty::Unsigned | Ty::Pointer(_) => Ok(4),
        Ty::Struct(k) => match structs.get(*k as usize) {
            None => Ok(0),
            Some(found) => Ok(found.size),
        },
        Ty::Array(element, count) => {
            let size = size_of(structs, element)?;
            match size.checked_mul(*count) {
                None => Err(TypeError::Memory),
                Some(all) => Ok(all),
            }
        }
    }
}

/// The array of so many elements, which has not too many bytes.
#[tactic(auto, unfolding(crate::specs::Parts::array_of))]
pub fn array_of(
    alloc: Global,
    structs: &[StructType],
    line: u32,
    element: Ty,
    count: u32,
) -> Result<Ty, TypeError>
    ensures { Gives ty_of result (spec.array_of (map struct_of structs.now) line (ty_of element) count) }
{
    let size = size_of(structs, &element)? as u64 * count as u64;
    if size > 1_048_576 {
        return Err(TypeError::TooLarge { line, size });
    }
    Ok(Ty::array(alloc, element, count)?)
}

/// What the step makes of the type.
fn made_by(
    alloc: Global,
    structs: &[StructType],
    line: u32,
    ty: Ty,
    part: &Part,
) -> Result<Ty, TypeError>
    ensures { Gives ty_of result (spec.made_by (map struct_of structs.now) line (ty_of ty) (spec.part_of part.now)) }
{
    match part {
        Part::Pointer => Ok(Ty::pointer(alloc, ty)?),
        Part::Array(Some(count)) => array_of(alloc, structs, line, ty, *count),
        Part::Array(None) | Part::Unsized => Err(TypeError::BadType { line, rule: 3 }),
        Part::Function(_) => Err(TypeError::BadType { line, rule: 2 }),
    }
}

/// What the steps make of the type, one after the other.
fn made(
    alloc: Global,
    structs: &[StructType],
    line: u32,
    base: Ty,
    parts: &[Part],
) -> Result<Ty, TypeError>
    ensures { Gives ty_of result (spec.made (map struct_of structs.now) line (ty_of base) (spec.parts_of parts.now)) }
{
    let mut ty = base;
    for part in parts {
        ty = made_by(alloc, structs, line, ty, part)?;
    }
    Ok(ty)
}

/// The type that the steps make of the specifier's, from the specifier towards the name.
#[tactic(auto, using(crate::proofs::Steps::parts_reversed))]
pub fn made_from(
    alloc: Global,
    structs: &[StructType],
    line: u32,
    base: Ty,
    parts: Vec<Part>,
) -> Result<Ty, TypeError>
    ensures { Gives ty_of result (spec.made (map struct_of structs.now) line (ty_of base) (reverse (spec.parts_of parts.items))) }
{
    let mut parts = parts;
    parts.reverse();
    made(alloc, structs, line, base, parts.as_slice())
}

/// The type that a declarator makes of the specifier's type, as that of an object or as a type alone.
#[tactic(auto, unfolding(crate::specs::Parts::formed))]
pub fn formed(
    alloc: Global,
    structs: &[StructType],
    line: u32,
    is_object: bool,
    base: Ty,
    parts: Vec<Part>,
) -> Result<Ty, TypeError>
    ensures { Gives ty_of result (spec.formed (map struct_of structs.now) line is_object (ty_of base) (spec.parts_of parts.items)) }
{
    if is_incomplete(structs, is_object, &base, parts.as_slice()) {
        return Err(TypeError::BadType { line, rule: 1 });
    }
    if has_function(parts.as_slice()) {
        return Err(TypeError::BadType { line, rule: 2 });
    }
    if lacks_size(parts.as_slice()) {
        return Err(TypeError::BadType { line, rule: 3 });
    }
    made_from(alloc, structs, line, base, parts)
}
