//! Sizes of types, alignments, and complete types (C11 6.2.5, 6.2.8).
ghost use Rattle.std.specs.Prelude.{◌≡◌, slice_get, map};
ghost use Rattle.typed_tree.specs.TypesViewed.{ty_of};
ghost use Rattle.typed_tree.specs.TypedViews.{struct_of};
ghost use Rattle.typed_tree.specs.Sizes as sizes;
ghost use Rattle.typing_operators.specs.Conversions.{points_to_complete};

use typed_tree::types::{StructType, Ty};

/// Whether the type is complete.
pub fn is_complete(structs: &[StructType], ty: &Ty) -> bool
    ensures { result ≡ sizes.is_complete (map struct_of structs.now) (ty_of ty.now) }
{
    match ty {
        Ty::Void => false,
        Ty::Char | Ty::Int | Ty::Unsigned | Ty::Pointer(_) => true,
        Ty::Struct(k) => match structs.get(*k as usize) {
            None => false,
            Some(found) => found.members.len() > 0,
        },
        Ty::Array(element, _) => is_complete(structs, element),
    }
}

/// Whether values of the type are pointers to a complete type.
pub fn points_to_complete(structs: &[StructType], ty: &Ty) -> bool
    ensures { result ≡ points_to_complete (map struct_of structs.now) (ty_of ty.now) }
{
    match ty {
        Ty::Pointer(to) => is_complete(structs, to),
        Ty::Void | Ty::Char | Ty::Int | Ty::Unsigned | Ty::Struct(_) | Ty::Array(_, _) => false,
    }
}
