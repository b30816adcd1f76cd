//! Sizes, alignments and offsets in a typed program (C11 6.2.8, 6.5.3.4, 6.7.2.1).
ghost use Rattle.std.specs.Prelude.{◌≡◌, ◌≤◌, slice_get, IsSome, IfSome};
ghost use Rattle.typed_tree.specs.TypesViewed.{ty_of};
ghost use Rattle.typed_tree.specs.TypedViews.{program_of};
ghost use Rattle.typed_tree.specs.Sizes as sizes;
ghost use Rattle.typed_tree.specs.Typed.{Typed};

use typed_tree::typed::Program;
use typed_tree::types::{Member, Ty};

/// How many bytes an object of the type has. The type is complete, and one that a program may form.
pub fn size_of(p: &Program, t: &Ty) -> u32
    requires typed { Typed (program_of p.now) }
    requires formed { sizes.IsType (program_of p.now).structs (ty_of t.now) }
    requires complete { sizes.IsComplete (program_of p.now).structs (ty_of t.now) }
    ensures { result ≡ sizes.size_of (program_of p.now).structs (ty_of t.now) }
{
    match t {
        Ty::Void => 0,
        Ty::Char => 1,
        Ty::Int | Ty::Unsigned | Ty::Pointer(_) => 4,
        Ty::Struct(k) => match p.structs.as_slice().get(*k as usize) {
            None => 0,
            Some(found) => found.size,
        },
        Ty::Array(element, count) => size_of(p, element) * *count,
    }
}

/// The number of which the addresses of objects of the type are multiples.
pub fn align_of(p: &Program, t: &Ty) -> u32
    requires typed { Typed (program_of p.now) }
    requires complete { sizes.IsComplete (program_of p.now).structs (ty_of t.now) }
    ensures { result ≡ sizes.align_of (program_of p.now).structs (ty_of t.now) }
{
    match t {
        Ty::Void | Ty::Char => 1,
        Ty::Int | Ty::Unsigned | Ty::Pointer(_) => 4,
        Ty::Struct(k) => match p.structs.as_slice().get(*k as usize) {
            None => 1,
            Some(found) => found.align,
        },
        Ty::Array(element, _) => align_of(p, element),
    }
}

/// How many bytes after the start of struct `of` its member lies.
pub fn offset_of(p: &Program, of: u32, member: u32) -> u32
    requires typed { Typed (program_of p.now) }
    requires found { IsSome (slice_get (sizes.members_of (slice_get (program_of p.now).structs of)) member) }
    ensures { IfSome (slice_get (sizes.members_of (slice_get (program_of p.now).structs of)) member) (λ m. result ≡ m.offset) }
{
    match p.structs.as_slice().get(of as usize) {
        None => 0,
        Some(found) => offset_in(found.members.as_slice(), member),
    }
}

/// The offset of the member of a number, or 0 where there is none.
fn offset_in(members: &[Member], member: u32) -> u32
    ensures { IfSome (slice_get members.now member) (λ m. result ≡ m.offset) }
{
    match members.get(member as usize) {
        None => 0,
        Some(found) => found.offset,
    }
}
