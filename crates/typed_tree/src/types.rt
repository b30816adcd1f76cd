//! The types of C (C11 6.2.5), and the structs and their members.
ghost use Rattle.std.specs.Prelude.{◌≡◌, IfOk};
ghost use Rattle.typed_tree.specs.Types.{same, is_number, is_pointer};
ghost use Rattle.typed_tree.specs.Types.CType.{Pointer, Array};
ghost use Rattle.typed_tree.specs.TypesViewed.{ty_of};

use bb_words::list::List;
use c_words::place::Name;
use std::alloc::{AllocError, Global};

/// A type. Contracts see it as a `CType`, by `ty_of`.
pub enum Ty {
    /// `void`
    Void,
    /// `char`, which is unsigned, and `unsigned char`
    Char,
    /// `int`
    Int,
    /// `unsigned int`
    Unsigned,
    /// The struct of this number in the program's list.
    Struct(u32),
    /// A pointer to the type.
    Pointer(Box<Ty>),
    /// An array of so many elements of the type.
    Array(Box<Ty>, u32),
}

/// A struct: its tag, and its members in their order. A tag that is never defined has no members, size 0 and
/// alignment 1.
#[derive(Drop)]
pub struct StructType {
    pub tag: Name,
    pub members: List<Member>,
    /// How many bytes a struct has, those between and after its members too.
    pub size: u32,
    /// The number of which each address of such a struct is a multiple.
    pub align: u32,
}

/// A member of a struct, so many bytes after the struct's start.
#[derive(Drop)]
pub struct Member {
    pub name: Name,
    pub ty: Ty,
    pub offset: u32,
}

/// By hand, so that letting a type go is a call where it happens, and not the cases of all kinds of types.
impl Drop for Ty {
    fn drop(self) {
        match self {
            Ty::Void | Ty::Char | Ty::Int | Ty::Unsigned | Ty::Struct(_) => {}
            Ty::Pointer(_) | Ty::Array(_, _) => {}
        }
    }
}

impl Ty {
    /// The type of a pointer to `to`.
    pub fn pointer(alloc: Global, to: Ty) -> Result<Ty, AllocError>
        ensures { IfOk result (λ t. ty_of t ≡ Pointer (ty_of to)) }
    {
        Ok(Ty::Pointer(Box::new(alloc, to)?))
    }

    /// The type of an array of `count` elements.
    pub fn array(alloc: Global, element: Ty, count: u32) -> Result<Ty, AllocError>
        ensures { IfOk result (λ t. ty_of t ≡ Array (ty_of element) count) }
    {
        Ok(Ty::Array(Box::new(alloc, element)?, count))
    }

    /// The same type again.
    pub fn copied(&self, alloc: Global) -> Result<Ty, AllocError>
        ensures { IfOk result (λ t. ty_of t ≡ ty_of self.now) }
    {
        match self {
            Ty::Void => Ok(Ty::Void),
            Ty::Char => Ok(Ty::Char),
            Ty::Int => Ok(Ty::Int),
            Ty::Unsigned => Ok(Ty::Unsigned),
            Ty::Struct(number) => Ok(Ty::Struct(*number)),
            Ty::Pointer(to) => Ty::pointer(alloc, to.copied(alloc)?),
            Ty::Array(element, count) => Ty::array(alloc, element.copied(alloc)?, *count),
        }
    }

    /// Whether two types are one (C11 6.2.7).
    #[tactic(auto, using(crate::proofs::TypesCases::other_types))]
    pub fn is_same(&self, other: &Ty) -> bool
        ensures { result ≡ same (ty_of self.now) (ty_of other.now) }
    {
        match (self, other) {
            (Ty::Void, Ty::Void) => true,
            (Ty::Char, Ty::Char) => true,
            (Ty::Int, Ty::Int) => true,
            (Ty::Unsigned, Ty::Unsigned) => true,
            (Ty::Struct(j), Ty::Struct(k)) => *j == *k,
            (Ty::Pointer(a), Ty::Pointer(b)) => a.is_same(b),
            (Ty::Array(a, m), Ty::Array(b, n)) => *m == *n && a.is_same(b),
            _ => false,
        }
    }

    /// Whether values of the type are numbers (C11 6.2.5).
    pub fn is_number(&self) -> bool
        ensures { result ≡ is_number (ty_of self.now) }
    {
        match self {
            Ty::Char | Ty::Int | Ty::Unsigned => true,
            Ty::Void | Ty::Struct(_) | Ty::Pointer(_) | Ty::Array(_, _) => false,
        }
    }

    /// Whether values of the type are pointers (C11 6.2.5).
    pub fn is_pointer(&self) -> bool
        ensures { result ≡ is_pointer (ty_of self.now) }
    {
        match self {
            Ty::Pointer(_) => true,
            Ty::Void | Ty::Char | Ty::Int | Ty::Unsigned | Ty::Struct(_) | Ty::Array(_, _) => false,
        }
    }
}
