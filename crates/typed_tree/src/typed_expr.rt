//! The typed tree of expressions.
//!
//! An expression of the typed tree carries its type and its place in the text. Its names are resolved to numbers, and
//! its brackets are gone. **Each conversion that the language makes by itself is a node of its own** (`Convert`, a
//! `Conversion`), at the place of the operand that it converts:
//!
//! - An operand of array type becomes a pointer to its first element, but for the operand of `&` and of `sizeof`
//!   (C11 6.3.2.1). No other conversion comes below this one.
//! - A number that is an operand of `+ - ~ * / % << >> & ^ | < > <= >= == !=`, of their assignments, of `[]` or of a
//!   pointer's sum, or the second or third operand of `?:`, becomes one of the type to which it is promoted, or of the
//!   common type of both operands (C11 6.3.1.1, 6.3.1.8). One node goes the whole way: a `char` that meets an
//!   `unsigned` is one conversion to `unsigned`.
//! - A value that is given to a type, by `=`, an argument, `return` or an initializer, becomes one of that type: a
//!   number a number, a null constant a null pointer, a pointer a pointer to or from `void` (C11 6.5.16.1).
//! - Of two pointers in `==`, `!=` and `?:` the one that differs from their common type becomes one of it (C11 6.5.9,
//!   6.5.15).
//!
//! Where the type is the same already there is no node. These are no nodes either: reading a place, which changes no
//! type; a condition, which is compared with zero as it is; the left side of a compound assignment and the operand of
//! `++` and `--`, which are read and stored as places; a cast, which is the conversion itself, so that its operand has
//! none but that of arrays; and the conversion to `void` of a value that is not used.
ghost use Rattle.std.specs.Prelude.{◌≡◌, IfOk};
ghost use Rattle.typed_tree.specs.TypesViewed.{ty_of};
ghost use Rattle.typed_tree.specs.TypedTree.CExpr.{expr};
ghost use Rattle.typed_tree.specs.TypedTree.CForm.{Convert, Index, Member, Arrow, StepBefore, StepAfter, Unary};
ghost use Rattle.typed_tree.specs.TypedTree.CForm.{Binary, Conditional, Assign, Comma, Cast, SizeofExpression};
ghost use Rattle.typed_tree.specs.TypedOperands.{is_place, is_null};
ghost use Rattle.typed_tree.specs.TypedViews.{expr_of};

use crate::types::Ty;
use c_words::operators::{AssignOperator, BinaryOperator, StepOperator, UnaryOperator};
use c_words::place::At;
use std::alloc::{AllocError, Global};

/// A function of the library.
#[derive(Clone, Copy, Debug, PartialEq, Eq)]
pub enum LibCall {
    /// `int putchar(int)` (C11 7.21.7.8)
    Putchar,
    /// `int getchar(void)` (C11 7.21.7.6)
    Getchar,
    /// `void exit(int)` (C11 7.22.4.4)
    Exit,
    /// `void *malloc(unsigned)` (C11 7.22.3.4)
    Malloc,
    /// `void *calloc(unsigned, unsigned)` (C11 7.22.3.2)
    Calloc,
    /// `void free(void *)` (C11 7.22.3.3)
    Free,
    /// `void *memcpy(void *, void *, unsigned)` (C11 7.24.2.1)
    Memcpy,
    /// `void *memset(void *, int, unsigned)` (C11 7.24.6.1)
    Memset,
}

/// What a call names.
#[derive(Clone, Copy, Debug, PartialEq, Eq)]
pub enum Called {
    /// The function of this number in the program's list.
    Defined(u32),
    /// A function of the library.
    Library(LibCall),
}

/// A conversion that the language makes by itself.
#[derive(Clone, Copy, Debug, PartialEq, Eq)]
pub enum Conversion {
    /// An array to a pointer to its first element (C11 6.3.2.1).
    ArrayToPointer,
    /// A number to one of another type (C11 6.3.1).
    NumberToNumber,
    /// A null constant to the null pointer of a type (C11 6.3.2.3).
    NullToPointer,
    /// A pointer to a pointer to `void`, or back (C11 6.3.2.3).
    PointerToPointer,
}

/// An expression with its type. Contracts see it as a `CExpr`, by `expr_of`.
#[cycle(typed)]
pub struct TypedExpr {
    /// The operator, the called name, or the first token of a name, a constant or a string.
    pub at: At,
    pub ty: Ty,
    pub form: TypedForm,
}

/// What an expression is.
#[cycle(typed)]
#[derive(Drop)]
pub enum TypedForm {
    /// The local of this number in the function's list.
    Local(u32),
    /// The named global object of this number in the program's list.
    Global(u32),
    /// The string of this number in the program's list.
    Text(u32),
    /// A number, as it is written.
    Number(u32),
    /// A character constant.
    Character(u8),
    /// `NULL`
    Null,
    /// `EOF`
    Eof,
    /// An operand that the language converts by itself.
    Convert(Conversion, Box<TypedExpr>),
    /// `a[i]`
    Index(Box<TypedExpr>, Box<TypedExpr>),
    /// `f(a, ..)`
    Call(Called, Vec<TypedExpr>),
    /// `e.m`, with the member's number in its struct.
    Member(Box<TypedExpr>, u32),
    /// `e->m`, with the member's number in its struct.
    Arrow(Box<TypedExpr>, u32),
    /// `++e` and `--e`
    StepBefore(StepOperator, Box<TypedExpr>),
    /// `e++` and `e--`
    StepAfter(StepOperator, Box<TypedExpr>),
    /// An operator before its operand.
    Unary(UnaryOperator, Box<TypedExpr>),
    /// An operator between two operands.
    Binary(BinaryOperator, Box<TypedExpr>, Box<TypedExpr>),
    /// `c ? a : b`
    Conditional(Box<TypedExpr>, Box<TypedExpr>, Box<TypedExpr>),
    /// An assignment.
    Assign(AssignOperator, Box<TypedExpr>, Box<TypedExpr>),
    /// `a, b`
    Comma(Box<TypedExpr>, Box<TypedExpr>),
    /// A cast to the expression's type.
    Cast(Box<TypedExpr>),
    /// `sizeof e`
    SizeofExpression(Box<TypedExpr>),
    /// `sizeof (T)`
    SizeofType(Ty),
}

/// By hand, so that letting an expression go is a call where it happens, and not the cases of all forms.
impl Drop for TypedExpr {
    fn drop(self) {
        let TypedExpr {
            at: _,
            ty: _,
            form: _,
        } = self;
    }
}

impl TypedExpr {
    /// An operand that the language converts to `ty`.
    pub fn convert(
        alloc: Global,
        at: At,
        ty: Ty,
        conversion: Conversion,
        operand: TypedExpr,
    ) -> Result<TypedExpr, AllocError>
        ensures { IfOk result (λ e. expr_of e ≡ expr at (ty_of ty) (Convert conversion (expr_of operand))) }
    {
        let form = TypedForm::Convert(conversion, Box::new(alloc, operand)?);
        Ok(TypedExpr { at, ty, form })
    }

    /// `base[index]`
    pub fn index(
        alloc: Global,
        at: At,
        ty: Ty,
        base: TypedExpr,
        index: TypedExpr,
    ) -> Result<TypedExpr, AllocError>
        ensures { IfOk result (λ e. expr_of e ≡ expr at (ty_of ty) (Index (expr_of base) (expr_of index))) }
    {
        let form = TypedForm::Index(Box::new(alloc, base)?, Box::new(alloc, index)?);
        Ok(TypedExpr { at, ty, form })
    }

    /// `of.m`, for the member of this number.
    pub fn member(
        alloc: Global,
        at: At,
        ty: Ty,
        of: TypedExpr,
        member: u32,
    ) -> Result<TypedExpr, AllocError>
        ensures { IfOk result (λ e. expr_of e ≡ expr at (ty_of ty) (Member (expr_of of) member)) }
    {
        let form = TypedForm::Member(Box::new(alloc, of)?, member);
        Ok(TypedExpr { at, ty, form })
    }

    /// `of->m`, for the member of this number.
    pub fn arrow(
        alloc: Global,
        at: At,
        ty: Ty,
        of: TypedExpr,
        member: u32,
    ) -> Result<TypedExpr, AllocError>
        ensures { IfOk result (λ e. expr_of e ≡ expr at (ty_of ty) (Arrow (expr_of of) member)) }
    {
        let form = TypedForm::Arrow(Box::new(alloc, of)?, member);
        Ok(TypedExpr { at, ty, form })
    }

    /// `++place` or `--place`
    pub fn step_before(
        alloc: Global,
        at: At,
        ty: Ty,
        operator: StepOperator,
        place: TypedExpr,
    ) -> Result<TypedExpr, AllocError>
        ensures { IfOk result (λ e. expr_of e ≡ expr at (ty_of ty) (StepBefore operator (expr_of place))) }
    {
        let form = TypedForm::StepBefore(operator, Box::new(alloc, place)?);
        Ok(TypedExpr { at, ty, form })
    }

    /// `place++` or `place--`
    pub fn step_after(
        alloc: Global,
        at: At,
        ty: Ty,
        operator: StepOperator,
        place: TypedExpr,
    ) -> Result<TypedExpr, AllocError>
        ensures { IfOk result (λ e. expr_of e ≡ expr at (ty_of ty) (StepAfter operator (expr_of place))) }
    {
        let form = TypedForm::StepAfter(operator, Box::new(alloc, place)?);
        Ok(TypedExpr { at, ty, form })
    }

    /// An operator before its operand.
    pub fn unary(
        alloc: Global,
        at: At,
        ty: Ty,
        operator: UnaryOperator,
        operand: TypedExpr,
    ) -> Result<TypedExpr, AllocError>
        ensures { IfOk result (λ e. expr_of e ≡ expr at (ty_of ty) (Unary operator (expr_of operand))) }
    {
        let form = TypedForm::Unary(operator, Box::new(alloc, operand)?);
        Ok(TypedExpr { at, ty, form })
    }

    /// An operator between its operands.
    pub fn binary(
        alloc: Global,
        at: At,
        ty: Ty,
        operator: BinaryOperator,
        left: TypedExpr,
        right: TypedExpr,
    ) -> Result<TypedExpr, AllocError>
        ensures { IfOk result (λ e. expr_of e ≡ expr at (ty_of ty) (Binary operator (expr_of left) (expr_of right))) }
    {
        let form = TypedForm::Binary(operator, Box::new(alloc, left)?, Box::new(alloc, right)?);
        Ok(TypedExpr { at, ty, form })
    }

    /// `condition ? left : right`
    pub fn conditional(
        alloc: Global,
        at: At,
        ty: Ty,
        condition: TypedExpr,
        left: TypedExpr,
        right: TypedExpr,
    ) -> Result<TypedExpr, AllocError>
        ensures { IfOk result (λ e. expr_of e ≡ expr at (ty_of ty) (Conditional (expr_of condition) (expr_of left) (expr_of right))) }
    {
        let form = TypedForm::Conditional(
            Box::new(alloc, condition)?,
            Box::new(alloc, left)?,
            Box::new(alloc, right)?,
        );
        Ok(TypedExpr { at, ty, form })
    }

    /// An assignment.
    pub fn assign(
        alloc: Global,
        at: At,
        ty: Ty,
        operator: AssignOperator,
        left: TypedExpr,
        right: TypedExpr,
    ) -> Result<TypedExpr, AllocError>
        ensures { IfOk result (λ e. expr_of e ≡ expr at (ty_of ty) (Assign operator (expr_of left) (expr_of right))) }
    {
        let form = TypedForm::Assign(operator, Box::new(alloc, left)?, Box::new(alloc, right)?);
        Ok(TypedExpr { at, ty, form })
    }

    /// `left, right`
    pub fn comma(
        alloc: Global,
        at: At,
        ty: Ty,
        left: TypedExpr,
        right: TypedExpr,
    ) -> Result<TypedExpr, AllocError>
        ensures { IfOk result (λ e. expr_of e ≡ expr at (ty_of ty) (Comma (expr_of left) (expr_of right))) }
    {
        let form = TypedForm::Comma(Box::new(alloc, left)?, Box::new(alloc, right)?);
        Ok(TypedExpr { at, ty, form })
    }

    /// A cast to `ty`.
    pub fn cast(alloc: Global, at: At, ty: Ty, operand: TypedExpr) -> Result<TypedExpr, AllocError>
        ensures { IfOk result (λ e. expr_of e ≡ expr at (ty_of ty) (Cast (expr_of operand))) }
    {
        let form = TypedForm::Cast(Box::new(alloc, operand)?);
        Ok(TypedExpr { at, ty, form })
    }

    /// `sizeof operand`
    pub fn size_of(
        alloc: Global,
        at: At,
        ty: Ty,
        operand: TypedExpr,
    ) -> Result<TypedExpr, AllocError>
        ensures { IfOk result (λ e. expr_of e ≡ expr at (ty_of ty) (SizeofExpression (expr_of operand))) }
    {
        let form = TypedForm::SizeofExpression(Box::new(alloc, operand)?);
        Ok(TypedExpr { at, ty, form })
    }

    /// Whether the expression names an object or a part of one (C11 6.3.2.1).
    pub fn is_place(&self) -> bool
        ensures { result ≡ is_place (expr_of self.now) }
    {
        match &self.form {
            TypedForm::Local(_)
            | TypedForm::Global(_)
            | TypedForm::Text(_)
            | TypedForm::Index(_, _)
            | TypedForm::Arrow(_, _)
            | TypedForm::Unary(UnaryOperator::Dereference, _) => true,
            TypedForm::Member(of, _) => of.is_place(),
            _ => false,
        }
    }

    /// Whether the expression is a null constant (C11 6.3.2.3).
    pub fn is_null(&self) -> bool
        ensures { result ≡ is_null (expr_of self.now) }
    {
        match &self.form {
            TypedForm::Number(value) => *value == 0,
            TypedForm::Null => true,
            _ => false,
        }
    }
}
