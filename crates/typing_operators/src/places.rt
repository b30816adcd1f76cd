//! The rules of `[]`, `.` and `->` (C11 6.5.2.1, 6.5.2.3).
ghost use Rattle.std.specs.Prelude.{◌≡◌, map, IfOk, Ok};
ghost use Rattle.std.specs.Option.{option_map};
ghost use Rattle.typed_tree.specs.TypesViewed.{ty_of};
ghost use Rattle.typed_tree.specs.TypedViews.{expr_of, struct_of, member_of};
ghost use Rattle.typing_operators.specs.Rule.{Gives};
ghost use Rattle.typing_operators.specs.Views.{numbered_type};
ghost use Rattle.typing_operators.specs.Operators as spec;

use crate::conversions::{as_promoted, decayed};
use crate::error::TypeError;
use crate::unary::element_of;
use c_words::place::At;
use std::alloc::Global;
use typed_tree::typed_expr::TypedExpr;
use typed_tree::types::{Member, StructType, Ty};

/// `x[index]`
#[tactic(auto, unfolding(crate::specs::Operators::index_rule))]
pub fn index(
    alloc: Global,
    structs: &[StructType],
    at: At,
    x: TypedExpr,
    index: TypedExpr,
) -> Result<TypedExpr, TypeError>
    ensures { Gives expr_of result (spec.index_rule (map struct_of structs.now) at (expr_of x) (expr_of index)) }
{
    let x = decayed(alloc, x)?;
    match element_of(alloc, structs, &x.ty)? {
        None => Err(TypeError::BadType {
            line: at.line,
            rule: 12,
        }),
        Some(ty) => {
            if !index.ty.is_number() {
                return Err(TypeError::BadType {
                    line: at.line,
                    rule: 12,
                });
            }
            let index = as_promoted(alloc, index)?;
            Ok(TypedExpr::index(alloc, at, ty, x, index)?)
        }
    }
}

/// The number and the type of the member of a name.
fn member_named(
    alloc: Global,
    members: &[Member],
    name: &[u8],
) -> Result<Option<(u32, Ty)>, TypeError>
    ensures { Gives (λ o. option_map numbered_type o) result (Ok (spec.member_named name.now 0 (map member_of members.now))) }
{
    for i in 0..members.len() {
        let member = &members[i];
        if member.name.as_slice() == name {
            let Ok(number) = u32::try_from(i) else {
                return Err(TypeError::Memory);
            };
            return Ok(Some((number, member.ty.copied(alloc)?)));
        }
    }
    Ok(None)
}

/// The number and the type of a member of the type, if it is a struct with such a member.
fn member_in(
    alloc: Global,
    structs: &[StructType],
    ty: &Ty,
    name: &[u8],
) -> Result<Option<(u32, Ty)>, TypeError>
    ensures { Gives (λ o. option_map numbered_type o) result (Ok (spec.member_in (map struct_of structs.now) (ty_of ty.now) name.now)) }
{
    match ty {
        Ty::Struct(k) => match structs.get(*k as usize) {
            None => Ok(None),
            Some(found) => member_named(alloc, found.members.as_slice(), name),
        },
        Ty::Void | Ty::Char | Ty::Int | Ty::Unsigned | Ty::Pointer(_) | Ty::Array(_, _) => Ok(None),
    }
}

/// `x.name`
#[tactic(auto, unfolding(crate::specs::Operators::member_rule))]
pub fn member(
    alloc: Global,
    structs: &[StructType],
    at: At,
    x: TypedExpr,
    name: &[u8],
) -> Result<TypedExpr, TypeError>
    ensures { Gives expr_of result (spec.member_rule (map struct_of structs.now) at (expr_of x) name.now) }
{
    match member_in(alloc, structs, &x.ty, name)? {
        None => Err(TypeError::BadType {
            line: at.line,
            rule: 13,
        }),
        Some((number, ty)) => Ok(TypedExpr::member(alloc, at, ty, x, number)?),
    }
}

/// `x->name`
#[tactic(auto, unfolding(crate::specs::Operators::arrow_rule))]
pub fn arrow(
    alloc: Global,
    structs: &[StructType],
    at: At,
    x: TypedExpr,
    name: &[u8],
) -> Result<TypedExpr, TypeError>
    ensures { Gives expr_of result (spec.arrow_rule (map struct_of structs.now) at (expr_of x) name.now) }
{
    let x = decayed(alloc, x)?;
    let Some(target) = element_of(alloc, structs, &x.ty)? else {
        return Err(TypeError::BadType {
            line: at.line,
            rule: 12,
        });
    };
    match member_in(alloc, structs, &target, name)? {
        None => Err(TypeError::BadType {
            line: at.line,
            rule: 13,
        }),
        Some((number, ty)) => Ok(TypedExpr::arrow(alloc, at, ty, x, number)?),
    }
}
