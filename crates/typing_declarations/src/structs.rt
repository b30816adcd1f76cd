//! The definitions of structs (C11 6.7.2.1).
ghost use Rattle.std.specs.Prelude.{◌≡◌, map, Ok, slice_set};
ghost use Rattle.syntax_tree.specs.SyntaxViews.{declarator_tree, member_declaration_tree, struct_definition_tree};
ghost use Rattle.typed_tree.specs.TypesViewed.{ty_of};
ghost use Rattle.typed_tree.specs.TypedViews.{struct_of, member_of};
ghost use Rattle.typed_tree.specs.Sizes as sizes;
ghost use Rattle.typing_operators.specs.Rule.{Gives, Runs};
ghost use Rattle.typing_expressions.specs.Scene.{scene_of, draft_of};
ghost use Rattle.typing_declarations.specs.Structs as spec;
ghost use Rattle.typing_declarations.specs.StructSteps as steps;

use crate::declarator::{declared_name, object_type, steps};
use bb_words::list::List;
use std::alloc::Global;
use syntax_tree::syntax::{Declarator, MemberDeclaration, StructDefinition};
use typed_tree::types::{Member, StructType, Ty};
use typing_expressions::expression::{based, tagged};
use typing_expressions::parts::size_of;
use typing_expressions::scene::{Draft, Scene};
use typing_operators::error::TypeError;

/// Whether one of the members has the name.
fn is_member(members: &[Draft], name: &[u8]) -> bool
    ensures { result ≡ spec.is_member (map draft_of members.now) name.now }
{
    for member in members {
        if name == member.name.as_slice() {
            return true;
        }
    }
    false
}

/// Adds a member.
#[tactic(auto, using(typing_expressions::proofs::Pushed::drafts_pushed))]
fn member(
    alloc: Global,
    scene: &mut Scene,
    declarator: &Declarator,
    base: &Ty,
    members: &mut Vec<Draft>,
) -> Result<(), TypeError>
    ensures { Runs (λ u. map draft_of members.new.items) (scene_of scene.new) result
        (spec.member (map draft_of members.old.items) (scene_of scene.old) (ty_of base.now) (declarator_tree declarator.now)) }
{
    let line = declarator.at().line;
    let parts = steps(alloc, scene, declarator)?;
    let name = declared_name(declarator);
    if is_member(members.as_slice(), name) {
        return Err(TypeError::Twice {
            line,
            name: List::copy_of(alloc, name)?,
        });
    }
    let ty = object_type(
        alloc,
        scene.structs.as_slice(),
        line,
        base.copied(alloc)?,
        parts,
    )?;
    members.push(Draft {
        name: List::copy_of(alloc, name)?,
        ty,
    })?;
    Ok(())
}

/// Adds the members of one specifier.
fn members_of(
    alloc: Global,
    scene: &mut Scene,
    declarators: &[Declarator],
    base: &Ty,
    members: &mut Vec<Draft>,
) -> Result<(), TypeError>
    ensures { Runs (λ u. map draft_of members.new.items) (scene_of scene.new) result
        (spec.members (map draft_of members.old.items) (scene_of scene.old) (ty_of base.now) (map declarator_tree declarators.now)) }
{
    for declarator in declarators {
        member(alloc, scene, declarator, base, members)?;
    }
    Ok(())
}

/// Adds the members of one declaration.
fn member_list(
    alloc: Global,
    scene: &mut Scene,
    declaration: &MemberDeclaration,
    members: &mut Vec<Draft>,
) -> Result<(), TypeError>
    ensures { Runs (λ u. map draft_of members.new.items) (scene_of scene.new) result
        (steps.member_list (map draft_of members.old.items) (scene_of scene.old) (member_declaration_tree declaration.now)) }
{
    let base = based(alloc, scene, &declaration.specifier)?;
    members_of(
        alloc,
        scene,
        declaration.declarators.as_slice(),
        &base,
        members,
    )
}

/// Adds the members of declarations.
fn member_lists(
    alloc: Global,
    scene: &mut Scene,
    declarations: &[MemberDeclaration],
    members: &mut Vec<Draft>,
) -> Result<(), TypeError>
    ensures { Runs (λ u. map draft_of members.new.items) (scene_of scene.new) result
        (spec.member_lists (map draft_of members.old.items) (scene_of scene.old) (map member_declaration_tree declarations.now)) }
{
    for declaration in declarations {
        member_list(alloc, scene, declaration, members)?;
    }
    Ok(())
}

/// The number of which the addresses of objects of the type are multiples.
pub fn align_of(structs: &[StructType], ty: &Ty) -> u32
    ensures { result ≡ sizes.align_of (map struct_of structs.now) (ty_of ty.now) }
{
    match ty {
        Ty::Void | Ty::Char => 1,
        Ty::Int | Ty::Unsigned | Ty::Pointer(_) => 4,
        Ty::Struct(k) => match structs.get(*k as usize) {
            None => 1,
            Some(found) => found.align,
        },
        Ty::Array(element, _) => align_of(structs, element),
    }
}

/// The least multiple of the unit that is at least the number.
fn rounded_up(n: u64, unit: u32) -> Result<u64, TypeError>
    ensures { Gives (λ m. m) result (Ok (sizes.rounded_up n unit)) }
{
    if unit == 0 {
        return Err(TypeError::Memory);
    }
    let unit = unit as u64;
    let Some(raised) = n.checked_add(unit - 1) else {
        return Err(TypeError::Memory);
    };
    Ok(raised / unit * unit)
}

/// Where the next member begins, behind those that end here.
fn offset_behind(structs: &[StructType], from: u64, member: &Draft) -> Result<u64, TypeError>
    ensures { Gives (λ m. m) result (Ok (sizes.rounded_up from (sizes.align_of (map struct_of structs.now) (draft_of member.now).ty))) }
{
    rounded_up(from, align_of(structs, &member.ty))
}

/// Where the last member ends.
fn end_of(structs: &[StructType], members: &[Draft]) -> Result<u64, TypeError>
    ensures { Gives (λ n. n) result (Ok (steps.end_of_drafts (map struct_of structs.now) 0 (map draft_of members.now))) }
{
    let mut from = 0;
    for member in members {
        let offset = offset_behind(structs, from, member)?;
        let Some(end) = offset.checked_add(size_of(structs, &member.ty)? as u64) else {
            return Err(TypeError::Memory);
        };
        from = end;
    }
    Ok(from)
}

/// The greatest alignment of the members.
fn greatest_align(structs: &[StructType], members: &[Draft]) -> u32
    ensures { result ≡ steps.greatest_of_drafts (map struct_of structs.now) 1 (map draft_of members.now) }
{
    let mut greatest = 1;
    for member in members {
        greatest = greatest.max(align_of(structs, &member.ty));
    }
    greatest
}

/// The members, each at its place.
#[tactic(auto, using(typing_expressions::proofs::Pushed::members_pushed))]
fn placed(
    alloc: Global,
    structs: &[StructType],
    members: &[Draft],
) -> Result<Vec<Member>, TypeError>
    ensures { Gives (λ ms. map member_of ms.items) result (Ok (spec.placed (map struct_of structs.now) 0 (map draft_of members.now))) }
{
    let mut from = 0;
    let mut done = Vec::new(alloc);
    for member in members {
        let start = offset_behind(structs, from, member)?;
        let Some(end) = start.checked_add(size_of(structs, &member.ty)? as u64) else {
            return Err(TypeError::Memory);
        };
        let Ok(offset) = u32::try_from(start) else {
            return Err(TypeError::Memory);
        };
        done.push(Member {
            name: List::copy_of(alloc, member.name.as_slice())?,
            ty: member.ty.copied(alloc)?,
            offset,
        })?;
        from = end;
    }
    Ok(done)
}

/// The struct of these members, which has not too many bytes.
fn laid_out(
    alloc: Global,
    structs: &[StructType],
    line: u32,
    tag: &[u8],
    members: &[Draft],
) -> Result<StructType, TypeError>
    ensures { Gives struct_of result (steps.sized (map struct_of structs.now) line tag.now (map draft_of members.now)) }
{
    let align = greatest_align(structs, members);
    let end = end_of(structs, members)?;
    let size = rounded_up(end, align)?;
    if size > 1_048_576 {
        return Err(TypeError::TooLarge { line, size });
    }
    let tag = List::copy_of(alloc, tag)?;
    let members = List::from_vec(placed(alloc, structs, members)?);
    Ok(StructType {
        tag,
        members,
        size: size as u32,
        align,
    })
}

/// Puts the struct in its place.
#[tactic(auto, using(crate::proofs::Layouts::put_in))]
fn put(structs: &mut Vec<StructType>, number: u32, found: StructType)
    ensures { map struct_of structs.new.items ≡ slice_set (map struct_of structs.old.items) number (struct_of found) }
{
    if (number as usize) < structs.len() {
        structs[number as usize] = found;
    }
}

/// Whether the struct of the number has members.
fn is_defined(structs: &[StructType], number: u32) -> bool
    ensures { result ≡ steps.is_defined (map struct_of structs.now) number }
{
    match structs.get(number as usize) {
        None => false,
        Some(found) => found.members.len() > 0,
    }
}

/// The number of the struct that is defined. Within its members the struct is not complete yet.
pub fn struct_defined(
    alloc: Global,
    scene: &mut Scene,
    definition: &StructDefinition,
) -> Result<u32, TypeError>
    ensures { Runs (λ k. k) (scene_of scene.new) result (spec.struct_defined (scene_of scene.old) (struct_definition_tree definition.now)) }
{
    let number = tagged(alloc, scene, definition.tag.as_slice())?;
    let line = definition.at.line;
    if is_defined(scene.structs.as_slice(), number) {
        return Err(TypeError::Twice {
            line,
            name: List::copy_of(alloc, definition.tag.as_slice())?,
        });
    }
    let mut members = Vec::new(alloc);
    member_lists(alloc, scene, definition.members.as_slice(), &mut members)?;
    let found = laid_out(
        alloc,
        scene.structs.as_slice(),
        line,
        definition.tag.as_slice(),
        members.as_slice(),
    )?;
    put(&mut scene.structs, number, found);
    Ok(number)
}
