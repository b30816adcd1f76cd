//! Which types of a program, and which of its locals, are built.
ghost use Rattle.std.specs.Prelude.{◌≡◌, ◌&&◌, not, map};
ghost use Rattle.typed_tree.specs.TypesViewed.{ty_of};
ghost use Rattle.typed_tree.specs.TypedViews.{member_of, struct_of, local_of, program_of};
ghost use Rattle.lowering_counts.specs.Built as built;

use crate::survey::has_pointer;
use typed_tree::typed::{Local, Program};
use typed_tree::types::{Member, StructType};

fn are_built_members(members: &[Member]) -> bool
    ensures { result ≡ built.are_built_members (map member_of members.now) }
{
    for member in members {
        if has_pointer(&member.ty) {
            return false;
        }
    }
    true
}

fn are_built_structs(structs: &[StructType]) -> bool
    ensures { result ≡ built.are_built_structs (map struct_of structs.now) }
{
    for found in structs {
        if !are_built_members(found.members.as_slice()) {
            return false;
        }
    }
    true
}

fn is_built_local(local: &Local) -> bool
    ensures { result ≡ (not local.now.is_block && not (built.has_pointer (ty_of local.now.ty))) }
{
    !local.is_block && !has_pointer(&local.ty)
}

/// Whether all of these locals are values that are no pointers.
pub(crate) fn are_built_locals(locals: &[Local]) -> bool
    ensures { result ≡ built.are_built_locals (map local_of locals.now) }
{
    for local in locals {
        if !is_built_local(local) {
            return false;
        }
    }
    true
}

/// Whether all of a program but its functions is built.
pub(crate) fn is_built_beside_functions(p: &Program) -> bool
    ensures { let program = program_of p.now in
        result ≡ (built.is_empty program.globals && built.is_empty program.texts && built.are_built_structs program.structs) }
{
    let objects = p.globals.len() == 0 && p.texts.len() == 0;
    let structs = are_built_structs(p.structs.as_slice());
    objects && structs
}
