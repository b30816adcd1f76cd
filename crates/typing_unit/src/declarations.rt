//! The declarations of a file (C11 6.7).
ghost use Rattle.std.specs.Prelude.{map, Ok, false};
ghost use Rattle.std.specs.Option.{option_map};
ghost use Rattle.syntax_tree.specs.SyntaxViews.{initializer_tree, init_declarator_tree};
ghost use Rattle.typed_tree.specs.TypesViewed.{ty_of};
ghost use Rattle.typing_operators.specs.Rule.{Gives};
ghost use Rattle.typing_expressions.specs.Parts.{parts_of};
ghost use Rattle.typing_unit_keeps.specs.Units as spec;
ghost use Rattle.typing_unit.specs.UnitSteps.{file_of};
ghost use Rattle.typing_unit.specs.UnitSteps as steps;

use crate::file::File;
use crate::functions::{Role, declared_function};
use crate::objects::declared_object;
use bb_words::list::List;
use c_words::place::{At, Name};
use std::alloc::Global;
use syntax_tree::syntax::{InitDeclarator, Initializer};
use typed_tree::typed::Function;
use typed_tree::types::Ty;
use typing_declarations::declarator::{declared_name, steps};
use typing_expressions::parts::{Param, Part};
use typing_expressions::table::Table;
use typing_operators::error::TypeError;

/// What a declarator declares, with the steps that are left.
#[derive(Drop)]
pub enum Declares {
    Function(Vec<Param>, Vec<Part>),
    Object(Vec<Part>),
}

/// What the steps of a declarator declare.
pub fn split_off(parts: Vec<Part>) -> Declares
    ensures { steps.IsSplit (parts_of parts.items) result }
{
    match parts.first() {
        Some(Part::Function(_)) => {
            let mut rest = parts;
            match rest.remove(0) {
                Part::Function(params) => Declares::Function(params, rest),
                Part::Pointer | Part::Array(_) | Part::Unsized => Declares::Object(rest),
            }
        }
        Some(Part::Pointer) => Declares::Object(parts),
        Some(Part::Array(_)) => Declares::Object(parts),
        Some(Part::Unsized) => Declares::Object(parts),
        None => Declares::Object(parts),
    }
}

/// One declarator of a declaration, behind its steps.
fn declared_by(
    alloc: Global,
    file: &mut File,
    numbers: &Table<u32>,
    initializer: &Option<Initializer>,
    at: At,
    name: Name,
    base: &Ty,
    parts: Vec<Part>,
) -> Result<(), TypeError>
    ensures { Gives (λ u. file_of file.new) result
        (spec.declared_by numbers.now (file_of file.old) at name (ty_of base.now) (option_map initializer_tree initializer.now) (parts_of parts.items)) }
{
    match split_off(parts) {
        Declares::Function(params, rest) => {
            let role = Role {
                defines: false,
                has_initializer: initializer.is_some(),
            };
            let params = params.as_slice();
            let _ = declared_function(
                alloc,
                file,
                numbers,
                at,
                name.as_slice(),
                base,
                params,
                rest,
                role,
            )?;
            Ok(())
        }
        Declares::Object(parts) => declared_object(alloc, file, initializer, at, name, base, parts),
    }
}

/// One declarator of a declaration.
pub fn declared(
    alloc: Global,
    file: &mut File,
    numbers: &Table<u32>,
    declarator: &InitDeclarator,
    base: &Ty,
) -> Result<(), TypeError>
    ensures { Gives (λ u. file_of file.new) result (spec.declared numbers.now (file_of file.old) (ty_of base.now) (init_declarator_tree declarator.now)) }
{
    let parts = steps(alloc, &mut file.scene, &declarator.declarator)?;
    let name = List::copy_of(alloc, declared_name(&declarator.declarator))?;
    let at = declarator.declarator.at();
    declared_by(
        alloc,
        file,
        numbers,
        &declarator.initializer,
        at,
        name,
        base,
        parts,
    )
}

/// The declarators of a declaration.
pub fn all_declared(
    alloc: Global,
    file: &mut File,
    numbers: &Table<u32>,
    declarators: &[InitDeclarator],
    base: &Ty,
) -> Result<(), TypeError>
    ensures { Gives (λ u. file_of file.new) result
        (spec.all_declared numbers.now (file_of file.old) (ty_of base.now) (map init_declarator_tree declarators.now)) }
{
    for declarator in declarators {
        declared(alloc, file, numbers, declarator, base)?;
    }
    Ok(())
}
