//! Objects of a file (C11 6.9.2).
ghost use Rattle.std.specs.Prelude.{◌≡◌, map, Ok, false};
ghost use Rattle.std.specs.Option.{option_map};
ghost use Rattle.syntax_tree.specs.SyntaxViews.{initializer_tree};
ghost use Rattle.typed_tree.specs.TypesViewed.{ty_of};
ghost use Rattle.typed_tree.specs.TypedViews.{struct_of};
ghost use Rattle.typing_operators.specs.Rule.{Gives};
ghost use Rattle.typing_expressions.specs.Names.{found};
ghost use Rattle.typing_expressions.specs.Scene.{scene_of};
ghost use Rattle.typing_expressions.specs.Parts.{parts_of};
ghost use Rattle.typing_unit_keeps.specs.Units as spec;
ghost use Rattle.typing_unit.specs.UnitSteps.{file_of};
ghost use Rattle.typing_unit.specs.UnitSteps as steps;

use crate::file::File;
use bb_words::list::List;
use c_words::place::{At, Name};
use std::alloc::Global;
use syntax_tree::syntax::Initializer;
use typed_tree::typed::Global as NamedObject;
use typed_tree::types::{StructType, Ty};
use typing_declarations::declarator::{completed, has_many_params, steps};
use typing_expressions::calls::in_library;
use typing_expressions::parts::{
    Part, has_function, is_incomplete, lacks_size, made_from, size_of,
};
use typing_expressions::scene::{Entry, Scene, at_file_scope};
use typing_initializers::initial_bytes::initial_bytes;
use typing_initializers::initializer::initialized;
use typing_operators::error::TypeError;

#[tactic(auto, unfolding(typing_unit_keeps::specs::Units::is_main))]
pub fn is_main(name: &[u8]) -> bool
    ensures { result ≡ spec.is_main name.now }
{
    name == b"main".as_slice()
}

/// Whether no object may have the name at file scope.
pub fn object_is_taken(scene: &Scene, name: &[u8]) -> bool
    ensures { result ≡ spec.object_is_taken (scene_of scene.now) name.now }
{
    at_file_scope(scene, name).is_some() || in_library(name).is_some()
}

/// The type of an object at file scope; `main` is none.
fn file_type(
    alloc: Global,
    structs: &[StructType],
    line: u32,
    main: bool,
    base: Ty,
    parts: Vec<Part>,
) -> Result<Ty, TypeError>
    ensures { Gives ty_of result (spec.file_type (map struct_of structs.now) line main (ty_of base) (parts_of parts.items)) }
{
    if has_many_params(parts.as_slice()) {
        return Err(TypeError::TooManyParams { line });
    }
    if is_incomplete(structs, true, &base, parts.as_slice()) {
        return Err(TypeError::BadType { line, rule: 1 });
    }
    if has_function(parts.as_slice()) {
        return Err(TypeError::BadType { line, rule: 2 });
    }
    if lacks_size(parts.as_slice()) {
        return Err(TypeError::BadType { line, rule: 3 });
    }
    if main {
        return Err(TypeError::BadType { line, rule: 5 });
    }
    made_from(alloc, structs, line, base, parts)
}

/// Adds the name of an object.
fn add_object(alloc: Global, file: &mut File, name: &[u8], ty: &Ty) -> Result<(), TypeError>
    requires { spec.object_is_taken (scene_of file.old.scene) name.now ≡ false }
    ensures { Gives (λ u. file_of file.new) result (Ok (steps.with_object (file_of file.old) name.now (ty_of ty.now))) }
{
    let Ok(number) = u32::try_from(file.globals.len()) else {
        return Err(TypeError::Memory);
    };
    let ty = ty.copied(alloc)?;
    file.scene
        .names
        .insert(alloc, name, Entry::Object(number, ty))?;
    Ok(())
}

/// Adds an object with its initializer, or all zero.
fn initialized_global(
    alloc: Global,
    file: &mut File,
    initializer: &Option<Initializer>,
    line: u32,
    name: Name,
    ty: Ty,
) -> Result<(), TypeError>
    ensures { Gives (λ u. file_of file.new) result
        (spec.initialized_global (file_of file.old) (file_of file.old).scene line name (ty_of ty) (option_map initializer_tree initializer.now)) }
{
    match initializer {
        None => {
            let size = size_of(file.scene.structs.as_slice(), &ty)?;
            file.globals.push(NamedObject {
                name,
                ty,
                size,
                initial: List::new(alloc),
            })?;
            Ok(())
        }
        Some(found) => {
            let value = initialized(alloc, &mut file.scene, found, true, line, &ty)?;
            let size = size_of(file.scene.structs.as_slice(), &ty)?;
            let initial = initial_bytes(alloc, file.scene.structs.as_slice(), &ty, &value)?;
            file.globals.push(NamedObject {
                name,
                ty,
                size,
                initial: List::from_vec(initial),
            })?;
            Ok(())
        }
    }
}

/// The declaration of an object, behind its declarator.
pub fn declared_object(
    alloc: Global,
    file: &mut File,
    initializer: &Option<Initializer>,
    at: At,
    name: Name,
    base: &Ty,
    parts: Vec<Part>,
) -> Result<(), TypeError>
    ensures { Gives (λ u. file_of file.new) result
        (spec.declared_object (file_of file.old) at name (ty_of base.now) (parts_of parts.items) (option_map initializer_tree initializer.now)) }
{
    if object_is_taken(&file.scene, name.as_slice()) {
        return Err(TypeError::Twice {
            line: at.line,
            name,
        });
    }
    let parts = completed(alloc, base, initializer, parts)?;
    let base = base.copied(alloc)?;
    let main = is_main(name.as_slice());
    let ty = file_type(
        alloc,
        file.scene.structs.as_slice(),
        at.line,
        main,
        base,
        parts,
    )?;
    add_object(alloc, file, name.as_slice(), &ty)?;
    initialized_global(alloc, file, initializer, at.line, name, ty)
}
