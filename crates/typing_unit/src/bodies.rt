//! The definitions of functions (C11 6.9.1).
ghost use Rattle.std.specs.Prelude.{◌≡◌, map, Ok, IfOk, false};
ghost use Rattle.syntax_tree.specs.SyntaxViews.{declarator_tree, block_tree};
ghost use Rattle.typed_tree.specs.TypesViewed.{ty_of};
ghost use Rattle.typed_tree.specs.TypedViews.{struct_of, local_of, stmt_of};
ghost use Rattle.typing_operators.specs.Rule.{Fails, Gives};
ghost use Rattle.typing_expressions.specs.Scene.{scene_of, draft_of};
ghost use Rattle.typing_expressions.specs.Parts.{param_of, parts_of};
ghost use Rattle.typing_unit_keeps.specs.Units as spec;
ghost use Rattle.typing_unit.specs.UnitSteps.{file_of};
ghost use Rattle.typing_unit.specs.UnitSteps as steps;

use crate::declarations::{Declares, split_off};
use crate::file::File;
use crate::functions::{Role, declared_function};
use crate::objects::object_is_taken;
use bb_words::list::List;
use c_words::place::{At, Name};
use std::alloc::{AllocError, Global};
use syntax_tree::syntax::{Block, Declarator};
use typed_tree::typed::{Function, Local};
use typed_tree::typed_stmt::TypedStmt;
use typed_tree::types::{StructType, Ty};
use typing_declarations::declarator::{declared_name, has_many_params, steps};
use typing_declarations::scopes::is_taken;
use typing_expressions::parts::{Param, Part, has_function, is_incomplete, lacks_size, size_of};
use typing_expressions::scene::{Draft, Scene};
use typing_expressions::table::Table;
use typing_initializers::marks::mark_stmt;
use typing_operators::conversions::{is_array, is_struct};
use typing_operators::error::TypeError;
use typing_statements::statement::{add_local, block};

/// Adds a parameter as a local.
fn add_param(alloc: Global, scene: &mut Scene, param: &Param) -> Result<(), TypeError>
    ensures { Gives (λ u. scene_of scene.new) result (Ok (steps.with_param (scene_of scene.old) (param_of param.now))) }
{
    let name = match &param.name {
        None => List::new(alloc),
        Some(name) => List::copy_of(alloc, name.as_slice())?,
    };
    // Two parameters of one name were refused at their declarator.
    if is_taken(scene, name.as_slice()) {
        return Err(TypeError::Memory);
    }
    let ty = param.ty.copied(alloc)?;
    let _ = add_local(alloc, scene, name, ty)?;
    Ok(())
}

/// Adds the parameters as locals.
fn add_params(alloc: Global, scene: &mut Scene, params: &[Param]) -> Result<(), TypeError>
    ensures { Gives (λ u. scene_of scene.new) result (Ok (spec.with_params (scene_of scene.old) (map param_of params.now))) }
{
    for param in params {
        add_param(alloc, scene, param)?;
    }
    Ok(())
}

/// Begins the body of a function: its parameters are the first locals, in the scope of its block.
fn begin(alloc: Global, scene: &mut Scene, params: &[Param]) -> Result<(), TypeError>
    ensures { Gives (λ u. scene_of scene.new) result (Ok (spec.begun (scene_of scene.old) (map param_of params.now))) }
{
    let mut scopes = Vec::new(alloc);
    scopes.push(Table::new(alloc))?;
    scene.locals = Vec::new(alloc);
    scene.scopes = scopes;
    add_params(alloc, scene, params)
}

/// Ends the body of a function.
fn end(alloc: Global, scene: &mut Scene)
    ensures { scene_of scene.new ≡ spec.ended (scene_of scene.old) }
{
    scene.locals = Vec::new(alloc);
    scene.scopes = Vec::new(alloc);
}

/// So many marks that are not set.
fn no_marks(alloc: Global, count: usize) -> Result<Vec<bool>, AllocError>
    ensures { IfOk result (λ marks. marks.items ≡ steps.no_marks count) }
{
    let mut marks = Vec::new(alloc);
    for _mark in 0..count {
        marks.push(false)?;
    }
    Ok(marks)
}

/// A local with its size. It lies in memory if it is an array, a struct, or marked.
fn finished_local(
    alloc: Global,
    structs: &[StructType],
    draft: &Draft,
    is_marked: bool,
) -> Result<Local, TypeError>
    ensures { Gives local_of result (Ok (steps.finished_local (map struct_of structs.now) is_marked (draft_of draft.now))) }
{
    Ok(Local {
        name: List::copy_of(alloc, draft.name.as_slice())?,
        ty: draft.ty.copied(alloc)?,
        size: size_of(structs, &draft.ty)?,
        is_block: is_array(&draft.ty) || is_struct(&draft.ty) || is_marked,
    })
}

/// The locals with their sizes, by their marks.
#[tactic(auto, using(crate::proofs::Pushed::locals_pushed))]
fn finished_by(
    alloc: Global,
    structs: &[StructType],
    marks: &[bool],
    drafts: &[Draft],
) -> Result<Vec<Local>, TypeError>
    ensures { Gives (λ ls. map local_of ls.items) result (Ok (steps.finished_by (map struct_of structs.now) marks.now (map draft_of drafts.now))) }
{
    let mut done = Vec::new(alloc);
    for i in 0..drafts.len() {
        let is_marked = i < marks.len() && marks[i];
        let local = finished_local(alloc, structs, &drafts[i], is_marked)?;
        done.push(local)?;
    }
    Ok(done)
}

/// The locals with their sizes. Those that `&` is applied to in the body lie in memory.
fn finished(
    alloc: Global,
    structs: &[StructType],
    body: &TypedStmt,
    drafts: &[Draft],
) -> Result<Vec<Local>, TypeError>
    ensures { Gives (λ ls. map local_of ls.items) result (Ok (spec.finished (map struct_of structs.now) (stmt_of body.now) 0 (map draft_of drafts.now))) }
{
    let mut marks = no_marks(alloc, drafts.len())?;
    mark_stmt(body, &mut marks);
    finished_by(alloc, structs, marks.as_slice(), drafts)
}

/// The body of a function.
#[tactic(auto, using(crate::proofs::Pushed::functions_pushed))]
fn defined_function(
    alloc: Global,
    file: &mut File,
    body: &Block,
    line: u32,
    name: Name,
    ty: Ty,
    params: &[Param],
) -> Result<(), TypeError>
    ensures { Gives (λ u. file_of file.new) result
        (steps.defined_function (file_of file.old) line name (ty_of ty) (map param_of params.now) (block_tree body.now)) }
{
    begin(alloc, &mut file.scene, params)?;
    let body = block(alloc, &mut file.scene, body, &ty, false)?;
    let locals = finished(
        alloc,
        file.scene.structs.as_slice(),
        &body,
        file.scene.locals.as_slice(),
    )?;
    end(alloc, &mut file.scene);
    let Ok(count) = u32::try_from(params.len()) else {
        return Err(TypeError::Memory);
    };
    file.functions.push(Function {
        name,
        line,
        result: ty,
        params: count,
        locals: List::from_vec(locals),
        body,
    })?;
    Ok(())
}

/// The refusal of a block behind what is no function.
fn no_function(
    alloc: Global,
    file: &File,
    at: At,
    name: Name,
    base: &Ty,
    parts: &[Part],
) -> TypeError
    ensures { Fails result (spec.no_function (file_of file.now) at name (ty_of base.now) (parts_of parts.now)) }
{
    let structs = file.scene.structs.as_slice();
    let line = at.line;
    if object_is_taken(&file.scene, name.as_slice()) {
        return TypeError::Twice { line, name };
    }
    if has_many_params(parts) {
        return TypeError::TooManyParams { line };
    }
    if is_incomplete(structs, true, base, parts) {
        return TypeError::BadType { line, rule: 1 };
    }
    if has_function(parts) {
        return TypeError::BadType { line, rule: 2 };
    }
    if lacks_size(parts) {
        return TypeError::BadType { line, rule: 3 };
    }
    TypeError::BadType { line, rule: 4 }
}

/// A definition, behind the steps of its declarator.
fn defined_by(
    alloc: Global,
    file: &mut File,
    numbers: &Table<u32>,
    body: &Block,
    at: At,
    name: Name,
    base: &Ty,
    parts: Vec<Part>,
) -> Result<(), TypeError>
    ensures { Gives (λ u. file_of file.new) result
        (spec.defined_by numbers.now (file_of file.old) at name (ty_of base.now) (block_tree body.now) (parts_of parts.items)) }
{
    match split_off(parts) {
        Declares::Function(params, rest) => {
            let role = Role {
                defines: true,
                has_initializer: false,
            };
            let params = params.as_slice();
            let ty = declared_function(
                alloc,
                file,
                numbers,
                at,
                name.as_slice(),
                base,
                params,
                rest,
                role,
            )?;
            defined_function(alloc, file, body, at.line, name, ty, params)
        }
        Declares::Object(parts) => Err(no_function(alloc, file, at, name, base, parts.as_slice())),
    }
}

/// The definition of a function.
pub fn defined(
    alloc: Global,
    file: &mut File,
    numbers: &Table<u32>,
    declarator: &Declarator,
    body: &Block,
    base: &Ty,
) -> Result<(), TypeError>
    ensures { Gives (λ u. file_of file.new) result
        (spec.defined numbers.now (file_of file.old) (ty_of base.now) (declarator_tree declarator.now) (block_tree body.now)) }
{
    let parts = steps(alloc, &mut file.scene, declarator)?;
    let name = List::copy_of(alloc, declared_name(declarator))?;
    defined_by(
        alloc,
        file,
        numbers,
        body,
        declarator.at(),
        name,
        base,
        parts,
    )
}
