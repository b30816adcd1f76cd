//! Functions that a file declares (C11 6.7.6.3, 6.7p4).
ghost use Rattle.std.specs.Prelude.{◌≡◌, map, Ok, IfOk, false, is_some};
ghost use Rattle.typed_tree.specs.Types.{CType};
ghost use Rattle.typed_tree.specs.TypesViewed.{ty_of};
ghost use Rattle.typing_operators.specs.Rule.{Gives, Runs, Rule};
ghost use Rattle.typing_expressions.specs.Names.{found};
ghost use Rattle.typing_expressions.specs.Scene.{scene_of, declared_of};
ghost use Rattle.typing_expressions.specs.Parts.{param_of, parts_of};
ghost use Rattle.typing_unit_keeps.specs.Units as spec;
ghost use Rattle.typing_unit.specs.UnitSteps.{file_of};
ghost use Rattle.typing_unit.specs.UnitSteps as steps;

use crate::declarations::declared;
use crate::file::File;
use crate::objects::is_main;
use bb_words::list::List;
use c_words::place::At;
use std::alloc::{AllocError, Global};
use typed_tree::typed::Function;
use typed_tree::types::Ty;
use typing_declarations::declarator::has_many_params;
use typing_expressions::calls::in_library;
use typing_expressions::parts::{Param, Part, has_function, is_incomplete, lacks_size, made_from};
use typing_expressions::scene::{Declared, Entry, Scene, at_file_scope};
use typing_expressions::table::Table;
use typing_operators::conversions::is_struct;
use typing_operators::error::TypeError;

/// Whether the definition of the function at the place has come.
fn is_defined_at(functions: &[Declared], place: u32) -> bool
    ensures { result ≡ steps.is_defined_at (map declared_of functions.now) place }
{
    match functions.get(place as usize) {
        None => false,
        Some(function) => function.is_defined,
    }
}

/// Whether no function may be declared, or defined, by the name.
fn function_is_taken(scene: &Scene, defines: bool, name: &[u8]) -> bool
    ensures { result ≡ steps.function_is_taken (scene_of scene.now) defines name.now }
{
    match at_file_scope(scene, name) {
        None => in_library(name).is_some(),
        Some(Entry::Object(_, _)) => true,
        Some(Entry::Function(place)) => {
            defines && is_defined_at(scene.functions.as_slice(), *place)
        }
    }
}

/// Whether a function gives an array or a struct.
fn gives_aggregate(base: &Ty, parts: &[Part]) -> bool
    ensures { result ≡ spec.gives_aggregate (ty_of base.now) (parts_of parts.now) }
{
    match parts.first() {
        None => is_struct(base),
        Some(Part::Array(_)) => true,
        Some(Part::Unsized) => true,
        Some(Part::Pointer) => false,
        Some(Part::Function(_)) => false,
    }
}

/// Whether a parameter is a struct.
fn takes_struct(params: &[Param]) -> bool
    ensures { result ≡ spec.takes_struct (map param_of params.now) }
{
    for param in params {
        if is_struct(&param.ty) {
            return true;
        }
    }
    false
}

/// Whether the types are those of the parameters.
fn same_types(types: &[Ty], params: &[Param]) -> bool
    ensures { result ≡ spec.same_types (map ty_of types.now) (spec.param_types (map param_of params.now)) }
{
    let count = types.len();
    if !(count == params.len()) {
        return false;
    }
    for i in 0..count {
        if !types[i].is_same(&params[i].ty) {
            return false;
        }
    }
    true
}

/// Whether a function that is declared by the name, if there is one, has this type.
fn is_again(scene: &Scene, name: &[u8], result_type: &Ty, params: &[Param]) -> bool
    ensures { result ≡ steps.is_again (scene_of scene.now) name.now (Ok (ty_of result_type.now)) (map param_of params.now) }
{
    match at_file_scope(scene, name) {
        None => true,
        Some(Entry::Object(_, _)) => true,
        Some(Entry::Function(place)) => match scene.functions.get(*place as usize) {
            None => true,
            Some(function) => {
                function.result.is_same(result_type)
                    && same_types(function.params.as_slice(), params)
            }
        },
    }
}

/// Whether a function is declared by the name.
fn is_declared(scene: &Scene, name: &[u8]) -> bool
    ensures { result ≡ steps.is_declared (scene_of scene.now) name.now }
{
    match at_file_scope(scene, name) {
        None => false,
        Some(Entry::Object(_, _)) => false,
        Some(Entry::Function(place)) => scene.functions.get(*place as usize).is_some(),
    }
}

/// Whether the function is `main` and not `int main(void)`.
fn breaks_main(name: &[u8], result_type: &Ty, params: &[Param]) -> bool
    ensures { result ≡ spec.breaks_main name.now (Ok (ty_of result_type.now)) (map param_of params.now) }
{
    is_main(name) && !(result_type.is_same(&Ty::Int) && params.is_empty())
}

/// The line of the first parameter without a name.
fn unnamed(params: &[Param]) -> Option<u32>
    ensures { result ≡ spec.unnamed (map param_of params.now) }
{
    for param in params {
        match &param.name {
            None => return Some(param.line),
            Some(_) => {}
        }
    }
    None
}

/// The refusal of a definition's first parameter without a name, if there is one.
fn named_unless(
    defines: bool,
    params: &[Param],
    made: Result<Ty, TypeError>,
) -> Result<Ty, TypeError>
    ensures { (rule : Rule CType) → Gives ty_of made rule → Gives ty_of result (spec.named_unless defines (spec.unnamed (map param_of params.now)) rule) }
{
    if defines {
        match unnamed(params) {
            None => made,
            Some(line) => Err(TypeError::BadType { line, rule: 22 }),
        }
    } else {
        made
    }
}

/// The type of a function's result, once the name and the parameters are looked at.
fn agreed(
    scene: &Scene,
    line: u32,
    name: &[u8],
    params: &[Param],
    defines: bool,
    made: Result<Ty, TypeError>,
) -> Result<Ty, TypeError>
    ensures { (rule : Rule CType) → Gives ty_of made rule
        → Gives ty_of result (steps.agreed (scene_of scene.now) line name.now (map param_of params.now) defines rule) }
{
    match made {
        Ok(ty) => {
            if breaks_main(name, &ty, params) || !is_again(scene, name, &ty, params) {
                return Err(TypeError::BadType { line, rule: 5 });
            }
            named_unless(defines, params, Ok(ty))
        }
        Err(TypeError::Memory) => Err(TypeError::Memory),
        Err(e) => {
            if is_main(name) || is_declared(scene, name) {
                return Err(TypeError::BadType { line, rule: 5 });
            }
            named_unless(defines, params, Err(e))
        }
    }
}

/// What the declarator of a function is.
#[derive(Clone, Copy)]
pub struct Role {
    /// Whether a body follows.
    pub defines: bool,
    /// Whether an initializer follows.
    pub has_initializer: bool,
}

/// The first rule that the declarator of a function breaks, before its result is looked at.
fn function_fault(
    file: &File,
    line: u32,
    base: &Ty,
    params: &[Param],
    parts: &[Part],
    role: Role,
) -> Option<TypeError>
    ensures { result ≡ steps.function_fault (file_of file.now) line (ty_of base.now) (map param_of params.now)
        (parts_of parts.now) role.defines role.has_initializer }
{
    let structs = file.scene.structs.as_slice();
    if params.len() > 8 || has_many_params(parts) {
        return Some(TypeError::TooManyParams { line });
    }
    if role.defines && file.functions.len() >= 1000 {
        return Some(TypeError::TooManyFunctions { line });
    }
    if is_incomplete(structs, false, base, parts) {
        return Some(TypeError::BadType { line, rule: 1 });
    }
    if has_function(parts) || gives_aggregate(base, parts) || takes_struct(params) {
        return Some(TypeError::BadType { line, rule: 2 });
    }
    if lacks_size(parts) {
        return Some(TypeError::BadType { line, rule: 3 });
    }
    if role.has_initializer {
        return Some(TypeError::BadType { line, rule: 4 });
    }
    None
}

/// The result of a function, once all that its declarator may break is looked at.
fn function_type(
    alloc: Global,
    file: &File,
    line: u32,
    name: &[u8],
    base: &Ty,
    params: &[Param],
    parts: Vec<Part>,
    role: Role,
) -> Result<Ty, TypeError>
    ensures { Gives ty_of result (spec.function_type (file_of file.now) line name.now (ty_of base.now) (map param_of params.now)
        (parts_of parts.items) role.defines role.has_initializer) }
{
    match function_fault(file, line, base, params, parts.as_slice(), role) {
        Some(e) => Err(e),
        None => {
            let base = base.copied(alloc)?;
            let ty = made_from(alloc, file.scene.structs.as_slice(), line, base, parts);
            agreed(&file.scene, line, name, params, role.defines, ty)
        }
    }
}

/// The types of parameters.
#[tactic(auto, using(crate::proofs::Pushed::types_pushed))]
fn param_types(alloc: Global, params: &[Param]) -> Result<Vec<Ty>, AllocError>
    ensures { IfOk result (λ types. map ty_of types.items ≡ spec.param_types (map param_of params.now)) }
{
    let mut types = Vec::new(alloc);
    for param in params {
        types.push(param.ty.copied(alloc)?)?;
    }
    Ok(types)
}

/// Notes that the function is defined, if it is.
fn define(function: &mut Declared, defines: bool)
    ensures { declared_of function.new ≡ steps.defined_once (declared_of function.old) defines }
{
    function.is_defined = function.is_defined || defines;
}

/// Notes that the function at the place is defined, if it is.
fn define_again(functions: &mut Vec<Declared>, place: u32, defines: bool)
    ensures { map declared_of functions.new.items ≡ steps.defined_again (map declared_of functions.old.items) place defines }
{
    if (place as usize) < functions.len() {
        define(&mut functions[place as usize], defines);
    }
}

/// The number of a function among those that the file defines, or 0 if it is never defined.
fn number_of(numbers: &Table<u32>, name: &[u8]) -> u32
    ensures { result ≡ spec.number_or_zero (found name.now numbers.now) }
{
    match numbers.get(name) {
        None => 0,
        Some(number) => *number,
    }
}

/// Adds a function that is declared for the first time.
#[tactic(auto, using(crate::proofs::Pushed::declared_pushed))]
fn add_function(
    alloc: Global,
    scene: &mut Scene,
    name: &[u8],
    declared: Declared,
) -> Result<(), TypeError>
    requires { is_some (found name.now (scene_of scene.old).names) ≡ false }
    ensures { Gives (λ u. scene_of scene.new) result (Ok (steps.with_new_function (scene_of scene.old) name.now (declared_of declared))) }
{
    let Ok(place) = u32::try_from(scene.functions.len()) else {
        return Err(TypeError::Memory);
    };
    scene.names.insert(alloc, name, Entry::Function(place))?;
    scene.functions.push(declared)?;
    scene.called.push(false)?;
    Ok(())
}

/// Enters a function by its name, for the first time or again.
fn enter_function(
    alloc: Global,
    scene: &mut Scene,
    numbers: &Table<u32>,
    line: u32,
    name: &[u8],
    result_type: &Ty,
    params: &[Param],
    defines: bool,
) -> Result<(), TypeError>
    ensures { Gives (λ u. scene_of scene.new) result
        (Ok (steps.entered numbers.now (scene_of scene.old) line name.now (ty_of result_type.now) (map param_of params.now) defines)) }
{
    match at_file_scope(scene, name) {
        Some(Entry::Object(_, _)) => Ok(()),
        Some(Entry::Function(place)) => {
            let place = *place;
            define_again(&mut scene.functions, place, defines);
            Ok(())
        }
        None => {
            let declared = Declared {
                name: List::copy_of(alloc, name)?,
                line,
                number: number_of(numbers, name),
                result: result_type.copied(alloc)?,
                params: param_types(alloc, params)?,
                is_defined: defines,
            };
            add_function(alloc, scene, name, declared)
        }
    }
}

/// A function's declarator, with its result.
pub fn declared_function(
    alloc: Global,
    file: &mut File,
    numbers: &Table<u32>,
    at: At,
    name: &[u8],
    base: &Ty,
    params: &[Param],
    parts: Vec<Part>,
    role: Role,
) -> Result<Ty, TypeError>
    ensures { Runs ty_of (file_of file.new) result
        (spec.declared_function numbers.now (file_of file.old) at name.now (ty_of base.now) (map param_of params.now)
        (parts_of parts.items) role.defines role.has_initializer) }
{
    if function_is_taken(&file.scene, role.defines, name) {
        return Err(TypeError::Twice {
            line: at.line,
            name: List::copy_of(alloc, name)?,
        });
    }
    let ty = function_type(alloc, file, at.line, name, base, params, parts, role)?;
    enter_function(
        alloc,
        &mut file.scene,
        numbers,
        at.line,
        name,
        &ty,
        params,
        role.defines,
    )?;
    Ok(ty)
}
