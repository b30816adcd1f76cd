//! The typing of a file (C11 6.9), and what is asked after its text.
ghost use Rattle.std.specs.Prelude.{◌≡◌, map, IfOk, Ok};
ghost use Rattle.syntax_tree.specs.SyntaxViews.{head_tree, external_tree, unit_tree};
ghost use Rattle.typed_tree.specs.TypesViewed.{ty_of};
ghost use Rattle.typed_tree.specs.Typed.{Typed, HasLines};
ghost use Rattle.typed_tree.specs.TypedViews.{program_of};
ghost use Rattle.syntax_in_range.specs.InRange.{InRange};
ghost use Rattle.typing_operators.specs.Rule.{Gives, Runs};
ghost use Rattle.typing_expressions.specs.Names.{option_at};
ghost use Rattle.typing_expressions.specs.Scene.{scene_of, declared_of};
ghost use Rattle.typing_unit_keeps.specs.Units as spec;
ghost use Rattle.typing_unit.specs.UnitSteps.{file_of};
ghost use Rattle.typing_unit.specs.UnitSteps as steps;

use crate::bodies::defined;
use crate::declarations::all_declared;
use crate::file::{File, definitions, empty_file};
use bb_words::list::List;
use std::alloc::Global;
use std::mem;
use syntax_tree::syntax::{External, Head, Unit};
use typed_tree::typed::{Function, Program};
use typed_tree::types::Ty;
use typing_declarations::structs::struct_defined;
use typing_expressions::expression::based;
use typing_expressions::scene::{Declared, Scene};
use typing_expressions::table::Table;
use typing_operators::error::TypeError;
use typing_unit_keeps::laws::{files_are_typed, files_have_lines};

/// The type that a declaration begins with.
fn headed(alloc: Global, scene: &mut Scene, head: &Head) -> Result<Ty, TypeError>
    ensures { Runs ty_of (scene_of scene.new) result (spec.headed (scene_of scene.old) (head_tree head.now)) }
{
    match head {
        Head::Specifier(specifier) => based(alloc, scene, specifier),
        Head::Struct(definition) => {
            let number = struct_defined(alloc, scene, definition)?;
            Ok(Ty::Struct(number))
        }
    }
}

/// A declaration of the file.
pub fn external(
    alloc: Global,
    file: &mut File,
    numbers: &Table<u32>,
    tree: &External,
) -> Result<(), TypeError>
    ensures { Gives (λ u. file_of file.new) result (spec.external numbers.now (file_of file.old) (external_tree tree.now)) }
{
    match tree {
        External::Declaration {
            head,
            declarators,
            ..
        } => {
            let base = headed(alloc, &mut file.scene, head)?;
            all_declared(alloc, file, numbers, declarators, &base)
        }
        External::Function {
            head,
            declarator,
            body,
            ..
        } => {
            let base = headed(alloc, &mut file.scene, head)?;
            defined(alloc, file, numbers, declarator, body, &base)
        }
    }
}

/// The declarations of the file in their order.
pub fn externals(
    alloc: Global,
    file: &mut File,
    numbers: &Table<u32>,
    trees: &[External],
) -> Result<(), TypeError>
    ensures { Gives (λ u. file_of file.new) result (spec.externals numbers.now (file_of file.old) (map external_tree trees.now)) }
{
    for tree in trees {
        external(alloc, file, numbers, tree)?;
    }
    Ok(())
}

/// Whether a function is called and has no definition.
fn is_missing(function: &Declared, is_called: bool) -> bool
    ensures { result ≡ steps.is_missing (declared_of function.now) is_called }
{
    is_called && !function.is_defined
}

/// The first function that is called and has no definition.
fn undefined<'a>(functions: &'a [Declared], called: &[bool]) -> Option<&'a Declared>
    ensures { option_at declared_of result ≡ spec.undefined (map declared_of functions.now) called.now }
{
    for i in 0..functions.len() {
        if i >= called.len() {
            return None;
        }
        let function = &functions[i];
        if is_missing(function, called[i]) {
            return Some(function);
        }
    }
    None
}

/// The program of a file, whose `main` is the function of the number.
fn program(alloc: Global, file: File, main: u32) -> Program
    ensures { program_of result ≡ steps.program_from (file_of file) main }
{
    let mut file = file;
    let structs = mem::replace(&mut file.scene.structs, Vec::new(alloc));
    let texts = mem::replace(&mut file.scene.texts, Vec::new(alloc));
    let globals = mem::replace(&mut file.globals, Vec::new(alloc));
    let functions = mem::replace(&mut file.functions, Vec::new(alloc));
    Program {
        structs: List::from_vec(structs),
        globals: List::from_vec(globals),
        texts: List::from_vec(texts),
        functions: List::from_vec(functions),
        main,
    }
}

/// The program, if all that is called is defined, and `main` too.
fn finished_file(alloc: Global, numbers: &Table<u32>, file: File) -> Result<Program, TypeError>
    ensures { Gives program_of result (spec.finished_file numbers.now (file_of file)) }
{
    if let Some(function) = undefined(
        file.scene.functions.as_slice(),
        file.scene.called.as_slice(),
    ) {
        return Err(TypeError::Unknown {
            line: function.line,
            name: List::copy_of(alloc, function.name.as_slice())?,
        });
    }
    match numbers.get(b"main".as_slice()) {
        None => Err(TypeError::NoMain),
        Some(main) => Ok(program(alloc, file, *main)),
    }
}

/// The typed program of a file, or the refusal that comes first in its text.
fn program_or_refusal(alloc: Global, unit: &Unit) -> Result<Program, TypeError>
    ensures { Gives program_of result (spec.typed_unit (unit_tree unit.now)) }
{
    let numbers = definitions(alloc, unit.externals.as_slice())?;
    let mut file = empty_file(alloc);
    externals(alloc, &mut file, &numbers, unit.externals.as_slice())?;
    finished_file(alloc, &numbers, file)
}

/// The typed program of a file (C11 6.5 to 6.9), or the refusal that comes first in its text.
///
/// The program of a file that was read from a text keeps every rule of typing, and its lines are those of the text.
pub fn type_unit(alloc: Global, unit: &Unit) -> Result<Program, TypeError>
    ensures exact { Gives program_of result (spec.typed_unit (unit_tree unit.now)) }
    ensures typed { InRange (unit_tree unit.now) → IfOk result (λ p. Typed (program_of p)) }
    ensures lines { InRange (unit_tree unit.now) → IfOk result (λ p. HasLines (program_of p)) }
{
    files_are_typed();
    files_have_lines();
    program_or_refusal(alloc, unit)
}
