//! What is typed of a file so far, and the functions that it defines.
ghost use Rattle.std.specs.Prelude.{◌≡◌, [], map, Ok};
ghost use Rattle.syntax_tree.specs.SyntaxViews.{external_tree};
ghost use Rattle.typing_operators.specs.Rule.{Gives};
ghost use Rattle.typing_unit_keeps.specs.Units as spec;
ghost use Rattle.typing_unit.specs.UnitSteps.{file_of};

use crate::unit::{external, externals};
use std::alloc::Global;
use syntax_tree::syntax::External;
use typed_tree::typed::{Function, Global as NamedObject};
use typing_declarations::declarator::declared_name;
use typing_expressions::scene::Scene;
use typing_expressions::table::Table;
use typing_operators::error::TypeError;

/// What is typed of the file so far. Contracts see it as a `CFile`, by `file_of`.
#[derive(Drop)]
pub struct File {
    pub scene: Scene,
    pub globals: Vec<NamedObject>,
    pub functions: Vec<Function>,
}

/// Adds the name of a function that the file defines.
fn add_definition(alloc: Global, names: &mut Table<u32>, name: &[u8]) -> Result<(), TypeError>
    ensures { Gives (λ u. names.new) result (Ok (spec.with_definition names.old name.now)) }
{
    if names.get(name).is_some() {
        return Ok(());
    }
    let Ok(number) = u32::try_from(names.len()) else {
        return Err(TypeError::Memory);
    };
    names.insert(alloc, name, number)?;
    Ok(())
}

/// The functions that the file defines, with their numbers.
pub fn definitions(alloc: Global, externals: &[External]) -> Result<Table<u32>, TypeError>
    ensures { Gives (λ names. names) result (Ok (spec.definitions [] (map external_tree externals.now))) }
{
    let mut names = Table::new(alloc);
    for external in externals {
        match external {
            External::Declaration { .. } => {}
            External::Function { declarator, .. } => {
                add_definition(alloc, &mut names, declared_name(declarator))?
            }
        }
    }
    Ok(names)
}

/// A file of which nothing is typed yet.
pub fn empty_file(alloc: Global) -> File
    ensures { file_of result ≡ spec.empty_file }
{
    File {
        scene: Scene {
            structs: Vec::new(alloc),
            tags: Table::new(alloc),
            texts: Vec::new(alloc),
            names: Table::new(alloc),
            functions: Vec::new(alloc),
            called: Vec::new(alloc),
            locals: Vec::new(alloc),
            scopes: Vec::new(alloc),
        },
        globals: Vec::new(alloc),
        functions: Vec::new(alloc),
    }
}
