//! What is declared before a place in the text.
ghost use Rattle.std.specs.Prelude.{◌≡◌};
ghost use Rattle.typing_expressions.specs.Names.{found, option_at};
ghost use Rattle.typing_expressions.specs.Scene.{local_of, entry_of, names_of, scopes_of, local_in};

use crate::table::Table;
use bb_words::list::Bytes;
use c_words::place::Name;
use typed_tree::types::{StructType, Ty};

/// A local as a name of a scope: its number in the function's list, and its type.
#[derive(Drop)]
pub struct LocalName {
    pub number: u32,
    pub ty: Ty,
}

/// What a name stands for at file scope.
#[derive(Drop)]
pub enum Entry {
    /// The global object of this number, and its type.
    Object(u32, Ty),
    /// The function at this place among those that are declared.
    Function(u32),
}

/// A function that is declared.
#[derive(Drop)]
pub struct Declared {
    pub name: Name,
    /// The line of its first declaration.
    pub line: u32,
    /// Its number among the functions that the file defines.
    pub number: u32,
    pub result: Ty,
    pub params: Vec<Ty>,
    /// Whether its definition has come.
    pub is_defined: bool,
}

/// A local of the function that is being typed.
#[derive(Drop)]
pub struct Draft {
    pub name: Name,
    pub ty: Ty,
}

/// What is declared so far. Contracts see it as a `CScene`, by `scene_of`.
#[derive(Drop)]
pub struct Scene {
    /// The structs, in order of the first mention of their tags.
    pub structs: Vec<StructType>,
    /// The tags, with the numbers of their structs.
    pub tags: Table<u32>,
    /// The strings that are objects, each without its final zero.
    pub texts: Vec<Bytes>,
    /// The objects and functions of the file.
    pub names: Table<Entry>,
    /// The functions, in order of declaration.
    pub functions: Vec<Declared>,
    /// Which of them a call names.
    pub called: Vec<bool>,
    /// The locals of the function, parameters first.
    pub locals: Vec<Draft>,
    /// The scopes of the blocks around, the outermost first.
    pub scopes: Vec<Table<LocalName>>,
}

/// The local that the name stands for, in the innermost scope that has it.
#[tactic(auto, using(crate::proofs::Tables::get_seen))]
pub fn local<'a>(scopes: &'a [Table<LocalName>], name: &[u8]) -> Option<&'a LocalName>
    ensures { option_at local_of result ≡ local_in (scopes_of scopes.now) name.now }
{
    match scopes {
        [] => None,
        [outer, inner @ ..] => match local(inner, name) {
            Some(found) => Some(found),
            None => outer.get(name),
        },
    }
}

/// What the name stands for at file scope.
#[tactic(auto, using(crate::proofs::Tables::get_seen))]
pub fn at_file_scope<'a>(scene: &'a Scene, name: &[u8]) -> Option<&'a Entry>
    ensures { option_at entry_of result ≡ found name.now (names_of scene.now.names) }
{
    scene.names.get(name)
}
