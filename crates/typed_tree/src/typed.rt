//! The typed program.
use crate::typed_stmt::TypedStmt;
use crate::types::{StructType, Ty};
use bb_words::list::{Bytes, List};
use c_words::place::Name;

/// An object that lives as long as the program: a named one, or a string.
#[derive(Clone, Copy, Debug, PartialEq, Eq)]
pub enum GlobalObject {
    /// The global of this number in the program's list.
    Named(u32),
    /// The string of this number in the program's list.
    Text(u32),
}

/// What a byte of a global object holds at first.
#[derive(Clone, Copy, Debug, PartialEq, Eq)]
pub enum InitialByte {
    Byte(u8),
    /// Part `part`, from 0 to 3, of the pointer to the start of `target`.
    PointerPart { target: GlobalObject, part: u8 },
}

/// A named global object.
#[derive(Drop)]
pub struct Global {
    pub name: Name,
    pub ty: Ty,
    /// How many bytes it has.
    pub size: u32,
    /// Its first bytes; the others are zero.
    pub initial: List<InitialByte>,
}

/// A parameter or a local of a function.
#[derive(Drop)]
pub struct Local {
    pub name: Name,
    pub ty: Ty,
    /// How many bytes it has.
    pub size: u32,
    /// Whether it lies in memory, as an array, a struct and what `&` is applied to; else its value alone is kept.
    pub is_block: bool,
}

/// A function that is defined. The first `params` locals are its parameters.
#[derive(Drop)]
pub struct Function {
    pub name: Name,
    /// The line of its name in the definition.
    pub line: u32,
    pub result: Ty,
    pub params: u32,
    pub locals: List<Local>,
    pub body: TypedStmt,
}

/// A program whose names are resolved and whose expressions have types. Contracts see it as a `CProgram`, by
/// `program_of`.
#[derive(Drop)]
pub struct Program {
    pub structs: List<StructType>,
    pub globals: List<Global>,
    /// The strings that are objects, each without its final zero.
    pub texts: List<Bytes>,
    pub functions: List<Function>,
    /// The number of `main` in the list of functions.
    pub main: u32,
}
