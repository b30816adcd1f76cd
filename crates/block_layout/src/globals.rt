//! The layout of the global objects.
ghost use Rattle.std.specs.Prelude.{◌≡◌, ◌<◌, ◌^◌, ◌++◌, IfOk, OnOk, [], length, map};
ghost use Rattle.typed_tree.specs.TypedViews.{global_of, program_of};
ghost use Rattle.block_layout.specs.Layout.{AreSmall};
ghost use Rattle.block_layout.specs.Objects.{global_items};
ghost use Rattle.block_layout.specs.Answers.{object_at, IsGlobals};
ghost use Rattle.block_layout.specs.Views.{item_of, placed_of, global_of_spot};

use crate::error::LayoutError;
use crate::object::{Object, Spot, add, laid_out, total_of};
use bb_words::list::List;
use size_table::memory_map::GLOBALS_START;
use std::alloc::{AllocError, Global};
use typed_tree::typed::{GlobalObject, Program};

/// How many bytes the global objects may have with their padding.
const MOST_GLOBAL_BYTES: u64 = 0x20_0000;

/// A global object in its block of 2^exponent bytes.
#[derive(Debug, Drop)]
pub struct Placed {
    pub object: GlobalObject,
    /// The address of its first byte, which is a multiple of the block's size.
    pub base: u32,
    pub exponent: u8,
    /// How many bytes it has itself.
    pub length: u32,
}

/// Where the global objects of a program lie, by declining size of their blocks, without gaps.
#[derive(Debug, Drop)]
pub struct Layout {
    pub placed: List<Placed>,
    /// How many bytes the blocks have together.
    pub total: u32,
}

/// The global objects, the named ones first.
fn objects(alloc: Global, program: &Program) -> Result<Vec<Object>, AllocError>
    requires { AreSmall (global_items (program_of program.now)) }
    ensures { IfOk result (λ objects. map item_of objects.items ≡ global_items (program_of program.now)) }
{
    let mut objects = Vec::new(alloc);
    for global in program.globals.as_slice() {
        let number = objects.len();
        add(&mut objects, number, global.size)?;
    }
    for text in program.texts.as_slice() {
        let number = objects.len();
        add(&mut objects, number, text.len() as u32 + 1)?;
    }
    Ok(objects)
}

/// The global object of a number, where so many have names.
fn object_at(named: usize, number: u32) -> GlobalObject
    requires { named < 2 ^ 32 }
    ensures { result ≡ object_at named number }
{
    let named = named as u32;
    if number < named {
        GlobalObject::Named(number)
    } else {
        GlobalObject::Text(number - named)
    }
}

/// The global objects at these spots.
fn at_spots(alloc: Global, named: usize, spots: &[Spot]) -> Result<List<Placed>, AllocError>
    requires { named < 2 ^ 32 }
    ensures { IfOk result (λ placed. placed ≡ map (global_of_spot named) spots.now) }
{
    let mut placed = List::new(alloc);
    for spot in spots {
        placed.push(Placed {
            object: object_at(named, spot.number),
            base: spot.at,
            exponent: spot.exponent,
            length: spot.length,
        })?;
    }
    Ok(placed)
}

/// The layout of a program's global objects: the named ones and the strings lie at `0xA00000` and above, by declining size of
/// their blocks. `GlobalsFull` exactly where the blocks have more than 2,097,152 bytes together.
pub fn globals(alloc: Global, program: &Program) -> Result<Layout, LayoutError>
    requires { AreSmall (global_items (program_of program.now)) }
    ensures { IsGlobals (program_of program.now) result }
{
    let objects = objects(alloc, program)?;
    let total = total_of(&objects);
    if total > MOST_GLOBAL_BYTES {
        return Err(LayoutError::GlobalsFull { total });
    }
    let spots = laid_out(alloc, &objects, GLOBALS_START)?;
    let placed = at_spots(alloc, program.globals.len(), &spots)?;
    Ok(Layout {
        placed,
        total: total as u32,
    })
}
