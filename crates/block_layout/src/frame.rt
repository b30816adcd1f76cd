//! The layout of a function's block locals.
ghost use Rattle.std.specs.Prelude.{◌≡◌, IfOk, map};
ghost use Rattle.typed_tree.specs.TypedViews.{local_of, function_of};
ghost use Rattle.size_table.specs.declared.memory_map.TheConstants.{SLOT_EXPONENT};
ghost use Rattle.block_layout.specs.Layout.{AreSmall, alignment_of};
ghost use Rattle.block_layout.specs.Objects.{block_items, block_items_from};
ghost use Rattle.block_layout.specs.Answers.{block_at, IsFrame};
ghost use Rattle.block_layout.specs.Views.{item_of, placed_of, block_of_spot};

use crate::error::LayoutError;
use crate::object::{Object, Spot, add, laid_out, total_of};
use bb_words::list::List;
use size_table::memory_map::SLOT_EXPONENT;
use std::alloc::{AllocError, Global};
use typed_tree::typed::{Function, Local};

/// How many bytes the block locals of a function may have with their padding.
const MOST_FRAME_BYTES: u64 = 0x40_0000;

/// A local in its block of 2^exponent bytes.
#[derive(Debug, Drop)]
pub struct FrameBlock {
    /// The number of the local.
    pub local: u32,
    /// How many bytes above the call's stack number it begins.
    pub offset: u32,
    pub exponent: u8,
    /// How many bytes it has itself.
    pub length: u32,
}

/// Where the block locals of a function lie in each call, by declining size of their blocks, without gaps.
#[derive(Debug, Drop)]
pub struct FramePlan {
    pub blocks: List<FrameBlock>,
    /// How many bytes the blocks have together.
    pub total: u32,
    /// Two to this power divides the stack number of each call.
    pub align: u8,
}

/// The locals that lie in memory.
fn objects(alloc: Global, locals: &[Local]) -> Result<Vec<Object>, AllocError>
    ensures { IfOk result (λ objects. map item_of objects.items ≡ block_items_from 0 (map local_of locals.now)) }
{
    let mut objects = Vec::new(alloc);
    for i in 0..locals.len() {
        if locals[i].is_block {
            add(&mut objects, i, locals[i].size)?;
        }
    }
    Ok(objects)
}

/// The blocks at these spots.
fn blocks(alloc: Global, spots: &[Spot]) -> Result<List<FrameBlock>, AllocError>
    ensures { IfOk result (λ blocks. blocks ≡ map block_of_spot spots.now) }
{
    let mut blocks = List::new(alloc);
    for spot in spots {
        blocks.push(FrameBlock {
            local: spot.number,
            offset: spot.at,
            exponent: spot.exponent,
            length: spot.length,
        })?;
    }
    Ok(blocks)
}

/// The exponent of a layout's alignment: that of its first object, which is the largest, or of a slot.
fn align(spots: &[Spot]) -> u8
    ensures { result ≡ alignment_of SLOT_EXPONENT (map placed_of spots.now) }
{
    match spots.first() {
        Some(spot) => spot.exponent,
        None => SLOT_EXPONENT,
    }
}

/// The layout of a function's block locals, which is the same in each of its calls. `FrameFull` exactly where the blocks have
/// more than 4,194,304 bytes together.
pub fn frame(alloc: Global, function: &Function) -> Result<FramePlan, LayoutError>
    requires { AreSmall (block_items (function_of function.now)) }
    ensures { IsFrame (function_of function.now) result }
{
    let objects = objects(alloc, function.locals.as_slice())?;
    let total = total_of(&objects);
    if total > MOST_FRAME_BYTES {
        let function = List::copy_of(alloc, function.name.as_slice())?;
        return Err(LayoutError::FrameFull { function, total });
    }
    let spots = laid_out(alloc, &objects, 0)?;
    Ok(FramePlan {
        blocks: blocks(alloc, &spots)?,
        total: total as u32,
        align: align(&spots),
    })
}
