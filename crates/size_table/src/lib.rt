//! The size table: for each slot of memory, the exponent of the live block that holds it.
//!
//! Memory is cut into slots of 16 bytes, and the table has a byte for each of the 2^21 slots below 2^25. A block has
//! 2^e bytes from a multiple of 2^e on, so it is made of whole slots; the byte of each of them is e, its exponent, and
//! the byte of a slot in no live block is 0. So one look at the table tells where a block begins and ends, given any
//! address in it.
#![tactic(auto)]

pub mod calls;
pub mod laws;
pub mod memory_map;
pub mod padding;

ghost use Rattle.std.specs.Prelude.{◌≡◌, ℕ, ◌/◌, ◌^◌, ◌<◌, ◌≤◌, List, length, slice_index};
ghost use Rattle.size_table.specs.Blocks.{IsBlock, block_at};
ghost use Rattle.size_table.specs.Table.{Marks, Adds, Removes, TellsBlocks, filled, table_size};

use crate::memory_map::SLOT_EXPONENT;

/// How many bytes a slot has.
const SLOT: usize = 1 << SLOT_EXPONENT;

/// A block of 2^e bytes begins at `base`: writes e into the byte of each of its slots.
pub fn set(table: &mut [u8], base: u32, e: u8)
    requires size { length table.old ≡ table_size }
    requires block { IsBlock SLOT_EXPONENT (block_at base e) }
    ensures exact { table.new ≡ filled table.old (base / 16) (2 ^ e / 16) e }
    ensures bytes { Marks SLOT_EXPONENT (block_at base e) e table.old table.new }
    ensures added { Adds SLOT_EXPONENT (block_at base e) table.old table.new }
{
    fill(table, base, e, e);
}

/// The block of 2^e bytes at `base` ends: writes 0 into the byte of each of its slots.
pub fn clear(table: &mut [u8], base: u32, e: u8)
    requires size { length table.old ≡ table_size }
    requires block { IsBlock SLOT_EXPONENT (block_at base e) }
    ensures exact { table.new ≡ filled table.old (base / 16) (2 ^ e / 16) 0 }
    ensures bytes { Marks SLOT_EXPONENT (block_at base e) 0 table.old table.new }
    ensures removed { Removes SLOT_EXPONENT (block_at base e) table.old table.new }
{
    fill(table, base, e, 0);
}

/// The byte of a slot: the exponent of the block that holds it, or 0.
pub fn look(table: &[u8], slot: u32) -> u8
    requires size { length table.now ≡ table_size }
    requires slot { slot < table_size }
    ensures byte { result ≡ slice_index table.now slot }
    ensures tells { TellsBlocks SLOT_EXPONENT table.now slot result }
{
    table[slot as usize]
}

// Writes a byte for each slot of the block.
#[tactic(auto, unfolding(crate::specs::Table::filled))]
fn fill(table: &mut [u8], base: u32, e: u8, byte: u8)
    requires size { length table.old ≡ table_size }
    requires block { IsBlock SLOT_EXPONENT (block_at base e) }
    ensures { table.new ≡ filled table.old (base / 16) (2 ^ e / 16) byte }
{
    let first = base as usize / SLOT;
    let count = (1usize << e) / SLOT;
    table[first..first + count].fill(byte);
}
