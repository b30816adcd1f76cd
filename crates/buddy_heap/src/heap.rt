//! The blocks of the heap.
ghost use Rattle.std.specs.Prelude.{◌≡◌, ◌+◌, ◌-◌, ◌*◌, ◌/◌, ◌^◌, ◌<◌, ◌≤◌};
ghost use Rattle.std.specs.Prelude.{[], length, vec_len, vec_capacity, IfOk, IfNone, IfSome, IfErr};
ghost use Rattle.std.specs.List.{insert};
ghost use Rattle.size_table.specs.Blocks.{IsBlock, block_at};
ghost use Rattle.buddy_heap.specs.Places.{place_of, is_clear, with_block, blocks_of, HaveExponents, count_to, index_of, IsExponentAt, IsGiven};

use size_table::memory_map::{HEAP_START, MEMORY_END};
use std::alloc::{AllocError, Global};
use std::marker::Model;

/// How many blocks there may be: the heap has room for so many of the least size, 16 bytes.
const MOST_BLOCKS: usize = 0x10_0000;

/// The live blocks of the heap, each by its base and its exponent, in the order of their bases.
#[derive(Drop)]
pub struct Heap {
    blocks: Vec<(u32, u8)>,
}

/// No live block begins at this address.
#[derive(Debug, Drop)]
pub struct NotABlock {
    pub at: u32,
}

impl Model for Heap {
    ghost use Rattle.std.specs.Prelude.{◌≤◌, List, vec_capacity};
    ghost use Rattle.size_table.specs.Blocks.{Block};
    ghost use Rattle.size_table.specs.declared.memory_map.TheConstants.{HEAP_START};
    ghost use Rattle.buddy_heap.specs.declared.heap.TheConstants.{MOST_BLOCKS};
    ghost use Rattle.buddy_heap.specs.Places.{blocks_of, AreBlocks, LieInOrder};

    ghost Value = { List Block };

    ghost view = { λ h. blocks_of h.blocks.items };

    ghost invariant = { λ h. AreBlocks h.blocks.items × LieInOrder HEAP_START h.blocks.items × (MOST_BLOCKS ≤ vec_capacity h.blocks) };
}

impl Heap {
    /// A heap with no block. It takes the memory for all blocks that there may ever be.
    pub fn new(alloc: Global) -> Result<Heap, AllocError>
        ensures { IfOk result (λ heap. heap ≡ []) }
    {
        let blocks = Vec::with_capacity(alloc, MOST_BLOCKS)?;
        Ok(Heap { blocks })
    }

    /// Where a block of 2^e bytes would come: the least place that is clear of the blocks, or `None` where there is none.
    pub fn place(&self, e: u8) -> Option<u32>
        requires least { 4 ≤ e }
        requires most { e ≤ 24 }
        ensures { result ≡ place_of self.now e }
    {
        place_in(&self.blocks, e)
    }

    /// The exponent of the block that begins at `at`, or `None` where no live block begins there.
    pub fn exponent_at(&self, at: u32) -> Option<u8>
        ensures { IsExponentAt at self.now result }
    {
        match index_of(&self.blocks, at) {
            Some(i) => Some(self.blocks[i].1),
            None => None,
        }
    }

    /// Makes a block of 2^e bytes at the least place that is clear of the others: its base, or `None` where there is no
    /// place.
    pub fn take(&mut self, e: u8) -> Option<u32>
        requires least { 4 ≤ e }
        requires most { e ≤ 24 }
        ensures place { result ≡ place_of self.old e }
        ensures none { IfNone result (self.new ≡ self.old) }
        ensures some { IfSome result (λ p. self.new ≡ with_block (block_at p e) self.old) }
        ensures block { IfSome result (λ p. IsBlock 4 (block_at p e)) }
    {
        match place_in(&self.blocks, e) {
            Some(base) => {
                let at = count_to(&self.blocks, base);
                put(&mut self.blocks, at, (base, e));
                Some(base)
            }
            None => None,
        }
    }

    /// Ends the block that begins at `at`: its exponent, or an error where no live block begins there.
    pub fn give(&mut self, at: u32) -> Result<u8, NotABlock>
        ensures given { IsGiven at self.old self.new result }
        ensures named { IfErr result (λ failed. failed.at ≡ at) }
    {
        match index_of(&self.blocks, at) {
            Some(i) => {
                let block = self.blocks.remove(i);
                Ok(block.1)
            }
            None => Err(NotABlock { at }),
        }
    }
}

// Whether the block meets none of the blocks.
fn is_clear(base: u32, e: u8, mut list: &[(u32, u8)]) -> bool
    requires most { e ≤ 24 }
    requires within { base + 2 ^ e ≤ MEMORY_END }
    requires exponents { HaveExponents list.now }
    ensures { result ≡ is_clear (block_at base e) (blocks_of list.entry.now) }
{
    let end = base + (1 << e);
    while let [first, rest @ ..] = list {
        let (other, exponent) = *first;
        if !(end <= other || u64::from(other) + (1 << exponent) <= u64::from(base)) {
            return false;
        }
        list = rest;
    }
    true
}

/// The least multiple of 2^e in the heap whose 2^e bytes meet none of the listed blocks, each a base with an exponent of at
/// most 24; `None` where there is none.
pub fn place_in(list: &[(u32, u8)], e: u8) -> Option<u32>
    requires least { 4 ≤ e }
    requires most { e ≤ 24 }
    requires exponents { HaveExponents list.now }
    ensures { result ≡ place_of (blocks_of list.now) e }
{
    let size = 1u32 << e;
    let mut at = HEAP_START;
    while at < MEMORY_END {
        if is_clear(at, e, list) {
            return Some(at);
        }
        at += size;
    }
    None
}

// How many blocks begin at most at an address.
fn count_to(mut list: &[(u32, u8)], at: u32) -> usize
    ensures { result ≡ count_to at list.entry.now }
{
    let mut count = 0;
    while let [first, rest @ ..] = list {
        if at < first.0 {
            return count;
        }
        count += 1;
        list = rest;
    }
    count
}

// The index of the block that begins there.
fn index_of(mut list: &[(u32, u8)], at: u32) -> Option<usize>
    ensures { result ≡ index_of at list.entry.now }
{
    let mut index = 0;
    while let [first, rest @ ..] = list {
        if first.0 == at {
            return Some(index);
        }
        index += 1;
        list = rest;
    }
    None
}

// A block comes to a place in the list, which has room for it.
fn put(blocks: &mut Vec<(u32, u8)>, at: usize, block: (u32, u8))
    requires within { at ≤ vec_len blocks.old }
    requires room { (vec_len blocks.old < MOST_BLOCKS) × (MOST_BLOCKS ≤ vec_capacity blocks.old) }
    ensures items { blocks.new.items ≡ insert blocks.old.items at block }
    ensures capacity { MOST_BLOCKS ≤ vec_capacity blocks.new }
{
    match blocks.insert(at, block) {
        Ok(()) => {}
        Err(_) => unreachable!(),
    }
}
