//! Bytes and words in memory.
ghost use Rattle.std.specs.Prelude.{◌≡◌, ◌+◌, ◌-◌, ◌*◌, ◌^◌, ◌≤◌, length, replicate};
ghost use Rattle.std.specs.Prelude.{vec_len, slice_index, [], ◌∷◌, ◌<◌, ◌%◌, IfOk, IfSome, All};
ghost use Rattle.size_table.specs.declared.memory_map.TheConstants.{TEXT_START, TABLE_START, MEMORY_END};
ghost use Rattle.size_table.specs.Blocks.{IsBlock, block_at};
ghost use Rattle.size_table.specs.Made.{tabled};
ghost use Rattle.size_table.specs.Table.{filled};
ghost use Rattle.rv_machine.specs.State.{memory_size};
ghost use Rattle.rv_machine.specs.Decoded.{IsDecoded, AreDecoded};
ghost use Rattle.size_table.specs.Memory.{half_at, word_at, written_at, bytes_of_words, table_bytes, IsExponent};

use bb_words::word::Word;
use rv_code::decode::decode;
use rv_code::instr::Instr;
use size_table::memory_map::{TABLE_END, TABLE_START, TEXT_START};
use std::alloc::{AllocError, Global};
use std::marker::Model;

// The bytes of the machine's memory.
const MEMORY_SIZE: usize = 33_554_432;

/// The whole memory, zero throughout.
#[tactic(auto, unfolding(crate::specs::State::memory_size))]
pub(crate) fn zeros(alloc: Global) -> Result<Vec<u8>, AllocError>
    ensures items { IfOk result (λ memory. memory.items ≡ replicate memory_size 0) }
    ensures len { IfOk result (λ memory. vec_len memory ≡ MEMORY_END) }
{
    zeros_of(alloc, MEMORY_SIZE)
}

fn zeros_of(alloc: Global, count: usize) -> Result<Vec<u8>, AllocError>
    ensures items { IfOk result (λ memory. memory.items ≡ replicate count 0) }
    ensures len { IfOk result (λ memory. vec_len memory ≡ count) }
{
    vec![in alloc; 0u8; count]
}

/// The two bytes at an address, the lower one first.
pub(crate) fn half_at(memory: &[u8], at: usize) -> u16
    requires { at + 2 ≤ length memory.now }
    ensures { result ≡ half_at memory.now at }
{
    u16::from_le_bytes([memory[at], memory[at + 1]])
}

/// The word at an address.
pub(crate) fn word_at(memory: &[u8], at: usize) -> u32
    requires { at + 4 ≤ length memory.now }
    ensures { result ≡ word_at memory.now at }
{
    u32::from_le_bytes([memory[at], memory[at + 1], memory[at + 2], memory[at + 3]])
}

/// Writes bytes from an address on.
pub(crate) fn write_bytes(memory: &mut [u8], at: usize, bytes: &[u8])
    requires { at + length bytes.now ≤ length memory.old }
    ensures { memory.new ≡ written_at memory.old at bytes.now }
{
    for (i, byte) in bytes.iter().enumerate() {
        memory[at + i] = *byte;
    }
}

/// Writes words from an address on, the lowest byte of each first.
pub(crate) fn write_words(memory: &mut [u8], at: usize, words: &[u32])
    requires { at + 4 * length words.now ≤ length memory.old }
    ensures { memory.new ≡ written_at memory.old at (bytes_of_words words.now) }
{
    for (i, word) in words.iter().enumerate() {
        let bytes = word.to_le_bytes();
        write_bytes(memory, at + 4 * i, &bytes);
    }
}

// Writes so many copies of a byte from an address on.
fn write_copies(memory: &mut [u8], at: usize, count: usize, byte: u8)
    requires { at + count ≤ length memory.old }
    ensures { memory.new ≡ written_at memory.old at (replicate count byte) }
{
    for i in 0..count {
        memory[at + i] = byte;
    }
}

/// Writes the size table's bytes for blocks of these exponents, from the first one's slot on.
pub(crate) fn write_table(memory: &mut [u8], at: usize, exponents: &[u8])
    requires exponents { All IsExponent exponents.now }
    requires room { at + length (table_bytes exponents.now) ≤ length memory.old }
    ensures { memory.new ≡ written_at memory.old at (table_bytes exponents.now) }
{
    let mut slot = at;
    for exponent in exponents {
        let count = 1usize << (exponent - 4);
        write_copies(memory, slot, count, *exponent);
        slot += count;
    }
}

/// A block begins: each of its slots has its exponent in the size table.
pub(crate) fn set_in_table(memory: &mut [u8], base: u32, exponent: u8)
    requires size { length memory.old ≡ MEMORY_END }
    requires block { IsBlock 4 (block_at base exponent) }
    ensures { memory.new ≡ tabled exponent (block_at base exponent) memory.old }
{
    size_table::set(
        &mut memory[TABLE_START as usize..TABLE_END as usize],
        base,
        exponent,
    );
}

/// A block ends: each of its slots has 0 in the size table.
pub(crate) fn clear_in_table(memory: &mut [u8], base: u32, exponent: u8)
    requires size { length memory.old ≡ MEMORY_END }
    requires block { IsBlock 4 (block_at base exponent) }
    ensures { memory.new ≡ tabled 0 (block_at base exponent) memory.old }
{
    size_table::clear(
        &mut memory[TABLE_START as usize..TABLE_END as usize],
        base,
        exponent,
    );
}

/// The bytes of the memory, and the instructions of its text, which are decoded once.
#[derive(Drop)]
pub(crate) struct Memory {
    bytes: Vec<u8>,
    // The instruction of each word of the text, and `Ebreak` where there is none.
    text: Vec<Instr>,
}

impl Model for Memory {
    ghost use Rattle.std.specs.Prelude.{◌≡◌, vec_len, List, ℕ};
    ghost use Rattle.size_table.specs.declared.memory_map.TheConstants.{MEMORY_END};
    ghost use Rattle.rv_machine.specs.Decoded.{AreDecoded};

    ghost Value = { List ℕ };

    ghost view = { λ m. m.bytes.items };

    ghost invariant = { λ m. (vec_len m.bytes ≡ MEMORY_END) × AreDecoded m.text.items m.bytes.items };
}

impl Memory {
    /// A memory of these bytes, with so many words of text, which are decoded.
    pub(crate) fn new(alloc: Global, bytes: Vec<u8>, words: usize) -> Result<Memory, AllocError>
        requires size { vec_len bytes ≡ MEMORY_END }
        requires words { 4 * words ≤ 2093056 }
        ensures { IfOk result (λ memory. memory ≡ bytes.items) }
    {
        let text = decoded_text(alloc, &bytes, words)?;
        Ok(Memory { bytes, text })
    }

    /// The bytes.
    #[inline(always)]
    pub(crate) fn bytes(&self) -> &[u8]
        ensures value { result.now ≡ self.now }
        ensures size { length result.now ≡ MEMORY_END }
    {
        &self.bytes
    }

    /// The instruction of the text at an address, a number of words, if it was decoded.
    #[inline(always)]
    pub(crate) fn decoded(&self, place: u32) -> Option<Instr>
        ensures value { IfSome result (IsDecoded (word_at self.now (4 * place))) }
        ensures in_text { IfSome result (λ _. (TEXT_START ≤ 4 * place) × (4 * place < TABLE_START)) }
    {
        let at = place.wrapping_sub(TEXT_START / 4) as usize;
        if at < self.text.len() {
            Some(self.text[at])
        } else {
            None
        }
    }

    /// Writes a byte above the text.
    pub(crate) fn put_byte(&mut self, at: u32, byte: u8)
        requires above { TABLE_START ≤ at }
        requires within { at < MEMORY_END }
        ensures { self.new ≡ written_at self.old at (byte ∷ []) }
    {
        self.bytes[at as usize] = byte;
    }

    /// Writes bytes above the text.
    pub(crate) fn put_bytes(&mut self, at: u32, bytes: &[u8])
        requires above { TABLE_START ≤ at }
        requires within { at + length bytes.now ≤ MEMORY_END }
        ensures { self.new ≡ written_at self.old at bytes.now }
    {
        write_bytes(&mut self.bytes, at as usize, bytes);
    }

    /// Fills a part. Text that is written over is no longer decoded.
    #[tactic(auto, unfolding(size_table::specs::Table::filled))]
    pub(crate) fn fill(&mut self, at: usize, count: usize, byte: u8)
        requires { at + count ≤ MEMORY_END }
        ensures { self.new ≡ filled self.old at count byte }
    {
        if at < TABLE_START as usize {
            self.text.clear();
        }
        self.bytes[at..at + count].fill(byte);
    }

    /// A block begins: each of its slots has its exponent in the size table.
    pub(crate) fn set_in_table(&mut self, base: u32, exponent: u8)
        requires { IsBlock 4 (block_at base exponent) }
        ensures { self.new ≡ tabled exponent (block_at base exponent) self.old }
    {
        set_in_table(&mut self.bytes, base, exponent);
    }

    /// A block ends: each of its slots has 0 in the size table.
    pub(crate) fn clear_in_table(&mut self, base: u32, exponent: u8)
        requires { IsBlock 4 (block_at base exponent) }
        ensures { self.new ≡ tabled 0 (block_at base exponent) self.old }
    {
        clear_in_table(&mut self.bytes, base, exponent);
    }
}

// The instruction of a word, or `Ebreak`, which leads nowhere.
fn decoded_word(word: u32) -> Instr
    ensures { IsDecoded word result }
{
    match decode(Word(word)) {
        Some(instr) => instr,
        None => Instr::Ebreak,
    }
}

// The instructions of so many words of text.
#[tactic(auto, using(crate::proofs::Decoding::none_decoded))]
fn decoded_text(alloc: Global, bytes: &[u8], words: usize) -> Result<Vec<Instr>, AllocError>
    requires size { length bytes.now ≡ MEMORY_END }
    requires words { 4 * words ≤ 2093056 }
    ensures { IfOk result (λ text. AreDecoded text.items bytes.now) }
{
    let mut text = Vec::new(alloc);
    for k in 0..words {
        text.push(decoded_word(word_at(bytes, TEXT_START as usize + 4 * k)))?;
    }
    Ok(text)
}
