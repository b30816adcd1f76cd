//! The calls on words. A slot has 16 bytes.
ghost use Rattle.std.specs.Prelude.{◌≡◌, ◌⊎◌, ◌≤◌, ◌<◌, ◌+◌, ◌*◌, ◌/◌, ◌^◌, ◌%◌, IsSome, Some};
ghost use Rattle.marked_ptr.specs.Marked.{marked as marked_word, unmarked as unmarked_word, owner_slot as slot_of, in_memory, base_of};
ghost use Rattle.marked_ptr.specs.Marked.{moved_address, moved as moved_word, order as order_of, difference as difference_of};
ghost use Rattle.marked_ptr.specs.Laws.{tested};
ghost use Rattle.bb_words.specs.Numbers.{difference as word_difference};

use crate::answer::MoveAnswer;
use bb_words::word::Word;
use std::cmp::Ordering;

/// Half a slot, in bytes.
const HALF: u32 = 8;

/// A slot, in bytes.
const SLOT: u32 = 16;

/// The word with the mark.
pub fn mark(w: Word) -> Word
    ensures { result.0 ≡ marked_word w.0 }
{
    Word(w.0 % 0x8000_0000 + 0x8000_0000)
}

/// The word without the mark.
pub fn unmark(w: Word) -> Word
    ensures { result.0 ≡ unmarked_word w.0 }
{
    Word(w.0 % 0x8000_0000)
}

/// The slot of the block that a word belongs to, if it is one of memory's.
pub fn owner_slot(w: Word) -> Option<u32>
    ensures { result ≡ in_memory 4 (slot_of 4 w.0) }
{
    let address = unmark(w).0;
    let slot = if w.0 < 0x8000_0000 {
        address / SLOT
    } else if address % SLOT >= HALF {
        address / SLOT + 1
    } else if address < SLOT {
        return None;
    } else {
        address / SLOT - 1
    };
    if slot < 0x20_0000 { Some(slot) } else { None }
}

/// The word `p` moved by the distance `d`, where the block that `p` belongs to has 2^e bytes. An exponent of 0 says that
/// it belongs to none.
pub fn moved(p: Word, d: Word, e: u8) -> MoveAnswer
    requires owner { IsSome (in_memory 4 (slot_of 4 p.0)) }
    requires exponent { (e ≡ 0) ⊎ ((4 ≤ e) × (e ≤ 24)) }
    ensures { result ≡ moved_word 4 p.0 d.0 e }
{
    if e == 0 {
        return MoveAnswer::Report;
    }
    let Some(slot) = owner_slot(p) else {
        return MoveAnswer::Report;
    };
    super::laws::moves_by_tests();
    let size = power(e);
    let address = unmark(p).add(d);
    let base = Word(slot * SLOT / size * size);
    let offset = address.sub(base).0;
    if offset < size {
        MoveAnswer::Inside(address)
    } else if offset.wrapping_add(HALF) < size + SLOT {
        MoveAnswer::Marked(mark(address))
    } else {
        MoveAnswer::Report
    }
}

/// 2^e.
fn power(e: u8) -> u32
    requires { e ≤ 24 }
    ensures value { result ≡ 2 ^ e }
    ensures most { result ≤ 2 ^ 24 }
    ensures least { 0 < result }
{
    1 << e
}

/// How two words into one block lie.
pub fn order(p: Word, q: Word) -> Ordering
    ensures { result ≡ order_of p.0 q.0 }
{
    unmark(p).0.cmp(&unmark(q).0)
}

/// How many elements of a size lie from `q` to `p`, rounded toward zero.
#[tactic(auto, unfolding(crate::specs::Marked::difference))]
pub fn difference(p: Word, q: Word, size: u32) -> Word
    requires { (1 ≤ size) × (size ≤ 1048576) }
    ensures { result.0 ≡ difference_of p.0 q.0 size }
{
    let bytes = unmark(p).sub(unmark(q)).0.cast_signed();
    Word((bytes / size.cast_signed()).cast_unsigned())
}
