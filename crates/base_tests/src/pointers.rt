use bb_words::word::Word;
use marked_ptr::answer::MoveAnswer;
use marked_ptr::words::{difference, mark, moved, order, owner_slot, unmark};
use std::cmp::Ordering;

// A word, its distance, the exponent of its block, and what it is moved to.
const MOVES: [(u32, u32, u8, MoveAnswer); 7] = [
    (0xA0_0000, 20, 4, MoveAnswer::Marked(Word(0x80A0_0014))),
    (
        0x80A0_0014,
        0xFFFF_FFEC,
        4,
        MoveAnswer::Inside(Word(0xA0_0000)),
    ),
    (0xA0_0000, 24, 4, MoveAnswer::Report),
    (
        0xA0_0000,
        0xFFFF_FFF8,
        4,
        MoveAnswer::Marked(Word(0x809F_FFF8)),
    ),
    (0xA0_0000, 0xFFFF_FFF7, 4, MoveAnswer::Report),
    (0xA0_0000, 15, 4, MoveAnswer::Inside(Word(0xA0_000F))),
    (0xA0_0000, 1, 0, MoveAnswer::Report),
];

#[test]
fn words_move(rt: HostRuntime) {
    for (p, d, e, want) in MOVES {
        let p = Word(p);
        assert!(rt; owner_slot(p) == Some(0xA_0000));
        assert!(rt; e == 0 || e == 4);
        assert_eq!(rt; moved(p, Word(d), e), want);
    }
}

#[test]
fn words_are_marked_and_compared(rt: HostRuntime) {
    assert_eq!(rt; owner_slot(Word(0x8000_0004)), None);
    assert_eq!(rt; owner_slot(Word(0x0200_0000)), None);
    assert_eq!(rt; mark(Word(0xA0_0004)), Word(0x80A0_0004));
    assert_eq!(rt; unmark(Word(0x80A0_0004)), Word(0xA0_0004));
    assert_eq!(rt; order(Word(0xA0_000F), Word(0x80A0_0014)), Ordering::Less);
    assert_eq!(rt;
        difference(Word(0xA0_0000), Word(0x80A0_0014), 8),
        Word(0xFFFF_FFFE)
    );
}
