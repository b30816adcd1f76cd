use flat_code::emit::{LoadValues, MoveValues, SpanValues, load_steps, move_steps, span_steps};
use flat_code::recognize::{FlatSequence, sequence_at};
use std::test::Fail;

// With memory at hand each sequence is written, for slots of 16 and of 32 bytes.
#[test]
fn writes_sequences(rt: HostRuntime) -> Result<(), Fail> {
    let moved = MoveValues {
        pointer: 0,
        distance: 1,
        result: 2,
        line: 3,
        slot: 4,
        exponent: 5,
    };
    let loaded = LoadValues {
        to: 0,
        at: 1,
        line: 2,
        slot: 3,
        exponent: 4,
    };
    let spanned = SpanValues {
        pointer: 0,
        count: 1,
        last: 2,
        line: 3,
        distance: 4,
        slot: 5,
        exponent: 6,
    };
    for g in 4..6 {
        assert_eq!(rt; move_steps(rt.alloc(), g, moved)?.len(), 16);
        assert_eq!(rt; load_steps(rt.alloc(), g, loaded)?.len(), 2);
        assert_eq!(rt; span_steps(rt.alloc(), g, spanned)?.len(), 4);
    }
    Ok(())
}

// And it is found where it was written.
#[test]
fn finds_a_sequence(rt: HostRuntime) -> Result<(), Fail> {
    let moved = MoveValues {
        pointer: 0,
        distance: 1,
        result: 2,
        line: 3,
        slot: 4,
        exponent: 5,
    };
    let steps = move_steps(rt.alloc(), 4, moved)?;
    let found = match sequence_at(rt.alloc(), 4, &steps)? {
        Some(FlatSequence::Move(v)) => v.exponent,
        _ => 0,
    };
    assert_eq!(rt; found, 5);
    let none = sequence_at(rt.alloc(), 4, &steps[1..])?;
    assert_eq!(rt; none.is_none(), true);
    Ok(())
}
