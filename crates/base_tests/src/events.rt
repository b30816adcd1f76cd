use bb_watch::event::{Event, Kinds};
use std::test::Fail;

// A kind alone, and an event of it.
fn pairs() -> [(Kinds, Event); 7] {
    let none = Kinds::none();
    [
        (
            Kinds {
                moves: true,
                ..none
            },
            Event::Move {
                pc: 0x1000,
                from: 0xA0_0000,
                to: 0xA0_0004,
            },
        ),
        (
            Kinds {
                accesses: true,
                ..none
            },
            Event::Access {
                pc: 0x1004,
                at: 0xA0_0004,
                size: 4,
                write: true,
                base: 8,
            },
        ),
        (
            Kinds {
                calls: true,
                ..none
            },
            Event::Call {
                pc: 0x1008,
                target: 0x1100,
            },
        ),
        (
            Kinds {
                returns: true,
                ..none
            },
            Event::Return {
                pc: 0x1104,
                target: 0x100C,
            },
        ),
        (
            Kinds { made: true, ..none },
            Event::Made {
                at: 0xA0_0040,
                exponent: 6,
            },
        ),
        (
            Kinds {
                ended: true,
                ..none
            },
            Event::Ended {
                at: 0xA0_0040,
                exponent: 6,
            },
        ),
        (
            Kinds {
                lines: true,
                ..none
            },
            Event::Line { line: 12 },
        ),
    ]
}

#[test]
fn each_event_is_of_its_kind_alone(rt: HostRuntime) -> Result<(), Fail> {
    for (row, (kinds, _)) in pairs().iter().enumerate() {
        for (column, (_, event)) in pairs().iter().enumerate() {
            assert_eq!(rt; kinds.has(event), row == column);
        }
    }
    for (_, event) in pairs() {
        assert!(rt; Kinds::all().has(&event));
        assert!(rt; !Kinds::none().has(&event));
    }
    Ok(())
}
