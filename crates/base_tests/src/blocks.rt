ghost use Rattle.std.specs.Prelude.{◌≡◌, IfOk, vec_len};

use size_table::*;
use std::alloc::{AllocError, Global};
use std::test::Fail;

// A table of no blocks.
fn empty(alloc: Global, len: usize) -> Result<Vec<u8>, AllocError>
    ensures { IfOk result (λ table. vec_len table ≡ len) }
{
    vec![in alloc; 0; len]
}

#[test]
fn blocks_come_and_go(rt: HostRuntime) -> Result<(), Fail> {
    let mut table = empty(rt.alloc(), 2_097_152)?;
    assert_eq!(rt; table.len(), 2_097_152);
    set(&mut table, 0xA0_0000, 6);
    set(&mut table, 0xA0_0040, 4);
    set(&mut table, 0x100_0000, 24);
    // (slot, byte)
    let before = [
        (0x0_0000, 0),
        (0x9_FFFF, 0),
        (0xA_0000, 6),
        (0xA_0001, 6),
        (0xA_0002, 6),
        (0xA_0003, 6),
        (0xA_0004, 4),
        (0xA_0005, 0),
        (0xF_FFFF, 0),
        (0x10_0000, 24),
        (0x1F_FFFF, 24),
    ];
    for (slot, byte) in before {
        assert!(rt; slot < 0x20_0000);
        assert_eq!(rt; table.len(), 2_097_152);
        assert_eq!(rt; look(&table, slot), byte);
    }
    clear(&mut table, 0xA0_0000, 6);
    clear(&mut table, 0x100_0000, 24);
    let after = [
        (0x9_FFFF, 0),
        (0xA_0000, 0),
        (0xA_0001, 0),
        (0xA_0003, 0),
        (0xA_0004, 4),
        (0xA_0005, 0),
        (0x10_0000, 0),
        (0x1F_FFFF, 0),
    ];
    for (slot, byte) in after {
        assert!(rt; slot < 0x20_0000);
        assert_eq!(rt; table.len(), 2_097_152);
        assert_eq!(rt; look(&table, slot), byte);
    }
    Ok(())
}
