//! Branches and jumps whose labels are just within reach, and just out of it. The words are those of the RISC-V manual's formats.
use crate::around::End::{BranchAhead, BranchBack, JumpAhead, JumpBack, Pass};
use crate::around::{End, around};
use rv_asm::resolve::resolve;
use std::test::Fail;

// How many instructions stand before two parts, the parts, how many stand behind them; how many words come of it; and the place
// and the value of one of them. Label 0 is at the beginning, label 1 at the end.
const TEXTS: [(usize, End, End, usize, usize, usize, u32); 12] = [
    // beq x1, x2, -4096
    (1024, BranchBack, Pass, 0, 1026, 1024, 0x8020_8063),
    // bne x1, x2, 8; jal x0, -4104
    (1025, BranchBack, Pass, 0, 1028, 1025, 0x0020_9463),
    (1025, BranchBack, Pass, 0, 1028, 1026, 0xFF9F_E06F),
    // beq x1, x2, 4092
    (0, Pass, BranchAhead, 1022, 1024, 1, 0x7E20_8EE3),
    // bne x1, x2, 8; jal x0, 4096
    (0, Pass, BranchAhead, 1023, 1026, 2, 0x0000_106F),
    // jal x0, -1048576
    (262_144, JumpBack, Pass, 0, 262_146, 262_144, 0x8000_006F),
    // auipc x5, -256; jalr x0, -4(x5)
    (262_145, JumpBack, Pass, 0, 262_148, 262_146, 0xFFC2_8067),
    // jal x0, 1048572
    (0, Pass, JumpAhead, 262_142, 262_144, 1, 0x7FDF_F06F),
    // auipc x5, 256; jalr x0, 4(x5)
    (0, Pass, JumpAhead, 262_143, 262_146, 1, 0x0010_0297),
    // Two branches that both reach, and one that pushes the other out of reach.
    (1023, BranchAhead, BranchBack, 1021, 2046, 1024, 0x8020_8063),
    (1023, BranchAhead, BranchBack, 1022, 2049, 1023, 0x0020_9463),
    (1023, BranchAhead, BranchBack, 1022, 2049, 1025, 0x0020_9463),
];

#[test]
fn edges_of_reach(rt: HostRuntime) -> Result<(), Fail> {
    for (before, first, second, behind, count, place, word) in TEXTS {
        assert!(rt; before < 400_000 && behind < 400_000);
        assert!(rt; before + behind <= 520_000);
        let labelled = around(rt.alloc(), before, first.part(), second.part(), behind)?;
        let text = resolve(rt.alloc(), &labelled)?;
        let words = text.words.as_slice();
        assert_eq!(rt; words.len(), count, "{before} {behind}");
        assert_eq!(rt; words.get(place).copied(), Some(word), "{before} {behind}");
    }
    Ok(())
}
