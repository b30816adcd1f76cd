//! Selected code, from flat code to words. The words are those that LLVM's assembler gives for the instructions beside them.
ghost use Rattle.std.specs.Prelude.{◌≡◌, ◌≤◌, [], IfOk};
ghost use Rattle.flat_code.specs.CodeViews.{code_of};
ghost use Rattle.flat_code.specs.Weight.{weight};
ghost use Rattle.rv_asm.specs.Parts.{AreParts};

use crate::programs::{difference, moved};
use bb_words::list::List;
use flat_code::code::Flat;
use flat_verify::global_blocks::GlobalBlocks;
use flat_verify::verify::verify;
use rv_asm::parts::Labelled;
use rv_asm::resolve::resolve;
use rv_select::select::select;
use std::alloc::Global;
use std::test::Fail;

const DIFFERENCE: [u32; 73] = [
    0x0100_0437, // lui x8, 0x1000
    0x0020_0D37, // lui x26, 0x200
    0x0100_00EF, // jal x1, F0
    0x0004_8513, // addi x10, x9, 0
    0x0010_0893, // addi x17, x0, 1
    0x0000_0073, // ecall
    0x0000_0513, // addi x10, x0, 0
    0x0050_0593, // addi x11, x0, 5
    0x0070_0893, // addi x17, x0, 7
    0x0000_0073, // ecall
    0x0005_0413, // addi x8, x10, 0
    0xFF01_0113, // addi x2, x2, -16
    0x0011_2623, // sw x1, 12(x2)
    0x0001_2023, // sw x0, 0(x2)
    0x0001_2223, // sw x0, 4(x2)
    0x0001_2423, // sw x0, 8(x2)
    0x0000_5037, // lui x0, 5
    0x02A0_0293, // addi x5, x0, 42
    0x0051_2023, // sw x5, 0(x2)
    0x0001_82B7, // lui x5, 0x18
    0x6A02_8293, // addi x5, x5, 0x6a0
    0x0051_2223, // sw x5, 4(x2)
    0x0001_2903, // lw x18, 0(x2)
    0x0041_2983, // lw x19, 4(x2)
    0x0300_00EF, // jal x1, F1
    0x0091_2423, // sw x9, 8(x2)
    0x0081_2483, // lw x9, 8(x2)
    0x0080_006F, // jal x0, B0
    0x0000_0493, // addi x9, x0, 0
    0x00C1_2083, // lw x1, 12(x2)
    0x0101_0113, // addi x2, x2, 16
    0x0000_0513, // addi x10, x0, 0
    0x0080_0893, // addi x17, x0, 8
    0x0000_0073, // ecall
    0x0005_0413, // addi x8, x10, 0
    0x0000_8067, // jalr x0, 0(x1)
    0x0010_0513, // addi x10, x0, 1
    0x0010_0593, // addi x11, x0, 1
    0x0070_0893, // addi x17, x0, 7
    0x0000_0073, // ecall
    0x0005_0413, // addi x8, x10, 0
    0xFF81_0113, // addi x2, x2, -8
    0x0011_2223, // sw x1, 4(x2)
    0x0001_2023, // sw x0, 0(x2)
    0xFF81_0113, // addi x2, x2, -8
    0x0121_2023, // sw x18, 0(x2)
    0x0131_2223, // sw x19, 4(x2)
    0x0001_2283, // lw x5, 0(x2)
    0x0041_2303, // lw x6, 4(x2)
    0x0062_B2B3, // sltu x5, x5, x6
    0x0051_2423, // sw x5, 8(x2)
    0x0202_8063, // beq x5, x0, E
    0x0041_2283, // lw x5, 4(x2)
    0x0001_2303, // lw x6, 0(x2)
    0x4062_82B3, // sub x5, x5, x6
    0x0051_2423, // sw x5, 8(x2)
    0x0081_2483, // lw x9, 8(x2)
    0x0240_006F, // jal x0, B1
    0x01C0_006F, // jal x0, D
    0x0070_0293, // addi x5, x0, 7
    0x0051_2223, // sw x5, 4(x2)
    0x0041_2583, // lw x11, 4(x2)
    0x0030_0513, // addi x10, x0, 3
    0x0060_0893, // addi x17, x0, 6
    0x0000_0073, // ecall
    0x0000_0493, // addi x9, x0, 0
    0x00C1_2083, // lw x1, 12(x2)
    0x0101_0113, // addi x2, x2, 16
    0x0010_0513, // addi x10, x0, 1
    0x0080_0893, // addi x17, x0, 8
    0x0000_0073, // ecall
    0x0005_0413, // addi x8, x10, 0
    0x0000_8067, // jalr x0, 0(x1)
];

const MOVED: [u32; 98] = [
    0x0100_0437, // lui x8, 0x1000
    0x0020_0D37, // lui x26, 0x200
    0x0100_00EF, // jal x1, F0
    0x0004_8513, // addi x10, x9, 0
    0x0010_0893, // addi x17, x0, 1
    0x0000_0073, // ecall
    0x0000_0513, // addi x10, x0, 0
    0x0020_0593, // addi x11, x0, 2
    0x0070_0893, // addi x17, x0, 7
    0x0000_0073, // ecall
    0x0005_0413, // addi x8, x10, 0
    0xFF41_0113, // addi x2, x2, -12
    0x0011_2423, // sw x1, 8(x2)
    0x0001_2023, // sw x0, 0(x2)
    0x0001_2223, // sw x0, 4(x2)
    0xFE01_0313, // addi x6, x2, -32
    0xFE01_0113, // addi x2, x2, -32
    0x0001_2023, // sw x0, 0(x2)
    0x0001_2223, // sw x0, 4(x2)
    0x0001_2423, // sw x0, 8(x2)
    0x0001_2623, // sw x0, 12(x2)
    0x0001_2823, // sw x0, 16(x2)
    0x0001_2A23, // sw x0, 20(x2)
    0x0001_2C23, // sw x0, 24(x2)
    0x0001_2E23, // sw x0, 28(x2)
    0xFC61_1EE3, // bne x2, x6, Z
    0x0004_0293, // addi x5, x8, 0
    0x0051_2023, // sw x5, 0(x2)
    0x0040_0293, // addi x5, x0, 4
    0x0051_2223, // sw x5, 4(x2)
    0x0020_0293, // addi x5, x0, 2
    0x0051_2623, // sw x5, 12(x2)
    0x0001_2283, // lw x5, 0(x2)
    0x01F2_D313, // srli x6, x5, 31
    0x4060_0333, // sub x6, x0, x6
    0x0012_9393, // slli x7, x5, 1
    0x0013_D393, // srli x7, x7, 1
    0x0023_D613, // srli x12, x7, 2
    0x0026_7613, // andi x12, x12, 2
    0xFFF6_0613, // addi x12, x12, -1
    0x0066_7633, // and x12, x12, x6
    0x0043_D393, // srli x7, x7, 4
    0x00C3_83B3, // add x7, x7, x12
    0x007D_0FB3, // add x31, x26, x7
    0x000F_C683, // lbu x13, 0(x31)
    0x0006_9A63, // bne x13, x0, N0
    0x00C1_2583, // lw x11, 12(x2)
    0x0010_0513, // addi x10, x0, 1
    0x0060_0893, // addi x17, x0, 6
    0x0000_0073, // ecall
    0x0043_9393, // slli x7, x7, 4
    0x00D3_D3B3, // srl x7, x7, x13
    0x00D3_93B3, // sll x7, x7, x13
    0x0010_0713, // addi x14, x0, 1
    0x00D7_1733, // sll x14, x14, x13
    0x0001_2283, // lw x5, 0(x2)
    0x0012_9813, // slli x16, x5, 1
    0x0018_5813, // srli x16, x16, 1
    0x0041_2303, // lw x6, 4(x2)
    0x0068_0833, // add x16, x16, x6
    0x4078_07B3, // sub x15, x16, x7
    0x02E7_E863, // bltu x15, x14, N2
    0x0080_0313, // addi x6, x0, 8
    0x0067_87B3, // add x15, x15, x6
    0x0100_0313, // addi x6, x0, 16
    0x0067_0733, // add x14, x14, x6
    0x00E7_EA63, // bltu x15, x14, N1
    0x00C1_2583, // lw x11, 12(x2)
    0x0010_0513, // addi x10, x0, 1
    0x0060_0893, // addi x17, x0, 6
    0x0000_0073, // ecall
    0x8000_0337, // lui x6, 0x80000
    0x0068_6833, // or x16, x16, x6
    0x0001_2283, // lw x5, 0(x2)
    0x0102_8033, // add x0, x5, x16
    0x0101_2423, // sw x16, 8(x2)
    0x0081_2283, // lw x5, 8(x2)
    0x0041_2303, // lw x6, 4(x2)
    0x0062_A023, // sw x6, 0(x5)
    0x0081_2283, // lw x5, 8(x2)
    0x0002_C283, // lbu x5, 0(x5)
    0x0051_2C23, // sw x5, 24(x2)
    0x0181_2503, // lw x10, 24(x2)
    0x0030_0893, // addi x17, x0, 3
    0x0000_0073, // ecall
    0x00A1_2E23, // sw x10, 28(x2)
    0x0080_006F, // jal x0, D
    0xFE1F_F06F, // jal x0, L
    0x01C1_2483, // lw x9, 28(x2)
    0x0080_006F, // jal x0, B0
    0x0000_0493, // addi x9, x0, 0
    0x0281_2083, // lw x1, 40(x2)
    0x02C1_0113, // addi x2, x2, 44
    0x0000_0513, // addi x10, x0, 0
    0x0080_0893, // addi x17, x0, 8
    0x0000_0073, // ecall
    0x0005_0413, // addi x8, x10, 0
    0x0000_8067, // jalr x0, 0(x1)
];

fn no_globals(alloc: Global) -> GlobalBlocks
    ensures { result.globals ≡ [] }
{
    GlobalBlocks {
        globals: List::new(alloc),
    }
}

fn parts_of(alloc: Global, flat: &Flat) -> Result<Labelled, Fail>
    requires { weight 4 (code_of flat.now) ≤ 2093056 }
    ensures { IfOk result (λ labelled. AreParts labelled.parts) }
{
    let layout = no_globals(alloc);
    let verified = verify(alloc, flat, &layout, 4)?;
    let labelled = select(alloc, verified)?;
    Ok(labelled)
}

#[test]
fn call_and_choice(rt: HostRuntime) -> Result<(), Fail> {
    let alloc = rt.alloc();
    let flat = difference(alloc)?;
    let labelled = parts_of(alloc, &flat)?;
    let text = resolve(alloc, &labelled)?;
    let words = text.words.as_slice();
    assert_eq!(rt; words.len(), DIFFERENCE.len());
    for (k, word) in DIFFERENCE.iter().enumerate() {
        assert_eq!(rt; words.get(k), Some(word), "at {k}");
    }
    Ok(())
}

#[test]
fn move_and_loop(rt: HostRuntime) -> Result<(), Fail> {
    let alloc = rt.alloc();
    let flat = moved(alloc)?;
    let labelled = parts_of(alloc, &flat)?;
    let text = resolve(alloc, &labelled)?;
    let words = text.words.as_slice();
    assert_eq!(rt; words.len(), MOVED.len());
    for (k, word) in MOVED.iter().enumerate() {
        assert_eq!(rt; words.get(k), Some(word), "at {k}");
    }
    Ok(())
}
