//! Words that an assembler made, and words that are no instruction.
use bb_words::word::Word;
use rv_code::decode::decode;
use rv_code::encode::encode;
use rv_code::instr::Instr;

// Words with a field that no instruction has.
const NO_INSTRUCTIONS: [u32; 18] = [
    // All bits clear, all bits set, a compressed instruction.
    0x0000_0000,
    0xFFFF_FFFF,
    0x0000_4501,
    // BRANCH, LOAD, STORE and JALR with another function.
    0x0000_2063,
    0x0000_3063,
    0x0000_3003,
    0x0000_7003,
    0x0000_3023,
    0x0000_1067,
    // SLLI, SRLI and SRAI with another upper field.
    0x41FA_1993,
    0x03FA_1993,
    0x021B_5A93,
    // OP with another upper field, and SLL with that of SUB.
    0x0431_00B3,
    0x4031_10B3,
    // FENCE.I, CSRRW, MRET, ECALL with a destination.
    0x0000_100F,
    0x0000_1073,
    0x3020_0073,
    0x0000_00F3,
];

// Each word is read as the instruction beside it.
macro_rules! assert_read {
    ($rt:ident; $($instr:pat => $word:literal,)*) => {
        for word in [$($word),*] {
            let is_read = match (word, decode(Word(word))) {
                $(($word, Some($instr)) => true,)*
                _ => false,
            };
            assert!($rt; is_read, "at {word}");
        }
    };
}

// The words are those of LLVM's assembler, at least one for each instruction.
#[test]
fn assembled_words(rt: HostRuntime) {
    assert_read!(rt;
        Instr::Lui { rd: 5, imm: 0x1234_5000 } => 0x1234_52B7,
        Instr::Auipc { rd: 31, imm: 0xFFFF_F000 } => 0xFFFF_FF97,
        Instr::Jal { rd: 1, imm: 0xFFF0_0000 } => 0x8000_00EF,
        Instr::Jal { rd: 3, imm: 0x000A_BCDE } => 0x4DFA_B1EF,
        Instr::Jalr { rd: 7, rs1: 9, imm: 0xFFFF_F800 } => 0x8004_83E7,
        Instr::Beq { rs1: 10, rs2: 11, imm: 0xFFFF_F000 } => 0x80B5_0063,
        Instr::Bne { rs1: 12, rs2: 13, imm: 4094 } => 0x7ED6_1FE3,
        Instr::Blt { rs1: 14, rs2: 15, imm: 1366 } => 0x54F7_4B63,
        Instr::Bge { rs1: 16, rs2: 17, imm: 0xFFFF_FFFE } => 0xFF18_5FE3,
        Instr::Bltu { rs1: 18, rs2: 19, imm: 2048 } => 0x0139_60E3,
        Instr::Bgeu { rs1: 20, rs2: 21, imm: 30 } => 0x015A_7F63,
        Instr::Lb { rd: 22, rs1: 23, imm: 0xFFFF_FFFF } => 0xFFFB_8B03,
        Instr::Lh { rd: 24, rs1: 25, imm: 2047 } => 0x7FFC_9C03,
        Instr::Lw { rd: 26, rs1: 27, imm: 1364 } => 0x554D_AD03,
        Instr::Lbu { rd: 28, rs1: 29, imm: 0 } => 0x000E_CE03,
        Instr::Lhu { rd: 30, rs1: 31, imm: 0xFFFF_F800 } => 0x800F_DF03,
        Instr::Sb { rs1: 2, rs2: 1, imm: 0xFFFF_FFFF } => 0xFE11_0FA3,
        Instr::Sh { rs1: 4, rs2: 3, imm: 2047 } => 0x7E32_1FA3,
        Instr::Sw { rs1: 6, rs2: 5, imm: 0xFFFF_FAAA } => 0xAA53_2523,
        Instr::Addi { rd: 7, rs1: 8, imm: 0xFFFF_F800 } => 0x8004_0393,
        Instr::Slti { rd: 9, rs1: 10, imm: 2047 } => 0x7FF5_2493,
        Instr::Sltiu { rd: 11, rs1: 12, imm: 0xFFFF_FFFF } => 0xFFF6_3593,
        Instr::Xori { rd: 13, rs1: 14, imm: 1365 } => 0x5557_4693,
        Instr::Ori { rd: 15, rs1: 16, imm: 0xFFFF_FAAA } => 0xAAA8_6793,
        Instr::Andi { rd: 17, rs1: 18, imm: 255 } => 0x0FF9_7893,
        Instr::Slli { rd: 19, rs1: 20, imm: 31 } => 0x01FA_1993,
        Instr::Srli { rd: 21, rs1: 22, imm: 1 } => 0x001B_5A93,
        Instr::Srai { rd: 23, rs1: 24, imm: 21 } => 0x415C_5B93,
        Instr::Add { rd: 1, rs1: 2, rs2: 3 } => 0x0031_00B3,
        Instr::Sub { rd: 4, rs1: 5, rs2: 6 } => 0x4062_8233,
        Instr::Sll { rd: 7, rs1: 8, rs2: 9 } => 0x0094_13B3,
        Instr::Slt { rd: 10, rs1: 11, rs2: 12 } => 0x00C5_A533,
        Instr::Sltu { rd: 13, rs1: 14, rs2: 15 } => 0x00F7_36B3,
        Instr::Xor { rd: 16, rs1: 17, rs2: 18 } => 0x0128_C833,
        Instr::Srl { rd: 19, rs1: 20, rs2: 21 } => 0x015A_59B3,
        Instr::Sra { rd: 22, rs1: 23, rs2: 24 } => 0x418B_DB33,
        Instr::Or { rd: 25, rs1: 26, rs2: 27 } => 0x01BD_6CB3,
        Instr::And { rd: 28, rs1: 29, rs2: 30 } => 0x01EE_FE33,
        Instr::Mul { rd: 31, rs1: 1, rs2: 2 } => 0x0220_8FB3,
        Instr::Mulh { rd: 3, rs1: 4, rs2: 5 } => 0x0252_11B3,
        Instr::Mulhsu { rd: 6, rs1: 7, rs2: 8 } => 0x0283_A333,
        Instr::Mulhu { rd: 9, rs1: 10, rs2: 11 } => 0x02B5_34B3,
        Instr::Div { rd: 12, rs1: 13, rs2: 14 } => 0x02E6_C633,
        Instr::Divu { rd: 15, rs1: 16, rs2: 17 } => 0x0318_57B3,
        Instr::Rem { rd: 18, rs1: 19, rs2: 20 } => 0x0349_E933,
        Instr::Remu { rd: 21, rs1: 22, rs2: 23 } => 0x037B_7AB3,
        Instr::Fence { rd: 0, rs1: 0, imm: 0x031 } => 0x0310_000F,
        Instr::Fence { rd: 0, rs1: 0, imm: 0x833 } => 0x8330_000F,
        Instr::Ecall => 0x0000_0073,
        Instr::Ebreak => 0x0010_0073,
        Instr::Addi { rd: 10, rs1: 0, imm: 42 } => 0x02A0_0513,
        Instr::Add { rd: 0, rs1: 11, rs2: 12 } => 0x00C5_8033,
        Instr::Mul { rd: 5, rs1: 6, rs2: 7 } => 0x0273_02B3,
        Instr::Lw { rd: 10, rs1: 2, imm: 0xFFFF_FFFC } => 0xFFC1_2503,
        Instr::Sw { rs1: 2, rs2: 10, imm: 8 } => 0x00A1_2423,
        Instr::Beq { rs1: 0, rs2: 0, imm: 0xFFFF_FFFC } => 0xFE00_0EE3,
        Instr::Jal { rd: 1, imm: 8 } => 0x0080_00EF,
        Instr::Jalr { rd: 0, rs1: 1, imm: 0 } => 0x0000_8067,
        Instr::Lui { rd: 0, imm: 0x0000_3000 } => 0x0000_3037,
    );
    for word in NO_INSTRUCTIONS {
        assert!(rt; decode(Word(word)).is_none(), "at {word}");
    }
    let li = Instr::Addi {
        rd: 10,
        rs1: 0,
        imm: 42,
    };
    assert_eq!(rt; encode(li), Word(0x02A0_0513));
}
