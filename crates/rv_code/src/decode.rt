//! Words to instructions.
ghost use Rattle.std.specs.Prelude.{◌≡◌, ◌≢◌, IfSome, IfNone};
ghost use Rattle.rv_code.specs.declared.instr.Instr.{Instr};
ghost use Rattle.rv_code.specs.Code.{Fits, Encodes, word_of, instruction_of, system_row};

use crate::fields::{
    funct3, funct7, funct12, immediate_b, immediate_i, immediate_j, immediate_s, immediate_u,
    opcode, rd, rs1, rs2,
};
use crate::instr::Instr;
use bb_words::word::Word;

/// The instruction of a word, or `None` where the word is that of no instruction whose fields fit.
///
/// It is the inverse of `encode`.
#[inline(always)]
pub fn decode(word: Word) -> Option<Instr>
    ensures value { result ≡ instruction_of word.0 }
    ensures found { IfSome result (Encodes word.0) }
    ensures none { IfNone result ((instr : Instr) → Fits instr → word_of instr ≢ word.0) }
{
    instruction(word.0)
}

/// The instruction of a word, a row for each.
#[inline(always)]
#[tactic(auto, unfolding(crate::specs::Code::instruction_of))]
fn instruction(word: u32) -> Option<Instr>
    ensures { result ≡ instruction_of word }
{
    let opcode = opcode(word);
    if opcode % 4 != 3 {
        return None;
    }
    // A row for each instruction, by bits 6 to 2 of its opcode and funct3 in one number, which one jump finds.
    match (opcode / 4 * 8 + funct3(word), funct7(word)) {
        (0b01101_000..=0b01101_111, _) => Some(Instr::Lui {
            rd: rd(word),
            imm: immediate_u(word),
        }),
        (0b00101_000..=0b00101_111, _) => Some(Instr::Auipc {
            rd: rd(word),
            imm: immediate_u(word),
        }),
        (0b11011_000..=0b11011_111, _) => Some(Instr::Jal {
            rd: rd(word),
            imm: immediate_j(word),
        }),
        (0b11001_000, _) => Some(Instr::Jalr {
            rd: rd(word),
            rs1: rs1(word),
            imm: immediate_i(word),
        }),
        (0b11000_000, _) => Some(Instr::Beq {
            rs1: rs1(word),
            rs2: rs2(word),
            imm: immediate_b(word),
        }),
        (0b11000_001, _) => Some(Instr::Bne {
            rs1: rs1(word),
            rs2: rs2(word),
            imm: immediate_b(word),
        }),
        (0b11000_100, _) => Some(Instr::Blt {
            rs1: rs1(word),
            rs2: rs2(word),
            imm: immediate_b(word),
        }),
        (0b11000_101, _) => Some(Instr::Bge {
            rs1: rs1(word),
            rs2: rs2(word),
            imm: immediate_b(word),
        }),
        (0b11000_110, _) => Some(Instr::Bltu {
            rs1: rs1(word),
            rs2: rs2(word),
            imm: immediate_b(word),
        }),
        (0b11000_111, _) => Some(Instr::Bgeu {
            rs1: rs1(word),
            rs2: rs2(word),
            imm: immediate_b(word),
        }),
        (0b00000_000, _) => Some(Instr::Lb {
            rd: rd(word),
            rs1: rs1(word),
            imm: immediate_i(word),
        }),
        (0b00000_001, _) => Some(Instr::Lh {
            rd: rd(word),
            rs1: rs1(word),
            imm: immediate_i(word),
        }),
        (0b00000_010, _) => Some(Instr::Lw {
            rd: rd(word),
            rs1: rs1(word),
            imm: immediate_i(word),
        }),
        (0b00000_100, _) => Some(Instr::Lbu {
            rd: rd(word),
            rs1: rs1(word),
            imm: immediate_i(word),
        }),
        (0b00000_101, _) => Some(Instr::Lhu {
            rd: rd(word),
            rs1: rs1(word),
            imm: immediate_i(word),
        }),
        (0b01000_000, _) => Some(Instr::Sb {
            rs1: rs1(word),
            rs2: rs2(word),
            imm: immediate_s(word),
        }),
        (0b01000_001, _) => Some(Instr::Sh {
            rs1: rs1(word),
            rs2: rs2(word),
            imm: immediate_s(word),
        }),
        (0b01000_010, _) => Some(Instr::Sw {
            rs1: rs1(word),
            rs2: rs2(word),
            imm: immediate_s(word),
        }),
        (0b00100_000, _) => Some(Instr::Addi {
            rd: rd(word),
            rs1: rs1(word),
            imm: immediate_i(word),
        }),
        (0b00100_010, _) => Some(Instr::Slti {
            rd: rd(word),
            rs1: rs1(word),
            imm: immediate_i(word),
        }),
        (0b00100_011, _) => Some(Instr::Sltiu {
            rd: rd(word),
            rs1: rs1(word),
            imm: immediate_i(word),
        }),
        (0b00100_100, _) => Some(Instr::Xori {
            rd: rd(word),
            rs1: rs1(word),
            imm: immediate_i(word),
        }),
        (0b00100_110, _) => Some(Instr::Ori {
            rd: rd(word),
            rs1: rs1(word),
            imm: immediate_i(word),
        }),
        (0b00100_111, _) => Some(Instr::Andi {
            rd: rd(word),
            rs1: rs1(word),
            imm: immediate_i(word),
        }),
        (0b00100_001, 0b000_0000) => Some(Instr::Slli {
            rd: rd(word),
            rs1: rs1(word),
            imm: rs2(word) as u32,
        }),
        (0b00100_101, 0b000_0000) => Some(Instr::Srli {
            rd: rd(word),
            rs1: rs1(word),
            imm: rs2(word) as u32,
        }),
        (0b00100_101, 0b010_0000) => Some(Instr::Srai {
            rd: rd(word),
            rs1: rs1(word),
            imm: rs2(word) as u32,
        }),
        (0b01100_000, 0b000_0000) => Some(Instr::Add {
            rd: rd(word),
            rs1: rs1(word),
            rs2: rs2(word),
        }),
        (0b01100_001, 0b000_0000) => Some(Instr::Sll {
            rd: rd(word),
            rs1: rs1(word),
            rs2: rs2(word),
        }),
        (0b01100_010, 0b000_0000) => Some(Instr::Slt {
            rd: rd(word),
            rs1: rs1(word),
            rs2: rs2(word),
        }),
        (0b01100_011, 0b000_0000) => Some(Instr::Sltu {
            rd: rd(word),
            rs1: rs1(word),
            rs2: rs2(word),
        }),
        (0b01100_100, 0b000_0000) => Some(Instr::Xor {
            rd: rd(word),
            rs1: rs1(word),
            rs2: rs2(word),
        }),
        (0b01100_101, 0b000_0000) => Some(Instr::Srl {
            rd: rd(word),
            rs1: rs1(word),
            rs2: rs2(word),
        }),
        (0b01100_110, 0b000_0000) => Some(Instr::Or {
            rd: rd(word),
            rs1: rs1(word),
            rs2: rs2(word),
        }),
        (0b01100_111, 0b000_0000) => Some(Instr::And {
            rd: rd(word),
            rs1: rs1(word),
            rs2: rs2(word),
        }),
        (0b01100_000, 0b010_0000) => Some(Instr::Sub {
            rd: rd(word),
            rs1: rs1(word),
            rs2: rs2(word),
        }),
        (0b01100_101, 0b010_0000) => Some(Instr::Sra {
            rd: rd(word),
            rs1: rs1(word),
            rs2: rs2(word),
        }),
        (0b01100_000, 0b000_0001) => Some(Instr::Mul {
            rd: rd(word),
            rs1: rs1(word),
            rs2: rs2(word),
        }),
        (0b01100_001, 0b000_0001) => Some(Instr::Mulh {
            rd: rd(word),
            rs1: rs1(word),
            rs2: rs2(word),
        }),
        (0b01100_010, 0b000_0001) => Some(Instr::Mulhsu {
            rd: rd(word),
            rs1: rs1(word),
            rs2: rs2(word),
        }),
        (0b01100_011, 0b000_0001) => Some(Instr::Mulhu {
            rd: rd(word),
            rs1: rs1(word),
            rs2: rs2(word),
        }),
        (0b01100_100, 0b000_0001) => Some(Instr::Div {
            rd: rd(word),
            rs1: rs1(word),
            rs2: rs2(word),
        }),
        (0b01100_101, 0b000_0001) => Some(Instr::Divu {
            rd: rd(word),
            rs1: rs1(word),
            rs2: rs2(word),
        }),
        (0b01100_110, 0b000_0001) => Some(Instr::Rem {
            rd: rd(word),
            rs1: rs1(word),
            rs2: rs2(word),
        }),
        (0b01100_111, 0b000_0001) => Some(Instr::Remu {
            rd: rd(word),
            rs1: rs1(word),
            rs2: rs2(word),
        }),
        (0b00011_000, _) => Some(Instr::Fence {
            rd: rd(word),
            rs1: rs1(word),
            imm: funct12(word),
        }),
        (0b11100_000..=0b11100_111, _) => system(word),
        _ => None,
    }
}

/// An instruction of the opcode SYSTEM.
#[inline(always)]
fn system(word: u32) -> Option<Instr>
    ensures { result ≡ system_row word }
{
    match word {
        0x0000_0073 => Some(Instr::Ecall),
        0x0010_0073 => Some(Instr::Ebreak),
        _ => None,
    }
}
