//! Instructions to words.
ghost use Rattle.std.specs.Prelude.{◌≡◌, ◌<◌, ◌≤◌, ◌^◌, ◌*◌, ◌+◌, ◌/◌, ◌%◌, ◌-◌};
ghost use Rattle.rv_code.specs.Formats.{RType, IType, SType, BType, UType, JType, PlainType, format_word};
ghost use Rattle.rv_code.specs.Code.{Fits, word_of, instruction_of};

use crate::fields::{bit, bits};
use crate::instr::Instr;
use crate::opcodes::{AUIPC, BRANCH, JAL, JALR, LOAD, LUI, MISC_MEM, OP, OP_IMM, STORE};
use bb_words::word::Word;

/// The word of an instruction whose registers are below 32 and whose immediate fits.
///
/// `decode` is its inverse.
pub fn encode(instr: Instr) -> Word
    requires { Fits instr }
    ensures word { result.0 ≡ word_of instr }
    ensures inverse { instruction_of result.0 ≡ Some instr }
{
    Word(instruction_word(instr))
}

/// The word of an instruction, in the order of the manual's listing.
fn instruction_word(instr: Instr) -> u32
    requires { Fits instr }
    ensures { result ≡ word_of instr }
{
    match instr {
        Instr::Lui { rd, imm } => u_word(imm, rd, LUI),
        Instr::Auipc { rd, imm } => u_word(imm, rd, AUIPC),
        Instr::Jal { rd, imm } => j_word(imm, rd, JAL),
        Instr::Jalr { rd, rs1, imm } => i_word(imm, rs1, 0b000, rd, JALR),
        Instr::Beq { rs1, rs2, imm } => b_word(imm, rs2, rs1, 0b000, BRANCH),
        Instr::Bne { rs1, rs2, imm } => b_word(imm, rs2, rs1, 0b001, BRANCH),
        Instr::Blt { rs1, rs2, imm } => b_word(imm, rs2, rs1, 0b100, BRANCH),
        Instr::Bge { rs1, rs2, imm } => b_word(imm, rs2, rs1, 0b101, BRANCH),
        Instr::Bltu { rs1, rs2, imm } => b_word(imm, rs2, rs1, 0b110, BRANCH),
        Instr::Bgeu { rs1, rs2, imm } => b_word(imm, rs2, rs1, 0b111, BRANCH),
        Instr::Lb { rd, rs1, imm } => i_word(imm, rs1, 0b000, rd, LOAD),
        Instr::Lh { rd, rs1, imm } => i_word(imm, rs1, 0b001, rd, LOAD),
        Instr::Lw { rd, rs1, imm } => i_word(imm, rs1, 0b010, rd, LOAD),
        Instr::Lbu { rd, rs1, imm } => i_word(imm, rs1, 0b100, rd, LOAD),
        Instr::Lhu { rd, rs1, imm } => i_word(imm, rs1, 0b101, rd, LOAD),
        Instr::Sb { rs1, rs2, imm } => s_word(imm, rs2, rs1, 0b000, STORE),
        Instr::Sh { rs1, rs2, imm } => s_word(imm, rs2, rs1, 0b001, STORE),
        Instr::Sw { rs1, rs2, imm } => s_word(imm, rs2, rs1, 0b010, STORE),
        Instr::Addi { rd, rs1, imm } => i_word(imm, rs1, 0b000, rd, OP_IMM),
        Instr::Slti { rd, rs1, imm } => i_word(imm, rs1, 0b010, rd, OP_IMM),
        Instr::Sltiu { rd, rs1, imm } => i_word(imm, rs1, 0b011, rd, OP_IMM),
        Instr::Xori { rd, rs1, imm } => i_word(imm, rs1, 0b100, rd, OP_IMM),
        Instr::Ori { rd, rs1, imm } => i_word(imm, rs1, 0b110, rd, OP_IMM),
        Instr::Andi { rd, rs1, imm } => i_word(imm, rs1, 0b111, rd, OP_IMM),
        Instr::Slli { rd, rs1, imm } => r_word(0b000_0000, imm as u8, rs1, 0b001, rd, OP_IMM),
        Instr::Srli { rd, rs1, imm } => r_word(0b000_0000, imm as u8, rs1, 0b101, rd, OP_IMM),
        Instr::Srai { rd, rs1, imm } => r_word(0b010_0000, imm as u8, rs1, 0b101, rd, OP_IMM),
        Instr::Add { rd, rs1, rs2 } => r_word(0b000_0000, rs2, rs1, 0b000, rd, OP),
        Instr::Sub { rd, rs1, rs2 } => r_word(0b010_0000, rs2, rs1, 0b000, rd, OP),
        Instr::Sll { rd, rs1, rs2 } => r_word(0b000_0000, rs2, rs1, 0b001, rd, OP),
        Instr::Slt { rd, rs1, rs2 } => r_word(0b000_0000, rs2, rs1, 0b010, rd, OP),
        Instr::Sltu { rd, rs1, rs2 } => r_word(0b000_0000, rs2, rs1, 0b011, rd, OP),
        Instr::Xor { rd, rs1, rs2 } => r_word(0b000_0000, rs2, rs1, 0b100, rd, OP),
        Instr::Srl { rd, rs1, rs2 } => r_word(0b000_0000, rs2, rs1, 0b101, rd, OP),
        Instr::Sra { rd, rs1, rs2 } => r_word(0b010_0000, rs2, rs1, 0b101, rd, OP),
        Instr::Or { rd, rs1, rs2 } => r_word(0b000_0000, rs2, rs1, 0b110, rd, OP),
        Instr::And { rd, rs1, rs2 } => r_word(0b000_0000, rs2, rs1, 0b111, rd, OP),
        Instr::Mul { rd, rs1, rs2 } => r_word(0b000_0001, rs2, rs1, 0b000, rd, OP),
        Instr::Mulh { rd, rs1, rs2 } => r_word(0b000_0001, rs2, rs1, 0b001, rd, OP),
        Instr::Mulhsu { rd, rs1, rs2 } => r_word(0b000_0001, rs2, rs1, 0b010, rd, OP),
        Instr::Mulhu { rd, rs1, rs2 } => r_word(0b000_0001, rs2, rs1, 0b011, rd, OP),
        Instr::Div { rd, rs1, rs2 } => r_word(0b000_0001, rs2, rs1, 0b100, rd, OP),
        Instr::Divu { rd, rs1, rs2 } => r_word(0b000_0001, rs2, rs1, 0b101, rd, OP),
        Instr::Rem { rd, rs1, rs2 } => r_word(0b000_0001, rs2, rs1, 0b110, rd, OP),
        Instr::Remu { rd, rs1, rs2 } => r_word(0b000_0001, rs2, rs1, 0b111, rd, OP),
        Instr::Fence { rd, rs1, imm } => plain_word(imm, rs1, 0b000, rd, MISC_MEM),
        Instr::Ecall => 0x0000_0073,
        Instr::Ebreak => 0x0010_0073,
    }
}

/// The word of an instruction of the R format.
fn r_word(funct7: u32, rs2: u8, rs1: u8, funct3: u32, rd: u8, opcode: u32) -> u32
    requires funct { (funct7 < 128) × (funct3 < 8) × (opcode < 128) }
    requires registers { (rs2 < 32) × (rs1 < 32) × (rd < 32) }
    ensures { result ≡ format_word (RType funct7 rs2 rs1 funct3 rd opcode) }
{
    (funct7 << 25)
        + ((rs2 as u32) << 20)
        + ((rs1 as u32) << 15)
        + (funct3 << 12)
        + ((rd as u32) << 7)
        + opcode
}

/// The word of an instruction whose highest 12 bits are no number.
fn plain_word(funct12: u32, rs1: u8, funct3: u32, rd: u8, opcode: u32) -> u32
    requires funct { (funct12 < 4096) × (funct3 < 8) × (opcode < 128) }
    requires registers { (rs1 < 32) × (rd < 32) }
    ensures { result ≡ format_word (PlainType funct12 rs1 funct3 rd opcode) }
{
    (funct12 << 20) + ((rs1 as u32) << 15) + (funct3 << 12) + ((rd as u32) << 7) + opcode
}

/// The word of an instruction of the I format.
fn i_word(imm: u32, rs1: u8, funct3: u32, rd: u8, opcode: u32) -> u32
    requires funct { (funct3 < 8) × (opcode < 128) }
    requires registers { (rs1 < 32) × (rd < 32) }
    ensures { result ≡ format_word (IType imm rs1 funct3 rd opcode) }
{
    plain_word(bits(imm, 11, 0), rs1, funct3, rd, opcode)
}

/// The word of an instruction of the S format.
fn s_word(imm: u32, rs2: u8, rs1: u8, funct3: u32, opcode: u32) -> u32
    requires funct { (funct3 < 8) × (opcode < 128) }
    requires registers { (rs2 < 32) × (rs1 < 32) }
    ensures { result ≡ format_word (SType imm rs2 rs1 funct3 opcode) }
{
    let low = bits(imm, 4, 0) as u8;
    r_word(bits(imm, 11, 5), rs2, rs1, funct3, low, opcode)
}

/// The word of an instruction of the B format.
fn b_word(imm: u32, rs2: u8, rs1: u8, funct3: u32, opcode: u32) -> u32
    requires funct { (funct3 < 8) × (opcode < 128) }
    requires registers { (rs2 < 32) × (rs1 < 32) }
    ensures { result ≡ format_word (BType imm rs2 rs1 funct3 opcode) }
{
    let high = (bit(imm, 12) << 6) + bits(imm, 10, 5);
    let low = (bits(imm, 4, 1) << 1) + bit(imm, 11);
    r_word(high, rs2, rs1, funct3, low as u8, opcode)
}

/// The word of an instruction of the U format.
fn u_word(imm: u32, rd: u8, opcode: u32) -> u32
    requires funct { opcode < 128 }
    requires registers { rd < 32 }
    ensures { result ≡ format_word (UType imm rd opcode) }
{
    (bits(imm, 31, 12) << 12) + ((rd as u32) << 7) + opcode
}

/// The word of an instruction of the J format.
fn j_word(imm: u32, rd: u8, opcode: u32) -> u32
    requires funct { opcode < 128 }
    requires registers { rd < 32 }
    ensures { result ≡ format_word (JType imm rd opcode) }
{
    (bit(imm, 20) << 31)
        + (bits(imm, 10, 1) << 21)
        + (bit(imm, 11) << 20)
        + (bits(imm, 19, 12) << 12)
        + ((rd as u32) << 7)
        + opcode
}
