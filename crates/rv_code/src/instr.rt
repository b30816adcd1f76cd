//! The instructions of RV32IM.

/// An instruction of RV32I or of its extension M, by the names of the RISC-V unprivileged manual.
///
/// `rd`, `rs1` and `rs2` are numbers of registers, below 32. `imm` is a word that is sign-extended
/// already, so -4 is `0xFFFF_FFFC`: it is added to `rs1` by an access or a jump to a register, to
/// the address of the instruction by another jump or a branch, or is the second operand. What is
/// other than that is said at the variant.
#[derive(Clone, Copy)]
pub enum Instr {
    /// `rd` becomes `imm`, a multiple of 2^12.
    Lui { rd: u8, imm: u32 },
    /// `rd` becomes the address of this instruction plus `imm`, a multiple of 2^12.
    Auipc { rd: u8, imm: u32 },

    /// `rd` becomes the address of the next instruction, and `imm`, which is even, is added to that
    /// of this one.
    Jal { rd: u8, imm: u32 },
    /// `rd` becomes the address of the next instruction, and the sum of `rs1` and `imm`, with bit 0
    /// cleared, is jumped to.
    Jalr { rd: u8, rs1: u8, imm: u32 },

    /// Adds `imm`, which is even, to the address of this instruction if `rs1` and `rs2` are equal.
    Beq { rs1: u8, rs2: u8, imm: u32 },
    /// As `Beq`, if they differ.
    Bne { rs1: u8, rs2: u8, imm: u32 },
    /// As `Beq`, if `rs1` is below `rs2`, both signed.
    Blt { rs1: u8, rs2: u8, imm: u32 },
    /// As `Beq`, if `rs1` is not below `rs2`, both signed.
    Bge { rs1: u8, rs2: u8, imm: u32 },
    /// As `Beq`, if `rs1` is below `rs2`, both unsigned.
    Bltu { rs1: u8, rs2: u8, imm: u32 },
    /// As `Beq`, if `rs1` is not below `rs2`, both unsigned.
    Bgeu { rs1: u8, rs2: u8, imm: u32 },

    /// Loads a byte at `rs1` plus `imm`, and extends its sign.
    Lb { rd: u8, rs1: u8, imm: u32 },
    /// Loads two bytes, and extends their sign.
    Lh { rd: u8, rs1: u8, imm: u32 },
    /// Loads a word.
    Lw { rd: u8, rs1: u8, imm: u32 },
    /// Loads a byte, and fills with zeros.
    Lbu { rd: u8, rs1: u8, imm: u32 },
    /// Loads two bytes, and fills with zeros.
    Lhu { rd: u8, rs1: u8, imm: u32 },

    /// Stores the lowest byte of `rs2` at `rs1` plus `imm`.
    Sb { rs1: u8, rs2: u8, imm: u32 },
    /// Stores the lowest two bytes of `rs2`.
    Sh { rs1: u8, rs2: u8, imm: u32 },
    /// Stores the word `rs2`.
    Sw { rs1: u8, rs2: u8, imm: u32 },

    /// The sum.
    Addi { rd: u8, rs1: u8, imm: u32 },
    /// 1 if `rs1` is below `imm`, both signed, and else 0.
    Slti { rd: u8, rs1: u8, imm: u32 },
    /// 1 if `rs1` is below `imm`, both unsigned, and else 0.
    Sltiu { rd: u8, rs1: u8, imm: u32 },
    /// The exclusive or.
    Xori { rd: u8, rs1: u8, imm: u32 },
    /// The or.
    Ori { rd: u8, rs1: u8, imm: u32 },
    /// The and.
    Andi { rd: u8, rs1: u8, imm: u32 },
    /// `rs1` shifted left by `imm`, which is below 32.
    Slli { rd: u8, rs1: u8, imm: u32 },
    /// `rs1` shifted right by `imm`, which is below 32, and filled with zeros.
    Srli { rd: u8, rs1: u8, imm: u32 },
    /// `rs1` shifted right by `imm`, which is below 32, and filled with its sign.
    Srai { rd: u8, rs1: u8, imm: u32 },

    /// The sum.
    Add { rd: u8, rs1: u8, rs2: u8 },
    /// The difference.
    Sub { rd: u8, rs1: u8, rs2: u8 },
    /// `rs1` shifted left.
    Sll { rd: u8, rs1: u8, rs2: u8 },
    /// 1 if `rs1` is below `rs2`, both signed, and else 0.
    Slt { rd: u8, rs1: u8, rs2: u8 },
    /// 1 if `rs1` is below `rs2`, both unsigned, and else 0.
    Sltu { rd: u8, rs1: u8, rs2: u8 },
    /// The exclusive or.
    Xor { rd: u8, rs1: u8, rs2: u8 },
    /// `rs1` shifted right, and filled with zeros.
    Srl { rd: u8, rs1: u8, rs2: u8 },
    /// `rs1` shifted right, and filled with its sign.
    Sra { rd: u8, rs1: u8, rs2: u8 },
    /// The or.
    Or { rd: u8, rs1: u8, rs2: u8 },
    /// The and.
    And { rd: u8, rs1: u8, rs2: u8 },

    /// The lower word of the product.
    Mul { rd: u8, rs1: u8, rs2: u8 },
    /// The upper word of the product of two signed words.
    Mulh { rd: u8, rs1: u8, rs2: u8 },
    /// The upper word of the product of `rs1`, signed, and `rs2`, unsigned.
    Mulhsu { rd: u8, rs1: u8, rs2: u8 },
    /// The upper word of the product of two unsigned words.
    Mulhu { rd: u8, rs1: u8, rs2: u8 },
    /// The signed quotient.
    Div { rd: u8, rs1: u8, rs2: u8 },
    /// The unsigned quotient.
    Divu { rd: u8, rs1: u8, rs2: u8 },
    /// The signed remainder.
    Rem { rd: u8, rs1: u8, rs2: u8 },
    /// The unsigned remainder.
    Remu { rd: u8, rs1: u8, rs2: u8 },

    /// Orders memory accesses, which has no effect on one processor. `imm` has the 12 bits that say
    /// which accesses; they, `rd` and `rs1` are kept as they stand.
    Fence { rd: u8, rs1: u8, imm: u32 },
    /// Calls the environment.
    Ecall,
    /// Stops for a debugger.
    Ebreak,
}
