//! The words of a part.
ghost use Rattle.std.specs.Prelude.{◌≡◌, ◌<◌, ◌≤◌, ◌%◌, ◌^◌, ◌++◌, ◌∷◌, [], map, OnOk, All};
ghost use Rattle.rv_code.specs.Formats.{IsRegister};
ghost use Rattle.rv_code.specs.Code.{Fits, word_of};
ghost use Rattle.rv_machine.specs.Formed.{IsWord};
ghost use Rattle.rv_asm.specs.Parts.{FitsPart};
ghost use Rattle.rv_asm.specs.Text.{distance, branch_of, inverse, skip_over, upper_part, lower_part, jump_code, branch_code, words_of};
ghost use Rattle.rv_asm.specs.Resolving.{IsPlace};

use crate::code::{BRANCH_REACH, JUMP_REACH, is_in_reach};
use crate::parts::{BranchOp, Part};
use rv_code::encode::encode;
use rv_code::instr::Instr;
use std::alloc::AllocError;

/// The register that a long jump uses.
const SCRATCH: u8 = 5;

/// The words of a part at a place, which goes to another if it is a branch or a jump, at the end of a text.
pub(crate) fn push_part(text: &mut Vec<u32>, part: Part, at: u32, to: u32) -> Result<(), AllocError>
    requires fits { FitsPart part }
    requires places { IsPlace at × IsPlace to }
    ensures text { OnOk result (text.new.items ≡ text.old.items ++ words_of part at to) }
    ensures words { All IsWord text.old.items → All IsWord text.new.items }
{
    match part {
        Part::Plain(instr) => push_instr(text, instr),
        Part::Label(_) => Ok(()),
        Part::Branch { op, rs1, rs2, .. } => push_branch(text, op, rs1, rs2, at, to),
        Part::Jump { rd, .. } => push_jump(text, rd, at, to),
    }
}

fn push_instr(text: &mut Vec<u32>, instr: Instr) -> Result<(), AllocError>
    requires { Fits instr }
    ensures text { OnOk result (text.new.items ≡ text.old.items ++ word_of instr ∷ []) }
    ensures words { All IsWord text.old.items → All IsWord text.new.items }
{
    let word = encode(instr).0;
    text.push(word)?;
    Ok(())
}

// The branch itself where it reaches, or else its inverse over a jump.
fn push_branch(
    text: &mut Vec<u32>,
    op: BranchOp,
    rs1: u8,
    rs2: u8,
    at: u32,
    to: u32,
) -> Result<(), AllocError>
    requires registers { IsRegister rs1 × IsRegister rs2 }
    requires places { IsPlace at × IsPlace to }
    ensures text { OnOk result (text.new.items ≡ text.old.items ++ map word_of (branch_code op rs1 rs2 at to)) }
    ensures words { All IsWord text.old.items → All IsWord text.new.items }
{
    if is_in_reach(BRANCH_REACH, at, to) {
        return push_instr(text, branch_of(op, rs1, rs2, distance(at, to)));
    }
    push_instr(text, branch_of(inverse(op), rs1, rs2, skip_over(at, to)))?;
    push_jump(text, 0, at + 4, to)
}

// JAL where it reaches, or else AUIPC and JALR.
fn push_jump(text: &mut Vec<u32>, rd: u8, at: u32, to: u32) -> Result<(), AllocError>
    requires register { IsRegister rd }
    requires place { (at ≤ 2097156) × (at % 4 ≡ 0) }
    requires to { IsPlace to }
    ensures text { OnOk result (text.new.items ≡ text.old.items ++ map word_of (jump_code rd at to)) }
    ensures words { All IsWord text.old.items → All IsWord text.new.items }
{
    let imm = distance(at, to);
    if is_in_reach(JUMP_REACH, at, to) {
        return push_instr(text, Instr::Jal { rd, imm });
    }
    let upper = Instr::Auipc {
        rd: SCRATCH,
        imm: upper_part(imm),
    };
    let lower = Instr::Jalr {
        rd,
        rs1: SCRATCH,
        imm: lower_part(imm),
    };
    push_instr(text, upper)?;
    push_instr(text, lower)
}

// How far it is over a branch and a jump.
fn skip_over(at: u32, to: u32) -> u32
    requires { (at ≤ 2097152) × (to ≤ 2097152) }
    ensures { result ≡ skip_over at to }
{
    if is_in_reach(JUMP_REACH, at + 4, to) {
        8
    } else {
        12
    }
}

// The distance as a word.
fn distance(at: u32, to: u32) -> u32
    requires { at ≤ 2097156 }
    ensures { result ≡ distance at to }
{
    to.wrapping_sub(at)
}

// A distance in two parts: a multiple of 2^12, and the rest as 12 bits with a sign.
fn upper_part(distance: u32) -> u32
    ensures { result ≡ upper_part distance }
{
    distance.wrapping_add(0x800) / 0x1000 * 0x1000
}

fn lower_part(distance: u32) -> u32
    ensures { result ≡ lower_part distance }
{
    let low = distance % 0x1000;
    if low < 0x800 { low } else { low + 0xFFFF_F000 }
}

fn branch_of(op: BranchOp, rs1: u8, rs2: u8, imm: u32) -> Instr
    ensures { result ≡ branch_of op rs1 rs2 imm }
{
    match op {
        BranchOp::Beq => Instr::Beq { rs1, rs2, imm },
        BranchOp::Bne => Instr::Bne { rs1, rs2, imm },
        BranchOp::Blt => Instr::Blt { rs1, rs2, imm },
        BranchOp::Bge => Instr::Bge { rs1, rs2, imm },
        BranchOp::Bltu => Instr::Bltu { rs1, rs2, imm },
        BranchOp::Bgeu => Instr::Bgeu { rs1, rs2, imm },
    }
}

// The branch that is taken where the other is not.
fn inverse(op: BranchOp) -> BranchOp
    ensures { result ≡ inverse op }
{
    match op {
        BranchOp::Beq => BranchOp::Bne,
        BranchOp::Bne => BranchOp::Beq,
        BranchOp::Blt => BranchOp::Bge,
        BranchOp::Bge => BranchOp::Blt,
        BranchOp::Bltu => BranchOp::Bgeu,
        BranchOp::Bgeu => BranchOp::Bltu,
    }
}
