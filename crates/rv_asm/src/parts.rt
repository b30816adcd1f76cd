//! Code whose branches and jumps go to labels.
use bb_words::list::List;
use rv_code::instr::Instr;

/// The parts of a text, in order.
#[derive(Drop)]
pub struct Labelled {
    pub parts: List<Part>,
}

/// The words of a text, in order.
#[derive(Drop)]
pub struct TextWords {
    pub words: List<u32>,
}

/// The comparisons of branches, by the names of the RISC-V unprivileged manual.
#[derive(Clone, Copy, Debug, PartialEq, Eq)]
pub enum BranchOp {
    /// Both words are equal.
    Beq,
    /// The words differ.
    Bne,
    /// The first is below the second, both signed.
    Blt,
    /// The first is not below the second, both signed.
    Bge,
    /// The first is below the second, both unsigned.
    Bltu,
    /// The first is not below the second, both unsigned.
    Bgeu,
}

/// A part of a text.
#[derive(Clone, Copy)]
pub enum Part {
    /// One instruction.
    Plain(Instr),
    /// The place of the next part has this label.
    Label(u32),
    /// Goes to a label if registers `rs1` and `rs2` compare so.
    Branch {
        op: BranchOp,
        rs1: u8,
        rs2: u8,
        to: u32,
    },
    /// Goes to a label, and register `rd` gets the place behind this part.
    Jump {
        rd: u8,
        to: u32,
    },
}
