//! Texts for the tests of labels.
ghost use Rattle.std.specs.Prelude.{◌≡◌, ◌+◌, ◌≤◌, ◌∷◌, ◌++◌, [], replicate, vec_len, OnOk, IfOk};
ghost use Rattle.rv_asm.specs.Parts.{AreParts};
ghost use Rattle.machine_tests.specs.Around.{pass, around, GoesToAnEnd};

use bb_words::list::List;
use rv_asm::parts::{BranchOp, Labelled, Part};
use rv_code::instr::Instr;
use std::alloc::{AllocError, Global};

/// An instruction that does nothing.
const PASS: Part = Part::Plain(Instr::Addi {
    rd: 0,
    rs1: 0,
    imm: 0,
});

/// What a part at the edge does.
#[derive(Clone, Copy)]
pub enum End {
    /// Nothing.
    Pass,
    /// Goes to label 0 if x1 and x2 are equal.
    BranchBack,
    /// Goes to label 1 if x1 and x2 are equal.
    BranchAhead,
    /// Goes to label 0.
    JumpBack,
    /// Goes to label 1.
    JumpAhead,
}

impl End {
    /// The part that does so.
    pub fn part(self) -> Part
        ensures { GoesToAnEnd result }
    {
        match self {
            End::Pass => PASS,
            End::BranchBack => branch(0),
            End::BranchAhead => branch(1),
            End::JumpBack => Part::Jump { rd: 0, to: 0 },
            End::JumpAhead => Part::Jump { rd: 0, to: 1 },
        }
    }
}

fn branch(to: u32) -> Part
    requires { to ≤ 1 }
    ensures { GoesToAnEnd result }
{
    Part::Branch {
        op: BranchOp::Beq,
        rs1: 1,
        rs2: 2,
        to,
    }
}

/// Two parts with so many instructions before them, behind label 0, and so many behind them, before label 1.
pub fn around(
    alloc: Global,
    before: usize,
    first: Part,
    second: Part,
    behind: usize,
) -> Result<Labelled, AllocError>
    requires parts { GoesToAnEnd first × GoesToAnEnd second }
    requires size { before + behind ≤ 520000 }
    ensures is { IfOk result (λ labelled. labelled.parts ≡ around before first second behind) }
    ensures parts { IfOk result (λ labelled. AreParts labelled.parts) }
{
    let parts = parts_around(alloc, before, first, second, behind)?;
    Ok(Labelled {
        parts: List::from_vec(parts),
    })
}

fn parts_around(
    alloc: Global,
    before: usize,
    first: Part,
    second: Part,
    behind: usize,
) -> Result<Vec<Part>, AllocError>
    ensures { IfOk result (λ parts. parts.items ≡ around before first second behind) }
{
    let mut parts = Vec::new(alloc);
    parts.push(Part::Label(0))?;
    push_passes(alloc, &mut parts, before)?;
    parts.push(first)?;
    parts.push(second)?;
    push_passes(alloc, &mut parts, behind)?;
    parts.push(Part::Label(1))?;
    Ok(parts)
}

fn push_passes(alloc: Global, parts: &mut Vec<Part>, count: usize) -> Result<(), AllocError>
    ensures { OnOk result (parts.new.items ≡ parts.old.items ++ replicate count pass) }
{
    let passes = vec![in alloc; PASS; count]?;
    parts.extend_from_slice(&passes)
}
