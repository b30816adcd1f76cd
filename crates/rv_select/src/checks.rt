//! The parts of the sequences that check pointers.
#![tactic(auto, using(crate::proofs::Emitted::emitted))]

ghost use Rattle.std.specs.Prelude.{◌≡◌, ◌+◌, ◌<◌, ◌≤◌, ◌^◌, ◌++◌, ◌∷◌, [], OnOk, IfOk};
ghost use Rattle.flat_code.specs.SequenceViews.{sequence_of};
ghost use Rattle.rv_asm.specs.declared.parts.Part.TheVariants.{Label, Branch};
ghost use Rattle.rv_code.specs.declared.instr.Instr.TheVariants.{Add, Lbu};
ghost use Rattle.rv_selected.specs.Steps.{plains};
ghost use Rattle.rv_selected.specs.Checks as checks;

use crate::emit::{after, load, put, put_all, put_constant, put_part, store};
use crate::steps::{addi, put_look, put_owner, put_report};
use bb_words::kinds::ReportKind;
use flat_code::emit::{LoadValues, SpanValues};
use flat_code::recognize::FlatSequence;
use rv_asm::parts::{BranchOp, Part};
use rv_code::instr::Instr;
use std::alloc::AllocError;

/// One more label.
pub fn put_label(parts: &mut Vec<Part>, label: u32) -> Result<(), AllocError>
    ensures { OnOk result (parts.new.items ≡ parts.old.items ++ Label label ∷ []) }
{
    put_part(parts, Part::Label(label))
}

/// One more branch.
pub fn put_branch(
    parts: &mut Vec<Part>,
    op: BranchOp,
    rs1: u8,
    rs2: u8,
    to: u32,
) -> Result<(), AllocError>
    ensures { OnOk result (parts.new.items ≡ parts.old.items ++ Branch op rs1 rs2 to ∷ []) }
{
    put_part(parts, Part::Branch { op, rs1, rs2, to })
}

/// A report, and the comparison of two registers that passes it by.
#[derive(Clone, Copy)]
struct Test {
    op: BranchOp,
    rs1: u8,
    rs2: u8,
    kind: ReportKind,
    line: u32,
}

fn put_unless(parts: &mut Vec<Part>, test: Test, label: u32) -> Result<(), AllocError>
    ensures { OnOk result (parts.new.items ≡ parts.old.items ++ checks.unless_parts test.op test.rs1 test.rs2 label test.kind test.line) }
{
    put_branch(parts, test.op, test.rs1, test.rs2, label)?;
    put_report(parts, test.kind, test.line)?;
    put_label(parts, label)
}

fn put_find_block(parts: &mut Vec<Part>, g: u8, pointer: u32) -> Result<(), AllocError>
    ensures { OnOk result (parts.new.items ≡ parts.old.items ++ plains (checks.find_block g pointer)) }
{
    put(parts, load(5, pointer))?;
    put_owner(parts, g)?;
    put_look(parts, 13, 7)
}

fn put_find_base(parts: &mut Vec<Part>, g: u8, pointer: u32) -> Result<(), AllocError>
    ensures { OnOk result (parts.new.items ≡ parts.old.items ++ plains (checks.find_base g pointer)) }
{
    let code = [
        Instr::Slli {
            rd: 7,
            rs1: 7,
            imm: g as u32,
        },
        Instr::Srl {
            rd: 7,
            rs1: 7,
            rs2: 13,
        },
        Instr::Sll {
            rd: 7,
            rs1: 7,
            rs2: 13,
        },
        addi(14, 0, 1),
        Instr::Sll {
            rd: 14,
            rs1: 14,
            rs2: 13,
        },
        load(5, pointer),
        Instr::Slli {
            rd: 16,
            rs1: 5,
            imm: 1,
        },
        Instr::Srli {
            rd: 16,
            rs1: 16,
            imm: 1,
        },
    ];
    put_all(parts, &code)
}

fn put_find_offset(
    parts: &mut Vec<Part>,
    g: u8,
    pointer: u32,
    distance: &[Instr],
) -> Result<(), AllocError>
    ensures { OnOk result (parts.new.items ≡ parts.old.items ++ plains (checks.find_offset g pointer distance.now)) }
{
    put_find_base(parts, g, pointer)?;
    put_all(parts, distance)?;
    let sum = Instr::Add {
        rd: 16,
        rs1: 16,
        rs2: 6,
    };
    let offset = Instr::Sub {
        rd: 15,
        rs1: 16,
        rs2: 7,
    };
    put_all(parts, &[sum, offset])
}

// An instruction that adds x6 to a register.
fn add_to(rd: u8) -> Instr
    ensures { result ≡ Add rd rd 6 }
{
    Instr::Add {
        rd,
        rs1: rd,
        rs2: 6,
    }
}

fn power(n: u8) -> u32
    requires { n ≤ 24 }
    ensures { result ≡ 2 ^ n }
{
    1u32 << n
}

fn put_widen(parts: &mut Vec<Part>, g: u8) -> Result<(), AllocError>
    requires { (1 ≤ g) × (g ≤ 24) }
    ensures { OnOk result (parts.new.items ≡ parts.old.items ++ plains (checks.widen g)) }
{
    put_constant(parts, 6, power(g - 1))?;
    put(parts, add_to(15))?;
    put_constant(parts, 6, power(g))?;
    put(parts, add_to(14))
}

fn put_mark(parts: &mut Vec<Part>) -> Result<(), AllocError>
    ensures { OnOk result (parts.new.items ≡ parts.old.items ++ plains checks.mark_code) }
{
    let bit = Instr::Lui {
        rd: 6,
        imm: 0x8000_0000,
    };
    let marked = Instr::Or {
        rd: 16,
        rs1: 16,
        rs2: 6,
    };
    put_all(parts, &[bit, marked])
}

fn put_move_end(parts: &mut Vec<Part>, pointer: u32, result_value: u32) -> Result<(), AllocError>
    ensures { OnOk result (parts.new.items ≡ parts.old.items ++ plains (checks.move_end pointer result_value)) }
{
    let told = Instr::Add {
        rd: 0,
        rs1: 5,
        rs2: 16,
    };
    put_all(parts, &[load(5, pointer), told, store(16, result_value)])
}

/// What a move is about: the word of a value, the value that it becomes, and the line of its report.
#[derive(Clone, Copy)]
struct Moved {
    pointer: u32,
    becomes: u32,
    line: u32,
}

#[tactic(auto, unfolding(rv_selected::specs::Checks::move_parts))]
fn put_move(
    parts: &mut Vec<Part>,
    g: u8,
    label: u32,
    moved: Moved,
    distance: &[Instr],
) -> Result<(), AllocError>
    requires { (1 ≤ g) × (g ≤ 24) }
    ensures { OnOk result (parts.new.items ≡ parts.old.items ++ checks.move_parts g label moved.pointer distance.now moved.becomes moved.line) }
{
    let near = after(label)?;
    let end = after(near)?;
    let (kind, line) = (ReportKind::Bounds, moved.line);
    put_find_block(parts, g, moved.pointer)?;
    let owned = Test {
        op: BranchOp::Bne,
        rs1: 13,
        rs2: 0,
        kind,
        line,
    };
    put_unless(parts, owned, label)?;
    put_find_offset(parts, g, moved.pointer, distance)?;
    put_branch(parts, BranchOp::Bltu, 15, 14, end)?;
    put_widen(parts, g)?;
    let beside = Test {
        op: BranchOp::Bltu,
        rs1: 15,
        rs2: 14,
        kind,
        line,
    };
    put_unless(parts, beside, near)?;
    put_mark(parts)?;
    put_label(parts, end)?;
    put_move_end(parts, moved.pointer, moved.becomes)?;
    Ok(())
}

fn put_load_begin(parts: &mut Vec<Part>, at: u32, to: u32) -> Result<(), AllocError>
    ensures { OnOk result (parts.new.items ≡ parts.old.items ++ plains (checks.load_begin at to)) }
{
    let word = Instr::Lw {
        rd: 5,
        rs1: 5,
        imm: 0,
    };
    put_all(parts, &[load(5, at), word, store(5, to)])
}

fn put_load_owner(parts: &mut Vec<Part>, g: u8, to: u32) -> Result<(), AllocError>
    requires { (1 ≤ g) × (g ≤ 24) }
    ensures { OnOk result (parts.new.items ≡ parts.old.items ++ plains (checks.load_owner g to)) }
{
    put(parts, load(5, to))?;
    put_owner(parts, g)?;
    put_constant(parts, 6, power(25 - g))
}

#[tactic(auto, unfolding(rv_selected::specs::Checks::load_parts))]
fn put_load(parts: &mut Vec<Part>, g: u8, label: u32, v: LoadValues) -> Result<(), AllocError>
    requires { (1 ≤ g) × (g ≤ 24) }
    ensures { OnOk result (parts.new.items ≡ parts.old.items ++ checks.load_parts g label v.to v.at v.line) }
{
    let end = after(label)?;
    let (kind, line) = (ReportKind::Pointer, v.line);
    put_load_begin(parts, v.at, v.to)?;
    put_branch(parts, BranchOp::Beq, 5, 0, end)?;
    put_load_owner(parts, g, v.to)?;
    let in_memory = Test {
        op: BranchOp::Bltu,
        rs1: 7,
        rs2: 6,
        kind,
        line,
    };
    put_unless(parts, in_memory, label)?;
    put_look(parts, 13, 7)?;
    let owned = Test {
        op: BranchOp::Bne,
        rs1: 13,
        rs2: 0,
        kind,
        line,
    };
    put_unless(parts, owned, end)
}

fn put_count(parts: &mut Vec<Part>, count: u32) -> Result<(), AllocError>
    ensures { OnOk result (parts.new.items ≡ parts.old.items ++ plains (checks.count_code count)) }
{
    put(parts, load(6, count))?;
    put_constant(parts, 7, 0x0100_0001)
}

fn byte_at(address: u8) -> Instr
    ensures { result ≡ Lbu 5 address 0 }
{
    Instr::Lbu {
        rd: 5,
        rs1: address,
        imm: 0,
    }
}

#[tactic(auto, unfolding(rv_selected::specs::Checks::span_parts))]
fn put_span(parts: &mut Vec<Part>, g: u8, label: u32, v: SpanValues) -> Result<(), AllocError>
    requires { (1 ≤ g) × (g ≤ 24) }
    ensures { OnOk result (parts.new.items ≡ parts.old.items ++ checks.span_parts g label v.pointer v.count v.last v.line) }
{
    let end = after(label)?;
    let third = after(end)?;
    put_count(parts, v.count)?;
    let few = Test {
        op: BranchOp::Bltu,
        rs1: 6,
        rs2: 7,
        kind: ReportKind::Bounds,
        line: v.line,
    };
    put_unless(parts, few, label)?;
    put_branch(parts, BranchOp::Beq, 6, 0, end)?;
    put_all(parts, &[load(5, v.pointer), byte_at(5)])?;
    let moved = Moved {
        pointer: v.pointer,
        becomes: v.last,
        line: v.line,
    };
    let distance = [load(6, v.count), addi(6, 6, 0xFFFF_FFFF)];
    put_move(parts, g, third, moved, &distance)?;
    put(parts, byte_at(16))?;
    put_label(parts, end)?;
    Ok(())
}

/// The parts of a sequence, with the labels from one on, for slots of 2^g bytes.
pub fn put_sequence(
    parts: &mut Vec<Part>,
    g: u8,
    label: u32,
    sequence: FlatSequence,
) -> Result<(), AllocError>
    requires { (1 ≤ g) × (g ≤ 24) }
    ensures { OnOk result (parts.new.items ≡ parts.old.items ++ checks.sequence_parts g label (sequence_of sequence)) }
{
    match sequence {
        FlatSequence::Move(v) => {
            let moved = Moved {
                pointer: v.pointer,
                becomes: v.result,
                line: v.line,
            };
            put_move(parts, g, label, moved, &[load(6, v.distance)])
        }
        FlatSequence::Load(v) => put_load(parts, g, label, v),
        FlatSequence::Span(v) => put_span(parts, g, label, v),
    }
}
