//! The instructions of steps that have no steps in them.
#![tactic(auto, using(crate::proofs::Emitted::emitted))]

ghost use Rattle.std.specs.Prelude.{◌≡◌, ◌++◌, ◌∷◌, [], OnOk, slice_index};
ghost use Rattle.flat_code.specs.CodeViews.{step_of};
ghost use Rattle.rv_asm.specs.declared.parts.Part.TheVariants.{Plain, Jump};
ghost use Rattle.rv_code.specs.declared.instr.Instr.TheVariants.{Addi};
ghost use Rattle.rv_selected.specs.Registers as layout;
ghost use Rattle.rv_selected.specs.Steps as code;
ghost use Rattle.rv_selected.specs.Steps.{plains};

use crate::emit::{is_short, load, put, put_all, put_constant, put_part, store};
use bb_words::kinds::ReportKind;
use bb_words::steps::{ArithOp, Width};
use flat_code::code::FlatStep;
use rv_asm::parts::Part;
use rv_code::instr::Instr;
use std::alloc::AllocError;

/// A value in x5; nothing is loaded where x5 is known to hold it.
pub fn put_fetch(parts: &mut Vec<Part>, known: Option<u32>, value: u32) -> Result<(), AllocError>
    ensures { OnOk result (parts.new.items ≡ parts.old.items ++ plains (code.fetch known value)) }
{
    match known {
        None => put(parts, load(5, value)),
        Some(held) => {
            if held == value {
                return Ok(());
            }
            put(parts, load(5, value))
        }
    }
}

/// Which value x5 holds after a step, by what it held before.
#[tactic(auto, using(flat_code::proofs::CodeViewed::flat_views))]
pub fn held_after(known: Option<u32>, step: &FlatStep) -> Option<u32>
    ensures { result ≡ code.held_after known (step_of step.now) }
{
    match step {
        FlatStep::Number { to, value } => { if value.0 == 0 { None } else { Some(*to) } }
        FlatStep::Same { to, from: _ } => Some(*to),
        FlatStep::Arith {
            to,
            op: _,
            left: _,
            right: _,
        } => Some(*to),
        FlatStep::Look { to, slot: _ } => Some(*to),
        FlatStep::FrameAt { to, offset: _ } => Some(*to),
        FlatStep::Load {
            to,
            at: _,
            width: _,
        } => Some(*to),
        FlatStep::LineMark { line: _ } => known,
        _ => None,
    }
}

fn put_operation(parts: &mut Vec<Part>, op: ArithOp) -> Result<(), AllocError>
    ensures { OnOk result (parts.new.items ≡ parts.old.items ++ plains (code.operation op)) }
{
    let (rd, rs1, rs2) = (5, 5, 6);
    let one = match op {
        ArithOp::Add => Instr::Add { rd, rs1, rs2 },
        ArithOp::Sub => Instr::Sub { rd, rs1, rs2 },
        ArithOp::Mul => Instr::Mul { rd, rs1, rs2 },
        ArithOp::Mulh => Instr::Mulh { rd, rs1, rs2 },
        ArithOp::Mulhsu => Instr::Mulhsu { rd, rs1, rs2 },
        ArithOp::Mulhu => Instr::Mulhu { rd, rs1, rs2 },
        ArithOp::Div => Instr::Div { rd, rs1, rs2 },
        ArithOp::Divu => Instr::Divu { rd, rs1, rs2 },
        ArithOp::Rem => Instr::Rem { rd, rs1, rs2 },
        ArithOp::Remu => Instr::Remu { rd, rs1, rs2 },
        ArithOp::Shl => Instr::Sll { rd, rs1, rs2 },
        ArithOp::Shr => Instr::Srl { rd, rs1, rs2 },
        ArithOp::Sar => Instr::Sra { rd, rs1, rs2 },
        ArithOp::Lts => Instr::Slt { rd, rs1, rs2 },
        ArithOp::Ltu => Instr::Sltu { rd, rs1, rs2 },
        ArithOp::And => Instr::And { rd, rs1, rs2 },
        ArithOp::Or => Instr::Or { rd, rs1, rs2 },
        ArithOp::Xor => Instr::Xor { rd, rs1, rs2 },
        ArithOp::Equal => {
            let same = Instr::Sltiu { rd, rs1, imm: 1 };
            return put_all(parts, &[Instr::Sub { rd, rs1, rs2 }, same]);
        }
        ArithOp::Unequal => {
            let differs = Instr::Sltu { rd, rs1: 0, rs2: 5 };
            return put_all(parts, &[Instr::Sub { rd, rs1, rs2 }, differs]);
        }
        ArithOp::AtMostSigned => {
            let above = Instr::Slt { rd, rs1: 6, rs2: 5 };
            return put_all(parts, &[above, Instr::Xori { rd, rs1, imm: 1 }]);
        }
        ArithOp::AtMostUnsigned => {
            let above = Instr::Sltu { rd, rs1: 6, rs2: 5 };
            return put_all(parts, &[above, Instr::Xori { rd, rs1, imm: 1 }]);
        }
    };
    put(parts, one)
}

/// Register x7 becomes the slot that owns the word in x5, for slots of 2^g bytes.
pub fn put_owner(parts: &mut Vec<Part>, g: u8) -> Result<(), AllocError>
    ensures { OnOk result (parts.new.items ≡ parts.old.items ++ plains (code.owner_code g)) }
{
    let first = [
        Instr::Srli {
            rd: 6,
            rs1: 5,
            imm: 31,
        },
        Instr::Sub {
            rd: 6,
            rs1: 0,
            rs2: 6,
        },
        Instr::Slli {
            rd: 7,
            rs1: 5,
            imm: 1,
        },
        Instr::Srli {
            rd: 7,
            rs1: 7,
            imm: 1,
        },
    ];
    put_all(parts, &first)?;
    let second = [
        Instr::Srli {
            rd: 12,
            rs1: 7,
            imm: g.saturating_sub(2) as u32,
        },
        Instr::Andi {
            rd: 12,
            rs1: 12,
            imm: 2,
        },
        Instr::Addi {
            rd: 12,
            rs1: 12,
            imm: 0xFFFF_FFFF,
        },
        Instr::And {
            rd: 12,
            rs1: 12,
            rs2: 6,
        },
        Instr::Srli {
            rd: 7,
            rs1: 7,
            imm: g as u32,
        },
        Instr::Add {
            rd: 7,
            rs1: 7,
            rs2: 12,
        },
    ];
    put_all(parts, &second)?;
    Ok(())
}

/// A register becomes the byte of the table that a slot in another has.
pub fn put_look(parts: &mut Vec<Part>, register: u8, slot: u8) -> Result<(), AllocError>
    ensures { OnOk result (parts.new.items ≡ parts.old.items ++ plains (code.look_code register slot)) }
{
    let place = Instr::Add {
        rd: 31,
        rs1: 26,
        rs2: slot,
    };
    let byte = Instr::Lbu {
        rd: register,
        rs1: 31,
        imm: 0,
    };
    put_all(parts, &[place, byte])
}

fn read_code(width: Width, rd: u8, rs1: u8) -> Instr
    ensures { result ≡ code.read_code width rd rs1 }
{
    let imm = 0;
    match width {
        Width::Byte => Instr::Lbu { rd, rs1, imm },
        Width::Half => Instr::Lhu { rd, rs1, imm },
        Width::SignedHalf => Instr::Lh { rd, rs1, imm },
        Width::Word | Width::Pointer => Instr::Lw { rd, rs1, imm },
    }
}

fn write_code(width: Width, rs2: u8, rs1: u8) -> Instr
    ensures { result ≡ code.write_code width rs2 rs1 }
{
    let imm = 0;
    match width {
        Width::Byte => Instr::Sb { rs1, rs2, imm },
        Width::Half | Width::SignedHalf => Instr::Sh { rs1, rs2, imm },
        Width::Word | Width::Pointer => Instr::Sw { rs1, rs2, imm },
    }
}

fn kind_number(kind: ReportKind) -> u32
    ensures { result ≡ code.kind_number kind }
{
    match kind {
        ReportKind::Bounds => 1,
        ReportKind::Pointer => 2,
        ReportKind::DivZero => 3,
        ReportKind::BadFree => 4,
        ReportKind::Depth => 5,
        ReportKind::Stack => 6,
    }
}

/// A register becomes another one plus an immediate.
pub fn addi(rd: u8, rs1: u8, imm: u32) -> Instr
    ensures { result ≡ Addi rd rs1 imm }
{
    Instr::Addi { rd, rs1, imm }
}

/// A call of the environment, by its number.
pub fn put_call(parts: &mut Vec<Part>, number: u32) -> Result<(), AllocError>
    ensures { OnOk result (parts.new.items ≡ parts.old.items ++ plains (code.call_code number)) }
{
    put_all(parts, &[addi(17, 0, number), Instr::Ecall])
}

/// The run ends by a report, with the line in a value.
pub fn put_report(parts: &mut Vec<Part>, kind: ReportKind, line: u32) -> Result<(), AllocError>
    ensures { OnOk result (parts.new.items ≡ parts.old.items ++ plains (code.report_code kind line)) }
{
    put_all(parts, &[load(11, line), addi(10, 0, kind_number(kind))])?;
    put_call(parts, 6)
}

fn put_environment_arguments(
    parts: &mut Vec<Part>,
    call: u8,
    a: u32,
    b: u32,
) -> Result<(), AllocError>
    ensures { OnOk result (parts.new.items ≡ parts.old.items ++ plains (code.environment_arguments call a b)) }
{
    if call == 2 {
        return Ok(());
    }
    if call == 5 {
        return put_all(parts, &[load(10, a), load(11, b)]);
    }
    put(parts, load(10, a))
}

fn put_environment(
    parts: &mut Vec<Part>,
    to: u32,
    call: u8,
    a: u32,
    b: u32,
) -> Result<(), AllocError>
    ensures { OnOk result (parts.new.items ≡ parts.old.items ++ plains (code.environment_code to call a b)) }
{
    put_environment_arguments(parts, call, a, b)?;
    put_call(parts, call as u32)?;
    put(parts, store(10, to))
}

fn put_number(parts: &mut Vec<Part>, to: u32, value: u32) -> Result<(), AllocError>
    ensures { OnOk result (parts.new.items ≡ parts.old.items ++ plains (code.number_code to value)) }
{
    if value == 0 {
        return put(parts, store(0, to));
    }
    put_constant(parts, 5, value)?;
    put(parts, store(5, to))
}

fn put_frame_place(parts: &mut Vec<Part>, to: u32, offset: u32) -> Result<(), AllocError>
    ensures { OnOk result (parts.new.items ≡ parts.old.items ++ plains (code.frame_code to offset)) }
{
    if is_short(offset) {
        return put_all(parts, &[addi(5, 8, offset), store(5, to)]);
    }
    put_constant(parts, 5, offset)?;
    let place = Instr::Add {
        rd: 5,
        rs1: 8,
        rs2: 5,
    };
    put_all(parts, &[place, store(5, to)])
}

fn put_arith(
    parts: &mut Vec<Part>,
    known: Option<u32>,
    to: u32,
    op: ArithOp,
    left: u32,
    right: u32,
) -> Result<(), AllocError>
    ensures { OnOk result (parts.new.items ≡ parts.old.items ++ plains (code.arith_code known to op left right)) }
{
    put_fetch(parts, known, left)?;
    put(parts, load(6, right))?;
    put_operation(parts, op)?;
    put(parts, store(5, to))
}

/// The arguments of a call, in registers from one on up to x25.
fn put_arguments(parts: &mut Vec<Part>, register: u8, args: &[u32]) -> Result<(), AllocError>
    ensures { OnOk result (parts.new.items ≡ parts.old.items ++ plains (code.arguments_code register args.now)) }
{
    match args {
        [] => Ok(()),
        [value, rest @ ..] => {
            if register >= 26 {
                return Ok(());
            }
            put(parts, load(register, *value))?;
            put_arguments(parts, register + 1, rest)
        }
    }
}

fn put_called(parts: &mut Vec<Part>, to: u32, function: u32, args: &[u32]) -> Result<(), AllocError>
    ensures { OnOk result (parts.new.items ≡ parts.old.items ++ code.call_parts to function args.now) }
{
    put_arguments(parts, 18, args)?;
    put_part(
        parts,
        Part::Jump {
            rd: 1,
            to: function,
        },
    )?;
    put(parts, store(9, to))
}

/// Goes to a label.
pub fn put_jump(parts: &mut Vec<Part>, to: u32) -> Result<(), AllocError>
    ensures { OnOk result (parts.new.items ≡ parts.old.items ++ Jump 0 to ∷ []) }
{
    put_part(parts, Part::Jump { rd: 0, to })
}

fn label_out(exits: &[u32], levels: u32) -> u32
    ensures { result ≡ code.label_out exits.now levels }
{
    match exits.get(levels.saturating_sub(1) as usize) {
        Some(label) => *label,
        None => 0,
    }
}

/// The parts of a step that has no steps in it, for slots of 2^g bytes.
///
/// `back` is the label of the function's end, `exits` are those behind the constructs around the step, the innermost
/// first, and `known` is the value that x5 holds.
#[tactic(auto, using(flat_code::proofs::CodeViewed::flat_views))]
pub fn put_step(
    parts: &mut Vec<Part>,
    g: u8,
    back: u32,
    known: Option<u32>,
    exits: &[u32],
    step: &FlatStep,
) -> Result<(), AllocError>
    ensures { OnOk result (parts.new.items ≡ parts.old.items ++ code.step_parts g back known exits.now (step_of step.now)) }
{
    match step {
        FlatStep::Number { to, value } => put_number(parts, *to, value.0),
        FlatStep::Same { to, from } => put_same(parts, known, *to, *from),
        FlatStep::Arith {
            to,
            op,
            left,
            right,
        } => put_arith(parts, known, *to, *op, *left, *right),
        FlatStep::Exit { levels } => put_jump(parts, label_out(exits, *levels)),
        FlatStep::Call { to, function, args } => put_called(parts, *to, *function, args),
        FlatStep::Return { from } => put_return(parts, back, *from),
        FlatStep::Slot { to, from } => put_slot(parts, g, known, *to, *from),
        FlatStep::Look { to, slot } => put_looked(parts, known, *to, *slot),
        FlatStep::FrameAt { to, offset } => put_frame_place(parts, *to, *offset),
        FlatStep::Load { to, at, width } => put_read(parts, known, *to, *at, *width),
        FlatStep::Store { at, from, width } => put_write(parts, known, *at, *from, *width),
        FlatStep::Checked { from, to } => put_checked(parts, known, *from, *to),
        FlatStep::LineMark { line } => put(parts, line_mark(*line)),
        FlatStep::Report { kind, line } => put_report(parts, *kind, *line),
        FlatStep::Env { to, call, a, b } => put_environment(parts, *to, *call, *a, *b),
        FlatStep::If {
            cond: _,
            yes: _,
            no: _,
        }
        | FlatStep::Block { body: _ }
        | FlatStep::Loop { body: _ }
        | FlatStep::Inner { body: _ } => Ok(()),
    }
}

fn line_mark(line: u32) -> Instr
    ensures { result ≡ code.line_code line }
{
    Instr::Lui {
        rd: 0,
        imm: 4096u32.wrapping_mul(line),
    }
}

fn put_same(parts: &mut Vec<Part>, known: Option<u32>, to: u32, from: u32) -> Result<(), AllocError>
    ensures { OnOk result (parts.new.items ≡ parts.old.items ++ plains (code.same_code known to from)) }
{
    put_fetch(parts, known, from)?;
    put(parts, store(5, to))
}

fn put_return(parts: &mut Vec<Part>, back: u32, from: u32) -> Result<(), AllocError>
    ensures { OnOk result (parts.new.items ≡ parts.old.items ++ Plain (layout.load 9 from) ∷ Jump 0 back ∷ []) }
{
    put(parts, load(9, from))?;
    put_jump(parts, back)
}

fn put_slot(
    parts: &mut Vec<Part>,
    g: u8,
    known: Option<u32>,
    to: u32,
    from: u32,
) -> Result<(), AllocError>
    ensures { OnOk result (parts.new.items ≡ parts.old.items ++ plains (code.slot_code g known to from)) }
{
    put_fetch(parts, known, from)?;
    put_owner(parts, g)?;
    put(parts, store(7, to))
}

fn put_looked(
    parts: &mut Vec<Part>,
    known: Option<u32>,
    to: u32,
    slot: u32,
) -> Result<(), AllocError>
    ensures { OnOk result (parts.new.items ≡ parts.old.items ++ plains (code.looked_code known to slot)) }
{
    put_fetch(parts, known, slot)?;
    put_look(parts, 5, 5)?;
    put(parts, store(5, to))
}

fn put_read(
    parts: &mut Vec<Part>,
    known: Option<u32>,
    to: u32,
    at: u32,
    width: Width,
) -> Result<(), AllocError>
    ensures { OnOk result (parts.new.items ≡ parts.old.items ++ plains (code.loading_code known to at width)) }
{
    put_fetch(parts, known, at)?;
    put_all(parts, &[read_code(width, 5, 5), store(5, to)])
}

fn put_write(
    parts: &mut Vec<Part>,
    known: Option<u32>,
    at: u32,
    from: u32,
    width: Width,
) -> Result<(), AllocError>
    ensures { OnOk result (parts.new.items ≡ parts.old.items ++ plains (code.storing_code known at from width)) }
{
    put_fetch(parts, known, at)?;
    put_all(parts, &[load(6, from), write_code(width, 6, 5)])
}

fn put_checked(
    parts: &mut Vec<Part>,
    known: Option<u32>,
    from: u32,
    to: u32,
) -> Result<(), AllocError>
    ensures { OnOk result (parts.new.items ≡ parts.old.items ++ plains (code.checked_code known from to)) }
{
    put_fetch(parts, known, from)?;
    let told = Instr::Add {
        rd: 0,
        rs1: 5,
        rs2: 6,
    };
    put_all(parts, &[load(6, to), told])
}
