//! Parts, one after another, and the instructions that many steps share.
#![tactic(auto, using(crate::proofs::Emitted::emitted))]

ghost use Rattle.std.specs.Prelude.{◌≡◌, ◌+◌, ◌<◌, ◌^◌, ◌++◌, ◌∷◌, [], OnOk, IfOk};
ghost use Rattle.rv_asm.specs.declared.parts.Part.TheVariants.{Plain};
ghost use Rattle.rv_asm.specs.Text.{upper_part, lower_part};
ghost use Rattle.rv_selected.specs.Registers as layout;
ghost use Rattle.rv_selected.specs.Steps.{plains};

use rv_asm::parts::Part;
use rv_code::instr::Instr;
use std::alloc::AllocError;

/// The offset of a value in the control frame.
pub fn cell(value: u32) -> u32
    ensures { result ≡ layout.cell value }
{
    4u32.wrapping_mul(value)
}

/// The bytes of the control frame of a function with so many values.
pub fn frame_bytes(values: u32) -> u32
    ensures { result ≡ layout.frame_bytes values }
{
    cell(values).wrapping_add(4)
}

/// The word of a number's negative.
pub fn negative(number: u32) -> u32
    ensures { result ≡ layout.negative number }
{
    0u32.wrapping_sub(number)
}

/// A value is loaded into a register.
pub fn load(register: u8, value: u32) -> Instr
    ensures { result ≡ layout.load register value }
{
    Instr::Lw {
        rd: register,
        rs1: 2,
        imm: cell(value),
    }
}

/// A value is stored from a register.
pub fn store(register: u8, value: u32) -> Instr
    ensures { result ≡ layout.store register value }
{
    Instr::Sw {
        rs1: 2,
        rs2: register,
        imm: cell(value),
    }
}

/// The number after this one, for a label. There is none after the greatest `u32`, for which no memory has room.
pub fn after(label: u32) -> Result<u32, AllocError>
    ensures { IfOk result (λ n. n ≡ label + 1) }
{
    match label.checked_add(1) {
        Some(next) => Ok(next),
        None => Err(AllocError),
    }
}

/// One more part.
pub fn put_part(parts: &mut Vec<Part>, part: Part) -> Result<(), AllocError>
    ensures { OnOk result (parts.new.items ≡ parts.old.items ++ part ∷ []) }
{
    parts.push(part)?;
    Ok(())
}

/// One more instruction.
pub fn put(parts: &mut Vec<Part>, instr: Instr) -> Result<(), AllocError>
    ensures { OnOk result (parts.new.items ≡ parts.old.items ++ Plain instr ∷ []) }
{
    put_part(parts, Part::Plain(instr))
}

/// More instructions.
pub fn put_all(parts: &mut Vec<Part>, instrs: &[Instr]) -> Result<(), AllocError>
    ensures { OnOk result (parts.new.items ≡ parts.old.items ++ plains instrs.now) }
{
    match instrs {
        [] => Ok(()),
        [first, rest @ ..] => {
            put(parts, *first)?;
            put_all(parts, rest)
        }
    }
}

/// Whether a word is an immediate of 12 bits with a sign.
pub fn is_short(number: u32) -> bool
    ensures { result ≡ layout.is_short number }
{
    number < 0x800 || number >= 0xFFFF_F800
}

fn upper_part(number: u32) -> u32
    ensures { result ≡ upper_part number }
{
    number.wrapping_add(0x800) / 0x1000 * 0x1000
}

fn lower_part(number: u32) -> u32
    ensures { result ≡ lower_part number }
{
    let low = number % 0x1000;
    if low < 0x800 { low } else { low + 0xFFFF_F000 }
}

/// A register becomes a word.
pub fn put_constant(parts: &mut Vec<Part>, register: u8, number: u32) -> Result<(), AllocError>
    ensures { OnOk result (parts.new.items ≡ parts.old.items ++ plains (layout.constant register number)) }
{
    if is_short(number) {
        let whole = Instr::Addi {
            rd: register,
            rs1: 0,
            imm: number,
        };
        return put(parts, whole);
    }
    if number % 0x1000 == 0 {
        let whole = Instr::Lui {
            rd: register,
            imm: number,
        };
        return put(parts, whole);
    }
    let upper = Instr::Lui {
        rd: register,
        imm: upper_part(number),
    };
    let lower = Instr::Addi {
        rd: register,
        rs1: register,
        imm: lower_part(number),
    };
    put_all(parts, &[upper, lower])
}
