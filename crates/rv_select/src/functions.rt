//! The parts of functions and of the start code.
#![tactic(auto, using(crate::proofs::Emitted::emitted))]

ghost use Rattle.std.specs.Prelude.{◌≡◌, ◌+◌, ◌≤◌, ◌++◌, ◌∷◌, [], map, OnOk, IfOk};
ghost use Rattle.flat_code.specs.CodeViews.{function_of};
ghost use Rattle.rv_selected.specs.Steps.{plains};
ghost use Rattle.rv_selected.specs.Selection as selection;

use crate::checks::{put_branch, put_label};
use crate::emit::{
    after, cell, frame_bytes, load, negative, put, put_all, put_constant, put_part, store,
};
use crate::items::{InFunction, put_items};
use crate::steps::{addi, put_call};
use flat_code::code::FlatFunction;
use rv_asm::parts::{BranchOp, Part};
use rv_code::instr::Instr;
use size_table::memory_map::{HEAP_START, TABLE_START};
use std::alloc::{AllocError, Global};

/// So many words from x2 on become 0.
fn put_zeros(parts: &mut Vec<Part>, count: u32) -> Result<(), AllocError>
    ensures { OnOk result (parts.new.items ≡ parts.old.items ++ plains (selection.zeros count 0)) }
{
    for v in 0..count {
        put(parts, store(0, v))?;
    }
    Ok(())
}

/// The loop that pushes words that become 0, eight in each turn.
fn put_zero_loop(parts: &mut Vec<Part>, label: u32, turns: u32) -> Result<(), AllocError>
    ensures { OnOk result (parts.new.items ≡ parts.old.items ++ selection.zero_loop_if label turns) }
{
    if turns == 0 {
        return put_label(parts, label);
    }
    put(parts, addi(6, 2, negative(32u32.wrapping_mul(turns))))?;
    put_label(parts, label)?;
    put(parts, addi(2, 2, negative(32)))?;
    put_zeros(parts, 8)?;
    put_branch(parts, BranchOp::Bne, 2, 6, label)
}

/// The arguments in registers from x18 on are stored.
fn put_stores(parts: &mut Vec<Part>, count: u32) -> Result<(), AllocError>
    requires { count ≤ 8 }
    ensures { OnOk result (parts.new.items ≡ parts.old.items ++ plains (selection.parameters count 0)) }
{
    for v in 0..count {
        put(parts, store(18 + v as u8, v))?;
    }
    Ok(())
}

/// The parameters are pushed.
fn put_parameters(parts: &mut Vec<Part>, params: u32) -> Result<(), AllocError>
    ensures { OnOk result (parts.new.items ≡ parts.old.items ++ plains (selection.parameters_if params)) }
{
    if params == 0 {
        return Ok(());
    }
    put(parts, addi(2, 2, negative(cell(params))))?;
    put_stores(parts, params.min(8))
}

/// The control frame is pushed.
fn put_frame(parts: &mut Vec<Part>, label: u32, params: u32, values: u32) -> Result<(), AllocError>
    ensures { OnOk result (parts.new.items ≡ parts.old.items ++ selection.frame_parts label params values) }
{
    let others = values.saturating_sub(params);
    let rest = others % 8;
    put_all(
        parts,
        &[addi(2, 2, negative(frame_bytes(rest))), store(1, rest)],
    )?;
    put_zeros(parts, rest)?;
    put_zero_loop(parts, label, others / 8)?;
    put_parameters(parts, params)
}

/// Function k enters its frame of blocks.
fn put_enter(parts: &mut Vec<Part>, k: u32, line: u32) -> Result<(), AllocError>
    ensures { OnOk result (parts.new.items ≡ parts.old.items ++ plains (selection.enter_code k line)) }
{
    if line == 0 {
        return Ok(());
    }
    put_constant(parts, 10, k)?;
    put_constant(parts, 11, line)?;
    put_call(parts, 7)?;
    put(parts, addi(8, 10, 0))
}

/// Function k leaves its frame of blocks.
fn put_leave(parts: &mut Vec<Part>, k: u32, line: u32) -> Result<(), AllocError>
    ensures { OnOk result (parts.new.items ≡ parts.old.items ++ plains (selection.leave_code k line)) }
{
    if line == 0 {
        return Ok(());
    }
    put_constant(parts, 10, k)?;
    put_call(parts, 8)?;
    put(parts, addi(8, 10, 0))
}

/// The control frame goes, and the call returns.
fn put_returning(parts: &mut Vec<Part>, k: u32, line: u32, values: u32) -> Result<(), AllocError>
    ensures { OnOk result (parts.new.items ≡ parts.old.items ++ plains (selection.return_code k line values)) }
{
    put_all(parts, &[load(1, values), addi(2, 2, frame_bytes(values))])?;
    put_leave(parts, k, line)?;
    let back = Instr::Jalr {
        rd: 0,
        rs1: 1,
        imm: 0,
    };
    put(parts, back)
}

/// The parts of function k, with the labels from one on. The answer is the next label.
fn put_function(
    alloc: Global,
    g: u8,
    k: u32,
    label: u32,
    function: &FlatFunction,
    parts: &mut Vec<Part>,
) -> Result<u32, AllocError>
    requires { (1 ≤ g) × (g ≤ 24) }
    ensures parts { OnOk result (parts.new.items ≡ parts.old.items ++ selection.function_parts g k label (function_of function.now)) }
    ensures next { IfOk result (λ next. next ≡ label + selection.function_labels g (function_of function.now)) }
{
    let zeroing = after(label)?;
    let inside = after(zeroing)?;
    let in_function = InFunction {
        exponent: g,
        back: label,
    };
    put_label(parts, k)?;
    put_enter(parts, k, function.line)?;
    put_frame(parts, zeroing, function.params, function.values)?;
    let steps = function.body.as_slice();
    let next = put_items(alloc, &in_function, None, &[], steps, parts, inside)?;
    put(parts, addi(9, 0, 0))?;
    put_label(parts, label)?;
    put_returning(parts, k, function.line, function.values)?;
    Ok(next)
}

/// The parts of functions, which have the numbers from 0 on, with the labels from one on.
pub fn put_functions(
    alloc: Global,
    g: u8,
    label: u32,
    functions: &[FlatFunction],
    parts: &mut Vec<Part>,
) -> Result<(), AllocError>
    requires { (1 ≤ g) × (g ≤ 24) }
    ensures { OnOk result (parts.new.items ≡ parts.old.items ++ selection.functions_parts g 0 label (map function_of functions.now)) }
{
    let mut k = 0;
    let mut next = label;
    for function in functions {
        next = put_function(alloc, g, k, next, function, parts)?;
        k = after(k)?;
    }
    Ok(())
}

/// The start code calls the first function, and exits with the word that it returns.
pub fn put_start(parts: &mut Vec<Part>, main: u32) -> Result<(), AllocError>
    ensures { OnOk result (parts.new.items ≡ parts.old.items ++ selection.start_parts main) }
{
    let stack = Instr::Lui {
        rd: 8,
        imm: HEAP_START,
    };
    let table = Instr::Lui {
        rd: 26,
        imm: TABLE_START,
    };
    put_all(parts, &[stack, table])?;
    put_part(parts, Part::Jump { rd: 1, to: main })?;
    put(parts, addi(10, 9, 0))?;
    put_call(parts, 1)
}
