//! The flat code of steps.
ghost use Rattle.std.specs.Prelude.{◌≡◌, ◌≤◌, OnOk};
ghost use Rattle.flat_code.specs.Code.{◌+++◌};
ghost use Rattle.flat_code.specs.CodeViews.{steps_of};
ghost use Rattle.mid_code.specs.Views as mid;
ghost use Rattle.bounds_instr_code.specs.Code as instr;

use crate::emit::{Division, block, call, choice, put, put_division, put_library, repeat};
use crate::pointers::{
    Elements, loading, moving_by, moving_elements, ordering, put_all, subtraction,
};
use bb_words::steps::ArithOp;
use bb_words::word::Word;
use flat_code::code::FlatStep;
use mid_code::code::MidStep;
use std::alloc::{AllocError, Global};

/// The flat code of a step, for slots of 2^g bytes, in a function with so many values, behind which the temporaries are.
#[tactic(auto, using(crate::proofs::Emitted::coded))]
#[cycle(code)]
pub fn code_step(
    alloc: Global,
    g: u8,
    values: u32,
    x: &MidStep,
    code: &mut Vec<FlatStep>,
) -> Result<(), AllocError>
    requires room { values ≤ 250 }
    requires least { 1 ≤ g }
    requires most { g ≤ 24 }
    ensures { OnOk result (steps_of code.new.items ≡ steps_of code.old.items +++ instr.step_code g values (mid.step_of x.now)) }
{
    match x {
        MidStep::Number { to, value } => put(
            code,
            FlatStep::Number {
                to: *to,
                value: *value,
            },
        )?,
        MidStep::NullPtr { to } => put(
            code,
            FlatStep::Number {
                to: *to,
                value: Word(0),
            },
        )?,
        MidStep::Same { to, from } => put(
            code,
            FlatStep::Same {
                to: *to,
                from: *from,
            },
        )?,
        MidStep::Arith {
            to,
            op,
            left,
            right,
        } => put(
            code,
            FlatStep::Arith {
                to: *to,
                op: *op,
                left: *left,
                right: *right,
            },
        )?,
        MidStep::Divide {
            to,
            op,
            left,
            right,
            line,
        } => put_division(
            alloc,
            code,
            values,
            Division {
                to: *to,
                op: *op,
                left: *left,
                right: *right,
                line: *line,
            },
        )?,
        MidStep::PtrSame { to, left, right } => put(
            code,
            FlatStep::Arith {
                to: *to,
                op: ArithOp::Equal,
                left: *left,
                right: *right,
            },
        )?,
        MidStep::Call { to, function, args } => {
            let step = call(alloc, *to, *function, args.as_slice())?;
            put(code, step)?;
        }
        MidStep::Library {
            to,
            which,
            args,
            line,
            site_a: _,
            site_b: _,
        } => put_library(alloc, code, values, *which, *to, *line, args.as_slice())?,
        MidStep::If { cond, yes, no } => {
            let mut first = Vec::new(alloc);
            code_steps(alloc, g, values, yes, &mut first)?;
            let mut second = Vec::new(alloc);
            code_steps(alloc, g, values, no, &mut second)?;
            put(code, choice(*cond, first, second))?;
        }
        MidStep::Block { body } => {
            let mut inner = Vec::new(alloc);
            code_steps(alloc, g, values, body, &mut inner)?;
            put(code, block(inner))?;
        }
        MidStep::Loop { body } => {
            let mut inner = Vec::new(alloc);
            code_steps(alloc, g, values, body, &mut inner)?;
            put(code, repeat(inner))?;
        }
        MidStep::Exit { levels } => put(code, FlatStep::Exit { levels: *levels })?,
        MidStep::Return { from } => put(code, FlatStep::Return { from: *from })?,
        MidStep::LineMark { line } => put(code, FlatStep::LineMark { line: *line })?,
        MidStep::Move {
            site: _,
            to,
            from,
            by,
            scale,
            down,
            line,
        } => {
            let steps = moving_elements(
                alloc,
                g,
                values,
                Elements {
                    to: *to,
                    from: *from,
                    by: *by,
                    scale: *scale,
                    down: *down,
                    line: *line,
                },
            )?;
            put_all(code, steps)?;
        }
        MidStep::MoveBy {
            site: _,
            to,
            from,
            distance,
            line,
        } => {
            let steps = moving_by(alloc, g, values, *to, *from, *distance, *line)?;
            put_all(code, steps)?;
        }
        MidStep::Load {
            to,
            at,
            width,
            line,
        } => {
            let steps = loading(alloc, g, values, *to, *at, *width, *line)?;
            put_all(code, steps)?;
        }
        MidStep::Store { at, from, width } => put(
            code,
            FlatStep::Store {
                at: *at,
                from: *from,
                width: *width,
            },
        )?,
        MidStep::PtrOrder {
            to,
            op,
            left,
            right,
        } => {
            let steps = ordering(alloc, values, *to, *op, *left, *right)?;
            put_all(code, steps)?;
        }
        MidStep::PtrDiff {
            to,
            left,
            right,
            size,
        } => {
            let steps = subtraction(alloc, values, *to, *left, *right, *size)?;
            put_all(code, steps)?;
        }
        MidStep::Named { to: _, object: _ }
        | MidStep::Clear { object: _ }
        | MidStep::Init {
            object: _,
            offset: _,
            from: _,
            width: _,
        }
        | MidStep::CopyBytes {
            site_from: _,
            site_to: _,
            from: _,
            to: _,
            length: _,
            line: _,
        } => {}
    }
    Ok(())
}

/// The flat code of steps.
#[cycle(code)]
pub fn code_steps(
    alloc: Global,
    g: u8,
    values: u32,
    xs: &[MidStep],
    code: &mut Vec<FlatStep>,
) -> Result<(), AllocError>
    requires room { values ≤ 250 }
    requires least { 1 ≤ g }
    requires most { g ≤ 24 }
    ensures { OnOk result (steps_of code.new.items ≡ steps_of code.old.items +++ instr.code g values (mid.steps_of xs.now)) }
{
    for x in xs {
        code_step(alloc, g, values, x, code)?;
    }
    Ok(())
}
