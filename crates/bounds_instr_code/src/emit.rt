//! Steps of flat code, one after another.
ghost use Rattle.std.specs.Prelude.{◌≡◌, OnOk, IfOk};
ghost use Rattle.flat_code.specs.Code.{none, more, ◌+++◌};
ghost use Rattle.flat_code.specs.Code.FStep.{If, Block, Loop, Call};
ghost use Rattle.flat_code.specs.CodeViews.{step_of, steps_of};
ghost use Rattle.bounds_instr_code.specs.Code as instr;

use bb_words::kinds::ReportKind;
use bb_words::steps::{ArithOp, DivideOp};
use bb_words::word::Word;
use flat_code::code::FlatStep;
use std::alloc::{AllocError, Global};
use typed_tree::typed_expr::LibCall;

/// One more step.
#[tactic(auto, using(crate::proofs::Emitted::steps_append))]
pub fn put(code: &mut Vec<FlatStep>, step: FlatStep) -> Result<(), AllocError>
    ensures { OnOk result (steps_of code.new.items ≡ steps_of code.old.items +++ more (step_of step) none) }
{
    code.push(step)?;
    Ok(())
}

/// A choice between two lists of steps.
#[tactic(auto, using(flat_code::proofs::CodeViewed::flat_views))]
pub fn choice(cond: u32, yes: Vec<FlatStep>, no: Vec<FlatStep>) -> FlatStep
    ensures { step_of result ≡ If cond (steps_of yes.items) (steps_of no.items) }
{
    FlatStep::If { cond, yes, no }
}

#[tactic(auto, using(flat_code::proofs::CodeViewed::flat_views))]
pub fn block(body: Vec<FlatStep>) -> FlatStep
    ensures { step_of result ≡ Block (steps_of body.items) }
{
    FlatStep::Block { body }
}

#[tactic(auto, using(flat_code::proofs::CodeViewed::flat_views))]
pub fn repeat(body: Vec<FlatStep>) -> FlatStep
    ensures { step_of result ≡ Loop (steps_of body.items) }
{
    FlatStep::Loop { body }
}

/// A call, with the same arguments.
#[tactic(auto, using(flat_code::proofs::CodeViewed::flat_views))]
pub fn call(alloc: Global, to: u32, function: u32, args: &[u32]) -> Result<FlatStep, AllocError>
    ensures { IfOk result (λ x. step_of x ≡ Call to function args.now) }
{
    let mut copy = Vec::new(alloc);
    copy.extend_from_slice(args)?;
    Ok(FlatStep::Call {
        to,
        function,
        args: copy,
    })
}

fn quotient(op: DivideOp) -> ArithOp
    ensures { result ≡ instr.quotient op }
{
    match op {
        DivideOp::Div => ArithOp::Div,
        DivideOp::Divu => ArithOp::Divu,
        DivideOp::Rem => ArithOp::Rem,
        DivideOp::Remu => ArithOp::Remu,
    }
}

/// A division: where the divisor is 0, a report with the line in a temporary.
#[derive(Clone, Copy)]
pub struct Division {
    pub to: u32,
    pub op: DivideOp,
    pub left: u32,
    pub right: u32,
    pub line: u32,
}

#[tactic(auto, using(crate::proofs::Emitted::emitted))]
pub fn put_division(
    alloc: Global,
    code: &mut Vec<FlatStep>,
    temporary: u32,
    d: Division,
) -> Result<(), AllocError>
    ensures { OnOk result (steps_of code.new.items ≡ steps_of code.old.items +++ instr.division temporary d.to d.op d.left d.right d.line) }
{
    let mut reporting = Vec::new(alloc);
    put(
        &mut reporting,
        FlatStep::Number {
            to: temporary,
            value: Word(d.line),
        },
    )?;
    put(
        &mut reporting,
        FlatStep::Report {
            kind: ReportKind::DivZero,
            line: temporary,
        },
    )?;
    put(code, choice(d.right, Vec::new(alloc), reporting))?;
    put(
        code,
        FlatStep::Arith {
            to: d.to,
            op: quotient(d.op),
            left: d.left,
            right: d.right,
        },
    )?;
    Ok(())
}

fn first_of(args: &[u32]) -> u32
    ensures { result ≡ instr.first_of args.now }
{
    if args.len() == 0 { 0 } else { args[0] }
}

/// A block is given back; the value becomes 0.
#[tactic(auto, using(crate::proofs::Emitted::emitted))]
fn put_free(
    code: &mut Vec<FlatStep>,
    temporary: u32,
    to: u32,
    line: u32,
    pointer: u32,
) -> Result<(), AllocError>
    ensures { OnOk result (steps_of code.new.items ≡ steps_of code.old.items +++ instr.freeing temporary to line pointer) }
{
    put(
        code,
        FlatStep::Number {
            to: temporary,
            value: Word(line),
        },
    )?;
    put(
        code,
        FlatStep::Env {
            to,
            call: 5,
            a: pointer,
            b: temporary,
        },
    )?;
    put(code, FlatStep::Number { to, value: Word(0) })?;
    Ok(())
}

fn second_of(args: &[u32]) -> u32
    ensures { result ≡ instr.second_of args.now }
{
    if args.len() < 2 { 0 } else { args[1] }
}

/// Room for so many elements of a size is taken. A product that is no word is more than there is.
#[tactic(auto, using(crate::proofs::Emitted::emitted))]
fn put_allocation(
    alloc: Global,
    code: &mut Vec<FlatStep>,
    temporary: u32,
    to: u32,
    count: u32,
    size: u32,
) -> Result<(), AllocError>
    ensures { OnOk result (steps_of code.new.items ≡ steps_of code.old.items +++ instr.allocation temporary to count size) }
{
    let mut greatest = Vec::new(alloc);
    put(
        &mut greatest,
        FlatStep::Number {
            to: temporary,
            value: Word(0xffff_ffff),
        },
    )?;
    let mut product = Vec::new(alloc);
    put(
        &mut product,
        FlatStep::Arith {
            to: temporary,
            op: ArithOp::Mul,
            left: count,
            right: size,
        },
    )?;
    put(
        code,
        FlatStep::Arith {
            to: temporary,
            op: ArithOp::Mulhu,
            left: count,
            right: size,
        },
    )?;
    put(code, choice(temporary, greatest, product))?;
    put(
        code,
        FlatStep::Env {
            to,
            call: 4,
            a: temporary,
            b: temporary,
        },
    )?;
    Ok(())
}

/// A call of the library that the environment does.
#[tactic(auto, using(crate::proofs::Emitted::emitted))]
pub fn put_library(
    alloc: Global,
    code: &mut Vec<FlatStep>,
    temporary: u32,
    which: LibCall,
    to: u32,
    line: u32,
    args: &[u32],
) -> Result<(), AllocError>
    ensures { OnOk result (steps_of code.new.items ≡ steps_of code.old.items +++ instr.library_code temporary which to line args.now) }
{
    let first = first_of(args);
    match which {
        LibCall::Putchar => put(
            code,
            FlatStep::Env {
                to,
                call: 3,
                a: first,
                b: first,
            },
        ),
        LibCall::Getchar => put(
            code,
            FlatStep::Env {
                to,
                call: 2,
                a: to,
                b: to,
            },
        ),
        LibCall::Exit => put(
            code,
            FlatStep::Env {
                to,
                call: 1,
                a: first,
                b: first,
            },
        ),
        LibCall::Malloc => put(
            code,
            FlatStep::Env {
                to,
                call: 4,
                a: first,
                b: first,
            },
        ),
        LibCall::Free => put_free(code, temporary, to, line, first),
        LibCall::Calloc => put_allocation(alloc, code, temporary, to, first, second_of(args)),
        LibCall::Memcpy | LibCall::Memset => Ok(()),
    }
}
