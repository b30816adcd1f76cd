//! Small programs in flat code, for the tests of selected code.
#![tactic(auto, using(flat_code::proofs::CodeViewed::flat_views))]

ghost use Rattle.std.specs.Prelude.{◌≡◌, ◌∷◌, [], IfOk};
ghost use Rattle.flat_code.specs.CodeViews.{steps_of, function_of, code_of};
ghost use Rattle.machine_tests.specs.Programs as program;

use bb_words::kinds::ReportKind;
use bb_words::list::List;
use bb_words::steps::{ArithOp, Width};
use bb_words::word::Word;
use flat_code::code::{Flat, FlatFunction, FlatStep};
use flat_code::emit::{MoveValues, move_steps};
use std::alloc::{AllocError, Global};

fn first_steps(alloc: Global) -> Result<List<FlatStep>, AllocError>
    ensures { IfOk result (λ body. steps_of body ≡ program.first_steps) }
{
    let args = two_values(alloc)?;
    let mut body = List::new(alloc);
    body.push(FlatStep::LineMark { line: 5 })?;
    body.push(FlatStep::Number {
        to: 0,
        value: Word(42),
    })?;
    body.push(FlatStep::Number {
        to: 1,
        value: Word(100_000),
    })?;
    body.push(FlatStep::Call {
        to: 2,
        function: 1,
        args,
    })?;
    body.push(FlatStep::Return { from: 2 })?;
    Ok(body)
}

fn two_values(alloc: Global) -> Result<Vec<u32>, AllocError>
    ensures { IfOk result (λ values. values.items ≡ 0 ∷ 1 ∷ []) }
{
    let mut values = Vec::new(alloc);
    values.push(0)?;
    values.push(1)?;
    Ok(values)
}

fn larger_steps(alloc: Global) -> Result<Vec<FlatStep>, AllocError>
    ensures { IfOk result (λ body. steps_of body.items ≡ program.larger_steps) }
{
    let mut body = Vec::new(alloc);
    body.push(FlatStep::Arith {
        to: 2,
        op: ArithOp::Sub,
        left: 1,
        right: 0,
    })?;
    body.push(FlatStep::Return { from: 2 })?;
    Ok(body)
}

fn smaller_steps(alloc: Global) -> Result<Vec<FlatStep>, AllocError>
    ensures { IfOk result (λ body. steps_of body.items ≡ program.smaller_steps) }
{
    let mut body = Vec::new(alloc);
    body.push(FlatStep::Number {
        to: 1,
        value: Word(7),
    })?;
    body.push(FlatStep::Report {
        kind: ReportKind::DivZero,
        line: 1,
    })?;
    Ok(body)
}

fn second_steps(alloc: Global) -> Result<List<FlatStep>, AllocError>
    ensures { IfOk result (λ body. steps_of body ≡ program.second_steps) }
{
    let yes = larger_steps(alloc)?;
    let no = smaller_steps(alloc)?;
    let mut body = List::new(alloc);
    body.push(FlatStep::Arith {
        to: 2,
        op: ArithOp::Ltu,
        left: 0,
        right: 1,
    })?;
    body.push(FlatStep::If { cond: 2, yes, no })?;
    Ok(body)
}

/// Two functions, of which the first calls the second.
pub fn difference(alloc: Global) -> Result<Flat, AllocError>
    ensures { IfOk result (λ flat. code_of flat ≡ program.difference) }
{
    let mut functions = List::new(alloc);
    functions.push(FlatFunction {
        values: 3,
        params: 0,
        frame: 0,
        line: 5,
        body: first_steps(alloc)?,
    })?;
    functions.push(FlatFunction {
        values: 3,
        params: 2,
        frame: 0,
        line: 1,
        body: second_steps(alloc)?,
    })?;
    Ok(Flat {
        functions,
        main: 0,
        initial: List::new(alloc),
    })
}

fn written_again(alloc: Global) -> Result<Vec<FlatStep>, AllocError>
    ensures { IfOk result (λ body. steps_of body.items ≡ program.written_again) }
{
    let mut body = Vec::new(alloc);
    body.push(FlatStep::Load {
        to: 6,
        at: 2,
        width: Width::Byte,
    })?;
    body.push(FlatStep::Env {
        to: 7,
        call: 3,
        a: 6,
        b: 6,
    })?;
    body.push(FlatStep::Exit { levels: 1 })?;
    Ok(body)
}

fn moved_steps(alloc: Global) -> Result<List<FlatStep>, AllocError>
    ensures { IfOk result (λ body. steps_of body ≡ program.moved_steps) }
{
    let values = MoveValues {
        pointer: 0,
        distance: 1,
        result: 2,
        line: 3,
        slot: 4,
        exponent: 5,
    };
    let moving = move_steps(alloc, 4, values)?;
    let writing = written_again(alloc)?;
    let mut body = List::new(alloc);
    body.push(FlatStep::FrameAt { to: 0, offset: 0 })?;
    body.push(FlatStep::Number {
        to: 1,
        value: Word(4),
    })?;
    body.push(FlatStep::Number {
        to: 3,
        value: Word(2),
    })?;
    body.push(FlatStep::Block { body: moving })?;
    body.push(FlatStep::Store {
        at: 2,
        from: 1,
        width: Width::Word,
    })?;
    body.push(FlatStep::Loop { body: writing })?;
    body.push(FlatStep::Return { from: 7 })?;
    Ok(body)
}

/// One function, which moves a pointer into its frame and uses it.
pub fn moved(alloc: Global) -> Result<Flat, AllocError>
    ensures { IfOk result (λ flat. code_of flat ≡ program.moved) }
{
    let mut functions = List::new(alloc);
    functions.push(FlatFunction {
        values: 10,
        params: 0,
        frame: 16,
        line: 2,
        body: moved_steps(alloc)?,
    })?;
    Ok(Flat {
        functions,
        main: 0,
        initial: List::new(alloc),
    })
}
