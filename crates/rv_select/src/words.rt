//! The numbers of flat code that its instructions have as constants are words.
//!
//! What the type of a number says of it is known once it is read. So these functions read the numbers, and have no answer.
#![tactic(auto)]

ghost use Rattle.std.specs.Prelude.{map};
ghost use Rattle.std.specs.List.{AllByRecursion};
ghost use Rattle.flat_code.specs.CodeViews.{step_of, steps_of, function_of, code_of};
ghost use Rattle.rv_selected.specs.Words.{StepHasWords, HaveWords, FunctionHasWords, HasWords};

use bb_words::word::Word;
use flat_code::code::{Flat, FlatFunction, FlatStep};

#[tactic(auto, using(flat_code::proofs::CodeViewed::flat_views))]
#[cycle(words)]
fn read_step(step: &FlatStep)
    ensures { StepHasWords (step_of step.now) }
{
    match step {
        FlatStep::Number {
            to: _,
            value: Word(value),
        } => {
            let _value = *value;
        }
        FlatStep::FrameAt { to: _, offset } => {
            let _offset = *offset;
        }
        FlatStep::If { cond: _, yes, no } => {
            read_steps(yes);
            read_steps(no);
        }
        FlatStep::Block { body } => read_steps(body),
        FlatStep::Loop { body } => read_steps(body),
        FlatStep::Inner { body } => read_steps(body),
        FlatStep::Same { to: _, from: _ }
        | FlatStep::Arith {
            to: _,
            op: _,
            left: _,
            right: _,
        }
        | FlatStep::Exit { levels: _ }
        | FlatStep::Call {
            to: _,
            function: _,
            args: _,
        }
        | FlatStep::Return { from: _ }
        | FlatStep::Slot { to: _, from: _ }
        | FlatStep::Look { to: _, slot: _ }
        | FlatStep::Load {
            to: _,
            at: _,
            width: _,
        }
        | FlatStep::Store {
            at: _,
            from: _,
            width: _,
        }
        | FlatStep::Checked { from: _, to: _ }
        | FlatStep::LineMark { line: _ }
        | FlatStep::Report { kind: _, line: _ }
        | FlatStep::Env {
            to: _,
            call: _,
            a: _,
            b: _,
        } => {}
    }
}

#[tactic(auto, using(flat_code::proofs::CodeViewed::flat_views))]
#[cycle(words)]
fn read_steps(steps: &[FlatStep])
    ensures { HaveWords (steps_of steps.now) }
{
    for step in steps {
        read_step(step);
    }
}

fn read_function(function: &FlatFunction)
    ensures { FunctionHasWords (function_of function.now) }
{
    let _line = function.line;
    read_steps(function.body.as_slice());
}

fn read_functions(functions: &[FlatFunction])
    ensures { AllByRecursion FunctionHasWords (map function_of functions.now) }
{
    for function in functions {
        read_function(function);
    }
}

/// The numbers of the code are words.
pub fn numbers_are_words(code: &Flat)
    ensures { HasWords (code_of code.now) }
{
    read_functions(code.functions.as_slice());
}
