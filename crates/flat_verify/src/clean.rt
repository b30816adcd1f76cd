//! Where it comes from that the value is untainted which a step sets.
ghost use Rattle.std.specs.Prelude.{◌≡◌, ◌≤◌, ◌<◌, ◌+◌, ◌==◌, ◌||◌, ◌&&◌, map};
ghost use Rattle.size_table.specs.Blocks.{end_of};
ghost use Rattle.flat_code.specs.CodeViews.{step_of};
ghost use Rattle.flat_discipline.specs.Facts.{lies_in, held_if, reach_past, is_masked, element, sum_of, clean_of};
ghost use Rattle.flat_discipline.specs.Facts.Source.{Gone};
ghost use Rattle.flat_verify.specs.Hints.{here_of, guard_written, origin_written};
ghost use Rattle.flat_verify.specs.Views.{setting_for, source_of, block_of, AreSmall};

use crate::facts::{Fact, GlobalBlock, Source};
use crate::hints::{Hints, Limit, SetBy, origin_at};
use bb_words::steps::ArithOp;
use flat_code::code::{FlatFunction, FlatStep};

fn end_of(block: GlobalBlock) -> u64
    requires { block.exponent ≤ 24 }
    ensures { result ≡ end_of (block_of block) }
{
    u64::from(block.base) + (1u64 << block.exponent)
}

fn lies_in(globals: &[GlobalBlock], x: u32) -> bool
    requires { AreSmall globals.now }
    ensures { result ≡ lies_in (map block_of globals.now) x }
{
    match globals {
        [] => false,
        [first, rest @ ..] => {
            (first.base <= x && u64::from(x) < end_of(*first)) || lies_in(rest, x)
        }
    }
}

fn reach_past(globals: &[GlobalBlock], x: u64) -> bool
    requires { AreSmall globals.now }
    ensures { result ≡ reach_past (map block_of globals.now) x }
{
    match globals {
        [] => false,
        [first, rest @ ..] => x < end_of(*first) || reach_past(rest, x),
    }
}

// A base and a mask whose sum stays in the frame or below the end of the global objects.
fn is_masked(
    globals: &[GlobalBlock],
    functions: &[FlatFunction],
    function: &FlatFunction,
    base: SetBy,
    mask: SetBy,
) -> bool
    requires { AreSmall globals.now }
    ensures { result ≡ is_masked (setting_for globals.now functions.now function.now) (origin_written base) (origin_written mask) }
{
    match mask {
        SetBy::AtMost(m) => match base {
            SetBy::InFrame(o) => u64::from(o) + u64::from(m) < u64::from(function.frame),
            SetBy::Constant(b) => {
                lies_in(globals, b) && reach_past(globals, u64::from(b) + u64::from(m))
            }
            _ => false,
        },
        _ => false,
    }
}

fn element(guard: Option<Limit>, pointer: u32, index: u32) -> Source
    ensures { source_of result ≡ element (guard_written guard) pointer index }
{
    match guard {
        Some(limit) => {
            if index == limit.index {
                Source::From(Fact::Spanned(pointer, limit.count))
            } else {
                Source::Gone
            }
        }
        None => Source::Gone,
    }
}

fn sum_of(
    globals: &[GlobalBlock],
    functions: &[FlatFunction],
    function: &FlatFunction,
    told: &Hints,
    op: ArithOp,
    left: u32,
    right: u32,
) -> Source
    requires { AreSmall globals.now }
    ensures { source_of result ≡ sum_of (setting_for globals.now functions.now function.now) (here_of told.now) op left right }
{
    match op {
        ArithOp::Add => {
            let base = origin_at(&told.origins, left);
            let mask = origin_at(&told.origins, right);
            if is_masked(globals, functions, function, base, mask) {
                Source::Held
            } else {
                element(told.guard, left, right)
            }
        }
        _ => Source::Gone,
    }
}

fn of_number(globals: &[GlobalBlock], value: u32) -> Source
    requires { AreSmall globals.now }
    ensures { source_of result ≡ held_if ((value == 0) || lies_in (map block_of globals.now) value) Gone }
{
    if value == 0 || lies_in(globals, value) {
        Source::Held
    } else {
        Source::Gone
    }
}

/// Where it comes from that the value is untainted which the step sets.
#[tactic(auto, using(flat_code::proofs::CodeViewed::flat_views))]
pub(crate) fn clean_of(
    globals: &[GlobalBlock],
    functions: &[FlatFunction],
    function: &FlatFunction,
    told: &Hints,
    step: &FlatStep,
) -> Source
    requires { AreSmall globals.now }
    ensures { source_of result ≡ clean_of (setting_for globals.now functions.now function.now) (here_of told.now) (step_of step.now) }
{
    match step {
        FlatStep::Number { to: _, value } => of_number(globals, value.0),
        FlatStep::Same { to: _, from } => Source::From(Fact::Clean(*from)),
        FlatStep::Arith {
            to: _,
            op,
            left,
            right,
        } => sum_of(globals, functions, function, told, *op, *left, *right),
        FlatStep::FrameAt { to: _, offset: _ } => Source::Held,
        FlatStep::Call {
            to: _,
            function: callee,
            args: _,
        } => Source::FromCall(*callee),
        FlatStep::Env {
            to: _,
            call,
            a: _,
            b: _,
        } => {
            if *call == 4 {
                Source::Held
            } else {
                Source::Gone
            }
        }
        _ => Source::Gone,
    }
}
