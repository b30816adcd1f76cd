//! What a list of steps tells by itself: what guards it, what a value was just set by.
ghost use Rattle.std.specs.Prelude.{◌≡◌, ◌==◌, ◌&&◌, not, ℕ, OnOk, if◌then◌else◌};
ghost use Rattle.flat_code.specs.CodeViews.{step_of};
ghost use Rattle.flat_discipline.specs.Facts.{tell, untold, branch, origin_of, masked_if, guard_after, test_if, test_after};
ghost use Rattle.flat_verify.specs.Hints.{here_of, origin_at, origin_written, guard_written, test_written};

use crate::steps::sets;
use bb_words::steps::ArithOp;
use flat_code::code::FlatStep;
use std::alloc::{AllocError, Global};

/// The steps run only where the value `index` is below the value `count`.
#[derive(Clone, Copy)]
pub struct Limit {
    pub index: u32,
    pub count: u32,
}

/// What just set a value.
#[derive(Clone, Copy)]
pub enum SetBy {
    Other,
    InFrame(u32),
    Constant(u32),
    AtMost(u32),
}

/// A value that was set by testing a limit.
#[derive(Clone, Copy)]
pub struct Test {
    pub value: u32,
    pub limit: Limit,
}

/// A value, and what set it last.
#[derive(Clone, Copy)]
pub struct LastSet {
    pub value: u32,
    pub by: SetBy,
}

/// What is told before a step.
#[derive(Drop)]
pub struct Hints {
    pub guard: Option<Limit>,
    pub test: Option<Test>,
    pub origins: Vec<LastSet>,
}

/// What is told at the begin of a list.
pub(crate) fn untold(alloc: Global) -> Hints
    ensures { here_of result ≡ untold }
{
    Hints {
        guard: None,
        test: None,
        origins: Vec::new(alloc),
    }
}

/// What is told where an `If` found its value not to be 0.
pub(crate) fn branch(alloc: Global, told: &Hints, cond: u32) -> Hints
    ensures { here_of result ≡ branch (here_of told.now) cond }
{
    let guard = match told.test {
        Some(test) => {
            if test.value == cond {
                Some(test.limit)
            } else {
                None
            }
        }
        None => None,
    };
    Hints {
        guard,
        test: None,
        origins: Vec::new(alloc),
    }
}

// What set the value last.
pub(crate) fn origin_at(origins: &[LastSet], value: u32) -> SetBy
    ensures { origin_written result ≡ origin_at origins.now value }
{
    match origins {
        [] => SetBy::Other,
        [first, rest @ ..] => {
            if value == first.value {
                first.by
            } else {
                origin_at(rest, value)
            }
        }
    }
}

// The value was set by this.
fn set_now(origins: &mut Vec<LastSet>, value: u32, by: SetBy) -> Result<(), AllocError>
    ensures { OnOk result ((v : ℕ) → origin_at origins.new.items v ≡ (if v == value then origin_written by else origin_at origins.old.items v)) }
{
    for k in 0..origins.len() {
        if origins[k].value == value {
            origins[k] = LastSet { value, by };
            return Ok(());
        }
    }
    origins.push(LastSet { value, by })?;
    Ok(())
}

fn masked_if(op: ArithOp, by: SetBy) -> SetBy
    ensures { origin_written result ≡ masked_if op (origin_written by) }
{
    match op {
        ArithOp::And => match by {
            SetBy::Constant(m) => SetBy::AtMost(m),
            _ => SetBy::Other,
        },
        _ => SetBy::Other,
    }
}

#[tactic(auto, using(flat_code::proofs::CodeViewed::flat_views))]
fn origin_of(told: &Hints, step: &FlatStep) -> SetBy
    ensures { origin_written result ≡ origin_of (here_of told.now) (step_of step.now) }
{
    match step {
        FlatStep::FrameAt { to: _, offset } => SetBy::InFrame(*offset),
        FlatStep::Number { to: _, value } => SetBy::Constant(value.0),
        FlatStep::Arith {
            to: _,
            op,
            left: _,
            right,
        } => masked_if(*op, origin_at(&told.origins, *right)),
        _ => SetBy::Other,
    }
}

#[tactic(auto, using(flat_code::proofs::CodeViewed::flat_views))]
fn guard_after(guard: Option<Limit>, step: &FlatStep) -> Option<Limit>
    ensures { guard_written result ≡ guard_after (guard_written guard) (step_of step.now) }
{
    match step {
        FlatStep::Arith {
            to,
            op: _,
            left: _,
            right: _,
        } => match guard {
            Some(limit) => {
                if limit.index == *to || limit.count == *to {
                    None
                } else {
                    Some(limit)
                }
            }
            None => None,
        },
        _ => None,
    }
}

fn test_of(op: ArithOp, to: u32, left: u32, right: u32) -> Option<Test>
    ensures { (c : ℕ) → test_written result c ≡ test_if op ((c == to) && (not (left == to) && not (right == to))) left right }
{
    match op {
        ArithOp::Ltu => {
            if left == to || right == to {
                None
            } else {
                Some(Test {
                    value: to,
                    limit: Limit {
                        index: left,
                        count: right,
                    },
                })
            }
        }
        _ => None,
    }
}

#[tactic(auto, using(flat_code::proofs::CodeViewed::flat_views))]
fn test_after(step: &FlatStep) -> Option<Test>
    ensures { (c : ℕ) → test_written result c ≡ test_after (step_of step.now) c }
{
    match step {
        FlatStep::Arith {
            to,
            op,
            left,
            right,
        } => test_of(*op, *to, *left, *right),
        _ => None,
    }
}

/// What is told after a step.
pub(crate) fn tell(told: &mut Hints, step: &FlatStep) -> Result<(), AllocError>
    ensures { OnOk result (here_of told.new ≡ tell (here_of told.old) (step_of step.now)) }
{
    let by = origin_of(told, step);
    told.guard = guard_after(told.guard, step);
    told.test = test_after(step);
    if let Some(to) = sets(step) {
        set_now(&mut told.origins, to, by)?;
    }
    Ok(())
}
