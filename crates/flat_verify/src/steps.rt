//! What a step is by itself: what it sets and reads, and whether its numbers are in range.
ghost use Rattle.std.specs.Prelude.{◌≡◌, ◌∷◌, [], map, slice_get, IfOk, List};
ghost use Rattle.flat_code.specs.CodeViews.{step_of, function_of};
ghost use Rattle.flat_discipline.specs.Facts.{sets, may_end};
ghost use Rattle.flat_discipline.specs.Breaks.{all_below, is_count, fits, is_plain, address, reads};
ghost use Rattle.flat_discipline.specs.Discipline.{params_in};
ghost use Rattle.flat_verify.specs.Views.{setting_for};
ghost use Rattle.flat_verify.specs.declared.facts.GlobalBlock.{GlobalBlock as Blocks};

use flat_code::code::{FlatFunction, FlatStep};
use std::alloc::{AllocError, Global};

/// The value that the step sets.
#[tactic(auto, using(flat_code::proofs::CodeViewed::flat_views))]
pub(crate) fn sets(step: &FlatStep) -> Option<u32>
    ensures { result ≡ sets (step_of step.now) }
{
    match step {
        FlatStep::Number { to, value: _ } => Some(*to),
        FlatStep::Same { to, from: _ } => Some(*to),
        FlatStep::Arith {
            to,
            op: _,
            left: _,
            right: _,
        } => Some(*to),
        FlatStep::Call {
            to,
            function: _,
            args: _,
        } => Some(*to),
        FlatStep::Slot { to, from: _ } => Some(*to),
        FlatStep::Look { to, slot: _ } => Some(*to),
        FlatStep::FrameAt { to, offset: _ } => Some(*to),
        FlatStep::Load {
            to,
            at: _,
            width: _,
        } => Some(*to),
        FlatStep::Env {
            to,
            call: _,
            a: _,
            b: _,
        } => Some(*to),
        _ => None,
    }
}

/// Whether a block may end in the step.
#[tactic(auto, using(flat_code::proofs::CodeViewed::flat_views))]
pub(crate) fn may_end(step: &FlatStep) -> bool
    ensures { result ≡ may_end (step_of step.now) }
{
    match step {
        FlatStep::Call {
            to: _,
            function: _,
            args: _,
        } => true,
        FlatStep::Env {
            to: _,
            call: _,
            a: _,
            b: _,
        } => true,
        _ => false,
    }
}

/// Whether the step is no construct and may stand outside of sequences.
#[tactic(auto, using(flat_code::proofs::CodeViewed::flat_views))]
pub(crate) fn is_plain(step: &FlatStep) -> bool
    ensures { result ≡ is_plain (step_of step.now) }
{
    match step {
        FlatStep::If {
            cond: _,
            yes: _,
            no: _,
        } => false,
        FlatStep::Block { body: _ } => false,
        FlatStep::Loop { body: _ } => false,
        FlatStep::Inner { body: _ } => false,
        FlatStep::Slot { to: _, from: _ } => false,
        FlatStep::Look { to: _, slot: _ } => false,
        FlatStep::Checked { from: _, to: _ } => false,
        _ => true,
    }
}

/// The value that the step uses as an address.
#[tactic(auto, using(flat_code::proofs::CodeViewed::flat_views))]
pub(crate) fn address(step: &FlatStep) -> Option<u32>
    ensures { result ≡ address (step_of step.now) }
{
    match step {
        FlatStep::Load {
            to: _,
            at,
            width: _,
        } => Some(*at),
        FlatStep::Store {
            at,
            from: _,
            width: _,
        } => Some(*at),
        _ => None,
    }
}

fn none(alloc: Global) -> Result<Vec<u32>, AllocError>
    ensures { IfOk result (λ v. v.items ≡ []) }
{
    Ok(Vec::new(alloc))
}

/// The same values in a `Vec` of their own.
pub(crate) fn copied(alloc: Global, values: &[u32]) -> Result<Vec<u32>, AllocError>
    ensures { IfOk result (λ v. v.items ≡ values.now) }
{
    let mut copy = Vec::new(alloc);
    copy.extend_from_slice(values)?;
    Ok(copy)
}

fn one(alloc: Global, a: u32) -> Result<Vec<u32>, AllocError>
    ensures { IfOk result (λ v. v.items ≡ a ∷ []) }
{
    Ok(vec![in alloc; a]?)
}

fn two(alloc: Global, a: u32, b: u32) -> Result<Vec<u32>, AllocError>
    ensures { IfOk result (λ v. v.items ≡ a ∷ b ∷ []) }
{
    Ok(vec![in alloc; a, b]?)
}

/// The values that the step reads.
#[tactic(auto, using(flat_code::proofs::CodeViewed::flat_views))]
pub(crate) fn reads(alloc: Global, step: &FlatStep) -> Result<Vec<u32>, AllocError>
    ensures { IfOk result (λ v. v.items ≡ reads (step_of step.now)) }
{
    match step {
        FlatStep::Same { to: _, from } => one(alloc, *from),
        FlatStep::Arith {
            to: _,
            op: _,
            left,
            right,
        } => two(alloc, *left, *right),
        FlatStep::If {
            cond,
            yes: _,
            no: _,
        } => one(alloc, *cond),
        FlatStep::Call {
            to: _,
            function: _,
            args,
        } => copied(alloc, args),
        FlatStep::Return { from } => one(alloc, *from),
        FlatStep::Slot { to: _, from } => one(alloc, *from),
        FlatStep::Look { to: _, slot } => one(alloc, *slot),
        FlatStep::Load {
            to: _,
            at,
            width: _,
        } => one(alloc, *at),
        FlatStep::Store { at, from, width: _ } => two(alloc, *at, *from),
        FlatStep::Checked { from, to } => two(alloc, *from, *to),
        FlatStep::Report { kind: _, line } => one(alloc, *line),
        FlatStep::Env {
            to: _,
            call: _,
            a,
            b,
        } => two(alloc, *a, *b),
        FlatStep::Number { to: _, value: _ } => none(alloc),
        FlatStep::Block { body: _ } => none(alloc),
        FlatStep::Loop { body: _ } => none(alloc),
        FlatStep::Inner { body: _ } => none(alloc),
        FlatStep::Exit { levels: _ } => none(alloc),
        FlatStep::FrameAt { to: _, offset: _ } => none(alloc),
        FlatStep::LineMark { line: _ } => none(alloc),
    }
}

fn all_below(n: u32, values: &[u32]) -> bool
    ensures { result ≡ all_below n values.now }
{
    match values {
        [] => true,
        [x, rest @ ..] => *x < n && all_below(n, rest),
    }
}

/// How many parameters a function has, if there is one of that number.
pub(crate) fn params_at(functions: &[FlatFunction], k: u32) -> Option<u32>
    ensures { result ≡ params_in (slice_get (map function_of functions.now) k) }
{
    let k = k as usize;
    if k < functions.len() {
        Some(functions[k].params)
    } else {
        None
    }
}

fn has_params(functions: &[FlatFunction], k: u32, count: usize) -> bool
    ensures { result ≡ is_count (params_in (slice_get (map function_of functions.now) k)) count }
{
    match params_at(functions, k) {
        Some(params) => params as usize == count,
        None => false,
    }
}

/// Whether the numbers of a step are in range, within so many constructs that an Exit can leave.
#[tactic(auto, using(flat_code::proofs::CodeViewed::flat_views))]
pub(crate) fn fits(
    functions: &[FlatFunction],
    function: &FlatFunction,
    levels: u32,
    step: &FlatStep,
) -> bool
    ensures { (globals : List Blocks) → result ≡ fits (setting_for globals functions.now function.now) levels (step_of step.now) }
{
    let n = function.values;
    match step {
        FlatStep::Number { to, value: _ } => *to < n,
        FlatStep::Same { to, from } => *to < n && *from < n,
        FlatStep::Arith {
            to,
            op: _,
            left,
            right,
        } => *to < n && *left < n && *right < n,
        FlatStep::If {
            cond,
            yes: _,
            no: _,
        } => *cond < n,
        FlatStep::Block { body: _ } => true,
        FlatStep::Loop { body: _ } => true,
        FlatStep::Inner { body: _ } => true,
        FlatStep::Exit { levels: most } => 0 < *most && *most <= levels,
        FlatStep::Call {
            to,
            function: callee,
            args,
        } => {
            *to < n
                && all_below(n, args)
                && has_params(functions, *callee, args.len())
                && function.line != 0
        }
        FlatStep::Return { from } => *from < n,
        FlatStep::Slot { to, from } => *to < n && *from < n,
        FlatStep::Look { to, slot } => *to < n && *slot < n,
        FlatStep::FrameAt { to, offset } => *to < n && *offset < function.frame,
        FlatStep::Load { to, at, width: _ } => *to < n && *at < n,
        FlatStep::Store { at, from, width: _ } => *at < n && *from < n,
        FlatStep::Checked { from, to } => *from < n && *to < n,
        FlatStep::LineMark { line } => *line <= 0xF_FFFF,
        FlatStep::Report { kind: _, line } => *line < n,
        FlatStep::Env { to, call, a, b } => *to < n && *a < n && *b < n && 0 < *call && *call < 6,
    }
}
