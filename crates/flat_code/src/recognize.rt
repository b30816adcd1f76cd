//! Which sequence stands at the front of a list of steps.
ghost use Rattle.std.specs.Prelude.{◌≡◌, ◌&&◌, ◌∷◌, [], IfOk, ◌≤◌};
ghost use Rattle.flat_code.specs.CodeViews.{step_of, steps_of};
ghost use Rattle.flat_code.specs.Recognized.{sequence_at, is_apart, target, source, right_side, line_value, first_of, second_of};
ghost use Rattle.flat_code.specs.Recognized.{step_at, is_none_of, move_is_apart, move_of, load_of, span_of, starts};
ghost use Rattle.flat_code.specs.SequenceViews.{sequence_in, begins};
ghost use Rattle.flat_code.specs.Recognized.Sequence.{Move, Load, Span};
ghost use Rattle.flat_code.specs.Sequences.{move_sequence, load_sequence, span_sequence};

use crate::code::FlatStep;
use crate::emit::{
    LoadValues, MoveValues, SpanValues, load_steps, move_in, move_steps, span_steps,
};
use crate::same::is_start;
use std::alloc::{AllocError, Global};

#[tactic(auto, using(crate::proofs::CodeViewed::flat_views))]
fn target_of(s: &FlatStep) -> u32
    ensures { result ≡ target (step_of s.now) }
{
    match s {
        FlatStep::Number { to, value: _ } => *to,
        FlatStep::Arith {
            to,
            op: _,
            left: _,
            right: _,
        } => *to,
        FlatStep::Slot { to, from: _ } => *to,
        FlatStep::Look { to, slot: _ } => *to,
        FlatStep::Load {
            to,
            at: _,
            width: _,
        } => *to,
        _ => 0,
    }
}

#[tactic(auto, using(crate::proofs::CodeViewed::flat_views))]
fn source_of(s: &FlatStep) -> u32
    ensures { result ≡ source (step_of s.now) }
{
    match s {
        FlatStep::Arith {
            to: _,
            op: _,
            left,
            right: _,
        } => *left,
        FlatStep::Slot { to: _, from } => *from,
        FlatStep::Load {
            to: _,
            at,
            width: _,
        } => *at,
        _ => 0,
    }
}

#[tactic(auto, using(crate::proofs::CodeViewed::flat_views))]
fn right_of(s: &FlatStep) -> u32
    ensures { result ≡ right_side (step_of s.now) }
{
    match s {
        FlatStep::Arith {
            to: _,
            op: _,
            left: _,
            right,
        } => *right,
        _ => 0,
    }
}

#[tactic(auto, using(crate::proofs::CodeViewed::flat_views))]
fn line_of(s: &FlatStep) -> u32
    ensures { result ≡ line_value (step_of s.now) }
{
    match s {
        FlatStep::Report { kind: _, line } => *line,
        _ => 0,
    }
}

#[tactic(auto, using(crate::proofs::CodeViewed::flat_views))]
fn yes_of(s: &FlatStep) -> &[FlatStep]
    ensures { steps_of result.now ≡ first_of (step_of s.now) }
{
    match s {
        FlatStep::If {
            cond: _,
            yes,
            no: _,
        } => yes,
        _ => &[],
    }
}

#[tactic(auto, using(crate::proofs::CodeViewed::flat_views))]
fn no_of(s: &FlatStep) -> &[FlatStep]
    ensures { steps_of result.now ≡ second_of (step_of s.now) }
{
    match s {
        FlatStep::If {
            cond: _,
            yes: _,
            no,
        } => no,
        _ => &[],
    }
}

#[tactic(auto, using(crate::proofs::Emitted::at_list))]
fn target_at(steps: &[FlatStep], n: usize) -> u32
    ensures { result ≡ target (step_at n (steps_of steps.now)) }
{
    if n < steps.len() {
        target_of(&steps[n])
    } else {
        0
    }
}

#[tactic(auto, using(crate::proofs::Emitted::at_list))]
fn source_at(steps: &[FlatStep], n: usize) -> u32
    ensures { result ≡ source (step_at n (steps_of steps.now)) }
{
    if n < steps.len() {
        source_of(&steps[n])
    } else {
        0
    }
}

#[tactic(auto, using(crate::proofs::Emitted::at_list))]
fn right_at(steps: &[FlatStep], n: usize) -> u32
    ensures { result ≡ right_side (step_at n (steps_of steps.now)) }
{
    if n < steps.len() {
        right_of(&steps[n])
    } else {
        0
    }
}

#[tactic(auto, using(crate::proofs::Emitted::at_list))]
fn line_at(steps: &[FlatStep], n: usize) -> u32
    ensures { result ≡ line_value (step_at n (steps_of steps.now)) }
{
    if n < steps.len() {
        line_of(&steps[n])
    } else {
        0
    }
}

#[tactic(auto, using(crate::proofs::Emitted::at_list))]
fn yes_at(steps: &[FlatStep], n: usize) -> &[FlatStep]
    ensures { steps_of result.now ≡ first_of (step_at n (steps_of steps.now)) }
{
    if n < steps.len() {
        yes_of(&steps[n])
    } else {
        &[]
    }
}

#[tactic(auto, using(crate::proofs::Emitted::at_list))]
fn no_at(steps: &[FlatStep], n: usize) -> &[FlatStep]
    ensures { steps_of result.now ≡ second_of (step_at n (steps_of steps.now)) }
{
    if n < steps.len() {
        no_of(&steps[n])
    } else {
        &[]
    }
}

/// The values of the only move sequence that these steps can begin with.
fn move_values(steps: &[FlatStep]) -> MoveValues
    ensures { Move result.pointer result.distance result.result result.line result.slot result.exponent ≡ move_of (steps_of steps.now) }
{
    MoveValues {
        pointer: source_at(steps, 0),
        distance: right_at(steps, 11),
        result: target_at(steps, 3),
        line: line_at(no_at(steps, 2), 0),
        slot: target_at(steps, 0),
        exponent: target_at(steps, 1),
    }
}

/// The values of the only load sequence that they can begin with.
fn load_values(steps: &[FlatStep]) -> LoadValues
    ensures { Load result.to result.at result.line result.slot result.exponent ≡ load_of (steps_of steps.now) }
{
    let owned = yes_at(steps, 1);
    LoadValues {
        to: target_at(steps, 0),
        at: source_at(steps, 0),
        line: line_at(no_at(owned, 3), 0),
        slot: target_at(owned, 0),
        exponent: target_at(owned, 1),
    }
}

/// The values of the only span sequence that they can begin with.
fn span_values(steps: &[FlatStep]) -> SpanValues
    ensures { Span result.pointer result.count result.last result.line result.distance result.slot result.exponent ≡ span_of (steps_of steps.now) }
{
    let touch = yes_at(steps, 3);
    SpanValues {
        pointer: source_at(touch, 0),
        count: source_at(steps, 1),
        last: target_at(touch, 6),
        line: line_at(no_at(steps, 2), 0),
        distance: target_at(steps, 0),
        slot: target_at(touch, 3),
        exponent: target_at(touch, 4),
    }
}

/// A sequence, by the numbers of its values.
#[derive(Clone, Copy)]
pub enum FlatSequence {
    Move(MoveValues),
    Load(LoadValues),
    Span(SpanValues),
}

fn differs(x: u32, ys: &[u32]) -> bool
    ensures { result ≡ is_none_of x ys.now }
{
    match ys {
        [] => true,
        [y, rest @ ..] => x != *y && differs(x, rest),
    }
}

fn move_differs(v: MoveValues) -> bool
    ensures { result ≡ move_is_apart v.pointer v.distance v.result v.line v.slot v.exponent }
{
    differs(v.result, &[v.pointer, v.distance, v.line])
        && differs(v.slot, &[v.pointer, v.distance, v.line, v.result])
        && differs(
            v.exponent,
            &[v.pointer, v.distance, v.line, v.result, v.slot],
        )
}

fn load_differs(v: LoadValues) -> bool
    ensures { result ≡ is_apart (Load v.to v.at v.line v.slot v.exponent) }
{
    differs(v.to, &[v.line])
        && differs(v.slot, &[v.to, v.line])
        && differs(v.exponent, &[v.to, v.line, v.slot])
}

fn span_differs(v: SpanValues) -> bool
    ensures { result ≡ is_apart (Span v.pointer v.count v.last v.line v.distance v.slot v.exponent) }
{
    move_differs(move_in(v))
        && differs(v.count, &[v.distance, v.last, v.slot, v.exponent])
        && differs(v.distance, &[v.pointer, v.line])
}

fn begins_with_move(
    alloc: Global,
    g: u8,
    v: MoveValues,
    steps: &[FlatStep],
) -> Result<bool, AllocError>
    requires least { 1 ≤ g }
    requires most { g ≤ 24 }
    ensures { IfOk result (λ b. b ≡ begins g (Move v.pointer v.distance v.result v.line v.slot v.exponent) (steps_of steps.now)) }
{
    if !move_differs(v) {
        return Ok(false);
    }
    let sequence = move_steps(alloc, g, v)?;
    Ok(is_start(&sequence, steps))
}

fn begins_with_load(
    alloc: Global,
    g: u8,
    v: LoadValues,
    steps: &[FlatStep],
) -> Result<bool, AllocError>
    requires least { 1 ≤ g }
    requires most { g ≤ 24 }
    ensures { IfOk result (λ b. b ≡ begins g (Load v.to v.at v.line v.slot v.exponent) (steps_of steps.now)) }
{
    if !load_differs(v) {
        return Ok(false);
    }
    let sequence = load_steps(alloc, g, v)?;
    Ok(is_start(&sequence, steps))
}

fn begins_with_span(
    alloc: Global,
    g: u8,
    v: SpanValues,
    steps: &[FlatStep],
) -> Result<bool, AllocError>
    requires least { 1 ≤ g }
    requires most { g ≤ 24 }
    ensures { IfOk result (λ b. b ≡ begins g (Span v.pointer v.count v.last v.line v.distance v.slot v.exponent) (steps_of steps.now)) }
{
    if !span_differs(v) {
        return Ok(false);
    }
    let sequence = span_steps(alloc, g, v)?;
    Ok(is_start(&sequence, steps))
}

/// The sequence with which the steps begin, if they do, for slots of 2^g bytes.
pub fn sequence_at(
    alloc: Global,
    g: u8,
    steps: &[FlatStep],
) -> Result<Option<FlatSequence>, AllocError>
    requires least { 1 ≤ g }
    requires most { g ≤ 24 }
    ensures { IfOk result (λ r. sequence_in r ≡ sequence_at g (steps_of steps.now)) }
{
    let moving = move_values(steps);
    if begins_with_move(alloc, g, moving, steps)? {
        return Ok(Some(FlatSequence::Move(moving)));
    }
    let loading = load_values(steps);
    if begins_with_load(alloc, g, loading, steps)? {
        return Ok(Some(FlatSequence::Load(loading)));
    }
    let spanning = span_values(steps);
    if begins_with_span(alloc, g, spanning, steps)? {
        return Ok(Some(FlatSequence::Span(spanning)));
    }
    Ok(None)
}
