//! The parts of steps, item by item.
#![tactic(auto, using(crate::proofs::Emitted::emitted))]

ghost use Rattle.std.specs.Prelude.{◌≡◌, ◌+◌, ◌-◌, ◌≤◌, ◌++◌, ◌∷◌, [], OnOk, IfOk};
ghost use Rattle.flat_code.specs.CodeViews.{step_of, steps_of};
ghost use Rattle.flat_code.specs.Recognized.{further};
ghost use Rattle.flat_code.specs.SequenceViews.{sequence_of};
ghost use Rattle.flat_discipline.specs.Items.{item_of, items_from};
ghost use Rattle.rv_asm.specs.declared.parts.Part.TheVariants.{Label, Jump};
ghost use Rattle.rv_selected.specs.Selection as selection;
ghost use Rattle.rv_selected.specs.Checks.{sequence_labels};

use crate::checks::{put_branch, put_label, put_sequence};
use crate::emit::after;
use crate::steps::{held_after, put_fetch, put_jump, put_step};
use flat_code::code::FlatStep;
use flat_code::recognize::{FlatSequence, sequence_at};
use rv_asm::parts::{BranchOp, Part};
use std::alloc::{AllocError, Global};

/// What the parts of a function's steps depend on.
#[derive(Drop)]
pub struct InFunction {
    /// The exponent of a slot.
    pub exponent: u8,
    /// The label of the function's end.
    pub back: u32,
    ghost least: { 1 ≤ exponent },
    ghost most: { exponent ≤ 24 },
}

/// More parts that are made already.
fn put_parts(parts: &mut Vec<Part>, more: &[Part]) -> Result<(), AllocError>
    ensures { OnOk result (parts.new.items ≡ parts.old.items ++ more.now) }
{
    parts.extend_from_slice(more)?;
    Ok(())
}

/// The labels behind the constructs around a step, with one more around it.
fn within(alloc: Global, label: u32, exits: &[u32]) -> Result<Vec<u32>, AllocError>
    ensures { IfOk result (λ v. v.items ≡ label ∷ exits.now) }
{
    let mut labels = Vec::new(alloc);
    labels.push(label)?;
    labels.extend_from_slice(exits)?;
    Ok(labels)
}

/// A choice by the word in x5, between parts that are made already.
fn put_choice(
    parts: &mut Vec<Part>,
    no_first: bool,
    no_second: bool,
    label: u32,
    first: &[Part],
    second: &[Part],
) -> Result<(), AllocError>
    ensures { OnOk result (parts.new.items ≡ parts.old.items ++ selection.choice_parts no_first no_second label first.now second.now) }
{
    let end = after(label)?;
    if no_first {
        put_branch(parts, BranchOp::Bne, 5, 0, label)?;
        put_parts(parts, second)?;
        put_label(parts, label)?;
        return put_label(parts, end);
    }
    if no_second {
        put_branch(parts, BranchOp::Beq, 5, 0, label)?;
        put_parts(parts, first)?;
        put_label(parts, label)?;
        return put_label(parts, end);
    }
    put_branch(parts, BranchOp::Beq, 5, 0, label)?;
    put_parts(parts, first)?;
    put_jump(parts, end)?;
    put_label(parts, label)?;
    put_parts(parts, second)?;
    put_label(parts, end)
}

/// The label after those of a sequence.
fn after_sequence(label: u32, sequence: FlatSequence) -> Result<u32, AllocError>
    ensures { IfOk result (λ n. n ≡ label + sequence_labels (sequence_of sequence)) }
{
    let count = match sequence {
        FlatSequence::Move(_) => 3,
        FlatSequence::Load(_) => 2,
        FlatSequence::Span(_) => 5,
    };
    match label.checked_add(count) {
        Some(next) => Ok(next),
        None => Err(AllocError),
    }
}

/// How many steps after its first belong to a sequence.
fn further_steps(g: u8, sequence: FlatSequence) -> usize
    ensures { result ≡ further g (Some (sequence_of sequence)) }
{
    match sequence {
        FlatSequence::Move(_) => 15,
        FlatSequence::Load(_) => 1,
        FlatSequence::Span(_) => 3,
    }
}

/// The parts of a step, with the steps in it; its labels are those from one on. The answer is the next label.
#[tactic(auto, using(flat_code::proofs::CodeViewed::flat_views))]
#[cycle(items)]
fn put_item(
    alloc: Global,
    in_function: &InFunction,
    known: Option<u32>,
    exits: &[u32],
    step: &FlatStep,
    parts: &mut Vec<Part>,
    label: u32,
) -> Result<u32, AllocError>
    ensures parts { OnOk result (parts.new.items ≡ parts.old.items ++ selection.item_parts in_function.now.exponent in_function.now.back known exits.now label
        (item_of in_function.now.exponent (step_of step.now))) }
    ensures next { IfOk result (λ next. next ≡ label + selection.item_labels (item_of in_function.now.exponent (step_of step.now))) }
{
    match step {
        FlatStep::If { cond, yes, no } => {
            let end = after(label)?;
            let inside = after(end)?;
            put_fetch(parts, known, *cond)?;
            let (yes, no) = (yes.as_slice(), no.as_slice());
            let mut first = Vec::new(alloc);
            let middle = put_items(alloc, in_function, None, exits, yes, &mut first, inside)?;
            let mut second = Vec::new(alloc);
            let next = put_items(alloc, in_function, None, exits, no, &mut second, middle)?;
            put_choice(parts, yes.is_empty(), no.is_empty(), label, &first, &second)?;
            Ok(next)
        }
        FlatStep::Block { body } => {
            let inside = after(label)?;
            let around = within(alloc, label, exits)?;
            let next = put_items(alloc, in_function, known, &around, body, parts, inside)?;
            put_label(parts, label)?;
            Ok(next)
        }
        FlatStep::Loop { body } => {
            let end = after(label)?;
            let inside = after(end)?;
            let around = within(alloc, end, exits)?;
            put_label(parts, label)?;
            let next = put_items(alloc, in_function, None, &around, body, parts, inside)?;
            put_back(parts, label, end)?;
            Ok(next)
        }
        FlatStep::Inner { body } => {
            let end = after(label)?;
            let inside = after(end)?;
            let around = within(alloc, end, exits)?;
            put_label(parts, label)?;
            let next = put_items(alloc, in_function, None, &around, body, parts, inside)?;
            put_back(parts, label, end)?;
            Ok(next)
        }
        _ => {
            put_step(
                parts,
                in_function.exponent,
                in_function.back,
                known,
                exits,
                step,
            )?;
            Ok(label)
        }
    }
}

/// The end of a loop: back to its begin, and the label behind it.
fn put_back(parts: &mut Vec<Part>, label: u32, end: u32) -> Result<(), AllocError>
    ensures { OnOk result (parts.new.items ≡ parts.old.items ++ Jump 0 label ∷ Label end ∷ []) }
{
    put_jump(parts, label)?;
    put_label(parts, end)
}

/// The parts of steps; their labels are those from one on. The answer is the next label.
#[tactic(auto, using(flat_code::proofs::CodeViewed::flat_views))]
#[cycle(items)]
pub fn put_items(
    alloc: Global,
    in_function: &InFunction,
    known: Option<u32>,
    exits: &[u32],
    steps: &[FlatStep],
    parts: &mut Vec<Part>,
    label: u32,
) -> Result<u32, AllocError>
    ensures parts { OnOk result (parts.new.items ≡ parts.old.items ++ selection.items_parts in_function.now.exponent in_function.now.back known exits.now label
        (items_from in_function.now.exponent 0 (steps_of steps.now))) }
    ensures next { IfOk result (λ next. next ≡ label + selection.items_labels (items_from in_function.now.exponent 0 (steps_of steps.now))) }
{
    let mut skip: usize = 0;
    let mut held = known;
    let mut next = label;
    for (i, step) in steps.iter().enumerate() {
        if skip > 0 {
            skip -= 1;
            continue;
        }
        if let Some(sequence) = sequence_at(alloc, in_function.exponent, &steps[i..])? {
            put_sequence(parts, in_function.exponent, next, sequence)?;
            next = after_sequence(next, sequence)?;
            skip = further_steps(in_function.exponent, sequence);
            held = None;
            continue;
        }
        next = put_item(alloc, in_function, held, exits, step, parts, next)?;
        held = held_after(held, step);
    }
    Ok(next)
}
