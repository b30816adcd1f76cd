//! What the steps of a function want to be known.
ghost use Rattle.std.specs.Prelude.{◌≡◌, ◌+◌, ◌++◌, map, IfOk, OnOk};
ghost use Rattle.flat_code.specs.CodeViews.{step_of, steps_of};
ghost use Rattle.flat_discipline.specs.Items.{step_places, steps_places};
ghost use Rattle.flat_discipline.specs.Facts.{is_among};
ghost use Rattle.flat_discipline.specs.Breaks.{address, reads, shared};
ghost use Rattle.flat_verify.specs.Links.{own_all, read_facts};
ghost use Rattle.flat_verify.specs.Views.{fact_of};

use crate::facts::Fact;
use crate::sheets::NoMemory;
use crate::steps::{address, reads};
use flat_code::code::FlatStep;
use std::alloc::Global;

/// The sum of two counts of places.
pub(crate) fn places_sum(a: u32, b: u32) -> Result<u32, NoMemory>
    ensures { IfOk result (λ n. n ≡ a + b) }
{
    match a.checked_add(b) {
        Some(n) => Ok(n),
        None => Err(NoMemory),
    }
}

/// How many places a step has.
#[cycle(places)]
#[tactic(auto, using(flat_code::proofs::CodeViewed::flat_views, crate::proofs::Sized::item_places))]
pub(crate) fn step_places(step: &FlatStep) -> Result<u32, NoMemory>
    ensures { IfOk result (λ n. n ≡ step_places (step_of step.now)) }
{
    match step {
        FlatStep::If { cond: _, yes, no } => {
            let first = steps_places(yes)?;
            let second = steps_places(no)?;
            let before = places_sum(1, first)?;
            places_sum(before, second)
        }
        FlatStep::Block { body } => {
            let inside = steps_places(body)?;
            places_sum(1, inside)
        }
        FlatStep::Loop { body } => {
            let inside = steps_places(body)?;
            places_sum(1, inside)
        }
        FlatStep::Inner { body } => {
            let inside = steps_places(body)?;
            places_sum(1, inside)
        }
        _ => Ok(1),
    }
}

/// How many places these steps have.
#[cycle(places)]
#[tactic(auto, using(crate::proofs::Sized::item_places, crate::proofs::Sized::next_places))]
pub(crate) fn steps_places(steps: &[FlatStep]) -> Result<u32, NoMemory>
    ensures { IfOk result (λ n. n ≡ steps_places (steps_of steps.now)) }
{
    let mut n = 0;
    for step in steps {
        let more = step_places(step)?;
        n = places_sum(n, more)?;
    }
    Ok(n)
}

pub(crate) fn push_own_all(facts: &mut Vec<Fact>, values: &[u32]) -> Result<(), NoMemory>
    ensures { OnOk result (map fact_of facts.new.items ≡ map fact_of facts.old.items ++ own_all values.now) }
{
    for v in values {
        facts.push(Fact::Own(*v))?;
    }
    Ok(())
}

fn read_facts(alloc: Global, address: Option<u32>, values: &[u32]) -> Result<Vec<Fact>, NoMemory>
    ensures { IfOk result (λ v. map fact_of v.items ≡ read_facts address values.now) }
{
    let mut facts = Vec::new(alloc);
    if let Some(v) = address {
        facts.push(Fact::Clean(v))?;
    }
    push_own_all(&mut facts, values)?;
    Ok(facts)
}

/// What a step outside of sequences wants to be known.
pub(crate) fn facts_wanted(alloc: Global, step: &FlatStep) -> Result<Vec<Fact>, NoMemory>
    ensures { IfOk result (λ v. map fact_of v.items ≡ read_facts (address (step_of step.now)) (reads (step_of step.now))) }
{
    let values = reads(alloc, step)?;
    read_facts(alloc, address(step), &values)
}

fn is_among(v: u32, values: &[u32]) -> bool
    ensures { result ≡ is_among v values.now }
{
    match values {
        [] => false,
        [first, rest @ ..] => v == *first || is_among(v, rest),
    }
}

// Those of the values that are among the operands.
pub(crate) fn shared(alloc: Global, operands: &[u32], values: &[u32]) -> Result<Vec<u32>, NoMemory>
    ensures { IfOk result (λ v. v.items ≡ shared operands.now values.now) }
{
    let mut both = Vec::new(alloc);
    for v in values {
        if is_among(*v, operands) {
            both.push(*v)?;
        }
    }
    Ok(both)
}
