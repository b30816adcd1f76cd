//! Code as items: plain steps, sequences where they stand, and constructs of further items.
ghost use Rattle.std.specs.Prelude.{◌≡◌, ◌≤◌, ◌+◌, ℕ, map, drop, IfOk};
ghost use Rattle.flat_code.specs.CodeViews.{step_of, steps_of, function_of};
ghost use Rattle.flat_discipline.specs.Items.{item_of, items_of, places, all_places, first_place};
ghost use Rattle.flat_verify.specs.ItemViews.{as_item, as_items, as_bodies, bodies_of};

use crate::demands::places_sum;
use crate::effects::size_of_sequence;
use crate::sheets::NoMemory;
use flat_code::code::{FlatFunction, FlatStep};
use flat_code::recognize::{FlatSequence, sequence_at};
use std::alloc::Global;

/// An item of a function's body.
pub enum FlatItem<'a> {
    /// A step that is no construct, outside of sequences.
    Plain {
        step: &'a FlatStep,
    },
    /// A sequence that checks a pointer.
    Checks {
        sequence: FlatSequence,
    },
    If {
        cond: u32,
        yes: Vec<FlatItem<'a>>,
        no: Vec<FlatItem<'a>>,
    },
    Block {
        body: Vec<FlatItem<'a>>,
    },
    Loop {
        body: Vec<FlatItem<'a>>,
    },
    Inner {
        body: Vec<FlatItem<'a>>,
    },
}

/// By hand, so that letting an item go is a call where it happens.
impl<'a> Drop for FlatItem<'a> {
    fn drop(self) {
        match self {
            FlatItem::Plain { step: _ }
            | FlatItem::Checks { sequence: _ }
            | FlatItem::If {
                cond: _,
                yes: _,
                no: _,
            }
            | FlatItem::Block { body: _ }
            | FlatItem::Loop { body: _ }
            | FlatItem::Inner { body: _ } => {}
        }
    }
}

// The item of a step outside of sequences.
#[cycle(read)]
#[tactic(auto, using(flat_code::proofs::CodeViewed::flat_views, crate::proofs::ItemViewed::item_views, crate::proofs::Sized::item_places))]
fn item_of<'a>(alloc: Global, g: u8, step: &'a FlatStep) -> Result<FlatItem<'a>, NoMemory>
    requires least { 1 ≤ g }
    requires most { g ≤ 24 }
    ensures { IfOk result (λ i. as_item i ≡ item_of g (step_of step.now)) }
{
    match step {
        FlatStep::If { cond, yes, no } => {
            let yes = items_of(alloc, g, yes)?;
            let no = items_of(alloc, g, no)?;
            Ok(FlatItem::If {
                cond: *cond,
                yes,
                no,
            })
        }
        FlatStep::Block { body } => {
            let body = items_of(alloc, g, body)?;
            Ok(FlatItem::Block { body })
        }
        FlatStep::Loop { body } => {
            let body = items_of(alloc, g, body)?;
            Ok(FlatItem::Loop { body })
        }
        FlatStep::Inner { body } => {
            let body = items_of(alloc, g, body)?;
            Ok(FlatItem::Inner { body })
        }
        _ => Ok(FlatItem::Plain { step }),
    }
}

/// The items of these steps, for slots of 2^g bytes.
#[cycle(read)]
#[tactic(auto, using(crate::proofs::ItemViewed::item_views, crate::proofs::Sized::item_places))]
pub(crate) fn items_of<'a>(
    alloc: Global,
    g: u8,
    steps: &'a [FlatStep],
) -> Result<Vec<FlatItem<'a>>, NoMemory>
    requires least { 1 ≤ g }
    requires most { g ≤ 24 }
    ensures { IfOk result (λ v. as_items v.items ≡ items_of g (steps_of steps.now)) }
{
    let mut items = Vec::new(alloc);
    let mut skip: usize = 0;
    for (i, step) in steps.iter().enumerate() {
        if skip > 0 {
            skip -= 1;
            continue;
        }
        if let Some(sequence) = sequence_at(alloc, g, &steps[i..])? {
            let (count, _) = size_of_sequence(sequence);
            items.push(FlatItem::Checks { sequence })?;
            skip = count - 1;
            continue;
        }
        let item = item_of(alloc, g, step)?;
        items.push(item)?;
    }
    Ok(items)
}

/// The items of each of these functions.
pub(crate) fn bodies_of<'a>(
    alloc: Global,
    g: u8,
    functions: &'a [FlatFunction],
) -> Result<Vec<Vec<FlatItem<'a>>>, NoMemory>
    requires least { 1 ≤ g }
    requires most { g ≤ 24 }
    ensures { IfOk result (λ v. as_bodies v.items ≡ bodies_of g (map function_of functions.now)) }
{
    let mut bodies = Vec::new(alloc);
    for function in functions {
        let items = items_of(alloc, g, function.body.as_slice())?;
        bodies.push(items)?;
    }
    Ok(bodies)
}

/// How many places an item has.
#[cycle(places)]
#[tactic(auto, using(crate::proofs::ItemViewed::item_views))]
pub(crate) fn places(item: &FlatItem) -> Result<u32, NoMemory>
    ensures { IfOk result (λ n. (g : ℕ) → n ≡ places g (as_item item.now)) }
{
    match item {
        FlatItem::Plain { step: _ } => Ok(1),
        FlatItem::Checks { sequence } => {
            let (_, size) = size_of_sequence(*sequence);
            Ok(size)
        }
        FlatItem::If { cond: _, yes, no } => {
            let first = all_places(yes)?;
            let second = all_places(no)?;
            let before = places_sum(1, first)?;
            let size = places_sum(before, second)?;
            Ok(size)
        }
        FlatItem::Block { body } => {
            let inside = all_places(body)?;
            let size = places_sum(1, inside)?;
            Ok(size)
        }
        FlatItem::Loop { body } => {
            let inside = all_places(body)?;
            let size = places_sum(1, inside)?;
            Ok(size)
        }
        FlatItem::Inner { body } => {
            let inside = all_places(body)?;
            let size = places_sum(1, inside)?;
            Ok(size)
        }
    }
}

/// How many places these items have.
#[cycle(places)]
#[tactic(auto, using(crate::proofs::ItemViewed::item_views))]
pub(crate) fn all_places(items: &[FlatItem]) -> Result<u32, NoMemory>
    ensures { IfOk result (λ n. (g : ℕ) → n ≡ all_places g (as_items items.now)) }
{
    let mut n = 0;
    for item in items {
        let more = places(item)?;
        n = places_sum(n, more)?;
    }
    Ok(n)
}

/// The place of the first of the items from the one at `i` on, which stand from a place on; or the place after them.
pub(crate) fn first_place(items: &[FlatItem], i: usize, place: u32, after: u32) -> u32
    ensures { result ≡ first_place (as_items (drop i items.now)) place after }
{
    let count = items.len();
    if i < count { place } else { after }
}
