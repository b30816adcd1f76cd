//! What the steps of a function want to be known, in the order of its items.
ghost use Rattle.std.specs.Prelude.{◌≡◌, ◌&&◌, ◌++◌, map, IfOk, OnOk};
ghost use Rattle.flat_code.specs.CodeViews.{step_of, steps_of};
ghost use Rattle.flat_code.specs.SequenceViews.{sequence_of};
ghost use Rattle.flat_discipline.specs.Items.Item.{Plain, Checks};
ghost use Rattle.flat_discipline.specs.Breaks.{fits, is_plain, address, reads};
ghost use Rattle.flat_verify.specs.ItemViews.{as_item, as_items};
ghost use Rattle.flat_verify.specs.Links.{demand, read_facts, inside, inside_demands, all_inside, demands_all};
ghost use Rattle.flat_verify.specs.Links as link;
ghost use Rattle.flat_verify.specs.Settings.{setting_of};
ghost use Rattle.flat_verify.specs.Views.{demand_of};

use crate::demands::{facts_wanted, places_sum, push_own_all, shared, step_places, steps_places};
use crate::effects::{operands, pointer_of, sequence_steps};
use crate::facts::{Demand, Fact};
use crate::items::{FlatItem, all_places, places};
use crate::setting::Setting;
use crate::sheets::NoMemory;
use crate::steps::{fits, is_plain, reads};
use flat_code::code::FlatStep;
use flat_code::recognize::FlatSequence;
use std::alloc::Global;

/// What the steps of a sequence are asked about: its operands, and what is known before the item at a place.
#[derive(Clone, Copy)]
struct Given<'a> {
    operands: &'a [u32],
    at: u32,
}

// The demand of a step inside a sequence.
fn inside(
    alloc: Global,
    setting: &Setting,
    given: &Given,
    levels: u32,
    step: &FlatStep,
    place: u32,
) -> Result<Demand, NoMemory>
    ensures { IfOk result (λ d. demand_of d ≡ inside (setting_of setting.now) given.now.operands.now given.now.at levels (step_of step.now) place) }
{
    let values = reads(alloc, step)?;
    let both = shared(alloc, given.operands, &values)?;
    let mut facts = Vec::new(alloc);
    push_own_all(&mut facts, &both)?;
    Ok(Demand {
        place,
        at: given.at,
        fits: fits(setting.functions, setting.function, levels, step),
        facts,
    })
}

// The demands of a step inside a sequence, with those of the steps in it.
#[cycle(inside)]
#[tactic(auto, using(flat_code::proofs::CodeViewed::flat_views, crate::proofs::Sized::item_places))]
fn push_inside_demands(
    alloc: Global,
    setting: &Setting,
    given: &Given,
    levels: u32,
    step: &FlatStep,
    place: u32,
    demands: &mut Vec<Demand>,
) -> Result<(), NoMemory>
    ensures { OnOk result (map demand_of demands.new.items ≡ map demand_of demands.old.items
        ++ inside_demands (setting_of setting.now) given.now.operands.now given.now.at levels (step_of step.now) place) }
{
    match step {
        FlatStep::If { cond: _, yes, no } => {
            let demand = inside(alloc, setting, given, levels, step, place)?;
            demands.push(demand)?;
            let first = places_sum(place, 1)?;
            push_all_inside(alloc, setting, given, levels, yes, first, demands)?;
            let size = steps_places(yes)?;
            let second = places_sum(first, size)?;
            push_all_inside(alloc, setting, given, levels, no, second, demands)?;
            Ok(())
        }
        FlatStep::Block { body } => {
            let deeper = places_sum(levels, 1)?;
            let first = places_sum(place, 1)?;
            push_all_inside(alloc, setting, given, deeper, body, first, demands)?;
            Ok(())
        }
        FlatStep::Loop { body } => {
            let deeper = places_sum(levels, 1)?;
            let first = places_sum(place, 1)?;
            push_all_inside(alloc, setting, given, deeper, body, first, demands)?;
            Ok(())
        }
        FlatStep::Inner { body } => {
            let deeper = places_sum(levels, 1)?;
            let first = places_sum(place, 1)?;
            push_all_inside(alloc, setting, given, deeper, body, first, demands)?;
            Ok(())
        }
        _ => {
            let demand = inside(alloc, setting, given, levels, step, place)?;
            demands.push(demand)?;
            Ok(())
        }
    }
}

// The demands of these steps inside a sequence.
#[cycle(inside)]
#[tactic(auto, using(crate::proofs::Sized::item_places, crate::proofs::Sized::next_places))]
fn push_all_inside(
    alloc: Global,
    setting: &Setting,
    given: &Given,
    levels: u32,
    steps: &[FlatStep],
    place: u32,
    demands: &mut Vec<Demand>,
) -> Result<(), NoMemory>
    ensures { OnOk result (map demand_of demands.new.items ≡ map demand_of demands.old.items
        ++ all_inside (setting_of setting.now) given.now.operands.now given.now.at levels (steps_of steps.now) place) }
{
    let mut next = place;
    for step in steps {
        push_inside_demands(alloc, setting, given, levels, step, next, demands)?;
        let size = step_places(step)?;
        next = places_sum(next, size)?;
    }
    Ok(())
}

// The demands of a sequence: its pointer is untainted, and its steps are given what they read.
fn push_sequence(
    alloc: Global,
    setting: &Setting,
    levels: u32,
    sequence: FlatSequence,
    place: u32,
    demands: &mut Vec<Demand>,
) -> Result<(), NoMemory>
    ensures { OnOk result (map demand_of demands.new.items ≡ map demand_of demands.old.items
        ++ link.demands setting.now.exponent (setting_of setting.now) levels (Checks (sequence_of sequence)) place) }
{
    let (value, further) = pointer_of(sequence);
    let used = places_sum(place, further)?;
    let facts = vec![in alloc; Fact::Clean(value)]?;
    demands.push(Demand {
        place: used,
        at: place,
        fits: true,
        facts,
    })?;
    let operands = operands(alloc, sequence)?;
    let steps = sequence_steps(alloc, setting.exponent, sequence)?;
    let given = Given {
        operands: &operands,
        at: place,
    };
    push_all_inside(alloc, setting, &given, levels, &steps, place, demands)?;
    Ok(())
}

// The demand of a plain step.
fn plain_demand(
    alloc: Global,
    setting: &Setting,
    levels: u32,
    step: &FlatStep,
    place: u32,
) -> Result<Demand, NoMemory>
    ensures { IfOk result (λ d. demand_of d ≡ demand place place (fits (setting_of setting.now) levels (step_of step.now) && is_plain (step_of step.now))
        (read_facts (address (step_of step.now)) (reads (step_of step.now)))) }
{
    let facts = facts_wanted(alloc, step)?;
    let fits = fits(setting.functions, setting.function, levels, step) && is_plain(step);
    Ok(Demand {
        place,
        at: place,
        fits,
        facts,
    })
}

// The same behind other demands.
fn push_plain(
    alloc: Global,
    setting: &Setting,
    levels: u32,
    step: &FlatStep,
    place: u32,
    demands: &mut Vec<Demand>,
) -> Result<(), NoMemory>
    ensures { OnOk result (map demand_of demands.new.items ≡ map demand_of demands.old.items
        ++ link.demands setting.now.exponent (setting_of setting.now) levels (Plain (step_of step.now)) place) }
{
    let demand = plain_demand(alloc, setting, levels, step, place)?;
    demands.push(demand)?;
    Ok(())
}

// The demands of an item, with those of the items in it.
#[cycle(demands)]
#[tactic(auto, using(crate::proofs::ItemViewed::item_views, crate::proofs::ItemWalk::item_places))]
fn push_demands(
    alloc: Global,
    setting: &Setting,
    levels: u32,
    item: &FlatItem,
    place: u32,
    demands: &mut Vec<Demand>,
) -> Result<(), NoMemory>
    ensures { OnOk result (map demand_of demands.new.items ≡ map demand_of demands.old.items
        ++ link.demands setting.now.exponent (setting_of setting.now) levels (as_item item.now) place) }
{
    match item {
        FlatItem::Plain { step } => {
            push_plain(alloc, setting, levels, step, place, demands)?;
            Ok(())
        }
        FlatItem::Checks { sequence } => {
            push_sequence(alloc, setting, levels, *sequence, place, demands)?;
            Ok(())
        }
        FlatItem::If { cond, yes, no } => {
            let facts = vec![in alloc; Fact::Own(*cond)]?;
            demands.push(Demand {
                place,
                at: place,
                fits: *cond < setting.function.values,
                facts,
            })?;
            let first = places_sum(place, 1)?;
            push_demands_all(alloc, setting, levels, yes, first, demands)?;
            let size = all_places(yes)?;
            let second = places_sum(first, size)?;
            push_demands_all(alloc, setting, levels, no, second, demands)?;
            Ok(())
        }
        FlatItem::Block { body } => {
            let deeper = places_sum(levels, 1)?;
            let first = places_sum(place, 1)?;
            push_demands_all(alloc, setting, deeper, body, first, demands)?;
            Ok(())
        }
        FlatItem::Loop { body } => {
            let deeper = places_sum(levels, 1)?;
            let first = places_sum(place, 1)?;
            push_demands_all(alloc, setting, deeper, body, first, demands)?;
            Ok(())
        }
        FlatItem::Inner { body } => {
            let deeper = places_sum(levels, 1)?;
            let first = places_sum(place, 1)?;
            push_demands_all(alloc, setting, deeper, body, first, demands)?;
            Ok(())
        }
    }
}

/// The demands of items that stand from a place on, within so many constructs that an `Exit` can leave.
#[cycle(demands)]
#[tactic(auto, using(crate::proofs::ItemViewed::item_views, crate::proofs::ItemWalk::item_places))]
pub(crate) fn push_demands_all(
    alloc: Global,
    setting: &Setting,
    levels: u32,
    items: &[FlatItem],
    place: u32,
    demands: &mut Vec<Demand>,
) -> Result<(), NoMemory>
    ensures { OnOk result (map demand_of demands.new.items ≡ map demand_of demands.old.items
        ++ demands_all setting.now.exponent (setting_of setting.now) levels (as_items items.now) place) }
{
    let mut next = place;
    for item in items {
        push_demands(alloc, setting, levels, item, next, demands)?;
        let size = places(item)?;
        next = places_sum(next, size)?;
    }
    Ok(())
}
