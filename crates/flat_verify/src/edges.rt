//! The ways on which facts go in a function, in the order of its items.
ghost use Rattle.std.specs.Prelude.{◌≡◌, ◌+◌, ◌∷◌, ◌++◌, map, IfOk, OnOk};
ghost use Rattle.flat_code.specs.CodeViews.{step_of};
ghost use Rattle.flat_discipline.specs.Items.{first_place};
ghost use Rattle.flat_discipline.specs.Items.Item.{Plain};
ghost use Rattle.flat_discipline.specs.Facts.{untold, here_after};
ghost use Rattle.flat_verify.specs.Effects.{effect};
ghost use Rattle.flat_verify.specs.Effects.Effect.{KeepsFacts};
ghost use Rattle.flat_discipline.specs.Chains.{leading, leads};
ghost use Rattle.flat_discipline.specs.Chains as chain;
ghost use Rattle.flat_verify.specs.ItemViews.{as_item, as_items};
ghost use Rattle.flat_verify.specs.Links.{goes, hands_out, links_all};
ghost use Rattle.flat_verify.specs.Links as link;
ghost use Rattle.flat_verify.specs.Links.Link.{Goes};
ghost use Rattle.flat_verify.specs.Settings.{setting_of};
ghost use Rattle.flat_verify.specs.Hints.{here_of};
ghost use Rattle.flat_verify.specs.Views.{effect_of, link_of, AreSmall};

use crate::clean::clean_of;
use crate::demands::places_sum;
use crate::facts::{Effect, Link};
use crate::hints::{Hints, branch, tell, untold};
use crate::items::{FlatItem, all_places, first_place, places};
use crate::setting::Setting;
use crate::sheets::NoMemory;
use crate::steps::{copied, may_end, sets};
use flat_code::code::FlatStep;
use std::alloc::Global;

// What a plain step does to facts.
fn step_effect(setting: &Setting, told: &Hints, step: &FlatStep) -> Effect
    requires { AreSmall setting.now.globals.now }
    ensures { effect_of result ≡ effect (setting_of setting.now) (here_of told.now) (Plain (step_of step.now)) }
{
    match sets(step) {
        Some(to) => Effect::Sets {
            to,
            clean: clean_of(
                setting.globals,
                setting.functions,
                setting.function,
                told,
                step,
            ),
            ends: may_end(step),
        },
        None => Effect::KeepsFacts,
    }
}

// What an Exit of so many levels leads to.
fn exit_of(exits: &[u32], levels: u32) -> Option<u32>
    ensures { result ≡ chain.exit_of exits.now levels }
{
    if levels == 0 {
        return None;
    }
    let n = levels as usize - 1;
    if n < exits.len() {
        Some(exits[n])
    } else {
        None
    }
}

// The place to which a plain step leads, if it leads to one.
#[tactic(auto, using(flat_code::proofs::CodeViewed::flat_views))]
fn next_of(step: &FlatStep, after: u32, exits: &[u32]) -> Option<u32>
    ensures { result ≡ leads (leading (step_of step.now)) after exits.now }
{
    match step {
        FlatStep::Exit { levels } => exit_of(exits, *levels),
        FlatStep::Return { from: _ } => None,
        _ => Some(after),
    }
}

fn push_goes(
    effect: Effect,
    from: u32,
    to: Option<u32>,
    links: &mut Vec<Link>,
) -> Result<(), NoMemory>
    ensures { OnOk result (map link_of links.new.items ≡ map link_of links.old.items ++ goes (effect_of effect) from to) }
{
    match to {
        Some(to) => {
            links.push(Link::Goes { effect, from, to })?;
            Ok(())
        }
        None => Ok(()),
    }
}

// What a step hands to other functions.
#[tactic(auto, using(flat_code::proofs::CodeViewed::flat_views))]
fn push_hands_out(
    alloc: Global,
    step: &FlatStep,
    place: u32,
    links: &mut Vec<Link>,
) -> Result<(), NoMemory>
    ensures { OnOk result (map link_of links.new.items ≡ map link_of links.old.items ++ hands_out (step_of step.now) place) }
{
    match step {
        FlatStep::Call {
            to: _,
            function,
            args,
        } => {
            let args = copied(alloc, args)?;
            links.push(Link::Passes {
                from: place,
                function: *function,
                args,
            })?;
            Ok(())
        }
        FlatStep::Return { from } => {
            links.push(Link::Returns {
                from: place,
                value: *from,
            })?;
            Ok(())
        }
        _ => Ok(()),
    }
}

// The links of a plain step.
fn push_plain(
    alloc: Global,
    setting: &Setting,
    told: &Hints,
    exits: &[u32],
    step: &FlatStep,
    place: u32,
    after: u32,
    links: &mut Vec<Link>,
) -> Result<(), NoMemory>
    requires { AreSmall setting.now.globals.now }
    ensures { OnOk result (map link_of links.new.items ≡ map link_of links.old.items
        ++ link.links setting.now.exponent (setting_of setting.now) (here_of told.now) (Plain (step_of step.now)) place after exits.now) }
{
    let effect = step_effect(setting, told, step);
    push_goes(effect, place, next_of(step, after, exits), links)?;
    push_hands_out(alloc, step, place, links)?;
    Ok(())
}

// The exits inside a construct that leads to a place when it is left.
fn within(alloc: Global, after: u32, exits: &[u32]) -> Result<Vec<u32>, NoMemory>
    ensures { IfOk result (λ v. v.items ≡ after ∷ exits.now) }
{
    let mut around = Vec::new(alloc);
    around.push(after)?;
    around.extend_from_slice(exits)?;
    Ok(around)
}

// What is told behind an item.
#[tactic(auto, using(crate::proofs::ItemViewed::item_views))]
fn here_after(alloc: Global, told: &mut Hints, item: &FlatItem) -> Result<(), NoMemory>
    ensures { OnOk result (here_of told.new ≡ here_after (as_item item.now) (here_of told.old)) }
{
    match item {
        FlatItem::Plain { step } => {
            tell(told, step)?;
            Ok(())
        }
        FlatItem::Checks { sequence: _ }
        | FlatItem::If {
            cond: _,
            yes: _,
            no: _,
        }
        | FlatItem::Block { body: _ }
        | FlatItem::Loop { body: _ }
        | FlatItem::Inner { body: _ } => {
            *told = untold(alloc);
            Ok(())
        }
    }
}

// The links of an item, with those of the items in it.
#[cycle(links)]
#[tactic(auto, using(crate::proofs::ItemViewed::item_views, crate::proofs::ItemWalk::item_places))]
fn push_links(
    alloc: Global,
    setting: &Setting,
    told: &Hints,
    exits: &[u32],
    item: &FlatItem,
    place: u32,
    after: u32,
    links: &mut Vec<Link>,
) -> Result<(), NoMemory>
    requires { AreSmall setting.now.globals.now }
    ensures { OnOk result (map link_of links.new.items ≡ map link_of links.old.items
        ++ link.links setting.now.exponent (setting_of setting.now) (here_of told.now) (as_item item.now) place after exits.now) }
{
    match item {
        FlatItem::Plain { step } => {
            push_plain(alloc, setting, told, exits, step, place, after, links)?;
            Ok(())
        }
        FlatItem::Checks { sequence } => {
            push_goes(Effect::Checks(*sequence), place, Some(after), links)?;
            Ok(())
        }
        FlatItem::If { cond, yes, no } => {
            let first = places_sum(place, 1)?;
            let size = all_places(yes)?;
            let second = places_sum(first, size)?;
            let to_yes = first_place(yes, 0, first, after);
            push_goes(Effect::KeepsFacts, place, Some(to_yes), links)?;
            let to_no = first_place(no, 0, second, after);
            push_goes(Effect::KeepsFacts, place, Some(to_no), links)?;
            let inside = branch(alloc, told, *cond);
            push_links_all(alloc, setting, inside, exits, yes, first, after, links)?;
            let untold = untold(alloc);
            push_links_all(alloc, setting, untold, exits, no, second, after, links)?;
            Ok(())
        }
        FlatItem::Block { body } => {
            let around = within(alloc, after, exits)?;
            push_body(alloc, setting, &around, body, place, after, links)?;
            Ok(())
        }
        FlatItem::Loop { body } => {
            let around = within(alloc, after, exits)?;
            push_body(alloc, setting, &around, body, place, place, links)?;
            Ok(())
        }
        FlatItem::Inner { body } => {
            let around = within(alloc, after, exits)?;
            push_body(alloc, setting, &around, body, place, place, links)?;
            Ok(())
        }
    }
}

// What leads from the construct at a place to its items, and their links.
#[cycle(links)]
#[tactic(auto, using(crate::proofs::ItemViewed::item_views, crate::proofs::ItemWalk::item_places))]
fn push_body(
    alloc: Global,
    setting: &Setting,
    exits: &[u32],
    body: &[FlatItem],
    place: u32,
    after: u32,
    links: &mut Vec<Link>,
) -> Result<(), NoMemory>
    requires { AreSmall setting.now.globals.now }
    ensures { OnOk result (map link_of links.new.items ≡ map link_of links.old.items
        ++ (Goes KeepsFacts place (first_place (as_items body.now) (place + 1) after)
        ∷ links_all setting.now.exponent (setting_of setting.now) untold (as_items body.now) (place + 1) after exits.now)) }
{
    let first = places_sum(place, 1)?;
    let to = first_place(body, 0, first, after);
    push_goes(Effect::KeepsFacts, place, Some(to), links)?;
    let told = untold(alloc);
    push_links_all(alloc, setting, told, exits, body, first, after, links)?;
    Ok(())
}

/// The links of items that stand from a place on, before place `after`, in constructs with these exits.
#[cycle(links)]
#[tactic(auto, using(crate::proofs::ItemViewed::item_views, crate::proofs::ItemWalk::item_places))]
pub(crate) fn push_links_all(
    alloc: Global,
    setting: &Setting,
    told: Hints,
    exits: &[u32],
    items: &[FlatItem],
    place: u32,
    after: u32,
    links: &mut Vec<Link>,
) -> Result<(), NoMemory>
    requires { AreSmall setting.now.globals.now }
    ensures { OnOk result (map link_of links.new.items ≡ map link_of links.old.items
        ++ links_all setting.now.exponent (setting_of setting.now) (here_of told) (as_items items.now) place after exits.now) }
{
    let mut told = told;
    let mut next = place;
    for (i, item) in items.iter().enumerate() {
        let size = places(item)?;
        let behind = places_sum(next, size)?;
        let to = first_place(items, i + 1, behind, after);
        push_links(alloc, setting, &told, exits, item, next, to, links)?;
        here_after(alloc, &mut told, item)?;
        next = behind;
    }
    Ok(())
}
