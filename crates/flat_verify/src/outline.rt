//! What is computed of a function before its facts: its links, the places that have facts, and the ranges that are asked.
ghost use Rattle.std.specs.Prelude.{◌≡◌, ◌≤◌, ◌<◌, true, ℕ, map, IfOk, OnOk};
ghost use Rattle.std.specs.Option.{option_map};
ghost use Rattle.flat_verify.specs.Links.{OfEach};
ghost use Rattle.flat_verify.specs.Outline as outline;
ghost use Rattle.flat_verify.specs.Outline.{HasRange};
ghost use Rattle.flat_verify.specs.Sheets.{range_number, is_some, InPlaces};
ghost use Rattle.flat_verify.specs.SheetViews.{range_of};
ghost use Rattle.flat_verify.specs.Views.{link_of, effect_of, source_of, fact_of};

use crate::facts::{Effect, Fact, Link, Source};
use crate::sheets::{NoMemory, Range, range_number};
use std::alloc::Global;

// One more than the greatest place so far, and than the place to which the link leads.
fn place_past(places: usize, link: &Link) -> usize
    ensures more { places ≤ result }
    ensures placed { InPlaces result (link_of link.now) }
{
    match link {
        Link::Goes {
            effect: _,
            from: _,
            to,
        } => {
            let past = *to as usize + 1;
            if places < past { past } else { places }
        }
        _ => places,
    }
}

/// So many places that each link leads to one of them.
pub(crate) fn places_in(links: &[Link]) -> usize
    ensures some { 0 < result }
    ensures placed { OfEach (InPlaces result) (map link_of links.now) }
{
    let mut places = 1;
    for link in links {
        places = place_past(places, link);
    }
    places
}

fn range_in_fact(fact: Fact) -> Option<Range>
    ensures { option_map range_of result ≡ outline.range_in_fact (fact_of fact) }
{
    match fact {
        Fact::Spanned(pointer, count) => Some(Range { pointer, count }),
        _ => None,
    }
}

fn range_in_source(source: Source) -> Option<Range>
    ensures { option_map range_of result ≡ outline.range_in_source (source_of source) }
{
    match source {
        Source::From(fact) => range_in_fact(fact),
        _ => None,
    }
}

fn range_in_effect(effect: Effect) -> Option<Range>
    ensures { option_map range_of result ≡ outline.range_in_effect (effect_of effect) }
{
    match effect {
        Effect::Sets {
            to: _,
            clean,
            ends: _,
        } => range_in_source(clean),
        _ => None,
    }
}

// The range whose span a link asks for.
fn range_in(link: &Link) -> Option<Range>
    ensures { option_map range_of result ≡ outline.range_in (link_of link.now) }
{
    match link {
        Link::Goes {
            effect,
            from: _,
            to: _,
        } => range_in_effect(*effect),
        _ => None,
    }
}

// The range stands among the ranges, and those that stood there do.
fn push_range(ranges: &mut Vec<Range>, range: Range) -> Result<(), NoMemory>
    ensures there { OnOk result (is_some (range_number (map range_of ranges.new.items) range.pointer range.count) ≡ true) }
    ensures kept { OnOk result ((a n : ℕ) → is_some (range_number (map range_of ranges.old.items) a n) ≡ true
        → is_some (range_number (map range_of ranges.new.items) a n) ≡ true) }
{
    match range_number(ranges, range.pointer, range.count) {
        Some(_) => Ok(()),
        None => {
            ranges.push(range)?;
            Ok(())
        }
    }
}

// The range that a link asks for, if it does, stands among the ranges.
fn push_range_in(ranges: &mut Vec<Range>, link: &Link) -> Result<(), NoMemory>
    ensures there { OnOk result (HasRange (map range_of ranges.new.items) (link_of link.now)) }
    ensures kept { OnOk result ((a n : ℕ) → is_some (range_number (map range_of ranges.old.items) a n) ≡ true
        → is_some (range_number (map range_of ranges.new.items) a n) ≡ true) }
{
    match range_in(link) {
        Some(range) => push_range(ranges, range),
        None => Ok(()),
    }
}

/// The ranges that the links ask for.
pub(crate) fn ranges_in(alloc: Global, links: &[Link]) -> Result<Vec<Range>, NoMemory>
    ensures { IfOk result (λ v. OfEach (HasRange (map range_of v.items)) (map link_of links.now)) }
{
    let mut ranges = Vec::new(alloc);
    for link in links {
        push_range_in(&mut ranges, link)?;
    }
    Ok(ranges)
}
