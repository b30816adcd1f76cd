//! The rules by which the facts of a program are lost, and what they reach.
ghost use Rattle.std.specs.Prelude.{◌≡◌, ◌+◌, ◌<◌, ◌≤◌, ◌++◌, ◌∷◌, []};
ghost use Rattle.std.specs.Prelude.{ℕ, Some, None, true, map, length, slice_get, nat_lt, IfOk, OnOk};
ghost use Rattle.flat_discipline.specs.Facts.Fact.{Clean};
ghost use Rattle.flat_verify.specs.Views.{effect_of, link_of};
ghost use Rattle.flat_verify.specs.SheetViews.{sheet_of};
ghost use Rattle.flat_verify.specs.Reach.{rule, rules_of, AreBelow, Reached, is_marked};
ghost use Rattle.flat_verify.specs.Sheets.{width, none_unless, fact_cell, rule_if, rule_both, goes_rules, passes_rules, passes_to};
ghost use Rattle.flat_verify.specs.Sheets.{link_rules, links_rules, start_rules, sheet_rules, rules_after, all_rules};

use crate::effects::source_by;
use crate::facts::{Effect, Fact, Link};
use crate::reach::{Stretch, reached};
use crate::sheets::{NoMemory, Sheet};
use std::alloc::Global;

// One more rule, in the last stretch if it goes on there.
fn push_rule(
    stretches: &mut Vec<Stretch>,
    size: usize,
    from: usize,
    to: usize,
) -> Result<(), NoMemory>
    requires { AreBelow size stretches.old.items }
    ensures rules { OnOk result (rules_of stretches.new.items ≡ rules_of stretches.old.items ++ rule from to ∷ []) }
    ensures below { OnOk result (AreBelow size stretches.new.items) }
{
    if from >= size || to >= size {
        return Err(NoMemory);
    }
    let count = stretches.len();
    if count > 0 {
        let last = stretches[count - 1];
        if last.count < size && last.from + last.count == from && last.to + last.count == to {
            stretches[count - 1] = Stretch {
                from: last.from,
                to: last.to,
                count: last.count + 1,
            };
            return Ok(());
        }
    }
    stretches.push(Stretch { from, to, count: 1 })?;
    Ok(())
}

fn push_rule_if(
    stretches: &mut Vec<Stretch>,
    size: usize,
    from: Option<usize>,
    to: usize,
) -> Result<(), NoMemory>
    requires { AreBelow size stretches.old.items }
    ensures rules { OnOk result (rules_of stretches.new.items ≡ rules_of stretches.old.items ++ rule_if from to) }
    ensures below { OnOk result (AreBelow size stretches.new.items) }
{
    match from {
        Some(from) => push_rule(stretches, size, from, to),
        None => Ok(()),
    }
}

fn push_rule_both(
    stretches: &mut Vec<Stretch>,
    size: usize,
    from: Option<usize>,
    to: Option<usize>,
) -> Result<(), NoMemory>
    requires { AreBelow size stretches.old.items }
    ensures rules { OnOk result (rules_of stretches.new.items ≡ rules_of stretches.old.items ++ rule_both from to) }
    ensures below { OnOk result (AreBelow size stretches.new.items) }
{
    match to {
        Some(to) => push_rule_if(stretches, size, from, to),
        None => Ok(()),
    }
}

// The rules along an edge.
fn push_goes_rules(
    stretches: &mut Vec<Stretch>,
    size: usize,
    functions: usize,
    sheet: &Sheet,
    effect: Effect,
    from: u32,
    to: u32,
) -> Result<(), NoMemory>
    requires { AreBelow size stretches.old.items }
    ensures rules { OnOk result (rules_of stretches.new.items ≡ rules_of stretches.old.items
        ++ goes_rules functions (sheet_of sheet.now) (effect_of effect) from to (width (sheet_of sheet.now))) }
    ensures below { OnOk result (AreBelow size stretches.new.items) }
{
    for k in 0..sheet.width() {
        let source = source_by(effect, sheet.fact_at(k));
        let lost = sheet.source_cell(functions, from, source)?;
        let cell = sheet.cell(to, k)?;
        push_rule_if(stretches, size, lost, cell)?;
    }
    Ok(())
}

// The number of a parameter at a function's start, if it has so many.
fn parameter_cell(sheet: &Sheet, k: usize) -> Result<Option<usize>, NoMemory>
    requires { k < 4294967296 }
    ensures { IfOk result (λ o. o ≡ none_unless (nat_lt k (sheet_of sheet.now).params) (fact_cell (sheet_of sheet.now) 0 (Clean k))) }
{
    if k < sheet.params as usize {
        sheet.fact_cell(0, Fact::Clean(k as u32))
    } else {
        Ok(None)
    }
}

// The rules from arguments to parameters.
fn push_passes_rules(
    stretches: &mut Vec<Stretch>,
    size: usize,
    from: &Sheet,
    to: &Sheet,
    place: u32,
    args: &[u32],
) -> Result<(), NoMemory>
    requires { AreBelow size stretches.old.items }
    ensures rules { OnOk result (rules_of stretches.new.items ≡ rules_of stretches.old.items
        ++ passes_rules (sheet_of from.now) (sheet_of to.now) place 0 args.now) }
    ensures below { OnOk result (AreBelow size stretches.new.items) }
{
    for k in 0..args.len() {
        let lost = from.fact_cell(place, Fact::Clean(args[k]))?;
        if k >= 0xFFFF_FFFF {
            return Err(NoMemory);
        }
        let cell = parameter_cell(to, k)?;
        push_rule_both(stretches, size, lost, cell)?;
    }
    Ok(())
}

// The same, if the function is there.
fn push_passes_to(
    stretches: &mut Vec<Stretch>,
    size: usize,
    sheets: &[Sheet],
    from: &Sheet,
    place: u32,
    function: u32,
    args: &[u32],
) -> Result<(), NoMemory>
    requires { AreBelow size stretches.old.items }
    ensures rules { OnOk result (rules_of stretches.new.items ≡ rules_of stretches.old.items
        ++ passes_to (sheet_of from.now) (slice_get (map sheet_of sheets.now) function) place args.now) }
    ensures below { OnOk result (AreBelow size stretches.new.items) }
{
    let g = function as usize;
    if g >= sheets.len() {
        return Ok(());
    }
    push_passes_rules(stretches, size, from, &sheets[g], place, args)
}

fn push_link_rules(
    stretches: &mut Vec<Stretch>,
    size: usize,
    sheets: &[Sheet],
    f: usize,
    sheet: &Sheet,
    link: &Link,
) -> Result<(), NoMemory>
    requires below { AreBelow size stretches.old.items }
    requires function { f < length sheets.now }
    ensures rules { OnOk result (rules_of stretches.new.items ≡ rules_of stretches.old.items
        ++ link_rules (map sheet_of sheets.now) f (sheet_of sheet.now) (link_of link.now)) }
    ensures below { OnOk result (AreBelow size stretches.new.items) }
{
    match link {
        Link::Goes { effect, from, to } => {
            push_goes_rules(stretches, size, sheets.len(), sheet, *effect, *from, *to)
        }
        Link::Passes {
            from,
            function,
            args,
        } => push_passes_to(stretches, size, sheets, sheet, *from, *function, args),
        Link::Returns { from, value } => {
            let lost = sheet.fact_cell(*from, Fact::Clean(*value))?;
            push_rule_if(stretches, size, lost, f + 1)
        }
    }
}

// The rules of a function.
fn push_sheet_rules(
    stretches: &mut Vec<Stretch>,
    size: usize,
    sheets: &[Sheet],
    f: usize,
    sheet: &Sheet,
) -> Result<(), NoMemory>
    requires below { AreBelow size stretches.old.items }
    requires function { f < length sheets.now }
    ensures rules { OnOk result (rules_of stretches.new.items ≡ rules_of stretches.old.items
        ++ sheet_rules (map sheet_of sheets.now) f (sheet_of sheet.now)) }
    ensures below { OnOk result (AreBelow size stretches.new.items) }
{
    push_start_rules(stretches, size, sheet)?;
    push_links_rules(stretches, size, sheets, f, sheet)
}

// At a function's start no span stands.
fn push_start_rules(
    stretches: &mut Vec<Stretch>,
    size: usize,
    sheet: &Sheet,
) -> Result<(), NoMemory>
    requires { AreBelow size stretches.old.items }
    ensures rules { OnOk result (rules_of stretches.new.items ≡ rules_of stretches.old.items
        ++ start_rules (sheet_of sheet.now) (length (sheet_of sheet.now).ranges)) }
    ensures below { OnOk result (AreBelow size stretches.new.items) }
{
    let values = 2 * (sheet.values as usize);
    for i in 0..sheet.ranges.len() {
        let k = values + i;
        let cell = sheet.cell(0, k)?;
        push_rule(stretches, size, 0, cell)?;
    }
    Ok(())
}

fn push_links_rules(
    stretches: &mut Vec<Stretch>,
    size: usize,
    sheets: &[Sheet],
    f: usize,
    sheet: &Sheet,
) -> Result<(), NoMemory>
    requires below { AreBelow size stretches.old.items }
    requires function { f < length sheets.now }
    ensures rules { OnOk result (rules_of stretches.new.items ≡ rules_of stretches.old.items
        ++ links_rules (map sheet_of sheets.now) f (sheet_of sheet.now) (sheet_of sheet.now).links) }
    ensures below { OnOk result (AreBelow size stretches.new.items) }
{
    for link in &sheet.links {
        push_link_rules(stretches, size, sheets, f, sheet, link)?;
    }
    Ok(())
}

/// All rules of a program whose functions have these sheets, with numbers below `size`.
pub fn all_rules(alloc: Global, sheets: &[Sheet], size: usize) -> Result<Vec<Stretch>, NoMemory>
    ensures rules { IfOk result (λ v. rules_of v.items ≡ all_rules (map sheet_of sheets.now)) }
    ensures below { IfOk result (λ v. AreBelow size v.items) }
{
    let mut stretches = Vec::new(alloc);
    for f in 0..sheets.len() {
        push_sheet_rules(&mut stretches, size, sheets, f, &sheets[f])?;
    }
    Ok(stretches)
}

/// What is lost in a program whose functions have these sheets, with `total` numbers in all: the marks of exactly the
/// numbers that its rules reach.
pub fn marks_of(alloc: Global, sheets: &[Sheet], total: usize) -> Result<Vec<bool>, NoMemory>
    requires { 0 < total }
    ensures length { IfOk result (λ marks. length marks.items ≡ total) }
    ensures reached { IfOk result (λ marks. (n : ℕ) → is_marked marks.items n ≡ true → Reached (all_rules (map sheet_of sheets.now)) n) }
    ensures marked { IfOk result (λ marks. (n : ℕ) → Reached (all_rules (map sheet_of sheets.now)) n → is_marked marks.items n ≡ true) }
{
    let stretches = all_rules(alloc, sheets, total)?;
    let marks = reached(alloc, &stretches, total)?;
    Ok(marks)
}
