//! The first demand that is not met.
ghost use Rattle.std.specs.Prelude.{◌≡◌, ◌<◌, None, map, length, IfOk};
ghost use Rattle.flat_verify.specs.Views.{fact_of, demand_of};
ghost use Rattle.flat_verify.specs.SheetViews.{sheet_of};
ghost use Rattle.flat_verify.specs.Sheets.{known, marked_if};
ghost use Rattle.flat_verify.specs.Sheets as sheet;
ghost use Rattle.flat_verify.specs.Verdict.{any_unknown, lower, first_unmet};
ghost use Rattle.flat_verify.specs.Verdict as verdict;

use crate::facts::{Demand, Fact};
use crate::sheets::{NoMemory, Sheet};

fn marked_if(marks: &[bool], cell: Option<usize>) -> bool
    ensures { result ≡ marked_if marks.now cell }
{
    match cell {
        Some(n) => n < marks.len() && marks[n],
        None => false,
    }
}

// Whether the fact is lost before the item at the place.
fn is_lost(
    sheets: &[Sheet],
    marks: &[bool],
    f: usize,
    place: u32,
    fact: Fact,
) -> Result<bool, NoMemory>
    requires { f < length sheets.now }
    ensures { IfOk result (λ b. b ≡ sheet.is_lost (map sheet_of sheets.now) marks.now f place (fact_of fact)) }
{
    let cell = sheets[f].fact_cell(place, fact)?;
    Ok(marked_if(marks, cell))
}

fn any_unknown(
    sheets: &[Sheet],
    marks: &[bool],
    f: usize,
    place: u32,
    facts: &[Fact],
) -> Result<bool, NoMemory>
    requires { f < length sheets.now }
    ensures { IfOk result (λ b. b ≡ any_unknown (known (map sheet_of sheets.now) marks.now f place) (map fact_of facts.now)) }
{
    for fact in facts {
        if is_lost(sheets, marks, f, place, *fact)? {
            return Ok(true);
        }
    }
    Ok(false)
}

fn lower(found: Option<u32>, place: u32) -> Option<u32>
    ensures { result ≡ lower found place }
{
    match found {
        Some(other) => {
            if place < other {
                Some(place)
            } else {
                Some(other)
            }
        }
        None => Some(place),
    }
}

fn is_unmet(sheets: &[Sheet], marks: &[bool], f: usize, demand: &Demand) -> Result<bool, NoMemory>
    requires { f < length sheets.now }
    ensures { IfOk result (λ b. b ≡ verdict.is_unmet (known (map sheet_of sheets.now) marks.now f) (demand_of demand.now)) }
{
    if demand.fits {
        any_unknown(sheets, marks, f, demand.at, &demand.facts)
    } else {
        Ok(true)
    }
}

/// The first place of a demand of function `f` that is not met by the marks.
pub fn first_unmet(
    sheets: &[Sheet],
    marks: &[bool],
    f: usize,
    demands: &[Demand],
) -> Result<Option<u32>, NoMemory>
    requires { f < length sheets.now }
    ensures { IfOk result (λ o. o ≡ first_unmet (known (map sheet_of sheets.now) marks.now f) None (map demand_of demands.now)) }
{
    let mut found: Option<u32> = None;
    for demand in demands {
        if is_unmet(sheets, marks, f, demand)? {
            found = lower(found, demand.place);
        }
    }
    Ok(found)
}
