//! A program before its facts are known, and its first break.
ghost use Rattle.std.specs.Prelude.{◌≡◌, ◌≤◌, ◌<◌, ◌+◌, ◌∷◌, Some, suc, ℕ, map, length, slice_get, IfOk};
ghost use Rattle.flat_code.specs.Code.{FFunction};
ghost use Rattle.flat_code.specs.CodeViews.{function_of, steps_of};
ghost use Rattle.flat_discipline.specs.Discipline.{function_fits, setting_in};
ghost use Rattle.flat_verify.specs.ItemViews.{as_items, as_bodies, bodies_of};
ghost use Rattle.flat_verify.specs.Links.{OfEach, body_links};
ghost use Rattle.flat_discipline.specs.Items.{items_of};
ghost use Rattle.flat_verify.specs.Sheets.{Stands, IsSheet, AreSheets, InPlaces, width};
ghost use Rattle.flat_verify.specs.SheetViews.{sheet_of};
ghost use Rattle.flat_verify.specs.Settings.{setting_of};
ghost use Rattle.flat_verify.specs.Verdict.{function_demands};
ghost use Rattle.flat_verify.specs.Views.{block_of, demand_of, link_of, AreSmall};

use crate::edges::push_links_all;
use crate::facts::{Demand, GlobalBlock, Link};
use crate::hints::untold;
use crate::items::{FlatItem, all_places};
use crate::outline::{places_in, ranges_in};
use crate::setting::Setting;
use crate::sheets::{NoMemory, Sheet, product, sum};
use crate::wanted::push_demands_all;
use flat_code::code::FlatFunction;
use std::alloc::Global;

// The links of a body's items.
fn body_links(alloc: Global, setting: &Setting, items: &[FlatItem]) -> Result<Vec<Link>, NoMemory>
    requires { AreSmall setting.now.globals.now }
    ensures { IfOk result (λ v. map link_of v.items ≡ body_links setting.now.exponent (setting_of setting.now) (as_items items.now)) }
{
    let after = all_places(items)?;
    let told = untold(alloc);
    let mut links = Vec::new(alloc);
    push_links_all(alloc, setting, told, &[], items, 0, after, &mut links)?;
    Ok(links)
}

// The sheet of function `f`, whose numbers begin at `base`.
fn sheet_at(
    alloc: Global,
    g: u8,
    globals: &[GlobalBlock],
    functions: &[FlatFunction],
    bodies: &[Vec<FlatItem>],
    f: usize,
    base: usize,
) -> Result<Sheet, NoMemory>
    requires least { 1 ≤ g }
    requires most { g ≤ 24 }
    requires small { AreSmall globals.now }
    requires function { f < length functions.now }
    requires bodies { as_bodies bodies.now ≡ bodies_of g (map function_of functions.now) }
    ensures is { IfOk result (λ s. (fn : FFunction) → slice_get (map function_of functions.now) f ≡ Some fn
        → IsSheet g (map block_of globals.now) (map function_of functions.now) f fn (sheet_of s)) }
    ensures base { IfOk result (λ s. s.base ≡ base) }
{
    let function = &functions[f];
    let setting = Setting {
        exponent: g,
        globals,
        functions,
        function,
    };
    let links = body_links(alloc, &setting, &bodies[f])?;
    let ranges = ranges_in(alloc, &links)?;
    Ok(Sheet {
        values: function.values,
        params: function.params,
        places: places_in(&links),
        base,
        ranges,
        links,
    })
}

/// The sheets of a program's functions, and how many numbers they have in all.
#[derive(Drop)]
pub(crate) struct Sheets {
    pub(crate) each: Vec<Sheet>,
    pub(crate) total: usize,
}

/// The sheets of these functions.
pub(crate) fn sheets_of(
    alloc: Global,
    g: u8,
    globals: &[GlobalBlock],
    functions: &[FlatFunction],
    bodies: &[Vec<FlatItem>],
) -> Result<Sheets, NoMemory>
    requires least { 1 ≤ g }
    requires most { g ≤ 24 }
    requires small { AreSmall globals.now }
    requires bodies { as_bodies bodies.now ≡ bodies_of g (map function_of functions.now) }
    ensures are { IfOk result (λ r. AreSheets g (map block_of globals.now) (map function_of functions.now) 0 (map function_of functions.now)
        (map sheet_of r.each.items)) }
    ensures stands { IfOk result (λ r. Stands (suc (length (map sheet_of r.each.items))) (map sheet_of r.each.items) r.total) }
{
    let mut each = Vec::new(alloc);
    let mut total = sum(functions.len(), 1)?;
    for f in 0..functions.len() {
        let sheet = sheet_at(alloc, g, globals, functions, bodies, f, total)?;
        let row = product(sheet.places, sheet.width())?;
        total = sum(total, row)?;
        each.push(sheet)?;
    }
    Ok(Sheets { each, total })
}

// Whether a function keeps the limits of functions as wholes.
fn function_fits(main: u32, number: u32, f: &FlatFunction) -> bool
    ensures { result ≡ function_fits main number (function_of f.now) }
{
    let few = f.values <= 255 && f.params <= 8;
    let library = f.line != 0 || (f.frame == 0 && f.values <= 12);
    let first = number != main || f.params == 0;
    few && (f.params <= f.values && (library && first))
}

/// The demands of the function of that number, by the items of its body.
pub(crate) fn function_demands(
    alloc: Global,
    setting: &Setting,
    items: &[FlatItem],
    main: u32,
    number: u32,
) -> Result<Vec<Demand>, NoMemory>
    requires { as_items items.now ≡ items_of setting.now.exponent (steps_of setting.now.function.now.body) }
    ensures { IfOk result (λ v. map demand_of v.items
        ≡ function_demands setting.now.exponent (setting_of setting.now) main number (function_of setting.now.function.now)) }
{
    let mut demands = Vec::new(alloc);
    demands.push(Demand {
        place: 0,
        at: 0,
        fits: function_fits(main, number, setting.function),
        facts: Vec::new(alloc),
    })?;
    push_demands_all(alloc, setting, 0, items, 0, &mut demands)?;
    Ok(demands)
}
