//! The first place that breaks the discipline.
ghost use Rattle.std.specs.Prelude.{◌≡◌, ◌≤◌, ◌<◌, Some, None, suc, ℕ, map, length, slice_get, IfOk};
ghost use Rattle.std.specs.Option.{option_map};
ghost use Rattle.flat_code.specs.Code.{FFunction};
ghost use Rattle.flat_code.specs.CodeViews.{function_of, code_of};
ghost use Rattle.flat_discipline.specs.Discipline.{setting, FirstBad, FirstBreak};
ghost use Rattle.flat_discipline.specs.Laws.{BreaksByTable};
ghost use Rattle.flat_verify.specs.ItemViews.{as_bodies, bodies_of};
ghost use Rattle.flat_verify.specs.Places.{place_of};
ghost use Rattle.flat_verify.specs.Sheets.{known, Stands, AreSheets};
ghost use Rattle.flat_verify.specs.SheetViews.{sheet_of};
ghost use Rattle.flat_verify.specs.Verdict.{function_demands, first_unmet};
ghost use Rattle.flat_verify.specs.Views.{block_of, AreSmall};

use crate::facts::GlobalBlock;
use crate::items::FlatItem;
use crate::program::{function_demands, sheets_of};
use crate::rules::marks_of;
use crate::setting::Setting;
use crate::sheets::{NoMemory, Sheet};
use crate::verdict::first_unmet;
use flat_code::code::Flat;
use std::alloc::Global;

/// A step of a program: the number of its function, and its place there.
#[derive(Clone, Copy, Debug)]
pub(crate) struct StepIndex {
    pub(crate) function: u32,
    pub(crate) place: u32,
}

// The first place of function `f` with a demand that is not met by the marks.
fn first_in(
    alloc: Global,
    g: u8,
    globals: &[GlobalBlock],
    code: &Flat,
    bodies: &[Vec<FlatItem>],
    sheets: &[Sheet],
    marks: &[bool],
    f: usize,
) -> Result<Option<u32>, NoMemory>
    requires least { 1 ≤ g }
    requires most { g ≤ 24 }
    requires function { f < length code.now.functions }
    requires sheet { f < length sheets.now }
    requires bodies { as_bodies bodies.now ≡ bodies_of g (map function_of code.now.functions) }
    ensures number { IfOk result (λ o. f < 4294967296) }
    ensures first { IfOk result (λ o. (fn : FFunction) → slice_get (map function_of code.now.functions) f ≡ Some fn
        → o ≡ first_unmet (known (map sheet_of sheets.now) marks.now f) None
        (function_demands g (setting g (map block_of globals.now) (map function_of code.now.functions) f) code.now.main f fn)) }
{
    if f > 0xFFFF_FFFF {
        return Err(NoMemory);
    }
    let functions = code.functions.as_slice();
    let setting = Setting {
        exponent: g,
        globals,
        functions,
        function: &functions[f],
    };
    let demands = function_demands(alloc, &setting, &bodies[f], code.main, f as u32)?;
    let first = first_unmet(sheets, marks, f, &demands)?;
    Ok(first)
}

// The first place of the program with a demand that is not met by the marks.
fn first_by_marks(
    alloc: Global,
    g: u8,
    globals: &[GlobalBlock],
    code: &Flat,
    bodies: &[Vec<FlatItem>],
    sheets: &[Sheet],
    marks: &[bool],
) -> Result<Option<StepIndex>, NoMemory>
    requires least { 1 ≤ g }
    requires most { g ≤ 24 }
    requires sheets { length sheets.now ≡ length code.now.functions }
    requires bodies { as_bodies bodies.now ≡ bodies_of g (map function_of code.now.functions) }
    ensures { IfOk result (λ o. FirstBad (BreaksByTable g (map block_of globals.now) (code_of code.now) (known (map sheet_of sheets.now) marks.now))
        (option_map place_of o)) }
{
    let count = code.functions.len();
    for f in 0..count {
        if let Some(place) = first_in(alloc, g, globals, code, bodies, sheets, marks, f)? {
            return Ok(Some(StepIndex {
                function: f as u32,
                place,
            }));
        }
    }
    let main = code.main as usize;
    if main >= count {
        return Ok(Some(StepIndex {
            function: code.main,
            place: 0,
        }));
    }
    Ok(None)
}

// The same with marks that are made here.
fn first_of_sheets(
    alloc: Global,
    g: u8,
    globals: &[GlobalBlock],
    code: &Flat,
    bodies: &[Vec<FlatItem>],
    sheets: &[Sheet],
    total: usize,
) -> Result<Option<StepIndex>, NoMemory>
    requires least { 1 ≤ g }
    requires most { g ≤ 24 }
    requires bodies { as_bodies bodies.now ≡ bodies_of g (map function_of code.now.functions) }
    requires are { AreSheets g (map block_of globals.now) (map function_of code.now.functions) 0 (map function_of code.now.functions)
        (map sheet_of sheets.now) }
    requires stands { Stands (suc (length (map sheet_of sheets.now))) (map sheet_of sheets.now) total }
    ensures { IfOk result (λ o. FirstBreak g (map block_of globals.now) (code_of code.now) (option_map place_of o)) }
{
    let marks = marks_of(alloc, sheets, total)?;
    let first = first_by_marks(alloc, g, globals, code, bodies, sheets, &marks)?;
    Ok(first)
}

/// The first place that breaks the discipline, if one does.
pub(crate) fn first_break(
    alloc: Global,
    g: u8,
    globals: &[GlobalBlock],
    code: &Flat,
    bodies: &[Vec<FlatItem>],
) -> Result<Option<StepIndex>, NoMemory>
    requires least { 1 ≤ g }
    requires most { g ≤ 24 }
    requires small { AreSmall globals.now }
    requires bodies { as_bodies bodies.now ≡ bodies_of g (map function_of code.now.functions) }
    ensures { IfOk result (λ o. FirstBreak g (map block_of globals.now) (code_of code.now) (option_map place_of o)) }
{
    let sheets = sheets_of(alloc, g, globals, code.functions.as_slice(), bodies)?;
    let first = first_of_sheets(alloc, g, globals, code, bodies, &sheets.each, sheets.total)?;
    Ok(first)
}
