//! Telling code that keeps the discipline from code that does not.
ghost use Rattle.std.specs.Prelude.{◌≡◌, ◌≤◌, IfOk};
ghost use Rattle.flat_code.specs.CodeViews.{code_of};
ghost use Rattle.flat_verify.specs.Answer.{Answers, IsNoRefusal};
ghost use Rattle.flat_discipline.specs.Discipline.{IsDisciplined};
ghost use Rattle.flat_discipline.specs.Safe.{IsSafeAlways};
ghost use Rattle.flat_verify.specs.Views.{blocks_of, AreSmall};

use crate::error::VerifyError;
use crate::global_blocks::GlobalBlocks;
use crate::items::bodies_of;
use crate::unchecked::first_break;
use crate::verified::Verified;
use flat_code::code::Flat;
use flat_discipline::laws::disciplined_is_safe;
use std::alloc::Global;

/// The code as verified, if it keeps the discipline where its global objects lie so and slots have 2^`g` bytes; else the first
/// place that breaks it. Verified code is safe in every run.
///
/// The time is that of as many passes over all places and values as it takes until no pass finds more.
pub fn verify<'a>(
    alloc: Global,
    code: &'a Flat,
    layout: &'a GlobalBlocks,
    g: u8,
) -> Result<Verified<'a>, VerifyError>
    requires least { 2 ≤ g }
    requires most { g ≤ 24 }
    requires small { AreSmall layout.now.globals }
    // It is verified exactly where nothing breaks the discipline, and refused at exactly the first place that does.
    ensures answers { Answers g (blocks_of layout.now) (code_of code.now) result }
    // So code that keeps the discipline is never refused.
    ensures accepts { IsDisciplined g (blocks_of layout.now) (code_of code.now) → IsNoRefusal result }
    ensures code { IfOk result (λ v. v.code.now ≡ code.now) }
    ensures layout { IfOk result (λ v. v.layout.now ≡ layout.now) }
    ensures exponent { IfOk result (λ v. v.exponent ≡ g) }
    ensures safe { IfOk result (λ _. IsSafeAlways g (blocks_of layout.now) (code_of code.now)) }
{
    disciplined_is_safe();
    let globals = layout.globals.as_slice();
    let bodies = bodies_of(alloc, g, code.functions.as_slice())?;
    let first = first_break(alloc, g, globals, code, &bodies)?;
    match first {
        Some(first) => Err(VerifyError::Unchecked {
            function: first.function,
            place: first.place,
        }),
        None => Ok(Verified {
            code,
            layout,
            exponent: g,
            bodies,
        }),
    }
}
