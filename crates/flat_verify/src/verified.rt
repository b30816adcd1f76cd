//! Code that keeps the discipline.
ghost use Rattle.std.specs.Prelude.{◌≡◌, ◌≤◌, map};
ghost use Rattle.flat_code.specs.CodeViews.{code_of, function_of};
ghost use Rattle.flat_discipline.specs.Discipline.{IsDisciplined};
ghost use Rattle.flat_verify.specs.ItemViews.{as_bodies, bodies_of};
ghost use Rattle.flat_verify.specs.Views.{blocks_of};

use crate::global_blocks::GlobalBlocks;
use crate::items::FlatItem;
use flat_code::code::Flat;
use flat_discipline::laws::disciplined_is_safe;

/// Flat code that keeps the discipline, where its global objects lie as the layout says and slots have 2^`exponent` bytes.
/// Whoever has one knows that, so it is safe in every run.
#[derive(Drop)]
pub struct Verified<'a> {
    pub code: &'a Flat,
    pub layout: &'a GlobalBlocks,
    pub exponent: u8,
    /// The items of each function's body.
    pub bodies: Vec<Vec<FlatItem<'a>>>,
    pub ghost least: { 2 ≤ exponent },
    pub ghost most: { exponent ≤ 24 },
    pub ghost disciplined: { IsDisciplined exponent (blocks_of layout.now) (code_of code.now) },
    pub ghost read: { ∥ as_bodies bodies.items ≡ bodies_of exponent (map function_of code.now.functions) ∥₁ },
}

impl<'a> Verified<'a> {
    ghost use Rattle.flat_discipline.specs.Safe.{IsSafeAlways};

    /// It is safe in every run, whatever it reads and whatever its memory holds: freed and forged pointers too.
    pub fn is_safe(&self)
        ensures { IsSafeAlways self.now.exponent (blocks_of self.now.layout.now) (code_of self.now.code.now) }
    {
        disciplined_is_safe();
    }
}
