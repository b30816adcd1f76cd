//! Functions before their facts are known, and the numbers of the facts that are asked.
ghost use Rattle.std.specs.Prelude.{◌≡◌, ◌+◌, ◌*◌, ◌<◌, map, length, IfOk, IfSome};
ghost use Rattle.flat_verify.specs.Views.{fact_of, source_of};
ghost use Rattle.flat_verify.specs.SheetViews.{range_of, sheet_of};
ghost use Rattle.flat_verify.specs.Sheets.{width, range_number, fact_number, fact_at, cell, fact_cell, source_cell};

use crate::facts::{Fact, Link, Source};
use std::alloc::{AllocError, AllocFailed};

/// Memory ran out, or a number of the table does not fit a word of the machine that runs this.
#[derive(Drop)]
pub struct NoMemory;

impl From<AllocError> for NoMemory {
    ghost from_gives = { λ _ e. e ≡ e };

    fn from(_e: AllocError) -> NoMemory {
        NoMemory
    }
}

impl<T: Drop> From<AllocFailed<T>> for NoMemory {
    ghost use Rattle.std.specs.Prelude.{◌≡◌};

    ghost from_gives = { λ _ e. e ≡ e };

    fn from(_e: AllocFailed<T>) -> NoMemory {
        NoMemory
    }
}

/// A range whose span is asked for: the values of its first byte, and of the number of its bytes.
#[derive(Clone, Copy)]
pub struct Range {
    pub pointer: u32,
    pub count: u32,
}

/// A function before its facts are known.
#[derive(Drop)]
pub struct Sheet {
    pub values: u32,
    pub params: u32,
    /// How many places have facts, and the first number of the first.
    pub places: usize,
    pub base: usize,
    pub ranges: Vec<Range>,
    pub links: Vec<Link>,
}

pub(crate) fn sum(a: usize, b: usize) -> Result<usize, NoMemory>
    ensures { IfOk result (λ n. n ≡ a + b) }
{
    match a.checked_add(b) {
        Some(n) => Ok(n),
        None => Err(NoMemory),
    }
}

pub(crate) fn product(a: usize, b: usize) -> Result<usize, NoMemory>
    ensures { IfOk result (λ n. n ≡ a * b) }
{
    match a.checked_mul(b) {
        Some(n) => Ok(n),
        None => Err(NoMemory),
    }
}

// The number of the first range with these values.
pub(crate) fn range_number(ranges: &[Range], pointer: u32, count: u32) -> Option<usize>
    ensures number { result ≡ range_number (map range_of ranges.now) pointer count }
    ensures below { IfSome result (λ i. i < length ranges.now) }
{
    for i in 0..ranges.len() {
        let range = ranges[i];
        if pointer == range.pointer && count == range.count {
            return Some(i);
        }
    }
    None
}

impl Sheet {
    /// How many facts are asked at a place.
    pub(crate) fn width(&self) -> usize
        ensures { result ≡ width (sheet_of self.now) }
    {
        2 * (self.values as usize) + self.ranges.len()
    }

    /// The number of a fact among those that are asked, if it is one of them.
    pub(crate) fn fact_number(&self, fact: Fact) -> Option<usize>
        ensures { result ≡ fact_number (sheet_of self.now) (fact_of fact) }
    {
        match fact {
            Fact::Clean(v) => {
                if v < self.values {
                    Some(v as usize)
                } else {
                    None
                }
            }
            Fact::Own(v) => {
                if v < self.values {
                    Some(self.values as usize + v as usize)
                } else {
                    None
                }
            }
            Fact::Spanned(a, n) => {
                if a < self.values && n < self.values {
                    match range_number(&self.ranges, a, n) {
                        Some(i) => Some(2 * (self.values as usize) + i),
                        None => None,
                    }
                } else {
                    None
                }
            }
        }
    }

    /// The fact of a number.
    pub(crate) fn fact_at(&self, k: usize) -> Fact
        requires { k < width (sheet_of self.now) }
        ensures { fact_of result ≡ fact_at (sheet_of self.now) k }
    {
        let values = self.values as usize;
        if k < values {
            return Fact::Clean(k as u32);
        }
        if k < 2 * values {
            return Fact::Own((k - values) as u32);
        }
        let range = self.ranges[k - 2 * values];
        Fact::Spanned(range.pointer, range.count)
    }

    /// The number of a fact at a place, by its number there.
    pub(crate) fn cell(&self, place: u32, k: usize) -> Result<usize, NoMemory>
        ensures { IfOk result (λ n. n ≡ cell (sheet_of self.now) place k) }
    {
        let row = product(place as usize, self.width())?;
        let start = sum(self.base, row)?;
        sum(start, k)
    }

    /// The number of a fact at a place, if it is asked there.
    pub(crate) fn fact_cell(&self, place: u32, fact: Fact) -> Result<Option<usize>, NoMemory>
        ensures { IfOk result (λ o. o ≡ fact_cell (sheet_of self.now) place (fact_of fact)) }
    {
        if (place as usize) < self.places {
            match self.fact_number(fact) {
                Some(k) => {
                    let n = self.cell(place, k)?;
                    Ok(Some(n))
                }
                None => Ok(None),
            }
        } else {
            Ok(None)
        }
    }

    /// What has to be lost so that a fact is lost that comes from the source.
    pub(crate) fn source_cell(
        &self,
        functions: usize,
        place: u32,
        source: Source,
    ) -> Result<Option<usize>, NoMemory>
        ensures { IfOk result (λ o. o ≡ source_cell functions (sheet_of self.now) place (source_of source)) }
    {
        match source {
            Source::Held => Ok(None),
            Source::Gone => Ok(Some(0)),
            Source::From(fact) => self.fact_cell(place, fact),
            Source::FromCall(f) => {
                if (f as usize) < functions {
                    Ok(Some(f as usize + 1))
                } else {
                    Ok(None)
                }
            }
        }
    }
}
