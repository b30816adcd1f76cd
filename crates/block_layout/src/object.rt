//! Objects of any kind, one after another.
ghost use Rattle.std.specs.Prelude.{◌≡◌, ◌+◌, ◌-◌, ◌<◌, ◌^◌, ◌++◌, ◌∷◌, [], IfOk, OnOk, map};
ghost use Rattle.size_table.specs.declared.memory_map.TheConstants.{SLOT_EXPONENT};
ghost use Rattle.block_layout.specs.Layout.{AreSmall, padded_to, declining, placed_from, total_of};
ghost use Rattle.block_layout.specs.Answers.{counted};
ghost use Rattle.block_layout.specs.Views.{item_of, placed_of};

use size_table::laws::exponent_is_least;
use size_table::memory_map::SLOT_EXPONENT;
use size_table::padding::exponent;
use std::alloc::{AllocError, Global};

/// An object that is to be laid out: its number, and how many bytes it has.
#[derive(Clone, Copy)]
pub struct Object {
    pub number: u32,
    pub length: u32,
}

/// An object that is laid out, at a place from where the layout begins, and padded to 2^exponent bytes.
#[derive(Clone, Copy)]
pub struct Spot {
    pub number: u32,
    pub at: u32,
    pub exponent: u8,
    pub length: u32,
}

/// Adds the objects that are padded to 2^class bytes.
fn put_class(ordered: &mut Vec<Object>, objects: &[Object], class: u8) -> Result<(), AllocError>
    requires { AreSmall (map item_of objects.now) }
    ensures { OnOk result (map item_of ordered.new.items ≡ map item_of ordered.old.items ++ padded_to SLOT_EXPONENT class (map item_of objects.now)) }
{
    for object in objects {
        if exponent(object.length) == class {
            ordered.push(*object)?;
        }
    }
    Ok(())
}

/// The objects by declining padded size, those of one size in their own order.
pub fn declining(alloc: Global, objects: &[Object]) -> Result<Vec<Object>, AllocError>
    requires { AreSmall (map item_of objects.now) }
    ensures { IfOk result (λ ordered. map item_of ordered.items ≡ declining SLOT_EXPONENT (25 - SLOT_EXPONENT) (map item_of objects.now)) }
{
    let mut ordered = Vec::new(alloc);
    for above in 0..25 - SLOT_EXPONENT {
        put_class(&mut ordered, objects, 24 - above)?;
    }
    Ok(ordered)
}

/// The objects one after another from a place on, without gaps.
pub fn placed(alloc: Global, objects: &[Object], start: u32) -> Result<Vec<Spot>, AllocError>
    requires small { AreSmall (map item_of objects.now) }
    requires room { start + total_of SLOT_EXPONENT (map item_of objects.now) < 2 ^ 32 }
    ensures { IfOk result (λ spots. map placed_of spots.items ≡ placed_from SLOT_EXPONENT start (map item_of objects.now)) }
{
    let mut spots = Vec::new(alloc);
    let mut at = start;
    for object in objects {
        let exponent = exponent(object.length);
        spots.push(Spot {
            number: object.number,
            at,
            exponent,
            length: object.length,
        })?;
        at += 1 << exponent;
    }
    Ok(spots)
}

/// How many bytes the objects have together with their padding, up to the greatest `u64`.
pub fn total_of(objects: &[Object]) -> u64
    requires { AreSmall (map item_of objects.now) }
    ensures { result ≡ counted (total_of SLOT_EXPONENT (map item_of objects.now)) }
{
    let mut total: u64 = 0;
    for object in objects {
        total = total.saturating_add(1 << exponent(object.length));
    }
    total
}

/// Adds an object. A list in memory has no object whose number is not a `u32`.
pub fn add(objects: &mut Vec<Object>, number: usize, length: u32) -> Result<(), AllocError>
    ensures { OnOk result (map item_of objects.new.items ≡ map item_of objects.old.items ++ record { number = number; length = length } ∷ []) }
{
    let number = u32::try_from(number).map_err(|_error| AllocError)?;
    objects.push(Object { number, length })?;
    Ok(())
}

/// The layout of objects that have room from `start` on.
pub fn laid_out(alloc: Global, objects: &[Object], start: u32) -> Result<Vec<Spot>, AllocError>
    requires small { AreSmall (map item_of objects.now) }
    requires room { start + total_of SLOT_EXPONENT (map item_of objects.now) < 2 ^ 32 }
    ensures { IfOk result (λ spots. map placed_of spots.items
        ≡ placed_from SLOT_EXPONENT start (declining SLOT_EXPONENT (25 - SLOT_EXPONENT) (map item_of objects.now))) }
{
    exponent_is_least();
    let ordered = declining(alloc, objects)?;
    placed(alloc, &ordered, start)
}
