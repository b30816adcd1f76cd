//! The places of the parts.
//!
//! At first all parts stand at one place, so every label is in reach. From places follow better ones: each part gets
//! the form that reaches its label from these places. So parts only move apart, forms only grow, and the places at
//! which nothing moves any more are those of the shortest forms.
ghost use Rattle.std.specs.Prelude.{◌≡◌, ◌+◌, ◌≤◌, length, IfOk, All, slice_index};
ghost use Rattle.rv_asm.specs.Parts.{AreParts, long_sizes};
ghost use Rattle.rv_asm.specs.Resolving.{AreTargets, ArePlaces, AreNext};

use crate::code::length_of;
use crate::parts::Part;
use size_table::memory_map::TEXT_START;
use std::alloc::{AllocError, Global};

/// The places at which the parts stand, and that behind all of them.
pub(crate) fn settle(
    alloc: Global,
    parts: &[Part],
    targets: &[usize],
) -> Result<Vec<u32>, AllocError>
    requires parts { AreParts parts.now }
    requires targets { AreTargets parts.now targets.now }
    ensures places { IfOk result (λ places. ArePlaces parts.now places.items) }
    ensures stay { IfOk result (λ places. AreNext parts.now places.items places.items) }
{
    let count = parts.len() + 1;
    let mut places = vec![in alloc; TEXT_START; count]?;
    let mut next = vec![in alloc; TEXT_START; count]?;
    improve(parts, targets, &mut places, &mut next);
    Ok(places)
}

// Goes on to better places until none moves.
fn improve(parts: &[Part], targets: &[usize], places: &mut [u32], next: &mut [u32])
    requires parts { AreParts parts.now }
    requires targets { AreTargets parts.now targets.now }
    requires count { (length places.old ≡ length parts.now + 1) × (length next.old ≡ length parts.now + 1) }
    requires start { All (λ place. place ≡ 4096) places.old × All (λ place. place ≡ 4096) next.old }
    ensures places { ArePlaces parts.now places.new }
    ensures stay { AreNext parts.now places.new places.new }
{
    let end = parts.len();
    'better: loop {
        place_parts(parts, targets, places, next);
        if next[end] == places[end] {
            return;
        }
        places.copy_from_slice(next);
    }
}

// Better places for the parts.
fn place_parts(parts: &[Part], targets: &[usize], places: &[u32], next: &mut [u32])
    requires targets { AreTargets parts.now targets.now }
    requires places { ArePlaces parts.now places.now }
    requires size { long_sizes parts.now ≤ 2093056 }
    requires count { length next.old ≡ length parts.now + 1 }
    requires first { slice_index next.old 0 ≡ 4096 }
    ensures places { ArePlaces parts.now next.new }
    ensures next { AreNext parts.now places.now next.new }
{
    for k in 0..parts.len() {
        let to = places[targets[k]];
        next[k + 1] = next[k] + 4 * length_of(parts[k], places[k], to);
    }
}
