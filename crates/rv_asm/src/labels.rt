//! Which part each branch and jump goes to.
ghost use Rattle.std.specs.Prelude.{◌≡◌, ℕ, length, IfOk, OnOk, All};
ghost use Rattle.std.specs.Ordering.{nat_cmp};
ghost use Rattle.std.specs.BTreeMap.{get as tree_get};
ghost use Rattle.rv_asm.specs.Parts.{GoesOnce};
ghost use Rattle.rv_asm.specs.Resolving.{number_in, with_part, target_by, Indexes, AreTargets};

use crate::parts::Part;
use std::alloc::{AllocError, Global};
use std::collections::BTreeMap;

/// The number of the part that each branch and jump goes to.
pub(crate) fn targets_of(alloc: Global, parts: &[Part]) -> Result<Vec<usize>, AllocError>
    requires { All (GoesOnce parts.now) parts.now }
    ensures { IfOk result (λ targets. AreTargets parts.now targets.items) }
{
    let labels = index_labels(alloc, parts)?;
    let mut targets = Vec::new(alloc);
    for k in 0..parts.len() {
        targets.push(target_of(&labels, parts[k]))?;
    }
    Ok(targets)
}

// The number of the part that each label is.
fn index_labels(alloc: Global, parts: &[Part]) -> Result<BTreeMap<u32, usize>, AllocError>
    ensures { IfOk result (λ labels. Indexes parts.now (length parts.now) (tree_get nat_cmp labels)) }
{
    let mut labels = BTreeMap::new(alloc);
    for k in 0..parts.len() {
        index_part(&mut labels, parts[k], k)?;
    }
    Ok(labels)
}

// The part of this number is in the map if it is a label.
fn index_part(labels: &mut BTreeMap<u32, usize>, part: Part, k: usize) -> Result<(), AllocError>
    ensures { OnOk result ((l : ℕ) → tree_get nat_cmp labels.new l ≡ with_part k part (tree_get nat_cmp labels.old) l) }
{
    if let Part::Label(label) = part {
        labels.insert(label, k)?;
    }
    Ok(())
}

fn target_of(labels: &BTreeMap<u32, usize>, part: Part) -> usize
    ensures { result ≡ target_by (tree_get nat_cmp labels.now) part }
{
    match part {
        Part::Plain(_) | Part::Label(_) => 0,
        Part::Branch { to, .. } | Part::Jump { to, .. } => number_of(labels, to),
    }
}

fn number_of(labels: &BTreeMap<u32, usize>, label: u32) -> usize
    ensures { result ≡ number_in (tree_get nat_cmp labels.now label) }
{
    match labels.get(&label) {
        Some(k) => *k,
        None => 0,
    }
}
