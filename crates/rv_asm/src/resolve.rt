//! From parts to words.
ghost use Rattle.std.specs.Prelude.{◌≡◌, IfOk, All};
ghost use Rattle.rv_machine.specs.Formed.{IsWord};
ghost use Rattle.rv_asm.specs.Parts.{FitsPart, AreParts};
ghost use Rattle.rv_asm.specs.Text.{text_of};
ghost use Rattle.rv_asm.specs.Runs.{IsResolved};
ghost use Rattle.rv_asm.specs.Resolving.{labels_by, AreTargets, ArePlaces, AreNext};

use crate::emit::push_part;
use crate::labels::targets_of;
use crate::parts::{Labelled, Part, TextWords};
use crate::places::settle;
use bb_words::list::List;
use rv_machine_laws::laws::instruction_done;
use std::alloc::{AllocError, Global};

/// The words of the parts, for a text that begins at 0x1000.
///
/// Each branch and jump has the shortest form that reaches its label: a branch; the inverse branch over a JAL; or that
/// over an AUIPC and a JALR by x5; a JAL, or an AUIPC and a JALR by x5. The words run as the parts do, and each label
/// has the place of its part.
pub fn resolve(alloc: Global, labelled: &Labelled) -> Result<TextWords, AllocError>
    requires { AreParts labelled.now.parts }
    ensures { IfOk result (λ text. IsResolved labelled.now.parts text.words) }
{
    instruction_done();
    let parts = labelled.parts.as_slice();
    let targets = targets_of(alloc, parts)?;
    let places = settle(alloc, parts, &targets)?;
    let words = words_of(alloc, parts, &targets, &places)?;
    Ok(TextWords {
        words: List::from_vec(words),
    })
}

// The words of the parts at their places.
fn words_of(
    alloc: Global,
    parts: &[Part],
    targets: &[usize],
    places: &[u32],
) -> Result<Vec<u32>, AllocError>
    requires parts { AreParts parts.now }
    requires targets { AreTargets parts.now targets.now }
    requires places { ArePlaces parts.now places.now }
    requires stay { AreNext parts.now places.now places.now }
    ensures text { IfOk result (λ text. text.items ≡ text_of (labels_by parts.now places.now) 4096 parts.now) }
    ensures words { IfOk result (λ text. All IsWord text.items) }
{
    let mut text = Vec::new(alloc);
    for k in 0..parts.len() {
        push_part(&mut text, parts[k], places[k], places[targets[k]])?;
    }
    Ok(text)
}
