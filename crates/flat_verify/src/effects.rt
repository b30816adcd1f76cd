//! Where facts after an item come from.
ghost use Rattle.std.specs.Prelude.{◌≡◌, ◌≤◌, ◌∷◌, [], IfOk, ℕ};
ghost use Rattle.flat_code.specs.CodeViews.{steps_of};
ghost use Rattle.flat_code.specs.SequenceViews.{sequence_of};
ghost use Rattle.flat_code.specs.Recognized.{sequence_steps, count};
ghost use Rattle.flat_discipline.specs.Items.{steps_places};
ghost use Rattle.flat_discipline.specs.Facts.{is_among, temporaries, gives, spans, may_set, sequence_source};
ghost use Rattle.flat_verify.specs.Effects.{source_by};
ghost use Rattle.flat_verify.specs.Effects.Effect.{Sets};
ghost use Rattle.flat_discipline.specs.Breaks.{operands, pointer, pointer_use};
ghost use Rattle.flat_verify.specs.Views.{fact_of, source_of, effect_of};

use crate::facts::{Effect, Fact, Source};
use flat_code::code::FlatStep;
use flat_code::emit::{load_steps, move_steps, span_steps};
use flat_code::recognize::FlatSequence;
use std::alloc::{AllocError, Global};

fn is_temporary(q: FlatSequence, v: u32) -> bool
    ensures { result ≡ is_among v (temporaries (sequence_of q)) }
{
    match q {
        FlatSequence::Move(x) => v == x.slot || v == x.exponent,
        FlatSequence::Load(x) => v == x.slot || v == x.exponent,
        FlatSequence::Span(x) => v == x.distance || v == x.slot || v == x.exponent,
    }
}

fn gives(q: FlatSequence, v: u32) -> bool
    ensures { result ≡ gives (sequence_of q) v }
{
    match q {
        FlatSequence::Move(x) => v == x.result,
        FlatSequence::Load(x) => v == x.to,
        FlatSequence::Span(_) => false,
    }
}

fn spans(q: FlatSequence, a: u32, n: u32) -> bool
    ensures { result ≡ spans (sequence_of q) a n }
{
    match q {
        FlatSequence::Span(x) => a == x.pointer && n == x.count,
        _ => false,
    }
}

fn may_set(q: FlatSequence, v: u32) -> bool
    ensures { result ≡ may_set (sequence_of q) v }
{
    let is_result = match q {
        FlatSequence::Move(x) => v == x.result,
        FlatSequence::Load(x) => v == x.to,
        FlatSequence::Span(x) => v == x.last,
    };
    is_result || is_temporary(q, v)
}

fn sequence_source(q: FlatSequence, fact: Fact) -> Source
    ensures { source_of result ≡ sequence_source (sequence_of q) (fact_of fact) }
{
    match fact {
        Fact::Clean(v) => {
            if gives(q, v) {
                Source::Held
            } else if is_temporary(q, v) {
                Source::Gone
            } else {
                Source::From(fact)
            }
        }
        Fact::Own(v) => {
            if gives(q, v) {
                Source::Held
            } else if is_temporary(q, v) {
                Source::Gone
            } else {
                Source::From(fact)
            }
        }
        Fact::Spanned(a, n) => {
            if spans(q, a, n) {
                Source::Held
            } else if may_set(q, a) || may_set(q, n) {
                Source::Gone
            } else {
                Source::From(fact)
            }
        }
    }
}

fn source_by_set(to: u32, clean: Source, ends: bool, fact: Fact) -> Source
    ensures { source_of result ≡ source_by (Sets to (source_of clean) ends) (fact_of fact) }
{
    match fact {
        Fact::Clean(v) => { if v == to { clean } else { Source::From(fact) } }
        Fact::Own(v) => {
            if v == to {
                Source::Held
            } else {
                Source::From(fact)
            }
        }
        Fact::Spanned(a, n) => {
            if ends || a == to || n == to {
                Source::Gone
            } else {
                Source::From(fact)
            }
        }
    }
}

/// Where a fact after an item comes from.
pub(crate) fn source_by(effect: Effect, fact: Fact) -> Source
    ensures { source_of result ≡ source_by (effect_of effect) (fact_of fact) }
{
    match effect {
        Effect::KeepsFacts => Source::From(fact),
        Effect::Sets { to, clean, ends } => source_by_set(to, clean, ends, fact),
        Effect::Checks(q) => sequence_source(q, fact),
    }
}

/// What a sequence is given.
pub(crate) fn operands(alloc: Global, q: FlatSequence) -> Result<Vec<u32>, AllocError>
    ensures { IfOk result (λ v. v.items ≡ operands (sequence_of q)) }
{
    match q {
        FlatSequence::Move(x) => Ok(vec![in alloc; x.pointer, x.distance, x.line]?),
        FlatSequence::Load(x) => Ok(vec![in alloc; x.at, x.line]?),
        FlatSequence::Span(x) => Ok(vec![in alloc; x.pointer, x.count, x.line]?),
    }
}

/// The pointer that a sequence is about, and how many places after its first step it is used.
pub(crate) fn pointer_of(q: FlatSequence) -> (u32, u32)
    ensures value { result.0 ≡ pointer (sequence_of q) }
    ensures place { result.1 ≡ pointer_use (sequence_of q) }
{
    match q {
        FlatSequence::Move(x) => (x.pointer, 0),
        FlatSequence::Load(x) => (x.at, 0),
        FlatSequence::Span(x) => (x.pointer, 5),
    }
}

/// The steps of a sequence, for slots of 2^g bytes.
pub(crate) fn sequence_steps(
    alloc: Global,
    g: u8,
    q: FlatSequence,
) -> Result<Vec<FlatStep>, AllocError>
    requires least { 1 ≤ g }
    requires most { g ≤ 24 }
    ensures { IfOk result (λ v. steps_of v.items ≡ sequence_steps g (sequence_of q)) }
{
    match q {
        FlatSequence::Move(x) => move_steps(alloc, g, x),
        FlatSequence::Load(x) => load_steps(alloc, g, x),
        FlatSequence::Span(x) => span_steps(alloc, g, x),
    }
}

/// How many steps a sequence has at its top, and how many places.
pub(crate) fn size_of_sequence(q: FlatSequence) -> (usize, u32)
    ensures steps { (g : ℕ) → result.0 ≡ count (sequence_steps g (sequence_of q)) }
    ensures some { 1 ≤ result.0 }
    ensures places { (g : ℕ) → result.1 ≡ steps_places (sequence_steps g (sequence_of q)) }
{
    match q {
        FlatSequence::Move(_) => (16, 32),
        FlatSequence::Load(_) => (2, 10),
        FlatSequence::Span(_) => (4, 41),
    }
}
