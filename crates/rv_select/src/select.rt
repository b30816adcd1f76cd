//! From flat code to parts.
ghost use Rattle.std.specs.Prelude.{◌≡◌, ◌≤◌, IfOk};
ghost use Rattle.flat_code.specs.CodeViews.{code_of};
ghost use Rattle.flat_code.specs.Weight.{weight};
ghost use Rattle.rv_asm.specs.Parts.{AreParts};
ghost use Rattle.rv_selected.specs.Selection.{selected};
ghost use Rattle.rv_selected.specs.Shape.{AreShaped};
ghost use Rattle.rv_selected.specs.Words.{HasWords};

use crate::functions::{put_functions, put_start};
use crate::words::numbers_are_words;
use bb_words::list::List;
use flat_code::code::Flat;
use flat_verify::verified::Verified;
use rv_asm::parts::{Labelled, Part};
use rv_selected::laws::{parts_are_resolvable, parts_are_shaped};
use std::alloc::{AllocError, Global};

/// The parts of a program. The start code comes first.
///
/// Each value is a word of the control frame of its call. A sequence that checks a pointer is selected as one whole.
pub fn select(alloc: Global, verified: Verified<'_>) -> Result<Labelled, AllocError>
    ensures parts { IfOk result (λ labelled. labelled.parts ≡ selected verified.entry.exponent (code_of verified.entry.code.now)) }
    // They can be resolved, if the code weighs no more than a text has room for.
    ensures resolvable { weight verified.entry.exponent (code_of verified.entry.code.now) ≤ 2093056 → IfOk result (λ labelled. AreParts labelled.parts) }
    ensures shape { IfOk result (λ labelled. AreShaped labelled.parts) }
    ensures words { HasWords (code_of verified.entry.code.now) }
{
    parts_are_resolvable();
    parts_are_shaped();
    numbers_are_words(verified.code);
    let parts = parts_of(alloc, verified.exponent, verified.code)?;
    Ok(Labelled {
        parts: List::from_vec(parts),
    })
}

fn parts_of(alloc: Global, g: u8, code: &Flat) -> Result<Vec<Part>, AllocError>
    requires { (1 ≤ g) × (g ≤ 24) }
    ensures { IfOk result (λ parts. parts.items ≡ selected g (code_of code.now)) }
{
    let functions = code.functions.as_slice();
    let Ok(label) = u32::try_from(functions.len()) else {
        return Err(AllocError);
    };
    let mut parts = Vec::new(alloc);
    put_start(&mut parts, code.main)?;
    put_functions(alloc, g, label, functions, &mut parts)?;
    Ok(parts)
}
