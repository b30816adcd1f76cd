//! From mid code to an image.
ghost use Rattle.std.specs.Prelude.{◌≡◌, ◌≤◌, ◌*◌, true, IfOk, [], length, replicate};
ghost use Rattle.mid_code.specs.Formed.{Formed};
ghost use Rattle.mid_code.specs.Views.{program_of};
ghost use Rattle.mid_code.specs.Weight.{weight};
ghost use Rattle.size_table.specs.declared.memory_map.TheConstants.{SLOT_EXPONENT};
ghost use Rattle.bounds_instr_code.specs.Built.{is_built};
ghost use Rattle.bounds_instr_code.specs.Code.{global_blocks};
ghost use Rattle.bb_driver.specs.Compiles.{IsMade};

use bb_words::list::{Bytes, List};
use bounds_instr::error::InstrError;
use bounds_instr::instrument::instrument;
use flat_verify::error::VerifyError;
use flat_verify::global_blocks::GlobalBlocks;
use flat_verify::verify::verify;
use mid_code::code::Mid;
use rv_asm::resolve::resolve;
use rv_image::image::Image;
use rv_select::select::select;
use rv_selected::laws::texts_have_shape;
use size_table::memory_map::{SLOT_EXPONENT, TEXT_START};
use std::alloc::{AllocError, Global};

/// As many frames without objects.
#[tactic(auto, using(crate::proofs::Made::one_more))]
fn frames(alloc: Global, count: usize) -> Result<List<List<u8>>, AllocError>
    ensures { IfOk result (λ frames. frames ≡ replicate count []) }
{
    let mut frames = List::new(alloc);
    for _ in 0..count {
        frames.push(List::new(alloc))?;
    }
    Ok(frames)
}

/// The image of mid code that is well formed and has flat code, without global objects and of functions without objects.
pub(crate) fn image_of(alloc: Global, mid: &Mid) -> Result<Image, AllocError>
    requires formed { Formed (program_of mid.now) }
    requires built { is_built (program_of mid.now) ≡ true }
    requires plain { global_blocks SLOT_EXPONENT (program_of mid.now) ≡ [] }
    requires light { weight (program_of mid.now) ≤ 504 * 4096 }
    requires few { length (program_of mid.now).functions ≤ 1000 }
    ensures { IfOk result (λ image. IsMade (program_of mid.now) image) }
{
    let flat = match instrument(alloc, mid, SLOT_EXPONENT) {
        Ok(flat) => flat,
        Err(InstrError::Memory) => return Err(AllocError),
        Err(InstrError::NotBuilt) => unreachable!(),
    };
    let globals = GlobalBlocks {
        globals: List::new(alloc),
    };
    let verified = match verify(alloc, &flat, &globals, SLOT_EXPONENT) {
        Ok(verified) => verified,
        Err(VerifyError::Memory) => return Err(AllocError),
        Err(VerifyError::Unchecked { .. }) => unreachable!(),
    };
    let labelled = select(alloc, verified)?;
    texts_have_shape();
    let text = resolve(alloc, &labelled)?;
    Ok(Image {
        version: 1,
        entry: TEXT_START,
        globals: List::new(alloc),
        frames: frames(alloc, mid.functions.len())?,
        initial: Bytes::new(alloc),
        text: text.words,
    })
}
