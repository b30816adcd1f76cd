//! Writing the bytes of an image.
ghost use Rattle.std.specs.Prelude.{◌≡◌, ◌*◌, ◌^◌, ◌<◌, ◌≤◌, ◌++◌, length, IfOk, OnOk};
ghost use Rattle.rv_image.specs.Rules.{IsImage, count_of};
ghost use Rattle.rv_image.specs.Spelling.{number, counted, framed, worded, spelling};

use crate::image::Image;
use bb_words::list::{Bytes, List};
use std::alloc::{AllocError, Global};

/// The bytes of an image: its one spelling.
#[tactic(auto, unfolding(crate::specs::Spelling::spelling))]
pub fn write(alloc: Global, image: &Image) -> Result<Bytes, AllocError>
    requires { IsImage image.now }
    ensures { IfOk result (λ bytes. bytes ≡ spelling image.now) }
{
    let mut out = Vec::new(alloc);
    out.extend_from_slice(b"BAGY")?;
    put_number(&mut out, image.version)?;
    put_number(&mut out, image.entry)?;
    put_counted(&mut out, image.globals.as_slice())?;
    put_frames(&mut out, image.frames.as_slice())?;
    put_counted(&mut out, image.initial.as_slice())?;
    put_text(&mut out, image.text.as_slice())?;
    Ok(List::from_vec(out))
}

// Puts the four bytes of a number at the end, the lowest first.
#[tactic(auto, unfolding(crate::specs::Spelling::number))]
fn put_number(out: &mut Vec<u8>, n: u32) -> Result<(), AllocError>
    ensures { OnOk result (out.new.items ≡ out.old.items ++ number n) }
{
    out.extend_from_slice(&n.to_le_bytes())
}

// Puts bytes behind their count at the end.
fn put_counted(out: &mut Vec<u8>, bytes: &[u8]) -> Result<(), AllocError>
    requires { length bytes.now < 2 ^ 32 }
    ensures { OnOk result (out.new.items ≡ out.old.items ++ counted bytes.now) }
{
    put_number(out, bytes.len() as u32)?;
    out.extend_from_slice(bytes)
}

// Puts the exponents of the frames at the end.
fn put_frames(out: &mut Vec<u8>, frames: &[List<u8>]) -> Result<(), AllocError>
    requires few { length frames.now ≤ 1000 }
    requires blocks { count_of frames.now ≤ 8192 }
    ensures { OnOk result (out.new.items ≡ out.old.items ++ framed frames.now) }
{
    put_number(out, frames.len() as u32)?;
    for frame in frames {
        put_counted(out, frame.as_slice())?;
    }
    Ok(())
}

// Puts the words of the text at the end.
fn put_text(out: &mut Vec<u8>, text: &[u32]) -> Result<(), AllocError>
    requires { 4 * length text.now < 2 ^ 32 }
    ensures { OnOk result (out.new.items ≡ out.old.items ++ worded text.now) }
{
    put_number(out, 4 * text.len() as u32)?;
    for word in text {
        put_number(out, *word)?;
    }
    Ok(())
}
