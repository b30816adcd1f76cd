//! Reading an image from its bytes.
ghost use Rattle.std.specs.Prelude.{◌≡◌, ℕ, ◌+◌, ◌*◌, ◌^◌, ◌<◌, ◌≤◌, length, IfOk, IfErr, Err, Ok};
ghost use Rattle.rv_image.specs.declared.image.Image.{Image};
ghost use Rattle.rv_image.specs.Rules.{IsImage, total_size};
ghost use Rattle.rv_image.specs.Spelling.{AreWords, spelling};
ghost use Rattle.rv_image.specs.Reading.{Gives, GivesAs, rule, field_at, number_at, entry_of, exponent_at, exponents_at, globals_at};
ghost use Rattle.rv_image.specs.Reading.{frame_at, frames_from, frames_at, initial_at, ends_nonzero, words_of, text_at, image_of};

use crate::error::ImageError;
use crate::image::Image;
use bb_words::list::{Bytes, List};
use size_table::memory_map::{TABLE_START, TEXT_START};
use std::alloc::Global;

// The letters BAGY as a number, the first of them in the lowest byte.
const MAGIC: u32 = 0x5947_4142;

/// The image that the bytes spell, or the first rule that they break.
pub fn read(alloc: Global, bytes: &[u8]) -> Result<Image, ImageError>
    requires { length bytes.now < 2 ^ 32 }
    // What is read is spelled so.
    ensures found { IfOk result (λ image. IsImage image × (bytes.now ≡ spelling image)) }
    // What is spelled so is read, unless memory runs out.
    ensures only { (image : Image) → IsImage image → AreWords image.text → bytes.now ≡ spelling image → Gives result (Ok image) }
    // Else it is the first rule that is broken, in the order of the fields.
    ensures exact { Gives result (image_of bytes.now) }
{
    image(alloc, bytes)
}

// The fields one after the other. Their places stay far below 2^32, so that their ends do.
#[tactic(auto, unfolding(crate::specs::Reading::image_of))]
fn image(alloc: Global, bytes: &[u8]) -> Result<Image, ImageError>
    requires { length bytes.now < 2 ^ 32 }
    ensures { Gives result (image_of bytes.now) }
{
    let entry = entry(bytes)?;
    let (globals, size) = globals(alloc, bytes, 12)?;
    let (frames, at) = frames(alloc, bytes, 16 + globals.len())?;
    let initial = initial(alloc, bytes, at, size)?;
    let at = at + 4 + initial.len();
    let text = text(alloc, bytes, at, entry)?;
    let end = at + 4 + 4 * text.len();
    check(bytes.len() == end, ImageError::Extra { at: end as u32 })?;
    Ok(Image {
        version: 1,
        entry,
        globals,
        frames,
        initial,
        text,
    })
}

// The error, unless the rule is kept.
fn check(kept: bool, error: ImageError) -> Result<(), ImageError>
    ensures { result ≡ rule kept error }
{
    if kept { Ok(()) } else { Err(error) }
}

// The field of so many bytes at a place.
#[tactic(auto, unfolding(crate::specs::Reading::field_at))]
fn field(bytes: &[u8], at: usize, len: usize) -> Result<&[u8], ImageError>
    requires size { length bytes.now < 2 ^ 32 }
    requires end { at + len < 2 ^ 32 }
    ensures value { GivesAs (λ field. field.now) result (field_at bytes.now at len) }
    ensures len { IfOk result (λ field. length field.now ≡ len) }
{
    if bytes.len() < at + len {
        return Err(ImageError::Short {
            need: (at + len) as u32,
            have: bytes.len() as u32,
        });
    }
    Ok(&bytes[at..at + len])
}

// The number at a place.
#[tactic(auto, unfolding(crate::specs::Reading::number_at))]
fn number(bytes: &[u8], at: usize) -> Result<u32, ImageError>
    requires size { length bytes.now < 2 ^ 32 }
    requires end { at + 4 < 2 ^ 32 }
    ensures { Gives result (number_at bytes.now at) }
{
    let field = field(bytes, at, 4)?;
    Ok(u32::from_le_bytes([field[0], field[1], field[2], field[3]]))
}

// The entry, behind the magic and the version.
#[tactic(auto, unfolding(crate::specs::Reading::entry_of))]
fn entry(bytes: &[u8]) -> Result<u32, ImageError>
    requires { length bytes.now < 2 ^ 32 }
    ensures value { Gives result (entry_of bytes.now) }
    ensures low { IfOk result (λ entry. 4096 ≤ entry) }
{
    let magic = number(bytes, 0)?;
    check(magic == MAGIC, ImageError::BadMagic)?;
    let version = number(bytes, 4)?;
    check(version == 1, ImageError::BadVersion { version })?;
    let entry = number(bytes, 8)?;
    check(
        entry % 4 == 0 && TEXT_START <= entry && entry < TABLE_START,
        ImageError::BadField { at: 8 },
    )?;
    Ok(entry)
}

// The exponents of the global objects, and how many bytes their blocks have.
#[tactic(auto, unfolding(crate::specs::Reading::globals_at))]
fn globals(alloc: Global, bytes: &[u8], at: usize) -> Result<(List<u8>, u32), ImageError>
    requires size { length bytes.now < 2 ^ 32 }
    requires place { at < 2 ^ 24 }
    ensures value { GivesAs (λ globals. globals.0) result (globals_at bytes.now at) }
    ensures size { IfOk result (λ globals. (globals.1 ≡ total_size globals.0) × (globals.1 ≤ 2097152) × (length globals.0 ≤ 131072)) }
{
    let count = number(bytes, at)?;
    check(count <= 131_072, ImageError::BadField { at: at as u32 })?;
    exponents(alloc, bytes, count, at + 4, 0x20_0000)
}

// The exponents of a frame, where so many blocks are left.
#[tactic(auto, unfolding(crate::specs::Reading::frame_at))]
fn frame(alloc: Global, bytes: &[u8], at: usize, left: u32) -> Result<List<u8>, ImageError>
    requires size { length bytes.now < 2 ^ 32 }
    requires place { at < 2 ^ 26 }
    requires left { left ≤ 8192 }
    ensures value { Gives result (frame_at bytes.now at left) }
    ensures few { IfOk result (λ frame. length frame ≤ left) }
{
    let count = number(bytes, at)?;
    check(count <= left, ImageError::BadField { at: at as u32 })?;
    let (frame, _) = exponents(alloc, bytes, count, at + 4, 0x40_0000)?;
    Ok(frame)
}

// An exponent of at least 4 and at most `most`, whose block has at most `room` bytes.
#[tactic(auto, unfolding(crate::specs::Reading::exponent_at))]
fn exponent(bytes: &[u8], at: usize, most: u8, room: u32) -> Result<u8, ImageError>
    requires size { length bytes.now < 2 ^ 32 }
    requires place { at < 2 ^ 28 }
    requires most { most ≤ 20 }
    ensures value { Gives result (exponent_at bytes.now at most room) }
    ensures fits { IfOk result (λ e. (e ≤ most) × (2 ^ e ≤ room)) }
    ensures fault { IfErr result (λ e. exponent_at bytes.now at most room ≡ Err e) }
{
    if at >= bytes.len() {
        return Err(ImageError::Short {
            need: at as u32 + 1,
            have: bytes.len() as u32,
        });
    }
    let e = bytes[at];
    if e < 4 || e > most || (1u32 << e) > room {
        return Err(ImageError::BadField { at: at as u32 });
    }
    Ok(e)
}

// So many exponents, and how many bytes their blocks have: at most the limit.
fn exponents(
    alloc: Global,
    bytes: &[u8],
    count: u32,
    at: usize,
    limit: u32,
) -> Result<(List<u8>, u32), ImageError>
    requires size { length bytes.now < 2 ^ 32 }
    requires place { at < 2 ^ 27 }
    requires count { count ≤ 131072 }
    ensures value { GivesAs (λ found. found.0) result (exponents_at bytes.now count at 20 limit) }
    ensures count { IfOk result (λ found. length found.0 ≡ count) }
    ensures size { IfOk result (λ found. (found.1 ≡ total_size found.0) × (found.1 ≤ limit)) }
{
    let mut list = List::new(alloc);
    let mut most = 20;
    let mut total = 0;
    for i in 0..count {
        let e = exponent(bytes, at + i as usize, most, limit - total)?;
        list.push(e)?;
        most = e;
        total += 1u32 << e;
    }
    Ok((list, total))
}

// The frames, and the place after them.
#[tactic(auto, unfolding(crate::specs::Reading::frames_at))]
fn frames(alloc: Global, bytes: &[u8], at: usize) -> Result<(List<List<u8>>, usize), ImageError>
    requires size { length bytes.now < 2 ^ 32 }
    requires place { at < 2 ^ 24 }
    ensures value { Gives result (frames_at bytes.now at) }
    ensures end { IfOk result (λ frames. frames.1 ≤ at + 12196) }
{
    let count = number(bytes, at)?;
    check(count <= 1000, ImageError::BadField { at: at as u32 })?;
    frames_behind(alloc, bytes, count, at + 4)
}

// So many frames, and the place after them.
fn frames_behind(
    alloc: Global,
    bytes: &[u8],
    count: u32,
    start: usize,
) -> Result<(List<List<u8>>, usize), ImageError>
    requires size { length bytes.now < 2 ^ 32 }
    requires place { start < 2 ^ 25 }
    requires count { count ≤ 1000 }
    ensures value { Gives result (frames_from bytes.now count start 8192) }
    ensures end { IfOk result (λ frames. frames.1 ≤ start + 4 * count + 8192) }
{
    let mut list = List::new(alloc);
    let mut at = start;
    let mut left = 8192;
    for _ in 0..count {
        let frame = frame(alloc, bytes, at, left)?;
        at += 4 + frame.len();
        left -= frame.len() as u32;
        list.push(frame)?;
    }
    Ok((list, at))
}

// The initial bytes, of which there are at most `most`.
#[tactic(auto, unfolding(crate::specs::Reading::initial_at))]
fn initial(alloc: Global, bytes: &[u8], at: usize, most: u32) -> Result<Bytes, ImageError>
    requires size { length bytes.now < 2 ^ 32 }
    requires place { at < 2 ^ 24 }
    requires most { most ≤ 2097152 }
    ensures value { Gives result (initial_at bytes.now at most) }
    ensures few { IfOk result (λ initial. length initial ≤ 2097152) }
{
    let len = number(bytes, at)?;
    check(len <= most, ImageError::BadField { at: at as u32 })?;
    let field = field(bytes, at + 4, len as usize)?;
    check(
        ends_nonzero(field),
        ImageError::BadField {
            at: at as u32 + 3 + len,
        },
    )?;
    let items = Vec::from_slice(alloc, field)?;
    Ok(List::from_vec(items))
}

// Whether the last byte is not zero.
fn ends_nonzero(bytes: &[u8]) -> bool
    ensures { result ≡ ends_nonzero bytes.now }
{
    match bytes {
        [] => true,
        [.., last] => *last != 0,
    }
}

// The words of the text, which has the entry in it.
#[tactic(auto, unfolding(crate::specs::Reading::text_at))]
fn text(alloc: Global, bytes: &[u8], at: usize, entry: u32) -> Result<List<u32>, ImageError>
    requires size { length bytes.now < 2 ^ 32 }
    requires place { at < 2 ^ 24 }
    requires entry { 4096 ≤ entry }
    ensures value { Gives result (text_at bytes.now at entry) }
    ensures few { IfOk result (λ text. 4 * length text ≤ 2093056) }
{
    let len = number(bytes, at)?;
    check(
        len % 4 == 0 && 4 <= len && len <= 2_093_056 && entry - 0x1000 < len,
        ImageError::BadField { at: at as u32 },
    )?;
    let field = field(bytes, at + 4, len as usize)?;
    words(alloc, field)
}

// The words of some bytes, four for each.
fn words(alloc: Global, bytes: &[u8]) -> Result<List<u32>, ImageError>
    ensures value { Gives result (Ok (words_of bytes.now)) }
    ensures few { IfOk result (λ words. 4 * length words ≤ length bytes.now) }
{
    let mut list = List::new(alloc);
    let mut rest = bytes;
    while let [a, b, c, d, after @ ..] = rest {
        list.push(u32::from_le_bytes([*a, *b, *c, *d]))?;
        rest = after;
    }
    Ok(list)
}
