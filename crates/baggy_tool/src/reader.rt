//! Reading the file.
ghost use Rattle.std.specs.Prelude.{◌≡◌, ◌+◌, ◌^◌, ◌≤◌, ◌<◌, ℕ, List, length, vec_len, IfOk};
ghost use Rattle.bb_outside.specs.Files.{Stays};
ghost use Rattle.baggy_tool.specs.Building.{FileRead, FileCause, PieceRead, PieceCause};

use bb_outside::{Shelf, ShelfFailed};
use std::alloc::Global;

/// Why a file was not read.
#[derive(Clone, Copy, Debug, PartialEq, Eq)]
pub(crate) enum ReadError {
    NoFile,
    Fault,
    Memory,
}

/// How many bytes a source may have.
pub(crate) const MAX_SOURCE: usize = 1_048_576;

/// How many bytes an image may have.
pub(crate) const MAX_IMAGE: usize = 4_333_500;

// How many bytes are asked for at a time.
const PIECE: usize = 4096;

/// The bytes of the file, up to one more than `most`.
pub(crate) fn read_file<F: Shelf>(
    alloc: Global,
    shelf: &mut F,
    name: &str,
    most: usize,
) -> Result<Vec<u8>, ReadError>
    requires { most < 2 ^ 32 }
    ensures text { FileRead most (F.file shelf.old name.now) result }
    ensures length { IfOk result (λ text. vec_len text ≤ most + 1) }
    ensures files { (other : List ℕ) → Stays (F.file shelf.old other) (F.file shelf.new other) }
    ensures cause { FileCause (F.faults shelf.old) (F.faults shelf.new) (F.misses shelf.old) (F.misses shelf.new) result }
{
    let mut text = Vec::new(alloc);
    let Ok(mut buffer) = vec![in alloc; 0u8; piece_size()] else {
        return Err(ReadError::Memory);
    };
    while text.len() < most + 1 {
        match read_piece(shelf, name, most, &mut text, &mut buffer) {
            Ok(0) => return Ok(text),
            Ok(_) => {}
            Err(e) => return Err(e),
        }
    }
    Ok(text)
}

fn piece_size() -> usize
    ensures { 0 < result }
{
    PIECE
}

// The next bytes of the file, at most as many as are wanted, at the end of the text; how many there are.
fn read_piece<F: Shelf>(
    shelf: &mut F,
    name: &str,
    most: usize,
    text: &mut Vec<u8>,
    buffer: &mut [u8],
) -> Result<usize, ReadError>
    requires some { 0 < length buffer.old }
    requires wanted { (vec_len text.old < most + 1) × (most < 2 ^ 32) }
    ensures text { PieceRead (F.file shelf.old name.now) text.old.items text.new.items result }
    ensures count { IfOk result (λ n. vec_len text.new ≡ vec_len text.old + n) }
    ensures most { vec_len text.new ≤ most + 1 }
    ensures same { (other : List ℕ) → Stays (F.file shelf.old other) (F.file shelf.new other) }
    ensures cause { PieceCause (F.faults shelf.old) (F.faults shelf.new) (F.misses shelf.old) (F.misses shelf.new) result }
{
    let at = text.len();
    let want = buffer.len().min(most + 1 - at);
    let into = &mut buffer[..want];
    match shelf.read(name, at as u64, into) {
        Ok(None) => Err(ReadError::NoFile),
        Ok(Some(count)) => match text.extend_from_slice(&into[..count]) {
            Ok(()) => Ok(count),
            Err(_) => Err(ReadError::Memory),
        },
        Err(ShelfFailed::Fault) => Err(ReadError::Fault),
        Err(ShelfFailed::Memory) => Err(ReadError::Memory),
    }
}
