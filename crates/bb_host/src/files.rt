//! The files of the system as a shelf. It tells nothing of their content.
ghost use Rattle.bb_outside.specs.Files.{Untold, ReadHasCause, WriteHasCause};
ghost use Rattle.std.specs.Prelude.{IfOk, Err, ◌≡◌, ◌≤◌, length};
ghost use Rattle.std.specs.IoError.{error_kind};
ghost use Rattle.bb_host.specs.Failures.{failed_of};

use bb_outside::{Shelf, ShelfFailed};
use std::alloc::Global;
use std::fs;
use std::io::{self, ErrorKind, Read, Seek, SeekFrom, Write};
use std::rt::Files;

/// The files that their names name from the current directory on, with a count of failures and one of files that were
/// not there.
///
/// The file that was read last stays open, so that one that can't be sought, as a pipe, is read in order.
#[derive(Drop)]
pub struct DirShelf<'a, R: Files> {
    rt: &'a R,
    alloc: Global,
    open: Option<OpenFile<R::File>>,
    faults: u64,
    misses: u64,
}

// A file that is open at a place.
#[derive(Drop)]
struct OpenFile<T: Drop> {
    name: String,
    place: u64,
    file: T,
}

impl<'a, R: Files> DirShelf<'a, R> {
    /// The files of this runtime.
    pub fn new(alloc: Global, rt: &'a R) -> DirShelf<'a, R>
        ensures faults { ⟦<DirShelf<'a, R> as Shelf>⟧.faults result ≡ 0 }
        ensures misses { ⟦<DirShelf<'a, R> as Shelf>⟧.misses result ≡ 0 }
    {
        DirShelf {
            rt,
            alloc,
            open: None,
            faults: 0,
            misses: 0,
        }
    }

    // What is answered where the file could not be read or written.
    fn failed(&mut self, failed: FileFailed) -> ShelfFailed
        ensures read { ReadHasCause self.old.faults self.new.faults self.old.misses self.new.misses (Err result) }
        ensures write { WriteHasCause self.old.faults self.new.faults self.old.misses self.new.misses (Err result) }
    {
        if failed == FileFailed::Memory {
            return ShelfFailed::Memory;
        }
        self.faults = self.faults.saturating_add(1);
        ShelfFailed::Fault
    }
}

impl<'a, R: Files> Shelf for DirShelf<'a, R> {
    ghost file = { λ _ _. Untold };

    ghost faults = { λ shelf. shelf.faults };

    ghost misses = { λ shelf. shelf.misses };

    fn read(&mut self, name: &str, at: u64, into: &mut [u8]) -> Result<Option<usize>, ShelfFailed> {
        let open = self.open.take();
        match read_at(self.alloc, self.rt, open, name, at, into) {
            Ok((count, open)) => {
                self.open = open;
                Ok(Some(count))
            }
            Err(FileFailed::Missing) => {
                self.misses = self.misses.saturating_add(1);
                Ok(None)
            }
            Err(e) => Err(self.failed(e)),
        }
    }

    fn write(&mut self, name: &str, bytes: &[u8]) -> Result<(), ShelfFailed> {
        match write_file(self.rt, name, bytes) {
            Ok(()) => Ok(()),
            Err(e) => Err(self.failed(e)),
        }
    }
}

// Why a file was not read or written.
#[derive(Clone, Copy, Debug, PartialEq, Eq)]
enum FileFailed {
    Missing,
    Memory,
    Fault,
}

impl From<io::Error> for FileFailed {
    ghost from_gives = { λ e failed. failed ≡ failed_of (error_kind e) };

    fn from(e: io::Error) -> Self {
        match e.kind() {
            ErrorKind::NotFound | ErrorKind::NotADirectory | ErrorKind::InvalidFilename => {
                FileFailed::Missing
            }
            ErrorKind::OutOfMemory => FileFailed::Memory,
            _ => FileFailed::Fault,
        }
    }
}

// Reads bytes of the file from place `at` on; how many, or 0 at its end, and the file, which stays open up to its end.
fn read_at<R: Files>(
    alloc: Global,
    rt: &R,
    open: Option<OpenFile<R::File>>,
    name: &str,
    at: u64,
    into: &mut [u8],
) -> Result<(usize, Option<OpenFile<R::File>>), FileFailed>
    ensures { IfOk result (λ read. read.0 ≤ length into.new) }
{
    let mut file = match open_there(open, name, at) {
        Some(file) => file,
        None => open_at(alloc, rt, name, at)?,
    };
    let count = file.file.read(into)?;
    if count == 0 {
        return Ok((0, None));
    }
    file.place = at.saturating_add(count as u64);
    Ok((count, Some(file)))
}

// The open file, if it is the one of this name, at this place.
fn open_there<T: Drop>(open: Option<OpenFile<T>>, name: &str, at: u64) -> Option<OpenFile<T>> {
    let open = open?;
    if open.place == at && open.name.as_str() == name {
        Some(open)
    } else {
        None
    }
}

// Opens the file at a place. One that is read from its start is not sought.
fn open_at<R: Files>(
    alloc: Global,
    rt: &R,
    name: &str,
    at: u64,
) -> Result<OpenFile<R::File>, FileFailed> {
    let mut file = fs::open(rt, name)?;
    if at > 0 {
        file.seek(SeekFrom::Start(at))?;
    }
    let name = String::from_str(alloc, name).map_err(|_| FileFailed::Memory)?;
    Ok(OpenFile {
        name,
        place: at,
        file,
    })
}

// Makes the file these bytes. Want of memory is answered only before the file is opened.
fn write_file<R: Files>(rt: &R, name: &str, bytes: &[u8]) -> Result<(), FileFailed> {
    let mut file = fs::create(rt, name)?;
    file.write_all(bytes).map_err(|_| FileFailed::Fault)
}

#[cfg(test)]
mod tests {
    use super::*;
    use std::process;
    use std::test::Fail;

    #[test]
    fn reads_what_it_wrote(rt: HostRuntime) -> Result<(), Fail> {
        let alloc = rt.alloc();
        let name = format!(in alloc; "/tmp/baggy-shelf-{}", process::id(rt.process()))?;
        let name = name.as_str();
        let mut shelf = DirShelf::new(alloc, &rt);
        let mut piece = [0u8; 4];
        assert_eq!(rt; shelf.read(name, 0, &mut piece), Ok(None));
        assert_eq!(rt; shelf.write(name, b"abcdef"), Ok(()));
        assert_eq!(rt; shelf.read(name, 0, &mut piece), Ok(Some(4)));
        assert_eq!(rt; piece, *b"abcd");
        assert_eq!(rt; shelf.read(name, 4, &mut piece), Ok(Some(2)));
        assert_eq!(rt; shelf.read(name, 6, &mut piece), Ok(Some(0)));
        assert_eq!(rt; shelf.read("/", 0, &mut piece), Err(ShelfFailed::Fault));
        assert_eq!(rt; shelf.read("/dev/null/below", 0, &mut piece), Ok(None));
        fs::remove_file(&rt, name)?;
        Ok(())
    }
}
