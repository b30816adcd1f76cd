//! The call that does what the words say.
ghost use Rattle.std.specs.Prelude.{◌≡◌, ◌≢◌, ◌+◌, ◌≤◌, ℕ, List, None, Some, length, map};
ghost use Rattle.std.specs.String.{string_bytes};
ghost use Rattle.bb_outside.specs.Files.{Stays};
ghost use Rattle.rv_image.specs.Rules.{IsImage};
ghost use Rattle.baggy_tool.specs.Endings.{status_of};
ghost use Rattle.baggy_tool.specs.Words.{Run, Exec, Compile, Check, request, request_of};
ghost use Rattle.baggy_tool.specs.Building.{refused, unread, RunsImage, WritesImage};
ghost use Rattle.baggy_tool.specs.Files.{most_source, most_image};
ghost use Rattle.baggy_tool.specs.Calls.{Meets, AnswersWords, Answers, AnswersRun, AnswersExec, AnswersCompile};
ghost use Rattle.baggy_tool.specs.Calls.{AnswersCheck, IsKept, Notes, Streams, files, streams, noting};

use crate::ending::{Ended, Ending, Refusal, ending_of, status_of};
use crate::notes::note;
use crate::reader::{MAX_IMAGE, MAX_SOURCE, ReadError, read_file};
use crate::words::{Command, command_in};
use bb_driver::compile::{Compiled, compile};
use bb_driver::error::CompileError;
use bb_driver::source::check;
use bb_outside::{Shelf, ShelfFailed, Sink, Source};
use lowering_counts::error::LowerError;
use rv_image::image::Image;
use rv_image::{ImageError, read, write};
use rv_machine::machine::Machine;
use std::alloc::Global;

// What a call came to, but for the notes.
#[derive(Drop)]
struct Outcome {
    ending: Ending,
    image: Option<Image>,
}

/// Does what the words say: reads the file, compiles it or takes it as an image, runs or writes the image, and notes
/// how the call ended.
///
/// The words are those after the program's name. A failing note replaces the ending by `NoteFault`.
pub fn baggy_run<F: Shelf, I: Source, O: Sink, E: Sink>(
    alloc: Global,
    words: &[String],
    shelf: &mut F,
    input: &mut I,
    output: &mut O,
    notes: &mut E,
) -> Ended
    ensures { Meets (map string_bytes words.now)
        (files (F.file shelf.old) (F.faults shelf.old) (F.misses shelf.old))
        (files (F.file shelf.new) (F.faults shelf.new) (F.misses shelf.new))
        (streams (I.left input.old) (I.is_over input.old) (I.faults input.old) (O.written output.old) (O.faults output.old))
        (streams (I.left input.new) (I.is_over input.new) (I.faults input.new) (O.written output.new) (O.faults output.new))
        (noting (E.written notes.old) (E.faults notes.old))
        (noting (E.written notes.new) (E.faults notes.new))
        result }
{
    let outcome = answer(alloc, words, shelf, input, output);
    finish(outcome, notes)
}

// Does what the words say, but for the notes.
fn answer<F: Shelf, I: Source, O: Sink>(
    alloc: Global,
    words: &[String],
    shelf: &mut F,
    input: &mut I,
    output: &mut O,
) -> Outcome
    ensures answers { AnswersWords (request_of (map string_bytes words.now))
        (files (F.file shelf.old) (F.faults shelf.old) (F.misses shelf.old))
        (files (F.file shelf.new) (F.faults shelf.new) (F.misses shelf.new))
        (streams (I.left input.old) (I.is_over input.old) (I.faults input.old) (O.written output.old) (O.faults output.old))
        (streams (I.left input.new) (I.is_over input.new) (I.faults input.new) (O.written output.new) (O.faults output.new))
        result.image result.ending }
    ensures files { (other : List ℕ) → IsKept (request_of (map string_bytes words.now)) result.image other
        → Stays (F.file shelf.old other) (F.file shelf.new other) }
{
    match command_in(alloc, words) {
        Err(_) => without_image(Ending::NoMemory),
        Ok(None) => without_image(Ending::Usage),
        Ok(Some(command)) => answer_command(alloc, command, shelf, input, output),
    }
}

// Does what is asked for.
fn answer_command<F: Shelf, I: Source, O: Sink>(
    alloc: Global,
    command: Command<'_>,
    shelf: &mut F,
    input: &mut I,
    output: &mut O,
) -> Outcome
    ensures answers { Answers (request command.entry)
        (files (F.file shelf.old) (F.faults shelf.old) (F.misses shelf.old))
        (files (F.file shelf.new) (F.faults shelf.new) (F.misses shelf.new))
        (streams (I.left input.old) (I.is_over input.old) (I.faults input.old) (O.written output.old) (O.faults output.old))
        (streams (I.left input.new) (I.is_over input.new) (I.faults input.new) (O.written output.new) (O.faults output.new))
        result.image result.ending }
    ensures files { (other : List ℕ) → IsKept (Some (request command.entry)) result.image other
        → Stays (F.file shelf.old other) (F.file shelf.new other) }
{
    match command {
        Command::Run { file, steps } => answer_run(alloc, file, steps, shelf, input, output),
        Command::Exec { file, steps } => answer_exec(alloc, file, steps, shelf, input, output),
        Command::Compile { file, path } => answer_compile(alloc, file, path, shelf),
        Command::Check { file } => answer_check(alloc, file, shelf),
    }
}

// Reads a source, compiles it and runs its image.
fn answer_run<F: Shelf, I: Source, O: Sink>(
    alloc: Global,
    file: &str,
    steps: u64,
    shelf: &mut F,
    input: &mut I,
    output: &mut O,
) -> Outcome
    ensures answers { Answers (Run file.now steps)
        (files (F.file shelf.old) (F.faults shelf.old) (F.misses shelf.old))
        (files (F.file shelf.new) (F.faults shelf.new) (F.misses shelf.new))
        (streams (I.left input.old) (I.is_over input.old) (I.faults input.old) (O.written output.old) (O.faults output.old))
        (streams (I.left input.new) (I.is_over input.new) (I.faults input.new) (O.written output.new) (O.faults output.new))
        result.image result.ending }
    ensures files { (other : List ℕ) → Stays (F.file shelf.old other) (F.file shelf.new other) }
{
    match read_file(alloc, shelf, file, MAX_SOURCE) {
        Err(e) => without_image(unread(e)),
        Ok(text) => run_text(alloc, &text, steps, input, output),
    }
}

// Reads an image and runs it.
fn answer_exec<F: Shelf, I: Source, O: Sink>(
    alloc: Global,
    file: &str,
    steps: u64,
    shelf: &mut F,
    input: &mut I,
    output: &mut O,
) -> Outcome
    ensures answers { Answers (Exec file.now steps)
        (files (F.file shelf.old) (F.faults shelf.old) (F.misses shelf.old))
        (files (F.file shelf.new) (F.faults shelf.new) (F.misses shelf.new))
        (streams (I.left input.old) (I.is_over input.old) (I.faults input.old) (O.written output.old) (O.faults output.old))
        (streams (I.left input.new) (I.is_over input.new) (I.faults input.new) (O.written output.new) (O.faults output.new))
        result.image result.ending }
    ensures files { (other : List ℕ) → Stays (F.file shelf.old other) (F.file shelf.new other) }
{
    match read_file(alloc, shelf, file, MAX_IMAGE) {
        Err(e) => without_image(unread(e)),
        Ok(bytes) => exec_bytes(alloc, &bytes, steps, input, output),
    }
}

// Reads a source, compiles it and writes its image.
fn answer_compile<F: Shelf>(alloc: Global, file: &str, path: &str, shelf: &mut F) -> Outcome
    ensures answers { (old : Streams) → Answers (Compile file.now path.now)
        (files (F.file shelf.old) (F.faults shelf.old) (F.misses shelf.old))
        (files (F.file shelf.new) (F.faults shelf.new) (F.misses shelf.new))
        old old result.image result.ending }
    ensures files { (other : List ℕ) → IsKept (Some (Compile file.now path.now)) result.image other
        → Stays (F.file shelf.old other) (F.file shelf.new other) }
{
    match read_file(alloc, shelf, file, MAX_SOURCE) {
        Err(e) => without_image(unread(e)),
        Ok(text) => write_text(alloc, &text, path, shelf),
    }
}

// Reads a source, and says whether it is accepted.
fn answer_check<F: Shelf>(alloc: Global, file: &str, shelf: &mut F) -> Outcome
    ensures answers { (old : Streams) → Answers (Check file.now)
        (files (F.file shelf.old) (F.faults shelf.old) (F.misses shelf.old))
        (files (F.file shelf.new) (F.faults shelf.new) (F.misses shelf.new))
        old old result.image result.ending }
    ensures files { (other : List ℕ) → Stays (F.file shelf.old other) (F.file shelf.new other) }
{
    match read_file(alloc, shelf, file, MAX_SOURCE) {
        Err(e) => without_image(unread(e)),
        Ok(text) => without_image(check_text(alloc, &text)),
    }
}

// Makes the text's image and runs it.
fn run_text<I: Source, O: Sink>(
    alloc: Global,
    text: &[u8],
    steps: u64,
    input: &mut I,
    output: &mut O,
) -> Outcome
    requires { length text.now ≤ most_source + 1 }
    ensures { AnswersRun text.now steps
        (streams (I.left input.old) (I.is_over input.old) (I.faults input.old) (O.written output.old) (O.faults output.old))
        (streams (I.left input.new) (I.is_over input.new) (I.faults input.new) (O.written output.new) (O.faults output.new))
        result.image result.ending }
{
    match compile(alloc, text) {
        Err(error) => without_image(refused(error)),
        Ok(Compiled { image, .. }) => run_image(alloc, image, steps, input, output),
    }
}

// Takes the bytes as an image and runs it.
fn exec_bytes<I: Source, O: Sink>(
    alloc: Global,
    bytes: &[u8],
    steps: u64,
    input: &mut I,
    output: &mut O,
) -> Outcome
    requires { length bytes.now ≤ most_image + 1 }
    ensures { AnswersExec bytes.now steps
        (streams (I.left input.old) (I.is_over input.old) (I.faults input.old) (O.written output.old) (O.faults output.old))
        (streams (I.left input.new) (I.is_over input.new) (I.faults input.new) (O.written output.new) (O.faults output.new))
        result.image result.ending }
{
    match read(alloc, bytes) {
        Err(ImageError::Memory) => without_image(Ending::NoMemory),
        Err(error) => without_image(Ending::Refused {
            error: Refusal::Image(error),
        }),
        Ok(image) => run_image(alloc, image, steps, input, output),
    }
}

// Makes the text's image and writes it.
fn write_text<F: Shelf>(alloc: Global, text: &[u8], path: &str, shelf: &mut F) -> Outcome
    requires { length text.now ≤ most_source + 1 }
    ensures written { AnswersCompile text.now (F.file shelf.old path.now) (F.file shelf.new path.now) (F.faults shelf.old)
        (F.faults shelf.new) result.image result.ending }
    ensures others { (other : List ℕ) → other ≢ path.now → Stays (F.file shelf.old other) (F.file shelf.new other) }
    ensures unwritten { result.image ≡ None → (other : List ℕ) → Stays (F.file shelf.old other) (F.file shelf.new other) }
{
    match compile(alloc, text) {
        Err(error) => without_image(refused(error)),
        Ok(Compiled { image, .. }) => write_image(alloc, image, path, shelf),
    }
}

// How a call ends that reads the text alone.
fn check_text(alloc: Global, text: &[u8]) -> Ending
    requires { length text.now ≤ most_source + 1 }
    ensures { AnswersCheck text.now None result }
{
    match check(alloc, text) {
        Err(error) => refused(error),
        Ok(()) => Ending::Checked,
    }
}

// Runs the image.
fn run_image<I: Source, O: Sink>(
    alloc: Global,
    image: Image,
    steps: u64,
    input: &mut I,
    output: &mut O,
) -> Outcome
    requires { IsImage image }
    ensures { RunsImage image steps
        (streams (I.left input.old) (I.is_over input.old) (I.faults input.old) (O.written output.old) (O.faults output.old))
        (streams (I.left input.new) (I.is_over input.new) (I.faults input.new) (O.written output.new) (O.faults output.new))
        result.image result.ending }
{
    match Machine::new(alloc, &image) {
        Err(_) => without_image(Ending::NoMemory),
        Ok(mut machine) => {
            let stop = machine.run(steps, input, output);
            with_image(ending_of(stop), image)
        }
    }
}

// Writes the image.
fn write_image<F: Shelf>(alloc: Global, image: Image, path: &str, shelf: &mut F) -> Outcome
    requires { IsImage image }
    ensures written { WritesImage image (F.file shelf.old path.now) (F.file shelf.new path.now) (F.faults shelf.old)
        (F.faults shelf.new) result.image result.ending }
    ensures others { (other : List ℕ) → other ≢ path.now → Stays (F.file shelf.old other) (F.file shelf.new other) }
    ensures unwritten { result.image ≡ None → (other : List ℕ) → Stays (F.file shelf.old other) (F.file shelf.new other) }
{
    match write(alloc, &image) {
        Err(_) => without_image(Ending::NoMemory),
        Ok(bytes) => match shelf.write(path, bytes.as_slice()) {
            Ok(()) => with_image(Ending::Wrote, image),
            Err(ShelfFailed::Fault) => with_image(Ending::FileFault, image),
            Err(ShelfFailed::Memory) => with_image(Ending::NoMemory, image),
        },
    }
}

// How a call ends whose source has no image.
fn refused(error: CompileError) -> Ending
    ensures { result ≡ refused error }
{
    match error {
        CompileError::Memory => Ending::NoMemory,
        CompileError::Lower(LowerError::NotBuilt) => Ending::Refused {
            error: Refusal::NotBuilt,
        },
        error => Ending::Refused {
            error: Refusal::Source(error),
        },
    }
}

// How a call ends that could not read its file.
fn unread(error: ReadError) -> Ending
    ensures { result ≡ unread error }
{
    match error {
        ReadError::NoFile => Ending::NoFile,
        ReadError::Fault => Ending::FileFault,
        ReadError::Memory => Ending::NoMemory,
    }
}

fn with_image(ending: Ending, image: Image) -> Outcome
    ensures { result ≡ record { ending = ending; image = Some image } }
{
    Outcome {
        ending,
        image: Some(image),
    }
}

fn without_image(ending: Ending) -> Outcome
    ensures { result ≡ record { ending = ending; image = None } }
{
    Outcome {
        ending,
        image: None,
    }
}

// Notes how the call ended.
fn finish<E: Sink>(outcome: Outcome, notes: &mut E) -> Ended
    requires { outcome.ending ≢ Ending.NoteFault }
    ensures image { result.image ≡ outcome.image }
    ensures status { result.status ≡ status_of result.ending }
    ensures noted { Notes outcome.ending
        (noting (E.written notes.old) (E.faults notes.old))
        (noting (E.written notes.new) (E.faults notes.new))
        result.ending }
{
    let Outcome { ending, image } = outcome;
    match note(notes, &ending) {
        Ok(()) => Ended {
            status: status_of(&ending),
            ending,
            image,
        },
        Err(_) => Ended {
            status: status_of(&Ending::NoteFault),
            ending: Ending::NoteFault,
            image,
        },
    }
}
