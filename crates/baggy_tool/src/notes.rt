//! The line that is noted of an ending.
ghost use Rattle.std.specs.Prelude.{◌≡◌, ◌++◌, decimal};
ghost use Rattle.bb_outside.specs.Causes.{HasCause};
ghost use Rattle.baggy_tool.specs.Endings.{line_of, numbered, report_name, trap_name};
ghost use Rattle.baggy_tool.specs.Notes.{Noted};

use crate::ending::Ending;
use crate::refusals::note_refusal;
use bb_outside::{Sink, SinkFailed};
use bb_words::kinds::{ReportKind, TrapKind};
use itoa::Buffer;

const USAGE: &[u8] =
    b"usage: baggy run|compile|exec|check FILE [--steps N] [--out PATH] [--profile]\n";

/// Writes the line of the ending, if it has one.
pub(crate) fn note<E: Sink>(notes: &mut E, ending: &Ending) -> Result<(), SinkFailed>
    ensures noted { Noted result (line_of ending.now) (E.written notes.old) (E.written notes.new) }
    ensures cause { HasCause (E.faults notes.old) (E.faults notes.new) result }
{
    match ending {
        Ending::Exited(_) | Ending::Wrote | Ending::Checked | Ending::NoteFault => Ok(()),
        Ending::Reported { kind, line } => note_report(notes, *kind, *line),
        Ending::Trapped { kind } => note_trap(notes, *kind),
        Ending::Refused { error } => note_refusal(notes, error),
        Ending::OutOfSteps => put(notes, b"baggy: out of steps\n"),
        Ending::Usage => put(notes, USAGE),
        Ending::NoFile => put(notes, b"baggy: no file\n"),
        Ending::FileFault => put(notes, b"baggy: file fault\n"),
        Ending::ReadFault => put(notes, b"baggy: read fault\n"),
        Ending::WriteFault => put(notes, b"baggy: write fault\n"),
        Ending::NoMemory => put(notes, b"baggy: no memory\n"),
    }
}

fn note_report<E: Sink>(notes: &mut E, kind: ReportKind, line: u32) -> Result<(), SinkFailed>
    ensures noted { Noted result (line_of (Ending.Reported kind line)) (E.written notes.old) (E.written notes.new) }
    ensures cause { HasCause (E.faults notes.old) (E.faults notes.new) result }
{
    put_both(notes, b"baggy: report ", report_name(kind))?;
    put_numbered(notes, b" at line ", line)
}

fn note_trap<E: Sink>(notes: &mut E, kind: TrapKind) -> Result<(), SinkFailed>
    ensures noted { Noted result (line_of (Ending.Trapped kind)) (E.written notes.old) (E.written notes.new) }
    ensures cause { HasCause (E.faults notes.old) (E.faults notes.new) result }
{
    put_both(notes, b"baggy: trap ", trap_name(kind))?;
    put(notes, b"\n")
}

fn report_name(kind: ReportKind) -> &'static [u8]
    ensures { result.now ≡ report_name kind }
{
    match kind {
        ReportKind::Bounds => b"Bounds",
        ReportKind::Pointer => b"Pointer",
        ReportKind::DivZero => b"DivZero",
        ReportKind::BadFree => b"BadFree",
        ReportKind::Depth => b"Depth",
        ReportKind::Stack => b"Stack",
    }
}

fn trap_name(kind: TrapKind) -> &'static [u8]
    ensures { result.now ≡ trap_name kind }
{
    match kind {
        TrapKind::Null => b"Null",
        TrapKind::Marked => b"Marked",
        TrapKind::Unmapped => b"Unmapped",
        TrapKind::Text => b"Text",
        TrapKind::Misaligned => b"Misaligned",
        TrapKind::Fetch => b"Fetch",
        TrapKind::Illegal => b"Illegal",
        TrapKind::Break => b"Break",
        TrapKind::Call => b"Call",
    }
}

/// Writes a text, a number and a line feed.
pub(crate) fn put_numbered<E: Sink>(
    notes: &mut E,
    text: &[u8],
    number: u32,
) -> Result<(), SinkFailed>
    ensures noted { Noted result (numbered text.now number) (E.written notes.old) (E.written notes.new) }
    ensures cause { HasCause (E.faults notes.old) (E.faults notes.new) result }
{
    put_total(notes, text, u64::from(number))
}

/// Writes a text, a number of up to 64 bits and a line feed.
pub(crate) fn put_total<E: Sink>(notes: &mut E, text: &[u8], number: u64) -> Result<(), SinkFailed>
    ensures noted { Noted result (numbered text.now number) (E.written notes.old) (E.written notes.new) }
    ensures cause { HasCause (E.faults notes.old) (E.faults notes.new) result }
{
    let mut buffer = Buffer::new();
    put(notes, text)?;
    put_both(notes, buffer.format(number).as_bytes(), b"\n")
}

/// Writes a text and a number, and a second text, a number and a line feed.
pub(crate) fn put_two<E: Sink>(
    notes: &mut E,
    text: &[u8],
    number: u32,
    second: &[u8],
    last: u32,
) -> Result<(), SinkFailed>
    ensures noted { Noted result ((text.now ++ decimal number) ++ numbered second.now last) (E.written notes.old) (E.written notes.new) }
    ensures cause { HasCause (E.faults notes.old) (E.faults notes.new) result }
{
    let mut buffer = Buffer::new();
    put_both(notes, text, buffer.format(number).as_bytes())?;
    put_numbered(notes, second, last)
}

/// Writes one text and then another.
pub(crate) fn put_both<E: Sink>(
    notes: &mut E,
    first: &[u8],
    second: &[u8],
) -> Result<(), SinkFailed>
    ensures noted { Noted result (first.now ++ second.now) (E.written notes.old) (E.written notes.new) }
    ensures cause { HasCause (E.faults notes.old) (E.faults notes.new) result }
{
    put(notes, first)?;
    put(notes, second)
}

/// Writes the whole text.
pub fn put<E: Sink>(notes: &mut E, text: &[u8]) -> Result<(), SinkFailed>
    ensures noted { Noted result text.now (E.written notes.old) (E.written notes.new) }
    ensures cause { HasCause (E.faults notes.old) (E.faults notes.new) result }
{
    let mut rest = text;
    while !rest.is_empty() {
        let count = notes.put(rest)?;
        let (_, left) = rest.split_at(count);
        rest = left;
    }
    Ok(())
}
