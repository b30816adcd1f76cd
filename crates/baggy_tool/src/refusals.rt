//! The line that is noted of a refusal.
ghost use Rattle.std.specs.Prelude.{◌≡◌, codes, decimal};
ghost use Rattle.bb_outside.specs.Causes.{HasCause};
ghost use Rattle.baggy_tool.specs.Endings.{refusal_line, compile_line, image_line, lex_line, parse_line, typing_line, layout_line, lower_line, named};
ghost use Rattle.baggy_tool.specs.Notes.{Noted};

use crate::ending::Refusal;
use crate::notes::{put, put_both, put_numbered, put_total, put_two};
use bb_driver::error::CompileError;
use bb_outside::{Sink, SinkFailed};
use block_layout::error::LayoutError;
use c_lexer::LexError;
use c_parser::ParseError;
use itoa::Buffer;
use lowering_counts::error::LowerError;
use rv_image::error::ImageError;
use typing_operators::error::TypeError;

/// Writes the line of the refusal.
pub(crate) fn note_refusal<E: Sink>(notes: &mut E, error: &Refusal) -> Result<(), SinkFailed>
    ensures noted { Noted result (refusal_line error.now) (E.written notes.old) (E.written notes.new) }
    ensures cause { HasCause (E.faults notes.old) (E.faults notes.new) result }
{
    match error {
        Refusal::Source(error) => note_compile_error(notes, error),
        Refusal::Image(error) => note_image_error(notes, *error),
        Refusal::NotBuilt => put(notes, b"baggy: refused NotBuilt\n"),
    }
}

fn note_compile_error<E: Sink>(notes: &mut E, error: &CompileError) -> Result<(), SinkFailed>
    ensures noted { Noted result (compile_line error.now) (E.written notes.old) (E.written notes.new) }
    ensures cause { HasCause (E.faults notes.old) (E.faults notes.new) result }
{
    match error {
        CompileError::Lex(error) => note_lex_error(notes, *error),
        CompileError::Parse(error) => note_parse_error(notes, *error),
        CompileError::Typing(error) => note_type_error(notes, error),
        CompileError::Layout(error) => note_layout_error(notes, error),
        CompileError::Lower(error) => note_lower_error(notes, error),
        CompileError::Memory => Ok(()),
    }
}

fn note_lex_error<E: Sink>(notes: &mut E, error: LexError) -> Result<(), SinkFailed>
    ensures noted { Noted result (lex_line error) (E.written notes.old) (E.written notes.new) }
    ensures cause { HasCause (E.faults notes.old) (E.faults notes.new) result }
{
    match error {
        LexError::TooLong { length } => {
            put_numbered(notes, b"baggy: refused TooLong length ", length)
        }
        LexError::BadByte { line } => put_numbered(notes, b"baggy: refused BadByte at line ", line),
        LexError::BadNumber { line } => {
            put_numbered(notes, b"baggy: refused BadNumber at line ", line)
        }
        LexError::BadEscape { line } => {
            put_numbered(notes, b"baggy: refused BadEscape at line ", line)
        }
        LexError::Unclosed { line } => {
            put_numbered(notes, b"baggy: refused Unclosed at line ", line)
        }
        LexError::BadDirective { line } => {
            put_numbered(notes, b"baggy: refused BadDirective at line ", line)
        }
        LexError::Memory => Ok(()),
    }
}

fn note_parse_error<E: Sink>(notes: &mut E, error: ParseError) -> Result<(), SinkFailed>
    ensures noted { Noted result (parse_line error) (E.written notes.old) (E.written notes.new) }
    ensures cause { HasCause (E.faults notes.old) (E.faults notes.new) result }
{
    match error {
        ParseError::Syntax { token, line } => {
            put_two(
                notes,
                b"baggy: refused Syntax token ",
                token,
                b" at line ",
                line,
            )
        }
        ParseError::TooDeep { token, line } => {
            put_two(
                notes,
                b"baggy: refused TooDeep token ",
                token,
                b" at line ",
                line,
            )
        }
        ParseError::Memory => Ok(()),
    }
}

fn note_type_error<E: Sink>(notes: &mut E, error: &TypeError) -> Result<(), SinkFailed>
    ensures noted { Noted result (typing_line error.now) (E.written notes.old) (E.written notes.new) }
    ensures cause { HasCause (E.faults notes.old) (E.faults notes.new) result }
{
    match error {
        TypeError::Unknown { line, name } => {
            let name = name.as_slice();
            put_named(notes, b"baggy: refused Unknown ", name, b" at line ", *line)
        }
        TypeError::Twice { line, name } => {
            let name = name.as_slice();
            put_named(notes, b"baggy: refused Twice ", name, b" at line ", *line)
        }
        TypeError::BadType { line, rule } => put_at_line(
            notes,
            b"baggy: refused BadType rule ",
            u64::from(*rule),
            *line,
        ),
        TypeError::NoMain => put(notes, b"baggy: refused NoMain\n"),
        TypeError::TooLarge { line, size } => {
            put_at_line(notes, b"baggy: refused TooLarge size ", *size, *line)
        }
        TypeError::TooManyParams { line } => {
            put_numbered(notes, b"baggy: refused TooManyParams at line ", *line)
        }
        TypeError::TooManyFunctions { line } => {
            put_numbered(notes, b"baggy: refused TooManyFunctions at line ", *line)
        }
        TypeError::Memory => Ok(()),
    }
}

fn note_layout_error<E: Sink>(notes: &mut E, error: &LayoutError) -> Result<(), SinkFailed>
    ensures noted { Noted result (layout_line error.now) (E.written notes.old) (E.written notes.new) }
    ensures cause { HasCause (E.faults notes.old) (E.faults notes.new) result }
{
    match error {
        LayoutError::GlobalsFull { total } => {
            put_total(notes, b"baggy: refused GlobalsFull total ", *total)
        }
        LayoutError::FrameFull { function, total } => {
            let name = function.as_slice();
            put_named_total(
                notes,
                b"baggy: refused FrameFull ",
                name,
                b" total ",
                *total,
            )
        }
        LayoutError::Memory => Ok(()),
    }
}

fn note_lower_error<E: Sink>(notes: &mut E, error: &LowerError) -> Result<(), SinkFailed>
    ensures noted { Noted result (lower_line error.now) (E.written notes.old) (E.written notes.new) }
    ensures cause { HasCause (E.faults notes.old) (E.faults notes.new) result }
{
    match error {
        LowerError::TooManyNodes { count } => {
            put_numbered(notes, b"baggy: refused TooManyNodes count ", *count)
        }
        LowerError::TooManyValues { function, count } => {
            let name = function.as_slice();
            put_named(
                notes,
                b"baggy: refused TooManyValues ",
                name,
                b" count ",
                *count,
            )
        }
        LowerError::NotBuilt | LowerError::Memory => Ok(()),
    }
}

fn note_image_error<E: Sink>(notes: &mut E, error: ImageError) -> Result<(), SinkFailed>
    ensures noted { Noted result (image_line error) (E.written notes.old) (E.written notes.new) }
    ensures cause { HasCause (E.faults notes.old) (E.faults notes.new) result }
{
    match error {
        ImageError::Short { need, have } => put_two(
            notes,
            b"baggy: refused Short need ",
            need,
            b" have ",
            have,
        ),
        ImageError::BadMagic => put(notes, b"baggy: refused BadMagic\n"),
        ImageError::BadVersion { version } => {
            put_numbered(notes, b"baggy: refused BadVersion ", version)
        }
        ImageError::BadField { at } => put_numbered(notes, b"baggy: refused BadField at ", at),
        ImageError::Extra { at } => put_numbered(notes, b"baggy: refused Extra at ", at),
        ImageError::Memory => Ok(()),
    }
}

// Writes a text and a name, and a second text, a number and a line feed.
fn put_named<E: Sink>(
    notes: &mut E,
    text: &[u8],
    name: &[u8],
    second: &[u8],
    number: u32,
) -> Result<(), SinkFailed>
    ensures noted { Noted result (named text.now name.now second.now number) (E.written notes.old) (E.written notes.new) }
    ensures cause { HasCause (E.faults notes.old) (E.faults notes.new) result }
{
    put_named_total(notes, text, name, second, u64::from(number))
}

// The same with a number of up to 64 bits.
fn put_named_total<E: Sink>(
    notes: &mut E,
    text: &[u8],
    name: &[u8],
    second: &[u8],
    number: u64,
) -> Result<(), SinkFailed>
    ensures noted { Noted result (named text.now name.now second.now number) (E.written notes.old) (E.written notes.new) }
    ensures cause { HasCause (E.faults notes.old) (E.faults notes.new) result }
{
    put_both(notes, text, name)?;
    put_total(notes, second, number)
}

// Writes a text and a number, and a line.
fn put_at_line<E: Sink>(
    notes: &mut E,
    text: &[u8],
    number: u64,
    line: u32,
) -> Result<(), SinkFailed>
    ensures noted { Noted result (named text.now (decimal number) (codes " at line ") line) (E.written notes.old) (E.written notes.new) }
    ensures cause { HasCause (E.faults notes.old) (E.faults notes.new) result }
{
    let mut buffer = Buffer::new();
    let number = buffer.format(number).as_bytes();
    put_named(notes, text, number, b" at line ", line)
}
