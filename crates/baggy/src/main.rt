//! `baggy`: it makes the real input, output, notes and files, calls the tool, and ends with its status.
#![tactic(auto)]

ghost use Rattle.std.specs.Prelude.{◌≡◌, drop, map};
ghost use Rattle.std.specs.Process.{exit_status};
ghost use Rattle.std.specs.String.{string_bytes};
ghost use Rattle.baggy_tool.specs.Calls.{Meets, files, streams, noting};

use baggy_tool::ending::Ended;
use baggy_tool::notes::put;
use baggy_tool::run::baggy_run;
use bb_host::files::DirShelf;
use bb_host::streams::{StderrSink, StdinSource, StdoutSink};
use bb_outside::{Shelf, Sink, Source};
use std::alloc::Global;
use std::env;
use std::io::{self, Stderr, Stdin, Stdout};
use std::process::ExitCode;
use std::rt::{Env, Files};

/// The status where the words can't be read: memory was wanting, or a word is no UTF-8.
const NO_WORDS: u8 = 127;

/// The line that is noted then.
const NO_MEMORY: &[u8] = b"baggy: no memory\n";

fn main(rt: HostRuntime) -> ExitCode {
    let alloc = rt.alloc();
    let mut notes = StderrSink::new(rt.stderr());
    let Ok(words) = words(alloc, &rt) else {
        let _ = put(&mut notes, NO_MEMORY);
        return ExitCode::from(NO_WORDS);
    };
    let mut shelf = DirShelf::new(alloc, &rt);
    let mut input = StdinSource::new(rt.stdin());
    let mut output = StdoutSink::new(rt.stdout());
    let ended = call(
        alloc,
        &words,
        &mut shelf,
        &mut input,
        &mut output,
        &mut notes,
    );
    exit_code(&ended)
}

// Calls the tool. Each stream has a type of its own, so none stands for another.
fn call<'a, R: Files>(
    alloc: Global,
    words: &[String],
    shelf: &mut DirShelf<'a, R>,
    input: &mut StdinSource<Stdin>,
    output: &mut StdoutSink<Stdout>,
    notes: &mut StderrSink<Stderr>,
) -> Ended
    ensures { Meets (map string_bytes words.now)
        (files (⟦<DirShelf<'a, R> as Shelf>⟧.file shelf.old) (⟦<DirShelf<'a, R> as Shelf>⟧.faults shelf.old)
        (⟦<DirShelf<'a, R> as Shelf>⟧.misses shelf.old))
        (files (⟦<DirShelf<'a, R> as Shelf>⟧.file shelf.new) (⟦<DirShelf<'a, R> as Shelf>⟧.faults shelf.new)
        (⟦<DirShelf<'a, R> as Shelf>⟧.misses shelf.new))
        (streams (⟦<StdinSource<Stdin> as Source>⟧.left input.old) (⟦<StdinSource<Stdin> as Source>⟧.is_over input.old)
        (⟦<StdinSource<Stdin> as Source>⟧.faults input.old) (⟦<StdoutSink<Stdout> as Sink>⟧.written output.old)
        (⟦<StdoutSink<Stdout> as Sink>⟧.faults output.old))
        (streams (⟦<StdinSource<Stdin> as Source>⟧.left input.new) (⟦<StdinSource<Stdin> as Source>⟧.is_over input.new)
        (⟦<StdinSource<Stdin> as Source>⟧.faults input.new) (⟦<StdoutSink<Stdout> as Sink>⟧.written output.new)
        (⟦<StdoutSink<Stdout> as Sink>⟧.faults output.new))
        (noting (⟦<StderrSink<Stderr> as Sink>⟧.written notes.old) (⟦<StderrSink<Stderr> as Sink>⟧.faults notes.old))
        (noting (⟦<StderrSink<Stderr> as Sink>⟧.written notes.new) (⟦<StderrSink<Stderr> as Sink>⟧.faults notes.new))
        result }
{
    baggy_run(alloc, words, shelf, input, output, notes)
}

// The status for the system.
fn exit_code(ended: &Ended) -> ExitCode
    ensures { exit_status result ≡ ended.now.status }
{
    ExitCode::from(ended.status)
}

// The words after the program's name.
fn words<R: Env + AllocGlobal>(alloc: Global, rt: &R) -> io::Result<Vec<String>> {
    let mut words = Vec::new(alloc);
    for word in env::args(rt)? {
        words.push(word)?;
    }
    Ok(after_name(words))
}

// All but the first.
fn after_name(mut words: Vec<String>) -> Vec<String>
    ensures { result.items ≡ drop 1 words.items }
{
    if !words.is_empty() {
        let _name = words.remove(0);
    }
    words
}
