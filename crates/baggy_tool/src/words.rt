//! What the words of the command line ask for.
ghost use Rattle.std.specs.Prelude.{◌≡◌, false, map, IfOk};
ghost use Rattle.std.specs.String.{string_bytes};
ghost use Rattle.std.specs.List.{list_all};
ghost use Rattle.std.specs.Option.{option_map};
ghost use Rattle.std.specs.Char.{is_ascii_digit};
ghost use Rattle.clap.specs.Words.{rule_of, app_of, rows_of, found_of};
ghost use Rattle.baggy_tool.specs.Words.{request, request_of, steps_of, steps_in, default_steps, positional, option};
ghost use Rattle.baggy_tool.specs.Words.{baggy_command, with_mode, with_words, asked_by, text_in, is_out_of_memory};

use crate::decimal::number_within;
use clap::error::ErrorKind;
use clap::{Arg, ArgAction, ArgMatches};
use std::alloc::{AllocError, Global};

/// How many instructions a run has where the words don't say.
const DEFAULT_STEPS: u64 = 200_000_000;

/// How many instructions a run may have.
const MAX_STEPS: u64 = 1_000_000_000_000;

/// What the words ask for.
#[derive(Clone, Copy, Debug)]
pub(crate) enum Command<'a> {
    /// A source is compiled and run, for so many instructions at most.
    Run { file: &'a str, steps: u64 },
    /// An image is run.
    Exec { file: &'a str, steps: u64 },
    /// A source is compiled, and its image is written to a file.
    Compile { file: &'a str, path: &'a str },
    /// A source is read, and refused as a run would refuse it.
    Check { file: &'a str },
}

/// What the words ask for, or none where they ask for nothing.
pub(crate) fn command_in<'a>(
    alloc: Global,
    words: &'a [String],
) -> Result<Option<Command<'a>>, AllocError>
    ensures { IfOk result (λ command. option_map request command ≡ request_of (map string_bytes words.entry.now)) }
{
    let command = baggy_command(alloc)?;
    match command.try_get_matches_from(words) {
        Ok(matches) => Ok(asked_by(&matches)),
        Err(error) => {
            if is_out_of_memory(error.kind()) {
                Err(AllocError)
            } else {
                Ok(None)
            }
        }
    }
}

fn is_out_of_memory(kind: ErrorKind) -> bool
    ensures { result ≡ is_out_of_memory kind }
{
    matches!(kind, ErrorKind::OutOfMemory)
}

// The command as `clap` reads it.
fn baggy_command<'a>(alloc: Global) -> Result<clap::Command<'a>, AllocError>
    ensures { IfOk result (λ command. app_of command ≡ baggy_command) }
{
    clap::Command::new(alloc, "baggy")
        .no_binary_name(true)
        .arg(positional(alloc, "MODE"))?
        .arg(positional(alloc, "FILE"))?
        .arg(option(alloc, "steps"))?
        .arg(option(alloc, "out"))
}

fn positional<'a>(alloc: Global, id: &'a str) -> Arg<'a>
    ensures rule { rule_of result ≡ positional id.now }
    ensures local { result.global ≡ false }
{
    Arg::new(alloc, id).required(true).action(ArgAction::Set)
}

fn option<'a>(alloc: Global, id: &'a str) -> Arg<'a>
    ensures rule { rule_of result ≡ option id.now }
    ensures local { result.global ≡ false }
{
    Arg::new(alloc, id).long(id).action(ArgAction::Set)
}

// What the matches ask for.
fn asked_by<'a>(matches: &ArgMatches<'a>) -> Option<Command<'a>>
    ensures { option_map request result ≡ asked_by (rows_of (found_of matches.now)) }
{
    let mode = matches.get_str("MODE");
    let file = matches.get_str("FILE");
    with_words(mode, file, matches.get_str("steps"), matches.get_str("out"))
}

// What a mode and a file ask for, with the options.
fn with_words<'a>(
    mode: Option<&str>,
    file: Option<&'a str>,
    steps: Option<&str>,
    out: Option<&'a str>,
) -> Option<Command<'a>>
    ensures { option_map request result ≡ with_words (text_in mode.entry) (text_in file.entry) (text_in steps.entry) (text_in out.entry) }
{
    with_mode(mode?, file?, steps, out)
}

// A mode with the options that it may have.
fn with_mode<'a>(
    mode: &str,
    file: &'a str,
    steps: Option<&str>,
    out: Option<&'a str>,
) -> Option<Command<'a>>
    ensures { option_map request result ≡ with_mode mode.now file.now (text_in steps.entry) (text_in out.entry) }
{
    match out {
        None if mode == "run" => {
            let steps = steps_in(steps)?;
            Some(Command::Run { file, steps })
        }
        None if mode == "exec" => {
            let steps = steps_in(steps)?;
            Some(Command::Exec { file, steps })
        }
        None if mode == "check" && steps.is_none() => Some(Command::Check { file }),
        Some(path) if mode == "compile" && steps.is_none() => Some(Command::Compile { file, path }),
        _ => None,
    }
}

// A run's number of instructions.
fn steps_in(word: Option<&str>) -> Option<u64>
    ensures { result ≡ steps_in (text_in word.entry) }
{
    match word {
        None => Some(default_steps()),
        Some(word) => steps_of(word),
    }
}

#[tactic(auto, unfolding(crate::specs::Words::default_steps))]
fn default_steps() -> u64
    ensures { result ≡ default_steps }
{
    DEFAULT_STEPS
}

// The number of instructions that a word says.
fn steps_of(word: &str) -> Option<u64>
    ensures { result ≡ steps_of word.now }
{
    let digits = word.as_bytes();
    if digits.is_empty() {
        return None;
    }
    if !are_digits(digits) {
        return None;
    }
    number_within(MAX_STEPS, digits)
}

fn are_digits(bytes: &[u8]) -> bool
    ensures { result ≡ list_all is_ascii_digit bytes.now }
{
    bytes.iter().all(|byte| byte.is_ascii_digit())
}
