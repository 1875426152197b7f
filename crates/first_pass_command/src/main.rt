//! `first_pass COMMAND [--options NAMES] [FILE..]`: reads Markdown texts, and writes a report on each.
#![tactic(auto)]

mod call;
mod fault;
mod page;
mod reports;
mod run;
mod screen;
mod source;
mod timed;
mod word_fault;
mod writers;

use crate::call::{Shell, run_call};
use crate::screen::Screen;
use crate::source::HostSource;
use crate::word_fault::{misplaced_message, word_message};
use crate::writers::{Closes, Writers};
use bitflags::Flags;
use clap::error::ErrorKind as ClapKind;
use first_pass_host::clock::HostClock;
use first_pass_host::output::write_whole;
use first_pass_items::option_set::Options;
use first_pass_json::template::VIEW;
use first_pass_program::words::call::{Call, WordFault, read_words};
use first_pass_program::words::option_names::{add_options, names_help};
use std::alloc::AllocError;
use std::io::{ErrorKind, IsTerminal, Stderr, Stdout, Write};
use std::process::ExitCode;
use std::{env, fs};

type HostWriters = Writers<Screen<Stdout>, Screen<Stderr>>;

fn main(rt: HostRuntime) -> ExitCode {
    let mut writers = Writers {
        output: Screen::new(rt.stdout(), rt.stdout().is_terminal()),
        errors: Screen::new(rt.stderr(), rt.stderr().is_terminal()),
    };
    ExitCode::from(status_of(&rt, &mut writers))
}

// Reads the words, and runs the command that they name. Returns the status.
fn status_of(rt: &HostRuntime, writers: &mut HostWriters) -> u8 {
    let words: Vec<String> = match env::args(rt) {
        Ok(args) => match args.collect(rt.alloc()) {
            Ok(words) => words,
            Err(_) => return say(&mut writers.errors, b"out of memory", 1),
        },
        Err(error) if error.kind() == ErrorKind::InvalidData => {
            return say(&mut writers.errors, b"a word is not UTF-8", 2);
        }
        Err(_) => return say(&mut writers.errors, b"out of memory", 1),
    };
    run_words(rt, words.as_slice(), writers)
}

// Runs the call that the words denote. The first word is the program's name. Returns the status.
fn run_words(rt: &HostRuntime, words: &[String], writers: &mut HostWriters) -> u8 {
    match read_words(rt.alloc(), words, "") {
        Ok(call) => run_checked(rt, &call, writers),
        Err(fault) => show_fault(rt, words, &fault, writers),
    }
}

// Writes the help, the version, or the line of a fault of the words. Returns the status.
fn show_fault(
    rt: &HostRuntime,
    words: &[String],
    fault: &WordFault<'_>,
    writers: &mut HostWriters,
) -> u8 {
    match fault {
        WordFault::Refused(error) if error.kind() == ClapKind::DisplayHelp => {
            show_help(rt, words, writers)
        }
        WordFault::Refused(error) => show(rt, error, writers),
        WordFault::OutOfMemory => say(&mut writers.errors, b"out of memory", 1),
        _ => say_made(word_message(rt.alloc(), fault), writers),
    }
}

// Writes the help that the words ask for. The names of options are below it, and are made for it alone. Returns the
// status.
fn show_help(rt: &HostRuntime, words: &[String], writers: &mut HostWriters) -> u8 {
    let Ok(names) = names_help(rt.alloc()) else {
        return say(&mut writers.errors, b"out of memory", 1);
    };
    match read_words(rt.alloc(), words, names.as_str()) {
        Err(WordFault::Refused(error)) => show(rt, &error, writers),
        _ => say(&mut writers.errors, b"out of memory", 1),
    }
}

// Runs a call, unless its words name standard input twice, or its first file was meant for options. Returns the status.
fn run_checked(rt: &HostRuntime, call: &Call<'_>, writers: &mut HostWriters) -> u8 {
    if names_input_twice(call) {
        return say(&mut writers.errors, b"standard input is named twice", 2);
    }
    match misplaced(rt, call) {
        Some(word) => say_made(misplaced_message(rt.alloc(), word), writers),
        None => run_host(rt, call, writers),
    }
}

// Writes the line of a fault of the words. Returns the status.
fn say_made(message: Result<Vec<u8>, AllocError>, writers: &mut HostWriters) -> u8 {
    match message {
        Ok(message) => say(&mut writers.errors, message.as_slice(), 2),
        Err(_) => say(&mut writers.errors, b"out of memory", 1),
    }
}

// Writes the help or the version to the output, and a fault of the words to the errors. Returns the status.
fn show(rt: &HostRuntime, error: &clap::Error, writers: &mut HostWriters) -> u8 {
    let Ok(text) = error.to_string(rt.alloc()) else {
        return say(&mut writers.errors, b"out of memory", 1);
    };
    if error.kind() == ClapKind::OutOfMemory {
        return say(&mut writers.errors, b"out of memory", 1);
    }
    if error.use_stderr() {
        let _ = write_whole(&mut writers.errors, text.as_str().as_bytes());
        return 2;
    }
    match write_whole(&mut writers.output, text.as_str().as_bytes()) {
        Ok(()) => 0,
        Err(_) if writers.output.is_closed() => 2,
        Err(_) => say(&mut writers.errors, b"write failed", 2),
    }
}

// Writes a line with the program's name to the errors. Returns the status that it is given.
fn say<E: Write>(errors: &mut E, text: &[u8], status: u8) -> u8 {
    let _ = write_whole(errors, b"first_pass: ");
    let _ = write_whole(errors, text);
    let _ = write_whole(errors, b"\n");
    status
}

// Runs a call. Returns the status.
fn run_host(rt: &HostRuntime, call: &Call<'_>, writers: &mut HostWriters) -> u8 {
    let shell = Shell {
        alloc: rt.alloc(),
        source: HostSource(rt),
        clock: HostClock(rt),
        template: VIEW.as_slice(),
    };
    run_call(&shell, call, writers).worst
}

// Whether two words name standard input, of which the second would read nothing.
fn names_input_twice(call: &Call<'_>) -> bool {
    let mut named = match call.list {
        Some(list) => list == "-",
        None => false,
    };
    for file in call.files.as_slice() {
        if *file != "-" {
            continue;
        }
        if named {
            return true;
        }
        named = true;
    }
    false
}

// The first file of a call, if it names options and is no file: it was meant for `--options`.
fn misplaced<'a>(rt: &HostRuntime, call: &Call<'a>) -> Option<&'a str> {
    let first = *call.files.first()?;
    if first == "-" || add_options(Options::empty(), first).is_err() {
        return None;
    }
    match fs::exists(rt, first) {
        Ok(false) => Some(first),
        _ => None,
    }
}
