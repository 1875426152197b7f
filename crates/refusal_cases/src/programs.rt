//! The pass on a text, and the work of the programs.

use crate::case::Case;
use crate::outcome::Outcome;
use first_pass_blocks::pass::run_first_pass;
use first_pass_host::clock::TimeSource;
use first_pass_host::fault::RunFault;
use first_pass_host::option_word::parse_options;
use first_pass_host::words::words_of;
use first_pass_items::item::Item;
use first_pass_names::items::Allocations;
use first_pass_program::bench::bench_run;
use first_pass_program::run::{blocks_run, links_run, tree_run};
use first_pass_reports::printed::links::append_link;
use first_pass_reports::printed::node::append_node;
use std::alloc::{AllocError, Global};
use std::io;
use std::io::Write;

// The greatest number of bytes written; writing them takes no memory request.
const ROOM: usize = 8192;

// A writer that requests its memory before it is written to.
#[derive(Drop)]
struct Page {
    bytes: Vec<u8>,
}

impl Write for Page {
    fn write(&mut self, buf: &[u8]) -> io::Result<usize> {
        let count = buf.len().min(ROOM.saturating_sub(self.bytes.len()));
        self.bytes.extend_from_slice(&buf[..count])?;
        Ok(count)
    }

    fn flush(&mut self) -> io::Result<()> {
        Ok(())
    }
}

// A clock on which ten nanoseconds pass between two readings.
#[derive(Drop)]
struct Ticks {
    nanos: u128,
}

impl TimeSource for Ticks {
    fn nanos(&mut self) -> io::Result<u128> {
        self.nanos = self.nanos.saturating_add(10);
        Ok(self.nanos)
    }
}

/// Makes a call of this name, and makes it again if it is refused. Returns `None` if no call has this name.
pub fn call_program(rt: &HostRuntime, case: &Case<'_>) -> Option<Outcome> {
    match call_once(rt, case)? {
        Outcome::Refused => match call_once(rt, case)? {
            Outcome::Usual => Some(Outcome::Refused),
            _ => Some(Outcome::Differs),
        },
        outcome => Some(outcome),
    }
}

fn call_once(rt: &HostRuntime, case: &Case<'_>) -> Option<Outcome> {
    match case.call {
        "parse" => Some(parse(rt.alloc(), case).unwrap_or(Outcome::Elsewhere)),
        "words" => Some(take_words(rt, case)),
        "blocks" | "links" | "tree" | "bench" => {
            Some(run(rt.alloc(), case).unwrap_or(Outcome::Elsewhere))
        }
        _ => None,
    }
}

// The pass on the text: it returns a tree and tables, or neither.
fn parse(alloc: Global, case: &Case<'_>) -> Result<Outcome, AllocError> {
    let mut lines = Vec::with_capacity(alloc, ROOM)?;
    let Some(options) = parse_options(case.words.as_slice()) else {
        return Ok(Outcome::Differs);
    };
    let Ok((tree, allocs)) = run_first_pass(alloc, case.text.as_str(), options) else {
        return Ok(Outcome::Refused);
    };
    append_lines(&mut lines, tree.nodes(), &allocs)?;
    if lines.as_slice() == case.wanted.as_bytes() {
        Ok(Outcome::Usual)
    } else {
        Ok(Outcome::Differs)
    }
}

// Appends a line for each node and each link definition.
fn append_lines(
    lines: &mut Vec<u8>,
    nodes: &[(usize, Item)],
    allocs: &Allocations<'_>,
) -> Result<(), AllocError> {
    for node in nodes {
        append_node(lines, node.0, node.1, allocs)?;
    }
    for (label, link) in allocs.refdefs().iter() {
        append_link(lines, label, link)?;
    }
    Ok(())
}

// The words of this program.
fn take_words(rt: &HostRuntime, case: &Case<'_>) -> Outcome {
    match words_of(rt) {
        Ok(words) if words.is_empty() => Outcome::Usual,
        Err(RunFault::OutOfMemory) => Outcome::Refused,
        _ => Outcome::Differs,
    }
}

// The work of a program: if it is refused, a beginning of the whole output was written.
fn run(alloc: Global, case: &Case<'_>) -> Result<Outcome, AllocError> {
    let mut page = Page {
        bytes: Vec::with_capacity(alloc, ROOM)?,
    };
    let words = case.words.as_slice();
    let mut input = case.text.as_bytes();
    let answer = match case.call {
        "blocks" => blocks_run(alloc, words, &mut input, &mut page),
        "links" => links_run(alloc, words, &mut input, &mut page),
        "tree" => tree_run(alloc, words, &mut input, &mut page),
        _ => bench_run(&mut Ticks { nanos: 0 }, alloc, words, &mut input, &mut page),
    };
    let wanted = case.wanted.as_bytes();
    let written = page.bytes.as_slice();
    Ok(match answer {
        Ok(()) if written == wanted => Outcome::Usual,
        Err(RunFault::OutOfMemory) if wanted.starts_with(written) => Outcome::Refused,
        Err(RunFault::OutOfMemory) => Outcome::Changed,
        _ => Outcome::Differs,
    })
}
