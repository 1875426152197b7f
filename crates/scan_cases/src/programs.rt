//! Calls of `first_pass_host` and `first_pass_host`: the words of the programs, and the line that `bench` writes.

use crate::call::Call;
use crate::walks::append_bits;
use bitflags::Flags;
use first_pass_cases::answer::Answer;
use first_pass_host::option_word::parse_options;
use first_pass_host::task::parse_task;
use first_pass_host::timing::Timing;
use first_pass_host::timing_line::append_report;
use std::alloc::{AllocError, Global};

/// Makes a call for words or for a line of `bench`. Returns `false` for any other call. The result for a task is the
/// bits of its options and its number of runs.
pub fn answer_programs(call: &Call<'_>, answer: &mut Answer) -> Result<bool, AllocError> {
    let (alloc, text) = (call.alloc, call.text);
    match call.name {
        "parse_options" => append_bits(parse_options(words_of(alloc, text)?.as_slice()), answer)?,
        "parse_task" => match parse_task(words_of(alloc, text)?.as_slice()) {
            Some(task) => {
                answer.number(task.options.bits() as usize)?;
                answer.length(task.runs.map(|runs| runs as usize))?
            }
            None => answer.none()?,
        },
        "append_report" => append_timing(alloc, text, answer)?,
        _ => return Ok(false),
    }
    Ok(true)
}

// The lines of a text, as the words of a program.
fn words_of(alloc: Global, text: &str) -> Result<Vec<String>, AllocError> {
    let mut words = Vec::new(alloc);
    for line in text.lines() {
        words.push(String::from_str(alloc, line)?)?;
    }
    Ok(words)
}

// The line of `bench` for five numbers: bytes, nodes, runs, and the nanoseconds of the best and of the first run.
fn append_timing(alloc: Global, text: &str, answer: &mut Answer) -> Result<(), AllocError> {
    let Some((bytes, timing)) = read_timing(text) else {
        return answer.none();
    };
    let mut line = Vec::new(alloc);
    append_report(&mut line, bytes, timing)?;
    let line = String::from_utf8_lossy(alloc, line.as_slice())?;
    answer.text(line.as_str())
}

fn read_timing(text: &str) -> Option<(usize, Timing)> {
    let (bytes, following) = text.split_once(' ')?;
    let (nodes, following) = following.split_once(' ')?;
    let (runs, following) = following.split_once(' ')?;
    let (nanos, first) = following.split_once(' ')?;
    let timing = Timing {
        nodes: nodes.parse::<usize>().ok()?,
        runs: runs.parse::<u32>().ok()?,
        first: first.parse::<u128>().ok()?,
        nanos: nanos.parse::<u128>().ok()?,
    };
    Some((bytes.parse::<usize>().ok()?, timing))
}
