//! Random texts, whose trees must have ranges in order.
//!
//! Each text is a sequence of snippets, and is read under random options. Texts are read for a number of seconds, but
//! at least 1,000 texts, or until the tree of one is not in order. The same seed gives the same texts.
//!
//! The report has the seed and the number of texts that were read. If the tree of a text is not in order, it also has
//! the options, what is wrong, and the smallest such text that is found by removing snippets: each line after a bar,
//! control characters as pictures (see `first_pass_cases::pictures`).

mod random;
mod report;
mod snippets;
pub mod task;

use crate::soak::random::{random_options, random_pieces};
use crate::soak::report::{append_breach, append_line};
use crate::soak::task::Task;
use first_pass_blocks::pass::run_first_pass;
use first_pass_cases::breach::Breach;
use first_pass_cases::pieces::{joined, remove_pieces};
use first_pass_cases::ranges::find_breach;
use first_pass_host::clock::TimeSource;
use first_pass_host::fault::RunFault;
use first_pass_host::timing::read_clock;
use first_pass_items::option_set::Options;
use rand_pcg::Pcg32;
use std::alloc::{AllocError, Global};

// The number of texts that are read before the clock is read again.
const BATCH: u32 = 1000;

// One second in nanoseconds.
const SECOND: u128 = 1_000_000_000;

/// Reads random texts as the task requests, and appends the result to the report. The default seed is the reading of
/// the clock. Returns whether the tree of a text is not in order.
pub fn read_random_texts<T: TimeSource>(
    clock: &mut T,
    alloc: Global,
    task: Task,
    report: &mut String,
) -> Result<bool, RunFault> {
    let Task { seconds, seed } = task;
    let began = read_clock(clock)?;
    let seed = seed.unwrap_or(u64::try_from(began).unwrap_or(0));
    let mut rng = Pcg32::new(seed, 0);
    for batch in 1..=u32::MAX {
        if let Some(number) = read_batch(alloc, &mut rng, report)? {
            let texts = u64::from(batch - 1) * u64::from(BATCH) + u64::from(number);
            append_line(report, seed, texts, 1)?;
            return Ok(true);
        }
        if u128::from(seconds) * SECOND <= read_clock(clock)?.saturating_sub(began) {
            append_line(report, seed, u64::from(batch) * u64::from(BATCH), 0)?;
            break;
        }
    }
    Ok(false)
}

// Reads a batch of texts. If the tree of one is not in order, appends that to the report and returns its number.
fn read_batch(
    alloc: Global,
    rng: &mut Pcg32,
    report: &mut String,
) -> Result<Option<u32>, AllocError> {
    for number in 1..=BATCH {
        let mut pieces = random_pieces(alloc, rng)?;
        let options = random_options(rng);
        let text = joined(alloc, pieces.as_slice())?;
        if breach_of(alloc, text.as_str(), options)?.is_some() {
            report_smallest(alloc, &mut pieces, options, report)?;
            return Ok(Some(number));
        }
    }
    Ok(None)
}

// What is wrong with the tree of a text.
fn breach_of(alloc: Global, text: &str, options: Options) -> Result<Option<Breach>, AllocError> {
    let (tree, _allocs) = run_first_pass(alloc, text, options)?;
    find_breach(alloc, text, tree.nodes())
}

// Appends to the report the smallest text that is found of these pieces with a tree that is not in order.
fn report_smallest(
    alloc: Global,
    pieces: &mut Vec<&str>,
    options: Options,
    report: &mut String,
) -> Result<(), AllocError> {
    remove_pieces(alloc, pieces, |text: &str| {
        Ok(breach_of(alloc, text, options)?.is_some())
    })?;
    let text = joined(alloc, pieces.as_slice())?;
    match breach_of(alloc, text.as_str(), options)? {
        Some(breach) => append_breach(report, text.as_str(), options, breach),
        None => Ok(()),
    }
}
