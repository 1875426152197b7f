//! One case: how it is read, run and reported.

use first_pass_cases::pictures::{append_shown, read_shown};
use first_pass_cases::texts::read_text;
use first_pass_host::fault::RunFault;
use first_pass_program::run::blocks_run;
use std::alloc::{AllocError, Global};

/// A text with its options and the expected tree.
#[derive(Drop)]
pub struct Case<'t> {
    /// The word of the options, if there is one.
    pub options: Option<&'t str>,
    pub text: String,
    pub tree: String,
}

/// Reads a case from its lines, or returns what they lack.
pub fn read_case(alloc: Global, group: &str) -> Result<Result<Case<'_>, &'static str>, AllocError> {
    let (options, lines) = read_options(group);
    let (above, below) = match lines.split_once("\nRoot ") {
        Some(parts) => parts,
        None => return Ok(Err("a case without a tree, or a heading without a number sign")),
    };
    let Some(text) = read_text(alloc, above)? else {
        return Ok(Err("a line of a text without its bar"));
    };
    let mut tree = String::from_str(alloc, "Root ")?;
    tree.push_str(read_shown(alloc, below)?.as_str())?;
    tree.push('\n')?;
    Ok(Ok(Case {
        options,
        text,
        tree,
    }))
}

// The word of the options, if the first line has one, and the lines after it.
fn read_options(group: &str) -> (Option<&str>, &str) {
    match group.strip_prefix("options ") {
        Some(following) => match following.split_once('\n') {
            Some((word, lines)) => (Some(word), lines),
            None => (Some(following), ""),
        },
        None => (None, group),
    }
}

/// Returns what `blocks` prints for the case, or `None` if its word does not represent options.
pub fn printed(alloc: Global, case: &Case<'_>) -> Result<Option<String>, RunFault> {
    let words = words_of(alloc, case)?;
    let mut input = case.text.as_bytes();
    let mut output = Vec::new(alloc);
    match blocks_run(alloc, words.as_slice(), &mut input, &mut output) {
        Ok(()) => Ok(Some(String::from_utf8_lossy(alloc, output.as_slice())?)),
        Err(RunFault::BadOptions) => Ok(None),
        Err(fault) => Err(fault),
    }
}

// The words for `blocks`.
fn words_of(alloc: Global, case: &Case<'_>) -> Result<Vec<String>, AllocError> {
    let mut words = Vec::new(alloc);
    if let Some(word) = case.options {
        words.push(String::from_str(alloc, word)?)?;
    }
    Ok(words)
}

/// Appends a case that differs: its lines with the expected tree, and the actual tree.
pub fn append_difference(report: &mut String, group: &str, came: &str) -> Result<(), AllocError> {
    report.push_str(group)?;
    report.push_str("\nbut this came:\n")?;
    for node in came.lines() {
        append_shown(report, node)?;
        report.push('\n')?;
    }
    report.push('\n')
}
