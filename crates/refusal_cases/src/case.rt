//! One case, and how it is read. Cases with equally many words take equally many memory requests to read.

use std::alloc::{AllocError, Global};

// The greatest number of words.
const ROOM: usize = 4;

/// A call, with its arguments and the expected result.
#[derive(Drop)]
pub struct Case<'t> {
    /// The number of requests before the call, if it is given.
    pub after: Option<usize>,
    pub call: &'t str,
    /// The words after its name.
    pub words: Vec<String>,
    pub text: String,
    pub wanted: String,
}

/// Reads a case from its lines.
pub fn read_case(alloc: Global, group: &str) -> Result<Case<'_>, AllocError> {
    let (after, following) = read_after(group);
    let (head, below) = following.split_once('\n').unwrap_or((following, ""));
    let (call, rest) = head.split_once(' ').unwrap_or((head, ""));
    let mut case = Case {
        after,
        call,
        words: Vec::with_capacity(alloc, ROOM)?,
        text: String::with_capacity(alloc, group.len())?,
        wanted: String::with_capacity(alloc, group.len())?,
    };
    read_words(alloc, rest, &mut case.words)?;
    read_lines(below, &mut case)?;
    Ok(case)
}

// Reads the words after the name of the call.
fn read_words(alloc: Global, words: &str, read: &mut Vec<String>) -> Result<(), AllocError> {
    for word in words.split(' ') {
        if !word.is_empty() {
            read.push(String::from_str(alloc, word)?)?;
        }
    }
    Ok(())
}

// The number in the first line, if it has one, and the lines after it.
fn read_after(group: &str) -> (Option<usize>, &str) {
    match group.strip_prefix("after ") {
        Some(following) => match following.split_once('\n') {
            Some((number, lines)) => (number.parse::<usize>().ok(), lines),
            None => (None, ""),
        },
        None => (None, group),
    }
}

// Reads the lines of the text, each after a bar, and then the expected lines.
fn read_lines(lines: &str, case: &mut Case<'_>) -> Result<(), AllocError> {
    let mut is_first = true;
    for line in lines.lines() {
        match line.strip_prefix('|') {
            Some(shown) => {
                if !is_first {
                    case.text.push('\n')?;
                }
                push_shown(&mut case.text, shown)?;
                is_first = false;
            }
            None => {
                push_shown(&mut case.wanted, line)?;
                case.wanted.push('\n')?;
            }
        }
    }
    Ok(())
}

// Appends the text of a line, in which a tab is written as its picture.
fn push_shown(text: &mut String, shown: &str) -> Result<(), AllocError> {
    for character in shown.chars() {
        text.push(if character == '␉' { '\t' } else { character })?;
    }
    Ok(())
}
