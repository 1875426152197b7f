//! What is said of faults of the words.

use crate::fault::append_word;
use first_pass_program::words::call::WordFault;
use first_pass_program::words::option_names::OptionFault;
use std::alloc::{AllocError, Global};

/// What is wrong with the words, without the program's name and without a newline.
pub(crate) fn word_message(alloc: Global, fault: &WordFault<'_>) -> Result<Vec<u8>, AllocError> {
    let mut line = Vec::new(alloc);
    match fault {
        WordFault::Options(command, wrong) => {
            append_option_fault(&mut line, wrong)?;
            line.extend_from_slice(b"; 'first_pass ")?;
            line.extend_from_slice(command.as_bytes())?;
            line.extend_from_slice(b" --help' lists the options")?;
        }
        WordFault::Runs(_) => {
            line.extend_from_slice(b"--runs needs a number from 1 to 999999999")?;
        }
        WordFault::OutOfMemory => line.extend_from_slice(b"out of memory")?,
        _ => line.extend_from_slice(b"there is no command; 'first_pass --help' lists them")?,
    }
    Ok(line)
}

// Appends what is wrong with a word that names options.
fn append_option_fault(line: &mut Vec<u8>, fault: &OptionFault<'_>) -> Result<(), AllocError> {
    match fault {
        OptionFault::NoOption(word) => {
            line.extend_from_slice(b"no option is called ")?;
            append_word(line, word)
        }
        OptionFault::NoValue(word) => {
            append_word(line, word)?;
            line.extend_from_slice(b" is not the value of options")
        }
        OptionFault::NoName(list) => {
            line.push(b'\'')?;
            append_word(line, list)?;
            line.extend_from_slice(b"' lacks the name of an option")
        }
    }
}

/// The fault that a word in the place of a file names options.
pub(crate) fn misplaced_message(alloc: Global, word: &str) -> Result<Vec<u8>, AllocError> {
    let mut line = Vec::new(alloc);
    line.extend_from_slice(b"there is no file ")?;
    append_word(&mut line, word)?;
    line.extend_from_slice(b"; options are given by --options ")?;
    append_word(&mut line, word)?;
    Ok(line)
}
