//! The printed report.

use bitflags::Flags;
use first_pass_cases::breach::Breach;
use first_pass_cases::pictures::append_shown;
use first_pass_items::option_set::Options;
use std::alloc::AllocError;

/// Appends what is wrong with the tree of a text, and the text, with a bar before each line.
pub fn append_breach(
    report: &mut String,
    text: &str,
    options: Options,
    breach: Breach,
) -> Result<(), AllocError> {
    let (bits, place, flaw) = (options.bits(), breach.place, breach.flaw.message());
    write!(report, "options {bits}, node {place}: {flaw}\n")?;
    for line in text.split('\n') {
        report.push('|')?;
        append_shown(report, line)?;
        report.push('\n')?;
    }
    Ok(())
}

/// Appends the line that ends a report.
pub fn append_line(
    report: &mut String,
    seed: u64,
    texts: u64,
    breaches: u32,
) -> Result<(), AllocError> {
    write!(report, "seed {seed}: {texts} texts, {breaches} breaches\n")
}
