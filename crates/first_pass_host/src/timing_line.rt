//! The line of output for a timing.

ghost use Rattle.first_pass_host.specs.TimingLine.{report_line, counts_text, time_text, rate, tenths, thousandths};
ghost use Rattle.std.specs.Prelude.{◌≡◌, ◌++◌, OnOk};

use crate::timing::Timing;
use itoa::{Buffer, Integer};
use std::alloc::AllocError;

/// Appends the line for a timing of the pass over a text of this many bytes.
pub fn append_report(line: &mut Vec<u8>, bytes: usize, timing: Timing) -> Result<(), AllocError>
    ensures { OnOk result (line.new.items
        ≡ line.old.items ++ report_line bytes timing.nodes timing.runs timing.nanos timing.first) }
{
    append_counts(line, bytes, timing)?;
    append_time(line, bytes, timing.nanos)?;
    line.extend_from_slice(b"; first run: ")?;
    append_time(line, bytes, timing.first)?;
    line.extend_from_slice(b"\n")?;
    Ok(())
}

// Appends the number of bytes, of nodes and of runs.
fn append_counts(line: &mut Vec<u8>, bytes: usize, timing: Timing) -> Result<(), AllocError>
    ensures { OnOk result (line.new.items ≡ line.old.items ++ counts_text bytes timing.nodes timing.runs) }
{
    append_number(line, bytes)?;
    line.extend_from_slice(b" bytes, ")?;
    append_number(line, timing.nodes)?;
    line.extend_from_slice(b" nodes, best of ")?;
    append_number(line, timing.runs)?;
    line.extend_from_slice(b" runs: ")?;
    Ok(())
}

// Appends a time in nanoseconds, in milliseconds and as a rate for so many bytes.
fn append_time(line: &mut Vec<u8>, bytes: usize, nanos: u128) -> Result<(), AllocError>
    ensures { OnOk result (line.new.items ≡ line.old.items ++ time_text bytes nanos) }
{
    append_thousandths(line, nanos / 1000)?;
    line.extend_from_slice(b" ms, ")?;
    append_tenths(line, rate(bytes, nanos))?;
    line.extend_from_slice(b" MB/s")?;
    Ok(())
}

// The rate in tenths of a megabyte (10^6 bytes) a second, from bytes and nanoseconds. Zero nanoseconds count as one.
fn rate(bytes: usize, nanos: u128) -> u128
    ensures { result ≡ rate bytes nanos }
{
    bytes as u128 * 10_000 / nanos.max(1)
}

// Appends a number of thousandths as a decimal fraction.
fn append_thousandths(line: &mut Vec<u8>, number: u128) -> Result<(), AllocError>
    ensures { OnOk result (line.new.items ≡ line.old.items ++ thousandths number) }
{
    append_number(line, number / 1000)?;
    line.push(b'.')?;
    append_number(line, number / 100 % 10)?;
    append_number(line, number / 10 % 10)?;
    append_number(line, number % 10)
}

// Appends a number of tenths as a decimal fraction.
fn append_tenths(line: &mut Vec<u8>, number: u128) -> Result<(), AllocError>
    ensures { OnOk result (line.new.items ≡ line.old.items ++ tenths number) }
{
    append_number(line, number / 10)?;
    line.push(b'.')?;
    append_number(line, number % 10)
}

// Appends a number in decimal digits.
fn append_number<I: Integer>(line: &mut Vec<u8>, number: I) -> Result<(), AllocError>
    ensures { OnOk result (line.new.items ≡ line.old.items ++ I.text number) }
{
    let mut digits = Buffer::new();
    line.extend_from_slice(digits.format(number).as_bytes())
}
