//! The reports on each of several files.

ghost use Rattle.first_pass_command.specs.Named.{LeavesNamed, SaysHeadings, SaysNamed, file_member, headings_line, with_member};
ghost use Rattle.first_pass_host.specs.Runs.{WritesOutput};
ghost use Rattle.first_pass_host.specs.Streams.{stream_between};
ghost use Rattle.first_pass_items.specs.declared.option_set.Options.{Options as OptionSet};
ghost use Rattle.std.specs.Prelude.{◌≡◌, ◌∷◌, ◌++◌, ℕ, ◌-◌, List, [], if◌then◌else◌, length, take, true, IfErr, IfOk, OnOk, Some};

use first_pass_host::fault::RunFault;
use first_pass_host::output::write_whole;
use first_pass_host::report::{Report, Subject};
use first_pass_json::values::append_string;
use std::alloc::AllocError;
use std::io::Write;

/// A report on a text that has a file's name.
pub trait FileReport {
    // The relation between the name, options, a text and the whole output for it.
    ghost says: { Self → List ℕ → OptionSet → List ℕ → List ℕ → Type 0 };

    /// Writes the whole output for the text of a file, as `Report::write_report` does.
    fn write_named<W: Write>(
        &self,
        name: &str,
        subject: Subject<'_>,
        output: &mut W,
    ) -> Result<(), RunFault>
        ensures ok { OnOk result (WritesOutput (says self.now name.now) subject.entry.options
            subject.entry.text.now (stream_between (W.contents output.old) (W.contents output.new))) }
        ensures fault { IfErr result (λ fault. LeavesNamed (says self.now name.now) fault
            subject.entry.options subject.entry.text.now
            (stream_between (W.contents output.old) (W.contents output.new))) };
}

/// A report as it is, without the name.
#[derive(Drop)]
pub struct Plain<'a, P>(pub &'a P);

impl<P: Report> FileReport for Plain<'_, P> {
    ghost says = { λ report name. P.says report.0.now };

    fn write_named<W: Write>(
        &self,
        _name: &str,
        subject: Subject<'_>,
        output: &mut W,
    ) -> Result<(), RunFault> {
        self.0.write_report(subject, output)
    }
}

/// A report in lines of JSON, each an object whose first member is the name of the file.
#[derive(Drop)]
pub struct Named<'a, P>(pub &'a P);

impl<P: Report> FileReport for Named<'_, P> {
    ghost says = { λ report name. SaysNamed (P.says report.0.now) name };

    fn write_named<W: Write>(
        &self,
        name: &str,
        subject: Subject<'_>,
        output: &mut W,
    ) -> Result<(), RunFault> {
        let lines = named_lines(self.0, name, subject)?;
        write_whole(output, lines.as_slice())
    }
}

/// A report that is an array of JSON and a newline, as the member `headings` of an object. Its first member is the name
/// of the file.
#[derive(Drop)]
pub struct Headings<'a, P>(pub &'a P);

impl<P: Report> FileReport for Headings<'_, P> {
    ghost says = { λ report name. SaysHeadings (P.says report.0.now) name };

    fn write_named<W: Write>(
        &self,
        name: &str,
        subject: Subject<'_>,
        output: &mut W,
    ) -> Result<(), RunFault> {
        let line = headings_line(self.0, name, subject)?;
        write_whole(output, line.as_slice())
    }
}

// The lines of a report on the text of a file, with the name.
#[tactic(auto, using(crate::proofs::NamedLines::says_named))]
fn named_lines<P: Report>(
    report: &P,
    name: &str,
    subject: Subject<'_>,
) -> Result<Vec<u8>, AllocError>
    ensures { IfOk result (λ lines. SaysNamed (P.says report.now) name.now subject.entry.options
        subject.entry.text.now lines.items) }
{
    let json = report_bytes(report, subject)?;
    let mut member = Vec::new(subject.alloc);
    append_member(&mut member, name)?;
    let mut lines = Vec::new(subject.alloc);
    append_with_member(&mut lines, member.as_slice(), json.as_slice())?;
    Ok(lines)
}

// The line of a report on the text of a file that is an array of JSON, with the name.
#[tactic(auto, using(crate::proofs::NamedLines::says_headings))]
fn headings_line<P: Report>(
    report: &P,
    name: &str,
    subject: Subject<'_>,
) -> Result<Vec<u8>, AllocError>
    ensures { IfOk result (λ line. SaysHeadings (P.says report.now) name.now subject.entry.options
        subject.entry.text.now line.items) }
{
    let json = report_bytes(report, subject)?;
    let mut line = Vec::new(subject.alloc);
    append_headings(&mut line, name, json.as_slice())?;
    Ok(line)
}

// The bytes of a report.
fn report_bytes<P: Report>(report: &P, subject: Subject<'_>) -> Result<Vec<u8>, AllocError>
    ensures { IfOk result (λ bytes. WritesOutput (P.says report.now) subject.entry.options
        subject.entry.text.now (stream_between (Some []) (Some bytes.items))) }
{
    let mut bytes = Vec::new(subject.alloc);
    match report.write_report(subject, &mut bytes) {
        Ok(()) => Ok(bytes),
        Err(_) => Err(AllocError),
    }
}

// Appends the line of an array of JSON, which a newline follows, with the name of a file.
fn append_headings(line: &mut Vec<u8>, name: &str, array: &[u8]) -> Result<(), AllocError>
    ensures { OnOk result (line.new.items ≡ line.old.items ++ headings_line name.now array.now) }
{
    line.push(b'{')?;
    append_member(line, name)?;
    line.extend_from_slice(b"\"headings\":")?;
    line.extend_from_slice(without_last(array))?;
    line.extend_from_slice(b"}\n")
}

// Bytes without the last.
fn without_last(bytes: &[u8]) -> &[u8]
    ensures { result.now ≡ take (length bytes.now - 1) bytes.now }
{
    match bytes {
        [front @ .., _] => front,
        [] => bytes,
    }
}

// Appends the member with the name of a file, and a comma.
fn append_member(member: &mut Vec<u8>, name: &str) -> Result<(), AllocError>
    ensures { OnOk result (member.new.items ≡ member.old.items ++ file_member name.now) }
{
    member.extend_from_slice(b"\"file\":")?;
    append_string(member, name)?;
    member.push(b',')?;
    Ok(())
}

// Appends lines, each with a member after its first byte.
#[tactic(auto, using(crate::proofs::NamedLines::byte_appended, crate::proofs::NamedLines::all_appended))]
fn append_with_member(lines: &mut Vec<u8>, member: &[u8], json: &[u8]) -> Result<(), AllocError>
    ensures { OnOk result (lines.new.items ≡ lines.old.items ++ with_member true member.now json.now) }
{
    let mut rest = json;
    let mut starts = true;
    while let [byte, more @ ..] = rest {
        append_byte(lines, *byte, starts, member)?;
        starts = *byte == b'\n';
        rest = more;
    }
    Ok(())
}

// Appends a byte, and a member after the first byte of a line.
fn append_byte(lines: &mut Vec<u8>, byte: u8, starts: bool, member: &[u8]) -> Result<(), AllocError>
    ensures { OnOk result (lines.new.items
        ≡ lines.old.items ++ (byte ∷ (if starts then member.now else []))) }
{
    lines.push(byte)?;
    if starts {
        return lines.extend_from_slice(member);
    }
    Ok(())
}
