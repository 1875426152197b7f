//! The faults of files, and their lines on standard error.

ghost use Rattle.first_pass_command.specs.Faults.{AppendsFault, AppendsReason, Grows, IsWritten, TellsFault, TellsLine, TellsName, ends_run, escaped_byte, fault_front, file_fault, file_status, hex_digit, mark_line, name_line, no_memory_line, shown, shown_word, wrong_at};
ghost use Rattle.first_pass_host.specs.Streams.{stream_between};
ghost use Rattle.std.specs.List.{flat_map, list_any};
ghost use Rattle.std.specs.Prelude.{◌≡◌, ◌<◌, ◌++◌, [], OnOk, nat_lt};

use first_pass_host::fault::RunFault;
use first_pass_host::output::write_whole;
use first_pass_json::values::append_string;
use first_pass_places::line_column::LineColumn;
use first_pass_reports::printed::node::append_number;
use std::alloc::{AllocError, Global};
use std::io;
use std::io::{ErrorKind, Write};

/// A fault of a file.
#[derive(Drop)]
pub enum FileFault {
    /// It can't be read.
    Unread(io::Error),
    /// It is not UTF-8: the offset of the first wrong byte, and its line and column.
    NotUtf8(usize, LineColumn),
    /// Memory ran out.
    OutOfMemory,
    /// The output can't be written.
    WriteFailed,
    /// The clock can't be read.
    NoClock,
}

impl FileFault {
    /// The status.
    pub(crate) fn status(&self) -> u8
        ensures { result ≡ file_status self.now }
    {
        match self {
            FileFault::OutOfMemory => 1,
            _ => 2,
        }
    }

    /// Whether a run over files ends here: a failed write ends it.
    pub(crate) fn ends_run(&self) -> bool
        ensures { result ≡ ends_run self.now }
    {
        match self {
            FileFault::WriteFailed => true,
            _ => false,
        }
    }

    /// Writes the line of the fault of a file. Returns whether it is written whole; otherwise a beginning of it is.
    pub(crate) fn tell<W: Write>(&self, alloc: Global, name: &str, errors: &mut W) -> bool
        ensures { TellsFault name.now self.now result
            (stream_between (W.contents errors.old) (W.contents errors.new)) }
    {
        let mut line = Vec::new(alloc);
        match append_fault(&mut line, name, self) {
            Ok(()) => is_written(errors, line.as_slice()),
            Err(_) => tell_no_memory(errors),
        }
    }
}

/// Writes the line that memory ran out. Returns whether it is written whole; otherwise a beginning of it is.
pub(crate) fn tell_no_memory<W: Write>(errors: &mut W) -> bool
    ensures { IsWritten no_memory_line result (stream_between (W.contents errors.old) (W.contents errors.new)) }
{
    is_written(errors, b"first_pass: out of memory\n")
}

/// Writes the line that the text of a file begins with a byte order mark. Returns whether it is written whole.
pub(crate) fn warn_of_mark<W: Write>(alloc: Global, name: &str, errors: &mut W) -> bool
    ensures { TellsLine (mark_line [] name.now) result
        (stream_between (W.contents errors.old) (W.contents errors.new)) }
{
    let mut line = Vec::new(alloc);
    match append_mark(&mut line, name) {
        Ok(()) => is_written(errors, line.as_slice()),
        Err(_) => tell_no_memory(errors),
    }
}

/// Writes the line that a name is not UTF-8. Returns whether it is written whole.
pub(crate) fn tell_name<W: Write>(alloc: Global, name: &[u8], errors: &mut W) -> bool
    ensures { TellsName name.now result (stream_between (W.contents errors.old) (W.contents errors.new)) }
{
    let mut line = Vec::new(alloc);
    match append_wrong_name(&mut line, name) {
        Ok(()) => is_written(errors, line.as_slice()),
        Err(_) => tell_no_memory(errors),
    }
}

// Writes bytes. Returns whether all are written; otherwise a beginning of them is.
fn is_written<W: Write>(errors: &mut W, bytes: &[u8]) -> bool
    ensures { IsWritten bytes.now result (stream_between (W.contents errors.old) (W.contents errors.new)) }
{
    match write_whole(errors, bytes) {
        Ok(()) => true,
        Err(_) => false,
    }
}

// Appends the line of the fault of a file.
fn append_fault(line: &mut Vec<u8>, name: &str, fault: &FileFault) -> Result<(), AllocError>
    ensures { OnOk result (AppendsFault name.now fault.now line.old.items line.new.items) }
{
    append_front(line, name)?;
    append_reason(line, fault)?;
    line.push(b'\n')?;
    Ok(())
}

// Appends the program's name and that of a file.
fn append_front(line: &mut Vec<u8>, name: &str) -> Result<(), AllocError>
    ensures { OnOk result (line.new.items ≡ fault_front line.old.items name.now) }
{
    line.extend_from_slice(b"first_pass: ")?;
    append_shown(line, name)?;
    line.extend_from_slice(b": ")?;
    Ok(())
}

// Appends what a fault says.
fn append_reason(line: &mut Vec<u8>, fault: &FileFault) -> Result<(), AllocError>
    ensures { OnOk result (AppendsReason fault.now line.old.items line.new.items) }
{
    match fault {
        FileFault::Unread(error) => append_unread(line, error),
        FileFault::NotUtf8(offset, place) => append_place(line, *offset, *place),
        FileFault::OutOfMemory => line.extend_from_slice(b"out of memory"),
        FileFault::WriteFailed => line.extend_from_slice(b"write failed"),
        FileFault::NoClock => line.extend_from_slice(b"the clock can't be read"),
    }
}

// Appends why a file can't be read.
fn append_unread(line: &mut Vec<u8>, error: &io::Error) -> Result<(), AllocError>
    ensures { OnOk result (Grows line.old.items line.new.items) }
{
    match error.kind() {
        ErrorKind::NotFound => line.extend_from_slice(b"no such file"),
        ErrorKind::IsADirectory => line.extend_from_slice(b"is a folder"),
        ErrorKind::PermissionDenied => line.extend_from_slice(b"can't be read: permission denied"),
        _ => {
            let reason = error.to_string(*line.allocator())?;
            line.extend_from_slice(b"can't be read: ")?;
            line.extend_from_slice(reason.as_str().as_bytes())
        }
    }
}

// Appends that a text is not UTF-8, and where.
fn append_place(line: &mut Vec<u8>, offset: usize, place: LineColumn) -> Result<(), AllocError>
    ensures { OnOk result (line.new.items ≡ line.old.items ++ wrong_at offset place) }
{
    line.extend_from_slice(b"not UTF-8: byte ")?;
    append_number(line, offset)?;
    line.extend_from_slice(b", line ")?;
    append_number(line, place.line)?;
    line.extend_from_slice(b", column ")?;
    append_number(line, place.column)
}

// Appends the line that the text of a file begins with a byte order mark.
fn append_mark(line: &mut Vec<u8>, name: &str) -> Result<(), AllocError>
    ensures { OnOk result (line.new.items ≡ mark_line line.old.items name.now) }
{
    append_front(line, name)?;
    line.extend_from_slice(b"begins with a byte order mark; --strip-bom leaves it out\n")
}

// Appends the line that a name is not UTF-8.
fn append_wrong_name(line: &mut Vec<u8>, name: &[u8]) -> Result<(), AllocError>
    ensures { OnOk result (line.new.items ≡ name_line line.old.items name.now) }
{
    line.extend_from_slice(b"first_pass: ")?;
    append_each_escaped(line, name)?;
    line.extend_from_slice(b": the name is not UTF-8\n")
}

// Appends the bytes of a name that is not UTF-8.
fn append_each_escaped(line: &mut Vec<u8>, name: &[u8]) -> Result<(), AllocError>
    ensures { OnOk result (line.new.items ≡ line.old.items ++ flat_map escaped_byte name.now) }
{
    for byte in name {
        append_escaped(line, *byte)?;
    }
    Ok(())
}

// Appends a byte of a name that is not UTF-8: as it is if it is printable ASCII but no backslash.
fn append_escaped(line: &mut Vec<u8>, byte: u8) -> Result<(), AllocError>
    ensures { OnOk result (line.new.items ≡ line.old.items ++ escaped_byte byte) }
{
    if 32 <= byte && byte < 127 && byte != b'\\' {
        line.push(byte)?;
        return Ok(());
    }
    line.extend_from_slice(&[b'\\', b'x', hex_digit(byte / 16), hex_digit(byte % 16)])
}

/// A digit of base 16. The number is below 16.
pub(crate) fn hex_digit(number: u8) -> u8
    requires { number < 16 }
    ensures { result ≡ hex_digit number }
{
    if number < 10 {
        b'0' + number
    } else {
        b'A' + (number - 10)
    }
}

/// Appends the name of a file in a heading or a fault.
pub(crate) fn append_shown(line: &mut Vec<u8>, name: &str) -> Result<(), AllocError>
    ensures { OnOk result (line.new.items ≡ line.old.items ++ shown name.now) }
{
    if name == "-" {
        return line.extend_from_slice(b"standard input");
    }
    append_word(line, name)
}

/// Appends a word of the call. One with a control character below the space is appended as a string of JSON.
pub(crate) fn append_word(line: &mut Vec<u8>, word: &str) -> Result<(), AllocError>
    ensures { OnOk result (line.new.items ≡ line.old.items ++ shown_word word.now) }
{
    if has_control(word.as_bytes()) {
        return append_string(line, word);
    }
    line.extend_from_slice(word.as_bytes())
}

// Whether one of the bytes is a control character.
fn has_control(bytes: &[u8]) -> bool
    ensures { result ≡ list_any (λ b. nat_lt b 32) bytes.now }
{
    bytes.iter().any(|b| *b < 32)
}

impl From<RunFault> for FileFault {
    ghost from_gives = { λ fault made. made ≡ file_fault fault };

    fn from(fault: RunFault) -> FileFault {
        match fault {
            RunFault::OutOfMemory => FileFault::OutOfMemory,
            RunFault::ReadFailed => FileFault::NoClock,
            _ => FileFault::WriteFailed,
        }
    }
}
