//! A clock, a reader and a writer in memory that can fail.

use first_pass_host::clock::TimeSource;
use first_pass_host::fault::RunFault;
use first_pass_outline::run::outline_run;
use first_pass_program::bench::bench_run;
use first_pass_program::run::{blocks_run, links_run, tree_run};
use std::alloc::{AllocError, Global};
use std::io;
use std::io::{ErrorKind, Read, Write};
use std::process::Abort;
use std::test::Fail;

// A clock with given readings, which fails after them.
#[derive(Drop)]
struct Readings<'a> {
    left: &'a [u128],
}

impl TimeSource for Readings<'_> {
    ghost use Rattle.std.specs.Prelude.{Some};

    ghost readings = { λ clock. Some clock.left.now };

    fn nanos(&mut self) -> io::Result<u128> {
        let all: &[u128] = self.left;
        match all.split_first() {
            Some((nanos, left)) => {
                self.left = left;
                Ok(*nanos)
            }
            None => Err(io::Error::from(ErrorKind::Other)),
        }
    }
}

/// What the one odd read or write does.
#[derive(Clone, Copy, PartialEq, Eq, Debug)]
pub enum Odd {
    Fails,
    /// It moves one byte although there are more.
    IsShort,
    /// It moves no byte. A read of no bytes means the end.
    TakesNothing,
}

/// The pace of a reader or a writer: it moves at most `step` bytes at a time, and is odd at the read or write with
/// the number `odd_at`.
#[derive(Clone, Copy)]
pub struct Pace {
    pub step: usize,
    pub odd_at: usize,
    pub odd: Odd,
}

impl Pace {
    /// A pace that is never odd.
    pub fn even(step: usize) -> Pace {
        Pace::failing(step, 0)
    }

    /// A pace whose odd read or write fails.
    pub fn failing(step: usize, odd_at: usize) -> Pace {
        let odd = Odd::Fails;
        Pace { step, odd_at, odd }
    }

    // The greatest number of bytes that the read or write with this number moves.
    fn most(self, number: usize) -> io::Result<usize> {
        match self.odd {
            _ if number != self.odd_at => Ok(self.step),
            Odd::Fails => Err(io::Error::from(ErrorKind::Other)),
            Odd::IsShort => Ok(1),
            Odd::TakesNothing => Ok(0),
        }
    }
}

// A reader of bytes in memory.
#[derive(Drop)]
struct FailingReader<'a> {
    rest: &'a [u8],
    pace: Pace,
    reads: usize,
}

impl Read for FailingReader<'_> {
    fn read(&mut self, buf: &mut [u8]) -> io::Result<usize> {
        self.reads = self.reads.saturating_add(1);
        let most = self.pace.most(self.reads)?;
        let count = self.rest.len().min(most).min(buf.len());
        let all: &[u8] = self.rest;
        buf[..count].copy_from_slice(&all[..count]);
        self.rest = &all[count..];
        Ok(count)
    }
}

// A writer into memory.
#[derive(Drop)]
struct FailingWriter {
    bytes: Vec<u8>,
    pace: Pace,
    writes: usize,
}

impl Write for FailingWriter {
    fn write(&mut self, buf: &[u8]) -> io::Result<usize> {
        self.writes = self.writes.saturating_add(1);
        let most = self.pace.most(self.writes)?;
        let count = buf.len().min(most);
        self.bytes.extend_from_slice(&buf[..count])?;
        Ok(count)
    }

    // This writer has no buffer, so a run that flushes it fails although nothing is wrong.
    fn flush(&mut self) -> io::Result<()> {
        Err(io::Error::from(ErrorKind::Other))
    }
}

/// Returns words in the form that a program receives.
pub fn words_of(alloc: Global, words: &[&str]) -> Result<Vec<String>, AllocError> {
    let mut list = Vec::new(alloc);
    for word in words {
        list.push(String::from_str(alloc, word)?)?;
    }
    Ok(list)
}

/// Words that represent no options.
pub const BAD_OPTIONS: &[&[&str]] = &[
    &[""],
    &["+1"],
    &["-1"],
    &["x"],
    &["1"],
    &["65536"],
    &["99999999999999999999999"],
    &["0", "0"],
];

/// A program that writes a report of a text, or of the time that it takes.
#[derive(Clone, Copy)]
pub enum Program<'a> {
    Blocks,
    Outline,
    Links,
    Tree,
    /// With the readings of its clock.
    Bench(&'a [u128]),
}

/// The words and the text of a run, and the paces of its reader and its writer.
#[derive(Clone, Copy)]
pub struct Given<'a> {
    pub words: &'a [&'a str],
    pub text: &'a [u8],
    pub read: Pace,
    pub write: Pace,
}

impl Given<'_> {
    /// A run whose text is read three bytes at a time, and whose output is written twenty bytes at a time.
    pub fn new<'a>(words: &'a [&'a str], text: &'a [u8]) -> Given<'a> {
        Given {
            words,
            text,
            read: Pace::even(3),
            write: Pace::even(20),
        }
    }
}

/// What a run returned, and what it read and wrote.
#[derive(Drop)]
pub struct Ran {
    pub fault: Option<RunFault>,
    pub reads: usize,
    pub writes: usize,
    pub bytes: Vec<u8>,
    /// The number of readings that are left to the clock.
    pub readings: usize,
}

/// A run in numbers, beside the output that was expected.
#[derive(Clone, Copy, Debug)]
pub struct Told {
    pub fault: Option<RunFault>,
    pub reads: usize,
    pub writes: usize,
    /// The number of bytes that were written.
    pub count: usize,
    /// Whether the expected output begins with them.
    pub is_beginning: bool,
    pub readings: usize,
}

impl Told {
    /// Whether the run ended with a fault before any byte was written, after this number of writes.
    pub fn is_faulty(self, fault: RunFault, writes: usize) -> bool {
        self.fault == Some(fault) && self.writes == writes && self.count == 0
    }

    /// Whether the run had no fault, and wrote the expected output, which has this number of bytes.
    pub fn is_whole(self, count: usize) -> bool {
        self.fault.is_none() && self.is_beginning && self.count == count
    }
}

/// Runs the work of a program. Fails if the allocation of its words fails.
pub fn run(alloc: Global, program: Program<'_>, given: Given<'_>) -> Result<Ran, AllocError> {
    let list = words_of(alloc, given.words)?;
    let mut input = FailingReader {
        rest: given.text,
        pace: given.read,
        reads: 0,
    };
    let mut output = FailingWriter {
        bytes: Vec::new(alloc),
        pace: given.write,
        writes: 0,
    };
    let mut clock = Readings { left: &[] };
    if let Program::Bench(told) = program {
        clock.left = told;
    }
    let words = list.as_slice();
    let answer = match program {
        Program::Blocks => blocks_run(alloc, words, &mut input, &mut output),
        Program::Outline => outline_run(alloc, words, &mut input, &mut output),
        Program::Links => links_run(alloc, words, &mut input, &mut output),
        Program::Tree => tree_run(alloc, words, &mut input, &mut output),
        Program::Bench(_) => bench_run(&mut clock, alloc, words, &mut input, &mut output),
    };
    Ok(Ran {
        fault: answer.err(),
        reads: input.reads,
        writes: output.writes,
        bytes: output.bytes,
        readings: clock.left.len(),
    })
}

/// Runs the work of a program that is expected to write `whole`.
pub fn tell(
    alloc: Global,
    program: Program<'_>,
    given: Given<'_>,
    whole: &[u8],
) -> Result<Told, AllocError> {
    let ran = run(alloc, program, given)?;
    let bytes = ran.bytes.as_slice();
    Ok(Told {
        fault: ran.fault,
        reads: ran.reads,
        writes: ran.writes,
        count: bytes.len(),
        is_beginning: whole.starts_with(bytes),
        readings: ran.readings,
    })
}

// The lines that a program writes, or the message of its fault.
fn lines_of(alloc: Global, program: Program<'_>, given: Given<'_>) -> Result<String, AllocError> {
    let ran = run(alloc, program, given)?;
    match ran.fault {
        Some(fault) => String::from_str(alloc, fault.message()),
        None => String::from_utf8_lossy(alloc, ran.bytes.as_slice()),
    }
}

/// Asserts the lines that a program writes.
pub fn assert_lines(
    rt: &(impl Abort + AllocGlobal),
    program: Program<'_>,
    given: Given<'_>,
    want: &str,
) -> Result<(), Fail> {
    let lines = lines_of(rt.alloc(), program, given)?;
    let Given { words, text, .. } = given;
    assert!(rt; lines.as_str() == want, "{words:?} {text:?}: {lines}");
    Ok(())
}

/// Asserts that a run ends with a fault before any byte is written. The first write would fail. Returns the number of
/// reads.
pub fn assert_fault(
    rt: &(impl Abort + AllocGlobal),
    program: Program<'_>,
    given: Given<'_>,
    fault: RunFault,
) -> Result<usize, Fail> {
    let mut given = given;
    given.write = Pace::failing(usize::MAX, 1);
    let told = tell(rt.alloc(), program, given, b"")?;
    let writes = usize::from(fault == RunFault::WriteFailed);
    let words = given.words;
    assert!(rt;
        told.is_faulty(fault, writes),
        "{words:?}: {fault:?}, {told:?}"
    );
    Ok(told.reads)
}

/// Asserts that a program refuses bad options before it reads or writes.
pub fn assert_bad_options_come_first(
    rt: &(impl Abort + AllocGlobal),
    program: Program<'_>,
) -> Result<(), Fail> {
    for words in BAD_OPTIONS {
        let mut given = Given::new(words, b"\xff");
        given.read = Pace::failing(usize::MAX, 1);
        let reads = assert_fault(rt, program, given, RunFault::BadOptions)?;
        assert!(rt; reads == 0, "{words:?}");
    }
    Ok(())
}

/// Asserts that a program refuses bytes that are not UTF-8 before it writes.
pub fn assert_not_utf8(
    rt: &(impl Abort + AllocGlobal),
    program: Program<'_>,
    bad: &[&[u8]],
) -> Result<(), Fail> {
    for bytes in bad {
        let mut given = Given::new(&[], bytes);
        given.read = Pace::even(1);
        assert_fault(rt, program, given, RunFault::NotUtf8)?;
    }
    Ok(())
}

// Makes each write in turn odd, until no write is.
fn odd_at_each_write(
    rt: &(impl Abort + AllocGlobal),
    program: Program<'_>,
    given: Given<'_>,
    whole: &[u8],
    odd: Odd,
) -> Result<(), Fail> {
    let mut given = given;
    let step = given.write.step;
    for odd_at in 1..100 {
        given.write = Pace { step, odd_at, odd };
        let told = tell(rt.alloc(), program, given, whole)?;
        let is_past = told.writes < odd_at;
        let is_right = if is_past || odd == Odd::IsShort {
            told.is_whole(whole.len())
        } else {
            told.fault == Some(RunFault::WriteFailed)
                && told.writes == odd_at
                && told.is_beginning
                && told.count < whole.len()
        };
        assert!(rt; is_right, "write {odd_at}, {odd:?}: {told:?}");
        if is_past {
            break;
        }
    }
    Ok(())
}

/// Makes each write in turn odd, in each way. To flush the writer would fail, and no program does. Returns the number
/// of writes.
pub fn fail_each_write(
    rt: &(impl Abort + AllocGlobal),
    program: Program<'_>,
    given: Given<'_>,
) -> Result<usize, Fail> {
    let whole = run(rt.alloc(), program, given)?;
    assert!(rt; whole.fault.is_none());
    for odd in [Odd::IsShort, Odd::TakesNothing, Odd::Fails] {
        odd_at_each_write(rt, program, given, whole.bytes.as_slice(), odd)?;
    }
    Ok(whole.writes)
}
