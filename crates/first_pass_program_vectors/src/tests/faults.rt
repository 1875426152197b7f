//! Each fault of a run, and the output before it.

use super::fakes::{
    Given, Odd, Pace, Program, Told, assert_bad_options_come_first, assert_not_utf8,
    fail_each_write, run, tell,
};
use first_pass_host::fault::RunFault;
use std::alloc::{AllocError, Global};
use std::process::Abort;
use std::test::Fail;

const WHOLE: usize = usize::MAX;

// A text of so many paragraphs. One of a thousand takes several writes, and one of three thousand also several reads.
fn long_text(alloc: Global, paragraphs: usize) -> Result<Vec<u8>, AllocError> {
    let mut text = Vec::new(alloc);
    for _ in 0..paragraphs {
        text.extend_from_slice(b"a\n\n")?;
    }
    Ok(text)
}

// A run without options, for a text that is read and written at most `step` bytes at a time.
fn in_steps(text: &[u8], step: usize) -> Given<'_> {
    Given {
        words: &[],
        text,
        read: Pace::even(step),
        write: Pace::even(step),
    }
}

#[test]
fn bad_options_come_first(rt: HostRuntime) -> Result<(), Fail> {
    assert_bad_options_come_first(&rt, Program::Blocks)?;
    assert_bad_options_come_first(&rt, Program::Outline)
}

#[test]
fn input_is_utf8(rt: HostRuntime) -> Result<(), Fail> {
    let bad: &[&[u8]] = &[
        b"\xff",
        b"a\n\n# b\xc3",
        b"\xc3\n\xa9",
        b"\xed\xa0\x80",
        b"\xc0\x80",
    ];
    assert_not_utf8(&rt, Program::Blocks, bad)?;
    let bad: &[&[u8]] = &[b"\xff# a", b"# a\n\xc3\n# b", b"# a\xc3"];
    assert_not_utf8(&rt, Program::Outline, bad)
}

// Whether a run whose read with this number fails ends there before it writes, or has fewer reads.
fn fails_rightly(told: Told, fails_at: usize) -> bool {
    match told.fault {
        None => told.reads < fails_at,
        Some(fault) => {
            fault == RunFault::ReadFailed && told.reads == fails_at && told.writes == 0
        }
    }
}

// Makes each read of a text in turn fail, until none does. Returns the number of reads.
fn fail_each_read(rt: &(impl Abort + AllocGlobal), text: &[u8]) -> Result<usize, Fail> {
    let mut given = in_steps(text, WHOLE);
    let mut failed = 0;
    for fails_at in 1..100 {
        given.read = Pace::failing(1000, fails_at);
        let told = tell(rt.alloc(), Program::Blocks, given, b"")?;
        assert!(rt; fails_rightly(told, fails_at), "read {fails_at}: {told:?}");
        if told.fault.is_none() {
            break;
        }
        failed = fails_at;
    }
    Ok(failed)
}

#[test]
fn each_read_fails_in_turn(rt: HostRuntime) -> Result<(), Fail> {
    let text = long_text(rt.alloc(), 3000)?;
    assert_eq!(rt; fail_each_read(&rt, text.as_slice())?, 10);
    Ok(())
}

#[test]
fn each_write_fails_in_turn(rt: HostRuntime) -> Result<(), Fail> {
    let text = long_text(rt.alloc(), 1000)?;
    let given = in_steps(text.as_slice(), WHOLE);
    assert!(rt; 3 < fail_each_write(&rt, Program::Blocks, given)?);
    Ok(())
}

// Three definitions, the second of which is longer than the output buffer.
fn long_definitions(alloc: Global) -> Result<Vec<u8>, AllocError> {
    let mut text = Vec::new(alloc);
    text.extend_from_slice(b"[a]: x\n[b]: ")?;
    for _ in 0..9000 {
        text.extend_from_slice(b"y")?;
    }
    text.extend_from_slice(b"\n[c]: z")?;
    Ok(text)
}

// The lines of the definitions are written after those of the nodes.
#[test]
fn each_write_of_definitions_fails_in_turn(rt: HostRuntime) -> Result<(), Fail> {
    // The line of the root has 11 bytes, and the lines of the three definitions have 44.
    let mut short = in_steps(b"[b]: y 'c'\n[a]: x\n\n[c]: <>", WHOLE);
    short.write = Pace::even(5);
    assert_eq!(rt; fail_each_write(&rt, Program::Blocks, short)?, 12);
    // The line of the root, the lines of the first two definitions, and the line of the third.
    let long = long_definitions(rt.alloc())?;
    let given = in_steps(long.as_slice(), WHOLE);
    assert_eq!(rt; fail_each_write(&rt, Program::Blocks, given)?, 3);
    Ok(())
}

// Asserts that runs over a text are the same in small steps: bytewise, and with each read of a thousand bytes short
// in turn.
fn assert_steps(rt: &(impl Abort + AllocGlobal), text: &[u8], whole: &[u8]) -> Result<(), Fail> {
    let told = tell(rt.alloc(), Program::Blocks, in_steps(text, 1), whole)?;
    assert!(rt; told.is_whole(whole.len()), "bytewise: {told:?}");
    let mut given = in_steps(text, WHOLE);
    for odd_at in 1..=10 {
        let odd = Odd::IsShort;
        given.read = Pace {
            step: 1000,
            odd_at,
            odd,
        };
        let told = tell(rt.alloc(), Program::Blocks, given, whole)?;
        assert!(rt; told.is_whole(whole.len()), "read {odd_at}: {told:?}");
    }
    Ok(())
}

// Ten reads of a text of 9,000 bytes. Each in turn returns one byte, and the whole text is read nevertheless.
#[test]
fn steps_make_no_difference(rt: HostRuntime) -> Result<(), Fail> {
    let text = long_text(rt.alloc(), 3000)?;
    let whole = run(
        rt.alloc(),
        Program::Blocks,
        in_steps(text.as_slice(), WHOLE),
    )?;
    assert!(rt; whole.fault.is_none());
    assert_steps(&rt, text.as_slice(), whole.bytes.as_slice())
}

#[test]
fn a_writer_that_takes_nothing_fails(rt: HostRuntime) -> Result<(), Fail> {
    let text = long_text(rt.alloc(), 3000)?;
    let mut given = in_steps(text.as_slice(), WHOLE);
    given.write = Pace::even(0);
    let told = tell(rt.alloc(), Program::Blocks, given, b"")?;
    assert!(rt; told.is_faulty(RunFault::WriteFailed, 1), "{told:?}");
    Ok(())
}

#[test]
fn faults_are_told(rt: HostRuntime) -> Result<(), Fail> {
    let told: &[(RunFault, &str, u8)] = &[
        (RunFault::OutOfMemory, "out of memory", 1),
        (RunFault::NotUtf8, "not UTF-8", 2),
        (RunFault::BadOptions, "bad options", 2),
        (RunFault::ReadFailed, "read failed", 2),
        (RunFault::WriteFailed, "write failed", 2),
    ];
    for (fault, message, status) in told {
        assert!(rt;
            fault.message() == *message && fault.status() == *status,
            "{message}"
        );
    }
    Ok(())
}
