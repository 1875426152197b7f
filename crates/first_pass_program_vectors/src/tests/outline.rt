//! The lines that `outline` writes, and each fault of its run.

use super::fakes::{
    Given, Pace, Program, assert_bad_options_come_first, assert_fault, assert_lines,
    assert_not_utf8, fail_each_write,
};
use first_pass_host::fault::RunFault;
use std::test::Fail;

const WHOLE: usize = usize::MAX;

// Twelve bytes, with two headings.
const TEXT: &[u8] = b"a\n=\n\n> ## b\n";

#[test]
fn headings_are_listed(rt: HostRuntime) -> Result<(), Fail> {
    let cases: &[(&[&str], &[u8], &str)] = &[
        (&[], b"", ""),
        (&[], TEXT, "1 0..4\n2 7..12\n"),
        (&["64"], b"# a {#x .c k=v #y}", "1 0..18 #y\n"),
        // Without an id, and without the option for attributes.
        (&["64"], b"# a {.c}\n", "1 0..9\n"),
        (&["0"], b"# a {#x}\n", "1 0..9\n"),
        // A code block with no heading in it, and a list item with two.
        (
            &[],
            b"    # a\n\n- # b\n\n  ###### c",
            "1 11..15\n6 18..26\n",
        ),
    ];
    for (words, text, want) in cases {
        assert_lines(&rt, Program::Outline, Given::new(words, text), want)?;
    }
    Ok(())
}

// Three reads return the text, five bytes at a time, and a fourth finds its end.
#[test]
fn each_read_fails_in_turn(rt: HostRuntime) -> Result<(), Fail> {
    let mut given = Given::new(&[], TEXT);
    for fails_at in 1..6 {
        given.read = Pace::failing(5, fails_at);
        // The fifth read is not made, so the lines are written.
        let (fault, wanted) = if fails_at == 5 {
            (RunFault::WriteFailed, 4)
        } else {
            (RunFault::ReadFailed, fails_at)
        };
        let reads = assert_fault(&rt, Program::Outline, given, fault)?;
        assert_eq!(rt; reads, wanted);
    }
    Ok(())
}

// The lines of 2,000 headings are written in four pieces.
#[test]
fn each_write_is_odd_in_turn(rt: HostRuntime) -> Result<(), Fail> {
    let mut text = Vec::new(rt.alloc());
    for _ in 0..2000 {
        text.extend_from_slice(b"# a\n")?;
    }
    let mut given = Given::new(&[], text.as_slice());
    given.read = Pace::even(WHOLE);
    given.write = Pace::even(WHOLE);
    assert_eq!(rt; fail_each_write(&rt, Program::Outline, given)?, 4);
    Ok(())
}
