//! Runs with a clock that has given readings, and each fault.

use super::fakes::{BAD_OPTIONS, Given, Pace, Program, Told, assert_lines, fail_each_write, tell};
use first_pass_host::fault::RunFault;
use std::alloc::{AllocError, Global};
use std::process::Abort;
use std::test::Fail;

// A text of eight bytes, whose tree has seven nodes.
const TEXT: &[u8] = b"# a\nb\\\nc";

// A run over a text with a clock that has these readings. The read with the number `fails_at` fails.
fn timed(
    alloc: Global,
    words: &[&str],
    told: &[u128],
    text: &[u8],
    fails_at: usize,
) -> Result<Told, AllocError> {
    let mut given = Given::new(words, text);
    given.read = Pace::failing(3, fails_at);
    tell(alloc, Program::Bench(told), given, b"")
}

// Asserts that a run with the options `"0"` and this number of runs, over `TEXT` and with these readings, writes a line.
fn assert_line(
    rt: &(impl Abort + AllocGlobal),
    runs: &str,
    told: &[u128],
    want: &str,
) -> Result<(), Fail> {
    assert_lines(
        rt,
        Program::Bench(told),
        Given::new(&["0", runs], TEXT),
        want,
    )
}

// Asserts that these words are refused before the clock is read, and before anything is read or written.
fn assert_refused(rt: &(impl Abort + AllocGlobal), words: &[&str]) -> Result<(), Fail> {
    let told = timed(rt.alloc(), words, &[0, 1], b"\xff", 1)?;
    let is_refused = told.is_faulty(RunFault::BadOptions, 0) && told.reads == 0;
    assert!(rt; is_refused && told.readings == 2, "{words:?}: {told:?}");
    Ok(())
}

#[test]
fn bad_options_come_first(rt: HostRuntime) -> Result<(), Fail> {
    for words in BAD_OPTIONS {
        assert_refused(&rt, words)?;
    }
    let bad: &[&[&str]] = &[
        &["0", ""],
        &["0", "+1"],
        &["0", "-1"],
        &["0", "4294967296"],
        &["0", "1", "1"],
    ];
    for words in bad {
        assert_refused(&rt, words)?;
    }
    Ok(())
}

#[test]
fn as_many_runs_as_are_asked_for(rt: HostRuntime) -> Result<(), Fail> {
    let cases: &[(&str, &[u128], &str)] = &[
        (
            "1",
            &[7, 257, 300],
            "8 bytes, 7 nodes, best of 1 runs: 0.000 ms, 32.0 MB/s; first run: 0.000 ms, 32.0 MB/s\n",
        ),
        // The second run is the shortest.
        (
            "3",
            &[100, 350, 400, 500, 900, 1_020],
            "8 bytes, 7 nodes, best of 3 runs: 0.000 ms, 80.0 MB/s; first run: 0.000 ms, 32.0 MB/s\n",
        ),
        // The clock goes back in the first run.
        (
            "2",
            &[9_000_000, 8_000_000, 8_000_000, 9_234_567],
            "8 bytes, 7 nodes, best of 2 runs: 0.000 ms, 8000.0 MB/s; first run: 0.000 ms, 8000.0 MB/s\n",
        ),
        // One second passes in the first run.
        (
            "2",
            &[0, 5_000_000_000, 5_000_000_000, 6_001_500_000],
            "8 bytes, 7 nodes, best of 2 runs: 1001.500 ms, 0.0 MB/s; first run: 5000.000 ms, 0.0 MB/s\n",
        ),
    ];
    for (runs, told, want) in cases {
        assert_line(&rt, runs, told, want)?;
    }
    Ok(())
}

#[test]
fn five_runs_and_a_second(rt: HostRuntime) -> Result<(), Fail> {
    // One second passes in the third run.
    let five: &[u128] = &[
        5,
        400_000_005,
        400_000_005,
        800_000_005,
        800_000_005,
        1_200_000_005,
        1_200_000_005,
        1_500_000_005,
        1_500_000_005,
        1_900_000_005,
        0,
        0,
    ];
    // One second has passed exactly at the end of the sixth run.
    let six: &[u128] = &[
        5,
        100_000_005,
        100_000_005,
        200_000_005,
        200_000_005,
        300_000_005,
        300_000_005,
        400_000_005,
        400_000_005,
        1_000_000_004,
        1_000_000_004,
        1_000_000_005,
        0,
        0,
    ];
    let of_five =
        "8 bytes, 7 nodes, best of 5 runs: 300.000 ms, 0.0 MB/s; first run: 400.000 ms, 0.0 MB/s\n";
    let of_six =
        "8 bytes, 7 nodes, best of 6 runs: 0.000 ms, 8000.0 MB/s; first run: 100.000 ms, 0.0 MB/s\n";
    assert_lines(&rt, Program::Bench(five), Given::new(&[], TEXT), of_five)?;
    assert_lines(&rt, Program::Bench(six), Given::new(&["0"], TEXT), of_six)
}

#[test]
fn options_make_a_difference(rt: HostRuntime) -> Result<(), Fail> {
    let text = b"+++\na\n+++\n";
    let cases = [
        (
            "256",
            "10 bytes, 3 nodes, best of 1 runs: 0.000 ms, 1000.0 MB/s; first run: 0.000 ms, 1000.0 MB/s\n",
        ),
        (
            "0",
            "10 bytes, 7 nodes, best of 1 runs: 0.000 ms, 1000.0 MB/s; first run: 0.000 ms, 1000.0 MB/s\n",
        ),
    ];
    for (bits, want) in cases {
        assert_lines(
            &rt,
            Program::Bench(&[0, 10]),
            Given::new(&[bits, "1"], text),
            want,
        )?;
    }
    Ok(())
}

#[test]
fn input_is_utf8(rt: HostRuntime) -> Result<(), Fail> {
    for bytes in [b"\xff".as_slice(), b"a\n\n# b\xc3"] {
        let told = timed(rt.alloc(), &[], &[0, 1], bytes, 0)?;
        let is_faulty = told.is_faulty(RunFault::NotUtf8, 0);
        assert!(rt; is_faulty && told.readings == 2, "{bytes:?}: {told:?}");
    }
    Ok(())
}

// The four reads of a text of eight bytes; the last one finds its end.
#[test]
fn each_read_fails_in_turn(rt: HostRuntime) -> Result<(), Fail> {
    for fails_at in 1..6 {
        let told = timed(rt.alloc(), &["0", "1"], &[0, 1], TEXT, fails_at)?;
        let is_right = if fails_at == 5 {
            told.fault.is_none()
        } else {
            told.is_faulty(RunFault::ReadFailed, 0) && told.readings == 2
        };
        assert!(rt; is_right, "read {fails_at}: {told:?}");
    }
    Ok(())
}

// Two runs read the clock four times.
#[test]
fn each_reading_of_the_clock_fails_in_turn(rt: HostRuntime) -> Result<(), Fail> {
    let readings = [0, 1, 2, 3];
    for count in 0..5 {
        let told = timed(rt.alloc(), &["0", "2"], &readings[..count], TEXT, 0)?;
        let is_right = if count == 4 {
            told.fault.is_none()
        } else {
            told.is_faulty(RunFault::ReadFailed, 0)
        };
        assert!(rt; is_right, "{count} readings: {told:?}");
    }
    Ok(())
}

// A line takes five writes, twenty bytes at a time.
#[test]
fn each_write_is_odd_in_turn(rt: HostRuntime) -> Result<(), Fail> {
    let whole =
        "8 bytes, 7 nodes, best of 1 runs: 0.000 ms, 8000.0 MB/s; first run: 0.000 ms, 8000.0 MB/s\n";
    assert_line(&rt, "1", &[0, 1], whole)?;
    let given = Given::new(&["0", "1"], TEXT);
    assert_eq!(rt; fail_each_write(&rt, Program::Bench(&[0, 1]), given)?, 5);
    Ok(())
}
