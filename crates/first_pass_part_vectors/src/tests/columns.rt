//! What a line start consumes, call after call, and the columns of a header row.

use first_pass_scan::line_start::LineStart;
use first_pass_scan::table_scan::count_header_cols;
use std::alloc::AllocError;
use std::test::Fail;

// The bytes that a line start has consumed, and the columns that it owes.
fn consumed(line: &LineStart<'_>) -> (usize, usize) {
    (line.bytes_scanned(), line.remaining_space())
}

// Whether there are three columns at the start, and what they consume.
fn three_columns(line: &mut LineStart<'_>) -> (bool, (usize, usize)) {
    let found = line.scan_space(3);
    (found, consumed(line))
}

// The columns that are left, up to nine, and what a copy has then consumed.
fn nine_columns(line: &LineStart<'_>) -> Result<(usize, (usize, usize)), AllocError> {
    let mut other = line.clone()?;
    let found = other.scan_space_upto(9);
    Ok((found, consumed(&other)))
}

#[test]
fn columns(rt: HostRuntime) -> Result<(), Fail> {
    let mut line = LineStart::new(b"  \t \ta");
    assert_eq!(rt; three_columns(&mut line), (true, (3, 1)));
    assert_eq!(rt; nine_columns(&line)?, (5, (5, 0)));
    line.scan_all_space();
    assert_eq!(rt; consumed(&line), (5, 0));
    assert!(rt; !line.is_at_eol());
    Ok(())
}

#[test]
fn columns_of_a_header(rt: HostRuntime) {
    for row in ["a|b|", " |a|b"] {
        assert_eq!(rt; count_header_cols(row.as_bytes(), 2, 0, 3), 2, "{row}");
    }
}
