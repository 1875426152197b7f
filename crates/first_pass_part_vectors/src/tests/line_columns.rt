//! The lines and columns of offsets.

use first_pass_places::line_column::{LineColumn, line_column_at};
use first_pass_places::line_table::LineTable;
use std::alloc::{AllocError, Global};
use std::test::Fail;

// The places of an offset, without a table and with one.
fn places_of(
    alloc: Global,
    text: &str,
    offset: usize,
) -> Result<(LineColumn, LineColumn), AllocError> {
    let table = LineTable::new(alloc, text)?;
    Ok((
        line_column_at(text.as_bytes(), offset),
        table.line_column(offset),
    ))
}

// Seventy bytes without a line ending.
const LONG: &str = "0123456789012345678901234567890123456789012345678901234567890123456789";

#[test]
fn each_offset_has_its_line_and_column(rt: HostRuntime) -> Result<(), Fail> {
    for (text, offset, line, column) in &[
        // An offset after the text has the place of its end.
        ("", 0, 1, 1),
        ("", 5, 1, 1),
        ("a\n", 1, 1, 2),
        ("a\n", 2, 2, 1),
        ("a\n", 3, 2, 1),
        // Each of the three line endings; `\r\n` is one, and ends after both bytes.
        ("\r\r\n\n", 1, 2, 1),
        ("\r\r\n\n", 2, 2, 2),
        ("\r\r\n\n", 3, 3, 1),
        ("\r\r\n\n", 4, 4, 1),
        // Characters of two, three and four bytes: the last has two units.
        ("é€😀b", 2, 1, 2),
        ("é€😀b", 5, 1, 3),
        ("é€😀b", 9, 1, 5),
        ("é€😀b", 10, 1, 6),
        // After the first place in a table but the start.
        (LONG, 64, 1, 65),
        (LONG, 70, 1, 71),
    ] {
        let (found, looked_up) = places_of(rt.alloc(), text, *offset)?;
        assert_eq!(rt;
            (found.line, found.column),
            (*line, *column),
            "{text} at {offset}"
        );
        assert_eq!(rt;
            (looked_up.line, looked_up.column),
            (*line, *column),
            "{text} at {offset}, by the table"
        );
    }
    Ok(())
}
