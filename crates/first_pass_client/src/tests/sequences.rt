//! A text is read by single calls, one after the other.

use crate::definitions::{continues, read_definition, read_parts};
use crate::leaves::read_heading_attributes;
use crate::lists::{begin, open_item, open_list, read_block, read_next_block};
use crate::tables::{begin_table, read_cell, read_row, read_row_inner, read_rows};
use crate::texts::{
    begin_text, continue_text, end_text, make_heading, read_line, read_possible_head,
};
use bitflags::Flags;
use first_pass::below::{AlignmentIndex, Options};
use std::alloc::{AllocError, Global};
use std::test::Fail;

// The offset after a heading of two lines and an underline, and the number of nodes.
fn end_of_heading(alloc: Global) -> Result<(usize, usize), AllocError> {
    let mut pass = begin(alloc, "a\nb\n=\n", Options::empty())?;
    let block = begin_text(&mut pass, 0)?;
    let (next, _more) = read_line(&mut pass, block, 0)?;
    let (next, _more) = read_line(&mut pass, block, next)?;
    let next = end_text(&mut pass, block, next)?;
    Ok((next, pass.pass.state.tree.node_count()))
}

// The offset after the underline in the second line of a text.
fn end_of_underline(alloc: Global, text: &str) -> Result<Option<usize>, AllocError> {
    let mut pass = begin(alloc, text, Options::empty())?;
    let block = begin_text(&mut pass, 0)?;
    let (next, _more) = read_line(&mut pass, block, 0)?;
    make_heading(&mut pass, block, next)
}

// The offset after the first line of a paragraph, if the line at an offset continues it.
fn end_of_line(alloc: Global, text: &str, at: usize) -> Result<Option<usize>, AllocError> {
    let mut pass = begin(alloc, text, Options::empty())?;
    let block = begin_text(&mut pass, 0)?;
    let (next, _more) = read_line(&mut pass, block, 0)?;
    if at != next {
        return Ok(None);
    }
    continue_text(&mut pass, block, next)
}

#[test]
fn texts(rt: HostRuntime) -> Result<(), Fail> {
    assert!(rt; end_of_heading(rt.alloc())? == (6, 6));
    for (text, end) in [
        ("a\n=\nb", Some(4)),
        ("a\n-- \r\nb", Some(7)),
        ("a\n===", Some(5)),
        ("a\n=b\n", None),
    ] {
        assert_eq!(rt; end_of_underline(rt.alloc(), text)?, end);
    }
    assert_eq!(rt; end_of_line(rt.alloc(), "a\nb\nc", 2)?, Some(4));
    assert_eq!(rt; end_of_line(rt.alloc(), "a\n# b", 2)?, None);
    Ok(())
}

// The offset after a table of two rows.
fn end_of_table(alloc: Global) -> Result<Option<usize>, AllocError> {
    let mut pass = begin(alloc, "a|b\n-|-\n1\n\nc", Options::ENABLE_TABLES)?;
    begin_table(&mut pass, 0, AlignmentIndex(0))?;
    read_rows(&mut pass, 0, 2)
}

// The offset after the first row of a table, which has one cell, and the number of cells that are missing. The row is
// read after the container prefixes of its line, or with them.
fn end_of_row(alloc: Global, inner: bool) -> Result<(Option<usize>, usize), AllocError> {
    let mut pass = begin(alloc, "a\n", Options::ENABLE_TABLES)?;
    begin_table(&mut pass, 0, AlignmentIndex(0))?;
    let mut missing = 0;
    let next = if inner {
        read_row_inner(&mut pass, 0, 2, &mut missing)?
    } else {
        read_row(&mut pass, 0, 2, &mut missing)?
    };
    Ok((next, missing))
}

// The offset after the header row and the delimiter row, and whether they begin a table.
fn end_of_head(alloc: Global, options: Options) -> Result<(usize, bool), AllocError> {
    let mut pass = begin(alloc, "a|b\n-|-\n", options)?;
    let block = begin_text(&mut pass, 0)?;
    let (next, table) = read_possible_head(&mut pass, block, 0)?;
    Ok((next, table.is_some()))
}

// The end of the content of a cell.
fn end_of_cell(alloc: Global) -> Result<usize, AllocError> {
    let mut pass = begin(alloc, "a|b\n", Options::ENABLE_TABLES)?;
    read_cell(&mut pass, 0)
}

#[test]
fn tables(rt: HostRuntime) -> Result<(), Fail> {
    assert_eq!(rt; end_of_table(rt.alloc())?, Some(10));
    assert!(rt; end_of_row(rt.alloc(), true)? == (Some(2), 1));
    assert!(rt; end_of_row(rt.alloc(), false)? == (Some(2), 1));
    assert!(rt; end_of_head(rt.alloc(), Options::ENABLE_TABLES)? == (8, true));
    assert!(rt; end_of_head(rt.alloc(), Options::empty())? == (4, false));
    assert_eq!(rt; end_of_cell(rt.alloc())?, 1);
    Ok(())
}

// The offset after a definition.
fn end_of_definition(alloc: Global, text: &str) -> Result<Option<usize>, AllocError> {
    let mut pass = begin(alloc, text, Options::empty())?;
    read_definition(&mut pass, 0)
}

// Whether a line continues a run of definitions.
fn is_continued_by(alloc: Global, line: &str) -> Result<bool, AllocError> {
    let mut pass = begin(alloc, line, Options::empty())?;
    continues(&mut pass, 0)
}

// The offset after the title of a definition whose parts are read one after the other.
fn end_of_parts(alloc: Global, text: &str) -> Result<Option<usize>, AllocError> {
    let pass = begin(alloc, text, Options::empty())?;
    read_parts(&pass, 0)
}

#[test]
fn definitions(rt: HostRuntime) -> Result<(), Fail> {
    for (text, end) in [("[a]: b 'c'\nd", Some(10)), ("[a] b", None)] {
        assert_eq!(rt; end_of_definition(rt.alloc(), text)?, end);
        assert_eq!(rt; end_of_parts(rt.alloc(), text)?, end);
    }
    assert!(rt; is_continued_by(rt.alloc(), "'c'\n")?);
    assert!(rt; !is_continued_by(rt.alloc(), "# c\n")?);
    Ok(())
}

// The offset after two blocks.
fn end_of_blocks(alloc: Global) -> Result<Option<usize>, AllocError> {
    let mut pass = begin(alloc, "a\n# b\nc", Options::empty())?;
    let Some(next) = read_block(&mut pass, 0)? else {
        return Ok(None);
    };
    read_block(&mut pass, next)
}

// The offset after the block in an item that was opened on its own.
fn end_of_item(alloc: Global) -> Result<Option<usize>, AllocError> {
    let mut pass = begin(alloc, "- a\n", Options::empty())?;
    open_list(&mut pass, 0, b'-', 0)?;
    open_item(&mut pass, 0, 2)?;
    read_next_block(&mut pass, 0)
}

// The offset after a heading, and whether it has attributes.
fn end_of_attributes(alloc: Global) -> Result<Option<(usize, bool)>, AllocError> {
    let mut pass = begin(alloc, "# a {#x}\n", Options::ENABLE_HEADING_ATTRIBUTES)?;
    read_heading_attributes(&mut pass, 0)
}

#[test]
fn blocks(rt: HostRuntime) -> Result<(), Fail> {
    assert_eq!(rt; end_of_blocks(rt.alloc())?, Some(6));
    assert_eq!(rt; end_of_item(rt.alloc())?, Some(4));
    assert!(rt; end_of_attributes(rt.alloc())? == Some((9, true)));
    Ok(())
}
