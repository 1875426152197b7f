//! A table is opened, and its rows are read, all at once or one by one.

ghost use Rattle.first_pass_client.specs.Places.{InNewTable, InTable, MayAdd};
ghost use Rattle.std.specs.Prelude.{IfOk, MatchOption, OnOk};

use crate::lists::open_block;
use first_pass::below::{AlignmentIndex, ItemBody};
use first_pass::block_begins;
use first_pass::flank::TableParseMode;
use first_pass::pass::FirstPass;
use first_pass_lines::places::next_line;
use std::alloc::AllocError;

/// Opens a table at an offset.
pub fn begin_table(
    pass: &mut FirstPass<'_>,
    at: usize,
    alignments: AlignmentIndex,
) -> Result<(), AllocError>
    requires { MayAdd pass.old at }
    ensures { OnOk result (InNewTable pass.new at) }
{
    block_begins();
    let reader = &mut pass.pass;
    open_block(&mut reader.state, at, ItemBody::Table(alignments))?;
    Ok(())
}

/// Reads all rows of a new table, and closes it. The delimiter row is in the line after the header row. Returns `None`
/// if that line does not end between two characters; each line does.
pub fn read_rows(
    pass: &mut FirstPass<'_>,
    at: usize,
    columns: usize,
) -> Result<Option<usize>, AllocError>
    requires { InNewTable pass.old at }
    ensures { IfOk result (λ next. MatchOption next (InNewTable pass.new at) (λ n. MayAdd pass.new n)) }
{
    let text = pass.pass.source.text;
    let body = next_line(text.as_bytes(), next_line(text.as_bytes(), at));
    if !text.is_char_boundary(body) {
        return Ok(None);
    }
    let next = pass.parse_table(columns, at, body)?;
    Ok(next)
}

/// Reads the row in a line. Returns the offset after it, or `None` if there is no row, so that another may be tried.
pub fn read_row(
    pass: &mut FirstPass<'_>,
    at: usize,
    columns: usize,
    missing: &mut usize,
) -> Result<Option<usize>, AllocError>
    requires { InTable pass.old at }
    ensures { IfOk result (λ next. MatchOption next (InTable pass.new at) (λ n. InTable pass.new n)) }
{
    let Some((end, _row)) = pass.parse_table_row(at, columns, missing)? else {
        return Ok(None);
    };
    Ok(Some(end))
}

/// Reads the row after the container prefixes of its line. Returns the same.
pub fn read_row_inner(
    pass: &mut FirstPass<'_>,
    at: usize,
    columns: usize,
    missing: &mut usize,
) -> Result<Option<usize>, AllocError>
    requires { InTable pass.old at }
    ensures { IfOk result (λ next. MatchOption next (InTable pass.new at) (λ n. InTable pass.new n)) }
{
    let Some((end, _row)) = pass.parse_table_row_inner(at, columns, missing)? else {
        return Ok(None);
    };
    Ok(Some(end))
}

/// Appends the tokens of a cell to the innermost open node. Returns the end of the cell's content.
pub fn read_cell(pass: &mut FirstPass<'_>, at: usize) -> Result<usize, AllocError>
    requires { MayAdd pass.old at }
    ensures { IfOk result (λ next. MayAdd pass.new next) }
{
    let (end, _none) = pass.parse_line(at, None, TableParseMode::Active)?;
    Ok(end)
}
