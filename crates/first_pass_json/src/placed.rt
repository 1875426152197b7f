//! The members of a range with lines and columns, and with its text.

ghost use Rattle.first_pass_json.specs.PlacedRanges.{end_members, if_wanted, place_members, placed_members, source_member, start_members, text_between};
ghost use Rattle.std.specs.Option.{option_map};
ghost use Rattle.std.specs.Prelude.{◌≡◌, ◌++◌, IfOk, OnOk, codes, decimal};

use crate::range::RangeForm;
use crate::values::{append_number_after, append_string_after};
use first_pass_places::line_column::LineColumn;
use first_pass_places::line_table::LineTable;
use first_pass_reports::references::label::bytes_between;
use std::alloc::{AllocError, Global};
use std::str;

/// The form of ranges that may have lines and columns, and may have their text.
#[derive(Drop)]
pub struct PlacedRange<'t> {
    // The table of the text, if each start and each end has its line and column.
    lines: Option<LineTable<'t>>,
    // The text, if each range has its own.
    source: Option<&'t str>,
}

impl<'t> PlacedRange<'t> {
    /// Returns the form for a text: with the line and the column of each start and each end if `lines` is true, and
    /// with the text of each range if `source` is true. Reads the text only for lines. Fails only if an allocation
    /// fails.
    pub fn new(
        alloc: Global,
        text: &'t str,
        lines: bool,
        source: bool,
    ) -> Result<PlacedRange<'t>, AllocError>
        ensures lines { IfOk result (λ form. form.lines ≡ if_wanted lines text.now) }
        ensures source { IfOk result (λ form. option_map (λ t. t.now) form.source ≡ if_wanted source text.now) }
    {
        Ok(PlacedRange {
            lines: table_if(alloc, text, lines)?,
            source: text_if(text, source),
        })
    }
}

// The table of a text, if it is wanted.
fn table_if<'t>(
    alloc: Global,
    text: &'t str,
    wanted: bool,
) -> Result<Option<LineTable<'t>>, AllocError>
    ensures { IfOk result (λ table. table ≡ if_wanted wanted text.now) }
{
    if wanted {
        let table = LineTable::new(alloc, text)?;
        return Ok(Some(table));
    }
    Ok(None)
}

// A text, if it is wanted.
fn text_if(text: &str, wanted: bool) -> Option<&str>
    ensures { option_map (λ t. t.now) result ≡ if_wanted wanted text.now }
{
    if wanted { Some(text) } else { None }
}

impl<'t> RangeForm for PlacedRange<'t> {
    ghost members = { λ form. placed_members form.lines (option_map (λ t. t.now) form.source) };

    #[tactic(auto, unfolding(crate::specs::PlacedRanges::placed_members))]
    fn append_range(&self, line: &mut Vec<u8>, start: usize, end: usize) -> Result<(), AllocError> {
        append_number_after(line, b",\"start\":", start)?;
        append_start(line, &self.lines, start)?;
        append_number_after(line, b",\"end\":", end)?;
        append_end(line, &self.lines, end)?;
        append_source(line, self.source, start, end)
    }
}

// Appends the line and the column of the start of a range, if there is a table.
fn append_start(
    line: &mut Vec<u8>,
    lines: &Option<LineTable<'_>>,
    start: usize,
) -> Result<(), AllocError>
    ensures { OnOk result (line.new.items ≡ line.old.items ++ start_members lines.now start) }
{
    match lines {
        None => Ok(()),
        Some(table) => {
            let place = table.line_column(start);
            append_place(line, b",\"start_line\":", b",\"start_column\":", place)
        }
    }
}

// Appends the line and the column of the end of a range, if there is a table.
fn append_end(
    line: &mut Vec<u8>,
    lines: &Option<LineTable<'_>>,
    end: usize,
) -> Result<(), AllocError>
    ensures { OnOk result (line.new.items ≡ line.old.items ++ end_members lines.now end) }
{
    match lines {
        None => Ok(()),
        Some(table) => {
            let place = table.line_column(end);
            append_place(line, b",\"end_line\":", b",\"end_column\":", place)
        }
    }
}

// Appends a line and a column, each after its name.
fn append_place(
    line: &mut Vec<u8>,
    line_name: &[u8],
    column_name: &[u8],
    place: LineColumn,
) -> Result<(), AllocError>
    ensures { OnOk result (line.new.items ≡ line.old.items ++ place_members line_name.now column_name.now place) }
{
    append_number_after(line, line_name, place.line)?;
    append_number_after(line, column_name, place.column)
}

// Appends the text of a range, if there is a text.
fn append_source(
    line: &mut Vec<u8>,
    source: Option<&str>,
    start: usize,
    end: usize,
) -> Result<(), AllocError>
    ensures { OnOk result (line.new.items
        ≡ line.old.items ++ source_member (option_map (λ t. t.now) source.entry) start end) }
{
    match source {
        None => Ok(()),
        Some(text) => append_string_after(line, b",\"source\":", text_between(text, start, end)),
    }
}

// The text of a range, as far as the text has it. It is empty if an end is within a character.
fn text_between(text: &str, start: usize, end: usize) -> &str
    ensures { result.now ≡ text_between text.now start end }
{
    match str::from_utf8(bytes_between(text.as_bytes(), start, end)) {
        Ok(part) => part,
        Err(_) => "",
    }
}
