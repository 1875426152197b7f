//! A table of the lines of a text (this project).

ghost use Rattle.first_pass_places.specs.LineColumns.{line_column};
ghost use Rattle.first_pass_places.specs.LineTables.{AreMarks};
ghost use Rattle.std.specs.Prelude.{◌≡◌, IfOk};

use crate::line_column::{LineColumn, line_column_after};
use std::alloc::{AllocError, Global};
use std::marker::Model;

// Of this many bytes, the line and the column of the first are in the table.
const STEP: usize = 64;

/// A table of the lines of a text: with it, the line and the column of an offset are found without reading all bytes
/// before the offset. It takes a quarter of the memory of the text.
#[derive(Drop)]
pub struct LineTable<'t> {
    text: &'t [u8],
    // The lines and columns of the offsets that are multiples of `STEP`, up to the end of the text.
    marks: Vec<LineColumn>,
}

impl<'t> Model for LineTable<'t> {
    ghost use Rattle.first_pass_places.specs.LineTables.{AreMarks};
    ghost use Rattle.std.specs.Prelude.{ℕ, List};

    ghost Value = { List ℕ };

    ghost view = { λ table. table.text.now };

    ghost invariant = { λ table. AreMarks table.text.now table.marks.items };
}

impl<'t> LineTable<'t> {
    /// Returns the table of a text. Reads the text once. Fails only if an allocation fails.
    pub fn new(alloc: Global, text: &'t str) -> Result<LineTable<'t>, AllocError>
        ensures { IfOk result (λ table. table ≡ text.now) }
    {
        let text = text.as_bytes();
        let marks = marks_of(alloc, text)?;
        Ok(LineTable { text, marks })
    }

    /// Returns the line and the column of a byte offset into the text. An offset between `\r` and `\n` is in the line
    /// that they end. An offset after the text has the place of its end. Reads at most 64 bytes.
    pub fn line_column(&self, offset: usize) -> LineColumn
        ensures { result ≡ line_column self.now offset }
    {
        let mark = offset.min(self.text.len()) / STEP;
        line_column_after(self.text, mark * STEP, self.marks[mark], offset)
    }
}

// The lines and columns of the offsets that are multiples of `STEP`, up to the end of the text.
fn marks_of(alloc: Global, text: &[u8]) -> Result<Vec<LineColumn>, AllocError>
    ensures { IfOk result (λ marks. AreMarks text.now marks.items) }
{
    let mut marks = Vec::with_capacity(alloc, text.len() / STEP + 1)?;
    let mut place = LineColumn { line: 1, column: 1 };
    let mut at = 0;
    while text.len() - at >= STEP {
        marks.push(place)?;
        place = line_column_after(text, at, place, at + STEP);
        at += STEP;
    }
    marks.push(place)?;
    Ok(marks)
}
