//! Paragraphs and tables, headings and thematic breaks, as calls of the pass.

ghost use Rattle.first_pass.specs.Calls.{AddsAtxHeading, AddsParagraph, AddsRule};
ghost use Rattle.first_pass.specs.Views.{source_text};
ghost use Rattle.first_pass_lines.specs.Lines.{atx_level as atx_level_of};
ghost use Rattle.first_pass_tree.specs.Forest.{is_text};
ghost use Rattle.std.specs.Prelude.{◌≡◌, ◌+◌, ◌≤◌, drop, Some, false, length, IfOk, IfSome, IsCharBoundary};

use crate::state::{FirstPass, recall_utf8};
use first_pass_items::item::{HeadingLevel, Item};
use first_pass_leaves::{heading, rule};
use std::alloc::AllocError;

impl<'a> FirstPass<'a> {
    /// Appends the paragraph, setext heading or table that begins at the offset `start_ix`. With tables, it is a table
    /// if its first line is a header row. Otherwise it is a heading without its attribute block if an underline
    /// follows, or a paragraph. The marker of its task list item, if there is one, is its first child. Returns the
    /// start of the line after the block, or the end of the text (CommonMark 4.3, 4.8, GFM 4.10).
    pub fn parse_paragraph(
        &mut self,
        start_ix: usize,
        tasklist_marker: Option<Item>,
    ) -> Result<usize, AllocError>
        requires boundary { IsCharBoundary (source_text self.old) start_ix }
        requires marker { IfSome tasklist_marker (λ x. is_text x.body ≡ false) }
        ensures { IfOk result (λ next. AddsParagraph self.old self.new start_ix tasklist_marker next) }
    {
        let pass = &mut self.pass;
        let next = pass.parse_text(start_ix, &tasklist_marker)?;
        pass.state.begin_list_item = None;
        Ok(next)
    }

    /// Appends the ATX heading of this level that begins at the offset `start`, without its attribute block, and
    /// returns the end of its line (CommonMark 4.2).
    pub fn parse_atx_heading(
        &mut self,
        start: usize,
        atx_level: HeadingLevel,
    ) -> Result<usize, AllocError>
        requires within { start ≤ length (source_text self.old) }
        requires heading { atx_level_of (drop start (source_text self.old)) ≡ Some atx_level }
        ensures { IfOk result (λ next. AddsAtxHeading self.old self.new start atx_level next) }
    {
        let pass = &mut self.pass;
        recall_utf8(pass.source.text);
        let next = heading::parse_atx_heading(
            &pass.source,
            &mut pass.state.tree,
            &mut pass.allocs,
            start,
            atx_level,
        )?;
        pass.state.begin_list_item = None;
        Ok(next)
    }

    /// Appends the thematic break of `hrule_size` bytes, including its line ending, that begins at the offset `ix`,
    /// and returns the offset after it (CommonMark 4.1).
    pub fn parse_hrule(&mut self, hrule_size: usize, ix: usize) -> Result<usize, AllocError>
        requires { ix + hrule_size ≤ length (source_text self.old) }
        ensures { IfOk result (λ next. AddsRule self.old self.new ix hrule_size next) }
    {
        let pass = &mut self.pass;
        pass.source.recall_length();
        recall_utf8(pass.source.text);
        let next = rule::parse_hrule(&mut pass.state.tree, hrule_size, ix)?;
        pass.state.begin_list_item = None;
        Ok(next)
    }
}
