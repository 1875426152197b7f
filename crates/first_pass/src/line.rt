//! A line of a paragraph, or a cell of a table row, as a call of the pass (CommonMark 2.4, 4.8, GFM 4.10).

ghost use Rattle.first_pass.specs.Calls.{AppendsTokens, ContinuesBlock, ReadsContent};
ghost use Rattle.first_pass.specs.Lines.{CanBeRead, ContentReachesTo, ReadsPossibleHead};
ghost use Rattle.first_pass.specs.Views.{source_text};
ghost use Rattle.first_pass_walk.specs.declared.flank.TableParseMode.TheVariants.{Active, Disabled};
ghost use Rattle.std.specs.Prelude.{IfOk, None};

use crate::state::FirstPass;
use first_pass_items::item::{Item, ItemBody};
use first_pass_kinds::table_start::scan_headed_line;
use first_pass_lines::lines::content_len;
use first_pass_lines::places::{next_line, rest_of};
use first_pass_tokens::line::text_upto;
use first_pass_tokens::pieces::Content;
use first_pass_walk::flank::TableParseMode;
use std::alloc::AllocError;

impl<'a> FirstPass<'a> {
    /// Appends the tokens of a line, or of a cell in a table row, to the innermost open node. The content begins at
    /// the offset `start`; the text is cut at the offset `end`, if there is one.
    ///
    /// Mode `Disabled` reads a line. Returns the offset after its line ending, and its line break, which is not
    /// appended; or `None` if the text ends without a line ending (CommonMark 2.4, 6.7, 6.8). Mode `Active` reads a
    /// cell. Returns the end of its content, at the end of the line or, if the options have tables, at an unescaped
    /// pipe, and `None` (GFM 4.10). Mode `Scan` reads a line that may be the header row of a table. If it is one,
    /// returns the offset after the delimiter row, and a `Table` with the columns' alignments in place of the line
    /// break. The table is not appended either; it extends from the end of the line's content to that offset. Otherwise
    /// it is as mode `Disabled`.
    ///
    /// Texts of the tokens are added after the named texts. The brace contexts are those of the call before, or none
    /// in a new pass. At most one node is added for each byte that is read. Unless a cell is read, an open block with
    /// text that contains a chain of tokens contains one after the call, also if the returned line break is appended.
    /// Container prefixes may be before `start`: they are in no token. Fails only if an allocation fails.
    pub fn parse_line(
        &mut self,
        start: usize,
        end: Option<usize>,
        mode: TableParseMode,
    ) -> Result<(usize, Option<Item>), AllocError>
        requires { CanBeRead (source_text self.old) start end }
        ensures { IfOk result (λ answer. ReadsContent mode self.old self.new start end answer) }
    {
        match mode {
            TableParseMode::Disabled => {
                let answer = self.append_content(start, end)?;
                Ok(answer)
            }
            TableParseMode::Active => {
                let stop = self.append_cell_content(start, end)?;
                Ok((stop, None))
            }
            TableParseMode::Scan => {
                let answer = self.append_possible_head(start, end)?;
                Ok(answer)
            }
        }
    }

    // Appends the tokens of a line; returns the offset after its line ending, and its line break.
    fn append_content(
        &mut self,
        start: usize,
        end: Option<usize>,
    ) -> Result<(usize, Option<Item>), AllocError>
        requires { CanBeRead (source_text self.old) start end }
        ensures line { IfOk result (λ answer. ReadsContent Disabled self.old self.new start end answer) }
        ensures place { IfOk result (λ answer. ContentReachesTo (source_text self.old) start end answer.0) }
    {
        let pass = &mut self.pass;
        pass.state.tree.recall_forest();
        let source = &pass.source;
        let content = Content {
            options: source.options,
            whole: source.text,
            special: &source.special,
            start,
            end,
            row: false,
        };
        let tree = &mut pass.state.tree;
        let braces = &mut self.braces;
        let line = pass.allocs.append_line(content, tree, braces)?;
        pass.state.begin_list_item = None;
        Ok(line)
    }

    // Appends the tokens of a cell; returns the end of its content.
    fn append_cell_content(&mut self, start: usize, end: Option<usize>) -> Result<usize, AllocError>
        requires { CanBeRead (source_text self.old) start end }
        ensures { IfOk result (λ stop. ReadsContent Active self.old self.new start end (stop, None)) }
    {
        let pass = &mut self.pass;
        pass.state.tree.recall_forest();
        let source = &pass.source;
        let content = Content {
            options: source.options,
            whole: source.text,
            special: &source.special,
            start,
            end,
            row: true,
        };
        let tree = &mut pass.state.tree;
        let braces = &mut self.braces;
        let stop = pass.allocs.append_cell(content, tree, braces)?;
        pass.state.begin_list_item = None;
        Ok(stop)
    }

    // Appends the tokens of a line that may be the header row of a table. If it is one, returns the offset after the
    // delimiter row, and the table, which extends from the end of the line's content to there. Otherwise returns as
    // `append_content`.
    fn append_possible_head(
        &mut self,
        start: usize,
        end: Option<usize>,
    ) -> Result<(usize, Option<Item>), AllocError>
        requires { CanBeRead (source_text self.old) start end }
        ensures line { IfOk result (λ answer. ReadsPossibleHead self.old self.new start end answer) }
        ensures tokens { IfOk result (λ answer. AppendsTokens self.old self.new start end answer.0) }
        ensures block { IfOk result (λ answer. ContinuesBlock self.old self.new start end answer) }
    {
        let bytes = text_upto(self.pass.source.text, end);
        let line = rest_of(bytes, start);
        let pass = &self.pass;
        let found = scan_headed_line(&pass.source, &pass.state.tree, line)?;
        let (next, line_break) = self.append_content(start, end)?;
        let Some(head) = found else {
            return Ok((next, line_break));
        };
        let pass = &mut self.pass;
        let index = pass.allocs.allocate_alignment(head.alignments)?;
        let table = Item {
            start: start + content_len(line),
            end: next_line(bytes, next),
            body: ItemBody::Table(index),
        };
        Ok((table.end, Some(table)))
    }
}
