//! Leaf blocks with raw lines: code, metadata and HTML.

ghost use Rattle.first_pass.specs.Calls.{AddsFencedCode, AddsHtmlToBlank, AddsHtmlToEnd, AddsIndentedCode, AddsMetadata, AppendsRawLine};
ghost use Rattle.first_pass.specs.Views.{source_text};
ghost use Rattle.first_pass_html.specs.Ends.{condition_of};
ghost use Rattle.first_pass_leaves.specs.declared.raw_line.RawKind.TheVariants.{Code, Html};
ghost use Rattle.first_pass_lines.specs.Lines.{is_blank_line, is_content};
ghost use Rattle.first_pass_scan.specs.LeafLines.{code_fence};
ghost use Rattle.std.specs.Prelude.{◌≡◌, ◌≤◌, Some, true, false, max, length, drop, IfOk, OnOk, IsCharBoundary};

use crate::state::FirstPass;
use first_pass_html::ends::HtmlEnd;
use first_pass_leaves::fenced_code::Fence;
use first_pass_leaves::html_block::HtmlStart;
use first_pass_leaves::indented_code::CodeStart;
use first_pass_leaves::raw_line::{RawKind, RawLine, append_raw_line};
use first_pass_leaves::{fenced_code, html_block, indented_code, metadata_block};
use std::alloc::AllocError;

impl<'a> FirstPass<'a> {
    /// Appends a raw line of code or metadata to the innermost open node: the columns owed before it, at most 3, and
    /// its bytes from the offset `start` up to `end`, without the `\r` of a final `\r\n`.
    pub fn append_code_text(
        &mut self,
        remaining_space: usize,
        start: usize,
        end: usize,
    ) -> Result<(), AllocError>
        requires owed { remaining_space ≤ 3 }
        requires range { (start ≤ end) × (end ≤ length (source_text self.old)) }
        ensures { OnOk result (AppendsRawLine Code self.old self.new remaining_space start end) }
    {
        self.append_line_of(RawKind::Code, remaining_space, start, end)
    }

    /// Appends a raw line of HTML to the innermost open node: the columns owed before it, at most 3, and its bytes
    /// from the offset `start` up to `end`, without the `\r` of a final `\r\n`.
    pub fn append_html_line(
        &mut self,
        remaining_space: usize,
        start: usize,
        end: usize,
    ) -> Result<(), AllocError>
        requires owed { remaining_space ≤ 3 }
        requires range { (start ≤ end) × (end ≤ length (source_text self.old)) }
        ensures { OnOk result (AppendsRawLine Html self.old self.new remaining_space start end) }
    {
        self.append_line_of(RawKind::Html, remaining_space, start, end)
    }

    // Appends a raw line to the innermost open node, as text or as HTML by its kind.
    fn append_line_of(
        &mut self,
        kind: RawKind,
        remaining_space: usize,
        start: usize,
        end: usize,
    ) -> Result<(), AllocError>
        requires owed { remaining_space ≤ 3 }
        requires range { (start ≤ end) × (end ≤ length (source_text self.old)) }
        ensures { OnOk result (AppendsRawLine kind self.old self.new remaining_space start end) }
    {
        let pass = &mut self.pass;
        pass.state.tree.recall_forest();
        pass.source.recall_length();
        let line = RawLine {
            kind,
            owed: remaining_space,
            start,
            end,
        };
        append_raw_line(
            &mut pass.state.tree,
            &mut pass.allocs,
            pass.source.text,
            line,
        )?;
        pass.state.begin_list_item = None;
        Ok(())
    }

    /// Appends the indented code whose first line has its content at the offset `start_ix`, after its four columns,
    /// with `remaining_space` columns owed there. Returns the start of the next unread line, or the end of the text.
    /// Blank lines at the end of the block are read but are not part of it; they count (CommonMark 4.4).
    pub fn parse_indented_code_block(
        &mut self,
        start_ix: usize,
        remaining_space: usize,
    ) -> Result<usize, AllocError>
        requires boundary { IsCharBoundary (source_text self.old) start_ix }
        requires owed { remaining_space ≤ 3 }
        requires code { is_blank_line (drop start_ix (source_text self.old)) ≡ false }
        ensures { IfOk result (λ next. AddsIndentedCode self.old self.new start_ix remaining_space next) }
    {
        let pass = &mut self.pass;
        let start = CodeStart {
            at: start_ix,
            owed: remaining_space,
        };
        let (next, blank) = indented_code::parse_indented_code_block(
            &pass.source,
            &mut pass.state.tree,
            &mut pass.allocs,
            &start,
        )?;
        pass.state.begin_list_item = None;
        pass.state.blank = blank;
        Ok(next)
    }

    /// Appends the fenced code block whose opening fence begins at the offset `start_ix`, after `indent` columns. The
    /// fence has `n_fence_char` bytes, each `fence_ch`. Returns the start of the next unread line, or the end of the
    /// text (CommonMark 4.5).
    pub fn parse_fenced_code_block(
        &mut self,
        start_ix: usize,
        indent: usize,
        fence_ch: u8,
        n_fence_char: usize,
    ) -> Result<usize, AllocError>
        requires boundary { IsCharBoundary (source_text self.old) start_ix }
        requires fence { code_fence (drop start_ix (source_text self.old)) ≡ Some (n_fence_char, fence_ch) }
        ensures { IfOk result (λ next. AddsFencedCode self.old self.new start_ix
            (record { indent = indent; byte = fence_ch; count = n_fence_char }) next) }
    {
        let pass = &mut self.pass;
        let fence = Fence {
            indent,
            byte: fence_ch,
            count: n_fence_char,
        };
        let next = fenced_code::parse_fenced_code_block(
            &pass.source,
            &mut pass.state.tree,
            &mut pass.allocs,
            start_ix,
            &fence,
        )?;
        pass.state.begin_list_item = None;
        Ok(next)
    }

    /// Appends the metadata block that begins at the offset `start_ix` with three of `metadata_block_ch`, `-` or `+`.
    /// Returns the start of the next unread line, or the end of the text (this project).
    pub fn parse_metadata_block(
        &mut self,
        start_ix: usize,
        metadata_block_ch: u8,
    ) -> Result<usize, AllocError>
        requires boundary { IsCharBoundary (source_text self.old) start_ix }
        requires byte { is_content metadata_block_ch ≡ true }
        ensures { IfOk result (λ next. AddsMetadata self.old self.new start_ix metadata_block_ch next) }
    {
        let pass = &mut self.pass;
        let next = metadata_block::parse_metadata_block(
            &pass.source,
            &mut pass.state.tree,
            &mut pass.allocs,
            start_ix,
            metadata_block_ch,
        )?;
        pass.state.begin_list_item = None;
        Ok(next)
    }

    /// Appends the HTML block of types 1 to 5 that begins at the offset `start_ix`, after `indent` columns or
    /// `remaining_space` owed columns, whichever is more. It ends with the first line that has its end condition.
    /// Returns the start of the next unread line, or the end of the text (CommonMark 4.6).
    pub fn parse_html_block_type_1_to_5(
        &mut self,
        start_ix: usize,
        html_end: HtmlEnd,
        remaining_space: usize,
        indent: usize,
    ) -> Result<usize, AllocError>
        requires boundary { IsCharBoundary (source_text self.old) start_ix }
        requires columns { max remaining_space indent ≤ 3 }
        ensures { IfOk result (λ next. AddsHtmlToEnd self.old self.new start_ix (condition_of html_end)
            (max remaining_space indent) next) }
    {
        let pass = &mut self.pass;
        let start = HtmlStart {
            at: start_ix,
            columns: remaining_space.max(indent),
        };
        let next = html_block::parse_html_block_type_1_to_5(
            &pass.source,
            &mut pass.state.tree,
            &mut pass.allocs,
            &start,
            html_end,
        )?;
        pass.state.begin_list_item = None;
        Ok(next)
    }

    /// Appends the HTML block of types 6 and 7 that begins at the offset `start_ix`, after `indent` columns or
    /// `remaining_space` owed columns, whichever is more. It ends before a blank line. Returns the start of the next
    /// unread line, or the end of the text (CommonMark 4.6).
    ///
    /// A blank line before the block no longer counts. So it makes a list loose only if `finish_list` is called before
    /// this, as before any other block. If it still counted, it could close a footnote definition in the old form at
    /// the blank line after the block, but the block may end after the container prefixes of that line (this project).
    pub fn parse_html_block_type_6_or_7(
        &mut self,
        start_ix: usize,
        remaining_space: usize,
        indent: usize,
    ) -> Result<usize, AllocError>
        requires boundary { IsCharBoundary (source_text self.old) start_ix }
        requires columns { max remaining_space indent ≤ 3 }
        ensures { IfOk result (λ next.
            AddsHtmlToBlank self.old self.new start_ix (max remaining_space indent) next) }
    {
        let pass = &mut self.pass;
        pass.state.tree.recall_forest();
        let start = HtmlStart {
            at: start_ix,
            columns: remaining_space.max(indent),
        };
        let next = html_block::parse_html_block_type_6_or_7(
            &pass.source,
            &mut pass.state.tree,
            &mut pass.allocs,
            &start,
        )?;
        pass.state.begin_list_item = None;
        pass.state.blank = false;
        Ok(next)
    }
}
