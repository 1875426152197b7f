//! Leaf blocks that are recognised by their mark (CommonMark 4.1, 4.2, 4.4 to 4.6, and metadata).

ghost use Rattle.first_pass_blocks.specs.Adding.{AddsLeaf, IsFoundIn};
ghost use Rattle.first_pass_grammar.specs.Kinds.{HtmlToEnd as HtmlKind};
ghost use Rattle.first_pass_kinds.specs.BlockStart.{marked_kind};
ghost use Rattle.first_pass_kinds.specs.declared.kinds.MarkedLeaf.TheVariants.{IndentedCode, Metadata, HtmlToEnd, ThematicBreak, AtxHeading, FencedCode};
ghost use Rattle.first_pass_lines.specs.Places.{Place};
ghost use Rattle.std.specs.Prelude.{IfOk, ℕ};

use crate::state::BlockPass;
use first_pass_html::ends::HtmlEnd;
use first_pass_items::item::HeadingLevel;
use first_pass_kinds::kinds::MarkedLeaf;
use first_pass_leaves::fenced_code::{Fence, parse_fenced_code_block};
use first_pass_leaves::heading::parse_atx_heading;
use first_pass_leaves::html_block::{HtmlStart, parse_html_block_type_1_to_5};
use first_pass_leaves::indented_code::{CodeStart, parse_indented_code_block};
use first_pass_leaves::metadata_block::parse_metadata_block;
use first_pass_leaves::rule::parse_hrule;
use first_pass_open::place::Place;
use std::alloc::AllocError;

impl<'a> BlockPass<'a> {
    /// Appends the leaf block that was recognised at a place by its mark, which is at the offset `at`, after `columns`
    /// columns. Returns the start of the next unread line, or the end of the text.
    #[inline(always)]
    pub(crate) fn append_marked(
        &mut self,
        place: Place<'a>,
        leaf: MarkedLeaf,
        columns: usize,
        at: usize,
    ) -> Result<usize, AllocError>
        requires { IsFoundIn self.old place leaf columns at }
        ensures { IfOk result (λ next. AddsLeaf self.old self.new place.entry (marked_kind leaf) next) }
    {
        match leaf {
            MarkedLeaf::IndentedCode => self.append_code(place),
            MarkedLeaf::Metadata(byte) => {
                let next = self.append_metadata(byte, at)?;
                Ok(next)
            }
            MarkedLeaf::HtmlToEnd(end) => {
                let next = self.append_html(end, columns, at)?;
                Ok(next)
            }
            MarkedLeaf::ThematicBreak(size) => {
                let next = self.append_rule(size, at)?;
                Ok(next)
            }
            MarkedLeaf::AtxHeading(level) => {
                let next = self.append_heading(level, at)?;
                Ok(next)
            }
            MarkedLeaf::FencedCode(count, byte) => {
                let fence = Fence {
                    indent: columns,
                    byte,
                    count,
                };
                let next = self.append_fenced_code(fence, at)?;
                Ok(next)
            }
        }
    }

    // Appends the indented code at a place.
    fn append_code(&mut self, place: Place<'a>) -> Result<usize, AllocError>
        requires { (columns : ℕ) × (at : ℕ) × IsFoundIn self.old place IndentedCode columns at }
        ensures { IfOk result (λ next. AddsLeaf self.old self.new place.entry (marked_kind IndentedCode) next) }
    {
        self.source.recall_length();
        let mut place = place;
        place.rest.scan_space_upto(4);
        let start = CodeStart {
            at: place.offset(),
            owed: place.rest.remaining_space(),
        };
        let (next, blank) = parse_indented_code_block(
            &self.source,
            &mut self.state.tree,
            &mut self.allocs,
            &start,
        )?;
        self.state.blank = blank;
        Ok(next)
    }

    // Appends the metadata block with this byte at the offset `at`.
    fn append_metadata(&mut self, byte: u8, at: usize) -> Result<usize, AllocError>
        requires { (p : Place) × (columns : ℕ) × IsFoundIn self.old p (Metadata byte) columns at }
        ensures { IfOk result (λ next. (p : Place) (columns : ℕ) → IsFoundIn self.old p (Metadata byte) columns at
            → AddsLeaf self.old self.new p (marked_kind (Metadata byte)) next) }
    {
        let next = parse_metadata_block(
            &self.source,
            &mut self.state.tree,
            &mut self.allocs,
            at,
            byte,
        )?;
        Ok(next)
    }

    // Appends the HTML block with this end. It begins at the offset `at`, after `columns` columns.
    fn append_html(&mut self, end: HtmlEnd, columns: usize, at: usize) -> Result<usize, AllocError>
        requires { (p : Place) × IsFoundIn self.old p (HtmlToEnd end) columns at }
        ensures { IfOk result (λ next. (p : Place) → IsFoundIn self.old p (HtmlToEnd end) columns at
            → AddsLeaf self.old self.new p HtmlKind next) }
    {
        let next = parse_html_block_type_1_to_5(
            &self.source,
            &mut self.state.tree,
            &mut self.allocs,
            &HtmlStart { at, columns },
            end,
        )?;
        Ok(next)
    }

    // Appends the thematic break of `size` bytes at the offset `at`.
    fn append_rule(&mut self, size: usize, at: usize) -> Result<usize, AllocError>
        requires { (p : Place) × (columns : ℕ) × IsFoundIn self.old p (ThematicBreak size) columns at }
        ensures { IfOk result (λ next. (p : Place) (columns : ℕ) → IsFoundIn self.old p (ThematicBreak size) columns at
            → AddsLeaf self.old self.new p (marked_kind (ThematicBreak size)) next) }
    {
        self.source.recall_length();
        let next = parse_hrule(&mut self.state.tree, size, at)?;
        Ok(next)
    }

    // Appends the ATX heading of this level at the offset `at`.
    fn append_heading(&mut self, level: HeadingLevel, at: usize) -> Result<usize, AllocError>
        requires { (p : Place) × (columns : ℕ) × IsFoundIn self.old p (AtxHeading level) columns at }
        ensures { IfOk result (λ next. (p : Place) (columns : ℕ) → IsFoundIn self.old p (AtxHeading level) columns at
            → AddsLeaf self.old self.new p (marked_kind (AtxHeading level)) next) }
    {
        let next = parse_atx_heading(
            &self.source,
            &mut self.state.tree,
            &mut self.allocs,
            at,
            level,
        )?;
        Ok(next)
    }

    // Appends the fenced code block with this fence at the offset `at`.
    fn append_fenced_code(&mut self, fence: Fence, at: usize) -> Result<usize, AllocError>
        requires { (p : Place) × IsFoundIn self.old p (FencedCode fence.count fence.byte) fence.indent at }
        ensures { IfOk result (λ next. (p : Place)
            → IsFoundIn self.old p (FencedCode fence.count fence.byte) fence.indent at
            → AddsLeaf self.old self.new p (marked_kind (FencedCode fence.count fence.byte)) next) }
    {
        let next = parse_fenced_code_block(
            &self.source,
            &mut self.state.tree,
            &mut self.allocs,
            at,
            &fence,
        )?;
        Ok(next)
    }
}
