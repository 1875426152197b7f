//! Appends the tokens of a line or of a table cell to a tree, and their strings to the list of strings.

ghost use Rattle.first_pass_grammar.specs.Names.{Extends};
ghost use Rattle.first_pass_names.specs.TableEntries.{entries, names_of, AddsTexts};
ghost use Rattle.first_pass_tokens.specs.LineTokens.{EndsLine, EndsCell};
ghost use Rattle.first_pass_tokens.specs.Pieces.{source, text_upto};
ghost use Rattle.first_pass_tokens.specs.TreeTokens.{AppendsLine, AppendsCell};
ghost use Rattle.first_pass_walk.specs.Walk.{MarksSpecial};
ghost use Rattle.std.specs.Prelude.{◌≡◌, ◌≤◌, length, false, IfOk, IfSome, OnOk, IsUtf8};

use crate::items::Allocations;
use first_pass_items::item::Item;
use first_pass_tokens::braces::BraceContexts;
use first_pass_tokens::line;
use first_pass_tokens::pieces::Content;
use first_pass_tree::forest::Tree;
use std::alloc::AllocError;

impl<'a> Allocations<'a> {
    /// Appends the tokens of one line to the innermost open node, and their strings to the list of strings. The tokens
    /// are those of `first_pass_tokens::line::append_line`. On entry, `braces` has the brace contexts before the line;
    /// on return, those after it.
    ///
    /// The line ends after its first line ending. If `content` has none, it ends at `content.end`, or with the text if
    /// that is `None`. Returns this end, and the break at the line ending (CommonMark 6.7, 6.8), which is not appended.
    /// The break is `None` if there is no line ending. Fails only if an allocation fails.
    #[inline(always)]
    pub fn append_line(
        &mut self,
        content: Content<'_>,
        tree: &mut Tree<Item>,
        braces: &mut BraceContexts,
    ) -> Result<(usize, Option<Item>), AllocError>
        requires set { IfSome content.«end» (λ e. e ≤ length content.whole.now) }
        requires within { content.start ≤ length (text_upto content.whole.now content.«end») }
        requires marks { MarksSpecial content.special.now content.options }
        requires no_cell { content.row ≡ false }
        ensures utf8 { IsUtf8 content.entry.whole.now }
        ensures line { IfOk result (λ answer.
            AppendsLine (names_of self.new).texts (source content.entry braces.old) tree.old tree.new answer
            braces.new) }
        ensures ends { IfOk result (λ answer. EndsLine (source content.entry braces.old) answer) }
        ensures names { OnOk result (Extends (names_of self.new) (names_of self.old)) }
        ensures texts { OnOk result (AddsTexts (names_of self.new) (names_of self.old)) }
        ensures entries { entries self.new ≡ entries self.old }
    {
        line::append_line(content, tree, &mut self.texts, braces)
    }

    /// Appends the tokens of one cell of a table row to the innermost open node, and their strings to the list of
    /// strings. The tokens are those of `first_pass_tokens::line::append_cell`. On entry, `braces` has the brace
    /// contexts before the cell; on return, those after it.
    ///
    /// Returns the offset at which the content of the cell ends: that of the first line ending, or of an earlier pipe
    /// that ends the cell (GFM 4.10). Without either, it is `content.end`, or the length of the text if that is `None`.
    /// Fails only if an allocation fails.
    #[inline(always)]
    pub fn append_cell(
        &mut self,
        content: Content<'_>,
        tree: &mut Tree<Item>,
        braces: &mut BraceContexts,
    ) -> Result<usize, AllocError>
        requires set { IfSome content.«end» (λ e. e ≤ length content.whole.now) }
        requires within { content.start ≤ length (text_upto content.whole.now content.«end») }
        requires marks { MarksSpecial content.special.now content.options }
        ensures utf8 { IsUtf8 content.entry.whole.now }
        ensures cell { IfOk result (λ end.
            AppendsCell (names_of self.new).texts (source content.entry braces.old) tree.old tree.new end
            braces.new) }
        ensures ends { IfOk result (λ end. EndsCell (source content.entry braces.old) end) }
        ensures names { OnOk result (Extends (names_of self.new) (names_of self.old)) }
        ensures texts { OnOk result (AddsTexts (names_of self.new) (names_of self.old)) }
        ensures entries { entries self.new ≡ entries self.old }
    {
        line::append_cell(content, tree, &mut self.texts, braces)
    }
}
