//! The calls on the state of the pass. They open, continue and close lists and definition lists, and make them loose
//! (CommonMark 5.2, 5.3). They also open block quotes and footnote definitions, and read blank lines.
//!
//! In these comments, a definition list is also a list, and its definitions are its items. An item is empty as long as
//! only blank lines follow its marker, or the task list item marker after that. A possible title is a paragraph right
//! after a definition (`MaybeDefinitionListTitle`). A `:` after it makes it the next title of the definition list.
//! Otherwise it comes after that list (this project).

ghost use Rattle.first_pass_items.specs.declared.item.ItemBody.TheVariants.{BlockQuote as BlockQuoteBody, ListItem as ListItemBody};
ghost use Rattle.first_pass_lists.specs.Closing.{is_definition_list, top_end, possible_title, title_closed, title_begun, definitions_closed, definitions_left, definitions_opened, definition_begun, may_begin_definition, is_after_definition};
ghost use Rattle.first_pass_lists.specs.Closing.{loosened_at, top_body, is_list, is_item, is_list_of, popped_at, popped, empty_item_closed, list_closed, footnote_left, old_footnote_finished, footnote_begun, with_tree, gap_marked, list_finished, list_kept, list_continued, begun, blank_read, is_footnote};
ghost use Rattle.first_pass_tree.specs.Tight.{tight_items};
ghost use Rattle.std.specs.Prelude.{◌≡◌, ◌==◌, ◌<◌, length, None, true, IsSome, slice_get, OnOk, IfSome, bit_and, if◌then◌else◌};

use crate::state::PassState;
use bitflags::Flags;
use first_pass_items::item::{BlockQuoteKind, CowIndex, Item, ItemBody, ListFlags};
use first_pass_open::open_block::{close_block, open_block};
use first_pass_tree::forest::Tree;
use first_pass_tree::tight::surgerize_tight_list;
use first_pass_tree::tree_index::TreeIndex;
use std::alloc::AllocError;

/// The marker of a list item.
#[derive(Clone, Copy)]
pub struct ListMarker {
    /// The byte of its list: a bullet, or the `.` or `)` after digits.
    pub byte: u8,
    /// The value of its digits; 0 for a bullet.
    pub number: u64,
    /// The columns that a line needs to continue the item.
    pub indent: usize,
}

// The list, which is the current node, was just closed. If it is tight, the paragraphs directly in its items become
// tight (CommonMark 5.3). Then the tree records where the nodes of the list end. If `left` is given, it is the last
// child and is about to leave the list, so the nodes end before it.
#[inline(never)]
fn tighten_list(
    tree: &mut Tree<Item>,
    list_ix: TreeIndex,
    flags: ListFlags,
    left: Option<TreeIndex>,
)
    requires { list_ix.0 < length tree.old.nodes }
    ensures { tree.new ≡ (if bit_and flags.0 1 == 1 then tight_items tree.old list_ix else tree.old) }
{
    if flags.contains(ListFlags::IS_TIGHT) {
        surgerize_tight_list(tree, list_ix);
    }
    match left {
        Some(ix) => tree.note_end_before(ix),
        None => tree.note_end(),
    }
}

// Makes a list loose; any other node is unchanged.
fn loosen(tree: &mut Tree<Item>, ix: TreeIndex)
    requires { ix.0 < length tree.old.nodes }
    ensures { tree.new ≡ loosened_at tree.old ix }
{
    match tree[ix].body {
        ItemBody::List(_, byte, number) => {
            tree.set_body(ix, ItemBody::List(ListFlags::empty(), byte, number));
        }
        ItemBody::DefinitionList(_) => {
            tree.set_body(ix, ItemBody::DefinitionList(ListFlags::empty()));
        }
        _ => {}
    }
}

impl PassState {
    /// Closes the innermost open node at the offset `ix`. A node other than the root must be open. If the node is a
    /// tight list, the paragraphs directly in its items become tight (CommonMark 5.3). If it is an item or a
    /// definition, the state then records no empty item. If it is a definition list whose last child is a possible
    /// title, it ends where its last definition ends. The possible title becomes a paragraph after that list (this
    /// project).
    #[tactic(auto, unfolding(crate::specs::Closing::popped))]
    pub fn pop(&mut self, ix: usize)
        requires { IsSome (slice_get self.old.tree.spine 0) }
        ensures { self.new ≡ popped ix self.old }
    {
        match self.possible_title() {
            Some(title) => self.leave_possible_title(title),
            None => self.close_innermost(ix, None),
        }
    }

    // Closes the innermost open node like `pop`, but leaves a possible title as it is. `left` is given only for a
    // definition list: it is the last child, which the caller then moves out of the list.
    #[tactic(auto, using(crate::proofs::WithinLemmas::closed_within))]
    fn close_innermost(&mut self, ix: usize, left: Option<TreeIndex>)
        requires { IsSome (slice_get self.old.tree.spine 0) }
        ensures { self.new ≡ popped_at ix self.old self.old.tree.spine }
    {
        self.tree.recall_forest();
        let cur_ix = close_block(&mut self.tree, ix);
        match self.tree[cur_ix].body {
            ItemBody::List(flags, _, _) | ItemBody::DefinitionList(flags) => {
                tighten_list(&mut self.tree, cur_ix, flags, left);
            }
            ItemBody::ListItem(_) | ItemBody::DefinitionListDefinition(_) => self.begin_list_item =
                None,
            _ => {}
        }
    }

    // The current node, if it is a possible title and the innermost open node is a definition list.
    fn possible_title(&self) -> Option<TreeIndex>
        ensures value { result ≡ possible_title self.now.tree }
        ensures within { IfSome result (λ title. title.0 < length self.now.tree.nodes) }
    {
        let ix = self.tree.cur()?;
        self.tree.recall_forest();
        if matches!(self.tree[ix].body, ItemBody::MaybeDefinitionListTitle)
            && self.is_in_definitions()
        {
            return Some(ix);
        }
        None
    }

    // Closes the innermost open node, a definition list, where its last definition ends. Its possible title, which is
    // the current node, becomes a paragraph after the list.
    fn leave_possible_title(&mut self, title: TreeIndex)
        requires open { IsSome (slice_get self.old.tree.spine 0) }
        requires title { title.0 < length self.old.tree.nodes }
        ensures { self.new ≡ title_closed self.old title }
    {
        let list_end = self.innermost_end();
        self.tree.set_body(title, ItemBody::Paragraph);
        self.close_definitions(list_end);
    }

    // The end that is recorded in the innermost open node; 0 if only the root is open.
    #[tactic(auto, using(first_pass_open::proofs::BlockLemmas::open_node_in))]
    fn innermost_end(&self) -> usize
        ensures { result ≡ top_end self.now.tree }
    {
        let Some(ix) = self.tree.peek_up() else {
            return 0;
        };
        self.tree.recall_forest();
        self.tree[ix].end
    }

    // Closes the innermost open node, a definition list, at the offset `end`. Moves its last child, the current node,
    // out of it.
    #[tactic(auto, unfolding(crate::specs::Closing::definitions_closed))]
    fn close_definitions(&mut self, end: usize)
        requires { IsSome (slice_get self.old.tree.spine 0) }
        ensures { self.new ≡ definitions_closed end self.old }
    {
        self.tree.recall_forest();
        let last = self.tree.cur();
        self.close_innermost(end, last);
        if let Some(ix) = last {
            self.tree.move_out(ix);
        }
    }

    /// Closes the innermost open node, a definition list, at the offset `end`, where its last definition ends. The
    /// current node follows that definition. It began like a paragraph, but turned out to be a heading or a table. So
    /// it is moved out, and follows the list. Suppose that a counting blank line is before the current node, and that
    /// the definition list is directly in an item of another list. Then that other list becomes loose (this project).
    #[tactic(auto, unfolding(crate::specs::Closing::definitions_left))]
    pub fn leave_definitions(&mut self, end: usize)
        requires { IsSome (slice_get self.old.tree.spine 0) }
        ensures { self.new ≡ definitions_left end self.old }
    {
        self.close_definitions(end);
        self.mark_gap();
    }

    /// Makes the current node a possible title. It is a paragraph right after a definition, which ends at the offset
    /// `end`. The definition list, the innermost open node, records this end. A blank line before the paragraph no
    /// longer counts (this project).
    #[tactic(auto, using(first_pass_open::proofs::BlockLemmas::open_node_in), unfolding(crate::specs::Closing::title_begun))]
    pub fn begin_title(&mut self, end: usize)
        ensures { self.new ≡ title_begun end self.old }
    {
        self.tree.recall_forest();
        if let Some(title) = self.tree.cur() {
            self.tree
                .set_body(title, ItemBody::MaybeDefinitionListTitle);
        }
        self.tree.recall_forest();
        if let Some(list_ix) = self.tree.peek_up() {
            self.tree.set_end(list_ix, end);
        }
        self.blank = false;
    }

    /// Returns whether a `:` may begin a definition after the current node. After a paragraph it may, unless the
    /// innermost open node is a list. If that node is a definition list, it may after a possible title, and after a
    /// definition whose indent is not 0. A definition with the indent 0 takes only blank lines (this project).
    pub fn may_begin_definition(&self) -> bool
        ensures { result ≡ may_begin_definition self.now.tree }
    {
        let Some(ix) = self.tree.cur() else {
            return false;
        };
        self.tree.recall_forest();
        match self.tree[ix].body {
            ItemBody::Paragraph => !self.is_in_list(),
            ItemBody::MaybeDefinitionListTitle => self.is_in_definitions(),
            ItemBody::DefinitionListDefinition(columns) => self.is_in_definitions() && columns != 0,
            _ => false,
        }
    }

    /// Returns whether a paragraph that begins here may become the next title. This is so if the innermost open node is
    /// a definition list whose last child is not a possible title. That last child is then a definition (this project).
    pub fn is_after_definition(&self) -> bool
        ensures { result ≡ is_after_definition self.now.tree }
    {
        self.is_in_definitions() && self.possible_title().is_none()
    }

    // Whether the innermost open node is a definition list.
    #[tactic(auto, using(first_pass_open::proofs::BlockLemmas::open_node_in))]
    fn is_in_definitions(&self) -> bool
        ensures { result ≡ is_definition_list (top_body self.now.tree) }
    {
        let Some(ix) = self.tree.peek_up() else {
            return false;
        };
        self.tree.recall_forest();
        matches!(self.tree[ix].body, ItemBody::DefinitionList(_))
    }

    // Whether the innermost open node is a list, of items or of definitions.
    #[tactic(auto, using(first_pass_open::proofs::BlockLemmas::open_node_in))]
    fn is_in_list(&self) -> bool
        ensures { result ≡ is_list (top_body self.now.tree) }
    {
        let Some(ix) = self.tree.peek_up() else {
            return false;
        };
        self.tree.recall_forest();
        matches!(
            self.tree[ix].body,
            ItemBody::List(_, _, _) | ItemBody::DefinitionList(_)
        )
    }

    /// Opens a definition at the offset `start`; a line needs `indent` columns to continue it. If the current node is
    /// a paragraph, it becomes the title of a new definition list, and the definition is in that list. Otherwise the
    /// definition is in the open definition list, and a possible title that precedes it becomes a title. A counting
    /// blank line before the definition makes the list loose (this project).
    #[tactic(auto, unfolding(crate::specs::Closing::definition_begun))]
    pub fn open_definition(&mut self, start: usize, indent: usize) -> Result<(), AllocError>
        ensures { OnOk result (self.new ≡ definition_begun start indent self.old) }
    {
        self.open_definition_list()?;
        self.keep_list();
        open_block(
            &mut self.tree,
            start,
            ItemBody::DefinitionListDefinition(indent),
        )?;
        Ok(())
    }

    // If the current node is a possible title, makes it a title. If it is a paragraph, opens a tight definition list
    // in its place, whose first child is that paragraph as a title.
    fn open_definition_list(&mut self) -> Result<(), AllocError>
        ensures { OnOk result (self.new
            ≡ with_tree self.old (definitions_opened self.old.tree self.old.tree.current)) }
    {
        let Some(ix) = self.tree.cur() else {
            return Ok(());
        };
        self.tree.recall_forest();
        let Item { start, end, body } = self.tree[ix];
        match body {
            ItemBody::MaybeDefinitionListTitle => {
                self.tree.set_body(ix, ItemBody::DefinitionListTitle);
            }
            ItemBody::Paragraph => {
                self.tree
                    .set_body(ix, ItemBody::DefinitionList(ListFlags::IS_TIGHT));
                self.tree.create_node(Item {
                    start,
                    end,
                    body: ItemBody::DefinitionListTitle,
                })?;
                self.tree.push()?;
                self.tree.remember()?;
            }
            _ => {}
        }
        Ok(())
    }

    /// Closes the innermost open node, if it is an empty item or definition and a counting blank line is directly
    /// before. The node then ends after the line of its marker (CommonMark 5.2, and this project). In any case, the
    /// state then records no empty item.
    #[tactic(auto, using(crate::proofs::WithinLemmas::item_is_open), unfolding(crate::specs::Closing::empty_item_closed))]
    pub fn finish_empty_list_item(&mut self)
        ensures { self.new ≡ empty_item_closed self.old }
    {
        let Some(marker_end) = self.begin_list_item else {
            return;
        };
        if self.blank && self.is_in_item() {
            self.pop(marker_end);
        }
        self.begin_list_item = None;
    }

    // Whether the innermost open node is an item or a definition.
    #[tactic(auto, using(first_pass_open::proofs::BlockLemmas::open_node_in))]
    fn is_in_item(&self) -> bool
        ensures { result ≡ is_item (top_body self.now.tree) }
    {
        let Some(ix) = self.tree.peek_up() else {
            return false;
        };
        self.tree.recall_forest();
        matches!(
            self.tree[ix].body,
            ItemBody::ListItem(_) | ItemBody::DefinitionListDefinition(_)
        )
    }

    /// Prepares the state for a new block. First closes an empty item as `finish_empty_list_item` does. If the
    /// innermost open node is then a list, closes it at the offset `ix` as `pop` does. Suppose that a counting blank
    /// line is before the block, and that the block is directly in an item. Then the list of that item becomes loose.
    #[inline(always)]
    #[tactic(auto, unfolding(crate::specs::Closing::list_finished))]
    pub fn finish_list(&mut self, ix: usize)
        ensures { self.new ≡ list_finished ix self.old }
    {
        self.finish_empty_list_item();
        self.leave_list_and_mark_gap(ix);
    }

    // Closes the innermost open node at the offset `ix` if it is a list. Then a blank line before the block that begins
    // there counts for the list around it.
    fn leave_list_and_mark_gap(&mut self, ix: usize)
        ensures { self.new ≡ gap_marked (list_closed ix self.old) }
    {
        self.leave_list(ix);
        self.mark_gap();
    }

    // If the innermost open node is a list, closes it at the offset `ix` as `pop` does.
    #[tactic(auto, using(crate::proofs::WithinLemmas::list_is_open))]
    fn leave_list(&mut self, ix: usize)
        ensures { self.new ≡ list_closed ix self.old }
    {
        if self.is_in_list() {
            self.pop(ix);
        }
    }

    /// Closes the innermost open node at the offset `ix`, which is the start of a line. It does so only if the node is
    /// a footnote definition, and a counting blank line is directly before that line. If a list is open in a footnote
    /// definition, that definition is not the innermost open node, and so stays open. This call is for footnote
    /// definitions in the old form (this project).
    pub fn finish_old_footnote(&mut self, ix: usize)
        ensures { self.new ≡ old_footnote_finished ix self.old }
    {
        if self.blank {
            self.leave_footnote(ix);
        }
    }

    // If the innermost open node is a footnote definition, closes it at the offset `ix`.
    #[tactic(auto, using(first_pass_open::proofs::BlockLemmas::open_node_in))]
    fn leave_footnote(&mut self, ix: usize)
        ensures { self.new ≡ footnote_left ix self.old }
    {
        self.tree.recall_forest();
        if let Some(footnote_ix) = self.tree.peek_up() {
            if matches!(self.tree[footnote_ix].body, ItemBody::FootnoteDefinition(_)) {
                self.pop(ix);
            }
        }
    }

    // If a counting blank line is before the next block, and that block is directly in an item, the list of that item
    // becomes loose. The blank line then no longer counts.
    #[tactic(auto, using(crate::proofs::WithinLemmas::second_within))]
    fn mark_gap(&mut self)
        ensures { self.new ≡ gap_marked self.old }
    {
        if self.blank {
            self.tree.recall_forest();
            if let Some(list_ix) = self.tree.peek_grandparent() {
                loosen(&mut self.tree, list_ix);
            }
            self.blank = false;
        }
    }

    /// Reads a blank line. If the innermost open node is a block quote, the line does not count, and nothing changes.
    /// Otherwise it counts. If the innermost open node is an empty item or definition, its indent becomes 0: it takes
    /// only blank lines from then on.
    #[tactic(auto, using(first_pass_open::proofs::BlockLemmas::open_node_in), unfolding(crate::specs::Closing::blank_read))]
    pub fn read_blank_line(&mut self)
        ensures { self.new ≡ blank_read self.old }
    {
        self.tree.recall_forest();
        if let Some(ix) = self.tree.peek_up() {
            match self.tree[ix].body {
                ItemBody::BlockQuote(_) => return,
                ItemBody::ListItem(_) if self.begin_list_item.is_some() => {
                    self.tree.set_body(ix, ItemBody::ListItem(0));
                }
                ItemBody::DefinitionListDefinition(_) if self.begin_list_item.is_some() => {
                    self.tree
                        .set_body(ix, ItemBody::DefinitionListDefinition(0));
                }
                _ => {}
            }
        }
        self.blank = true;
    }

    /// Returns true only if one more blank line leaves the state unchanged: a counting one is directly before, and an
    /// empty item or definition already takes only blank lines.
    #[tactic(auto, using(first_pass_open::proofs::BlockLemmas::open_node_in))]
    pub fn is_unchanged_by_blank_line(&self) -> bool
        ensures { result ≡ true → blank_read self.now ≡ self.now }
    {
        if !self.blank {
            return false;
        }
        if self.begin_list_item.is_none() {
            return true;
        }
        let Some(ix) = self.tree.peek_up() else {
            return true;
        };
        self.tree.recall_forest();
        match self.tree[ix].body {
            ItemBody::ListItem(columns) => columns == 0,
            ItemBody::DefinitionListDefinition(columns) => columns == 0,
            _ => true,
        }
    }

    /// Returns whether the innermost open node is a footnote definition.
    #[tactic(auto, using(first_pass_open::proofs::BlockLemmas::open_node_in))]
    pub fn is_in_footnote(&self) -> bool
        ensures { result ≡ is_footnote (top_body self.now.tree) }
    {
        let Some(ix) = self.tree.peek_up() else {
            return false;
        };
        self.tree.recall_forest();
        matches!(self.tree[ix].body, ItemBody::FootnoteDefinition(_))
    }

    /// Makes a list with the byte `ch` the innermost open node, so that an item can be opened in it. First closes an
    /// empty item as `finish_empty_list_item` does. If the innermost open node is then a list with this byte, that
    /// list continues, and a counting blank line directly before makes it loose. Otherwise does the rest of what
    /// `finish_list` does, and opens a list with this byte and the number `index`. Both are at the offset `start`.
    #[tactic(auto, using(crate::proofs::NoEmptyItem::continued_anew), unfolding(crate::specs::Closing::list_continued))]
    #[inline(always)]
    pub fn continue_list(&mut self, start: usize, ch: u8, index: u64) -> Result<(), AllocError>
        ensures { OnOk result (self.new ≡ list_continued start ch index self.old) }
    {
        self.finish_empty_list_item();
        if self.is_in_list_of(ch) {
            self.keep_list();
            return Ok(());
        }
        self.leave_list_and_mark_gap(start);
        open_block(
            &mut self.tree,
            start,
            ItemBody::List(ListFlags::IS_TIGHT, ch, index),
        )?;
        self.tree.remember()?;
        Ok(())
    }

    // Whether the innermost open node is a list with the byte `ch`.
    #[tactic(auto, using(first_pass_open::proofs::BlockLemmas::open_node_in))]
    fn is_in_list_of(&self, ch: u8) -> bool
        ensures { result ≡ is_list_of ch (top_body self.now.tree) }
    {
        let Some(ix) = self.tree.peek_up() else {
            return false;
        };
        self.tree.recall_forest();
        if let ItemBody::List(_, byte, _) = self.tree[ix].body {
            return byte == ch;
        }
        false
    }

    // Continues the innermost open node, a list. A counting blank line directly before makes it loose, and then no
    // longer counts.
    #[tactic(auto, using(first_pass_open::proofs::BlockLemmas::open_node_in))]
    fn keep_list(&mut self)
        ensures { self.new ≡ list_kept self.old }
    {
        if self.blank {
            self.tree.recall_forest();
            if let Some(list_ix) = self.tree.peek_up() {
                loosen(&mut self.tree, list_ix);
            }
            self.blank = false;
        }
    }

    /// Opens the item of a marker at the offset `start`. `continue_list` decides whether it is in the innermost list
    /// or in a new one.
    #[inline(always)]
    pub fn open_item(&mut self, start: usize, marker: ListMarker) -> Result<(), AllocError>
        ensures { OnOk result (self.new
            ≡ begun start (ListItemBody marker.indent) (list_continued start marker.byte marker.number self.old)) }
    {
        self.continue_list(start, marker.byte, marker.number)?;
        open_block(&mut self.tree, start, ItemBody::ListItem(marker.indent))?;
        Ok(())
    }

    /// Opens a block quote of a kind at the offset `start`, that of its `>`. Before that, calls `finish_list` at the
    /// offset `line`, where reading of its line began.
    pub fn open_quote(
        &mut self,
        line: usize,
        start: usize,
        kind: Option<BlockQuoteKind>,
    ) -> Result<(), AllocError>
        ensures { OnOk result (self.new ≡ begun start (BlockQuoteBody kind) (list_finished line self.old)) }
    {
        self.finish_list(line);
        open_block(&mut self.tree, start, ItemBody::BlockQuote(kind))?;
        Ok(())
    }

    /// Opens a footnote definition at the offset `start`, that of its `[`. Its label is the string that the index
    /// `label` names. Before that, closes an empty item as `finish_empty_list_item` does. If the innermost open node
    /// is then a list, it is closed at `start`. If the innermost open node is then a footnote definition, it is closed
    /// there too; so none is directly in another. Suppose that a counting blank line is directly before, and that the
    /// new footnote definition is directly in an item. Then the list of that item becomes loose (this project).
    #[tactic(auto, unfolding(crate::specs::Closing::footnote_begun))]
    pub fn open_footnote(&mut self, start: usize, label: CowIndex) -> Result<(), AllocError>
        ensures { OnOk result (self.new ≡ footnote_begun start label self.old) }
    {
        self.finish_empty_list_item();
        self.leave_list(start);
        self.leave_footnote(start);
        self.mark_gap();
        open_block(&mut self.tree, start, ItemBody::FootnoteDefinition(label))?;
        Ok(())
    }
}
