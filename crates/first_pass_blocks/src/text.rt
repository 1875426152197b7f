//! Paragraphs, setext headings, and tables that the first line of a text heads, at places where no other block begins
//! (CommonMark 4.3, 4.8, GFM 4.10).

ghost use Rattle.first_pass_blocks.specs.Progress.{KnowsNext};
ghost use Rattle.first_pass_blocks.specs.Views.{allocs_of, source_of, source_options, source_text, state_of, tree_of};
ghost use Rattle.first_pass_containers.specs.TextsAdded.{AddsText};
ghost use Rattle.first_pass_grammar.specs.Leaves.{document};
ghost use Rattle.first_pass_grammar.specs.TableHeads.{headed_table};
ghost use Rattle.first_pass_items.specs.declared.item.Item.{Item};
ghost use Rattle.first_pass_kinds.specs.TableHeads.{table_head_len};
ghost use Rattle.first_pass_lists.specs.Closing.{with_tree};
ghost use Rattle.first_pass_names.specs.TableEntries.{names_of, NamesMore};
ghost use Rattle.first_pass_open.specs.Between.{AddsBetween, MarkerIsInItem, MarkerBetween};
ghost use Rattle.first_pass_open.specs.Path.{context_of};
ghost use Rattle.first_pass_tree.specs.Forest.{is_text};
ghost use Rattle.std.specs.Prelude.{◌≡◌, ◌≤◌, ◌+◌, false, ℕ, length, drop, Option, Some, IfOk, IfSome, OnOk, IsUtf8, IsCharBoundary};

use crate::state::BlockPass;
use first_pass_items::item::{Item, ItemBody};
use first_pass_kinds::table_start::{HeadedTable, scan_headed_table};
use first_pass_leaves::paragraph::{TextStart, parse_paragraph};
use first_pass_names::items::Allocations;
use first_pass_open::open_block::open_block;
use first_pass_open::source::Source;
use first_pass_tables::rows::{TableRows, parse_table};
use first_pass_tree::forest::Tree;
use std::alloc::AllocError;

// Appends the table whose header row begins at the offset `start` to the innermost open node. Returns the start of the
// line that ends the table, or the end of the text. Adds the alignments, and the texts that tokens name, to `allocs`.
fn append_table(
    source: &Source<'_>,
    tree: &mut Tree<Item>,
    allocs: &mut Allocations<'_>,
    start: usize,
    table: HeadedTable,
) -> Result<usize, AllocError>
    requires utf8 { IsUtf8 source.now.text.now }
    requires boundary { IsCharBoundary source.now.text.now start }
    requires headed { headed_table (context_of source.now.options tree.old) (drop start source.now.text.now)
        ≡ Some table.alignments.items }
    requires head { table.table_head_len ≡ table_head_len (drop start source.now.text.now) }
    requires within { start + table.table_head_len ≤ length source.now.text.now }
    ensures more { OnOk result (NamesMore allocs.old allocs.new) }
    ensures block { IfOk result (λ next. (marker : Option Item)
        → AddsText (document source.now.text.now source.now.options (names_of allocs.new)) start marker tree.old
        tree.new next) }
    ensures fits { IfOk result (λ next. (from : ℕ) → from ≤ start
        → AddsBetween source.now.text.now from next tree.old tree.new) }
{
    tree.recall_forest();
    let rows = TableRows {
        columns: table.alignments.len(),
        head_start: start,
        body_start: start + table.table_head_len,
    };
    let index = allocs.allocate_alignment(table.alignments)?;
    open_block(tree, start, ItemBody::Table(index))?;
    let next = parse_table(source, tree, allocs, rows)?;
    Ok(next)
}

impl<'a> BlockPass<'a> {
    /// Appends the paragraph, setext heading or table that begins at the offset `start_ix` to the innermost open node.
    /// With tables, a first line that heads a table begins one. Otherwise the block is a paragraph or a heading; the
    /// marker of its task list item, if it has one, is its first child. Returns the start of the next unread line, or
    /// the end of the text. Adds the alignments of a table or the attributes of a heading, and the texts that tokens
    /// name, to the tables. Only this call may find the front of the next unread line. Fails only if an allocation
    /// fails (CommonMark 4.3, 4.8, GFM 4.10).
    #[inline(never)]
    pub fn parse_text(
        &mut self,
        start_ix: usize,
        tasklist_marker: &Option<Item>,
    ) -> Result<usize, AllocError>
        requires boundary { IsCharBoundary (source_text self.old) start_ix }
        requires marker { IfSome tasklist_marker.now (λ x. is_text x.body ≡ false) }
        ensures source { source_of self.new ≡ source_of self.old }
        ensures state { state_of self.new ≡ with_tree (state_of self.old) (tree_of self.new) }
        ensures more { OnOk result (NamesMore (allocs_of self.old) (allocs_of self.new)) }
        ensures block { IfOk result (λ next.
            AddsText (document (source_text self.old) (source_options self.old) (names_of (allocs_of self.new)))
            start_ix tasklist_marker.now (tree_of self.old) (tree_of self.new) next) }
        ensures fits { IfOk result (λ next. MarkerIsInItem (tree_of self.old) tasklist_marker.now → (from : ℕ)
            → MarkerBetween (source_text self.old) from start_ix tasklist_marker.now
            → AddsBetween (source_text self.old) from next (tree_of self.old) (tree_of self.new)) }
        ensures front { IfOk result (λ next. KnowsNext self.new next) }
    {
        self.next_front.is_known = false;
        match scan_headed_table(&self.source, &self.state.tree, start_ix)? {
            Some(table) => {
                let next = append_table(
                    &self.source,
                    &mut self.state.tree,
                    &mut self.allocs,
                    start_ix,
                    table,
                )?;
                Ok(next)
            }
            None => {
                let next = parse_paragraph(
                    &self.source,
                    &mut self.state.tree,
                    &mut self.allocs,
                    TextStart {
                        at: start_ix,
                        marker: tasklist_marker,
                    },
                    &mut self.next_front,
                )?;
                Ok(next)
            }
        }
    }
}
