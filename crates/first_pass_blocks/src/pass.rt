//! The block pass: the lines of a text, one block after the other.

ghost use Rattle.first_pass_blocks.specs.Progress.{HasSameParts, IsAtPlace, KnowsNext, ReadsBlock, ReadsLeaf};
ghost use Rattle.first_pass_blocks.specs.Titles.{ReadsTextOrTitle};
ghost use Rattle.first_pass_blocks.specs.Views.{allocs_of, front_of, state_of, source_options, source_text, tree_of};
ghost use Rattle.first_pass_blocks.specs.Written.{AreFootnotesWritten, HasFirstLabels};
ghost use Rattle.first_pass_containers.specs.Positions.{LineAt, TaskAt, TaggedAt};
ghost use Rattle.first_pass_containers.specs.Starts.{IsAfterMarker};
ghost use Rattle.first_pass_definitions.specs.Found.{AreWritten};
ghost use Rattle.first_pass_grammar.specs.Completion.{lines_from};
ghost use Rattle.first_pass_grammar.specs.Counting.{inserted_cells, counted_nodes};
ghost use Rattle.first_pass_grammar.specs.declared.kind.AfterMarker.TheVariants.{TaskText};
ghost use Rattle.first_pass_grammar.specs.Derivation.{no_tables, Derives, IsOnlyDerived};
ghost use Rattle.first_pass_grammar.specs.Kinds.{Paragraph, unindented, IsKind};
ghost use Rattle.first_pass_grammar.specs.Leaves.{document};
ghost use Rattle.first_pass_grammar.specs.Names.{Names, AreNamed};
ghost use Rattle.first_pass_grammar.specs.Order.{IsOrdered};
ghost use Rattle.first_pass_grammar.specs.WholeTables.{AreWholeTables, HasWholeTables};
ghost use Rattle.first_pass_kinds.specs.BlockStart.{IsFoundAt};
ghost use Rattle.first_pass_lines.specs.Places.{offset, line_end, IsPlaceOf};
ghost use Rattle.first_pass_names.specs.TableEntries.{tables_of, names_of, refdefs_of, footdefs_of};
ghost use Rattle.first_pass_order.specs.Ordered.{IsReadTo};
ghost use Rattle.first_pass_order.specs.Settled.{AreSettled};
ghost use Rattle.first_pass_ready.specs.State.{Ready};
ghost use Rattle.std.specs.Prelude.{◌≡◌, ◌<◌, ◌≤◌, ◌+◌, ◌*◌, [], length, None, true, false, IfOk, IsUtf8, IsCharBoundary};

use crate::definition::RunEnd;
use crate::state::BlockPass;
use first_pass_containers::containers::{
    begins_no_container, close_containers, enter_known, enter_line, read_blank_lines,
};
use first_pass_grammar::AfterMarker;
use first_pass_items::item::Item;
use first_pass_items::option_set::Options;
use first_pass_kinds::interrupt::scan_flowing_line;
use first_pass_kinds::kinds::{BlockStart, kind_at};
use first_pass_kinds::next_front::NextFront;
use first_pass_leaves::html_block::{HtmlStart, parse_html_block_type_6_or_7};
use first_pass_lines::places::{next_line, rest_of};
use first_pass_lines::sample::Sample;
use first_pass_lists::state::PassState;
use first_pass_names::items::Allocations;
use first_pass_open::indentation::scan_indentation;
use first_pass_open::place::Place;
use first_pass_open::source::Source;
use first_pass_scan::metadata_search::MetadataEnds;
use first_pass_tree::forest::Tree;
use std::alloc::{AllocError, Global};
use std::cmp::max;

// The bytes at the start of a text by which the rest is judged.
const SAMPLE_BYTES: usize = 1 << 16;
// A text seldom has more than one node in this many bytes.
const BYTES_A_NODE: usize = 5;
// The nodes of 48 bytes in a large page of memory, 2 MiB. The C library keeps its header in the 32 bytes that are left.
const NODES_A_PAGE: usize = 43_690;
// The most nodes for which room is made at first, 30 MiB: the C library maps a block of 32 MiB anew in each pass.
const MOST_NODES_AT_FIRST: usize = 15 * NODES_A_PAGE;
// The most nodes for which room is made before they come, 126 MB: the rest of a text may be unlike its start. A list at
// least doubles when it grows, so this is a power of two times the room at first.
const MOST_NODES_EXPECTED: usize = 4 * MOST_NODES_AT_FIRST;

impl<'a> BlockPass<'a> {
    /// A pass over `text` that has read nothing yet.
    pub fn new(alloc: Global, text: &'a str, options: Options) -> Result<BlockPass<'a>, AllocError>
        ensures text { IfOk result (λ pass. (source_text pass) ≡ text.now) }
        ensures options { IfOk result (λ pass. (source_options pass) ≡ options) }
        ensures empty { IfOk result (λ pass. tables_of (allocs_of pass) ≡ no_tables) }
        ensures ready { IfOk result (λ pass. (names : Names)
            → Ready (document text.now options names) no_tables (state_of pass) (lines_from text.now 0)) }
        ensures order { IfOk result (λ pass. IsReadTo text.now (state_of pass) 0) }
        ensures root { IfOk result (λ pass. length (tree_of pass).nodes ≡ 1) }
        ensures named { IfOk result (λ pass. AreNamed (names_of (allocs_of pass)) (tree_of pass).nodes) }
        ensures labels { IfOk result (λ pass. HasFirstLabels (allocs_of pass) (tree_of pass).nodes) }
        ensures tables { IfOk result (λ pass. HasWholeTables (names_of (allocs_of pass)) (tree_of pass)) }
        ensures front { IfOk result (λ pass. (front_of pass).is_known ≡ false) }
    {
        // Pages of memory that are never reached cost nothing. `reserve_for_rest` makes room for more.
        let expected = (text.len() / BYTES_A_NODE).min(MOST_NODES_AT_FIRST);
        let mut tree = Tree::with_capacity(alloc, max(128, whole_pages(expected)))?;
        let root = tree.root();
        tree.set_end(root, text.len());
        Ok(BlockPass {
            source: Source::new(alloc, text, options),
            state: PassState {
                tree,
                begin_list_item: None,
                blank: false,
            },
            allocs: Allocations::new(alloc),
            metadata_ends: MetadataEnds::new(),
            next_front: NextFront::new(text),
        })
    }

    /// Reads the block in the line at `start_ix`, an offset into the text before its end. Returns the start of the next
    /// unread line, or the end of the text. Closes the open containers that the line does not continue, and opens those
    /// that begin in it.
    ///
    /// If the nodes so far begin a derivation of the text that continues at `start_ix`, the new nodes begin one that
    /// continues at the returned offset. At most four nodes are added for each byte read, not counting inserted cells
    /// of tables.
    ///
    /// If each entry of the definition tables was written in the text, each still is. Its parts are borrowed from the
    /// text if nothing in them changes: the label, the destination and a title of one line of a link definition, and
    /// the label of a footnote (CommonMark 4.7, and this project). If the table of footnotes had copies of the first
    /// labels that the nodes name, it still has.
    ///
    /// If each index in the nodes names an entry and no row of a table is open, whole tables stay whole: rows are only
    /// one level below a table, and cells only two levels below one. Each row has as many cells as its table has
    /// columns, and a table has at most 262,144 inserted cells (GFM 4.10, and this project).
    ///
    /// Afterwards the front of the next unread line may be known.
    #[inline(always)]
    pub fn parse_block(&mut self, start_ix: usize) -> Result<usize, AllocError>
        requires within { start_ix < length (source_text self.old) }
        requires boundary { IsCharBoundary (source_text self.old) start_ix }
        ensures block { IfOk result (λ next. ReadsBlock self.old self.new (1 + start_ix) (LineAt start_ix) next) }
        ensures front { IfOk result (λ next. KnowsNext self.new next) }
    {
        self.next_front.is_known = false;
        let Some(place) = enter_line(&mut self.state, &self.source, start_ix) else {
            return Ok(next_line(self.source.text.as_bytes(), start_ix));
        };
        if begins_no_container(&place.rest) {
            let next = self.parse_leaf(place)?;
            return Ok(next);
        }
        let next = self.parse_containers_apart(place)?;
        Ok(next)
    }

    // Makes room for the nodes, link definitions and heading attributes of the rest of the text, if it is like the part
    // before the offset `read`. Does nothing if nothing is left. If such room is refused, the lists grow when they have
    // to.
    #[inline(never)]
    fn reserve_for_rest(&mut self, read: usize)
        ensures { HasSameParts self.old self.new }
    {
        let whole = self.source.text.len();
        if whole <= read {
            return;
        }
        let sample = Sample {
            read,
            rest: whole - read,
        };
        let count = self.state.tree.node_count();
        let most = MOST_NODES_EXPECTED.min(whole / BYTES_A_NODE);
        let expected = count.saturating_add(sample.expected_more(count)).min(most);
        let more = whole_pages(expected).saturating_sub(count);
        let _ = self.state.tree.reserve(more);
        let _ = self.allocs.reserve_for(sample);
    }

    // Reads the block in the line at `start_ix`, whose front is known. Returns the same as `parse_block`.
    #[inline(never)]
    fn parse_known(&mut self, start_ix: usize) -> Result<usize, AllocError>
        requires within { start_ix < length (source_text self.old) }
        requires boundary { IsCharBoundary (source_text self.old) start_ix }
        requires known { (front_of self.old).is_known ≡ true }
        requires front { KnowsNext self.old start_ix }
        ensures block { IfOk result (λ next. ReadsBlock self.old self.new (1 + start_ix) (LineAt start_ix) next) }
        ensures front { IfOk result (λ next. KnowsNext self.new next) }
    {
        self.next_front.is_known = false;
        let Some(place) = enter_known(&mut self.state, &self.source, start_ix, &self.next_front)
        else {
            return Ok(next_line(self.source.text.as_bytes(), start_ix));
        };
        if begins_no_container(&place.rest) {
            let next = self.parse_leaf(place)?;
            return Ok(next);
        }
        let next = self.parse_containers(place)?;
        Ok(next)
    }

    // Reads the line at `start`, after the tag of the innermost block quote, if it belongs to that quote. Returns the
    // start of the next unread line, like `parse_block`; `start` if the line is read like any other.
    pub(crate) fn parse_tagged(&mut self, start: usize) -> Result<usize, AllocError>
        requires boundary { IsCharBoundary (source_text self.old) start }
        requires no_empty { (state_of self.old).begin_list_item ≡ None }
        requires none { (front_of self.old).is_known ≡ false }
        ensures block { IfOk result (λ next. ReadsBlock self.old self.new start (TaggedAt start) next) }
        ensures front { IfOk result (λ next. KnowsNext self.new next) }
    {
        let bytes = rest_of(self.source.text.as_bytes(), start);
        match scan_flowing_line(&self.source, bytes, &self.state.tree)? {
            None => Ok(start),
            Some(rest) => {
                let next = self.parse_leaf(Place { line: start, rest })?;
                Ok(next)
            }
        }
    }

    // Reads the paragraph at a place after the marker of a task list item; returns the same as `parse_block`.
    pub(crate) fn parse_task_text(
        &mut self,
        place: Place<'a>,
        marker: Item,
    ) -> Result<usize, AllocError>
        requires utf8 { IsUtf8 (source_text self.old) }
        requires place { IsPlaceOf (source_text self.old) place }
        requires after { IsAfterMarker (TaskText marker) (state_of self.old) }
        ensures block { IfOk result (λ next.
            ReadsBlock self.old self.new (line_end place.entry) (TaskAt place.entry marker) next) }
        ensures front { IfOk result (λ next. KnowsNext self.new next) }
    {
        self.source.recall_length();
        let mut place = place;
        scan_indentation(&mut place.rest);
        let next = self.parse_text(place.offset(), &Some(marker))?;
        Ok(next)
    }

    // Reads the leaf block at a place at which no container begins, or in the line after a block quote's tag; returns
    // the same as `parse_block`. Only a text begins with a letter or a byte beyond ASCII, so most texts need neither a
    // search for another leaf block nor a call of `parse_leaf_by_kind`.
    #[inline(always)]
    pub(crate) fn parse_leaf(&mut self, place: Place<'a>) -> Result<usize, AllocError>
        requires { IsAtPlace self.old place }
        ensures block { IfOk result (λ next. ReadsLeaf self.old self.new place.entry next) }
        ensures front { IfOk result (λ next. KnowsNext self.new next) }
    {
        self.source.recall_length();
        self.state.tree.recall_forest();
        if place.rest.is_at_plain() {
            let next = self.parse_text_or_title(place.offset())?;
            return Ok(next);
        }
        let next = self.parse_leaf_by_kind(place)?;
        Ok(next)
    }

    // Does the same as `parse_leaf`, but always searches for the kind of the leaf block.
    pub(crate) fn parse_leaf_by_kind(&mut self, place: Place<'a>) -> Result<usize, AllocError>
        requires { IsAtPlace self.old place }
        ensures block { IfOk result (λ next. ReadsLeaf self.old self.new place.entry next) }
        ensures front { IfOk result (λ next. KnowsNext self.new next) }
    {
        self.source.recall_length();
        let mut following = place.copy();
        let (found, columns) = kind_at(&self.source, &mut following, &mut self.metadata_ends);
        let next = self.parse_kind(place, found, columns, following.offset())?;
        Ok(next)
    }

    // Reads the leaf block that was found at a place; it begins at the offset `at`, after `columns` columns. Returns
    // the same as `parse_block`.
    #[inline(always)]
    fn parse_kind(
        &mut self,
        place: Place<'a>,
        found: BlockStart,
        columns: usize,
        at: usize,
    ) -> Result<usize, AllocError>
        requires here { IsAtPlace self.old place }
        requires found { IsFoundAt (source_options self.old) place found columns at }
        ensures block { IfOk result (λ next. ReadsLeaf self.old self.new place.entry next) }
        ensures front { IfOk result (λ next. KnowsNext self.new next) }
    {
        self.state.tree.recall_forest();
        match found {
            BlockStart::Blank => {
                self.state.read_blank_line();
                Ok(next_line(self.source.text.as_bytes(), at))
            }
            BlockStart::Paragraph => self.parse_definitions_or_text(place, at),
            BlockStart::HtmlToBlank => {
                self.state.finish_list(place.line);
                self.state.tree.recall_forest();
                let next = parse_html_block_type_6_or_7(
                    &self.source,
                    &mut self.state.tree,
                    &mut self.allocs,
                    &HtmlStart { at, columns },
                )?;
                Ok(next)
            }
            BlockStart::Marked(leaf) => {
                self.state.finish_list(place.line);
                let next = self.append_marked(place, leaf, columns, at)?;
                Ok(next)
            }
        }
    }

    // Reads the link reference definitions at a place, whose text begins at the offset `at`, and the paragraph that
    // follows them; or the paragraph that begins there. Returns the same as `parse_block`.
    fn parse_definitions_or_text(
        &mut self,
        place: Place<'a>,
        at: usize,
    ) -> Result<usize, AllocError>
        requires here { IsAtPlace self.old place }
        requires kind { IsKind (source_options self.old) place.rest Paragraph }
        requires at { at ≡ offset (unindented place) }
        ensures block { IfOk result (λ next. ReadsLeaf self.old self.new place.entry next) }
        ensures front { IfOk result (λ next. KnowsNext self.new next) }
    {
        self.state.tree.recall_forest();
        match self.parse_definitions(place.line, at)? {
            RunEnd::NextLine(line, next) => {
                self.state.finish_list(line);
                Ok(next)
            }
            RunEnd::Paragraph(text) => {
                let next = self.parse_text_or_title(text)?;
                Ok(next)
            }
        }
    }

    // Reads the paragraph, heading or table that begins at the offset `text`; right after a definition, a paragraph may
    // be the next title of the definition list. Returns the start of the next unread line, or the end of the text.
    #[inline(always)]
    fn parse_text_or_title(&mut self, text: usize) -> Result<usize, AllocError>
        requires { IsCharBoundary (source_text self.old) text }
        ensures text { IfOk result (λ next. ReadsTextOrTitle self.old self.new text next) }
        ensures front { IfOk result (λ next. KnowsNext self.new next) }
    {
        if self.state.is_after_definition() {
            let next = self.parse_possible_title(text)?;
            return Ok(next);
        }
        self.state.finish_list(text);
        let next = self.parse_text(text, &None)?;
        Ok(next)
    }
}

/// Returns the finished tree of the blocks of a text, and the tables of what the text defines. The block grammar
/// derives the tree from the text's lines under these options, and derives no other: see the law `one_derivation`.
/// Nothing is open in the tree, and no paragraph in it may still become a title. It has at most four nodes for each
/// byte, not counting its root and its inserted cells, which start at their row's end. Each row has as many cells as
/// its table has columns. Each cell starts after the one before it or is an inserted cell, and a table has at most
/// 262,144 inserted cells. Each link definition in the tables is the one that the text has at its range; its label, its
/// destination and its title have ranges in it, in this order. Its label, its destination and a title of one line, and
/// the label of each footnote, are borrowed from the text if nothing in them changes. Each label in the table of
/// footnotes is a copy of the string that the first footnote definition with a matching label names, and is borrowed if
/// that is. Use counts of footnotes are 0. Fails only if an allocation fails.
pub fn run_first_pass<'a>(
    alloc: Global,
    text: &'a str,
    options: Options,
) -> Result<(Tree<Item>, Allocations<'a>), AllocError>
    ensures derived { IfOk result (λ answer. Derives (document text.now options (names_of answer.1)) answer.0.nodes
        (tables_of answer.1)) }
    ensures only { IfOk result (λ answer. IsOnlyDerived text.now options (names_of answer.1) answer.0.nodes
        (tables_of answer.1)) }
    ensures finished { IfOk result (λ answer. answer.0.spine ≡ []) }
    ensures settled { IfOk result (λ answer. AreSettled answer.0.nodes) }
    ensures order { IfOk result (λ answer. IsOrdered text.now answer.0.nodes) }
    ensures node_bound { IfOk result (λ answer.
        length answer.0.nodes ≤ 1 + 4 * length text.now + inserted_cells answer.0.nodes) }
    ensures counted { IfOk result (λ answer. counted_nodes answer.0.nodes ≤ 1 + 4 * length text.now) }
    ensures named { IfOk result (λ answer. AreNamed (names_of answer.1) answer.0.nodes) }
    ensures links { IfOk result (λ answer. AreWritten text.now (refdefs_of answer.1)) }
    ensures footnotes { IfOk result (λ answer. AreFootnotesWritten text.now (footdefs_of answer.1)) }
    ensures labels { IfOk result (λ answer. HasFirstLabels answer.1 answer.0.nodes) }
    ensures tables { IfOk result (λ answer. AreWholeTables (names_of answer.1) answer.0.nodes) }
{
    let mut pass = BlockPass::new(alloc, text, options)?;
    let mut ix = 0;
    // The outer loop runs at most twice: for the sample, and for the rest of the text. In between, room is made for it.
    let mut part_end = sample_end(text.len());
    while ix < part_end {
        while ix < part_end {
            ix = pass.parse_block(ix)?;
            while pass.next_front.is_known && ix < part_end {
                ix = pass.parse_known(ix)?;
            }
            ix = read_blank_lines(&pass.state, &pass.source, ix);
        }
        pass.reserve_for_rest(ix);
        part_end = text.len();
    }
    close_containers(&mut pass.state, 0, text.len());
    let BlockPass {
        source: _,
        state,
        mut allocs,
        metadata_ends: _,
        next_front: _,
    } = pass;
    let PassState { tree, .. } = state;
    allocs.sort_tables()?;
    Ok((tree, allocs))
}

// Returns the end of the sample in a text of this many bytes: of the part at its start by which the rest is judged.
fn sample_end(bytes: usize) -> usize
    ensures within { result ≤ bytes }
    ensures some { result ≤ 0 → bytes ≤ result }
{
    bytes.min(SAMPLE_BYTES)
}

// Returns this many nodes, rounded up to whole large pages from two pages on. If large pages are on, Linux maps such a
// block at the start of one, so none of it has small pages. For fewer nodes these are quicker: most stay untouched.
fn whole_pages(nodes: usize) -> usize
    ensures least { nodes ≤ result }
    ensures most { result < nodes + 43690 }
{
    if nodes < 2 * NODES_A_PAGE {
        return nodes;
    }
    nodes.div_ceil(NODES_A_PAGE).saturating_mul(NODES_A_PAGE)
}
