//! Runs of link reference definitions (CommonMark 4.7).

ghost use Rattle.first_pass_blocks.specs.Runs.{ReadsDefinitions};
ghost use Rattle.first_pass_blocks.specs.Views.{source_text};
ghost use Rattle.first_pass_grammar.specs.Containers.{front};
ghost use Rattle.first_pass_grammar.specs.Kinds.{all_taken, is_ordinary_after_tag, is_blank_rest};
ghost use Rattle.first_pass_kinds.specs.Memory.{line_may_head_table};
ghost use Rattle.first_pass_lines.specs.Places.{line_rest};
ghost use Rattle.first_pass_open.specs.Path.{context_of};
ghost use Rattle.std.specs.Prelude.{◌≡◌, ◌||◌, IfOk, OnErr, Some, None, IsUtf8, IsCharBoundary, true, if◌then◌else◌};

use crate::state::BlockPass;
use first_pass_definitions::reference::parse_refdef_total;
use first_pass_items::item::Item;
use first_pass_kinds::interrupt::scan_flowing_line;
use first_pass_lines::lines::{begins, scan_blank_line};
use first_pass_lines::places::{next_line, rest_of};
use first_pass_open::source::Source;
use first_pass_scan::line_start::LineStart;
use first_pass_tree::forest::Tree;
use std::alloc::AllocError;

/// What follows a run of link reference definitions.
#[derive(Clone, Copy)]
pub(crate) enum RunEnd {
    /// A line that is not part of the run: the start of the last definition's line, and the start of the next line.
    NextLine(usize, usize),
    /// The text of a paragraph, which begins at an offset.
    Paragraph(usize),
}

/// Returns the rest of the first line of `bytes` (the rest of the text), after the prefixes of the containers that it
/// continues and after its indentation. The line may continue a run of link reference definitions, and any number of
/// open containers. Returns `None` if it ends the run: if its rest is blank, as at the end of the text, or if it would
/// interrupt a paragraph at fewer than four columns (as in `is_ordinary_after_tag`). Fails only if an allocation fails,
/// which can happen only if the line may head a table (CommonMark 4.7, 4.8, 5.1).
pub fn scan_next_line_or_lazy_continuation<'input>(
    source: &Source<'_>,
    bytes: &'input [u8],
    tree: &Tree<Item>,
) -> Result<Option<LineStart<'input>>, AllocError>
    ensures value { IfOk result (λ rest. let around = context_of source.now.options tree.now in
        let line = front around.path (line_rest bytes.now) in
        rest ≡ (if is_ordinary_after_tag around (line_rest bytes.now) || is_blank_rest (all_taken line)
        then None
        else Some (all_taken line))) }
    ensures err { OnErr result (line_may_head_table (context_of source.now.options tree.now)
        (line_rest bytes.now) ≡ true) }
{
    let line = scan_flowing_line(source, bytes, tree)?;
    let Some(rest) = line else {
        return Ok(None);
    };
    if scan_blank_line(rest.left()).is_some() {
        return Ok(None);
    }
    Ok(Some(rest))
}

impl<'a> BlockPass<'a> {
    // Reads all link reference definitions from the offset `at` on, in the line at `line`, and puts them into the
    // table beside the tree.
    #[inline(always)]
    pub(crate) fn parse_definitions(&mut self, line: usize, at: usize) -> Result<RunEnd, AllocError>
        requires utf8 { IsUtf8 (source_text self.old) }
        requires boundary { IsCharBoundary (source_text self.old) at }
        ensures { IfOk result (λ following. ReadsDefinitions self.old self.new line at following) }
    {
        self.source.recall_length();
        // No definition begins with another byte than `[`, so most paragraphs need no call.
        if !begins(b'[', rest_of(self.source.text.as_bytes(), at)) {
            return Ok(RunEnd::Paragraph(at));
        }
        self.parse_run(line, at)
    }

    // The same as `parse_definitions`, for any first byte.
    fn parse_run(&mut self, line: usize, at: usize) -> Result<RunEnd, AllocError>
        requires utf8 { IsUtf8 (source_text self.old) }
        requires boundary { IsCharBoundary (source_text self.old) at }
        ensures { IfOk result (λ following. ReadsDefinitions self.old self.new line at following) }
    {
        self.source.recall_length();
        let mut line = line;
        let mut at = at;
        while let Some((size, label, definition)) = parse_refdef_total(
            &self.source,
            &self.state.tree,
            at,
        )? {
            self.allocs.define_link(label, definition)?;
            let bytes = self.source.text.as_bytes();
            let next = next_line(bytes, at + size);
            let rest = scan_next_line_or_lazy_continuation(
                &self.source,
                rest_of(bytes, next),
                &self.state.tree,
            )?;
            let Some(rest) = rest else {
                return Ok(RunEnd::NextLine(line, next));
            };
            line = next;
            at = next + rest.bytes_scanned();
        }
        Ok(RunEnd::Paragraph(at))
    }
}
