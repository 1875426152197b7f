//! Metadata blocks.

ghost use Rattle.first_pass_grammar.specs.CodeBlocks.{IsMetadata, metadata_kind};
ghost use Rattle.first_pass_grammar.specs.Leaves.{document};
ghost use Rattle.first_pass_leaves.specs.RawBlocks.{AddsRaw, metadata_after, after_line_at};
ghost use Rattle.first_pass_names.specs.TableEntries.{names_of, NamesMore};
ghost use Rattle.first_pass_open.specs.Path.{path_of};
ghost use Rattle.std.specs.Prelude.{◌≡◌, ◌≤◌, IfOk, OnOk, IsCharBoundary, IsUtf8};

use crate::extent::{JudgesLines, read_lines};
use crate::raw_line::RawKind;
use crate::verdict::Verdict;
use first_pass_items::item::{Item, ItemBody, MetadataBlockKind};
use first_pass_lines::places::{next_line, rest_of};
use first_pass_names::items::Allocations;
use first_pass_open::open_block::{close_block, open_block};
use first_pass_open::source::Source;
use first_pass_scan::line_start::LineStart;
use first_pass_scan::metadata_scan::scan_closing_metadata_block;
use first_pass_tree::forest::Tree;
use std::alloc::AllocError;
use std::ops::Range;

/// Appends the metadata block that begins at the offset `start_ix`, with `metadata_block_ch` as the byte of its
/// marks. Returns the start of the next unread line, or the end of the text. Fails only if an allocation fails.
pub fn parse_metadata_block<'a>(
    source: &Source<'a>,
    tree: &mut Tree<Item>,
    allocs: &mut Allocations<'a>,
    start_ix: usize,
    metadata_block_ch: u8,
) -> Result<usize, AllocError>
    requires boundary { IsCharBoundary source.now.text.now start_ix }
    ensures block { IfOk result (λ next.
        let e = metadata_after source.now.text.now (path_of source.now.options tree.old)
        metadata_block_ch start_ix in
        AddsRaw (document source.now.text.now source.now.options (names_of allocs.new)) (λ d.
        IsMetadata d start_ix metadata_block_ch e.places e.«end») e.left tree.old tree.new next) }
    ensures boundary { IfOk result (λ next. (after_line_at source.now.text.now start_ix ≤ next)
        × IsCharBoundary source.now.text.now next) }
    ensures more { OnOk result (NamesMore allocs.old allocs.new) }
    ensures utf8 { IsUtf8 source.now.text.now }
{
    tree.recall_forest();
    let first = next_line(source.text.as_bytes(), start_ix);
    open_block(
        tree,
        start_ix,
        ItemBody::MetadataBlock(metadata_kind(metadata_block_ch)),
    )?;
    let metadata = Metadata {
        byte: metadata_block_ch,
    };
    let lines = read_lines(&metadata, source, tree, allocs, first)?;
    close_block(tree, lines.end);
    Ok(lines.next)
}

// The kind of a metadata block, by the byte of its marks.
fn metadata_kind(byte: u8) -> MetadataBlockKind
    ensures { result ≡ metadata_kind byte }
{
    if byte < b'-' {
        MetadataBlockKind::PlusesStyle
    } else {
        MetadataBlockKind::YamlStyle
    }
}

// A metadata block whose marks have this byte.
#[derive(Clone, Copy)]
struct Metadata {
    byte: u8,
}

impl JudgesLines for Metadata {
    ghost use Rattle.first_pass_grammar.specs.CodeBlocks.{metadata_judge};
    ghost use Rattle.first_pass_leaves.specs.declared.raw_line.RawKind.TheVariants.{Code};

    ghost judges = { λ metadata. metadata_judge metadata.byte };

    ghost kinds = { λ metadata. Code };

    fn kind(&self) -> RawKind {
        RawKind::Code
    }

    #[inline(always)]
    fn judge(&self, text: &str, line: &Range<usize>, _line_start: &mut LineStart<'_>) -> Verdict {
        match scan_closing_metadata_block(rest_of(text.as_bytes(), line.start), self.byte) {
            Some(size) => Verdict::Closes(line.start + size),
            None => Verdict::GoesOn,
        }
    }
}
