//! Fenced code blocks (CommonMark 4.5).

ghost use Rattle.first_pass_grammar.specs.CodeBlocks.{info_string, closing_fence_end, IsFencedCode};
ghost use Rattle.first_pass_grammar.specs.Leaves.{document};
ghost use Rattle.first_pass_leaves.specs.RawBlocks.{AddsRaw, fenced_after, after_line_at, is_unmarked};
ghost use Rattle.first_pass_lines.specs.Lanes.{IsRunIn};
ghost use Rattle.first_pass_lines.specs.Places.{place_at, IsPlaceOf};
ghost use Rattle.first_pass_names.specs.TableEntries.{names_of, NamesMore};
ghost use Rattle.first_pass_open.specs.Path.{path_of};
ghost use Rattle.first_pass_scan.specs.LeafLines.{code_fence};
ghost use Rattle.std.specs.List.{prefix_len};
ghost use Rattle.std.specs.Prelude.{◌≡◌, ◌≤◌, ◌+◌, ℕ, length, drop, true, None, Some, IfOk, OnOk, IsCharBoundary, IsUtf8};

use crate::extent::{JudgesLines, read_lines};
use crate::raw_line::RawKind;
use crate::verdict::Verdict;
use first_pass_items::item::{Item, ItemBody};
use first_pass_lines::lanes::{LANES, first_set};
use first_pass_lines::lines::{scan_whitespace_no_nl, trailing_white};
use first_pass_lines::places::{next_line, rest_of};
use first_pass_links::escape::unescape;
use first_pass_names::items::Allocations;
use first_pass_open::open_block::{close_block, open_block};
use first_pass_open::source::Source;
use first_pass_scan::leaf_scan::scan_closing_code_fence;
use first_pass_scan::line_start::LineStart;
use first_pass_tree::forest::Tree;
use memchr::memrchr;
use std::alloc::AllocError;
use std::ops::Range;
use std::simd::prelude::*;

/// A code fence that opens a block: the columns before it, its byte, and its length in bytes.
#[derive(Clone, Copy)]
pub struct Fence {
    pub indent: usize,
    pub byte: u8,
    pub count: usize,
}

impl JudgesLines for Fence {
    ghost use Rattle.first_pass_grammar.specs.CodeBlocks.{fence_judge};
    ghost use Rattle.first_pass_leaves.specs.declared.raw_line.RawKind.TheVariants.{Code};

    ghost judges = { λ fence. fence_judge fence.indent fence.byte fence.count };

    ghost kinds = { λ fence. Code };

    fn kind(&self) -> RawKind {
        RawKind::Code
    }

    // The whole lines before the first that has the fence's byte or a `\r`. Finds none if columns are removed from each
    // line, or if the fence has no bytes, since a blank line would close it.
    fn whole_lines(&self, text: &[u8], start: usize) -> usize {
        if self.indent != 0 || self.count == 0 {
            return start;
        }
        let rest = rest_of(text, start);
        match memrchr(b'\n', &rest[..unmarked_len(rest, self.byte)]) {
            Some(at) => start + at + 1,
            None => start,
        }
    }

    #[inline(always)]
    fn judge(&self, text: &str, line: &Range<usize>, line_start: &mut LineStart<'_>) -> Verdict {
        if let Some(end) = closing_fence(text, line.start, line_start.copy(), *self) {
            return Verdict::Closes(end);
        }
        line_start.scan_space_upto(self.indent);
        Verdict::GoesOn
    }
}

/// Appends the fenced code block whose fence begins at the offset `start_ix`. Returns the start of the next unread
/// line, or the end of the text (CommonMark 4.5). Fails only if an allocation fails.
// A call of its own, so that the code for other blocks keeps its registers.
#[inline(never)]
pub fn parse_fenced_code_block<'a>(
    source: &Source<'a>,
    tree: &mut Tree<Item>,
    allocs: &mut Allocations<'a>,
    start_ix: usize,
    fence: &Fence,
) -> Result<usize, AllocError>
    requires boundary { IsCharBoundary source.now.text.now start_ix }
    requires fence { code_fence (drop start_ix source.now.text.now) ≡ Some (fence.now.count, fence.now.byte) }
    ensures block { IfOk result (λ next.
        let e = fenced_after source.now.text.now (path_of source.now.options tree.old)
        fence.now.indent fence.now.byte fence.now.count start_ix in
        AddsRaw (document source.now.text.now source.now.options (names_of allocs.new)) (λ d.
        IsFencedCode d start_ix fence.now.count e.places e.«end») e.left tree.old tree.new next) }
    ensures boundary { IfOk result (λ next. (after_line_at source.now.text.now start_ix ≤ next)
        × IsCharBoundary source.now.text.now next) }
    ensures more { OnOk result (NamesMore allocs.old allocs.new) }
    ensures utf8 { IsUtf8 source.now.text.now }
{
    tree.recall_forest();
    let bytes = source.text.as_bytes();
    let info = unescape(
        source.alloc,
        info_string(source.text, start_ix + fence.count),
        false,
    )?;
    let info_ix = allocs.allocate_cow(info)?;
    open_block(tree, start_ix, ItemBody::FencedCodeBlock(info_ix))?;
    let first = next_line(bytes, start_ix);
    let lines = read_lines(fence, source, tree, allocs, first)?;
    close_block(tree, lines.end);
    Ok(lines.next)
}

// The info string after a code fence that ends at the offset `start`: the rest of the line without the white space at
// both ends.
fn info_string(text: &str, start: usize) -> &str
    requires boundary { IsCharBoundary text.now start }
    ensures { result.now ≡ info_string (drop start text.now) }
{
    let bytes = text.as_bytes();
    let from = start + scan_whitespace_no_nl(rest_of(bytes, start));
    let next = next_line(bytes, from);
    &text[from..next - trailing_white(&bytes[from..next])]
}

// Whether the line begins with another byte than a fence or its indentation does. Then it is no closing fence. The
// count is tested because a blank line would close a fence of no bytes.
#[inline(always)]
fn begins_otherwise(line_start: &LineStart<'_>, fence: Fence) -> bool
    ensures { result ≡ true → (start : ℕ)
        → closing_fence_end fence.byte fence.count (place_at start line_start.now) ≡ None }
{
    match line_start.left() {
        [first, ..] => *first != fence.byte && 0 < fence.count && line_start.has_no_column(),
        [] => false,
    }
}

// The number of bytes before the first that is the byte of the fence or `\r`. They are read 16 at a time: most code is
// short, and `memchr2` has a higher cost to start.
fn unmarked_len(bytes: &[u8], fence_byte: u8) -> usize
    ensures value { result ≡ prefix_len (is_unmarked fence_byte) bytes.now }
    ensures within { result ≤ length bytes.now }
{
    let mut from = 0;
    while bytes.len() - from >= LANES {
        let run = unmarked_run(bytes, from, fence_byte);
        from += run;
        if run < LANES {
            return from;
        }
    }
    from + short_unmarked_len(&bytes[from..], fence_byte)
}

// The number of bytes before the byte of the fence or a `\r` among the 16 bytes from the offset `at` on, or 16.
#[inline(always)]
fn unmarked_run(bytes: &[u8], at: usize, fence_byte: u8) -> usize
    requires { at + 16 ≤ length bytes.now }
    ensures { IsRunIn (is_unmarked fence_byte) bytes.now at 16 result }
{
    let lanes = u8x16::from_slice(&bytes[at..]);
    let marks = lanes.simd_eq(u8x16::splat(fence_byte)) | lanes.simd_eq(u8x16::splat(b'\r'));
    first_set(marks.to_bitmask())
}

// The same as `unmarked_len`, one byte at a time, for the last bytes of a text.
#[inline(never)]
fn short_unmarked_len(bytes: &[u8], fence_byte: u8) -> usize
    ensures value { result ≡ prefix_len (is_unmarked fence_byte) bytes.now }
    ensures within { result ≤ length bytes.now }
{
    bytes
        .iter()
        .take_while(|b| **b != fence_byte && **b != b'\r')
        .count()
}

// The end of the closing fence in the rest of a line of the text, if there is one; `start` is the start of the line.
fn closing_fence(text: &str, start: usize, line_start: LineStart<'_>, fence: Fence) -> Option<usize>
    requires place { IsPlaceOf text.now (place_at start line_start) }
    ensures { result ≡ closing_fence_end fence.byte fence.count (place_at start line_start.entry) }
{
    if begins_otherwise(&line_start, fence) {
        return None;
    }
    let bytes = text.as_bytes();
    let mut line_start = line_start;
    if line_start.scan_space(4) {
        return None;
    }
    let at = start + line_start.bytes_scanned();
    let size = scan_closing_code_fence(rest_of(bytes, at), fence.byte, fence.count)?;
    Some(at + size)
}
