//! The attribute block at the end of a heading's text (this project).

ghost use Rattle.first_pass_attributes.specs.Attributes.{attributes_in, attributes_of, HasSeveral};
ghost use Rattle.first_pass_grammar.specs.Headings.{before_attributes, heading_attributes_of, chain_end as chain_end_of};
ghost use Rattle.first_pass_grammar.specs.Leaves.{document};
ghost use Rattle.first_pass_grammar.specs.Names.{Names, Extends, NamesAttributes, NamesEntry, AttributesAt};
ghost use Rattle.first_pass_items.specs.declared.item.Item.{Item};
ghost use Rattle.first_pass_leaves.specs.CutTexts.{IsLastAndChildless, CutsBlock, CutsChildren, BecomesHeading};
ghost use Rattle.first_pass_lines.specs.Lines.{is_white};
ghost use Rattle.first_pass_names.specs.TableEntries.{names_of, NamesMore};
ghost use Rattle.first_pass_tokens.specs.TreeTokens.{chained};
ghost use Rattle.first_pass_tree.specs.Forest.{Forest, item_at};
ghost use Rattle.std.specs.List.{slice_range, suffix_len};
ghost use Rattle.std.specs.Option.{option_map};
ghost use Rattle.std.specs.Prelude.{◌≡◌, ◌≤◌, ◌+◌, ◌-◌, List, length, take, drop, slice_get, is_some, true, IfOk, IfSome, IfNone, IsSomeAnd, OnOk, OnErr, Some, None, if◌then◌else◌};

use bitflags::Flags;
use first_pass_attributes::attrs::{
    HeadingAttributes, extract_attribute_block_content_from_header_text,
    parse_inside_attribute_block,
};
use first_pass_attributes::words::add_attribute_words;
use first_pass_items::item::{HeadingIndex, HeadingLevel, Item, ItemBody};
use first_pass_items::option_set::Options;
use first_pass_lines::lines::is_white;
use first_pass_lines::places::rest_of;
use first_pass_names::items::Allocations;
use first_pass_open::source::Source;
use first_pass_tree::forest::Tree;
use first_pass_tree::tree_index::TreeIndex;
use std::alloc::AllocError;

/// A text with a setext heading underline.
#[derive(Clone, Copy)]
pub struct Underlined {
    /// The level of its underline.
    pub level: HeadingLevel,
    /// Whether a backslash breaks its last line.
    pub broken: bool,
}

// The text between the braces of an attribute block, and the offset at which it begins in the whole text.
#[derive(Clone, Copy)]
struct BlockText<'a> {
    text: &'a str,
    start: usize,
}

/// Returns the offset at which the content of a heading ends, and the heading's attributes. The heading's text extends
/// from the offset `header_start` to `header_end`; if the end is before the start, it is empty and ends at its start.
/// The content ends at the attribute block, and includes the white space before the block. Without a block, or without
/// the option for heading attributes, returns the end of the heading's text and `None`. Fails only if an allocation
/// fails; that can happen only with more than one class or more than one key (this project).
pub fn extract_and_parse_heading_attribute_block<'a>(
    source: &Source<'a>,
    header_start: usize,
    header_end: usize,
) -> Result<(usize, Option<HeadingAttributes<'a>>), AllocError>
    requires from { header_start ≤ length source.now.text.now }
    requires to { header_end ≤ length source.now.text.now }
    ensures content { IfOk result (λ answer. answer.0 ≡ header_start + length
        (before_attributes source.now.options (slice_range source.now.text.now header_start header_end))) }
    ensures attributes { IfOk result (λ answer. option_map attributes_in answer.1
        ≡ heading_attributes_of source.now.options (slice_range source.now.text.now header_start header_end)) }
    ensures err { OnErr result (IsSomeAnd (heading_attributes_of source.now.options
        (slice_range source.now.text.now header_start header_end)) HasSeveral) }
{
    let (content_end, block) = block_text_between(source, header_start, header_end);
    let Some(block) = block else {
        return Ok((content_end, None));
    };
    let attributes = parse_inside_attribute_block(source.alloc, block.text)?;
    Ok((content_end, attributes))
}

/// Adds the attributes of a heading to `allocs`, if it has an attribute block. Returns the offset at which the
/// content of the heading ends, and the index of the attributes; `None` without a block. The bounds and the content
/// are those of `extract_and_parse_heading_attribute_block`. Fails only if there is a block and an allocation fails
/// (this project).
#[inline(always)]
pub fn name_attributes<'a>(
    source: &Source<'a>,
    allocs: &mut Allocations<'a>,
    header_start: usize,
    header_end: usize,
) -> Result<(usize, Option<HeadingIndex>), AllocError>
    requires from { header_start ≤ length source.now.text.now }
    requires to { header_end ≤ length source.now.text.now }
    ensures more { OnOk result (NamesMore allocs.old allocs.new) }
    ensures content { IfOk result (λ answer. answer.0 ≡ header_start + length
        (before_attributes source.now.options (slice_range source.now.text.now header_start header_end))) }
    ensures named { IfOk result (λ answer. (more : Names) → Extends more (names_of allocs.new)
        → NamesAttributes more answer.1
        (heading_attributes_of source.now.options (slice_range source.now.text.now header_start header_end))) }
    ensures err { OnErr result (is_some (heading_attributes_of source.now.options
        (slice_range source.now.text.now header_start header_end)) ≡ true) }
{
    let (content_end, block) = block_text_between(source, header_start, header_end);
    let Some(block) = block else {
        return Ok((content_end, None));
    };
    // Parsed in place: the result of the call above is large, and would be cleared before it is written.
    let mut attributes = HeadingAttributes::new();
    let ahead = rest_of(source.text.as_bytes(), block.start);
    add_attribute_words(source.alloc, &mut attributes, block.text, ahead)?;
    let index = allocs.allocate_heading(attributes)?;
    Ok((content_end, Some(index)))
}

/// Turns the block `node_ix`, the innermost open node, into a setext heading. It already has the heading's chain.
/// Removes the attribute block from the chain, and adds the attributes to `allocs`. Adds no node. Fails only if an
/// allocation fails (CommonMark 4.3, and this project).
pub fn make_heading<'a>(
    source: &Source<'a>,
    tree: &mut Tree<Item>,
    allocs: &mut Allocations<'a>,
    node_ix: TreeIndex,
    underlined: Underlined,
) -> Result<(), AllocError>
    requires open { slice_get tree.old.spine 0 ≡ Some node_ix }
    requires start { IfSome (item_at tree.old node_ix) (λ x. x.start ≤ length source.now.text.now) }
    ensures more { OnOk result (NamesMore allocs.old allocs.new) }
    ensures heading { OnOk result (
        BecomesHeading (document source.now.text.now source.now.options (names_of allocs.new)) underlined.level
        underlined.broken node_ix
        tree.old tree.new) }
    ensures node_bound { OnOk result (length tree.new.nodes ≤ length tree.old.nodes) }
{
    tree.recall_forest();
    let start = tree[node_ix].start;
    let index = cut_attributes(source, tree, allocs, start, underlined.broken)?;
    tree.recall_forest();
    tree.set_body(node_ix, ItemBody::Heading(underlined.level, index));
    Ok(())
}

// Returns the offset at which the content of a heading ends, and the text of its attribute block. The heading's text
// extends from the offset `header_start` to `header_end`; if the end is before the start, it is empty and ends at its
// start. Without a block, or without the option for heading attributes, returns the end of the heading's text and
// `None` (this project).
#[inline(always)]
fn block_text_between<'a>(
    source: &Source<'a>,
    header_start: usize,
    header_end: usize,
) -> (usize, Option<BlockText<'a>>)
    requires from { header_start ≤ length source.now.text.now }
    requires to { header_end ≤ length source.now.text.now }
    ensures content { result.0 ≡ header_start + length
        (before_attributes source.now.options (slice_range source.now.text.now header_start header_end)) }
    ensures none { IfNone result.1 (heading_attributes_of source.now.options
        (slice_range source.now.text.now header_start header_end) ≡ None) }
    ensures some { IfSome result.1 (λ block. heading_attributes_of source.now.options
        (slice_range source.now.text.now header_start header_end) ≡ Some (attributes_of block.text.now)) }
    ensures place { IfSome result.1 (λ block. (block.start ≤ length source.now.text.now)
        × (block.text.now ≡ take (length block.text.now) (drop block.start source.now.text.now))) }
{
    if header_end <= header_start {
        return (header_start, None);
    }
    if !source.options.contains(Options::ENABLE_HEADING_ATTRIBUTES) {
        return (header_end, None);
    }
    let heading = &source.text.as_bytes()[header_start..header_end];
    let (length, inside) = extract_attribute_block_content_from_header_text(heading);
    let content_end = header_start + length;
    match inside {
        None => (content_end, None),
        Some(inside) => {
            let start = header_start + inside.start;
            let text = &source.text[start..header_start + inside.end];
            (content_end, Some(BlockText { text, start }))
        }
    }
}

// The end of the chain in the innermost open node; `start`, the offset at which its text begins, if the chain has no
// token.
fn chain_end(tree: &Tree<Item>, start: usize) -> usize
    ensures { (f : Forest Item) → (chain : List Item) → IsLastAndChildless f → tree.now ≡ chained f chain
        → result ≡ chain_end_of start chain }
{
    tree.recall_forest();
    match tree.cur() {
        None => start,
        Some(last) => tree[last].end,
    }
}

// The number of white space bytes at the end. Line endings are none; `trailing_white` counts them too.
fn trailing_white_no_nl(bytes: &[u8]) -> usize
    ensures value { result ≡ suffix_len is_white bytes.now }
    ensures within { result ≤ length bytes.now }
{
    bytes.iter().rev().take_while(|b| is_white(**b)).count()
}

// The number of bytes of white space before the attribute block of a setext heading that are cut off with it; 0 if a
// backslash breaks the last line of the heading's text.
fn white_at_cut(content: &[u8], broken: bool) -> usize
    ensures value { result ≡ (if broken then 0 else suffix_len is_white content.now) }
    ensures within { result ≤ length content.now }
{
    if broken {
        0
    } else {
        trailing_white_no_nl(content)
    }
}

// Removes the attribute block of a setext heading from the end of its chain, which is in the innermost open node. The
// heading's text begins at the offset `start`. The white space before the block is removed too, unless a backslash
// breaks the last line of the text (`broken`). Adds the attributes to `allocs`, and returns their index; `None` if
// there is no block. Adds no node. Fails only if an allocation fails (CommonMark 4.3, and this project).
#[inline(never)]
fn cut_attributes<'a>(
    source: &Source<'a>,
    tree: &mut Tree<Item>,
    allocs: &mut Allocations<'a>,
    start: usize,
    broken: bool,
) -> Result<Option<HeadingIndex>, AllocError>
    requires within { start ≤ length source.now.text.now }
    ensures more { OnOk result (NamesMore allocs.old allocs.new) }
    ensures cut { IfOk result (λ index.
        CutsBlock (document source.now.text.now source.now.options (names_of allocs.new)) start broken tree.old
        tree.new index) }
    ensures children { OnOk result (CutsChildren source.now.text.now start tree.old tree.new) }
    ensures entry { IfOk result (λ index. NamesEntry (names_of allocs.new) (option_map AttributesAt index)) }
    ensures open { OnOk result (tree.new.spine ≡ tree.old.spine) }
    ensures node_bound { OnOk result (length tree.new.nodes ≤ length tree.old.nodes) }
{
    // The end is before `start` if a task list item marker is the only child. No token ends after the whole text.
    let end = chain_end(tree, start).min(source.text.len());
    let (content_end, index) = name_attributes(source, allocs, start, end)?;
    if index.is_some() {
        let content = &source.text.as_bytes()[start..content_end];
        tree.truncate_siblings(content_end - white_at_cut(content, broken));
    }
    Ok(index)
}
