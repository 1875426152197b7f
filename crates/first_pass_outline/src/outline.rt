//! The outline of a tree, and of a text.

ghost use Rattle.first_pass_grammar.specs.Names.{AttributesAt, named, read, read_nodes};
ghost use Rattle.first_pass_names.specs.TableEntries.{names_of};
ghost use Rattle.first_pass_outline.specs.Entries.{entry_in};
ghost use Rattle.first_pass_outline.specs.Outline.{entry_of, id_in, outline_of};
ghost use Rattle.first_pass_outline.specs.TextOutline.{IsOnlyOutline, IsOutline, LieBetween};
ghost use Rattle.std.specs.Option.{option_map, option_and_then};
ghost use Rattle.std.specs.Prelude.{◌≡◌, IfOk, length, map};

use first_pass_blocks::pass::run_first_pass;
use first_pass_items::item::{HeadingIndex, HeadingLevel, Item, ItemBody};
use first_pass_items::option_set::Options;
use first_pass_names::items::Allocations;
use first_pass_tree::forest::Tree;
use std::alloc::{AllocError, Global};
use std::ops::Range;

/// An entry of an outline: a heading, with its level, its id if its attributes have one, and its range in bytes of the
/// text. The id is borrowed from the text.
#[derive(Drop)]
pub struct OutlineEntry<'a> {
    pub level: HeadingLevel,
    pub id: Option<&'a str>,
    pub range: Range<usize>,
}

/// Returns the outline of a tree: an entry for each heading, at any depth, in reading order. A heading has no id if it
/// has no attributes, if these have no id, or if `allocs` has no entry for its index. Fails only if an allocation
/// fails.
pub fn outline<'a>(
    alloc: Global,
    tree: &Tree<Item>,
    allocs: &Allocations<'a>,
) -> Result<Vec<OutlineEntry<'a>>, AllocError>
    ensures { IfOk result (λ entries. map entry_in entries.items
        ≡ outline_of (read_nodes (names_of allocs.now) tree.now.nodes)) }
{
    let mut entries = Vec::new(alloc);
    for node in tree.nodes() {
        if let Some(entry) = entry_of(node.1, allocs) {
            entries.push(entry)?;
        }
    }
    Ok(entries)
}

/// Returns the outline of a text under options. It is that of the only tree that the block grammar derives from the
/// text, up to the numbering of indices. The entries lie one after the other, and both ends of each are character
/// boundaries. Fails only if an allocation fails.
pub fn outline_text<'a>(
    alloc: Global,
    text: &'a str,
    options: Options,
) -> Result<Vec<OutlineEntry<'a>>, AllocError>
    ensures derived { IfOk result (λ entries. IsOutline options text.now (map entry_in entries.items)) }
    ensures only { IfOk result (λ entries. IsOnlyOutline options text.now (map entry_in entries.items)) }
    ensures order { IfOk result (λ entries.
        LieBetween text.now 0 (length text.now) (map entry_in entries.items)) }
{
    let (tree, allocs) = run_first_pass(alloc, text, options)?;
    let entries = outline(alloc, &tree, &allocs)?;
    Ok(entries)
}

// The entry of a node, if it is a heading.
pub(crate) fn entry_of<'a>(item: Item, allocs: &Allocations<'a>) -> Option<OutlineEntry<'a>>
    ensures { option_map entry_in result ≡ entry_of (read (names_of allocs.now) item) }
{
    match item.body {
        ItemBody::Heading(level, index) => Some(OutlineEntry {
            level,
            id: id_of(index, allocs),
            range: item.start..item.end,
        }),
        _ => None,
    }
}

// The id of a heading, if its index names attributes with an id.
fn id_of<'a>(index: Option<HeadingIndex>, allocs: &Allocations<'a>) -> Option<&'a str>
    ensures { option_map (λ id. id.now) result
        ≡ option_and_then id_in (option_and_then (named (names_of allocs.now)) (option_map AttributesAt index)) }
{
    allocs.attributes_at(index?)?.id
}
