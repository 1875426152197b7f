//! The headings of a tree with their texts, nested by their levels.

ghost use Rattle.first_pass_names.specs.TableEntries.{names_of};
ghost use Rattle.first_pass_outline.specs.ContentsLines.{open_at_end};
ghost use Rattle.first_pass_outline.specs.ContentsViews.{AddsEntry, AddsNode, around_count, placed_in, with_level};
ghost use Rattle.first_pass_outline.specs.Entries.{entry_in};
ghost use Rattle.first_pass_outline.specs.EntryTexts.{is_unwritten, link_of};
ghost use Rattle.first_pass_outline.specs.Nesting.{contents};
ghost use Rattle.first_pass_outline.specs.Titles.{title_of, titles};
ghost use Rattle.std.specs.Option.{option_map};
ghost use Rattle.std.specs.Prelude.{◌≡◌, ◌≤◌, [], false, length, map, IfOk, OnOk};

use crate::entry_text::link_to;
use crate::outline::{OutlineEntry, entry_of};
use crate::titles::{heading_text, nodes_below};
use first_pass_host::tree_report::Parsed;
use first_pass_items::item::Item;
use first_pass_lines::lines::{level_number, scan_blank_line};
use std::alloc::{AllocError, Global};

/// A heading in a table of contents.
#[derive(Drop)]
pub struct ContentsEntry<'a> {
    pub heading: OutlineEntry<'a>,
    /// Its text (see `heading_text`).
    pub text: Vec<u8>,
    /// The number of headings around it: its parent, the parent of that, and so on.
    pub depth: usize,
    /// The number of headings that are open before it: the heading before it, and those around that.
    pub open_before: usize,
    /// Whether the entry before it has a text.
    pub follows_text: bool,
}

/// Returns the id of an entry's heading, if the entry is a link to it in a Markdown list.
pub fn link_of<'a>(entry: &ContentsEntry<'a>) -> Option<&'a str>
    ensures { option_map (λ id. id.now) result ≡ link_of (placed_in entry.now).title }
{
    link_to(entry.heading.id, entry.text.as_slice())
}

/// Returns whether nothing is written for the text of an entry in a Markdown list: it is blank, and no link.
pub fn is_unwritten(entry: &ContentsEntry<'_>) -> bool
    ensures { result ≡ is_unwritten (placed_in entry.now).title }
{
    link_of(entry).is_none() && scan_blank_line(entry.text.as_slice()).is_some()
}

/// The entries of a table of contents.
#[derive(Drop)]
pub struct Contents<'a> {
    entries: Vec<ContentsEntry<'a>>,
    // The levels of the open headings, the outermost first: of the last heading, and of those around it.
    levels: Vec<usize>,
    // Whether the last entry has a text.
    has_text: bool,
}

impl<'a> Contents<'a> {
    // No entries.
    fn new(alloc: Global) -> Self
        ensures entries { result.entries.items ≡ [] }
        ensures levels { result.levels.items ≡ [] }
        ensures has_text { result.has_text ≡ false }
    {
        Contents {
            entries: Vec::new(alloc),
            levels: Vec::new(alloc),
            has_text: false,
        }
    }

    /// Returns the entries, in the order of the headings.
    pub fn entries(&self) -> &[ContentsEntry<'a>]
        ensures { result.now ≡ self.now.entries.items }
    {
        self.entries.as_slice()
    }

    /// Returns the number of headings that are open at the end: the last one, and those around it.
    pub fn open_count(&self) -> usize
        ensures { result ≡ length self.now.levels.items }
    {
        self.levels.len()
    }

    // Adds the entry of a node, if it is a heading. `others` are the nodes after it.
    fn push_node(
        &mut self,
        parsed: &Parsed<'a>,
        node: (usize, Item),
        others: &[(usize, Item)],
    ) -> Result<(), AllocError>
        ensures { OnOk result (AddsNode self.old self.new
            (title_of parsed.now.text.now (names_of parsed.now.allocs) node others.now)) }
    {
        let Some(heading) = entry_of(node.1, &parsed.allocs) else {
            return Ok(());
        };
        let tokens = nodes_below(node.0, others);
        let text = heading_text(parsed.alloc, parsed.text.as_bytes(), tokens)?;
        self.push(heading, text)
    }

    // Adds the entry of a heading.
    fn push(&mut self, heading: OutlineEntry<'a>, text: Vec<u8>) -> Result<(), AllocError>
        ensures { OnOk result (AddsEntry self.old self.new
            (record { entry = entry_in heading.entry; text = text.items })) }
    {
        let open_before = self.levels.len();
        let depth = enter(&mut self.levels, level_number(heading.level))?;
        let entry = ContentsEntry {
            heading,
            text,
            depth,
            open_before,
            follows_text: self.has_text,
        };
        self.has_text = !is_unwritten(&entry);
        self.entries.push(entry)?;
        Ok(())
    }
}

// Replaces the levels of the open headings by those after a heading of this level. Returns the number of headings
// around it.
fn enter(levels: &mut Vec<usize>, level: usize) -> Result<usize, AllocError>
    ensures depth { IfOk result (λ depth. depth ≡ around_count levels.old.items level) }
    ensures levels { OnOk result (levels.new.items ≡ with_level levels.old.items level) }
{
    let depth = around_count(levels.as_slice(), level);
    levels.truncate(depth);
    levels.push(level)?;
    Ok(depth)
}

// The number of headings around one of this level, given the levels of the open headings, the outermost first.
fn around_count(levels: &[usize], level: usize) -> usize
    ensures value { result ≡ around_count levels.now level }
    ensures within { result ≤ length levels.now }
{
    levels.iter().take_while(|outer| **outer < level).count()
}

/// Returns the entries of the table of contents of a tree: its headings at any depth, in reading order, each with its
/// text and its place. A heading is a child of the last one before it that has a smaller level. Fails only if an
/// allocation fails.
pub fn contents_of<'a>(parsed: &Parsed<'a>) -> Result<Contents<'a>, AllocError>
    ensures entries { IfOk result (λ all. map placed_in all.entries.items
        ≡ contents (titles parsed.now.text.now (names_of parsed.now.allocs) parsed.now.tree.nodes)) }
    ensures at_end { IfOk result (λ all. length all.levels.items ≡ open_at_end 0
        (contents (titles parsed.now.text.now (names_of parsed.now.allocs) parsed.now.tree.nodes))) }
{
    let mut all = Contents::new(parsed.alloc);
    let mut rest = parsed.tree.nodes();
    while let Some((node, others)) = rest.split_first() {
        all.push_node(parsed, *node, others)?;
        rest = others;
    }
    Ok(all)
}
