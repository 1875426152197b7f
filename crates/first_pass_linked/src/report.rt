//! The lines of the links of a text.

ghost use Rattle.first_pass_content.specs.Chains.{AreChains};
ghost use Rattle.first_pass_host.specs.Streams.{WritesText, stream_between};
ghost use Rattle.first_pass_linked.specs.Forms.{footnote_line};
ghost use Rattle.first_pass_linked.specs.LinkLines.{AddsFirst, AreNodeLines, source_in, source_of};
ghost use Rattle.first_pass_names.specs.TableEntries.{link_entry, names_of, refdefs_of, tables_of};
ghost use Rattle.std.specs.List.{flat_map};
ghost use Rattle.std.specs.Prelude.{◌≡◌, ◌++◌, ℕ, List, IsUtf8, OnOk, drop, map};

use crate::definitions::Definitions;
use crate::form::LineForm;
use crate::lines::{LineSource, append_marks};
use first_pass_host::fault::RunFault;
use first_pass_host::output::write_each;
use first_pass_host::report::Subject;
use first_pass_inline::inlines::{InlineMarks, has_chain, inline_marks, tokens_below};
use first_pass_inline::labels::Labels;
use first_pass_items::item::{Item, ItemBody};
use first_pass_names::items::Allocations;
use first_pass_tree::forest::Tree;
use std::alloc::{AllocError, Global};
use std::io::Write;

/// Writes the lines of the links of a text, in a form of lines: one for each link definition, in the byte order of
/// their folded labels; then, in reading order, one for each footnote definition, link, image, autolink, footnote
/// reference and undefined reference. `tree` and `allocs` are what the first pass returns for the text under its
/// options. Returns `OutOfMemory` if an allocation fails, and `WriteFailed` if a write fails; a beginning of the lines
/// may be written then.
pub fn write_links<F: LineForm, W: Write>(
    form: &F,
    subject: Subject<'_>,
    tree: &Tree<Item>,
    allocs: &Allocations<'_>,
    output: &mut W,
) -> Result<(), RunFault>
    requires { AreChains subject.text.now tree.now.nodes }
    ensures { (found : List ℕ)
        → AreNodeLines (source_in (F.forms form.now) subject.entry.text.now subject.entry.options allocs.now)
        tree.now.nodes found
        → WritesText (flat_map (F.forms form.now).definition (tables_of allocs.now).links ++ found)
        (stream_between (W.contents output.old) (W.contents output.new)) result }
{
    let labels = Labels::of(
        subject.alloc,
        allocs.refdefs(),
        allocs.footdefs(),
        subject.options,
    )?;
    let definitions = Definitions::of(subject.alloc, allocs.refdefs())?;
    let source = TextSource {
        alloc: subject.alloc,
        text: subject.text,
        allocs,
        labels: &labels,
        definitions: &definitions,
    };
    write_lines(form, &source, tree.nodes(), output)
}

// What the lines of a text are made of: its tables, what its labels name, and its link definitions.
#[derive(Clone, Copy)]
struct TextSource<'s, 't, 'a> {
    alloc: Global,
    text: &'s str,
    allocs: &'t Allocations<'a>,
    labels: &'s Labels<'t, 'a>,
    definitions: &'s Definitions<'t, 'a>,
}

// Writes the lines of the link definitions of a text, and then those of its nodes.
fn write_lines<F: LineForm, W: Write>(
    form: &F,
    source: &TextSource<'_, '_, '_>,
    nodes: &[(usize, Item)],
    output: &mut W,
) -> Result<(), RunFault>
    requires utf8 { IsUtf8 source.now.text.now }
    requires chains { AreChains source.now.text.now nodes.now }
    requires labels { source.now.labels.now.definitions ≡ refdefs_of source.now.allocs.now }
    requires links { source.now.definitions.now ≡ map link_entry source.now.labels.now.definitions }
    ensures { (found : List ℕ) → AreNodeLines (source_of (F.forms form.now) source.now) nodes.now found
        → WritesText (flat_map (F.forms form.now).definition (tables_of source.now.allocs.now).links ++ found)
        (stream_between (W.contents output.old) (W.contents output.new)) result }
{
    write_each(
        source.alloc,
        source.allocs.refdefs().iter(),
        |line, (label, link)| form.append_definition(line, label, link),
        output,
    )?;
    write_each(
        source.alloc,
        0..nodes.len(),
        |line, first| append_node(line, form, source, nodes, first),
        output,
    )
}

// Appends the lines of the node with an index: that of a footnote definition, or those of the links of its chain.
fn append_node<F: LineForm>(
    line: &mut Vec<u8>,
    form: &F,
    source: &TextSource<'_, '_, '_>,
    nodes: &[(usize, Item)],
    index: usize,
) -> Result<(), AllocError>
    requires utf8 { IsUtf8 source.now.text.now }
    requires chains { AreChains source.now.text.now nodes.now }
    requires links { source.now.definitions.now ≡ map link_entry source.now.labels.now.definitions }
    ensures { OnOk result (AddsFirst (source_of (F.forms form.now) source.now) (drop index nodes.now)
        line.old.items line.new.items) }
{
    append_block(line, form, source, nodes_from(nodes, index))
}

// The nodes from an index on.
fn nodes_from(nodes: &[(usize, Item)], first: usize) -> &[(usize, Item)]
    ensures { result.now ≡ drop first nodes.now }
{
    nodes.get(first..).unwrap_or(&[])
}

// Appends the lines of the first of these nodes.
fn append_block<F: LineForm>(
    line: &mut Vec<u8>,
    form: &F,
    source: &TextSource<'_, '_, '_>,
    nodes: &[(usize, Item)],
) -> Result<(), AllocError>
    requires utf8 { IsUtf8 source.now.text.now }
    requires chains { AreChains source.now.text.now nodes.now }
    requires links { source.now.definitions.now ≡ map link_entry source.now.labels.now.definitions }
    ensures { OnOk result
        (AddsFirst (source_of (F.forms form.now) source.now) nodes.now line.old.items line.new.items) }
{
    let Some((node, following)) = nodes.split_first() else {
        return Ok(());
    };
    append_note(line, form, node.1, source.allocs)?;
    if !has_chain(node.1.body) {
        return Ok(());
    }
    let tokens = tokens_below(node.0, following);
    let InlineMarks { content, marks } = inline_marks(
        source.alloc,
        source.text,
        tokens,
        source.labels,
    )?;
    let chain = LineSource {
        alloc: source.alloc,
        content: &content,
        definitions: source.definitions,
    };
    append_marks(line, form, &chain, marks.as_slice())
}

// Appends the line of a node, if it is a footnote definition.
fn append_note<F: LineForm>(
    line: &mut Vec<u8>,
    form: &F,
    node: Item,
    allocs: &Allocations<'_>,
) -> Result<(), AllocError>
    ensures { OnOk result (line.new.items
        ≡ line.old.items ++ footnote_line (F.forms form.now) (names_of allocs.now) node) }
{
    let ItemBody::FootnoteDefinition(ix) = node.body else {
        return Ok(());
    };
    form.append_footnote(line, allocs.text_at(ix), node.start..node.end)
}
