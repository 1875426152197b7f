//! The node of each footnote's first definition (this project).

ghost use Rattle.first_pass_names.specs.TableEntries.{names_of};
ghost use Rattle.first_pass_places.specs.FootnoteNodes.{AreFirstFootnotes, AddsNode, label_with_index, labels_from};
ghost use Rattle.std.specs.Prelude.{◌<◌, length, IfOk, OnOk, OnErr};

use first_pass_items::cow_str::CowStr;
use first_pass_items::item::{Item, ItemBody};
use first_pass_labels::label_key::LabelKey;
use first_pass_labels::label_table::LabelTable;
use first_pass_names::items::Allocations;
use std::alloc::{AllocError, Global};

/// Returns a table of the labels of the footnote definitions in `nodes`. Each label has the position in `nodes` of the
/// first definition with a matching label. Labels match by their foldings, as in the table of footnotes. Fails only if
/// an allocation fails. Without a footnote definition it doesn't fail (this project).
pub fn footnote_nodes<'d>(
    alloc: Global,
    nodes: &[(usize, Item)],
    allocs: &'d Allocations<'_>,
) -> Result<LabelTable<'d, usize>, AllocError>
    ensures value { IfOk result (λ table. AreFirstFootnotes (names_of allocs.now) nodes.now table) }
    ensures err { OnErr result (0 < length (labels_from (names_of allocs.now) 0 nodes.now)) }
{
    let mut table = LabelTable::new(alloc);
    for (index, node) in nodes.iter().enumerate() {
        add_footnote(alloc, &mut table, index, &node.1, allocs)?;
    }
    table.sort()?;
    Ok(table)
}

// If the node is a footnote definition, adds its label with this index, unless a label in the table has the same
// folding.
fn add_footnote<'d>(
    alloc: Global,
    table: &mut LabelTable<'d, usize>,
    index: usize,
    item: &Item,
    allocs: &'d Allocations<'_>,
) -> Result<(), AllocError>
    ensures value { OnOk result (AddsNode (names_of allocs.now) index item.now table.old table.new) }
    ensures err { OnErr result (0 < length (label_with_index (names_of allocs.now) index item.now.body)) }
{
    let ItemBody::FootnoteDefinition(label) = item.body else {
        return Ok(());
    };
    let key = LabelKey::new(alloc, CowStr::Borrowed(allocs.text_at(label)))?;
    table.insert_first(key, index)?;
    Ok(())
}
