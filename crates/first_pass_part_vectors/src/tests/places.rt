//! The ranges of the attributes of a heading, and the labels and the nodes of two footnotes.

ghost use Rattle.first_pass_items.specs.declared.item.ItemBody.TheVariants.{FootnoteDefinition};
ghost use Rattle.std.specs.Prelude.{◌≡◌};

use first_pass_items::cow_str::CowStr;
use first_pass_items::item::{CowIndex, HeadingIndex, HeadingLevel, Item, ItemBody};
use first_pass_names::items::Allocations;
use first_pass_places::attributes::{AttributeKind, AttributeRanges, attribute_ranges};
use first_pass_places::footnote_label::footnote_label_range;
use first_pass_places::footnotes::footnote_nodes;
use std::alloc::{AllocError, Global};
use std::ops::Range;
use std::test::Fail;

// The ranges in a heading with an id, a class, and a key with a value.
fn heading_places(alloc: Global) -> Result<Vec<AttributeRanges>, AllocError> {
    let text = "# a {#x .y k=v}\n";
    let heading = Item {
        start: 0,
        end: text.len(),
        body: ItemBody::Heading(HeadingLevel::H1, Some(HeadingIndex(0))),
    };
    attribute_ranges(alloc, text, &heading)
}

// The number of its attributes.
fn attribute_count(alloc: Global) -> Result<usize, AllocError> {
    Ok(heading_places(alloc)?.len())
}

// Whether the attribute at a place of that heading has these ranges.
fn is_attribute(
    alloc: Global,
    place: usize,
    kind: AttributeKind,
    name: &Range<usize>,
    value: &Option<Range<usize>>,
) -> Result<bool, AllocError> {
    let places = heading_places(alloc)?;
    let is_wanted = |found: &AttributeRanges| {
        found.kind == kind && found.name == *name && found.value == *value
    };
    Ok(places.get(place).is_some_and(is_wanted))
}

#[test]
fn each_attribute_has_its_ranges(rt: HostRuntime) -> Result<(), Fail> {
    assert_eq!(rt; attribute_count(rt.alloc())?, 3);
    for (place, kind, name, value) in &[
        (0, AttributeKind::Id, 6..7, None),
        (1, AttributeKind::Class, 9..10, None),
        (2, AttributeKind::Key, 11..12, Some(13..14)),
    ] {
        assert!(rt;
            is_attribute(rt.alloc(), *place, *kind, name, value)?,
            "{place}"
        );
    }
    Ok(())
}

// A footnote definition with this range.
fn footnote(start: usize, end: usize, label: CowIndex) -> Item
    ensures { result ≡ record { start = start; «end» = end; body = FootnoteDefinition label } }
{
    Item {
        start,
        end,
        body: ItemBody::FootnoteDefinition(label),
    }
}

// Two footnotes, and a second definition of the first one.
const FOOTNOTES: &str = "[^a]: b\n\n[^c]: d\n\n[^A]: e\n";

// The nodes of these three definitions, with a rule before each footnote. Adds their labels to the table.
fn definitions(allocs: &mut Allocations<'_>) -> Result<[(usize, Item); 5], AllocError> {
    let first = footnote(0, 8, allocs.allocate_cow(CowStr::Borrowed("a"))?);
    let second = footnote(9, 17, allocs.allocate_cow(CowStr::Borrowed("c"))?);
    let again = footnote(18, 26, allocs.allocate_cow(CowStr::Borrowed("A"))?);
    let rule = Item {
        start: 8,
        end: 8,
        body: ItemBody::Rule,
    };
    Ok([(0, rule), (0, first), (0, rule), (0, second), (0, again)])
}

// The position of the node that first defines a label.
fn node_of(alloc: Global, label: &str) -> Result<Option<usize>, AllocError> {
    let mut allocs = Allocations::new(alloc);
    let nodes = definitions(&mut allocs)?;
    let table = footnote_nodes(alloc, &nodes, &allocs)?;
    Ok(table.get(label)?.copied())
}

#[test]
fn each_footnote_has_its_node(rt: HostRuntime) -> Result<(), Fail> {
    for (label, want) in &[("a", Some(1)), ("A", Some(1)), ("c", Some(3)), ("b", None)] {
        assert_eq!(rt; node_of(rt.alloc(), label)?, *want, "{label}");
    }
    Ok(())
}

// The start and the end of the label of the definition at an offset, if the text is that long.
fn label_ends(text: &str, start: usize, end: usize) -> Option<(usize, usize)> {
    if text.len() < start {
        return None;
    }
    let label = footnote_label_range(text, &footnote(start, end, CowIndex(0)));
    Some((label.start, label.end))
}

#[test]
fn each_footnote_has_its_label(rt: HostRuntime) -> Result<(), Fail> {
    // Each text has this length. The last one ends before a label.
    for (text, size, start, end, want) in &[
        (FOOTNOTES, 26, 0, 8, (2, 3)),
        (FOOTNOTES, 26, 9, 17, (11, 12)),
        ("[", 1, 0, 8, (1, 1)),
    ] {
        assert_eq!(rt; text.len(), *size);
        assert_eq!(rt;
            label_ends(text, *start, *end),
            Some(*want),
            "{text} at {start}"
        );
    }
    Ok(())
}
