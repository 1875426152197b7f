//! The nodes of the flat form.

ghost use Rattle.first_pass_c.specs.FlatAttributes.{attributes_by, attributes_of_body};
ghost use Rattle.first_pass_c.specs.FlatForm.{node_names};
ghost use Rattle.first_pass_c.specs.FlatNodes.{IsShort, deeper_before, first_place, flat_node, flat_nodes, name_of, named_at, named_length, place_after};
ghost use Rattle.first_pass_c.specs.Kinds.{values_of};
ghost use Rattle.first_pass_c.specs.Linked.{AreLinked, depth_at};
ghost use Rattle.first_pass_c.specs.WrittenNodes.{HasNameAndNext, IsRecordWritten, NamesNothing, NeedsMoreBits};
ghost use Rattle.first_pass_grammar.specs.Names.{Names};
ghost use Rattle.first_pass_items.specs.declared.item.Item.{Item};
ghost use Rattle.first_pass_names.specs.TableEntries.{names_of};
ghost use Rattle.std.specs.List.{flat_map};
ghost use Rattle.std.specs.Prelude.{◌≡◌, ◌≤◌, ◌<◌, ◌+◌, ℕ, List, length, drop, All, IfOk, IsErr, OnOk};

use crate::flat::attributes::attribute_count;
use crate::flat::kinds::{FlatValues, kind_number, values_of};
use crate::flat::names::name_length;
use crate::flat::numbers::{TooLong, bound_of_both};
use crate::flat::records::FlatNode;
use crate::flat::side::SideTables;
use first_pass_items::item::{Item, ItemBody};
use first_pass_names::items::Allocations;

/// A place between nodes: the number of nodes before it, of the bytes that they name, and of their attributes. For the
/// node after it, these are its index, the start of its bytes in the names, and the index of its first attribute.
#[derive(Clone, Copy)]
pub struct FlatPlace {
    pub node: usize,
    pub name: usize,
    pub attribute: usize,
}

/// Writes the records of a tree's nodes. `side` has the other parts of the flat form. Fails only if a number needs
/// more than 32 bits; then some records may be written.
#[inline(never)]
pub fn fill_nodes(
    nodes: &[(usize, Item)],
    allocs: &Allocations<'_>,
    side: &SideTables,
    flat: &mut [FlatNode],
) -> Result<(), TooLong>
    requires room { length flat.old ≡ length nodes.now }
    requires names { side.now.node_names ≡ length (node_names (names_of allocs.now) nodes.now) }
    requires attributes { length side.now.attributes.items
        ≡ length (flat_map (attributes_by (names_of allocs.now)) nodes.now) }
    ensures written { OnOk result (flat.new ≡ flat_nodes (names_of allocs.now) first_place nodes.now) }
    ensures long { IsErr result → All IsShort (flat_nodes (names_of allocs.now) first_place nodes.now) → ⊥ }
{
    let mut place = FlatPlace {
        node: nodes.len(),
        name: side.node_names,
        attribute: side.attributes.len(),
    };
    let mut later_depth = 0;
    while 0 < place.node {
        let node = &nodes[place.node - 1];
        let next = next_index(nodes, flat, node.0, place.node, later_depth);
        place = fill_before(flat, place, node, next, allocs)?;
        later_depth = node.0;
    }
    Ok(())
}

// The index of the first node, from `from` on, that is not deeper than `depth`; the number of nodes if there is none.
// `later_depth` is the depth of the node at `from`, or 0 if there is none. The records from `from` on must already have
// their next nodes; most nodes have no children, and then none of the records is read.
#[inline(always)]
fn next_index(
    nodes: &[(usize, Item)],
    flat: &[FlatNode],
    depth: usize,
    from: usize,
    later_depth: usize,
) -> usize
    requires within { from ≤ length nodes.now }
    requires same { length flat.now ≡ length nodes.now }
    requires linked { AreLinked nodes.now flat.now from }
    requires later { later_depth ≡ depth_at nodes.now from }
    ensures value { result ≡ from + deeper_before depth (drop from nodes.now) }
    ensures end { result ≤ length nodes.now }
{
    if later_depth <= depth {
        return from;
    }
    let mut at = flat[from].next as usize;
    while at < nodes.len() && depth < nodes[at].0 {
        at = flat[at].next as usize;
    }
    at
}

// Writes the record of the node before a place, and returns the place before that node. Fails only if a number needs
// more than 32 bits. Decides by the kind whether the node may name something. The first three arms are for the kinds of
// most nodes: each has code of its own, in which most values are constants.
#[inline(always)]
fn fill_before(
    flat: &mut [FlatNode],
    after: FlatPlace,
    node: &(usize, Item),
    next: usize,
    allocs: &Allocations<'_>,
) -> Result<FlatPlace, TooLong>
    requires node { 0 < after.node }
    requires room { after.node ≤ length flat.old }
    requires name { length (name_of (names_of allocs.now) node.now.1.body) ≤ after.name }
    requires attribute { length (attributes_of_body (names_of allocs.now) node.now.1.body) ≤ after.attribute }
    ensures ok { IfOk result (λ before.
        IsRecordWritten (names_of allocs.now) node.now next flat.old flat.new (before, after)) }
    ensures long { IsErr result → NeedsMoreBits (names_of allocs.now) node.now next after }
{
    let body = &node.1.body;
    match *body {
        ItemBody::Text { backslash_escaped } => {
            let values = FlatValues::of_first(u8::from(backslash_escaped));
            fill_plain(flat, after, node, next, values)
        }
        ItemBody::Paragraph
        | ItemBody::TightParagraph
        | ItemBody::HtmlBlock
        | ItemBody::TableRow
        | ItemBody::TableCell
        | ItemBody::SoftBreak
        | ItemBody::MaybeLinkOpen
        | ItemBody::Html => fill_plain(flat, after, node, next, FlatValues::of_number(0)),
        ItemBody::ListItem(columns) => {
            let values = FlatValues::of_number(columns as u64);
            fill_plain(flat, after, node, next, values)
        }
        ItemBody::Heading(..)
        | ItemBody::FencedCodeBlock(_)
        | ItemBody::FootnoteDefinition(_)
        | ItemBody::SynthesizeText(_)
        | ItemBody::Table(_) => fill_named(flat, after, node, next, allocs),
        _ => fill_plain(flat, after, node, next, values_of(body)),
    }
}

// The same as `fill_before`, for a node that names nothing. `values` are those of its kind.
#[inline(always)]
fn fill_plain(
    flat: &mut [FlatNode],
    after: FlatPlace,
    node: &(usize, Item),
    next: usize,
    values: FlatValues,
) -> Result<FlatPlace, TooLong>
    requires node { 0 < after.node }
    requires room { after.node ≤ length flat.old }
    requires nothing { NamesNothing node.now.1.body }
    requires values { values ≡ values_of node.now.1.body }
    ensures ok { IfOk result (λ before. (names : Names)
        → IsRecordWritten names node.now next flat.old flat.new (before, after)) }
    ensures long { IsErr result → (names : Names) → NeedsMoreBits names node.now next after }
{
    let before = FlatPlace {
        node: after.node - 1,
        name: after.name,
        attribute: after.attribute,
    };
    flat[before.node] = flat_node(node, next, (after.name, 0), values)?;
    Ok(before)
}

// The same as `fill_before`, for a node of any kind: it takes the range of what the node names.
#[inline(always)]
fn fill_named(
    flat: &mut [FlatNode],
    after: FlatPlace,
    node: &(usize, Item),
    next: usize,
    allocs: &Allocations<'_>,
) -> Result<FlatPlace, TooLong>
    requires node { 0 < after.node }
    requires room { after.node ≤ length flat.old }
    requires name { length (name_of (names_of allocs.now) node.now.1.body) ≤ after.name }
    requires attribute { length (attributes_of_body (names_of allocs.now) node.now.1.body) ≤ after.attribute }
    ensures ok { IfOk result (λ before.
        IsRecordWritten (names_of allocs.now) node.now next flat.old flat.new (before, after)) }
    ensures long { IsErr result → NeedsMoreBits (names_of allocs.now) node.now next after }
{
    let body = &node.1.body;
    let before = place_before(after, body, allocs);
    let named = named_range((before, after), body, allocs);
    flat[before.node] = flat_node(node, next, named, values_of(body))?;
    Ok(before)
}

// The place before a node, computed from the place after it.
#[inline(always)]
fn place_before(after: FlatPlace, body: &ItemBody, allocs: &Allocations<'_>) -> FlatPlace
    requires node { 0 < after.node }
    requires name { length (name_of (names_of allocs.now) body.now) ≤ after.name }
    requires attribute { length (attributes_of_body (names_of allocs.now) body.now) ≤ after.attribute }
    ensures { after ≡ place_after (names_of allocs.now) body.now result }
{
    FlatPlace {
        node: after.node - 1,
        name: after.name - name_length(body, allocs),
        attribute: after.attribute - attribute_count(body, allocs),
    }
}

// The record of a node, from the range of its name, the index of the next node that is not deeper, and the values of
// its kind. Fails only if a number needs more than 32 bits.
#[inline(always)]
fn flat_node(
    node: &(usize, Item),
    next: usize,
    named: (usize, usize),
    values: FlatValues,
) -> Result<FlatNode, TooLong>
    requires { values ≡ values_of node.now.1.body }
    ensures value { IfOk result (λ r. (names : Names) (at : FlatPlace) (later : List (ℕ × Item))
        → HasNameAndNext names at node.now later named next → r ≡ flat_node names at node.now later) }
    ensures long { IsErr result → (names : Names) (at : FlatPlace) (later : List (ℕ × Item))
        → HasNameAndNext names at node.now later named next → IsShort (flat_node names at node.now later) → ⊥ }
{
    let depth = node.0;
    let item = &node.1;
    let number = values.number as usize;
    let range = bound_of_both(item.start, item.end);
    let links = bound_of_both(depth, next);
    let names = bound_of_both(bound_of_both(named.0, named.1), number);
    if bound_of_both(bound_of_both(range, links), names) > 0xffff_ffff {
        return Err(TooLong);
    }
    Ok(FlatNode {
        start: item.start as u32,
        end: item.end as u32,
        depth: depth as u32,
        next: next as u32,
        string_start: named.0 as u32,
        string_length: named.1 as u32,
        number: number as u32,
        kind: kind_number(&item.body),
        first: values.first,
        second: values.second,
        third: values.third,
    })
}

// The start and the length of a node's name: a range in the names or, for a heading, in the attributes. It extends
// from the place before the node to the place after it.
#[inline(always)]
fn named_range(
    places: (FlatPlace, FlatPlace),
    body: &ItemBody,
    allocs: &Allocations<'_>,
) -> (usize, usize)
    requires { places.1 ≡ place_after (names_of allocs.now) body.now places.0 }
    ensures start { result.0 ≡ named_at places.0 body.now }
    ensures count { result.1 ≡ named_length (names_of allocs.now) body.now }
{
    let (place, after) = places;
    match *body {
        ItemBody::Heading(..) => (place.attribute, after.attribute - place.attribute),
        _ => (place.name, after.name - place.name),
    }
}
