//! The calls over a text and a label, as a C program makes them.

use crate::flat::records::{FlatAttribute, FlatDefinition, FlatNode};
use crate::reading::FlatCounts;
use crate::{first_pass_fold, first_pass_parse_into};
use std::alloc::Global;
use std::test::Fail;

const NODE: FlatNode = FlatNode {
    start: 0,
    end: 0,
    depth: 0,
    next: 0,
    string_start: 0,
    string_length: 0,
    number: 0,
    kind: 99,
    first: 0,
    second: 0,
    third: 0,
};

const ATTRIBUTE: FlatAttribute = FlatAttribute {
    name: 0,
    name_length: 0,
    value: 0,
    value_length: 0,
    has_value: 0,
    kind: 99,
};

const DEFINITION: FlatDefinition = FlatDefinition {
    start: 99,
    ..FlatDefinition::ZERO
};

const COUNTS: FlatCounts = FlatCounts {
    nodes: 99,
    attributes: 0,
    definitions: 0,
    links: 0,
    string_bytes: 0,
};

// A heading with an id, a class and a key, fenced code, a link definition and a footnote: 8 nodes, 3 attributes, 2
// definitions and 13 bytes of strings.
const TEXT: &[u8] = b"# a {#i .c k=v}\n~~~ x&copy;\nb\n~~~\n[L]: /u 't'\n\n[^f]: g\n";

// Footnotes and heading attributes.
const OPTIONS: u32 = 68;

// The arrays and the counts after a call.
#[derive(Drop)]
struct Filled {
    nodes: [FlatNode; 9],
    attributes: [FlatAttribute; 4],
    definitions: [FlatDefinition; 3],
    names: [u8; 14],
    counts: FlatCounts,
}

// Reads a text with these array lengths; returns the status and what the arrays and the counts hold then.
fn read_within(alloc: Global, text: &[u8], bits: u32, room: [usize; 4]) -> (u32, Filled) {
    let mut nodes = [NODE; 9];
    let mut attributes = [ATTRIBUTE; 4];
    let mut definitions = [DEFINITION; 3];
    let mut names = [b'?'; 14];
    let mut counts = COUNTS;
    let status = first_pass_parse_into(
        alloc,
        text,
        bits,
        &mut nodes[..room[0].min(9)],
        &mut attributes[..room[1].min(4)],
        &mut definitions[..room[2].min(3)],
        &mut names[..room[3].min(14)],
        &mut counts,
    );
    let filled = Filled {
        nodes,
        attributes,
        definitions,
        names,
        counts,
    };
    (status, filled)
}

#[test]
fn a_text_is_read_whole(rt: HostRuntime) -> Result<(), Fail> {
    let (status, filled) = read_within(rt.alloc(), TEXT, OPTIONS, [9, 4, 3, 14]);
    let (nodes, attributes, definitions) = (filled.nodes, filled.attributes, filled.definitions);
    assert!(rt; status == 0);
    assert!(rt; has_counts(&filled.counts));
    assert!(rt; nodes[1].kind == 4 && nodes[1].next == 3 && nodes[1].string_length == 3);
    assert!(rt; nodes[3].kind == 5 && nodes[3].start == 16 && nodes[3].end == 33);
    assert!(rt; nodes[7].depth == 3 && nodes[7].start == 53 && nodes[8].kind == 99);
    assert!(rt; attributes[0].kind == 0 && attributes[1].kind == 1 && attributes[2].kind == 2);
    assert!(rt; attributes[2].value == 7 && attributes[3].kind == 99);
    assert!(rt; definitions[0].start == 34 && definitions[0].title_length == 1);
    assert!(rt; definitions[1].label == 12 && definitions[2].start == 99);
    assert!(rt; filled.names.as_slice() == "x\u{a9}fickvL/utf?".as_bytes());
    Ok(())
}

// Whether these are the counts of `TEXT`.
fn has_counts(counts: &FlatCounts) -> bool {
    (counts.nodes == 8 && counts.attributes == 3 && counts.definitions == 2)
        && (counts.links == 1 && counts.string_bytes == 13)
}

#[test]
fn room_that_is_just_enough_suffices(rt: HostRuntime) -> Result<(), Fail> {
    let alloc = rt.alloc();
    assert!(rt; read_within(alloc, TEXT, OPTIONS, [8, 3, 2, 13]).0 == 0);
    let rooms = [[7, 3, 2, 13], [8, 2, 2, 13], [8, 3, 1, 13], [8, 3, 2, 12]];
    for room in rooms {
        let (status, filled) = read_within(alloc, TEXT, OPTIONS, room);
        assert!(rt; status == 4 && has_counts(&filled.counts));
    }
    Ok(())
}

#[test]
fn each_fault_has_its_status(rt: HostRuntime) -> Result<(), Fail> {
    let alloc = rt.alloc();
    let not_utf8 = read_within(alloc, b"\xff", OPTIONS, [8, 3, 2, 13]);
    assert!(rt; not_utf8.0 == 2 && not_utf8.1.counts.nodes == 99);
    let bad_options = read_within(alloc, b"\xff", 1, [8, 3, 2, 13]);
    assert!(rt; bad_options.0 == 3 && bad_options.1.counts.nodes == 99);
    assert!(rt; read_within(alloc, b"a", 65536, [8, 3, 2, 13]).0 == 3);
    assert!(rt; read_within(alloc, b"", 65534, [1, 0, 0, 0]).0 == 0);
    Ok(())
}

#[test]
fn labels_are_folded(rt: HostRuntime) -> Result<(), Fail> {
    let cases = [
        ("", ""),
        ("a [B]", "a [b]"),
        ("\u{1e9e}", "ss"),
        ("\u{130}", "i\u{307}"),
    ];
    for (label, folding) in cases {
        let mut folded = [b'?'; 8];
        let mut count = 99;
        let status = first_pass_fold(rt.alloc(), label.as_bytes(), &mut folded, &mut count);
        assert!(rt; status == 0 && count == folding.len());
        assert!(rt; folded.starts_with(folding.as_bytes()) && folded[7] == b'?');
    }
    Ok(())
}

#[test]
fn a_folding_takes_its_room(rt: HostRuntime) -> Result<(), Fail> {
    let mut folded = [b'?'; 2];
    let mut count = 99;
    let alloc = rt.alloc();
    assert!(rt; first_pass_fold(alloc, b"\xff", &mut folded, &mut count) == 2 && count == 99);
    assert!(rt; first_pass_fold(alloc, "\u{1e9e}".as_bytes(), &mut folded, &mut count) == 0);
    assert!(rt; &folded == b"ss" && count == 2);
    assert!(rt; first_pass_fold(alloc, b"ABC", &mut folded, &mut count) == 4 && count == 3);
    Ok(())
}
