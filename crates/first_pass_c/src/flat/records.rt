//! The records of the flat form, in C's layout, without padding.

/// A node. Offsets and lengths are in bytes.
#[repr(C)]
#[derive(Clone, Copy)]
pub struct FlatNode {
    /// The range in the text.
    pub start: u32,
    pub end: u32,
    /// The number of nodes around it: 0 for the root.
    pub depth: u32,
    /// The index of the first later node that is not deeper, or the number of nodes.
    pub next: u32,
    /// The range of the node's string in the strings: an info string, a label, a text, or for a table one byte for each
    /// column, `-`, `l`, `c` or `r`. For a heading, the range of its attributes among all attributes.
    pub string_start: u32,
    pub string_length: u32,
    /// A list's first number; the indent of an item or a definition; how many delimiters of a run are left, this one
    /// included; how many backquotes; the brace context of a dollar sign; a character's code point. Otherwise 0.
    pub number: u32,
    /// The kind, in the order of `ItemBody`: from 0 for the root to 35 for a task list item marker.
    pub kind: u8,
    /// A heading's level; the kind that a tag gives a block quote, 1 to 5; the kind of a metadata block, 0 or 1;
    /// whether a list is tight, a text escaped, a hard break made by a backslash, backquotes escaped, a `]` active
    /// (always), a task checked; whether a delimiter, a dollar sign or a quotation mark can open. Otherwise 0.
    pub first: u8,
    /// Whether a heading has an attribute block; the byte of a list's markers or of a quotation mark; whether a
    /// delimiter or a dollar sign can close. Otherwise 0.
    pub second: u8,
    /// Whether a quotation mark can close. Otherwise 0.
    pub third: u8,
}

/// An attribute of a heading: `#install` an id, `.wide` a class, `lang=en` and `draft` a key.
#[repr(C)]
#[derive(Clone, Copy)]
pub struct FlatAttribute {
    /// The range of the id, the class or the key in the strings.
    pub name: usize,
    pub name_length: usize,
    /// The range of the key's value in the strings.
    pub value: usize,
    pub value_length: usize,
    /// 1 for a key with a value, which may be empty. Otherwise 0.
    pub has_value: u32,
    /// 0 for an id, 1 for a class, 2 for a key.
    pub kind: u32,
}

/// A link reference definition, or the label of a footnote. `label`, `destination` and `title` with their lengths are
/// ranges in the strings. Each other offset is in the text, and 0 for the label of a footnote.
#[repr(C)]
#[derive(Clone, Copy)]
pub struct FlatDefinition {
    /// The range of the link definition in the text.
    pub start: usize,
    pub end: usize,
    pub label: usize,
    pub label_length: usize,
    pub destination: usize,
    pub destination_length: usize,
    pub title: usize,
    pub title_length: usize,
    /// 1 for a definition with a title, which may be empty. Otherwise 0.
    pub has_title: usize,
    /// The offset of the `]` after the label.
    pub label_end: usize,
    /// The range of the destination, with its angle brackets if it has them.
    pub destination_start: usize,
    pub destination_end: usize,
    /// The offset of the title's first quotation mark or parenthesis. Without a title, the end of the definition.
    pub title_start: usize,
}

impl FlatDefinition {
    /// A record in which each field is 0.
    pub const ZERO: FlatDefinition = FlatDefinition {
        start: 0,
        end: 0,
        label: 0,
        label_length: 0,
        destination: 0,
        destination_length: 0,
        title: 0,
        title_length: 0,
        has_title: 0,
        label_end: 0,
        destination_start: 0,
        destination_end: 0,
        title_start: 0,
    };
}
