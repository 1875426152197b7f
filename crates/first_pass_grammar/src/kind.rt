//! Containers, and what follows the marker of one, in the words of the grammar.

use first_pass_items::item::{BlockQuoteKind, Item};

/// A container block: a block that may have other blocks in it (CommonMark 5).
#[derive(Clone, Copy, PartialEq, Eq)]
pub enum Container {
    /// A block quote, with the kind that a tag gives it (CommonMark 5.1).
    BlockQuote(Option<BlockQuoteKind>),
    /// A list item, with the columns that a line needs to continue it (CommonMark 5.2).
    ListItem(usize),
    /// A footnote definition, with the columns that a line needs to continue it: four in GitHub's form, none in the
    /// old form (this project).
    FootnoteDefinition(usize),
    /// A definition of a definition list, with the columns that a line needs to continue it (this project).
    Definition(usize),
}

/// What follows a container's marker on its line (CommonMark 5.2, GFM 5.3, GitHub's alerts).
#[derive(Clone, Copy)]
pub enum AfterMarker {
    /// The rest of the line, in which blocks continue.
    OnLine,
    /// The text of a task, after this task list item marker.
    TaskText(Item),
    /// Nothing, or only a task list item marker.
    LineEnds(Option<Item>),
    /// Only the tag of a block quote.
    OnlyTag,
}
