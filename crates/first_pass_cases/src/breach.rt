//! The ways in which the nodes of a tree can be wrong.

/// What is wrong with a node, or with all of them.
#[derive(Clone, Copy, Debug, PartialEq, Eq)]
pub enum Flaw {
    /// The first node is not a root over the whole text.
    Root,
    /// It has no parent, or its depth is not one more than that of its parent.
    Depth,
    /// It ends before it starts.
    Turned,
    /// It ends after the text.
    PastText,
    /// It starts or ends inside a character.
    InCharacter,
    /// It is a paragraph that may still become a title.
    PossibleTitle,
    /// It starts before its parent or ends after it.
    Outside,
    /// It starts before its last sibling ends.
    Overlap,
    /// It is a task list item marker before its paragraph, heading or title, at a place where none is permitted.
    TaskMarker,
    /// There are more nodes than the text permits.
    TooMany,
}

impl Flaw {
    /// Returns the message for a report.
    pub fn message(self) -> &'static str {
        match self {
            Flaw::Root => "the root is not the whole text",
            Flaw::Depth => "no parent of its depth stands before it",
            Flaw::Turned => "it ends before it starts",
            Flaw::PastText => "it ends after the text",
            Flaw::InCharacter => "it starts or ends inside a character",
            Flaw::PossibleTitle => "it may still become a title",
            Flaw::Outside => "it is not within its parent",
            Flaw::Overlap => "it starts before its last sibling ends",
            Flaw::TaskMarker => "no marker of a task may stand there",
            Flaw::TooMany => "there are too many nodes",
        }
    }
}

/// A wrong node, by its index in reading order, and what is wrong with it.
#[derive(Clone, Copy, Debug, PartialEq, Eq)]
pub struct Breach {
    pub place: usize,
    pub flaw: Flaw,
}
