//! Places, what is there, and pairs of brackets.

ghost use Rattle.first_pass_inline.specs.Sequences.{is_link as is_link_pair, is_note as is_note_pair, is_text as is_text_pair, waits as pair_waits, past as past_pair};
ghost use Rattle.std.specs.Prelude.{◌≡◌};

use crate::mark::{Mark, Name, ReferenceForm, Span, Target};

/// A place in a content: an offset, and the index of the first token that ends after it.
#[derive(Clone, Copy, PartialEq, Eq)]
pub struct Place {
    pub index: usize,
    pub offset: usize,
}

/// What begins at a place: its mark, and the place after it.
#[derive(Clone, Copy, PartialEq, Eq)]
pub enum View {
    AtEnd,
    /// A bracket that may open a pair.
    Opens(Mark, Place),
    /// A bracket that may close a pair.
    Closes(Mark, Place),
    /// A piece that stands for itself.
    Piece(Mark, Place),
}

/// A pair of brackets.
#[derive(Clone, Copy, PartialEq, Eq)]
pub struct Pair {
    pub is_image: bool,
    /// Whether it is directly after an opening bracket.
    pub is_inner: bool,
    /// Whether the pair before it has looked for this one as its label, and found no definition.
    pub waited: bool,
    /// What is between the brackets.
    pub text: Span,
    /// The place after the closing bracket.
    pub end: Place,
    /// The name that begins it, if it is around a wikilink's name.
    pub name: Option<Name>,
    pub holds_link: bool,
    pub holds_note: bool,
    /// The place after the first pipe in a text of its level, if wikilinks are enabled.
    pub pipe: Option<usize>,
}

/// A reference: its form, its label, and the place after it.
#[derive(Clone, Copy, PartialEq, Eq)]
pub struct Reference {
    pub form: ReferenceForm,
    pub label: Span,
    pub end: usize,
}

/// What a pair is.
#[derive(Clone, Copy, PartialEq, Eq)]
pub enum Verdict {
    Text,
    /// Text, since no definition has this label: its own one, or that of the pair after it. With the place after both.
    Undefined {
        label: Span,
        end: usize,
        is_after: bool,
    },
    /// A link or an image: its target, its text, and the place after it.
    Link {
        target: Target,
        shown: Span,
        past: Place,
    },
    /// A footnote reference with this label.
    FootnoteReference(Span),
    /// The pair around the name of a wikilink.
    Name(Name),
}

impl Verdict {
    /// Whether a pair is a link.
    pub(crate) fn is_link(self, is_image: bool) -> bool
        ensures { result ≡ is_link_pair is_image self }
    {
        matches!(self, Verdict::Link { .. }) && !is_image
    }

    /// Whether a pair is a footnote reference.
    pub(crate) fn is_note(self) -> bool
        ensures { result ≡ is_note_pair self }
    {
        matches!(self, Verdict::FootnoteReference(_))
    }

    /// Whether a pair is text.
    pub(crate) fn is_text(self) -> bool
        ensures { result ≡ is_text_pair self }
    {
        matches!(self, Verdict::Text | Verdict::Undefined { .. })
    }

    /// Whether a pair has looked for the pair after it as its label, and found no definition.
    pub(crate) fn waits(self) -> bool
        ensures { result ≡ pair_waits self }
    {
        match self {
            Verdict::Undefined { is_after, .. } => is_after,
            _ => false,
        }
    }

    /// The place after a pair and its target, given that after the pair.
    pub(crate) fn past(self, end: Place) -> Place
        ensures { result ≡ past_pair end self }
    {
        match self {
            Verdict::Link { past, .. } => past,
            _ => end,
        }
    }
}
