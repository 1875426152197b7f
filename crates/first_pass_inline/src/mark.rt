//! Marks: what becomes of the tokens of a chain.

ghost use Rattle.first_pass_inline.specs.Look.{mark_of as mark_from_to, token_from};
ghost use Rattle.std.specs.Prelude.{◌≡◌};

use first_pass_atoms::autolinks::AutolinkForm;
use first_pass_content::tokens::PlacedToken;
use first_pass_items::item::ItemBody;

/// A part of a content: from a place up to another.
#[derive(Clone, Copy, PartialEq, Eq)]
pub struct Span {
    pub start: usize,
    pub end: usize,
}

/// The form of a reference link or image (CommonMark 6.3).
#[derive(Clone, Copy, PartialEq, Eq)]
pub enum ReferenceForm {
    Full,
    Collapsed,
    Shortcut,
}

/// The name of a wikilink, and what is after its pipe, if it has one.
#[derive(Clone, Copy, PartialEq, Eq)]
pub struct Name {
    pub name: Span,
    pub shown: Option<Span>,
}

/// What a link or an image leads to.
#[derive(Clone, Copy, PartialEq, Eq)]
pub enum Target {
    /// A destination and a title after the brackets (CommonMark 6.3, inline link).
    Inline {
        dest: Span,
        title: Option<Span>,
    },
    /// The definition with an index in the table of definitions, which this label names (CommonMark 6.3, reference link).
    Definition {
        form: ReferenceForm,
        label: Span,
        index: usize,
    },
    /// The name of a wikilink.
    Name(Name),
}

/// A link or an image: its target, the part of its text, and the place after it.
#[derive(Clone, Copy, PartialEq, Eq)]
pub struct Link {
    pub is_image: bool,
    pub target: Target,
    pub shown: Span,
    pub end: usize,
}

/// An undefined reference: its label, and the place after it. If the label is that of the pair after it, `wait` is the
/// number of marks from its own to the first of that pair, and otherwise 0.
#[derive(Clone, Copy, PartialEq, Eq)]
pub struct Undefined {
    pub label: Span,
    pub end: usize,
    pub wait: usize,
}

/// What a mark says of a part.
#[derive(Clone, Copy, PartialEq, Eq)]
pub enum MarkKind {
    /// A token that stands for itself, or its rest. A bracket and a delimiter run are text here.
    Token(ItemBody),
    /// A code span with this content (CommonMark 6.1).
    Code(Span),
    /// Math with this content, displayed or inline (this project).
    Math { is_display: bool, content: Span },
    /// Raw HTML (CommonMark 6.6).
    RawHtml,
    /// An autolink (CommonMark 6.5).
    Autolink(AutolinkForm),
    /// A footnote reference with this label, which begins with `^` (this project).
    FootnoteReference(Span),
    /// The opening bracket of a link or an image (CommonMark 6.3, 6.4).
    Link(Link),
    /// The closing bracket of a link or an image, with its target.
    LinkEnd,
    /// The opening bracket around the name of a wikilink (this project).
    Name(Name),
    /// The closing bracket around the name of a wikilink.
    NameEnd,
    /// The opening bracket of a pair that is text, since no definition has its label.
    Undefined(Undefined),
}

/// A part of a content, and what it is.
#[derive(Clone, Copy, PartialEq, Eq)]
pub struct Mark {
    pub part: Span,
    pub kind: MarkKind,
}

/// Returns the mark of the part from one place up to another.
pub(crate) fn mark_of(start: usize, end: usize, kind: MarkKind) -> Mark
    ensures { result ≡ mark_from_to start «end» kind }
{
    Mark {
        part: Span { start, end },
        kind,
    }
}

/// Returns the mark of a token that stands for itself, from a place on.
pub(crate) fn token_from(from: usize, token: PlacedToken) -> Mark
    ensures { result ≡ token_from from token }
{
    mark_of(from, token.end, MarkKind::Token(token.body))
}
