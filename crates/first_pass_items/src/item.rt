//! The items of the tree: the kind of each node, and its range of the text.

ghost use Rattle.std.specs.Prelude.{⊤, ◌≡◌, [], ◌∷◌, codes};

use bitflags::{Flag, Flags, bitflag_items};

/// The index of the attributes of a heading.
#[derive(Clone, Copy, PartialEq, Eq)]
pub struct HeadingIndex(pub usize);

/// The index of the alignments of a table.
#[derive(Clone, Copy, PartialEq, Eq)]
pub struct AlignmentIndex(pub usize);

/// The index of a string that is not a plain range of the text.
#[derive(Clone, Copy, PartialEq, Eq)]
pub struct CowIndex(pub usize);

/// The level of a heading (CommonMark 4.2, 4.3).
#[derive(Clone, Copy, PartialEq, Eq)]
pub enum HeadingLevel {
    H1 = 1,
    H2,
    H3,
    H4,
    H5,
    H6,
}

/// The alignment of a table column (GFM 4.10).
#[derive(Clone, Copy, PartialEq, Eq)]
pub enum Alignment {
    None,
    Left,
    Center,
    Right,
}

/// The marks around a metadata block: `---` or `+++`.
#[derive(Clone, Copy, PartialEq, Eq)]
pub enum MetadataBlockKind {
    YamlStyle,
    PlusesStyle,
}

/// The kind that a tag such as `[!NOTE]` gives a block quote.
#[derive(Clone, Copy, PartialEq, Eq)]
pub enum BlockQuoteKind {
    Note,
    Tip,
    Important,
    Warning,
    Caution,
}

/// The flags of a list: whether it is tight (CommonMark 5.3).
#[derive(Clone, Copy, PartialEq, Eq)]
pub struct ListFlags(u8);

bitflag_items! {
    impl ListFlags: u8 {
        const IS_TIGHT = 1;
    }
}

impl Flags for ListFlags {
    type Bits = u8;

    ghost exact = { ⊤ };

    ghost table = { (codes "IS_TIGHT", 1) ∷ [] };

    ghost set_of = { λ f. f.0 };

    fn flags<'a>() -> &'a [Flag<ListFlags>] {
        ListFlags::FLAGS
    }

    fn bits(&self) -> u8 {
        self.0
    }

    fn from_bits_retain(bits: u8) -> ListFlags {
        ListFlags(bits)
    }
}

/// The kind of a node: a block, or a token that may be inline markup in a block. The order matters for speed: the kinds
/// from `FootnoteDefinition` to `DefinitionListDefinition` are neighbours, so that one comparison excludes most open
/// nodes that need no columns (`columns_needed` of `first_pass_open`).
#[derive(Clone, Copy, PartialEq, Eq)]
pub enum ItemBody {
    /// The node around all others.
    Root,

    // Blocks.
    Paragraph,
    /// A paragraph directly in an item or a definition of a tight list.
    TightParagraph,
    Rule,
    Heading(HeadingLevel, Option<HeadingIndex>),
    /// The info string.
    FencedCodeBlock(CowIndex),
    IndentCodeBlock,
    HtmlBlock,
    BlockQuote(Option<BlockQuoteKind>),
    /// Whether it is tight, the byte of its markers (`.` or `)` after numbers), and its first number.
    List(ListFlags, u8, u64),
    /// The columns that a line needs to continue the item.
    ListItem(usize),
    /// The label.
    FootnoteDefinition(CowIndex),
    MetadataBlock(MetadataBlockKind),
    DefinitionList(ListFlags),
    /// A paragraph that may become the title of a definition; no finished tree has one.
    MaybeDefinitionListTitle,
    DefinitionListTitle,
    /// The columns that a line needs to continue the definition.
    DefinitionListDefinition(usize),
    Table(AlignmentIndex),
    TableHead,
    TableRow,
    TableCell,

    // Tokens.
    Text {
        /// Whether the first byte follows a backslash that was dropped.
        backslash_escaped: bool,
    },
    SoftBreak,
    /// Whether it was written with a backslash, not with white space.
    HardBreak(bool),
    /// The number of delimiters from this one to the end of its run; whether it can open and close.
    MaybeEmphasis(usize, bool, bool),
    /// Whether it can open and close, and its brace context.
    MaybeMath(bool, bool, u8),
    /// The quote's byte, and whether it can open and close.
    MaybeSmartQuote(u8, bool, bool),
    /// The number of backquotes, and whether a backslash precedes them.
    MaybeCode(usize, bool),
    MaybeHtml,
    MaybeLinkOpen,
    /// `true` in every tree of this pass.
    MaybeLinkClose(bool),
    MaybeImage,
    /// Bytes of an HTML block.
    Html,
    /// A string that replaces the bytes.
    SynthesizeText(CowIndex),
    /// A character that replaces the bytes.
    SynthesizeChar(char),
    /// Whether it is checked.
    TaskListMarker(bool),
}

impl Default for ItemBody {
    fn default() -> ItemBody
        ensures { result ≡ ItemBody.Root }
    {
        ItemBody::Root
    }
}

/// The range of a node, as offsets into the text (`start` is at most `end`), and its kind.
#[derive(Clone, Copy, PartialEq, Eq)]
pub struct Item {
    pub start: usize,
    pub end: usize,
    pub body: ItemBody,
}
