//! Roles: what becomes of the delimiters and the quotation marks of a chain.

/// What the delimiters on both sides of a text make of it (CommonMark 6.2; GFM 6.5; superscript and subscript: this
/// project).
#[derive(Clone, Copy, PartialEq, Eq)]
pub enum Format {
    Emphasis,
    Strong,
    Strikethrough,
    Superscript,
    Subscript,
}

/// What becomes of the token of a mark.
#[derive(Clone, Copy, PartialEq, Eq)]
pub enum Role {
    /// It is what its mark says, and a delimiter is text.
    Text,
    /// A delimiter at the start of a text of this format, which has so many of them there.
    Opens(Format, usize),
    /// A delimiter at the end of a text of this format, which has so many of them there.
    Closes(Format, usize),
    /// A quotation mark at the left (this project).
    LeftQuote,
    /// A quotation mark at the right (this project).
    RightQuote,
}
