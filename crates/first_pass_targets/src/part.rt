//! Parts of a content.

/// A destination, a title or a label in a content. Each number is a place: an offset into the content.
#[derive(Clone, Copy, PartialEq, Eq)]
pub struct Part {
    /// The start of its text, after an opening `<`, quote or bracket.
    pub start: usize,
    /// The end of its text, before the byte that closes it.
    pub end: usize,
    /// The place after the part, and after the byte that closes it.
    pub past: usize,
}
