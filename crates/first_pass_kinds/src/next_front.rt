//! The front of the line that follows a paragraph. It is found while the end of the paragraph is sought, and is needed
//! again where the line is read.

ghost use Rattle.std.specs.Prelude.{◌≡◌, false};

use first_pass_scan::line_start::LineStart;

/// The front of the next unread line, if it is known. This is not an `Option`, so that forgetting the front writes a
/// single byte.
#[derive(Drop)]
pub struct NextFront<'a> {
    /// Whether the front is known. If it never was, the other fields have no meaning.
    pub is_known: bool,
    /// The number of open nodes that the line continues.
    pub continued: usize,
    /// The rest of the text after the container prefixes of the line.
    pub rest: LineStart<'a>,
}

impl<'a> NextFront<'a> {
    /// Returns a value in which no front is known.
    pub fn new(text: &'a str) -> NextFront<'a>
        ensures { result.is_known ≡ false }
    {
        NextFront {
            is_known: false,
            continued: 0,
            rest: LineStart::new(text.as_bytes()),
        }
    }
}
