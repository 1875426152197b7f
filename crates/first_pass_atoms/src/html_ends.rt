//! The ends of comments, instructions, declarations and CDATA sections in one content, each sought in vain only once.

ghost use Rattle.first_pass_atoms.specs.HtmlEnds.{HasNoneFrom, IsKnownOf};
ghost use Rattle.first_pass_atoms.specs.RawHtml.{text_end};
ghost use Rattle.std.specs.Prelude.{◌≡◌, ◌<◌, ◌≤◌, length, IfSome};

use first_pass_lines::places::rest_of;
use memchr::memmem;

/// For each of the ends `-->`, `?>`, `>` and `]]>` a place of one content from which on there is none.
#[derive(Clone, Copy, PartialEq, Eq)]
pub struct HtmlEnds {
    pub(crate) comment: usize,
    pub(crate) instruction: usize,
    pub(crate) declaration: usize,
    pub(crate) cdata: usize,
}

impl HtmlEnds {
    /// Returns the record of a content in which nothing has been sought.
    pub fn new(content: &[u8]) -> HtmlEnds
        ensures { IsKnownOf content.now result }
    {
        let end = content.len();
        HtmlEnds {
            comment: end,
            instruction: end,
            declaration: end,
            cdata: end,
        }
    }
}

// The place after the first end with this text at the place `from` or after it. From the place `none` on there is none.
pub(crate) fn end_after(content: &[u8], from: usize, text: &[u8], none: &mut usize) -> Option<usize>
    requires within { from ≤ length content.now }
    requires some { 0 < length text.now }
    requires known { HasNoneFrom text.now content.now none.old }
    ensures value { result ≡ text_end text.now content.now from }
    ensures within { IfSome result (λ n. (from < n) × (n ≤ length content.now)) }
    ensures known { HasNoneFrom text.now content.now none.new }
{
    if *none <= from {
        return None;
    }
    match memmem::find(rest_of(content, from), text) {
        Some(before) => Some(from + (before + text.len())),
        None => {
            *none = from;
            None
        }
    }
}
