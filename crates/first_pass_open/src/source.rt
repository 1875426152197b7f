//! The text, and what else stays the same while it is read: the allocator, the options, and the special bytes.

ghost use Rattle.first_pass_walk.specs.Walk.{MarksSpecial};
ghost use Rattle.std.specs.Prelude.{◌≡◌, ◌<◌, ◌^◌, length};

use first_pass_items::option_set::Options;
use first_pass_walk::walk::special_bytes;
use std::alloc::Global;

/// A text, the allocator and the options for reading it, and the table of special bytes. No call changes it.
#[derive(Drop)]
pub struct Source<'a> {
    /// The allocator.
    pub alloc: Global,
    /// The whole text, into which all offsets point.
    pub text: &'a str,
    /// The options.
    pub options: Options,
    /// Whether each byte is special under the options (`special_bytes` of `first_pass_walk`).
    pub special: [bool; 256],
    ghost marks: { MarksSpecial special options },
}

impl<'a> Source<'a> {
    /// Returns the source of a text that is to be read under these options.
    pub fn new(alloc: Global, text: &'a str, options: Options) -> Source<'a>
        ensures text { result.text.now ≡ text.now }
        ensures options { result.options ≡ options }
    {
        Source {
            alloc,
            text,
            options,
            special: special_bytes(&options),
        }
    }

    /// Does nothing; its contract states that the text has fewer than 2^63 bytes. So the sum of two offsets into it
    /// does not overflow.
    pub fn recall_length(&self)
        ensures { length self.now.text.now < 2 ^ 63 }
    {
        let _ = self.text.len();
    }
}
