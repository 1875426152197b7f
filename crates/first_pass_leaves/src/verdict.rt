//! The verdict on a line while the lines of a raw leaf block are read.

/// The verdict on a line while a block is open (CommonMark 4.5, 4.6).
#[derive(Clone, Copy)]
pub enum Verdict {
    /// The line belongs to the block.
    GoesOn,
    /// The line belongs to the block, and is its last one.
    IsLast,
    /// The line closes the block at this offset, and has no text.
    Closes(usize),
    /// The line does not belong to the block, which ends at this offset.
    Stops(usize),
}
