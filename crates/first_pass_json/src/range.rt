//! The members of a range.

ghost use Rattle.first_pass_json.specs.JsonLines.{range_members};
ghost use Rattle.std.specs.Prelude.{◌≡◌, ◌++◌, ℕ, List, OnOk};

use crate::values::append_number_after;
use std::alloc::AllocError;

/// A form of ranges: which members the range of a node or of a link definition has.
pub trait RangeForm {
    // The members of a range from its start to its end.
    ghost members: { Self → ℕ → ℕ → List ℕ };

    /// Appends the members of a range. Fails only if an allocation fails.
    fn append_range(&self, line: &mut Vec<u8>, start: usize, end: usize) -> Result<(), AllocError>
        ensures { OnOk result (line.new.items ≡ line.old.items ++ members self.now start end) };
}

/// The form with only the start and the end.
pub struct Offsets;

impl RangeForm for Offsets {
    ghost members = { λ _. range_members };

    #[tactic(auto, unfolding(crate::specs::JsonLines::range_members))]
    fn append_range(&self, line: &mut Vec<u8>, start: usize, end: usize) -> Result<(), AllocError> {
        append_number_after(line, b",\"start\":", start)?;
        append_number_after(line, b",\"end\":", end)
    }
}
