//! The alignments of a table's columns (GFM 4.10).

ghost use Rattle.first_pass_json.specs.JsonValues.{array};
ghost use Rattle.first_pass_json.specs.Members.{alignment_word};
ghost use Rattle.std.specs.Prelude.{◌≡◌, ◌++◌, OnOk};

use crate::array::{ArrayValue, append_array};
use first_pass_items::item::Alignment;
use std::alloc::AllocError;

/// Appends the alignments of a table's columns as an array.
pub fn append_alignments(line: &mut Vec<u8>, alignments: &[Alignment]) -> Result<(), AllocError>
    ensures { OnOk result (line.new.items ≡ line.old.items ++ array alignment_word alignments.now) }
{
    append_array(line, alignments)
}

impl ArrayValue for Alignment {
    ghost form = { λ alignment. alignment_word alignment };

    fn append_to(&self, line: &mut Vec<u8>) -> Result<(), AllocError> {
        line.extend_from_slice(alignment_word(*self))
    }
}

fn alignment_word(alignment: Alignment) -> &'static [u8]
    ensures { result.now ≡ alignment_word alignment }
{
    match alignment {
        Alignment::None => b"\"none\"",
        Alignment::Left => b"\"left\"",
        Alignment::Center => b"\"center\"",
        Alignment::Right => b"\"right\"",
    }
}
