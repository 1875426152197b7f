//! The printed form of the alignments of a table's columns.

ghost use Rattle.first_pass_reports.specs.Printed.{alignment_sign, signs_after, alignment_signs, in_parentheses};
ghost use Rattle.std.specs.Prelude.{◌≡◌, ◌++◌, OnOk};

use first_pass_items::item::Alignment;
use std::alloc::AllocError;

/// Appends the signs of a table's columns in parentheses, separated by commas (GFM 4.10).
pub fn append_alignments(line: &mut Vec<u8>, alignments: &[Alignment]) -> Result<(), AllocError>
    ensures { OnOk result (line.new.items ≡ line.old.items ++ in_parentheses (alignment_signs alignments.now)) }
{
    line.push(b'(')?;
    append_signs(line, alignments)?;
    line.push(b')')?;
    Ok(())
}

// Appends the signs of columns, separated by commas.
fn append_signs(line: &mut Vec<u8>, alignments: &[Alignment]) -> Result<(), AllocError>
    ensures { OnOk result (line.new.items ≡ line.old.items ++ alignment_signs alignments.now) }
{
    match alignments.split_first() {
        None => Ok(()),
        Some((first, others)) => {
            line.extend_from_slice(alignment_sign(*first).as_bytes())?;
            append_signs_after(line, others)
        }
    }
}

// Appends the signs of columns, each after a comma.
#[tactic(auto, unfolding(crate::specs::Printed::signs_after))]
fn append_signs_after(line: &mut Vec<u8>, alignments: &[Alignment]) -> Result<(), AllocError>
    ensures { OnOk result (line.new.items ≡ line.old.items ++ signs_after alignments.now) }
{
    for alignment in alignments {
        line.push(b',')?;
        line.extend_from_slice(alignment_sign(*alignment).as_bytes())?;
    }
    Ok(())
}

fn alignment_sign(alignment: Alignment) -> &'static str
    ensures { result.now ≡ alignment_sign alignment }
{
    match alignment {
        Alignment::None => "-",
        Alignment::Left => "l",
        Alignment::Center => "c",
        Alignment::Right => "r",
    }
}
