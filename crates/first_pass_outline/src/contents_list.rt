//! The table of contents as a Markdown list.

ghost use Rattle.first_pass_outline.specs.ContentsLines.{after_bullet, is_below_text, item_line};
ghost use Rattle.first_pass_outline.specs.ContentsViews.{placed_in};
ghost use Rattle.std.specs.Prelude.{◌≡◌, ◌++◌, OnOk};

use crate::contents::{ContentsEntry, is_unwritten, link_of};
use crate::entry_text::append_written;
use first_pass_reports::printed::node::append_indentation;
use std::alloc::AllocError;

/// Appends the line of an entry: two spaces for each heading around it, `-`, and its text or a link after a space. If
/// it has no text, nothing follows the `-`, except for a comment if the `-` would be an underline. Fails only if an
/// allocation fails.
pub fn append_item(line: &mut Vec<u8>, entry: &ContentsEntry<'_>) -> Result<(), AllocError>
    ensures { OnOk result (line.new.items ≡ line.old.items ++ item_line (placed_in entry.now)) }
{
    append_indentation(line, entry.depth)?;
    line.push(b'-')?;
    append_after_bullet(line, entry)?;
    line.push(b'\n')?;
    Ok(())
}

// Appends what follows the `-` of an entry.
fn append_after_bullet(line: &mut Vec<u8>, entry: &ContentsEntry<'_>) -> Result<(), AllocError>
    ensures { OnOk result (line.new.items ≡ line.old.items ++ after_bullet (placed_in entry.now)) }
{
    if !is_unwritten(entry) {
        line.push(b' ')?;
        return append_written(line, entry.text.as_slice(), link_of(entry));
    }
    if is_below_text(entry) {
        line.extend_from_slice(b" <!-- -->")?;
    }
    Ok(())
}

// Whether an entry is in the one before it, and that one has a text.
fn is_below_text(entry: &ContentsEntry<'_>) -> bool
    ensures { result ≡ is_below_text (placed_in entry.now) }
{
    entry.follows_text && entry.depth == entry.open_before
}
