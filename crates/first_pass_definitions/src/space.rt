//! The white space of a link reference definition.

ghost use Rattle.first_pass_definitions.specs.Memory.{space_asks};
ghost use Rattle.first_pass_grammar.specs.Definitions.{space_at};
ghost use Rattle.first_pass_open.specs.Path.{context_of};
ghost use Rattle.std.specs.Option.{option_map};
ghost use Rattle.std.specs.Prelude.{◌≡◌, ◌+◌, drop, true, IfOk, IfSome, OnErr, IsCharBoundary};

use first_pass_items::item::Item;
use first_pass_kinds::interrupt::scan_line_crossed;
use first_pass_lines::lines::{scan_eol, scan_whitespace_no_nl};
use first_pass_lines::places::rest_of;
use first_pass_open::source::Source;
use first_pass_tree::forest::Tree;
use std::alloc::AllocError;

/// Reads the white space at the offset `start` into the text, with at most one line ending. Returns the offset after
/// it, and the number of its line endings, 0 or 1. After a line ending it continues at the place in the next line at
/// which the definition continues.
///
/// Returns `None` if a second line ending follows, or if no line follows in which the definition continues. Fails only
/// if an allocation fails, which can happen only if the line after the first line ending may head a table (CommonMark
/// 4.7).
#[inline(always)]
pub fn scan_refdef_space(
    source: &Source<'_>,
    tree: &Tree<Item>,
    start: usize,
) -> Result<Option<(usize, usize)>, AllocError>
    requires { IsCharBoundary source.now.text.now start }
    ensures value { IfOk result (λ answer.
        answer ≡ option_map (λ s. (start + s.0, s.1))
        (space_at (context_of source.now.options tree.now) (drop start source.now.text.now))) }
    ensures place { IfOk result (λ answer. IfSome answer (λ s. IsCharBoundary source.now.text.now s.0)) }
    ensures err { OnErr result (space_asks (context_of source.now.options tree.now)
        (drop start source.now.text.now) ≡ true) }
{
    source.recall_length();
    let bytes = source.text.as_bytes();
    let end = start + scan_whitespace_no_nl(rest_of(bytes, start));
    let Some(line_end) = scan_eol(rest_of(bytes, end)) else {
        return Ok(Some((end, 0)));
    };
    let next = end + line_end;
    let Some(rest) = scan_line_crossed(source, tree, next, false)? else {
        return Ok(None);
    };
    let following = next + rest.bytes_scanned();
    let at = following + scan_whitespace_no_nl(rest_of(bytes, following));
    if scan_eol(rest_of(bytes, at)).is_some() {
        return Ok(None);
    }
    Ok(Some((at, 1)))
}
