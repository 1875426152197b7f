//! The label of a link reference definition.

ghost use Rattle.first_pass_definitions.specs.Memory.{LabelAsks};
ghost use Rattle.first_pass_entities.specs.Texts.{Borrows};
ghost use Rattle.first_pass_grammar.specs.Definitions.{prefix_crossed};
ghost use Rattle.first_pass_items.specs.CowText.{text_of};
ghost use Rattle.first_pass_kinds.specs.Memory.{line_may_head_table};
ghost use Rattle.first_pass_lines.specs.Places.{line_rest};
ghost use Rattle.first_pass_links.specs.Labels.{label_at};
ghost use Rattle.first_pass_open.specs.Path.{context_of};
ghost use Rattle.first_pass_tree.specs.Forest.{in_table};
ghost use Rattle.std.specs.Prelude.{◌≡◌, ℕ, ◌+◌, ◌-◌, ◌<◌, take, drop, None, IfOk, IfSome, OnErr, IsSomeAnd, MatchOption, IsCharBoundary, true};

use first_pass_items::cow_str::CowStr;
use first_pass_items::item::Item;
use first_pass_kinds::interrupt::scan_line_crossed;
use first_pass_links::label::scan_link_label_rest;
use first_pass_open::source::Source;
use first_pass_tree::forest::Tree;
use std::alloc::AllocError;

/// Reads the label after the `[` that is before the offset `start` into the text. Returns its length in bytes from
/// there on, with its `]`, and the label as it is read. Each run of white space and line endings is read as one space.
/// Backslashes stay, except that in a table a backslash directly before a pipe is dropped. The label is borrowed if
/// this changes nothing. It continues over the lines that a definition crosses, without their prefixes of the open
/// containers, and without up to four columns after these.
///
/// Returns `None` if an unescaped `[`, a line that ends the definition or the end of the text comes before an unescaped
/// `]`. Also returns `None` if there are only white space and line endings, or more than 999 characters. Fails only if
/// an allocation fails. That can happen only in two cases: reading changes the label; or no bracket ends it and some
/// later line of the text may head a table (CommonMark 4.7).
pub fn parse_refdef_label<'a>(
    source: &Source<'a>,
    tree: &Tree<Item>,
    start: usize,
) -> Result<Option<(usize, CowStr<'a>)>, AllocError>
    requires { IsCharBoundary source.now.text.now start }
    ensures value { IfOk result (λ answer. MatchOption
        (label_at (prefix_crossed true (context_of source.now.options tree.now))
        (in_table tree.now.nodes tree.now.spine) (drop start source.now.text.now))
        (answer ≡ None)
        (λ label. IsSomeAnd answer (λ found. (found.0 ≡ label.0) × (text_of found.1 ≡ label.1)))) }
    ensures fits { IfOk result (λ answer. IfSome answer (λ found.
        (0 < found.0) × IsCharBoundary source.now.text.now (start + found.0))) }
    ensures borrowed { IfOk result (λ answer. IfSome answer (λ found.
        text_of found.1 ≡ take (found.0 - 1) (drop start source.now.text.now)
        → Borrows (take (found.0 - 1) (drop start source.now.text.now)) found.1)) }
    ensures err { OnErr result (LabelAsks (context_of source.now.options tree.now)
        (in_table tree.now.nodes tree.now.spine) (drop start source.now.text.now)) }
{
    let in_table = tree.is_in_table();
    scan_link_label_rest(
        source.alloc,
        &source.text[start..],
        |following: &[u8]| scan_label_prefix(source, tree, following),
        in_table,
    )
}

// How many bytes of the first line of `bytes` (the rest of the text) precede the place where a label continues. `None`
// if it does not continue in that line.
pub(crate) fn scan_label_prefix(
    source: &Source<'_>,
    tree: &Tree<Item>,
    bytes: &[u8],
) -> Result<Option<usize>, AllocError>
    ensures value { IfOk result (λ answer. (at : ℕ) → IsCharBoundary source.now.text.now at
        → bytes.now ≡ drop at source.now.text.now
        → prefix_crossed true (context_of source.now.options tree.now) bytes.now ≡ answer) }
    ensures place { IfOk result (λ answer. IfSome answer (λ n. (at : ℕ) → IsCharBoundary source.now.text.now at
        → bytes.now ≡ drop at source.now.text.now → IsCharBoundary bytes.now n)) }
    ensures err { OnErr result ((at : ℕ) → IsCharBoundary source.now.text.now at
        → bytes.now ≡ drop at source.now.text.now
        → line_may_head_table (context_of source.now.options tree.now) (line_rest bytes.now) ≡ true) }
{
    let whole = source.text.len();
    if bytes.len() > whole || !source.text.is_char_boundary(whole - bytes.len()) {
        return Ok(None);
    }
    match scan_line_crossed(source, tree, whole - bytes.len(), true)? {
        Some(rest) => Ok(Some(rest.bytes_scanned())),
        None => Ok(None),
    }
}
