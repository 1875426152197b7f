//! The head of a footnote definition.

ghost use Rattle.first_pass_definitions.specs.Memory.{FootnoteAsks};
ghost use Rattle.first_pass_entities.specs.Texts.{Borrows};
ghost use Rattle.first_pass_grammar.specs.Footnotes.{footnote_prefix, footnote_at, label_bytes};
ghost use Rattle.first_pass_items.specs.CowText.{text_of};
ghost use Rattle.first_pass_items.specs.OptionWords.{gfm_footnotes};
ghost use Rattle.first_pass_kinds.specs.Memory.{line_may_head_table};
ghost use Rattle.first_pass_lines.specs.Places.{line_rest};
ghost use Rattle.first_pass_open.specs.Path.{context_of};
ghost use Rattle.first_pass_tree.specs.Forest.{in_table};
ghost use Rattle.std.specs.Prelude.{◌≡◌, ℕ, ◌+◌, ◌<◌, drop, None, true, false, IfOk, IfSome, OnErr, IsSomeAnd, MatchOption, IsCharBoundary};

use crate::label::scan_label_prefix;
use first_pass_items::cow_str::CowStr;
use first_pass_items::item::Item;
use first_pass_links::footnote::scan_footnote_head;
use first_pass_open::source::Source;
use first_pass_tree::forest::Tree;
use std::alloc::AllocError;

/// Reads the head of the footnote definition that begins at the offset `start` into the text. Returns its length in
/// bytes, up to after its colon, and its label. In GitHub's form the label has no line ending; in the old form it
/// continues over lines as in `parse_refdef_label`. `tree` has the open blocks.
///
/// Returns `None` if no head begins. Fails only if an allocation fails. That can happen only in two cases: the label
/// after `[^` has to be copied; or, in the old form, no bracket ends it and some later line of the text may head a
/// table (this project).
pub fn scan_footnote<'a>(
    source: &Source<'a>,
    tree: &Tree<Item>,
    start: usize,
) -> Result<Option<(usize, CowStr<'a>)>, AllocError>
    requires { IsCharBoundary source.now.text.now start }
    ensures value { IfOk result (λ answer. MatchOption
        (footnote_at (in_table tree.now.nodes tree.now.spine) (context_of source.now.options tree.now)
        (drop start source.now.text.now))
        (answer ≡ None)
        (λ head. IsSomeAnd answer (λ found. (found.0 ≡ head.0) × (text_of found.1 ≡ head.1)))) }
    ensures fits { IfOk result (λ answer. IfSome answer (λ found.
        (3 < found.0) × IsCharBoundary source.now.text.now (start + found.0))) }
    ensures borrowed { IfOk result (λ answer. IfSome answer (λ found.
        text_of found.1 ≡ label_bytes found.0 (drop start source.now.text.now)
        → Borrows (label_bytes found.0 (drop start source.now.text.now)) found.1)) }
    ensures err { OnErr result (FootnoteAsks (context_of source.now.options tree.now)
        (in_table tree.now.nodes tree.now.spine) (drop start source.now.text.now)) }
{
    let in_table = tree.is_in_table();
    scan_footnote_head(
        source.alloc,
        &source.text[start..],
        |following: &[u8]| scan_footnote_prefix(source, tree, following),
        in_table,
    )
}

// How many bytes of the first line of `bytes` (the rest of the text) precede the place where the label of a footnote
// continues. `None` if it does not continue in that line.
fn scan_footnote_prefix(
    source: &Source<'_>,
    tree: &Tree<Item>,
    bytes: &[u8],
) -> Result<Option<usize>, AllocError>
    ensures value { IfOk result (λ answer. (at : ℕ) → IsCharBoundary source.now.text.now at
        → bytes.now ≡ drop at source.now.text.now
        → footnote_prefix (context_of source.now.options tree.now) bytes.now ≡ answer) }
    ensures place { IfOk result (λ answer. IfSome answer (λ n. (at : ℕ) → IsCharBoundary source.now.text.now at
        → bytes.now ≡ drop at source.now.text.now → IsCharBoundary bytes.now n)) }
    ensures old { OnErr result (gfm_footnotes source.now.options ≡ false) }
    ensures err { OnErr result ((at : ℕ) → IsCharBoundary source.now.text.now at
        → bytes.now ≡ drop at source.now.text.now
        → line_may_head_table (context_of source.now.options tree.now) (line_rest bytes.now) ≡ true) }
{
    if source.options.has_gfm_footnotes() {
        return Ok(None);
    }
    scan_label_prefix(source, tree, bytes)
}
