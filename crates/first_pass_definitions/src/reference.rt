//! Link reference definitions.

ghost use Rattle.first_pass_definitions.specs.Found.{BorrowsLabel, HasParts, IsReference};
ghost use Rattle.first_pass_definitions.specs.Memory.{ReferenceAsks};
ghost use Rattle.first_pass_grammar.specs.Definitions.{reference_definition_at};
ghost use Rattle.first_pass_items.specs.Bytes.{left_bracket};
ghost use Rattle.first_pass_lines.specs.Lines.{begins};
ghost use Rattle.first_pass_open.specs.Path.{context_of};
ghost use Rattle.first_pass_tree.specs.Forest.{in_table};
ghost use Rattle.std.specs.Prelude.{◌≡◌, ◌+◌, ◌<◌, drop, None, IfOk, IfSome, OnErr, IsSomeAnd, MatchOption, IsCharBoundary, true};

use crate::label::parse_refdef_label;
use crate::target::scan_refdef;
use first_pass_items::item::Item;
use first_pass_labels::label_key::LabelKey;
use first_pass_labels::label_table::LinkDef;
use first_pass_lines::lines::begins;
use first_pass_lines::places::rest_of;
use first_pass_open::source::Source;
use first_pass_tree::forest::Tree;
use std::alloc::AllocError;

/// Reads the link reference definition that begins at the offset `start` into the text. Returns its number of bytes, up
/// to the end of its destination or title; its label; and the definition, whose span begins at `start`. `tree` has the
/// open blocks: the lines of the definition may have the prefixes of its containers, and in a table backslashes before
/// pipes are dropped.
///
/// Returns `None` if none begins there. Fails only if an allocation fails. That can happen only as in
/// `parse_refdef_label` and `scan_refdef`, or, if there is a definition, when its label is folded (CommonMark 4.7).
#[inline(always)]
pub fn parse_refdef_total<'a>(
    source: &Source<'a>,
    tree: &Tree<Item>,
    start: usize,
) -> Result<Option<(usize, LabelKey<'a>, LinkDef<'a>)>, AllocError>
    requires { IsCharBoundary source.now.text.now start }
    ensures value { IfOk result (λ answer. let nested = in_table tree.now.nodes tree.now.spine in
        MatchOption (reference_definition_at nested (context_of source.now.options tree.now)
        (drop start source.now.text.now)) (answer ≡ None)
        (λ reference. IsSomeAnd answer (IsReference nested start reference))) }
    ensures fits { IfOk result (λ answer. IfSome answer (λ found.
        (0 < found.0) × IsCharBoundary source.now.text.now (start + found.0))) }
    ensures borrowed { IfOk result (λ answer. IfSome answer (λ found.
        BorrowsLabel (context_of source.now.options tree.now) (in_table tree.now.nodes tree.now.spine)
        (drop (start + 1) source.now.text.now) found.1)) }
    ensures places { IfOk result (λ answer. IfSome answer (λ found. HasParts source.now.text.now found.2)) }
    ensures err { OnErr result (ReferenceAsks (in_table tree.now.nodes tree.now.spine)
        (context_of source.now.options tree.now) (drop start source.now.text.now)) }
{
    if !begins(b'[', rest_of(source.text.as_bytes(), start)) {
        return Ok(None);
    }
    parse_after_bracket(source, tree, start)
}

// Returns the definition whose `[` is at an offset.
fn parse_after_bracket<'a>(
    source: &Source<'a>,
    tree: &Tree<Item>,
    start: usize,
) -> Result<Option<(usize, LabelKey<'a>, LinkDef<'a>)>, AllocError>
    requires place { IsCharBoundary source.now.text.now start }
    requires bracket { begins left_bracket (drop start source.now.text.now) ≡ true }
    ensures value { IfOk result (λ answer. let nested = in_table tree.now.nodes tree.now.spine in
        MatchOption (reference_definition_at nested (context_of source.now.options tree.now)
        (drop start source.now.text.now)) (answer ≡ None)
        (λ reference. IsSomeAnd answer (IsReference nested start reference))) }
    ensures fits { IfOk result (λ answer. IfSome answer (λ found.
        (0 < found.0) × IsCharBoundary source.now.text.now (start + found.0))) }
    ensures borrowed { IfOk result (λ answer. IfSome answer (λ found.
        BorrowsLabel (context_of source.now.options tree.now) (in_table tree.now.nodes tree.now.spine)
        (drop (start + 1) source.now.text.now) found.1)) }
    ensures places { IfOk result (λ answer. IfSome answer (λ found. HasParts source.now.text.now found.2)) }
    ensures err { OnErr result (ReferenceAsks (in_table tree.now.nodes tree.now.spine)
        (context_of source.now.options tree.now) (drop start source.now.text.now)) }
{
    source.recall_length();
    let bytes = source.text.as_bytes();
    let Some((label_len, label)) = parse_refdef_label(source, tree, start + 1)? else {
        return Ok(None);
    };
    let colon = start + 1 + label_len;
    if !begins(b':', rest_of(bytes, colon)) {
        return Ok(None);
    }
    let Some((len, definition)) = scan_refdef(source, tree, start, colon + 1)? else {
        return Ok(None);
    };
    Ok(Some((
        label_len + 2 + len,
        LabelKey::new(source.alloc, label)?,
        definition,
    )))
}
