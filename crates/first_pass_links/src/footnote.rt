//! Heads of footnote definitions (this project; CommonMark 6.3 on their labels).

ghost use Rattle.first_pass_entities.specs.Texts.{Borrows};
ghost use Rattle.first_pass_items.specs.CowText.{text_of};
ghost use Rattle.first_pass_links.specs.Footnotes.{begins_footnote_mark as begins_head, footnote_head};
ghost use Rattle.first_pass_links.specs.Labels.{AnswersWith, AnswersPlaces, CanErr};
ghost use Rattle.std.specs.Prelude.{◌≡◌, ◌+◌, ◌-◌, ◌<◌, ℕ, Bool, List, Option, None, is_some, take, drop, IfOk, IfSome, OnErr, true, IsSomeAnd, MatchOption};
ghost use Rattle.std.specs.Str.{IsCharBoundary};

use crate::label::{is_label, scan_label_end, scan_link_label_rest};
use first_pass_items::cow_str::CowStr;
use first_pass_lines::lines::begins;
use first_pass_lines::places::rest_of;
use std::alloc::{AllocError, Global};

/// Returns the length of the head of the footnote definition at the start of `text`, and its label. The head is `[^`,
/// a label, `]` and `:`. The label is read as `scan_link_label_rest` reads one, and borrowed if nothing in it
/// changes.
///
/// `linebreak_handler` gets the bytes after each line ending in the label. It returns the length of the next line's
/// prefix, which is not part of the label, or `None` if the label may not continue there.
///
/// Returns `None` if no head is there. Fails only if `scan_link_label_rest` fails after the `[^`.
pub fn scan_footnote_head<'t, F>(
    alloc: Global,
    text: &'t str,
    linebreak_handler: F,
    is_in_table: bool,
) -> Result<Option<(usize, CowStr<'t>)>, AllocError>
where
    F: Fn(&[u8]) -> Result<Option<usize>, AllocError> + Drop,
    requires callable { F.IsAlwaysCallable linebreak_handler }
    requires places { AnswersPlaces text.now (F.post linebreak_handler) }
    ensures value { IfOk result (λ answer. (prefix : List ℕ → Option ℕ)
        → AnswersWith text.now prefix (F.post linebreak_handler)
        → MatchOption (footnote_head prefix is_in_table text.now)
        (answer ≡ None)
        (λ head. IsSomeAnd answer (λ found. (found.0 ≡ head.0) × (text_of found.1 ≡ head.1)))) }
    ensures fits { IfOk result (λ answer. IfSome answer (λ found. (3 < found.0) × IsCharBoundary text.now found.0)) }
    ensures borrowed { IfOk result (λ answer. IfSome answer (λ found.
        text_of found.1 ≡ take (found.0 - 4) (drop 2 text.now)
        → Borrows (take (found.0 - 4) (drop 2 text.now)) found.1)) }
    ensures err { OnErr result ((begins_head text.now ≡ true) × ((prefix : List ℕ → Option ℕ)
        → AnswersWith text.now prefix (F.post linebreak_handler)
        → CanErr prefix is_in_table (drop 2 text.now) (F.post linebreak_handler))) }
{
    let bytes = text.as_bytes();
    if !begins_footnote_mark(bytes) {
        return Ok(None);
    }
    let rest = &text[2..];
    let Some((len, label)) = scan_link_label_rest(alloc, rest, linebreak_handler, is_in_table)?
    else {
        return Ok(None);
    };
    if !begins(b':', rest_of(bytes, len + 2)) {
        return Ok(None);
    }
    Ok(Some((len + 3, label)))
}

/// Returns whether the head of a footnote definition begins here, with a label that has no line ending. In a table, a
/// backslash before a pipe is dropped from a label; that makes no difference here. No memory is taken.
pub fn begins_footnote_in_line(bytes: &[u8]) -> bool
    ensures { (in_table : Bool) → result ≡ is_some (footnote_head (λ further. None) in_table bytes.now) }
{
    if !begins_footnote_mark(bytes) {
        return false;
    }
    let label = rest_of(bytes, 2);
    let len = scan_label_end(label);
    if !begins(b']', rest_of(label, len)) {
        return false;
    }
    begins(b':', rest_of(label, len + 1)) && is_label(&label[..len])
}

/// Returns whether `bytes` begins with `[^`.
pub fn begins_footnote_mark(bytes: &[u8]) -> bool
    ensures { result ≡ begins_head bytes.now }
{
    begins(b'[', bytes) && begins(b'^', &bytes[1..])
}
