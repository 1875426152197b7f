//! Link labels (CommonMark 6.3).

ghost use Rattle.first_pass_entities.specs.Texts.{Borrows};
ghost use Rattle.first_pass_items.specs.Bytes.{backslash, space};
ghost use Rattle.first_pass_items.specs.CowText.{text_of};
ghost use Rattle.first_pass_lines.specs.Lines.{ends_line, is_white_or_line_end};
ghost use Rattle.first_pass_links.specs.Destinations.{unescaped_upto};
ghost use Rattle.first_pass_links.specs.Labels.{AnswersWith, AnswersPlaces, CanErr, ErrsAfter, FailsOnLabel, IsLabelUnder, ReadsLabel, is_bracket, begins_character, ends_line_label, is_label};
ghost use Rattle.first_pass_links.specs.Units.{part, read_of, left_at, kept_unit, space_unit, dropped_unit, backslash_unit, IsUnit, Reads, ReadsUnits, IsLighter, IsWhiteRun, EndsWhiteRun, StopsByError, IsBlankRest, UnderAnswers};
ghost use Rattle.std.specs.List.{list_any, count_by};
ghost use Rattle.std.specs.Prelude.{◌≡◌, ◌≢◌, ◌+◌, ◌-◌, ◌<◌, ◌≤◌, ◌++◌, ◌∷◌, [], ℕ, List, Option, true, false, not, None, Some, length, take, drop, slice_index, IfOk, IfSome, IsUtf8, OnErr, IsSomeAnd, MatchOption, if◌then◌else◌};
ghost use Rattle.std.specs.Str.{IsCharBoundary};
ghost use Rattle.std.specs.String.{string_bytes};

use crate::destination::unit_len;
use crate::plain::{plain_run, scan_plain_label};
use first_pass_items::cow_str::CowStr;
use first_pass_lines::lines::{begins, is_line_end, is_white_or_line_end};
use first_pass_lines::places::rest_of;
use std::alloc::{AllocError, Global};

// The most characters that a label may have (CommonMark 6.3).
const MOST_CHARACTERS: usize = 999;

/// Returns the length of the link label at the start of `text`, and the label as it is read. `text` is the bytes after
/// a `[`; the length is in bytes, with the `]`. Each run of white space and line endings is read as one space. In a
/// table, a backslash directly before a pipe is dropped; all other backslashes stay. If nothing changes, the label is
/// borrowed and takes no memory.
///
/// `linebreak_handler` gets the bytes after each line ending. It returns the length of the next line's prefix, which
/// is not part of the label, or `None` if the label may not continue there. It need not return the same for the same
/// bytes: the label is that under some answers that it may give.
///
/// Returns `None` if no unescaped `]` comes before an unescaped `[`, the end, or a line on which the label may not
/// continue. Also returns `None` if the label has only white space and line endings, or more than 999 characters; the
/// prefixes of lines do not count. Fails only if the handler fails at a line ending before any unescaped bracket, or if
/// an allocation fails. An allocation is needed only if the text before the first unescaped bracket changes as it is
/// read. CommonMark 6.3.
pub fn scan_link_label_rest<'t, F>(
    alloc: Global,
    text: &'t str,
    linebreak_handler: F,
    is_in_table: bool,
) -> Result<Option<(usize, CowStr<'t>)>, AllocError>
where
    F: Fn(&[u8]) -> Result<Option<usize>, AllocError> + Drop,
    requires callable { F.IsAlwaysCallable linebreak_handler }
    requires places { AnswersPlaces text.now (F.post linebreak_handler) }
    ensures value { IfOk result (λ answer. (prefix : List ℕ → Option ℕ)
        → AnswersWith text.now prefix (F.post linebreak_handler)
        → IsLabelUnder prefix is_in_table text.now answer) }
    ensures read { IfOk result (λ answer. ReadsLabel text.now is_in_table (F.post linebreak_handler) answer) }
    ensures within { IfOk result (λ answer. IfSome answer (λ found. (0 < found.0) × (found.0 ≤ length text.now))) }
    ensures following { IfOk result (λ answer. IfSome answer (λ found. IsCharBoundary text.now found.0)) }
    ensures borrowed { IfOk result (λ answer. IfSome answer (λ found.
        text_of found.1 ≡ take (found.0 - 1) text.now → Borrows (take (found.0 - 1) text.now) found.1)) }
    ensures err { OnErr result ((prefix : List ℕ → Option ℕ) → AnswersWith text.now prefix (F.post linebreak_handler)
        → CanErr prefix is_in_table text.now (F.post linebreak_handler)) }
    ensures fails { OnErr result (FailsOnLabel text.now is_in_table (F.post linebreak_handler)) }
{
    let mut written = String::new(alloc);
    let Some((from, at)) = scan_units(&mut written, text, &linebreak_handler, is_in_table)? else {
        return Ok(None);
    };
    Ok(Some((at + 1, finish(written, text, from, at)?)))
}

// Reads a label unit by unit. If a unit changes, appends all text up to its end as it is read to `written`, which is
// empty at first. Returns the offset of the first byte that is not yet written, and that of the `]`; `None` if no label
// is there.
#[inline(always)]
fn scan_units<F>(
    written: &mut String,
    text: &str,
    linebreak_handler: &F,
    in_table: bool,
) -> Result<Option<(usize, usize)>, AllocError>
where
    F: Fn(&[u8]) -> Result<Option<usize>, AllocError>,
    requires callable { F.IsAlwaysCallable linebreak_handler.now }
    requires places { AnswersPlaces text.now (F.post linebreak_handler.now) }
    requires empty { string_bytes written.old ≡ [] }
    ensures ok { IfOk result (ReadsUnits text.now in_table (F.post linebreak_handler.now) (string_bytes written.new)) }
    ensures err { OnErr result (UnderAnswers text.now (F.post linebreak_handler.now)
        0 (length text.now) (λ prefix. CanErr prefix in_table text.now (F.post linebreak_handler.now))) }
{
    let bytes = text.as_bytes();
    if let Some(len) = scan_plain_label(bytes) {
        return Ok(Some((0, len)));
    }
    let mut from = 0;
    let mut at = 0;
    let mut characters = 0;
    let mut solid = false;
    while at < bytes.len() && !is_bracket(bytes[at]) {
        let Some(unit) = scan_unit(bytes, at, linebreak_handler, in_table)? else {
            return Ok(None);
        };
        characters += unit.characters;
        if characters > MOST_CHARACTERS {
            return Ok(None);
        }
        solid = solid | unit.solid;
        from = write_unit(written, text, from, at, unit)?;
        at = unit.next;
    }
    if solid && begins(b']', rest_of(bytes, at)) {
        return Ok(Some((from, at)));
    }
    Ok(None)
}

/// Returns the number of bytes before the first unescaped bracket, the first line ending, or the end. If a `]` follows
/// these bytes and `is_label` holds for them, they are a label without a line ending (CommonMark 6.3).
pub(crate) fn scan_label_end(bytes: &[u8]) -> usize
    ensures value { result ≡ unescaped_upto ends_line_label 0 bytes.now }
    ensures within { result ≤ length bytes.now }
{
    let mut at = 0;
    while at < bytes.len() && !ends_line_label(bytes[at]) {
        at += unit_len(rest_of(bytes, at));
    }
    at
}

// Whether a byte ends a label without a line ending: a bracket, or a byte of a line ending.
fn ends_line_label(byte: u8) -> bool
    ensures { result ≡ ends_line_label byte }
{
    is_bracket(byte) || is_line_end(byte)
}

/// Returns whether these bytes may be a label: they have at most 999 characters, and one of these is neither white
/// space nor part of a line ending (CommonMark 6.3).
pub(crate) fn is_label(bytes: &[u8]) -> bool
    ensures { result ≡ is_label bytes.now }
{
    count_characters(bytes) <= MOST_CHARACTERS && holds_text(bytes)
}

// The number of characters that begin in these bytes.
fn count_characters(bytes: &[u8]) -> usize
    ensures { result ≡ count_by begins_character bytes.now }
{
    bytes.iter().filter(|b| begins_character(**b)).count()
}

// Whether one of the bytes is neither white space nor part of a line ending.
fn holds_text(bytes: &[u8]) -> bool
    ensures { result ≡ list_any (λ b. not (is_white_or_line_end b)) bytes.now }
{
    bytes.iter().any(|b| !is_white_or_line_end(*b))
}

// Bytes of a label that are read together, up to the offset `next`. Those from `paused` up to `resumed` are left out;
// if `space` is true, a space replaces them. If no bytes are left out, `paused` and `resumed` are both `next`.
#[derive(Clone, Copy, Drop)]
struct Unit {
    next: usize,
    characters: usize,
    solid: bool,
    paused: usize,
    resumed: usize,
    space: bool,
}

// The unit at an offset at which there is no bracket; `None` if the label may not continue.
fn scan_unit<F>(
    bytes: &[u8],
    at: usize,
    linebreak_handler: &F,
    in_table: bool,
) -> Result<Option<Unit>, AllocError>
where
    F: Fn(&[u8]) -> Result<Option<usize>, AllocError>,
    requires callable { F.IsAlwaysCallable linebreak_handler.now }
    requires places { AnswersPlaces bytes.now (F.post linebreak_handler.now) }
    requires within { at < length bytes.now }
    requires text { IsUtf8 bytes.now }
    requires no_bracket { is_bracket (slice_index bytes.now at) ≡ false }
    ensures some { IfOk result (λ answer. IfSome answer (λ unit. IsUnit bytes.now at unit)) }
    ensures reads { IfOk result (λ answer. IfSome answer (λ unit. UnderAnswers bytes.now (F.post linebreak_handler.now)
        at unit.next (λ prefix. Reads prefix in_table bytes.now at unit))) }
    ensures none { IfOk result (λ answer. answer ≡ None → UnderAnswers bytes.now (F.post linebreak_handler.now)
        at (length bytes.now) (λ prefix. IsBlankRest prefix bytes.now at)) }
    ensures err { OnErr result (StopsByError bytes.now at (F.post linebreak_handler.now)) }
{
    let plain = plain_run(rest_of(bytes, at));
    if plain > 0 {
        return Ok(Some(kept_unit(at + plain, plain, true)));
    }
    if is_white_or_line_end(bytes[at]) {
        return match scan_white_run(bytes, at, linebreak_handler)? {
            Some((next, characters)) => Ok(Some(space_unit(bytes, at, next, characters))),
            None => Ok(None),
        };
    }
    if bytes[at] == b'\\' {
        return Ok(Some(backslash_unit(bytes, at, in_table)));
    }
    Ok(Some(kept_unit(at + 1, begun_characters(bytes[at]), true)))
}

// The run of white space and line endings at an offset, across the prefixes of the lines in it: its end, and its number
// of characters. `None` if the label may not continue.
fn scan_white_run<F>(
    bytes: &[u8],
    at: usize,
    linebreak_handler: &F,
) -> Result<Option<(usize, usize)>, AllocError>
where
    F: Fn(&[u8]) -> Result<Option<usize>, AllocError>,
    requires callable { F.IsAlwaysCallable linebreak_handler.now }
    requires places { AnswersPlaces bytes.now (F.post linebreak_handler.now) }
    requires within { at < length bytes.now }
    requires text { IsUtf8 bytes.now }
    requires white { is_white_or_line_end (slice_index bytes.now at) ≡ true }
    ensures some { IfOk result (λ answer. IfSome answer (λ run. EndsWhiteRun bytes.now at run.0 run.1)) }
    ensures ends { IfOk result (λ answer.
        IfSome answer (λ run. is_white_or_line_end (slice_index bytes.now run.0) ≡ false)) }
    ensures reads { IfOk result (λ answer. IfSome answer (λ run. UnderAnswers bytes.now (F.post linebreak_handler.now)
        at run.0 (λ prefix. IsWhiteRun prefix bytes.now at run.0 run.1))) }
    ensures none { IfOk result (λ answer. answer ≡ None → UnderAnswers bytes.now (F.post linebreak_handler.now)
        at (length bytes.now) (λ prefix. IsBlankRest prefix bytes.now at)) }
    ensures err { OnErr result (StopsByError bytes.now at (F.post linebreak_handler.now)) }
{
    let mut next = at;
    let mut characters = 0;
    while next < bytes.len() && is_white_or_line_end(bytes[next]) {
        let Some(following) = scan_space_byte(bytes, next, linebreak_handler)? else {
            return Ok(None);
        };
        next = following;
        characters += 1;
    }
    Ok(Some((next, characters)))
}

// The offset after a byte of white space or of a line ending, and after the prefix of the next line if the byte ends a
// line; `None` if the label may not continue there.
fn scan_space_byte<F>(
    bytes: &[u8],
    at: usize,
    linebreak_handler: &F,
) -> Result<Option<usize>, AllocError>
where
    F: Fn(&[u8]) -> Result<Option<usize>, AllocError>,
    requires callable { F.IsAlwaysCallable linebreak_handler.now }
    requires places { AnswersPlaces bytes.now (F.post linebreak_handler.now) }
    requires within { at < length bytes.now }
    requires text { IsUtf8 bytes.now }
    requires white { is_white_or_line_end (slice_index bytes.now at) ≡ true }
    ensures some { IfOk result (λ answer. IfSome answer (λ next. (at < next) × IsCharBoundary bytes.now next)) }
    ensures reads { IfOk result (λ answer. IfSome answer (λ next. UnderAnswers bytes.now (F.post linebreak_handler.now)
        at next (λ prefix. left_at prefix bytes.now at
        ≡ (at, slice_index bytes.now at) ∷ left_at prefix bytes.now next))) }
    ensures none { IfOk result (λ answer. answer ≡ None → UnderAnswers bytes.now (F.post linebreak_handler.now)
        at (length bytes.now) (λ prefix. left_at prefix bytes.now at ≡ [])) }
    ensures space { IfOk result (λ answer. IfSome answer (λ next.
        slice_index bytes.now at ≡ space → next ≡ at + 1)) }
    ensures err { OnErr result (ErrsAfter bytes.now at (F.post linebreak_handler.now)) }
{
    let following = rest_of(bytes, at + 1);
    if !ends_line(bytes[at], following) {
        return Ok(Some(at + 1));
    }
    match linebreak_handler(following)? {
        Some(prefix) => Ok(Some(at + 1 + prefix)),
        None => Ok(None),
    }
}

// A run of white space and line endings from one offset up to another.
fn space_unit(bytes: &[u8], at: usize, next: usize, characters: usize) -> Unit
    requires { at < length bytes.now }
    ensures { result ≡ space_unit bytes.now at next characters }
{
    if next == at + 1 && bytes[at] == b' ' {
        return kept_unit(next, characters, false);
    }
    Unit {
        next,
        characters,
        solid: false,
        paused: at,
        resumed: next,
        space: true,
    }
}

// The unit that begins with a backslash: `\\|` or `\|` in a table, without the backslash directly before the pipe;
// otherwise an escape, or a backslash that escapes nothing.
fn backslash_unit(bytes: &[u8], at: usize, in_table: bool) -> Unit
    requires within { at < length bytes.now }
    requires here { slice_index bytes.now at ≡ backslash }
    ensures { result ≡ backslash_unit in_table at (drop at bytes.now) }
{
    match rest_of(bytes, at) {
        [b'\\', b'\\', b'|', ..] if in_table => dropped_unit(at + 3, 3, at + 1),
        [_, b'|', ..] if in_table => dropped_unit(at + 2, 2, at),
        [b'\\', escaped, ..] if escaped.is_ascii_punctuation() => kept_unit(at + 2, 2, true),
        _ => kept_unit(at + 1, 1, true),
    }
}

fn kept_unit(next: usize, characters: usize, solid: bool) -> Unit
    ensures { result ≡ kept_unit next characters solid }
{
    Unit {
        next,
        characters,
        solid,
        paused: next,
        resumed: next,
        space: false,
    }
}

// A unit without the backslash at an offset.
fn dropped_unit(next: usize, characters: usize, dropped: usize) -> Unit
    requires { dropped < next }
    ensures { result ≡ dropped_unit next characters dropped }
{
    Unit {
        next,
        characters,
        solid: true,
        paused: dropped,
        resumed: dropped + 1,
        space: false,
    }
}

// If a unit leaves bytes out, writes the bytes from `from` up to the first of these, and then their replacement.
// Returns the offset of the first byte that is not yet written.
#[inline(always)]
fn write_unit(
    written: &mut String,
    text: &str,
    from: usize,
    at: usize,
    unit: Unit,
) -> Result<usize, AllocError>
    requires read { IsLighter text.now (string_bytes written.old) from at }
    requires unit { IsUnit text.now at unit }
    ensures read { IfOk result (λ next. IsLighter text.now (string_bytes written.new) next unit.next) }
    ensures bytes { IfOk result (λ next. string_bytes written.new ++ part text.now next unit.next
        ≡ (string_bytes written.old ++ part text.now from at) ++ read_of text.now at unit) }
    ensures same { IfOk result (λ next. unit.paused ≡ unit.resumed → next ≡ from) }
    ensures err { OnErr result (unit.paused ≢ unit.resumed) }
{
    if unit.paused == unit.resumed {
        return Ok(from);
    }
    written.push_str(&text[from..unit.paused])?;
    written.push_str(replacement(unit.space))?;
    Ok(unit.resumed)
}

// The replacement of the bytes that are left out.
fn replacement(by_space: bool) -> &'static str
    ensures { result.now ≡ (if by_space then space ∷ [] else []) }
{
    if by_space { " " } else { "" }
}

// The label that is read up to an offset.
fn finish<'t>(
    mut written: String,
    text: &'t str,
    from: usize,
    at: usize,
) -> Result<CowStr<'t>, AllocError>
    requires read { IsLighter text.now (string_bytes written) from at }
    requires boundary { IsCharBoundary text.now at }
    ensures value { IfOk result (λ label. text_of label ≡ string_bytes written ++ part text.now from at) }
    ensures borrowed { IfOk result (λ label. text_of label ≡ take at text.now → Borrows (take at text.now) label) }
    ensures err { OnErr result (0 < from) }
{
    if from == 0 {
        return Ok(CowStr::Borrowed(&text[..at]));
    }
    written.push_str(&text[from..at])?;
    Ok(CowStr::Boxed(written.into_boxed_str()))
}

fn is_bracket(byte: u8) -> bool
    ensures { result ≡ is_bracket byte }
{
    byte == b'[' || byte == b']'
}

// Whether a byte is the first of a character.
fn begins_character(byte: u8) -> bool
    ensures { result ≡ begins_character byte }
{
    byte < 0x80 || byte >= 0xc0
}

// 1 if the byte is the first of a character, otherwise 0.
fn begun_characters(byte: u8) -> usize
    ensures { result ≡ (if begins_character byte then 1 else 0) }
{
    if begins_character(byte) { 1 } else { 0 }
}

// Whether a line ends after `byte`, given the bytes that follow it.
fn ends_line(byte: u8, following: &[u8]) -> bool
    ensures { result ≡ ends_line byte following.now }
{
    byte == b'\n' || byte == b'\r' && !begins(b'\n', following)
}
