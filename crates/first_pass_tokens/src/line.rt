//! The tokens of a line, appended to the tree.

ghost use Rattle.first_pass_items.specs.Bytes.{backslash, pipe, space};
ghost use Rattle.first_pass_items.specs.declared.cow_str.CowStr.{CowStr};
ghost use Rattle.first_pass_lines.specs.Lines.{is_white as is_white_byte};
ghost use Rattle.first_pass_tokens.specs.Braces.{MathBraces};
ghost use Rattle.first_pass_tokens.specs.Chains.{run_tokens, add_text};
ghost use Rattle.first_pass_tokens.specs.HeldText.{held_after, tree_after, IsHeldTo};
ghost use Rattle.first_pass_tokens.specs.LineTokens.{spot, is_near_pipe, line_end_len, text_end, break_of, line_break, content_ends_at, EndsAtFirstMark, EndsLine, EndsCell, IsCell};
ghost use Rattle.first_pass_tokens.specs.NamedTexts.{AreMore};
ghost use Rattle.first_pass_tokens.specs.Pieces.{source, content_in, text_upto, size};
ghost use Rattle.first_pass_tokens.specs.TreeTokens.{with_tokens, AppendsLine, AppendsCell};
ghost use Rattle.first_pass_tree.specs.Forest.{with_text};
ghost use Rattle.first_pass_walk.specs.Walk.{MarksSpecial, is_marked};
ghost use Rattle.std.specs.List.{suffix_len, slice_range};
ghost use Rattle.std.specs.Prelude.{◌≡◌, ℕ, ◌==◌, ◌&&◌, ◌%◌, nat_lt, ◌+◌, ◌-◌, ◌<◌, ◌≤◌, ◌^◌, not, true, false, IsTrue, IsUtf8, List, [], length, slice_index, OnOk, IfOk, IfSome, IfNone};

use crate::braces::BraceContexts;
use crate::named::named_piece;
use crate::pieces::{Content, Piece, byte_at, piece_len, quick_piece, special_found};
use bitflags::Flags;
use first_pass_items::cow_str::CowStr;
use first_pass_items::item::{Item, ItemBody};
use first_pass_items::option_set::Options;
use first_pass_lines::lines::is_white;
use first_pass_tree::forest::Tree;
use first_pass_walk::walk::next_special_in_words;
use std::alloc::AllocError;

/// Appends the tokens of one line to the innermost open node. They are the texts, the references (CommonMark 2.5),
/// and the tokens of possible code, emphasis, HTML, links and images (6.1 to 6.6). `content` is read up to the first
/// line ending, to its `end` if it has one, or to the end of the text. The text of a reference, or of a run of four
/// and more hyphens, is appended to `texts`, and its token names it by an index. `braces` holds the brace contexts
/// before the line, then those after it.
///
/// Returns the offset after the line ending, and the line break there (CommonMark 6.7, 6.8), which is not appended;
/// the break is `None` if no line ending is left. A backslash before ASCII punctuation is dropped (2.4), and white
/// space at the end of the content is in no text. Fails only if an allocation fails.
#[inline(always)]
pub fn append_line(
    content: Content<'_>,
    tree: &mut Tree<Item>,
    texts: &mut Vec<CowStr<'_>>,
    braces: &mut BraceContexts,
) -> Result<(usize, Option<Item>), AllocError>
    requires set { IfSome content.«end» (λ e. e ≤ length content.whole.now) }
    requires within { content.start ≤ length (text_upto content.whole.now content.«end») }
    requires marks { MarksSpecial content.special.now content.options }
    requires no_cell { content.row ≡ false }
    ensures utf8 { IsUtf8 content.entry.whole.now }
    ensures line { IfOk result (λ answer.
        AppendsLine texts.new.items (source content.entry braces.old) tree.old tree.new answer braces.new) }
    ensures more { OnOk result (AreMore texts.new.items texts.old.items) }
    ensures ends { IfOk result (λ answer. EndsLine (source content.entry braces.old) answer) }
{
    let text = text_upto(content.whole, content.end);
    let (end, pending) = append_pieces(text, content, tree, texts, braces)?;
    end_line(text, content, end, pending, tree)
}

/// Appends the tokens of one cell of a table row to the innermost open node. They are those of a line (see
/// `append_line`). `content` is read up to the first line ending, to its `end` if it has one, or to the end of the
/// text; if the options have tables, up to the first pipe that is not escaped. A backslash before a pipe is dropped,
/// and so are two of them (GFM 4.10).
///
/// Returns the end of the content: the offset of the pipe, the line ending or the end of the text. White space before
/// it is in no text. Fails only if an allocation fails.
#[inline(always)]
pub fn append_cell(
    content: Content<'_>,
    tree: &mut Tree<Item>,
    texts: &mut Vec<CowStr<'_>>,
    braces: &mut BraceContexts,
) -> Result<usize, AllocError>
    requires set { IfSome content.«end» (λ e. e ≤ length content.whole.now) }
    requires within { content.start ≤ length (text_upto content.whole.now content.«end») }
    requires marks { MarksSpecial content.special.now content.options }
    ensures utf8 { IsUtf8 content.entry.whole.now }
    ensures cell { IfOk result (λ end.
        AppendsCell texts.new.items (source content.entry braces.old) tree.old tree.new end braces.new) }
    ensures more { OnOk result (AreMore texts.new.items texts.old.items) }
    ensures ends { IfOk result (λ end. EndsCell (source content.entry braces.old) end) }
{
    let text = text_upto(content.whole, content.end);
    let (end, pending) = append_pieces(text, content, tree, texts, braces)?;
    let blanks = blanks_at_end(text, content.start, end);
    tree.append_text(pending.begin, end - blanks, pending.escaped)?;
    Ok(end)
}

/// The end of the content of a cell or line that has at most one token, a text, and the end of that token.
#[derive(Clone, Copy)]
pub struct PlainContent {
    /// The offset at which the token ends: before the white space at the end of the content.
    pub token_end: usize,
    /// The end of the content: the offset of the pipe or the line ending.
    pub end: usize,
}

/// Finds the end of the content of a cell or of another line, if the first special byte is there. The only token is
/// then the text from the start of the content on; there is none if that text is empty. Returns `None` if a special
/// byte comes earlier, or if there is none.
#[inline(always)]
pub fn scan_plain_content(content: Content<'_>) -> Option<PlainContent>
    requires set { IfSome content.«end» (λ e. e ≤ length content.whole.now) }
    requires within { content.start ≤ length (text_upto content.whole.now content.«end») }
    requires marks { MarksSpecial content.special.now content.options }
    ensures cell { IfSome result (λ plain. (texts : List CowStr) (b : MathBraces)
        → IsCell texts (source content.entry b) (add_text content.entry.start plain.token_end false [])
        plain.«end» b) }
    ensures some { IfSome result (λ plain. (b : MathBraces)
        → EndsAtFirstMark content.entry.special.now (source content.entry b) plain.«end») }
    ensures none { IfNone result ((at : ℕ) (b : MathBraces)
        → EndsAtFirstMark content.entry.special.now (source content.entry b) at → ⊥) }
{
    let text = text_upto(content.whole, content.end);
    plain_content_in(text, content)
}

// The same, given the text up to the last possible end of the content.
#[inline(always)]
fn plain_content_in(text: &[u8], content: Content<'_>) -> Option<PlainContent>
    requires within { content.start ≤ length text.now }
    requires marks { MarksSpecial content.special.now content.options }
    ensures cell { IfSome result (λ plain. (texts : List CowStr) (b : MathBraces)
        → IsCell texts (content_in text.now content.entry b) (add_text content.entry.start plain.token_end false [])
        plain.«end» b) }
    ensures some { IfSome result (λ plain. (b : MathBraces)
        → EndsAtFirstMark content.entry.special.now (content_in text.now content.entry b) plain.«end») }
    ensures none { IfNone result ((at : ℕ) (b : MathBraces)
        → EndsAtFirstMark content.entry.special.now (content_in text.now content.entry b) at → ⊥) }
{
    let at = next_special_in_words(content.special, text, content.start)?;
    if special_ends_at(text, content, at) {
        let blanks = blanks_at_end(text, content.start, at);
        return Some(PlainContent {
            token_end: at - blanks,
            end: at,
        });
    }
    None
}

// A text that began at an offset, may continue, and is not in the tree yet.
#[derive(Clone, Copy, Drop)]
struct HeldText {
    begin: usize,
    escaped: bool,
}

/// Returns the bytes of a text up to an offset, or all of them.
#[inline(always)]
pub fn text_upto(text: &str, end: Option<usize>) -> &[u8]
    requires { IfSome end (λ e. e ≤ length text.now) }
    ensures value { result.now ≡ text_upto text.now end }
    ensures utf8 { IsUtf8 text.now }
{
    let bytes = text.as_bytes();
    match end {
        Some(end) => &bytes[..end],
        None => bytes,
    }
}

// A text that begins at an offset, with no backslash dropped before it.
#[inline(always)]
fn held_from(begin: usize) -> HeldText
    ensures { result ≡ record { «begin» = begin; escaped = false } }
{
    HeldText {
        begin,
        escaped: false,
    }
}

// Appends the tokens of a content, except for a pending text. Returns the end of the content and that text.
#[inline(always)]
fn append_pieces(
    text: &[u8],
    content: Content<'_>,
    tree: &mut Tree<Item>,
    texts: &mut Vec<CowStr<'_>>,
    braces: &mut BraceContexts,
) -> Result<(usize, HeldText), AllocError>
    requires utf8 { IsUtf8 content.whole.now }
    requires front { text.now ≡ text_upto content.whole.now content.«end» }
    requires within { content.start ≤ length text.now }
    requires marks { MarksSpecial content.special.now content.options }
    ensures read { IfOk result (λ answer.
        IsHeldTo texts.new.items (content_in text.now content.entry braces.old) tree.old tree.new
        (spot answer.0 braces.new) answer.1) }
    ensures more { OnOk result (AreMore texts.new.items texts.old.items) }
    ensures order { IfOk result (λ answer. content.entry.start ≤ answer.0) }
    ensures within { IfOk result (λ answer. answer.0 ≤ length text.now) }
{
    let mut pending = held_from(content.start);
    let mut from = content.start;
    while let Some(at) = next_special_in_words(content.special, text, from) {
        if special_ends_at(text, content, at) {
            return Ok((at, pending));
        }
        // A pipe that ends no cell is plain text, and others are often close after it. They are passed over with it.
        if text[at] == b'|' {
            from = pipes_end(text, at);
            continue;
        }
        if let Some(known) = quick_piece(text, content, at) {
            from = append_through(tree, &mut pending, at, known)?;
            continue;
        }
        let found = special_found(text, content, at);
        let piece = named_piece(texts, braces, found)?;
        from = append_through(tree, &mut pending, at, piece)?;
    }
    Ok((text.len(), pending))
}

// The end of the pipes that begin at `at`. Between two of them is at most one letter, digit or hyphen.
#[inline(never)]
fn pipes_end(text: &[u8], at: usize) -> usize
    requires within { at < length text.now }
    requires here { slice_index text.now at ≡ pipe }
    ensures some { at < result }
    ensures within { result ≤ length text.now }
    ensures pipes { (k : ℕ) → at ≤ k → k < result → is_near_pipe text.now k ≡ true }
{
    let mut end = at + 1;
    loop {
        let byte = byte_at(text, end);
        let is_word_or_hyphen = byte.is_ascii_alphanumeric() | (byte == b'-');
        if byte == b'|' {
            end += 1;
        } else if is_word_or_hyphen && byte_at(text, end + 1) == b'|' {
            end += 2;
        } else {
            return end;
        }
    }
}

// Whether the content ends at a special byte: at a line ending, or at a pipe in a row. A pipe is special only with
// tables.
#[inline(always)]
fn special_ends_at(text: &[u8], content: Content<'_>, at: usize) -> bool
    requires within { at < length text.now }
    requires marks { MarksSpecial content.special.now content.options }
    requires marked { is_marked content.special.now text.now at ≡ true }
    ensures { (b : MathBraces) → result ≡ content_ends_at (content_in text.now content.entry b) at }
{
    let byte = text[at];
    // Of the special bytes, only those of a line ending are below a space.
    if byte < b' ' {
        return true;
    }
    is_pipe_in_row(byte, content.row)
}

// Whether a byte of a content is a pipe, and the content is in a row.
#[inline(always)]
fn is_pipe_in_row(byte: u8, row: bool) -> bool
    ensures { result ≡ (byte == pipe && row) }
{
    byte == b'|' && row
}

// Appends the pending text if the piece at `at` begins another one, and the token of the piece.
#[inline(always)]
fn append_piece(
    tree: &mut Tree<Item>,
    pending: &mut HeldText,
    at: usize,
    piece: Piece,
) -> Result<(), AllocError>
    requires { at + size piece < 2 ^ 64 }
    ensures tree { OnOk result (tree.new ≡ tree_after at piece pending.old tree.old) }
    ensures pending { OnOk result (pending.new ≡ held_after at piece pending.old) }
{
    match piece {
        Piece::Left(_) => {}
        Piece::Begins(dropped, escaped) => {
            tree.append_text(pending.begin, at, pending.escaped)?;
            *pending = HeldText {
                begin: at + dropped,
                escaped,
            };
        }
        Piece::Token(dropped, n, body) => {
            tree.append_text(pending.begin, at, pending.escaped)?;
            let start = at + dropped;
            let end = start + n;
            tree.append(Item { start, end, body })?;
            *pending = HeldText {
                begin: end,
                escaped: false,
            };
        }
        Piece::Run(n, opens, closes) => {
            tree.append_text(pending.begin, at, pending.escaped)?;
            append_run(tree, at, n, opens, closes)?;
            *pending = HeldText {
                begin: at + n,
                escaped: false,
            };
        }
    }
    Ok(())
}

// The same as `append_piece`. Returns the offset after the piece.
#[inline(always)]
fn append_through(
    tree: &mut Tree<Item>,
    pending: &mut HeldText,
    at: usize,
    piece: Piece,
) -> Result<usize, AllocError>
    requires { at + size piece < 2 ^ 64 }
    ensures tree { OnOk result (tree.new ≡ tree_after at piece pending.old tree.old) }
    ensures pending { OnOk result (pending.new ≡ held_after at piece pending.old) }
    ensures next { IfOk result (λ next. next ≡ at + size piece) }
{
    append_piece(tree, pending, at, piece)?;
    Ok(at + piece_len(piece))
}

// Appends a token for each of `n` delimiters from an offset on.
fn append_run(
    tree: &mut Tree<Item>,
    at: usize,
    n: usize,
    opens: bool,
    closes: bool,
) -> Result<(), AllocError>
    requires { at + n < 2 ^ 64 }
    ensures { OnOk result (tree.new ≡ with_tokens tree.old (run_tokens at n opens closes)) }
{
    let mut next = at;
    let mut left = n;
    while 0 < left {
        tree.append(Item {
            start: next,
            end: next + 1,
            body: ItemBody::MaybeEmphasis(left, opens, closes),
        })?;
        next += 1;
        left -= 1;
    }
    Ok(())
}

// Ends a line: appends the last text, and returns the end of the line and its break.
#[inline(always)]
#[tactic(auto, unfolding(crate::specs::LineTokens::text_end, crate::specs::LineTokens::line_break, crate::specs::LineTokens::breaks_by_backslash, crate::specs::LineTokens::backslashes_at_end, crate::specs::LineTokens::blanks_at_end))]
fn end_line(
    text: &[u8],
    content: Content<'_>,
    end: usize,
    pending: HeldText,
    tree: &mut Tree<Item>,
) -> Result<(usize, Option<Item>), AllocError>
    requires order { content.start ≤ end }
    requires within { end ≤ length text.now }
    ensures tree { OnOk result ((b : MathBraces) → tree.new
        ≡ with_text tree.old pending.begin (text_end (content_in text.now content.entry b) end) pending.escaped) }
    ensures answer { IfOk result (λ answer. (b : MathBraces) → answer
        ≡ (
          end + line_end_len (content_in text.now content.entry b) end,
          line_break (content_in text.now content.entry b) end,
        )) }
{
    let next = end + line_end_len(text, end);
    if end < text.len() && ends_solid(text, content.start, end) {
        tree.append_text(pending.begin, end, pending.escaped)?;
        return Ok((next, Some(break_of(end, next, false, 0))));
    }
    let by_backslash = breaks_by_backslash(text, content.start, end, next);
    let blanks = blanks_at_end(text, content.start, end);
    let stop = if by_backslash { end - 1 } else { end - blanks };
    tree.append_text(pending.begin, stop, pending.escaped)?;
    if end == text.len() {
        return Ok((next, None));
    }
    Ok((next, Some(break_of(end, next, by_backslash, blanks))))
}

// Whether the content has a last byte that is above the space and no backslash, as most lines have. Such a line has
// no white space at its end, and no hard break after it.
#[inline(always)]
fn ends_solid(text: &[u8], start: usize, end: usize) -> bool
    requires order { start ≤ end }
    requires within { end ≤ length text.now }
    ensures value { result ≡ (nat_lt start end
        && (nat_lt space (slice_index text.now (end - 1)) && not (slice_index text.now (end - 1) == backslash))) }
    ensures white { IsTrue result → suffix_len is_white_byte (slice_range text.now start end) ≡ 0 }
    ensures backslashes { IsTrue result → suffix_len (λ b. b == backslash) (slice_range text.now start end) ≡ 0 }
{
    start < end && text[end - 1] > b' ' && text[end - 1] != b'\\'
}

// The break from the end of a content up to an offset.
#[inline(always)]
fn break_of(end: usize, next: usize, by_backslash: bool, blanks: usize) -> Item
    requires backslash { IsTrue by_backslash → 0 < end }
    requires white { blanks ≤ end }
    ensures { result ≡ break_of end next by_backslash blanks }
{
    if by_backslash {
        Item {
            start: end - 1,
            end: next,
            body: ItemBody::HardBreak(true),
        }
    } else if blanks >= 2 {
        Item {
            start: end - blanks,
            end: next,
            body: ItemBody::HardBreak(false),
        }
    } else {
        Item {
            start: end,
            end: next,
            body: ItemBody::SoftBreak,
        }
    }
}

// Whether the line, which ends at `next`, breaks by its last backslash.
fn breaks_by_backslash(text: &[u8], start: usize, end: usize, next: usize) -> bool
    requires order { start ≤ end }
    requires within { end ≤ length text.now }
    ensures value { result ≡ ((suffix_len (λ b. b == backslash) (slice_range text.now start end) % 2 == 1)
        && nat_lt next (length text.now)) }
    ensures nonempty { IsTrue result → start < end }
{
    next < text.len() && backslashes_at_end(text, start, end) % 2 == 1
}

// The number of backslashes at the end of the content.
fn backslashes_at_end(text: &[u8], start: usize, end: usize) -> usize
    requires order { start ≤ end }
    requires within { end ≤ length text.now }
    ensures value { result ≡ suffix_len (λ b. b == backslash) (slice_range text.now start end) }
    ensures fits { start + result ≤ end }
{
    let bytes = &text[start..end];
    bytes.iter().rev().take_while(|b| **b == b'\\').count()
}

// The number of bytes of white space at the end of the content.
fn blanks_at_end(text: &[u8], start: usize, end: usize) -> usize
    requires order { start ≤ end }
    requires within { end ≤ length text.now }
    ensures value { result ≡ suffix_len is_white_byte (slice_range text.now start end) }
    ensures fits { start + result ≤ end }
{
    // One space and none are the most frequent.
    let bytes = &text[start..end];
    match bytes {
        [.., before, b' '] if *before > b' ' => 1,
        [.., last] if *last > b' ' => 0,
        _ => bytes.iter().rev().take_while(|b| is_white(**b)).count(),
    }
}

/// Returns the length of the line ending at the offset `end`: `\r\n` has two bytes. Returns 0 at the end of the text.
/// The result is 1 at any other byte too, so call it only where a line ends (CommonMark 2.1).
#[tactic(auto, unfolding(crate::specs::LineTokens::line_end_len))]
pub fn line_end_len(text: &[u8], end: usize) -> usize
    requires { end ≤ length text.now }
    ensures value { (c : Content) (b : MathBraces) → result ≡ line_end_len (content_in text.now c b) end }
    ensures fits { end + result ≤ length text.now }
{
    if end >= text.len() {
        0
    } else if text[end] == b'\r' && end + 1 < text.len() && text[end + 1] == b'\n' {
        2
    } else {
        1
    }
}
