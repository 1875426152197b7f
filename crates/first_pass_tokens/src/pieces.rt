//! The pieces of the content of a line: the one that begins at an offset.

ghost use Rattle.first_pass_items.specs.Bytes.{backslash, backquote, hyphen, full_stop, underscore};
ghost use Rattle.first_pass_tokens.specs.Braces.{MathBraces};
ghost use Rattle.first_pass_tokens.specs.Pieces.{content_in, IsReadyAt, is_quick_at, is_inside_word, is_solid_at, dollar_found, special_found, reference_found, dash_found, found_size, FoundSolid, special_piece, backslash_piece, backslash_piece_in, backquote_piece, is_delimiter, char_before, run_in, run_size, is_quote, quote_piece, dot_piece, run_piece, delimiter_piece, run_at, size, EndsSolid};
ghost use Rattle.std.specs.Prelude.{◌≡◌, ◌||◌, ◌+◌, ◌<◌, ◌≤◌, ◌^◌, true, false, IfSome, is_some, length, slice_index, take, ℕ, List, IsCharBoundary, IsUtf8};

use first_pass_entities::entity::scan_reference;
use first_pass_items::item::ItemBody;
use first_pass_items::option_set::Options;
use first_pass_lines::lines::is_white_or_line_end;
use first_pass_lines::places::rest_of;
use first_pass_walk::flank::{DelimiterRun, ends_with_pipe, first_char, last_char};

/// The content of a line of text, or of a cell in a table row.
#[derive(Clone, Copy, Drop)]
pub struct Content<'t> {
    /// The options under which it is read.
    pub options: Options,
    /// The whole text around it; offsets are into this text.
    pub whole: &'t str,
    /// The bytes that are special under its options.
    pub special: &'t [bool; 256],
    /// Its start, an offset into the text.
    pub start: usize,
    /// The offset into the text at which it ends at the latest; `None` for the end of the text.
    pub end: Option<usize>,
    /// Whether it is that of a cell.
    pub row: bool,
}

/// A part of the content of a line, from which tokens are made.
#[derive(Clone, Copy, Drop)]
pub enum Piece {
    /// Plain text: bytes that are part of a text.
    Left(usize),
    /// Backslashes that are dropped (their number), and a byte that begins a text, escaped or not.
    Begins(usize, bool),
    /// Backslashes that are dropped (their number), then a token other than a text (its length and kind).
    Token(usize, usize, ItemBody),
    /// A token for each delimiter of a run: the length of the run, and whether it can open and close.
    Run(usize, bool, bool),
}

/// A piece at an offset of a content, or one that `named_piece` completes with the texts that tokens name and the brace
/// contexts.
#[derive(Clone, Copy, Drop)]
pub enum TokenStart {
    /// A piece that names no text.
    Ready(Piece),
    /// A reference: its length in bytes, and its character.
    Reference(usize, char),
    /// A run of hyphens, four or more.
    Dashes(usize),
    /// A dollar sign of possible math: whether it can open and close.
    Dollar(bool, bool),
    /// `{`, which opens a brace context.
    OpenBrace,
    /// `}`, which closes a brace context.
    CloseBrace,
}

/// Returns the piece found at a special byte of a content where `quick_piece` finds none. It is a reference
/// (CommonMark 2.5), four or more hyphens with smart punctuation, a dollar sign or a brace with math, or a piece that
/// needs nothing else (see `special_piece`). `at` is the offset of the byte into the whole text, and `text` is that
/// text up to the end of the content.
#[inline(always)]
#[tactic(auto, unfolding(crate::specs::Pieces::special_found))]
pub(crate) fn special_found(text: &[u8], content: Content<'_>, at: usize) -> TokenStart
    requires utf8 { IsUtf8 content.whole.now }
    requires front { text.now ≡ take (length text.now) content.whole.now }
    requires within { at < length text.now }
    requires order { content.start ≤ at }
    requires none { is_quick_at content.row text.now at ≡ false }
    ensures value { (b : MathBraces) → result ≡ special_found (content_in text.now content.entry b) at }
    ensures fits { at + found_size result ≤ length text.now }
    ensures ends { FoundSolid text.now at result }
{
    match text[at] {
        b'&' => reference_found(text, at),
        b'-' => dash_found(text, at),
        b'$' => dollar_found(text, content, at),
        b'{' => TokenStart::OpenBrace,
        b'}' => TokenStart::CloseBrace,
        _ => TokenStart::Ready(special_piece(text, content, at)),
    }
}

/// Returns the piece at a special byte that is found at once. It is the token at `<` with no backslash after it, at
/// `[`, at `]` and at `![`, and that of a run of backquotes. It is plain text at `!` with no `[` after it, at `.`
/// with no `.` after it, at `-` with no `-` after it and at a backslash with no ASCII punctuation after it. Outside a
/// row, it is the escape at a backslash before ASCII punctuation other than a backquote. At `*`, `_`, `~` and `^` it
/// is the piece of the run, but a `_` between two ASCII letters or digits of the content is plain text. Each piece is
/// the one that the definition `special_found` gives. Returns `None` at any other byte.
#[inline(always)]
#[tactic(auto, using(crate::proofs::QuickPieces::less_ready, crate::proofs::QuickPieces::left_ready, crate::proofs::QuickPieces::right_ready, crate::proofs::QuickPieces::image_ready, crate::proofs::QuickPieces::exclamation_ready, crate::proofs::QuickPieces::stop_ready, crate::proofs::QuickPieces::hyphen_ready, crate::proofs::QuickPieces::backslash_ready, crate::proofs::QuickPieces::escape_ready, crate::proofs::QuickPieces::backquote_ready, crate::proofs::QuickPieces::delimiter_ready, crate::proofs::InsideWords::inside_word_ready))]
pub(crate) fn quick_piece(text: &[u8], content: Content<'_>, at: usize) -> Option<Piece>
    requires utf8 { IsUtf8 content.whole.now }
    requires front { text.now ≡ take (length text.now) content.whole.now }
    requires within { at < length text.now }
    requires order { content.start ≤ at }
    ensures some { is_some result ≡ is_quick_at content.entry.row text.now at }
    ensures value { IfSome result (λ piece. (b : MathBraces)
        → IsReadyAt (content_in text.now content.entry b) at piece) }
    ensures fits { IfSome result (λ piece. at + size piece ≤ length text.now) }
    ensures ends { IfSome result (λ piece. EndsSolid text.now at piece) }
{
    match text[at] {
        b'<' if byte_at(text, at + 1) != b'\\' => Some(Piece::Token(0, 1, ItemBody::MaybeHtml)),
        b'[' => Some(Piece::Token(0, 1, ItemBody::MaybeLinkOpen)),
        b']' => Some(Piece::Token(0, 1, ItemBody::MaybeLinkClose(true))),
        b'!' if byte_at(text, at + 1) == b'[' => Some(Piece::Token(0, 2, ItemBody::MaybeImage)),
        b'!' => Some(Piece::Left(1)),
        b'.' if byte_at(text, at + 1) != b'.' => Some(Piece::Left(1)),
        b'-' if byte_at(text, at + 1) != b'-' => Some(Piece::Left(1)),
        b'\\' if !byte_at(text, at + 1).is_ascii_punctuation() => Some(Piece::Left(1)),
        b'\\' if !content.row && byte_at(text, at + 1) != b'`' => Some(Piece::Begins(1, true)),
        b'`' => Some(backquote_piece(text, at)),
        b'_' if is_inside_word(text, content.start, at) => Some(Piece::Left(1)),
        b'*' | b'_' | b'~' | b'^' => Some(delimiter_piece(text, content, at)),
        _ => None,
    }
}

// Whether the underscore at an offset is between two ASCII letters or digits of a content, which begins at `start`.
#[inline(always)]
fn is_inside_word(text: &[u8], start: usize, at: usize) -> bool
    requires within { at < length text.now }
    requires here { slice_index text.now at ≡ underscore }
    ensures { result ≡ is_inside_word text.now start at }
{
    start < at
        && text[at - 1].is_ascii_alphanumeric()
        && byte_at(text, at + 1).is_ascii_alphanumeric()
}

// The piece found at a dollar sign.
#[tactic(auto, unfolding(crate::specs::Pieces::dollar_found))]
fn dollar_found(text: &[u8], content: Content<'_>, at: usize) -> TokenStart
    requires { at < length text.now }
    ensures value { (b : MathBraces) → result ≡ dollar_found (content_in text.now content.entry b) at }
    ensures one { found_size result ≡ 1 }
    ensures ends { FoundSolid text.now at result }
{
    let opens = is_solid_at(text, at + 1);
    let closes = content.start < at && is_solid_at(text, at - 1);
    TokenStart::Dollar(opens, closes)
}

// Whether there is a byte at an offset, and it is neither white space nor part of a line ending.
fn is_solid_at(text: &[u8], at: usize) -> bool
    ensures { result ≡ is_solid_at text.now at }
{
    at < text.len() && !is_white_or_line_end(text[at])
}

// The piece found at an ampersand.
#[tactic(auto, unfolding(crate::specs::Pieces::reference_found))]
fn reference_found(text: &[u8], at: usize) -> TokenStart
    requires { at < length text.now }
    ensures value { result ≡ reference_found text.now at }
    ensures fits { at + found_size result ≤ length text.now }
    ensures ends { FoundSolid text.now at result }
{
    match scan_reference(rest_of(text, at)) {
        Some((len, character)) => TokenStart::Reference(len, character),
        None => TokenStart::Ready(Piece::Left(1)),
    }
}

// The piece found at a hyphen.
#[tactic(auto, unfolding(crate::specs::Pieces::dash_found, crate::specs::Pieces::dash_piece))]
fn dash_found(text: &[u8], at: usize) -> TokenStart
    requires within { at < length text.now }
    requires here { slice_index text.now at ≡ hyphen }
    ensures value { result ≡ dash_found text.now at }
    ensures fits { at + found_size result ≤ length text.now }
    ensures ends { FoundSolid text.now at result }
{
    match run_len(text, at) {
        2 => TokenStart::Ready(Piece::Token(0, 2, ItemBody::SynthesizeChar('\u{2013}'))),
        3 => TokenStart::Ready(Piece::Token(0, 3, ItemBody::SynthesizeChar('\u{2014}'))),
        n if n > 3 => TokenStart::Dashes(n),
        n => TokenStart::Ready(Piece::Left(n)),
    }
}

// The piece at any other special byte of a content where `quick_piece` finds none. `at` is its offset into the text
// `whole`, and `text` is that text up to the end of the content. With smart punctuation, a quote is a token, and three
// full stops are a token of one character. A backslash before backquotes or other ASCII punctuation is dropped
// (CommonMark 2.4). In a table row, a backslash before a pipe is dropped, and so are two of them (GFM 4.10). Any other
// byte is plain text.
#[inline(always)]
#[tactic(auto, unfolding(crate::specs::Pieces::special_piece))]
fn special_piece(text: &[u8], content: Content<'_>, at: usize) -> Piece
    requires utf8 { IsUtf8 content.whole.now }
    requires front { text.now ≡ take (length text.now) content.whole.now }
    requires within { at < length text.now }
    requires order { content.start ≤ at }
    requires none { is_quick_at content.row text.now at ≡ false }
    ensures value { (b : MathBraces) → result ≡ special_piece (content_in text.now content.entry b) at }
    ensures fits { at + size result ≤ length text.now }
    ensures ends { EndsSolid text.now at result }
{
    match text[at] {
        b'\\' => backslash_piece_in(text, at, content.row),
        b'"' | b'\'' => quote_piece(text, content, at),
        b'.' => dot_piece(text, at),
        _ => Piece::Left(1),
    }
}

/// Returns the number of bytes that a piece takes.
pub fn piece_len(piece: Piece) -> usize
    requires { size piece < 2 ^ 64 }
    ensures { result ≡ size piece }
{
    match piece {
        Piece::Left(n) => n,
        Piece::Begins(dropped, _) => dropped + 1,
        Piece::Token(dropped, n, _) => dropped + n,
        Piece::Run(n, _, _) => n,
    }
}

// The piece at a backslash, in a table row or elsewhere: in a row, `\|` is a pipe that ends no cell, and so is `\\|`.
fn backslash_piece_in(text: &[u8], at: usize, row: bool) -> Piece
    requires within { at < length text.now }
    requires here { slice_index text.now at ≡ backslash }
    ensures value { result ≡ backslash_piece_in row text.now at }
    ensures fits { at + size result ≤ length text.now }
    ensures ends { EndsSolid text.now at result }
{
    if row && byte_at(text, at + 1) == b'|' {
        return Piece::Begins(1, false);
    }
    if row && byte_at(text, at + 1) == b'\\' && byte_at(text, at + 2) == b'|' {
        return Piece::Begins(2, true);
    }
    backslash_piece(text, at)
}

// The piece at a backslash that no pipe follows.
#[tactic(auto, unfolding(crate::specs::Pieces::backslash_piece))]
fn backslash_piece(text: &[u8], at: usize) -> Piece
    requires within { at < length text.now }
    requires here { slice_index text.now at ≡ backslash }
    ensures value { result ≡ backslash_piece text.now at }
    ensures fits { at + size result ≤ length text.now }
    ensures ends { EndsSolid text.now at result }
{
    let next = byte_at(text, at + 1);
    if next == b'`' {
        let n = run_len(text, at + 1);
        Piece::Token(1, n, ItemBody::MaybeCode(n, true))
    } else if next.is_ascii_punctuation() {
        Piece::Begins(1, true)
    } else {
        Piece::Left(1)
    }
}

// The piece at a run of backquotes.
#[tactic(auto, unfolding(crate::specs::Pieces::backquote_piece))]
fn backquote_piece(text: &[u8], at: usize) -> Piece
    requires within { at < length text.now }
    requires here { slice_index text.now at ≡ backquote }
    ensures value { result ≡ backquote_piece text.now at }
    ensures fits { at + size result ≤ length text.now }
    ensures ends { EndsSolid text.now at result }
{
    let n = run_len(text, at);
    Piece::Token(0, n, ItemBody::MaybeCode(n, false))
}

// The piece at a delimiter. A run of `*`, `_`, `^` or at most two `~` that can open or close is a token for each of
// them, and other runs are plain text (CommonMark 6.2, GFM 6.5).
#[inline(always)]
#[tactic(auto, unfolding(crate::specs::Pieces::delimiter_piece))]
fn delimiter_piece(text: &[u8], content: Content<'_>, at: usize) -> Piece
    requires utf8 { IsUtf8 content.whole.now }
    requires front { text.now ≡ take (length text.now) content.whole.now }
    requires within { at < length text.now }
    requires order { content.start ≤ at }
    requires here { is_delimiter (slice_index text.now at) ≡ true }
    ensures value { (b : MathBraces) → result ≡ delimiter_piece (content_in text.now content.entry b) at }
    ensures fits { at + size result ≤ length text.now }
    ensures ends { EndsSolid text.now at result }
{
    run_piece(&run_in(text, content, at))
}

// A delimiter run as a piece.
#[inline(always)]
fn run_piece(run: &DelimiterRun) -> Piece
    requires { 0 < run.now.size }
    ensures value { result ≡ run_piece run.now }
    ensures size { size result ≡ run.now.size }
    ensures ends { (text : List ℕ) (at : ℕ) → EndsSolid text at result }
{
    let opens = run.can_open();
    let closes = run.can_close();
    if !opens && !closes || run.delimiter == b'~' && run.size > 2 {
        Piece::Left(run.size)
    } else {
        Piece::Run(run.size, opens, closes)
    }
}

// The delimiter run at an offset, with the characters beside it.
#[inline(always)]
#[tactic(auto, unfolding(crate::specs::Pieces::run_in))]
fn run_in(text: &[u8], content: Content<'_>, at: usize) -> DelimiterRun
    requires utf8 { IsUtf8 content.whole.now }
    requires front { text.now ≡ take (length text.now) content.whole.now }
    requires within { at < length text.now }
    requires order { content.start ≤ at }
    requires here { is_delimiter (slice_index text.now at) || is_quote (slice_index text.now at) ≡ true }
    ensures value { (b : MathBraces) → result ≡ run_in (content_in text.now content.entry b) at (run_size text.now at) }
    ensures some { 0 < result.size }
    ensures fits { at + result.size ≤ length text.now }
{
    let size = run_size(text, at);
    DelimiterRun {
        delimiter: text[at],
        in_row: content.row,
        after_pipe: ends_with_pipe(&text[content.start..at]),
        before: char_before(content, at),
        after: first_char(&content.whole[at + size..]),
        size,
    }
}

// The length of the delimiter run at an offset; a quote is a run of one.
#[tactic(auto, unfolding(crate::specs::Pieces::run_size))]
fn run_size(text: &[u8], at: usize) -> usize
    requires { at < length text.now }
    ensures value { result ≡ run_size text.now at }
    ensures some { 0 < result }
    ensures fits { at + result ≤ length text.now }
{
    match text[at] {
        b'"' | b'\'' => 1,
        _ => run_len(text, at),
    }
}

// The piece at a quote.
#[inline(always)]
#[tactic(auto, unfolding(crate::specs::Pieces::quote_piece))]
fn quote_piece(text: &[u8], content: Content<'_>, at: usize) -> Piece
    requires utf8 { IsUtf8 content.whole.now }
    requires front { text.now ≡ take (length text.now) content.whole.now }
    requires within { at < length text.now }
    requires order { content.start ≤ at }
    requires here { is_quote (slice_index text.now at) ≡ true }
    ensures value { (b : MathBraces) → result ≡ quote_piece (content_in text.now content.entry b) at }
    ensures fits { at + size result ≤ length text.now }
    ensures ends { EndsSolid text.now at result }
{
    let run = run_in(text, content, at);
    Piece::Token(
        0,
        1,
        ItemBody::MaybeSmartQuote(run.delimiter, run.can_open(), run.can_close()),
    )
}

// The piece at a full stop.
#[tactic(auto, unfolding(crate::specs::Pieces::dot_piece))]
fn dot_piece(text: &[u8], at: usize) -> Piece
    requires within { at < length text.now }
    requires here { slice_index text.now at ≡ full_stop }
    ensures value { result ≡ dot_piece text.now at }
    ensures fits { at + size result ≤ length text.now }
    ensures ends { EndsSolid text.now at result }
{
    if byte_at(text, at + 1) == b'.' && byte_at(text, at + 2) == b'.' {
        Piece::Token(0, 3, ItemBody::SynthesizeChar('\u{2026}'))
    } else {
        Piece::Left(1)
    }
}

// The character before an offset of a content, unless the offset is its start.
#[inline(always)]
#[tactic(auto, unfolding(crate::specs::Pieces::char_before))]
fn char_before(content: Content<'_>, at: usize) -> Option<char>
    requires { IsCharBoundary content.whole.now at }
    ensures { (b : MathBraces) (text : List ℕ) → result ≡ char_before (content_in text content.entry b) at }
{
    if content.start < at {
        last_char(&content.whole[..at])
    } else {
        None
    }
}

// The length of the run of equal bytes at an offset.
#[tactic(auto, unfolding(crate::specs::Pieces::run_at))]
fn run_len(text: &[u8], at: usize) -> usize
    requires { at < length text.now }
    ensures value { result ≡ run_at text.now at }
    ensures some { 0 < result }
    ensures fits { at + result ≤ length text.now }
{
    let byte = text[at];
    rest_of(text, at).iter().take_while(|b| **b == byte).count()
}

/// Returns the byte at an offset, or 0 past the end.
pub(crate) fn byte_at(text: &[u8], at: usize) -> u8
    ensures { result ≡ slice_index text.now at }
{
    if at < text.len() { text[at] } else { 0 }
}
