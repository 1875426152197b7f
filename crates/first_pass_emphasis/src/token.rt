//! Tokens of a level: runs, quotation marks, and all others.

ghost use Rattle.first_pass_emphasis.specs.Tokens.{HasMarks, count_of as count_by, counted as counted_by, run_of as run_by, side_of, token_of};
ghost use Rattle.std.specs.Option.{unwrap_or};
ghost use Rattle.std.specs.Prelude.{◌≡◌, ◌≤◌, length, slice_get};

use crate::quotes::Quote;
use crate::run::Run;
use bitflags::Flags;
use first_pass_inline::mark::{Mark, MarkKind};
use first_pass_items::item::ItemBody;
use first_pass_items::option_set::Options;

/// What a mark is in its level.
#[derive(Clone, Copy, PartialEq, Eq)]
pub(crate) enum Token {
    /// The first delimiter of a run.
    Delimiter(Run),
    /// A quotation mark.
    Quotation(Quote),
    /// Anything else.
    Other,
}

/// Where the mark of a bracket is.
#[derive(Clone, Copy, PartialEq, Eq)]
pub(crate) enum Side {
    /// Before a level, which begins at a place of the content or after it.
    Before(usize),
    /// After a level.
    After,
    /// It is no bracket of a level.
    Within,
}

/// Returns where the mark of a bracket is: what is in a link or an image is a level, and so is what is shown in the
/// name of a wikilink.
pub(crate) fn side_of(kind: MarkKind) -> Side
    ensures { result ≡ side_of kind }
{
    match kind {
        MarkKind::Link(_) => Side::Before(0),
        MarkKind::Name(name) => Side::Before(match name.shown {
            Some(shown) => shown.start,
            None => name.name.end,
        }),
        MarkKind::LinkEnd | MarkKind::NameEnd => Side::After,
        _ => Side::Within,
    }
}

/// Returns what a mark is in a level that begins at a place, given the marks after it.
#[tactic(auto, unfolding(crate::specs::Tokens::token_of))]
pub(crate) fn token_of(
    content: &[u8],
    options: Options,
    from: usize,
    mark: Mark,
    following: &[Mark],
) -> Token
    ensures value { result ≡ token_of content.now options from mark following.now }
    ensures marks { HasMarks mark following.now result }
{
    if mark.part.start < from {
        return Token::Other;
    }
    match mark.kind {
        MarkKind::Token(ItemBody::MaybeEmphasis(count, opens, closes)) => {
            let run = Run {
                byte: byte_at(content, mark.part.start),
                size: 1 + counted(count.saturating_sub(1), following),
                opens,
                closes,
                has_subscript: options.contains(Options::ENABLE_SUBSCRIPT),
            };
            Token::Delimiter(enabled(run, options))
        }
        MarkKind::Token(ItemBody::MaybeSmartQuote(byte, opens, closes)) => {
            Token::Quotation(Quote {
                byte,
                opens,
                closes,
            })
        }
        _ => Token::Other,
    }
}

// The byte at a place.
fn byte_at(content: &[u8], at: usize) -> u8
    ensures { result ≡ unwrap_or (slice_get content.now at) 0 }
{
    match content.get(at) {
        Some(byte) => *byte,
        None => 0,
    }
}

// The run, which neither opens nor closes if it is of two `~` and strikethrough is off.
fn enabled(run: Run, options: Options) -> Run
    ensures { result ≡ run_by run options }
{
    if run.byte == b'~' && run.size == 2 && !options.contains(Options::ENABLE_STRIKETHROUGH) {
        Run {
            opens: false,
            closes: false,
            ..run
        }
    } else {
        run
    }
}

// How many of these marks, from the first on, are delimiters that count down from this number.
fn counted(count: usize, marks: &[Mark]) -> usize
    ensures value { result ≡ counted_by count marks.now }
    ensures within { result ≤ length marks.now }
{
    let mut size = 0;
    while size < count && size < marks.len() && count_of(marks[size].kind) == count - size {
        size += 1;
    }
    size
}

// How many delimiters a run has from the mark of one of them on, or 0.
fn count_of(kind: MarkKind) -> usize
    ensures { result ≡ count_by kind }
{
    match kind {
        MarkKind::Token(ItemBody::MaybeEmphasis(count, _, _)) => count,
        _ => 0,
    }
}
