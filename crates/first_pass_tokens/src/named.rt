//! The texts that tokens name: those of references (CommonMark 2.5), and of runs of four and more hyphens.

ghost use Rattle.first_pass_entities.specs.Texts.{TakesNoMemory};
ghost use Rattle.first_pass_items.specs.CowText.{text_of};
ghost use Rattle.first_pass_tokens.specs.Braces.{braces_after};
ghost use Rattle.first_pass_tokens.specs.NamedTexts.{times, dash_counts, dashes, IsNamingToken, MakesPiece, AreMore, AddsNamed};
ghost use Rattle.first_pass_tokens.specs.Pieces.{found_size, size};
ghost use Rattle.std.specs.Prelude.{◌≡◌, ◌+◌, ◌*◌, [], ◌∷◌, ◌++◌, ◌≤◌, encode_utf8, IfOk, OnOk};
ghost use Rattle.std.specs.String.{string_bytes};

use crate::braces::BraceContexts;
use crate::pieces::{Piece, TokenStart};
use first_pass_items::cow_str::{CowStr, InlineStr};
use first_pass_items::item::{CowIndex, ItemBody};
use std::alloc::{AllocError, Global};

/// Returns the piece for `found`. If its token names a text, that text is appended to `texts`. `braces` holds the
/// brace contexts before the piece, then those after it. The text of a reference takes no memory, nor do seven dashes
/// or fewer. Fails only if an allocation fails.
#[inline(always)]
pub fn named_piece<'a>(
    texts: &mut Vec<CowStr<'a>>,
    braces: &mut BraceContexts,
    found: TokenStart,
) -> Result<Piece, AllocError>
    ensures becomes { IfOk result (λ piece. MakesPiece texts.new.items braces.old found piece) }
    ensures braces { OnOk result (braces.new ≡ braces_after found braces.old) }
    ensures more { OnOk result (AreMore texts.new.items texts.old.items) }
    ensures adds { OnOk result (AddsNamed found texts.new.items texts.old.items) }
    ensures size { IfOk result (λ piece. size piece ≡ found_size found) }
{
    match found {
        TokenStart::Ready(piece) => Ok(piece),
        TokenStart::Reference(n, character) => {
            name_text(texts, CowStr::Inlined(InlineStr::from_char(character)), n)
        }
        TokenStart::Dashes(n) => {
            let text = dash_text(*texts.allocator(), n)?;
            name_text(texts, text, n)
        }
        TokenStart::Dollar(opens, closes) => {
            let context = braces.dollar();
            braces.pass_dollar();
            Ok(Piece::Token(0, 1, ItemBody::MaybeMath(opens, closes, context)))
        }
        TokenStart::OpenBrace => {
            braces.open();
            Ok(Piece::Left(1))
        }
        TokenStart::CloseBrace => {
            braces.close();
            Ok(Piece::Left(1))
        }
    }
}

// Appends a text to those that tokens name. Returns the token of `n` bytes that names it.
fn name_text<'a>(
    texts: &mut Vec<CowStr<'a>>,
    text: CowStr<'a>,
    n: usize,
) -> Result<Piece, AllocError>
    ensures names { IfOk result (λ piece. IsNamingToken texts.new.items n (text_of text.entry) piece) }
    ensures adds { OnOk result (texts.new.items ≡ texts.old.items ++ text.entry ∷ []) }
    ensures size { IfOk result (λ piece. size piece ≡ n) }
{
    let ix = CowIndex(texts.len());
    texts.push(text)?;
    Ok(Piece::Token(0, n, ItemBody::SynthesizeText(ix)))
}

// The dashes for `n` hyphens.
fn dash_text<'a>(alloc: Global, n: usize) -> Result<CowStr<'a>, AllocError>
    ensures value { IfOk result (λ text. text_of text ≡ dashes n) }
    ensures in_place { IfOk result (λ text.
        (dash_counts n).0 + (dash_counts n).1 ≤ 7 → TakesNoMemory text) }
{
    let (em, en) = dash_counts(n);
    if em + en <= 7 {
        return Ok(CowStr::Borrowed(short_dashes(em, en)));
    }
    let mut text = String::new(alloc);
    push_times(&mut text, '\u{2014}', em)?;
    push_times(&mut text, '\u{2013}', en)?;
    Ok(CowStr::Boxed(text.into_boxed_str()))
}

// The number of em dashes for `n` hyphens, and of en dashes after them.
#[tactic(auto, unfolding(crate::specs::NamedTexts::dash_counts))]
fn dash_counts(n: usize) -> (usize, usize)
    ensures value { result ≡ dash_counts n }
    ensures bound { 2 * (result.0 + result.1) ≤ n + 4 }
{
    if n % 3 == 0 {
        (n / 3, 0)
    } else if n % 2 == 0 {
        (0, n / 2)
    } else if n % 3 == 2 {
        ((n - 2) / 3, 1)
    } else {
        (n.saturating_sub(4) / 3, 2)
    }
}

// `em` em dashes and then `en` en dashes, at most seven together.
fn short_dashes<'a>(em: usize, en: usize) -> &'a str
    requires { em + en ≤ 7 }
    ensures { result.now ≡ times em (encode_utf8 0x2014) ++ times en (encode_utf8 0x2013) }
{
    let both = "———————–––––––";
    &both[3 * (7 - em)..3 * (7 + en)]
}

// Writes a character `n` times.
fn push_times(text: &mut String, character: char, n: usize) -> Result<(), AllocError>
    ensures { OnOk result (string_bytes text.new ≡ string_bytes text.old ++ times n (encode_utf8 character)) }
{
    for _ in 0..n {
        text.push(character)?;
    }
    Ok(())
}
