//! The start of a token, and the bytes between two offsets.

ghost use Rattle.first_pass_reports.specs.Pairs.{is_escaped, whole_start};
ghost use Rattle.std.specs.List.{slice_range};
ghost use Rattle.std.specs.Prelude.{◌≡◌};

use first_pass_items::item::{Item, ItemBody};

/// The start of a token, including the backslash that was dropped before it (CommonMark 2.4).
pub fn whole_start(token: Item) -> usize
    ensures { result ≡ whole_start token }
{
    if is_escaped(token.body) {
        token.start.saturating_sub(1)
    } else {
        token.start
    }
}

// Whether a backslash before the token was dropped.
fn is_escaped(body: ItemBody) -> bool
    ensures { result ≡ is_escaped body }
{
    match body {
        ItemBody::Text { backslash_escaped } => backslash_escaped,
        ItemBody::MaybeCode(_, escaped) => escaped,
        _ => false,
    }
}

/// Returns the bytes between two offsets, as far as the text has them.
pub fn bytes_between(text: &[u8], from: usize, to: usize) -> &[u8]
    ensures { result.now ≡ slice_range text.now from to }
{
    let rest = text.get(from..).unwrap_or(&[]);
    rest.get(..to.saturating_sub(from)).unwrap_or(rest)
}
