//! Laws of the content of a chain whose tokens are in order.

ghost use Rattle.first_pass_content.specs.Chains.{AreRangesIn, IsChainIn};
ghost use Rattle.first_pass_content.specs.Content.{bytes_of, content, range_in};
ghost use Rattle.first_pass_content.specs.Tokens.{IsWholeToken, placed_tokens};
ghost use Rattle.first_pass_items.specs.declared.item.Item.{Item};
ghost use Rattle.std.specs.Prelude.{ℕ, ◌≤◌, All, IsCharBoundary, IsUtf8, List};

/// The ranges of the bytes of a content are in order between the offsets that its tokens are between.
pub fn bytes_are_in_order()
    ensures { (text : List ℕ) (tokens : List (ℕ × Item)) (from to : ℕ) → IsChainIn text from to tokens
        → AreRangesIn from to (content text tokens) }
{}

/// A part of a content that begins and ends at characters of the content has a range that does so in the text. The
/// start of that range is not after its end.
pub fn parts_have_whole_characters()
    ensures { (text : List ℕ) (tokens : List (ℕ × Item)) (from to first past : ℕ) → IsUtf8 text
        → IsChainIn text from to tokens → first ≤ past → IsCharBoundary (bytes_of (content text tokens)) first
        → IsCharBoundary (bytes_of (content text tokens)) past
        → let r = range_in (content text tokens) first past in
        (r.start ≤ r.«end») × IsCharBoundary text r.start × IsCharBoundary text r.«end» }
{}

/// The content of a chain of a text in UTF-8 is UTF-8.
pub fn content_is_utf8()
    ensures { (text : List ℕ) (tokens : List (ℕ × Item)) (from to : ℕ) → IsUtf8 text → IsChainIn text from to tokens
        → IsUtf8 (bytes_of (content text tokens)) }
{}

/// Each token of a chain of a text in UTF-8 begins and ends at characters of the content.
pub fn tokens_have_whole_characters()
    ensures { (text : List ℕ) (tokens : List (ℕ × Item)) (from to : ℕ) → IsUtf8 text → IsChainIn text from to tokens
        → All (IsWholeToken (bytes_of (content text tokens))) (placed_tokens text 0 tokens) }
{}
