//! Laws of the definitions.

ghost use Rattle.first_pass_items.specs.declared.cow_str.CowStr.{CowStr};
ghost use Rattle.first_pass_items.specs.declared.item.Item.{Item};
ghost use Rattle.first_pass_items.specs.OptionWords.{has, tables};
ghost use Rattle.first_pass_lines.specs.Lines.{is_line_end};
ghost use Rattle.first_pass_tokens.specs.Alike.{AreAlike};
ghost use Rattle.first_pass_tokens.specs.Braces.{MathBraces};
ghost use Rattle.first_pass_tokens.specs.Chains.{AreApart};
ghost use Rattle.first_pass_tokens.specs.declared.pieces.Piece.{Piece};
ghost use Rattle.first_pass_tokens.specs.LineTokens.{Spot, AreLineTokens, IsCell, IsInPieces};
ghost use Rattle.first_pass_tokens.specs.MarkupBytes.{StandOver, TextsHaveNoBackquote, PipesAreEscaped};
ghost use Rattle.first_pass_tokens.specs.Pieces.{Inline};
ghost use Rattle.std.specs.Prelude.{◌≡◌, ◌<◌, ◌≤◌, ℕ, List, Option, true, false, length, slice_index};

/// A line has only one list of tokens (except for the indices of the texts that they name), one end and break, and
/// one list of brace contexts after it.
pub fn one_line()
    ensures { (texts more : List CowStr) (s : Inline) (tokens others : List Item) (a b : ℕ × Option Item)
        (c d : MathBraces) → AreLineTokens texts s tokens a c → AreLineTokens more s others b d
        → AreAlike texts more tokens others × (a ≡ b) × (c ≡ d) }
{}

/// A cell has only one list of tokens (except for the indices of the texts that they name), one end, and one list of
/// brace contexts after it.
pub fn one_cell()
    ensures { (texts more : List CowStr) (s : Inline) (tokens others : List Item) (a b : ℕ) (c d : MathBraces)
        → IsCell texts s tokens a c → IsCell more s others b d → AreAlike texts more tokens others × (a ≡ b) × (c ≡ d) }
{}

/// With tables, each pipe in the content of a cell is directly after a backslash (GFM 4.10).
pub fn cell_has_no_other_pipe()
    ensures { (texts : List CowStr) (s : Inline) (tokens : List Item) (end : ℕ) (after : MathBraces)
        → s.row ≡ true → has s.options tables ≡ true
        → IsCell texts s tokens end after → PipesAreEscaped s.text s.start end }
{}

/// The content of a line or a cell has no line ending.
pub fn content_has_no_line_end()
    ensures { (texts : List CowStr) (s : Inline) (pieces : List Piece) (to : Spot) → s.start ≤ length s.text
        → IsInPieces texts s pieces to
        → (k : ℕ) → s.start ≤ k → k < to.at → is_line_end (slice_index s.text k) ≡ false }
{}

/// No two texts of a line or a cell touch: texts that touch are one text.
pub fn line_is_joined()
    ensures line { (texts : List CowStr) (s : Inline) (tokens : List Item) (answer : ℕ × Option Item)
        (after : MathBraces) → AreLineTokens texts s tokens answer after
        → AreApart tokens }
    ensures cell { (texts : List CowStr) (s : Inline) (tokens : List Item) (end : ℕ) (after : MathBraces)
        → IsCell texts s tokens end after → AreApart tokens }
{}

/// A token of possible markup in a line or a cell has the bytes of its kind. They are a whole run of backquotes,
/// after a backslash if it is marked as escaped (CommonMark 6.1); a delimiter (6.2); `<` (6.5, 6.6); `![`, `[` or `]`
/// (6.3, 6.4); a quote, or the bytes that its character replaces.
pub fn markup_has_its_bytes()
    ensures line { (texts : List CowStr) (s : Inline) (tokens : List Item) (answer : ℕ × Option Item)
        (after : MathBraces) → AreLineTokens texts s tokens answer after
        → StandOver s.text tokens }
    ensures cell { (texts : List CowStr) (s : Inline) (tokens : List Item) (end : ℕ) (after : MathBraces)
        → IsCell texts s tokens end after → StandOver s.text tokens }
{}

/// No text of a line or a cell has a backquote, escaped or not (CommonMark 6.1).
pub fn texts_have_no_backquote()
    ensures line { (texts : List CowStr) (s : Inline) (tokens : List Item) (answer : ℕ × Option Item)
        (after : MathBraces) → AreLineTokens texts s tokens answer after
        → TextsHaveNoBackquote s.text tokens }
    ensures cell { (texts : List CowStr) (s : Inline) (tokens : List Item) (end : ℕ) (after : MathBraces)
        → IsCell texts s tokens end after → TextsHaveNoBackquote s.text tokens }
{}
