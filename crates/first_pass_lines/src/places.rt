//! The lines of a text, and the rest of the text from an offset on.

ghost use Rattle.first_pass_lines.specs.Lines.{line_len};
ghost use Rattle.first_pass_lines.specs.Places.{line_place, lines_at, line_of, IsLinePlace, IsDivision};
ghost use Rattle.std.specs.Prelude.{◌≡◌, map, ℕ, ◌+◌, ◌<◌, ◌≤◌, List, [], ◌∷◌, length, drop, All};

use crate::lines::scan_nextline;

/// Returns the bytes of the text from the offset `start` on.
pub fn rest_of(text: &[u8], start: usize) -> &[u8]
    requires { start ≤ length text.now }
    ensures value { result.now ≡ drop start text.now }
    ensures whole { start + length result.now ≡ length text.now }
{
    &text[start..]
}

/// Returns the end of the line that begins at the offset `start`, after its line ending. The next line begins there, or
/// the text ends. CommonMark 2.1.
pub fn next_line(text: &[u8], start: usize) -> usize
    requires { start ≤ length text.now }
    ensures value { result ≡ start + line_len (drop start text.now) }
    ensures within { result ≤ length text.now }
    ensures later { start < length text.now → start < result }
    ensures lines { start < length text.now → lines_at start (drop start text.now)
        ≡ line_place start (drop start text.now) ∷ lines_at result (drop result text.now) }
    ensures none { start ≡ length text.now → lines_at start (drop start text.now) ≡ [] }
{
    start + scan_nextline(rest_of(text, start))
}

/// The lines of a text divide it, and this is the only division into lines (CommonMark 2.1).
pub fn law_of_lines(text: &[u8])
    ensures division { IsDivision text.now (map line_of (lines_at 0 text.now)) }
    ensures places { All (IsLinePlace text.now) (lines_at 0 text.now) }
    ensures only { (pieces : List (List ℕ)) → IsDivision text.now pieces → pieces ≡ map line_of (lines_at 0 text.now) }
{}
