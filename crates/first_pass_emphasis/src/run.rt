//! Delimiter runs: which one can be the opener of which closer.

ghost use Rattle.first_pass_emphasis.specs.Bottoms.{IsSameClass};
ghost use Rattle.first_pass_emphasis.specs.Runs.{fits as run_fits, format as run_format, width as run_width};
ghost use Rattle.std.specs.Prelude.{◌≡◌, IsTrue};

use crate::role::Format;

/// A delimiter run (CommonMark 6.2).
#[derive(Clone, Copy, PartialEq, Eq)]
pub(crate) struct Run {
    /// The delimiter.
    pub(crate) byte: u8,
    /// How many there are.
    pub(crate) size: usize,
    /// Whether the run can open.
    pub(crate) opens: bool,
    /// Whether the run can close.
    pub(crate) closes: bool,
    /// Whether one `~` on each side makes a subscript.
    pub(crate) has_subscript: bool,
}

/// A run, and the index of the role of its first delimiter.
#[derive(Clone, Copy, PartialEq, Eq)]
pub(crate) struct PlacedRun {
    pub(crate) run: Run,
    pub(crate) at: usize,
}

/// Returns whether a run, of which `left` delimiters are left, can be the opener of `closer`, of which `more` are
/// left.
#[tactic(auto, unfolding(crate::specs::Runs::fits))]
pub(crate) fn fits(opener: Run, left: usize, closer: Run, more: usize) -> bool
    ensures { result ≡ run_fits opener left closer more }
{
    if left == 0 || more == 0 {
        return false;
    }
    if opener.byte != closer.byte || !opener.opens || !closer.closes {
        return false;
    }
    if opener.byte == b'~' {
        return opener.size == closer.size;
    }
    if !opener.closes && !closer.opens {
        return true;
    }
    let (a, b) = (opener.size % 3, closer.size % 3);
    (a + b) % 3 != 0 || (a == 0 && b == 0)
}

/// Returns how many delimiters an opener and a closer lose, of which `left` and `more` are left.
#[tactic(auto, unfolding(crate::specs::Runs::width))]
pub(crate) fn width(opener: Run, left: usize, more: usize) -> usize
    ensures { result ≡ run_width opener left more }
{
    let both = left.min(more);
    if opener.byte == b'~' {
        both
    } else {
        both.min(2)
    }
}

/// Returns the format of a text that has so many delimiters of a run on each side.
#[tactic(auto, unfolding(crate::specs::Runs::format))]
pub(crate) fn format(opener: Run, width: usize) -> Format
    ensures { result ≡ run_format opener width }
{
    match opener.byte {
        b'^' => Format::Superscript,
        b'~' if opener.has_subscript && width == 1 => Format::Subscript,
        b'~' => Format::Strikethrough,
        _ if width == 2 => Format::Strong,
        _ => Format::Emphasis,
    }
}

/// Returns whether two closers are of one class: then they have the same openers.
pub(crate) fn is_same_class(a: Run, b: Run) -> bool
    ensures { IsTrue result → IsSameClass a b }
{
    if a.byte != b.byte || a.opens != b.opens || a.closes != b.closes {
        return false;
    }
    if a.byte == b'~' {
        return a.size == b.size;
    }
    a.size % 3 == b.size % 3
}
