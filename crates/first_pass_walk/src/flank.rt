//! Delimiter runs between characters: whether they can open or close.

ghost use Rattle.first_pass_items.specs.Bytes.{asterisk, underscore};
ghost use Rattle.first_pass_walk.specs.Flank as flanks;
ghost use Rattle.first_pass_walk.specs.Flanking.{is_left_flanking, is_right_flanking, underscore_opens, underscore_closes, GoesBy};
ghost use Rattle.std.specs.Prelude.{◌≡◌, ◌≤◌, length, slice_index, IsCharBoundary};

use unicode::properties::{GeneralCategory, GeneralCategoryGroup};

/// The role of a line in tables (GFM 4.10).
#[derive(Clone, Copy, PartialEq, Eq)]
pub enum TableParseMode {
    /// The line may be a header row.
    Scan,
    /// The line is a row of a table.
    Active,
    /// Any other line.
    Disabled,
}

/// A delimiter run, and the characters beside it (CommonMark 6.2).
#[derive(Clone, Copy)]
pub struct DelimiterRun {
    /// The byte of which the run consists, or 0 if the run is empty.
    pub delimiter: u8,
    /// Whether the run is in a row of a table.
    pub in_row: bool,
    /// Whether a pipe that no backslash escapes is directly before the run.
    pub after_pipe: bool,
    /// The character of the content before the run, or `None` at the start of the content.
    pub before: Option<char>,
    /// The character of the text after the run, or `None` at the end of the text.
    pub after: Option<char>,
    /// The length of the run in bytes.
    pub size: usize,
}

impl DelimiterRun {
    /// Returns whether the run can open. CommonMark 6.2, GFM 4.10 and 6.5.
    #[inline(always)]
    #[tactic(auto, unfolding(crate::specs::Flank::can_open))]
    pub fn can_open(&self) -> bool
        ensures { result ≡ flanks.can_open self.now }
    {
        let Some(after) = self.after else {
            return false;
        };
        match self.before {
            None => !after.is_whitespace(),
            Some(before) => opens_between(self, before, after),
        }
    }

    /// Returns whether the run can close. CommonMark 6.2, GFM 4.10 and 6.5.
    #[inline(always)]
    #[tactic(auto, unfolding(crate::specs::Flank::can_close))]
    pub fn can_close(&self) -> bool
        ensures { result ≡ flanks.can_close self.now }
    {
        let Some(before) = self.before else {
            return false;
        };
        match self.after {
            None => !before.is_whitespace(),
            Some(after) => closes_between(self, before, after),
        }
    }
}

/// Returns whether a character is Unicode punctuation: of the general category P or S. CommonMark 2.1.
#[inline(never)]
pub fn is_punctuation(c: char) -> bool
    ensures value { result ≡ flanks.is_punctuation c }
{
    if c.is_ascii() {
        c.is_ascii_punctuation()
    } else {
        is_in_punctuation_groups(c)
    }
}

// The same, by the general category.
#[inline(never)]
#[tactic(auto, unfolding(crate::specs::Flank::is_punctuation))]
fn is_in_punctuation_groups(c: char) -> bool
    ensures value { result ≡ flanks.is_punctuation c }
{
    let category = GeneralCategory::for_char(c);
    GeneralCategoryGroup::Punctuation.contains(category)
        || GeneralCategoryGroup::Symbol.contains(category)
}

/// Returns whether the delimiter run of `run_len` bytes at the start of `suffix` can open. The run is at the offset
/// `ix` of the content `s`, and `suffix` extends to the end of the text. If `mode` is `Active`, the line is a row of
/// a table, and a pipe ends a cell. The result for an empty run depends only on `mode` and the text around it.
/// CommonMark 6.2, GFM 4.10 and 6.5.
pub fn delim_run_can_open(
    s: &str,
    suffix: &str,
    run_len: usize,
    ix: usize,
    mode: TableParseMode,
) -> bool
    requires place { ix ≤ length s.now }
    requires place_boundary { IsCharBoundary s.now ix }
    requires within { run_len ≤ length suffix.now }
    requires run_boundary { IsCharBoundary suffix.now run_len }
    ensures value { result ≡ flanks.can_open (flanks.run_beside s.now suffix.now run_len ix mode) }
{
    run_beside(s, suffix, run_len, ix, mode).can_open()
}

/// Returns whether the delimiter run of `run_len` bytes at the start of `suffix` can close. The run is at the offset
/// `ix` of the content `s`, and `suffix` extends to the end of the text. If `mode` is `Active`, the line is a row of
/// a table, and a pipe ends a cell. The result for an empty run depends only on `mode` and the text around it.
/// CommonMark 6.2, GFM 4.10 and 6.5.
pub fn delim_run_can_close(
    s: &str,
    suffix: &str,
    run_len: usize,
    ix: usize,
    mode: TableParseMode,
) -> bool
    requires place { ix ≤ length s.now }
    requires place_boundary { IsCharBoundary s.now ix }
    requires within { run_len ≤ length suffix.now }
    requires run_boundary { IsCharBoundary suffix.now run_len }
    ensures value { result ≡ flanks.can_close (flanks.run_beside s.now suffix.now run_len ix mode) }
{
    run_beside(s, suffix, run_len, ix, mode).can_close()
}

/// Outside the rows of a table, runs of `*` and `_` open and close emphasis exactly by the first four rules of
/// CommonMark 6.2. These rules use left-flanking and right-flanking runs. There is one exception: U+000B, U+0085,
/// U+2028 and U+2029 count as white space beside a run.
pub fn law_of_emphasis(run: &DelimiterRun)
    ensures star_opens { GoesBy asterisk flanks.can_open is_left_flanking run.now }
    ensures star_closes { GoesBy asterisk flanks.can_close is_right_flanking run.now }
    ensures underscore_opens { GoesBy underscore flanks.can_open underscore_opens run.now }
    ensures underscore_closes { GoesBy underscore flanks.can_close underscore_closes run.now }
{}

// The run at the start of `suffix`, and the characters beside it.
#[tactic(auto, unfolding(crate::specs::Flank::run_beside))]
fn run_beside(
    s: &str,
    suffix: &str,
    run_len: usize,
    ix: usize,
    mode: TableParseMode,
) -> DelimiterRun
    requires place { ix ≤ length s.now }
    requires place_boundary { IsCharBoundary s.now ix }
    requires within { run_len ≤ length suffix.now }
    requires run_boundary { IsCharBoundary suffix.now run_len }
    ensures { result ≡ flanks.run_beside s.now suffix.now run_len ix mode }
{
    DelimiterRun {
        delimiter: first_byte(suffix[..run_len].as_bytes()),
        in_row: is_row(mode),
        after_pipe: ends_with_pipe(s[..ix].as_bytes()),
        before: last_char(&s[..ix]),
        after: first_char(&suffix[run_len..]),
        size: run_len,
    }
}

// The first byte, or 0 if there is none.
fn first_byte(bytes: &[u8]) -> u8
    ensures { result ≡ slice_index bytes.now 0 }
{
    bytes.first().copied().unwrap_or(0)
}

// Whether the line is a row of a table.
fn is_row(mode: TableParseMode) -> bool
    ensures { result ≡ flanks.is_row mode }
{
    match mode {
        TableParseMode::Active => true,
        TableParseMode::Scan | TableParseMode::Disabled => false,
    }
}

/// Returns whether the text ends with a pipe that no backslash escapes (GFM 4.10).
#[tactic(auto, unfolding(crate::specs::Flank::ends_with_pipe))]
pub fn ends_with_pipe(text: &[u8]) -> bool
    ensures { result ≡ flanks.ends_with_pipe text.now }
{
    let len = text.len();
    if len == 0 || text[len - 1] != b'|' {
        return false;
    }
    len < 2 || text[len - 2] != b'\\'
}

/// Returns the first character of a text, or `None` if the text is empty.
#[tactic(auto, unfolding(crate::specs::Flank::first_char))]
pub fn first_char(text: &str) -> Option<char>
    ensures { result ≡ flanks.first_char text.now }
{
    text.chars().next()
}

/// Returns the last character of a text, or `None` if the text is empty.
pub fn last_char(text: &str) -> Option<char>
    ensures { result ≡ flanks.last_char text.now }
{
    text.chars().next_back()
}

// Whether a run between two characters can open.
#[inline(always)]
#[tactic(auto, unfolding(crate::specs::Flank::opens_between))]
fn opens_between(run: &DelimiterRun, before: char, after: char) -> bool
    ensures { result ≡ flanks.opens_between run.now before after }
{
    if after.is_whitespace() {
        return false;
    }
    if run.in_row && run.after_pipe {
        return true;
    }
    if run.in_row && after == '|' {
        return false;
    }
    if run.delimiter == b'*' && !is_punctuation(after) {
        return true;
    }
    if run.delimiter == b'~' && run.size > 1 {
        return true;
    }
    if run.delimiter == b'~' && before == '~' && !is_punctuation(after) {
        return true;
    }
    if before.is_whitespace() {
        return true;
    }
    is_punctuation(before) && !(run.delimiter == b'\'' && (before == ']' || before == ')'))
}

// Whether a run between two characters can close.
#[inline(always)]
#[tactic(auto, unfolding(crate::specs::Flank::closes_between))]
fn closes_between(run: &DelimiterRun, before: char, after: char) -> bool
    ensures { result ≡ flanks.closes_between run.now before after }
{
    if before.is_whitespace() {
        return false;
    }
    if run.in_row && run.after_pipe {
        return false;
    }
    if run.in_row && after == '|' {
        return true;
    }
    let is_intraword = run.delimiter == b'*' || run.delimiter == b'~' && run.size > 1;
    if is_intraword && !is_punctuation(before) {
        return true;
    }
    if run.delimiter == b'~' && before == '~' {
        return true;
    }
    after.is_whitespace() || is_punctuation(after)
}
