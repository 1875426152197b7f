//! A place in a line, and the rest of the text from there on, in columns.

ghost use Rattle.first_pass_lines.specs.Lines.{at_line_end, is_blank_line};
ghost use Rattle.first_pass_lines.specs.Places.{line_rest};
ghost use Rattle.first_pass_lines.specs.Plain.{begins_plain, begins_inert};
ghost use Rattle.first_pass_lines.specs.Rest.{next_column, after_columns, indent, past_bytes, past_quote};
ghost use Rattle.first_pass_scan.specs.Blanks.{without_owed, past_blank};
ghost use Rattle.first_pass_scan.specs.LeafLines.{hrule_len};
ghost use Rattle.first_pass_scan.specs.Markers.{list_marker, content_indent as content_after, after_marker, after_colon, item_of, listitem, definition_of, task_box, task_of, past_tag};
ghost use Rattle.std.specs.Prelude.{◌≡◌, ◌≤◌, ◌+◌, ◌<◌, ◌^◌, ◌==◌, ◌&&◌, min, nat_le, not, length, drop, is_some, IfSome, MatchOption, if◌then◌else◌, true, false};

use crate::leaf_scan::{scan_hrule, scan_rule_free};
use crate::markers::{scan_list_marker, scan_tag_line, scan_task_box};
use first_pass_items::item::BlockQuoteKind;
use first_pass_lines::lanes::{LANES, space_run};
use first_pass_lines::lines::{is_inert_front, is_plain_front, scan_blank_line, scan_eol};
use first_pass_lines::places::rest_of;
use std::marker::Model;

/// A place in a line: the rest of the text from there on, and the columns that a partly taken tab owes. Tab stops are
/// four bytes apart, counted from the start of the line or the last tab (CommonMark 2.2).
#[derive(Clone)]
pub struct LineStart<'a> {
    bytes: &'a [u8],
    at: usize,
    tab_start: usize,
    owed: usize,
    // No thematic break begins at any offset from `at` up to, but not including, this one.
    rule_free: usize,
}

impl<'a> Model for LineStart<'a> {
    ghost use Rattle.first_pass_lines.specs.Rest.{Rest};
    ghost use Rattle.first_pass_scan.specs.LeafLines.{HasNoRule};
    ghost use Rattle.std.specs.Prelude.{drop, ◌-◌, ◌≤◌, length};

    ghost Value = { Rest };

    ghost view = { λ s. record {
      left = drop s.at s.bytes.now;
      taken = s.at;
      owed = s.owed;
      column = s.at - s.tab_start;
    } };

    ghost invariant = { λ s. (s.at ≤ length s.bytes.now) × (s.tab_start ≤ s.at)
        × (s.owed ≤ 3) × HasNoRule s.bytes.now s.at s.rule_free };
}

impl Drop for LineStart<'_> {
    fn drop(self) {
        let LineStart {
            bytes: _,
            at: _,
            tab_start: _,
            owed: _,
            rule_free: _,
        } = self;
    }
}

// Whether the third byte is an ASCII letter or a non-ASCII byte. Then no thematic break begins here.
#[inline(always)]
fn is_plain_third(bytes: &[u8]) -> bool
    ensures { result ≡ begins_plain (drop 2 bytes.now) }
{
    match bytes {
        [_, _, rest @ ..] => is_plain_front(rest),
        _ => false,
    }
}

impl<'a> LineStart<'a> {
    /// Returns the place at the start of the first line of `bytes`. `bytes` may continue after that line.
    pub fn new(bytes: &'a [u8]) -> LineStart<'a>
        ensures { result ≡ line_rest bytes.now }
    {
        LineStart {
            bytes,
            at: 0,
            tab_start: 0,
            owed: 0,
            rule_free: 0,
        }
    }

    /// Returns the number of bytes that were taken from the line.
    pub fn bytes_scanned(&self) -> usize
        ensures { result ≡ self.now.taken }
    {
        self.at
    }

    /// Returns the rest of the text from the place on: the rest of the line, and everything after it.
    pub fn left(&self) -> &'a [u8]
        ensures { result.now ≡ self.now.left }
    {
        rest_of(self.bytes, self.at)
    }

    /// Returns the columns that a partly taken tab owes: 0 to 3. CommonMark 2.2.
    pub fn remaining_space(&self) -> usize
        ensures value { result ≡ self.now.owed }
        ensures small { result ≤ 3 }
    {
        self.owed
    }

    /// Returns whether the line or the text ends here, apart from owed columns. CommonMark 2.1.
    pub fn is_at_eol(&self) -> bool
        ensures { result ≡ at_line_end self.now.left }
    {
        scan_eol(rest_of(self.bytes, self.at)).is_some()
    }

    /// Returns whether no column is owed and the next byte is an ASCII letter or a non-ASCII byte. Then there is no
    /// white space here, and a block that begins here is a paragraph, a table, a setext heading or the title of a
    /// definition list.
    #[inline(always)]
    pub fn is_at_plain(&self) -> bool
        ensures value { result ≡ (self.now.owed == 0 && begins_plain self.now.left) }
        ensures owed { result ≡ true → self.now.owed ≡ 0 }
        ensures plain { result ≡ true → begins_plain self.now.left ≡ true }
    {
        self.owed == 0 && is_plain_front(rest_of(self.bytes, self.at))
    }

    /// Returns whether no column is owed, a byte is left, and no indentation, list item or block quote can begin with
    /// that byte.
    #[inline(always)]
    pub fn is_at_inert(&self) -> bool
        ensures value { result ≡ (self.now.owed == 0 && begins_inert self.now.left) }
        ensures owed { result ≡ true → self.now.owed ≡ 0 }
        ensures inert { result ≡ true → begins_inert self.now.left ≡ true }
    {
        self.owed == 0 && is_inert_front(rest_of(self.bytes, self.at))
    }

    /// Returns whether no column is next: none is owed, and no space or tab is here (CommonMark 2.2).
    #[inline(always)]
    pub fn has_no_column(&self) -> bool
        ensures { result ≡ not (is_some (next_column self.now)) }
    {
        if self.owed != 0 {
            return false;
        }
        // Most bytes are above a space.
        match self.bytes.get(self.at) {
            Some(byte) if *byte > b' ' => true,
            next => !matches!(next, Some(b' ' | b'\t')),
        }
    }

    /// Takes as many columns of spaces and tabs as there are, up to `n`, and returns their number. CommonMark 2.2.
    #[inline(always)]
    pub fn scan_space_upto(&mut self, n: usize) -> usize
        ensures rest { self.new ≡ after_columns n self.old }
        ensures value { result ≡ min n (indent self.old) }
    {
        if self.take_spaces(n) {
            return n;
        }
        self.take_columns(n)
    }

    /// Takes as many columns as there are, up to `n`, and returns whether there were `n` columns. CommonMark 2.2.
    pub fn scan_space(&mut self, n: usize) -> bool
        ensures rest { self.new ≡ after_columns n self.old }
        ensures value { result ≡ nat_le n (indent self.old) }
    {
        self.scan_space_upto(n) == n
    }

    /// Takes all columns, the owed ones too. CommonMark 2.2.
    #[inline(always)]
    pub fn scan_all_space(&mut self)
        ensures { self.new ≡ after_columns (indent self.old) self.old }
    {
        self.take_owed();
        while self.take_four_tabs() {}
        while self.take_blank() {}
    }

    /// Takes the block quote marker `>` here, and one column after it if there is one. Returns whether there was a
    /// marker. There is none if a column is owed. CommonMark 5.1.
    pub fn scan_blockquote_marker(&mut self) -> bool
        ensures { MatchOption (past_quote self.old) ((result ≡ false) × (self.new ≡ self.old)) (λ next. (result ≡ true)
            × (self.new ≡ after_columns 1 next)) }
    {
        if self.owed == 0 && self.at < self.bytes.len() && self.bytes[self.at] == b'>' {
            self.at += 1;
            let _ = self.take_column();
            true
        } else {
            false
        }
    }

    /// Takes the line of the block quote tag here (such as `[!NOTE]`, in letters of either case), with its blank rest
    /// and its line ending, and returns the kind. Returns `None`, and takes nothing, if a column is owed or there is no
    /// such line.
    #[tactic(auto, unfolding(crate::specs::Markers::past_tag))]
    pub fn scan_blockquote_tag(&mut self) -> Option<BlockQuoteKind>
        ensures { MatchOption (past_tag self.old) ((result ≡ None) × (self.new ≡ self.old)) (λ tag.
            (result ≡ Some tag.0) × (self.new ≡ tag.1)) }
    {
        if self.owed != 0 {
            return None;
        }
        let (kind, end) = scan_tag_line(rest_of(self.bytes, self.at))?;
        self.skip(end);
        Some(kind)
    }

    /// Takes the list marker here, before which the line has `indent` columns, and the columns after the marker that
    /// count towards the item's indent. Returns the marker's byte (`.` or `)` after digits), its number (0 for a
    /// bullet) and the columns that a line needs to continue the item. Returns `None`, and takes nothing, if a column
    /// is owed, no item begins here, or a thematic break is here. CommonMark 5.2.
    #[tactic(auto, unfolding(crate::specs::Markers::item_of))]
    #[inline(always)]
    pub fn scan_list_marker_with_indent(&mut self, indent: usize) -> Option<(u8, u64, usize)>
        requires { indent ≤ 3 }
        ensures { MatchOption (item_of indent self.old) ((result ≡ None) × (self.new ≡ self.old)) (λ item.
            (result ≡ Some item.0) × (self.new ≡ item.1)) }
    {
        let (width, byte, number) = self.list_marker()?;
        if self.is_at_rule() {
            return None;
        }
        let mut next = self.copy();
        next.skip(width);
        let inner = next.scan_after_marker(indent + width)?;
        *self = next;
        Some((byte, number, inner))
    }

    /// Takes the `:` of a definition here, before which the line has `indent` columns, and the columns after it that
    /// count towards the definition's indent. Returns the columns that a line needs to continue the definition. Returns
    /// `None`, and takes nothing, if a column is owed or there is no `:`.
    #[tactic(auto, unfolding(crate::specs::Markers::definition_of))]
    pub fn scan_definition_list_definition_marker_with_indent(
        &mut self,
        indent: usize,
    ) -> Option<usize>
        requires { indent ≤ 3 }
        ensures { MatchOption (definition_of indent self.old) ((result ≡ None) × (self.new ≡ self.old)) (λ definition.
            (result ≡ Some definition.0) × (self.new ≡ definition.1)) }
    {
        if self.owed != 0 || self.at >= self.bytes.len() || self.bytes[self.at] != b':' {
            return None;
        }
        self.skip(1);
        Some(self.scan_after_colon(indent + 1))
    }

    /// Takes the task list item marker here, after up to three columns, and returns whether it is checked. It is `[`,
    /// then one byte of white space, `x` or `X`, then `]`. White space or a line ending must follow, and is not taken.
    /// Returns `None`, and takes nothing, if there is no such marker. GFM 5.3.
    #[tactic(auto, unfolding(crate::specs::Markers::task_of))]
    pub fn scan_task_list_marker(&mut self) -> Option<bool>
        ensures { MatchOption (task_of self.old) ((result ≡ None) × (self.new ≡ self.old)) (λ task.
            (result ≡ Some task.0) × (self.new ≡ task.1)) }
    {
        let mut next = self.copy();
        let _ = next.scan_space_upto(3);
        let checked = next.task_box()?;
        next.skip(3);
        *self = next;
        Some(checked)
    }

    /// Returns a copy of this place. Copying allocates nothing.
    pub fn copy(&self) -> LineStart<'a>
        ensures { result ≡ self.now }
    {
        LineStart {
            bytes: self.bytes,
            at: self.at,
            tab_start: self.tab_start,
            owed: self.owed,
            rule_free: self.rule_free,
        }
    }

    // Takes `count` bytes. No column may be owed.
    fn skip(&mut self, count: usize)
        requires within { count ≤ length self.old.left }
        requires none_owed { self.old.owed ≡ 0 }
        ensures { self.new ≡ past_bytes count self.old }
    {
        self.at += count;
    }

    // The list marker here, if no column is owed: its width, its byte and its number.
    fn list_marker(&self) -> Option<(usize, u8, u64)>
        ensures value { result ≡ (if self.now.owed == 0 then list_marker self.now.left else None) }
        ensures within { IfSome result (λ m. m.0 ≤ length self.now.left) }
        ensures small { IfSome result (λ m. m.0 ≤ 10) }
    {
        if self.owed != 0 {
            return None;
        }
        scan_list_marker(rest_of(self.bytes, self.at))
    }

    // Whether a thematic break is here. Nothing before `rule_free` is scanned again, so a series of markers is
    // scanned once.
    #[inline(always)]
    fn is_at_rule(&mut self) -> bool
        ensures value { result ≡ is_some (hrule_len self.old.left) }
        ensures same { self.new ≡ self.old }
    {
        if self.at < self.rule_free {
            return false;
        }
        let rest = rest_of(self.bytes, self.at);
        if is_plain_third(rest) {
            return false;
        }
        if scan_hrule(rest).is_some() {
            return true;
        }
        self.rule_free = self.at + scan_rule_free(rest);
        false
    }

    // The task list item marker here, if no column is owed.
    fn task_box(&self) -> Option<bool>
        ensures value { result ≡ (if self.now.owed == 0 then task_box self.now.left else None) }
        ensures none_owed { IfSome result (λ _. self.now.owed ≡ 0) }
        ensures long { IfSome result (λ _. 3 ≤ length self.now.left) }
    {
        if self.owed != 0 {
            return None;
        }
        scan_task_box(rest_of(self.bytes, self.at))
    }

    // Whether the rest of the line is blank.
    fn is_blank_line(&self) -> bool
        ensures { result ≡ is_blank_line self.now.left }
    {
        scan_blank_line(rest_of(self.bytes, self.at)).is_some()
    }

    // Takes the further columns between column `width` and an item's content, if they count. Returns the item's indent:
    // `width` plus the columns taken. Takes none if there are four or more, or if the rest is blank.
    #[inline(always)]
    #[tactic(auto, unfolding(crate::specs::Markers::content_indent))]
    fn scan_content_indent(&mut self, width: usize) -> usize
        requires { width < 2 ^ 62 }
        ensures { let content = content_after width self.old in (result ≡ content.0) × (self.new ≡ content.1) }
    {
        if self.is_at_plain() {
            return width;
        }
        if self.is_blank_line() {
            return width;
        }
        let mut next = self.copy();
        let further = next.scan_space_upto(4);
        if further == 4 {
            return width;
        }
        *self = next;
        width + further
    }

    // Takes the columns that count after an item's marker, which ends at column `width`. Returns the item's indent, or
    // `None` if neither a column nor the end of the line follows the marker.
    #[inline(always)]
    #[tactic(auto, unfolding(crate::specs::Markers::after_marker))]
    fn scan_after_marker(&mut self, width: usize) -> Option<usize>
        requires { width < 2 ^ 61 }
        ensures { MatchOption (after_marker width self.old) (result ≡ None) (λ content. (result ≡ Some content.0)
            × (self.new ≡ content.1)) }
    {
        if !self.take_column() && !self.is_at_eol() {
            return None;
        }
        Some(self.scan_content_indent(width + 1))
    }

    // Takes the columns that count after a definition's `:`, which ends at column `width`. Returns the definition's
    // indent. No column has to follow the `:`.
    fn scan_after_colon(&mut self, width: usize) -> usize
        requires { width < 2 ^ 61 }
        ensures { let content = after_colon width self.old in (result ≡ content.0) × (self.new ≡ content.1) }
    {
        if !self.scan_space(1) {
            return width;
        }
        self.scan_content_indent(width + 1)
    }

    // Takes `n` spaces and returns `true`, if they are next, no column is owed, and at least 16 bytes are left.
    // Otherwise takes nothing, and returns `false`. Reads 16 bytes at once, without a loop whose end is hard to
    // predict.
    #[inline(always)]
    fn take_spaces(&mut self, n: usize) -> bool
        ensures yes { result ≡ true → (self.new ≡ after_columns n self.old) × (n ≤ indent self.old) }
        ensures no { result ≡ false → self.new ≡ self.old }
    {
        let rest = rest_of(self.bytes, self.at);
        if self.owed != 0 || rest.len() < LANES || space_run(rest) < n {
            return false;
        }
        self.skip(n);
        true
    }

    // Takes as many columns as there are, up to `n`, one at a time, and returns how many.
    fn take_columns(&mut self, n: usize) -> usize
        ensures rest { self.new ≡ after_columns n self.old }
        ensures value { result ≡ min n (indent self.old) }
    {
        let mut taken = 0;
        while taken < n && self.take_column() {
            taken += 1;
        }
        taken
    }

    // Takes all owed columns.
    #[inline(always)]
    fn take_owed(&mut self)
        ensures { self.new ≡ without_owed self.old }
    {
        self.owed = 0;
    }

    // Takes one space or tab with all its columns, and returns whether there was one. No column may be owed.
    #[inline(always)]
    fn take_blank(&mut self) -> bool
        requires { self.old.owed ≡ 0 }
        ensures { MatchOption (past_blank self.old) ((result ≡ false) × (self.new ≡ self.old)) (λ next. (result ≡ true)
            × (self.new ≡ next)) }
    {
        match self.bytes.get(self.at) {
            Some(b' ') => {
                self.at += 1;
                true
            }
            Some(b'\t') => {
                self.at += 1;
                self.tab_start = self.at;
                true
            }
            _ => false,
        }
    }

    // Takes four tabs with all their columns, and returns whether they were next. No column may be owed.
    #[inline(always)]
    fn take_four_tabs(&mut self) -> bool
        requires { self.old.owed ≡ 0 }
        ensures none { self.new.owed ≡ 0 }
        ensures all { after_columns (indent self.new) self.new ≡ after_columns (indent self.old) self.old }
        ensures fewer { result ≡ true → indent self.new < indent self.old }
    {
        match rest_of(self.bytes, self.at) {
            [b'\t', b'\t', b'\t', b'\t', ..] => {
                self.at += 4;
                self.tab_start = self.at;
                true
            }
            _ => false,
        }
    }

    // Takes one column, and returns whether there was one.
    fn take_column(&mut self) -> bool
        ensures { MatchOption (next_column self.old) ((result ≡ false) × (self.new ≡ self.old)) (λ next. (result ≡ true)
            × (self.new ≡ next)) }
    {
        if 0 < self.owed {
            self.owed -= 1;
            return true;
        }
        match self.bytes.get(self.at) {
            Some(b' ') => {
                self.at += 1;
                true
            }
            Some(b'\t') => {
                self.owed = 3 - (self.at - self.tab_start) % 4;
                self.at += 1;
                self.tab_start = self.at;
                true
            }
            _ => false,
        }
    }
}

/// Returns the list marker at the start of the first line of `bytes`. The four values are the length of the marker in
/// bytes, its byte (`.` or `)` after digits), its number (0 for a bullet), and the columns that a line needs to
/// continue the item. Returns `None` if no item begins there. It does not matter whether the line is a thematic break,
/// such as `- - -`. CommonMark 5.2.
#[tactic(auto, unfolding(crate::specs::Markers::listitem))]
pub fn scan_listitem(bytes: &[u8]) -> Option<(usize, u8, u64, usize)>
    ensures value { result ≡ listitem bytes.now }
    ensures within { IfSome result (λ item. item.0 ≤ length bytes.now) }
{
    let (width, byte, number) = scan_list_marker(bytes)?;
    let mut line = LineStart::new(bytes);
    line.skip(width);
    let indent = line.scan_after_marker(width)?;
    Some((width, byte, number, indent))
}
