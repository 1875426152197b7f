//! Which lines interrupt a paragraph or end a link reference definition, and the role of a line after paragraph text.

ghost use Rattle.first_pass_grammar.specs.Containers.{after, front};
ghost use Rattle.first_pass_grammar.specs.Definitions.{is_underline, crossed};
ghost use Rattle.first_pass_grammar.specs.Kinds.{all_taken, interrupts_with, continued, interrupts_in, interrupts, item_interrupts, is_ordinary_after_tag, unindented};
ghost use Rattle.first_pass_items.specs.Bytes.{space, colon};
ghost use Rattle.first_pass_items.specs.OptionWords.{has, definition_list};
ghost use Rattle.first_pass_kinds.specs.declared.interrupt.NextLine.TheVariants.{NotText};
ghost use Rattle.first_pass_kinds.specs.Fronts.{IsFrontAt, KnowsFront};
ghost use Rattle.first_pass_kinds.specs.Marks.{begins_no_interruption_by_standard};
ghost use Rattle.first_pass_kinds.specs.Memory.{may_head_table, line_may_head_table};
ghost use Rattle.first_pass_kinds.specs.NextLines.{next_line_of};
ghost use Rattle.first_pass_lines.specs.Lines.{begins, at_line_end};
ghost use Rattle.first_pass_lines.specs.Places.{line_rest, place_at, IsPlaceOf};
ghost use Rattle.first_pass_lines.specs.Plain.{begins_plain};
ghost use Rattle.first_pass_lines.specs.Rest.{indent};
ghost use Rattle.first_pass_links.specs.Footnotes.{footnote_head};
ghost use Rattle.first_pass_open.specs.Path.{path_of, context_of, continued_to};
ghost use Rattle.first_pass_scan.specs.LeafLines.{setext_underline};
ghost use Rattle.first_pass_scan.specs.Markers.{is_bullet, bullet_marker, listitem};
ghost use Rattle.std.specs.Option.{option_map};
ghost use Rattle.std.specs.Prelude.{◌≡◌, Bool, min, drop, is_some, nat_lt, ◌&&◌, ◌||◌, not, true, false, IfOk, IfSome, OnErr, OnOk, Some, None, if◌then◌else◌, IsUtf8, IsCharBoundary};

use crate::kinds::html_kind;
use crate::next_front::NextFront;
use crate::table_start::interrupts_as_table;
use bitflags::Flags;
use first_pass_items::item::{HeadingLevel, Item};
use first_pass_items::option_set::Options;
use first_pass_lines::lines::{
    begins, is_plain_front, scan_atx_heading, scan_blank_line, scan_eol,
};
use first_pass_lines::places::rest_of;
use first_pass_links::footnote::begins_footnote_in_line;
use first_pass_open::front::{Front, front_of, is_definition_at_depth, scan_front};
use first_pass_open::indentation::scan_indentation;
use first_pass_open::source::Source;
use first_pass_scan::leaf_scan::{scan_code_fence, scan_hrule, scan_setext_heading};
use first_pass_scan::line_start::{LineStart, scan_listitem};
use first_pass_tree::forest::Tree;
use std::alloc::AllocError;

// Whether `bytes` begins with a list item that interrupts a paragraph. `current_container` is as for
// `interrupts_by_standard`.
fn interrupts_as_item(bytes: &[u8], current_container: bool) -> bool
    ensures { result ≡ item_interrupts current_container bytes.now (listitem bytes.now) }
{
    match scan_listitem(bytes) {
        None => false,
        Some((width, byte, number, _)) => {
            !current_container
                || (is_bullet(byte) || number == 1)
                    && scan_blank_line(rest_of(bytes, width)).is_none()
        }
    }
}

fn is_bullet(byte: u8) -> bool
    ensures { result ≡ is_bullet byte }
{
    matches!(byte, b'-' | b'+' | b'*')
}

/// Returns whether `bytes` interrupts a paragraph, except as a table, a footnote definition or a definition. `bytes` is
/// the rest of a line after its indentation: of fewer than four columns after paragraph text, of any width after a
/// table row. It interrupts if it is empty or begins with a line ending. Otherwise one of these has to begin: a
/// thematic break, an ATX heading, a code fence, a block quote, a list item, an HTML block of types 1 to 6.
/// `current_container`: the line continues all open containers, and does not follow a table row. Then an item
/// interrupts only if it has a bullet or the number 1, and a rest that is not blank (CommonMark 4.8, 4.1, 4.2, 4.5,
/// 5.1, 5.2, 4.6).
#[inline(always)]
pub fn interrupts_by_standard(bytes: &[u8], current_container: bool) -> bool
    ensures { result ≡ interrupts_with current_container bytes.now }
{
    if begins_no_interruption_by_standard(bytes) {
        return false;
    }
    if begins_plain_item(bytes) {
        return true;
    }
    interrupts_by_scanners(bytes, current_container)
}

// Whether `bytes` begins with a byte with which a line can interrupt a paragraph only as a table, a footnote definition
// or a definition.
#[inline(always)]
#[tactic(auto, unfolding(crate::specs::Marks::cannot_interrupt_by_standard))]
fn begins_no_interruption_by_standard(bytes: &[u8]) -> bool
    ensures { result ≡ begins_no_interruption_by_standard bytes.now }
{
    match bytes {
        [] => false,
        [byte, ..] => !matches!(
            *byte,
            b'\n' | b'\r' | b'#' | b'*' | b'+' | b'-' | b'0'..=b'9'
                | b'<'
                | b'>'
                | b'_'
                | b'`'
                | b'~'
        ),
    }
}

// Whether `bytes` begins with a bullet, a space, and then an ASCII letter or a non-ASCII byte. Such bytes begin a list
// item, and no thematic break.
#[inline(always)]
fn begins_plain_item(bytes: &[u8]) -> bool
    ensures { result
        ≡ (is_some (bullet_marker bytes.now) && begins space (drop 1 bytes.now) && begins_plain (drop 2 bytes.now)) }
{
    match bytes {
        [b'-' | b'+' | b'*', b' ', rest @ ..] => is_plain_front(rest),
        _ => false,
    }
}

// Returns the same as `interrupts_by_standard`, from one scanner after the other: for the lines that the two tests
// above leave open. Of the blocks that these scanners find, only an HTML block begins with `<`.
fn interrupts_by_scanners(bytes: &[u8], current_container: bool) -> bool
    ensures { result ≡ interrupts_with current_container bytes.now }
{
    if begins(b'<', bytes) {
        return html_kind(bytes).is_some();
    }
    scan_eol(bytes).is_some()
        || scan_hrule(bytes).is_some()
        || scan_atx_heading(bytes).is_some()
        || scan_code_fence(bytes).is_some()
        || begins(b'>', bytes)
        || interrupts_as_item(bytes, current_container)
        || html_kind(bytes).is_some()
}

/// Returns whether, with footnotes in either form, `bytes` interrupts a paragraph as the head of a footnote definition
/// whose label has no line ending (this project). The result is the same in a table, although backslashes before pipes
/// are no part of a label there.
#[inline(always)]
pub fn interrupts_as_footnote(bytes: &[u8], has_footnotes: bool) -> bool
    ensures { (in_table : Bool) → result
        ≡ (has_footnotes && is_some (footnote_head (λ further. None) in_table bytes.now)) }
{
    has_footnotes && begins_footnote_in_line(bytes)
}

// Whether, with definition lists, `bytes` begins with the `:` of a definition (this project).
#[inline(always)]
fn begins_definition(bytes: &[u8], options: Options) -> bool
    ensures { result ≡ (has options definition_list && begins colon bytes.now) }
{
    begins(b':', bytes) && options.contains(Options::ENABLE_DEFINITION_LIST)
}

/// Returns whether `bytes` interrupts a paragraph inside the open containers. `bytes` is the rest of a line after its
/// indentation of fewer than four columns, and all the text that follows. The line continues the outermost `kept` open
/// nodes. It interrupts as in `interrupts_by_standard`, as the head of a footnote definition, or as the header row of a
/// table. It also interrupts as the `:` of a definition, if the first container that the line does not continue is a
/// definition (CommonMark 4.8, GFM 4.10). Fails only if an allocation fails, which can happen only if the line may head
/// a table.
#[inline(always)]
pub fn scan_interruption(
    source: &Source<'_>,
    tree: &Tree<Item>,
    bytes: &[u8],
    kept: usize,
) -> Result<bool, AllocError>
    ensures value { IfOk result (λ yes. yes ≡ interrupts_in (context_of source.now.options tree.now)
        (continued_to source.now.options tree.now kept) bytes.now) }
    ensures err { OnErr result (may_head_table (context_of source.now.options tree.now) bytes.now ≡ true) }
{
    if interrupts_by_standard(bytes, kept == tree.spine_len()) {
        return Ok(true);
    }
    if interrupts_as_footnote(bytes, source.options.contains(Options::ENABLE_FOOTNOTES)) {
        return Ok(true);
    }
    if begins_definition(bytes, source.options) && is_definition_at_depth(tree, kept) {
        return Ok(true);
    }
    interrupts_as_table(source, tree, bytes)
}

/// The role of a line after paragraph text.
#[derive(Clone, Copy, Drop)]
pub enum NextLine {
    /// One more line of the paragraph text. Its part of that text begins at this offset, after its container prefixes
    /// and its indentation.
    More(usize),
    /// The underline that makes the paragraph text a setext heading of this level.
    Underline(HeadingLevel),
    /// Another line: the paragraph text ends before it, and is no setext heading.
    NotText,
}

// The level of the setext heading whose underline is `rest`, or `None` if `rest` is no underline. `whole`: the line
// continues all open containers. `columns` is the indentation before the rest, or 4 if there is more (CommonMark 4.3).
#[inline(always)]
fn scan_underline(rest: &LineStart<'_>, whole: bool, columns: usize) -> Option<HeadingLevel>
    ensures { result ≡ option_map (λ found. found.1)
        (if whole then (if nat_lt columns 4 then setext_underline rest.now.left else None) else None) }
{
    if whole && columns < 4 {
        scan_setext_heading(rest.left()).map(|underline| underline.1)
    } else {
        None
    }
}

// The front of a line, the columns of its indentation, and what follows them.
#[derive(Drop)]
struct UnindentedFront<'a> {
    // The front, with the indentation.
    front: Front<'a>,
    // Its columns of indentation, or 4 if there are more.
    columns: usize,
    // The rest of the text after those.
    rest: LineStart<'a>,
}

// Reads the container prefixes and the indentation of the line at the offset `start`.
#[inline(always)]
fn scan_unindented<'a>(source: &Source<'a>, tree: &Tree<Item>, start: usize) -> UnindentedFront<'a>
    requires { IsCharBoundary source.now.text.now start }
    ensures front { IsFrontAt source.now tree.now start result.front.continued result.front.rest }
    ensures whole { result.front.continues_all
        ≡ is_some (after (path_of source.now.options tree.now) (line_rest (drop start source.now.text.now))) }
    ensures kept { continued_to source.now.options tree.now result.front.continued
        ≡ continued (path_of source.now.options tree.now) (line_rest (drop start source.now.text.now)) }
    ensures columns { result.columns
        ≡ min 4 (indent (front (path_of source.now.options tree.now) (line_rest (drop start source.now.text.now)))) }
    ensures rest { result.rest
        ≡ all_taken (front (path_of source.now.options tree.now) (line_rest (drop start source.now.text.now))) }
    ensures place { IsPlaceOf source.now.text.now
        (unindented (place_at start (front (path_of source.now.options tree.now)
        (line_rest (drop start source.now.text.now))))) }
    ensures utf8 { IsUtf8 source.now.text.now }
{
    let front = scan_front(source, tree, start);
    let mut rest = front.rest.copy();
    let columns = scan_indentation(&mut rest);
    UnindentedFront {
        front,
        columns,
        rest,
    }
}

// Records that the front of a line is that of the next unread line.
#[inline(always)]
fn set_front<'a>(next_front: &mut NextFront<'a>, found: UnindentedFront<'a>)
    ensures known { next_front.new.is_known ≡ true }
    ensures continued { next_front.new.continued ≡ found.entry.front.continued }
    ensures rest { next_front.new.rest ≡ found.entry.front.rest }
{
    let UnindentedFront {
        front,
        columns: _,
        rest: _,
    } = found;
    let Front {
        continued,
        continues_all: _,
        rest,
    } = front;
    next_front.continued = continued;
    next_front.rest = rest;
    next_front.is_known = true;
}

/// Returns the role of a line that follows paragraph text. The line begins at the offset `start`. It is an underline
/// only if it continues all open containers. It is no line of the paragraph text if it interrupts a paragraph. With
/// definition lists, it is also none if it continues all open containers and begins with a `:` at fewer than four
/// columns. Otherwise it is one more line, no matter which open containers it continues (CommonMark 4.3, 4.8, 5.1).
/// `next_front` has its front afterwards, or no front; it has one only if the line is no line of the text and no
/// underline. Fails only if an allocation fails, which can happen only if the line may head a table.
#[tactic(auto, unfolding(first_pass_grammar::specs::Kinds::interrupts, first_pass_grammar::specs::Kinds::underline_of))]
pub fn scan_next_line<'a>(
    source: &Source<'a>,
    start: usize,
    tree: &Tree<Item>,
    next_front: &mut NextFront<'a>,
) -> Result<NextLine, AllocError>
    requires { IsCharBoundary source.now.text.now start }
    ensures value { IfOk result (λ role. role ≡ next_line_of (context_of source.now.options tree.now) start
        (line_rest (drop start source.now.text.now))) }
    ensures known { IfOk result (λ role. next_front.new.is_known ≡ true → role ≡ NotText) }
    ensures front { OnOk result (KnowsFront source.now tree.now start next_front.new) }
    ensures place { OnOk result (IsPlaceOf source.now.text.now (unindented (place_at start
        (front (path_of source.now.options tree.now) (line_rest (drop start source.now.text.now)))))) }
    ensures utf8 { IsUtf8 source.now.text.now }
    ensures err { OnErr result (line_may_head_table (context_of source.now.options tree.now)
        (line_rest (drop start source.now.text.now)) ≡ true) }
{
    source.recall_length();
    next_front.is_known = false;
    let bytes = rest_of(source.text.as_bytes(), start);
    // A line that begins with an ASCII letter or a non-ASCII byte has no bytes of a container prefix, and is no
    // underline and no interruption. It is one more line of the paragraph text, so no walk over the open containers is
    // needed.
    if is_plain_front(bytes) {
        return Ok(NextLine::More(start));
    }
    if scan_eol(bytes).is_some() {
        return Ok(NextLine::NotText);
    }
    let text = scan_unindented(source, tree, start);
    if is_plain_front(text.rest.left()) {
        return Ok(NextLine::More(start + text.rest.bytes_scanned()));
    }
    if let Some(level) = scan_underline(&text.rest, text.front.continues_all, text.columns) {
        return Ok(NextLine::Underline(level));
    }
    if scan_paragraph_end(source, tree, &text.rest, text.columns, text.front.continued)? {
        set_front(next_front, text);
        return Ok(NextLine::NotText);
    }
    if ends_by_colon(&text, source.options) {
        set_front(next_front, text);
        return Ok(NextLine::NotText);
    }
    Ok(NextLine::More(start + text.rest.bytes_scanned()))
}

// Whether, with definition lists, a line with this front ends the paragraph text before it. It continues all open
// containers, and a `:` begins its rest at fewer than four columns (this project).
#[inline(always)]
fn ends_by_colon(line: &UnindentedFront<'_>, options: Options) -> bool
    ensures { result ≡ (has options definition_list
        && (line.now.front.continues_all && (nat_lt line.now.columns 4 && begins colon line.now.rest.left))) }
{
    begins_definition(line.rest.left(), options) && line.front.continues_all && line.columns < 4
}

/// Returns the rest of the first line of `bytes` after its container prefixes and its indentation. The line follows a
/// block quote's tag or a link reference definition, and may continue any number of open containers. `bytes` is all the
/// text from the line on. Returns `None` if the line is at fewer than four columns and would interrupt a paragraph:
/// then it is read like any other. Fails only if an allocation fails, which can happen only if the line may head a
/// table.
#[tactic(auto, unfolding(first_pass_grammar::specs::Kinds::interrupts))]
pub fn scan_flowing_line<'b>(
    source: &Source<'_>,
    bytes: &'b [u8],
    tree: &Tree<Item>,
) -> Result<Option<LineStart<'b>>, AllocError>
    ensures value { IfOk result (λ rest.
        rest ≡ (if is_ordinary_after_tag (context_of source.now.options tree.now) (line_rest bytes.now)
        then None
        else Some (all_taken (front (path_of source.now.options tree.now) (line_rest bytes.now))))) }
    ensures err { OnErr result (line_may_head_table (context_of source.now.options tree.now)
        (line_rest bytes.now) ≡ true) }
{
    let front = front_of(bytes, tree, source.options);
    let mut rest = front.rest;
    if scan_indentation(&mut rest) >= 4 {
        return Ok(Some(rest));
    }
    if scan_interruption(source, tree, rest.left(), front.continued)? {
        return Ok(None);
    }
    Ok(Some(rest))
}

// Whether a line with this rest interrupts a paragraph. The line continues the outermost `kept` open nodes; `columns`
// is its indentation before the rest, or 4 if there is more.
#[inline(always)]
fn scan_paragraph_end(
    source: &Source<'_>,
    tree: &Tree<Item>,
    rest: &LineStart<'_>,
    columns: usize,
    kept: usize,
) -> Result<bool, AllocError>
    ensures value { IfOk result (λ yes. yes ≡ (if nat_lt columns 4
        then interrupts_in (context_of source.now.options tree.now)
        (continued_to source.now.options tree.now kept) rest.now.left
        else at_line_end rest.now.left)) }
    ensures err { OnErr result ((nat_lt columns 4
        && may_head_table (context_of source.now.options tree.now) rest.now.left) ≡ true) }
{
    if columns < 4 {
        scan_interruption(source, tree, rest.left(), kept)
    } else {
        Ok(scan_eol(rest.left()).is_some())
    }
}

// Whether the rest of a line is the underline of a setext heading. `columns` is the indentation before it, or 4 if
// there is more (CommonMark 4.3).
fn is_underline(bytes: &[u8], columns: usize) -> bool
    ensures { result ≡ (nat_lt columns 4 && is_some (setext_underline bytes.now)) }
{
    columns < 4 && scan_setext_heading(bytes).is_some()
}

// Whether a link reference definition ends before a line with this front. `in_label`: the definition would continue in
// its label.
fn scan_definition_end(
    source: &Source<'_>,
    tree: &Tree<Item>,
    front: &Front<'_>,
    in_label: bool,
) -> Result<bool, AllocError>
    ensures value { IfOk result (λ yes. yes
        ≡ (interrupts (context_of source.now.options tree.now)
        (continued_to source.now.options tree.now front.now.continued) front.now.rest
        || (is_underline front.now.rest && (not in_label || front.now.continues_all)))) }
    ensures err { OnErr result ((nat_lt (indent front.now.rest) 4
        && may_head_table (context_of source.now.options tree.now) (all_taken front.now.rest).left) ≡ true) }
{
    let mut text = front.rest.copy();
    let columns = scan_indentation(&mut text);
    if scan_paragraph_end(source, tree, &text, columns, front.continued)? {
        return Ok(true);
    }
    let is_lazy_in_label = in_label & !front.continues_all;
    if is_lazy_in_label {
        return Ok(false);
    }
    Ok(is_underline(text.left(), columns))
}

/// Returns the rest of the line at `start` if a link reference definition continues there. `in_label`: the definition
/// would continue in its label. The rest is after the container prefixes on the line, and after up to four columns.
/// Returns `None` if the line interrupts a paragraph, or is the underline of a setext heading. In a label, an underline
/// counts only if its line continues all open containers (CommonMark 4.7). Fails only if an allocation fails, which can
/// happen only if the line may head a table.
#[tactic(auto, unfolding(first_pass_grammar::specs::Definitions::crossed))]
pub fn scan_line_crossed<'a>(
    source: &Source<'a>,
    tree: &Tree<Item>,
    start: usize,
    in_label: bool,
) -> Result<Option<LineStart<'a>>, AllocError>
    requires { IsCharBoundary source.now.text.now start }
    ensures value { IfOk result (λ rest.
        rest ≡ crossed in_label (context_of source.now.options tree.now)
        (line_rest (drop start source.now.text.now))) }
    ensures place { IfOk result (λ rest. IfSome rest (λ r. IsPlaceOf source.now.text.now (place_at start r))) }
    ensures utf8 { IsUtf8 source.now.text.now }
    ensures err { OnErr result (line_may_head_table (context_of source.now.options tree.now)
        (line_rest (drop start source.now.text.now)) ≡ true) }
{
    let front = scan_front(source, tree, start);
    if scan_definition_end(source, tree, &front, in_label)? {
        return Ok(None);
    }
    let mut following = front.rest;
    following.scan_space_upto(4);
    Ok(Some(following))
}
