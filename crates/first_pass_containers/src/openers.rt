//! The list item, definition or block quote that begins at a place (CommonMark 5.1, 5.2, and this project).

ghost use Rattle.first_pass_containers.specs.Starts.{marker_of, item_after, IsIndented, StartMatches};
ghost use Rattle.first_pass_grammar.specs.Containers.{at_rest, prefix};
ghost use Rattle.first_pass_grammar.specs.declared.kind.Container.TheVariants.{BlockQuote};
ghost use Rattle.first_pass_grammar.specs.Kinds.{all_taken, item_at, definition_marker_at, is_blank_rest};
ghost use Rattle.first_pass_grammar.specs.Openers.{task_after, tag_after, after_quote, start_at};
ghost use Rattle.first_pass_lines.specs.Places.{IsPlaceOf};
ghost use Rattle.first_pass_lines.specs.Rest.{indent, after_columns};
ghost use Rattle.std.specs.Prelude.{◌≡◌, ◌≤◌, ℕ, min, Some, None, MatchOption, IsSomeAnd, IsUtf8, if◌then◌else◌};

use bitflags::Flags;
use first_pass_grammar::AfterMarker;
use first_pass_items::item::{BlockQuoteKind, Item, ItemBody};
use first_pass_items::option_set::Options;
use first_pass_lines::lines::scan_blank_line;
use first_pass_lists::list::ListMarker;
use first_pass_open::place::Place;
use first_pass_open::source::Source;
use first_pass_scan::line_start::LineStart;

/// The opener of a list item, a definition or a block quote; footnote definitions are opened separately.
#[derive(Clone, Copy, Drop)]
pub enum Opener {
    /// A block quote's `>`, with the kind that a tag after it gives the quote.
    Quote(Option<BlockQuoteKind>),
    /// A list item's marker.
    Item(ListMarker),
    /// A definition's `:`, with the definition's indent.
    Definition(usize),
}

/// A list item, a definition or a block quote that begins at a place.
#[derive(Clone, Copy, Drop)]
pub struct Start {
    pub opener: Opener,
    /// The offset into the text at which the container starts.
    pub start: usize,
    /// What follows its marker.
    pub after: AfterMarker,
}

/// Returns the container that begins at a place: a list item; otherwise a definition, if `may_define` is true;
/// otherwise a block quote. Moves the place past its marker, and past a task list item marker. If none begins, returns
/// `None` and leaves the place unchanged (CommonMark 5.1, 5.2, GFM 5.3, and this project).
#[inline(always)]
pub fn start_at<'a>(source: &Source<'a>, place: &mut Place<'a>, may_define: bool) -> Option<Start>
    requires utf8 { IsUtf8 source.now.text.now }
    requires place { IsPlaceOf source.now.text.now place.old }
    ensures { MatchOption (start_at source.now.options may_define place.old)
        ((result ≡ None) × (place.new ≡ place.old))
        (λ s. IsSomeAnd result (StartMatches s) × (place.new ≡ at_rest place.old s.rest)) }
{
    source.recall_length();
    let before = place.offset();
    let mut mark = place.rest.copy();
    let columns = scan_short_indentation(&mut mark);
    if columns >= 4 {
        return None;
    }
    if let Some(marker) = scan_item(&mut place.rest, &mark, columns) {
        return Some(Start {
            opener: Opener::Item(marker),
            start: before,
            after: scan_after_item(source, place),
        });
    }
    if let Some(indent) = scan_definition(&mut place.rest, &mark, columns, may_define) {
        let is_over = scan_blank_line(place.left()).is_some();
        return Some(Start {
            opener: Opener::Definition(indent),
            start: before,
            after: item_after(None, is_over),
        });
    }
    let quote = scan_quote_mark(&mut place.rest, mark)?;
    let tag = scan_tag(source.options, &place.rest);
    Some(Start {
        opener: Opener::Quote(tag),
        start: place.line + quote,
        after: after_quote(tag),
    })
}

// Takes up to four columns of indentation, and returns their number. A longer run of spaces or tabs, after which no
// container begins, is not read to its end.
#[inline(always)]
fn scan_short_indentation<'a>(line_start: &mut LineStart<'a>) -> usize
    ensures columns { result ≡ min 4 (indent line_start.old) }
    ensures rest { result ≤ 3 → line_start.new ≡ all_taken line_start.old }
{
    if line_start.has_no_column() {
        return 0;
    }
    line_start.scan_space_upto(4)
}

// What follows an item's marker, with the marker of a task or without one; `is_over` if the line ends there.
#[inline(always)]
fn item_after(task: Option<Item>, is_over: bool) -> AfterMarker
    ensures { result ≡ item_after task is_over }
{
    match task {
        _ if is_over => AfterMarker::LineEnds(task),
        Some(marker) => AfterMarker::TaskText(marker),
        None => AfterMarker::OnLine,
    }
}

// What follows a block quote's marker, with a tag or without one.
#[inline(always)]
fn after_quote(tag: Option<BlockQuoteKind>) -> AfterMarker
    ensures { result ≡ after_quote tag }
{
    if tag.is_some() {
        AfterMarker::OnlyTag
    } else {
        AfterMarker::OnLine
    }
}

// The kind that a tag here gives a block quote, if there is a tag and the option is on.
fn scan_tag<'a>(options: Options, line_start: &LineStart<'a>) -> Option<BlockQuoteKind>
    ensures { result ≡ tag_after options line_start.now }
{
    if !options.contains(Options::ENABLE_GFM) {
        return None;
    }
    line_start.copy().scan_blockquote_tag()
}

// Reads the task list item marker after an item's own and returns it, if there is one and the option is on. Otherwise
// reads nothing.
fn scan_task<'a>(source: &Source<'a>, place: &mut Place<'a>) -> Option<Item>
    requires utf8 { IsUtf8 source.now.text.now }
    requires place { IsPlaceOf source.now.text.now place.old }
    ensures marker { result ≡ (task_after source.now.options place.old.line place.old.rest).0 }
    ensures place { place.new
        ≡ at_rest place.old (task_after source.now.options place.old.line place.old.rest).1 }
{
    if !source.options.contains(Options::ENABLE_TASKLISTS) {
        return None;
    }
    source.recall_length();
    let start = place.offset();
    let checked = place.rest.scan_task_list_marker()?;
    Some(Item {
        start,
        end: place.offset(),
        body: ItemBody::TaskListMarker(checked),
    })
}

// What follows an item's marker, which ends at a place. Moves the place past a task list item marker, if there is one.
// Most texts have no task list items: without the option, only a blank rest is sought.
#[inline(always)]
fn scan_after_item<'a>(source: &Source<'a>, place: &mut Place<'a>) -> AfterMarker
    requires utf8 { IsUtf8 source.now.text.now }
    requires place { IsPlaceOf source.now.text.now place.old }
    ensures after { let task = task_after source.now.options place.old.line place.old.rest in
        result ≡ item_after task.0 (is_blank_rest task.1) }
    ensures place { place.new
        ≡ at_rest place.old (task_after source.now.options place.old.line place.old.rest).1 }
{
    if source.options.contains(Options::ENABLE_TASKLISTS) {
        let task = scan_task(source, place);
        let is_over = scan_blank_line(place.left()).is_some();
        return item_after(task, is_over);
    }
    if scan_blank_line(place.left()).is_some() {
        return AfterMarker::LineEnds(None);
    }
    AfterMarker::OnLine
}

// Reads the list item marker here and returns it, if an item begins. The marker is at `mark`, after `columns` columns
// of indentation. Otherwise reads nothing.
#[inline(always)]
#[tactic(auto, unfolding(first_pass_grammar::specs::Kinds::item_at))]
fn scan_item<'a>(
    line_start: &mut LineStart<'a>,
    mark: &LineStart<'a>,
    columns: usize,
) -> Option<ListMarker>
    requires { IsIndented line_start.old mark.now columns }
    ensures { MatchOption (item_at line_start.old) ((result ≡ None) × (line_start.new ≡ line_start.old))
        (λ item. (result ≡ Some (marker_of item.0)) × (line_start.new ≡ item.1)) }
{
    let mut next = mark.copy();
    let (byte, number, indent) = next.scan_list_marker_with_indent(columns)?;
    *line_start = next;
    Some(ListMarker {
        byte,
        number,
        indent,
    })
}

// Reads the `:` of a definition here and returns the definition's indent, if one begins and may begin. The `:` is at
// `mark`, after `columns` columns of indentation. Otherwise reads nothing.
#[inline(always)]
#[tactic(auto, unfolding(first_pass_grammar::specs::Kinds::definition_marker_at))]
fn scan_definition<'a>(
    line_start: &mut LineStart<'a>,
    mark: &LineStart<'a>,
    columns: usize,
    may_define: bool,
) -> Option<usize>
    requires { IsIndented line_start.old mark.now columns }
    ensures { MatchOption (if may_define then definition_marker_at line_start.old else None)
        ((result ≡ None) × (line_start.new ≡ line_start.old))
        (λ definition. (result ≡ Some definition.0) × (line_start.new ≡ definition.1)) }
{
    if !may_define {
        return None;
    }
    let mut next = mark.copy();
    let indent = next.scan_definition_list_definition_marker_with_indent(columns)?;
    *line_start = next;
    Some(indent)
}

// Reads the `>` of a block quote here and returns the number of bytes of the line before it, if there is one. The `>`
// is at `mark`. Otherwise reads nothing.
#[inline(always)]
fn scan_quote_mark<'a>(line_start: &mut LineStart<'a>, mark: LineStart<'a>) -> Option<usize>
    requires { (n : ℕ) × IsIndented line_start.old mark n }
    ensures { MatchOption (prefix (BlockQuote None) line_start.old) ((result ≡ None)
        × (line_start.new ≡ line_start.old))
        (λ next. (result ≡ Some (after_columns 3 line_start.old).taken) × (line_start.new ≡ next)) }
{
    let before = mark.bytes_scanned();
    let mut next = mark;
    if !next.scan_blockquote_marker() {
        return None;
    }
    *line_start = next;
    Some(before)
}
