//! The prefixes of a line for the open containers: which of them it continues (CommonMark 5).

ghost use Rattle.first_pass_grammar.specs.Containers.{prefix, after, front};
ghost use Rattle.first_pass_grammar.specs.declared.kind.Container.TheVariants.{BlockQuote, ListItem};
ghost use Rattle.first_pass_items.specs.declared.option_set.Options.{Options as OptionSet};
ghost use Rattle.first_pass_lines.specs.Places.{line_rest};
ghost use Rattle.first_pass_lines.specs.Rest.{after_columns};
ghost use Rattle.first_pass_open.specs.Path.{container_of, prefix_of, columns_needed, path_in, path_of, outer, is_quote_node, has_quote_after};
ghost use Rattle.std.specs.Prelude.{◌≡◌, ℕ, ◌<◌, ◌≤◌, length, Some, None, true, false, MatchOption};

use first_pass_items::item::{Item, ItemBody};
use first_pass_items::option_set::Options;
use first_pass_scan::line_start::LineStart;
use first_pass_tree::forest::Tree;

// Takes this many columns, or fewer if the line then ends: the prefix of a list item, of a definition, or of a footnote
// definition, which in the old form needs 0 columns. Returns whether it is there; takes nothing if it is not.
#[inline(always)]
#[tactic(auto, unfolding(first_pass_grammar::specs::Containers::prefix))]
fn takes_columns<'a>(columns: usize, line_start: &mut LineStart<'a>) -> bool
    ensures { MatchOption (prefix (ListItem columns) line_start.old)
        ((result ≡ false) × (line_start.new ≡ line_start.old)) (λ next. (result ≡ true) × (line_start.new ≡ next)) }
{
    let mut next = line_start.copy();
    if !next.scan_space(columns) && !next.is_at_eol() {
        return false;
    }
    *line_start = next;
    true
}

// The columns that a line needs to continue a node with this body; `None` for a block quote and for a node that is no
// container. List items are found by one test. The kinds of the second test are neighbours in `ItemBody`, so that it
// becomes one comparison. Compilers make a jump table of a match on single kinds, and processors seldom predict its
// jump.
#[inline(always)]
fn columns_needed(body: &ItemBody, options: Options) -> Option<usize>
    ensures { result ≡ columns_needed (container_of options body.now) }
{
    if let ItemBody::ListItem(columns) = body {
        return Some(*columns);
    }
    if !matches!(
        body,
        ItemBody::FootnoteDefinition(_)
            | ItemBody::MetadataBlock(_)
            | ItemBody::DefinitionList(_)
            | ItemBody::MaybeDefinitionListTitle
            | ItemBody::DefinitionListTitle
            | ItemBody::DefinitionListDefinition(_)
    ) {
        return None;
    }
    match body {
        ItemBody::DefinitionListDefinition(columns) => Some(*columns),
        ItemBody::FootnoteDefinition(_) => Some(if options.has_gfm_footnotes() { 4 } else { 0 }),
        _ => None,
    }
}

// Takes the prefix that a line needs to continue a node with this body. A node that is no container has an empty
// prefix. Returns whether the prefix is there; takes nothing if it is not.
#[inline(always)]
fn takes_prefix<'a>(body: &ItemBody, line_start: &mut LineStart<'a>, options: Options) -> bool
    ensures { MatchOption (prefix_of (container_of options body.now) line_start.old)
        ((result ≡ false) × (line_start.new ≡ line_start.old)) (λ next. (result ≡ true) × (line_start.new ≡ next)) }
{
    if let Some(columns) = columns_needed(body, options) {
        return takes_columns(columns, line_start);
    }
    if is_quote(*body) {
        return scan_quote(line_start).is_some();
    }
    true
}

/// Takes the prefixes of the open nodes in turn, from the outermost inwards, until one is not there (CommonMark 5).
/// Returns how many were taken, which is the number of open nodes that the line continues. `prefix` of the grammar
/// defines the prefix of each container. A node that is no container has an empty prefix. `_gfm_blockquote` is not
/// used.
#[inline(always)]
pub fn scan_containers<'a>(
    tree: &Tree<Item>,
    line_start: &mut LineStart<'a>,
    options: Options,
    _gfm_blockquote: bool,
) -> usize
    ensures within { result ≤ length tree.now.spine }
    ensures taken { after (path_in options tree.now.nodes (outer result tree.now.spine)) line_start.old
        ≡ Some line_start.new }
    ensures stops { (m : ℕ) → result < m → m ≤ length tree.now.spine
        → after (path_in options tree.now.nodes (outer m tree.now.spine)) line_start.old ≡ None }
    ensures front { line_start.new ≡ front (path_of options tree.now) line_start.old }
{
    tree.recall_forest();
    let spine = tree.walk_spine();
    for (i, ix) in spine.iter().enumerate() {
        if !takes_prefix(&tree[*ix].body, line_start, options) {
            return i;
        }
    }
    spine.len()
}

// Whether a node is a block quote.
fn is_quote(body: ItemBody) -> bool
    ensures { (options : OptionSet) → result ≡ is_quote_node (container_of options body) }
{
    matches!(body, ItemBody::BlockQuote(_))
}

// With fewer open nodes than this, `nodes_to_quote` returns their number at once.
const MANY_OPEN: usize = 16;

/// Returns a number n of open nodes, so that no block quote is open inside the outermost n. A line that ends after the
/// prefixes of these n continues all other open nodes too (CommonMark 5.1, 5.2). If fewer than `MANY_OPEN` nodes are
/// open, n is their number. Otherwise the innermost block quote is the last of the n; without a block quote, n is 0.
/// The result is valid until a node is opened or closed.
pub fn nodes_to_quote(tree: &Tree<Item>) -> usize
    ensures { (options : OptionSet) → has_quote_after options tree.now result ≡ false }
{
    tree.recall_forest();
    let spine = tree.walk_spine();
    let mut end = spine.len();
    if end < MANY_OPEN {
        return end;
    }
    while 0 < end {
        if is_quote(tree[spine[end - 1]].body) {
            return end;
        }
        end -= 1;
    }
    end
}

/// Takes the prefixes of all open nodes from the first line of `bytes`, and returns the rest after them. Returns `None`
/// if the line does not continue all these nodes (CommonMark 5). `nodes_to_quote` is a number as the function of this
/// name returns it: no block quote may be open inside the outermost `nodes_to_quote` open nodes.
#[inline(always)]
pub fn continued_rest<'b>(
    bytes: &'b [u8],
    tree: &Tree<Item>,
    options: Options,
    nodes_to_quote: usize,
) -> Option<LineStart<'b>>
    requires { has_quote_after options tree.now nodes_to_quote ≡ false }
    ensures { result ≡ after (path_of options tree.now) (line_rest bytes.now) }
{
    tree.recall_forest();
    let mut rest = LineStart::new(bytes);
    for (i, ix) in tree.walk_spine().iter().enumerate() {
        if nodes_to_quote <= i && rest.remaining_space() == 0 && rest.is_at_eol() {
            return Some(rest);
        }
        if !takes_prefix(&tree[*ix].body, &mut rest, options) {
            return None;
        }
    }
    Some(rest)
}

/// Takes the prefix of a block quote, and returns how many bytes of the line are before its `>`. If the prefix is not
/// there, takes nothing and returns `None` (CommonMark 5.1).
#[inline(always)]
#[tactic(auto, unfolding(first_pass_grammar::specs::Containers::prefix))]
pub fn scan_quote<'a>(line_start: &mut LineStart<'a>) -> Option<usize>
    ensures { MatchOption (prefix (BlockQuote None) line_start.old) ((result ≡ None)
        × (line_start.new ≡ line_start.old))
        (λ next. (result ≡ Some (after_columns 3 line_start.old).taken) × (line_start.new ≡ next)) }
{
    // Most markers have no indentation. So a marker is first looked for here, and then after up to three columns.
    let at = line_start.bytes_scanned();
    if line_start.scan_blockquote_marker() {
        return Some(at);
    }
    if line_start.is_at_inert() {
        return None;
    }
    let mut next = line_start.copy();
    next.scan_space_upto(3);
    let before = next.bytes_scanned();
    if !next.scan_blockquote_marker() {
        return None;
    }
    *line_start = next;
    Some(before)
}
