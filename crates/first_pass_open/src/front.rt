//! How far a line continues the open containers, and the front of the line: what is left after the prefixes of the
//! containers that it continues (CommonMark 5).

ghost use Rattle.first_pass_grammar.specs.Containers.{after, front};
ghost use Rattle.first_pass_grammar.specs.Kinds.{continued};
ghost use Rattle.first_pass_items.specs.declared.option_set.Options.{Options};
ghost use Rattle.first_pass_lines.specs.Places.{line_rest, place_at, IsPlaceOf};
ghost use Rattle.first_pass_open.specs.Path.{outer, path_in, path_of, definition_at_depth, continued_to, has_quote_after};
ghost use Rattle.std.specs.Prelude.{◌≡◌, ◌<◌, ◌≤◌, ℕ, drop, length, is_some, Some, None, false, IfSome, IsTrue, IsUtf8, IsCharBoundary};

use crate::prefixes::{continued_rest, scan_containers};
use crate::source::Source;
use first_pass_items::item::{Item, ItemBody};
use first_pass_items::option_set::Options;
use first_pass_lines::places::rest_of;
use first_pass_scan::line_start::LineStart;
use first_pass_tree::forest::Tree;

/// How far a line continues the open nodes, and the front of the line, which is `rest`.
#[derive(Drop)]
pub struct Front<'a> {
    /// How many open nodes the line continues, counted from the outermost.
    pub continued: usize,
    /// Whether the line continues all open nodes.
    pub continues_all: bool,
    /// The front of the line: the rest of the text after the prefixes of the open nodes that the line continues.
    pub rest: LineStart<'a>,
}

/// Returns how far the first line of `bytes` continues the open nodes of `tree`, and the front of that line.
#[inline(always)]
pub fn front_of<'b>(bytes: &'b [u8], tree: &Tree<Item>, options: Options) -> Front<'b>
    ensures within { result.continued ≤ length tree.now.spine }
    ensures taken { after (path_in options tree.now.nodes (outer result.continued tree.now.spine)) (line_rest bytes.now)
        ≡ Some result.rest }
    ensures stops { (m : ℕ) → result.continued < m → m ≤ length tree.now.spine
        → after (path_in options tree.now.nodes (outer m tree.now.spine)) (line_rest bytes.now) ≡ None }
    ensures whole { result.continues_all ≡ is_some (after (path_of options tree.now) (line_rest bytes.now)) }
    ensures front { result.rest ≡ front (path_of options tree.now) (line_rest bytes.now) }
    ensures continued { IsTrue result.continues_all → after (path_of options tree.now) (line_rest bytes.now)
        ≡ Some result.rest }
    ensures kept { continued_to options tree.now result.continued
        ≡ continued (path_of options tree.now) (line_rest bytes.now) }
{
    let mut rest = LineStart::new(bytes);
    let kept = scan_containers(tree, &mut rest, options, false);
    Front {
        continued: kept,
        continues_all: kept == tree.spine_len(),
        rest,
    }
}

/// Returns how far a line continues the open nodes of `tree`, and the front of the line. The line begins at `start`, an
/// offset into the text of `source`.
#[inline(always)]
pub fn scan_front<'a>(source: &Source<'a>, tree: &Tree<Item>, start: usize) -> Front<'a>
    requires { IsCharBoundary source.now.text.now start }
    ensures within { result.continued ≤ length tree.now.spine }
    ensures taken { after (path_in source.now.options tree.now.nodes (outer result.continued tree.now.spine))
        (line_rest (drop start source.now.text.now)) ≡ Some result.rest }
    ensures stops { (m : ℕ) → result.continued < m → m ≤ length tree.now.spine
        → after (path_in source.now.options tree.now.nodes (outer m tree.now.spine))
        (line_rest (drop start source.now.text.now)) ≡ None }
    ensures whole { result.continues_all
        ≡ is_some (after (path_of source.now.options tree.now) (line_rest (drop start source.now.text.now))) }
    ensures front { result.rest
        ≡ front (path_of source.now.options tree.now) (line_rest (drop start source.now.text.now)) }
    ensures continued { IsTrue result.continues_all
        → after (path_of source.now.options tree.now) (line_rest (drop start source.now.text.now))
        ≡ Some result.rest }
    ensures kept { continued_to source.now.options tree.now result.continued
        ≡ continued (path_of source.now.options tree.now) (line_rest (drop start source.now.text.now)) }
    ensures place { IsPlaceOf source.now.text.now (place_at start result.rest) }
    ensures utf8 { IsUtf8 source.now.text.now }
{
    front_of(rest_of(source.text.as_bytes(), start), tree, source.options)
}

/// Takes the prefixes of all open containers from the line that begins at `start`, an offset into the text. Returns the
/// rest of the text after them, or `None` if the line does not continue all these containers (CommonMark 5).
#[inline(always)]
pub fn scan_continued<'a>(
    source: &Source<'a>,
    tree: &Tree<Item>,
    start: usize,
) -> Option<LineStart<'a>>
    requires { IsCharBoundary source.now.text.now start }
    ensures value { result
        ≡ after (path_of source.now.options tree.now) (line_rest (drop start source.now.text.now)) }
    ensures place { IfSome result (λ rest. IsPlaceOf source.now.text.now (place_at start rest)) }
    ensures utf8 { IsUtf8 source.now.text.now }
{
    let front = scan_front(source, tree, start);
    if !front.continues_all {
        return None;
    }
    Some(front.rest)
}

/// Returns the same as `scan_continued`. If the line ends after the prefixes of the outermost `nodes_to_quote` open
/// nodes, the call does not visit the open nodes inside them. None of those may be a block quote (CommonMark 5).
#[inline(always)]
pub fn scan_continued_past<'a>(
    source: &Source<'a>,
    tree: &Tree<Item>,
    start: usize,
    nodes_to_quote: usize,
) -> Option<LineStart<'a>>
    requires boundary { IsCharBoundary source.now.text.now start }
    requires quotes { has_quote_after source.now.options tree.now nodes_to_quote ≡ false }
    ensures value { result
        ≡ after (path_of source.now.options tree.now) (line_rest (drop start source.now.text.now)) }
    ensures place { IfSome result (λ rest. IsPlaceOf source.now.text.now (place_at start rest)) }
    ensures utf8 { IsUtf8 source.now.text.now }
{
    let rest = continued_rest(
        rest_of(source.text.as_bytes(), start),
        tree,
        source.options,
        nodes_to_quote,
    )?;
    Some(rest)
}

/// Returns whether the open node directly inside the outermost `kept` open nodes is a definition of a definition list;
/// `false` if only `kept` nodes or fewer are open.
pub fn is_definition_at_depth(tree: &Tree<Item>, kept: usize) -> bool
    ensures { (options : Options) → result ≡ definition_at_depth options tree.now kept }
{
    tree.recall_forest();
    match tree.walk_spine().get(kept) {
        None => false,
        Some(ix) => matches!(tree[*ix].body, ItemBody::DefinitionListDefinition(_)),
    }
}
