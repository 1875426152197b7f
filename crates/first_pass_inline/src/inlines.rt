//! The marks of the chains of a text.

ghost use Rattle.first_pass_content.specs.Chains.{AreChains, IsChain, has_chain};
ghost use Rattle.first_pass_content.specs.Content.{bytes_of, content};
ghost use Rattle.first_pass_content.specs.Tokens.{IsWholeToken};
ghost use Rattle.first_pass_inline.specs.Inlines.{AreInlines, chain_of, chain_with};
ghost use Rattle.first_pass_inline.specs.Labels.{text_labels};
ghost use Rattle.first_pass_inline.specs.Marks.{AreMarks};
ghost use Rattle.first_pass_names.specs.TableEntries.{footdefs_of, refdefs_of};
ghost use Rattle.std.specs.List.{prefix_len};
ghost use Rattle.std.specs.Prelude.{◌≡◌, ◌≤◌, All, IfOk, IsUtf8, length, nat_lt, take};

use crate::chain::InlineChain;
use crate::labels::Labels;
use crate::mark::Mark;
use crate::walk::marks_of;
use first_pass_atoms::token_ends::token_ends;
use first_pass_content::content::Content;
use first_pass_content::tokens::{PlacedChain, PlacedToken, placed_chain};
use first_pass_items::item::{Item, ItemBody};
use first_pass_items::option_set::Options;
use first_pass_names::items::Allocations;
use first_pass_tree::forest::Tree;
use std::alloc::{AllocError, Global};
use std::str;

/// The content of a chain, and its marks.
#[derive(Drop)]
pub struct InlineMarks<'t> {
    pub content: Content<'t>,
    pub marks: Vec<Mark>,
}

/// The content and the marks of the chain of a block. `block` is the index of the block in the tree.
#[derive(Drop)]
pub struct BlockInlines<'t> {
    pub block: usize,
    pub inlines: InlineMarks<'t>,
}

/// Returns the content and the marks of each chain of a text, in reading order. `tree` and `allocs` are those that the
/// first pass returns for the text with these options. Fails only if an allocation fails.
pub fn resolve_inlines<'t>(
    alloc: Global,
    text: &'t str,
    options: Options,
    tree: &Tree<Item>,
    allocs: &Allocations<'_>,
) -> Result<Vec<BlockInlines<'t>>, AllocError>
    requires { AreChains text.now tree.now.nodes }
    ensures { IfOk result (λ found. AreInlines text.now
        (text_labels options (refdefs_of allocs.now) (footdefs_of allocs.now)) tree.now.nodes found.items) }
{
    let labels = Labels::of(alloc, allocs.refdefs(), allocs.footdefs(), options)?;
    inlines_of(alloc, text, tree.nodes(), &labels)
}

// The content and the marks of each chain of these nodes of a text.
fn inlines_of<'t>(
    alloc: Global,
    text: &'t str,
    nodes: &[(usize, Item)],
    labels: &Labels<'_, '_>,
) -> Result<Vec<BlockInlines<'t>>, AllocError>
    requires { AreChains text.now nodes.now }
    ensures { IfOk result (λ found. AreInlines text.now labels.now nodes.now found.items) }
{
    let mut found = Vec::new(alloc);
    let mut rest = nodes;
    let mut block = 0;
    while let Some((node, following)) = rest.split_first() {
        if has_chain(node.1.body) {
            let tokens = tokens_below(node.0, following);
            let inlines = inline_marks(alloc, text, tokens, labels)?;
            found.push(BlockInlines { block, inlines })?;
        }
        block += 1;
        rest = following;
    }
    Ok(found)
}

/// Returns the content and the marks of the chain with these tokens of a text. Fails only if an allocation fails.
pub fn inline_marks<'t>(
    alloc: Global,
    text: &'t str,
    tokens: &[(usize, Item)],
    labels: &Labels<'_, '_>,
) -> Result<InlineMarks<'t>, AllocError>
    requires { IsChain text.now tokens.now }
    ensures content { IfOk result (λ found. found.content ≡ content text.now tokens.now) }
    ensures marks { IfOk result (λ found. AreMarks (chain_of text.now tokens.now labels.now) found.marks.items) }
{
    let PlacedChain {
        content,
        tokens: placed,
    } = placed_chain(alloc, text.as_bytes(), tokens)?;
    let marks = marks_with(alloc, tokens, &content, placed.as_slice(), labels)?;
    Ok(InlineMarks { content, marks })
}

// The marks of the chain of these nodes, with this content and these tokens.
fn marks_with(
    alloc: Global,
    nodes: &[(usize, Item)],
    content: &Content<'_>,
    tokens: &[PlacedToken],
    labels: &Labels<'_, '_>,
) -> Result<Vec<Mark>, AllocError>
    requires utf8 { IsUtf8 (bytes_of content.now) }
    requires whole { All (IsWholeToken (bytes_of content.now)) tokens.now }
    ensures { IfOk result (λ marks. AreMarks (chain_with nodes.now content.now tokens.now labels.now) marks.items) }
{
    let Ok(bytes) = str::from_utf8(content.bytes()) else {
        unreachable!();
    };
    let ends = token_ends(alloc, nodes)?;
    let chain = InlineChain::new(nodes, tokens, bytes, &ends, labels);
    marks_of(alloc, &chain)
}

/// Returns whether a block has a chain of tokens.
pub fn has_chain(body: ItemBody) -> bool
    ensures { result ≡ has_chain body }
{
    matches!(
        body,
        ItemBody::Paragraph
            | ItemBody::TightParagraph
            | ItemBody::Heading(_, _)
            | ItemBody::TableCell
            | ItemBody::DefinitionListTitle
    )
}

/// Returns the nodes at the start of these that are deeper than a block: those below it.
pub fn tokens_below(depth: usize, nodes: &[(usize, Item)]) -> &[(usize, Item)]
    ensures { result.now ≡ take (prefix_len (λ n. nat_lt depth n.0) nodes.now) nodes.now }
{
    let count = count_below(depth, nodes);
    &nodes[..count]
}

// The number of these nodes.
fn count_below(depth: usize, nodes: &[(usize, Item)]) -> usize
    ensures value { result ≡ prefix_len (λ n. nat_lt depth n.0) nodes.now }
    ensures within { result ≤ length nodes.now }
{
    nodes.iter().take_while(|node| depth < node.0).count()
}
