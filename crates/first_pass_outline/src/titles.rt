//! The text of a heading.

ghost use Rattle.first_pass_lines.specs.Lines.{is_content, is_line_end, is_space_or_tab};
ghost use Rattle.first_pass_outline.specs.Titles.{below, first_start, heading_text, is_break, last_end, on_one_line, spanned, token_text};
ghost use Rattle.first_pass_scan.specs.TableHead.{stripped};
ghost use Rattle.std.specs.List.{All, list_any, prefix_len, suffix_len};
ghost use Rattle.std.specs.Prelude.{◌≡◌, ◌++◌, ◌≤◌, length, nat_lt, true, IfOk, OnOk};

use first_pass_items::item::{Item, ItemBody};
use first_pass_lines::lines::{is_line_end, is_space_or_tab, scan_blanks};
use first_pass_lines::places::rest_of;
use first_pass_reports::references::label::{bytes_between, whole_start};
use std::alloc::{AllocError, Global};

/// Returns the text of a heading with these tokens: its Markdown on one line. Each line is the part of the text from
/// the start of its first token, with a backslash that was dropped before it, to the end of its last. The lines are
/// joined by spaces. There is no space or tab at either end, and no line ending. Fails only if an allocation fails.
pub fn heading_text(
    alloc: Global,
    text: &[u8],
    tokens: &[(usize, Item)],
) -> Result<Vec<u8>, AllocError>
    ensures value { IfOk result (λ bytes. bytes.items ≡ heading_text text.now tokens.now) }
    ensures one_line { IfOk result (λ bytes. All (λ byte. is_content byte ≡ true) bytes.items) }
{
    let spanned = spanned(alloc, text, tokens)?;
    stripped(spanned.as_slice()).to_vec(alloc)
}

// The text that tokens span, on one line.
fn spanned(alloc: Global, text: &[u8], tokens: &[(usize, Item)]) -> Result<Vec<u8>, AllocError>
    ensures { IfOk result (λ line. line.items ≡ spanned text.now tokens.now) }
{
    let mut line = Vec::new(alloc);
    let mut last = first_start(tokens);
    let mut rest = tokens;
    while let Some((token, others)) = rest.split_first() {
        last = append_token(&mut line, text, last, token.1)?;
        rest = others;
    }
    Ok(line)
}

// The start of the first of some tokens.
fn first_start(tokens: &[(usize, Item)]) -> usize
    ensures { result ≡ first_start tokens.now }
{
    match tokens {
        [] => 0,
        [(_, first), ..] => whole_start(*first),
    }
}

// Appends a token of a line, after what is between the token before it, which ends at `last`, and it. A break is not
// appended. Returns the end of the last token of a line.
fn append_token(
    line: &mut Vec<u8>,
    text: &[u8],
    last: usize,
    token: Item,
) -> Result<usize, AllocError>
    ensures items { OnOk result (line.new.items ≡ line.old.items ++ token_text text.now last token) }
    ensures last { IfOk result (λ after. after ≡ last_end last token) }
{
    if is_break(token.body) {
        return Ok(last);
    }
    let start = whole_start(token);
    append_on_one_line(line, bytes_between(text, last, start))?;
    append_on_one_line(line, bytes_between(text, start, token.end))?;
    Ok(token.end)
}

// Whether a token is a break between two lines.
fn is_break(body: ItemBody) -> bool
    ensures { result ≡ is_break body }
{
    matches!(body, ItemBody::SoftBreak | ItemBody::HardBreak(_))
}

// Appends bytes, or a space if a line ending is among them.
fn append_on_one_line(line: &mut Vec<u8>, bytes: &[u8]) -> Result<(), AllocError>
    ensures { OnOk result (line.new.items ≡ line.old.items ++ on_one_line bytes.now) }
{
    if has_line_end(bytes) {
        line.extend_from_slice(b" ")
    } else {
        line.extend_from_slice(bytes)
    }
}

// Whether a line ending is among bytes.
fn has_line_end(bytes: &[u8]) -> bool
    ensures { result ≡ list_any is_line_end bytes.now }
{
    bytes.iter().any(|b| is_line_end(*b))
}

// The bytes without spaces and tabs at both ends.
#[tactic(auto, unfolding(first_pass_scan::specs::TableHead::stripped))]
fn stripped(bytes: &[u8]) -> &[u8]
    ensures { result.now ≡ stripped bytes.now }
{
    let rest = rest_of(bytes, scan_blanks(bytes));
    &rest[..rest.len() - trailing_blanks(rest)]
}

// The number of spaces and tabs at the end.
fn trailing_blanks(bytes: &[u8]) -> usize
    ensures value { result ≡ suffix_len is_space_or_tab bytes.now }
    ensures within { result ≤ length bytes.now }
{
    let backwards = bytes.iter().rev();
    backwards.take_while(|b| is_space_or_tab(**b)).count()
}

/// Returns the first of these nodes that are deeper than `depth`: those below a node at this depth, if `nodes` follow
/// it in reading order.
pub fn nodes_below(depth: usize, nodes: &[(usize, Item)]) -> &[(usize, Item)]
    ensures { result.now ≡ below depth nodes.now }
{
    let count = below_count(depth, nodes);
    &nodes[..count]
}

// The number of the first nodes that are deeper than `depth`.
fn below_count(depth: usize, nodes: &[(usize, Item)]) -> usize
    ensures value { result ≡ prefix_len (λ node. nat_lt depth node.0) nodes.now }
    ensures within { result ≤ length nodes.now }
{
    nodes.iter().take_while(|node| depth < node.0).count()
}
