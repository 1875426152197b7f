//! Labels as they are compared (CommonMark 4.7, 6.3).

ghost use Rattle.first_pass_items.specs.Bytes.{space};
ghost use Rattle.first_pass_labels.specs.Foldings.{folding_of};
ghost use Rattle.first_pass_lines.specs.Lines.{is_white_or_line_end};
ghost use Rattle.first_pass_links.specs.Labels.{single_spaced};
ghost use Rattle.first_pass_targets.specs.Keys.{is_solid, label_key, without_first_space, without_last_space};
ghost use Rattle.std.specs.List.{prefix_len};
ghost use Rattle.std.specs.Prelude.{◌≡◌, ◌≤◌, ◌∷◌, [], length, IfOk, if◌then◌else◌};
ghost use Rattle.std.specs.String.{string_bytes};

use first_pass_items::cow_str::{CowStr, InlineStr};
use first_pass_labels::label_key::LabelKey;
use first_pass_lines::lines::{begins, ends, is_white_or_line_end};
use first_pass_lines::places::rest_of;
use std::alloc::{AllocError, Global};
use std::boxed::BoxedStr;

/// Returns the label with each run of white space and line endings as one space. Fails only if an allocation fails
/// (CommonMark 6.3).
pub fn spelled_label(alloc: Global, label: &str) -> Result<String, AllocError>
    ensures { IfOk result (λ spelled. string_bytes spelled ≡ single_spaced label.now) }
{
    let bytes = label.as_bytes();
    let mut spelled = String::with_capacity(alloc, bytes.len())?;
    let mut at = 0;
    while at < bytes.len() {
        let white = at + word_len(rest_of(bytes, at));
        spelled.push_str(&label[at..white])?;
        let next = white + white_len(rest_of(bytes, white));
        spelled.push_str(separator(white < next))?;
        at = next;
    }
    Ok(spelled)
}

// What replaces white space and line endings: a space, if there are any.
fn separator(is_there: bool) -> &'static str
    ensures { result.now ≡ (if is_there then space ∷ [] else []) }
{
    if is_there { " " } else { "" }
}

// The key of a label: its spelling without white space at both ends, with its case folded.
pub(crate) fn key_of<'a>(alloc: Global, label: &str) -> Result<LabelKey<'a>, AllocError>
    ensures { IfOk result (λ key. folding_of key ≡ label_key label.now) }
{
    let spelled = spelled_label(alloc, label)?;
    let text = without_last_space(without_first_space(spelled.as_str()));
    let copy = match InlineStr::try_from_str(text) {
        Some(short) => CowStr::Inlined(short),
        None => CowStr::Boxed(BoxedStr::from_str(alloc, text)?),
    };
    LabelKey::new(alloc, copy)
}

// The number of bytes before the first white space or line ending.
fn word_len(bytes: &[u8]) -> usize
    ensures value { result ≡ prefix_len is_solid bytes.now }
    ensures within { result ≤ length bytes.now }
{
    bytes
        .iter()
        .take_while(|byte| !is_white_or_line_end(**byte))
        .count()
}

// The number of bytes of white space and line endings at the start.
fn white_len(bytes: &[u8]) -> usize
    ensures value { result ≡ prefix_len is_white_or_line_end bytes.now }
    ensures within { result ≤ length bytes.now }
{
    bytes
        .iter()
        .take_while(|byte| is_white_or_line_end(**byte))
        .count()
}

fn without_first_space(text: &str) -> &str
    ensures { result.now ≡ without_first_space text.now }
{
    if begins(b' ', text.as_bytes()) {
        return &text[1..];
    }
    text
}

fn without_last_space(text: &str) -> &str
    ensures { result.now ≡ without_last_space text.now }
{
    if ends(b' ', text.as_bytes()) {
        return &text[..text.len() - 1];
    }
    text
}
