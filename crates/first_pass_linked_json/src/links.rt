//! The lines of links in JSON.

ghost use Rattle.first_pass_content.specs.Content.{bytes_of};
ghost use Rattle.first_pass_inline.specs.Readable.{IsReadableTarget};
ghost use Rattle.first_pass_json.specs.JsonLines.{target_members};
ghost use Rattle.first_pass_json.specs.JsonValues.{json_string, text_or_null};
ghost use Rattle.first_pass_linked.specs.Targets.{bytes_in, destination, title_in, unescaped_in};
ghost use Rattle.first_pass_linked_json.specs.LinkObjects.{autolink_members, json_forms, link_name, range_end, shown_end, text_members};
ghost use Rattle.std.specs.Prelude.{◌≡◌, ◌<◌, ◌++◌, IsUtf8, OnOk};

use crate::quoted::{append_label, append_quoted};
use first_pass_atoms::autolinks::AutolinkForm;
use first_pass_content::content::Content;
use first_pass_inline::mark::{Link, Span, Target, Undefined};
use first_pass_json::definition::append_definition;
use first_pass_json::range::{Offsets, RangeForm};
use first_pass_json::values::{
    append_number_after, append_string, append_string_after, append_string_or_null, append_word,
};
use first_pass_labels::label_key::LabelKey;
use first_pass_labels::label_table::LinkDef;
use first_pass_linked::form::LineForm;
use first_pass_linked::lines::LineSource;
use first_pass_linked::part::{address_of, after_first, bytes_in, range_in};
use first_pass_linked::target::{form_name, form_word};
use first_pass_links::escape::unescape;
use std::alloc::AllocError;
use std::ops::{DerefStr, Range};
use std::str;

/// The lines of links in JSON: an object for each. A link definition is as in `first_pass_json::run::JsonTree`.
pub struct JsonLinks;

impl LineForm for JsonLinks {
    ghost forms = { λ _. json_forms };

    fn append_definition(
        &self,
        line: &mut Vec<u8>,
        label: &LabelKey<'_>,
        definition: &LinkDef<'_>,
    ) -> Result<(), AllocError> {
        append_definition(line, &Offsets, label, definition)
    }

    fn append_footnote(
        &self,
        line: &mut Vec<u8>,
        label: &str,
        range: Range<usize>,
    ) -> Result<(), AllocError> {
        append_string_after(line, b"{\"footnote\":", label)?;
        append_end(line, range)
    }

    fn append_link(
        &self,
        line: &mut Vec<u8>,
        source: &LineSource<'_>,
        start: usize,
        link: Link,
    ) -> Result<(), AllocError> {
        line.extend_from_slice(link_name(link.is_image).as_bytes())?;
        append_word(line, form_name(link.target))?;
        append_target(line, source, link.target)?;
        append_shown_end(
            line,
            range_in(source.content, start, link.end),
            range_in(source.content, link.shown.start, link.shown.end),
        )
    }

    fn append_autolink(
        &self,
        line: &mut Vec<u8>,
        content: &Content<'_>,
        part: Span,
        form: AutolinkForm,
    ) -> Result<(), AllocError> {
        let address = address_of(part);
        append_address(line, content, part, form)?;
        append_shown_end(
            line,
            range_in(content, part.start, part.end),
            range_in(content, address.start, address.end),
        )
    }

    fn append_footnote_reference(
        &self,
        line: &mut Vec<u8>,
        content: &Content<'_>,
        part: Span,
        label: Span,
    ) -> Result<(), AllocError> {
        line.extend_from_slice(b"{\"footnote_reference\":")?;
        append_label(line, after_first(bytes_in(content, label)))?;
        append_end(line, range_in(content, part.start, part.end))
    }

    fn append_undefined(
        &self,
        line: &mut Vec<u8>,
        content: &Content<'_>,
        start: usize,
        found: Undefined,
    ) -> Result<(), AllocError> {
        line.extend_from_slice(b"{\"undefined\":")?;
        append_label(line, bytes_in(content, found.label))?;
        append_end(line, range_in(content, start, found.end))
    }
}

fn link_name(is_image: bool) -> &'static str
    ensures { result.now ≡ link_name is_image }
{
    if is_image {
        "{\"image\":"
    } else {
        "{\"link\":"
    }
}

// Appends the form and the address of an autolink.
fn append_address(
    line: &mut Vec<u8>,
    content: &Content<'_>,
    part: Span,
    form: AutolinkForm,
) -> Result<(), AllocError>
    requires { part.start < part.«end» }
    ensures { OnOk result (line.new.items ≡ line.old.items ++ autolink_members content.now part form) }
{
    line.extend_from_slice(b"{\"autolink\":")?;
    append_word(line, form_word(form))?;
    line.extend_from_slice(b",\"destination\":")?;
    append_quoted(line, bytes_in(content, address_of(part)))
}

// Appends the members of the destination and of the title of a link or an image.
#[tactic(auto, unfolding(first_pass_json::specs::JsonLines::target_members))]
fn append_target(
    line: &mut Vec<u8>,
    source: &LineSource<'_>,
    target: Target,
) -> Result<(), AllocError>
    requires { IsReadableTarget (bytes_of source.now.content.now) target }
    ensures { OnOk result (line.new.items ≡ line.old.items
        ++ target_members (destination source.now.content.now source.now.definitions.now target)
        (title_in source.now.content.now source.now.definitions.now target)) }
{
    line.extend_from_slice(b",\"destination\":")?;
    append_destination(line, source, target)?;
    line.extend_from_slice(b",\"title\":")?;
    append_title(line, source, target)
}

// Appends the destination of a link or an image as a string.
fn append_destination(
    line: &mut Vec<u8>,
    source: &LineSource<'_>,
    target: Target,
) -> Result<(), AllocError>
    requires { IsReadableTarget (bytes_of source.now.content.now) target }
    ensures { OnOk result (line.new.items ≡ line.old.items
        ++ json_string (destination source.now.content.now source.now.definitions.now target)) }
{
    match target {
        Target::Inline { dest, .. } => append_unescaped(line, source, dest),
        Target::Definition { index, .. } => {
            append_string(line, source.definitions.dest_at(index))
        }
        Target::Name(name) => append_quoted(line, bytes_in(source.content, name.name)),
    }
}

// Appends the title of a link or an image as a string, or `null` if it has none.
fn append_title(
    line: &mut Vec<u8>,
    source: &LineSource<'_>,
    target: Target,
) -> Result<(), AllocError>
    requires { IsReadableTarget (bytes_of source.now.content.now) target }
    ensures { OnOk result (line.new.items ≡ line.old.items
        ++ text_or_null (title_in source.now.content.now source.now.definitions.now target)) }
{
    match target {
        Target::Inline {
            title: Some(title),
            ..
        } => append_unescaped(line, source, title),
        Target::Definition { index, .. } => {
            append_string_or_null(line, source.definitions.title_at(index))
        }
        _ => append_string_or_null(line, None),
    }
}

// Appends a part of the content as a string, with each backslash escape and each reference replaced by its character
// (CommonMark 2.4, 2.5).
fn append_unescaped(
    line: &mut Vec<u8>,
    source: &LineSource<'_>,
    part: Span,
) -> Result<(), AllocError>
    requires { IsUtf8 (bytes_in source.now.content.now part) }
    ensures { OnOk result (line.new.items ≡ line.old.items ++ json_string (unescaped_in source.now.content.now part)) }
{
    let text = str::from_utf8(bytes_in(source.content, part)).unwrap();
    let answer = unescape(source.alloc, text, false)?;
    append_string(line, answer.deref())
}

// Appends the members of a range, and the end of a line.
fn append_end(line: &mut Vec<u8>, range: Range<usize>) -> Result<(), AllocError>
    ensures { OnOk result (line.new.items ≡ line.old.items ++ range_end range) }
{
    Offsets.append_range(line, range.start, range.end)?;
    line.extend_from_slice(b"}\n")
}

// Appends the members of a range and of that of what is shown, and the end of a line.
fn append_shown_end(
    line: &mut Vec<u8>,
    range: Range<usize>,
    shown: Range<usize>,
) -> Result<(), AllocError>
    ensures { OnOk result (line.new.items ≡ line.old.items ++ shown_end range shown) }
{
    Offsets.append_range(line, range.start, range.end)?;
    append_text_range(line, shown)?;
    line.extend_from_slice(b"}\n")
}

// Appends the members of the range of what is shown.
fn append_text_range(line: &mut Vec<u8>, shown: Range<usize>) -> Result<(), AllocError>
    ensures { OnOk result (line.new.items ≡ line.old.items ++ text_members shown) }
{
    append_number_after(line, b",\"text_start\":", shown.start)?;
    append_number_after(line, b",\"text_end\":", shown.end)
}
