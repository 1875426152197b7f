//! The lines of links as text.

ghost use Rattle.first_pass_content.specs.Content.{bytes_of};
ghost use Rattle.first_pass_inline.specs.Readable.{IsReadableTarget};
ghost use Rattle.first_pass_linked.specs.Lines.{ended_label, last_range, link_word, plain_forms};
ghost use Rattle.std.specs.Prelude.{◌≡◌, ◌++◌, drop, OnOk};

use crate::form::LineForm;
use crate::lines::LineSource;
use crate::part::{
    address_of, after_first, append_spaced_range, append_spelled, bytes_in, range_in,
};
use crate::target::{append_target, form_word};
use first_pass_atoms::autolinks::AutolinkForm;
use first_pass_content::content::Content;
use first_pass_inline::mark::{Link, Span, Undefined};
use first_pass_labels::label_key::LabelKey;
use first_pass_labels::label_table::LinkDef;
use first_pass_reports::printed::node::{append_range, append_visible};
use first_pass_reports::references::lines::append_definition;
use std::alloc::AllocError;
use std::ops::Range;

/// The lines of links as text. Labels have single spaces. In destinations and titles a backslash, a newline and a
/// carriage return are escaped.
pub struct PlainLinks;

impl LineForm for PlainLinks {
    ghost forms = { λ _. plain_forms };

    fn append_definition(
        &self,
        line: &mut Vec<u8>,
        label: &LabelKey<'_>,
        definition: &LinkDef<'_>,
    ) -> Result<(), AllocError> {
        append_definition(line, label, definition)
    }

    fn append_footnote(
        &self,
        line: &mut Vec<u8>,
        label: &str,
        range: Range<usize>,
    ) -> Result<(), AllocError> {
        line.extend_from_slice(b"footnote [^")?;
        line.extend_from_slice(label.as_bytes())?;
        line.push(b']')?;
        append_last_range(line, range)
    }

    fn append_link(
        &self,
        line: &mut Vec<u8>,
        source: &LineSource<'_>,
        start: usize,
        link: Link,
    ) -> Result<(), AllocError> {
        line.extend_from_slice(link_word(link.is_image).as_bytes())?;
        append_target(line, source, link.target)?;
        append_spaced_range(line, range_in(source.content, start, link.end))?;
        append_last_range(
            line,
            range_in(source.content, link.shown.start, link.shown.end),
        )
    }

    fn append_autolink(
        &self,
        line: &mut Vec<u8>,
        content: &Content<'_>,
        part: Span,
        form: AutolinkForm,
    ) -> Result<(), AllocError> {
        let address = address_of(part);
        line.extend_from_slice(b"autolink ")?;
        line.extend_from_slice(form_word(form).as_bytes())?;
        line.push(b' ')?;
        append_visible(line, bytes_in(content, address))?;
        append_spaced_range(line, range_in(content, part.start, part.end))?;
        append_last_range(line, range_in(content, address.start, address.end))
    }

    fn append_footnote_reference(
        &self,
        line: &mut Vec<u8>,
        content: &Content<'_>,
        part: Span,
        label: Span,
    ) -> Result<(), AllocError> {
        line.extend_from_slice(b"footnote-reference [^")?;
        append_label(line, after_first(bytes_in(content, label)))?;
        append_last_range(line, range_in(content, part.start, part.end))
    }

    fn append_undefined(
        &self,
        line: &mut Vec<u8>,
        content: &Content<'_>,
        start: usize,
        found: Undefined,
    ) -> Result<(), AllocError> {
        line.extend_from_slice(b"undefined [")?;
        append_label(line, bytes_in(content, found.label))?;
        append_last_range(line, range_in(content, start, found.end))
    }
}

fn link_word(is_image: bool) -> &'static str
    ensures { result.now ≡ link_word is_image }
{
    if is_image { "image " } else { "link " }
}

// Appends a label with single spaces, and the `]` that ends it.
fn append_label(line: &mut Vec<u8>, label: &[u8]) -> Result<(), AllocError>
    ensures { OnOk result (line.new.items ≡ line.old.items ++ ended_label label.now) }
{
    append_spelled(line, label)?;
    line.push(b']')?;
    Ok(())
}

// Appends a range after a space, and a newline.
fn append_last_range(line: &mut Vec<u8>, range: Range<usize>) -> Result<(), AllocError>
    ensures { OnOk result (line.new.items ≡ line.old.items ++ last_range range) }
{
    append_range(line, range.start, range.end)
}
