//! What is written for the links of a text.

ghost use Rattle.first_pass_content.specs.Content.{bytes_of};
ghost use Rattle.first_pass_inline.specs.Readable.{IsReadableTarget};
ghost use Rattle.first_pass_linked.specs.Forms.{LineForms};
ghost use Rattle.first_pass_names.specs.TableEntries.{link_entry};
ghost use Rattle.std.specs.Prelude.{◌≡◌, ◌<◌, ◌++◌, OnOk};

use crate::lines::LineSource;
use first_pass_atoms::autolinks::AutolinkForm;
use first_pass_content::content::Content;
use first_pass_inline::mark::{Link, Span, Undefined};
use first_pass_labels::label_key::LabelKey;
use first_pass_labels::label_table::LinkDef;
use std::alloc::AllocError;
use std::ops::Range;

/// A form of the lines of links. Each call appends one line, and fails only if an allocation fails.
pub trait LineForm {
    // What is written for each sort of line.
    ghost forms: { Self → LineForms };

    /// Appends the line of a link definition.
    fn append_definition(
        &self,
        line: &mut Vec<u8>,
        label: &LabelKey<'_>,
        definition: &LinkDef<'_>,
    ) -> Result<(), AllocError>
        ensures { OnOk result (line.new.items
            ≡ line.old.items ++ (forms self.now).definition (link_entry (label.now, definition.now))) };

    /// Appends the line of a footnote definition with a label.
    fn append_footnote(
        &self,
        line: &mut Vec<u8>,
        label: &str,
        range: Range<usize>,
    ) -> Result<(), AllocError>
        ensures { OnOk result (line.new.items ≡ line.old.items ++ (forms self.now).footnote label.now range) };

    /// Appends the line of a link or an image that begins at a place.
    fn append_link(
        &self,
        line: &mut Vec<u8>,
        source: &LineSource<'_>,
        start: usize,
        link: Link,
    ) -> Result<(), AllocError>
        requires { IsReadableTarget (bytes_of source.now.content.now) link.target }
        ensures { OnOk result (line.new.items ≡ line.old.items
            ++ (forms self.now).link source.now.content.now source.now.definitions.now start link) };

    /// Appends the line of an autolink.
    fn append_autolink(
        &self,
        line: &mut Vec<u8>,
        content: &Content<'_>,
        part: Span,
        form: AutolinkForm,
    ) -> Result<(), AllocError>
        requires { part.start < part.«end» }
        ensures { OnOk result (line.new.items ≡ line.old.items ++ (forms self.now).autolink content.now part form) };

    /// Appends the line of a footnote reference with a label, which begins with `^`.
    fn append_footnote_reference(
        &self,
        line: &mut Vec<u8>,
        content: &Content<'_>,
        part: Span,
        label: Span,
    ) -> Result<(), AllocError>
        ensures { OnOk result (line.new.items
            ≡ line.old.items ++ (forms self.now).footnote_reference content.now part label) };

    /// Appends the line of an undefined reference that begins at a place.
    fn append_undefined(
        &self,
        line: &mut Vec<u8>,
        content: &Content<'_>,
        start: usize,
        found: Undefined,
    ) -> Result<(), AllocError>
        ensures { OnOk result (line.new.items
            ≡ line.old.items ++ (forms self.now).undefined content.now start found) };
}
