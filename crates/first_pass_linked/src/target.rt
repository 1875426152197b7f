//! What a link or an image leads to, in printed form.

ghost use Rattle.first_pass_content.specs.Content.{bytes_of};
ghost use Rattle.first_pass_inline.specs.Readable.{IsReadableTarget};
ghost use Rattle.first_pass_linked.specs.Targets.{bytes_in, destination, form_name, form_word, target_text, title_in, unescaped_in};
ghost use Rattle.first_pass_links.specs.Escapes.{unescaped};
ghost use Rattle.first_pass_reports.specs.Printed.{quoted_title, visible};
ghost use Rattle.std.specs.Prelude.{◌≡◌, ◌++◌, OnOk, false, IsUtf8};

use crate::lines::LineSource;
use crate::part::bytes_in;
use first_pass_atoms::autolinks::AutolinkForm;
use first_pass_inline::mark::{ReferenceForm, Span, Target};
use first_pass_links::escape::unescape;
use first_pass_reports::printed::node::append_visible;
use std::alloc::AllocError;
use std::ops::DerefStr;
use std::str;

// Appends a form, a destination, and a title in quotation marks, if there is one.
pub(crate) fn append_target(
    line: &mut Vec<u8>,
    source: &LineSource<'_>,
    target: Target,
) -> Result<(), AllocError>
    requires { IsReadableTarget (bytes_of source.now.content.now) target }
    ensures { OnOk result (line.new.items
        ≡ line.old.items ++ target_text source.now.content.now source.now.definitions.now target) }
{
    line.extend_from_slice(form_name(target).as_bytes())?;
    line.push(b' ')?;
    append_destination(line, source, target)?;
    append_title(line, source, target)
}

/// Returns the name of the form of a link or an image.
pub fn form_name(target: Target) -> &'static str
    ensures { result.now ≡ form_name target }
{
    match target {
        Target::Inline { .. } => "inline",
        Target::Definition { form, .. } => match form {
            ReferenceForm::Full => "full",
            ReferenceForm::Collapsed => "collapsed",
            ReferenceForm::Shortcut => "shortcut",
        },
        Target::Name(_) => "wikilink",
    }
}

/// Returns the name of the form of an autolink.
pub fn form_word(form: AutolinkForm) -> &'static str
    ensures { result.now ≡ form_word form }
{
    match form {
        AutolinkForm::Uri => "uri",
        AutolinkForm::Email => "email",
    }
}

// Appends the destination of a link or an image.
fn append_destination(
    line: &mut Vec<u8>,
    source: &LineSource<'_>,
    target: Target,
) -> Result<(), AllocError>
    requires { IsReadableTarget (bytes_of source.now.content.now) target }
    ensures { OnOk result (line.new.items
        ≡ line.old.items ++ visible (destination source.now.content.now source.now.definitions.now target)) }
{
    match target {
        Target::Inline { dest, .. } => append_unescaped(line, source, dest),
        Target::Definition { index, .. } => {
            append_visible(line, source.definitions.dest_at(index).as_bytes())
        }
        Target::Name(name) => append_visible(line, bytes_in(source.content, name.name)),
    }
}

// Appends the title of a link or an image after a space and in quotation marks, if it has one.
fn append_title(
    line: &mut Vec<u8>,
    source: &LineSource<'_>,
    target: Target,
) -> Result<(), AllocError>
    requires { IsReadableTarget (bytes_of source.now.content.now) target }
    ensures { OnOk result (line.new.items
        ≡ line.old.items ++ quoted_title (title_in source.now.content.now source.now.definitions.now target)) }
{
    match target {
        Target::Inline {
            title: Some(title),
            ..
        } => {
            line.extend_from_slice(b" \"")?;
            append_unescaped(line, source, title)?;
            line.push(b'"')?;
            Ok(())
        }
        Target::Definition { index, .. } => match source.definitions.title_at(index) {
            Some(title) => {
                line.extend_from_slice(b" \"")?;
                append_visible(line, title.as_bytes())?;
                line.push(b'"')?;
                Ok(())
            }
            None => Ok(()),
        },
        _ => Ok(()),
    }
}

// Appends a part of the content with each backslash escape and each reference replaced by its character (CommonMark
// 2.4, 2.5).
fn append_unescaped(
    line: &mut Vec<u8>,
    source: &LineSource<'_>,
    part: Span,
) -> Result<(), AllocError>
    requires { IsUtf8 (bytes_in source.now.content.now part) }
    ensures { OnOk result (line.new.items ≡ line.old.items ++ visible (unescaped_in source.now.content.now part)) }
{
    let text = str::from_utf8(bytes_in(source.content, part)).unwrap();
    let answer = unescape(source.alloc, text, false)?;
    append_visible(line, answer.deref().as_bytes())
}
