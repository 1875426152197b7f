//! Which marks of a chain have a line, and in which order.

ghost use Rattle.first_pass_content.specs.Content.{bytes_of};
ghost use Rattle.first_pass_inline.specs.Readable.{AreReadable, IsReadable};
ghost use Rattle.first_pass_linked.specs.Forms.{first_line, kind_line, listed_from, mark_lines, waits_for_link};
ghost use Rattle.std.specs.Prelude.{◌≡◌, ◌++◌, OnOk};

use crate::definitions::Definitions;
use crate::form::LineForm;
use first_pass_content::content::Content;
use first_pass_inline::mark::{Mark, MarkKind};
use std::alloc::{AllocError, Global};

/// What the lines of a chain are made of: its content, and the link definitions of its text. The allocator is for
/// destinations and titles with escapes.
#[derive(Clone, Copy)]
pub struct LineSource<'s> {
    pub alloc: Global,
    pub content: &'s Content<'s>,
    pub definitions: &'s Definitions<'s, 's>,
}

/// Appends the lines of the marks of a chain: one for each link, image, autolink, footnote reference and undefined
/// reference, in reading order. What begins in the name of a wikilink is left out, and so is an undefined reference
/// whose label is the text of a link or an image after it. Fails only if an allocation fails.
#[tactic(auto, unfolding(crate::specs::Forms::mark_lines))]
pub fn append_marks<F: LineForm>(
    line: &mut Vec<u8>,
    form: &F,
    source: &LineSource<'_>,
    marks: &[Mark],
) -> Result<(), AllocError>
    requires { AreReadable (bytes_of source.now.content.now) marks.now }
    ensures { OnOk result (line.new.items ≡ line.old.items
        ++ mark_lines (F.forms form.now) source.now.content.now source.now.definitions.now 0 marks.now) }
{
    let mut place = 0;
    let mut rest = marks;
    while let Some((mark, following)) = rest.split_first() {
        append_first(line, form, source, place, rest)?;
        place = place.max(listed_from(mark.kind));
        rest = following;
    }
    Ok(())
}

// The place before which nothing is listed after a mark of this kind.
fn listed_from(kind: MarkKind) -> usize
    ensures { result ≡ listed_from kind }
{
    match kind {
        MarkKind::Name(name) => match name.shown {
            Some(shown) => shown.start,
            None => name.name.end,
        },
        _ => 0,
    }
}

// Appends the line of the first of these marks, if it has one and does not begin before a place.
fn append_first<F: LineForm>(
    line: &mut Vec<u8>,
    form: &F,
    source: &LineSource<'_>,
    place: usize,
    marks: &[Mark],
) -> Result<(), AllocError>
    requires { AreReadable (bytes_of source.now.content.now) marks.now }
    ensures { OnOk result (line.new.items ≡ line.old.items
        ++ first_line (F.forms form.now) source.now.content.now source.now.definitions.now place marks.now) }
{
    match marks.split_first() {
        Some((mark, following)) if place <= mark.part.start => {
            append_mark(line, form, source, *mark, following)
        }
        _ => Ok(()),
    }
}

// Appends the line of a mark, if it has one. `following` are the marks after it.
fn append_mark<F: LineForm>(
    line: &mut Vec<u8>,
    form: &F,
    source: &LineSource<'_>,
    mark: Mark,
    following: &[Mark],
) -> Result<(), AllocError>
    requires { IsReadable (bytes_of source.now.content.now) mark.part mark.kind }
    ensures { OnOk result (line.new.items ≡ line.old.items ++ kind_line (F.forms form.now) source.now.content.now
        source.now.definitions.now mark.part mark.kind following.now) }
{
    let Mark { part, kind } = mark;
    match kind {
        MarkKind::Link(link) => form.append_link(line, source, part.start, link),
        MarkKind::Autolink(address) => form.append_autolink(line, source.content, part, address),
        MarkKind::FootnoteReference(label) => {
            form.append_footnote_reference(line, source.content, part, label)
        }
        MarkKind::Undefined(found) if !waits_for_link(following, found.wait) => {
            form.append_undefined(line, source.content, part.start, found)
        }
        _ => Ok(()),
    }
}

// Whether the mark at the end of a wait is that of a link or an image.
fn waits_for_link(following: &[Mark], wait: usize) -> bool
    ensures { result ≡ waits_for_link following.now wait }
{
    if wait == 0 {
        return false;
    }
    match following.get(wait - 1) {
        Some(mark) => matches!(mark.kind, MarkKind::Link(_)),
        None => false,
    }
}
