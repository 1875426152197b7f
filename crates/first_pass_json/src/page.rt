//! The page that shows a text with its tree: a template with values in it.

ghost use Rattle.first_pass_host.specs.Streams.{WritesText, stream_between};
ghost use Rattle.first_pass_json.specs.JsonLines.{json_lines};
ghost use Rattle.first_pass_json.specs.JsonValues.{json_string};
ghost use Rattle.first_pass_json.specs.Page.{page_text, part_text};
ghost use Rattle.first_pass_json.specs.Scripts.{html_text, in_script};
ghost use Rattle.first_pass_names.specs.TableEntries.{names_of, tables_of};

use crate::script::{append_escape_in_script, append_html};
use crate::script_lines::write_script_lines;
use first_pass_host::fault::RunFault;
use first_pass_host::output::{write_each, write_whole};
use first_pass_host::tree_report::{Parsed, TreeLines};
use std::alloc::Global;
use std::io::Write;

/// A part of a template: bytes of the page as they are, or the place of a value.
#[derive(Clone, Copy)]
pub enum Part<'a> {
    Html(&'a str),
    Title,
    Options,
    Text,
    Lines,
}

/// The page of a text: the name of the text, the names of the options that it is read with, and the template. The text
/// is there as a string of JSON, and its tree as the lines that `tree` writes.
#[derive(Clone, Copy)]
pub struct TreePage<'a> {
    pub title: &'a str,
    pub options: &'a str,
    pub template: &'a [Part<'a>],
}

impl TreeLines for TreePage<'_> {
    ghost lines = { λ page text names nodes tables. page_text page text (json_lines names nodes tables) };

    fn write_lines<W: Write>(&self, parsed: &Parsed<'_>, output: &mut W) -> Result<(), RunFault> {
        write_page(self, parsed, output)
    }
}

// Writes each part of the template.
fn write_page<W: Write>(
    page: &TreePage<'_>,
    parsed: &Parsed<'_>,
    output: &mut W,
) -> Result<(), RunFault>
    ensures { WritesText
        (page_text page.now parsed.now.text.now
        (json_lines (names_of parsed.now.allocs) parsed.now.tree.nodes (tables_of parsed.now.allocs)))
        (stream_between (W.contents output.old) (W.contents output.new)) result }
{
    for part in page.template {
        write_part(page, *part, parsed, output)?;
    }
    Ok(())
}

// Writes a part of the template.
fn write_part<W: Write>(
    page: &TreePage<'_>,
    part: Part<'_>,
    parsed: &Parsed<'_>,
    output: &mut W,
) -> Result<(), RunFault>
    ensures { WritesText
        (part_text page.now parsed.now.text.now
        (json_lines (names_of parsed.now.allocs) parsed.now.tree.nodes (tables_of parsed.now.allocs)) part.entry)
        (stream_between (W.contents output.old) (W.contents output.new)) result }
{
    match part {
        Part::Html(html) => write_whole(output, html.as_bytes()),
        Part::Title => write_html(parsed.alloc, page.title, output),
        Part::Options => write_html(parsed.alloc, page.options, output),
        Part::Text => write_string(parsed.alloc, parsed.text, output),
        Part::Lines => write_script_lines(parsed, output),
    }
}

// Writes a text in an element.
fn write_html<W: Write>(alloc: Global, text: &str, output: &mut W) -> Result<(), RunFault>
    ensures { WritesText (html_text text.now)
        (stream_between (W.contents output.old) (W.contents output.new)) result }
{
    write_each(
        alloc,
        text.as_bytes().iter(),
        |held, byte| append_html(held, *byte),
        output,
    )
}

// Writes a text as a string of JSON in a script element.
fn write_string<W: Write>(alloc: Global, text: &str, output: &mut W) -> Result<(), RunFault>
    ensures { WritesText (in_script (json_string text.now))
        (stream_between (W.contents output.old) (W.contents output.new)) result }
{
    write_whole(output, b"\"")?;
    write_each(
        alloc,
        text.as_bytes().iter(),
        |held, byte| append_escape_in_script(held, *byte),
        output,
    )?;
    write_whole(output, b"\"")
}
