//! The work of the program `outline`, and the reports with the texts of headings.

ghost use Rattle.first_pass_host.specs.Runs.{Runs};
ghost use Rattle.first_pass_host.specs.Streams.{WritesText, stream_between};
ghost use Rattle.first_pass_outline.specs.ContentsLines.{closed, list_lines, nested_lines, outline_lines};
ghost use Rattle.first_pass_outline.specs.Lines.{IsListed};
ghost use Rattle.std.specs.Prelude.{◌++◌, codes, length};

use crate::contents::{Contents, contents_of};
use crate::contents_json::{append_closed, append_object, append_title};
use crate::contents_list::append_item;
use crate::lines::write_entries;
use crate::outline::outline_text;
use first_pass_host::fault::RunFault;
use first_pass_host::output::{write_each, write_whole};
use first_pass_host::report::{Report, Subject, run_report};
use first_pass_host::tree_report::{Parsed, TreeLines};
use std::alloc::Global;
use std::io::{Read, Write};

/// The report of the program `outline`: a line for each heading, in reading order.
pub struct ListedOutline;

impl Report for ListedOutline {
    ghost says = { λ _ options text output. IsListed options text output };

    fn write_report<W: Write>(&self, subject: Subject<'_>, output: &mut W) -> Result<(), RunFault> {
        let entries = outline_text(subject.alloc, subject.text, subject.options)?;
        write_entries(subject.alloc, entries.as_slice(), output)
    }
}

/// Reads the input to its end and writes the outline of its text, a line for each heading in reading order (see
/// `append_entry`). `words` are those after the program's name (see `parse_options`).
///
/// Faults are found in this order: the options, before the first read and without an allocation; the reads; UTF-8 of
/// the whole input; the pass; the writes. `OutOfMemory` is found at the allocation that fails. After a fault, nothing
/// or a beginning of the whole output was written. Reader and writer are borrowed, so that the contract can describe
/// their final state.
pub fn outline_run<R: Read, W: Write>(
    alloc: Global,
    words: &[String],
    input: &mut R,
    output: &mut W,
) -> Result<(), RunFault>
    ensures { Runs IsListed words.now (stream_between (R.remaining input.old) (R.remaining input.new))
        (stream_between (W.contents output.old) (W.contents output.new)) result }
{
    run_report(&ListedOutline, alloc, words, input, output)
}

/// The headings of a text as a Markdown list, nested by their levels: a line for each, in reading order. An entry is
/// the heading's text, or a link if the heading has an id (see `append_item`).
pub struct ContentsList;

impl TreeLines for ContentsList {
    ghost lines = { λ _ text names nodes _. list_lines text names nodes };

    fn write_lines<W: Write>(&self, parsed: &Parsed<'_>, output: &mut W) -> Result<(), RunFault> {
        let contents = contents_of(parsed)?;
        write_each(
            parsed.alloc,
            contents.entries().iter(),
            |line, entry| append_item(line, entry),
            output,
        )
    }
}

/// The headings of a text in JSON, a line for each, in reading order: an object with the members `level`, `text`, `id`
/// (`null` if there is none), `start` and `end`.
pub struct OutlineJson;

impl TreeLines for OutlineJson {
    ghost lines = { λ _ text names nodes _. outline_lines text names nodes };

    fn write_lines<W: Write>(&self, parsed: &Parsed<'_>, output: &mut W) -> Result<(), RunFault> {
        let contents = contents_of(parsed)?;
        write_each(
            parsed.alloc,
            contents.entries().iter(),
            |line, entry| append_title(line, entry),
            output,
        )
    }
}

/// The headings of a text in JSON, nested by their levels: an array on one line, in which each object also has the
/// member `children`, an array of objects.
pub struct ContentsJson;

impl TreeLines for ContentsJson {
    ghost lines = { λ _ text names nodes _. nested_lines text names nodes };

    fn write_lines<W: Write>(&self, parsed: &Parsed<'_>, output: &mut W) -> Result<(), RunFault> {
        let contents = contents_of(parsed)?;
        write_bytes(output, b"[")?;
        write_each(
            parsed.alloc,
            contents.entries().iter(),
            |line, entry| append_object(line, entry),
            output,
        )?;
        write_end(parsed.alloc, &contents, output)
    }
}

// Writes the ends of the objects that are open after all entries, and that of the array.
fn write_end<W: Write>(
    alloc: Global,
    contents: &Contents<'_>,
    output: &mut W,
) -> Result<(), RunFault>
    ensures { WritesText (closed (length contents.now.levels.items) ++ codes "]\n")
        (stream_between (W.contents output.old) (W.contents output.new)) result }
{
    let mut end = Vec::new(alloc);
    append_closed(&mut end, contents.open_count())?;
    end.extend_from_slice(b"]\n")?;
    write_bytes(output, end.as_slice())
}

// Writes bytes.
fn write_bytes<W: Write>(output: &mut W, bytes: &[u8]) -> Result<(), RunFault>
    ensures { WritesText bytes.now (stream_between (W.contents output.old) (W.contents output.new)) result }
{
    write_whole(output, bytes)
}
