//! The line of a node.

ghost use Rattle.first_pass_json.specs.JsonLines.{node_line, node_members};
ghost use Rattle.first_pass_json.specs.JsonValues.{boolean, word};
ghost use Rattle.first_pass_json.specs.Members.{block_members, character_of, is_tight, quote_or_null};
ghost use Rattle.first_pass_names.specs.TableEntries.{names_of};
ghost use Rattle.first_pass_reports.specs.Printed.{metadata_name};
ghost use Rattle.std.specs.Prelude.{◌≡◌, ◌++◌, OnOk, codes, decimal};

use crate::heading::append_heading;
use crate::range::RangeForm;
use crate::table::append_alignments;
use crate::token::append_token;
use crate::values::{
    append_byte, append_flag_after, append_number_after, append_string_after, append_word,
};
use bitflags::Flags;
use first_pass_items::item::{BlockQuoteKind, Item, ItemBody, ListFlags, MetadataBlockKind};
use first_pass_names::items::Allocations;
use first_pass_reports::printed::node::{attributes_at, body_name, metadata_name, quote_name};
use std::alloc::AllocError;

/// Appends the line of a node: its kind, its depth, its range in a form of ranges, and the members of its kind.
pub fn append_node<R: RangeForm>(
    line: &mut Vec<u8>,
    form: &R,
    depth: usize,
    item: Item,
    allocs: &Allocations<'_>,
) -> Result<(), AllocError>
    ensures { OnOk result (line.new.items
        ≡ line.old.items ++ node_line (R.members form.now) (names_of allocs.now) (depth, item)) }
{
    line.push(b'{')?;
    append_common(line, form, depth, item)?;
    append_block(line, item.body, allocs)?;
    append_token(line, item.body, allocs)?;
    line.extend_from_slice(b"}\n")
}

// Appends the members that every node has: its kind, its depth and its range.
fn append_common<R: RangeForm>(
    line: &mut Vec<u8>,
    form: &R,
    depth: usize,
    item: Item,
) -> Result<(), AllocError>
    ensures { OnOk result (line.new.items ≡ line.old.items ++ node_members (R.members form.now) (depth, item)) }
{
    line.extend_from_slice(b"\"kind\":")?;
    append_word(line, body_name(item.body))?;
    append_number_after(line, b",\"depth\":", depth)?;
    form.append_range(line, item.start, item.end)
}

// Appends the members of a block, if it has any.
fn append_block(
    line: &mut Vec<u8>,
    body: ItemBody,
    allocs: &Allocations<'_>,
) -> Result<(), AllocError>
    ensures { OnOk result (line.new.items ≡ line.old.items ++ block_members (names_of allocs.now) body) }
{
    match body {
        ItemBody::Heading(level, ix) => append_heading(line, level, attributes_at(allocs, ix)),
        ItemBody::FencedCodeBlock(ix) => append_string_after(
            line,
            b",\"info\":",
            allocs.text_at(ix),
        ),
        ItemBody::BlockQuote(kind) => append_quote_kind(line, kind),
        ItemBody::List(flags, byte, number) => append_list(line, flags, byte, number),
        ItemBody::ListItem(columns) => append_columns(line, columns),
        ItemBody::FootnoteDefinition(ix) => {
            append_string_after(line, b",\"label\":", allocs.text_at(ix))
        }
        ItemBody::MetadataBlock(kind) => append_metadata(line, kind),
        ItemBody::DefinitionList(flags) => append_tight(line, flags),
        ItemBody::DefinitionListDefinition(columns) => append_columns(line, columns),
        ItemBody::Table(ix) => {
            line.extend_from_slice(b",\"alignments\":")?;
            append_alignments(line, allocs.alignments_at(ix))
        }
        _ => Ok(()),
    }
}

// Appends the kind of a block quote, or `null` if it has no tag.
fn append_quote_kind(line: &mut Vec<u8>, kind: Option<BlockQuoteKind>) -> Result<(), AllocError>
    ensures { OnOk result (line.new.items ≡ line.old.items ++ codes ",\"quote\":" ++ quote_or_null kind) }
{
    line.extend_from_slice(b",\"quote\":")?;
    match kind {
        None => line.extend_from_slice(b"null"),
        Some(kind) => append_word(line, quote_name(kind)),
    }
}

// Appends the number of columns that a line needs to continue an item.
fn append_columns(line: &mut Vec<u8>, columns: usize) -> Result<(), AllocError>
    ensures { OnOk result (line.new.items ≡ line.old.items ++ codes ",\"columns\":" ++ decimal columns) }
{
    append_number_after(line, b",\"columns\":", columns)
}

// Appends the kind of a metadata block.
fn append_metadata(line: &mut Vec<u8>, kind: MetadataBlockKind) -> Result<(), AllocError>
    ensures { OnOk result (line.new.items ≡ line.old.items ++ codes ",\"metadata\":" ++ word (metadata_name kind)) }
{
    line.extend_from_slice(b",\"metadata\":")?;
    append_word(line, metadata_name(kind))
}

// Appends whether a list is tight (CommonMark 5.3).
fn append_tight(line: &mut Vec<u8>, flags: ListFlags) -> Result<(), AllocError>
    ensures { OnOk result (line.new.items ≡ line.old.items ++ codes ",\"tight\":" ++ boolean (is_tight flags)) }
{
    append_flag_after(line, b",\"tight\":", flags.contains(ListFlags::IS_TIGHT))
}

// Appends the members of a list.
fn append_list(
    line: &mut Vec<u8>,
    flags: ListFlags,
    byte: u8,
    number: u64,
) -> Result<(), AllocError>
    ensures { OnOk result (line.new.items
        ≡ line.old.items ++ codes ",\"tight\":" ++ boolean (is_tight flags) ++ codes ",\"byte\":" ++ character_of byte
        ++ codes ",\"number\":" ++ decimal number) }
{
    append_tight(line, flags)?;
    line.extend_from_slice(b",\"byte\":")?;
    append_byte(line, byte)?;
    append_number_after(line, b",\"number\":", number)
}
