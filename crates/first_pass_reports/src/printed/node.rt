//! The printed form of a node.

ghost use Rattle.first_pass_attributes.specs.Attributes.{attributes_in};
ghost use Rattle.first_pass_items.specs.declared.item.ItemBody.TheVariants.{MaybeEmphasis, MaybeMath, MaybeSmartQuote, MaybeCode, List as ListBody};
ghost use Rattle.first_pass_names.specs.TableEntries.{names_of};
ghost use Rattle.first_pass_reports.specs.Printed.{node_line, named_values, visible, visible_byte, kind_name, block_values, token_values, body_text, in_parentheses, flag_name, list_name, quote_name, metadata_name, indentation, written_range};
ghost use Rattle.std.specs.Option.{option_map, option_and_then};
ghost use Rattle.std.specs.Prelude.{◌≡◌, ◌++◌, OnOk, codes, decimal, encode_utf8, slice_get};

use crate::printed::heading::append_heading;
use crate::printed::table::append_alignments;
use bitflags::Flags;
use first_pass_attributes::attrs::HeadingAttributes;
use first_pass_items::item::{
    BlockQuoteKind, HeadingIndex, Item, ItemBody, ListFlags, MetadataBlockKind,
};
use first_pass_names::items::Allocations;
use itoa::{Buffer, Integer};
use std::alloc::AllocError;

/// Appends the line of a node: two spaces for each level of its depth, its kind, and its range.
pub fn append_node(
    line: &mut Vec<u8>,
    depth: usize,
    item: Item,
    allocs: &Allocations<'_>,
) -> Result<(), AllocError>
    ensures { OnOk result (line.new.items ≡ line.old.items ++ node_line (names_of allocs.now) (depth, item)) }
{
    append_indentation(line, depth)?;
    append_body(line, item.body, allocs)?;
    append_range(line, item.start, item.end)
}

/// Appends a space, a range and a newline.
pub fn append_range(line: &mut Vec<u8>, start: usize, end: usize) -> Result<(), AllocError>
    ensures { OnOk result (line.new.items ≡ line.old.items ++ written_range start end) }
{
    line.push(b' ')?;
    append_number(line, start)?;
    line.extend_from_slice(b"..")?;
    append_number(line, end)?;
    line.push(b'\n')?;
    Ok(())
}

/// Appends two spaces for each level of depth. Fails only if an allocation fails.
#[tactic(auto, unfolding(crate::specs::Printed::indentation))]
pub fn append_indentation(line: &mut Vec<u8>, depth: usize) -> Result<(), AllocError>
    ensures { OnOk result (line.new.items ≡ line.old.items ++ indentation depth) }
{
    for _level in 0..depth {
        line.extend_from_slice(b"  ")?;
    }
    Ok(())
}

/// Appends a number in decimal digits.
pub fn append_number<I: Integer>(line: &mut Vec<u8>, number: I) -> Result<(), AllocError>
    ensures { OnOk result (line.new.items ≡ line.old.items ++ I.text number) }
{
    let mut digits = Buffer::new();
    line.extend_from_slice(digits.format(number).as_bytes())
}

// Appends the kind of a node: its name, its values and the entry of its index.
fn append_body(
    line: &mut Vec<u8>,
    body: ItemBody,
    allocs: &Allocations<'_>,
) -> Result<(), AllocError>
    ensures { OnOk result (line.new.items ≡ line.old.items ++ body_text (names_of allocs.now) body) }
{
    line.extend_from_slice(body_name(body).as_bytes())?;
    append_block_values(line, body)?;
    append_token_values(line, body)?;
    append_named(line, body, allocs)
}

// Appends the entry of a node's index in parentheses, if it has one.
fn append_named(
    line: &mut Vec<u8>,
    body: ItemBody,
    allocs: &Allocations<'_>,
) -> Result<(), AllocError>
    ensures { OnOk result (line.new.items ≡ line.old.items ++ named_values (names_of allocs.now) body) }
{
    match body {
        ItemBody::FencedCodeBlock(ix) => append_text(line, allocs.text_at(ix)),
        ItemBody::FootnoteDefinition(ix) => append_text(line, allocs.text_at(ix)),
        ItemBody::SynthesizeText(ix) => append_text(line, allocs.text_at(ix)),
        ItemBody::Table(ix) => append_alignments(line, allocs.alignments_at(ix)),
        ItemBody::Heading(level, ix) => append_heading(line, level, attributes_at(allocs, ix)),
        _ => Ok(()),
    }
}

/// Returns the attributes of a heading with this index; `None` if there is no index, or no entry for it.
pub fn attributes_at<'a, 'b>(
    allocs: &'b Allocations<'a>,
    ix: Option<HeadingIndex>,
) -> Option<&'b HeadingAttributes<'a>>
    ensures { option_map (λ h. attributes_in h.now) result
        ≡ option_and_then (λ at. slice_get (names_of allocs.now).headings at.0) ix }
{
    match ix {
        None => None,
        Some(ix) => allocs.attributes_at(ix),
    }
}

// Appends a text in parentheses, with a backslash, a newline and a carriage return escaped as `\\`, `\n` and `\r`.
fn append_text(line: &mut Vec<u8>, text: &str) -> Result<(), AllocError>
    ensures { OnOk result (line.new.items ≡ line.old.items ++ in_parentheses (visible text.now)) }
{
    line.push(b'(')?;
    append_visible(line, text.as_bytes())?;
    line.push(b')')?;
    Ok(())
}

/// Appends bytes, with a backslash, a newline and a carriage return escaped as `\\`, `\n` and `\r`.
#[tactic(auto, unfolding(crate::specs::Visible::visible))]
pub fn append_visible(line: &mut Vec<u8>, bytes: &[u8]) -> Result<(), AllocError>
    ensures { OnOk result (line.new.items ≡ line.old.items ++ visible bytes.now) }
{
    for byte in bytes {
        append_byte(line, *byte)?;
    }
    Ok(())
}

// Appends a byte in this form.
fn append_byte(line: &mut Vec<u8>, byte: u8) -> Result<(), AllocError>
    ensures { OnOk result (line.new.items ≡ line.old.items ++ visible_byte byte) }
{
    match byte {
        b'\\' => line.extend_from_slice(b"\\\\"),
        b'\n' => line.extend_from_slice(b"\\n"),
        b'\r' => line.extend_from_slice(b"\\r"),
        _ => line.extend_from_slice(&[byte]),
    }
}

// Appends the values of a block other than a heading in parentheses, if it has any.
fn append_block_values(line: &mut Vec<u8>, body: ItemBody) -> Result<(), AllocError>
    ensures { OnOk result (line.new.items ≡ line.old.items ++ block_values body) }
{
    match body {
        ItemBody::BlockQuote(Some(kind)) => append_word(line, quote_name(kind)),
        ItemBody::List(flags, byte, number) => append_list(line, flags, byte, number),
        ItemBody::ListItem(indent) => append_one(line, indent),
        ItemBody::MetadataBlock(kind) => append_word(line, metadata_name(kind)),
        ItemBody::DefinitionList(flags) => append_word(line, list_name(flags)),
        ItemBody::DefinitionListDefinition(indent) => append_one(line, indent),
        _ => Ok(()),
    }
}

// Appends the values of a token in parentheses, if it has any.
fn append_token_values(line: &mut Vec<u8>, body: ItemBody) -> Result<(), AllocError>
    ensures { OnOk result (line.new.items ≡ line.old.items ++ token_values body) }
{
    match body {
        ItemBody::Text {
            backslash_escaped: true,
        } => append_word(line, "escaped"),
        ItemBody::HardBreak(value) => append_word(line, flag_name(value)),
        ItemBody::TaskListMarker(value) => append_word(line, flag_name(value)),
        ItemBody::MaybeLinkClose(value) => append_word(line, flag_name(value)),
        ItemBody::MaybeEmphasis(left, can_open, can_close) => {
            append_emphasis(line, left, can_open, can_close)
        }
        ItemBody::MaybeMath(can_open, can_close, context) => {
            append_math(line, can_open, can_close, context)
        }
        ItemBody::MaybeSmartQuote(byte, can_open, can_close) => {
            append_quote(line, byte, can_open, can_close)
        }
        ItemBody::MaybeCode(count, escaped) => append_code(line, count, escaped),
        ItemBody::SynthesizeChar(character) => append_character(line, character),
        _ => Ok(()),
    }
}

// Appends a word in parentheses.
fn append_word(line: &mut Vec<u8>, word: &str) -> Result<(), AllocError>
    ensures { OnOk result (line.new.items ≡ line.old.items ++ in_parentheses word.now) }
{
    line.push(b'(')?;
    line.extend_from_slice(word.as_bytes())?;
    line.push(b')')?;
    Ok(())
}

// Appends a number in parentheses.
fn append_one(line: &mut Vec<u8>, number: usize) -> Result<(), AllocError>
    ensures { OnOk result (line.new.items ≡ line.old.items ++ in_parentheses (decimal number)) }
{
    line.push(b'(')?;
    append_number(line, number)?;
    line.push(b')')?;
    Ok(())
}

// Appends the values of a list.
fn append_list(
    line: &mut Vec<u8>,
    flags: ListFlags,
    byte: u8,
    number: u64,
) -> Result<(), AllocError>
    ensures { OnOk result (line.new.items ≡ line.old.items ++ block_values (ListBody flags byte number)) }
{
    line.push(b'(')?;
    line.extend_from_slice(list_name(flags).as_bytes())?;
    line.push(b',')?;
    line.push(byte)?;
    line.push(b',')?;
    append_number(line, number)?;
    line.push(b')')?;
    Ok(())
}

// Appends whether a delimiter run can open and close, after other values.
fn append_sides(line: &mut Vec<u8>, can_open: bool, can_close: bool) -> Result<(), AllocError>
    ensures { OnOk result (line.new.items
        ≡ line.old.items ++ codes "," ++ flag_name can_open ++ codes "," ++ flag_name can_close ++ codes ")") }
{
    line.push(b',')?;
    line.extend_from_slice(flag_name(can_open).as_bytes())?;
    line.push(b',')?;
    line.extend_from_slice(flag_name(can_close).as_bytes())?;
    line.push(b')')?;
    Ok(())
}

// Appends the values of an emphasis delimiter.
fn append_emphasis(
    line: &mut Vec<u8>,
    left: usize,
    can_open: bool,
    can_close: bool,
) -> Result<(), AllocError>
    ensures { OnOk result (line.new.items ≡ line.old.items ++ token_values (MaybeEmphasis left can_open can_close)) }
{
    line.push(b'(')?;
    append_number(line, left)?;
    append_sides(line, can_open, can_close)
}

// Appends the values of a math delimiter.
fn append_math(
    line: &mut Vec<u8>,
    can_open: bool,
    can_close: bool,
    context: u8,
) -> Result<(), AllocError>
    ensures { OnOk result (line.new.items ≡ line.old.items ++ token_values (MaybeMath can_open can_close context)) }
{
    line.push(b'(')?;
    line.extend_from_slice(flag_name(can_open).as_bytes())?;
    line.push(b',')?;
    line.extend_from_slice(flag_name(can_close).as_bytes())?;
    line.push(b',')?;
    append_number(line, context)?;
    line.push(b')')?;
    Ok(())
}

// Appends the values of a quotation mark.
fn append_quote(
    line: &mut Vec<u8>,
    byte: u8,
    can_open: bool,
    can_close: bool,
) -> Result<(), AllocError>
    ensures { OnOk result (line.new.items ≡ line.old.items ++ token_values (MaybeSmartQuote byte can_open can_close)) }
{
    line.push(b'(')?;
    line.push(byte)?;
    append_sides(line, can_open, can_close)
}

// Appends the values of a run of backquotes.
fn append_code(line: &mut Vec<u8>, count: usize, escaped: bool) -> Result<(), AllocError>
    ensures { OnOk result (line.new.items ≡ line.old.items ++ token_values (MaybeCode count escaped)) }
{
    line.push(b'(')?;
    append_number(line, count)?;
    line.push(b',')?;
    line.extend_from_slice(flag_name(escaped).as_bytes())?;
    line.push(b')')?;
    Ok(())
}

// Appends a character in parentheses.
fn append_character(line: &mut Vec<u8>, character: char) -> Result<(), AllocError>
    ensures { OnOk result (line.new.items ≡ line.old.items ++ in_parentheses (encode_utf8 character)) }
{
    let mut buffer = [0; 4];
    append_word(line, character.encode_utf8(&mut buffer))
}

/// Returns `true` or `false` as a word.
pub fn flag_name(flag: bool) -> &'static str
    ensures { result.now ≡ flag_name flag }
{
    if flag { "true" } else { "false" }
}

// `tight` or `loose` (CommonMark 5.3).
fn list_name(flags: ListFlags) -> &'static str
    ensures { result.now ≡ list_name flags }
{
    if flags.contains(ListFlags::IS_TIGHT) {
        "tight"
    } else {
        "loose"
    }
}

/// Returns the kind of a block quote as a word, for example `Note`.
pub fn quote_name(kind: BlockQuoteKind) -> &'static str
    ensures { result.now ≡ quote_name kind }
{
    match kind {
        BlockQuoteKind::Note => "Note",
        BlockQuoteKind::Tip => "Tip",
        BlockQuoteKind::Important => "Important",
        BlockQuoteKind::Warning => "Warning",
        BlockQuoteKind::Caution => "Caution",
    }
}

/// Returns the kind of a metadata block: `YamlStyle` or `PlusesStyle`.
pub fn metadata_name(kind: MetadataBlockKind) -> &'static str
    ensures { result.now ≡ metadata_name kind }
{
    match kind {
        MetadataBlockKind::YamlStyle => "YamlStyle",
        MetadataBlockKind::PlusesStyle => "PlusesStyle",
    }
}

/// Returns the name of a node's kind, as `blocks` prints it.
pub fn body_name(body: ItemBody) -> &'static str
    ensures { result.now ≡ kind_name body }
{
    match body {
        ItemBody::Root => "Root",
        ItemBody::Paragraph => "Paragraph",
        ItemBody::TightParagraph => "TightParagraph",
        ItemBody::Rule => "Rule",
        ItemBody::Heading(..) => "Heading",
        ItemBody::FencedCodeBlock(_) => "FencedCodeBlock",
        ItemBody::IndentCodeBlock => "IndentCodeBlock",
        ItemBody::HtmlBlock => "HtmlBlock",
        ItemBody::BlockQuote(_) => "BlockQuote",
        ItemBody::List(..) => "List",
        ItemBody::ListItem(_) => "ListItem",
        ItemBody::FootnoteDefinition(_) => "FootnoteDefinition",
        ItemBody::MetadataBlock(_) => "MetadataBlock",
        ItemBody::DefinitionList(_) => "DefinitionList",
        ItemBody::MaybeDefinitionListTitle => "MaybeDefinitionListTitle",
        ItemBody::DefinitionListTitle => "DefinitionListTitle",
        ItemBody::DefinitionListDefinition(_) => "DefinitionListDefinition",
        ItemBody::Table(_) => "Table",
        ItemBody::TableHead => "TableHead",
        ItemBody::TableRow => "TableRow",
        ItemBody::TableCell => "TableCell",
        ItemBody::Text { .. } => "Text",
        ItemBody::SoftBreak => "SoftBreak",
        ItemBody::HardBreak(_) => "HardBreak",
        ItemBody::MaybeEmphasis(..) => "MaybeEmphasis",
        ItemBody::MaybeMath(..) => "MaybeMath",
        ItemBody::MaybeSmartQuote(..) => "MaybeSmartQuote",
        ItemBody::MaybeCode(..) => "MaybeCode",
        ItemBody::MaybeHtml => "MaybeHtml",
        ItemBody::MaybeLinkOpen => "MaybeLinkOpen",
        ItemBody::MaybeLinkClose(_) => "MaybeLinkClose",
        ItemBody::MaybeImage => "MaybeImage",
        ItemBody::Html => "Html",
        ItemBody::SynthesizeText(_) => "SynthesizeText",
        ItemBody::SynthesizeChar(_) => "SynthesizeChar",
        ItemBody::TaskListMarker(_) => "TaskListMarker",
    }
}
