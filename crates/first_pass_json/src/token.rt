//! The members of a token.

ghost use Rattle.first_pass_items.specs.declared.item.ItemBody.TheVariants.{MaybeEmphasis, MaybeMath, MaybeSmartQuote, MaybeCode};
ghost use Rattle.first_pass_json.specs.JsonValues.{boolean, json_string};
ghost use Rattle.first_pass_json.specs.Members.{character_of, token_members};
ghost use Rattle.first_pass_names.specs.TableEntries.{names_of};
ghost use Rattle.std.specs.Prelude.{◌≡◌, ◌++◌, OnOk, codes, decimal, encode_utf8};

use crate::values::{
    append_byte, append_character, append_flag_after, append_number_after, append_string_after,
};
use first_pass_items::item::ItemBody;
use first_pass_names::items::Allocations;
use std::alloc::AllocError;

/// Appends the members of a token, if it has any.
pub fn append_token(
    line: &mut Vec<u8>,
    body: ItemBody,
    allocs: &Allocations<'_>,
) -> Result<(), AllocError>
    ensures { OnOk result (line.new.items ≡ line.old.items ++ token_members (names_of allocs.now) body) }
{
    match body {
        ItemBody::Text { backslash_escaped } => {
            append_flag_after(line, b",\"escaped\":", backslash_escaped)
        }
        ItemBody::HardBreak(value) => append_flag_after(line, b",\"by_backslash\":", value),
        ItemBody::MaybeEmphasis(remaining, can_open, can_close) => {
            append_emphasis(line, remaining, can_open, can_close)
        }
        ItemBody::MaybeMath(can_open, can_close, context) => {
            append_math(line, can_open, can_close, context)
        }
        ItemBody::MaybeSmartQuote(byte, can_open, can_close) => {
            append_quote(line, byte, can_open, can_close)
        }
        ItemBody::MaybeCode(count, escaped) => append_code(line, count, escaped),
        ItemBody::MaybeLinkClose(value) => append_flag_after(line, b",\"active\":", value),
        ItemBody::SynthesizeText(ix) => append_string_after(
            line,
            b",\"text\":",
            allocs.text_at(ix),
        ),
        ItemBody::SynthesizeChar(character) => append_text_of(line, character),
        ItemBody::TaskListMarker(value) => append_flag_after(line, b",\"checked\":", value),
        _ => Ok(()),
    }
}

// Appends whether a delimiter run can open and close.
fn append_sides(line: &mut Vec<u8>, can_open: bool, can_close: bool) -> Result<(), AllocError>
    ensures { OnOk result (line.new.items
        ≡ line.old.items ++ codes ",\"can_open\":" ++ boolean can_open
        ++ codes ",\"can_close\":" ++ boolean can_close) }
{
    append_flag_after(line, b",\"can_open\":", can_open)?;
    append_flag_after(line, b",\"can_close\":", can_close)
}

// Appends the members of an emphasis delimiter.
fn append_emphasis(
    line: &mut Vec<u8>,
    remaining: usize,
    can_open: bool,
    can_close: bool,
) -> Result<(), AllocError>
    ensures { OnOk result (line.new.items
        ≡ line.old.items ++ codes ",\"remaining\":" ++ decimal remaining
        ++ codes ",\"can_open\":" ++ boolean can_open ++ codes ",\"can_close\":" ++ boolean can_close) }
{
    append_number_after(line, b",\"remaining\":", remaining)?;
    append_sides(line, can_open, can_close)
}

// Appends the members of a math delimiter.
fn append_math(
    line: &mut Vec<u8>,
    can_open: bool,
    can_close: bool,
    context: u8,
) -> Result<(), AllocError>
    ensures { OnOk result (line.new.items
        ≡ line.old.items ++ codes ",\"can_open\":" ++ boolean can_open ++ codes ",\"can_close\":" ++ boolean can_close
        ++ codes ",\"context\":" ++ decimal context) }
{
    append_sides(line, can_open, can_close)?;
    append_number_after(line, b",\"context\":", context)
}

// Appends the members of a quotation mark.
fn append_quote(
    line: &mut Vec<u8>,
    byte: u8,
    can_open: bool,
    can_close: bool,
) -> Result<(), AllocError>
    ensures { OnOk result (line.new.items
        ≡ line.old.items ++ codes ",\"byte\":" ++ character_of byte
        ++ codes ",\"can_open\":" ++ boolean can_open ++ codes ",\"can_close\":" ++ boolean can_close) }
{
    line.extend_from_slice(b",\"byte\":")?;
    append_byte(line, byte)?;
    append_sides(line, can_open, can_close)
}

// Appends the members of a run of backquotes.
fn append_code(line: &mut Vec<u8>, count: usize, escaped: bool) -> Result<(), AllocError>
    ensures { OnOk result (line.new.items
        ≡ line.old.items ++ codes ",\"count\":" ++ decimal count ++ codes ",\"escaped\":" ++ boolean escaped) }
{
    append_number_after(line, b",\"count\":", count)?;
    append_flag_after(line, b",\"escaped\":", escaped)
}

// Appends the text of one character.
fn append_text_of(line: &mut Vec<u8>, character: char) -> Result<(), AllocError>
    ensures { OnOk result (line.new.items
        ≡ line.old.items ++ codes ",\"text\":" ++ json_string (encode_utf8 character)) }
{
    line.extend_from_slice(b",\"text\":")?;
    append_character(line, character)
}
