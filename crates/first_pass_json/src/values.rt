//! Values in lines of JSON.

ghost use Rattle.first_pass_json.specs.JsonValues.{boolean, json_string, text_or_null, word};
ghost use Rattle.first_pass_json.specs.Members.{character_of};
ghost use Rattle.json.specs.Print.{escape_byte};
ghost use Rattle.std.specs.Char.{digit_char};
ghost use Rattle.std.specs.Option.{option_map};
ghost use Rattle.std.specs.Prelude.{◌≡◌, ◌<◌, ◌++◌, OnOk, encode_utf8};

use first_pass_reports::printed::node::{append_number, flag_name};
use itoa::Integer;
use std::alloc::AllocError;

/// Appends a text in quotation marks, with the escapes of JSON. Fails only if an allocation fails.
pub fn append_string(line: &mut Vec<u8>, text: &str) -> Result<(), AllocError>
    ensures { OnOk result (line.new.items ≡ line.old.items ++ json_string text.now) }
{
    let alloc = *line.allocator();
    match serde_json::to_vec(alloc, &text) {
        Ok(string) => line.extend_from_slice(string.as_slice()),
        Err(_) => Err(AllocError),
    }
}

/// Appends a text as a string, or `null` if there is none.
pub fn append_string_or_null(line: &mut Vec<u8>, text: Option<&str>) -> Result<(), AllocError>
    ensures { OnOk result (line.new.items ≡ line.old.items ++ text_or_null (option_map (λ t. t.now) text.entry)) }
{
    match text {
        None => line.extend_from_slice(b"null"),
        Some(text) => append_string(line, text),
    }
}

/// Appends a character as a string.
pub fn append_character(line: &mut Vec<u8>, character: char) -> Result<(), AllocError>
    ensures { OnOk result (line.new.items ≡ line.old.items ++ json_string (encode_utf8 character)) }
{
    let mut buffer = [0; 4];
    append_string(line, character.encode_utf8(&mut buffer))
}

/// Appends the character with this number as a string.
#[tactic(auto, using(crate::proofs::Plain::plain_character))]
pub fn append_byte(line: &mut Vec<u8>, byte: u8) -> Result<(), AllocError>
    ensures { OnOk result (line.new.items ≡ line.old.items ++ character_of byte) }
{
    if byte.is_ascii_graphic() && byte != b'"' && byte != b'\\' {
        line.extend_from_slice(&[b'"', byte, b'"'])
    } else {
        append_character(line, char::from(byte))
    }
}

/// Appends a word of letters in quotation marks.
pub fn append_word(line: &mut Vec<u8>, letters: &str) -> Result<(), AllocError>
    ensures { OnOk result (line.new.items ≡ line.old.items ++ word letters.now) }
{
    line.push(b'"')?;
    line.extend_from_slice(letters.as_bytes())?;
    line.push(b'"')?;
    Ok(())
}

/// Appends the name of a member, in the form that precedes its value, and a number.
pub fn append_number_after<I: Integer>(
    line: &mut Vec<u8>,
    name: &[u8],
    number: I,
) -> Result<(), AllocError>
    ensures { OnOk result (line.new.items ≡ line.old.items ++ name.now ++ I.text number) }
{
    line.extend_from_slice(name)?;
    append_number(line, number)
}

/// Appends the name of a member, and a truth value.
pub fn append_flag_after(line: &mut Vec<u8>, name: &[u8], flag: bool) -> Result<(), AllocError>
    ensures { OnOk result (line.new.items ≡ line.old.items ++ name.now ++ boolean flag) }
{
    line.extend_from_slice(name)?;
    line.extend_from_slice(flag_name(flag).as_bytes())
}

/// Appends the name of a member, and a text as a string.
pub fn append_string_after(line: &mut Vec<u8>, name: &[u8], text: &str) -> Result<(), AllocError>
    ensures { OnOk result (line.new.items ≡ line.old.items ++ name.now ++ json_string text.now) }
{
    line.extend_from_slice(name)?;
    append_string(line, text)
}

/// Appends a byte of a string of JSON, or its escape if it has one. Fails only if an allocation fails.
#[tactic(auto, unfolding(json::specs::Print::escape_byte))]
pub fn append_escape(held: &mut Vec<u8>, byte: u8) -> Result<(), AllocError>
    ensures { OnOk result (held.new.items ≡ held.old.items ++ escape_byte byte) }
{
    match byte {
        b'"' => held.extend_from_slice(b"\\\""),
        b'\\' => held.extend_from_slice(b"\\\\"),
        8 => held.extend_from_slice(b"\\b"),
        12 => held.extend_from_slice(b"\\f"),
        b'\n' => held.extend_from_slice(b"\\n"),
        b'\r' => held.extend_from_slice(b"\\r"),
        b'\t' => held.extend_from_slice(b"\\t"),
        0..=31 => held.extend_from_slice(&[
            b'\\',
            b'u',
            b'0',
            b'0',
            hex_digit(byte / 16),
            hex_digit(byte % 16),
        ]),
        _ => held.extend_from_slice(&[byte]),
    }
}

// The digit of a number in base 16, in lower case. The number is below 16.
fn hex_digit(number: u8) -> u8
    requires { number < 16 }
    ensures { result ≡ digit_char number }
{
    if number < 10 {
        b'0' + number
    } else {
        b'a' + (number - 10)
    }
}
