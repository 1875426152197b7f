//! Entity and numeric character references (CommonMark 2.5).

ghost use Rattle.first_pass_entities.specs.Entities.{referred, number_at, numeric_at, named_in_xml, named_sign, named_punctuation, named, name_at, entity_at};
ghost use Rattle.first_pass_entities.specs.Texts.{TakesNoMemory};
ghost use Rattle.first_pass_items.specs.CowText.{text_of};
ghost use Rattle.std.specs.Char.{digit_value, is_ascii_digit, is_ascii_hexdigit, is_ascii_alphabetic};
ghost use Rattle.std.specs.List.{prefix_len};
ghost use Rattle.std.specs.Prelude.{◌≡◌, ◌≤◌, length, encode_utf8, IfSome, IsSomeAnd, MatchOption, None};
ghost use Rattle.std.specs.Str.Parse.{digits_value};

use first_pass_items::cow_str::{CowStr, InlineStr};
use first_pass_lines::lines::begins;

/// Returns the length of the entity or numeric character reference at the start of `bytes`, and its text. The length
/// is in bytes, from its `&` to its `;`; the text takes no memory. Returns `(0, None)` if no reference is there. The
/// twelve names are `amp lt gt quot apos nbsp copy reg hellip mdash ndash AElig`. CommonMark 2.5.
pub fn scan_entity(bytes: &[u8]) -> (usize, Option<CowStr<'static>>)
    ensures value { MatchOption (entity_at bytes.now)
        (result ≡ (0, None))
        (λ entity. (result.0 ≡ entity.0) × IsSomeAnd result.1 (λ text. text_of text ≡ encode_utf8 entity.1)) }
    ensures within { result.0 ≤ length bytes.now }
    ensures in_place { IfSome result.1 TakesNoMemory }
{
    match scan_reference(bytes) {
        Some((len, character)) => (len, Some(CowStr::Inlined(InlineStr::from_char(character)))),
        None => (0, None),
    }
}

/// Returns the length in bytes of the reference at the start of `bytes`, and its character; `None` if there is no
/// reference. CommonMark 2.5.
#[tactic(auto, unfolding(crate::specs::Entities::entity_at))]
pub fn scan_reference(bytes: &[u8]) -> Option<(usize, char)>
    ensures value { result ≡ entity_at bytes.now }
    ensures within { IfSome result (λ e. e.0 ≤ length bytes.now) }
{
    if !begins(b'&', bytes) {
        return None;
    }
    let rest = &bytes[1..];
    if begins(b'#', rest) {
        match scan_numeric(&rest[1..]) {
            Some((len, character)) => Some((len + 2, character)),
            None => None,
        }
    } else {
        match scan_name(rest) {
            Some((len, character)) => Some((len + 1, character)),
            None => None,
        }
    }
}

// A numeric reference after its `&#`.
#[tactic(auto, unfolding(crate::specs::Entities::numeric_at, crate::specs::Entities::number_at))]
fn scan_numeric(bytes: &[u8]) -> Option<(usize, char)>
    ensures value { result ≡ numeric_at bytes.now }
    ensures within { IfSome result (λ e. e.0 ≤ length bytes.now) }
{
    if begins(b'x', bytes) || begins(b'X', bytes) {
        match scan_hexadecimal(&bytes[1..]) {
            Some((len, character)) => Some((len + 1, character)),
            None => None,
        }
    } else {
        scan_decimal(bytes)
    }
}

#[tactic(auto, unfolding(crate::specs::Entities::number_at))]
fn scan_decimal(bytes: &[u8]) -> Option<(usize, char)>
    ensures value { result ≡ number_at is_ascii_digit 10 7 bytes.now }
    ensures within { IfSome result (λ e. e.0 ≤ length bytes.now) }
{
    let count = scan_digits(bytes);
    if 1 <= count && count <= 7 && begins(b';', &bytes[count..]) {
        Some((count + 1, referred(decimal_value(&bytes[..count]))))
    } else {
        None
    }
}

#[tactic(auto, unfolding(crate::specs::Entities::number_at))]
fn scan_hexadecimal(bytes: &[u8]) -> Option<(usize, char)>
    ensures value { result ≡ number_at is_ascii_hexdigit 16 6 bytes.now }
    ensures within { IfSome result (λ e. e.0 ≤ length bytes.now) }
{
    let count = scan_hexadecimal_digits(bytes);
    if 1 <= count && count <= 6 && begins(b';', &bytes[count..]) {
        Some((count + 1, referred(hexadecimal_value(&bytes[..count]))))
    } else {
        None
    }
}

fn scan_digits(bytes: &[u8]) -> usize
    ensures value { result ≡ prefix_len is_ascii_digit bytes.now }
    ensures within { result ≤ length bytes.now }
{
    bytes.iter().take_while(|b| b.is_ascii_digit()).count()
}

fn scan_hexadecimal_digits(bytes: &[u8]) -> usize
    ensures value { result ≡ prefix_len is_ascii_hexdigit bytes.now }
    ensures within { result ≤ length bytes.now }
{
    bytes.iter().take_while(|b| b.is_ascii_hexdigit()).count()
}

fn decimal_value(digits: &[u8]) -> u64
    requires { length digits.now ≤ 7 }
    ensures { result ≡ digits_value 10 digits.now }
{
    let mut value = 0;
    for digit in digits {
        value = value * 10 + digit_value(*digit);
    }
    value
}

fn hexadecimal_value(digits: &[u8]) -> u64
    requires { length digits.now ≤ 6 }
    ensures { result ≡ digits_value 16 digits.now }
{
    let mut value = 0;
    for digit in digits {
        value = value * 16 + digit_value(*digit);
    }
    value
}

// The value of a digit or letter; 36 for any other byte.
fn digit_value(byte: u8) -> u64
    ensures value { result ≡ digit_value byte }
    ensures small { result ≤ 36 }
{
    match byte {
        b'0'..=b'9' => (byte - b'0') as u64,
        b'A'..=b'Z' => (byte - b'A') as u64 + 10,
        b'a'..=b'z' => (byte - b'a') as u64 + 10,
        _ => 36,
    }
}

// The character that a number refers to.
fn referred(number: u64) -> char
    ensures { result ≡ referred number }
{
    if number == 0 || number > 0x10_FFFF {
        return char::REPLACEMENT_CHARACTER;
    }
    match char::from_u32(number as u32) {
        Some(character) => character,
        None => char::REPLACEMENT_CHARACTER,
    }
}

// An entity reference after its `&`: a name and then `;`.
#[tactic(auto, unfolding(crate::specs::Entities::name_at))]
fn scan_name(bytes: &[u8]) -> Option<(usize, char)>
    ensures value { result ≡ name_at bytes.now }
    ensures within { IfSome result (λ e. e.0 ≤ length bytes.now) }
{
    let count = scan_letters(bytes);
    if !begins(b';', &bytes[count..]) {
        return None;
    }
    match named(&bytes[..count]) {
        Some(character) => Some((count + 1, character)),
        None => None,
    }
}

fn scan_letters(bytes: &[u8]) -> usize
    ensures value { result ≡ prefix_len is_ascii_alphabetic bytes.now }
    ensures within { result ≤ length bytes.now }
{
    bytes.iter().take_while(|b| b.is_ascii_alphabetic()).count()
}

// The character of an entity name.
#[tactic(auto, unfolding(crate::specs::Entities::named))]
fn named(name: &[u8]) -> Option<char>
    ensures { result ≡ named name.now }
{
    if let Some(character) = named_in_xml(name) {
        return Some(character);
    }
    match named_sign(name) {
        Some(character) => Some(character),
        None => named_punctuation(name),
    }
}

#[tactic(auto, unfolding(crate::specs::Entities::named_in_xml))]
fn named_in_xml(name: &[u8]) -> Option<char>
    ensures { result ≡ named_in_xml name.now }
{
    match name {
        b"amp" => Some('&'),
        b"lt" => Some('<'),
        b"gt" => Some('>'),
        b"quot" => Some('"'),
        b"apos" => Some('\''),
        _ => None,
    }
}

#[tactic(auto, unfolding(crate::specs::Entities::named_sign))]
fn named_sign(name: &[u8]) -> Option<char>
    ensures { result ≡ named_sign name.now }
{
    match name {
        b"nbsp" => Some('\u{a0}'),
        b"copy" => Some('\u{a9}'),
        b"reg" => Some('\u{ae}'),
        b"AElig" => Some('\u{c6}'),
        _ => None,
    }
}

#[tactic(auto, unfolding(crate::specs::Entities::named_punctuation))]
fn named_punctuation(name: &[u8]) -> Option<char>
    ensures { result ≡ named_punctuation name.now }
{
    if name == b"hellip".as_slice() {
        return Some('\u{2026}');
    }
    match name {
        b"mdash" => Some('\u{2014}'),
        b"ndash" => Some('\u{2013}'),
        _ => None,
    }
}
