//! The options that words name.

ghost use Rattle.first_pass_program.specs.OptionNames.{IsFaultAt, IsFaultOf, bits_among, bits_with, entries_on, is_number, joined, named_bits, names_text, value_bits, with_underscores, word_bits, words_in};
ghost use Rattle.std.specs.Prelude.{◌≡◌, ◌==◌, ◌<◌, ◌++◌, [], codes, if◌then◌else◌, length, not, true, map, option_map, string_bytes, IfErr, IfOk, OnOk, Some};
ghost use Rattle.std.specs.Str.{bytes_eq};

use bitflags::Flags;
use first_pass_items::option_set::Options;
use std::alloc::{AllocError, Global};

/// A fault of a word that names options.
#[derive(Clone, Copy)]
pub enum OptionFault<'a> {
    /// No option has this name.
    NoOption(&'a str),
    /// No options have this value.
    NoValue(&'a str),
    /// This list lacks a name.
    NoName(&'a str),
}

// What the help says below the names.
const STATUS: &str = "
Status: 0; 1 if memory ran out; 2 for a wrong word, a file that can't be read, a text that isn't UTF-8 or a failed
write. With several files each is tried, and the status is the highest.";

/// Each option with its bits.
pub static OPTIONS: [(&str, u32); 15] = [
    ("tables", 2),
    ("footnotes", 4),
    ("strikethrough", 8),
    ("tasklists", 16),
    ("smart_punctuation", 32),
    ("heading_attributes", 64),
    ("yaml_style_metadata_blocks", 128),
    ("pluses_delimited_metadata_blocks", 256),
    ("old_footnotes", 516),
    ("math", 1024),
    ("gfm", 2048),
    ("definition_list", 4096),
    ("superscript", 8192),
    ("subscript", 16384),
    ("wikilinks", 32768),
];

/// Each set of options with its bits. What GitHub reads is tables, footnotes, strikethrough, tasklists and gfm; docs
/// adds heading_attributes, yaml_style_metadata_blocks, math and definition_list.
pub static SETS: [(&str, u32); 4] = [
    ("commonmark", 0),
    ("github", 2078),
    ("docs", 7390),
    ("all", 65534),
];

/// The help on the names of options and sets, from their tables: a line for each, with its bits.
pub fn names_help(alloc: Global) -> Result<String, AllocError> {
    let above = "Names of options, each with its value; '-' may stand for '_':\n";
    let mut help = String::from_str(alloc, above)?;
    for entry in &OPTIONS {
        writeln!(help, "  {:<34}{}", entry.0, entry.1)?;
    }
    help.push_str("Sets:\n")?;
    for entry in &SETS {
        writeln!(help, "  {:<34}{}", entry.0, entry.1)?;
    }
    help.push_str(STATUS)?;
    Ok(help)
}

/// The names of the options that are on, with a comma and a space between two, or `none`.
pub fn option_list(alloc: Global, options: Options) -> Result<String, AllocError>
    ensures { IfOk result (λ names. string_bytes names ≡ names_text options.0) }
{
    let mut names = String::new(alloc);
    if push_names(OPTIONS.as_slice(), options.bits(), &mut names)? {
        return Ok(names);
    }
    names.push_str("none")?;
    Ok(names)
}

// Appends the names of the entries whose bits are on, with a comma and a space between two. Returns whether there is
// one.
fn push_names(entries: &[(&str, u32)], bits: u32, names: &mut String) -> Result<bool, AllocError>
    ensures text { OnOk result (string_bytes names.new ≡ string_bytes names.old
        ++ joined (entries_on bits (map (λ e. (e.0.now, e.1)) entries.now))) }
    ensures some { IfOk result (λ some. some
        ≡ not (length (entries_on bits (map (λ e. (e.0.now, e.1)) entries.now)) == 0)) }
{
    let mut some = false;
    for entry in entries {
        if bits & entry.1 != entry.1 {
            continue;
        }
        push_name(names, entry.0, some)?;
        some = true;
    }
    Ok(some)
}

// Appends a name, after a comma and a space if there is a name before it.
fn push_name(names: &mut String, name: &str, follows: bool) -> Result<(), AllocError>
    ensures { OnOk result (string_bytes names.new ≡ string_bytes names.old
        ++ ((if follows then codes ", " else []) ++ name.now)) }
{
    if follows {
        names.push_str(", ")?;
    }
    names.push_str(name)
}

/// Adds the options that a list means to others: names, sets and decimal values, with commas between them. A name may
/// have `-` for `_`, and a value has at most nine digits. Fails on a word without a meaning.
pub fn add_options<'a>(options: Options, list: &'a str) -> Result<Options, OptionFault<'a>>
    ensures ok { IfOk result (λ sum. bits_with (Some options.0) (words_in list.entry.now) ≡ Some sum.0) }
    ensures fault { IfErr result (IsFaultOf list.entry.now) }
{
    let mut sum = options;
    for word in list.split(',') {
        sum = sum.union(options_of(list, word)?);
    }
    Ok(sum)
}

// The options that a word of a list means.
fn options_of<'a>(list: &'a str, word: &'a str) -> Result<Options, OptionFault<'a>>
    ensures ok { IfOk result (λ options. word_bits word.entry.now ≡ Some options.0) }
    ensures fault { IfErr result (IsFaultAt list.entry.now word.entry.now) }
{
    if word.is_empty() {
        return Err(OptionFault::NoName(list));
    }
    if is_number(word) {
        return options_of_value(word).ok_or(OptionFault::NoValue(word));
    }
    match named_bits(word) {
        Some(bits) => Ok(Options::from_bits_retain(bits)),
        None => Err(OptionFault::NoOption(word)),
    }
}

// Whether each byte of a word is a digit.
fn is_number(word: &str) -> bool
    ensures { result ≡ is_number word.now }
{
    word.as_bytes().iter().all(|byte| byte.is_ascii_digit())
}

// The options of a decimal value, of at most nine digits.
fn options_of_value(word: &str) -> Option<Options>
    ensures { 0 < length word.now → is_number word.now ≡ true
        → option_map (λ options. options.0) result ≡ value_bits word.now }
{
    if 9 < word.len() {
        return None;
    }
    match word.parse::<u32>() {
        Ok(bits) => Options::from_bits(bits),
        Err(_) => None,
    }
}

// The bits of the name of an option or a set, in which `-` may stand for `_`.
#[tactic(auto, unfolding(crate::specs::OptionNames::named_bits))]
fn named_bits(word: &str) -> Option<u32>
    ensures { result ≡ named_bits word.now }
{
    match bits_among(OPTIONS.as_slice(), word) {
        Some(bits) => Some(bits),
        None => bits_among(SETS.as_slice(), word),
    }
}

// The bits of the first entry with a name, in which `-` may stand for `_`.
fn bits_among(entries: &[(&str, u32)], word: &str) -> Option<u32>
    ensures { result ≡ bits_among (map (λ e. (e.0.now, e.1)) entries.now) word.now }
{
    for entry in entries {
        if is_named(word.as_bytes(), entry.0.as_bytes()) {
            return Some(entry.1);
        }
    }
    None
}

// Whether a word is a name, in which `-` may stand for `_`.
fn is_named(word: &[u8], name: &[u8]) -> bool
    ensures { result ≡ bytes_eq (with_underscores word.now) name.now }
{
    match (word, name) {
        ([], []) => true,
        ([a, more @ ..], [b, others @ ..]) => underscored(*a) == *b && is_named(more, others),
        _ => false,
    }
}

// `_` for `-`.
fn underscored(byte: u8) -> u8
    ensures { result ≡ (if byte == 45 then 95 else byte) }
{
    if byte == b'-' { b'_' } else { byte }
}
