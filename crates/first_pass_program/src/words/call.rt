//! The call that the words denote.

ghost use Rattle.clap.specs.Words.{first_of, found_of, rows_of};
ghost use Rattle.first_pass_program.specs.Calls.{AsksRuns, Denotes, DenotesAt, GivesRuns, IsReport, form_of, is_on, values_in};
ghost use Rattle.first_pass_program.specs.OptionNames.{bits_with, words_in};
ghost use Rattle.std.specs.List.{flat_map};
ghost use Rattle.std.specs.Prelude.{◌≡◌, ◌++◌, IfOk, IfSome, OnOk, Some, codes, map, string_bytes};

use crate::words::command::command;
use crate::words::option_names::{OptionFault, add_options};
use bitflags::Flags;
use clap::ArgMatches;
use first_pass_host::option_word::begins_with_plus;
use first_pass_items::option_set::Options;
use std::alloc::{AllocError, Global};

/// The form of a report.
#[derive(Clone, Copy, PartialEq)]
pub enum Form {
    Text,
    Json,
}

/// The reports that a call may ask for, by command.
#[derive(Clone, Copy)]
pub enum ReportName {
    Blocks,
    Outline(Form),
    Links(Form),
    /// Whether lines and columns are added, and whether the texts of ranges are.
    Tree(bool, bool),
    Toc(Form),
    View,
    /// The number of runs, if one is given.
    Bench(Option<u32>),
}

/// What a call asks for.
#[derive(Drop)]
pub struct Call<'a> {
    pub report: ReportName,
    pub options: Options,
    /// Whether a byte order mark at the start of a text is left out.
    pub strips: bool,
    /// The names of the files.
    pub files: Vec<&'a str>,
    /// The name of a list of further files.
    pub list: Option<&'a str>,
}

/// A fault of the words.
#[derive(Drop)]
pub enum WordFault<'a> {
    /// The program does not take them, or they ask for help or the version.
    Refused(clap::Error),
    /// The program has no such command.
    NoCommand,
    /// A word of the command with this name does not name options.
    Options(&'a str, OptionFault<'a>),
    /// This word is no number of runs.
    Runs(&'a str),
    OutOfMemory,
}

impl From<AllocError> for WordFault<'_> {
    fn from(_error: AllocError) -> Self {
        WordFault::OutOfMemory
    }
}

impl From<clap::Error> for WordFault<'_> {
    fn from(error: clap::Error) -> Self {
        WordFault::Refused(error)
    }
}

/// Returns the call that words denote. The first word is the program's name. `names` is the help on the names of
/// options.
pub fn read_words<'a>(
    alloc: Global,
    words: &'a [String],
    names: &'a str,
) -> Result<Call<'a>, WordFault<'a>>
    ensures { IfOk result (Denotes (map string_bytes words.entry.now)) }
{
    let command = command(alloc, names)?;
    let matches = command.try_get_matches_from(words)?;
    match matches.subcommand() {
        Some((name, inner)) => call_of(alloc, name, inner),
        None => Err(WordFault::NoCommand),
    }
}

// The call of a command with these matches.
fn call_of<'a>(
    alloc: Global,
    name: &'a str,
    matches: &ArgMatches<'a>,
) -> Result<Call<'a>, WordFault<'a>>
    ensures { IfOk result (DenotesAt name.entry.now (rows_of (found_of matches.now))) }
{
    let report = report_of(name, matches)?;
    let options = match options_in(matches) {
        Ok(options) => options,
        Err(fault) => return Err(WordFault::Options(name, fault)),
    };
    let mut files = Vec::new(alloc);
    append_files(matches, &mut files)?;
    Ok(Call {
        report,
        options,
        strips: is_on(matches, "strip-bom"),
        files,
        list: matches.get_str("files-from"),
    })
}

// The options that the words of a command name.
#[tactic(auto, using(crate::proofs::CallLemmas::values_given, crate::proofs::CallLemmas::values_left))]
fn options_in<'a>(matches: &ArgMatches<'a>) -> Result<Options, OptionFault<'a>>
    ensures { IfOk result (λ options. bits_with (Some 0)
        (flat_map words_in (values_in (codes "options") (rows_of (found_of matches.now)))) ≡ Some options.0) }
{
    match matches.get_strs("options") {
        Some(lists) => options_of(lists),
        None => Ok(Options::empty()),
    }
}

// Appends the names of the files of a command.
fn append_files<'a>(matches: &ArgMatches<'a>, files: &mut Vec<&'a str>) -> Result<(), AllocError>
    ensures { OnOk result (map (λ file. file.now) files.new.items
        ≡ map (λ file. file.now) files.old.items ++ values_in (codes "files") (rows_of (found_of matches.now))) }
{
    match matches.get_strs("files") {
        Some(names) => files.extend_from_slice(names),
        None => Ok(()),
    }
}

// The report of a command with these matches.
fn report_of<'a>(name: &str, matches: &ArgMatches<'a>) -> Result<ReportName, WordFault<'a>>
    ensures { IfOk result (IsReport name.now (rows_of (found_of matches.now))) }
{
    if name == "blocks" {
        return Ok(ReportName::Blocks);
    }
    if name == "outline" {
        return Ok(ReportName::Outline(form_of(matches)));
    }
    if name == "links" {
        return Ok(ReportName::Links(form_of(matches)));
    }
    if name == "tree" {
        return Ok(ReportName::Tree(is_on(matches, "lines"), is_on(matches, "text")));
    }
    if name == "toc" {
        return Ok(ReportName::Toc(form_of(matches)));
    }
    if name == "view" {
        return Ok(ReportName::View);
    }
    if name == "bench" {
        return Ok(ReportName::Bench(runs_of(matches)?));
    }
    Err(WordFault::NoCommand)
}

// The form that the flag `--json` gives a report.
fn form_of(matches: &ArgMatches<'_>) -> Form
    ensures { result ≡ form_of (rows_of (found_of matches.now)) }
{
    if is_on(matches, "json") {
        Form::Json
    } else {
        Form::Text
    }
}

// Whether a flag is among the words.
#[tactic(auto, using(crate::proofs::CallLemmas::flag_on, crate::proofs::CallLemmas::flag_off))]
fn is_on(matches: &ArgMatches<'_>, flag: &str) -> bool
    ensures { result ≡ is_on flag.now (rows_of (found_of matches.now)) }
{
    match matches.get_str(flag) {
        Some(value) => value == "true",
        None => false,
    }
}

// The number of runs, if one is given.
#[tactic(auto, using(crate::proofs::CallLemmas::runs_given, crate::proofs::CallLemmas::runs_left))]
fn runs_of<'a>(matches: &ArgMatches<'a>) -> Result<Option<u32>, WordFault<'a>>
    ensures { IfOk result (AsksRuns (first_of (codes "runs") (rows_of (found_of matches.now)))) }
{
    match matches.get_str("runs") {
        Some(word) => match number_of(word) {
            Some(runs) => Ok(Some(runs)),
            None => Err(WordFault::Runs(word)),
        },
        None => Ok(None),
    }
}

// The number of runs that a word gives: a decimal value from 1 to 999,999,999.
fn number_of(word: &str) -> Option<u32>
    ensures { IfSome result (GivesRuns word.now) }
{
    if begins_with_plus(word) {
        return None;
    }
    match word.parse::<u32>() {
        Ok(runs) if 0 < runs && runs < 1_000_000_000 => Some(runs),
        _ => None,
    }
}

// The options that lists mean together.
fn options_of<'a>(lists: &[&'a str]) -> Result<Options, OptionFault<'a>>
    ensures { IfOk result (λ options.
        bits_with (Some 0) (flat_map words_in (map (λ list. list.now) lists.now)) ≡ Some options.0) }
{
    let mut options = Options::empty();
    for list in lists {
        options = add_options(options, list)?;
    }
    Ok(options)
}
