//! The words that the program takes, by clap.

ghost use Rattle.clap.specs.Words.{App, app_of, new_app, rule_of, with_rule};
ghost use Rattle.first_pass_program.specs.Apps.{IsApp, bench_app, blocks_app, first_pass_app, flag_rule, json_app, top_app, tree_app, value_rule, view_app, with_options, with_texts};
ghost use Rattle.std.specs.Prelude.{◌≡◌, ℕ, List, codes, false, IfOk};

use clap::{Arg, ArgAction, Command};
use std::alloc::{AllocError, Global};

/// The words that the program takes. `names` is the help on the names of options.
pub fn command<'a>(alloc: Global, names: &'a str) -> Result<Command<'a>, AllocError>
    ensures { IfOk result (λ command. app_of command ≡ first_pass_app) }
{
    let outline = "print the level, range and id of each heading, a heading a line";
    let links = "print links, images, footnotes, link definitions and undefined references";
    let toc = "write a table of contents: the headings, nested";
    whole(alloc)
        .subcommand(blocks(alloc, names)?)?
        .subcommand(with_json(alloc, named(alloc, "outline", outline, names))?)?
        .subcommand(with_json(alloc, named(alloc, "links", links, names))?)?
        .subcommand(tree(alloc, names)?)?
        .subcommand(with_json(alloc, named(alloc, "toc", toc, names))?)?
        .subcommand(view(alloc, names)?)?
        .subcommand(bench(alloc, names)?)
}

// The program without its commands.
fn whole<'a>(alloc: Global) -> Command<'a>
    ensures { IsApp top_app result }
{
    Command::new(alloc, "first_pass")
        .version("0.1.0")
        .long_version("0.1.0\nA port of the first pass of pulldown-cmark 0.13.6, proved in Rattle.")
        .propagate_version(true)
        .about("Reads Markdown, and writes a report on its blocks.")
        .subcommand_required(true)
        .arg_required_else_help(true)
        .disable_help_subcommand(true)
}

// The command with a name, without its arguments.
fn named<'a>(alloc: Global, name: &'a str, about: &'a str, names: &'a str) -> Command<'a>
    ensures { IsApp (new_app name.entry.now) result }
{
    Command::new(alloc, name).about(about).after_help(names)
}

fn blocks<'a>(alloc: Global, names: &'a str) -> Result<Command<'a>, AllocError>
    ensures { IfOk result (IsApp blocks_app) }
{
    let about = "print the tree of a text's blocks, a node a line";
    with_texts(alloc, named(alloc, "blocks", about, names))
}

fn tree<'a>(alloc: Global, names: &'a str) -> Result<Command<'a>, AllocError>
    ensures { IfOk result (IsApp tree_app) }
{
    let about = "write the tree and its tables as lines of JSON";
    let lines = "Add line and column to each offset, from 1, columns in units of UTF-16";
    let text = "Add the text of each range, as \"source\"";
    let tree = named(alloc, "tree", about, names)
        .arg(flag(alloc, "lines", lines))?
        .arg(flag(alloc, "text", text))?;
    with_texts(alloc, tree)
}

fn view<'a>(alloc: Global, names: &'a str) -> Result<Command<'a>, AllocError>
    ensures { IfOk result (IsApp view_app) }
{
    let about = "write a page of HTML that shows a text with its tree";
    let file = Arg::new(alloc, "files").value_name("FILE").help(
        "A text in UTF-8: standard input if none is named, and for '-'",
    );
    with_options(alloc, named(alloc, "view", about, names))?.arg(file)
}

fn bench<'a>(alloc: Global, names: &'a str) -> Result<Command<'a>, AllocError>
    ensures { IfOk result (IsApp bench_app) }
{
    let about = "measure the time of the pass over a text";
    let runs = Arg::new(alloc, "runs")
        .long("runs")
        .value_name("N")
        .help("Run the pass N times, instead of for a second");
    with_texts(alloc, named(alloc, "bench", about, names).arg(runs)?)
}

// A command with the flag `--json`, over several files.
fn with_json<'a>(alloc: Global, command: Command<'a>) -> Result<Command<'a>, AllocError>
    ensures { IfOk result (λ json. (name : List ℕ) → IsApp (new_app name) command.entry
        → IsApp (json_app name) json) }
{
    let json = flag(alloc, "json", "Write JSON instead of text");
    with_texts(alloc, command.arg(json)?)
}

// A command over several files.
fn with_texts<'a>(alloc: Global, command: Command<'a>) -> Result<Command<'a>, AllocError>
    ensures { IfOk result (λ texts. (app : App) → IsApp app command.entry → IsApp (with_texts app) texts) }
{
    let list = Arg::new(alloc, "files-from")
        .long("files-from")
        .value_name("FILE")
        .help(
            "Read the names of further files from a file, or standard input for '-': one a line, or before each NUL",
        );
    let files = Arg::new(alloc, "files")
        .value_name("FILE")
        .action(ArgAction::Append)
        .help("Texts in UTF-8: standard input if none is named, and for '-'");
    with_options(alloc, command)?.arg(list)?.arg(files)
}

// A command with options for its texts.
fn with_options<'a>(alloc: Global, command: Command<'a>) -> Result<Command<'a>, AllocError>
    ensures { IfOk result (λ options. (app : App) → IsApp app command.entry → IsApp (with_options app) options) }
{
    let options = Arg::new(alloc, "options")
        .short('o')
        .long("options")
        .value_name("NAMES")
        .action(ArgAction::Append)
        .help("The extensions to read: names or sets with commas between them, or a decimal value");
    let strip = "Leave out a byte order mark at the start of a text";
    command.arg(options)?.arg(flag(alloc, "strip-bom", strip))
}

// A flag without a short form.
fn flag<'a>(alloc: Global, name: &'a str, help: &'a str) -> Arg<'a>
    ensures rule { rule_of result ≡ flag_rule name.entry.now }
    ensures local { result.global ≡ false }
{
    Arg::new(alloc, name)
        .long(name)
        .action(ArgAction::SetTrue)
        .help(help)
}
