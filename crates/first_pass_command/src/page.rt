//! The page of a file.

ghost use Rattle.first_pass_command.specs.Named.{LeavesNamed};
ghost use Rattle.first_pass_command.specs.Pages.{SaysPage, title_of};
ghost use Rattle.first_pass_host.specs.Runs.{WritesOutput};
ghost use Rattle.first_pass_host.specs.Streams.{stream_between};
ghost use Rattle.std.specs.Prelude.{◌≡◌, IfErr, OnOk};

use crate::reports::FileReport;
use first_pass_blocks::parser::BlockParser;
use first_pass_host::fault::RunFault;
use first_pass_host::report::{Report, Subject};
use first_pass_host::tree_report::TreeReport;
use first_pass_json::page::{Part, TreePage};
use first_pass_program::words::option_names::option_list;
use std::io::Write;

/// The page of HTML, by a template, that shows a text with its tree, the name of its file and the names of the options.
#[derive(Clone, Copy)]
pub struct ShownTree<'t>(pub &'t [Part<'t>]);

impl FileReport for ShownTree<'_> {
    ghost says = { λ report name. SaysPage report.0.now name };

    fn write_named<W: Write>(
        &self,
        name: &str,
        subject: Subject<'_>,
        output: &mut W,
    ) -> Result<(), RunFault> {
        write_page(self.0, name, subject, output)
    }
}

// Writes the page of the text of a file.
fn write_page<'p, W: Write>(
    template: &'p [Part<'p>],
    name: &'p str,
    subject: Subject<'_>,
    output: &mut W,
) -> Result<(), RunFault>
    ensures ok { OnOk result (WritesOutput (SaysPage template.now name.now) subject.entry.options
        subject.entry.text.now (stream_between (W.contents output.old) (W.contents output.new))) }
    ensures fault { IfErr result (λ fault. LeavesNamed (SaysPage template.now name.now) fault
        subject.entry.options subject.entry.text.now
        (stream_between (W.contents output.old) (W.contents output.new))) }
{
    let names = option_list(subject.alloc, subject.options)?;
    let page = TreePage {
        title: title_of(name),
        options: names.as_str(),
        template,
    };
    TreeReport(BlockParser, page).write_report(subject, output)
}

// The title of the page of a file: `-` is standard input.
fn title_of(name: &str) -> &str
    ensures { result.now ≡ title_of name.now }
{
    if name == "-" { "standard input" } else { name }
}
