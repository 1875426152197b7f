//! The report of the links of a text.

ghost use Rattle.first_pass_linked.specs.LinkLines.{AreLinkLines};

use crate::form::LineForm;
use crate::report::write_links;
use first_pass_host::fault::RunFault;
use first_pass_host::report::{Report, Subject};
use first_pass_names::parse::Parse;
use std::io::Write;

/// The report of the links of a text, in a form of lines, as `write_links` writes them. It is proved for every parser.
#[derive(Drop)]
pub struct LinkReport<P, F>(pub P, pub F);

impl<P: Parse, F: LineForm> Report for LinkReport<P, F> {
    ghost says = { λ report options text output. AreLinkLines (F.forms report.1) options text output };

    fn write_report<W: Write>(&self, subject: Subject<'_>, output: &mut W) -> Result<(), RunFault> {
        let (tree, allocs) = self.0.parse(subject.alloc, subject.text, subject.options)?;
        write_links(&self.1, subject, &tree, &allocs, output)
    }
}
