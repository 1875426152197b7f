//! Link reference definitions, as calls of the pass.

ghost use Rattle.first_pass.specs.Results.{FindsDefinition, FindsLabel, FindsSpace, FindsTarget, FindsTitle};
ghost use Rattle.first_pass.specs.Views.{source_text};
ghost use Rattle.first_pass_kinds.specs.Rests.{IsRestOf};
ghost use Rattle.std.specs.Prelude.{◌≡◌, IsCharBoundary};

use crate::state::FirstPass;
use first_pass_definitions::{label, reference, space, target, title};
use first_pass_items::cow_str::CowStr;
use first_pass_labels::label_key::LabelKey;
use first_pass_labels::label_table::LinkDef;
use std::alloc::AllocError;

impl<'a> FirstPass<'a> {
    /// Returns the link reference definition that begins at the offset `start`: its number of bytes, its label, and
    /// its destination and title. Returns `None` if none begins there. Changes nothing: the caller adds the definition
    /// to the table. Fails only if an allocation fails. That can happen only if a definition begins here, because its
    /// label is folded, or in the cases of the calls below (CommonMark 4.7).
    #[inline(always)]
    pub fn parse_refdef_total(
        &mut self,
        start: usize,
    ) -> Result<Option<(usize, LabelKey<'a>, LinkDef<'a>)>, AllocError>
        requires { IsCharBoundary (source_text self.old) start }
        ensures { FindsDefinition self.old self.new start result }
    {
        let pass = &self.pass;
        reference::parse_refdef_total(&pass.source, &pass.state.tree, start)
    }

    /// Returns the label after the `[` that is directly before the offset `start`. The result is its number of bytes
    /// from `start` on, with its `]`, and the label as read. Each run of white space is read as one space. Backslashes
    /// stay, except that in a table a backslash directly before a pipe is dropped. The label continues over the lines
    /// of a definition, without the container prefixes of these lines. Returns `None` if there is no label. Fails only
    /// if an allocation fails. That can happen only in two cases: reading changes the label; or no bracket ends it and
    /// some later line of the text may head a table (CommonMark 4.7).
    pub fn parse_refdef_label(
        &self,
        start: usize,
    ) -> Result<Option<(usize, CowStr<'a>)>, AllocError>
        requires { IsCharBoundary (source_text self.now) start }
        ensures { FindsLabel self.now start result }
    {
        label::parse_refdef_label(&self.pass.source, &self.pass.state.tree, start)
    }

    /// Reads the part of a definition after its colon, which is directly before the offset `start`: white space, a
    /// destination, and optionally white space and a title. Returns its number of bytes from `start` on, and the
    /// definition, whose destination and title are unescaped. Its span begins at `span_start`, and its label ends two
    /// bytes before `start`. Returns `None` if there is no destination. Also returns `None` if something other than
    /// white space or a line ending directly follows it, or if neither a title nor a blank rest of its line follows
    /// it. Fails only if an allocation fails. That can happen only if unescaping changes the destination or the title,
    /// the title has a line ending, or a line after a line ending may head a table (CommonMark 4.7).
    pub fn scan_refdef(
        &self,
        span_start: usize,
        start: usize,
    ) -> Result<Option<(usize, LinkDef<'a>)>, AllocError>
        requires { IsCharBoundary (source_text self.now) start }
        ensures { FindsTarget self.now span_start start result }
    {
        target::scan_refdef(&self.pass.source, &self.pass.state.tree, span_start, start)
    }

    /// Reads the white space of a definition at the offset `i` into `bytes`, the whole text. It has at most one line
    /// ending; after that, it continues where the definition continues in the next line. Returns the offset after it
    /// and its number of line endings. Returns `None` if a second line ending follows, or if the next line does not
    /// continue the definition. Fails only if an allocation fails. That can happen only if the line after the first
    /// line ending may head a table (CommonMark 4.7).
    pub fn scan_refdef_space(
        &self,
        bytes: &[u8],
        i: usize,
    ) -> Result<Option<(usize, usize)>, AllocError>
        requires whole { bytes.now ≡ source_text self.now }
        requires place { IsCharBoundary (source_text self.now) i }
        ensures { FindsSpace self.now i result }
    {
        let _ = bytes;
        space::scan_refdef_space(&self.pass.source, &self.pass.state.tree, i)
    }

    /// Returns the title at the start of `text`, which is the rest of the whole text from some offset. The result is
    /// its number of bytes, with its delimiters, and its content, not unescaped and with one `\n` for each line
    /// ending. The title continues over the lines of a definition. Returns `None` if there is no title. Fails only if
    /// an allocation fails. That can happen only if the title has a line ending, and the line after the first one
    /// either continues the title or may head a table (CommonMark 4.7).
    pub fn scan_refdef_title<'t>(
        &self,
        text: &'t str,
    ) -> Result<Option<(usize, CowStr<'t>)>, AllocError>
        requires { IsRestOf (source_text self.now) text.now }
        ensures { FindsTitle self.now text.now result }
    {
        title::scan_refdef_title(&self.pass.source, &self.pass.state.tree, text)
    }
}
