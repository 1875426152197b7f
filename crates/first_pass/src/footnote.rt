//! Footnote definitions, as a call of the pass (this project).

ghost use Rattle.first_pass.specs.Calls.{SeeksFootnote};
ghost use Rattle.first_pass.specs.Views.{source_text};
ghost use Rattle.std.specs.Prelude.{IsCharBoundary};

use crate::state::FirstPass;
use std::alloc::AllocError;

impl<'a> FirstPass<'a> {
    /// Opens the footnote definition that begins at the offset `start`, if one does. If the innermost open node is a
    /// list, it is closed there. If the innermost open node is then a footnote definition, that is closed too. The
    /// label is added to the table unless an equal folded label is there. Returns the number of bytes of the head: up
    /// to its colon, and in GitHub's form up to the white space after it, without line endings. Returns `None` and
    /// changes nothing if none begins. Reads a head even if the options have no footnotes; without GitHub's form it
    /// reads the old form. Fails only if an allocation fails (this project).
    pub fn parse_footnote(&mut self, start: usize) -> Result<Option<usize>, AllocError>
        requires { IsCharBoundary (source_text self.old) start }
        ensures { SeeksFootnote self.old self.new start result }
    {
        let pass = &mut self.pass;
        pass.state.tree.recall_forest();
        let size = pass.parse_footnote(start)?;
        Ok(size)
    }
}
