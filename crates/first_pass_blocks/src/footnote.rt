//! Footnote definitions: how the one that begins at a place is opened (this project).

ghost use Rattle.first_pass_blocks.specs.OpenedFootnotes.{ReadsFootnote, TriesFootnote};
ghost use Rattle.first_pass_blocks.specs.Views.{front_of, state_of, source_of, source_text};
ghost use Rattle.first_pass_lines.specs.Places.{IsPlaceOf};
ghost use Rattle.std.specs.Prelude.{◌≡◌, ◌+◌, ◌<◌, None, IfOk, IfSome, IsUtf8, IsCharBoundary};

use crate::state::BlockPass;
use first_pass_containers::footnote_place::{footnote_mark, place_after_head};
use first_pass_definitions::footnote_head::scan_footnote;
use first_pass_lines::lines::scan_whitespace_no_nl;
use first_pass_lines::places::rest_of;
use first_pass_open::place::Place;
use std::alloc::AllocError;

impl<'a> BlockPass<'a> {
    /// Opens the footnote definition that begins at a place, if the indentation is under four columns and the options
    /// include footnotes, and moves the place past its head. Returns whether one begins. If a list is innermost, it
    /// ends there. If another footnote definition is innermost after that, it ends there too.
    pub(crate) fn open_footnote(&mut self, place: &mut Place<'a>) -> Result<bool, AllocError>
        requires utf8 { IsUtf8 (source_text self.old) }
        requires place { IsPlaceOf (source_text self.old) place.old }
        requires no_empty { (state_of self.old).begin_list_item ≡ None }
        ensures { IfOk result (λ opens. TriesFootnote self.old self.new place.old place.new opens) }
    {
        self.source.recall_length();
        self.state.tree.recall_forest();
        let Some(start) = footnote_mark(&self.source, place) else {
            return Ok(false);
        };
        match self.parse_footnote(start)? {
            None => Ok(false),
            Some(size) => {
                *place = place_after_head(&self.source, start + size);
                Ok(true)
            }
        }
    }

    /// Opens the footnote definition that begins at the offset `start` into the text, and returns the length of its
    /// head in bytes; `None` if none begins. The head extends to after its colon, and in GitHub's form to after the
    /// white space there, without line endings. If a list is innermost, it ends at `start`. If another footnote
    /// definition is innermost after that, it ends there too. The label is added to the table, unless that has one
    /// with the same folding. If none begins, nothing changes. The call does not check whether the options include
    /// footnotes; without GitHub's form it reads the head in the old form. Fails only if an allocation fails (this
    /// project).
    pub fn parse_footnote(&mut self, start: usize) -> Result<Option<usize>, AllocError>
        requires boundary { IsCharBoundary (source_text self.old) start }
        ensures source { source_of self.new ≡ source_of self.old }
        ensures front { front_of self.new ≡ front_of self.old }
        ensures head { IfOk result (λ size. ReadsFootnote self.old self.new start size) }
        ensures within { IfOk result (λ size. IfSome size (λ n.
            (3 < n) × IsCharBoundary (source_text self.old) (start + n))) }
    {
        let Some((size, label)) = scan_footnote(&self.source, &self.state.tree, start)? else {
            return Ok(None);
        };
        self.allocs.define_footnote(self.source.alloc, &label)?;
        let index = self.allocs.allocate_cow(label)?;
        self.state.open_footnote(start, index)?;
        if !self.source.options.has_gfm_footnotes() {
            return Ok(Some(size));
        }
        let rest = rest_of(self.source.text.as_bytes(), start + size);
        Ok(Some(size + scan_whitespace_no_nl(rest)))
    }
}
